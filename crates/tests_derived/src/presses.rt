// An enum of forty variants, whose views are compared as the values that they show.

ghost use Rattle.archive_core.specs.Definitions.{no_definition};
ghost use Rattle.archive_core.specs.Shape.{one};
ghost use Rattle.archive_core.specs.SealOutcomes.{IsSealOf};

use crate::assertions::{
    assert_archived, assert_bytes, assert_same, sealed, text, viewed, write_text,
};
use crate::judgements::{assert_faults, unknown_tag};
use crate::ranks::assert_ascending;
use archive_core::error::Error;
use archive_core::seal::Seal;
use archive_core::traits::Portable;
use archive_core::view::Ref;
use derived_plain::press::{ArchivedPress, Press, PressSeal, PressView, ViewOfPress};
use std::alloc::Global;
use std::process::Abort;

// The tag 1, and behind it at 4 the number.
const SCANNED: &[u8; 12] = b"\x01\0\0\0\x02\x01\0\0\0\0\0\0";
// The tag 38, and behind it at 4 a text within its string.
const NAMED: &[u8; 12] = b"\x26\0\0\0menu\xff\xff\xff\xff";
// The tag 39, the modifiers, and at 4 an é.
const CHORD: &[u8; 12] = b"\x27\x05\0\0\xe9\0\0\0\0\0\0\0";

// A key has this archive, and is read back of it.
fn assert_press(rt: &impl Abort, alloc: Global, press: &Press, archive: &[u8]) {
    assert_archived(rt, alloc, press, 12, archive);
}

// A key without fields has this tag and zeros behind it, and is read back of them.
fn assert_tagged(rt: &impl Abort, alloc: Global, press: &Press, tag: u8) {
    assert_press(rt, alloc, press, &[tag, 0, 0, 0, 0, 0, 0, 0, 0, 0, 0, 0]);
}

#[test]
fn keys_without_fields_are_written_and_read_back(rt: HostRuntime) {
    let alloc = rt.alloc();
    assert_tagged(&rt, alloc, &Press::Unknown, 0);
    assert_tagged(&rt, alloc, &Press::A, 2);
    assert_tagged(&rt, alloc, &Press::Digit9, 37);
}

#[test]
fn keys_with_fields_are_written_and_read_back(rt: HostRuntime) {
    let alloc = rt.alloc();
    assert_press(&rt, alloc, &Press::Scanned(258), SCANNED);
    let menu = text(&rt, alloc, "menu");
    assert_press(&rt, alloc, &Press::Named(menu), NAMED);
    let chord = Press::Chord {
        modifiers: 5,
        key: 'é',
    };
    assert_press(&rt, alloc, &chord, CHORD);
}

// The tag of the variant that a view shows, of some, whose fields are those of the archives above.
fn variant_of(rt: &impl Abort, view: Ref<'_, ArchivedPress>) -> u8 {
    match view.variant() {
        ViewOfPress::Unknown => 0,
        ViewOfPress::Scanned(code) => {
            assert_same(rt, "the code", code.get(), 258);
            1
        }
        ViewOfPress::A => 2,
        ViewOfPress::Digit9 => 37,
        ViewOfPress::Named(name) => {
            assert_same(rt, "the name", name.as_str(), "menu");
            38
        }
        ViewOfPress::Chord { modifiers, key } => {
            assert_same(rt, "the chord", (modifiers.get(), key.get()), (5, 'é'));
            39
        }
        _ => 255,
    }
}

#[test]
fn keys_are_viewed(rt: HostRuntime) {
    for tag in [0u8, 2, 37] {
        let archive = [tag, 0, 0, 0, 0, 0, 0, 0, 0, 0, 0, 0];
        let view = viewed::<ArchivedPress>(&rt, rt.alloc(), &archive);
        assert_same(&rt, "the variant", variant_of(&rt, view), tag);
    }
    for (tag, archive) in [(1, SCANNED), (38, NAMED), (39, CHORD)] {
        let view = viewed::<ArchivedPress>(&rt, rt.alloc(), archive);
        assert_same(&rt, "the variant with fields", variant_of(&rt, view), tag);
    }
}

#[test]
fn views_of_keys_are_ordered(rt: HostRuntime) {
    let archives = [
        b"\0\0\0\0\0\0\0\0\0\0\0\0".as_slice(),
        SCANNED.as_slice(),
        b"\x01\0\0\0\x01\x02\0\0\0\0\0\0".as_slice(),
        b"\x02\0\0\0\0\0\0\0\0\0\0\0".as_slice(),
        b"\x25\0\0\0\0\0\0\0\0\0\0\0".as_slice(),
        NAMED.as_slice(),
        b"\x27\x04\0\0\xe9\0\0\0\0\0\0\0".as_slice(),
        CHORD.as_slice(),
    ];
    assert_ascending::<ArchivedPress>(&rt, rt.alloc(), &archives);
}

// Writes over the fields of a key that has some.
fn write_fields(press: Seal<'_, ArchivedPress>)
    requires { IsSealOf no_definition (one ⟦<ArchivedPress as Portable>⟧.shape) press }
{
    match press.as_ref().tag() {
        1 => press.scanned_0_mut().write(7),
        38 => write_text(press.named_0_mut(), "jump"),
        39 => press.chord_key_mut().write('z'),
        _ => {}
    }
}

#[test]
fn keys_are_edited(rt: HostRuntime) {
    let rows = [
        (SCANNED, b"\x01\0\0\0\x07\0\0\0\0\0\0\0"),
        (NAMED, b"\x26\0\0\0jump\xff\xff\xff\xff"),
        (CHORD, b"\x27\x05\0\0z\0\0\0\0\0\0\0"),
    ];
    for (archive, edited) in rows {
        let mut bytes = *archive;
        write_fields(sealed(&rt, rt.alloc(), &mut bytes));
        assert_bytes(&rt, "the edited key", &bytes, edited);
    }
}

#[test]
fn faults_of_keys_are_found(rt: HostRuntime) {
    let tags = [
        (0, 40, unknown_tag("ArchivedPress", 40)),
        (0, 255, unknown_tag("ArchivedPress", 255)),
    ];
    assert_faults::<ArchivedPress>(&rt, rt.alloc(), CHORD, &tags);
    assert_faults::<ArchivedPress>(&rt, rt.alloc(), CHORD, &[(6, 0x11, Error::InvalidChar)]);
    assert_faults::<ArchivedPress>(&rt, rt.alloc(), NAMED, &[(4, 0xc0, Error::InvalidUtf8)]);
}
