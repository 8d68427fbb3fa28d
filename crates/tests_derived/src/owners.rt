// A record of what owns something: a result, boxes of numbers and of a text, a pair, and what has no byte.

ghost use Rattle.archive_core.specs.Definitions.{no_definition};
ghost use Rattle.archive_core.specs.Shape.{text as text_pointee};
ghost use Rattle.archive_core.specs.SealOutcomes.{IsSealOf};

use crate::assertions::{
    assert_bytes, assert_holds, assert_same, assert_written, sealed, text, value_of, viewed,
    write_second, write_text,
};
use crate::judgements::{assert_faults, outside, unaligned, unknown_tag};
use archive_core::boxed::{ArchivedBox, BoxSlice, BoxStr};
use archive_core::core_impls::ArchivedTuple2;
use archive_core::error::Error;
use archive_core::primitive::ArchivedU16;
use archive_core::result::ArchivedResult;
use archive_core::seal::Seal;
use archive_core::slice::ArchivedSlice;
use archive_core::string::{ArchivedStr, ArchivedString};
use archive_core::view::Ref;
use derived_types::kinds::{ArchivedOwners, Owners, OwnersSeal, OwnersView};
use std::alloc::Global;
use std::marker::PhantomData;
use std::process::Abort;

// A text and a zero, the numbers 1 and 258 at 12, the text "hé" and a zero. At 20 the tag 1 with the string that points back at 0, the box that points 20 bytes
// back at two numbers, the one that points 24 bytes back at three bytes, and the number 9 with a string.
const OWNERS: &[u8; 60] =
    b"hello world\0\x01\0\x02\x01h\xc3\xa9\0\x01\0\0\0\x8b\0\0\0\xe8\xff\xff\xff\xec\xff\xff\xff\x02\0\0\0\xe8\xff\xff\xff\x03\0\0\0\x09\0\0\0hi\xff\xff\xff\xff\xff\xff";

// A text and a zero. At 12 the tag 0 with the number 7, boxes that point 24 and 32 bytes back at nothing, and the number 9 with the string that points back at 0.
const OTHERS: &[u8; 52] =
    b"hello world\0\0\x07\0\0\0\0\0\0\0\0\0\0\xe8\xff\xff\xff\0\0\0\0\xe0\xff\xff\xff\0\0\0\0\x09\0\0\0\x8b\0\0\0\xd4\xff\xff\xff";

// A value with these parts.
fn owners(
    rt: &impl Abort,
    alloc: Global,
    outcome: Result<u8, String>,
    numbers: &[u16],
    boxed: &str,
    paired: &str,
) -> Owners {
    let items = numbers.to_vec(alloc).expect(rt, "memory for numbers");
    Owners {
        outcome,
        numbers: BoxSlice { items },
        text: BoxStr {
            text: text(rt, alloc, boxed),
        },
        both: (9, text(rt, alloc, paired)),
        of: PhantomData,
    }
}

// These bytes are the archive of such a value.
fn assert_owners_written(rt: &impl Abort, alloc: Global, value: &Owners, archive: &[u8]) {
    assert_written(rt, alloc, value, 40, archive);
}

#[test]
fn owners_are_written(rt: HostRuntime) {
    let alloc = rt.alloc();
    let why = Err(text(&rt, alloc, "hello world"));
    let value = owners(&rt, alloc, why, &[1, 258], "hé", "hi");
    assert_owners_written(&rt, alloc, &value, OWNERS);
    let value = owners(&rt, alloc, Ok(7), &[], "", "hello world");
    assert_owners_written(&rt, alloc, &value, OTHERS);
}

// What an archive of owners is read back as has these parts.
fn assert_owners(
    rt: &impl Abort,
    back: &Owners,
    outcome: Result<u8, &str>,
    numbers: &[u16],
    texts: (&str, &str),
) {
    match (&back.outcome, outcome) {
        (Ok(found), Ok(number)) => assert_same(rt, "the number", *found, number),
        (Err(found), Err(text)) => assert_same(rt, "the reason", found.as_str(), text),
        _ => panic!(rt; "the other variant"),
    }
    assert_same(rt, "the numbers", back.numbers.items.as_slice(), numbers);
    let found = (back.text.text.as_str(), back.both.1.as_str());
    assert_same(rt, "the texts", found, texts);
    assert_same(rt, "the pair's number", back.both.0, 9);
}

// The value that an archive is read back as.
fn read(rt: &impl Abort, alloc: Global, archive: &[u8]) -> Owners {
    value_of(rt, alloc, archive, &mut ())
}

#[test]
fn owners_are_read_back(rt: HostRuntime) {
    let back = read(&rt, rt.alloc(), OWNERS);
    assert_owners(&rt, &back, Err("hello world"), &[1, 258], ("hé", "hi"));
    let back = read(&rt, rt.alloc(), OTHERS);
    assert_owners(&rt, &back, Ok(7), &[], ("", "hello world"));
}

// The outcome is an error with this reason.
fn assert_reason(rt: &impl Abort, view: Ref<'_, ArchivedOwners>, reason: &str) {
    let outcome: Ref<'_, ArchivedResult<u8, ArchivedString>> = view.outcome();
    let Err(text) = outcome.as_ref() else {
        panic!(rt; "no reason")
    };
    assert_same(rt, "the reason", text.as_str(), reason);
}

// The box holds these numbers.
fn assert_numbers(rt: &impl Abort, view: Ref<'_, ArchivedOwners>, numbers: &[u16]) {
    let boxed: Ref<'_, ArchivedBox<ArchivedSlice<ArchivedU16>>> = view.numbers();
    assert_holds(rt, "the numbers", boxed.get().eq_slice(numbers));
}

// The pair has this text.
fn assert_pair(rt: &impl Abort, view: Ref<'_, ArchivedOwners>, text: &str) {
    let both: Ref<'_, ArchivedTuple2<u8, ArchivedString>> = view.both();
    assert_same(rt, "the pair's number", both.field::<u8>(0).get(), 9);
    let found = both.field::<ArchivedString>(1);
    assert_same(rt, "the pair's text", found.as_str(), text);
}

#[test]
fn owners_are_viewed(rt: HostRuntime) {
    let view = viewed::<ArchivedOwners>(&rt, rt.alloc(), OWNERS);
    assert_reason(&rt, view, "hello world");
    assert_numbers(&rt, view, &[1, 258]);
    assert_same(&rt, "the text", view.text().get().as_str(), "hé");
    assert_pair(&rt, view, "hi");
    assert_same(&rt, "the end", view.of().pos(), 60);
}

// Writes over the texts of the outcome and of the pair.
fn write_texts(rt: &impl Abort, alloc: Global, bytes: &mut [u8], reason: &str, paired: &str) {
    let outcome = sealed::<ArchivedOwners>(rt, alloc, bytes).outcome_mut();
    if let Err(text) = outcome.as_seal() {
        write_text(text, reason);
    }
    let both = sealed::<ArchivedOwners>(rt, alloc, bytes).both_mut();
    write_text(both.field::<ArchivedString>(1), paired);
}

// Writes over a boxed text with as many bytes.
fn write_boxed(seal: Seal<'_, ArchivedStr>, text: &str)
    requires { IsSealOf no_definition text_pointee seal }
{
    if seal.as_ref().len() == text.len() {
        seal.write_str(text);
    }
}

// Writes over what the boxes hold.
fn write_boxes(rt: &impl Abort, alloc: Global, bytes: &mut [u8], number: u16, text: &str) {
    let numbers = sealed::<ArchivedOwners>(rt, alloc, bytes).numbers_mut();
    write_second(numbers.get_seal(), number);
    let boxed = sealed::<ArchivedOwners>(rt, alloc, bytes).text_mut();
    write_boxed(boxed.as_str_seal(), text);
}

#[test]
fn owners_are_edited(rt: HostRuntime) {
    let mut bytes = *OWNERS;
    write_texts(&rt, rt.alloc(), &mut bytes, "good-bye...", "ho");
    write_boxes(&rt, rt.alloc(), &mut bytes, 7, "abc");
    let wanted =
        b"good-bye...\0\x01\0\x07\0abc\0\x01\0\0\0\x8b\0\0\0\xe8\xff\xff\xff\xec\xff\xff\xff\x02\0\0\0\xe8\xff\xff\xff\x03\0\0\0\x09\0\0\0ho\xff\xff\xff\xff\xff\xff";
    assert_bytes(&rt, "the edited owners", &bytes, wanted);
}

#[test]
fn faults_of_owners_are_found(rt: HostRuntime) {
    let rows = [
        (17, 0x41, Error::InvalidUtf8),
        (20, 2, unknown_tag("ArchivedResult", 2)),
        (24, 0x83, Error::InvalidStringRepr),
        (32, 0xef, unaligned(15, 2)),
        (36, 9, outside(12, 18, 11, 20)),
        (40, 0xeb, outside(19, 3, 16, 20)),
        (52, 0xc0, Error::InvalidUtf8),
    ];
    assert_faults::<ArchivedOwners>(&rt, rt.alloc(), OWNERS, &rows);
}
