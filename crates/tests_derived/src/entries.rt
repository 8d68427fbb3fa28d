// A record that holds an enum.

ghost use Rattle.archive_core.specs.Definitions.{no_definition};
ghost use Rattle.archive_core.specs.Shape.{one};
ghost use Rattle.archive_core.specs.SealOutcomes.{IsSealOf};

use crate::assertions::{assert_archived, assert_bytes, assert_same, sealed, text, viewed};
use crate::events::variant_of;
use crate::judgements::{assert_faults, assert_refused, outside, unaligned, unknown_tag};
use archive_core::error::Error;
use archive_core::seal::Seal;
use archive_core::traits::Portable;
use derived_types::entry::{ArchivedEntry, Entry, EntrySeal, EntryView};
use derived_types::event::{ArchivedEvent, Event, EventSeal};
use std::alloc::Global;
use std::process::Abort;

// A text, and at 16, a multiple of 8, the number 9, the tag 2, the string that points back at the text, and four zeros.
const TEXT: &[u8; 40] =
    b"hello world\0\0\0\0\0\x09\0\0\0\0\0\0\0\x02\0\0\0\x8b\0\0\0\xe4\xff\xff\xff\0\0\0\0";

// The number 9, the tag 3 and the numbers -2 and 258, and four zeros.
const MOVE: &[u8; 24] = b"\x09\0\0\0\0\0\0\0\x03\0\0\0\xfe\xff\xff\xff\x02\x01\0\0\0\0\0\0";

// An event after nine seconds, and its archive.
fn assert_entry(rt: &impl Abort, alloc: Global, event: Event, archive: &[u8]) {
    let entry = Entry { seconds: 9, event };
    assert_archived(rt, alloc, &entry, 24, archive);
}

#[test]
fn entries_are_written_and_read_back(rt: HostRuntime) {
    let text = text(&rt, rt.alloc(), "hello world");
    assert_entry(&rt, rt.alloc(), Event::Text(text), TEXT);
    assert_entry(&rt, rt.alloc(), Event::Move { x: -2, y: 258 }, MOVE);
}

// What an archive of an entry shows: the seconds, and the number of the event's variant.
fn shown(rt: &impl Abort, alloc: Global, archive: &[u8]) -> (u64, u8) {
    let view = viewed::<ArchivedEntry>(rt, alloc, archive);
    (view.seconds().get(), variant_of(rt, view.event()))
}

#[test]
fn entries_are_viewed(rt: HostRuntime) {
    let text = shown(&rt, rt.alloc(), TEXT);
    assert_same(&rt, "a text", text, (9, 2));
    let step = shown(&rt, rt.alloc(), MOVE);
    assert_same(&rt, "a step", step, (9, 3));
}

// Moves a step.
fn move_step(event: Seal<'_, ArchivedEvent>, x: i32)
    requires { IsSealOf no_definition (one ⟦<ArchivedEvent as Portable>⟧.shape) event }
{
    if event.as_ref().tag() == 3 {
        event.move_x_mut().write(x);
    }
}

#[test]
fn an_entry_is_edited(rt: HostRuntime) {
    let mut bytes = *MOVE;
    sealed::<ArchivedEntry>(&rt, rt.alloc(), &mut bytes)
        .seconds_mut()
        .write(258);
    let later = b"\x02\x01\0\0\0\0\0\0\x03\0\0\0\xfe\xff\xff\xff\x02\x01\0\0\0\0\0\0";
    assert_bytes(&rt, "later", &bytes, later);
    move_step(
        sealed::<ArchivedEntry>(&rt, rt.alloc(), &mut bytes).event_mut(),
        5,
    );
    let moved = b"\x02\x01\0\0\0\0\0\0\x03\0\0\0\x05\0\0\0\x02\x01\0\0\0\0\0\0";
    assert_bytes(&rt, "moved", &bytes, moved);
}

#[test]
fn faults_of_entries_are_found(rt: HostRuntime) {
    let rows = [
        (24, 9, unknown_tag("ArchivedEvent", 9)),
        (24, 4, outside(167, 17_179_869_072, 0, 16)),
        (28, 0x88, Error::InvalidStringRepr),
        (32, 0xf0, outside(12, 11, 0, 16)),
        (3, 0xff, Error::InvalidUtf8),
    ];
    assert_faults::<ArchivedEntry>(&rt, rt.alloc(), TEXT, &rows);
    let mut unaligned_bytes = [0; 28];
    unaligned_bytes[4] = 9;
    assert_refused::<ArchivedEntry>(&rt, rt.alloc(), &[(&unaligned_bytes, unaligned(4, 8))]);
}
