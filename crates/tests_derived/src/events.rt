// An enum of five variants: of no field, of one, and of two with names.

ghost use Rattle.archive_core.specs.Definitions.{no_definition};
ghost use Rattle.archive_core.specs.Shape.{one};
ghost use Rattle.archive_core.specs.SealOutcomes.{IsSealOf};

use crate::assertions::{
    assert_archived, assert_bytes, assert_holds, assert_same, sealed, text, viewed, write_second,
    write_text,
};
use crate::judgements::{assert_faults, outside, unknown_tag};
use archive_core::error::Error;
use archive_core::seal::Seal;
use archive_core::traits::Portable;
use archive_core::view::Ref;
use derived_types::event::{ArchivedEvent, Event, EventSeal, EventView, ViewOfEvent};
use std::alloc::Global;
use std::process::Abort;

// The tag 0, and eleven bytes of no field.
const QUIT: &[u8] = b"\0\0\0\0\0\0\0\0\0\0\0\0";

// The tag 1, and at 4 the char é.
const KEY: &[u8] = b"\x01\0\0\0\xe9\0\0\0\0\0\0\0";

// A text and a zero, and at 12 the tag 2 with, four bytes behind it, the string that points back at it.
const TEXT: &[u8] = b"hello world\0\x02\0\0\0\x8b\0\0\0\xf0\xff\xff\xff";

// The tag 2 and a string with its text in it.
const SHORT_TEXT: &[u8] = b"\x02\0\0\0hi\xff\xff\xff\xff\xff\xff";

// The tag 3, at 4 the number -2, and behind it 258.
const MOVE: &[u8] = b"\x03\0\0\0\xfe\xff\xff\xff\x02\x01\0\0";

// The numbers 1 and 2, and at 8 the tag 4 with the vector that points back at them.
const BATCH: &[u8] = b"\x01\0\0\0\x02\0\0\0\x04\0\0\0\xf4\xff\xff\xff\x02\0\0\0";

// An event that numbers came.
pub(crate) fn batch(rt: &impl Abort, alloc: Global) -> Event {
    let numbers = vec![in alloc; 1u32, 2];
    Event::Batch(numbers.expect(rt, "memory for numbers"))
}

// The bytes are the archive of an event, and are read back as it.
fn assert_event(rt: &impl Abort, alloc: Global, event: &Event, archive: &[u8]) {
    assert_archived(rt, alloc, event, 12, archive);
}

#[test]
fn events_without_memory_are_written_and_read_back(rt: HostRuntime) {
    let alloc = rt.alloc();
    assert_event(&rt, alloc, &Event::Quit, QUIT);
    assert_event(&rt, alloc, &Event::Key('é'), KEY);
    assert_event(&rt, alloc, &Event::Move { x: -2, y: 258 }, MOVE);
}

#[test]
fn events_with_memory_are_written_and_read_back(rt: HostRuntime) {
    let alloc = rt.alloc();
    let long = text(&rt, alloc, "hello world");
    assert_event(&rt, alloc, &Event::Text(long), TEXT);
    let short = text(&rt, alloc, "hi");
    assert_event(&rt, alloc, &Event::Text(short), SHORT_TEXT);
    assert_event(&rt, alloc, &batch(&rt, alloc), BATCH);
}

// The number of the variant that a view shows, whose fields are those of the archives above.
pub(crate) fn variant_of(rt: &impl Abort, view: Ref<'_, ArchivedEvent>) -> u8 {
    match view.variant() {
        ViewOfEvent::Quit => 0,
        ViewOfEvent::Key(key) => {
            assert_same(rt, "the key", key.get(), 'é');
            1
        }
        ViewOfEvent::Text(text) => {
            assert_same(rt, "the text", text.as_str(), "hello world");
            2
        }
        ViewOfEvent::Move { x, y } => {
            assert_same(rt, "the step", (x.get(), y.get()), (-2, 258));
            3
        }
        ViewOfEvent::Batch(numbers) => {
            assert_holds(rt, "the numbers", numbers.eq_slice(&[1u32, 2]));
            4
        }
    }
}

#[test]
fn events_are_viewed(rt: HostRuntime) {
    for (number, archive) in [(0, QUIT), (1, KEY), (2, TEXT), (3, MOVE), (4, BATCH)] {
        let view = viewed::<ArchivedEvent>(&rt, rt.alloc(), archive);
        assert_same(&rt, "the variant", variant_of(&rt, view), number);
        assert_same(&rt, "the tag", view.tag(), number);
    }
}

// Edits an event in place: a key or a number becomes another one.
fn edit_number(event: Seal<'_, ArchivedEvent>)
    requires { IsSealOf no_definition (one ⟦<ArchivedEvent as Portable>⟧.shape) event }
{
    match event.as_ref().tag() {
        1 => event.key_0_mut().write('A'),
        3 => event.move_x_mut().write(5),
        4 => write_second(event.batch_0_mut().as_slice_seal(), 7),
        _ => {}
    }
}

// The number of a step up, or a text, becomes another one.
fn edit_other(event: Seal<'_, ArchivedEvent>)
    requires { IsSealOf no_definition (one ⟦<ArchivedEvent as Portable>⟧.shape) event }
{
    match event.as_ref().tag() {
        2 => write_text(event.text_0_mut(), "good-bye..."),
        3 => event.move_y_mut().write(-1),
        _ => {}
    }
}

// The bytes of an archive of an event become these by both edits.
fn assert_edited(rt: &impl Abort, alloc: Global, bytes: &mut [u8], wanted: &[u8]) {
    edit_number(sealed::<ArchivedEvent>(rt, alloc, bytes));
    edit_other(sealed::<ArchivedEvent>(rt, alloc, bytes));
    assert_bytes(rt, "the edited event", bytes, wanted);
}

#[test]
fn events_are_edited(rt: HostRuntime) {
    let mut key = *b"\x01\0\0\0\xe9\0\0\0\0\0\0\0";
    assert_edited(&rt, rt.alloc(), &mut key, b"\x01\0\0\0A\0\0\0\0\0\0\0");
    let mut text = *b"hello world\0\x02\0\0\0\x8b\0\0\0\xf0\xff\xff\xff";
    let other = b"good-bye...\0\x02\0\0\0\x8b\0\0\0\xf0\xff\xff\xff";
    assert_edited(&rt, rt.alloc(), &mut text, other);
    let mut step = *b"\x03\0\0\0\xfe\xff\xff\xff\x02\x01\0\0";
    let other = b"\x03\0\0\0\x05\0\0\0\xff\xff\xff\xff";
    assert_edited(&rt, rt.alloc(), &mut step, other);
    let mut batch = *b"\x01\0\0\0\x02\0\0\0\x04\0\0\0\xf4\xff\xff\xff\x02\0\0\0";
    let other = b"\x01\0\0\0\x07\0\0\0\x04\0\0\0\xf4\xff\xff\xff\x02\0\0\0";
    assert_edited(&rt, rt.alloc(), &mut batch, other);
}

// In each row an index, another byte that is put there, and the fault that all checks find then.
fn assert_event_faults(
    rt: &impl Abort,
    alloc: Global,
    archive: &[u8],
    rows: &[(usize, u8, Error)],
) {
    assert_faults::<ArchivedEvent>(rt, alloc, archive, rows);
}

#[test]
fn events_are_checked(rt: HostRuntime) {
    let unknown = unknown_tag("ArchivedEvent", 5);
    assert_event_faults(&rt, rt.alloc(), QUIT, &[(0, 5, unknown)]);
    let surrogate = (5, 0xd8, Error::InvalidChar);
    // As a string, the char's bytes are an inline text that isn't UTF-8.
    let string = (0, 2, Error::InvalidUtf8);
    assert_event_faults(&rt, rt.alloc(), KEY, &[(0, 5, unknown), surrogate, string]);
    let rows = [
        (0, 0xff, Error::InvalidUtf8),
        (16, 0x81, Error::InvalidStringRepr),
        (20, 0xf2, outside(2, 11, 0, 12)),
    ];
    assert_event_faults(&rt, rt.alloc(), TEXT, &rows);
    let rows = [
        (12, 0xf5, outside(1, 8, 0, 8)),
        (16, 3, outside(0, 12, 0, 8)),
    ];
    assert_event_faults(&rt, rt.alloc(), BATCH, &rows);
}
