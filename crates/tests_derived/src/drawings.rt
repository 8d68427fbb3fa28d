// Records in records: drawings of lines between places.

ghost use Rattle.archive_core.specs.Definitions.{no_definition};
ghost use Rattle.archive_core.specs.Shape.{one};
ghost use Rattle.archive_core.specs.SealOutcomes.{IsSealOf};

use crate::assertions::{
    assert_archived, assert_bytes, assert_holds, assert_same, sealed, viewed, write_second,
};
use crate::events::{batch, variant_of};
use crate::judgements::{assert_faults, outside, unknown_tag};
use crate::spots::{assert_spot, line, rising};
use archive_core::seal::Seal;
use archive_core::traits::Portable;
use archive_core::view::Ref;
use derived_types::event::{Event, EventSeal};
use derived_types::spot::{
    ArchivedDrawing, ArchivedLine, Drawing, DrawingSeal, DrawingView, Line, LineSeal, LineView,
    Spot, SpotSeal,
};
use std::alloc::Global;
use std::process::Abort;

// What a drawing owns: the line from 5, 6 to 7, 8, that from 9, 10 to 11, 12, and the numbers 1 and 2. Behind that it stands at 24: the line from 1, -2 to 3, 4;
// a vector that points 32 bytes back at the first line; the tag 1 and a box that points 36 bytes back at the second one; the tag 4 and a vector that points 36
// bytes back at the numbers.
const DRAWING: &[u8; 60] =
    b"\x05\0\x06\0\x07\0\x08\0\x09\0\x0a\0\x0b\0\x0c\0\x01\0\0\0\x02\0\0\0\x01\0\xfe\xff\x03\0\x04\0\xe0\xff\xff\xff\x01\0\0\0\x01\0\0\0\xdc\xff\xff\xff\x04\0\0\0\xdc\xff\xff\xff\x02\0\0\0";

// Zeros, but for the vector at 8, which points 8 bytes back at no line.
const BLANK: &[u8; 36] =
    b"\0\0\0\0\0\0\0\0\xf8\xff\xff\xff\0\0\0\0\0\0\0\0\0\0\0\0\0\0\0\0\0\0\0\0\0\0\0\0";

// The drawing that the first bytes are the archive of.
pub(crate) fn drawing(rt: &impl Abort, alloc: Global) -> Drawing {
    let lines = vec![in alloc; rising(5)];
    let last = Box::new(alloc, rising(9)).expect(rt, "memory for a line");
    Drawing {
        first: line(),
        lines: lines.expect(rt, "memory for lines"),
        last: Some(last),
        event: batch(rt, alloc),
    }
}

// And the one of zeros.
pub(crate) fn blank(alloc: Global) -> Drawing {
    let from = Spot { right: 0, up: 0 };
    let to = Spot { right: 0, up: 0 };
    Drawing {
        first: Line { from, to },
        lines: Vec::new(alloc),
        last: None,
        event: Event::Quit,
    }
}

#[test]
fn drawings_are_written_and_read_back(rt: HostRuntime) {
    let alloc = rt.alloc();
    let rows = [
        (drawing(&rt, alloc), DRAWING.as_slice()),
        (blank(alloc), BLANK.as_slice()),
    ];
    for (drawing, archive) in rows {
        assert_archived(&rt, alloc, &drawing, 36, archive);
    }
}

// A view shows a line between places of which each number is by one greater than the one before.
fn assert_rising(rt: &impl Abort, view: Ref<'_, ArchivedLine>, first: u8) {
    assert_spot(rt, view.from(), first as u16, first.wrapping_add(1) as i16);
    let (right, up) = (first.wrapping_add(2), first.wrapping_add(3));
    assert_spot(rt, view.to(), right as u16, up as i16);
}

// A view shows the drawing above.
pub(crate) fn assert_drawing(rt: &impl Abort, view: Ref<'_, ArchivedDrawing>) {
    assert_spot(rt, view.first().from(), 1, -2);
    assert_spot(rt, view.first().to(), 3, 4);
    let lines = view.lines().as_slice();
    assert_same(rt, "how many lines", lines.len(), 1);
    let (Some(only), Some(last)) = (lines.get(0), view.last().as_ref()) else {
        panic!(rt; "no lines")
    };
    assert_rising(rt, only, 5);
    assert_rising(rt, last.get(), 9);
    assert_same(rt, "the event", variant_of(rt, view.event()), 4);
}

// And the one of zeros.
fn assert_blank(rt: &impl Abort, view: Ref<'_, ArchivedDrawing>) {
    assert_spot(rt, view.first().from(), 0, 0);
    assert_holds(rt, "no line", view.lines().is_empty());
    assert_holds(rt, "no last one", view.last().as_ref().is_none());
    assert_same(rt, "the event", variant_of(rt, view.event()), 0);
}

#[test]
fn drawings_are_viewed(rt: HostRuntime) {
    let alloc = rt.alloc();
    assert_drawing(&rt, viewed::<ArchivedDrawing>(&rt, alloc, DRAWING));
    assert_blank(&rt, viewed::<ArchivedDrawing>(&rt, alloc, BLANK));
}

// Writes over the end of a line.
fn write_end(line: Seal<'_, ArchivedLine>, up: i16)
    requires { IsSealOf no_definition (one ⟦<ArchivedLine as Portable>⟧.shape) line }
{
    line.to_mut().up_mut().write(up);
}

// Writes over the ends of all lines of a drawing.
fn write_ends(rt: &impl Abort, alloc: Global, bytes: &mut [u8]) {
    write_end(sealed::<ArchivedDrawing>(rt, alloc, bytes).first_mut(), 14);
    let lines = sealed::<ArchivedDrawing>(rt, alloc, bytes)
        .lines_mut()
        .as_slice_seal();
    if lines.len() > 0 {
        write_end(lines.index(0), 18);
    }
    let last = sealed::<ArchivedDrawing>(rt, alloc, bytes)
        .last_mut()
        .as_seal();
    if let Some(last) = last {
        write_end(last.get_seal(), 22);
    }
}

// Writes over the batch of a drawing.
fn write_batch(rt: &impl Abort, alloc: Global, bytes: &mut [u8], number: u32) {
    let event = sealed::<ArchivedDrawing>(rt, alloc, bytes).event_mut();
    if event.as_ref().tag() == 4 {
        write_second(event.batch_0_mut().as_slice_seal(), number);
    }
}

#[test]
fn a_drawing_is_edited(rt: HostRuntime) {
    let mut bytes = *DRAWING;
    write_ends(&rt, rt.alloc(), &mut bytes);
    write_batch(&rt, rt.alloc(), &mut bytes, 7);
    let wanted =
        b"\x05\0\x06\0\x07\0\x12\0\x09\0\x0a\0\x0b\0\x16\0\x01\0\0\0\x07\0\0\0\x01\0\xfe\xff\x03\0\x0e\0\xe0\xff\xff\xff\x01\0\0\0\x01\0\0\0\xdc\xff\xff\xff\x04\0\0\0\xdc\xff\xff\xff\x02\0\0\0";
    assert_bytes(&rt, "the edited drawing", &bytes, wanted);
}

#[test]
fn faults_of_drawings_are_found(rt: HostRuntime) {
    let rows = [
        (36, 4, outside(0, 32, 0, 24)),
        (40, 3, unknown_tag("ArchivedOption", 3)),
        (44, 0xd8, outside(4, 8, 8, 24)),
        (48, 5, unknown_tag("ArchivedEvent", 5)),
    ];
    assert_faults::<ArchivedDrawing>(&rt, rt.alloc(), DRAWING, &rows);
    let rows = [(8, 0xf4, outside(-4, 0, 0, 0))];
    assert_faults::<ArchivedDrawing>(&rt, rt.alloc(), BLANK, &rows);
}
