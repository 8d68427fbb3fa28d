// Records of numbers, and records of such records.

use crate::assertions::{assert_archived, assert_same, value_of};
use archive_core::api::to_bytes;
use archive_core::traits::Archive;
use archive_core::view::Ref;
use derived_types::spot::{ArchivedSpot, Drawing, Line, Spot, SpotView};
use std::alloc::{AllocError, Global};
use std::process::Abort;

// The number 7, and -2 in two's complement.
const SPOT: &[u8; 4] = b"\x07\0\xfe\xff";

// 1 and -2, and behind them 3 and 4.
const LINE: &[u8; 8] = b"\x01\0\xfe\xff\x03\0\x04\0";

// The place that those bytes are the archive of.
fn spot() -> Spot {
    Spot { right: 7, up: -2 }
}

// And the line.
pub(crate) fn line() -> Line {
    Line {
        from: Spot { right: 1, up: -2 },
        to: Spot { right: 3, up: 4 },
    }
}

// A line between places of which each number is by one greater than the one before.
pub(crate) fn rising(first: u8) -> Line {
    let from = Spot {
        right: first as u16,
        up: first.wrapping_add(1) as i16,
    };
    let to = Spot {
        right: first.wrapping_add(2) as u16,
        up: first.wrapping_add(3) as i16,
    };
    Line { from, to }
}

#[test]
fn a_spot_is_written_and_read_back(rt: HostRuntime) {
    assert_archived(&rt, rt.alloc(), &spot(), 4, SPOT);
}

// A view shows a place.
pub(crate) fn assert_spot(rt: &impl Abort, view: Ref<'_, ArchivedSpot>, right: u16, up: i16) {
    assert_same(rt, "right", view.right().get(), right);
    assert_same(rt, "up", view.up().get(), up);
}

#[test]
fn a_line_is_written_and_read_back(rt: HostRuntime) {
    assert_archived(&rt, rt.alloc(), &line(), 8, LINE);
}

// So many lines.
fn lines(alloc: Global, count: usize) -> Result<Vec<Line>, AllocError> {
    let mut lines = Vec::new(alloc);
    for index in 0..count {
        lines.push(rising((index & 0xff) as u8))?;
    }
    Ok(lines)
}

// The values of an archive that is written of these.
fn again(rt: &impl Abort, alloc: Global, lines: &Vec<Line>) -> Vec<Line> {
    let bytes = to_bytes(alloc, lines).expect(rt, "an archive");
    assert_same(
        rt,
        "the length",
        bytes.len(),
        lines.len().saturating_mul(8).saturating_add(8),
    );
    value_of(rt, alloc, bytes.as_slice(), &mut ())
}

#[test]
fn many_lines_are_written_in_bulk(rt: HostRuntime) {
    let places = Spot::copy_optimization().is_enabled();
    let structs = Line::copy_optimization().is_enabled();
    let owners = Drawing::copy_optimization().is_enabled();
    assert_same(
        &rt,
        "in bulk",
        (places, structs, owners),
        (true, true, false),
    );
    let lines = lines(rt.alloc(), 1_000).expect(&rt, "lines");
    assert_same(&rt, "the lines", &again(&rt, rt.alloc(), &lines), &lines);
}
