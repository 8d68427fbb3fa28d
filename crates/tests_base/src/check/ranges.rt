// The calls on a range, and the refusals' texts.

use crate::assertions::{assert_refusal, assert_same, assert_shown};
use archive_check::context::{ArchiveContext, ArchiveValidator};
use archive_check::format::error::Error;
use archive_check::format::layout::Layout;
use std::alloc::Global;
use std::ops::Range;
use std::process::Abort;

// A refusal has this number, this name and this text.
fn assert_described(
    rt: &impl Abort,
    alloc: Global,
    error: Error,
    (number, name): (u32, &str),
    text: &str,
) {
    let found = (error.number(), error.name());
    assert_same(rt, name, found, (number, name));
    assert_shown(rt, alloc, &error, text);
}

#[test]
fn refusals_have_numbers_names_and_texts(rt: HostRuntime) {
    let alloc = rt.alloc();
    let name = (1, "OutOfMemory");
    assert_described(&rt, alloc, Error::OutOfMemory, name, "out of memory");
    let unaligned = Error::UnalignedPointer {
        position: 11,
        align: 4,
    };
    let name = (17, "UnalignedPointer");
    let text = "region at position 11 is not aligned to 4 bytes";
    assert_described(&rt, alloc, unaligned, name, text);
    let name = (29, "InvalidStringRepr");
    let text = "a string that is stored out of line has eight bytes or fewer";
    assert_described(&rt, alloc, Error::InvalidStringRepr, name, text);
    let name = (32, "UnsortedKeys");
    let text = "the keys of a sorted map do not ascend strictly";
    assert_described(&rt, alloc, Error::UnsortedKeys, name, text);
}

// A region lies in the range at its alignment.
fn assert_inside(
    rt: &impl Abort,
    range: &mut ArchiveValidator<'_>,
    position: i128,
    layout: &Layout,
) {
    let found = range.check_subtree_ptr(position, layout);
    found.expect(rt, "a region in the range");
}

// A region doesn't lie in the range from `start` to `end`.
fn assert_outside(
    rt: &impl Abort,
    range: &mut ArchiveValidator<'_>,
    position: i128,
    layout: &Layout,
    (start, end): (usize, usize),
) {
    let found = range.check_subtree_ptr(position, layout);
    let refusal = Error::InvalidSubtreePointer {
        position,
        size: layout.size,
        start,
        end,
    };
    assert_refusal(rt, "a region outside", found, refusal);
}

#[test]
fn a_region_lies_in_the_range_at_its_alignment(rt: HostRuntime) {
    let mut range = ArchiveValidator::new(&[0; 12]);
    let layout = Layout { size: 8, align: 4 };
    assert_inside(&rt, &mut range, 4, &layout);
    for position in [-4, 5, 8, 1 << 64] {
        assert_outside(&rt, &mut range, position, &layout, (0, 12));
    }
    let refusal = Error::UnalignedPointer {
        position: 2,
        align: 4,
    };
    let found = range.check_subtree_ptr(2, &layout);
    assert_refusal(&rt, "unaligned", found, refusal);
}

// What is left behind a region that was entered comes to the range's end.
fn assert_left(rt: &impl Abort, outer: &Range<usize>) {
    assert_same(rt, "what is left", (outer.start, outer.end), (12, 12));
}

// A range that begins below the current end isn't given back.
fn assert_out_of_order(rt: &impl Abort, range: &mut ArchiveValidator<'_>) {
    let found = range.pop_subtree_range(Range { start: 3, end: 12 });
    let refusal = Error::RangePoppedOutOfOrder;
    assert_refusal(rt, "another range", found, refusal);
}

#[test]
fn a_region_is_entered_and_left(rt: HostRuntime) {
    let mut range = ArchiveValidator::new(&[0; 12]);
    let outer = range.push_subtree_range(4, 12).expect(&rt, "a region");
    assert_left(&rt, &outer);
    let layout = Layout { size: 4, align: 4 };
    assert_inside(&rt, &mut range, 0, &layout);
    assert_out_of_order(&rt, &mut range);
    range.pop_subtree_range(outer).expect(&rt, "to leave it");
    assert_outside(&rt, &mut range, 0, &layout, (12, 12));
    assert_same(&rt, "regions", range.subtrees(), 1);
}

#[test]
fn a_region_that_is_too_deep_is_not_entered(rt: HostRuntime) {
    let mut range = ArchiveValidator::with_max_depth(&[0; 12], Some(2));
    let _ = range.push_subtree_range(8, 12).expect(&rt, "a region");
    let deeper = range.push_subtree_range(4, 8);
    let refusal = Error::ExceededMaximumSubtreeDepth;
    assert_refusal(&rt, "deeper", deeper, refusal);
}

#[test]
fn as_many_regions_are_left_as_were_entered(rt: HostRuntime) {
    let mut range = ArchiveValidator::with_max_depth(&[0; 12], Some(usize::MAX));
    let early = range.pop_subtree_range(Range { start: 12, end: 12 });
    let refusal = Error::RangePoppedTooManyTimes;
    assert_refusal(&rt, "too early", early, refusal);
    let outer = range.push_subtree_range(4, 12).expect(&rt, "a region");
    assert_left(&rt, &outer);
    assert_out_of_order(&rt, &mut range);
}
