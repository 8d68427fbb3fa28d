//! Regions are entered and left; the error is kept beside the result. These calls are inlined,
//! since what they return is wide.

ghost use Rattle.std.specs.Prelude.{◌≡◌, ◌+◌, ◌<◌, ◌≤◌, ℕ, pos, OnSome, IfSome, IfNone, Some, Ok, Err, is_err, true};
ghost use Rattle.archive_check.specs.context.Ranges.{subtree_answer, pop_answer, popped};
ghost use Rattle.archive_check.specs.context.EnteredRegions.{Begun, Enters, EntersNot};

use crate::context::ArchiveContext;
use crate::context::range::Region;
use crate::context::refusals::{keep, refuse};
use crate::format::error::Error;
use crate::format::layout::Layout;
use std::ops::Range;

// The position as an index.
fn index_of(position: i128) -> usize
    requires { (t : ℕ) × (position ≡ pos t) × (t < 18446744073709551616) }
    ensures { position ≡ pos result }
{
    position as usize
}

// Stops the check at a region that is refused. The context is asked once more for the reason, so that no wide answer is kept where regions are entered.
// It stands in its callers, since a context that is lent to no call needs no place in memory.
#[inline(always)]
fn refuse_region<C: ArchiveContext>(
    position: i128,
    layout: &Layout,
    refusal: &mut Error,
    context: &mut C,
)
    requires { is_err (subtree_answer (C.state context.old) position layout.now.size
        layout.now.align) ≡ true }
    ensures refused { subtree_answer (C.state context.old) position layout.now.size layout.now.align
        ≡ Err refusal.new }
    ensures unchanged { C.state context.new ≡ C.state context.old }
{
    match context.check_subtree_ptr(position, layout) {
        Err(error) => keep(refusal, error),
        Ok(()) => unreachable!(),
    }
}

// Stops the check at a range that isn't taken back, likewise.
#[inline(always)]
fn refuse_range<C: ArchiveContext>(start: usize, end: usize, refusal: &mut Error, context: &mut C)
    requires { is_err (pop_answer (C.state context.old) start) ≡ true }
    ensures refused { pop_answer (C.state context.old) start ≡ Err refusal.new }
    ensures unchanged { C.state context.new ≡ C.state context.old }
{
    match context.pop_subtree_range(Range { start, end }) {
        Err(error) => keep(refusal, error),
        Ok(()) => unreachable!(),
    }
}

/// Leaves a region: the range is that from `start` to `end` again, as `Region` keeps it. On failure
/// returns `None`, nothing has changed, and `refusal` is `RangePoppedOutOfOrder` or
/// `RangePoppedTooManyTimes`, as of `pop_subtree_range`.
#[inline(always)]
pub fn leave<C: ArchiveContext>(
    start: usize,
    end: usize,
    refusal: &mut Error,
    context: &mut C,
) -> Option<()>
    ensures taken { OnSome result (pop_answer (C.state context.old) start ≡ Ok tt) }
    ensures left { OnSome result (C.state context.new ≡ popped (C.state context.old) start end) }
    ensures refused { IfNone result (pop_answer (C.state context.old) start ≡ Err refusal.new) }
    ensures unchanged { IfNone result (C.state context.new ≡ C.state context.old) }
    ensures positions { OnSome result (C.positions context.new ≡ C.positions context.old) }
{
    if context.pop_subtree_range(Range { start, end }).is_err() {
        refuse_range(start, end, refusal, context);
        return None;
    }
    Some(())
}

/// Enters the region of `whole` bytes at `position`; `None` bytes are more than `usize::MAX`.
/// Returns it with the range to be given back by `leave`. The caller must ensure that the alignment
/// isn't 0. On failure returns `None`, nothing has changed, and `refusal` is the first that applies
/// of `LayoutTooLarge`, `InvalidSubtreePointer`, `UnalignedPointer` and
/// `ExceededMaximumSubtreeDepth`.
#[inline(always)]
pub fn enter<C: ArchiveContext>(
    whole: Option<usize>,
    align: usize,
    position: i128,
    refusal: &mut Error,
    context: &mut C,
) -> Option<Region>
    requires { 0 < align }
    ensures entered { IfSome result (Enters (C.state context.old) (C.state context.new) position
        align whole) }
    ensures stops { IfNone result (EntersNot (C.state context.old) position align whole
        refusal.new) }
    ensures pushes { OnSome result ((C.state context.new).pushes ≤ (C.state context.old).pushes
        + 1) }
    ensures unchanged { IfNone result (C.state context.new ≡ C.state context.old) }
    ensures positions { OnSome result (C.positions context.new ≡ C.positions context.old) }
{
    let Some(size) = whole else {
        return refuse(refusal, Error::LayoutTooLarge);
    };
    let layout = Layout { size, align };
    if context.check_subtree_ptr(position, &layout).is_err() {
        refuse_region(position, &layout, refusal, context);
        return None;
    }
    let begin = index_of(position);
    let Ok(Range { start, end }) = context.push_subtree_range(begin, begin + size) else {
        return refuse(refusal, Error::ExceededMaximumSubtreeDepth);
    };
    Some(Region {
        begin,
        size,
        outer_start: start,
        outer_end: end,
    })
}
