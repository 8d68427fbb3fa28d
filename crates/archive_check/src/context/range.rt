//! The range that regions may lie in.

ghost use Rattle.std.specs.Prelude.{◌≡◌, ◌≢◌, ◌<◌, ◌%◌, ◌↔◌, IsTrue, Some, None, length};
ghost use Rattle.archive_check.specs.context.PositionStates.{nothing_met};
ghost use Rattle.archive_check.specs.context.Ranges.{RangeState, whole};

use crate::context::{ArchiveContext, Context};
use crate::format::error::Error;
use crate::format::layout::Layout;
use std::marker::{Model, PhantomData};
use std::ops::Range;

/// A region that is entered, and the range that is given back where it is left. Positions are in bytes from the buffer's first one.
#[derive(Clone, Copy)]
pub struct Region {
    /// Where it begins.
    pub begin: usize,
    /// How many bytes it has.
    pub size: usize,
    /// Where the range begins.
    pub outer_start: usize,
    /// Where the range ends.
    pub outer_end: usize,
}

// Whether a position is a multiple of an alignment: by a mask where that is a power of two, since a division is slow.
#[inline(always)]
fn is_multiple(position: usize, align: usize) -> bool
    requires { 0 < align }
    ensures { IsTrue result ↔ position % align ≡ 0 }
{
    if align.is_power_of_two() {
        return position & (align - 1) == 0;
    }
    position % align == 0
}

// The refusal of a region that doesn't lie within the range from `start` to `end`. It takes these by value: were the range lent to a call, it would lie in
// memory wherever it is used.
#[cold]
#[inline(never)]
fn outside(position: i128, size: usize, start: usize, end: usize) -> Error
    ensures { result ≡ Error.InvalidSubtreePointer position size start end }
{
    Error::InvalidSubtreePointer {
        position,
        size,
        start,
        end,
    }
}

/// The range of one buffer, the levels that are left, and how many regions were entered. As in rkyv
/// 0.8.18, but for the count.
#[derive(Drop)]
pub struct ArchiveValidator<'a> {
    start: usize,
    end: usize,
    depth: Option<usize>,
    pushes: usize,
    of: PhantomData<&'a [u8]>,
}

impl<'a> Model for ArchiveValidator<'a> {
    ghost Value = { RangeState };

    ghost view = { λ v. record {
      start = v.start;
      end = v.end;
      depth = v.depth;
      pushes = v.pushes;
    } };
}

impl<'a> ArchiveValidator<'a> {
    /// The whole of `bytes`, with no limit of depth.
    pub fn new(bytes: &'a [u8]) -> ArchiveValidator<'a>
        ensures { result ≡ whole (length bytes.now) None }
    {
        ArchiveValidator::with_max_depth(bytes, None)
    }

    /// The whole of `bytes`; of `depth` levels the last lets no region be entered, so 2 lets one
    /// be. The caller must ensure that `depth` isn't 0, as the type of rkyv 0.8.18 says it.
    pub fn with_max_depth(bytes: &'a [u8], depth: Option<usize>) -> ArchiveValidator<'a>
        requires { depth ≢ Some 0 }
        ensures { result ≡ whole (length bytes.now) depth }
    {
        ArchiveValidator {
            start: 0,
            end: bytes.len(),
            depth,
            pushes: 0,
            of: PhantomData,
        }
    }

    /// How many regions were entered, `usize::MAX` where it is more.
    pub fn subtrees(&self) -> usize
        ensures { result ≡ self.now.pushes }
    {
        self.pushes
    }
}

impl Context for ArchiveValidator<'_> {
    ghost state = { λ v. v };

    ghost positions = { λ v. nothing_met };
}

impl ArchiveContext for ArchiveValidator<'_> {
    #[inline(always)]
    fn check_subtree_ptr(&mut self, position: i128, layout: &Layout) -> Result<(), Error> {
        if position < 0 || position > usize::MAX as i128 {
            return Err(outside(position, layout.size, self.start, self.end));
        }
        let root = position as usize;
        if root < self.start || root > self.end || layout.size > self.end - root {
            return Err(outside(position, layout.size, self.start, self.end));
        }
        if !is_multiple(root, layout.align) {
            return Err(Error::UnalignedPointer {
                position,
                align: layout.align,
            });
        }
        Ok(())
    }

    #[inline(always)]
    fn push_subtree_range(&mut self, root: usize, end: usize) -> Result<Range<usize>, Error> {
        if let Some(depth) = &mut self.depth {
            if *depth == 1 {
                return Err(Error::ExceededMaximumSubtreeDepth);
            }
            *depth = depth.saturating_sub(1);
        }
        let outer = Range {
            start: end,
            end: self.end,
        };
        self.end = root;
        if self.pushes < usize::MAX {
            self.pushes += 1;
        }
        Ok(outer)
    }

    #[inline(always)]
    fn pop_subtree_range(&mut self, range: Range<usize>) -> Result<(), Error> {
        if range.start < self.end {
            return Err(Error::RangePoppedOutOfOrder);
        }
        if let Some(depth) = &mut self.depth {
            if *depth == usize::MAX {
                return Err(Error::RangePoppedTooManyTimes);
            }
            *depth += 1;
        }
        self.start = range.start;
        self.end = range.end;
        Ok(())
    }
}
