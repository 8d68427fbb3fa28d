//! Finished positions that are found with no search in a map, where a slot has them.

ghost use Rattle.std.specs.Prelude.{◌≡◌, ℤ, pos, Option, IfSome};
ghost use Rattle.archive_check.specs.declared.context.positions.SharedPosition.{SharedPosition};
ghost use Rattle.archive_check.specs.context.RecalledPositions.{AreRecalled, IsRecalled, StaysRecalled, IsHeld};

use crate::context::positions::SharedPosition;
use crate::slots::Slots;
use std::alloc::{AllocError, Allocator};

/// What is kept of a finished position, in a word.
#[derive(Clone, Copy, Default)]
pub(crate) struct FinishedPosition {
    pub(crate) length: u32,
    pub(crate) shared_type: u32,
}

/// Finished positions in slots. What a slot says is always true.
#[derive(Drop)]
pub(crate) struct FinishedPositions<A: Allocator> {
    pub(crate) slots: Slots<FinishedPosition, A>,
}

// The key of a position; none where it lies before the buffer, or a number is too small for it.
#[inline(always)]
fn key_of(position: i128) -> Option<u64>
    ensures { IfSome result (λ key. pos key ≡ position) }
{
    u64::try_from(position).ok()
}

impl FinishedPosition {
    // What is kept of a finished position; none where a number is too large for it.
    fn of(now: SharedPosition) -> Option<FinishedPosition>
        ensures { IfSome result (IsHeld now) }
    {
        match (u32::try_from(now.length), u32::try_from(now.shared_type)) {
            (Ok(length), Ok(shared_type)) => Some(FinishedPosition {
                length,
                shared_type,
            }),
            _ => None,
        }
    }
}

impl<A: Allocator + Copy> FinishedPositions<A> {
    /// No position. Memory comes from `alloc`, and none is taken yet.
    pub(crate) fn new(alloc: A) -> FinishedPositions<A>
        ensures { (kept : ℤ → Option SharedPosition) → AreRecalled result.slots kept }
    {
        FinishedPositions {
            slots: Slots::new(alloc),
        }
    }

    /// What is kept of a position, where a slot has it.
    #[inline(always)]
    pub(crate) fn get(&self, position: i128) -> Option<SharedPosition>
        ensures { IsRecalled self.now.slots position result }
    {
        let Some(key) = key_of(position) else {
            return None;
        };
        match self.slots.get(key) {
            Some(kept) => Some(SharedPosition {
                shared_type: kept.shared_type as usize,
                length: kept.length as usize,
                finished: true,
            }),
            None => None,
        }
    }

    /// Makes at least two slots for each of `count` positions, so that adding one takes no memory.
    /// Fails if memory is refused; what is recalled stays true in any case.
    pub(crate) fn make_room(&mut self, count: usize) -> Result<(), AllocError>
        ensures { (kept : ℤ → Option SharedPosition) → AreRecalled self.old.slots kept
            → AreRecalled self.new.slots kept }
    {
        self.slots.make_room(count)
    }

    /// Adds a finished position with what is kept of it. It is left out where a number is too large, and where there is no slot.
    pub(crate) fn add(&mut self, position: i128, now: SharedPosition)
        ensures { StaysRecalled self.old.slots self.new.slots position now }
    {
        let Some(key) = key_of(position) else {
            return;
        };
        if let Some(kept) = FinishedPosition::of(now) {
            self.slots.add(key, kept);
        }
    }
}
