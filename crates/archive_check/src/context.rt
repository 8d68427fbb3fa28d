//! What a check keeps: the range that regions may lie in, and the shared positions that it came to.

ghost use Rattle.std.specs.Prelude.{◌≡◌, ◌<◌, ◌≤◌, ◌↔◌, ℕ, OnOk, OnErr, IfSome, IfNone, IfOk, IfErr, IsErrOf, Some};
ghost use Rattle.archive_check.specs.Expressions.{flavor_of, pointee_of};
ghost use Rattle.archive_check.specs.Shape.{Flavor, Pointee};
ghost use Rattle.archive_check.specs.context.PositionStates.{Positions, IsStartAnswer, IsFinishedAnswer, NoneFinishedAs, Starts, finish_answer, finished, entry_as};
ghost use Rattle.archive_check.specs.context.Ranges.{RangeState, subtree_answer, pushed, pop_answer, popped};

mod first;
pub mod positions;
pub mod range;
mod recalled;
pub mod refusals;
pub mod regions;
pub mod subtree;
pub mod validator;

use crate::format::error::Error;
use crate::format::expr::{FlavorInfo, Pointee};
use crate::format::layout::Layout;
pub use positions::SharedValidator;
pub use range::ArchiveValidator;
use std::ops::Range;
pub use subtree::ArchiveContextExt;
pub use validator::{HighValidator, Validator};

/// What models the state of a check in contracts. It has no calls.
pub trait Context {
    // The range, the levels left and the regions entered.
    ghost state: { Self → RangeState };

    // The shared positions that were met.
    ghost positions: { Self → Positions };
}

/// The regions of a buffer, as a check enters and leaves them. A failed call changes nothing.
/// Positions are in bytes from the buffer's first one. The calls are those of rkyv 0.8.18, with
/// positions in place of addresses.
pub trait ArchiveContext: Context {
    /// Whether a region of `layout` may begin at `position`. Fails with `InvalidSubtreePointer` if
    /// it doesn't lie within the range, and else with `UnalignedPointer` if `position` is no
    /// multiple of its alignment. `position` may be negative.
    fn check_subtree_ptr(&mut self, position: i128, layout: &Layout) -> Result<(), Error>
        ensures answer { result ≡ subtree_answer (Self.state self.old) position layout.now.size
            layout.now.align }
        ensures fits { OnOk result ((Self.state self.old).end < 18446744073709551616) }
        ensures unchanged { Self.state self.new ≡ Self.state self.old }
        ensures positions { Self.positions self.new ≡ Self.positions self.old };

    /// Enters a region from `root` to `end`: regions may now lie before it alone. Returns the range
    /// to be given back by `pop_subtree_range`. The caller must ensure that the region lies in the
    /// range: `root` isn't below its start, nor above `end`, nor `end` above its end. Fails with
    /// `ExceededMaximumSubtreeDepth` exactly if one level is left.
    fn push_subtree_range(&mut self, root: usize, end: usize) -> Result<Range<usize>, Error>
        requires rising { ((Self.state self.old).start ≤ root) × (root ≤ end)
            × (end ≤ (Self.state self.old).end) }
        ensures refused { IsErrOf result Error.ExceededMaximumSubtreeDepth
            ↔ (Self.state self.old).depth ≡ Some 1 }
        ensures outer { IfOk result (λ r. (r.start ≡ end) × (r.end ≡ (Self.state self.old).end)) }
        ensures entered { OnOk result (Self.state self.new ≡ pushed (Self.state self.old) root) }
        ensures too_deep { IfErr result (λ e. e ≡ Error.ExceededMaximumSubtreeDepth) }
        ensures unchanged { OnErr result (Self.state self.new ≡ Self.state self.old) }
        ensures positions { Self.positions self.new ≡ Self.positions self.old };

    /// Leaves a region: regions may lie in `range` again. Fails with `RangePoppedOutOfOrder` if it
    /// begins below the current end, and else with `RangePoppedTooManyTimes` if the levels left are
    /// `usize::MAX`. rkyv 0.8.18 sets the range before that error.
    fn pop_subtree_range(&mut self, range: Range<usize>) -> Result<(), Error>
        ensures answer { result ≡ pop_answer (Self.state self.old) range.start }
        ensures left { OnOk result (Self.state self.new
            ≡ popped (Self.state self.old) range.start range.end) }
        ensures unchanged { OnErr result (Self.state self.new ≡ Self.state self.old) }
        ensures positions { Self.positions self.new ≡ Self.positions self.old };
}

/// What a shared position was when it was started, as in rkyv 0.8.18.
#[derive(Debug, Clone, Copy, PartialEq, Eq)]
pub enum ValidationState {
    /// It is met for the first time.
    Started,
    /// What lies there is being checked.
    Pending,
    /// What lies there was checked.
    Finished,
}

/// The shared positions that a check has met, each known by itself alone. A failed call changes
/// nothing. The calls are those of rkyv 0.8.18, with positions in place of addresses and with a
/// flavor and an expression in place of a type's number.
pub trait SharedContext: Context {
    // The number is that of this flavor and pointee.
    ghost numbered: { Self → ℕ → Flavor → Pointee → Type 0 };

    /// Comes to a pointee at `position`; `length` is its length in elements or bytes, 0 for one
    /// value. Fails with `TypeMismatch` if the position was started with another flavor or pointee,
    /// else with `MetadataMismatch` if it was with another length; and with `OutOfMemory` if it is
    /// new and memory is refused.
    fn start_shared(
        &mut self,
        flavor: &FlavorInfo,
        pointee: &Pointee,
        position: i128,
        length: usize,
    ) -> Result<ValidationState, Error>
        ensures answer { IsStartAnswer (Self.positions self.old position)
            (entry_as flavor.now pointee.now length) result }
        ensures started { OnOk result (Starts Self.positions self position flavor pointee length) }
        ensures unchanged { OnErr result (Self.positions self.new ≡ Self.positions self.old) }
        ensures range { Self.state self.new ≡ Self.state self.old };

    /// The number of a flavor and a pointee, by which pointers to what was checked are passed over.
    /// None only if no position is finished that was started with them.
    fn type_number(&self, flavor: &FlavorInfo, pointee: &Pointee) -> Option<usize>
        ensures number { IfSome result (λ n. Self.numbered self.now n (flavor_of flavor.now)
            (pointee_of pointee.now)) }
        ensures none { IfNone result (NoneFinishedAs (Self.positions self.now) flavor.now
            pointee.now) };

    /// Whether the position was started with this length and with the flavor and pointee of this
    /// number, and is finished: exactly if `start_shared` returns `Finished`, which changes nothing.
    /// The caller must ensure that `type_number` gave the number.
    fn is_finished_as(&self, number: usize, position: i128, length: usize) -> bool
        ensures { IsFinishedAnswer (Self.numbered self.now number)
            (Self.positions self.now position) length result };

    /// Leaves the pointee at `position`, whatever its flavor and pointee. Fails with `NotStarted`
    /// exactly if it wasn't started, and with `AlreadyFinished` exactly if it is finished.
    fn finish_shared(
        &mut self,
        flavor: &FlavorInfo,
        pointee: &Pointee,
        position: i128,
    ) -> Result<(), Error>
        ensures answer { result ≡ finish_answer (λ met. met.finished)
            (Self.positions self.old position) }
        ensures finished { OnOk result (Self.positions self.new
            ≡ finished (Self.positions self.old) position) }
        ensures unchanged { OnErr result (Self.positions self.new ≡ Self.positions self.old) }
        ensures range { Self.state self.new ≡ Self.state self.old };
}
