// One value: where it lies, in a region of its own, and behind a pointer.

ghost use Rattle.std.specs.Prelude.{◌≡◌, ◌+◌, ◌≤◌, length, OnSome, IfNone, IsTrue};
ghost use Rattle.archive_check.specs.Shape.{one, boxed};
ghost use Rattle.archive_check.specs.Words.BoundedSizes.{fits};
ghost use Rattle.archive_check.specs.SelfCheck.Ways.{shape_way};
ghost use Rattle.archive_check.specs.context.Pushes.{Spends};
ghost use Rattle.archive_check.specs.SelfCheck.Steps.{WentOver, StoppedIn, one_at};

use super::SelfCheck;
use crate::context::ArchiveContext;
use crate::context::regions::{enter, leave};
use crate::format::bytes::read_position;
use crate::format::error::Error;
use crate::format::traits::Portable;
use std::marker::PhantomData;

// Checks the `T` at `at`.
#[inline(always)]
pub fn check_value<T: Portable, C: ArchiveContext>(
    bytes: &[u8],
    at: usize,
    refusal: &mut Error,
    context: &mut C,
) -> Option<()>
    requires fits { at + T.layout.size ≤ length bytes.now }
    requires below { (C.state context.old).end ≤ length bytes.now }
    ensures through { WentOver C.Context context T.Portable (shape_way bytes.now at) result }
    ensures stops { StoppedIn C.Context context T.Check.direct T.Portable (shape_way bytes.now at)
        result refusal }
    ensures spends { Spends T.layout.size (C.state context.old) (C.state context.new) }
    ensures positions { OnSome result (C.positions context.new ≡ C.positions context.old) }
{
    if !T::Check::is_direct() {
        return None;
    }
    T::Check::check_at(bytes, at, refusal, context)
}

// The size of a type that checks itself, in bytes.
#[inline(always)]
pub fn whole_size<T: Portable>() -> Option<usize>
    ensures { IsTrue T.Check.direct → result ≡ fits T.layout.size }
{
    Some(T::size())
}

// Checks the region of one `T` at `position`.
#[inline(always)]
pub fn check_one<T: Portable, C: ArchiveContext>(
    bytes: &[u8],
    position: i128,
    refusal: &mut Error,
    context: &mut C,
) -> Option<()>
    requires below { (C.state context.old).end ≤ length bytes.now }
    ensures through { WentOver C.Context context T.Portable (one_at bytes.now position) result }
    ensures stops { StoppedIn C.Context context T.Check.direct T.Portable
        (one_at bytes.now position) result refusal }
    ensures direct { OnSome result (IsTrue T.Check.direct) }
    ensures spends { Spends 4 (C.state context.old) (C.state context.new) }
    ensures positions { OnSome result (C.positions context.new ≡ C.positions context.old) }
{
    if !T::Check::is_direct() {
        return None;
    }
    let region = enter(whole_size::<T>(), T::align(), position, refusal, context)?;
    check_value::<T, C>(bytes, region.begin, refusal, context)?;
    leave(region.outer_start, region.outer_end, refusal, context)
}

/// The check of a box: its offset, of four bytes, and the `T` that it leads to.
pub struct BoxCheck<T> {
    of: PhantomData<T>,
}

impl<T: Portable> SelfCheck for BoxCheck<T> {
    ghost shape = { boxed (one T.shape) };

    ghost definitions = { T.definitions };

    ghost span = { 4 };

    ghost direct = { T.Check.direct };

    ghost nameless = { T.Check.nameless };

    fn is_direct() -> bool {
        T::Check::is_direct()
    }

    fn is_nameless() -> bool {
        T::Check::is_nameless()
    }

    #[inline(always)]
    fn check_at<C: ArchiveContext>(
        bytes: &[u8],
        at: usize,
        refusal: &mut Error,
        context: &mut C,
    ) -> Option<()> {
        check_one::<T, C>(bytes, read_position(bytes, at, at), refusal, context)
    }
}
