// Values one after another: where they lie, in a region of their own, and behind a pointer with
// their number.

ghost use Rattle.std.specs.Prelude.{◌≡◌, ◌+◌, ◌*◌, ◌≤◌, length, OnSome, IfNone, IsTrue};
ghost use Rattle.archive_check.specs.Shape.{run, vec};
ghost use Rattle.archive_check.specs.SelfCheck.Ways.{run_way, AreGood};
ghost use Rattle.archive_check.specs.context.Pushes.{Spends};
ghost use Rattle.archive_check.specs.SelfCheck.Steps.{WentOver, StoppedIn, run_at};

use super::SelfCheck;
use super::values::{check_value, whole_size};
use crate::context::ArchiveContext;
use crate::context::regions::{enter, leave};
use crate::format::bytes::{read_position, read_u32};
use crate::format::error::Error;
use crate::format::extents::times;
use crate::format::traits::Portable;
use std::marker::PhantomData;

// Checks so many of `T` that take no bytes: the first stands for all.
fn check_no_bytes<T: Portable, C: ArchiveContext>(
    bytes: &[u8],
    at: usize,
    count: usize,
    refusal: &mut Error,
    context: &mut C,
) -> Option<()>
    requires empty { T.layout.size ≡ 0 }
    requires fits { at ≤ length bytes.now }
    requires below { (C.state context.old).end ≤ length bytes.now }
    ensures through { WentOver C.Context context T.Portable (run_way bytes.now at count) result }
    ensures stops { StoppedIn C.Context context T.Check.direct T.Portable
        (run_way bytes.now at count) result refusal }
    ensures spends { Spends 0 (C.state context.old) (C.state context.new) }
    ensures positions { OnSome result (C.positions context.new ≡ C.positions context.old) }
{
    if count == 0 {
        return Some(());
    }
    check_value::<T, C>(bytes, at, refusal, context)
}

// How many of the first of so many of `T`, `step` bytes apart from `at` on, are known to be good at once.
#[inline(always)]
fn count_good<T: Portable>(bytes: &[u8], at: usize, step: usize, count: usize) -> usize
    requires { at + count * step ≤ length bytes.now }
    ensures few { result ≤ count }
    ensures good { AreGood T.definitions bytes.now at step T.shape result }
{
    if !T::Check::is_direct() {
        return 0;
    }
    T::Check::check_first(bytes, at, step, count)
}

// Checks so many of `T`, one behind another from `at` on. Those that are known to be good at once
// are passed over; the others go one by one, so that the first fault is told.
#[inline(always)]
pub fn check_elements<T: Portable, C: ArchiveContext>(
    bytes: &[u8],
    at: usize,
    count: usize,
    refusal: &mut Error,
    context: &mut C,
) -> Option<()>
    requires fits { at + count * T.layout.size ≤ length bytes.now }
    requires below { (C.state context.old).end ≤ length bytes.now }
    ensures through { WentOver C.Context context T.Portable (run_way bytes.now at count) result }
    ensures stops { StoppedIn C.Context context T.Check.direct T.Portable
        (run_way bytes.now at count) result refusal }
    ensures spends { Spends (count * T.layout.size) (C.state context.old) (C.state context.new) }
    ensures positions { OnSome result (C.positions context.new ≡ C.positions context.old) }
{
    prove!(bytes.len() <= usize::MAX);
    let size = T::size();
    if size == 0 {
        return check_no_bytes::<T, C>(bytes, at, count, refusal, context);
    }
    let good = count_good::<T>(bytes, at, size, count);
    for index in good..count {
        check_value::<T, C>(bytes, at + index * size, refusal, context)?;
    }
    Some(())
}

// Checks the region of so many of `T` at `position`.
#[inline(always)]
pub fn check_run<T: Portable, C: ArchiveContext>(
    bytes: &[u8],
    position: i128,
    count: usize,
    refusal: &mut Error,
    context: &mut C,
) -> Option<()>
    requires below { (C.state context.old).end ≤ length bytes.now }
    ensures through { WentOver C.Context context T.Portable (run_at bytes.now position count)
        result }
    ensures stops { StoppedIn C.Context context T.Check.direct T.Portable
        (run_at bytes.now position count) result refusal }
    ensures spends { Spends 4 (C.state context.old) (C.state context.new) }
    ensures positions { OnSome result (C.positions context.new ≡ C.positions context.old) }
{
    if !T::Check::is_direct() {
        return None;
    }
    let whole = times(whole_size::<T>(), count);
    let region = enter(whole, T::align(), position, refusal, context)?;
    check_elements::<T, C>(bytes, region.begin, count, refusal, context)?;
    leave(region.outer_start, region.outer_end, refusal, context)
}

/// The check of a vector: its offset and its length, of four bytes each, and the elements that they lead to.
pub struct VecCheck<T> {
    of: PhantomData<T>,
}

impl<T: Portable> SelfCheck for VecCheck<T> {
    ghost shape = { vec T.shape };

    ghost definitions = { T.definitions };

    ghost span = { 8 };

    ghost direct = { T.Check.direct };

    ghost nameless = { T.Check.nameless };

    fn is_direct() -> bool {
        T::Check::is_direct()
    }

    fn is_nameless() -> bool {
        T::Check::is_nameless()
    }

    #[inline(always)]
    fn check_at<C: ArchiveContext>(
        bytes: &[u8],
        at: usize,
        refusal: &mut Error,
        context: &mut C,
    ) -> Option<()> {
        let count = read_u32(bytes, at + 4) as usize;
        check_run::<T, C>(bytes, read_position(bytes, at, at), count, refusal, context)
    }
}
