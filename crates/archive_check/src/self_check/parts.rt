// Parts laid out one after another.

ghost use Rattle.std.specs.Prelude.{Bool, ◌&&◌, ◌||◌, ◌≡◌, ◌+◌, ◌-◌, ◌≤◌, ℕ, length, OnSome, IfNone, true, false, IsTrue};
ghost use Rattle.archive_check.specs.Shape.{Parts, part, no_part, parts};
ghost use Rattle.archive_check.specs.Layout.{up};
ghost use Rattle.archive_check.specs.Definitions.{Definitions, both, no_definition};
ghost use Rattle.archive_check.specs.SelfCheck.Ways.{parts_way};
ghost use Rattle.archive_check.specs.SelfCheck.Lone.{AreOrdered, none_ordered, part_ordered};
ghost use Rattle.archive_check.specs.SelfCheck.Regions.{no_lower, rises_over};
ghost use Rattle.archive_check.specs.context.Pushes.{Spends};
ghost use Rattle.archive_check.specs.SelfCheck.Steps.{Went, StoppedIf as Stops};

use super::SelfCheck;
use super::values::check_value;
use crate::context::ArchiveContext;
use crate::format::error::Error;
use crate::format::extents::offset_of;
use crate::format::traits::Portable;
use std::marker::PhantomData;

/// Parts that are checked one after another: `()`, or `(A, R)` for an `A` and then the parts of
/// `R`, or four at once by `FourParts`.
pub trait CheckedParts {
    // What they are.
    ghost parts: { Parts };

    // The definitions of the names in them.
    ghost definitions: { Definitions };

    // Where they end, from an offset on.
    ghost end: { ℕ → ℕ };

    // Whether each checks itself.
    ghost direct: { Bool };

    // Whether none brings a definition.
    ghost nameless: { Bool };

    // Whether at most one brings definitions.
    ghost lone: { Bool };

    /// Whether each validates itself.
    fn are_direct() -> bool
        ensures { result ≡ direct };

    /// Whether none brings a definition, as its check says.
    fn are_nameless() -> bool
        ensures { result ≡ nameless };

    /// Whether at most one brings definitions, as their checks say.
    fn are_lone() -> bool
        ensures { result ≡ lone };

    /// Checks the parts from the offset `start` on, of what begins at `base`. `None` if the check
    /// stops, and `refusal` is why.
    fn check_parts<C: ArchiveContext>(
        bytes: &[u8],
        base: usize,
        start: usize,
        refusal: &mut Error,
        context: &mut C,
    ) -> Option<()>
        requires fits { base + end start ≤ length bytes.now }
        requires below { (C.state context.old).end ≤ length bytes.now }
        ensures through { Went C.Context context definitions (parts_way bytes.now base start parts)
            result }
        ensures stops { Stops C.Context context direct definitions
            (parts_way bytes.now base start parts) result refusal }
        ensures spends { Spends (end start - start) (C.state context.old) (C.state context.new) }
        ensures positions { OnSome result (C.positions context.new ≡ C.positions context.old) };

    ghost rises: { (n : ℕ) → n ≤ end n };

    ghost ordered: { IsTrue direct → AreOrdered definitions parts nameless lone };
}

impl CheckedParts for () {
    ghost parts = { no_part };

    ghost definitions = { no_definition };

    ghost end = { λ n. n };

    ghost direct = { true };

    ghost nameless = { true };

    ghost lone = { true };

    ghost rises = { no_lower };

    ghost ordered = { λ direct. none_ordered };

    fn are_direct() -> bool {
        true
    }

    fn are_nameless() -> bool {
        true
    }

    fn are_lone() -> bool {
        true
    }

    #[inline(always)]
    fn check_parts<C: ArchiveContext>(
        _bytes: &[u8],
        _base: usize,
        _start: usize,
        _refusal: &mut Error,
        _context: &mut C,
    ) -> Option<()> {
        Some(())
    }
}

impl<A: Portable, R: CheckedParts> CheckedParts for (A, R) {
    ghost parts = { part A.shape R.parts };

    ghost definitions = { both A.definitions R.definitions };

    ghost end = { λ n. R.end (up n A.layout.align + A.layout.size) };

    ghost direct = { A.Check.direct && R.direct };

    ghost nameless = { A.Check.nameless && R.nameless };

    ghost lone = { R.nameless || (A.Check.nameless && R.lone) };

    ghost rises = { λ n. rises_over n A.layout.align A.layout.size A.is_align R.end R.rises };

    ghost ordered = { part_ordered A.definitions A.shape A.layout.size A.Check.definitions
        A.Check.shape A.Check.span A.Check.nameless R.definitions R.parts R.nameless R.lone
        A.Check.direct R.direct A.checks R.ordered };

    fn are_direct() -> bool {
        A::Check::is_direct() && R::are_direct()
    }

    fn are_nameless() -> bool {
        A::Check::is_nameless() && R::are_nameless()
    }

    fn are_lone() -> bool {
        R::are_nameless() || (A::Check::is_nameless() && R::are_lone())
    }

    #[inline(always)]
    fn check_parts<C: ArchiveContext>(
        bytes: &[u8],
        base: usize,
        start: usize,
        refusal: &mut Error,
        context: &mut C,
    ) -> Option<()> {
        prove!(bytes.len() <= usize::MAX);
        let Some(offset) = offset_of(Some(start), A::align()) else {
            unreachable!();
        };
        check_value::<A, C>(bytes, base + offset, refusal, context)?;
        R::check_parts(bytes, base, offset + A::size(), refusal, context)
    }
}

/// The check of parts one after another, which that of a struct calls. It is that of no type itself.
pub struct RecordCheck<P> {
    of: PhantomData<P>,
}

impl<P: CheckedParts> SelfCheck for RecordCheck<P> {
    ghost shape = { parts P.parts };

    ghost definitions = { P.definitions };

    ghost span = { P.end 0 };

    ghost direct = { P.direct };

    ghost nameless = { false };

    fn is_direct() -> bool {
        P::are_direct()
    }

    fn is_nameless() -> bool {
        false
    }

    #[inline(always)]
    fn check_at<C: ArchiveContext>(
        bytes: &[u8],
        at: usize,
        refusal: &mut Error,
        context: &mut C,
    ) -> Option<()> {
        P::check_parts(bytes, at, 0, refusal, context)
    }
}
