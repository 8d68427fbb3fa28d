// Four parts at once, and those of a rest behind them.

ghost use Rattle.archive_check.specs.Definitions.{both};
ghost use Rattle.archive_check.specs.Layout.{up};
ghost use Rattle.archive_check.specs.Members.NoOthers.{part_reached};
ghost use Rattle.archive_check.specs.Members.PartsLayout.{part_laid_out, part_sized, first_or, greater_align, begins_over, within_over};
ghost use Rattle.archive_check.specs.SelfCheck.Lone.{part_ordered};
ghost use Rattle.archive_check.specs.SelfCheck.Regions.{rises_over};
ghost use Rattle.archive_check.specs.Shape.{part};

use super::{Portable, PortableParts};
use crate::context::ArchiveContext;
use crate::format::error::Error;
use crate::format::expr::{Defs, Expr};
use crate::self_check::CheckedParts;
use std::alloc::Global;

/// Four parts and then those of `R`: the same as `(A, (B, (C, (D, R))))`, in a nest a quarter as
/// deep. What a call passes for a long tuple grows with that depth. Its values are those of the
/// parts, as they are read back.
pub struct FourParts<A, B, C, D, R> {
    /// The first.
    pub first: A,
    /// The second.
    pub second: B,
    /// The third.
    pub third: C,
    /// The fourth.
    pub fourth: D,
    /// Those behind them.
    pub rest: R,
}

impl<A: Portable, B: Portable, C: Portable, D: Portable, R: CheckedParts> CheckedParts
    for FourParts<A, B, C, D, R> {
    ghost parts = { ⟦<(A, (B, (C, (D, R)))) as CheckedParts>⟧.parts };

    ghost definitions = { ⟦<(A, (B, (C, (D, R)))) as CheckedParts>⟧.definitions };

    ghost end = { ⟦<(A, (B, (C, (D, R)))) as CheckedParts>⟧.end };

    ghost direct = { ⟦<(A, (B, (C, (D, R)))) as CheckedParts>⟧.direct };

    ghost nameless = { ⟦<(A, (B, (C, (D, R)))) as CheckedParts>⟧.nameless };

    ghost lone = { ⟦<(A, (B, (C, (D, R)))) as CheckedParts>⟧.lone };

    ghost rises = { λ n. rises_over n A.layout.align A.layout.size A.is_align _
        (λ n. rises_over n B.layout.align B.layout.size B.is_align _
        (λ n. rises_over n C.layout.align C.layout.size C.is_align _
        (λ n. rises_over n D.layout.align D.layout.size D.is_align R.end R.rises))) };

    ghost ordered = { part_ordered _ _ _ _ _ _ _ _ _ _ _ _ _ A.checks
        (part_ordered _ _ _ _ _ _ _ _ _ _ _ _ _ B.checks
        (part_ordered _ _ _ _ _ _ _ _ _ _ _ _ _ C.checks
        (part_ordered _ _ _ _ _ _ _ _ _ _ _ _ _ D.checks R.ordered))) };

    fn are_direct() -> bool {
        <(A, (B, (C, (D, R)))) as CheckedParts>::are_direct()
    }

    fn are_nameless() -> bool {
        <(A, (B, (C, (D, R)))) as CheckedParts>::are_nameless()
    }

    fn are_lone() -> bool {
        <(A, (B, (C, (D, R)))) as CheckedParts>::are_lone()
    }

    #[inline(always)]
    fn check_parts<K: ArchiveContext>(
        bytes: &[u8],
        base: usize,
        start: usize,
        refusal: &mut Error,
        context: &mut K,
    ) -> Option<()> {
        <(A, (B, (C, (D, R)))) as CheckedParts>::check_parts(bytes, base, start, refusal, context)
    }
}

impl<A: Portable, B: Portable, C: Portable, D: Portable, R: PortableParts> PortableParts
    for FourParts<A, B, C, D, R> {
    ghost greatest = { ⟦<(A, (B, (C, (D, R)))) as PortableParts>⟧.greatest };

    ghost begin = { ⟦<(A, (B, (C, (D, R)))) as PortableParts>⟧.begin };

    ghost size_at = { ⟦<(A, (B, (C, (D, R)))) as PortableParts>⟧.size_at };

    ghost is_align = { greater_align _ _ A.is_align (greater_align _ _ B.is_align
        (greater_align _ _ C.is_align (greater_align _ _ D.is_align R.is_align))) };

    ghost laid_out = { part_laid_out _ _ _ _ A.has_layout _ _ _ _
        (part_laid_out _ _ _ _ B.has_layout _ _ _ _ (part_laid_out _ _ _ _ C.has_layout _ _ _ _
        (part_laid_out _ _ _ _ D.has_layout _ _ _ _ R.laid_out))) };

    ghost sized = { part_sized _ _ _ _ A.has_layout (part B.shape
        (part C.shape (part D.shape R.parts))) (first_or B.layout.size
        (first_or C.layout.size (first_or D.layout.size R.size_at)))
        (part_sized _ _ _ _ B.has_layout (part C.shape (part D.shape R.parts))
        (first_or C.layout.size (first_or D.layout.size R.size_at))
        (part_sized _ _ _ _ C.has_layout (part D.shape R.parts) (first_or D.layout.size R.size_at)
        (part_sized _ _ _ _ D.has_layout R.parts R.size_at R.sized))) };

    ghost no_others = { part_reached A.definitions (both B.definitions
        (both C.definitions (both D.definitions R.definitions))) A.shape
        (part B.shape (part C.shape (part D.shape R.parts))) A.no_others
        (part_reached B.definitions (both C.definitions (both D.definitions R.definitions)) B.shape
        (part C.shape (part D.shape R.parts)) B.no_others
        (part_reached C.definitions (both D.definitions R.definitions) C.shape
        (part D.shape R.parts) C.no_others (part_reached D.definitions R.definitions D.shape R.parts
        D.no_others R.no_others))) };

    ghost begins = { λ n. begins_over n A.layout.align A.layout.size A.is_align _
        (λ n. begins_over n B.layout.align B.layout.size B.is_align _
        (λ n. begins_over n C.layout.align C.layout.size C.is_align _
        (λ n. begins_over n D.layout.align D.layout.size D.is_align R.begin R.begins))) };

    ghost within = { λ n. within_over (up n A.layout.align) A.layout.size _ _ _
        (λ n. rises_over n B.layout.align B.layout.size B.is_align _
        (λ n. rises_over n C.layout.align C.layout.size C.is_align _
        (λ n. rises_over n D.layout.align D.layout.size D.is_align R.end R.rises)))
        (λ n. within_over (up n B.layout.align) B.layout.size _ _ _
        (λ n. rises_over n C.layout.align C.layout.size C.is_align _
        (λ n. rises_over n D.layout.align D.layout.size D.is_align R.end R.rises))
        (λ n. within_over (up n C.layout.align) C.layout.size _ _ _
        (λ n. rises_over n D.layout.align D.layout.size D.is_align R.end R.rises)
        (λ n. within_over (up n D.layout.align) D.layout.size R.begin R.size_at R.end R.rises
        R.within))) };

    fn align() -> usize {
        <(A, (B, (C, (D, R)))) as PortableParts>::align()
    }

    #[inline(always)]
    fn end_from(start: usize) -> usize {
        <(A, (B, (C, (D, R)))) as PortableParts>::end_from(start)
    }

    #[inline(always)]
    fn offset_from(start: usize, i: usize) -> usize {
        <(A, (B, (C, (D, R)))) as PortableParts>::offset_from(start, i)
    }

    fn push_exprs(alloc: Global, list: &mut Vec<Expr>) -> Result<(), Error> {
        <(A, (B, (C, (D, R)))) as PortableParts>::push_exprs(alloc, list)
    }

    fn define(alloc: Global, defs: &mut Defs) -> Result<(), Error> {
        <(A, (B, (C, (D, R)))) as PortableParts>::define(alloc, defs)
    }
}
