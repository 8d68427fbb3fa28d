// Variants without fields, one after another, and then others.

ghost use Rattle.std.specs.Prelude.{max, ◌≡◌, OnOk};
ghost use Rattle.archive_core.specs.fields.Units.{units, unit_definitions, behind_units, units_laid_out, units_reached, units_sized, units_within};

use archive_check::context::ArchiveContext;
use archive_check::format::error::Error;
use archive_check::format::expr::{Defs, Expr};
use archive_check::format::traits::PortableVariants;
use archive_check::self_check::CheckedVariants;
use std::alloc::Global;
use std::marker::PhantomData;

/// `N` variants without fields, and then those of `R`: what a nest of pairs of them is.
///
/// A call passes for it what it passes for `R`, and its check compares the tag once.
pub struct UnitVariants<const N: usize, R> {
    of: PhantomData<R>,
}

impl<const N: usize, R: CheckedVariants> CheckedVariants for UnitVariants<N, R> {
    ghost variants = { units N R.variants };

    ghost definitions = { unit_definitions N R.definitions };

    ghost end = { max 1 R.end };

    ghost direct = { R.direct };

    fn are_direct() -> bool {
        R::are_direct()
    }

    #[inline(always)]
    fn check_variant<K: ArchiveContext>(
        bytes: &[u8],
        base: usize,
        tag: usize,
        refusal: &mut Error,
        context: &mut K,
    ) -> Option<bool> {
        if tag < N {
            return Some(true);
        }
        R::check_variant(bytes, base, tag - N, refusal, context)
    }
}

impl<const N: usize, R: PortableVariants> PortableVariants for UnitVariants<N, R> {
    ghost greatest = { R.greatest };

    ghost begin = { behind_units N 1 R.begin };

    ghost size_at = { behind_units N 0 R.size_at };

    ghost is_align = { R.is_align };

    ghost laid_out = { units_laid_out N R.definitions R.variants R.greatest R.end R.begin
        R.laid_out };

    ghost no_others = { units_reached N R.definitions R.variants R.no_others };

    ghost sized = { units_sized N R.definitions R.variants R.size_at R.sized };

    ghost within = { units_within N R.begin R.size_at R.end R.within };

    fn align() -> usize {
        R::align()
    }

    #[inline(always)]
    fn longest_end() -> usize {
        R::longest_end().max(1)
    }

    #[inline(always)]
    #[tactic(auto, using(crate::proofs::fields::AmongUnits::before_number, crate::proofs::fields::AmongUnits::behind_number))]
    fn payload_offset(tag: usize, i: usize) -> usize {
        if tag < N {
            return 1;
        }
        R::payload_offset(tag - N, i)
    }

    fn push_variants(alloc: Global, list: &mut Vec<Vec<Expr>>) -> Result<(), Error> {
        for _ in 0..N {
            list.push(Vec::new(alloc))?;
        }
        R::push_variants(alloc, list)
    }

    fn define(alloc: Global, defs: &mut Defs) -> Result<(), Error> {
        R::define(alloc, defs)
    }
}
