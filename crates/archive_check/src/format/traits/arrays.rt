// Arrays: elements one after another, as many as the type says.

ghost use Rattle.std.specs.Prelude.{refl};
ghost use Rattle.archive_check.specs.Shape.{one, array};
ghost use Rattle.archive_check.specs.SelfCheck.Arrays.{array_layout, array_has_layout, array_reaches, array_check};

use super::{ArchivePointee, Portable};
use crate::format::error::Error;
use crate::format::expr::{Defs, Expr};
use crate::self_check::ArrayCheck;
use std::alloc::Global;

/// As a pointee it is one value.
impl<T: Portable, const N: usize> ArchivePointee for [T; N] {
    type ArchivedMetadata = ();

    ghost pointee = { one (array N T.shape) };

    ghost definitions = { T.definitions };

    ghost metadata_length = { λ _. 0 };

    fn pointer_metadata(_metadata: &()) -> usize {
        0
    }
}

/// An archived array: its elements one after another, at a multiple of their alignment.
impl<T: Portable, const N: usize> Portable for [T; N] {
    ghost shape = { array N T.shape };

    ghost layout = { array_layout N T.layout };

    type Check = ArrayCheck<T, N>;

    ghost is_one = { refl };

    ghost is_align = { T.is_align };

    ghost has_layout = { array_has_layout N T.definitions T.shape T.layout T.has_layout };

    ghost no_others = { array_reaches N T.definitions T.shape T.layout T.no_others };

    ghost checks = { array_check N T.definitions T.shape T.layout T.Check.direct T.Check.definitions
        T.Check.shape T.Check.span T.Check.nameless T.checks };

    #[tactic(auto, using(crate::proofs::SelfCheck::Arrays::times_bounded))]
    fn size() -> usize {
        N.saturating_mul(T::size())
    }

    fn align() -> usize {
        T::align()
    }

    fn expr(alloc: Global) -> Result<Expr, Error> {
        let element = T::expr(alloc)?;
        Ok(Expr::Array(N, Box::new(alloc, element)?))
    }

    fn define(alloc: Global, defs: &mut Defs) -> Result<(), Error> {
        T::define(alloc, defs)
    }
}
