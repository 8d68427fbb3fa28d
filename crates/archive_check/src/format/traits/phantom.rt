// What stands for a type and has no byte.

ghost use Rattle.std.specs.Prelude.{refl};
ghost use Rattle.std.proofs.Common.{inl};
ghost use Rattle.archive_check.specs.Shape.{one, parts, no_part};
ghost use Rattle.archive_check.specs.Definitions.{no_definition};
ghost use Rattle.archive_check.specs.Members.LeafLayout.{no_definition_reached};
ghost use Rattle.archive_check.specs.SelfCheck.Laws.{plain_check};

use super::{ArchivePointee, Portable};
use crate::format::error::Error;
use crate::format::expr::{Defs, Expr};
use crate::self_check::TupleCheck;
use std::alloc::Global;
use std::marker::PhantomData;

/// As a pointee it is one value.
impl<T> ArchivePointee for PhantomData<T> {
    type ArchivedMetadata = ();

    ghost pointee = { one (parts no_part) };

    ghost definitions = { no_definition };

    ghost metadata_length = { λ _. 0 };

    fn pointer_metadata(_metadata: &()) -> usize {
        0
    }
}

/// A record of nothing: no byte.
impl<T> Portable for PhantomData<T> {
    ghost shape = { parts no_part };

    ghost layout = { record { size = 0; align = 1 } };

    type Check = TupleCheck<()>;

    ghost is_one = { refl };

    ghost is_align = { inl refl };

    ghost has_layout = { record { solved = λ s k. refl } };

    ghost no_others = { no_definition_reached (parts no_part) };

    ghost checks = { λ direct. plain_check (parts no_part) 0 refl refl };

    fn size() -> usize {
        0
    }

    fn align() -> usize {
        1
    }

    #[tactic(auto, using(crate::proofs::format::Views::views))]
    fn expr(alloc: Global) -> Result<Expr, Error> {
        Ok(Expr::Record(vec![in alloc]?))
    }

    fn define(_alloc: Global, _defs: &mut Defs) -> Result<(), Error> {
        Ok(())
    }
}
