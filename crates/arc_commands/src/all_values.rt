//! A shared value of its own type: a recursive type behind a shared pointer, which is only checked.

ghost use Rattle.std.specs.Prelude.{refl};
ghost use Rattle.std.proofs.Common.{inl, inr};
ghost use Rattle.arc_commands.specs.AllValues.{all_name, all_choice};

use archive_core::own::{ArchivedRecursive, NamedRecursive, choice_of};
use archive_core::shape::{self, FlavorInfo};
use std::alloc::{AllocError, Global};

/// The choice `ArchivedAllValues`, whose one variant is a shared one of it. Eight bytes, at a multiple of four. No buffer is an archive of it: each
/// pointer leads to a further one, and none may lead into its own value.
pub type ArchivedAllValues = ArchivedRecursive<AllValues>;

/// The name `ArchivedAllValues`, and what it stands for.
pub struct AllValues;

impl NamedRecursive for AllValues {
    ghost name = { all_name };

    ghost stands_for = { all_choice };

    ghost layout = { record { size = 8; align = 4 } };

    ghost is_align = { inr (inr (inl refl)) };

    ghost laid_out = { record { solved = λ s k. refl } };

    fn name() -> &'static str {
        "ArchivedAllValues"
    }

    fn size() -> usize {
        8
    }

    fn align() -> usize {
        4
    }

    fn definition(alloc: Global) -> Result<shape::Expr, AllocError> {
        let pointee = Box::new(
            alloc,
            shape::Pointee::One(shape::Expr::Named("ArchivedAllValues")),
        )?;
        let flavor = FlavorInfo {
            name: "RcFlavor",
            cycles: false,
        };
        let inner = shape::Expr::Shared(flavor, pointee);
        let variants = vec![in alloc; vec![in alloc; inner]?]?;
        Ok(choice_of("ArchivedAllValues", variants))
    }
}
