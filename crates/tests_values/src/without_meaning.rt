// Types whose definitions have no meaning.

ghost use Rattle.std.specs.Prelude.{◌≡◌, refl, codes, IfOk};
ghost use Rattle.std.proofs.Common.{inl};
ghost use Rattle.archive_check.specs.Shape.{bool, leaf, named, no_part, one, part, parts, unit};
ghost use Rattle.archive_check.specs.Defined.{holds_first, holds_name, holds_parts};
ghost use Rattle.archive_check.specs.Definitions.{both, defines};
ghost use Rattle.archive_check.specs.Expressions.{shape_of};
ghost use Rattle.archive_check.specs.SelfCheck.Laws.{by_schema};
ghost use Rattle.archive_check.specs.Members.NamedLayout.{held_has_layout, name_reached, twice_has_layout, twice_reached, leaves_differ};

use crate::assertions::assert_same;
use archive_check::format::error::Error;
use archive_check::format::expr::{Defs, Expr, Kind};
use archive_check::self_check::BySchema;
use archive_schema::shape::Schema;
use archive_types::traits::{ArchivePointee, Portable};
use std::alloc::{AllocError, Global};

// A name with two definitions: nothing, and a bool.
struct ArchivedTwice;

// A record of itself alone.
struct ArchivedItself;

impl ArchivePointee for ArchivedTwice {
    type ArchivedMetadata = ();

    ghost pointee = { one (named (codes "ArchivedTwice")) };

    ghost definitions = { both (defines (codes "ArchivedTwice") (leaf unit))
        (defines (codes "ArchivedTwice") (leaf bool)) };

    ghost metadata_length = { λ _. 0 };

    fn pointer_metadata(_metadata: &()) -> usize {
        0
    }
}

impl Portable for ArchivedTwice {
    ghost shape = { named (codes "ArchivedTwice") };

    ghost layout = { record { size = 0; align = 1 } };

    type Check = BySchema;

    ghost is_one = { refl };

    ghost is_align = { inl refl };

    ghost has_layout = { twice_has_layout (codes "ArchivedTwice") (leaf unit) (leaf bool) (record {
      size = 0;
      align = 1;
    }) leaves_differ };

    ghost no_others = { twice_reached (codes "ArchivedTwice") (leaf unit) (leaf bool) };

    ghost checks = { λ direct. by_schema direct };

    fn size() -> usize {
        0
    }

    fn align() -> usize {
        1
    }

    fn expr(_alloc: Global) -> Result<Expr, Error> {
        Ok(Expr::Named("ArchivedTwice"))
    }

    fn define(_alloc: Global, defs: &mut Defs) -> Result<(), Error> {
        defs.add("ArchivedTwice", Expr::Leaf(Kind::Unit))?;
        defs.add("ArchivedTwice", Expr::Leaf(Kind::Bool))?;
        Ok(())
    }
}

#[tactic(auto, using(archive_check::proofs::format::Views::views))]
fn record_of_itself(alloc: Global) -> Result<Expr, AllocError>
    ensures { IfOk result (λ e. shape_of e ≡ parts (part (named (codes "ArchivedItself"))
        no_part)) }
{
    let parts = vec![in alloc; Expr::Named("ArchivedItself")]?;
    Ok(Expr::Record(parts))
}

impl ArchivePointee for ArchivedItself {
    type ArchivedMetadata = ();

    ghost pointee = { one (named (codes "ArchivedItself")) };

    ghost definitions = { defines (codes "ArchivedItself")
        (parts (part (named (codes "ArchivedItself")) no_part)) };

    ghost metadata_length = { λ _. 0 };

    fn pointer_metadata(_metadata: &()) -> usize {
        0
    }
}

impl Portable for ArchivedItself {
    ghost shape = { named (codes "ArchivedItself") };

    ghost layout = { record { size = 0; align = 1 } };

    type Check = BySchema;

    ghost is_one = { refl };

    ghost is_align = { inl refl };

    ghost has_layout = { held_has_layout (codes "ArchivedItself")
        (parts (part (named (codes "ArchivedItself")) no_part)) (record { size = 0; align = 1 })
        (holds_parts (holds_first holds_name)) };

    ghost no_others = { name_reached (codes "ArchivedItself")
        (parts (part (named (codes "ArchivedItself")) no_part)) };

    ghost checks = { λ direct. by_schema direct };

    fn size() -> usize {
        0
    }

    fn align() -> usize {
        1
    }

    fn expr(_alloc: Global) -> Result<Expr, Error> {
        Ok(Expr::Named("ArchivedItself"))
    }

    fn define(alloc: Global, defs: &mut Defs) -> Result<(), Error> {
        defs.add("ArchivedItself", record_of_itself(alloc)?)?;
        Ok(())
    }
}

// Why a type has no schema, if it has none.
fn refusal_of<T: Portable>(alloc: Global) -> Option<Error> {
    Schema::of::<T>(alloc).err()
}

#[test]
fn a_type_without_a_meaning_has_no_schema(rt: HostRuntime) {
    let conflict = refusal_of::<ArchivedTwice>(rt.alloc());
    assert_same(&rt, "two definitions", conflict, Some(Error::ShapeConflict));
    let recursive = refusal_of::<ArchivedItself>(rt.alloc());
    assert_same(&rt, "itself", recursive, Some(Error::RecursiveLayout));
}
