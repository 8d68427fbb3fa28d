// The types of the machine that lie in an archive as they are: no value here has more than one byte.

ghost use Rattle.std.specs.Prelude.{refl};
ghost use Rattle.std.specs.Int.{w8};
ghost use Rattle.archive_check.specs.Shape.{one, leaf, unit, bool, number, unsigned, signed};
ghost use Rattle.archive_check.specs.Definitions.{no_definition};
ghost use Rattle.archive_check.specs.Members.LeafLayout.{leaf_layout, leaf_align, leaf_has_layout, no_definition_reached};
ghost use Rattle.archive_check.specs.SelfCheck.Laws.{leaf_check};

use super::{ArchivePointee, Portable};
use crate::format::error::Error;
use crate::format::expr::{Defs, Expr, IntegerKind, Kind};
use std::alloc::Global;

impl ArchivePointee for () {
    type ArchivedMetadata = ();

    ghost pointee = { one (leaf unit) };

    ghost definitions = { no_definition };

    ghost metadata_length = { λ _. 0 };

    fn pointer_metadata(_metadata: &()) -> usize {
        0
    }
}

impl Portable for () {
    ghost shape = { leaf unit };

    ghost layout = { leaf_layout unit };

    type Check = ();

    ghost is_one = { refl };

    ghost is_align = { leaf_align unit };

    ghost has_layout = { leaf_has_layout unit };

    ghost no_others = { no_definition_reached (leaf unit) };

    ghost checks = { λ direct. leaf_check unit };

    fn size() -> usize {
        0
    }

    fn align() -> usize {
        1
    }

    fn expr(_alloc: Global) -> Result<Expr, Error> {
        Ok(Expr::Leaf(Kind::Unit))
    }

    fn define(_alloc: Global, _defs: &mut Defs) -> Result<(), Error> {
        Ok(())
    }
}

impl ArchivePointee for bool {
    type ArchivedMetadata = ();

    ghost pointee = { one (leaf bool) };

    ghost definitions = { no_definition };

    ghost metadata_length = { λ _. 0 };

    fn pointer_metadata(_metadata: &()) -> usize {
        0
    }
}

impl Portable for bool {
    ghost shape = { leaf bool };

    ghost layout = { leaf_layout bool };

    type Check = bool;

    ghost is_one = { refl };

    ghost is_align = { leaf_align bool };

    ghost has_layout = { leaf_has_layout bool };

    ghost no_others = { no_definition_reached (leaf bool) };

    ghost checks = { λ direct. leaf_check bool };

    fn size() -> usize {
        1
    }

    fn align() -> usize {
        1
    }

    fn expr(_alloc: Global) -> Result<Expr, Error> {
        Ok(Expr::Leaf(Kind::Bool))
    }

    fn define(_alloc: Global, _defs: &mut Defs) -> Result<(), Error> {
        Ok(())
    }
}

impl ArchivePointee for u8 {
    type ArchivedMetadata = ();

    ghost pointee = { one (leaf (number unsigned w8)) };

    ghost definitions = { no_definition };

    ghost metadata_length = { λ _. 0 };

    fn pointer_metadata(_metadata: &()) -> usize {
        0
    }
}

impl Portable for u8 {
    ghost shape = { leaf (number unsigned w8) };

    ghost layout = { leaf_layout (number unsigned w8) };

    type Check = u8;

    ghost is_one = { refl };

    ghost is_align = { leaf_align (number unsigned w8) };

    ghost has_layout = { leaf_has_layout (number unsigned w8) };

    ghost no_others = { no_definition_reached (leaf (number unsigned w8)) };

    ghost checks = { λ direct. leaf_check (number unsigned w8) };

    fn size() -> usize {
        1
    }

    fn align() -> usize {
        1
    }

    fn expr(_alloc: Global) -> Result<Expr, Error> {
        Ok(Expr::Leaf(Kind::Number(IntegerKind::U8)))
    }

    fn define(_alloc: Global, _defs: &mut Defs) -> Result<(), Error> {
        Ok(())
    }
}

impl ArchivePointee for i8 {
    type ArchivedMetadata = ();

    ghost pointee = { one (leaf (number signed w8)) };

    ghost definitions = { no_definition };

    ghost metadata_length = { λ _. 0 };

    fn pointer_metadata(_metadata: &()) -> usize {
        0
    }
}

impl Portable for i8 {
    ghost shape = { leaf (number signed w8) };

    ghost layout = { leaf_layout (number signed w8) };

    type Check = i8;

    ghost is_one = { refl };

    ghost is_align = { leaf_align (number signed w8) };

    ghost has_layout = { leaf_has_layout (number signed w8) };

    ghost no_others = { no_definition_reached (leaf (number signed w8)) };

    ghost checks = { λ direct. leaf_check (number signed w8) };

    fn size() -> usize {
        1
    }

    fn align() -> usize {
        1
    }

    fn expr(_alloc: Global) -> Result<Expr, Error> {
        Ok(Expr::Leaf(Kind::Number(IntegerKind::I8)))
    }

    fn define(_alloc: Global, _defs: &mut Defs) -> Result<(), Error> {
        Ok(())
    }
}
