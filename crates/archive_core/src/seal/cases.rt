// Seals of the fields of records and of variants, by the shape alone.

ghost use Rattle.std.specs.Prelude.{◌≡◌, ◌+◌, Some, true};
ghost use Rattle.archive_check.specs.Definitions.{no_definition};
ghost use Rattle.archive_core.specs.SealOutcomes.{IsSealOf, SealsPart, seal_tag};
ghost use Rattle.archive_core.specs.fields.FieldsAt.{FieldBegins, field_at};
ghost use Rattle.archive_core.specs.fields.Plain.{BeginsAt, are_none, part_in};

use super::{Seal, Spot};
use crate::fields::{part_in_case, part_in_record};
use archive_types::traits::Portable;

/// A seal of a field of a variant, which begins at `offset`. The caller must ensure that the seal
/// shows this tag, and that seals reach what it shows.
pub fn sealed_part_in_case<'a, X: Portable, U: Portable>(
    seal: Seal<'a, X>,
    tag: u8,
    i: usize,
    offset: usize,
) -> Seal<'a, U>
    requires come_to { IsSealOf X.definitions X.pointee seal }
    requires tag { seal_tag seal ≡ tag }
    requires nothing { X.definitions ≡ no_definition }
    requires part { part_in X.shape tag i ≡ Some U.shape }
    requires begins { BeginsAt X.shape tag i offset }
    requires nameless { are_none U.definitions ≡ true }
    ensures { SealsPart X.definitions X.pointee U.definitions U.pointee (seal.entry.pos + offset) 0
        seal.entry result }
{
    let spot = Spot::of(part_in_case::<X, U>(seal.as_ref(), tag, i, offset));
    let Seal { bytes, .. } = seal;
    spot.seal(bytes)
}

/// A seal of a field of a record, which begins at `offset`. The caller must ensure that seals reach
/// what the seal shows.
pub fn sealed_part_in_record<'a, X: Portable, U: Portable>(
    seal: Seal<'a, X>,
    i: usize,
    offset: usize,
) -> Seal<'a, U>
    requires come_to { IsSealOf X.definitions X.pointee seal }
    requires nothing { X.definitions ≡ no_definition }
    requires part { field_at X.shape i ≡ Some U.shape }
    requires begins { FieldBegins X.shape i offset }
    requires nameless { are_none U.definitions ≡ true }
    ensures { SealsPart X.definitions X.pointee U.definitions U.pointee (seal.entry.pos + offset) 0
        seal.entry result }
{
    let spot = Spot::of(part_in_record::<X, U>(seal.as_ref(), i, offset));
    let Seal { bytes, .. } = seal;
    spot.seal(bytes)
}
