// Seals of a record's parts.

ghost use Rattle.std.specs.Prelude.{◌≡◌, ◌+◌, Some};
ghost use Rattle.archive_check.specs.Members.PartsLayout.{part_at, definitions_at};
ghost use Rattle.archive_core.specs.SealOutcomes.{IsSealOf, SealsPart};
ghost use Rattle.archive_types.specs.Members.KnownParts.{KnowsAlso};

use super::{Seal, Spot};
use archive_types::traits::{Portable, Record};

impl<'a, T: Record> Seal<'a, T> {
    /// A seal of part `i`. The caller must ensure what `field` of a view requires, and that seals
    /// reach what it shows, as when it was made. No byte changes. rkyv 0.8.18 has a macro that goes
    /// to the type's fields.
    pub fn field<U: Portable>(self, i: usize) -> Seal<'a, U>
        requires come_to { IsSealOf T.definitions T.pointee self }
        requires part { part_at T.Parts.parts i ≡ Some U.shape }
        requires definitions { KnowsAlso (definitions_at T.Parts.definitions i) U.definitions }
        ensures { SealsPart T.definitions T.pointee U.definitions U.pointee
            (self.entry.pos + T.Parts.begin 0 i) 0 self.entry result }
    {
        let spot = Spot::of(self.as_ref().field::<U>(i));
        let Seal { bytes, .. } = self;
        spot.seal(bytes)
    }
}
