// Seals of what is behind the tags of choices.

ghost use Rattle.std.specs.Prelude.{◌≡◌, ◌+◌, Some, slice_index};
ghost use Rattle.archive_check.specs.Members.VariantsLayout.{payload_at, payload_definitions};
ghost use Rattle.archive_core.specs.SealOutcomes.{IsSealOf, SealsPart, seal_tag};
ghost use Rattle.archive_types.specs.Members.KnownParts.{KnowsAlso};

use super::{Seal, Spot};
use archive_types::traits::{Choice, Portable};

impl<'a, T: Choice> Seal<'a, T> {
    /// A seal of part `i` of the variant that the tag names. The caller must ensure what `payload`
    /// of a view requires, and that seals reach what it shows, as when it was made. No byte
    /// changes.
    pub fn payload<U: Portable>(self, i: usize) -> Seal<'a, U>
        requires come_to { IsSealOf T.definitions T.pointee self }
        requires part { payload_at T.Variants.variants (slice_index self.bytes.now self.pos) i
            ≡ Some U.shape }
        requires definitions { KnowsAlso (payload_definitions T.Variants.definitions (seal_tag self)
            i) U.definitions }
        ensures { SealsPart T.definitions T.pointee U.definitions U.pointee
            (self.entry.pos + T.Variants.begin (slice_index self.entry.bytes.now self.entry.pos) i)
            0 self.entry result }
    {
        let spot = Spot::of(self.as_ref().payload::<U>(i));
        let Seal { bytes, .. } = self;
        spot.seal(bytes)
    }
}
