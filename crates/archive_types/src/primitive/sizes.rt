// `usize` and `isize` as sources: 32 bits, and refused where they need more.

ghost use Rattle.std.specs.Prelude.{◌≡◌, ◌<◌, ◌^◌, pos, length, refl, IfOk, IfErr, IsOk, ⊤, [], OnOk, None};
ghost use Rattle.std.specs.Int.{w32, cast_signed, cast_unsigned};
ghost use Rattle.std.specs.Int.RustNames.{FitsSigned};
ghost use Rattle.archive_check.specs.Shape.{leaf, one, number, signed, unsigned};
ghost use Rattle.archive_check.specs.Definitions.{no_definition};
ghost use Rattle.archive_check.specs.Reads.{bytes_at};
ghost use Rattle.archive_check.specs.Value.{number as number_value};
ghost use Rattle.archive_check.specs.Viewed.{Viewed};
ghost use Rattle.archive_check.specs.Entries.{ReadsBack};
ghost use Rattle.archive_check.specs.declared.format.error.Error.TheVariants.{NumberTooLarge};
ghost use Rattle.archive_check.specs.LittleEndian.{little_bytes, little_number};
ghost use Rattle.archive_types.specs.Members.Keyed.{number_keyed};
ghost use Rattle.archive_types.specs.Causes.{HindersAt, IsRefused};
ghost use Rattle.archive_types.specs.Members.Planned.{leaf_planned};
ghost use Rattle.archive_types.specs.Members.PlannedOwners.{one_planned};
ghost use Rattle.archive_types.specs.Plans.{Serialized};
ghost use Rattle.archive_types.specs.Words.Seen.{IsPartOf, part_number};
ghost use Rattle.archive_types.specs.Words.ReadBack.{Read};
ghost use Rattle.archive_types.specs.Writing.{ZeroedPlace, Resolves};
ghost use Rattle.archive_write.specs.Written.{GoesOn};
ghost use Rattle.archive_types.specs.Outcomes.{ResolvesAs};
ghost use Rattle.archive_types.specs.SourceOutcomes.{Serializes};

use crate::place::Place;
use crate::ser::serialize_one;
use crate::traits::{
    Archive, ArchivePointee, ArchiveUnsized, CopyOptimization, Deserialize, Entries, Keys,
    Portable, Serialize, SerializeUnsized,
};
use crate::view::{RawView, Ref};
use archive_check::format::error::Error;
use archive_num::{ArchivedIsize, ArchivedUsize, FixedIsize, FixedUsize, Native};
use archive_write::ser::{ResolverAlloc, Writer};
use std::alloc::Global;

impl Archive for usize {
    type Archived = ArchivedUsize;

    type Resolver = ();

    ghost meaning = { λ n. number_value (pos n) };

    ghost flat = { λ n _. number_value (pos n) };

    ghost keys = { λ _. [] };

    ghost belongs = { λ n _. n < 2 ^ 32 };

    ghost in_bulk = { None };

    ghost keyed = { λ n. number_keyed (pos n) };

    ghost planned = { λ n. leaf_planned no_definition (leaf (number unsigned w32))
        (number unsigned w32) [] (pos n) refl };

    #[tactic(auto, using(crate::proofs::Writing::Resolving::resolves_usize))]
    #[inline(always)]
    fn resolve(&self, _resolver: (), place: Place<'_, ArchivedUsize>) -> Result<(), Error>
        requires zeroed { ZeroedPlace 4 place.pos place.bytes.now }
        requires same_value { self.now < 2 ^ 32 }
        ensures outcome { ResolvesAs ⟦<Self::Archived as Portable>⟧ place
            (⟦<Self as Archive>⟧.flat self.now _resolver) result }
        ensures written { place.exit.0.now ≡ little_bytes 4 self.now }
        ensures succeeds { IsOk result }
    {
        let Place { bytes, .. } = place;
        (*self as FixedUsize).write_to(bytes);
        Ok(())
    }

    #[inline(always)]
    fn copy_optimization() -> CopyOptimization<Self> {
        CopyOptimization::disable()
    }

    #[inline(always)]
    fn serialize_copied<S: Writer + Keys>(
        _values: &[Self],
        _together: usize,
        _serializer: &mut S,
    ) -> Result<Option<usize>, Error> {
        Ok(None)
    }
}

impl<S: Writer + Keys> Serialize<S> for usize {
    /// Writes nothing. Fails with `NumberTooLarge` exactly if the number doesn't fit 32 bits
    /// without a sign. rkyv 0.8.18 truncates it.
    #[tactic(auto, using(crate::proofs::Planning::Causes::goes_nowhere, crate::proofs::Planning::Planned::usize_refused))]
    #[inline(always)]
    fn serialize(&self, _serializer: &mut S) -> Result<(), Error>
        ensures outcome { Serializes ⟦<Self as Archive>⟧ ⟦<Self::Archived as Portable>⟧ self.now
            S.Keys _serializer result }
        ensures unchanged { S.state _serializer.new ≡ S.state _serializer.old }
        ensures cause { IfErr result (λ e. (e ≡ NumberTooLarge) × (self.now < 2 ^ 32 → ⊥)) }
    {
        if FixedUsize::try_from(*self).is_err() {
            return Err(Error::NumberTooLarge);
        }
        Ok(())
    }
}

/// As a region of its own.
impl ArchiveUnsized for usize {
    type Archived = ArchivedUsize;

    ghost source_length = { λ _. 0 };

    ghost meaning = { λ n. number_value (pos n) };

    ghost keys = { λ _. [] };

    ghost keyed = { λ n. number_keyed (pos n) };

    ghost one_length = { λ _ _. refl };

    ghost planned = { λ n. one_planned no_definition (leaf (number unsigned w32)) []
        (number_value (pos n)) (leaf_planned no_definition (leaf (number unsigned w32))
        (number unsigned w32) [] (pos n) refl) };

    #[inline(always)]
    fn archived_metadata(&self) -> Result<(), Error> {
        Ok(())
    }
}

impl<S: Writer + ResolverAlloc> SerializeUnsized<S> for usize {
    #[inline(always)]
    fn serialize_unsized(&self, serializer: &mut S) -> Result<usize, Error> {
        serialize_one(self, serializer)
    }
}

impl<D: Entries> Deserialize<usize, D> for ArchivedUsize {
    fn deserialize_part(
        _alloc: Global,
        part: RawView<'_>,
        _deserializer: &mut D,
    ) -> Result<usize, Error>
        requires { IsPartOf ⟦<Self as ArchivePointee>⟧ part }
        ensures read { IfOk result (Read ⟦<Self as ArchivePointee>⟧ part D.Entries _deserializer
            ⟦<usize as Archive>⟧) }
        ensures number { IfOk result (λ n. n ≡ part_number part.entry 4) }
        ensures unchanged { D.entry_of _deserializer.new ≡ D.entry_of _deserializer.old }
        ensures succeeds { IsOk result }
    {
        let view: Ref<'_, ArchivedUsize> = Ref::at(part);
        Ok(view.get() as usize)
    }
}

impl Archive for isize {
    type Archived = ArchivedIsize;

    type Resolver = ();

    ghost meaning = { λ n. number_value n };

    ghost flat = { λ n _. number_value n };

    ghost keys = { λ _. [] };

    ghost belongs = { λ n _. FitsSigned w32 n };

    ghost in_bulk = { None };

    ghost keyed = { λ n. number_keyed n };

    ghost planned = { λ n. leaf_planned no_definition (leaf (number signed w32)) (number signed w32)
        [] n refl };

    #[tactic(auto, using(crate::proofs::Writing::Resolving::resolves_isize))]
    #[inline(always)]
    fn resolve(&self, _resolver: (), place: Place<'_, ArchivedIsize>) -> Result<(), Error>
        requires zeroed { ZeroedPlace 4 place.pos place.bytes.now }
        requires same_value { FitsSigned w32 self.now }
        ensures outcome { ResolvesAs ⟦<Self::Archived as Portable>⟧ place
            (⟦<Self as Archive>⟧.flat self.now _resolver) result }
        ensures written { place.exit.0.now ≡ little_bytes 4 (cast_unsigned w32 self.now) }
        ensures succeeds { IsOk result }
    {
        let Place { bytes, .. } = place;
        (*self as FixedIsize).write_to(bytes);
        Ok(())
    }

    #[inline(always)]
    fn copy_optimization() -> CopyOptimization<Self> {
        CopyOptimization::disable()
    }

    #[inline(always)]
    fn serialize_copied<S: Writer + Keys>(
        _values: &[Self],
        _together: usize,
        _serializer: &mut S,
    ) -> Result<Option<usize>, Error> {
        Ok(None)
    }
}

impl<S: Writer + Keys> Serialize<S> for isize {
    /// Writes nothing. Fails with `NumberTooLarge` exactly if the number doesn't fit 32 bits with a
    /// sign. rkyv 0.8.18 truncates it.
    #[tactic(auto, using(crate::proofs::Planning::Causes::goes_nowhere, crate::proofs::Planning::Planned::isize_refused))]
    #[inline(always)]
    fn serialize(&self, _serializer: &mut S) -> Result<(), Error>
        ensures outcome { Serializes ⟦<Self as Archive>⟧ ⟦<Self::Archived as Portable>⟧ self.now
            S.Keys _serializer result }
        ensures unchanged { S.state _serializer.new ≡ S.state _serializer.old }
        ensures cause { IfErr result (λ e. (e ≡ NumberTooLarge) × (FitsSigned w32 self.now → ⊥)) }
    {
        if FixedIsize::try_from(*self).is_err() {
            return Err(Error::NumberTooLarge);
        }
        Ok(())
    }
}

/// As a region of its own.
impl ArchiveUnsized for isize {
    type Archived = ArchivedIsize;

    ghost source_length = { λ _. 0 };

    ghost meaning = { λ n. number_value n };

    ghost keys = { λ _. [] };

    ghost keyed = { λ n. number_keyed n };

    ghost one_length = { λ _ _. refl };

    ghost planned = { λ n. one_planned no_definition (leaf (number signed w32)) [] (number_value n)
        (leaf_planned no_definition (leaf (number signed w32)) (number signed w32) [] n refl) };

    #[inline(always)]
    fn archived_metadata(&self) -> Result<(), Error> {
        Ok(())
    }
}

impl<S: Writer + ResolverAlloc> SerializeUnsized<S> for isize {
    #[inline(always)]
    fn serialize_unsized(&self, serializer: &mut S) -> Result<usize, Error> {
        serialize_one(self, serializer)
    }
}

impl<D: Entries> Deserialize<isize, D> for ArchivedIsize {
    fn deserialize_part(
        _alloc: Global,
        part: RawView<'_>,
        _deserializer: &mut D,
    ) -> Result<isize, Error>
        requires { IsPartOf ⟦<Self as ArchivePointee>⟧ part }
        ensures read { IfOk result (Read ⟦<Self as ArchivePointee>⟧ part D.Entries _deserializer
            ⟦<isize as Archive>⟧) }
        ensures number { IfOk result (λ n. n ≡ cast_signed w32 (part_number part.entry 4)) }
        ensures unchanged { D.entry_of _deserializer.new ≡ D.entry_of _deserializer.old }
        ensures succeeds { IsOk result }
    {
        let view: Ref<'_, ArchivedIsize> = Ref::at(part);
        Ok(view.get() as isize)
    }
}
