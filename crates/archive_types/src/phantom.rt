// `PhantomData`: a record of nothing.

ghost use Rattle.std.specs.Prelude.{◌≡◌, ⊤, refl, [], length, IfOk, OnOk, IfErr, IsOk, Some};
ghost use Rattle.archive_check.specs.Shape.{one, parts, no_part};
ghost use Rattle.archive_check.specs.Definitions.{no_definition};
ghost use Rattle.archive_check.specs.Entries.{ReadsBack};
ghost use Rattle.archive_check.specs.Value.{product, no_value};
ghost use Rattle.archive_check.specs.Viewed.{Viewed};
ghost use Rattle.archive_types.specs.Causes.{HindersAt, IsRefused};
ghost use Rattle.archive_types.specs.Members.Nothing.{empty_product_keyed, empty_product_planned};
ghost use Rattle.archive_types.specs.Members.PlannedOwners.{one_planned};
ghost use Rattle.archive_types.specs.Plans.{Serialized};
ghost use Rattle.archive_types.specs.Words.Seen.{IsPartOf};
ghost use Rattle.archive_types.specs.Words.ReadBack.{Read};
ghost use Rattle.archive_types.specs.Writing.{ZeroedPlace, Resolves};
ghost use Rattle.archive_write.specs.Written.{GoesOn};
ghost use Rattle.archive_types.specs.Outcomes.{ResolvesAs};
ghost use Rattle.archive_types.specs.SourceOutcomes.{Serializes};

use crate::place::Place;
use crate::ser::serialize_one;
use crate::slice::copy_groups;
use crate::traits::{
    Archive, ArchivePointee, ArchiveUnsized, Copied, CopiedSource, CopyOptimization, Deserialize,
    Entries, Keys, Portable, Serialize, SerializeUnsized,
};
use crate::view::RawView;
use archive_check::format::error::Error;
use archive_write::ser::{ResolverAlloc, Writer};
use std::alloc::Global;
use std::marker::PhantomData;

/// It never fails, and takes no byte. As in rkyv 0.8.18.
impl<T> Archive for PhantomData<T> {
    type Archived = PhantomData<T>;

    type Resolver = ();

    ghost meaning = { λ _. product no_value };

    ghost flat = { λ _ _. product no_value };

    ghost keys = { λ _. [] };

    ghost belongs = { λ _ _. ⊤ };

    ghost in_bulk = { Some (λ _. []) };

    ghost keyed = { λ _. empty_product_keyed };

    ghost planned = { λ _. empty_product_planned };

    #[tactic(auto, using(crate::proofs::Writing::Nothing::resolves_empty_product))]
    #[inline(always)]
    fn resolve(&self, _resolver: (), place: Place<'_, PhantomData<T>>) -> Result<(), Error>
        requires zeroed { ZeroedPlace 0 place.pos place.bytes.now }
        requires same_value { ⊤ }
        ensures outcome { ResolvesAs ⟦<Self::Archived as Portable>⟧ place
            (⟦<Self as Archive>⟧.flat self.now _resolver) result }
        ensures succeeds { IsOk result }
    {
        let Place { bytes: _bytes, .. } = place;
        Ok(())
    }

    fn copy_optimization() -> CopyOptimization<PhantomData<T>> {
        CopyOptimization::enable()
    }

    fn serialize_copied<S: Writer + Keys>(
        values: &[PhantomData<T>],
        together: usize,
        serializer: &mut S,
    ) -> Result<Option<usize>, Error> {
        copy_groups(values, together, serializer)
    }
}

/// It has no bytes, so nothing is copied.
impl<T> Copied for PhantomData<T> {
    type CopiedAs = PhantomData<T>;

    ghost copied_keys = { λ _. [] };

    ghost copied_meaning = { λ _. product no_value };

    ghost copied_bytes = { λ _. [] };

    #[tactic(auto, using(crate::proofs::Writing::Nothing::serialized_empty_product))]
    fn copied_size() -> usize {
        0
    }

    fn copy_one(&self, _bytes: &mut [u8]) {}
}

impl<T> CopiedSource for PhantomData<T> {
    ghost same_keys = { refl };

    ghost same_meaning = { refl };
}

impl<T, S: Writer + Keys> Serialize<S> for PhantomData<T> {
    #[tactic(auto, using(crate::proofs::Writing::Nothing::serialized_empty_product, crate::proofs::Planning::Causes::goes_nowhere))]
    #[inline(always)]
    fn serialize(&self, _serializer: &mut S) -> Result<(), Error>
        ensures outcome { Serializes ⟦<Self as Archive>⟧ ⟦<Self::Archived as Portable>⟧ self.now
            S.Keys _serializer result }
        ensures unchanged { S.state _serializer.new ≡ S.state _serializer.old }
        ensures succeeds { IsOk result }
    {
        Ok(())
    }
}

/// As a source in a region of its own it is one value, of no byte.
impl<T> ArchiveUnsized for PhantomData<T> {
    type Archived = PhantomData<T>;

    ghost source_length = { λ _. 0 };

    ghost meaning = { λ _. product no_value };

    ghost keys = { λ _. [] };

    ghost keyed = { λ _. empty_product_keyed };

    ghost one_length = { λ _ _. refl };

    ghost planned = { λ _. one_planned no_definition (parts no_part) [] (product no_value)
        empty_product_planned };

    #[inline(always)]
    fn archived_metadata(&self) -> Result<(), Error> {
        Ok(())
    }
}

impl<T, S: Writer + ResolverAlloc> SerializeUnsized<S> for PhantomData<T> {
    #[inline(always)]
    fn serialize_unsized(&self, serializer: &mut S) -> Result<usize, Error> {
        serialize_one(self, serializer)
    }
}

impl<T, D: Entries> Deserialize<PhantomData<T>, D> for PhantomData<T> {
    fn deserialize_part(
        _alloc: Global,
        part: RawView<'_>,
        _deserializer: &mut D,
    ) -> Result<PhantomData<T>, Error>
        requires { IsPartOf ⟦<Self as ArchivePointee>⟧ part }
        ensures read { IfOk result (Read ⟦<Self as ArchivePointee>⟧ part D.Entries _deserializer
            ⟦<Self as Archive>⟧) }
        ensures unchanged { D.entry_of _deserializer.new ≡ D.entry_of _deserializer.old }
        ensures succeeds { IsOk result }
    {
        let _part = part;
        Ok(PhantomData)
    }
}
