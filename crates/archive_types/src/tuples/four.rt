// Tuples of four.

ghost use Rattle.std.specs.Prelude.{◌≡◌, length, OnOk, IfErr, refl, None};
ghost use Rattle.std.proofs.Common.{rules};
ghost use Rattle.archive_check.specs.Value.{product};
ghost use Rattle.archive_types.specs.Members.PartsPlanned.{whole_planned, whole_keyed};
ghost use Rattle.archive_types.specs.Members.PlannedOwners.{one_planned};
ghost use Rattle.archive_types.specs.Writing.{ZeroedPlace};
ghost use Rattle.archive_types.specs.Outcomes.{ResolvesAs};

use super::parts::{Part0, Part1, Part2, Part3, Parts4};
use crate::parts::{FromParts, PartOf, SerializeParts, SourceParts};
use crate::place::Place;
use crate::record::{resolve_record, serialize_record};
use crate::ser::serialize_one;
use crate::traits::{
    Archive, ArchiveUnsized, CopyOptimization, FourParts, Keys, Portable, Serialize,
    SerializeUnsized,
};
use archive_check::format::error::Error;
use archive_tuple::ArchivedTuple;
use archive_write::ser::{ResolverAlloc, Writer};

impl<A, B, C, D> Archive for (A, B, C, D)
where
    Parts4: SourceParts<Self>,
{
    type Archived = ArchivedTuple<<Parts4 as SourceParts<Self>>::Archived>;

    type Resolver = <Parts4 as SourceParts<Self>>::Resolvers;

    ghost meaning = { λ v. product (⟦<Parts4 as SourceParts<Self>>⟧.meanings v) };

    ghost flat = { λ v r. product (⟦<Parts4 as SourceParts<Self>>⟧.flats v r) };

    ghost keys = { λ v. ⟦<Parts4 as SourceParts<Self>>⟧.keys v };

    ghost belongs = { λ v r. ⟦<Parts4 as SourceParts<Self>>⟧.belongs v r };

    ghost in_bulk = { None };

    ghost keyed = { whole_keyed ⟦<Parts4 as SourceParts<Self>>⟧.keys
        ⟦<Parts4 as SourceParts<Self>>⟧.meanings (Prim.search rules) };

    ghost planned = { whole_planned ⟦<Parts4 as SourceParts<Self>>⟧.keys
        ⟦<Parts4 as SourceParts<Self>>⟧.meanings (Prim.search rules) };

    #[inline(always)]
    fn resolve(
        &self,
        resolver: Self::Resolver,
        place: Place<'_, Self::Archived>,
    ) -> Result<(), Error>
        requires zeroed { ZeroedPlace ⟦<Self::Archived as Portable>⟧.layout.size place.pos
            place.bytes.now }
        requires same_value { ⟦<Self as Archive>⟧.belongs self.now resolver }
        ensures { ResolvesAs ⟦<Self::Archived as Portable>⟧ place
            (⟦<Self as Archive>⟧.flat self.now resolver) result }
    {
        let Place { bytes, pos, .. } = place;
        resolve_record::<Self, Parts4, Self::Archived>(self, resolver, Place::new(pos, bytes))
    }

    #[inline(always)]
    fn copy_optimization() -> CopyOptimization<Self> {
        CopyOptimization::disable()
    }

    #[inline(always)]
    fn serialize_copied<S: Writer + Keys>(
        _values: &[Self],
        _together: usize,
        _serializer: &mut S,
    ) -> Result<Option<usize>, Error> {
        Ok(None)
    }
}

impl<A, B, C, D, S: Writer + Keys> Serialize<S> for (A, B, C, D)
where
    Parts4: SerializeParts<Self, S>,
{
    #[inline(always)]
    fn serialize(&self, serializer: &mut S) -> Result<Self::Resolver, Error> {
        serialize_record::<Self, Parts4, Self::Archived, S>(self, serializer)
    }
}

/// As a region of its own: the tuple itself, as one value.
impl<A, B, C, D> ArchiveUnsized for (A, B, C, D)
where
    Parts4: SourceParts<Self>,
{
    type Archived = ArchivedTuple<<Parts4 as SourceParts<Self>>::Archived>;

    ghost source_length = { λ _. 0 };

    ghost meaning = { λ v. product (⟦<Parts4 as SourceParts<Self>>⟧.meanings v) };

    ghost keys = { λ v. ⟦<Parts4 as SourceParts<Self>>⟧.keys v };

    ghost keyed = { whole_keyed ⟦<Parts4 as SourceParts<Self>>⟧.keys
        ⟦<Parts4 as SourceParts<Self>>⟧.meanings (Prim.search rules) };

    ghost one_length = { λ _ _. refl };

    ghost planned = { λ v. one_planned _ _ _ _ (whole_planned ⟦<Parts4 as SourceParts<Self>>⟧.keys
        ⟦<Parts4 as SourceParts<Self>>⟧.meanings (Prim.search rules) v) };

    #[inline(always)]
    fn archived_metadata(&self) -> Result<(), Error> {
        Ok(())
    }
}

impl<A, B, C, D, S: Writer + ResolverAlloc> SerializeUnsized<S> for (A, B, C, D)
where
    Parts4: SerializeParts<Self, S>,
{
    #[inline(always)]
    fn serialize_unsized(&self, serializer: &mut S) -> Result<usize, Error> {
        serialize_one(self, serializer)
    }
}

impl<A: Archive + Drop, B: Archive + Drop, C: Archive + Drop, D: Archive + Drop> FromParts
    for (A, B, C, D) {
    type Owned = FourParts<A, B, C, D, ()>;

    fn from_parts(values: Self::Owned) -> (A, B, C, D) {
        let FourParts {
            first: a,
            second: b,
            third: c,
            fourth: d,
            rest,
        } = values;
        let () = rest;
        (a, b, c, d)
    }
}

impl<A: Archive, B, C, D> PartOf<(A, B, C, D)> for Part0 {
    type Source = A;

    ghost part = { λ v. v.0 };

    #[inline(always)]
    fn part_of(whole: &(A, B, C, D)) -> &A {
        &whole.0
    }
}

impl<A, B: Archive, C, D> PartOf<(A, B, C, D)> for Part1 {
    type Source = B;

    ghost part = { λ v. v.1 };

    #[inline(always)]
    fn part_of(whole: &(A, B, C, D)) -> &B {
        &whole.1
    }
}

impl<A, B, C: Archive, D> PartOf<(A, B, C, D)> for Part2 {
    type Source = C;

    ghost part = { λ v. v.2 };

    #[inline(always)]
    fn part_of(whole: &(A, B, C, D)) -> &C {
        &whole.2
    }
}

impl<A, B, C, D: Archive> PartOf<(A, B, C, D)> for Part3 {
    type Source = D;

    ghost part = { λ v. v.3 };

    #[inline(always)]
    fn part_of(whole: &(A, B, C, D)) -> &D {
        &whole.3
    }
}
