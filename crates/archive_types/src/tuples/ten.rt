// Tuples of ten.

ghost use Rattle.std.specs.Prelude.{◌≡◌, length, OnOk, IfErr, refl, None};
ghost use Rattle.std.proofs.Common.{rules};
ghost use Rattle.archive_check.specs.Value.{product};
ghost use Rattle.archive_types.specs.Members.PartsPlanned.{whole_planned, whole_keyed};
ghost use Rattle.archive_types.specs.Members.PlannedOwners.{one_planned};
ghost use Rattle.archive_types.specs.Writing.{ZeroedPlace};
ghost use Rattle.archive_types.specs.Outcomes.{ResolvesAs};

use super::parts::{Part0, Part1, Part2, Part3, Part4, Part5, Part6, Part7, Part8, Part9, Parts10};
use crate::parts::{FromParts, PartOf, SerializeParts, SourceParts};
use crate::place::Place;
use crate::record::{resolve_record, serialize_record};
use crate::ser::serialize_one;
use crate::traits::{
    Archive, ArchiveUnsized, CopyOptimization, FourParts, Keys, Portable, Serialize,
    SerializeUnsized,
};
use archive_check::format::error::Error;
use archive_tuple::ArchivedTuple;
use archive_write::ser::{ResolverAlloc, Writer};

impl<A, B, C, D, E, F, G, H, I, J> Archive for (A, B, C, D, E, F, G, H, I, J)
where
    Parts10: SourceParts<Self>,
{
    type Archived = ArchivedTuple<<Parts10 as SourceParts<Self>>::Archived>;

    type Resolver = <Parts10 as SourceParts<Self>>::Resolvers;

    ghost meaning = { λ v. product (⟦<Parts10 as SourceParts<Self>>⟧.meanings v) };

    ghost flat = { λ v r. product (⟦<Parts10 as SourceParts<Self>>⟧.flats v r) };

    ghost keys = { λ v. ⟦<Parts10 as SourceParts<Self>>⟧.keys v };

    ghost belongs = { λ v r. ⟦<Parts10 as SourceParts<Self>>⟧.belongs v r };

    ghost in_bulk = { None };

    ghost keyed = { whole_keyed ⟦<Parts10 as SourceParts<Self>>⟧.keys
        ⟦<Parts10 as SourceParts<Self>>⟧.meanings (Prim.search rules) };

    ghost planned = { whole_planned ⟦<Parts10 as SourceParts<Self>>⟧.keys
        ⟦<Parts10 as SourceParts<Self>>⟧.meanings (Prim.search rules) };

    #[inline(always)]
    fn resolve(
        &self,
        resolver: Self::Resolver,
        place: Place<'_, Self::Archived>,
    ) -> Result<(), Error>
        requires zeroed { ZeroedPlace ⟦<Self::Archived as Portable>⟧.layout.size place.pos
            place.bytes.now }
        requires same_value { ⟦<Self as Archive>⟧.belongs self.now resolver }
        ensures { ResolvesAs ⟦<Self::Archived as Portable>⟧ place
            (⟦<Self as Archive>⟧.flat self.now resolver) result }
    {
        let Place { bytes, pos, .. } = place;
        resolve_record::<Self, Parts10, Self::Archived>(self, resolver, Place::new(pos, bytes))
    }

    #[inline(always)]
    fn copy_optimization() -> CopyOptimization<Self> {
        CopyOptimization::disable()
    }

    #[inline(always)]
    fn serialize_copied<S: Writer + Keys>(
        _values: &[Self],
        _together: usize,
        _serializer: &mut S,
    ) -> Result<Option<usize>, Error> {
        Ok(None)
    }
}

impl<A, B, C, D, E, F, G, H, I, J, S: Writer + Keys> Serialize<S> for (A, B, C, D, E, F, G, H, I, J)
where
    Parts10: SerializeParts<Self, S>,
{
    #[inline(always)]
    fn serialize(&self, serializer: &mut S) -> Result<Self::Resolver, Error> {
        serialize_record::<Self, Parts10, Self::Archived, S>(self, serializer)
    }
}

/// As a region of its own: the tuple itself, as one value.
impl<A, B, C, D, E, F, G, H, I, J> ArchiveUnsized for (A, B, C, D, E, F, G, H, I, J)
where
    Parts10: SourceParts<Self>,
{
    type Archived = ArchivedTuple<<Parts10 as SourceParts<Self>>::Archived>;

    ghost source_length = { λ _. 0 };

    ghost meaning = { λ v. product (⟦<Parts10 as SourceParts<Self>>⟧.meanings v) };

    ghost keys = { λ v. ⟦<Parts10 as SourceParts<Self>>⟧.keys v };

    ghost keyed = { whole_keyed ⟦<Parts10 as SourceParts<Self>>⟧.keys
        ⟦<Parts10 as SourceParts<Self>>⟧.meanings (Prim.search rules) };

    ghost one_length = { λ _ _. refl };

    ghost planned = { λ v. one_planned _ _ _ _ (whole_planned ⟦<Parts10 as SourceParts<Self>>⟧.keys
        ⟦<Parts10 as SourceParts<Self>>⟧.meanings (Prim.search rules) v) };

    #[inline(always)]
    fn archived_metadata(&self) -> Result<(), Error> {
        Ok(())
    }
}

impl<A, B, C, D, E, F, G, H, I, J, S: Writer + ResolverAlloc> SerializeUnsized<S>
    for (A, B, C, D, E, F, G, H, I, J)
where
    Parts10: SerializeParts<Self, S>,
{
    #[inline(always)]
    fn serialize_unsized(&self, serializer: &mut S) -> Result<usize, Error> {
        serialize_one(self, serializer)
    }
}

impl<
    A: Archive + Drop,
    B: Archive + Drop,
    C: Archive + Drop,
    D: Archive + Drop,
    E: Archive + Drop,
    F: Archive + Drop,
    G: Archive + Drop,
    H: Archive + Drop,
    I: Archive + Drop,
    J: Archive + Drop,
> FromParts for (A, B, C, D, E, F, G, H, I, J) {
    type Owned = FourParts<A, B, C, D, FourParts<E, F, G, H, (I, (J, ()))>>;

    fn from_parts(values: Self::Owned) -> (A, B, C, D, E, F, G, H, I, J) {
        let FourParts {
            first: a,
            second: b,
            third: c,
            fourth: d,
            rest,
        } = values;
        let FourParts {
            first: e,
            second: f,
            third: g,
            fourth: h,
            rest,
        } = rest;
        let (i, (j, ())) = rest;
        (a, b, c, d, e, f, g, h, i, j)
    }
}

impl<A: Archive, B, C, D, E, F, G, H, I, J> PartOf<(A, B, C, D, E, F, G, H, I, J)> for Part0 {
    type Source = A;

    ghost part = { λ v. v.0 };

    #[inline(always)]
    fn part_of(whole: &(A, B, C, D, E, F, G, H, I, J)) -> &A {
        &whole.0
    }
}

impl<A, B: Archive, C, D, E, F, G, H, I, J> PartOf<(A, B, C, D, E, F, G, H, I, J)> for Part1 {
    type Source = B;

    ghost part = { λ v. v.1 };

    #[inline(always)]
    fn part_of(whole: &(A, B, C, D, E, F, G, H, I, J)) -> &B {
        &whole.1
    }
}

impl<A, B, C: Archive, D, E, F, G, H, I, J> PartOf<(A, B, C, D, E, F, G, H, I, J)> for Part2 {
    type Source = C;

    ghost part = { λ v. v.2 };

    #[inline(always)]
    fn part_of(whole: &(A, B, C, D, E, F, G, H, I, J)) -> &C {
        &whole.2
    }
}

impl<A, B, C, D: Archive, E, F, G, H, I, J> PartOf<(A, B, C, D, E, F, G, H, I, J)> for Part3 {
    type Source = D;

    ghost part = { λ v. v.3 };

    #[inline(always)]
    fn part_of(whole: &(A, B, C, D, E, F, G, H, I, J)) -> &D {
        &whole.3
    }
}

impl<A, B, C, D, E: Archive, F, G, H, I, J> PartOf<(A, B, C, D, E, F, G, H, I, J)> for Part4 {
    type Source = E;

    ghost part = { λ v. v.4 };

    #[inline(always)]
    fn part_of(whole: &(A, B, C, D, E, F, G, H, I, J)) -> &E {
        &whole.4
    }
}

impl<A, B, C, D, E, F: Archive, G, H, I, J> PartOf<(A, B, C, D, E, F, G, H, I, J)> for Part5 {
    type Source = F;

    ghost part = { λ v. v.5 };

    #[inline(always)]
    fn part_of(whole: &(A, B, C, D, E, F, G, H, I, J)) -> &F {
        &whole.5
    }
}

impl<A, B, C, D, E, F, G: Archive, H, I, J> PartOf<(A, B, C, D, E, F, G, H, I, J)> for Part6 {
    type Source = G;

    ghost part = { λ v. v.6 };

    #[inline(always)]
    fn part_of(whole: &(A, B, C, D, E, F, G, H, I, J)) -> &G {
        &whole.6
    }
}

impl<A, B, C, D, E, F, G, H: Archive, I, J> PartOf<(A, B, C, D, E, F, G, H, I, J)> for Part7 {
    type Source = H;

    ghost part = { λ v. v.7 };

    #[inline(always)]
    fn part_of(whole: &(A, B, C, D, E, F, G, H, I, J)) -> &H {
        &whole.7
    }
}

impl<A, B, C, D, E, F, G, H, I: Archive, J> PartOf<(A, B, C, D, E, F, G, H, I, J)> for Part8 {
    type Source = I;

    ghost part = { λ v. v.8 };

    #[inline(always)]
    fn part_of(whole: &(A, B, C, D, E, F, G, H, I, J)) -> &I {
        &whole.8
    }
}

impl<A, B, C, D, E, F, G, H, I, J: Archive> PartOf<(A, B, C, D, E, F, G, H, I, J)> for Part9 {
    type Source = J;

    ghost part = { λ v. v.9 };

    #[inline(always)]
    fn part_of(whole: &(A, B, C, D, E, F, G, H, I, J)) -> &J {
        &whole.9
    }
}
