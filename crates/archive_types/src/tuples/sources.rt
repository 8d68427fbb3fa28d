// Tuples as sources.

ghost use Rattle.std.specs.Prelude.{◌≡◌, length, OnOk, IfErr, None};
ghost use Rattle.archive_check.specs.Value.{product};
ghost use Rattle.archive_types.specs.Causes.{HindersAt};
ghost use Rattle.archive_types.specs.Members.Keyed.{nothing_keyed, part_keyed, record_keyed};
ghost use Rattle.archive_types.specs.Members.PartsPlanned.{no_part_planned, part_planned, product_planned};
ghost use Rattle.archive_types.specs.Writing.{ZeroedPlace, Resolves};
ghost use Rattle.archive_types.specs.Outcomes.{ResolvesAs};

use super::parts::{Parts1, Parts2, Parts3};
use crate::parts::SourceParts;
use crate::place::Place;
use crate::record::{resolve_record, serialize_record};
use crate::traits::{Archive, ArchivePointee, CopyOptimization, Keys, Portable, Serialize};
use archive_check::format::error::Error;
use archive_tuple::{ArchivedTuple1, ArchivedTuple2, ArchivedTuple3};
use archive_write::ser::Writer;

impl<A: Archive> Archive for (A,) {
    type Archived = ArchivedTuple1<A::Archived>;

    type Resolver = (A::Resolver, ());

    ghost meaning = { λ v. product (⟦<Parts1 as SourceParts<(A,)>>⟧.meanings v) };

    ghost flat = { λ v r. product (⟦<Parts1 as SourceParts<(A,)>>⟧.flats v r) };

    ghost keys = { λ v. ⟦<Parts1 as SourceParts<(A,)>>⟧.keys v };

    ghost belongs = { λ v r. ⟦<Parts1 as SourceParts<(A,)>>⟧.belongs v r };

    ghost in_bulk = { None };

    ghost keyed = { λ v. record_keyed (part_keyed (A.keyed v.0) nothing_keyed) };

    ghost planned = { λ v. product_planned _ _ _ _ (part_planned _ _ _ _ (A.planned v.0)
        no_part_planned) };

    #[inline(always)]
    fn resolve(
        &self,
        resolver: (A::Resolver, ()),
        place: Place<'_, ArchivedTuple1<A::Archived>>,
    ) -> Result<(), Error>
        requires zeroed { ZeroedPlace ⟦<Self::Archived as Portable>⟧.layout.size place.pos
            place.bytes.now }
        requires same_value { ⟦<Self as Archive>⟧.belongs self.now resolver }
        ensures { ResolvesAs ⟦<Self::Archived as Portable>⟧ place
            (⟦<Self as Archive>⟧.flat self.now resolver) result }
    {
        let Place { bytes, pos, .. } = place;
        resolve_record::<Self, Parts1, Self::Archived>(self, resolver, Place::new(pos, bytes))
    }

    #[inline(always)]
    fn copy_optimization() -> CopyOptimization<Self> {
        CopyOptimization::disable()
    }

    #[inline(always)]
    fn serialize_copied<S: Writer + Keys>(
        _values: &[Self],
        _together: usize,
        _serializer: &mut S,
    ) -> Result<Option<usize>, Error> {
        Ok(None)
    }
}

impl<A: Serialize<S>, S: Writer + Keys> Serialize<S> for (A,) {
    #[inline(always)]
    fn serialize(&self, serializer: &mut S) -> Result<(A::Resolver, ()), Error> {
        serialize_record::<Self, Parts1, Self::Archived, S>(self, serializer)
    }
}

impl<A: Archive, B: Archive> Archive for (A, B) {
    type Archived = ArchivedTuple2<A::Archived, B::Archived>;

    type Resolver = (A::Resolver, (B::Resolver, ()));

    ghost meaning = { λ v. product (⟦<Parts2 as SourceParts<(A, B)>>⟧.meanings v) };

    ghost flat = { λ v r. product (⟦<Parts2 as SourceParts<(A, B)>>⟧.flats v r) };

    ghost keys = { λ v. ⟦<Parts2 as SourceParts<(A, B)>>⟧.keys v };

    ghost belongs = { λ v r. ⟦<Parts2 as SourceParts<(A, B)>>⟧.belongs v r };

    ghost in_bulk = { None };

    ghost keyed = { λ v. record_keyed (part_keyed (A.keyed v.0)
        (part_keyed (B.keyed v.1) nothing_keyed)) };

    ghost planned = { λ v. product_planned _ _ _ _ (part_planned _ _ _ _ (A.planned v.0)
        (part_planned _ _ _ _ (B.planned v.1) no_part_planned)) };

    #[inline(always)]
    fn resolve(
        &self,
        resolver: (A::Resolver, (B::Resolver, ())),
        place: Place<'_, ArchivedTuple2<A::Archived, B::Archived>>,
    ) -> Result<(), Error>
        requires zeroed { ZeroedPlace ⟦<Self::Archived as Portable>⟧.layout.size place.pos
            place.bytes.now }
        requires same_value { ⟦<Self as Archive>⟧.belongs self.now resolver }
        ensures { ResolvesAs ⟦<Self::Archived as Portable>⟧ place
            (⟦<Self as Archive>⟧.flat self.now resolver) result }
    {
        let Place { bytes, pos, .. } = place;
        resolve_record::<Self, Parts2, Self::Archived>(self, resolver, Place::new(pos, bytes))
    }

    #[inline(always)]
    fn copy_optimization() -> CopyOptimization<Self> {
        CopyOptimization::disable()
    }

    #[inline(always)]
    fn serialize_copied<S: Writer + Keys>(
        _values: &[Self],
        _together: usize,
        _serializer: &mut S,
    ) -> Result<Option<usize>, Error> {
        Ok(None)
    }
}

impl<A: Serialize<S>, B: Serialize<S>, S: Writer + Keys> Serialize<S> for (A, B) {
    #[inline(always)]
    fn serialize(&self, serializer: &mut S) -> Result<(A::Resolver, (B::Resolver, ())), Error> {
        serialize_record::<Self, Parts2, Self::Archived, S>(self, serializer)
    }
}

impl<A: Archive, B: Archive, C: Archive> Archive for (A, B, C) {
    type Archived = ArchivedTuple3<A::Archived, B::Archived, C::Archived>;

    type Resolver = (A::Resolver, (B::Resolver, (C::Resolver, ())));

    ghost meaning = { λ v. product (⟦<Parts3 as SourceParts<(A, B, C)>>⟧.meanings v) };

    ghost flat = { λ v r. product (⟦<Parts3 as SourceParts<(A, B, C)>>⟧.flats v r) };

    ghost keys = { λ v. ⟦<Parts3 as SourceParts<(A, B, C)>>⟧.keys v };

    ghost belongs = { λ v r. ⟦<Parts3 as SourceParts<(A, B, C)>>⟧.belongs v r };

    ghost in_bulk = { None };

    ghost keyed = { λ v. record_keyed (part_keyed (A.keyed v.0)
        (part_keyed (B.keyed v.1) (part_keyed (C.keyed v.2) nothing_keyed))) };

    ghost planned = { λ v. product_planned _ _ _ _ (part_planned _ _ _ _ (A.planned v.0)
        (part_planned _ _ _ _ (B.planned v.1) (part_planned _ _ _ _ (C.planned v.2)
        no_part_planned))) };

    #[inline(always)]
    fn resolve(
        &self,
        resolver: (A::Resolver, (B::Resolver, (C::Resolver, ()))),
        place: Place<'_, ArchivedTuple3<A::Archived, B::Archived, C::Archived>>,
    ) -> Result<(), Error>
        requires zeroed { ZeroedPlace ⟦<Self::Archived as Portable>⟧.layout.size place.pos
            place.bytes.now }
        requires same_value { ⟦<Self as Archive>⟧.belongs self.now resolver }
        ensures { ResolvesAs ⟦<Self::Archived as Portable>⟧ place
            (⟦<Self as Archive>⟧.flat self.now resolver) result }
    {
        let Place { bytes, pos, .. } = place;
        resolve_record::<Self, Parts3, Self::Archived>(self, resolver, Place::new(pos, bytes))
    }

    #[inline(always)]
    fn copy_optimization() -> CopyOptimization<Self> {
        CopyOptimization::disable()
    }

    #[inline(always)]
    fn serialize_copied<S: Writer + Keys>(
        _values: &[Self],
        _together: usize,
        _serializer: &mut S,
    ) -> Result<Option<usize>, Error> {
        Ok(None)
    }
}

impl<A: Serialize<S>, B: Serialize<S>, C: Serialize<S>, S: Writer + Keys> Serialize<S>
    for (A, B, C) {
    #[inline(always)]
    fn serialize(
        &self,
        serializer: &mut S,
    ) -> Result<(A::Resolver, (B::Resolver, (C::Resolver, ()))), Error> {
        serialize_record::<Self, Parts3, Self::Archived, S>(self, serializer)
    }
}
