//! Results: how they are archived, viewed and read back.

ghost use Rattle.std.specs.Prelude.{◌≡◌, ◌+◌, ◌<◌, length, slice_index, OnOk, MatchResult, IfSome, MatchOption, refl, None};
ghost use Rattle.archive_check.specs.Shape.{one};
ghost use Rattle.archive_check.specs.Definitions.{both};
ghost use Rattle.archive_check.specs.Viewed.{Viewed};
ghost use Rattle.archive_check.specs.Entries.{ReadsBack, RefusesReading};
ghost use Rattle.archive_enum.specs.ResultShapes.{result_shape, result_layout};
ghost use Rattle.archive_types.specs.Causes.{HindersAt};
ghost use Rattle.archive_types.specs.Members.PlannedOwners.{one_planned};
ghost use Rattle.archive_types.specs.Members.Results.{result_meaning, result_keys, result_flat, ResultBelongs, result_keyed, result_planned};
ghost use Rattle.archive_types.specs.Words.Seen.{tag_of, StandsBeside, IsPartOf};
ghost use Rattle.archive_types.specs.Words.ReadBack.{ReadsAs};
ghost use Rattle.archive_types.specs.Writing.{ZeroedPlace, Resolves};
ghost use Rattle.archive_types.specs.Outcomes.{ResolvesAs};

use crate::place::Place;
use crate::ser::serialize_one;
use crate::traits::{
    Archive, ArchivePointee, ArchiveUnsized, CopyOptimization, Deserialize, Entries, Keys,
    Portable, Serialize, SerializeUnsized,
};
use crate::variants::resolve_case;
use crate::view::{RawView, Ref};
use archive_check::format::error::Error;
pub use archive_enum::result::{ArchivedResult, Iter};
use archive_write::ser::{ResolverAlloc, Writer};
use std::alloc::Global;

/// An `Ok` is archived as its value behind a 0, an `Err` as its error behind a 1; the bytes behind the shorter one are zeros. As in rkyv 0.8.18.
impl<T: Archive, E: Archive> Archive for Result<T, E> {
    type Archived = ArchivedResult<T::Archived, E::Archived>;

    type Resolver = Result<T::Resolver, E::Resolver>;

    ghost meaning = { result_meaning T.meaning E.meaning };

    ghost flat = { result_flat T.flat E.flat };

    ghost keys = { result_keys T.keys E.keys };

    ghost belongs = { ResultBelongs T.belongs E.belongs };

    ghost in_bulk = { None };

    ghost keyed = { result_keyed T.keys E.keys T.meaning E.meaning T.keyed E.keyed };

    ghost planned = { result_planned T.keys E.keys T.meaning E.meaning T.Archived.definitions
        E.Archived.definitions T.Archived.shape E.Archived.shape T.planned E.planned };

    #[inline(always)]
    fn resolve(
        &self,
        resolver: Result<T::Resolver, E::Resolver>,
        place: Place<'_, ArchivedResult<T::Archived, E::Archived>>,
    ) -> Result<(), Error>
        requires zeroed { ZeroedPlace (result_layout T.Archived.layout E.Archived.layout).size
            place.pos place.bytes.now }
        requires same_value { ResultBelongs T.belongs E.belongs self.now resolver }
        ensures { ResolvesAs ⟦<Self::Archived as Portable>⟧ place
            (⟦<Self as Archive>⟧.flat self.now resolver) result }
    {
        let Place { bytes, pos, .. } = place;
        match self {
            Ok(value) => {
                let Ok(resolver) = resolver else {
                    unreachable!();
                };
                resolve_case(0, value, resolver, pos, bytes)
            }
            Err(error) => {
                let Err(resolver) = resolver else {
                    unreachable!();
                };
                resolve_case(1, error, resolver, pos, bytes)
            }
        }
    }

    #[inline(always)]
    fn copy_optimization() -> CopyOptimization<Self> {
        CopyOptimization::disable()
    }

    #[inline(always)]
    fn serialize_copied<S: Writer + Keys>(
        _values: &[Self],
        _together: usize,
        _serializer: &mut S,
    ) -> Result<Option<usize>, Error> {
        Ok(None)
    }
}

impl<T: Serialize<S>, E: Serialize<S>, S: Writer + Keys> Serialize<S> for Result<T, E> {
    #[inline(always)]
    fn serialize(&self, serializer: &mut S) -> Result<Result<T::Resolver, E::Resolver>, Error> {
        match self {
            Ok(value) => Ok(Ok(value.serialize(serializer)?)),
            Err(error) => Ok(Err(error.serialize(serializer)?)),
        }
    }
}

/// As a source in a region of its own it is one value.
impl<T: Archive, E: Archive> ArchiveUnsized for Result<T, E> {
    type Archived = ArchivedResult<T::Archived, E::Archived>;

    ghost source_length = { λ _. 0 };

    ghost meaning = { result_meaning T.meaning E.meaning };

    ghost keys = { result_keys T.keys E.keys };

    ghost keyed = { result_keyed T.keys E.keys T.meaning E.meaning T.keyed E.keyed };

    ghost one_length = { λ _ _. refl };

    ghost planned = { λ r. one_planned (both T.Archived.definitions E.Archived.definitions)
        (result_shape T.Archived.shape E.Archived.shape) (result_keys T.keys E.keys r)
        (result_meaning T.meaning E.meaning r) (result_planned T.keys E.keys T.meaning E.meaning
        T.Archived.definitions E.Archived.definitions T.Archived.shape E.Archived.shape T.planned
        E.planned r) };

    #[inline(always)]
    fn archived_metadata(&self) -> Result<(), Error> {
        Ok(())
    }
}

impl<T: Serialize<S>, E: Serialize<S>, S: Writer + ResolverAlloc> SerializeUnsized<S>
    for Result<T, E> {
    #[inline(always)]
    fn serialize_unsized(&self, serializer: &mut S) -> Result<usize, Error> {
        serialize_one(self, serializer)
    }
}

impl<'a, T: Portable, E: Portable> Ref<'a, ArchivedResult<T, E>> {
    /// The view of the value or of the error; as `Result::as_ref`. What is behind it isn't looked
    /// at.
    pub fn as_ref(self) -> Result<Ref<'a, T>, Ref<'a, E>>
        ensures tag { MatchResult result (λ v. tag_of self.entry ≡ 0) (λ e. tag_of self.entry ≡ 1) }
        ensures buffer { MatchResult result (λ v. v.bytes.now ≡ self.entry.bytes.now)
            (λ e. e.bytes.now ≡ self.entry.bytes.now) }
        ensures position { MatchResult result (λ v. v.pos ≡ self.entry.pos + T.layout.align)
            (λ e. e.pos ≡ self.entry.pos + E.layout.align) }
        ensures length { MatchResult result (λ v. v.len ≡ 0) (λ e. e.len ≡ 0) }
        ensures beside { MatchResult result (λ v. StandsBeside v self.entry)
            (λ e. StandsBeside e self.entry) }
    {
        let RawView { bytes, pos, .. } = self.part();
        if bytes[pos] == 0 {
            let part = RawView {
                bytes,
                pos: pos + T::align(),
                len: 0,
            };
            return Ok(Ref::at(part));
        }
        let part = RawView {
            bytes,
            pos: pos + E::align(),
            len: 0,
        };
        Err(Ref::at(part))
    }

    /// An iterator over the view of the value, if it is an `Ok`: it comes once, from either end, and then none; as `Result::iter`.
    pub fn iter(self) -> Iter<Ref<'a, T>>
        ensures tag { MatchOption result (tag_of self.entry ≡ 1) (λ v. tag_of self.entry ≡ 0) }
        ensures buffer { IfSome result (λ v. v.bytes.now ≡ self.entry.bytes.now) }
        ensures position { IfSome result (λ v. v.pos ≡ self.entry.pos + T.layout.align) }
        ensures length { IfSome result (λ v. v.len ≡ 0) }
    {
        match self.as_ref() {
            Ok(value) => Iter::new(Some(value)),
            Err(_) => Iter::new(None),
        }
    }
}

impl<
    T: Archive,
    E: Archive,
    A: Portable + Deserialize<T, D>,
    B: Portable + Deserialize<E, D>,
    D: Entries,
> Deserialize<Result<T, E>, D> for ArchivedResult<A, B> {
    fn deserialize_part(
        alloc: Global,
        part: RawView<'_>,
        deserializer: &mut D,
    ) -> Result<Result<T, E>, Error>
        requires { IsPartOf ⟦<Self as ArchivePointee>⟧ part }
        ensures { ReadsAs ⟦<Self as ArchivePointee>⟧ part D.Entries deserializer
            ⟦<Result<T, E> as Archive>⟧ result }
    {
        let view: Ref<'_, ArchivedResult<A, B>> = Ref::at(part);
        match view.as_ref() {
            Ok(value) => Ok(Ok(A::deserialize(alloc, value, deserializer)?)),
            Err(error) => Ok(Err(B::deserialize(alloc, error, deserializer)?)),
        }
    }
}
