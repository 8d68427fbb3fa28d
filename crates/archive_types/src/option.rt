//! Options: how they are archived, viewed and read back.

ghost use Rattle.std.specs.Prelude.{◌≡◌, ◌+◌, ◌<◌, length, slice_index, OnOk, IfSome, MatchOption, refl, None};
ghost use Rattle.archive_check.specs.Shape.{one};
ghost use Rattle.archive_check.specs.Viewed.{Viewed};
ghost use Rattle.archive_check.specs.Entries.{ReadsBack, RefusesReading};
ghost use Rattle.archive_enum.specs.Choices.{option_shape, option_layout};
ghost use Rattle.archive_types.specs.Causes.{HindersAt};
ghost use Rattle.archive_types.specs.Members.Options.{option_meaning, option_keys, option_flat, OptionBelongs, option_keyed, option_planned};
ghost use Rattle.archive_types.specs.Members.PlannedOwners.{one_planned};
ghost use Rattle.archive_types.specs.Words.Seen.{tag_of, StandsBeside, IsPartOf};
ghost use Rattle.archive_types.specs.Words.ReadBack.{ReadsAs};
ghost use Rattle.archive_types.specs.Standing.{StandsWith, view};
ghost use Rattle.archive_types.specs.Writing.{ZeroedPlace, Resolves};
ghost use Rattle.archive_types.specs.Outcomes.{ResolvesAs};

use crate::place::Place;
use crate::ser::serialize_one;
use crate::traits::{
    Archive, ArchivePointee, ArchiveUnsized, CopyOptimization, Deserialize, Entries, Keys,
    Portable, Serialize, SerializeUnsized,
};
use crate::variants::resolve_case;
use crate::view::{RawView, Ref};
use archive_check::format::error::Error;
pub use archive_enum::option::{ArchivedOption, Iter};
use archive_write::ser::{ResolverAlloc, Writer};
use std::alloc::Global;

/// A `None` is zeros: its tag and all bytes behind it. A `Some` is archived as its value behind a 1. As in rkyv 0.8.18.
impl<T: Archive> Archive for Option<T> {
    type Archived = ArchivedOption<T::Archived>;

    type Resolver = Option<T::Resolver>;

    ghost meaning = { option_meaning T.meaning };

    ghost flat = { option_flat T.flat };

    ghost keys = { option_keys T.keys };

    ghost belongs = { OptionBelongs T.belongs };

    ghost in_bulk = { None };

    ghost keyed = { option_keyed T.keys T.meaning T.keyed };

    ghost planned = { option_planned T.Archived.definitions T.Archived.shape T.keys T.meaning
        T.planned };

    #[inline(always)]
    fn resolve(
        &self,
        resolver: Option<T::Resolver>,
        place: Place<'_, ArchivedOption<T::Archived>>,
    ) -> Result<(), Error>
        requires zeroed { ZeroedPlace (option_layout T.Archived.layout).size place.pos
            place.bytes.now }
        requires same_value { OptionBelongs T.belongs self.now resolver }
        ensures { ResolvesAs ⟦<Self::Archived as Portable>⟧ place
            (⟦<Self as Archive>⟧.flat self.now resolver) result }
    {
        let Place { bytes, pos, .. } = place;
        let value = match self {
            None => return Ok(()),
            Some(value) => value,
        };
        let Some(resolver) = resolver else {
            unreachable!();
        };
        resolve_case(1, value, resolver, pos, bytes)
    }

    #[inline(always)]
    fn copy_optimization() -> CopyOptimization<Self> {
        CopyOptimization::disable()
    }

    #[inline(always)]
    fn serialize_copied<S: Writer + Keys>(
        _values: &[Self],
        _together: usize,
        _serializer: &mut S,
    ) -> Result<Option<usize>, Error> {
        Ok(None)
    }
}

impl<T: Serialize<S>, S: Writer + Keys> Serialize<S> for Option<T> {
    #[inline(always)]
    fn serialize(&self, serializer: &mut S) -> Result<Option<T::Resolver>, Error> {
        match self {
            None => Ok(None),
            Some(value) => Ok(Some(value.serialize(serializer)?)),
        }
    }
}

/// As a source in a region of its own it is one value.
impl<T: Archive> ArchiveUnsized for Option<T> {
    type Archived = ArchivedOption<T::Archived>;

    ghost source_length = { λ _. 0 };

    ghost meaning = { option_meaning T.meaning };

    ghost keys = { option_keys T.keys };

    ghost keyed = { option_keyed T.keys T.meaning T.keyed };

    ghost one_length = { λ _ _. refl };

    ghost planned = { λ o. one_planned T.Archived.definitions (option_shape T.Archived.shape)
        (option_keys T.keys o) (option_meaning T.meaning o)
        (option_planned T.Archived.definitions T.Archived.shape T.keys T.meaning T.planned o) };

    #[inline(always)]
    fn archived_metadata(&self) -> Result<(), Error> {
        Ok(())
    }
}

impl<T: Serialize<S>, S: Writer + ResolverAlloc> SerializeUnsized<S> for Option<T> {
    #[inline(always)]
    fn serialize_unsized(&self, serializer: &mut S) -> Result<usize, Error> {
        serialize_one(self, serializer)
    }
}

impl<'a, T: Portable> Ref<'a, ArchivedOption<T>> {
    /// The view of the value, if there is one; as `Option::as_ref`. What is behind a `None` isn't
    /// looked at.
    pub fn as_ref(self) -> Option<Ref<'a, T>>
        ensures tag { MatchOption result (tag_of self.entry ≡ 0) (λ v. tag_of self.entry ≡ 1) }
        ensures buffer { IfSome result (λ v. v.bytes.now ≡ self.entry.bytes.now) }
        ensures position { IfSome result (λ v. v.pos ≡ self.entry.pos + T.layout.align) }
        ensures length { IfSome result (λ v. v.len ≡ 0) }
        ensures beside { IfSome result (λ v. StandsBeside v self.entry) }
    {
        let RawView { bytes, pos, .. } = self.part();
        if bytes[pos] == 0 {
            return None;
        }
        let part = RawView {
            bytes,
            pos: pos + T::align(),
            len: 0,
        };
        Some(Ref::at(part))
    }

    /// An iterator over the view of the value: it comes once, from either end, and then none; as `Option::iter`.
    pub fn iter(self) -> Iter<Ref<'a, T>>
        ensures tag { MatchOption result (tag_of self.entry ≡ 0) (λ v. tag_of self.entry ≡ 1) }
        ensures buffer { IfSome result (λ v. v.bytes.now ≡ self.entry.bytes.now) }
        ensures position { IfSome result (λ v. v.pos ≡ self.entry.pos + T.layout.align) }
        ensures length { IfSome result (λ v. v.len ≡ 0) }
    {
        Iter::new(self.as_ref())
    }
}

impl<T: Archive, A: Portable + Deserialize<T, D>, D: Entries> Deserialize<Option<T>, D>
    for ArchivedOption<A> {
    #[inline(always)]
    fn deserialize_part(
        alloc: Global,
        part: RawView<'_>,
        deserializer: &mut D,
    ) -> Result<Option<T>, Error>
        requires { IsPartOf ⟦<Self as ArchivePointee>⟧ part }
        ensures { ReadsAs ⟦<Self as ArchivePointee>⟧ part D.Entries deserializer
            ⟦<Option<T> as Archive>⟧ result }
    {
        let view: Ref<'_, ArchivedOption<A>> = Ref::at(part);
        match view.as_ref() {
            None => Ok(None),
            Some(value) => Ok(Some(A::deserialize(alloc, value, deserializer)?)),
        }
    }
}
