// Boxes of slices and of texts, as sources.

ghost use Rattle.std.specs.Prelude.{◌≡◌, ◌<◌, ◌≤◌, IfOk, OnOk, IfErr, IsErrOf, [], length, true, refl, string_bytes, None};
ghost use Rattle.archive_check.specs.Definitions.{no_definition};
ghost use Rattle.archive_check.specs.Shape.{boxed, one, run, text as text_pointee};
ghost use Rattle.archive_check.specs.Value.{box, hole, list, text_value};
ghost use Rattle.archive_check.specs.Entries.{ReadsBack, RefusesReading};
ghost use Rattle.archive_check.specs.Viewed.{Viewed};
ghost use Rattle.archive_check.specs.declared.format.error.Error.TheVariants.{LengthTooLarge, OutOfMemory};
ghost use Rattle.archive_types.specs.Causes.{HindersAt, IsRefused};
ghost use Rattle.archive_types.specs.Members.Keyed.{box_keyed, each_keyed, text_keyed};
ghost use Rattle.archive_num.specs.Offsets.{distance, IsTooFar};
ghost use Rattle.archive_num.specs.OwnerBytes.{owner_bytes};
ghost use Rattle.archive_types.specs.Words.BulkCopies.{OwnerWritesInBulk};
ghost use Rattle.archive_types.specs.Words.WrittenPointers.{PointsTo, AtOnce};
ghost use Rattle.archive_types.specs.Members.Planned.{text_planned};
ghost use Rattle.archive_types.specs.Members.PlannedOwners.{box_planned, one_planned, slice_planned};
ghost use Rattle.archive_types.specs.Plans.{Serialized};
ghost use Rattle.archive_types.specs.Runs.{each_keys, each_meaning};
ghost use Rattle.archive_types.specs.Words.Seen.{IsPartOf};
ghost use Rattle.archive_types.specs.Words.ReadBack.{Read, ReadsAs};
ghost use Rattle.archive_types.specs.Writing.{ZeroedPlace, Resolves, to_pointee};
ghost use Rattle.archive_write.specs.Written.{GoesOn};
ghost use Rattle.archive_types.specs.Outcomes.{ResolvesAs};
ghost use Rattle.archive_types.specs.SourceOutcomes.{Serializes};

use super::{ArchivedBox, BoxResolver};
use crate::owner_pointers::position_of;
use crate::place::Place;
use crate::ser::serialize_one;
use crate::slice::{ArchivedSlice, read_elements, serialize_slice};
use crate::string::{ArchivedStr, Text};
use crate::traits::{
    Archive, ArchivePointee, ArchiveUnsized, CopyOptimization, Deserialize, DeserializeUnsized,
    Entries, Keys, Portable, Serialize, SerializeUnsized,
};
use crate::view::{RawView, Ref};
use archive_check::format::error::Error;
use archive_num::FixedUsize;
use archive_write::ser::{ResolverAlloc, Writer};
use std::alloc::Global;

/// Elements that are archived as a boxed slice. In its place rkyv 0.8.18 has a `Box<[T]>`.
#[derive(Drop)]
pub struct BoxSlice<T> {
    /// The elements.
    pub items: Vec<T>,
}

/// A text that is archived as a boxed one. In its place rkyv 0.8.18 has a `Box<str>`.
#[derive(Drop)]
pub struct BoxStr {
    /// The text.
    pub text: String,
}

impl<T: Archive> Archive for BoxSlice<T> {
    type Archived = ArchivedBox<ArchivedSlice<T::Archived>>;

    type Resolver = BoxResolver;

    ghost meaning = { λ b. box (list (each_meaning T.meaning b.items.items)) };

    ghost flat = { λ b r. box (hole (to_pointee r (run T.Archived.shape) (length b.items.items))) };

    ghost keys = { λ b. each_keys T.keys b.items.items };

    ghost belongs = { λ b _. length b.items.items ≤ 4294967295 };

    ghost in_bulk = { None };

    ghost keyed = { λ b. box_keyed (each_keys T.keys b.items.items)
        (list (each_meaning T.meaning b.items.items)) (each_keyed T.keys T.meaning T.keyed
        b.items.items) };

    ghost planned = { λ b. box_planned T.Archived.definitions (run T.Archived.shape)
        (length b.items.items) (each_keys T.keys b.items.items)
        (list (each_meaning T.meaning b.items.items)) (slice_planned T.Archived.definitions
        T.Archived.shape T.keys T.meaning T.planned b.items.items) };

    #[inline(always)]
    fn resolve(
        &self,
        resolver: BoxResolver,
        place: Place<'_, ArchivedBox<ArchivedSlice<T::Archived>>>,
    ) -> Result<(), Error>
        requires zeroed { ZeroedPlace 8 place.pos place.bytes.now }
        requires same_value { length self.now.items.items ≤ 4294967295 }
        ensures outcome { ResolvesAs ⟦<Self::Archived as Portable>⟧ place
            (⟦<Self as Archive>⟧.flat self.now resolver) result }
        ensures written { OnOk result (PointsTo place true resolver (length self.now.items.items)) }
        ensures cause { IfErr result (λ e. IsTooFar e (distance place.entry.pos resolver)) }
    {
        let Place { bytes, pos, .. } = place;
        ArchivedBox::<ArchivedSlice<T::Archived>>::resolve_from_raw_parts(
            resolver,
            self.items.len() as FixedUsize,
            Place::new(pos, bytes),
        )
    }

    #[inline(always)]
    fn copy_optimization() -> CopyOptimization<Self> {
        CopyOptimization::disable()
    }

    #[inline(always)]
    fn serialize_copied<S: Writer + Keys>(
        _values: &[Self],
        _together: usize,
        _serializer: &mut S,
    ) -> Result<Option<usize>, Error> {
        Ok(None)
    }
}

impl<S: Writer + ResolverAlloc, T: Serialize<S>> Serialize<S> for BoxSlice<T> {
    /// Writes what each element owns, in order, and then all elements as one region. Fails with
    /// `LengthTooLarge` before anything is written, exactly if there are more than 4,294,967,295
    /// elements, with `PositionTooLarge` if they lie above 4,294,967,295, and else as
    /// `serialize_unsized` of a `Slice` does.
    #[tactic(auto, using(crate::proofs::Planning::Owners::serialized_box, crate::proofs::Planning::Owners::box_refused, crate::proofs::Planning::Owners::far_box_refused))]
    #[inline(always)]
    fn serialize(&self, serializer: &mut S) -> Result<BoxResolver, Error>
        ensures outcome { Serializes ⟦<Self as Archive>⟧ ⟦<Self::Archived as Portable>⟧ self.now
            S.Keys serializer result }
        ensures too_long { 4294967295 < length self.now.items.items
            → AtOnce result LengthTooLarge S.Keys serializer }
        ensures in_bulk { OwnerWritesInBulk T.in_bulk T.Archived.layout self.now.items.items
            (S.position serializer.old) (S.state serializer.old) (S.state serializer.new)
            S.takes_memory result }
    {
        let pos = serialize_slice(self.items.as_slice(), serializer)?;
        let pos = position_of(pos)?;
        Ok(BoxResolver::from_pos(pos as usize))
    }
}

/// As a region of its own: the box itself, not its elements.
impl<T: Archive> ArchiveUnsized for BoxSlice<T> {
    type Archived = ArchivedBox<ArchivedSlice<T::Archived>>;

    ghost source_length = { λ _. 0 };

    ghost meaning = { λ b. box (list (each_meaning T.meaning b.items.items)) };

    ghost keys = { λ b. each_keys T.keys b.items.items };

    ghost keyed = { λ b. box_keyed (each_keys T.keys b.items.items)
        (list (each_meaning T.meaning b.items.items)) (each_keyed T.keys T.meaning T.keyed
        b.items.items) };

    ghost one_length = { λ _ _. refl };

    ghost planned = { λ b. one_planned T.Archived.definitions (boxed (run T.Archived.shape))
        (each_keys T.keys b.items.items) (box (list (each_meaning T.meaning b.items.items)))
        (box_planned T.Archived.definitions (run T.Archived.shape) (length b.items.items)
        (each_keys T.keys b.items.items) (list (each_meaning T.meaning b.items.items))
        (slice_planned T.Archived.definitions T.Archived.shape T.keys T.meaning T.planned
        b.items.items)) };

    #[inline(always)]
    fn archived_metadata(&self) -> Result<(), Error> {
        Ok(())
    }
}

impl<S: Writer + ResolverAlloc, T: Serialize<S>> SerializeUnsized<S> for BoxSlice<T> {
    #[inline(always)]
    fn serialize_unsized(&self, serializer: &mut S) -> Result<usize, Error> {
        serialize_one(self, serializer)
    }
}

impl<T: Portable + Deserialize<U, D>, U: Archive + Drop, D: Entries> Deserialize<BoxSlice<U>, D>
    for ArchivedBox<ArchivedSlice<T>> {
    fn deserialize_part(
        alloc: Global,
        part: RawView<'_>,
        deserializer: &mut D,
    ) -> Result<BoxSlice<U>, Error>
        requires { IsPartOf ⟦<Self as ArchivePointee>⟧ part }
        ensures { ReadsAs ⟦<Self as ArchivePointee>⟧ part D.Entries deserializer
            ⟦<BoxSlice<U> as Archive>⟧ result }
    {
        let view: Ref<'_, ArchivedBox<ArchivedSlice<T>>> = Ref::at(part);
        let items = read_elements::<T, U, D>(alloc, view.get().part(), deserializer)?;
        Ok(BoxSlice { items })
    }
}

impl Archive for BoxStr {
    type Archived = ArchivedBox<ArchivedStr>;

    type Resolver = BoxResolver;

    ghost meaning = { λ b. box (text_value (string_bytes b.text)) };

    ghost flat = { λ b r. box (hole (to_pointee r text_pointee (length (string_bytes b.text)))) };

    ghost keys = { λ _. [] };

    ghost belongs = { λ b _. length (string_bytes b.text) ≤ 4294967295 };

    ghost in_bulk = { None };

    ghost keyed = { λ b. box_keyed [] (text_value (string_bytes b.text))
        (text_keyed (string_bytes b.text)) };

    ghost planned = { λ b. box_planned no_definition text_pointee (length (string_bytes b.text)) []
        (text_value (string_bytes b.text)) (text_planned no_definition [] (string_bytes b.text)) };

    #[inline(always)]
    fn resolve(
        &self,
        resolver: BoxResolver,
        place: Place<'_, ArchivedBox<ArchivedStr>>,
    ) -> Result<(), Error>
        requires zeroed { ZeroedPlace 8 place.pos place.bytes.now }
        requires same_value { length (string_bytes self.now.text) ≤ 4294967295 }
        ensures outcome { ResolvesAs ⟦<Self::Archived as Portable>⟧ place
            (⟦<Self as Archive>⟧.flat self.now resolver) result }
        ensures written { OnOk result (PointsTo place true resolver
            (length (string_bytes self.now.text))) }
        ensures cause { IfErr result (λ e. IsTooFar e (distance place.entry.pos resolver)) }
    {
        let Place { bytes, pos, .. } = place;
        ArchivedBox::<ArchivedStr>::resolve_from_raw_parts(
            resolver,
            self.text.len() as FixedUsize,
            Place::new(pos, bytes),
        )
    }

    #[inline(always)]
    fn copy_optimization() -> CopyOptimization<Self> {
        CopyOptimization::disable()
    }

    #[inline(always)]
    fn serialize_copied<S: Writer + Keys>(
        _values: &[Self],
        _together: usize,
        _serializer: &mut S,
    ) -> Result<Option<usize>, Error> {
        Ok(None)
    }
}

impl<S: Writer + ResolverAlloc> Serialize<S> for BoxStr {
    /// Writes the text as a region of its own. Fails with `LengthTooLarge` before anything is
    /// written, exactly if it is longer than 4,294,967,295 bytes, with `PositionTooLarge` if it
    /// lies above 4,294,967,295, and else as the writer does.
    #[tactic(auto, using(crate::proofs::Planning::Owners::serialized_box, crate::proofs::Planning::Owners::box_refused, crate::proofs::Planning::Owners::far_box_refused))]
    #[inline(always)]
    fn serialize(&self, serializer: &mut S) -> Result<BoxResolver, Error>
        ensures outcome { Serializes ⟦<Self as Archive>⟧ ⟦<Self::Archived as Portable>⟧ self.now
            S.Keys serializer result }
        ensures too_long { 4294967295 < length (string_bytes self.now.text)
            → AtOnce result LengthTooLarge S.Keys serializer }
    {
        let pos = Text {
            text: self.text.as_str(),
        }
        .serialize_unsized(serializer)?;
        let pos = position_of(pos)?;
        Ok(BoxResolver::from_pos(pos as usize))
    }
}

/// As a region of its own: the box itself, not its text.
impl ArchiveUnsized for BoxStr {
    type Archived = ArchivedBox<ArchivedStr>;

    ghost source_length = { λ _. 0 };

    ghost meaning = { λ b. box (text_value (string_bytes b.text)) };

    ghost keys = { λ _. [] };

    ghost keyed = { λ b. box_keyed [] (text_value (string_bytes b.text))
        (text_keyed (string_bytes b.text)) };

    ghost one_length = { λ _ _. refl };

    ghost planned = { λ b. one_planned no_definition (boxed text_pointee) []
        (box (text_value (string_bytes b.text))) (box_planned no_definition text_pointee
        (length (string_bytes b.text)) [] (text_value (string_bytes b.text))
        (text_planned no_definition [] (string_bytes b.text))) };

    #[inline(always)]
    fn archived_metadata(&self) -> Result<(), Error> {
        Ok(())
    }
}

impl<S: Writer + ResolverAlloc> SerializeUnsized<S> for BoxStr {
    #[inline(always)]
    fn serialize_unsized(&self, serializer: &mut S) -> Result<usize, Error> {
        serialize_one(self, serializer)
    }
}

impl<D: Entries> Deserialize<BoxStr, D> for ArchivedBox<ArchivedStr> {
    fn deserialize_part(
        alloc: Global,
        part: RawView<'_>,
        deserializer: &mut D,
    ) -> Result<BoxStr, Error>
        requires { IsPartOf ⟦<Self as ArchivePointee>⟧ part }
        ensures read { IfOk result (Read ⟦<Self as ArchivePointee>⟧ part D.Entries deserializer
            ⟦<BoxStr as Archive>⟧) }
        ensures refused { IfErr result (λ e. e ≡ OutOfMemory) }
    {
        let view: Ref<'_, ArchivedBox<ArchivedStr>> = Ref::at(part);
        let text = ArchivedStr::deserialize_unsized_part(alloc, view.get().part(), deserializer)?;
        Ok(BoxStr { text })
    }
}
