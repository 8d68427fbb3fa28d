// `BTreeMap` as a source of sorted maps: its entries, in the order of the keys.

ghost use Rattle.std.specs.Prelude.{◌≡◌, ◌<◌, ◌≤◌, IfErr, IfOk, OnOk, length, map, true, refl, None};
ghost use Rattle.std.specs.BTreeMap.{btree_map_len};
ghost use Rattle.archive_check.specs.SelfCheck.Maps.{entry_definitions};
ghost use Rattle.archive_check.specs.Shape.{sorted_map};
ghost use Rattle.archive_check.specs.Value.{list, product};
ghost use Rattle.archive_check.specs.declared.format.error.Error.TheVariants.{LengthTooLarge};
ghost use Rattle.archive_num.specs.Offsets.{distance, IsTooFar};
ghost use Rattle.archive_types.specs.MapPairs.{pair_keys, pair_meaning};
ghost use Rattle.archive_types.specs.Members.Keyed.{nothing_keyed, part_keyed, record_keyed};
ghost use Rattle.archive_types.specs.Members.PartsPlanned.{no_part_planned, part_planned, product_planned};
ghost use Rattle.archive_types.specs.Members.PlannedMaps.{map_of_pairs_planned, pairs_keyed};
ghost use Rattle.archive_types.specs.Members.PlannedOwners.{one_planned};
ghost use Rattle.archive_types.specs.Outcomes.{ResolvesAs};
ghost use Rattle.archive_types.specs.Runs.{each_keys, each_meaning};
ghost use Rattle.archive_types.specs.SourceOutcomes.{Serializes};
ghost use Rattle.archive_types.specs.Words.WrittenPointers.{AtOnce, PointsTo};
ghost use Rattle.archive_types.specs.Writing.{map_flat, ZeroedPlace};

use super::sources::serialize_ordered;
use super::{ArchivedSortedMap, SortedKey, SortedMapResolver};
use crate::parts::{PartOf, SourceParts};
use crate::place::Place;
use crate::record::{resolve_record, serialize_record};
use crate::ser::serialize_one;
use crate::traits::{
    Archive, ArchiveUnsized, CopyOptimization, Keys, MapKey, Portable, Serialize, SerializeUnsized,
};
use crate::tuples::{Part0, Part1};
use archive_check::format::error::Error;
use archive_tuple::ArchivedTuple2;
use archive_write::ser::{ResolverAlloc, Writer};
use std::alloc::{AllocError, Allocator};
use std::collections::BTreeMap;

// An entry of a map: its key and its value, where they are.
#[derive(Drop)]
struct Entry<'a, A, B> {
    key: &'a A,
    value: &'a B,
}

impl<'a, A: Archive, B> PartOf<Entry<'a, A, B>> for Part0 {
    type Source = A;

    ghost part = { λ e. e.key.now };

    #[inline(always)]
    fn part_of<'b>(whole: &'b Entry<'a, A, B>) -> &'b A {
        whole.key
    }
}

impl<'a, A, B: Archive> PartOf<Entry<'a, A, B>> for Part1 {
    type Source = B;

    ghost part = { λ e. e.value.now };

    #[inline(always)]
    fn part_of<'b>(whole: &'b Entry<'a, A, B>) -> &'b B {
        whole.value
    }
}

// The parts of an entry.
type EntryParts = (Part0, (Part1, ()));

impl<'a, A: Archive, B: Archive> Archive for Entry<'a, A, B> {
    type Archived = ArchivedTuple2<A::Archived, B::Archived>;

    type Resolver = (A::Resolver, (B::Resolver, ()));

    ghost meaning = { λ e. product (⟦<EntryParts as SourceParts<Entry<'a, A, B>>>⟧.meanings e) };

    ghost flat = { λ e r. product (⟦<EntryParts as SourceParts<Entry<'a, A, B>>>⟧.flats e r) };

    ghost keys = { λ e. ⟦<EntryParts as SourceParts<Entry<'a, A, B>>>⟧.keys e };

    ghost belongs = { λ e r. ⟦<EntryParts as SourceParts<Entry<'a, A, B>>>⟧.belongs e r };

    ghost in_bulk = { None };

    ghost keyed = { λ e. record_keyed (part_keyed (A.keyed e.key.now)
        (part_keyed (B.keyed e.value.now) nothing_keyed)) };

    ghost planned = { λ e. product_planned _ _ _ _ (part_planned _ _ _ _ (A.planned e.key.now)
        (part_planned _ _ _ _ (B.planned e.value.now) no_part_planned)) };

    #[inline(always)]
    fn resolve(
        &self,
        resolver: (A::Resolver, (B::Resolver, ())),
        place: Place<'_, ArchivedTuple2<A::Archived, B::Archived>>,
    ) -> Result<(), Error>
        requires zeroed { ZeroedPlace ⟦<Self::Archived as Portable>⟧.layout.size place.pos
            place.bytes.now }
        requires same_value { ⟦<Self as Archive>⟧.belongs self.now resolver }
        ensures { ResolvesAs ⟦<Self::Archived as Portable>⟧ place
            (⟦<Self as Archive>⟧.flat self.now resolver) result }
    {
        let Place { bytes, pos, .. } = place;
        resolve_record::<Self, EntryParts, Self::Archived>(self, resolver, Place::new(pos, bytes))
    }

    #[inline(always)]
    fn copy_optimization() -> CopyOptimization<Self> {
        CopyOptimization::disable()
    }

    #[inline(always)]
    fn serialize_copied<S: Writer + Keys>(
        _values: &[Self],
        _together: usize,
        _serializer: &mut S,
    ) -> Result<Option<usize>, Error> {
        Ok(None)
    }
}

impl<'a, A: Serialize<S>, B: Serialize<S>, S: Writer + Keys> Serialize<S> for Entry<'a, A, B> {
    #[inline(always)]
    fn serialize(&self, serializer: &mut S) -> Result<(A::Resolver, (B::Resolver, ())), Error> {
        serialize_record::<Self, EntryParts, Self::Archived, S>(self, serializer)
    }
}

// The entries of a map, in order, in memory from `alloc`.
fn entries_of<'a, M: Allocator + Drop, A: Ord, B>(
    alloc: M,
    source: &'a BTreeMap<A, B>,
) -> Result<Vec<Entry<'a, A, B>, M>, AllocError>
    ensures { IfOk result (λ es. map (λ e. (e.key.now, e.value.now)) es.items
        ≡ source.now.entries) }
{
    let mut entries = Vec::with_capacity(alloc, source.len())?;
    for (key, value) in source {
        entries.push_reserved(Entry { key, value });
    }
    Ok(entries)
}

impl<K: SortedKey, V: Archive> Archive for BTreeMap<K, V>
where
    K::Archived: MapKey,
{
    type Archived = ArchivedSortedMap<K::Archived, V::Archived>;

    type Resolver = SortedMapResolver;

    ghost meaning = { λ m. list (each_meaning (pair_meaning K.meaning V.meaning) m.entries) };

    ghost flat = { λ m r. map_flat K.Archived.key V.Archived.shape (btree_map_len m) r };

    ghost keys = { λ m. each_keys (pair_keys K.keys V.keys) m.entries };

    ghost belongs = { λ m _. btree_map_len m ≤ 4294967295 };

    ghost in_bulk = { None };

    ghost keyed = { λ m. pairs_keyed K.keys V.keys K.meaning V.meaning K.keyed V.keyed m.entries };

    ghost planned = { λ m. map_of_pairs_planned K.keys V.keys K.meaning V.meaning
        K.Archived.definitions V.Archived.definitions K.Archived.shape V.Archived.shape K.planned
        V.planned K.Archived.key K.Archived.is_key m.entries };

    #[inline(always)]
    fn resolve(
        &self,
        resolver: SortedMapResolver,
        place: Place<'_, ArchivedSortedMap<K::Archived, V::Archived>>,
    ) -> Result<(), Error>
        requires zeroed { ZeroedPlace 8 place.pos place.bytes.now }
        requires same_value { btree_map_len self.now ≤ 4294967295 }
        ensures outcome { ResolvesAs ⟦<Self::Archived as Portable>⟧ place
            (⟦<Self as Archive>⟧.flat self.now resolver) result }
        ensures written { OnOk result (PointsTo place true resolver (btree_map_len self.now)) }
        ensures cause { IfErr result (λ e. IsTooFar e (distance place.entry.pos resolver)) }
    {
        let Place { bytes, pos, .. } = place;
        ArchivedSortedMap::<K::Archived, V::Archived>::resolve_from_len(
            self.len(),
            resolver,
            Place::new(pos, bytes),
        )
    }

    #[inline(always)]
    fn copy_optimization() -> CopyOptimization<Self> {
        CopyOptimization::disable()
    }

    #[inline(always)]
    fn serialize_copied<S: Writer + Keys>(
        _values: &[Self],
        _together: usize,
        _serializer: &mut S,
    ) -> Result<Option<usize>, Error> {
        Ok(None)
    }
}

impl<S: Writer + ResolverAlloc, K: SortedKey + Serialize<S>, V: Serialize<S>> Serialize<S>
    for BTreeMap<K, V>
where
    K::Archived: MapKey,
{
    /// Writes what each entry owns, in order, its key first, and then all entries as one region.
    /// Fails with `LengthTooLarge` before anything is written, exactly if there are more than
    /// 4,294,967,295 entries, with `OutOfMemory` if memory for a list of them or for their
    /// resolvers is refused, and as `ArchivedSortedMap::serialize_from_entries` does besides.
    #[tactic(auto, using(crate::proofs::Planning::Causes::goes_nowhere))]
    #[inline(always)]
    fn serialize(&self, serializer: &mut S) -> Result<SortedMapResolver, Error>
        ensures outcome { Serializes ⟦<Self as Archive>⟧ ⟦<Self::Archived as Portable>⟧ self.now
            S.Keys serializer result }
        ensures too_long { 4294967295 < btree_map_len self.now
            → AtOnce result LengthTooLarge S.Keys serializer }
    {
        if self.len() > u32::MAX as usize {
            return Err(Error::LengthTooLarge);
        }
        let entries = entries_of(serializer.resolver_alloc(), self)?;
        serialize_ordered::<K::Archived, V::Archived, Entry<'_, K, V>, S>(&entries, serializer)
    }
}

/// As a region of its own: the map itself, not its entries.
impl<K: SortedKey, V: Archive> ArchiveUnsized for BTreeMap<K, V>
where
    K::Archived: MapKey,
{
    type Archived = ArchivedSortedMap<K::Archived, V::Archived>;

    ghost source_length = { λ _. 0 };

    ghost meaning = { ⟦<Self as Archive>⟧.meaning };

    ghost keys = { ⟦<Self as Archive>⟧.keys };

    ghost keyed = { λ m. pairs_keyed K.keys V.keys K.meaning V.meaning K.keyed V.keyed m.entries };

    ghost one_length = { λ _ _. refl };

    ghost planned = { λ m. one_planned (entry_definitions K.Archived.definitions
        V.Archived.definitions) (sorted_map K.Archived.key V.Archived.shape)
        (each_keys (pair_keys K.keys V.keys) m.entries)
        (list (each_meaning (pair_meaning K.meaning V.meaning) m.entries))
        (map_of_pairs_planned K.keys V.keys K.meaning V.meaning K.Archived.definitions
        V.Archived.definitions K.Archived.shape V.Archived.shape K.planned V.planned K.Archived.key
        K.Archived.is_key m.entries) };

    #[inline(always)]
    fn archived_metadata(&self) -> Result<(), Error> {
        Ok(())
    }
}

impl<S: Writer + ResolverAlloc, K: SortedKey + Serialize<S>, V: Serialize<S>> SerializeUnsized<S>
    for BTreeMap<K, V>
where
    K::Archived: MapKey,
{
    #[inline(always)]
    fn serialize_unsized(&self, serializer: &mut S) -> Result<usize, Error> {
        serialize_one(self, serializer)
    }
}
