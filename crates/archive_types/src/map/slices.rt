// Borrowed slices of pairs as sources of sorted maps.

ghost use Rattle.std.specs.Prelude.{◌≡◌, ◌<◌, ◌≤◌, IfErr, OnOk, length, true, false, refl, None};
ghost use Rattle.archive_check.specs.SelfCheck.Maps.{entry_definitions};
ghost use Rattle.archive_check.specs.Shape.{sorted_map};
ghost use Rattle.archive_check.specs.Value.{list};
ghost use Rattle.archive_check.specs.declared.format.error.Error.TheVariants.{LengthTooLarge, UnsortedKeys};
ghost use Rattle.archive_num.specs.Offsets.{distance, IsTooFar};
ghost use Rattle.archive_types.specs.MapPairs.{pair_keys, pair_meaning};
ghost use Rattle.archive_types.specs.Members.PlannedMaps.{map_of_pairs_planned, pairs_keyed};
ghost use Rattle.archive_types.specs.Members.PlannedOwners.{one_planned};
ghost use Rattle.archive_types.specs.Outcomes.{ResolvesAs};
ghost use Rattle.archive_types.specs.Runs.{each_keys, each_meaning};
ghost use Rattle.archive_types.specs.SourceOutcomes.{Serializes};
ghost use Rattle.archive_types.specs.ValueOrder.{keys_ascend};
ghost use Rattle.archive_types.specs.Words.WrittenPointers.{AtOnce, PointsTo};
ghost use Rattle.archive_types.specs.Writing.{map_flat, ZeroedPlace};

use super::{ArchivedSortedMap, SortedKey, SortedMapResolver};
use crate::place::Place;
use crate::ser::serialize_one;
use crate::traits::{
    Archive, ArchiveUnsized, CopyOptimization, Keys, MapKey, Portable, Serialize, SerializeUnsized,
};
use archive_check::format::error::Error;
use archive_write::ser::{ResolverAlloc, Writer};

/// Borrowed entries of a map, as a source: pairs of a key and its value, in the order of the keys.
#[derive(Drop)]
pub struct SortedEntries<'a, K, V> {
    /// The entries. Their keys should ascend strictly: else they aren't written.
    pub entries: &'a [(K, V)],
}

impl<'a, K: SortedKey, V: Archive> Archive for SortedEntries<'a, K, V>
where
    K::Archived: MapKey,
{
    type Archived = ArchivedSortedMap<K::Archived, V::Archived>;

    type Resolver = SortedMapResolver;

    ghost meaning = { λ s. list (each_meaning (pair_meaning K.meaning V.meaning) s.entries.now) };

    ghost flat = { λ s r. map_flat K.Archived.key V.Archived.shape (length s.entries.now) r };

    ghost keys = { λ s. each_keys (pair_keys K.keys V.keys) s.entries.now };

    ghost belongs = { λ s _. length s.entries.now ≤ 4294967295 };

    ghost in_bulk = { None };

    ghost keyed = { λ s. pairs_keyed K.keys V.keys K.meaning V.meaning K.keyed V.keyed
        s.entries.now };

    ghost planned = { λ s. map_of_pairs_planned K.keys V.keys K.meaning V.meaning
        K.Archived.definitions V.Archived.definitions K.Archived.shape V.Archived.shape K.planned
        V.planned K.Archived.key K.Archived.is_key s.entries.now };

    #[inline(always)]
    fn resolve(
        &self,
        resolver: SortedMapResolver,
        place: Place<'_, ArchivedSortedMap<K::Archived, V::Archived>>,
    ) -> Result<(), Error>
        requires zeroed { ZeroedPlace 8 place.pos place.bytes.now }
        requires same_value { length self.now.entries.now ≤ 4294967295 }
        ensures outcome { ResolvesAs ⟦<Self::Archived as Portable>⟧ place
            (⟦<Self as Archive>⟧.flat self.now resolver) result }
        ensures written { OnOk result (PointsTo place true resolver (length self.now.entries.now)) }
        ensures cause { IfErr result (λ e. IsTooFar e (distance place.entry.pos resolver)) }
    {
        let Place { bytes, pos, .. } = place;
        ArchivedSortedMap::<K::Archived, V::Archived>::resolve_from_len(
            self.entries.len(),
            resolver,
            Place::new(pos, bytes),
        )
    }

    #[inline(always)]
    fn copy_optimization() -> CopyOptimization<Self> {
        CopyOptimization::disable()
    }

    #[inline(always)]
    fn serialize_copied<S: Writer + Keys>(
        _values: &[Self],
        _together: usize,
        _serializer: &mut S,
    ) -> Result<Option<usize>, Error> {
        Ok(None)
    }
}

impl<'a, S: Writer + ResolverAlloc, K: SortedKey + Serialize<S>, V: Serialize<S>> Serialize<S>
    for SortedEntries<'a, K, V>
where
    K::Archived: MapKey,
{
    /// Writes the entries, as `ArchivedSortedMap::serialize_from_entries` does, with its errors.
    #[inline(always)]
    fn serialize(&self, serializer: &mut S) -> Result<SortedMapResolver, Error>
        ensures outcome { Serializes ⟦<Self as Archive>⟧ ⟦<Self::Archived as Portable>⟧ self.now
            S.Keys serializer result }
        ensures too_long { 4294967295 < length self.now.entries.now
            → AtOnce result LengthTooLarge S.Keys serializer }
        ensures unsorted { length self.now.entries.now ≤ 4294967295
            → keys_ascend (each_meaning (pair_meaning K.meaning V.meaning) self.now.entries.now)
            ≡ false → AtOnce result UnsortedKeys S.Keys serializer }
    {
        ArchivedSortedMap::<K::Archived, V::Archived>::serialize_from_entries(
            self.entries,
            serializer,
        )
    }
}

/// As a region of its own: the map itself, not its entries.
impl<'a, K: SortedKey, V: Archive> ArchiveUnsized for SortedEntries<'a, K, V>
where
    K::Archived: MapKey,
{
    type Archived = ArchivedSortedMap<K::Archived, V::Archived>;

    ghost source_length = { λ _. 0 };

    ghost meaning = { ⟦<Self as Archive>⟧.meaning };

    ghost keys = { ⟦<Self as Archive>⟧.keys };

    ghost keyed = { λ s. pairs_keyed K.keys V.keys K.meaning V.meaning K.keyed V.keyed
        s.entries.now };

    ghost one_length = { λ _ _. refl };

    ghost planned = { λ s. one_planned (entry_definitions K.Archived.definitions
        V.Archived.definitions) (sorted_map K.Archived.key V.Archived.shape)
        (each_keys (pair_keys K.keys V.keys) s.entries.now)
        (list (each_meaning (pair_meaning K.meaning V.meaning) s.entries.now))
        (map_of_pairs_planned K.keys V.keys K.meaning V.meaning K.Archived.definitions
        V.Archived.definitions K.Archived.shape V.Archived.shape K.planned V.planned K.Archived.key
        K.Archived.is_key s.entries.now) };

    #[inline(always)]
    fn archived_metadata(&self) -> Result<(), Error> {
        Ok(())
    }
}

impl<'a, S: Writer + ResolverAlloc, K: SortedKey + Serialize<S>, V: Serialize<S>> SerializeUnsized<
    S,
> for SortedEntries<'a, K, V>
where
    K::Archived: MapKey,
{
    #[inline(always)]
    fn serialize_unsized(&self, serializer: &mut S) -> Result<usize, Error> {
        serialize_one(self, serializer)
    }
}
