// Maps are read back: their pairs, of which the map is made at once.

ghost use Rattle.std.specs.BTreeMap.{IsFromIterResult};
ghost use Rattle.std.specs.Prelude.{◌≡◌, IfOk, IfErr};
ghost use Rattle.archive_check.specs.Value.{list};
ghost use Rattle.archive_check.specs.declared.format.error.Error.TheVariants.{OutOfMemory};
ghost use Rattle.archive_types.specs.MapPairs.{pair_meaning, pair_keys};
ghost use Rattle.archive_types.specs.Runs.{each_meaning, each_keys};
ghost use Rattle.archive_types.specs.Words.Seen.{IsPartOf, ReadsPart, RefusesPart};
ghost use Rattle.archive_types.specs.Words.ReadBack.{ReadsAs};

use super::ArchivedSortedMap;
use super::sorted_keys::SortedKey;
use crate::slice::read_elements;
use crate::traits::{Archive, ArchivePointee, Deserialize, Entries, MapKey, Portable};
use crate::view::{RawView, Ref};
use archive_check::format::error::Error;
use archive_tuple::ArchivedTuple2;
use std::alloc::Global;
use std::collections::BTreeMap;

// The map of the pairs. Inserting one after another takes some five times as long.
fn collect<A: Ord + Drop, B: Drop>(
    alloc: Global,
    pairs: Vec<(A, B)>,
) -> Result<BTreeMap<A, B>, Error>
    ensures made { IfOk result (IsFromIterResult A.cmp pairs.items) }
    ensures refused { IfErr result (λ e. e ≡ OutOfMemory) }
{
    Ok(BTreeMap::from_iter(alloc, pairs)?)
}

// The map that the part shows.
fn read_map<
    K: MapKey + Deserialize<A, D>,
    V: Portable + Deserialize<B, D>,
    A: SortedKey + Drop,
    B: Archive + Drop,
    D: Entries,
>(alloc: Global, part: RawView<'_>, deserializer: &mut D) -> Result<BTreeMap<A, B>, Error>
    requires { IsPartOf ⟦<ArchivedSortedMap<K, V> as ArchivePointee>⟧ part }
    ensures read { IfOk result (λ m.
        ReadsPart ⟦<ArchivedSortedMap<K, V> as ArchivePointee>⟧ part D.Entries deserializer
        (list (each_meaning (pair_meaning A.meaning B.meaning) m.entries))
        (each_keys (pair_keys A.keys B.keys) m.entries)) }
    ensures refused { IfErr result
        (RefusesPart ⟦<ArchivedSortedMap<K, V> as ArchivePointee>⟧ part D.Entries deserializer) }
{
    let view: Ref<'_, ArchivedSortedMap<K, V>> = Ref::at(part);
    let entries = view.entries().part();
    let pairs = read_elements::<ArchivedTuple2<K, V>, (A, B), D>(alloc, entries, deserializer)?;
    collect(alloc, pairs)
}

impl<
    K: MapKey + Deserialize<A, D>,
    V: Portable + Deserialize<B, D>,
    A: SortedKey + Drop,
    B: Archive + Drop,
    D: Entries,
> Deserialize<BTreeMap<A, B>, D> for ArchivedSortedMap<K, V>
where
    A::Archived: MapKey,
{
    fn deserialize_part(
        alloc: Global,
        part: RawView<'_>,
        deserializer: &mut D,
    ) -> Result<BTreeMap<A, B>, Error>
        requires { IsPartOf ⟦<Self as ArchivePointee>⟧ part }
        ensures { ReadsAs ⟦<Self as ArchivePointee>⟧ part D.Entries deserializer
            ⟦<BTreeMap<A, B> as Archive>⟧ result }
    {
        read_map::<K, V, A, B, D>(alloc, part, deserializer)
    }
}
