// Views of maps compared to native ones.

ghost use Rattle.std.specs.Prelude.{◌≡◌, ◌<◌};
ghost use Rattle.std.specs.Cmp.Lexicographic.{slice_cmp};
ghost use Rattle.std.specs.Ordering.{is_eq};
ghost use Rattle.archive_check.specs.SelfCheck.Maps.{entry_size};
ghost use Rattle.archive_check.specs.Value.{list};
ghost use Rattle.archive_types.specs.MapPairs.{pair_meaning};
ghost use Rattle.archive_types.specs.Members.OrderedPairs.{pair_native};
ghost use Rattle.archive_types.specs.Runs.{each_meaning};
ghost use Rattle.archive_types.specs.Words.Seen.{element_shown, elements_in, ViewEquals};

use super::CompareNative;
use crate::map::ArchivedSortedMap;
use crate::slice::ArchivedSlice;
use crate::traits::{Archive, MapKey, Portable};
use crate::view::Ref;
use archive_tuple::ArchivedTuple2;
use std::collections::BTreeMap;

impl<'a, K: MapKey, V: Portable> Ref<'a, ArchivedSortedMap<K, V>> {
    /// Whether the entries equal those of a native map, and are as many.
    pub fn eq_map<A: Archive + Ord, B: Archive>(self, map: &BTreeMap<A, B>) -> bool
    where
        K: CompareNative<A>,
        V: CompareNative<B>,
        ensures order { result ≡ is_eq (slice_cmp (pair_native K.layout V.layout K.native_order
            V.native_order) (elements_in (entry_size K.layout V.layout) self.entry)
            map.now.entries) }
        ensures by_value { ViewEquals self.entry
            (list (each_meaning (pair_meaning A.meaning B.meaning) map.now.entries)) result }
    {
        are_pairs(self, map)
    }
}

// Whether the pair of an index equals a native one.
fn is_pair<K: MapKey + CompareNative<A>, V: Portable + CompareNative<B>, A: Archive, B: Archive>(
    entries: Ref<'_, ArchivedSlice<ArchivedTuple2<K, V>>>,
    index: usize,
    key: &A,
    value: &B,
) -> bool
    requires { index < entries.len }
    ensures { result ≡ is_eq (pair_native K.layout V.layout K.native_order V.native_order
        (element_shown (entry_size K.layout V.layout) index entries.entry) (key.now, value.now)) }
{
    let entry = entries.index(index);
    K::compare_native(entry.field::<K>(0).part(), key).is_eq()
        && V::compare_native(entry.field::<V>(1).part(), value).is_eq()
}

// Whether the entries equal those of a native map, and are as many.
fn are_pairs<
    K: MapKey + CompareNative<A>,
    V: Portable + CompareNative<B>,
    A: Archive + Ord,
    B: Archive,
>(view: Ref<'_, ArchivedSortedMap<K, V>>, map: &BTreeMap<A, B>) -> bool
    ensures { result ≡ is_eq (slice_cmp (pair_native K.layout V.layout K.native_order
        V.native_order) (elements_in (entry_size K.layout V.layout) view.entry) map.now.entries) }
{
    let entries = view.entries();
    if entries.len() != map.len() {
        return false;
    }
    let mut index = 0;
    for (key, value) in map {
        if !is_pair(entries, index, key, value) {
            return false;
        }
        index += 1;
    }
    true
}
