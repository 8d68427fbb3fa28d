// Entries are found by their keys, by halving.

ghost use Rattle.std.specs.Prelude.{◌≡◌, ◌<◌, ◌≤◌, ◌^◌, ◌↔◌, ℕ, IfSome, IfNone, IsTrue};
ghost use Rattle.archive_check.specs.SelfCheck.Maps.{entry_size};
ghost use Rattle.archive_types.specs.Words.Seen.{element_shown};
ghost use Rattle.archive_types.specs.Words.SeenEntries.{AreFewFor, HasKey, HasKeyAt, HasNoKey, IsValueAtKey};

use super::ArchivedSortedMap;
use crate::compare::CompareNative;
use crate::slice::ArchivedSlice;
use crate::traits::{Archive, MapKey, Portable};
use crate::view::Ref;
use archive_tuple::ArchivedTuple2;
use std::cmp::Ordering;

// The order of the key of the entry `index` and a native key.
fn compare_key<K: MapKey + CompareNative<U>, V: Portable, U: Archive>(
    entries: Ref<'_, ArchivedSlice<ArchivedTuple2<K, V>>>,
    index: usize,
    key: &U,
) -> Ordering
    requires { index < entries.len }
    ensures { result ≡ K.native_order (element_shown (entry_size K.layout V.layout) index
        entries.entry) key.now }
{
    K::compare_native(entries.index(index).field::<K>(0).part(), key)
}

// The entry whose key equals a native one, if there is one, and how many keys were compared.
fn find<K: MapKey + CompareNative<U>, V: Portable, U: Archive>(
    map: Ref<'_, ArchivedSortedMap<K, V>>,
    key: &U,
) -> (Option<usize>, usize)
    ensures found { IfSome result.0 (HasKeyAt K.native_order (entry_size K.layout V.layout)
        map.entry key.now) }
    ensures none { IfNone result.0 (HasNoKey K.native_order (entry_size K.layout V.layout) map.entry
        key.now) }
    ensures few { AreFewFor map.entry result.1 }
{
    let entries = map.entries();
    let mut low = 0;
    let mut high = entries.len();
    let mut count = 0;
    while low < high {
        let middle = low + (high - low) / 2;
        count += 1;
        match compare_key(entries, middle, key) {
            Ordering::Less => low = middle + 1,
            Ordering::Equal => return (Some(middle), count),
            Ordering::Greater => high = middle,
        }
    }
    (None, count)
}

impl<'a, K: MapKey, V: Portable> Ref<'a, ArchivedSortedMap<K, V>> {
    /// The value of the entry whose key equals a native one, if there is one, and how many keys
    /// were compared: at most the number of binary digits of the map's length.
    pub fn get_counted<U: Archive>(self, key: &U) -> (Option<Ref<'a, V>>, usize)
    where
        K: CompareNative<U>,
        ensures found { IfSome result.0 (λ v. IsValueAtKey K.native_order K.layout V.layout v
            self.entry key.now) }
        ensures none { IfNone result.0 (HasNoKey K.native_order (entry_size K.layout V.layout)
            self.entry key.now) }
        ensures few { AreFewFor self.entry result.1 }
    {
        match find(self, key) {
            (Some(index), count) => (Some(self.value_at(index)), count),
            (None, count) => (None, count),
        }
    }

    /// The value of the entry whose key equals a native one, if there is one.
    pub fn get<U: Archive>(self, key: &U) -> Option<Ref<'a, V>>
    where
        K: CompareNative<U>,
        ensures found { IfSome result (λ v. IsValueAtKey K.native_order K.layout V.layout v
            self.entry key.now) }
        ensures none { IfNone result (HasNoKey K.native_order (entry_size K.layout V.layout)
            self.entry key.now) }
    {
        let (value, _) = self.get_counted(key);
        value
    }

    /// Whether there is an entry whose key equals a native one.
    pub fn contains_key<U: Archive>(self, key: &U) -> bool
    where
        K: CompareNative<U>,
        ensures { IsTrue result ↔ HasKey K.native_order (entry_size K.layout V.layout) self.entry
            key.now }
    {
        self.get(key).is_some()
    }
}
