// Views of maps, and of their entries one after another.

ghost use Rattle.std.specs.Prelude.{◌≡◌, ◌+◌, ◌<◌, ◌↔◌, IfSome, IsSome, IsTrue};
ghost use Rattle.archive_check.specs.Reads.{u32_at};
ghost use Rattle.archive_types.specs.Words.Seen.{ShowsPartOf};
ghost use Rattle.archive_types.specs.Words.SeenEntries.{entry_count, first_entry, IsEntryKey, IsEntryValue};
ghost use Rattle.archive_types.specs.Views.{itself};

use super::ArchivedSortedMap;
use crate::slice::ArchivedSlice;
use crate::traits::{MapKey, Portable};
use crate::view::{RawView, Ref};
use archive_check::format::bytes::{read_target, read_u32};
use archive_tuple::ArchivedTuple2;

impl<'a, K: MapKey, V: Portable> Ref<'a, ArchivedSortedMap<K, V>> {
    // The entries, as a slice of pairs.
    pub(crate) fn entries(self) -> Ref<'a, ArchivedSlice<ArchivedTuple2<K, V>>>
        ensures buffer { result.bytes.now ≡ self.entry.bytes.now }
        ensures position { result.pos ≡ first_entry self.entry }
        ensures length { result.len ≡ entry_count self.entry }
        ensures shows { ShowsPartOf result self.entry itself }
    {
        let RawView { bytes, pos, .. } = self.part();
        Ref::at(RawView {
            bytes,
            pos: read_target(bytes, pos, pos),
            len: read_u32(bytes, pos + 4) as usize,
        })
    }

    // The key of the entry `index`, of which 0 is the first.
    pub(crate) fn key_at(self, index: usize) -> Ref<'a, K>
        requires { index < entry_count self }
        ensures { IsEntryKey K.layout V.layout result self.entry index }
    {
        self.entries().index(index).field::<K>(0)
    }

    // Its value.
    pub(crate) fn value_at(self, index: usize) -> Ref<'a, V>
        requires { index < entry_count self }
        ensures { IsEntryValue K.layout V.layout result self.entry index }
    {
        self.entries().index(index).field::<V>(1)
    }

    /// How many entries there are.
    pub fn len(self) -> usize
        ensures { result ≡ entry_count self.entry }
    {
        self.entries().len()
    }

    /// Whether there is no entry.
    pub fn is_empty(self) -> bool
        ensures { IsTrue result ↔ (entry_count self.entry ≡ 0) }
    {
        self.len() == 0
    }

    /// The key and the value of the entry `index`, of which 0 is the first; `None` if there are no
    /// more than `index` entries.
    pub fn get_at(self, index: usize) -> Option<(Ref<'a, K>, Ref<'a, V>)>
        ensures some { IsSome result ↔ (index < entry_count self.entry) }
        ensures key { IfSome result (λ pair. IsEntryKey K.layout V.layout pair.0 self.entry index) }
        ensures value { IfSome result (λ pair. IsEntryValue K.layout V.layout pair.1 self.entry
            index) }
    {
        if index >= self.len() {
            return None;
        }
        Some((self.key_at(index), self.value_at(index)))
    }
}
