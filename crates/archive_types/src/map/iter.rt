// The entries of a map, from both ends.

ghost use Rattle.std.specs.Prelude.{◌≡◌, ◌+◌, ◌*◌, ◌≤◌, ◌<◌};
ghost use Rattle.std.specs.Iterator.{YieldsFirstBy, YieldsLastBy, item_count};
ghost use Rattle.archive_check.specs.SelfCheck.Maps.{entry_size, entry_definitions};
ghost use Rattle.archive_check.specs.Shape.{one, no_part, part, parts};
ghost use Rattle.archive_types.specs.Words.SeenEntries.{pairs_between, pairs_from, first_entry, entry_count, shown_pair, pair_at};
ghost use Rattle.archive_types.specs.Views.{AreViewed};

use super::ArchivedSortedMap;
use crate::slice::element_at;
use crate::traits::{MapKey, Portable};
use crate::view::{RawView, Ref};
use archive_tuple::ArchivedTuple2;
use std::iter::FusedIterator;
use std::marker::PhantomData;

/// Views of a map's keys and values, from either end, in the order of the keys.
#[derive(Drop)]
pub struct Iter<'a, K: MapKey, V: Portable> {
    entries: RawView<'a>,
    front: usize,
    back: usize,
    of: PhantomData<(K, V)>,
    ghost valid: { AreViewed (entry_definitions K.definitions V.definitions) entries.bytes.now
        entries.pos (entry_size K.layout V.layout) (one
        (parts (part K.shape (part V.shape no_part)))) back },
    ghost order: { front ≤ back },
}

impl<'a, K: MapKey, V: Portable> Iter<'a, K, V> {
    // The key and the value of the entry `index`, counted from the first of all.
    fn pair(&self, index: usize) -> (Ref<'a, K>, Ref<'a, V>)
        requires { index < self.now.back }
        ensures { shown_pair result
            ≡ pair_at K.layout V.layout self.now.entries.bytes.now self.now.entries.pos index }
    {
        let entry: Ref<'a, ArchivedTuple2<K, V>> = element_at(self.entries, index);
        (entry.field::<K>(0), entry.field::<V>(1))
    }
}

impl<'a, K: MapKey, V: Portable> Ref<'a, ArchivedSortedMap<K, V>> {
    /// Views of the keys and values, in the order of the keys and from either end.
    pub fn iter(self) -> Iter<'a, K, V>
        ensures { pairs_between K.layout V.layout result.entries result.front result.back
            ≡ pairs_from K.layout V.layout self.entry.bytes.now (first_entry self.entry) 0
            (entry_count self.entry) }
    {
        let entries = self.entries();
        Iter {
            entries: entries.part(),
            front: 0,
            back: entries.len(),
            of: PhantomData,
        }
    }
}

impl<'a, K: MapKey, V: Portable> Iterator for Iter<'a, K, V> {
    type Item = (Ref<'a, K>, Ref<'a, V>);

    ghost next_gives = { YieldsFirstBy (λ pair. shown_pair pair)
        (λ s. pairs_between K.layout V.layout s.entries s.front s.back) };

    ghost remaining = { item_count (λ s. pairs_between K.layout V.layout s.entries s.front
        s.back) };

    fn next(&mut self) -> Option<(Ref<'a, K>, Ref<'a, V>)> {
        if self.front >= self.back {
            return None;
        }
        let pair = self.pair(self.front);
        self.front += 1;
        Some(pair)
    }

    #[tactic(auto, using(crate::proofs::Maps::PairsLeft::pairs_count))]
    fn size_hint(&self) -> (usize, Option<usize>) {
        let left = self.len();
        (left, Some(left))
    }
}

impl<'a, K: MapKey, V: Portable> DoubleEndedIterator for Iter<'a, K, V> {
    ghost next_back_gives = { YieldsLastBy (λ pair. shown_pair pair)
        (λ s. pairs_between K.layout V.layout s.entries s.front s.back) };

    fn next_back(&mut self) -> Option<(Ref<'a, K>, Ref<'a, V>)> {
        if self.front >= self.back {
            return None;
        }
        let pair = self.pair(self.back - 1);
        self.back -= 1;
        Some(pair)
    }
}

impl<'a, K: MapKey, V: Portable> ExactSizeIterator for Iter<'a, K, V> {
    #[tactic(auto, using(crate::proofs::Maps::PairsLeft::pairs_count))]
    fn len(&self) -> usize {
        self.back - self.front
    }
}

impl<'a, K: MapKey, V: Portable> FusedIterator for Iter<'a, K, V> {}
