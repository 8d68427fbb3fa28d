// The elements of a slice or of an array, from both ends.

ghost use Rattle.std.specs.Prelude.{◌≡◌, ◌+◌, ◌*◌, ◌-◌, ◌≤◌, ◌<◌};
ghost use Rattle.std.specs.Iterator.{YieldsFirstBy, YieldsLastBy, item_count};
ghost use Rattle.archive_check.specs.Viewed.{Viewed};
ghost use Rattle.archive_types.specs.Words.Seen.{elements_between, elements_shown, first_elements, shown};
ghost use Rattle.archive_types.specs.Views.{AreViewed};

use super::ArchivedSlice;
use crate::traits::Portable;
use crate::view::{RawView, Ref};
use std::iter::FusedIterator;
use std::marker::PhantomData;

/// Views of the elements of a slice or of an array that are left, from either end. As Rust's iterator over a slice.
#[derive(Drop)]
pub struct Iter<'a, T: Portable> {
    slice: RawView<'a>,
    front: usize,
    back: usize,
    of: PhantomData<T>,
    ghost valid: { AreViewed T.definitions slice.bytes.now slice.pos T.layout.size T.pointee back },
    ghost order: { front ≤ back },
}

// The element `index` of those that stand at the position of `part`, one behind another.
#[inline(always)]
pub(crate) fn element_at<'a, T: Portable>(part: RawView<'a>, index: usize) -> Ref<'a, T>
    requires { Viewed T.definitions part.bytes.now (part.pos + index * T.layout.size) T.pointee 0 }
    ensures buffer { result.bytes.now ≡ part.entry.bytes.now }
    ensures position { result.pos ≡ part.entry.pos + index * T.layout.size }
    ensures length { result.len ≡ 0 }
{
    let RawView { bytes, pos, .. } = part;
    prove!(bytes.len() <= usize::MAX);
    Ref::at(RawView {
        bytes,
        pos: pos + index * T::size(),
        len: 0,
    })
}

impl<'a, T: Portable> Iter<'a, T> {
    // Views of elements, of which there are so many from the position of `run` on.
    pub(crate) fn over(run: RawView<'a>, len: usize) -> Iter<'a, T>
        requires { AreViewed T.definitions run.bytes.now run.pos T.layout.size T.pointee len }
        ensures { elements_between result.slice T.layout.size result.front result.back
            ≡ first_elements run.entry T.layout.size len }
    {
        Iter {
            slice: run,
            front: 0,
            back: len,
            of: PhantomData,
        }
    }

    // The element `index`, counted from the first of all.
    fn element(&self, index: usize) -> Ref<'a, T>
        requires { index < self.now.back }
        ensures buffer { result.bytes.now ≡ self.now.slice.bytes.now }
        ensures position { result.pos ≡ self.now.slice.pos + index * T.layout.size }
        ensures length { result.len ≡ 0 }
    {
        element_at(self.slice, index)
    }
}

impl<'a, T: Portable> Ref<'a, ArchivedSlice<T>> {
    /// Views of the elements, in order and from either end. As in rkyv 0.8.18.
    pub fn iter(self) -> Iter<'a, T>
        ensures { elements_between result.slice T.layout.size result.front result.back
            ≡ elements_shown T.layout.size self.entry }
    {
        Iter::over(self.part(), self.len())
    }
}

impl<'a, T: Portable> Iterator for Iter<'a, T> {
    type Item = Ref<'a, T>;

    ghost next_gives = { YieldsFirstBy (λ v. shown v)
        (λ s. elements_between s.slice T.layout.size s.front s.back) };

    ghost remaining = { item_count (λ s. elements_between s.slice T.layout.size s.front s.back) };

    fn next(&mut self) -> Option<Ref<'a, T>> {
        if self.front >= self.back {
            return None;
        }
        let item = self.element(self.front);
        self.front += 1;
        Some(item)
    }

    #[tactic(auto, using(crate::proofs::Comparing::Compared::count))]
    fn size_hint(&self) -> (usize, Option<usize>) {
        let left = self.len();
        (left, Some(left))
    }
}

impl<'a, T: Portable> DoubleEndedIterator for Iter<'a, T> {
    ghost next_back_gives = { YieldsLastBy (λ v. shown v)
        (λ s. elements_between s.slice T.layout.size s.front s.back) };

    fn next_back(&mut self) -> Option<Ref<'a, T>> {
        if self.front >= self.back {
            return None;
        }
        let item = self.element(self.back - 1);
        self.back -= 1;
        Some(item)
    }
}

impl<'a, T: Portable> ExactSizeIterator for Iter<'a, T> {
    #[tactic(auto, using(crate::proofs::Comparing::Compared::count))]
    fn len(&self) -> usize {
        self.back - self.front
    }
}

impl<'a, T: Portable> FusedIterator for Iter<'a, T> {}
