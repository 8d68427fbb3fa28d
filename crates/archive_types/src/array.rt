//! Arrays: elements one after another, where they lie. As sources they are written element by
//! element, and so they are read back.

ghost use Rattle.std.specs.Prelude.{◌≡◌, ◌+◌, ◌-◌, ◌*◌, ◌<◌, ◌↔◌, IfSome, IsSome, IsTrue};
ghost use Rattle.archive_check.specs.Shape.{one};
ghost use Rattle.archive_types.specs.Compared.{elements_from};
ghost use Rattle.archive_types.specs.Words.Seen.{ShowsPartOf, elements_between};
ghost use Rattle.archive_types.specs.Views.{element_in};

mod numbers;
mod owned;
mod reading;
mod sources;
mod unsized_sources;

use crate::slice::Iter;
use crate::traits::Portable;
use crate::view::{RawView, Ref};
pub use owned::OwnedArray;
pub use sources::{ArrayResolver, each_is_whole};

impl<'a, T: Portable, const N: usize> Ref<'a, [T; N]> {
    /// How many elements there are: `N`.
    pub fn len(self) -> usize
        ensures { result ≡ N }
    {
        N
    }

    /// Whether there is no element.
    pub fn is_empty(self) -> bool
        ensures { IsTrue result ↔ (N ≡ 0) }
    {
        N == 0
    }

    /// The element `index`, of which 0 is the first. The caller must ensure that there is one,
    /// where rkyv 0.8.18 panics.
    pub fn index(self, index: usize) -> Ref<'a, T>
        requires { index < N }
        ensures buffer { result.bytes.now ≡ self.entry.bytes.now }
        ensures position { result.pos ≡ self.entry.pos + index * T.layout.size }
        ensures length { result.len ≡ 0 }
        ensures shows { ShowsPartOf result self.entry (element_in index) }
    {
        let RawView { bytes, pos, .. } = self.part();
        Ref::at(RawView {
            bytes,
            pos: pos + index * T::size(),
            len: 0,
        })
    }

    /// The element `index`, of which 0 is the first; `None` if there are no more than `index`.
    pub fn get(self, index: usize) -> Option<Ref<'a, T>>
        ensures some { IsSome result ↔ (index < N) }
        ensures buffer { IfSome result (λ r. r.bytes.now ≡ self.entry.bytes.now) }
        ensures position { IfSome result (λ r. r.pos ≡ self.entry.pos + index * T.layout.size) }
        ensures length { IfSome result (λ r. r.len ≡ 0) }
        ensures shows { IfSome result (λ r. ShowsPartOf r self.entry (element_in index)) }
    {
        if index >= N {
            return None;
        }
        Some(self.index(index))
    }

    /// Views of the elements, in order and from either end.
    pub fn iter(self) -> Iter<'a, T>
        ensures { elements_between result.slice T.layout.size result.front result.back
            ≡ elements_from self.entry.bytes.now self.entry.pos T.layout.size 0 N }
    {
        Iter::over(self.part(), N)
    }
}
