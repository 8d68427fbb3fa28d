// The elements of an array as they are read back.

ghost use Rattle.std.specs.Prelude.{◌≡◌, ◌↔◌, List, length, OnOk, IfErr, IfSome, IsSome, None};
ghost use Rattle.archive_check.specs.Value.{list};
ghost use Rattle.archive_types.specs.Members.Arrays.{array_meaning, array_keys, array_keyed, array_planned};
ghost use Rattle.archive_types.specs.Runs.{each_flat, EachBelongs};
ghost use Rattle.archive_types.specs.Writing.{ZeroedPlace};
ghost use Rattle.archive_types.specs.Outcomes.{ResolvesAs};

use super::sources::{ArrayResolver, resolve_elements};
use crate::place::Place;
use crate::slice::serialize_each;
use crate::traits::{Archive, CopyOptimization, Keys, Portable, Serialize};
use archive_check::format::error::Error;
use archive_write::ser::{ResolverAlloc, Writer};
use std::alloc::Global;
use std::marker::Model;

/// The elements of an array as they are read back: `N` values, in a vector. In a contract it is
/// their list. rkyv 0.8.18 reads the array back.
#[derive(Debug, Drop)]
pub struct OwnedArray<T, const N: usize> {
    pub(super) items: Vec<T>,
}

impl<T, const N: usize> Model for OwnedArray<T, N> {
    ghost Value = { List T };

    ghost view = { λ a. a.items.items };

    ghost invariant = { λ a. length a.items.items ≡ N };
}

impl<T, const N: usize> OwnedArray<T, N> {
    /// The elements, in order.
    pub fn as_slice(&self) -> &[T]
        ensures elements { result.now ≡ self.now }
        ensures whole { length result.now ≡ N }
    {
        self.items.as_slice()
    }

    /// The elements as a vector, which keeps its memory.
    pub fn into_vec(self) -> Vec<T>
        ensures elements { result.items ≡ self }
        ensures whole { length result.items ≡ N }
    {
        self.items
    }
}

impl<T: Drop, const N: usize> OwnedArray<T, N> {
    /// An array of the elements of `items`, which keeps their memory; none where there aren't `N`.
    pub fn from_vec(items: Vec<T>) -> Option<OwnedArray<T, N>>
        ensures some { IsSome result ↔ (length items.items ≡ N) }
        ensures elements { IfSome result (λ a. a ≡ items.items) }
    {
        if items.len() != N {
            return None;
        }
        Some(OwnedArray { items })
    }

    /// The elements as an array of the machine.
    pub fn into_array(self) -> [T; N]
        ensures { result ≡ self }
    {
        let Ok(elements) = self.items.try_into() else {
            unreachable!();
        };
        elements
    }
}

/// It is archived as an array is, with the same bytes.
impl<T: Archive, const N: usize> Archive for OwnedArray<T, N> {
    type Archived = [T::Archived; N];

    type Resolver = ArrayResolver<T::Resolver>;

    ghost meaning = { array_meaning N T.meaning };

    ghost flat = { λ v r. list (each_flat T.flat v r.kept.items) };

    ghost keys = { array_keys N T.keys };

    ghost belongs = { λ v r. EachBelongs T.belongs v r.kept.items };

    ghost in_bulk = { None };

    ghost keyed = { array_keyed N T.keys T.meaning T.keyed };

    ghost planned = { array_planned N T.Archived.definitions T.Archived.shape T.keys T.meaning
        T.planned };

    #[inline(always)]
    fn resolve(
        &self,
        resolver: ArrayResolver<T::Resolver>,
        place: Place<'_, [T::Archived; N]>,
    ) -> Result<(), Error>
        requires zeroed { ZeroedPlace ⟦<Self::Archived as Portable>⟧.layout.size place.pos
            place.bytes.now }
        requires same_value { EachBelongs T.belongs self.now resolver.kept.items }
        ensures { ResolvesAs ⟦<Self::Archived as Portable>⟧ place
            (⟦<Self as Archive>⟧.flat self.now resolver) result }
    {
        let Place { bytes, pos, .. } = place;
        resolve_elements(self.as_slice(), resolver.kept, pos, bytes)
    }

    // Each has its elements in memory of its own, so there is nothing to copy in one piece.
    #[inline(always)]
    fn copy_optimization() -> CopyOptimization<OwnedArray<T, N>> {
        CopyOptimization::disable()
    }

    #[inline(always)]
    fn serialize_copied<S: Writer + Keys>(
        _values: &[OwnedArray<T, N>],
        _together: usize,
        _serializer: &mut S,
    ) -> Result<Option<usize>, Error> {
        Ok(None)
    }
}

impl<T: Serialize<S>, S: Writer + ResolverAlloc<Alloc = Global>, const N: usize> Serialize<S>
    for OwnedArray<T, N> {
    /// Writes what each element owns, in order. Memory for their resolvers comes from the serializer's allocator, the global one.
    #[inline(always)]
    fn serialize(&self, serializer: &mut S) -> Result<ArrayResolver<T::Resolver>, Error> {
        let alloc = serializer.resolver_alloc();
        match serialize_each(alloc, self.as_slice(), serializer) {
            Ok(kept) => Ok(ArrayResolver { kept }),
            Err(error) => Err(error),
        }
    }
}
