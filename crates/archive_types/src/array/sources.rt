// Arrays as sources: what each element owns, and then all elements where the array lies.

ghost use Rattle.std.specs.Prelude.{◌≡◌, ◌≤◌, ◌*◌, ◌^◌, ◌↔◌, length, IsTrue, OnOk, IfOk, IfErr, All};
ghost use Rattle.archive_check.specs.Value.{list};
ghost use Rattle.archive_types.specs.Copies.{array_in_bulk};
ghost use Rattle.archive_types.specs.Members.Arrays.{array_meaning, array_keys, array_keyed, array_planned, ResolvesRun};
ghost use Rattle.archive_types.specs.Runs.{each_flat, EachBelongs, HindersEachAt};
ghost use Rattle.archive_types.specs.Writing.{ZeroedPlace};
ghost use Rattle.archive_write.specs.Written.{GoesOn};
ghost use Rattle.archive_types.specs.Outcomes.{ResolvesAs};

use crate::place::Place;
use crate::ser::resolve_into;
use crate::slice::{PIECE, serialize_each};
use crate::traits::{Archive, CopyOptimization, Keys, Portable, Serialize};
use archive_check::format::error::Error;
use archive_write::ser::{ResolverAlloc, Writer};
use std::alloc::Global;

// Resolves each of the values, in order, over the bytes of all of them, which stand at `pos`. Asks for zeros there, and for a resolver of each value.
#[inline(always)]
pub(super) fn resolve_elements<T: Archive>(
    values: &[T],
    resolvers: Vec<T::Resolver>,
    pos: usize,
    bytes: &mut [u8],
) -> Result<(), Error>
    requires zeroed { ZeroedPlace (length values.now * T.Archived.layout.size) pos bytes.old }
    requires same_values { EachBelongs T.belongs values.now resolvers.items }
    ensures resolved { OnOk result
        (ResolvesRun T.Archived.definitions pos bytes.new (length values.now)
        T.Archived.shape (each_flat T.flat values.now resolvers.items)) }
    ensures same_length { length bytes.new ≡ length bytes.old }
    ensures refused { IfErr result
        (HindersEachAt T.Archived.definitions T.Archived.shape (length values.now)
        (each_flat T.flat values.now resolvers.items) pos) }
{
    let size = T::Archived::size();
    let mut rest = values;
    let mut begin = 0;
    for resolver in resolvers {
        let Some((value, others)) = rest.split_first() else {
            unreachable!();
        };
        resolve_into(
            value,
            resolver,
            pos + begin,
            &mut bytes[begin..begin + size],
        )?;
        begin += size;
        rest = others;
    }
    Ok(())
}

// An array has as many elements as its type says.
#[inline(always)]
fn is_whole<T, const N: usize>(_array: &[T; N])
    ensures { length _array.now ≡ N }
{}

/// Shows that each of `arrays` has as many elements as its type says. In proofs alone an array can be a list of any length; when the program runs this
/// does nothing. What is promised of a list of arrays speaks of such alone, so who uses it calls this first.
#[inline(always)]
pub fn each_is_whole<T, const N: usize>(arrays: &[[T; N]])
    ensures { All (λ array. length array ≡ N) arrays.now }
{
    for array in arrays {
        is_whole(array);
    }
}

// Whether so many arrays of `len` have more elements than can be counted.
#[inline(always)]
fn uncountable(count: usize, len: usize) -> bool
    ensures { IsTrue result ↔ (2 ^ 64 ≤ count * len) }
{
    count.checked_mul(len).is_none()
}

// How many elements always lie in one piece, if as many arrays of `len` do.
#[inline(always)]
fn joined(together: usize, len: usize) -> usize
    ensures { result ≤ together * len }
{
    together.saturating_mul(len)
}

/// What is kept of an array between `serialize` and `resolve`: the resolver of each element, in
/// memory of the global allocator. In rkyv 0.8.18 it is an array.
// It is a type of its own, since clauses can't quote the impl of what holds an array whose resolver is a `Vec`.
#[derive(Drop)]
pub struct ArrayResolver<R> {
    /// The resolvers, in order.
    pub kept: Vec<R>,
}

/// As in rkyv 0.8.18.
impl<T: Archive, const N: usize> Archive for [T; N] {
    type Archived = [T::Archived; N];

    type Resolver = ArrayResolver<T::Resolver>;

    ghost meaning = { array_meaning N T.meaning };

    ghost flat = { λ v r. list (each_flat T.flat v r.kept.items) };

    ghost keys = { array_keys N T.keys };

    ghost belongs = { λ v r. EachBelongs T.belongs v r.kept.items };

    ghost in_bulk = { array_in_bulk (N * T.Archived.layout.size) T.in_bulk };

    ghost keyed = { array_keyed N T.keys T.meaning T.keyed };

    ghost planned = { array_planned N T.Archived.definitions T.Archived.shape T.keys T.meaning
        T.planned };

    #[inline(always)]
    fn resolve(
        &self,
        resolver: ArrayResolver<T::Resolver>,
        place: Place<'_, [T::Archived; N]>,
    ) -> Result<(), Error>
        requires zeroed { ZeroedPlace ⟦<Self::Archived as Portable>⟧.layout.size place.pos
            place.bytes.now }
        requires same_value { EachBelongs T.belongs self.now resolver.kept.items }
        ensures { ResolvesAs ⟦<Self::Archived as Portable>⟧ place
            (⟦<Self as Archive>⟧.flat self.now resolver) result }
    {
        let Place { bytes, pos, .. } = place;
        resolve_elements(self, resolver.kept, pos, bytes)
    }

    #[inline(always)]
    fn copy_optimization() -> CopyOptimization<[T; N]> {
        let size = <[T::Archived; N]>::size();
        let is_small = 0 < size && size <= PIECE;
        CopyOptimization::enable_if(is_small && T::copy_optimization().is_enabled())
    }

    #[inline(always)]
    fn serialize_copied<S: Writer + Keys>(
        values: &[[T; N]],
        together: usize,
        serializer: &mut S,
    ) -> Result<Option<usize>, Error> {
        each_is_whole(values);
        if uncountable(values.len(), N) {
            return Ok(None);
        }
        T::serialize_copied(values.as_flattened(), joined(together, N), serializer)
    }
}

impl<T: Serialize<S>, S: Writer + ResolverAlloc<Alloc = Global>, const N: usize> Serialize<S>
    for [T; N] {
    /// Writes what each element owns, in order. Memory for their resolvers comes from the serializer's allocator, the global one.
    #[inline(always)]
    fn serialize(&self, serializer: &mut S) -> Result<ArrayResolver<T::Resolver>, Error> {
        let alloc = serializer.resolver_alloc();
        match serialize_each(alloc, self, serializer) {
            Ok(kept) => Ok(ArrayResolver { kept }),
            Err(error) => Err(error),
        }
    }
}
