// The elements of a slice are read back one after another.

ghost use Rattle.std.specs.Prelude.{◌≡◌, ◌≤◌, [], length, IfOk, IfErr};
ghost use Rattle.std.specs.Vec.{vec_len, vec_capacity};
ghost use Rattle.archive_check.specs.Shape.{run};
ghost use Rattle.archive_check.specs.Value.{list};
ghost use Rattle.archive_check.specs.Viewed.{Viewed};
ghost use Rattle.archive_check.specs.Entries.{ReadsBack, RefusesReading};
ghost use Rattle.archive_types.specs.ElementsRead.{ReadsEach, RefusesEach};
ghost use Rattle.archive_types.specs.FirstRead.{AreFirstRead};
ghost use Rattle.archive_types.specs.Runs.{each_meaning, each_keys};
ghost use Rattle.archive_types.specs.Words.Seen.{IsPartOf};
ghost use Rattle.archive_types.specs.Words.ReadBack.{ReadsAs};
ghost use Rattle.archive_types.specs.Views.{AreViewed};

use super::ArchivedSlice;
use super::iter::element_at;
use crate::traits::{Archive, ArchivePointee, Deserialize, DeserializeUnsized, Entries, Portable};
use crate::view::{RawView, Ref};
use archive_check::format::error::Error;
use std::alloc::Global;

// Puts the first of the elements that stand from `pos` on into `items`, as many as their type reads at once.
#[inline(always)]
fn put_first<T: Portable + Deserialize<U, D>, U: Archive + Drop, D: Entries>(
    alloc: Global,
    bytes: &[u8],
    pos: usize,
    count: usize,
    items: &mut Vec<U>,
)
    requires viewed { AreViewed T.definitions bytes.now pos T.layout.size T.pointee count }
    requires nothing { items.old.items ≡ [] }
    requires room { count ≤ vec_capacity items.old }
    ensures few { vec_len items.new ≤ count }
    ensures room { count ≤ vec_capacity items.new }
    ensures read { AreFirstRead T.definitions bytes.now pos T.layout.size T.pointee U.meaning U.keys
        items.new.items }
{
    prove!(bytes.len() <= usize::MAX);
    T::deserialize_first(alloc, bytes, pos, T::size(), count, items);
}

// The elements that stand at the position of `part`, so many, each read back, the first ones many at once where the type does so; the list takes its
// memory at once.
#[inline(always)]
pub(crate) fn read_each<T: Portable + Deserialize<U, D>, U: Archive + Drop, D: Entries>(
    alloc: Global,
    part: RawView<'_>,
    count: usize,
    deserializer: &mut D,
) -> Result<Vec<U>, Error>
    requires { AreViewed T.definitions part.bytes.now part.pos T.layout.size T.pointee count }
    ensures read { IfOk result (λ v. ReadsEach T.Portable count part D.Entries deserializer
        U.Archive v.items) }
    ensures whole { IfOk result (λ v. length v.items ≡ count) }
    ensures refused { IfErr result (RefusesEach T.Portable count part D.Entries deserializer) }
{
    let mut items = Vec::with_capacity(alloc, count)?;
    put_first::<T, U, D>(alloc, part.bytes, part.pos, count, &mut items);
    for index in items.len()..count {
        let element: Ref<'_, T> = element_at(part, index);
        let item = T::deserialize_part(alloc, element.part(), deserializer)?;
        items.push_reserved(item);
    }
    Ok(items)
}

/// The elements, each read back; the list takes its memory at once.
#[inline(always)]
pub fn read_elements<T: Portable + Deserialize<U, D>, U: Archive + Drop, D: Entries>(
    alloc: Global,
    part: RawView<'_>,
    deserializer: &mut D,
) -> Result<Vec<U>, Error>
    requires { Viewed T.definitions part.bytes.now part.pos (run T.shape) part.len }
    ensures read { IfOk result (λ v. ReadsBack D.keeps T.definitions part.entry.bytes.now
        part.entry.pos (run T.shape) part.entry.len (D.entry_of deserializer.old)
        (D.entry_of deserializer.new) (list (each_meaning U.meaning v.items))
        (each_keys U.keys v.items)) }
    ensures refused { IfErr result (RefusesReading T.definitions part.entry.bytes.now part.entry.pos
        (run T.shape) part.entry.len (D.entry_of deserializer.old)) }
{
    let count = part.len;
    read_each::<T, U, D>(alloc, part, count, deserializer)
}

/// The elements, as a vector.
impl<T: Portable + Deserialize<U, D>, U: Archive + Drop, D: Entries> DeserializeUnsized<Vec<U>, D>
    for ArchivedSlice<T> {
    fn deserialize_unsized_part(
        alloc: Global,
        part: RawView<'_>,
        deserializer: &mut D,
    ) -> Result<Vec<U>, Error>
        requires { IsPartOf ⟦<Self as ArchivePointee>⟧ part }
        ensures { ReadsAs ⟦<Self as ArchivePointee>⟧ part D.Entries deserializer
            ⟦<Vec<U> as Archive>⟧ result }
    {
        read_elements::<T, U, D>(alloc, part, deserializer)
    }
}
