// Vectors written from iterators.

ghost use Rattle.std.specs.Prelude.{◌≡◌, ◌≤◌, ◌⊎◌, List, IfOk, OnOk, IfErr, length};
ghost use Rattle.std.specs.Iterator.{IsFinite, Drains};
ghost use Rattle.archive_check.specs.declared.format.error.Error.TheVariants.{OutOfMemory};
ghost use Rattle.archive_types.specs.ItemsWritten.{ItemPut, PutRefused, ItemsStored, CollectionRefused};
ghost use Rattle.archive_write.specs.Written.{GoesOn};
ghost use Rattle.archive_types.specs.Outcomes.{SerializesItems};

use super::{ArchivedVec, VecResolver};
use crate::owner_pointers::position_of;
use crate::ser::resolve_next;
use crate::traits::{Portable, Serialize};
use archive_check::format::error::Error;
use archive_write::ser::{ResolverAlloc, Writer, WriterExt};
use std::alloc::Allocator;

// Serializes an item, which may write nothing, and resolves it where the writer stands. Memory for a large one comes from `alloc`.
fn write_item<A: Allocator + Drop, S: Writer, U: Serialize<S>>(
    alloc: A,
    item: &U,
    serializer: &mut S,
) -> Result<(), Error>
    ensures written { OnOk result (ItemPut U.Archive U.Archived.Portable item.now S.Keys
        serializer) }
    ensures goes_on { GoesOn (S.state serializer.old) (S.state serializer.new) }
    ensures refused { IfErr result (PutRefused U.Archive U.Archived.Portable item.now S.Keys
        serializer) }
{
    let before = serializer.pos();
    let resolver = item.serialize(serializer)?;
    if serializer.pos() != before {
        return Err(Error::ItemWrote);
    }
    resolve_next(serializer, alloc, item, resolver)?;
    Ok(())
}

impl<T: Portable> ArchivedVec<T> {
    /// Writes the items of `iter` as `serialize_from_slice` writes a slice's, and keeps them
    /// meanwhile. The caller must ensure that the iterator terminates. rkyv 0.8.18 goes over it
    /// twice.
    ///
    /// Errors:
    /// - `OutOfMemory`: memory for the items is refused; nothing is written then.
    /// - those of `serialize_from_slice`.
    pub fn serialize_from_iter<
        U: Serialize<S, Archived = T> + Drop,
        I: Iterator<Item = U> + Drop,
        S: Writer + ResolverAlloc,
    >(iter: I, serializer: &mut S) -> Result<VecResolver, Error>
        requires can { I.can_next iter }
        requires ends { IsFinite (I.remaining iter) }
        ensures { SerializesItems (Drains I.next_gives iter) U.keys U.meaning T.Portable S.Keys
            serializer result }
    {
        let alloc = serializer.resolver_alloc();
        let Ok(items) = iter.collect::<Vec<U, S::Alloc>>(alloc) else {
            return Err(Error::OutOfMemory);
        };
        Self::serialize_from_slice(items.as_slice(), serializer)
    }

    /// Writes the items of `iter` one after another as they come, and keeps none. The caller must
    /// ensure that the iterator terminates. Items without a pointer to a region of their own are
    /// then a vector's elements. rkyv 0.8.18 panics if an item writes.
    ///
    /// Errors:
    /// - `ItemWrote`: exactly if an item's `serialize` succeeded and wrote.
    /// - `PositionTooLarge`: the first item would lie above 4,294,967,295.
    /// - `LengthTooLarge`: more than 4,294,967,295 items come.
    /// - those of the items and the writer.
    pub fn serialize_from_unknown_length_iter<
        U: Serialize<S, Archived = T> + Drop,
        I: Iterator<Item = U> + Drop,
        S: Writer + ResolverAlloc,
    >(iter: I, serializer: &mut S) -> Result<VecResolver, Error>
        requires can { I.can_next iter }
        requires ends { IsFinite (I.remaining iter) }
        ensures stored { IfOk result (ItemsStored I.next_gives iter U.Archive T.Portable S.Keys
            serializer) }
        ensures goes_on { GoesOn (S.state serializer.old) (S.state serializer.new) }
        ensures refused { IfErr result (CollectionRefused I.next_gives iter U.Archive T.Portable
            S.Keys serializer) }
    {
        let alloc = serializer.resolver_alloc();
        let pos = serializer.align_for::<T>()?;
        let pos = position_of(pos)?;
        let mut count = 0u32;
        for item in iter {
            let Some(more) = count.checked_add(1) else {
                return Err(Error::LengthTooLarge);
            };
            write_item(alloc, &item, serializer)?;
            count = more;
        }
        Ok(VecResolver::from_pos(pos as usize))
    }
}
