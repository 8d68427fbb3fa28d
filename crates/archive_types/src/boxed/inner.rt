// The region of a value that was serialized before, for recursive types.

ghost use Rattle.archive_types.specs.SourceOutcomes.{BoxesInner};

use super::BoxResolver;
use crate::owner_pointers::position_of;
use crate::ser::ResolveExt;
use crate::traits::Archive;
use archive_check::format::error::Error;
use archive_write::ser::{ResolverAlloc, Writer, WriterExt};
use std::alloc::Allocator;

/// Writes the region of a value that was serialized, and returns the resolver of a box of it: for
/// recursive types, which call their own `serialize` for the inner value first. The caller must
/// ensure that the resolver is one of this value. Existing bytes stay, after a failure too.
///
/// Errors:
/// - `PositionTooLarge`: the region lies above 4,294,967,295.
/// - `LayoutTooLarge`: it would end above `usize::MAX`.
/// - those of the value's `resolve`, of memory and of the writer.
#[inline(always)]
pub fn serialize_inner<S: Writer + ResolverAlloc, T: Archive>(
    value: &T,
    resolver: T::Resolver,
    serializer: &mut S,
) -> Result<BoxResolver, Error>
    requires same_value { T.belongs value.now resolver }
    ensures { BoxesInner T.Archive T.Archived.Portable value.now resolver S.Keys serializer result }
{
    let alloc = serializer.resolver_alloc();
    write_inner(alloc, value, resolver, serializer)
}

// The same with memory for a large region from `alloc`.
#[inline(always)]
fn write_inner<A: Allocator + Drop, S: Writer, T: Archive>(
    alloc: A,
    value: &T,
    resolver: T::Resolver,
    serializer: &mut S,
) -> Result<BoxResolver, Error>
    requires same_value { T.belongs value.now resolver }
    ensures { BoxesInner T.Archive T.Archived.Portable value.now resolver S.Keys serializer result }
{
    serializer.align_for::<T::Archived>()?;
    let pos = serializer.resolve_aligned(alloc, value, resolver)?;
    let pos = position_of(pos)?;
    Ok(BoxResolver::from_pos(pos as usize))
}
