// What parts own is written, and the region of a value or of elements that were serialized before. That takes memory of the machine's stack for a block of
// bytes, so it is no part of the functions that call themselves for each level.

ghost use Rattle.std.specs.Prelude.{◌≡◌, ◌≤◌, IfOk, IfErr, length};
ghost use Rattle.archive_types.specs.Runs.{EachBelongs};
ghost use Rattle.archive_types.specs.SourceOutcomes.{BoxesInner, Serializes};
ghost use Rattle.archive_write.specs.Written.{GoesOn};
ghost use Rattle.archive_core.specs.recursive.Held.{InnerListed, ListingRefused};

use archive_check::format::error::Error;
use archive_types::boxed::{self, BoxResolver};
use archive_types::ser::{ResolveExt, ResolverAlloc, Writer, WriterExt};
use archive_types::traits::{Archive, Keys, Serialize};
use archive_types::vec::VecResolver;
use std::alloc::Allocator;

/// Writes the region of values that were serialized, and returns the resolver of a vector of them.
/// The caller must ensure that each resolver is one of its value. Fails as the resolving of a value
/// does, with `PositionTooLarge` where the region begins above 4,294,967,295, with `LayoutTooLarge`
/// where it would end above `usize::MAX`, with `OutOfMemory`, or as the writer fails.
#[inline(always)]
pub fn serialize_inner_slice<S: Writer + ResolverAlloc, T: Archive, B: Allocator + Drop>(
    values: &[T],
    resolvers: Vec<T::Resolver, B>,
    serializer: &mut S,
) -> Result<VecResolver, Error>
    requires same_values { EachBelongs T.belongs values.now resolvers.items }
    ensures listed { IfOk result (InnerListed T.Archive T.Archived.Portable values.now
        resolvers.items S.Keys serializer) }
    ensures goes_on { GoesOn (S.state serializer.old) (S.state serializer.new) }
    ensures refused { IfErr result (ListingRefused T.Archive T.Archived.Portable values.now
        resolvers.items S.Keys serializer) }
{
    if values.is_empty() {
        return resolve_inner_slice(values, resolvers, serializer);
    }
    serialize_elements(values, resolvers, serializer)
}

// The same in line.
#[inline(always)]
fn resolve_inner_slice<S: Writer + ResolverAlloc, T: Archive, B: Allocator + Drop>(
    values: &[T],
    resolvers: Vec<T::Resolver, B>,
    serializer: &mut S,
) -> Result<VecResolver, Error>
    requires same_values { EachBelongs T.belongs values.now resolvers.items }
    ensures listed { IfOk result (InnerListed T.Archive T.Archived.Portable values.now
        resolvers.items S.Keys serializer) }
    ensures goes_on { GoesOn (S.state serializer.old) (S.state serializer.new) }
    ensures refused { IfErr result (ListingRefused T.Archive T.Archived.Portable values.now
        resolvers.items S.Keys serializer) }
{
    let alloc = serializer.resolver_alloc();
    serializer.align_for::<T::Archived>()?;
    let pos = serializer.resolve_slice_aligned(alloc, values, resolvers)?;
    if pos > 4294967295 {
        return Err(Error::PositionTooLarge);
    }
    Ok(VecResolver::from_pos(pos))
}

// The same by a call.
#[inline(never)]
fn serialize_elements<S: Writer + ResolverAlloc, T: Archive, B: Allocator + Drop>(
    values: &[T],
    resolvers: Vec<T::Resolver, B>,
    serializer: &mut S,
) -> Result<VecResolver, Error>
    requires same_values { EachBelongs T.belongs values.now resolvers.items }
    ensures listed { IfOk result (InnerListed T.Archive T.Archived.Portable values.now
        resolvers.items S.Keys serializer) }
    ensures goes_on { GoesOn (S.state serializer.old) (S.state serializer.new) }
    ensures refused { IfErr result (ListingRefused T.Archive T.Archived.Portable values.now
        resolvers.items S.Keys serializer) }
{
    resolve_inner_slice(values, resolvers, serializer)
}

/// The same for a level that writes more than one vector: its result, of which an error takes 72
/// bytes, has room in the level only while it lasts.
#[inline(always)]
pub fn serialize_run<S: Writer + ResolverAlloc, T: Archive, B: Allocator + Drop>(
    values: &[T],
    resolvers: Vec<T::Resolver, B>,
    serializer: &mut S,
) -> Result<VecResolver, Error>
    requires same_values { EachBelongs T.belongs values.now resolvers.items }
    ensures listed { IfOk result (InnerListed T.Archive T.Archived.Portable values.now
        resolvers.items S.Keys serializer) }
    ensures goes_on { GoesOn (S.state serializer.old) (S.state serializer.new) }
    ensures refused { IfErr result (ListingRefused T.Archive T.Archived.Portable values.now
        resolvers.items S.Keys serializer) }
{
    // Two branches, though both call the same: in the first the region of no elements is in line, so
    // that a leaf costs no call, in the second it is the call, and the result of each has room only
    // while it lasts. Where both share one result, its room lasts as long as the level: one of
    // `Expr` takes 336 bytes of stack then, and 272 so.
    if values.is_empty() {
        return serialize_inner_slice(values, resolvers, serializer);
    }
    serialize_inner_slice(values, resolvers, serializer)
}

/// Writes the region of a value that was serialized, and returns the resolver of a box of it, as
/// `boxed::serialize_inner` does, by a call whose result has its room only while it lasts.
#[inline(always)]
pub fn serialize_inner<S: Writer + ResolverAlloc, T: Archive>(
    value: &T,
    resolver: T::Resolver,
    serializer: &mut S,
) -> Result<BoxResolver, Error>
    requires same_value { T.belongs value.now resolver }
    ensures { BoxesInner T.Archive T.Archived.Portable value.now resolver S.Keys serializer result }
{
    serialize_value(value, resolver, serializer)
}

// The same by a call.
#[inline(never)]
fn serialize_value<S: Writer + ResolverAlloc, T: Archive>(
    value: &T,
    resolver: T::Resolver,
    serializer: &mut S,
) -> Result<BoxResolver, Error>
    requires same_value { T.belongs value.now resolver }
    ensures { BoxesInner T.Archive T.Archived.Portable value.now resolver S.Keys serializer result }
{
    boxed::serialize_inner(value, resolver, serializer)
}

/// Writes what a part owns, as `Serialize::serialize` does, and fails as that does.
#[inline(always)]
pub fn serialize_part<T: Serialize<S>, S: Writer + Keys>(
    value: &T,
    serializer: &mut S,
) -> Result<T::Resolver, Error>
    ensures { Serializes T.Archive T.Archived.Portable value.now S.Keys serializer result }
{
    value.serialize(serializer)
}

/// The same error. What calls itself for each level hands the errors of the levels below on by this
/// call: where no word of them is named, the compiled code keeps 16 bytes of each that may come on
/// the way, in each level.
#[inline(always)]
pub fn handed_on(error: Error) -> Error
    ensures { result ≡ error }
{
    match error {
        Error::BufferOverflow {
            write_len,
            cap,
            len,
        } => Error::BufferOverflow {
            write_len,
            cap,
            len,
        },
        error => error,
    }
}
