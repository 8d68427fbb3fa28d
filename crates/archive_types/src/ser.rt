//! Writers, and the regions that are resolved into them.

ghost use Rattle.std.specs.Prelude.{◌≡◌, ◌⊎◌, ◌+◌, ◌++◌, ◌*◌, ◌^◌, ◌<◌, ◌≤◌, ◌%◌, ◌↔◌, min, true, length, IfOk, OnOk, IfErr, FitsSigned};
ghost use Rattle.std.specs.Int.{w32};
ghost use Rattle.archive_check.specs.WriterState.{KeepsKeys};
ghost use Rattle.archive_check.specs.Layout.{has_length, pointer_size};
ghost use Rattle.archive_check.specs.Shape.{one};
ghost use Rattle.archive_num.specs.Offsets.{distance};
ghost use Rattle.archive_num.specs.OwnerBytes.{HindersPointerAt};
ghost use Rattle.archive_types.specs.Causes.{HindersAt};
ghost use Rattle.archive_types.specs.Words.WrittenPointers.{Pointed};
ghost use Rattle.archive_types.specs.Runs.{EachBelongs};
ghost use Rattle.archive_types.specs.Writing.{ZeroedPlace, Resolves};
ghost use Rattle.archive_write.specs.Writes.{ExplainsWrite};
ghost use Rattle.archive_write.specs.Written.{GoesOn};
ghost use Rattle.archive_types.specs.Outcomes.{ResolvesBytes, ResolvesPart, PutsRegion, PutsElements};
ghost use Rattle.archive_types.specs.SourceOutcomes.{WritesOne};

use crate::place::Place;
use crate::traits::{
    Archive, ArchivePointee, ArchiveUnsized, ArchivedMetadata, Portable, PortablePointee, Serialize,
};
use archive_check::format::error::Error;
use archive_num::FixedUsize;
use archive_num::owners::emplace_pointer;
pub use archive_write::ser::{Buffer, Positional, ResolverAlloc, Serializer, Writer, WriterExt};
use std::alloc::Allocator;

/// Regions of this size or less are resolved in a local array.
const LOCAL_SIZE: usize = 64;

// Of elements of that size or less as many as fit are resolved in a local array of this size.
const BLOCK: usize = 256;

// The same refusal. A loop hands its values' refusals on by this call: where no word of them is named, the compiled code keeps 16 bytes of each refusal that
// may come on the way, and clears them for each value.
#[inline(always)]
pub(crate) fn by_words(error: Error) -> Error
    ensures { result ≡ error }
{
    match error {
        Error::BufferOverflow {
            write_len,
            cap,
            len,
        } => Error::BufferOverflow {
            write_len,
            cap,
            len,
        },
        error => error,
    }
}

// Resolves a value into zeros that are to stand at the writer's end, and writes them.
#[tactic(auto, using(crate::proofs::Writing::Regions::puts_by, crate::proofs::Writing::Regions::region_hindered, crate::proofs::Writing::Regions::region_refused, crate::proofs::Planning::Causes::goes_nowhere, crate::proofs::Planning::Causes::goes_written, crate::proofs::Planning::Causes::goes_refused))]
#[inline(always)]
fn resolve_region<W: Writer, T: Archive>(
    writer: &mut W,
    value: &T,
    resolver: T::Resolver,
    region: &mut [u8],
) -> Result<usize, Error>
    requires zeroed { ZeroedPlace T.Archived.layout.size (length (W.state writer.old).bytes)
        region.old }
    requires same_value { T.belongs value.now resolver }
    ensures outcome { PutsRegion T.Archived.Portable (T.flat value.now resolver) W.Keys writer
        (length (W.state writer.old).bytes) result }
    ensures same_length { length region.new ≡ length region.old }
{
    let pos = writer.pos();
    resolve_into(value, resolver, pos, region)?;
    writer.write(region)?;
    Ok(pos)
}

// Resolves a value into zeros in memory from `alloc`, and writes them at the writer's end, wherever that is. It stands apart, so that a caller holds the
// code that resolves once.
#[tactic(auto, using(crate::proofs::Writing::Regions::fresh_zeros, crate::proofs::Planning::Causes::goes_nowhere))]
#[inline(never)]
fn resolve_large<W: Writer, A: Allocator + Drop, T: Archive>(
    writer: &mut W,
    alloc: A,
    value: &T,
    resolver: T::Resolver,
    size: usize,
) -> Result<usize, Error>
    requires sized { size ≡ min T.Archived.layout.size 18446744073709551615 }
    requires ends { length (W.state writer.old).bytes + size < 2 ^ 64 }
    requires same_value { T.belongs value.now resolver }
    ensures { PutsRegion T.Archived.Portable (T.flat value.now resolver) W.Keys writer
        (W.position writer.old) result }
{
    let mut region = vec![in alloc; 0u8; size]?;
    resolve_region(writer, value, resolver, &mut region)
}

// Resolves a value into zeros at the writer's end, wherever that is, and writes them. Memory for a region above 64 bytes comes from `alloc`.
#[tactic(auto, using(crate::proofs::Writing::Regions::fresh_zeros, crate::proofs::Writing::Regions::fresh_front, crate::proofs::Writing::Regions::region_too_large, crate::proofs::Planning::Causes::goes_nowhere))]
#[inline(always)]
pub(crate) fn resolve_next<W: Writer, A: Allocator + Drop, T: Archive>(
    writer: &mut W,
    alloc: A,
    value: &T,
    resolver: T::Resolver,
) -> Result<usize, Error>
    requires same_value { T.belongs value.now resolver }
    ensures { PutsRegion T.Archived.Portable (T.flat value.now resolver) W.Keys writer
        (W.position writer.old) result }
{
    let size = T::Archived::size();
    if writer.pos().checked_add(size).is_none() {
        return Err(Error::LayoutTooLarge);
    }
    if size > LOCAL_SIZE {
        return resolve_large(writer, alloc, value, resolver, size);
    }
    let mut region = [0; LOCAL_SIZE];
    resolve_region(writer, value, resolver, &mut region[..size])
}

// Resolves a value into zeros that stand at a position.
#[inline(always)]
pub(crate) fn resolve_into<T: Archive>(
    value: &T,
    resolver: T::Resolver,
    pos: usize,
    bytes: &mut [u8],
) -> Result<(), Error>
    requires zeroed { ZeroedPlace T.Archived.layout.size pos bytes.old }
    requires same_value { T.belongs value.now resolver }
    ensures { ResolvesBytes T.Archived.Portable pos bytes (T.flat value.now resolver) result }
{
    value.resolve(resolver, Place::new(pos, bytes))
}

// Resolves a value over bytes that are to stand at a position, whatever they were.
#[tactic(auto, using(crate::proofs::Writing::Regions::fresh_zeros))]
#[inline(always)]
fn resolve_over<T: Archive>(
    value: &T,
    resolver: T::Resolver,
    pos: usize,
    bytes: &mut [u8],
) -> Result<(), Error>
    requires sized { length bytes.old ≡ T.Archived.layout.size }
    requires ends { pos + T.Archived.layout.size < 2 ^ 64 }
    requires same_value { T.belongs value.now resolver }
    ensures { ResolvesBytes T.Archived.Portable pos bytes (T.flat value.now resolver) result }
{
    bytes.fill(0);
    resolve_into(value, resolver, pos, bytes)
}

// The same over a part of a block that is to stand at `pos`, from the offset `begin` on.
#[inline(always)]
fn resolve_in_block<T: Archive>(
    value: &T,
    resolver: T::Resolver,
    pos: usize,
    begin: usize,
    block: &mut [u8],
) -> Result<(), Error>
    requires inside { begin + T.Archived.layout.size ≤ length block.old }
    requires ends { pos + begin + T.Archived.layout.size < 2 ^ 64 }
    requires same_value { T.belongs value.now resolver }
    ensures { ResolvesPart T.Archived.Portable (T.flat value.now resolver) begin pos block.old
        block.new result }
{
    let end = begin + T::Archived::size();
    resolve_over(value, resolver, pos + begin, &mut block[begin..end])
}

// Resolves values one after another at the writer's end, as many as fit over the same block of bytes, which is then written. If each were written alone, the
// processor would wait for its narrow stores before it copies it. There is a resolver for each.
#[tactic(auto, using(crate::proofs::Writing::RunRegions::fills_start, crate::proofs::Writing::RunRegions::fills_more, crate::proofs::Writing::RunRegions::belongs_here, crate::proofs::Writing::RunRegions::place_here))]
#[inline(always)]
fn resolve_each<W: Writer, T: Archive, A: Allocator + Drop>(
    writer: &mut W,
    values: &[T],
    resolvers: Vec<T::Resolver, A>,
    block: &mut [u8],
) -> Result<(), Error>
    requires sized { T.Archived.layout.size ≤ length block.old }
    requires ends { length (W.state writer.old).bytes + length values.now * T.Archived.layout.size
        < 2 ^ 64 }
    requires same_values { EachBelongs T.belongs values.now resolvers.items }
    ensures { PutsElements T.Archived.Portable T.flat values.now resolvers.items W.Keys writer
        result }
{
    let size = T::Archived::size();
    let mut rest = values;
    let mut filled = 0;
    for resolver in resolvers {
        let Some((value, others)) = rest.split_first() else {
            unreachable!();
        };
        if let Err(error) = resolve_in_block(value, resolver, writer.pos(), filled, block) {
            return Err(by_words(error));
        }
        filled += size;
        rest = others;
        if size <= block.len() - filled {
            continue;
        }
        if let Err(error) = writer.write(&block[..filled]) {
            return Err(by_words(error));
        }
        filled = 0;
    }
    if filled == 0 {
        return Ok(());
    }
    if let Err(error) = writer.write(&block[..filled]) {
        return Err(by_words(error));
    }
    Ok(())
}

// The same over zeros in memory from `alloc`. It stands apart, as `resolve_large` does.
#[tactic(auto, using(crate::proofs::Planning::Causes::goes_nowhere))]
#[inline(never)]
fn resolve_each_large<W: Writer, A: Allocator + Drop, T: Archive, B: Allocator + Drop>(
    writer: &mut W,
    alloc: A,
    values: &[T],
    resolvers: Vec<T::Resolver, B>,
    size: usize,
) -> Result<(), Error>
    requires sized { size ≡ min T.Archived.layout.size 18446744073709551615 }
    requires ends { length (W.state writer.old).bytes + length values.now * size < 2 ^ 64 }
    requires same_values { EachBelongs T.belongs values.now resolvers.items }
    ensures { PutsElements T.Archived.Portable T.flat values.now resolvers.items W.Keys writer
        result }
{
    let mut region = vec![in alloc; 0u8; size]?;
    resolve_each(writer, values, resolvers, &mut region)
}

// Whether so many values of this size end at `usize::MAX` or below, where the first one stands at `pos`.
#[inline(always)]
pub(crate) fn run_fits(pos: usize, count: usize, size: usize) -> bool
    ensures { result ≡ true ↔ (pos + count * size < 2 ^ 64) }
{
    match count.checked_mul(size) {
        Some(sum) => pos.checked_add(sum).is_some(),
        None => false,
    }
}

/// The regions that every writer can take. rkyv 0.8.18 has the call in `WriterExt`.
pub trait ResolveExt: Writer {
    /// Resolves `value` into the next region, writes it, and returns its position in bytes. The
    /// caller must ensure that the writer is at a multiple of the type's alignment, as after
    /// `align_for`, and that the resolver is one of this value. Existing bytes stay, after a
    /// failure too.
    ///
    /// Errors:
    /// - `OutOfMemory`: memory from `alloc`, for a region above 64 bytes, is refused.
    /// - `LayoutTooLarge`: the region would end above `usize::MAX`.
    /// - those of `resolve` and of the writer.
    #[inline(always)]
    final fn resolve_aligned<A: Allocator + Drop, T: Archive>(
        &mut self,
        alloc: A,
        value: &T,
        resolver: T::Resolver,
    ) -> Result<usize, Error>
    where
        Self: Sized,
        requires aligned { Self.position self.old % T.Archived.layout.align ≡ 0 }
        requires same_value { T.belongs value.now resolver }
        ensures { PutsRegion T.Archived.Portable (T.flat value.now resolver) Self.Keys self
            (Self.position self.old) result }
    {
        resolve_next(self, alloc, value, resolver)
    }

    /// Resolves `values`, in order, into the next region, writes it, and returns its position in
    /// bytes. The caller must ensure that the writer is at a multiple of the type's alignment, and
    /// that the resolvers are those of the values. Existing bytes stay. rkyv 0.8.18 has it within a
    /// slice's `serialize_unsized`.
    ///
    /// Errors:
    /// - `OutOfMemory`: memory from `alloc`, for values above 64 bytes, is refused.
    /// - `LayoutTooLarge`: the region would end above `usize::MAX`.
    /// - those of `resolve` and of the writer.
    #[tactic(auto, using(crate::proofs::Writing::RunRegions::run_too_large, crate::proofs::Planning::Causes::goes_nowhere))]
    #[inline(always)]
    final fn resolve_slice_aligned<A: Allocator + Drop, T: Archive, B: Allocator + Drop>(
        &mut self,
        alloc: A,
        values: &[T],
        resolvers: Vec<T::Resolver, B>,
    ) -> Result<usize, Error>
    where
        Self: Sized,
        requires aligned { Self.position self.old % T.Archived.layout.align ≡ 0 }
        requires same_values { EachBelongs T.belongs values.now resolvers.items }
        ensures outcome { PutsElements T.Archived.Portable T.flat values.now resolvers.items
            Self.Keys self result }
        ensures position { IfOk result (λ p. p ≡ Self.position self.old) }
    {
        let pos = self.pos();
        let size = T::Archived::size();
        if !run_fits(pos, values.len(), size) {
            return Err(Error::LayoutTooLarge);
        }
        if values.is_empty() {
            return Ok(pos);
        }
        if size > LOCAL_SIZE {
            resolve_each_large(self, alloc, values, resolvers, size)?;
            return Ok(pos);
        }
        let mut block = [0u8; BLOCK];
        resolve_each(self, values, resolvers, &mut block)?;
        Ok(pos)
    }

    /// Writes a pointer to the region of `value` at `to`, and returns its position: an offset, and
    /// a length for a slice or text. The caller must ensure that the writer is at a multiple of
    /// four.
    ///
    /// Errors, nothing being written but by the writer's:
    /// - `LengthTooLarge`: exactly if the length is above 4,294,967,295.
    /// - `LayoutTooLarge`: the pointer would end above `usize::MAX`.
    /// - `IsizeOverflow`, `OffsetOverflow`: exactly if the offset doesn't fit.
    /// - those of the writer.
    #[tactic(auto, using(crate::proofs::Writing::Owned::size_by_length, crate::proofs::Planning::Causes::goes_nowhere, crate::proofs::Planning::Causes::goes_written, crate::proofs::Planning::Causes::goes_refused))]
    #[inline(always)]
    final fn resolve_unsized_aligned<T: ArchiveUnsized>(
        &mut self,
        value: &T,
        to: usize,
    ) -> Result<usize, Error>
    where
        Self: Sized,
        T::Archived: PortablePointee,
        ArchivedMetadata<T>: Drop,
        requires aligned { Self.position self.old % 4 ≡ 0 }
        ensures written { OnOk result (Pointed T.Archived.pointee (T.source_length value.now) to
            Self.position Self.Keys self) }
        ensures fits { OnOk result (FitsSigned w32 (distance (Self.position self.old) to)) }
        ensures held { OnOk result (T.source_length value.now ≤ 4294967295) }
        ensures position { IfOk result (λ p. p ≡ Self.position self.old) }
        ensures cause { IfErr result (λ e. HindersPointerAt (T.source_length value.now)
            (pointer_size T.Archived.pointee) (Self.position self.old) to e
            ⊎ ExplainsWrite Self.state self Self.position (pointer_size T.Archived.pointee) e) }
        ensures unchanged { IfErr result (λ e. HindersPointerAt (T.source_length value.now)
            (pointer_size T.Archived.pointee) (Self.position self.old) to e
            → Self.state self.new ≡ Self.state self.old) }
        ensures goes_on { GoesOn (Self.state self.old) (Self.state self.new) }
        ensures keys { KeepsKeys (Self.state self.old).states (Self.state self.new).states }
    {
        let metadata = value.archived_metadata()?;
        let count = T::Archived::pointer_metadata(&metadata) as FixedUsize;
        let is_long = T::Archived::has_length();
        let size = if is_long { 8 } else { 4 };
        let pos = self.pos();
        if pos.checked_add(size).is_none() {
            return Err(Error::LayoutTooLarge);
        }
        let mut pointer = [0; 8];
        emplace_pointer(is_long, to, count, pos, &mut pointer[..size])?;
        self.write(&pointer[..size])?;
        Ok(pos)
    }
}

impl<W: Writer> ResolveExt for W {}

/// As `serialize_one`, with memory for a large region from `alloc`.
#[inline(always)]
pub fn serialize_with<A: Allocator + Drop, S: Writer, T: Serialize<S>>(
    alloc: A,
    value: &T,
    serializer: &mut S,
) -> Result<usize, Error>
    ensures { WritesOne T.Archive T.Archived.Portable value.now S.Keys serializer result }
{
    let resolver = match value.serialize(serializer) {
        Ok(resolver) => resolver,
        Err(error) => return Err(by_words(error)),
    };
    serializer.align_for::<T::Archived>()?;
    serializer.resolve_aligned(alloc, value, resolver)
}

/// Writes what `value` owns, then the value as an aligned region, and returns its position in
/// bytes. Existing bytes and known keys stay, after a failure too. rkyv 0.8.18 has it as
/// `SerializeUnsized` of a value.
///
/// Errors:
/// - `OutOfMemory`: memory is refused.
/// - `LayoutTooLarge`: the region would end above `usize::MAX`.
/// - those of the value's `serialize` and `resolve`, and of the writer.
#[inline(always)]
pub fn serialize_one<S: Writer + ResolverAlloc, T: Serialize<S>>(
    value: &T,
    serializer: &mut S,
) -> Result<usize, Error>
    ensures { WritesOne T.Archive T.Archived.Portable value.now S.Keys serializer result }
{
    let alloc = serializer.resolver_alloc();
    serialize_with(alloc, value, serializer)
}
