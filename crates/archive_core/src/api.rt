//! Whole archives: written, checked, read back and edited where they lie. The calls are those of rkyv 0.8.18, with an allocator handed in. Positions are in bytes from the
//! buffer's first one.

ghost use Rattle.std.specs.Prelude.{◌≡◌, ◌⊎◌, ◌≤◌, ◌-◌, None, length, IfOk, OnOk, IfErr, IsTrue, ℕ, []};
ghost use Rattle.archive_check.specs.context.FreshContexts.{KeepsLevels, IsWhole};
ghost use Rattle.archive_check.specs.context.Pushes.{FewPushed};
ghost use Rattle.archive_check.specs.Archives.{IsAnswerable, Answers, root_in};
ghost use Rattle.archive_check.specs.declared.format.error.Error.TheVariants.{OutOfMemory};
ghost use Rattle.archive_check.specs.Shape.{one};
ghost use Rattle.archive_core.specs.WholeArchives.{AppendsArchive, AppendsTaken, MakesArchive, ReadsArchive, LacksSchema, AnswersRoot};
ghost use Rattle.archive_types.specs.Causes.{IsRegionRefused};
ghost use Rattle.archive_types.specs.Plans.{unshared};
ghost use Rattle.archive_types.specs.Words.ReadBack.{ViewReadsAs};
ghost use Rattle.archive_write.specs.Written.{GoesOn};
ghost use Rattle.archive_schema.specs.ContextAnswers.{AnswersIn};

mod editing;
mod kept;
mod using;

use crate::pooling::Pool;
pub use archive_check::context::HighValidator;
use archive_check::context::{ArchiveContext, ArchiveValidator, SharedContext};
use archive_check::format::error::Error;
use archive_check::self_check::{SelfCheck, check_root};
pub use archive_inspect::explain::{explain, explain_by};
use archive_schema::shape::Schema;
use archive_types::ser::{Serializer, Writer, serialize_one};
use archive_types::sharing::Share;
use archive_types::traits::{Archive, Deserialize, Entries, Keys, Portable, Serialize};
use archive_types::view::{RawView, Ref};
use core::mem::replace_with;
pub use editing::{access_mut, access_pos_mut};
pub use kept::Access;
use std::alloc::{Allocator, Global};
pub use using::{serialize_using, to_bytes_in_with_alloc, to_bytes_with_alloc};

/// The serializer of `to_bytes` and its kin: a writer, an allocator and shared keys. As in rkyv
/// 0.8.18.
pub type HighSerializer<W, A> = Serializer<W, A, Share>;

/// The deserializer for `from_bytes` if values of one type are shared: a pool. As in rkyv 0.8.18.
pub type HighDeserializer<T> = Pool<T>;

/// The position of the root of an archive of `len` bytes: `len` less the size of a `T`, or 0 if
/// there are fewer bytes.
pub fn root_position<T: Portable>(len: usize) -> usize
    ensures { result ≡ len - T.layout.size }
{
    len.saturating_sub(T::size())
}

// The writer behind an archive of `value`, or behind what was written of one, and the root's position. Resolvers take their memory from `resolvers`.
#[inline(always)]
fn serialize_whole<
    W: Writer + Drop,
    A: Allocator + Copy + Drop,
    T: Serialize<HighSerializer<W, A>>,
>(alloc: Global, resolvers: A, value: &T, writer: W) -> (W, Result<usize, Error>)
    ensures { AppendsArchive T.Archive T.Archived.Portable value.now (W.state writer)
        (W.state result.0) result.1 }
{
    let mut serializer = Serializer::new(writer, resolvers, Share::new(alloc));
    let root = serialize_one(value, &mut serializer);
    (serializer.into_writer(), root)
}

/// Appends an archive of `value` to what `writer` holds, and returns the writer. Memory comes from
/// `alloc`. After a failure the writer is gone: lend it to `to_bytes_into` to know what it holds
/// then.
///
/// Errors:
/// - `OutOfMemory`: memory is refused.
/// - `BufferOverflow`, `WriterFailed`: the writer's.
/// - `LayoutTooLarge`: the root would end above `usize::MAX`.
/// - an error caused by the value's parts.
#[inline(always)]
pub fn to_bytes_in<W: Writer + Drop, T: Serialize<HighSerializer<W, Global>>>(
    alloc: Global,
    value: &T,
    writer: W,
) -> Result<W, Error>
    ensures { AppendsTaken T.Archive T.Archived.Portable value.now W.Keys writer result }
{
    to_bytes_in_with_alloc(alloc, value, writer, alloc)
}

// Appends an archive of the value to what a writer holds, with memory from the allocator that comes with it.
#[inline(always)]
fn append_whole<W: Writer + Drop, T: Serialize<HighSerializer<W, Global>>>(
    writer: W,
    source: (Global, &T),
) -> (W, Result<usize, Error>)
    ensures { AppendsArchive T.Archive T.Archived.Portable source.entry.1.now (W.state writer)
        (W.state result.0) result.1 }
{
    let (alloc, value) = source;
    serialize_whole(alloc, alloc, value, writer)
}

/// Appends an archive of `value` to what `writer` holds, and returns its root's position in bytes.
/// Memory comes from `alloc`. Existing bytes stay, after a failure too, and an error of the writer
/// is explained by what it holds then. Fails as `to_bytes_in` does.
#[inline(always)]
pub fn to_bytes_into<W: Writer + Drop, T: Serialize<HighSerializer<W, Global>>>(
    alloc: Global,
    value: &T,
    writer: &mut W,
) -> Result<usize, Error>
    ensures { AppendsArchive T.Archive T.Archived.Portable value.now (W.state writer.old)
        (W.state writer.new) result }
{
    replace_with(writer, (alloc, value), append_whole::<W, T>)
}

/// Writes an archive of `value`, with its root at the end. Memory comes from `alloc`.
///
/// ```
/// let value = String::from_str(rt.alloc(), "hello world")?;
/// let bytes = to_bytes(rt.alloc(), &value)?;
/// ```
///
/// Errors:
/// - `OutOfMemory`: memory is refused.
/// - `LayoutTooLarge`: the root would end above `usize::MAX`.
/// - an error caused by the value's parts.
#[inline(always)]
pub fn to_bytes<T: Serialize<HighSerializer<Vec<u8>, Global>>>(
    alloc: Global,
    value: &T,
) -> Result<Vec<u8>, Error>
    ensures { MakesArchive T.Archive T.Archived.Portable value.now (λ bytes. bytes.items) result }
{
    to_bytes_with_alloc(alloc, value, alloc)
}

// `check_pos_with_context` by the schema of `T`, which is compiled for this one check. It is a call,
// so that callers have little in line besides the check of a type that validates itself.
#[inline(never)]
fn check_by_schema<T: Portable, C: ArchiveContext + SharedContext>(
    alloc: Global,
    bytes: &[u8],
    pos: usize,
    context: &mut C,
) -> Result<(), Error>
    requires { (C.state context.old).end ≤ length bytes.now }
    ensures meaning { IfErr result (LacksSchema T.Portable) }
    ensures answer { AnswersIn T.definitions T.shape C.Context context bytes.now pos result }
    ensures of_check { IfErr result (IsAnswerable T.shape T.definitions
        (C.state context.old).depth) }
    ensures levels { OnOk result (KeepsLevels (C.state context.old) (C.state context.new)) }
    ensures few_subtrees { FewPushed (C.state context.old) (C.state context.new) }
{
    prove!(bytes.len() <= usize::MAX);
    let schema = Schema::of::<T>(alloc)?;
    schema.check(bytes, pos, context)
}

/// Validates an archive of a `T` with its root at `pos`. The caller must ensure that the context's
/// range ends in the buffer. In a fresh context for these bytes the result is exact. In any context
/// the check enters at most one region and one for each four bytes of the context's range, so 1 + n
/// / 4 in n bytes; and if it succeeds with levels left, levels are left. A type that validates
/// itself takes no memory; else it comes from `alloc`.
///
/// Errors:
/// - `OutOfMemory`: memory is refused.
/// - `ShapeConflict`, `RecursiveLayout`: the definitions of `T` have no meaning; no byte is looked
///   at.
/// - in a fresh context the first fault of the bytes, in the order that docs/FORMAT.md gives; in
///   any with levels left an error that a check can find.
#[inline(always)]
pub fn check_pos_with_context<T: Portable, C: ArchiveContext + SharedContext>(
    alloc: Global,
    bytes: &[u8],
    pos: usize,
    context: &mut C,
) -> Result<(), Error>
    requires { (C.state context.old).end ≤ length bytes.now }
    ensures meaning { IfErr result (LacksSchema T.Portable) }
    ensures answer { AnswersIn T.definitions T.shape C.Context context bytes.now pos result }
    ensures of_check { IfErr result (IsAnswerable T.shape T.definitions
        (C.state context.old).depth) }
    ensures levels { OnOk result (KeepsLevels (C.state context.old) (C.state context.new)) }
    ensures few_subtrees { FewPushed (C.state context.old) (C.state context.new) }
{
    if T::Check::is_direct() {
        return check_root::<T, C>(bytes, pos, context);
    }
    check_by_schema::<T, C>(alloc, bytes, pos, context)
}

// `access_pos` of a type that validates itself. Its check meets no shared position, so the context
// has no place for one: to make and to drop that would take longer than the check of a number.
#[inline(always)]
fn access_direct<'a, T: Portable>(bytes: &'a [u8], pos: usize) -> Result<Ref<'a, T>, Error>
    requires { IsTrue T.Check.direct }
    ensures answer { Answers T.definitions bytes.now None pos T.shape result }
    ensures buffer { IfOk result (λ r. r.bytes.now ≡ bytes.now) }
    ensures position { IfOk result (λ r. r.pos ≡ pos) }
    ensures whole { IfOk result (λ r. r.len ≡ 0) }
{
    let mut context = ArchiveValidator::new(bytes);
    if let Err(error) = check_root::<T, ArchiveValidator<'_>>(bytes, pos, &mut context) {
        return Err(error);
    }
    Ok(Ref::at(RawView { bytes, pos, len: 0 }))
}

// `access_pos` by the schema of `T`. It is a call, as `check_by_schema` is.
#[inline(never)]
fn access_by_schema<'a, T: Portable>(
    alloc: Global,
    bytes: &'a [u8],
    pos: usize,
) -> Result<Ref<'a, T>, Error>
    ensures answer { Answers T.definitions bytes.now None pos T.shape result }
    ensures buffer { IfOk result (λ r. r.bytes.now ≡ bytes.now) }
    ensures position { IfOk result (λ r. r.pos ≡ pos) }
    ensures whole { IfOk result (λ r. r.len ≡ 0) }
{
    let mut context = HighValidator::new(alloc, bytes);
    access_pos_with_context::<T, HighValidator<'_>>(alloc, bytes, pos, &mut context)
}

/// Validates an archive of a `T` with its root at `pos`, and returns the root's view. Memory comes
/// from `alloc`.
///
/// Errors:
/// - `OutOfMemory`: memory is refused.
/// - `ShapeConflict`, `RecursiveLayout`: the definitions of `T` have no meaning; no byte is looked
///   at.
/// - the first fault of the bytes, in the order that docs/FORMAT.md gives.
#[inline(always)]
pub fn access_pos<'a, T: Portable>(
    alloc: Global,
    bytes: &'a [u8],
    pos: usize,
) -> Result<Ref<'a, T>, Error>
    ensures answer { Answers T.definitions bytes.now None pos T.shape result }
    ensures buffer { IfOk result (λ r. r.bytes.now ≡ bytes.now) }
    ensures position { IfOk result (λ r. r.pos ≡ pos) }
    ensures whole { IfOk result (λ r. r.len ≡ 0) }
{
    if T::Check::is_direct() {
        return access_direct(bytes, pos);
    }
    access_by_schema(alloc, bytes, pos)
}

/// Validates an archive of a `T` with its root at the end, and returns the root's view. Memory
/// comes from `alloc`. Fails as `access_pos` does.
///
/// ```
/// let view = access::<ArchivedString>(rt.alloc(), bytes.as_slice())?;
/// println!(rt; "{}", view.as_str())?;
/// ```
#[inline(always)]
pub fn access<'a, T: Portable>(alloc: Global, bytes: &'a [u8]) -> Result<Ref<'a, T>, Error>
    ensures answer { Answers T.definitions bytes.now None (root_in bytes.now T.layout) T.shape
        result }
    ensures buffer { IfOk result (λ r. r.bytes.now ≡ bytes.now) }
    ensures position { IfOk result (λ r. r.pos ≡ root_in bytes.now T.layout) }
    ensures whole { IfOk result (λ r. r.len ≡ 0) }
{
    access_pos(alloc, bytes, root_position::<T>(bytes.len()))
}

/// Validates an archive of a `T` with its root at `pos`, and returns the root's view. The caller
/// must ensure that the context is a fresh one of these bytes. Memory comes from `alloc`. Fails as
/// `access_pos` does, or with `ExceededMaximumSubtreeDepth` if a region is deeper than the context
/// allows.
#[inline(always)]
pub fn access_pos_with_context<'a, T: Portable, C: ArchiveContext + SharedContext>(
    alloc: Global,
    bytes: &'a [u8],
    pos: usize,
    context: &mut C,
) -> Result<Ref<'a, T>, Error>
    requires { IsWhole (C.state context.old) (C.positions context.old) bytes.now }
    ensures answer { Answers T.definitions bytes.now (C.state context.old).depth pos T.shape
        result }
    ensures buffer { IfOk result (λ r. r.bytes.now ≡ bytes.now) }
    ensures position { IfOk result (λ r. r.pos ≡ pos) }
    ensures whole { IfOk result (λ r. r.len ≡ 0) }
    ensures levels { OnOk result (KeepsLevels (C.state context.old) (C.state context.new)) }
    ensures few_subtrees { FewPushed (C.state context.old) (C.state context.new) }
{
    if let Err(error) = check_pos_with_context::<T, C>(alloc, bytes, pos, context) {
        return Err(error);
    }
    Ok(Ref::at(RawView { bytes, pos, len: 0 }))
}

/// Validates an archive of a `T` with its root at the end, and returns the root's view. The caller
/// must ensure that the context is a fresh one of these bytes. Memory comes from `alloc`. Fails as
/// `access_pos_with_context` does.
#[inline(always)]
pub fn access_with_context<'a, T: Portable, C: ArchiveContext + SharedContext>(
    alloc: Global,
    bytes: &'a [u8],
    context: &mut C,
) -> Result<Ref<'a, T>, Error>
    requires { IsWhole (C.state context.old) (C.positions context.old) bytes.now }
    ensures answer { AnswersRoot T.Portable bytes.now (C.state context.old).depth result }
    ensures buffer { IfOk result (λ r. r.bytes.now ≡ bytes.now) }
    ensures position { IfOk result (λ r. r.pos ≡ root_in bytes.now T.layout) }
    ensures whole { IfOk result (λ r. r.len ≡ 0) }
    ensures levels { OnOk result (KeepsLevels (C.state context.old) (C.state context.new)) }
    ensures few_subtrees { FewPushed (C.state context.old) (C.state context.new) }
{
    access_pos_with_context(alloc, bytes, root_position::<T>(bytes.len()), context)
}

/// Validates an archive of a `T`, whose root lies at the end, and reads its value back. This is the
/// value that the archive denotes, its shared values named by their positions. `deserializer` is
/// `()` if nothing is shared, else one that knows no position yet. Memory comes from `alloc`.
///
/// Errors, besides those of `access`:
/// - `CyclicDeserialize`: only if a shared position is met that is still being read; so never if
///   the type shares nothing.
#[inline(always)]
pub fn from_bytes<T: Archive, D: Entries>(
    alloc: Global,
    bytes: &[u8],
    deserializer: &mut D,
) -> Result<T, Error>
where
    T::Archived: Deserialize<T, D>,
    ensures { ReadsArchive T.Archived.Portable bytes.now D.Entries deserializer T.Archive result }
{
    let root = access::<T::Archived>(alloc, bytes)?;
    <T::Archived as Deserialize<T, D>>::deserialize(alloc, root, deserializer)
}

/// Reads back what `view` shows, with a `deserializer` that may know shared positions of this
/// buffer. If it names each value that it has finished by its position, the result means what the
/// archive says there. Memory comes from `alloc`.
///
/// Errors:
/// - `OutOfMemory`: memory is refused.
/// - `CyclicDeserialize`: only if a shared position is met that is still being read, from before
///   this call too.
#[inline(always)]
pub fn deserialize_using<T: Archive, U: Deserialize<T, D>, D: Entries>(
    alloc: Global,
    view: Ref<'_, U>,
    deserializer: &mut D,
) -> Result<T, Error>
    ensures { ViewReadsAs view.entry D.Entries deserializer T.Archive result }
{
    U::deserialize(alloc, view, deserializer)
}

/// Reads back what `view` shows. `deserializer` is `()` if nothing is shared, else one that knows
/// no position yet. The result means what the archive says there, its shared values named by their
/// positions. Memory comes from `alloc`.
///
/// Errors:
/// - `OutOfMemory`: memory is refused.
/// - `CyclicDeserialize`: only if a shared position is met that is still being read.
#[inline(always)]
pub fn deserialize<T: Archive, U: Deserialize<T, D>, D: Entries>(
    alloc: Global,
    view: Ref<'_, U>,
    deserializer: &mut D,
) -> Result<T, Error>
    ensures { ViewReadsAs view.entry D.Entries deserializer T.Archive result }
{
    deserialize_using(alloc, view, deserializer)
}
