// Slices of values that are copied: their bytes are written a piece at a time.

ghost use Rattle.std.specs.Prelude.{◌≡◌, ◌+◌, ◌*◌, ◌^◌, ◌++◌, ◌<◌, ◌≤◌, IfOk, OnOk, IfErr, IsOk, IsErrOf, IsTrue, IsFalse, length, take, Some};
ghost use Rattle.archive_check.specs.WriterState.{KeepsKeys};
ghost use Rattle.archive_types.specs.Copies.{each_bytes, copies_from, EachCopied, IsCopyRefused, IsWriteRefused, OwnsNothing, TakesCopy, copies_to};
ghost use Rattle.archive_write.specs.Writes.{ExplainsWrite};
ghost use Rattle.archive_write.specs.Written.{GoesOn};
ghost use Rattle.archive_types.specs.Words.BulkCopies.{AddedAligned, CopiesInBulk};
ghost use Rattle.archive_types.specs.Words.WrittenPointers.{BytesAdded};
ghost use Rattle.archive_types.specs.Outcomes.{WritesElements, CopiesElements};

use crate::ser::run_fits;
use crate::traits::{Copied, CopiedSource, Keys};
use archive_check::format::error::Error;
use archive_write::ser::{Writer, WriterExt};
use core::mem::replace_with;

/// The most bytes that are written at once, and that a copied value has.
pub(crate) const PIECE: usize = 1024;

/// As many bytes as values have whose buffer is cleared for them alone: one of `PIECE` bytes would take most of their time.
const SHORT: usize = 64;

/// The most bytes that are written at once if the writer has the room at hand; while there are
/// enough, the second.
const BLOCK: usize = 4096;

const LARGE_BLOCK: usize = 16_384;

// Writes the bytes of values, which take no more than `bytes`. Nothing is written where they have none.
#[tactic(auto, using(crate::proofs::Planning::Causes::goes_written, crate::proofs::Planning::Causes::goes_refused, crate::proofs::Planning::Causes::goes_nowhere))]
#[inline(always)]
fn write_piece<W: Writer, T: Copied>(
    values: &[T],
    bytes: &mut [u8],
    writer: &mut W,
) -> Result<(), Error>
    requires sized { length bytes.old ≡ length values.now * T.CopiedAs.layout.size }
    ensures copied { OnOk result (BytesAdded (each_bytes T.copied_bytes values.now) W.Keys writer) }
    ensures read { EachCopied T.CopiedAs.definitions T.CopiedAs.shape T.CopiedAs.layout.size
        T.copied_meaning T.copied_bytes values.now }
    ensures goes_on { GoesOn (W.state writer.old) (W.state writer.new) }
    ensures refused { IfErr result (ExplainsWrite W.state writer W.position
        (length values.now * T.CopiedAs.layout.size)) }
    ensures memory { IsErrOf result Error.OutOfMemory → IsTrue W.takes_memory }
    ensures keys { KeepsKeys (W.state writer.old).states (W.state writer.new).states }
{
    T::copy_into(values, bytes);
    if bytes.is_empty() {
        return Ok(());
    }
    writer.write(bytes)
}

// How many values of so many bytes are written at once, of `count` that are left: as many times `together` as fit `room` bytes.
#[tactic(auto, using(crate::proofs::Copying::Copies::fits_piece, crate::proofs::Copying::Copies::some_fit))]
#[inline(always)]
fn count_at_once(size: usize, together: usize, count: usize, room: usize) -> usize
    requires joined { 0 < together }
    requires small { together * size ≤ room }
    requires some { 0 < count }
    ensures some { 0 < result }
    ensures few { result * size ≤ room }
    ensures within { result ≤ count }
{
    if size == 0 {
        return count;
    }
    count.min(room / (together * size) * together)
}

// Writes the bytes of values, which have so many each, as many times `together` of them at once as fit `N` bytes.
#[inline(always)]
fn copy_by<W: Writer, T: Copied, const N: usize>(
    values: &[T],
    size: usize,
    together: usize,
    writer: &mut W,
) -> Result<(), Error>
    requires same { size ≡ T.CopiedAs.layout.size }
    requires joined { 0 < together }
    requires small { together * size ≤ N }
    requires few { N ≤ 1024 }
    ensures copied { OnOk result (BytesAdded (each_bytes T.copied_bytes values.now) W.Keys writer) }
    ensures read { OnOk result (EachCopied T.CopiedAs.definitions T.CopiedAs.shape size
        T.copied_meaning T.copied_bytes values.now) }
    ensures refused { IfErr result (IsWriteRefused (W.position writer.old
        + length values.now * size) (W.state writer.old) (W.state writer.new)) }
    ensures memory { IsErrOf result Error.OutOfMemory → IsTrue W.takes_memory }
    ensures goes_on { GoesOn (W.state writer.old) (W.state writer.new) }
    ensures keys { KeepsKeys (W.state writer.old).states (W.state writer.new).states }
{
    let mut piece = [0; N];
    let mut rest = values;
    while !rest.is_empty() {
        let count = count_at_once(size, together, rest.len(), N);
        let (now, later) = rest.split_at(count);
        write_piece(now, &mut piece[..count * size], writer)?;
        rest = later;
    }
    Ok(())
}

// Writes the bytes of values, which take no more than `bytes`, where the writer has the room for them at hand.
#[tactic(auto, using(crate::proofs::Planning::Causes::goes_if))]
#[inline(always)]
fn write_block<W: Writer, T: Copied>(values: &[T], bytes: &mut [u8], writer: &mut W) -> bool
    requires sized { length bytes.old ≡ length values.now * T.CopiedAs.layout.size }
    ensures copied { IsTrue result → BytesAdded (each_bytes T.copied_bytes values.now) W.Keys
        writer }
    ensures read { EachCopied T.CopiedAs.definitions T.CopiedAs.shape T.CopiedAs.layout.size
        T.copied_meaning T.copied_bytes values.now }
    ensures goes_on { GoesOn (W.state writer.old) (W.state writer.new) }
    ensures keys { KeepsKeys (W.state writer.old).states (W.state writer.new).states }
    ensures untouched { IsFalse result → W.state writer.new ≡ W.state writer.old }
{
    T::copy_into(values, bytes);
    writer.write_at_once(bytes)
}

// Writes blocks of whole pieces, `N` bytes at most, while the writer has the room at hand; answers how many values were written. It asks for the size itself,
// so that a block has a length that is known when the program is compiled: then its filling and its writing become one copy of memory.
#[inline(always)]
fn copy_blocks<W: Writer, T: Copied, const N: usize>(values: &[T], writer: &mut W) -> usize
    requires large { 1024 ≤ N }
    requires few { N ≤ 16384 }
    ensures within { result ≤ length values.now }
    ensures copied { BytesAdded (each_bytes T.copied_bytes (take result values.now)) W.Keys writer }
    ensures read { EachCopied T.CopiedAs.definitions T.CopiedAs.shape T.CopiedAs.layout.size
        T.copied_meaning T.copied_bytes (take result values.now) }
    ensures goes_on { GoesOn (W.state writer.old) (W.state writer.new) }
    ensures keys { KeepsKeys (W.state writer.old).states (W.state writer.new).states }
{
    let size = T::copied_size();
    let piece = count_at_once(size, 1, PIECE, PIECE);
    let count = count_at_once(size, piece, N, N);
    if values.len() < count {
        return 0;
    }
    let mut block = [0; N];
    let mut done = 0;
    while count <= values.len() - done {
        let next = &values[done..done + count];
        if !write_block(next, &mut block[..count * size], writer) {
            return done;
        }
        done += count;
    }
    done
}

// Writes as many of the values by blocks as the writer has the room for at hand; answers how many.
#[inline(always)]
fn copy_at_once<W: Writer, T: Copied>(values: &[T], writer: &mut W) -> usize
    ensures within { result ≤ length values.now }
    ensures copied { BytesAdded (each_bytes T.copied_bytes (take result values.now)) W.Keys writer }
    ensures read { EachCopied T.CopiedAs.definitions T.CopiedAs.shape T.CopiedAs.layout.size
        T.copied_meaning T.copied_bytes (take result values.now) }
    ensures goes_on { GoesOn (W.state writer.old) (W.state writer.new) }
    ensures keys { KeepsKeys (W.state writer.old).states (W.state writer.new).states }
{
    let large = copy_blocks::<W, T, LARGE_BLOCK>(values, writer);
    large + copy_blocks::<W, T, BLOCK>(&values[large..], writer)
}

// The writer behind them, and how many they are. It stands apart, so that its callers stay small, and takes the writer itself: one that is lent to a call
// lies in memory.
#[inline(never)]
fn with_blocks<W: Writer, T: Copied>(mut writer: W, values: &[T]) -> (W, usize)
    ensures within { result.1 ≤ length values.now }
    ensures copied { (W.state result.0).bytes ≡ (W.state writer).bytes
        ++ each_bytes T.copied_bytes (take result.1 values.now) }
    ensures read { EachCopied T.CopiedAs.definitions T.CopiedAs.shape T.CopiedAs.layout.size
        T.copied_meaning T.copied_bytes (take result.1 values.now) }
    ensures goes_on { GoesOn (W.state writer) (W.state result.0) }
    ensures keys { KeepsKeys (W.state writer).states (W.state result.0).states }
{
    let done = copy_at_once(values, &mut writer);
    (writer, done)
}

// The same of values that may be written one by one, where they have as many bytes as a block; else nothing is written.
#[inline(always)]
fn copy_first<W: Writer, T: Copied>(
    values: &[T],
    size: usize,
    together: usize,
    writer: &mut W,
) -> usize
    requires counted { length values.now * size < 2 ^ 64 }
    ensures within { result ≤ length values.now }
    ensures copied { BytesAdded (each_bytes T.copied_bytes (take result values.now)) W.Keys writer }
    ensures read { EachCopied T.CopiedAs.definitions T.CopiedAs.shape T.CopiedAs.layout.size
        T.copied_meaning T.copied_bytes (take result values.now) }
    ensures goes_on { GoesOn (W.state writer.old) (W.state writer.new) }
    ensures keys { KeepsKeys (W.state writer.old).states (W.state writer.new).states }
{
    if together == 1 && BLOCK <= values.len() * size {
        return replace_with(writer, values, with_blocks::<W, T>);
    }
    0
}

// Writes the bytes of values, which have so many each: the first by blocks where they may be, and what is left by pieces.
#[inline(always)]
fn copy_long<W: Writer, T: Copied>(
    values: &[T],
    size: usize,
    together: usize,
    writer: &mut W,
) -> Result<(), Error>
    requires same { size ≡ T.CopiedAs.layout.size }
    requires joined { 0 < together }
    requires small { together * size ≤ 1024 }
    requires counted { length values.now * size < 2 ^ 64 }
    ensures copied { OnOk result (BytesAdded (each_bytes T.copied_bytes values.now) W.Keys writer) }
    ensures read { OnOk result (EachCopied T.CopiedAs.definitions T.CopiedAs.shape size
        T.copied_meaning T.copied_bytes values.now) }
    ensures refused { IfErr result (IsWriteRefused (W.position writer.old
        + length values.now * size) (W.state writer.old) (W.state writer.new)) }
    ensures memory { IsErrOf result Error.OutOfMemory → IsTrue W.takes_memory }
    ensures goes_on { GoesOn (W.state writer.old) (W.state writer.new) }
    ensures keys { KeepsKeys (W.state writer.old).states (W.state writer.new).states }
{
    let done = copy_first(values, size, together, writer);
    copy_by::<W, T, PIECE>(&values[done..], size, together, writer)
}

// Writes the bytes of values, which have so many each, as many times `together` of them at once as fit 1,024 bytes.
#[inline(always)]
fn copy_pieces<W: Writer, T: Copied>(
    values: &[T],
    size: usize,
    together: usize,
    writer: &mut W,
) -> Result<(), Error>
    requires same { size ≡ T.CopiedAs.layout.size }
    requires joined { 0 < together }
    requires small { together * size ≤ 1024 }
    requires counted { length values.now * size < 2 ^ 64 }
    ensures copied { OnOk result (BytesAdded (each_bytes T.copied_bytes values.now) W.Keys writer) }
    ensures read { OnOk result (EachCopied T.CopiedAs.definitions T.CopiedAs.shape size
        T.copied_meaning T.copied_bytes values.now) }
    ensures refused { IfErr result (IsWriteRefused (W.position writer.old
        + length values.now * size) (W.state writer.old) (W.state writer.new)) }
    ensures memory { IsErrOf result Error.OutOfMemory → IsTrue W.takes_memory }
    ensures goes_on { GoesOn (W.state writer.old) (W.state writer.new) }
    ensures keys { KeepsKeys (W.state writer.old).states (W.state writer.new).states }
{
    if together * size <= SHORT && values.len() * size <= SHORT {
        return copy_by::<W, T, SHORT>(values, size, together, writer);
    }
    copy_long(values, size, together, writer)
}

// Writes the bytes of values as the next region, where the writer stands at a multiple of their alignment.
#[inline(always)]
fn copy_aligned<W: Writer, T: Copied>(
    values: &[T],
    size: usize,
    together: usize,
    writer: &mut W,
) -> Result<usize, Error>
    requires same { size ≡ T.CopiedAs.layout.size }
    requires joined { 0 < together }
    requires small { together * size ≤ 1024 }
    ensures copied { OnOk result (BytesAdded (each_bytes T.copied_bytes values.now) W.Keys writer) }
    ensures read { OnOk result (EachCopied T.CopiedAs.definitions T.CopiedAs.shape size
        T.copied_meaning T.copied_bytes values.now) }
    ensures position { IfOk result (λ p. p ≡ W.position writer.old) }
    ensures refused { IfErr result (IsCopyRefused (W.position writer.old + length values.now * size)
        (W.state writer.old) (W.state writer.new)) }
    ensures memory { IsErrOf result Error.OutOfMemory → IsTrue W.takes_memory }
    ensures goes_on { GoesOn (W.state writer.old) (W.state writer.new) }
    ensures keys { KeepsKeys (W.state writer.old).states (W.state writer.new).states }
{
    let pos = writer.pos();
    if !run_fits(pos, values.len(), size) {
        return Err(Error::LayoutTooLarge);
    }
    copy_pieces(values, size, together, writer)?;
    Ok(pos)
}

// Writes zeros up to the values' alignment, and then the bytes of all, `together` of them always in one piece.
#[inline(always)]
fn copy_together<S: Writer + Keys, T: Copied>(
    values: &[T],
    size: usize,
    together: usize,
    serializer: &mut S,
) -> Result<usize, Error>
    requires same { size ≡ T.CopiedAs.layout.size }
    requires owns_nothing { (v : T) → OwnsNothing T.CopiedAs.definitions T.CopiedAs.shape
        (T.copied_keys v) (T.copied_meaning v) }
    requires joined { 0 < together }
    requires small { together * size ≤ 1024 }
    ensures outcome { WritesElements T.copied_keys T.copied_meaning T.CopiedAs.Portable values.now
        S.Keys serializer result }
    ensures copied { OnOk result (AddedAligned T.CopiedAs.layout
        (each_bytes T.copied_bytes values.now) S.Keys serializer) }
    ensures read { OnOk result (EachCopied T.CopiedAs.definitions T.CopiedAs.shape size
        T.copied_meaning T.copied_bytes values.now) }
    ensures position { IfOk result (λ p. p ≡ copies_from T.CopiedAs.layout
        (S.position serializer.old)) }
    ensures cause { IfErr result (IsCopyRefused (copies_to T.CopiedAs.layout (length values.now)
        (S.position serializer.old)) (S.state serializer.old) (S.state serializer.new)) }
    ensures memory { IsErrOf result Error.OutOfMemory → IsTrue S.takes_memory }
    ensures succeeds { TakesCopy (IsTrue S.takes_memory)
        (copies_to T.CopiedAs.layout (length values.now) (S.position serializer.old))
        (S.state serializer.old) (S.state serializer.new) → IsOk result }
    ensures keys { OnOk result (KeepsKeys (S.state serializer.old).states
        (S.state serializer.new).states) }
{
    serializer.align_for_run::<T::CopiedAs>(values.len())?;
    copy_aligned(values, size, together, serializer)
}

/// Writes zeros up to the values' alignment, then the bytes of all, in pieces of at most 1,024
/// bytes or blocks of pieces; returns the position in bytes. Takes no memory of its own. Existing
/// bytes stay, after a failure too. rkyv 0.8.18 has it within `serialize_unsized` of a slice.
///
/// Errors:
/// - `LayoutTooLarge`: the region would end above `usize::MAX`.
/// - those of the writer; over a `Buffer` exactly if the bytes don't fit.
#[inline(always)]
pub fn copy_slice<S: Writer + Keys, T: CopiedSource>(
    values: &[T],
    serializer: &mut S,
) -> Result<usize, Error>
    ensures outcome { WritesElements T.keys T.meaning T.Archived.Portable values.now S.Keys
        serializer result }
    ensures copied { OnOk result (AddedAligned T.Archived.layout
        (each_bytes T.copied_bytes values.now) S.Keys serializer) }
    ensures position { IfOk result (λ p. p ≡ copies_from T.Archived.layout
        (S.position serializer.old)) }
    ensures cause { IfErr result (IsCopyRefused (copies_to T.Archived.layout (length values.now)
        (S.position serializer.old)) (S.state serializer.old) (S.state serializer.new)) }
    ensures memory { IsErrOf result Error.OutOfMemory → IsTrue S.takes_memory }
    ensures succeeds { TakesCopy (IsTrue S.takes_memory)
        (copies_to T.Archived.layout (length values.now) (S.position serializer.old))
        (S.state serializer.old) (S.state serializer.new) → IsOk result }
{
    let size = T::copied_size();
    copy_together(values, size, 1, serializer)
}

/// As `copy_slice`, with `together` values always in one piece, as those of an array. Writes
/// nothing and returns `None` if these have more than 1,024 bytes. It is the `serialize_copied` of
/// a type of yours.
#[inline(always)]
pub fn copy_groups<S: Writer + Keys, T: Copied>(
    values: &[T],
    together: usize,
    serializer: &mut S,
) -> Result<Option<usize>, Error>
    ensures outcome { CopiesElements T.copied_keys T.copied_meaning T.CopiedAs.Portable values.now
        S.Keys serializer result }
    ensures exact { CopiesInBulk (Some T.copied_bytes) together T.CopiedAs.layout values.now S.Keys
        serializer S.takes_memory result }
{
    let size = T::copied_size();
    let together = together.max(1);
    if together.saturating_mul(size) > PIECE {
        return Ok(None);
    }
    let pos = copy_together(values, size, together, serializer)?;
    Ok(Some(pos))
}

/// Writes arrays of values that are copied, as `copy_slice` writes the values of all: zeros up to
/// their alignment, and then the bytes of each array, one after another; returns the position of
/// the first. The caller must ensure that the values can be counted. Fails as `copy_slice` does.
#[inline(always)]
pub fn copy_arrays<S: Writer + Keys, T: CopiedSource, const N: usize>(
    arrays: &[[T; N]],
    serializer: &mut S,
) -> Result<usize, Error>
    requires { length arrays.now * N < 2 ^ 64 }
    ensures copied { OnOk result (AddedAligned T.Archived.layout
        (each_bytes (each_bytes T.copied_bytes) arrays.now) S.Keys serializer) }
    ensures position { IfOk result (λ p. p ≡ copies_from T.Archived.layout
        (S.position serializer.old)) }
    ensures goes_on { GoesOn (S.state serializer.old) (S.state serializer.new) }
    ensures cause { IfErr result (IsCopyRefused (copies_to T.Archived.layout (length arrays.now * N)
        (S.position serializer.old)) (S.state serializer.old) (S.state serializer.new)) }
    ensures memory { IsErrOf result Error.OutOfMemory → IsTrue S.takes_memory }
    ensures succeeds { TakesCopy (IsTrue S.takes_memory)
        (copies_to T.Archived.layout (length arrays.now * N) (S.position serializer.old))
        (S.state serializer.old) (S.state serializer.new) → IsOk result }
{
    copy_slice(arrays.as_flattened(), serializer)
}
