//! Relative pointers that say what they lead to.

ghost use Rattle.std.specs.Prelude.{◌≡◌, ◌+◌, ◌≤◌, true, false, MatchResult, IsOk, IfOk, IfErr, length, pos, ◌+ℤ◌, refl, min};
ghost use Rattle.std.specs.Int.{byte_len};
ghost use Rattle.std.specs.Ordering.{int_eq};
ghost use Rattle.archive_check.specs.SelfCheck.Laws.{by_schema};
ghost use Rattle.archive_check.specs.Shape.{one, parts};
ghost use Rattle.archive_check.specs.Definitions.{no_definition};
ghost use Rattle.archive_check.specs.Expressions.{shape_of};
ghost use Rattle.archive_check.specs.Members.LeafLayout.{no_definition_reached};
ghost use Rattle.archive_check.specs.LittleEndian.{little_bytes};
ghost use Rattle.archive_check.specs.Reads.{u32_at};
ghost use Rattle.archive_check.specs.declared.format.error.Error.TheVariants.{OutOfMemory, OffsetOverflow};
ghost use Rattle.archive_num.specs.Offsets.{distance, offset_at};
ghost use Rattle.archive_types.specs.Words.OffsetsWritten.{RelWritten, RelPut};
ghost use Rattle.archive_types.specs.RelativePointers.{rel_bytes, rel_parts, length_begin, rel_layout, written_at};
ghost use Rattle.archive_types.specs.Members.RelativeLayout.{rel_align, rel_has_layout};

use super::metadata::Metadata;
use super::raw::{raw_kind, read_offset, write_offset};
use super::{Offset, OffsetNumber, signed_offset};
use crate::place::Place;
use crate::view::{RawView, Ref};
use archive_check::format::bytes::read_u32;
use archive_check::format::error::Error;
use archive_check::format::expr::{Defs, Expr, IntegerKind, Kind};
use archive_check::format::traits::{ArchivePointee, Portable};
use archive_check::self_check::BySchema;
use archive_num::{FixedUsize, Integer};
use std::alloc::Global;
use std::marker::PhantomData;

/// An archived relative pointer to a `T`: an offset, in bytes, from its own position, and then a length where a `T` is a slice or a text. The check
/// doesn't follow it. The bytes are those of rkyv 0.8.18.
#[derive(Debug)]
pub struct RelPtr<T, O> {
    to: PhantomData<T>,
    by: PhantomData<O>,
}

// Where the length stands behind an offset of such a number.
fn length_begin<N: Integer>() -> usize
    ensures { result ≡ length_begin N.width }
{
    N::integer_kind().size().max(4)
}

// The record of an offset alone.
#[tactic(auto, using(crate::proofs::Writing::Records::record_shape))]
fn record_of_one<N: Integer>(alloc: Global) -> Result<Expr, Error>
    ensures shape { IfOk result (λ e. shape_of e ≡ parts (rel_parts N.sign N.width false)) }
    ensures refused { IfErr result (λ e. e ≡ OutOfMemory) }
{
    let offset = Expr::Leaf(raw_kind::<N>());
    Ok(Expr::Record(vec![in alloc; offset]?))
}

// The record of an offset and a length.
#[tactic(auto, using(crate::proofs::Writing::Records::record_shape))]
fn record_of_two<N: Integer>(alloc: Global) -> Result<Expr, Error>
    ensures shape { IfOk result (λ e. shape_of e ≡ parts (rel_parts N.sign N.width true)) }
    ensures refused { IfErr result (λ e. e ≡ OutOfMemory) }
{
    let offset = Expr::Leaf(raw_kind::<N>());
    let length = Expr::Leaf(Kind::Number(IntegerKind::U32));
    Ok(Expr::Record(vec![in alloc; offset, length]?))
}

// Writes a length over four bytes.
fn write_length(count: FixedUsize, begin: usize, bytes: &mut [u8])
    requires { begin + 4 ≤ length bytes.old }
    ensures { bytes.new ≡ written_at begin (little_bytes 4 count) bytes.old }
{
    bytes[begin..begin + 4].copy_from_slice(&count.to_le_bytes());
}

// Writes an offset of this distance, and a length where one stands behind it; the bytes are unchanged where it is refused.
fn write_pointer<N: OffsetNumber, M: Metadata>(
    distance: isize,
    metadata: M,
    bytes: &mut [u8],
) -> Result<(), Error>
    requires { length bytes.old ≡ (rel_layout N.width M.is_length).size }
    ensures { RelWritten N.sign N.width M.is_length distance (M.count metadata) bytes.old bytes.new
        result }
{
    let (offset, _) = bytes.split_at_mut(N::integer_kind().size());
    write_offset::<N>(distance, offset)?;
    if M::is_length() {
        write_length(metadata.to_length(), length_begin::<N>(), bytes);
    }
    Ok(())
}

impl<T: ArchivePointee, O: Offset> ArchivePointee for RelPtr<T, O>
where
    T::ArchivedMetadata: Metadata,
{
    type ArchivedMetadata = ();

    ghost pointee = { one (parts (rel_parts O.Number.sign O.Number.width
        T.ArchivedMetadata.is_length)) };

    ghost definitions = { no_definition };

    ghost metadata_length = { λ _. 0 };

    fn pointer_metadata(_metadata: &()) -> usize {
        0
    }
}

impl<T: ArchivePointee, O: Offset> Portable for RelPtr<T, O>
where
    T::ArchivedMetadata: Metadata,
{
    ghost shape = { parts (rel_parts O.Number.sign O.Number.width T.ArchivedMetadata.is_length) };

    ghost layout = { rel_layout O.Number.width T.ArchivedMetadata.is_length };

    type Check = BySchema;

    ghost is_one = { refl };

    ghost is_align = { rel_align O.Number.width O.Number.at_most_64_bits
        T.ArchivedMetadata.is_length };

    ghost has_layout = { rel_has_layout O.Number.sign O.Number.width O.Number.at_most_64_bits
        T.ArchivedMetadata.is_length };

    ghost no_others = { no_definition_reached (parts (rel_parts O.Number.sign O.Number.width
        T.ArchivedMetadata.is_length)) };

    ghost checks = { λ direct. by_schema direct };

    fn size() -> usize {
        if T::ArchivedMetadata::is_length() {
            return 2 * length_begin::<O::Number>();
        }
        O::Number::integer_kind().size()
    }

    fn align() -> usize {
        if T::ArchivedMetadata::is_length() {
            return length_begin::<O::Number>();
        }
        O::Number::integer_kind().size()
    }

    fn expr(alloc: Global) -> Result<Expr, Error> {
        if T::ArchivedMetadata::is_length() {
            return record_of_two::<O::Number>(alloc);
        }
        record_of_one::<O::Number>(alloc)
    }

    fn define(_alloc: Global, _defs: &mut Defs) -> Result<(), Error> {
        Ok(())
    }
}

impl<T: ArchivePointee, O: Offset> RelPtr<T, O>
where
    T::ArchivedMetadata: Metadata,
{
    /// Writes a pointer to the position `to` over the bytes of `place`, with this metadata. The
    /// caller must ensure that they have the pointer's size. Fails with `IsizeOverflow` exactly if
    /// the distance doesn't fit `isize`, and else with `OffsetOverflow` exactly if it doesn't fit
    /// the offset; the bytes are then unchanged. Bytes between offset and length, and behind the
    /// length, stay as they were.
    pub fn try_emplace_unsized(
        to: usize,
        metadata: T::ArchivedMetadata,
        place: Place<'_, RelPtr<T, O>>,
    ) -> Result<(), Error>
        requires { length place.bytes.now ≡ (rel_layout O.Number.width
            T.ArchivedMetadata.is_length).size }
        ensures { RelPut O.Number.sign O.Number.width T.ArchivedMetadata.is_length
            (T.ArchivedMetadata.count metadata) to place result }
    {
        let Place { bytes, pos, .. } = place;
        let distance = signed_offset(pos, to)?;
        write_pointer::<O::Number, T::ArchivedMetadata>(distance, metadata, bytes)
    }

    /// Writes an invalid pointer over the bytes of `place`: one with the offset 1, and the length 0
    /// if there is one. The caller must ensure that they have the pointer's size. It never fails.
    pub fn try_emplace_invalid(place: Place<'_, RelPtr<T, O>>) -> Result<(), Error>
        requires { length place.bytes.now ≡ (rel_layout O.Number.width
            T.ArchivedMetadata.is_length).size }
        ensures written { place.exit.0.now ≡ rel_bytes O.Number.width T.ArchivedMetadata.is_length
            (pos 1) 0 place.entry.bytes.now }
        ensures succeeds { IsOk result }
    {
        let Place { bytes, .. } = place;
        let metadata = T::ArchivedMetadata::from_length(0);
        write_pointer::<O::Number, T::ArchivedMetadata>(1, metadata, bytes)
    }
}

impl<T: ArchivePointee<ArchivedMetadata = ()>, O: Offset> RelPtr<T, O> {
    /// Writes a pointer to the position `to` over the bytes of `place`, where a `T` is one value.
    /// Requires what `try_emplace_unsized` does, and fails as that.
    pub fn try_emplace(to: usize, place: Place<'_, RelPtr<T, O>>) -> Result<(), Error>
        requires { length place.bytes.now ≡ byte_len O.Number.width }
        ensures { RelPut O.Number.sign O.Number.width false 0 to place result }
    {
        let Place { bytes, pos, .. } = place;
        Self::try_emplace_unsized(to, (), Place::new(pos, bytes))
    }
}

impl<'a, T: ArchivePointee, O: Offset> Ref<'a, RelPtr<T, O>>
where
    T::ArchivedMetadata: Metadata,
{
    /// How far it is to what the pointer leads to, in bytes from the pointer's own position. An offset of 64 bits above `isize::MAX` wraps.
    pub fn offset(self) -> isize
        ensures { result ≡ offset_at O.Number.sign O.Number.width self.entry.bytes.now
            self.entry.pos }
    {
        let RawView { bytes, pos, .. } = self.part();
        read_offset::<O::Number>(bytes, pos)
    }

    /// Whether the pointer is an invalid one: its offset is 1.
    pub fn is_invalid(self) -> bool
        ensures { result ≡ int_eq (offset_at O.Number.sign O.Number.width self.entry.bytes.now
            self.entry.pos) (pos 1) }
    {
        self.offset() == 1
    }

    /// What is behind the offset: nothing, or a length.
    pub fn metadata(self) -> T::ArchivedMetadata
        ensures { T.ArchivedMetadata.is_length ≡ true → T.ArchivedMetadata.count result
            ≡ u32_at self.entry.bytes.now (self.entry.pos + length_begin O.Number.width) }
    {
        if !T::ArchivedMetadata::is_length() {
            return T::ArchivedMetadata::from_length(0);
        }
        let RawView { bytes, pos, .. } = self.part();
        T::ArchivedMetadata::from_length(read_u32(bytes, pos + length_begin::<O::Number>()))
    }

    /// Where it leads: its position and its offset together, in bytes from the buffer's first one.
    /// It may lie outside the buffer. rkyv 0.8.18 has machine pointers.
    pub fn target(self) -> i128
        ensures { result ≡ pos self.entry.pos +ℤ offset_at O.Number.sign O.Number.width
            self.entry.bytes.now self.entry.pos }
    {
        self.pos() as i128 + self.offset() as i128
    }
}
