//! Relative pointers that don't say what they lead to.

ghost use Rattle.std.specs.Prelude.{◌≡◌, ◌+◌, ◌≤◌, MatchResult, IsOk, length, pos, ◌+ℤ◌, refl, true};
ghost use Rattle.std.specs.Int.{byte_len};
ghost use Rattle.std.specs.Ordering.{int_eq};
ghost use Rattle.archive_check.specs.Shape.{leaf, one, raw_rel};
ghost use Rattle.archive_check.specs.Definitions.{no_definition};
ghost use Rattle.archive_check.specs.Expressions.{kind_of};
ghost use Rattle.archive_check.specs.Layout.{kind_size};
ghost use Rattle.archive_check.specs.SelfCheck.Laws.{leaf_check};
ghost use Rattle.archive_check.specs.Members.LeafLayout.{leaf_layout, leaf_align, leaf_has_layout, no_definition_reached};
ghost use Rattle.archive_check.specs.declared.format.error.Error.TheVariants.{OffsetOverflow};
ghost use Rattle.archive_num.specs.Offsets.{distance, Fits, IsBeyond, offset_bytes, offset_at};
ghost use Rattle.archive_types.specs.Words.OffsetsWritten.{OffsetWritten, OffsetPut};

use super::{Offset, OffsetNumber, signed_offset};
use crate::place::Place;
use crate::view::{RawView, Ref};
use archive_check::context::ArchiveContext;
use archive_check::format::error::Error;
use archive_check::format::expr::{Defs, Expr, Kind};
use archive_check::format::traits::{ArchivePointee, Portable};
use archive_check::self_check::{SelfCheck, check_leaf};
use archive_num::{
    ArchivedI16, ArchivedI32, ArchivedI64, ArchivedU16, ArchivedU32, ArchivedU64, Integer, Native,
};
use std::alloc::Global;
use std::marker::PhantomData;

/// An archived relative pointer without a type: an offset, in bytes, from its own position to what it leads to. The check doesn't follow it. Bytes,
/// size and alignment are those of the offset, as in rkyv 0.8.18.
#[derive(Debug)]
pub struct RawRelPtr<O> {
    of: PhantomData<O>,
}

/// A relative pointer of one byte, with a sign.
pub type RawRelPtrI8 = RawRelPtr<i8>;

/// A relative pointer of two bytes, with a sign.
pub type RawRelPtrI16 = RawRelPtr<ArchivedI16>;

/// A relative pointer of four bytes, with a sign.
pub type RawRelPtrI32 = RawRelPtr<ArchivedI32>;

/// A relative pointer of eight bytes, with a sign.
pub type RawRelPtrI64 = RawRelPtr<ArchivedI64>;

/// A relative pointer of one byte, which leads forward.
pub type RawRelPtrU8 = RawRelPtr<u8>;

/// A relative pointer of two bytes, which leads forward.
pub type RawRelPtrU16 = RawRelPtr<ArchivedU16>;

/// A relative pointer of four bytes, which leads forward.
pub type RawRelPtrU32 = RawRelPtr<ArchivedU32>;

/// A relative pointer of eight bytes. It is written where it leads forward, and one above `isize::MAX` is read as leading back.
pub type RawRelPtrU64 = RawRelPtr<ArchivedU64>;

// The leaf of a relative pointer with such a number.
pub(super) fn raw_kind<N: Integer>() -> Kind
    ensures { kind_of result ≡ raw_rel N.sign N.width }
{
    Kind::RawRel(N::integer_kind())
}

// Writes the offset of this distance; the bytes are unchanged where it is refused.
pub(super) fn write_offset<N: OffsetNumber>(distance: isize, bytes: &mut [u8]) -> Result<(), Error>
    requires { length bytes.old ≡ byte_len N.width }
    ensures { OffsetWritten N.sign N.width distance bytes.old bytes.new result }
{
    match N::from_distance(distance) {
        Ok(number) => {
            number.write_to(bytes);
            Ok(())
        }
        Err(error) => Err(error),
    }
}

// The distance that the offset at `pos` says.
pub(super) fn read_offset<N: OffsetNumber>(bytes: &[u8], pos: usize) -> isize
    requires { pos + byte_len N.width ≤ length bytes.now }
    ensures { result ≡ offset_at N.sign N.width bytes.entry.now pos }
{
    let offset = &bytes[pos..pos + N::byte_count()];
    N::read_from(offset).to_distance()
}

impl<O: Offset> ArchivePointee for RawRelPtr<O> {
    type ArchivedMetadata = ();

    ghost pointee = { one (leaf (raw_rel O.Number.sign O.Number.width)) };

    ghost definitions = { no_definition };

    ghost metadata_length = { λ _. 0 };

    fn pointer_metadata(_metadata: &()) -> usize {
        0
    }
}

impl<O: Offset> Portable for RawRelPtr<O> {
    ghost shape = { leaf (raw_rel O.Number.sign O.Number.width) };

    ghost layout = { leaf_layout (raw_rel O.Number.sign O.Number.width) };

    type Check = RawRelPtr<O>;

    ghost is_one = { refl };

    ghost is_align = { leaf_align (raw_rel O.Number.sign O.Number.width) };

    ghost has_layout = { leaf_has_layout (raw_rel O.Number.sign O.Number.width) };

    ghost no_others = { no_definition_reached (leaf (raw_rel O.Number.sign O.Number.width)) };

    ghost checks = { λ direct. leaf_check (raw_rel O.Number.sign O.Number.width) };

    fn size() -> usize {
        raw_kind::<O::Number>().size()
    }

    fn align() -> usize {
        raw_kind::<O::Number>().align()
    }

    fn expr(_alloc: Global) -> Result<Expr, Error> {
        Ok(Expr::Leaf(raw_kind::<O::Number>()))
    }

    fn define(_alloc: Global, _defs: &mut Defs) -> Result<(), Error> {
        Ok(())
    }
}

impl<O: Offset> SelfCheck for RawRelPtr<O> {
    ghost shape = { leaf (raw_rel O.Number.sign O.Number.width) };

    ghost definitions = { no_definition };

    ghost span = { kind_size (raw_rel O.Number.sign O.Number.width) };

    ghost direct = { true };

    ghost nameless = { true };

    fn is_direct() -> bool {
        true
    }

    fn is_nameless() -> bool {
        true
    }

    #[inline(always)]
    fn check_at<C: ArchiveContext>(
        bytes: &[u8],
        at: usize,
        refusal: &mut Error,
        context: &mut C,
    ) -> Option<()> {
        check_leaf(raw_kind::<O::Number>(), bytes, at, refusal, context)
    }
}

impl<O: Offset> RawRelPtr<O> {
    /// Writes a pointer to the position `to` over the bytes of `place`. The caller must ensure that
    /// they have the offset's size. Fails with `IsizeOverflow` exactly if the distance doesn't fit
    /// `isize`, and else with `OffsetOverflow` exactly if it doesn't fit the offset; the bytes are
    /// then unchanged.
    pub fn try_emplace(to: usize, place: Place<'_, RawRelPtr<O>>) -> Result<(), Error>
        requires { length place.bytes.now ≡ byte_len O.Number.width }
        ensures { OffsetPut O.Number.sign O.Number.width to place result }
    {
        let Place { bytes, pos, .. } = place;
        let distance = signed_offset(pos, to)?;
        write_offset::<O::Number>(distance, bytes)
    }

    /// Writes an invalid pointer over the bytes of `place`: one with the offset 1. The caller must
    /// ensure that they have the offset's size. It never fails.
    pub fn try_emplace_invalid(place: Place<'_, RawRelPtr<O>>) -> Result<(), Error>
        requires { length place.bytes.now ≡ byte_len O.Number.width }
        ensures written { place.exit.0.now ≡ offset_bytes O.Number.width (pos 1) }
        ensures succeeds { IsOk result }
    {
        let Place { bytes, .. } = place;
        write_offset::<O::Number>(1, bytes)
    }
}

impl<'a, O: Offset> Ref<'a, RawRelPtr<O>> {
    /// How far it is to what the pointer leads to, in bytes from the pointer's own position. An offset of 64 bits above `isize::MAX` wraps.
    pub fn offset(self) -> isize
        ensures { result ≡ offset_at O.Number.sign O.Number.width self.entry.bytes.now
            self.entry.pos }
    {
        let RawView { bytes, pos, .. } = self.part();
        read_offset::<O::Number>(bytes, pos)
    }

    /// Whether the pointer is an invalid one: its offset is 1.
    pub fn is_invalid(self) -> bool
        ensures { result ≡ int_eq (offset_at O.Number.sign O.Number.width self.entry.bytes.now
            self.entry.pos) (pos 1) }
    {
        self.offset() == 1
    }

    /// Where it leads: its position and its offset together, in bytes from the buffer's first one.
    /// It may lie outside the buffer. rkyv 0.8.18 has machine pointers.
    pub fn target(self) -> i128
        ensures { result ≡ pos self.entry.pos +ℤ offset_at O.Number.sign O.Number.width
            self.entry.bytes.now self.entry.pos }
    {
        self.pos() as i128 + self.offset() as i128
    }
}
