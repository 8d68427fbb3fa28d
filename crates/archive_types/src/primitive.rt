//! Numbers, bools, chars and `()`: their formats, and how they are archived and read back, as in
//! rkyv 0.8.18. None fails but a `usize` or `isize` that doesn't fit 32 bits: `NumberTooLarge`.

ghost use Rattle.std.specs.Prelude.{◌≡◌, ℕ, length, IfOk, IsOk};
ghost use Rattle.archive_check.specs.Shape.{leaf, one};
ghost use Rattle.archive_check.specs.Reads.{bytes_at, IsLegal};
ghost use Rattle.archive_check.specs.Definitions.{Definitions};
ghost use Rattle.archive_check.specs.Value.{number};
ghost use Rattle.archive_types.specs.Words.Seen.{IsPartOf};
ghost use Rattle.archive_types.specs.Words.ReadBack.{Read};
ghost use Rattle.archive_types.specs.Writing.{Resolves};

use crate::traits::{Archive, ArchivePointee, Deserialize, Entries, Portable};
use crate::view::{RawView, Ref};
use archive_check::format::error::Error;
pub use archive_nonzero::{
    ArchivedNonZeroI8, ArchivedNonZeroI16, ArchivedNonZeroI32, ArchivedNonZeroI64,
    ArchivedNonZeroI128, ArchivedNonZeroIsize, ArchivedNonZeroU8, ArchivedNonZeroU16,
    ArchivedNonZeroU32, ArchivedNonZeroU64, ArchivedNonZeroU128, ArchivedNonZeroUsize, NonZero,
};
pub use archive_num::{
    ArchivedChar, ArchivedI16, ArchivedI32, ArchivedI64, ArchivedI128, ArchivedIsize, ArchivedU16,
    ArchivedU32, ArchivedU64, ArchivedU128, ArchivedUsize, FixedIsize, FixedUsize, Integer,
    LittleEndian, Native,
};
use std::alloc::Global;

mod blocks;
mod leaves;
mod sealed;
mod sizes;
mod sources;

use blocks::read_blocks;
pub use leaves::Leaf;
pub use sealed::SealedLeaf;

/// A native value that is archived as its bytes. So one implementation archives all of them.
pub trait Source: Native {
    /// Its archived type.
    type Format: Portable;

    /// What is in a pointer to it beside the offset: nothing.
    fn metadata() -> <Self::Format as ArchivePointee>::ArchivedMetadata
        ensures { Self.Format.metadata_length result ≡ 0 };

    // The format has the size of the bytes.
    ghost same_size: { Self.Format.layout.size ≡ Self.byte_count };

    // And it is their leaf.
    ghost same_shape: { Self.Format.shape ≡ leaf Self.kind };
}

/// A source that lies in an archive as it is, so that its format is itself: `()`, `bool`, `u8`, `i8`.
pub trait Plain: Source + Portable {
    // As a pointee it is its leaf.
    ghost same_pointee: { Self.pointee ≡ one (leaf Self.kind) };
}

/// Writes the bytes of a leaf: wherever they lie, they are read as the value. Requires as many
/// bytes as the value has.
#[inline(always)]
pub fn write_leaf<N: Native>(value: N, bytes: &mut [u8])
    requires { length bytes.old ≡ N.byte_count }
    ensures bytes { bytes.new ≡ N.bytes_of value }
    ensures fits { N.fits value }
    ensures legal { IsLegal N.kind (N.bytes_of value) }
    ensures back { N.number_of (N.bytes_of value) ≡ value }
    ensures resolved { (D : Definitions) (p : ℕ) → Resolves D p bytes.new (leaf N.kind)
        (number (N.value_of value)) }
{
    value.write_to(bytes)
}

impl<N: Source, D: Entries> Deserialize<N, D> for LittleEndian<N> {
    #[inline(always)]
    fn deserialize_part(
        _alloc: Global,
        part: RawView<'_>,
        _deserializer: &mut D,
    ) -> Result<N, Error>
        requires { IsPartOf ⟦<Self as ArchivePointee>⟧ part }
        ensures read { IfOk result (Read ⟦<Self as ArchivePointee>⟧ part D.Entries _deserializer
            ⟦<N as Archive>⟧) }
        ensures number { IfOk result (λ n. n ≡ N.number_of
            (bytes_at part.entry.bytes.now part.entry.pos N.byte_count)) }
        ensures unchanged { D.entry_of _deserializer.new ≡ D.entry_of _deserializer.old }
        ensures succeeds { IsOk result }
    {
        let view: Ref<'_, LittleEndian<N>> = Ref::at(part);
        Ok(view.get())
    }

    /// Whole blocks of 1,024, if nothing lies between the numbers.
    #[inline(always)]
    fn deserialize_first(
        alloc: Global,
        bytes: &[u8],
        pos: usize,
        step: usize,
        count: usize,
        items: &mut Vec<N>,
    ) {
        if step == N::kind().size() {
            read_blocks(alloc, bytes, pos, count, items);
        }
    }
}

impl<N: Native, D: Entries> Deserialize<LittleEndian<N>, D> for LittleEndian<N> {
    #[inline(always)]
    fn deserialize_part(
        _alloc: Global,
        part: RawView<'_>,
        _deserializer: &mut D,
    ) -> Result<LittleEndian<N>, Error>
        requires { IsPartOf ⟦<Self as ArchivePointee>⟧ part }
        ensures read { IfOk result (Read ⟦<Self as ArchivePointee>⟧ part D.Entries _deserializer
            ⟦<Self as Archive>⟧) }
        ensures number { IfOk result (λ n. n ≡ N.number_of
            (bytes_at part.entry.bytes.now part.entry.pos N.byte_count)) }
        ensures unchanged { D.entry_of _deserializer.new ≡ D.entry_of _deserializer.old }
        ensures succeeds { IsOk result }
    {
        let view: Ref<'_, LittleEndian<N>> = Ref::at(part);
        Ok(LittleEndian::from_native(view.get()))
    }
}

impl<N: Integer, D: Entries> Deserialize<NonZero<N>, D> for NonZero<N> {
    #[inline(always)]
    fn deserialize_part(
        _alloc: Global,
        part: RawView<'_>,
        _deserializer: &mut D,
    ) -> Result<NonZero<N>, Error>
        requires { IsPartOf ⟦<Self as ArchivePointee>⟧ part }
        ensures read { IfOk result (Read ⟦<Self as ArchivePointee>⟧ part D.Entries _deserializer
            ⟦<Self as Archive>⟧) }
        ensures number { IfOk result (λ n. n ≡ N.number_of
            (bytes_at part.entry.bytes.now part.entry.pos N.byte_count)) }
        ensures unchanged { D.entry_of _deserializer.new ≡ D.entry_of _deserializer.old }
        ensures succeeds { IsOk result }
    {
        let view: Ref<'_, NonZero<N>> = Ref::at(part);
        Ok(NonZero::from_native(view.get()))
    }
}

impl<N: Plain, D: Entries> Deserialize<N, D> for N {
    #[inline(always)]
    fn deserialize_part(
        _alloc: Global,
        part: RawView<'_>,
        _deserializer: &mut D,
    ) -> Result<N, Error>
        requires { IsPartOf ⟦<Self as ArchivePointee>⟧ part }
        ensures read { IfOk result (Read ⟦<Self as ArchivePointee>⟧ part D.Entries _deserializer
            ⟦<N as Archive>⟧) }
        ensures number { IfOk result (λ n. n ≡ N.number_of
            (bytes_at part.entry.bytes.now part.entry.pos N.byte_count)) }
        ensures unchanged { D.entry_of _deserializer.new ≡ D.entry_of _deserializer.old }
        ensures succeeds { IsOk result }
    {
        let view: Ref<'_, N> = Ref::at(part);
        Ok(view.get())
    }
}
