//! Views of archived values, slices and texts.

ghost use Rattle.std.specs.Prelude.{◌≡◌, ⊤, false};
ghost use Rattle.archive_check.specs.Shape.{leaf, non_zero, one};
ghost use Rattle.archive_check.specs.Definitions.{no_definition};
ghost use Rattle.archive_check.specs.Value.{number};
ghost use Rattle.archive_check.specs.Reads.{bytes_at};
ghost use Rattle.archive_check.specs.Readable.{Readable};
ghost use Rattle.archive_check.specs.Viewed.{Viewed, Says};
ghost use Rattle.archive_num.specs.Digits.{is_zero};

use crate::primitive::Plain;
use archive_check::format::traits::ArchivePointee;
use archive_check::self_check::{
    ArrayCheck, BoxCheck, BoxStrCheck, BySchema, MapCheck, StringCheck, TupleCheck, VecCheck,
};
use archive_nonzero::NonZero;
use archive_num::{Integer, LittleEndian, Native};
use std::alloc::AllocError;
use std::marker::PhantomData;

// The checks of the library's types. Views name them, since the borrow checker covers a match on a view
// of an enum alone where all that the impls for the types of its fields stand on is named.
type Checks = (
    BySchema,
    StringCheck,
    BoxStrCheck,
    BoxCheck<()>,
    VecCheck<()>,
    MapCheck<(), ()>,
    ArrayCheck<(), 0>,
    TupleCheck<()>,
);

/// A view of an archived value, slice or text: a part of a validated buffer. In rkyv 0.8.18 it is a
/// reference to the archived type.
///
/// `access` returns the root's view, and its calls those of parts. They never fail and take no
/// memory, since what they read was validated.
///
/// ```
/// let view = access::<ArchivedVec<ArchivedString>>(alloc, bytes.as_slice())?;
/// for text in view.as_slice().iter() {
///     println!(rt; "{}", text.as_str())?;
/// }
/// ```
pub struct Ref<'a, T: ArchivePointee> {
    bytes: &'a [u8],
    pos: usize,
    len: usize,
    of: PhantomData<(T, Checks)>,
    pub ghost valid: { Viewed T.definitions bytes.now pos T.pointee len },
}

impl<'a, T: ArchivePointee> Clone for Ref<'a, T> {
    ghost is_clone = { λ x y. y ≡ x };

    ghost is_infallible = { λ _. ⊤ };

    fn clone(&self) -> Result<Ref<'a, T>, AllocError> {
        Ok(*self)
    }
}

impl<'a, T: ArchivePointee> Copy for Ref<'a, T> {}

/// A buffer, a position and a length, of which nothing is known: a view without its invariant.
#[derive(Clone, Copy, Debug)]
pub struct RawView<'a> {
    /// The whole buffer.
    pub bytes: &'a [u8],
    /// Where the part begins, in bytes from the buffer's first one.
    pub pos: usize,
    /// How many elements or bytes it has; 0 for one value.
    pub len: usize,
}

impl<'a, T: ArchivePointee> Ref<'a, T> {
    /// Where it begins, in bytes from the buffer's first one.
    pub fn pos(self) -> usize
        ensures { result ≡ self.entry.pos }
    {
        self.pos
    }

    /// The view of a part. The caller must ensure that it is a region of a validated buffer, or
    /// lies in one. The calls of `api` return the root's view; only implementors of `Deserialize`
    /// need this.
    pub fn at(part: RawView<'a>) -> Ref<'a, T>
        requires { Viewed T.definitions part.bytes.now part.pos T.pointee part.len }
        ensures buffer { result.bytes.now ≡ part.entry.bytes.now }
        ensures position { result.pos ≡ part.entry.pos }
        ensures length { result.len ≡ part.entry.len }
    {
        Ref {
            bytes: part.bytes,
            pos: part.pos,
            len: part.len,
            of: PhantomData,
        }
    }

    /// The part that it shows: the whole buffer, the position and the length.
    pub fn part(self) -> RawView<'a>
        ensures buffer { result.bytes.now ≡ self.entry.bytes.now }
        ensures position { result.pos ≡ self.entry.pos }
        ensures length { result.len ≡ self.entry.len }
        ensures viewed { Viewed T.definitions result.bytes.now result.pos T.pointee result.len }
    {
        RawView {
            bytes: self.bytes,
            pos: self.pos,
            len: self.len,
        }
    }
}

// The value in the bytes of a leaf.
fn read_leaf<N: Native>(part: RawView<'_>) -> N
    requires { ∥ Readable part.bytes.now part.pos (one (leaf N.kind)) part.len ∥₁ }
    ensures { result ≡ N.number_of (bytes_at part.entry.bytes.now part.entry.pos N.byte_count) }
{
    let RawView { bytes, pos, .. } = part;
    N::read_from(&bytes[pos..pos + N::byte_count()])
}

impl<'a, N: Native> Ref<'a, LittleEndian<N>> {
    ghost use Rattle.archive_types.specs.Words.Seen.{ShowsValue};

    /// The number.
    #[tactic(auto, using(archive_check::proofs::Viewing::ViewedValues::leaf_readable))]
    pub fn get(self) -> N
        ensures number { result ≡ N.number_of (bytes_at self.entry.bytes.now self.entry.pos
            N.byte_count) }
        ensures says { ShowsValue self.entry (number (N.value_of result)) }
    {
        read_leaf(self.part())
    }
}

impl<'a, N: Integer> Ref<'a, NonZero<N>> {
    ghost use Rattle.archive_types.specs.Words.Seen.{ShowsValue};

    /// The number, which isn't 0.
    pub fn get(self) -> N
        ensures number { result ≡ N.number_of (bytes_at self.entry.bytes.now self.entry.pos
            N.byte_count) }
        ensures not_zero { is_zero (N.value_of result) ≡ false }
        ensures says { ShowsValue self.entry (number (N.value_of result)) }
    {
        read_leaf(self.part())
    }
}

impl<'a, N: Plain> Ref<'a, N> {
    ghost use Rattle.archive_types.specs.Words.Seen.{ShowsValue};

    /// The value: nothing, a bool, or a number of one byte.
    #[tactic(auto, using(archive_check::proofs::Viewing::ViewedValues::leaf_readable))]
    pub fn get(self) -> N
        ensures number { result ≡ N.number_of (bytes_at self.entry.bytes.now self.entry.pos
            N.byte_count) }
        ensures says { ShowsValue self.entry (number (N.value_of result)) }
    {
        read_leaf(self.part())
    }
}
