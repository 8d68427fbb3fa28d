// Such enums read back: what stands before each box, box after box, and then the values, from the innermost on.

ghost use Rattle.std.specs.Prelude.{◌≡◌, ◌+◌, ◌≤◌, IfOk, IfErr, List};
ghost use Rattle.archive_check.specs.Denotes.{Naming};
ghost use Rattle.archive_check.specs.Readable.{target_from};
ghost use Rattle.archive_check.specs.Reads.{length_at};
ghost use Rattle.archive_check.specs.Shape.{boxed, one};
ghost use Rattle.archive_check.specs.Value.{Value};
ghost use Rattle.archive_check.specs.Viewed.{Viewed};
ghost use Rattle.archive_core.specs.recursive.Chains.{HeadIsRead};
ghost use Rattle.archive_types.specs.Words.Seen.{IsPartOf, RefusesPart};
ghost use Rattle.archive_types.specs.Words.ReadBack.{Read};

use crate::recursive::before::before_box;
use archive_check::format::error::Error;
use archive_types::boxed::ArchivedBox;
use archive_types::traits::{Archive, Entries, Portable};
use archive_types::view::{RawView, Ref};
use std::alloc::{AllocError, Global};

/// What a value comes to whose parts before its box are read back.
#[derive(Drop)]
pub enum ReadHead<T, F> {
    /// It has no box of its type: the value.
    Whole(T),
    /// It has one: what lies before it, and the box's position.
    Open(F, usize),
}

/// A recursive enum whose boxes of itself come last, to be read back from an `X`. `tools/derive`
/// writes it, and `read_chain` reads its values.
pub trait ChainBack<X: Portable, D: Entries>: Archive + Drop {
    /// What lies before a box.
    type Front: Drop;

    // What a value means by what stands before its box, and what that holds; and its keys.
    ghost around: { Self.Front → Value → Value };

    ghost keys_around: { Self.Front → List Naming → List Naming };

    /// Reads the value that the part shows, but for what its box holds. Fails as `Deserialize::deserialize_part` does.
    fn read_head(
        alloc: Global,
        part: RawView<'_>,
        deserializer: &mut D,
    ) -> Result<ReadHead<Self, Self::Front>, Error>
        requires { IsPartOf X.ArchivePointee part }
        ensures read { IfOk result (HeadIsRead X.Portable part D.Entries deserializer Self.Archive
            around keys_around) }
        ensures refused { IfErr result (RefusesPart X.ArchivePointee part D.Entries deserializer) };

    /// The value with what its box holds.
    fn around(front: Self::Front, rest: Box<Self>) -> Self
        ensures meaning { Self.meaning result ≡ around front (Self.meaning rest.value) }
        ensures keys { Self.keys result ≡ keys_around front (Self.keys rest.value) };
}

/// The value that the part shows, read back with no recursion: what lies before each box is kept in
/// a vector. Fails as `Deserialize::deserialize_part` does.
#[inline(always)]
pub fn read_chain<X: Portable, T: ChainBack<X, D>, D: Entries>(
    alloc: Global,
    part: RawView<'_>,
    deserializer: &mut D,
) -> Result<T, Error>
    requires { IsPartOf X.ArchivePointee part }
    ensures read { IfOk result (Read X.ArchivePointee part D.Entries deserializer T.Archive) }
    ensures refused { IfErr result (RefusesPart X.ArchivePointee part D.Entries deserializer) }
{
    let mut fronts: Vec<T::Front> = Vec::new(alloc);
    let mut here = part;
    let mut value = loop {
        let head = match T::read_head(alloc, here, deserializer) {
            Ok(head) => head,
            Err(error) => return Err(error),
        };
        let (front, at) = match head {
            ReadHead::Whole(value) => break value,
            ReadHead::Open(front, at) => (front, at),
        };
        fronts.push(front).map_err(AllocError::from)?;
        here = rest_part::<X>(here, at);
    };
    while let Some(front) = fronts.pop() {
        value = T::around(front, Box::new(alloc, value)?);
    }
    Ok(value)
}

// What the box at `at` leads to, in the buffer that the part shows.
#[inline(always)]
fn rest_part<'a, X: Portable>(part: RawView<'a>, at: usize) -> RawView<'a>
    requires { Viewed X.definitions part.bytes.now at (one (boxed X.pointee)) 0 }
    ensures buffer { result.bytes.now ≡ part.entry.bytes.now }
    ensures position { result.pos ≡ target_from part.entry.bytes.now at at }
    ensures length { result.len ≡ length_at part.entry.bytes.now at X.pointee }
    ensures viewed { IsPartOf X.ArchivePointee result }
    ensures ends { result.pos + X.layout.size ≤ at }
{
    let RawView { bytes, .. } = part;
    let inside = RawView {
        bytes,
        pos: at,
        len: 0,
    };
    let rest: Ref<'_, ArchivedBox<X>> = Ref::at(inside);
    before_box(rest).part()
}
