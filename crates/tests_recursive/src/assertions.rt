// Assertions that are proved once. A call of one takes the check a fifth of a second, and `assert_eq!` written out in a test's body seconds. Calls that
// answer a `Result` are made in here, too: the check writes out all locals of a body at each of its steps, and an `Error` among them in a hundred lines.

ghost use Rattle.archive_core.specs.SealOutcomes.{IsSealOf};

use archive_core::api::{HighSerializer, access, access_mut, from_bytes, to_bytes};
use archive_core::error::Error;
use archive_core::seal::Seal;
use archive_core::traits::{Archive, Deserialize, Portable, Serialize};
use archive_core::view::Ref;
use std::alloc::{AllocError, Global};
use std::fmt::Debug;
use std::process::Abort;

// Two values are equal; `what` names them where they aren't.
pub(crate) fn assert_same<T: PartialEq + Debug + Drop>(
    rt: &impl Abort,
    what: &str,
    found: T,
    wanted: T,
) {
    assert_eq!(rt; found, wanted, "{what}");
}

// What `what` names holds.
pub(crate) fn assert_holds(rt: &impl Abort, what: &str, holds: bool) {
    assert_same(rt, what, holds, true);
}

// What a call answered that wasn't refused.
pub(crate) fn made<T>(rt: &impl Abort, what: &str, found: Result<T, Error>) -> T {
    found.expect(rt, what)
}

// Two buffers have the same bytes; `what` names them where they haven't.
pub(crate) fn assert_bytes(rt: &impl Abort, what: &str, found: &[u8], wanted: &[u8]) {
    assert_same(rt, what, found, wanted);
}

// These bytes are the archive of a value.
pub(crate) fn assert_written<T: Serialize<HighSerializer<Vec<u8>, Global>>>(
    rt: &impl Abort,
    alloc: Global,
    value: &T,
    archive: &[u8],
) {
    let bytes = to_bytes(alloc, value).expect(rt, "an archive");
    assert_bytes(rt, "the archive", bytes.as_slice(), archive);
}

// The value of an archive that shares nothing.
pub(crate) fn value_of<T: Archive>(rt: &impl Abort, alloc: Global, bytes: &[u8]) -> T
where
    T::Archived: Deserialize<T, ()>,
{
    from_bytes(alloc, bytes, &mut ()).expect(rt, "a value")
}

// An archive is read back as this value.
pub(crate) fn assert_read<T: Archive + PartialEq + Debug + Drop>(
    rt: &impl Abort,
    alloc: Global,
    archive: &[u8],
    value: &T,
)
where
    T::Archived: Deserialize<T, ()>,
{
    let back: T = value_of(rt, alloc, archive);
    assert_same(rt, "what is read back", &back, value);
}

// The view of the `T` at the end of the bytes.
pub(crate) fn viewed<'a, T: Portable>(
    rt: &impl Abort,
    alloc: Global,
    bytes: &'a [u8],
) -> Ref<'a, T> {
    access::<T>(alloc, bytes).expect(rt, "an archive")
}

// The seal of the `T` at the end of the bytes.
pub(crate) fn sealed<'a, T: Portable>(
    rt: &impl Abort,
    alloc: Global,
    bytes: &'a mut [u8],
) -> Seal<'a, T>
    ensures come_to { IsSealOf T.definitions T.pointee result }
{
    access_mut::<T>(alloc, bytes).expect(rt, "an archive")
}

// No `T` lies at the end of the bytes, for this reason.
pub(crate) fn assert_refused<T: Portable>(
    rt: &impl Abort,
    what: &str,
    alloc: Global,
    bytes: &[u8],
    refusal: Error,
) {
    let refused = access::<T>(alloc, bytes).err();
    assert_same(rt, what, refused, Some(refusal));
}

// The archive with another byte at an index.
pub(crate) fn changed(
    alloc: Global,
    bytes: &[u8],
    at: usize,
    byte: u8,
) -> Result<Vec<u8>, AllocError> {
    let mut out = Vec::with_capacity(alloc, bytes.len())?;
    for (index, one) in bytes.iter().enumerate() {
        out.push(if index == at { byte } else { *one })?;
    }
    Ok(out)
}

// The archive is refused with another byte at an index, for this reason.
pub(crate) fn assert_changed<T: Portable>(
    rt: &impl Abort,
    alloc: Global,
    archive: &[u8],
    at: usize,
    byte: u8,
    refusal: Error,
) {
    let bytes = changed(alloc, archive, at, byte).expect(rt, "bytes");
    assert_refused::<T>(rt, "a damaged archive", alloc, bytes.as_slice(), refusal);
}

// A tag names no variant.
pub(crate) fn tag_of_none(name: &'static str, value: u8) -> Error {
    Error::InvalidDiscriminant { name, value }
}
