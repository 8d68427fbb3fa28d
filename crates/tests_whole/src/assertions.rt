// Assertions that are proved once. A call of one takes the check a fifth of a second, and `assert_eq!` written out in a test's body seconds. What is written
// and read back is compared in here, too: a call of `to_bytes` or `from_bytes` at a type is as dear. And a call that isn't refused is made in here: the check
// writes out all locals of a body at each of its steps, and an `Error` among them in a hundred lines. What isn't as it should be ends the process.

ghost use Rattle.std.specs.Prelude.{◌≡◌};
ghost use Rattle.archive_core.specs.SealOutcomes.{IsSealOf};

use archive_core::api::{HighSerializer, access, access_mut, from_bytes, to_bytes};
use archive_core::error::Error;
use archive_core::seal::Seal;
use archive_core::traits::{Archive, Deserialize, Entries, Portable, Serialize};
use archive_core::view::Ref;
use std::alloc::Global;
use std::fmt::Debug;
use std::process::Abort;

// Two values are equal; `what` names them where they aren't.
pub(crate) fn assert_same<T: PartialEq + Debug + Drop>(
    rt: &impl Abort,
    what: &str,
    found: T,
    wanted: T,
) {
    assert_eq!(rt; found, wanted, "{what}");
}

// These bytes are the same.
pub(crate) fn assert_bytes(rt: &impl Abort, what: &str, found: &[u8], wanted: &[u8]) {
    assert_same(rt, what, found, wanted);
}

// What `what` names holds.
pub(crate) fn assert_holds(rt: &impl Abort, what: &str, holds: bool) {
    assert_same(rt, what, holds, true);
}

// A call was refused, and for this reason.
pub(crate) fn assert_refusal<T: Drop>(
    rt: &impl Abort,
    what: &str,
    found: Result<T, Error>,
    refusal: Error,
) {
    assert_same(rt, what, found.err(), Some(refusal));
}

// A text.
pub(crate) fn text(rt: &impl Abort, alloc: Global, text: &str) -> String {
    String::from_str(alloc, text).expect(rt, "memory for a text")
}

// These bytes are the archive of a value.
pub(crate) fn assert_written<T: Serialize<HighSerializer<Vec<u8>, Global>>>(
    rt: &impl Abort,
    alloc: Global,
    value: &T,
    archive: &[u8],
) {
    let bytes = to_bytes(alloc, value).expect(rt, "an archive");
    assert_bytes(rt, "the archive", bytes.as_slice(), archive);
}

// No archive of a value is made.
pub(crate) fn assert_unwritten<T: Serialize<HighSerializer<Vec<u8>, Global>>>(
    rt: &impl Abort,
    alloc: Global,
    value: &T,
    refusal: Error,
) {
    let found = to_bytes(alloc, value).err();
    assert_same(rt, "no archive", found, Some(refusal));
}

// What is read back of an archive, with a deserializer.
pub(crate) fn read<T: Archive, D: Entries>(
    rt: &impl Abort,
    alloc: Global,
    archive: &[u8],
    deserializer: &mut D,
) -> T
where
    T::Archived: Deserialize<T, D>,
{
    from_bytes(alloc, archive, deserializer).expect(rt, "a value")
}

// What is read back of an archive, or nothing where that is refused with this error.
pub(crate) fn read_unless<T: Archive, D: Entries>(
    rt: &impl Abort,
    alloc: Global,
    archive: &[u8],
    deserializer: &mut D,
    refusal: Error,
) -> Option<T>
where
    T::Archived: Deserialize<T, D>,
{
    match from_bytes(alloc, archive, deserializer) {
        Ok(value) => Some(value),
        Err(error) => {
            assert_same(rt, "the refusal", error, refusal);
            None
        }
    }
}

// The view of the `T` at the end of the bytes.
pub(crate) fn viewed<'a, T: Portable>(
    rt: &impl Abort,
    alloc: Global,
    bytes: &'a [u8],
) -> Ref<'a, T> {
    access::<T>(alloc, bytes).expect(rt, "an archive")
}

// The seal of a `T` at the end of the bytes.
pub(crate) fn sealed<'a, T: Portable>(
    rt: &impl Abort,
    alloc: Global,
    bytes: &'a mut [u8],
) -> Seal<'a, T>
    ensures same_reference { result.bytes.ghost_name ≡ bytes.entry.ghost_name }
    ensures buffer { result.bytes.now ≡ bytes.old }
    ensures come_to { IsSealOf T.definitions T.pointee result }
{
    access_mut::<T>(alloc, bytes).expect(rt, "an archive")
}
