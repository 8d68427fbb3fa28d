// Assertions that are proved once. A call of one takes the check a fifth of a second, and `assert_eq!` written out in a test's body seconds. What is written,
// checked and read back is compared in here, too, since a call of `api` at a user-defined type is as dear: a test hands over its type and its rows. Calls
// that return a `Result` are made in here as well: the check writes out all locals of a body at each of its steps, and an `Error` in a hundred lines.

ghost use Rattle.archive_core.specs.Definitions.{no_definition};
ghost use Rattle.archive_core.specs.Shape.{one, run, str as str_shape};
ghost use Rattle.archive_core.specs.SealOutcomes.{IsSealOf};

use crate::judgements::assert_checked;
use archive_core::api::{
    HighSerializer, access, access_mut, from_bytes, serialize_using, to_bytes,
};
use archive_core::error::Error;
use archive_core::seal::{Seal, SealedLeaf};
use archive_core::ser::Serializer;
use archive_core::sharing::Share;
use archive_core::slice::ArchivedSlice;
use archive_core::string::ArchivedString;
use archive_core::traits::{Archive, Deserialize, Entries, Portable, Serialize, SerializeUnsized};
use archive_core::view::Ref;
use std::alloc::Global;
use std::fmt::Debug;
use std::process::Abort;

// Two values are equal; `what` names them where they aren't.
pub(crate) fn assert_same<T: PartialEq + Debug + Drop>(
    rt: &impl Abort,
    what: &str,
    found: T,
    wanted: T,
) {
    assert_eq!(rt; found, wanted, "{what}");
}

// What `what` names holds.
pub(crate) fn assert_holds(rt: &impl Abort, what: &str, holds: bool) {
    assert_same(rt, what, holds, true);
}

// Two buffers have the same bytes; `what` names them where they haven't.
pub(crate) fn assert_bytes(rt: &impl Abort, what: &str, found: &[u8], wanted: &[u8]) {
    assert_same(rt, what, found, wanted);
}

// A text.
pub(crate) fn text(rt: &impl Abort, alloc: Global, text: &str) -> String {
    String::from_str(alloc, text).expect(rt, "memory for a text")
}

// These bytes are the archive of a value, and what is written of it as a region of its own, which ends where they do and has `size` bytes. They are judged
// alike by all checks, cut short and with each byte made another one.
pub(crate) fn assert_written<
    T: Serialize<HighSerializer<Vec<u8>, Global>>
        + SerializeUnsized<HighSerializer<Vec<u8>, Global>>,
>(rt: &impl Abort, alloc: Global, value: &T, size: usize, archive: &[u8]) {
    let bytes = to_bytes(alloc, value).expect(rt, "an archive");
    assert_bytes(rt, "the archive", bytes.as_slice(), archive);
    assert_region(rt, alloc, value, size, archive);
    assert_checked::<<T as Archive>::Archived>(rt, alloc, archive);
}

// These bytes are what is written of a value as a region of its own, of `size` bytes, which ends where they do.
fn assert_region<T: SerializeUnsized<HighSerializer<Vec<u8>, Global>>>(
    rt: &impl Abort,
    alloc: Global,
    value: &T,
    size: usize,
    bytes: &[u8],
) {
    let mut serializer = Serializer::new(Vec::new(alloc), alloc, Share::new(alloc));
    let region = serialize_using(value, &mut serializer).expect(rt, "a region");
    assert_same(
        rt,
        "the region's end",
        region.saturating_add(size),
        bytes.len(),
    );
    let written = serializer.into_writer();
    assert_bytes(rt, "the region", written.as_slice(), bytes);
}

// The same, and the archive is read back as the value.
pub(crate) fn assert_archived<
    T: Serialize<HighSerializer<Vec<u8>, Global>>
        + SerializeUnsized<HighSerializer<Vec<u8>, Global>>
        + PartialEq
        + Debug
        + Drop,
>(rt: &impl Abort, alloc: Global, value: &T, size: usize, archive: &[u8])
where
    <T as Archive>::Archived: Deserialize<T, ()>,
{
    assert_written(rt, alloc, value, size, archive);
    let back: T = value_of(rt, alloc, archive, &mut ());
    assert_same(rt, "what is read back", &back, value);
}

// A value has no archive, for this reason.
pub(crate) fn assert_unwritten<T: Serialize<HighSerializer<Vec<u8>, Global>>>(
    rt: &impl Abort,
    what: &str,
    alloc: Global,
    value: &T,
    refusal: Error,
) {
    let refused = to_bytes(alloc, value).err();
    assert_same(rt, what, refused, Some(refusal));
}

// The value of an archive, with a deserializer.
pub(crate) fn value_of<T: Archive, D: Entries>(
    rt: &impl Abort,
    alloc: Global,
    archive: &[u8],
    deserializer: &mut D,
) -> T
where
    T::Archived: Deserialize<T, D>,
{
    from_bytes(alloc, archive, deserializer).expect(rt, "a value")
}

// The view of the `T` at the end of the bytes.
pub(crate) fn viewed<'a, T: Portable>(
    rt: &impl Abort,
    alloc: Global,
    bytes: &'a [u8],
) -> Ref<'a, T> {
    access::<T>(alloc, bytes).expect(rt, "an archive")
}

// The seal of the `T` at the end of the bytes.
pub(crate) fn sealed<'a, T: Portable>(
    rt: &impl Abort,
    alloc: Global,
    bytes: &'a mut [u8],
) -> Seal<'a, T>
    ensures come_to { IsSealOf T.definitions T.pointee result }
{
    access_mut::<T>(alloc, bytes).expect(rt, "an archive")
}

// Writes a text over that of a string, where both have the same number of bytes.
pub(crate) fn write_text(string: Seal<'_, ArchivedString>, text: &str)
    requires come_to { IsSealOf no_definition (one str_shape) string }
{
    if string.as_ref().len() == text.len() {
        string.write_str(text);
    }
}

// Writes over the second element, if there is one.
pub(crate) fn write_second<T: Portable + SealedLeaf>(
    list: Seal<'_, ArchivedSlice<T>>,
    value: T::Written,
)
    requires come_to { IsSealOf T.definitions (run T.shape) list }
    requires can_hold { T.can_hold value }
{
    if list.len() > 1 {
        list.index(1).write(value);
    }
}
