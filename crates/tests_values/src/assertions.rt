// Assertions that are proved once. A call of one takes the check a fifth of a second, and `assert_eq!` written out in a test's body seconds. What is written
// and read back is compared in here, too: a call that writes or reads a type is as dear. A test answers nothing, and no `Error` stands in its body where that
// can be had: the check writes an `Error` out in full for each local variable that may hold one, at each step. What isn't as it should be ends the process.

use archive_check::context::ArchiveValidator;
use archive_check::format::error::Error;
use archive_check::self_check::check_root;
use archive_types::primitive::{LittleEndian, Native};
use archive_types::ser::{Serializer, serialize_one, serialize_with};
use archive_types::traits::{Archive, Deserialize, Portable, Serialize};
use archive_types::view::{RawView, Ref};
use std::alloc::Global;
use std::fmt::Debug;
use std::hash::{DefaultHasher, Hash, Hasher};
use std::process::Abort;

// The archive of the text "hello world": the text, a zero, and at 12 the string that points back at it.
pub(crate) const HELLO_WORLD: &[u8] = b"hello world\0\x8b\0\0\0\xf4\xff\xff\xff";

// The same text, a zero, and at 12 the box that points back at its eleven bytes.
pub(crate) const BOXED_HELLO_WORLD: &[u8] = b"hello world\0\xf4\xff\xff\xff\x0b\0\0\0";

// Two values are equal; `what` names them where they aren't.
pub(crate) fn assert_same<T: PartialEq + Debug + Drop>(
    rt: &impl Abort,
    what: &str,
    found: T,
    wanted: T,
) {
    assert_eq!(rt; found, wanted, "{what}");
}

// These bytes are the same.
pub(crate) fn assert_bytes(rt: &impl Abort, what: &str, found: &[u8], wanted: &[u8]) {
    assert_same(rt, what, found, wanted);
}

// What `what` names holds.
pub(crate) fn assert_holds(rt: &impl Abort, what: &str, holds: bool) {
    assert_same(rt, what, holds, true);
}

// What `what` names is refused, with this error.
pub(crate) fn assert_refusal<T: Drop>(
    rt: &impl Abort,
    what: &str,
    found: Result<T, Error>,
    refusal: Error,
) {
    assert_same(rt, what, found.err(), Some(refusal));
}

// What `what` names is refused since a buffer of `cap` bytes, of which `len` are taken, has no room for a piece of `write_len`.
pub(crate) fn assert_full<T: Drop>(
    rt: &impl Abort,
    what: &str,
    found: Result<T, Error>,
    (write_len, cap, len): (usize, usize, usize),
) {
    let refusal = Error::BufferOverflow {
        write_len,
        cap,
        len,
    };
    assert_refusal(rt, what, found, refusal);
}

// What writes an archive of a value that shares nothing.
pub(crate) type ByParts = Serializer<Vec<u8>, Global, ()>;

// Appends the archive of a value to what a vector holds, and answers why there is none, if so.
pub(crate) fn appended<T: Serialize<ByParts>>(
    alloc: Global,
    value: &T,
    bytes: Vec<u8>,
) -> (Vec<u8>, Option<Error>) {
    let mut serializer = Serializer::new(bytes, alloc, ());
    let refusal = serialize_one(value, &mut serializer).err();
    (serializer.into_writer(), refusal)
}

// The archive of a value.
pub(crate) fn archived<T: Serialize<ByParts>>(
    rt: &impl Abort,
    alloc: Global,
    value: &T,
) -> Vec<u8> {
    let (bytes, refusal) = appended(alloc, value, Vec::new(alloc));
    assert_same(rt, "an archive", refusal, None);
    bytes
}

// These bytes are the archive of a value.
pub(crate) fn assert_written<T: Serialize<ByParts>>(
    rt: &impl Abort,
    alloc: Global,
    value: &T,
    archive: &[u8],
) {
    let bytes = archived(rt, alloc, value);
    assert_bytes(rt, "the archive", bytes.as_slice(), archive);
}

// A value has no archive, for this reason, and nothing is written behind these bytes.
pub(crate) fn assert_unwritten<T: Serialize<ByParts>>(
    rt: &impl Abort,
    what: &str,
    alloc: Global,
    value: &T,
    refusal: Error,
) {
    let before = b"\xaa\xbb\xcc";
    let bytes = before.to_vec(alloc).expect(rt, "memory");
    let (bytes, found) = appended(alloc, value, bytes);
    let found = (found, bytes.as_slice());
    assert_same(rt, what, found, (Some(refusal), before.as_slice()));
}

// The view of the `T` that lies at a position, where that validates itself, or why there is none.
fn view_at<'a, T: Portable>(bytes: &'a [u8], pos: usize) -> Result<Ref<'a, T>, Error> {
    let mut context = ArchiveValidator::new(bytes);
    if let Err(error) = check_root::<T, ArchiveValidator<'_>>(bytes, pos, &mut context) {
        return Err(error);
    }
    Ok(Ref::at(RawView { bytes, pos, len: 0 }))
}

// The view of the `T` that lies at the end of the bytes, or why there is none.
fn root_of<'a, T: Portable>(bytes: &'a [u8]) -> Result<Ref<'a, T>, Error> {
    view_at(bytes, bytes.len().saturating_sub(T::size()))
}

// The view of the `T` that lies at the end of the bytes.
pub(crate) fn viewed<'a, T: Portable>(rt: &impl Abort, bytes: &'a [u8]) -> Ref<'a, T> {
    root_of::<T>(bytes).expect(rt, "an archive")
}

// In each row bytes at whose end no `T` lies, for this reason.
pub(crate) fn assert_refused<T: Portable>(rt: &impl Abort, rows: &[(&[u8], Error)]) {
    for (bytes, refusal) in rows {
        let found = (*bytes, root_of::<T>(bytes).err());
        assert_same(rt, "a refusal", found, (*bytes, Some(*refusal)));
    }
}

// What is read back of an archive.
pub(crate) fn value_of<T: Archive>(rt: &impl Abort, alloc: Global, archive: &[u8]) -> T
where
    T::Archived: Deserialize<T, ()>,
{
    let root = viewed::<T::Archived>(rt, archive);
    <T::Archived as Deserialize<T, ()>>::deserialize(alloc, root, &mut ()).expect(rt, "a value")
}

// An archive is that of a value, and is read back as this value.
pub(crate) fn assert_archived<T: Serialize<ByParts> + PartialEq + Debug + Drop>(
    rt: &impl Abort,
    alloc: Global,
    value: &T,
    archive: &[u8],
)
where
    T::Archived: Deserialize<T, ()>,
{
    assert_written(rt, alloc, value, archive);
    let back: T = value_of(rt, alloc, archive);
    assert_same(rt, "what is read back", &back, value);
}

// The archive of a value, if it has one. The writer is the vector itself: a call at a long tuple is a fifth cheaper than one of `archived`.
fn bytes_of<T: Serialize<Vec<u8>>>(alloc: Global, value: &T) -> Option<Vec<u8>> {
    let mut bytes = Vec::new(alloc);
    let root = serialize_with(alloc, value, &mut bytes);
    if root.is_err() {
        return None;
    }
    Some(bytes)
}

// What is read back of an archive, if it is one.
fn found<T: Archive>(alloc: Global, archive: &[u8]) -> Option<T>
where
    T::Archived: Deserialize<T, ()>,
{
    let root = root_of::<T::Archived>(archive).ok()?;
    <T::Archived as Deserialize<T, ()>>::deserialize(alloc, root, &mut ()).ok()
}

// Whether these bytes are the archive of a value.
fn is_written<T: Serialize<Vec<u8>>>(alloc: Global, value: &T, archive: &[u8]) -> bool {
    match bytes_of(alloc, value) {
        Some(bytes) => bytes.as_slice() == archive,
        None => false,
    }
}

// Whether these bytes are the archive of a value, and of what is read back of them. A test of a long tuple calls this alone, since one call at it is dear.
pub(crate) fn is_kept<T: Serialize<Vec<u8>> + Drop>(alloc: Global, archive: &[u8], value: T) -> bool
where
    T::Archived: Deserialize<T, ()>,
{
    let back: Option<T> = found(alloc, archive);
    let Some(back) = back else {
        return false;
    };
    is_written(alloc, &value, archive) && is_written(alloc, &back, archive)
}

// The number that is viewed, if there is one.
pub(crate) fn number_of<N: Native>(view: Option<Ref<'_, LittleEndian<N>>>) -> Option<N> {
    match view {
        Some(view) => Some(view.get()),
        None => None,
    }
}

// What a value feeds a hasher comes to.
pub(crate) fn hash_of<T: Hash>(value: &T) -> u64 {
    let mut state = DefaultHasher::new();
    value.hash(&mut state);
    state.finish()
}
