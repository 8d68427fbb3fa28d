// Archives that share, one behind the other, and keys that are forgotten.

use crate::archive::pairs::{ONE_NUMBER, shared, twice};
use crate::assertions::{assert_bytes, assert_holds, assert_same};
use archive_core::api::{HighSerializer, serialize_using, to_bytes_into};
use archive_core::error::Error;
use archive_core::ser::{Buffer, Serializer};
use archive_core::sharing::Share;
use archive_core::traits::{Serialize, SerializeUnsized};
use std::alloc::Global;
use std::process::Abort;

// An archive of a value is appended to a vector, with its root here.
fn assert_appended<T: Serialize<HighSerializer<Vec<u8>, Global>>>(
    rt: &impl Abort,
    alloc: Global,
    value: &T,
    bytes: &mut Vec<u8>,
    root: usize,
) {
    let found = to_bytes_into(alloc, value, bytes).expect(rt, "an archive");
    assert_same(rt, "the root", found, root);
}

// Each archive has its own keys: the second one leads to a number of its own.
#[test]
fn a_pair_is_appended_to_a_lent_writer(rt: HostRuntime) {
    let pair = twice(&rt, rt.alloc(), 10u32);
    let mut bytes = Vec::new(rt.alloc());
    assert_appended(&rt, rt.alloc(), &pair, &mut bytes, 4);
    assert_appended(&rt, rt.alloc(), &pair, &mut bytes, 16);
    let right =
        b"\x0a\0\0\0\xfc\xff\xff\xff\xf8\xff\xff\xff\x0a\0\0\0\xfc\xff\xff\xff\xf8\xff\xff\xff";
    assert_bytes(&rt, "the bytes", bytes.as_slice(), right);
}

// A share that knew what was written of a pair to a buffer without room for it, or was still in writing, and is cleared.
fn cleared_share<'a, P: Serialize<HighSerializer<Buffer<'a>, Global>>>(
    rt: &impl Abort,
    alloc: Global,
    pair: &(P, P),
    bytes: &'a mut [u8],
) -> Share {
    let mut serializer = Serializer::new(Buffer::from(bytes), alloc, Share::new(alloc));
    let written = serialize_using(pair, &mut serializer);
    let is_full = matches!(written, Err(Error::BufferOverflow { .. }));
    assert_holds(rt, "no room", is_full);
    let (_, _, mut share) = serializer.into_raw_parts();
    share.clear();
    share
}

// A share serves a value on a new writer: its archive, with its root at 4.
fn assert_serves<T: SerializeUnsized<HighSerializer<Vec<u8>, Global>>>(
    rt: &impl Abort,
    alloc: Global,
    share: Share,
    value: &T,
    archive: &[u8],
) {
    let mut serializer = Serializer::new(Vec::new(alloc), alloc, share);
    let root = serialize_using(value, &mut serializer).expect(rt, "an archive");
    assert_same(rt, "the root", root, 4);
    let bytes = serializer.into_writer();
    assert_bytes(rt, "the archive", bytes.as_slice(), archive);
}

#[test]
fn a_share_cleared_after_a_refusal_serves_as_a_fresh_one(rt: HostRuntime) {
    let pair = twice(&rt, rt.alloc(), 10u32);
    for size in 0..12usize {
        let mut bytes = [0; 12];
        let share = cleared_share(&rt, rt.alloc(), &pair, &mut bytes[..size]);
        assert_serves(&rt, rt.alloc(), share, &pair, ONE_NUMBER);
    }
}

#[test]
fn a_shared_value_is_a_region_of_its_own(rt: HostRuntime) {
    let seven = shared(&rt, rt.alloc(), 1, 7u32);
    let share = Share::new(rt.alloc());
    let archive = b"\x07\0\0\0\xfc\xff\xff\xff";
    assert_serves(&rt, rt.alloc(), share, &seven, archive);
}
