// Pairs of any two types, and shared values of any type. What a call at a pair takes is written out here once, and who calls with certain types hands over
// what these do alone.

use crate::assertions::{assert_written, read_unless, viewed};
use archive_core::api::HighSerializer;
use archive_core::core_impls::ArchivedTuple2;
use archive_core::error::Error;
use archive_core::rc::{Shared, SharedSlice};
use archive_core::traits::{Archive, Deserialize, Entries, Portable, Serialize};
use archive_core::view::Ref;
use std::alloc::Global;
use std::process::Abort;
use std::rc::{Rc, RcSlice};

// Two pointers to one 10; the second may be weak.
pub(super) const ONE_NUMBER: &[u8; 12] = b"\x0a\0\0\0\xfc\xff\xff\xff\xf8\xff\xff\xff";

// A pointer to a 10, and a null.
pub(super) const NUMBER_AND_NULL: &[u8; 12] = b"\x0a\0\0\0\xfc\xff\xff\xff\x01\0\0\0";

// A value that is shared under a key.
pub(super) fn shared<T: Drop>(rt: &impl Abort, alloc: Global, key: u64, value: T) -> Shared<T> {
    let value = Rc::new(alloc, value).expect(rt, "memory");
    Shared { key, value }
}

// And values that are.
pub(super) fn shared_slice<T: Drop>(rt: &impl Abort, key: u64, values: Vec<T>) -> SharedSlice<T> {
    let value = RcSlice::from_vec(values).expect(rt, "memory");
    SharedSlice { key, value }
}

// Two pointers to one value.
pub(super) fn twice<T: Drop>(rt: &impl Abort, alloc: Global, value: T) -> (Shared<T>, Shared<T>) {
    let first = shared(rt, alloc, 1, value);
    let second = first.clone().expect(rt, "memory");
    (first, second)
}

// These bytes are the archive of a pair.
pub(super) fn assert_pair_written<
    A: Serialize<HighSerializer<Vec<u8>, Global>>,
    B: Serialize<HighSerializer<Vec<u8>, Global>>,
>(rt: &impl Abort, alloc: Global, pair: &(A, B), archive: &[u8]) {
    assert_written(rt, alloc, pair, archive);
}

// What is read back of a pair, or nothing where that is refused so.
pub(super) fn read_pair<A: Archive + Drop, B: Archive + Drop, D: Entries>(
    rt: &impl Abort,
    alloc: Global,
    archive: &[u8],
    deserializer: &mut D,
    refusal: Error,
) -> Option<(A, B)>
where
    A::Archived: Deserialize<A, D>,
    B::Archived: Deserialize<B, D>,
{
    read_unless(rt, alloc, archive, deserializer, refusal)
}

// The views of the parts of a pair of these at the end of the bytes.
pub(super) fn parts_of_pair<'a, A: Portable, B: Portable>(
    rt: &impl Abort,
    alloc: Global,
    bytes: &'a [u8],
) -> (Ref<'a, A>, Ref<'a, B>) {
    let pair = viewed::<ArchivedTuple2<A, B>>(rt, alloc, bytes);
    (pair.field::<A>(0), pair.field::<B>(1))
}
