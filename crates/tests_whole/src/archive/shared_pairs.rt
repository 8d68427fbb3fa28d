// Pairs of shared and weak pointers: written and read back. What is done with a pair is said of any two types once, and what with two pointers of any type,
// so that a test hands over what the type it is about does, and not what the pair or the pointers do.

use crate::archive::pairs::{
    NUMBER_AND_NULL, ONE_NUMBER, assert_pair_written, read_pair, shared, shared_slice, twice,
};
use crate::assertions::{assert_holds, assert_same, assert_unwritten, assert_written, read};
use archive_core::api::{HighDeserializer, HighSerializer};
use archive_core::error::Error;
use archive_core::pooling::{Pool, Pooling, Unpool};
use archive_core::rc::{Shared, SharedSlice, SharedStr, WeakShared};
use archive_core::traits::{Archive, Deserialize, Serialize};
use std::alloc::Global;
use std::process::Abort;
use std::rc::{Rc, RcStr};

// Two pointers to one unit, behind which a zero stands.
const ONE_UNIT: &[u8] = b"\0\0\0\0\xfc\xff\xff\xff\xf8\xff\xff\xff";

// An empty slice, behind which a zero stands, and a slice of a 100.
const TWO_SLICES: &[u8] = b"\0\0\0\0\x64\0\0\0\xf8\xff\xff\xff\0\0\0\0\xf4\xff\xff\xff\x01\0\0\0";

// Two pointers to one slice of the texts "hello" and "world".
const ONE_SLICE_OF_TEXTS: &[u8] =
    b"hello\xff\xff\xffworld\xff\xff\xff\xf0\xff\xff\xff\x02\0\0\0\xe8\xff\xff\xff\x02\0\0\0";

// A pointer to the text "hello".
const TEXT: &[u8] = b"hello\0\0\0\xf8\xff\xff\xff\x05\0\0\0";

// The archive of two pointers to one value.
fn assert_written_once<T: Serialize<HighSerializer<Vec<u8>, Global>> + Drop>(
    rt: &impl Abort,
    alloc: Global,
    value: T,
    archive: &[u8],
) {
    assert_pair_written(rt, alloc, &twice(rt, alloc, value), archive);
}

// And of two pointers to slices.
fn assert_slices_written<T: Serialize<HighSerializer<Vec<u8>, Global>> + Drop>(
    rt: &impl Abort,
    alloc: Global,
    pair: &(SharedSlice<T>, SharedSlice<T>),
    archive: &[u8],
) {
    assert_pair_written(rt, alloc, pair, archive);
}

// And of a pointer to a 10 with a weak one to it, or with a null.
fn assert_weak_written(rt: &impl Abort, alloc: Global, is_null: bool, archive: &[u8]) {
    let (number, same) = twice(rt, alloc, 10u32);
    let value = if is_null { None } else { Some(same) };
    assert_pair_written(rt, alloc, &(number, WeakShared { value }), archive);
}

#[test]
fn two_pointers_to_one_value(rt: HostRuntime) {
    assert_written_once(&rt, rt.alloc(), 10u32, ONE_NUMBER);
    assert_written_once(&rt, rt.alloc(), (), ONE_UNIT);
}

#[test]
fn an_empty_slice_and_one_of_a_number(rt: HostRuntime) {
    let empty: SharedSlice<u32> = shared_slice(&rt, 1, Vec::new(rt.alloc()));
    let numbers = vec![in rt.alloc(); 100u32].expect(&rt, "memory");
    let slices = (empty, shared_slice(&rt, 2, numbers));
    assert_slices_written(&rt, rt.alloc(), &slices, TWO_SLICES);
}

#[test]
fn two_pointers_to_one_slice_of_texts(rt: HostRuntime) {
    let hello = String::from_str(rt.alloc(), "hello").expect(&rt, "memory");
    let world = String::from_str(rt.alloc(), "world").expect(&rt, "memory");
    let texts = vec![in rt.alloc(); hello, world].expect(&rt, "memory");
    let first = shared_slice(&rt, 1, texts);
    let second = first.clone().expect(&rt, "memory");
    assert_slices_written(&rt, rt.alloc(), &(first, second), ONE_SLICE_OF_TEXTS);
}

#[test]
fn a_shared_and_a_weak_pointer_to_one_number(rt: HostRuntime) {
    assert_weak_written(&rt, rt.alloc(), false, ONE_NUMBER);
    assert_weak_written(&rt, rt.alloc(), true, NUMBER_AND_NULL);
}

#[test]
fn a_shared_text(rt: HostRuntime) {
    let value = RcStr::from_str(rt.alloc(), "hello").expect(&rt, "memory");
    assert_written(&rt, rt.alloc(), &SharedStr { key: 1, value }, TEXT);
    let text: SharedStr = read(&rt, rt.alloc(), TEXT, &mut Unpool);
    assert_same(&rt, "the text", text.value.as_str(), "hello");
}

// A value that is shared with its key within itself is refused.
#[test]
fn a_key_within_itself_is_refused(rt: HostRuntime) {
    let inner = shared(&rt, rt.alloc(), 7, 10u32);
    let outer = shared(&rt, rt.alloc(), 7, inner);
    assert_unwritten(&rt, rt.alloc(), &outer, Error::CyclicSerialize);
}

// What is read back of two pointers.
fn read_two<T: Archive + Drop, D: Pooling<Shared<T>>>(
    rt: &impl Abort,
    alloc: Global,
    archive: &[u8],
    deserializer: &mut D,
) -> (Shared<T>, Shared<T>)
where
    T::Archived: Deserialize<T, D>,
{
    let pair = read_pair(rt, alloc, archive, deserializer, Error::OutOfMemory);
    pair.expect(rt, "a pair")
}

// And of two pointers to slices.
fn read_slices<T: Archive + Drop, D: Pooling<SharedSlice<T>>>(
    rt: &impl Abort,
    alloc: Global,
    archive: &[u8],
    deserializer: &mut D,
) -> (SharedSlice<T>, SharedSlice<T>)
where
    T::Archived: Deserialize<T, D>,
{
    let pair = read_pair(rt, alloc, archive, deserializer, Error::OutOfMemory);
    pair.expect(rt, "a pair")
}

// And of a pointer to a number with a weak one, by a pool.
fn read_weak(rt: &impl Abort, alloc: Global, archive: &[u8]) -> (Shared<u32>, WeakShared<u32>) {
    let mut pool: Pool<Shared<u32>> = Pool::new(alloc);
    let pair = read_pair(rt, alloc, archive, &mut pool, Error::OutOfMemory);
    pair.expect(rt, "a pair")
}

// Each of two pointers that are read back leads to a 10 and has the key 0, and both to one 10 or to two.
fn assert_tens<D: Pooling<Shared<u32>>>(
    rt: &impl Abort,
    alloc: Global,
    deserializer: &mut D,
    in_one_place: bool,
) {
    let (first, second) = read_two(rt, alloc, ONE_NUMBER, deserializer);
    let one = Rc::ptr_eq(&first.value, &second.value);
    assert_same(rt, "the keys", (first.key, second.key), (0, 0));
    let found = (*first.value, *second.value, one);
    assert_same(rt, "the numbers", found, (10, 10, in_one_place));
}

#[test]
fn two_pointers_to_one_number_are_read_back(rt: HostRuntime) {
    let mut pool: HighDeserializer<Shared<u32>> = Pool::new(rt.alloc());
    assert_tens(&rt, rt.alloc(), &mut pool, true);
    assert_tens(&rt, rt.alloc(), &mut Unpool, false);
}

#[test]
fn slices_are_read_back(rt: HostRuntime) {
    let pool = Pool::with_capacity(rt.alloc(), 2);
    let mut pool: Pool<SharedSlice<u32>> = pool.expect(&rt, "memory");
    let (first, second) = read_slices(&rt, rt.alloc(), TWO_SLICES, &mut pool);
    let found = (first.key, first.value.len(), second.key);
    assert_same(&rt, "the first, and the second's key", found, (0, 0, 4));
    assert_same(&rt, "the second", second.value.as_slice(), &[100]);
}

// A pointer that is read back leads to a 10 and has the key 0, and so the weak one, where that is no null.
fn assert_ten(rt: &impl Abort, alloc: Global, archive: &[u8], is_null: bool) {
    let (number, weak) = read_weak(rt, alloc, archive);
    assert_same(rt, "the number", (number.key, *number.value), (0, 10));
    let Some(same) = weak.value else {
        assert_holds(rt, "null", is_null);
        return;
    };
    let found = (same.key, *same.value, is_null);
    assert_same(rt, "the weak one", found, (0, 10, false));
}

#[test]
fn a_weak_pointer_is_read_back(rt: HostRuntime) {
    assert_ten(&rt, rt.alloc(), ONE_NUMBER, false);
    assert_ten(&rt, rt.alloc(), NUMBER_AND_NULL, true);
}
