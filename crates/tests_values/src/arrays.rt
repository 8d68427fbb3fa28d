// Arrays.

use crate::assertions::{
    ByParts, assert_bytes, assert_holds, assert_same, assert_written, number_of, value_of, viewed,
};
use archive_types::array::OwnedArray;
use archive_types::primitive::{ArchivedU16, ArchivedU32};
use archive_types::ser::{ResolveExt, Serializer, WriterExt};
use archive_types::string::ArchivedString;
use archive_types::traits::{Deserialize, Serialize, SerializeUnsized};
use std::alloc::Global;
use std::process::Abort;

// The array of the texts "hi" and "".
const TEXTS: &[u8] = b"hi\xff\xff\xff\xff\xff\xff\xff\xff\xff\xff\xff\xff\xff\xff";

// The array of the numbers 1, 2 and 3.
const NUMBERS: &[u8] = b"\x01\0\x02\0\x03\0";

#[test]
fn arrays_have_their_elements(rt: HostRuntime) {
    let view = viewed::<[ArchivedU16; 3]>(&rt, NUMBERS);
    let last = view.index(2).get();
    assert_same(&rt, "the length and the last", (view.len(), last), (3, 3));
    let found = (number_of(view.get(1)), number_of(view.get(3)));
    assert_same(&rt, "the second, and no fourth", found, (Some(2), None));
    let none = viewed::<[ArchivedU16; 0]>(&rt, b"");
    let empty = (view.is_empty(), none.is_empty());
    assert_same(&rt, "an array of none alone is empty", empty, (false, true));
}

#[test]
fn the_elements_of_an_array_come_from_both_ends(rt: HostRuntime) {
    let mut items = viewed::<[ArchivedU16; 3]>(&rt, NUMBERS).iter();
    assert_same(&rt, "the length", items.len(), 3);
    let last = number_of(items.next_back());
    let found = (number_of(items.next()), number_of(items.next()), last);
    assert_same(&rt, "the items", found, (Some(1), Some(2), Some(3)));
    assert_holds(&rt, "no further one", items.next().is_none());
}

#[test]
fn an_array_is_written_element_by_element(rt: HostRuntime) {
    let numbers: [u16; 3] = [1, 2, 3];
    assert_written(&rt, rt.alloc(), &numbers, NUMBERS);
    let texts = [
        String::from_str(rt.alloc(), "hi").expect(&rt, "memory"),
        String::from_str(rt.alloc(), "").expect(&rt, "memory"),
    ];
    assert_written(&rt, rt.alloc(), &texts, TEXTS);
}

// What is read back from these bytes, which it is written as again.
fn read_and_written<T: Serialize<ByParts> + Drop>(rt: &impl Abort, alloc: Global, bytes: &[u8]) -> T
where
    T::Archived: Deserialize<T, ()>,
{
    let back: T = value_of(rt, alloc, bytes);
    assert_written(rt, alloc, &back, bytes);
    back
}

#[test]
fn an_array_of_numbers_comes_back(rt: HostRuntime) {
    let numbers = read_and_written::<OwnedArray<u16, 3>>(&rt, rt.alloc(), NUMBERS);
    assert_same(&rt, "the numbers", numbers.as_slice(), [1, 2, 3].as_slice());
}

#[test]
fn an_array_of_texts_comes_back(rt: HostRuntime) {
    let texts = read_and_written::<OwnedArray<String, 2>>(&rt, rt.alloc(), TEXTS);
    assert_same(&rt, "the first", texts.as_slice()[0].as_str(), "hi");
    let view = viewed::<[ArchivedString; 2]>(&rt, TEXTS);
    let found = (view.index(0).as_str(), view.index(1).pos());
    assert_same(&rt, "the first, and where the second is", found, ("hi", 8));
}

#[test]
fn an_owned_array_has_as_many_as_it_says(rt: HostRuntime) {
    let numbers = vec![in rt.alloc(); 1, 2].expect(&rt, "memory");
    let Some(two) = OwnedArray::<u32, 2>::from_vec(numbers) else {
        panic!(rt; "not two")
    };
    assert_same(&rt, "of two", two.into_array(), [1, 2]);
    let numbers = vec![in rt.alloc(); 1, 2].expect(&rt, "memory");
    let three = OwnedArray::<u32, 3>::from_vec(numbers);
    assert_holds(&rt, "two elements are no array of three", three.is_none());
}

// Two numbers of 16 bits, and at 4 a pointer back at the array that they are, with no length.
const POINTED: &[u8] = b"\x01\0\x02\0\xfc\xff\xff\xff";

#[test]
fn an_array_is_a_region_of_its_own(rt: HostRuntime) {
    let numbers = [1u16, 2];
    let mut serializer = Serializer::new(Vec::new(rt.alloc()), rt.alloc(), ());
    let region = numbers.serialize_unsized(&mut serializer);
    let region = region.expect(&rt, "an array");
    let end = serializer.align_for::<ArchivedU32>().expect(&rt, "zeros");
    let pointer = serializer.resolve_unsized_aligned(&numbers, region);
    let pointer = pointer.expect(&rt, "a pointer");
    assert_same(&rt, "the positions", (region, end, pointer), (0, 4, 4));
    let bytes = serializer.into_writer();
    assert_bytes(&rt, "the bytes", bytes.as_slice(), POINTED);
}
