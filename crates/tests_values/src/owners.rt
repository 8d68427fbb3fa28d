// Boxes, slices and vectors: what is written and read back of them.

use crate::assertions::{assert_archived, assert_bytes, assert_same, assert_written, viewed};
use archive_check::format::error::Error;
use archive_types::boxed::{ArchivedBox, BoxResolver};
use archive_types::place::Place;
use archive_types::primitive::{ArchivedU16, ArchivedU32};
use archive_types::ser::{Positional, Serializer};
use archive_types::slice::{ArchivedSlice, Slice};
use archive_types::string::ArchivedString;
use archive_types::traits::{ArchiveUnsized, DeserializeUnsized, SerializeUnsized};
use archive_types::vec::{ArchivedVec, VecResolver};
use std::alloc::Global;
use std::process::Abort;

// The numbers 1 and 2, and at 8 the vector that points back at them.
pub(crate) const ONE_AND_TWO: &[u8] = b"\x01\0\0\0\x02\0\0\0\xf8\xff\xff\xff\x02\0\0\0";

// These bytes are the archive of the numbers.
pub(crate) fn assert_numbers(rt: &impl Abort, alloc: Global, numbers: &Vec<u32>, archive: &[u8]) {
    assert_archived(rt, alloc, numbers, archive);
}

#[test]
fn vectors_and_their_archives(rt: HostRuntime) {
    let numbers = vec![in rt.alloc(); 1u32, 2].expect(&rt, "memory");
    assert_numbers(&rt, rt.alloc(), &numbers, ONE_AND_TWO);
    let empty = Vec::new(rt.alloc());
    assert_numbers(&rt, rt.alloc(), &empty, b"\0\0\0\0\0\0\0\0");
}

#[test]
fn what_elements_own_comes_first(rt: HostRuntime) {
    let hello = String::from_str(rt.alloc(), "hello world").expect(&rt, "memory");
    let hi = String::from_str(rt.alloc(), "hi").expect(&rt, "memory");
    let texts = vec![in rt.alloc(); hello, hi].expect(&rt, "memory");
    let archive =
        b"hello world\0\x8b\0\0\0\xf4\xff\xff\xffhi\xff\xff\xff\xff\xff\xff\xf0\xff\xff\xff\x02\0\0\0";
    assert_written(&rt, rt.alloc(), &texts, archive);
}

#[test]
fn boxes_in_a_vector_come_first(rt: HostRuntime) {
    let one = Box::new(rt.alloc(), 1u32).expect(&rt, "memory");
    let two = Box::new(rt.alloc(), 2u32).expect(&rt, "memory");
    let boxes = vec![in rt.alloc(); one, two].expect(&rt, "memory");
    let archive = b"\x01\0\0\0\x02\0\0\0\xf8\xff\xff\xff\xf8\xff\xff\xff\xf8\xff\xff\xff\x02\0\0\0";
    assert_archived(&rt, rt.alloc(), &boxes, archive);
}

// A vector of one bool, which is true, and at 12 a vector of that one.
#[test]
fn vectors_of_vectors_and_their_archives(rt: HostRuntime) {
    let archive = b"\x01\0\0\0\xfc\xff\xff\xff\x01\0\0\0\xf8\xff\xff\xff\x01\0\0\0";
    let list = vec![in rt.alloc(); true].expect(&rt, "memory");
    let lists = vec![in rt.alloc(); list].expect(&rt, "memory");
    assert_archived(&rt, rt.alloc(), &lists, archive);
}

#[test]
fn slices_and_single_values_come_back(rt: HostRuntime) {
    let view = viewed::<ArchivedVec<ArchivedU32>>(&rt, ONE_AND_TWO);
    let slice = view.as_slice();
    let back = ArchivedSlice::<ArchivedU32>::deserialize_unsized(rt.alloc(), slice, &mut ());
    let numbers: Vec<u32> = back.expect(&rt, "numbers");
    assert_same(&rt, "the numbers", numbers.as_slice(), &[1, 2]);
    let number = viewed::<ArchivedU32>(&rt, b"\x07\0\0\0");
    let back = ArchivedU32::deserialize_unsized(rt.alloc(), number, &mut ());
    let back: u32 = back.expect(&rt, "a number");
    assert_same(&rt, "the number", back, 7);
}

#[test]
fn a_slice_is_a_region_behind_what_is_there(rt: HostRuntime) {
    let before = vec![in rt.alloc(); 0xaa].expect(&rt, "memory");
    let mut serializer = Serializer::new(before, rt.alloc(), ());
    let numbers = Slice { slice: &[7u16, 9] };
    let Ok(count) = numbers.archived_metadata() else {
        panic!(rt; "no length")
    };
    assert_same(&rt, "the length", count.to_native(), 2);
    let region = numbers.serialize_unsized(&mut serializer);
    let region = region.expect(&rt, "written");
    assert_same(
        &rt,
        "the region and the end",
        (region, serializer.pos()),
        (2, 6),
    );
    let bytes = serializer.into_writer();
    let right = b"\xaa\0\x07\0\x09\0";
    assert_bytes(&rt, "the bytes", bytes.as_slice(), right);
}

#[test]
fn a_vector_is_written_and_resolved_by_parts(rt: HostRuntime) {
    let mut serializer = Serializer::new(Vec::new(rt.alloc()), rt.alloc(), ());
    let resolver = ArchivedVec::<ArchivedU16>::serialize_from_slice(&[1u16], &mut serializer);
    let Ok(resolver) = resolver else {
        panic!(rt; "not written")
    };
    let mut place = [0; 8];
    let near = Place::new(2, &mut place);
    ArchivedVec::<ArchivedU16>::resolve_from_slice(&[1u16], resolver, near).expect(&rt, "resolved");
    assert_same(&rt, "the vector", place, *b"\xfe\xff\xff\xff\x01\0\0\0");
}

#[test]
fn what_a_box_and_a_string_lead_to_is_written(rt: HostRuntime) {
    let mut serializer = Serializer::new(Vec::new(rt.alloc()), rt.alloc(), ());
    let Ok(_) = ArchivedBox::<ArchivedU16>::serialize_from_ref(&258u16, &mut serializer) else {
        panic!(rt; "no number")
    };
    let Ok(_) = ArchivedString::serialize_from_str("hello world", &mut serializer) else {
        panic!(rt; "no text")
    };
    let bytes = serializer.into_writer();
    assert_bytes(&rt, "the bytes", bytes.as_slice(), b"\x02\x01hello world");
}

// Why a vector of three numbers that lie at 4 isn't resolved at a position, if it isn't.
fn refusal_at(pos: usize, place: &mut [u8; 8]) -> Option<Error> {
    let resolver = VecResolver::from_pos(4);
    let place = Place::new(pos, place);
    ArchivedVec::<ArchivedU32>::resolve_from_len(3, resolver, place).err()
}

#[test]
fn owners_are_resolved_by_position(rt: HostRuntime) {
    let mut place = [0; 8];
    let near = (refusal_at(16, &mut place), place);
    assert_same(&rt, "near", near, (None, *b"\xf4\xff\xff\xff\x03\0\0\0"));
    let far = (refusal_at(4_294_967_295, &mut place), place);
    let wanted = (Some(Error::OffsetOverflow), *b"\xf4\xff\xff\xff\x03\0\0\0");
    assert_same(&rt, "too far", far, wanted);
    let mut place = [0; 4];
    let near = Place::new(4, &mut place);
    let resolver = BoxResolver::from_pos(8);
    let resolved = ArchivedBox::<ArchivedU32>::resolve_from_raw_parts(resolver, 0, near);
    resolved.expect(&rt, "a box");
    assert_same(&rt, "the box", place, [4, 0, 0, 0]);
}
