// Bytes made by hand, and what the schema of a text says of them: pointers, what is shared, and maps.

use crate::checks::{Row, assert_rows};

// A region lies in one box alone, and regions rise.
const REGIONS: [Row; 17] = [
    (
        "[BoxSlice<u8>; 2]",
        b"Hello world\0\xf4\xff\xff\xff\x05\0\0\0\xf2\xff\xff\xff\x05\0\0\0",
        12,
        "3",
    ),
    (
        "[BoxSlice<u8>; 2]",
        b"Hello world\0\xf4\xff\xff\xff\x0b\0\0\0\xec\xff\xff\xff\x0b\0\0\0",
        12,
        "region of 11 bytes at position 0 lies outside 11..12",
    ),
    (
        "[BoxSlice<u8>; 2]",
        b"Hello world\0\xf0\xff\xff\xff\x0b\0\0\0\xe8\xff\xff\xff\x0b\0\0\0",
        12,
        "region of 11 bytes at position -4 lies outside 0..12",
    ),
    (
        "[Box<u32>; 2]",
        b"\x01\0\0\0\x02\0\0\0\xf8\xff\xff\xff\xf8\xff\xff\xff",
        8,
        "3",
    ),
    (
        "[Box<u32>; 2]",
        b"\x01\0\0\0\x02\0\0\0\xfc\xff\xff\xff\xf4\xff\xff\xff",
        8,
        "region of 4 bytes at position 0 lies outside 8..8",
    ),
    (
        "Vec<Vec<u32>>",
        b"\x01\0\0\0\x02\0\0\0\xf8\xff\xff\xff\x01\0\0\0\xf4\xff\xff\xff\x01\0\0\0\xf0\xff\xff\xff\x02\0\0\0",
        24,
        "4",
    ),
    (
        "Vec<Vec<u32>>",
        b"\x01\0\0\0\x02\0\0\0\xfc\xff\xff\xff\x01\0\0\0\xf0\xff\xff\xff\x01\0\0\0\xf0\xff\xff\xff\x02\0\0\0",
        24,
        "region of 4 bytes at position 0 lies outside 8..8",
    ),
    (
        "[Vec<String>; 2]",
        b"hi\xff\xff\xff\xff\xff\xffyo\xff\xff\xff\xff\xff\xff\xf0\xff\xff\xff\x01\0\0\0\xf0\xff\xff\xff\x01\0\0\0",
        16,
        "3",
    ),
    (
        "[Vec<String>; 2]",
        b"hi\xff\xff\xff\xff\xff\xffy\xfe\xff\xff\xff\xff\xff\xff\xf0\xff\xff\xff\x01\0\0\0\xf0\xff\xff\xff\x01\0\0\0",
        16,
        "text is not valid UTF-8",
    ),
    (
        NODE,
        b"\x01\0\0\0\x04\0\0\0\x01\0\0\0\xf4\xff\xff\xff",
        8,
        "region of 8 bytes at position 8 lies outside 0..0",
    ),
    (
        FLAGS,
        b"\0\0\0\0\0\0\0\0\x01\x01\0\0\xf4\xff\xff\xff\x01\0\0\0\xf4\xff\xff\xff",
        16,
        "3",
    ),
    (
        FLAGS,
        b"\0\0\0\0\0\0\0\0\x01\x02\0\0\xf4\xff\xff\xff\x01\0\0\0\xf4\xff\xff\xff",
        16,
        "the byte of a bool is neither 0 nor 1",
    ),
    (
        FLAGS,
        b"\x02\0\0\0\0\0\0\0\x01\x01\0\0\xf4\xff\xff\xff\x01\0\0\0\xf4\xff\xff\xff",
        16,
        "tag 2 names no variant of ArchivedFlags",
    ),
    (
        FLAGS,
        b"\0\0\0\0\0\0\0\0\x01\x01\0\0\xf4\xff\xff\xff\x01\0\0\0\xfc\xff\xff\xff",
        16,
        "region of 8 bytes at position 16 lies outside 0..16",
    ),
    (
        TREE_OF_PAIRS,
        b"\0\0\0\0\0\0\0\0\x07\0\0\0\xf4\xff\xff\xff\x01\0\0\0",
        12,
        "3",
    ),
    (
        TREE_OF_PAIRS,
        b"\0\0\0\0\x01\0\0\0\x07\0\0\0\xf4\xff\xff\xff\x01\0\0\0",
        12,
        "region of 12 bytes at position 0 lies outside 0..0",
    ),
    (
        TREE_OF_PAIRS,
        b"\0\0\0\0\0\0\0\0\x07\0\0\0\xf4\xff\xff\xff\x02\0\0\0",
        12,
        "region of 24 bytes at position 0 lies outside 0..12",
    ),
];

pub(crate) const NODE: &str = "enum Node { End, More(Box<Node>) }";

pub(crate) const FLAGS: &str = "enum Flags { End, More(bool, Box<Flags>) }";

pub(crate) const TREE_OF_PAIRS: &str = "struct Tree { children: Vec<(Tree, u32)> }";

#[test]
fn regions_lie_apart_and_rise(rt: HostRuntime) {
    assert_rows(&rt, rt.alloc(), &REGIONS);
}

// A position that is shared has one type and length. A cycle is refused, and a null isn't followed.
const SHARED: [Row; 14] = [
    ("Shared<u32>", b"\x07\0\0\0\xfc\xff\xff\xff", 4, "2"),
    (
        "Shared<u32>",
        b"\x07\0\0\0\x01\0\0\0",
        4,
        "region of 4 bytes at position 5 lies outside 0..4",
    ),
    ("WeakShared<u32>", b"\x07\0\0\0\xfc\xff\xff\xff", 4, "2"),
    ("WeakShared<u32>", b"\x07\0\0\0\x01\0\0\0", 4, "1"),
    (
        "WeakShared<str>",
        b"hi\0\0\xfc\xff\xff\xff\x02\0\0\0",
        4,
        "2",
    ),
    (
        "WeakShared<str>",
        b"h\xfe\0\0\xfc\xff\xff\xff\x02\0\0\0",
        4,
        "text is not valid UTF-8",
    ),
    (
        "WeakShared<str>",
        b"h\xfe\0\0\x01\0\0\0\xff\xff\xff\xff",
        4,
        "1",
    ),
    (
        "[Shared<u32>; 2]",
        b"\x0a\0\0\0\xfc\xff\xff\xff\xf8\xff\xff\xff",
        4,
        "2",
    ),
    (
        "[Shared<u32>; 2]",
        b"\x0a\0\0\0\x0b\0\0\0\xfc\xff\xff\xff\xf4\xff\xff\xff",
        8,
        "region of 4 bytes at position 0 lies outside 8..8",
    ),
    (
        "(Shared<u32>, Shared<i32>)",
        b"\x0a\0\0\0\xfc\xff\xff\xff\xf8\xff\xff\xff",
        4,
        "pointers of two types lead to one shared value",
    ),
    (
        "[SharedSlice<u8>; 2]",
        b"\x01\x02\x03\x04\xfc\xff\xff\xff\x04\0\0\0\xf4\xff\xff\xff\x02\0\0\0",
        4,
        "pointers of two lengths lead to one shared value",
    ),
    (
        "[Shared<()>; 2]",
        b"\0\0\0\0\xfc\xff\xff\xff\xf8\xff\xff\xff",
        4,
        "2",
    ),
    (
        INNER,
        b"\0\0\0\0\xfc\xff\xff\xff",
        4,
        "a shared value contains itself, which its flavor forbids",
    ),
    (INNER, b"\x01\0\0\0\xfc\xff\xff\xff", 4, "2"),
];

const INNER: &str = "struct Inner { inner: WeakShared<Inner> } Shared<Inner>";

#[test]
fn what_is_shared_is_followed(rt: HostRuntime) {
    assert_rows(&rt, rt.alloc(), &SHARED);
}

// Keys ascend strictly, numbers by value and strings by their bytes, and each is looked at before its value. Values that are shared or maps wait on the list of
// a check.
const MAPS: [Row; 16] = [
    (
        "BTreeMap<i32, u32>",
        b"\xff\xff\xff\xff\x05\0\0\0\x01\0\0\0\x06\0\0\0\xf0\xff\xff\xff\x02\0\0\0",
        16,
        "2",
    ),
    (
        "BTreeMap<i32, u32>",
        b"\x01\0\0\0\x05\0\0\0\x01\0\0\0\x06\0\0\0\xf0\xff\xff\xff\x02\0\0\0",
        16,
        UNSORTED,
    ),
    (
        "BTreeMap<u32, u32>",
        b"\xff\xff\xff\xff\x05\0\0\0\x01\0\0\0\x06\0\0\0\xf0\xff\xff\xff\x02\0\0\0",
        16,
        UNSORTED,
    ),
    (
        "BTreeMap<u32, u32>",
        b"\x01\0\0\0\x05\0\0\0\x01\0\0\0\x06\0\0\0\xf0\xff\xff\xff\x02\0\0\0",
        16,
        UNSORTED,
    ),
    (
        "BTreeMap<u32, bool>",
        b"\x02\0\0\0\x01\0\0\0\x01\0\0\0\x02\0\0\0\xf0\xff\xff\xff\x02\0\0\0",
        16,
        UNSORTED,
    ),
    (
        "BTreeMap<u32, bool>",
        b"\x02\0\0\0\x02\0\0\0\x01\0\0\0\x02\0\0\0\xf0\xff\xff\xff\x02\0\0\0",
        16,
        "the byte of a bool is neither 0 nor 1",
    ),
    ("BTreeMap<(), ()>", b"\0\0\0\0\0\0\0\0", 0, "2"),
    ("BTreeMap<(), ()>", b"\0\0\0\0\x01\0\0\0", 0, "2"),
    ("BTreeMap<(), ()>", b"\0\0\0\0\x02\0\0\0", 0, UNSORTED),
    ("BTreeMap<(), ()>", b"\0\0\0\0\xff\xff\xff\xff", 0, UNSORTED),
    (
        "BTreeMap<(), u32>",
        b"\x01\0\0\0\x02\0\0\0\xf8\xff\xff\xff\x02\0\0\0",
        8,
        UNSORTED,
    ),
    (
        "BTreeMap<String, u32>",
        b"hello world\0a\xff\xff\xff\xff\xff\xff\xff\x01\0\0\0\x8b\0\0\0\xe8\xff\xff\xff\x02\0\0\0\xe8\xff\xff\xff\x02\0\0\0",
        36,
        "3",
    ),
    (
        "BTreeMap<String, u32>",
        b"hello world\0\x8b\0\0\0\xf4\xff\xff\xff\x02\0\0\0a\xff\xff\xff\xff\xff\xff\xff\x01\0\0\0\xe8\xff\xff\xff\x02\0\0\0",
        36,
        UNSORTED,
    ),
    (
        "BTreeMap<u32, Shared<u32>>",
        b"\x07\0\0\0\x01\0\0\0\xf8\xff\xff\xff\x02\0\0\0\xf0\xff\xff\xff\xf0\xff\xff\xff\x02\0\0\0",
        20,
        "3",
    ),
    (
        "BTreeMap<u32, Shared<u32>>",
        b"\x07\0\0\0\x01\0\0\0\xf8\xff\xff\xff\x01\0\0\0\xf0\xff\xff\xff\xf0\xff\xff\xff\x02\0\0\0",
        20,
        UNSORTED,
    ),
    (
        "BTreeMap<u32, BTreeMap<u32, u32>>",
        b"\x01\0\0\0\x05\0\0\0\x03\0\0\0\xf4\xff\xff\xff\x01\0\0\0\xf4\xff\xff\xff\x01\0\0\0",
        20,
        "3",
    ),
];

const UNSORTED: &str = "the keys of a sorted map do not ascend strictly";

#[test]
fn the_keys_of_maps_ascend(rt: HostRuntime) {
    assert_rows(&rt, rt.alloc(), &MAPS);
}
