// The values of maps are written over in place.

use crate::assertions::{assert_same, sealed};
use archive_core::map::ArchivedSortedMap;
use archive_core::primitive::ArchivedU32;
use archive_core::string::ArchivedString;
use std::alloc::Global;
use std::process::Abort;

// A text and a zero, and at 12 the entries "a" to 1 and "hello world" to 2. At 36 the map that points back at them.
const TEXTS: [u8; 44] =
    *b"hello world\0a\xff\xff\xff\xff\xff\xff\xff\x01\0\0\0\x8b\0\0\0\xe8\xff\xff\xff\x02\0\0\0\xe8\xff\xff\xff\x02\0\0\0";

// Writes 7 over the value of a text, if it has one.
fn write_by_text(rt: &impl Abort, alloc: Global, bytes: &mut [u8], text: &str) -> bool {
    let key = String::from_str(alloc, text).expect(rt, "memory for a text");
    let map = sealed::<ArchivedSortedMap<ArchivedString, ArchivedU32>>(rt, alloc, bytes);
    match map.get_seal(&key) {
        Some(value) => {
            value.write(7);
            true
        }
        None => false,
    }
}

// Whether a text has a value, and where its number is that is written over.
fn assert_by_text(rt: &impl Abort, alloc: Global, text: &str, at: Option<usize>) {
    let mut bytes = TEXTS;
    let found = write_by_text(rt, alloc, &mut bytes, text);
    let mut wanted = TEXTS;
    if let Some(byte) = wanted.get_mut(at.unwrap_or(44)) {
        *byte = 7;
    }
    assert_same(rt, text, (found, bytes), (at.is_some(), wanted));
}

#[test]
fn a_value_is_written_over_by_its_key(rt: HostRuntime) {
    assert_by_text(&rt, rt.alloc(), "a", Some(20));
    assert_by_text(&rt, rt.alloc(), "hello world", Some(32));
    assert_by_text(&rt, rt.alloc(), "b", None);
}

// Writes 7 over the value of an entry, if there is one.
fn write_by_number(rt: &impl Abort, alloc: Global, bytes: &mut [u8], index: usize) {
    let map = sealed::<ArchivedSortedMap<ArchivedU32, ArchivedU32>>(rt, alloc, bytes);
    if index < map.as_ref().len() {
        map.value_seal(index).write(7);
    }
}

// 1 to 10 and 2 to 20, and at 16 the map that points back at them.
#[test]
fn a_value_is_written_over_by_its_number(rt: HostRuntime) {
    let mut bytes = *b"\x01\0\0\0\x0a\0\0\0\x02\0\0\0\x14\0\0\0\xf0\xff\xff\xff\x02\0\0\0";
    write_by_number(&rt, rt.alloc(), &mut bytes, 1);
    let right = *b"\x01\0\0\0\x0a\0\0\0\x02\0\0\0\x07\0\0\0\xf0\xff\xff\xff\x02\0\0\0";
    assert_same(&rt, "the second", bytes, right);
}
