// Lengths in metres: an own type that is copied in bulk.

use crate::assertions::{assert_read, assert_same, assert_written};
use archive_core::traits::Archive;
use own_types::metres::Metres;

// Two numbers of four bytes, and at 8 the vector that points back at them.
const LENGTHS: &[u8; 16] = b"\x07\0\0\0\0\x01\0\0\xf8\xff\xff\xff\x02\0\0\0";

#[test]
fn lengths_are_copied(rt: HostRuntime) {
    let lengths = vec![in rt.alloc(); Metres { number: 7 }, Metres { number: 256 }];
    let lengths = lengths.expect(&rt, "memory for lengths");
    assert_written(&rt, rt.alloc(), &lengths, LENGTHS);
}

#[test]
fn lengths_come_back(rt: HostRuntime) {
    let lengths = vec![in rt.alloc(); Metres { number: 7 }, Metres { number: 256 }];
    let lengths = lengths.expect(&rt, "memory for lengths");
    assert_read(&rt, rt.alloc(), LENGTHS, &lengths);
    assert_same(
        &rt,
        "the switch",
        Metres::copy_optimization().is_enabled(),
        true,
    );
}
