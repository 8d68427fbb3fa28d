// Leaves of every kind.

use crate::assertions::{assert_archived, assert_same, assert_unwritten, assert_written, viewed};
use archive_check::format::error::Error;
use archive_types::primitive::{
    ArchivedNonZeroU16, ArchivedU16, ArchivedU32, Integer, LittleEndian, Native, NonZero, Plain,
};
use std::alloc::Global;
use std::fmt::Debug;
use std::process::Abort;

// A view of an archived number gives this one.
fn assert_number<N: Native + Debug + Drop>(rt: &impl Abort, bytes: &[u8], number: N) {
    let view = viewed::<LittleEndian<N>>(rt, bytes);
    assert_same(rt, "a number", view.get(), number);
}

// A view of a leaf that is its own format gives this one.
fn assert_leaf<N: Plain + PartialEq + Debug + Drop>(rt: &impl Abort, bytes: &[u8], leaf: N) {
    let view = viewed::<N>(rt, bytes);
    assert_same(rt, "a leaf", view.get(), leaf);
}

// A view of a number that isn't 0 gives this one.
fn assert_not_zero<N: Integer + Debug + Drop>(rt: &impl Abort, bytes: &[u8], number: N) {
    let view = viewed::<NonZero<N>>(rt, bytes);
    assert_same(rt, "a number that isn't 0", view.get(), number);
}

// The number and its format have this archive, which is viewed, and read back as both.
fn assert_both(rt: &impl Abort, alloc: Global, value: u32, archive: &[u8]) {
    assert_archived(rt, alloc, &value, archive);
    assert_number(rt, archive, value);
    assert_archived(rt, alloc, &ArchivedU32::from_native(value), archive);
}

#[test]
fn numbers_and_their_archives(rt: HostRuntime) {
    assert_both(&rt, rt.alloc(), 42, b"\x2a\0\0\0");
    assert_both(&rt, rt.alloc(), u32::MAX, b"\xff\xff\xff\xff");
}

#[test]
fn leaves_of_every_kind_are_written(rt: HostRuntime) {
    let alloc = rt.alloc();
    assert_written(&rt, alloc, &(), b"");
    assert_written(&rt, alloc, &true, b"\x01");
    assert_written(&rt, alloc, &7u8, b"\x07");
    assert_written(&rt, alloc, &-1i8, b"\xff");
    assert_written(&rt, alloc, &-2i16, b"\xfe\xff");
    assert_written(&rt, alloc, &'é', b"\xe9\0\0\0");
    assert_written(&rt, alloc, &ArchivedU16::from_native(2), b"\x02\0");
    assert_written(&rt, alloc, &ArchivedNonZeroU16::from_native(3), b"\x03\0");
}

#[test]
fn leaves_of_every_kind_are_viewed(rt: HostRuntime) {
    assert_leaf(&rt, b"", ());
    assert_leaf(&rt, b"\x01", true);
    assert_leaf(&rt, b"\xff", -1i8);
    assert_number(&rt, b"\xe9\0\0\0", 'é');
    assert_not_zero(&rt, b"\0\x01", 256u16);
    let one = [1, 0, 0, 0, 0, 0, 0, 0, 0, 0, 0, 0, 0, 0, 0, 0];
    assert_number(&rt, &one, 1u128);
}

#[test]
fn lengths_and_offsets_have_32_bits(rt: HostRuntime) {
    let alloc = rt.alloc();
    let too_large = Error::NumberTooLarge;
    assert_archived(&rt, alloc, &4_294_967_295usize, b"\xff\xff\xff\xff");
    assert_unwritten(&rt, "a length", alloc, &4_294_967_296usize, too_large);
    assert_archived(&rt, alloc, &-2isize, b"\xfe\xff\xff\xff");
    assert_unwritten(&rt, "an offset", alloc, &2_147_483_648isize, too_large);
}
