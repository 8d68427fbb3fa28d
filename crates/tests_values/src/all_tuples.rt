// Tuples of each length: written, read back, and written so again.

use crate::assertions::{assert_holds, is_kept};
use std::alloc::Global;

// The bytes of the longest tuple of bytes; a shorter one has the first of them.
const BYTES: &[u8] = &[1, 2, 3, 4, 5, 6, 7, 8, 9, 10, 11, 12, 13];

// So many of them.
fn first(count: usize) -> &'static [u8] {
    BYTES.get(..count).unwrap_or(&[])
}

// The tuple (24, true, 16) of an `i32`, a `bool` and a `u32`.
const THREE: &[u8] = b"\x18\0\0\0\x01\0\0\0\x10\0\0\0";

// The tuple (1, 2, true, 3, 4) of a `u8`, a `u32` at 4, a `bool` at 8, a `u16` at 10 and a `u8` at 12, and zeros up to a multiple of 4. Longer ones are of bytes,
// since the evidence of calls at a tuple of several types is three times as long.
const FIVE: &[u8] = b"\x01\0\0\0\x02\0\0\0\x01\0\x03\0\x04\0\0\0";

fn keeps_one(alloc: Global) -> bool {
    is_kept::<(u8,)>(alloc, first(1), (1,))
}

fn keeps_two(alloc: Global) -> bool {
    is_kept::<(u8, u8)>(alloc, first(2), (1, 2))
}

fn keeps_three(alloc: Global) -> bool {
    is_kept::<(i32, bool, u32)>(alloc, THREE, (24, true, 16))
}

fn keeps_four(alloc: Global) -> bool {
    is_kept::<(u8, u8, u8, u8)>(alloc, first(4), (1, 2, 3, 4))
}

fn keeps_five(alloc: Global) -> bool {
    is_kept::<(u8, u32, bool, u16, u8)>(alloc, FIVE, (1, 2, true, 3, 4))
}

fn keeps_six(alloc: Global) -> bool {
    is_kept::<(u8, u8, u8, u8, u8, u8)>(alloc, first(6), (1, 2, 3, 4, 5, 6))
}

fn keeps_seven(alloc: Global) -> bool {
    is_kept::<(u8, u8, u8, u8, u8, u8, u8)>(alloc, first(7), (1, 2, 3, 4, 5, 6, 7))
}

fn keeps_eight(alloc: Global) -> bool {
    is_kept::<(u8, u8, u8, u8, u8, u8, u8, u8)>(alloc, first(8), (1, 2, 3, 4, 5, 6, 7, 8))
}

fn keeps_nine(alloc: Global) -> bool {
    is_kept::<(u8, u8, u8, u8, u8, u8, u8, u8, u8)>(alloc, first(9), (1, 2, 3, 4, 5, 6, 7, 8, 9))
}

fn keeps_ten(alloc: Global) -> bool {
    is_kept::<(u8, u8, u8, u8, u8, u8, u8, u8, u8, u8)>(
        alloc,
        first(10),
        (1, 2, 3, 4, 5, 6, 7, 8, 9, 10),
    )
}

fn keeps_eleven(alloc: Global) -> bool {
    is_kept::<(u8, u8, u8, u8, u8, u8, u8, u8, u8, u8, u8)>(
        alloc,
        first(11),
        (1, 2, 3, 4, 5, 6, 7, 8, 9, 10, 11),
    )
}

fn keeps_twelve(alloc: Global) -> bool {
    is_kept::<(u8, u8, u8, u8, u8, u8, u8, u8, u8, u8, u8, u8)>(
        alloc,
        first(12),
        (1, 2, 3, 4, 5, 6, 7, 8, 9, 10, 11, 12),
    )
}

fn keeps_thirteen(alloc: Global) -> bool {
    is_kept::<(u8, u8, u8, u8, u8, u8, u8, u8, u8, u8, u8, u8, u8)>(
        alloc,
        first(13),
        (1, 2, 3, 4, 5, 6, 7, 8, 9, 10, 11, 12, 13),
    )
}

#[test]
fn short_tuples_are_written_and_read_back(rt: HostRuntime) {
    assert_holds(&rt, "one part", keeps_one(rt.alloc()));
    assert_holds(&rt, "two parts", keeps_two(rt.alloc()));
    assert_holds(&rt, "three parts", keeps_three(rt.alloc()));
    assert_holds(&rt, "four parts", keeps_four(rt.alloc()));
    assert_holds(&rt, "five parts", keeps_five(rt.alloc()));
    assert_holds(&rt, "six parts", keeps_six(rt.alloc()));
    assert_holds(&rt, "seven parts", keeps_seven(rt.alloc()));
}

#[test]
fn long_tuples_are_written_and_read_back(rt: HostRuntime) {
    assert_holds(&rt, "eight parts", keeps_eight(rt.alloc()));
    assert_holds(&rt, "nine parts", keeps_nine(rt.alloc()));
    assert_holds(&rt, "ten parts", keeps_ten(rt.alloc()));
    assert_holds(&rt, "eleven parts", keeps_eleven(rt.alloc()));
    assert_holds(&rt, "twelve parts", keeps_twelve(rt.alloc()));
    assert_holds(&rt, "thirteen parts", keeps_thirteen(rt.alloc()));
}
