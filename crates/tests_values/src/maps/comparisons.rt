// Maps are compared, with each other and with those of the machine.

use crate::assertions::{assert_same, viewed};
use crate::comparisons::assert_orders;
use crate::maps::archives::{EMPTY, NUMBERS, Numbers, map_of};
use std::alloc::Global;
use std::cmp::Ordering;
use std::process::Abort;

// 1 to 10.
const ONE: &[u8] = b"\x01\0\0\0\x0a\0\0\0\xf8\xff\xff\xff\x01\0\0\0";

// 1 to 10 and 2 to 21.
const GREATER: &[u8] = b"\x01\0\0\0\x0a\0\0\0\x02\0\0\0\x15\0\0\0\xf0\xff\xff\xff\x02\0\0\0";

// 1 to 10 and 3 to 0.
const BEHIND: &[u8] = b"\x01\0\0\0\x0a\0\0\0\x03\0\0\0\0\0\0\0\xf0\xff\xff\xff\x02\0\0\0";

// 1 to 10, 2 to 20 and 3 to 0.
const THREE: &[u8] =
    b"\x01\0\0\0\x0a\0\0\0\x02\0\0\0\x14\0\0\0\x03\0\0\0\0\0\0\0\xe8\xff\xff\xff\x03\0\0\0";

#[test]
fn maps_are_ordered_as_lists_of_entries(rt: HostRuntime) {
    let rows = [
        (NUMBERS, NUMBERS, Ordering::Equal),
        (EMPTY, NUMBERS, Ordering::Less),
        (ONE, NUMBERS, Ordering::Less),
        (GREATER, NUMBERS, Ordering::Greater),
        (BEHIND, NUMBERS, Ordering::Greater),
        (THREE, NUMBERS, Ordering::Greater),
    ];
    assert_orders::<Numbers>(&rt, "maps", &rows);
}

// In each row entries, and whether the archive equals the map of these.
fn assert_equals(rt: &impl Abort, alloc: Global, rows: &[(&[(u32, u32)], bool)]) {
    for (entries, equals) in rows {
        let map = map_of(rt, alloc, entries);
        let view = viewed::<Numbers>(rt, NUMBERS);
        let found = (*entries, view.eq_map(&map));
        assert_same(rt, "a map", found, (*entries, *equals));
    }
}

#[test]
fn a_map_is_compared_with_one_of_the_machine(rt: HostRuntime) {
    let rows: [(&[(u32, u32)], bool); 5] = [
        (&[(2, 20), (1, 10)], true),
        (&[(1, 10)], false),
        (&[(1, 10), (2, 21)], false),
        (&[(1, 10), (3, 20)], false),
        (&[(1, 10), (2, 20), (3, 0)], false),
    ];
    assert_equals(&rt, rt.alloc(), &rows);
}
