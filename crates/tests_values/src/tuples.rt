// Tuples: their layouts, and their parts in views.

use crate::assertions::{assert_same, viewed};
use archive_tuple::{ArchivedTuple1, ArchivedTuple3};
use archive_types::primitive::{ArchivedI32, ArchivedU32};
use archive_types::traits::{Portable, Record};

type Numbers = ArchivedTuple3<ArchivedI32, bool, ArchivedU32>;

#[test]
fn a_tuple_has_the_layout_of_its_parts(rt: HostRuntime) {
    let layout = (
        <Numbers as Portable>::size(),
        <Numbers as Portable>::align(),
    );
    assert_same(&rt, "the size and the alignment", layout, (12, 4));
    let offsets = (
        <Numbers as Record>::offset(0),
        <Numbers as Record>::offset(1),
        <Numbers as Record>::offset(2),
    );
    assert_same(&rt, "where the parts begin", offsets, (0, 4, 8));
    let size = <ArchivedTuple1<bool> as Portable>::size();
    assert_same(&rt, "the size of a tuple of one part", size, 1);
}

// The tuple (24, true, 16) of an `i32`, a `bool` and a `u32`.
#[test]
fn a_tuple_is_viewed(rt: HostRuntime) {
    let view = viewed::<Numbers>(&rt, b"\x18\0\0\0\x01\0\0\0\x10\0\0\0");
    let number = view.field::<ArchivedI32>(0).get();
    let answer = view.field::<bool>(1).get();
    let last = view.field::<ArchivedU32>(2).get();
    assert_same(&rt, "the parts", (number, answer, last), (24, true, 16));
}
