// Numbers that aren't 0.

use crate::assertions::{assert_holds, assert_leaf, assert_same, assert_shown};
use archive_check::format::expr::{IntegerKind, Kind};
use archive_nonzero::{
    ArchivedNonZeroI8, ArchivedNonZeroI16, ArchivedNonZeroI32, ArchivedNonZeroI64,
    ArchivedNonZeroI128, ArchivedNonZeroIsize, ArchivedNonZeroU8, ArchivedNonZeroU16,
    ArchivedNonZeroU32, ArchivedNonZeroU64, ArchivedNonZeroU128, ArchivedNonZeroUsize,
};
use archive_num::Integer;

#[test]
fn numbers_with_a_sign_that_are_not_0(rt: HostRuntime) {
    let found = (
        ArchivedNonZeroI8::from_native(-1).to_native(),
        ArchivedNonZeroI16::from_native(-2).to_native(),
        ArchivedNonZeroI32::from_native(-3).to_native(),
        ArchivedNonZeroI64::from_native(-4).to_native(),
        ArchivedNonZeroI128::from_native(-5).to_native(),
    );
    assert_same(&rt, "i8 to i128", found, (-1, -2, -3, -4, -5));
    let offset = ArchivedNonZeroIsize::from_native(-6);
    assert_same(&rt, "isize", offset, ArchivedNonZeroI32::from_native(-6));
}

#[test]
fn numbers_without_a_sign_that_are_not_0(rt: HostRuntime) {
    let found = (
        ArchivedNonZeroU8::from_native(1).to_native(),
        ArchivedNonZeroU16::from_native(2).to_native(),
        ArchivedNonZeroU32::from_native(3).to_native(),
        ArchivedNonZeroU64::from_native(4).to_native(),
        ArchivedNonZeroU128::from_native(5).to_native(),
    );
    assert_same(&rt, "u8 to u128", found, (1, 2, 3, 4, 5));
    let size = ArchivedNonZeroUsize::from_native(6);
    assert_same(&rt, "usize", size, ArchivedNonZeroU32::from_native(6));
}

#[test]
fn formats_behave_as_their_numbers(rt: HostRuntime) {
    let three = ArchivedNonZeroI8::from_native(-3);
    let copy = three.clone().expect(&rt, "memory");
    assert_same(&rt, "a copy", copy, three);
    assert_holds(&rt, "-3 below 1", three < ArchivedNonZeroI8::from_native(1));
    assert_shown(&rt, rt.alloc(), &three, "-3");
    let zeros = (0u16.is_zero(), 1u16.is_zero(), 0i16.is_zero());
    assert_same(&rt, "which are 0", zeros, (true, false, true));
    assert_holds(&rt, "-1 isn't 0", !(-1i16).is_zero());
}

#[test]
fn a_number_that_is_not_0_is_a_leaf_of_its_size(rt: HostRuntime) {
    let alloc = rt.alloc();
    assert_leaf::<ArchivedNonZeroU8>(&rt, alloc, Kind::NonZero(IntegerKind::U8), 1, 1);
    assert_leaf::<ArchivedNonZeroU16>(&rt, alloc, Kind::NonZero(IntegerKind::U16), 2, 2);
    assert_leaf::<ArchivedNonZeroI128>(&rt, alloc, Kind::NonZero(IntegerKind::I128), 16, 16);
}
