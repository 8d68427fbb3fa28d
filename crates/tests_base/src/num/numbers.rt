// Numbers as bytes.

ghost use Rattle.std.specs.Prelude.{◌≡◌, ◌↔◌, ◌<◌, length, IsTrue};

use crate::assertions::{assert_holds, assert_leaf, assert_same, assert_shown};
use archive_check::format::expr::{IntegerKind, Kind};
use archive_num::{
    ArchivedChar, ArchivedI16, ArchivedI32, ArchivedI64, ArchivedI128, ArchivedIsize, ArchivedU16,
    ArchivedU32, ArchivedU64, ArchivedU128, ArchivedUsize, Native,
};
use std::fmt::Debug;
use std::process::Abort;

// What is written is read back, whatever it is.
fn again<N: Native>(value: N, out: &mut [u8]) -> N
    requires { length out.old ≡ N.byte_count }
    ensures { result ≡ value }
{
    value.write_to(out);
    N::read_from(out)
}

// The order is that of the numbers.
fn is_less(a: ArchivedU32, b: ArchivedU32) -> bool
    ensures { IsTrue result ↔ (a < b) }
{
    a < b
}

// Values are written over bytes that are all 7, as the bytes beside them, and read back.
fn assert_bytes<N: Native + Debug, const SIZE: usize>(rt: &impl Abort, rows: &[(N, [u8; SIZE])])
    requires { SIZE ≡ N.byte_count }
{
    for (value, bytes) in rows {
        let mut out = [7; SIZE];
        assert_same(rt, "read back", again(*value, &mut out), *value);
        assert_same(rt, "a value's bytes", (*value, out), (*value, *bytes));
    }
}

#[test]
fn values_and_their_bytes(rt: HostRuntime) {
    assert_bytes(&rt, &[((), [])]);
    assert_bytes(&rt, &[(true, [1]), (false, [0])]);
    assert_bytes(&rt, &[(-2i16, [0xfe, 0xff])]);
    assert_bytes(&rt, &[(1337u16, [0x39, 0x05])]);
    assert_bytes(&rt, &[(42u32, [42, 0, 0, 0])]);
    assert_bytes(&rt, &[('é', [0xe9, 0, 0, 0])]);
    assert_bytes(
        &rt,
        &[(1u128, [1, 0, 0, 0, 0, 0, 0, 0, 0, 0, 0, 0, 0, 0, 0, 0])],
    );
}

// Values that take so many bytes come back.
fn assert_come_back<N: Native + Debug, const SIZE: usize>(rt: &impl Abort, values: &[N])
    requires { SIZE ≡ N.byte_count }
{
    for value in values {
        assert_same(rt, "read back", again(*value, &mut [7; SIZE]), *value);
    }
}

#[test]
fn the_least_and_the_greatest_with_a_sign_come_back(rt: HostRuntime) {
    assert_come_back::<i8, 1>(&rt, &[i8::MIN, -1, i8::MAX]);
    assert_come_back::<i16, 2>(&rt, &[i16::MIN, -1, i16::MAX]);
    assert_come_back::<i32, 4>(&rt, &[i32::MIN, -1, i32::MAX]);
    assert_come_back::<i64, 8>(&rt, &[i64::MIN, -1, i64::MAX]);
    assert_come_back::<i128, 16>(&rt, &[i128::MIN, -1, i128::MAX]);
}

#[test]
fn the_least_and_the_greatest_without_a_sign_come_back(rt: HostRuntime) {
    assert_come_back::<u8, 1>(&rt, &[u8::MIN, u8::MAX]);
    assert_come_back::<u16, 2>(&rt, &[u16::MIN, u16::MAX]);
    assert_come_back::<u32, 4>(&rt, &[u32::MIN, u32::MAX]);
    assert_come_back::<u64, 8>(&rt, &[u64::MIN, u64::MAX]);
    assert_come_back::<u128, 16>(&rt, &[u128::MIN, u128::MAX]);
    assert_come_back::<char, 4>(&rt, &['\0', char::MAX]);
}

#[test]
fn formats_with_a_sign_behave_as_their_numbers(rt: HostRuntime) {
    let found = (
        ArchivedI16::from_native(-2).to_native(),
        ArchivedI32::from_native(-3).to_native(),
        ArchivedI64::from_native(-4).to_native(),
        ArchivedI128::from_native(-5).to_native(),
    );
    assert_same(&rt, "i16 to i128", found, (-2, -3, -4, -5));
    let offset = ArchivedIsize::from_native(-6);
    assert_same(&rt, "isize", offset, ArchivedI32::from_native(-6));
    let (less, five) = (ArchivedI32::from_native(-5), ArchivedI32::from_native(5));
    assert_holds(&rt, "-5 below 5", less < five);
}

#[test]
fn formats_without_a_sign_behave_as_their_numbers(rt: HostRuntime) {
    let found = (
        ArchivedU16::from_native(2).to_native(),
        ArchivedU32::from_native(3).to_native(),
        ArchivedU64::from_native(4).to_native(),
        ArchivedU128::from_native(5).to_native(),
        ArchivedChar::from_native('é').to_native(),
    );
    assert_same(&rt, "u16 to u128, and char", found, (2, 3, 4, 5, 'é'));
    let size = ArchivedUsize::from_native(6);
    assert_same(&rt, "usize", size, ArchivedU32::from_native(6));
    let (one, more) = (ArchivedU32::from_native(1), ArchivedU32::from_native(256));
    assert_holds(&rt, "1 below 256", is_less(one, more));
}

#[test]
fn formats_are_shown_as_their_numbers(rt: HostRuntime) {
    assert_shown(&rt, rt.alloc(), &ArchivedI32::from_native(-5), "-5");
    assert_shown(&rt, rt.alloc(), &ArchivedChar::from_native('x'), "x");
}

#[test]
fn a_number_is_a_leaf_of_its_size(rt: HostRuntime) {
    let alloc = rt.alloc();
    assert_leaf::<ArchivedU16>(&rt, alloc, Kind::Number(IntegerKind::U16), 2, 2);
    assert_leaf::<ArchivedI16>(&rt, alloc, Kind::Number(IntegerKind::I16), 2, 2);
    assert_leaf::<ArchivedU32>(&rt, alloc, Kind::Number(IntegerKind::U32), 4, 4);
    assert_leaf::<ArchivedI64>(&rt, alloc, Kind::Number(IntegerKind::I64), 8, 8);
    assert_leaf::<ArchivedI128>(&rt, alloc, Kind::Number(IntegerKind::I128), 16, 16);
    assert_leaf::<ArchivedChar>(&rt, alloc, Kind::Char, 4, 4);
}
