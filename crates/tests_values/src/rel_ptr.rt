// Relative pointers.

ghost use Rattle.std.specs.Prelude.{◌≡◌};
ghost use Rattle.std.specs.Int.{byte_len};

use crate::assertions::{assert_refusal, assert_same, viewed};
use archive_check::format::error::Error;
use archive_types::place::Place;
use archive_types::primitive::{
    ArchivedI16, ArchivedI32, ArchivedI64, ArchivedIsize, ArchivedU16, ArchivedU32, ArchivedU64,
    ArchivedUsize,
};
use archive_types::rel_ptr::{self, Offset, RawRelPtr, RawRelPtrI64, signed_offset};
use archive_types::string::ArchivedStr;
use archive_types::traits::Portable;
use std::process::Abort;

// A relative pointer to a `T` whose offset is of 32 bits.
type RelPtr<T> = rel_ptr::RelPtr<T, ArchivedIsize>;

#[test]
fn distances_between_positions(rt: HostRuntime) {
    let middle = isize::MAX as usize;
    let rows = [
        (0, 1, Ok(1)),
        (1, 0, Ok(-1)),
        (0, middle, Ok(isize::MAX)),
        (0, middle + 1, Err(Error::IsizeOverflow)),
        (middle + 1, 0, Ok(isize::MIN)),
        (middle + 2, 0, Err(Error::IsizeOverflow)),
    ];
    for (from, to, distance) in rows {
        let found = (from, to, signed_offset(from, to));
        assert_same(&rt, "a distance", found, (from, to, distance));
    }
}

#[test]
fn offsets_of_distances(rt: HostRuntime) {
    let overflow = Error::OffsetOverflow;
    assert_same(&rt, "the least i8", i8::from_isize(-128), Ok(-128));
    assert_same(&rt, "above i8", i8::from_isize(128), Err(overflow));
    assert_same(&rt, "the greatest u8", u8::from_isize(255), Ok(255));
    assert_same(&rt, "below u8", u8::from_isize(-1), Err(overflow));
    let least = ArchivedI16::from_native(-32768);
    assert_eq!(rt; ArchivedI16::from_isize(-32768), Ok(least));
    assert_eq!(rt; ArchivedI16::from_isize(-32769), Err(overflow));
    let distance = ArchivedI16::from_native(-2).to_isize();
    assert_same(&rt, "of an i16", distance, -2);
    assert_same(&rt, "of a u8", 255u8.to_isize(), 255);
    let distance = ArchivedU64::from_native(u64::MAX).to_isize();
    assert_same(&rt, "of a u64", distance, -1);
}

// A pointer is written as these bytes.
fn assert_emplaced<const N: usize, O: Offset>(
    rt: &impl Abort,
    what: &str,
    pos: usize,
    to: usize,
    wanted: [u8; N],
)
    requires { N ≡ byte_len O.Number.width }
{
    let mut bytes = [0xee; N];
    let place: Place<'_, RawRelPtr<O>> = Place::new(pos, &mut bytes);
    RawRelPtr::try_emplace(to, place).expect(rt, what);
    assert_same(rt, what, bytes, wanted);
}

// A pointer isn't written, for this reason, and the bytes are ee as before.
fn assert_not_emplaced<const N: usize, O: Offset>(
    rt: &impl Abort,
    what: &str,
    pos: usize,
    to: usize,
    refusal: Error,
)
    requires { N ≡ byte_len O.Number.width }
{
    let mut bytes = [0xee; N];
    let place: Place<'_, RawRelPtr<O>> = Place::new(pos, &mut bytes);
    let answer = RawRelPtr::try_emplace(to, place);
    assert_refusal(rt, what, answer, refusal);
    assert_same(rt, what, bytes, [0xee; N]);
}

#[test]
fn pointers_as_they_are_written(rt: HostRuntime) {
    assert_emplaced::<1, i8>(&rt, "127 of i8", 0, 127, [0x7f]);
    assert_emplaced::<1, i8>(&rt, "-128 of i8", 128, 0, [0x80]);
    assert_emplaced::<2, ArchivedI16>(&rt, "-2 of i16", 2, 0, [0xfe, 0xff]);
}

#[test]
fn pointers_that_cannot_be_written(rt: HostRuntime) {
    let overflow = Error::OffsetOverflow;
    assert_not_emplaced::<1, i8>(&rt, "128 of i8", 0, 128, overflow);
    assert_not_emplaced::<1, i8>(&rt, "-129 of i8", 129, 0, overflow);
    assert_not_emplaced::<1, u8>(&rt, "-1 of u8", 1, 0, overflow);
    let far = Error::IsizeOverflow;
    assert_not_emplaced::<1, u8>(&rt, "as far as can be", 0, usize::MAX, far);
}

#[test]
fn invalid_pointers(rt: HostRuntime) {
    let mut bytes = [0; 8];
    let place: Place<'_, RawRelPtrI64> = Place::new(0, &mut bytes);
    RawRelPtr::try_emplace_invalid(place).expect(&rt, "an invalid pointer");
    assert_same(&rt, "the bytes", bytes, [1, 0, 0, 0, 0, 0, 0, 0]);
    let view = viewed::<RawRelPtrI64>(&rt, &bytes);
    let found = (view.is_invalid(), view.offset());
    assert_same(&rt, "an offset of 1", found, (true, 1));
    let view = viewed::<RawRelPtrI64>(&rt, &[0; 8]);
    let found = (view.is_invalid(), view.offset());
    assert_same(&rt, "an offset of 0", found, (false, 0));
}

// Where a pointer stands, its offset, and where it leads to.
fn assert_pointed<O: Offset>(
    rt: &impl Abort,
    what: &str,
    bytes: &[u8],
    wanted: (usize, isize, i128),
) {
    let view = viewed::<RawRelPtr<O>>(rt, bytes);
    let found = (view.pos(), view.offset(), view.target());
    assert_same(rt, what, found, wanted);
}

#[test]
fn pointers_as_they_are_read(rt: HostRuntime) {
    let bytes = &[0xff; 16];
    assert_pointed::<ArchivedU64>(&rt, "u64", bytes, (8, -1, 7));
    let long = (12, 4294967295, 4294967307);
    assert_pointed::<ArchivedU32>(&rt, "u32", bytes, long);
    assert_pointed::<ArchivedI32>(&rt, "i32", bytes, (12, -1, 11));
    assert_pointed::<ArchivedU16>(&rt, "u16", bytes, (14, 65535, 65549));
    assert_pointed::<ArchivedI16>(&rt, "i16", bytes, (14, -1, 13));
    assert_pointed::<u8>(&rt, "u8", bytes, (15, 255, 270));
    assert_pointed::<i8>(&rt, "i8", bytes, (15, -1, 14));
    let mut least = [0; 16];
    least[15] = 0x80;
    let target = 8 - 9223372036854775808;
    assert_pointed::<ArchivedI64>(&rt, "i64", &least, (8, isize::MIN, target));
}

#[test]
fn pointers_to_texts(rt: HostRuntime) {
    let mut bytes = [0; 8];
    let place: Place<'_, RelPtr<ArchivedStr>> = Place::new(16, &mut bytes);
    let length = ArchivedUsize::from_native(11);
    RelPtr::try_emplace_unsized(0, length, place).expect(&rt, "a pointer");
    let wanted = [0xf0, 0xff, 0xff, 0xff, 0x0b, 0, 0, 0];
    assert_same(&rt, "the bytes", bytes, wanted);
    let place: Place<'_, RelPtr<ArchivedStr>> = Place::new(16, &mut bytes);
    RelPtr::try_emplace_invalid(place).expect(&rt, "an invalid pointer");
    assert_same(&rt, "an invalid one", bytes, [1, 0, 0, 0, 0, 0, 0, 0]);
}

#[test]
fn pointers_to_one_value(rt: HostRuntime) {
    let mut bytes = [0xee; 4];
    let place: Place<'_, RelPtr<ArchivedU32>> = Place::new(4, &mut bytes);
    let far = RelPtr::try_emplace(1 << 32, place);
    assert_refusal(&rt, "too far", far, Error::OffsetOverflow);
    assert_same(&rt, "the bytes after a refused emplace", bytes, [0xee; 4]);
    let place: Place<'_, RelPtr<ArchivedU32>> = Place::new(4, &mut bytes);
    RelPtr::try_emplace(0, place).expect(&rt, "a pointer");
    assert_same(&rt, "the bytes", bytes, [0xfc, 0xff, 0xff, 0xff]);
}

#[test]
fn a_length_stands_behind_padding(rt: HostRuntime) {
    let mut bytes = [0; 8];
    let place: Place<'_, rel_ptr::RelPtr<ArchivedStr, u8>> = Place::new(0, &mut bytes);
    let length = ArchivedUsize::from_native(3);
    rel_ptr::RelPtr::try_emplace_unsized(9, length, place).expect(&rt, "a pointer");
    assert_same(&rt, "the bytes", bytes, [9, 0, 0, 0, 3, 0, 0, 0]);
    let with_length = rel_ptr::RelPtr::<ArchivedStr, ArchivedU64>::size();
    let without = rel_ptr::RelPtr::<ArchivedU32, ArchivedI32>::size();
    assert_same(
        &rt,
        "with a length and without",
        (with_length, without),
        (16, 4),
    );
}
