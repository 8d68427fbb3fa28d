// Numbers of every kind, and a struct of no field.

use crate::assertions::{
    assert_archived, assert_bytes, assert_same, assert_unwritten, assert_written, sealed, value_of,
    viewed,
};
use crate::judgements::{assert_faults, assert_refused, outside, unaligned};
use archive_core::error::Error;
use archive_core::primitive::NonZero;
use derived_types::kinds::{
    ArchivedEmpty, ArchivedNumbers, Empty, Numbers, NumbersSeal, NumbersView,
};
use std::alloc::Global;
use std::process::Abort;

// The numbers 5, 258 and -1, of four bytes each, and at 16, a multiple of 16, -2 of sixteen bytes and a true. Zeros end it at a multiple of 16.
const NUMBERS: &[u8; 48] =
    b"\x05\0\0\0\x02\x01\0\0\xff\xff\xff\xff\0\0\0\0\xfe\xff\xff\xff\xff\xff\xff\xff\xff\xff\xff\xff\xff\xff\xff\xff\x01\0\0\0\0\0\0\0\0\0\0\0\0\0\0\0";

// The same with all numbers written over: 7, 3, -4, 5 and false.
const OTHERS: &[u8; 48] =
    b"\x07\0\0\0\x03\0\0\0\xfc\xff\xff\xff\0\0\0\0\x05\0\0\0\0\0\0\0\0\0\0\0\0\0\0\0\0\0\0\0\0\0\0\0\0\0\0\0\0\0\0\0";

// Numbers with a size and a distance.
fn numbers(size: usize, distance: isize) -> Numbers {
    Numbers {
        some: NonZero::from_native(5),
        size,
        distance,
        wide: -2,
        so: true,
        nothing: (),
    }
}

// What a value has: all its fields but the one that isn't 0, which has no order.
fn fields_of(numbers: &Numbers) -> (u32, usize, isize, i128, bool) {
    (
        numbers.some.to_native(),
        numbers.size,
        numbers.distance,
        numbers.wide,
        numbers.so,
    )
}

#[test]
fn numbers_are_written_and_read_back(rt: HostRuntime) {
    assert_written(&rt, rt.alloc(), &numbers(258, -1), 48, NUMBERS);
    let back: Numbers = value_of(&rt, rt.alloc(), NUMBERS, &mut ());
    assert_same(&rt, "the fields", fields_of(&back), (5, 258, -1, -2, true));
}

#[test]
fn numbers_of_more_than_four_bytes_are_unwritten(rt: HostRuntime) {
    let rows = [(4_294_967_296, 0), (0, 2_147_483_648), (0, -2_147_483_649)];
    for (size, distance) in rows {
        let numbers = numbers(size, distance);
        assert_unwritten(&rt, "a number", rt.alloc(), &numbers, Error::NumberTooLarge);
    }
}

#[test]
fn numbers_are_viewed(rt: HostRuntime) {
    let view = viewed::<ArchivedNumbers>(&rt, rt.alloc(), NUMBERS);
    let found = (
        view.some().get(),
        view.size().get(),
        view.distance().get(),
        view.wide().get(),
        view.so().get(),
    );
    assert_same(&rt, "the numbers", found, (5, 258, -1, -2, true));
    assert_same(&rt, "nothing's position", view.nothing().pos(), 33);
}

// Writes over the first three numbers.
fn write_first(rt: &impl Abort, alloc: Global, bytes: &mut [u8]) {
    sealed::<ArchivedNumbers>(rt, alloc, bytes)
        .some_mut()
        .write(7);
    sealed::<ArchivedNumbers>(rt, alloc, bytes)
        .size_mut()
        .write(3);
    sealed::<ArchivedNumbers>(rt, alloc, bytes)
        .distance_mut()
        .write(-4);
}

// And over the others.
fn write_last(rt: &impl Abort, alloc: Global, bytes: &mut [u8]) {
    sealed::<ArchivedNumbers>(rt, alloc, bytes)
        .wide_mut()
        .write(5);
    sealed::<ArchivedNumbers>(rt, alloc, bytes)
        .so_mut()
        .write(false);
    let nothing = sealed::<ArchivedNumbers>(rt, alloc, bytes).nothing_mut();
    assert_same(rt, "nothing's position", nothing.pos(), 33);
}

#[test]
fn numbers_are_edited(rt: HostRuntime) {
    let mut bytes = *NUMBERS;
    write_first(&rt, rt.alloc(), &mut bytes);
    write_last(&rt, rt.alloc(), &mut bytes);
    assert_bytes(&rt, "the edited numbers", &bytes, OTHERS);
}

#[test]
fn faults_of_numbers_are_found(rt: HostRuntime) {
    let rows = [(0, 0, Error::ZeroNumber), (32, 2, Error::InvalidBool)];
    assert_faults::<ArchivedNumbers>(&rt, rt.alloc(), NUMBERS, &rows);
    let rows: [(&[u8], Error); 2] = [
        (&[5; 47], outside(0, 48, 0, 47)),
        (&[5; 49], unaligned(1, 16)),
    ];
    assert_refused::<ArchivedNumbers>(&rt, rt.alloc(), &rows);
}

#[test]
fn a_value_of_no_field_has_no_byte(rt: HostRuntime) {
    assert_archived(&rt, rt.alloc(), &Empty, 0, b"");
    let view = viewed::<ArchivedEmpty>(&rt, rt.alloc(), b"abc");
    assert_same(&rt, "the position, at the end", view.pos(), 3);
}
