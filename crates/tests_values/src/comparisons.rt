// Views are compared by what they show, wherever it lies: with each other, and with values of the machine.

use crate::assertions::{archived, assert_same, hash_of, viewed};
use archive_types::boxed::ArchivedBox;
use archive_types::compare::{CompareNative, Ordered};
use archive_types::option::ArchivedOption;
use archive_types::primitive::{ArchivedI16, ArchivedI32, ArchivedU32};
use archive_types::result::ArchivedResult;
use archive_types::string::{ArchivedStr, ArchivedString};
use archive_types::traits::{Archive, Portable};
use archive_types::vec::ArchivedVec;
use archive_types::view::Ref;
use std::alloc::Global;
use std::cmp::Ordering;
use std::hash::Hash;
use std::process::Abort;

// The order of two views, as it is and as it is said, and whether one is less.
fn ordered<T: Ordered>(one: Ref<'_, T>, other: Ref<'_, T>) -> (Ordering, Ordering, bool) {
    (one.cmp(&other), one.compare_said(other), one < other)
}

// Whether two views are equal, whether they aren't, and whether they feed a hasher alike.
fn alike<T: Ordered>(one: Ref<'_, T>, other: Ref<'_, T>) -> (bool, bool, bool) {
    let same_hash = hash_of(&one) == hash_of(&other);
    (one == other, one != other, same_hash)
}

// Two views have this order, and all that goes with it.
fn assert_views<T: Ordered>(
    rt: &impl Abort,
    what: &str,
    one: Ref<'_, T>,
    other: Ref<'_, T>,
    order: Ordering,
) {
    let found = (ordered(one, other), alike(one, other));
    let is_equal = order.is_eq();
    let wanted = (
        (order, order, order.is_lt()),
        (is_equal, !is_equal, is_equal),
    );
    assert_same(rt, what, found, wanted);
}

// In each row two archives and their order; the order of these the other way round is the reverse.
pub(crate) fn assert_orders<T: Portable + Ordered>(
    rt: &impl Abort,
    what: &str,
    rows: &[(&[u8], &[u8], Ordering)],
) {
    for (one, other, order) in rows {
        let one = viewed::<T>(rt, one);
        let other = viewed::<T>(rt, other);
        assert_views(rt, what, one, other, *order);
        assert_views(rt, what, other, one, order.reverse());
    }
}

// In each row an archive, a value of the machine, and the order of both. Equal ones feed a hasher alike.
fn assert_natives<T: Portable + Ordered + CompareNative<U>, U: Archive + Hash>(
    rt: &impl Abort,
    what: &str,
    rows: &[(&[u8], U, Ordering)],
) {
    for (archive, value, order) in rows {
        let view = viewed::<T>(rt, archive);
        let same_hash = hash_of(&view) == hash_of(value);
        let found = (view.cmp_native(value), view.eq_native(value), same_hash);
        let is_equal = order.is_eq();
        assert_same(rt, what, found, (*order, is_equal, is_equal));
    }
}

const MINUS_ONE: &[u8] = b"\xff\xff\xff\xff";

const PLUS_ONE: &[u8] = b"\x01\0\0\0";

#[test]
fn numbers_are_compared_as_numbers(rt: HostRuntime) {
    let rows = [(MINUS_ONE, PLUS_ONE, Ordering::Less)];
    assert_orders::<ArchivedI32>(&rt, "-1 and 1", &rows);
    let rows = [
        (MINUS_ONE, -1, Ordering::Equal),
        (PLUS_ONE, 2, Ordering::Less),
    ];
    assert_natives::<ArchivedI32, i32>(&rt, "a number", &rows);
    let rows: [(&[u8], u8, Ordering); 2] = [
        (b"\x07", 7, Ordering::Equal),
        (b"\x07", 6, Ordering::Greater),
    ];
    assert_natives::<u8, u8>(&rt, "7", &rows);
}

// The archive of a text comes so before or after another text, and has its hash where they are equal.
fn assert_text(rt: &impl Abort, archive: &[u8], text: &str, order: Ordering) {
    let view = viewed::<ArchivedString>(rt, archive);
    let same_hash = hash_of(&view) == hash_of(&text);
    let found = (view.cmp_str(text), view.eq_str(text), same_hash);
    assert_same(rt, text, found, (order, order.is_eq(), order.is_eq()));
}

fn archived_text(rt: &impl Abort, alloc: Global, text: &str) -> Vec<u8> {
    let text = String::from_str(alloc, text).expect(rt, "memory");
    archived(rt, alloc, &text)
}

// In each row two texts and their order, and so that of an archive and a text, and of two archives.
fn assert_texts(rt: &impl Abort, alloc: Global, rows: &[(&str, &str, Ordering)]) {
    for (text, other, order) in rows {
        let archive = archived_text(rt, alloc, text);
        let archive_of_other = archived_text(rt, alloc, other);
        assert_text(rt, &archive, other, *order);
        let row = [(archive.as_slice(), archive_of_other.as_slice(), *order)];
        assert_orders::<ArchivedString>(rt, text, &row);
    }
}

#[test]
fn the_first_byte_that_differs_decides(rt: HostRuntime) {
    let rows = [
        ("hello", "hello world", Ordering::Less),
        ("record-name-0001", "record-name-0001", Ordering::Equal),
        ("aecord-name-0001", "record-name-0000", Ordering::Less),
        ("record-name-0001", "record-name-0000", Ordering::Greater),
        ("record-name-0001/a", "record-name-0001/b", Ordering::Less),
        ("record-name-0001", "record-name-0001/", Ordering::Less),
        ("record-name-0001", "record-name", Ordering::Greater),
        ("record-name-é00", "record-name-e00", Ordering::Greater),
    ];
    assert_texts(&rt, rt.alloc(), &rows);
}

#[test]
fn a_boxed_text_is_compared_with_texts(rt: HostRuntime) {
    let boxed = b"hello\0\0\0\xf8\xff\xff\xff\x05\0\0\0";
    let text = viewed::<ArchivedBox<ArchivedStr>>(&rt, boxed).get();
    let found = (text.eq_str("hello"), text.cmp_str("hello world"));
    assert_same(&rt, "the text", found, (true, Ordering::Less));
}

// The archives of the lists 1 and 2, and 1.
const TWO: &[u8] = b"\x01\0\0\0\x02\0\0\0\xf8\xff\xff\xff\x02\0\0\0";

const ONE: &[u8] = b"\x01\0\0\0\xfc\xff\xff\xff\x01\0\0\0";

// A box of a 7.
const SEVEN: &[u8] = b"\x07\0\0\0\xfc\xff\xff\xff";

#[test]
fn owners_are_compared_by_what_they_hold(rt: HostRuntime) {
    let rows = [(ONE, TWO, Ordering::Less), (TWO, TWO, Ordering::Equal)];
    assert_orders::<ArchivedVec<ArchivedU32>>(&rt, "lists", &rows);
    let rows = [(SEVEN, SEVEN, Ordering::Equal)];
    assert_orders::<ArchivedBox<ArchivedU32>>(&rt, "boxes", &rows);
}

// A list, and its slice, are compared with a slice of the machine, and have its hash where they are equal.
fn assert_slice<T: Portable + Ordered + CompareNative<U>, U: Archive + Hash>(
    rt: &impl Abort,
    archive: &[u8],
    values: &[U],
    order: Ordering,
) {
    let view = viewed::<ArchivedVec<T>>(rt, archive);
    let same_hash = hash_of(&view) == hash_of(&values);
    let found = (view.cmp_slice(values), view.eq_slice(values), same_hash);
    assert_same(rt, "a list", found, (order, order.is_eq(), order.is_eq()));
    let slice = view.as_slice();
    let found = (slice.cmp_slice(values), slice.eq_slice(values));
    assert_same(rt, "a slice", found, (order, order.is_eq()));
}

fn assert_numbers(rt: &impl Abort, archive: &[u8], values: &[u32], order: Ordering) {
    assert_slice::<ArchivedU32, u32>(rt, archive, values, order);
}

#[test]
fn lists_are_compared_with_slices(rt: HostRuntime) {
    assert_numbers(&rt, TWO, &[1, 2], Ordering::Equal);
    assert_numbers(&rt, ONE, &[2], Ordering::Less);
}

const NONE: &[u8] = b"\0\0\0\0\x09\0\0\0";

const SOME: &[u8] = b"\x01\0\0\0\x2a\0\0\0";

// In each row an option's archive, one of the machine, and the order of both. Equal ones feed a hasher alike.
fn assert_options<T: Portable + Ordered + CompareNative<U>, U: Archive + Hash>(
    rt: &impl Abort,
    rows: &[(&[u8], Option<U>, Ordering)],
) {
    for (archive, option, order) in rows {
        let view = viewed::<ArchivedOption<T>>(rt, archive);
        let same_hash = hash_of(&view) == hash_of(option);
        let found = (view.cmp_option(option), view.eq_option(option), same_hash);
        let is_equal = order.is_eq();
        assert_same(rt, "an option", found, (*order, is_equal, is_equal));
    }
}

#[test]
fn an_option_is_less_without_a_value(rt: HostRuntime) {
    let rows = [(NONE, SOME, Ordering::Less)];
    assert_orders::<ArchivedOption<ArchivedU32>>(&rt, "the options", &rows);
    let rows: [(&[u8], Option<u32>, Ordering); 5] = [
        (NONE, None, Ordering::Equal),
        (SOME, None, Ordering::Greater),
        (SOME, Some(42), Ordering::Equal),
        (SOME, Some(43), Ordering::Less),
        (SOME, Some(41), Ordering::Greater),
    ];
    assert_options::<ArchivedU32, u32>(&rt, &rows);
}

// 9 where all is well, and 7 where not.
const OK: &[u8] = b"\0\0\0\0\x09\0\0\0";

const ERR: &[u8] = b"\x01\0\0\0\x07\0\0\0";

// In each row a result's archive, one of the machine, and whether they are equal and have one hash.
fn assert_results<T: Portable + Ordered + CompareNative<U>, U: Archive + Hash>(
    rt: &impl Abort,
    rows: &[(&[u8], Result<U, U>, bool)],
) {
    for (archive, value, is_equal) in rows {
        let view = viewed::<ArchivedResult<T, T>>(rt, archive);
        let same_hash = hash_of(&view) == hash_of(value);
        let found = (view.eq_result(value), same_hash);
        assert_same(rt, "a result", found, (*is_equal, *is_equal));
    }
}

#[test]
fn an_ok_is_less_than_an_err(rt: HostRuntime) {
    let rows = [
        (OK, ERR, Ordering::Less),
        (OK, OK, Ordering::Equal),
        (ERR, ERR, Ordering::Equal),
    ];
    assert_orders::<ArchivedResult<ArchivedU32, ArchivedU32>>(&rt, "the results", &rows);
    let rows = [(OK, Ok(9), true), (ERR, Err(7), true), (OK, Err(9), false)];
    assert_results::<ArchivedU32, u32>(&rt, &rows);
}

// The archive of a list of ones but for the number at `at`.
fn archived_ones(rt: &impl Abort, alloc: Global, count: usize, at: usize, value: i16) -> Vec<u8> {
    let mut numbers = vec![in alloc; 1i16; count].expect(rt, "memory");
    if let Some(number) = numbers.get_mut(at) {
        *number = value;
    }
    archived(rt, alloc, &numbers)
}

// A list of ones, long enough that many bytes are compared at a time, and the same list with another number at `at`, which comes so before or after it.
fn assert_long(
    rt: &impl Abort,
    alloc: Global,
    (count, at): (usize, usize),
    value: i16,
    order: Ordering,
) {
    let list = archived_ones(rt, alloc, count, at, 1);
    let changed = archived_ones(rt, alloc, count, at, value);
    let row = [(changed.as_slice(), list.as_slice(), order)];
    assert_orders::<ArchivedVec<ArchivedI16>>(rt, "long lists", &row);
}

#[test]
fn long_lists_are_compared_as_their_numbers(rt: HostRuntime) {
    let rows = [
        (1, Ordering::Equal),
        (-1, Ordering::Less),
        (256, Ordering::Greater),
    ];
    for (value, order) in rows {
        for place in [(1, 0), (8, 7), (9, 8), (300, 0), (300, 150), (300, 299)] {
            assert_long(&rt, rt.alloc(), place, value, order);
        }
    }
}

fn archived_bytes(rt: &impl Abort, alloc: Global, bytes: &[u8]) -> Vec<u8> {
    let bytes = bytes.to_vec(alloc).expect(rt, "memory");
    archived(rt, alloc, &bytes)
}

// In each row two vectors of bytes, and their order.
fn assert_vectors(rt: &impl Abort, alloc: Global, rows: &[(&[u8], &[u8], Ordering)]) {
    for (one, other, order) in rows {
        let one = archived_bytes(rt, alloc, one);
        let other = archived_bytes(rt, alloc, other);
        let row = [(one.as_slice(), other.as_slice(), *order)];
        assert_orders::<ArchivedVec<u8>>(rt, "vectors of bytes", &row);
    }
}

#[test]
fn bytes_are_compared_in_bulk(rt: HostRuntime) {
    let long = b"0123456789abcdef".as_slice();
    let rows: [(&[u8], &[u8], Ordering); 7] = [
        (b"", b"", Ordering::Equal),
        (b"", b"\x00", Ordering::Less),
        (b"\x80", b"\x7f", Ordering::Greater),
        (long, long, Ordering::Equal),
        (b"0123456789abcdef\x01", long, Ordering::Greater),
        (long, b"0123456789abcdef0123", Ordering::Less),
        (b"0123456789abcde\xff", long, Ordering::Greater),
    ];
    assert_vectors(&rt, rt.alloc(), &rows);
}
