// Texts and runs of leaves on both sides of the bounds at which many bytes or values are looked at
// at once.

ghost use Rattle.std.specs.Prelude.{◌≤◌};

use crate::assertions::assert_same;
use archive_check::context::validator::HighValidator;
use archive_check::format::bytes::{inline_length, is_inline_text, is_text};
use archive_check::format::error::Error;
use archive_check::format::expr::{IntegerKind, Kind};
use archive_check::format::leaf::count_legal;
use archive_check::format::traits::Portable;
use archive_check::self_check::check_root;
use std::alloc::Global;
use std::process::Abort;

// Where a text or a run begins.
const AT: usize = 3;

// ASCII with two other bytes at a place.
fn text_with(pair: [u8; 2], place: usize) -> [u8; 520] {
    let mut bytes = [b'a'; 520];
    for index in 0..2 {
        if place < 518 {
            bytes[place + index] = pair[index];
        }
    }
    bytes
}

// Each length, with the two bytes at each place in the text and around it, against std's own test.
fn assert_texts(rt: &impl Abort, lengths: &[usize], pair: [u8; 2]) {
    for length in lengths {
        let end = AT + (*length).min(513);
        for place in AT - 1..=end {
            let bytes = text_with(pair, place);
            let found = is_text(&bytes, AT, end - AT);
            let wanted = str::from_utf8(&bytes[AT..end]).is_ok();
            assert_same(rt, "a text", (place, end, found), (place, end, wanted));
        }
    }
}

#[test]
fn texts_are_told_at_each_length(rt: HostRuntime) {
    let lengths = [0, 1, 7, 8, 9, 15, 16, 17, 24, 31, 32, 33, 511, 512, 513];
    // a character of two bytes, and bytes that are none
    assert_texts(&rt, &lengths, [0xc3, 0xa9]);
    assert_texts(&rt, &lengths, [b'a', 0x80]);
}

// Each length of a text in place, and the two bytes at each place in it.
fn assert_inline_texts(rt: &impl Abort, pair: [u8; 2]) {
    for length in 0..=8 {
        for place in AT - 1..=AT + 8 {
            let mut bytes = text_with(pair, place);
            for index in length..8 {
                bytes[AT + index] = 0xff;
            }
            let end = AT + inline_length(&bytes, AT);
            let found = is_inline_text(&bytes, AT);
            let wanted = str::from_utf8(&bytes[AT..end]).is_ok();
            assert_same(
                rt,
                "a text in place",
                (place, end, found),
                (place, end, wanted),
            );
        }
    }
}

#[test]
fn texts_in_place_are_told_at_each_length(rt: HostRuntime) {
    assert_inline_texts(&rt, [0xc3, 0xa9]);
    assert_inline_texts(&rt, [b'a', 0x80]);
}

// Legal leaves of so many bytes each but for one byte, `fault.0` behind the begin of the leaf at a place.
fn run_with(size: usize, place: usize, fault: (usize, u8)) -> [u8; 8300]
    requires size { size ≤ 16 }
    requires place { place ≤ 513 }
    requires fault { fault.0 ≤ 16 }
{
    let mut bytes = [0; 8300];
    for index in 0..514 {
        bytes[AT + index * size] = 1;
    }
    bytes[AT + place * size + fault.0] = fault.1;
    bytes
}

// How many of so many leaves are known to be legal: whole blocks before the place of the fault.
fn assert_count(rt: &impl Abort, kind: Kind, count: usize, place: usize, fault: (usize, u8)) {
    let size = kind.size();
    if size <= 16 && count <= 513 && place <= 513 && fault.0 <= 16 {
        let bytes = run_with(size, place, fault);
        let found = count_legal(kind, &bytes, AT, size, count);
        let wanted = place.min(count) / 256 * 256;
        assert_same(rt, "a count", (place, count, found), (place, count, wanted));
    }
}

// Both are around whole blocks.
const COUNTS: [usize; 8] = [0, 1, 255, 256, 257, 511, 512, 513];

const PLACES: [usize; 9] = [0, 1, 255, 256, 257, 510, 511, 512, 513];

fn assert_counts(rt: &impl Abort, kind: Kind, fault: (usize, u8)) {
    for count in COUNTS {
        for place in PLACES {
            assert_count(rt, kind, count, place, fault);
        }
    }
}

#[test]
fn runs_are_told_in_blocks(rt: HostRuntime) {
    let rows = [
        (Kind::Bool, 0, 2),
        (Kind::Char, 2, 0x11),
        (Kind::NonZero(IntegerKind::U8), 0, 0),
        (Kind::NonZero(IntegerKind::I16), 0, 0),
        (Kind::NonZero(IntegerKind::U32), 0, 0),
        (Kind::NonZero(IntegerKind::I64), 0, 0),
        (Kind::NonZero(IntegerKind::U128), 0, 0),
    ];
    for (kind, at, byte) in rows {
        assert_counts(&rt, kind, (at, byte));
    }
}

#[test]
fn runs_of_any_bytes_and_with_gaps(rt: HostRuntime) {
    let bytes = [7; 64];
    let any = count_legal(Kind::Number(IntegerKind::U16), &bytes, AT, 2, 30);
    assert_same(&rt, "any bytes", any, 30);
    let apart = count_legal(Kind::Bool, &[1; 600], 0, 2, 300);
    assert_same(&rt, "bools two bytes apart", apart, 0);
}

// Why there is no `T` at the start of the bytes, if there is none, by its type.
fn refusal_of<T: Portable>(alloc: Global, bytes: &[u8]) -> Option<Error> {
    let mut context = HighValidator::new(alloc, bytes);
    check_root::<T, HighValidator<'_>>(bytes, 0, &mut context).err()
}

// 514 ones, with a two at a place.
fn ones(rt: &impl Abort, alloc: Global, place: usize) -> Vec<u8> {
    let mut bytes = vec![in alloc; 1u8; 514].expect(rt, "memory");
    if let Some(byte) = bytes.get_mut(place) {
        *byte = 2;
    }
    bytes
}

// The refusal of so many bools of which the one at a place is no bool.
fn assert_bools(rt: &impl Abort, alloc: Global, place: usize) {
    let bytes = ones(rt, alloc, place);
    let refusal = if place < 513 {
        Some(Error::InvalidBool)
    } else {
        None
    };
    let found = refusal_of::<[bool; 513]>(alloc, &bytes);
    assert_same(rt, "many bools", found, refusal);
}

#[test]
fn one_of_many_bools_is_none(rt: HostRuntime) {
    for place in [0, 255, 256, 511, 512, 513] {
        assert_bools(&rt, rt.alloc(), place);
    }
}
