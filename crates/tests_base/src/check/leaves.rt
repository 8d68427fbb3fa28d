// What bytes are read as, which are leaves, and what regions of leaves take.

use crate::assertions::{assert_holds, assert_leaf, assert_same};
use archive_check::format::bytes;
use archive_check::format::error::Error;
use archive_check::format::expr::{IntegerKind, Kind};
use archive_check::format::layout::Layout;
use archive_check::format::leaf::{illegal, is_legal};
use archive_check::format::traits::{LayoutRaw, Portable, layout_of_run};
use archive_num::ArchivedU64;
use std::process::Abort;

// A text of eleven bytes elsewhere, and one of two in place.
const TWO_TEXTS: &[u8; 28] = b"hello world\0\x8b\0\0\0\xf4\xff\xff\xffhi\xff\xff\xff\xff\xff\xff";

#[test]
fn bytes_are_read(rt: HostRuntime) {
    let numbers = (
        bytes::read_u32(TWO_TEXTS, 12),
        bytes::read_coded_length(TWO_TEXTS, 12),
        bytes::inline_length(TWO_TEXTS, 20),
    );
    assert_same(&rt, "a number and two lengths", numbers, (0x8b, 11, 2));
    let elsewhere = (
        bytes::is_out_of_line(TWO_TEXTS, 12),
        bytes::is_out_of_line(TWO_TEXTS, 20),
    );
    assert_same(&rt, "what stands elsewhere", elsewhere, (true, false));
    let texts = (
        bytes::is_text(TWO_TEXTS, 0, 11),
        bytes::is_text(TWO_TEXTS, 12, 4),
    );
    assert_same(&rt, "what is a text", texts, (true, false));
}

#[test]
fn an_offset_leads_to_its_target(rt: HostRuntime) {
    assert!(rt; bytes::read_i32(TWO_TEXTS, 16) == -12);
    assert!(rt; bytes::read_position(TWO_TEXTS, 12, 16) == 0);
    let target = bytes::read_target(TWO_TEXTS, 12, 16);
    assert_same(&rt, "a target", target, 0);
}

#[test]
fn leaves_have_sizes(rt: HostRuntime) {
    let rows = [
        (Kind::Unit, 0, 1),
        (Kind::Bool, 1, 1),
        (Kind::Char, 4, 4),
        (Kind::Number(IntegerKind::I8), 1, 1),
        (Kind::Number(IntegerKind::U16), 2, 2),
        (Kind::NonZero(IntegerKind::I32), 4, 4),
        (Kind::NonZero(IntegerKind::U64), 8, 8),
        (Kind::RawRel(IntegerKind::I128), 16, 16),
    ];
    for row in rows {
        let kind = row.0;
        assert_same(&rt, "a leaf", (kind, kind.size(), kind.align()), row);
    }
}

// Whether the bytes, as many as the kind has, are a leaf, or their refusal.
fn leaf_of(kind: Kind, bytes: &[u8]) -> Result<(), Error> {
    if bytes.len() != kind.size() || is_legal(kind, bytes, 0) {
        return Ok(());
    }
    Err(illegal(kind))
}

// In each row a kind, and bytes that are such a leaf.
fn assert_legal(rt: &impl Abort, rows: &[(Kind, &[u8])]) {
    for (kind, bytes) in rows {
        let found = (*kind, *bytes, leaf_of(*kind, bytes));
        assert_same(rt, "a leaf", found, (*kind, *bytes, Ok(())));
    }
}

// In each row a kind, and bytes that are no such leaf, for this reason.
fn assert_illegal(rt: &impl Abort, rows: &[(Kind, &[u8])], refusal: Error) {
    for (kind, bytes) in rows {
        let found = (*kind, *bytes, leaf_of(*kind, bytes));
        assert_same(rt, "no leaf", found, (*kind, *bytes, Err(refusal)));
    }
}

#[test]
fn leaves_are_told_by_their_bytes(rt: HostRuntime) {
    assert_legal(
        &rt,
        &[
            (Kind::Unit, b""),
            (Kind::Bool, b"\x01"),
            (Kind::Char, b"\0\0\x10\0"),
            (Kind::Char, b"\xff\xff\x10\0"),
            (Kind::NonZero(IntegerKind::U16), b"\0\x01"),
            (Kind::Number(IntegerKind::U16), b"\0\0"),
            (Kind::Number(IntegerKind::I32), b"\0\0\0\0"),
        ],
    );
    let behind_a_byte = is_legal(Kind::Char, b"\0\xff\xff\x10\0", 1);
    assert_holds(&rt, "a char behind a byte", behind_a_byte);
}

#[test]
fn other_bytes_are_no_leaves(rt: HostRuntime) {
    let bools: [(Kind, &[u8]); 1] = [(Kind::Bool, b"\x02")];
    assert_illegal(&rt, &bools, Error::InvalidBool);
    let chars: [(Kind, &[u8]); 2] = [(Kind::Char, b"\0\0\x11\0"), (Kind::Char, b"\0\xd8\0\0")];
    assert_illegal(&rt, &chars, Error::InvalidChar);
    let zeros: [(Kind, &[u8]); 2] = [
        (Kind::NonZero(IntegerKind::U16), b"\0\0"),
        (Kind::NonZero(IntegerKind::I32), b"\0\0\0\0"),
    ];
    assert_illegal(&rt, &zeros, Error::ZeroNumber);
}

#[test]
fn types_of_the_machine_are_leaves(rt: HostRuntime) {
    let alloc = rt.alloc();
    assert_leaf::<()>(&rt, alloc, Kind::Unit, 0, 1);
    assert_leaf::<bool>(&rt, alloc, Kind::Bool, 1, 1);
    assert_leaf::<u8>(&rt, alloc, Kind::Number(IntegerKind::U8), 1, 1);
    assert_leaf::<i8>(&rt, alloc, Kind::Number(IntegerKind::I8), 1, 1);
}

// 2 to the power of 61: so many numbers of eight bytes are more than a size can be.
const MANY: usize = 2_305_843_009_213_693_952;

fn assert_layout(
    rt: &impl Abort,
    found: Result<Layout, Error>,
    wanted: Result<(usize, usize), Error>,
) {
    let found = match found {
        Ok(layout) => Ok((layout.size, layout.align)),
        Err(error) => Err(error),
    };
    assert_same(rt, "size and alignment", found, wanted);
}

// The layout of a region of so many elements; none where it is too large.
fn assert_run<T: Portable>(rt: &impl Abort, count: usize, layout: Option<(usize, usize)>) {
    let wanted = layout.ok_or(Error::LayoutTooLarge);
    assert_layout(rt, layout_of_run::<T>(count), wanted);
}

// The layout of a region of one value.
fn assert_one<T: LayoutRaw>(rt: &impl Abort, size: usize, align: usize) {
    assert_layout(rt, T::layout_raw(0), Ok((size, align)));
}

#[test]
fn regions_have_layouts(rt: HostRuntime) {
    assert_one::<ArchivedU64>(&rt, 8, 8);
    assert_one::<()>(&rt, 0, 1);
    assert_run::<ArchivedU64>(&rt, 0, Some((0, 8)));
    assert_run::<ArchivedU64>(&rt, 3, Some((24, 8)));
    assert_run::<ArchivedU64>(&rt, MANY, None);
    assert_run::<u8>(&rt, usize::MAX, Some((usize::MAX, 1)));
    assert_run::<()>(&rt, usize::MAX, Some((0, 1)));
}
