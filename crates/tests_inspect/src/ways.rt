// Damaged bytes, and the line that leads to the fault.

use crate::assertions::{assert_same, form_of, line_of};
use crate::schemas::{
    EVENTS, LIST, ONE_IN_A_LIST, RUNS, THREE_EVENTS, THREE_RUNS, TRACKS, TREE, TWO_IN_A_MAP,
    TWO_TRACKS, TWO_TREES,
};
use std::alloc::Global;
use std::process::Abort;
use std::test::Fail;

// In each row an index, the byte that is written there, and the line that is told then.
fn assert_lines(
    rt: &impl Abort,
    alloc: Global,
    text: &str,
    archive: &[u8],
    rows: &[(usize, u8, &str)],
) -> Result<(), Fail> {
    let form = form_of(rt, alloc, text);
    for (index, value, wanted) in rows {
        let mut bytes = archive.to_vec(alloc)?;
        if let Some(byte) = bytes.get_mut(*index) {
            *byte = *value;
        }
        let found = line_of(alloc, &form, &bytes)?;
        assert_same(rt, wanted, found.as_str(), *wanted);
    }
    Ok(())
}

#[test]
fn ways_through_vectors_and_variants(rt: HostRuntime) -> Result<(), Fail> {
    let rows = [
        (0, b'H', ""),
        (
            3,
            0xc0,
            "at [0].Text, byte 0: the text isn't UTF-8 (byte 3 of 11 is 0xc0)",
        ),
        (
            20,
            9,
            "at [0], byte 20: the tag is 9, and Event has 5 variants",
        ),
        (
            24,
            0x80,
            "at [0].Text, byte 24: the string is out of line, but its length is only 0",
        ),
        (
            25,
            1,
            "at [0].Text, byte 24: a text of 75 bytes at 0 doesn't lie within 0..20",
        ),
        (
            36,
            0xe0,
            "at [1].Batch, byte 36: 2 elements of 4 bytes at 4 don't lie within 11..20",
        ),
        (
            36,
            0xe9,
            "at [1].Batch, byte 36: 2 elements of 4 bytes at 13 don't lie within 11..20",
        ),
        (
            50,
            0xff,
            "at [2].Key, byte 48: the char is 0xff0041, which is no Unicode scalar value",
        ),
        (
            56,
            0,
            "at the root, byte 56: 3 elements of 12 bytes at -200 don't lie within 0..56",
        ),
        (
            56,
            0xdb,
            "at the root, byte 56: 3 elements of 12 bytes at 19 don't lie at a multiple of 4",
        ),
    ];
    assert_lines(&rt, rt.alloc(), EVENTS, THREE_EVENTS, &rows)
}

#[test]
fn ways_through_boxes(rt: HostRuntime) -> Result<(), Fail> {
    let rows = [
        (
            0,
            2,
            "at .Cons.1.*, byte 0: the tag is 2, and List has 2 variants",
        ),
        (
            12,
            3,
            "at the root, byte 12: the tag is 3, and List has 2 variants",
        ),
        (
            20,
            0xff,
            "at .Cons.1, byte 20: a value of 12 bytes at 19 doesn't lie within 0..12",
        ),
    ];
    assert_lines(&rt, rt.alloc(), LIST, ONE_IN_A_LIST, &rows)?;
    let rows = [
        (
            4,
            0xf8,
            "at .children[0].children, byte 4: 0 elements of 12 bytes at -4 don't lie within 0..0",
        ),
        (
            20,
            2,
            "at .children, byte 16: 2 elements of 12 bytes at 0 don't lie within 0..12",
        ),
    ];
    assert_lines(&rt, rt.alloc(), TREE, TWO_TREES, &rows)
}

#[test]
fn ways_through_shared_pointers(rt: HostRuntime) -> Result<(), Fail> {
    let rows = [
        (
            20,
            2,
            "at [0].other, byte 20: the tag is 2, and Option has 2 variants",
        ),
        (
            28,
            0xe5,
            "at [1].line, byte 28: a value of 8 bytes at 1 doesn't lie within 8..16",
        ),
        (
            36,
            0xe0,
            "at [1].other.Some, byte 36: a value of 8 bytes at 4 doesn't lie within 8..16",
        ),
    ];
    assert_lines(&rt, rt.alloc(), TRACKS, TWO_TRACKS, &rows)?;
    let rows = [
        (
            9,
            0xff,
            "at .text, byte 8: the text isn't UTF-8 (byte 1 of 3 is 0xff)",
        ),
        (
            24,
            3,
            "at .lines, byte 20: 3 elements of 8 bytes at 0 don't lie within 0..20",
        ),
        (
            28,
            0xe4,
            "at .text, byte 28: the value at 0 is also pointed to as another type",
        ),
    ];
    assert_lines(&rt, rt.alloc(), RUNS, THREE_RUNS, &rows)
}

#[test]
fn ways_to_leaves_of_tuples(rt: HostRuntime) -> Result<(), Fail> {
    let rows = [
        (0, 2, "at .0, byte 0: the bool is 0x02, neither 0 nor 1"),
        (
            2,
            0,
            "at .1[0], byte 2: the number is 0, which its type excludes",
        ),
        (
            9,
            0,
            "at the root, byte 0: the root's 6 bytes at 0 don't lie within 0..5",
        ),
    ];
    let text = "(bool, [NonZeroU16; 2])";
    assert_lines(&rt, rt.alloc(), text, b"\x01\0\x01\0\x02\0", &rows[..2])?;
    assert_lines(&rt, rt.alloc(), text, b"\x01\0\x01\0\x02", &rows[2..])
}

#[test]
fn ways_through_maps(rt: HostRuntime) -> Result<(), Fail> {
    let rows = [
        (0, 0, ""),
        (
            8,
            1,
            "at .key(1), byte 8: the key is no greater than the one before it",
        ),
        (
            20,
            3,
            "at the root, byte 16: 3 elements of 8 bytes at 0 don't lie within 0..16",
        ),
    ];
    assert_lines(&rt, rt.alloc(), "BTreeMap<u32, u32>", TWO_IN_A_MAP, &rows)
}
