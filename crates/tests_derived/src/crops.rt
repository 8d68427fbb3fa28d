// A struct of arrays in an option, in a result, in an array and in a vector.

use crate::assertions::{assert_archived, assert_same, text, viewed};
use crate::judgements::{assert_faults, outside, unknown_tag};
use archive_core::error::Error;
use derived_plain::crop::{ArchivedCrop, Crop, CropView};
use std::alloc::Global;
use std::process::Abort;

// The marks, of two numbers each: 1 and 2, 3 and 258. At 8 the option with the numbers 1, 2, 258 and 65536; at 28 the result with -1 and 3, of two bytes each,
// behind a tag and a zero, and six zeros; at 40 the numbers 1, -2, 3 and 4; at 44 the vector of two that points back at 0.
const CROP: &[u8; 52] =
    b"\x01\0\x02\0\x03\0\x02\x01\x01\0\0\0\x01\0\0\0\x02\0\0\0\x02\x01\0\0\0\0\x01\0\0\0\xff\xff\x03\0\0\0\0\0\0\0\x01\xfe\x03\x04\xd4\xff\xff\xff\x02\0\0\0";

// A text and a zero; at 12 no marks, and no numbers; at 32 the result with the string that points back at 0, at 44 four zeros; at 48 the vector of none that
// points back at 12.
const WHOLE: &[u8; 56] =
    b"hello world\0\0\0\0\0\0\0\0\0\0\0\0\0\0\0\0\0\0\0\0\0\x01\0\0\0\x8b\0\0\0\xdc\xff\xff\xff\0\0\0\0\xdc\xff\xff\xff\0\0\0\0";

// The crop that the first one is the archive of.
fn crop(rt: &impl Abort, alloc: Global) -> Crop {
    Crop {
        area: Some([1, 2, 258, 65536]),
        moved: Ok([-1, 3]),
        bends: [[1, -2], [3, 4]],
        marks: Vec::from_array(alloc, [[1, 2], [3, 258]]).expect(rt, "memory for marks"),
    }
}

// And that of the second one.
fn whole(rt: &impl Abort, alloc: Global) -> Crop {
    Crop {
        area: None,
        moved: Err(text(rt, alloc, "hello world")),
        bends: [[0, 0], [0, 0]],
        marks: Vec::new(alloc),
    }
}

// A crop has this archive, and is read back of it.
fn assert_crop(rt: &impl Abort, alloc: Global, crop: &Crop, archive: &[u8]) {
    assert_archived(rt, alloc, crop, 44, archive);
}

#[test]
fn crops_are_written_and_read_back(rt: HostRuntime) {
    let alloc = rt.alloc();
    assert_crop(&rt, alloc, &crop(&rt, alloc), CROP);
    assert_crop(&rt, alloc, &whole(&rt, alloc), WHOLE);
}

#[test]
fn arrays_in_crops_are_viewed(rt: HostRuntime) {
    let view = viewed::<ArchivedCrop>(&rt, rt.alloc(), CROP);
    let area = view.area().as_ref().expect(&rt, "an area");
    assert_same(&rt, "the width", area.index(2).get(), 258);
    let moved = view.moved().as_ref().ok().expect(&rt, "a way");
    assert_same(&rt, "the way to the right", moved.index(0).get(), -1);
    let bend = view.bends().index(0).index(1).get();
    assert_same(&rt, "a bend", bend, -2);
    let mark = view.marks().as_slice().get(1).expect(&rt, "a second mark");
    assert_same(&rt, "how far down it is", mark.index(1).get(), 258);
}

#[test]
fn faults_of_crops_are_found(rt: HostRuntime) {
    let rows = [
        (8, 2, unknown_tag("ArchivedOption", 2)),
        (28, 2, unknown_tag("ArchivedResult", 2)),
        (44, 0xd3, outside(-1, 8, 0, 8)),
    ];
    assert_faults::<ArchivedCrop>(&rt, rt.alloc(), CROP, &rows);
    assert_faults::<ArchivedCrop>(&rt, rt.alloc(), WHOLE, &[(0, 0xc0, Error::InvalidUtf8)]);
}
