// Bytes made by hand, what `access` and the slow check say of them, with all that a refusal tells.

use crate::assertions::{BySchema, ByType, assert_answer, form_of};
use arc_commands::shared::ArchivedTwoRc;
use archive_core::boxed::ArchivedBox;
use archive_core::error::Error;
use archive_core::option::ArchivedOption;
use archive_core::primitive::{ArchivedU32, ArchivedU64};
use archive_core::slice::ArchivedSlice;
use archive_core::traits::{Portable, PortablePointee};
use archive_core::vec::ArchivedVec;
use archive_inspect::form::Form;
use archive_inspect::text::parse;
use std::alloc::Global;
use std::process::Abort;

// In each row bytes, and the fault in them that is met first, if there is one.
pub(crate) fn assert_rows<T: Portable>(
    rt: &impl Abort,
    alloc: Global,
    rows: &[(&[u8], Option<Error>)],
) {
    let form = form_of::<T>(rt, alloc);
    for (bytes, fault) in rows {
        assert_answer::<ByType<T>>(rt, "a row", alloc, &form, bytes, *fault);
    }
}

// The same of an option of a box.
fn assert_optional_boxes<T: PortablePointee>(
    rt: &impl Abort,
    alloc: Global,
    rows: &[(&[u8], Option<Error>)],
) {
    assert_rows::<ArchivedOption<ArchivedBox<T>>>(rt, alloc, rows);
}

// And of two boxes.
fn assert_two_boxes<T: PortablePointee>(
    rt: &impl Abort,
    alloc: Global,
    rows: &[(&[u8], Option<Error>)],
) {
    assert_rows::<[ArchivedBox<T>; 2]>(rt, alloc, rows);
}

// A region isn't within this range.
pub(crate) fn outside(position: i128, size: usize, start: usize, end: usize) -> Option<Error> {
    Some(Error::InvalidSubtreePointer {
        position,
        size,
        start,
        end,
    })
}

#[test]
fn an_unknown_tag_of_an_option_is_told(rt: HostRuntime) {
    let unknown = Error::InvalidDiscriminant {
        name: "ArchivedOption",
        value: 2,
    };
    let some = b"Hello world\0\x01\0\0\0\xf0\xff\xff\xff\x0b\0\0\0";
    let other = b"Hello world\0\x02\0\0\0\xf0\xff\xff\xff\x0b\0\0\0";
    assert_optional_boxes::<ArchivedSlice<u8>>(
        &rt,
        rt.alloc(),
        &[(some, None), (other, Some(unknown))],
    );
}

#[test]
fn a_slice_lies_in_one_box_alone(rt: HostRuntime) {
    let apart = b"Hello world\0\xf4\xff\xff\xff\x05\0\0\0\xf1\xff\xff\xff\x06\0\0\0";
    let before = b"Hello world\0\xf0\xff\xff\xff\x0b\0\0\0\xe8\xff\xff\xff\x0b\0\0\0";
    let twice = b"Hello world\0\xf4\xff\xff\xff\x0b\0\0\0\xec\xff\xff\xff\x0b\0\0\0";
    assert_two_boxes::<ArchivedSlice<u8>>(
        &rt,
        rt.alloc(),
        &[
            (apart, None),
            (before, outside(-4, 11, 0, 12)),
            (twice, outside(0, 11, 11, 12)),
        ],
    );
}

#[test]
fn the_regions_of_two_boxes_rise(rt: HostRuntime) {
    let rising = b"\x01\0\0\0\x02\0\0\0\xf8\xff\xff\xff\xf8\xff\xff\xff";
    let falling = b"\x01\0\0\0\x02\0\0\0\xfc\xff\xff\xff\xf4\xff\xff\xff";
    assert_two_boxes::<ArchivedU32>(
        &rt,
        rt.alloc(),
        &[(rising, None), (falling, outside(0, 4, 8, 8))],
    );
}

#[test]
fn the_regions_of_two_shared_numbers_rise(rt: HostRuntime) {
    let rising = b"\x0a\0\0\0\x0b\0\0\0\xf8\xff\xff\xff\xf8\xff\xff\xff";
    let falling = b"\x0a\0\0\0\x0b\0\0\0\xfc\xff\xff\xff\xf4\xff\xff\xff";
    assert_rows::<ArchivedTwoRc>(
        &rt,
        rt.alloc(),
        &[(rising, None), (falling, outside(0, 4, 8, 8))],
    );
}

// In each row the bytes of a vector, and their fault.
fn assert_vectors<T: Portable>(rt: &impl Abort, alloc: Global, rows: &[(&[u8], Option<Error>)]) {
    assert_rows::<ArchivedVec<T>>(rt, alloc, rows);
}

#[test]
fn lengths_aren_t_cut(rt: HostRuntime) {
    let many = b"\0\0\0\0\xff\xff\xff\xff";
    let before = b"\0\0\0\x80\0\0\0\0";
    assert_vectors::<ArchivedU32>(
        &rt,
        rt.alloc(),
        &[
            (many, outside(0, 17_179_869_180, 0, 0)),
            (before, outside(-2_147_483_648, 0, 0, 0)),
        ],
    );
    let one = b"\0\0\0\0\x01\0\0\0";
    assert_vectors::<[ArchivedU64; 4_294_967_296]>(
        &rt,
        rt.alloc(),
        &[
            (one, outside(0, 34_359_738_368, 0, 0)),
            (many, Some(Error::LayoutTooLarge)),
        ],
    );
}

// In each row bytes, and their fault by a schema.
pub(crate) fn assert_form_rows(
    rt: &impl Abort,
    alloc: Global,
    form: &Form,
    rows: &[(&[u8], Option<Error>)],
) {
    for (bytes, fault) in rows {
        assert_answer::<BySchema>(rt, "a row", alloc, form, bytes, *fault);
    }
}

#[test]
fn a_value_may_not_lead_to_itself(rt: HostRuntime) {
    let text = "struct Inner { inner: WeakShared<Inner> } (Shared<Inner>,)";
    let form = parse(rt.alloc(), text).expect(&rt, "a schema");
    let circle = b"\0\0\0\0\xfc\xff\xff\xff";
    let null = b"\x01\0\0\0\xfc\xff\xff\xff";
    assert_form_rows(
        &rt,
        rt.alloc(),
        &form,
        &[(circle, Some(Error::CyclicValidate)), (null, None)],
    );
}
