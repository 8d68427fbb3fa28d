// Views of boxes, slices and vectors, and of what strings tell of their texts.

use crate::assertions::{
    BOXED_HELLO_WORLD, HELLO_WORLD, assert_holds, assert_same, number_of, viewed,
};
use crate::owners::ONE_AND_TWO;
use archive_types::boxed::ArchivedBox;
use archive_types::primitive::{ArchivedU16, ArchivedU32};
use archive_types::slice::ArchivedSlice;
use archive_types::string::{ArchivedStr, ArchivedString};
use archive_types::traits::{LayoutRaw, Portable};
use archive_types::vec::ArchivedVec;
use std::process::Abort;

#[test]
fn a_box_shows_its_value(rt: HostRuntime) {
    let boxed = b"\x07\0\0\0\xfc\xff\xff\xff";
    let value = viewed::<ArchivedBox<ArchivedU32>>(&rt, boxed).get();
    let found = (value.pos(), value.get());
    assert_same(&rt, "the position and the number", found, (0, 7));
    let size = ArchivedBox::<ArchivedU32>::size();
    let align = ArchivedBox::<ArchivedU32>::align();
    assert_same(&rt, "the layout", (size, align), (4, 4));
}

#[test]
fn a_box_shows_its_text(rt: HostRuntime) {
    let text = viewed::<ArchivedBox<ArchivedStr>>(&rt, BOXED_HELLO_WORLD).get();
    let found = (text.as_str(), text.as_bytes(), text.is_empty());
    let wanted = ("hello world", b"hello world".as_slice(), false);
    assert_same(&rt, "the text", found, wanted);
}

// How long a vector is, and whether it is empty.
fn length_of<T: Portable>(rt: &impl Abort, bytes: &[u8]) -> (usize, bool) {
    let view = viewed::<ArchivedVec<T>>(rt, bytes);
    (view.len(), view.is_empty())
}

#[test]
fn a_vector_shows_its_elements(rt: HostRuntime) {
    let two = length_of::<ArchivedU32>(&rt, ONE_AND_TWO);
    assert_same(&rt, "the vector", two, (2, false));
    let slice = viewed::<ArchivedVec<ArchivedU32>>(&rt, ONE_AND_TWO).as_slice();
    let found = (slice.pos(), slice.is_empty());
    assert_same(&rt, "the slice", found, (0, false));
    let (first, second) = (number_of(slice.get(0)), number_of(slice.get(1)));
    let found = (first, second, number_of(slice.get(2)));
    assert_same(&rt, "the elements", found, (Some(1), Some(2), None));
}

#[test]
fn vectors_show_no_elements_and_many(rt: HostRuntime) {
    let none = length_of::<ArchivedU32>(&rt, b"\0\0\0\0\0\0\0\0");
    let units = length_of::<()>(&rt, b"\0\0\0\0\xff\xff\xff\xff");
    let wanted = ((0, true), (4_294_967_295, false));
    assert_same(&rt, "vectors of none and of units", (none, units), wanted);
}

#[test]
fn elements_come_from_both_ends(rt: HostRuntime) {
    let bytes = b"\x01\0\x02\0\x03\0\0\0\xf8\xff\xff\xff\x03\0\0\0";
    let slice = viewed::<ArchivedVec<ArchivedU16>>(&rt, bytes).as_slice();
    let mut elements = slice.iter();
    let found = (elements.len(), elements.size_hint());
    assert_same(&rt, "the length", found, (3, (3, Some(3))));
    let (first, last) = (number_of(elements.next()), number_of(elements.next_back()));
    let middle = number_of(elements.next_back());
    let found = (first, last, middle);
    assert_same(&rt, "the elements", found, (Some(1), Some(3), Some(2)));
    let ends = (number_of(elements.next()), number_of(elements.next_back()));
    assert_same(&rt, "the ends", ends, (None, None));
}

#[test]
fn strings_tell_where_their_texts_stand(rt: HostRuntime) {
    let long = viewed::<ArchivedString>(&rt, HELLO_WORLD);
    if long.is_inline() {
        panic!(rt; "the text stands elsewhere")
    }
    assert_same(&rt, "the offset", long.out_of_line_offset(), -12);
    assert_same(&rt, "the bytes", long.as_bytes(), b"hello world");
    assert_holds(&rt, "the long string isn't empty", !long.is_empty());
    let empty = viewed::<ArchivedString>(&rt, b"\xff\xff\xff\xff\xff\xff\xff\xff");
    let found = (empty.is_inline(), empty.is_empty());
    assert_same(&rt, "an empty text in place", found, (true, true));
}

#[test]
fn slices_and_texts_have_layouts(rt: HostRuntime) {
    let slice = ArchivedSlice::<ArchivedU32>::layout_raw(3).expect(&rt, "a layout");
    assert_same(&rt, "a slice's region", (slice.size, slice.align), (12, 4));
    let large = ArchivedSlice::<ArchivedU32>::layout_raw(4_611_686_018_427_387_904);
    assert_holds(&rt, "a region above usize::MAX is refused", large.is_err());
    let text = ArchivedStr::layout_raw(11).expect(&rt, "a layout");
    assert_same(&rt, "a text", (text.size, text.align), (11, 1));
}
