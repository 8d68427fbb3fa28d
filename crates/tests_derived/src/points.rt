// A record of two numbers, a text and a list of texts.

use crate::assertions::{
    assert_archived, assert_bytes, assert_same, sealed, text, viewed, write_text,
};
use crate::judgements::{assert_faults, outside, unaligned};
use archive_core::error::Error;
use archive_core::string::ArchivedString;
use archive_core::vec::ArchivedVec;
use archive_core::view::Ref;
use derived_plain::point::{ArchivedPoint, Point, PointSeal, PointView};
use std::alloc::Global;
use std::process::Abort;

// Two texts, of 11 and of 12 bytes; at 24 a string with its text in it and one that points back at 11; at 40 the numbers -2 and 258, the string that points
// back at 0, and the vector that points back at 24.
const POINT: &[u8; 64] =
    b"hello worldgood morning\0hi\xff\xff\xff\xff\xff\xff\x8c\0\0\0\xeb\xff\xff\xff\xfe\xff\xff\xff\x02\x01\0\0\x8b\0\0\0\xd0\xff\xff\xff\xe0\xff\xff\xff\x02\0\0\0";

// Nothing at 0 but the vector's end, and two zeros, a string of no byte, and the vector.
const BLANK: &[u8; 24] =
    b"\0\0\0\0\0\0\0\0\xff\xff\xff\xff\xff\xff\xff\xff\xf0\xff\xff\xff\0\0\0\0";

// The point that those bytes are the archive of.
fn point(rt: &impl Abort, alloc: Global) -> Point {
    let tags = vec![in alloc; text(rt, alloc, "hi"), text(rt, alloc, "good morning")];
    Point {
        x: -2,
        y: 258,
        name: text(rt, alloc, "hello world"),
        tags: tags.expect(rt, "memory for tags"),
    }
}

// And the one of nothing.
fn blank(alloc: Global) -> Point {
    Point {
        x: 0,
        y: 0,
        name: String::new(alloc),
        tags: Vec::new(alloc),
    }
}

// A point has this archive, and is read back of it.
fn assert_point(rt: &impl Abort, alloc: Global, point: &Point, archive: &[u8]) {
    assert_archived(rt, alloc, point, 24, archive);
}

#[test]
fn points_are_written_and_read_back(rt: HostRuntime) {
    let alloc = rt.alloc();
    assert_point(&rt, alloc, &point(&rt, alloc), POINT);
    assert_point(&rt, alloc, &blank(alloc), BLANK);
}

// A list has this text at an index.
fn assert_tag(
    rt: &impl Abort,
    list: Ref<'_, ArchivedVec<ArchivedString>>,
    index: usize,
    text: &str,
) {
    let Some(tag) = list.as_slice().get(index) else {
        panic!(rt; "no such tag")
    };
    assert_same(rt, "a tag", tag.as_str(), text);
}

#[test]
fn a_point_is_viewed(rt: HostRuntime) {
    let view = viewed::<ArchivedPoint>(&rt, rt.alloc(), POINT);
    let place = (view.x().get(), view.y().get());
    assert_same(&rt, "the place", place, (-2, 258));
    assert_same(&rt, "the name", view.name().as_str(), "hello world");
    assert_same(&rt, "how many tags", view.tags().len(), 2);
    assert_tag(&rt, view.tags(), 0, "hi");
    assert_tag(&rt, view.tags(), 1, "good morning");
}

// The numbers of a point become other ones.
fn move_point(rt: &impl Abort, alloc: Global, bytes: &mut [u8], x: i32, y: i32) {
    sealed::<ArchivedPoint>(rt, alloc, bytes).x_mut().write(x);
    sealed::<ArchivedPoint>(rt, alloc, bytes).y_mut().write(y);
}

// The name, and the second tag, become other texts.
fn name_point(rt: &impl Abort, alloc: Global, bytes: &mut [u8], name: &str, tag: &str) {
    write_text(sealed::<ArchivedPoint>(rt, alloc, bytes).name_mut(), name);
    let tags = sealed::<ArchivedPoint>(rt, alloc, bytes)
        .tags_mut()
        .as_slice_seal();
    if tags.len() > 1 {
        write_text(tags.index(1), tag);
    }
}

#[test]
fn a_point_is_edited(rt: HostRuntime) {
    let mut bytes = *POINT;
    move_point(&rt, rt.alloc(), &mut bytes, 1, -1);
    name_point(&rt, rt.alloc(), &mut bytes, "good-bye...", "good evening");
    let wanted =
        b"good-bye...good evening\0hi\xff\xff\xff\xff\xff\xff\x8c\0\0\0\xeb\xff\xff\xff\x01\0\0\0\xff\xff\xff\xff\x8b\0\0\0\xd0\xff\xff\xff\xe0\xff\xff\xff\x02\0\0\0";
    assert_bytes(&rt, "the edited point", &bytes, wanted);
    name_point(&rt, rt.alloc(), &mut bytes, "too long a name", "short");
    assert_bytes(&rt, "texts of other lengths", &bytes, wanted);
}

#[test]
fn faults_of_points_are_found(rt: HostRuntime) {
    let rows = [
        (0, 0xff, Error::InvalidUtf8),
        (11, 0xff, Error::InvalidUtf8),
        (24, 0xc0, Error::InvalidUtf8),
        (32, 0x84, Error::InvalidStringRepr),
        (48, 0x82, Error::InvalidStringRepr),
        (52, 0xd1, outside(11, 12, 12, 24)),
        (56, 0xdf, unaligned(23, 4)),
        (56, 0xe4, outside(28, 16, 11, 40)),
        (60, 3, outside(24, 24, 11, 40)),
    ];
    assert_faults::<ArchivedPoint>(&rt, rt.alloc(), POINT, &rows);
}
