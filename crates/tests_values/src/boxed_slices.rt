// Boxed slices and texts.

use crate::assertions::{
    BOXED_HELLO_WORLD, assert_bytes, assert_refusal, assert_same, assert_written, value_of,
};
use archive_check::format::error::Error;
use archive_types::boxed::{BoxSlice, BoxStr};
use archive_types::primitive::ArchivedU32;
use archive_types::ser::{Positional, ResolveExt, Serializer, WriterExt};
use archive_types::string::Text;
use archive_types::traits::SerializeUnsized;

// Two numbers of 16 bits, and at 4 the box that points back at them.
const ONE_AND_TWO: &[u8] = b"\x01\0\x02\0\xfc\xff\xff\xff\x02\0\0\0";

#[test]
fn boxed_slices_and_their_archives(rt: HostRuntime) {
    let items = vec![in rt.alloc(); 1u16, 2].expect(&rt, "memory");
    assert_written(&rt, rt.alloc(), &BoxSlice { items }, ONE_AND_TWO);
    let back: BoxSlice<u16> = value_of(&rt, rt.alloc(), ONE_AND_TWO);
    assert_same(&rt, "the items", back.items.as_slice(), &[1, 2]);
}

#[test]
fn boxed_texts_and_their_archives(rt: HostRuntime) {
    let text = String::from_str(rt.alloc(), "hello world").expect(&rt, "memory");
    assert_written(&rt, rt.alloc(), &BoxStr { text }, BOXED_HELLO_WORLD);
    let back: BoxStr = value_of(&rt, rt.alloc(), BOXED_HELLO_WORLD);
    assert_same(&rt, "the text", back.text.as_str(), "hello world");
}

#[test]
fn a_pointer_is_written_by_itself(rt: HostRuntime) {
    let mut serializer = Serializer::new(Vec::new(rt.alloc()), rt.alloc(), ());
    let text = Text {
        text: "hello world",
    };
    let region = text.serialize_unsized(&mut serializer);
    let region = region.expect(&rt, "a text");
    let end = serializer.align_for::<ArchivedU32>().expect(&rt, "zeros");
    let pointer = serializer.resolve_unsized_aligned(&text, region);
    let pointer = pointer.expect(&rt, "a pointer");
    assert_same(&rt, "the text", (region, end, pointer), (0, 12, 12));
    let pointer = serializer.resolve_unsized_aligned(&7u8, 24);
    let pointer = pointer.expect(&rt, "a pointer");
    let far = serializer.resolve_unsized_aligned(&7u8, 4_294_967_296);
    assert_refusal(&rt, "too far", far, Error::OffsetOverflow);
    assert_same(&rt, "a byte", (pointer, serializer.pos()), (20, 24));
    let bytes = serializer.into_writer();
    let right = b"hello world\0\xf4\xff\xff\xff\x0b\0\0\0\x04\0\0\0";
    assert_bytes(&rt, "the bytes", bytes.as_slice(), right);
}
