// Strings and texts.

use crate::assertions::{
    HELLO_WORLD, assert_archived, assert_refusal, assert_refused, assert_same, viewed,
};
use archive_check::format::error::Error;
use archive_types::boxed::ArchivedBox;
use archive_types::primitive::ArchivedUsize;
use archive_types::ser::{Positional, Serializer};
use archive_types::string::{ArchivedStr, ArchivedString, Text, repr};
use archive_types::traits::{ArchivePointee, ArchiveUnsized, DeserializeUnsized, SerializeUnsized};
use std::alloc::Global;
use std::process::Abort;

// In each row a text and its archive, which is written, viewed and read back.
fn assert_texts(rt: &impl Abort, alloc: Global, rows: &[(&str, &[u8])]) {
    for (words, archive) in rows {
        let value = String::from_str(alloc, words).expect(rt, "memory for a text");
        assert_archived(rt, alloc, &value, archive);
        let view = viewed::<ArchivedString>(rt, archive);
        let end = view.pos().checked_add(8);
        let found = (view.as_str(), view.len(), end);
        assert_same(
            rt,
            "a text",
            found,
            (*words, words.len(), Some(archive.len())),
        );
    }
}

#[test]
fn texts_and_their_archives(rt: HostRuntime) {
    let rows: [(&str, &[u8]); 6] = [
        ("hello world", HELLO_WORLD),
        ("hi", b"hi\xff\xff\xff\xff\xff\xff"),
        ("", b"\xff\xff\xff\xff\xff\xff\xff\xff"),
        ("12345678", b"12345678"),
        ("123456789", b"123456789\0\0\0\x89\0\0\0\xf4\xff\xff\xff"),
        (
            "0123456701234567012345670123456701234567012345670123456701234567",
            b"0123456701234567012345670123456701234567012345670123456701234567\x80\x01\0\0\xc0\xff\xff\xff",
        ),
    ];
    assert_texts(&rt, rt.alloc(), &rows);
}

#[test]
fn strings_that_are_refused(rt: HostRuntime) {
    let nothing = Error::InvalidSubtreePointer {
        position: 0,
        size: 8,
        start: 0,
        end: 0,
    };
    let unaligned = Error::UnalignedPointer {
        position: 11,
        align: 4,
    };
    let rows: [(&[u8], Error); 4] = [
        (b"\x81\0\0\0\xff\xff\xff\xff", Error::InvalidStringRepr),
        (b"\xc0\x80\xff\xff\xff\xff\xff\xff", Error::InvalidUtf8),
        (b"", nothing),
        (b"ello world\0\x8b\0\0\0\xf4\xff\xff\xff", unaligned),
    ];
    assert_refused::<ArchivedString>(&rt, &rows);
}

#[test]
fn a_text_is_a_region_of_its_own(rt: HostRuntime) {
    let mut serializer = Serializer::new(Vec::new(rt.alloc()), rt.alloc(), ());
    let text = Text { text: "héllo" };
    let metadata = ArchivedUsize::from_native(6);
    assert_eq!(rt; text.archived_metadata(), Ok(metadata));
    let region = text.serialize_unsized(&mut serializer);
    let region = region.expect(&rt, "a region");
    let length = ArchivedStr::pointer_metadata(&metadata);
    let found = (region, serializer.pos(), length);
    assert_same(&rt, "the region, its end and its length", found, (0, 6, 6));
}

#[test]
fn a_text_of_its_own_is_read(rt: HostRuntime) {
    let boxed = b"hello world\0\xf4\xff\xff\xff\x0b\0\0\0";
    let view = viewed::<ArchivedBox<ArchivedStr>>(&rt, boxed).get();
    assert_same(&rt, "the view's length", view.len(), 11);
    let length = <ArchivedStr as DeserializeUnsized<String, ()>>::deserialize_metadata(view);
    assert_same(&rt, "the length", length, 11);
    let text = <ArchivedStr as DeserializeUnsized<String, ()>>::deserialize_unsized(
        rt.alloc(),
        view,
        &mut (),
    );
    let text = text.expect(&rt, "a text");
    assert_same(&rt, "the text", text.as_str(), "hello world");
}

#[test]
fn eight_bytes_say_where_a_text_stands(rt: HostRuntime) {
    let mut bytes = [0; 8];
    repr::emplace_inline("hi", &mut bytes);
    let inline = *b"hi\xff\xff\xff\xff\xff\xff";
    assert_same(&rt, "in place", bytes, inline);
    let text = "0123456789";
    let far = repr::try_emplace_out_of_line(text, 0, 1 << 31, &mut bytes);
    assert_refusal(&rt, "too far", far, Error::OffsetOverflow);
    assert_same(&rt, "the place after a refused resolve", bytes, inline);
    repr::try_emplace_out_of_line(text, 12, 0, &mut bytes).expect(&rt, "a text elsewhere");
    assert_same(&rt, "elsewhere", bytes, *b"\x8a\0\0\0\xf4\xff\xff\xff");
}
