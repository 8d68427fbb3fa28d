// Vectors written from iterators that don't know how many items come.

use crate::assertions::{assert_bytes, assert_same};
use archive_check::format::error::Error;
use archive_types::primitive::ArchivedU16;
use archive_types::ser::Serializer;
use archive_types::string::ArchivedString;
use archive_types::vec::ArchivedVec;

#[test]
fn items_are_written_as_they_come(rt: HostRuntime) {
    let before = vec![in rt.alloc(); 0xaau8].expect(&rt, "memory");
    let mut serializer = Serializer::new(before, rt.alloc(), ());
    let written = ArchivedVec::<ArchivedU16>::serialize_from_unknown_length_iter(
        1u16..4,
        &mut serializer,
    );
    let Ok(_) = written else {
        panic!(rt; "not written")
    };
    let bytes = serializer.into_writer();
    let right = b"\xaa\0\x01\0\x02\0\x03\0";
    assert_bytes(&rt, "the bytes", bytes.as_slice(), right);
}

#[test]
fn an_item_that_writes_is_refused(rt: HostRuntime) {
    let near = String::from_str(rt.alloc(), "hi").expect(&rt, "memory");
    let far = String::from_str(rt.alloc(), "hello world").expect(&rt, "memory");
    let texts = vec![in rt.alloc(); near, far].expect(&rt, "memory");
    let mut serializer = Serializer::new(Vec::new(rt.alloc()), rt.alloc(), ());
    let written = ArchivedVec::<ArchivedString>::serialize_from_unknown_length_iter(
        texts.into_iter(),
        &mut serializer,
    );
    let Err(error) = written else {
        panic!(rt; "written")
    };
    assert_same(&rt, "the refusal", error, Error::ItemWrote);
    let bytes = serializer.into_writer();
    let right = b"hi\xff\xff\xff\xff\xff\xffhello world";
    assert_bytes(&rt, "the bytes", bytes.as_slice(), right);
}
