// Shared and weak pointers, written by parts.

use crate::assertions::{assert_bytes, assert_refusal, assert_same};
use archive_check::format::error::Error;
use archive_types::place::Place;
use archive_types::rc::{ArchivedRc, ArchivedRcWeak, RcFlavor, RcResolver, RcWeakResolver};
use archive_types::ser::{Serializer, Writer};
use archive_types::sharing::{Share, Sharing};
use archive_types::string::{ArchivedStr, Text};
use std::alloc::Global;
use std::process::Abort;

type SharedText = ArchivedRc<ArchivedStr, RcFlavor>;

type WeakText = ArchivedRcWeak<ArchivedStr, RcFlavor>;

pub(crate) fn serializer(alloc: Global) -> Serializer<Vec<u8>, Global, Share> {
    Serializer::new(Vec::new(alloc), alloc, Share::new(alloc))
}

// What a shared text is resolved with, once it is written.
fn write_text<S: Sharing + Writer>(
    rt: &impl Abort,
    serializer: &mut S,
    key: u64,
    text: &Text<'_>,
) -> RcResolver {
    let Ok(resolver) = SharedText::serialize_from_ref(key, text, serializer) else {
        panic!(rt; "refused")
    };
    resolver
}

// And a weak one to it, or to none.
fn write_weak<S: Sharing + Writer>(
    rt: &impl Abort,
    serializer: &mut S,
    key: u64,
    text: Option<&Text<'_>>,
) -> RcWeakResolver {
    let Ok(resolver) = WeakText::serialize_from_ref(key, text, serializer) else {
        panic!(rt; "refused")
    };
    resolver
}

fn write<W: Writer>(rt: &impl Abort, writer: &mut W, bytes: &[u8]) {
    writer.write(bytes).expect(rt, "memory");
}

// The pointer to the text "hello" that is written, as it stands at a position. The text stands in here, since a call is asked that it isn't too long.
fn pointer(rt: &impl Abort, at: usize, resolver: RcResolver) -> [u8; 8] {
    let mut bytes = [0; 8];
    let hello = Text { text: "hello" };
    SharedText::resolve_from_ref(&hello, resolver, Place::new(at, &mut bytes)).expect(rt, "offset");
    bytes
}

// And the weak one, over bytes that aren't 0.
fn weak_pointer(rt: &impl Abort, at: usize, resolver: RcWeakResolver) -> [u8; 8] {
    let mut bytes = [0xff; 8];
    let hello = Text { text: "hello" };
    WeakText::resolve_from_ref(Some(&hello), resolver, Place::new(at, &mut bytes)).expect(
        rt, "offset",
    );
    bytes
}

#[test]
fn two_pointers_lead_to_one_text(rt: HostRuntime) {
    let hello = Text { text: "hello" };
    let mut serializer = serializer(rt.alloc());
    let shared = write_text(&rt, &mut serializer, 7, &hello);
    let weak = write_weak(&rt, &mut serializer, 7, Some(&hello));
    write(&rt, &mut serializer, &[0; 3]);
    write(&rt, &mut serializer, &pointer(&rt, 8, shared));
    write(&rt, &mut serializer, &weak_pointer(&rt, 16, weak));
    let bytes = serializer.into_writer();
    let right = b"hello\0\0\0\xf8\xff\xff\xff\x05\0\0\0\xf0\xff\xff\xff\x05\0\0\0";
    assert_bytes(&rt, "the bytes", bytes.as_slice(), right);
}

#[test]
fn a_zero_stands_behind_an_empty_text(rt: HostRuntime) {
    let empty = Text { text: "" };
    let mut serializer = serializer(rt.alloc());
    for key in [1, 2] {
        let _resolver = write_text(&rt, &mut serializer, key, &empty);
    }
    let bytes = serializer.into_writer();
    assert_bytes(&rt, "the bytes", bytes.as_slice(), b"\0\0");
}

// A text whose key is pending is refused.
fn assert_pending<S: Sharing + Writer>(
    rt: &impl Abort,
    serializer: &mut S,
    key: u64,
    text: &Text<'_>,
) {
    serializer.start_sharing(key).expect(rt, "memory");
    let Err(error) = SharedText::serialize_from_ref(key, text, serializer) else {
        panic!(rt; "not refused")
    };
    assert_same(rt, "the refusal", error, Error::CyclicSerialize);
}

#[test]
fn a_pending_key_is_refused(rt: HostRuntime) {
    let hello = Text { text: "hello" };
    let mut serializer = serializer(rt.alloc());
    assert_pending(&rt, &mut serializer, 7, &hello);
    assert_same(&rt, "no bytes", serializer.into_writer().len(), 0);
}

#[test]
fn a_weak_pointer_is_null(rt: HostRuntime) {
    let nothing: Option<&Text<'_>> = None;
    let mut serializer = serializer(rt.alloc());
    let resolver = write_weak(&rt, &mut serializer, 7, nothing);
    assert_same(&rt, "no bytes", serializer.into_writer().len(), 0);
    let mut bytes = [0xff; 8];
    let place = Place::new(0, &mut bytes);
    WeakText::resolve_from_ref(nothing, resolver, place).expect(&rt, "a null");
    assert_same(&rt, "the bytes", bytes, [1, 0, 0, 0, 0, 0, 0, 0]);
}

#[test]
fn a_weak_pointer_to_the_next_byte_is_refused(rt: HostRuntime) {
    let hello = Text { text: "hello" };
    let mut bytes = [0; 8];
    let next = Some(RcResolver::from_pos(9));
    let place = Place::new(8, &mut bytes);
    let resolved = WeakText::resolve_from_ref(Some(&hello), next, place);
    assert_refusal(&rt, "the refusal", resolved, Error::OffsetOverflow);
}
