// Archives, and what takes them.

ghost use Rattle.std.specs.Prelude.{◌≡◌, [], IfOk, IfErr, ℕ, string_bytes};
ghost use Rattle.archive_core.specs.Error.TheVariants.{OutOfMemory};
ghost use Rattle.archive_core.specs.Written.{IsBeginning};
ghost use Rattle.tests_whole.specs.Wholes.{ArchivesText, ArchivesTextAt};

use crate::archive::HELLO_WORLD;
use crate::assertions::{assert_bytes, assert_refusal, assert_same, text};
use archive_core::api::{
    serialize_using, to_bytes, to_bytes_in, to_bytes_in_with_alloc, to_bytes_into,
    to_bytes_with_alloc,
};
use archive_core::error::Error;
use archive_core::ser::{Buffer, Serializer, Writer};
use std::alloc::Global;
use std::process::Abort;

// What the law says of a string: its archive, from the contract of `to_bytes` alone.
fn archive_of(alloc: Global, text: &String) -> Result<Vec<u8>, Error>
    ensures { IfOk result (λ bytes. ArchivesText (string_bytes text.now) bytes.items) }
{
    to_bytes(alloc, text)
}

// What it says of a number's refusals: none comes but for want of memory.
fn archive_of_number(alloc: Global, number: u32) -> Result<Vec<u8>, Error>
    ensures { IfErr result (λ e. e ≡ OutOfMemory) }
{
    to_bytes(alloc, &number)
}

#[test]
fn a_text_and_a_number_are_archives(rt: HostRuntime) {
    let value = text(&rt, rt.alloc(), "hello world");
    let bytes = archive_of(rt.alloc(), &value).expect(&rt, "an archive");
    assert_bytes(&rt, "a text", bytes.as_slice(), HELLO_WORLD);
    let bytes = archive_of_number(rt.alloc(), 42).expect(&rt, "an archive");
    assert_bytes(&rt, "a number", bytes.as_slice(), b"\x2a\0\0\0");
    let bytes = to_bytes_with_alloc(rt.alloc(), &42u32, rt.alloc());
    let bytes = bytes.expect(&rt, "an archive");
    assert_bytes(&rt, "by another allocator", bytes.as_slice(), b"\x2a\0\0\0");
}

// What a lent writer holds afterwards: what it held before, and more; and where the call isn't refused, a text's archive behind that.
fn append_text(alloc: Global, text: &String, bytes: &mut Vec<u8>) -> Result<usize, Error>
    ensures appended { IfOk result (λ root. ArchivesTextAt (string_bytes text.now) bytes.old.items
        bytes.new.items root) }
    ensures kept { IsBeginning bytes.old.items bytes.new.items }
{
    to_bytes_into(alloc, text, bytes)
}

// Three bytes that a writer holds already.
fn three_bytes(rt: &impl Abort, alloc: Global) -> Vec<u8> {
    let bytes = vec![in alloc; 0xaa, 0xbb, 0xcc];
    bytes.expect(rt, "memory for three bytes")
}

// The archive of "hello world" behind them.
const BEHIND_THREE: &[u8] = b"\xaa\xbb\xcchello world\0\0\x8b\0\0\0\xf3\xff\xff\xff";

#[test]
fn an_archive_is_appended_to_a_lent_writer(rt: HostRuntime) {
    let value = text(&rt, rt.alloc(), "hello world");
    let mut bytes = three_bytes(&rt, rt.alloc());
    let root = append_text(rt.alloc(), &value, &mut bytes).expect(&rt, "an archive");
    assert_same(&rt, "the root", root, 16);
    assert_bytes(&rt, "the bytes", bytes.as_slice(), BEHIND_THREE);
    let refused = to_bytes_into(rt.alloc(), &4_294_967_296usize, &mut bytes);
    assert_refusal(&rt, "a number", refused, Error::NumberTooLarge);
    assert_same(&rt, "the length then", bytes.len(), 24);
}

#[test]
fn an_archive_follows_what_the_writer_holds(rt: HostRuntime) {
    let value = text(&rt, rt.alloc(), "hello world");
    let held = three_bytes(&rt, rt.alloc());
    let bytes = to_bytes_in(rt.alloc(), &value, held).expect(&rt, "an archive");
    assert_bytes(&rt, "the bytes", bytes.as_slice(), BEHIND_THREE);
    let held = three_bytes(&rt, rt.alloc());
    let bytes = to_bytes_in_with_alloc(rt.alloc(), &value, held, rt.alloc());
    let bytes = bytes.expect(&rt, "an archive");
    assert_bytes(&rt, "by another allocator", bytes.as_slice(), BEHIND_THREE);
}

// An archive of the value, in a borrowed writer.
fn write_to<W: Writer>(alloc: Global, value: &String, writer: &mut W) -> Result<(), Error> {
    to_bytes_in(alloc, value, writer)?;
    Ok(())
}

#[test]
fn a_buffer_keeps_what_was_written_before_a_refusal(rt: HostRuntime) {
    let value = text(&rt, rt.alloc(), "hello world");
    let mut bytes = [0xcc; 16];
    let mut buffer = Buffer::from(&mut bytes);
    let refusal = Error::BufferOverflow {
        write_len: 8,
        cap: 16,
        len: 12,
    };
    let written = write_to(rt.alloc(), &value, &mut buffer);
    assert_refusal(&rt, "no room", written, refusal);
    assert_bytes(&rt, "the text", buffer.as_slice(), b"hello world\0");
    let right = b"hello world\0\xcc\xcc\xcc\xcc";
    assert_bytes(&rt, "the buffer", &bytes, right);
}

#[test]
fn a_value_is_written_by_a_serializer(rt: HostRuntime) {
    let mut serializer = Serializer::new(three_bytes(&rt, rt.alloc()), rt.alloc(), ());
    let region = serialize_using(&7u16, &mut serializer).expect(&rt, "a number");
    assert_same(&rt, "the region", region, 4);
    let bytes = serializer.into_writer();
    let right = b"\xaa\xbb\xcc\0\x07\0";
    assert_bytes(&rt, "the bytes", bytes.as_slice(), right);
}
