// Vectors, buffers, what borrows them, and serializers.

ghost use Rattle.std.specs.Prelude.{◌<◌, ◌≤◌, ◌-◌, length, IsOk};
ghost use Rattle.archive_write.specs.Written.{padding};

use crate::assertions::{assert_refusal, assert_same};
use crate::write::write_string;
use archive_check::format::error::Error;
use archive_write::ser::{Buffer, Positional, ResolverAlloc, Serializer, Writer, WriterExt};
use std::process::Abort;

// A writer's bytes.
fn assert_bytes(rt: &impl Abort, what: &str, found: &[u8], wanted: &[u8]) {
    assert_same(rt, what, found, wanted);
}

// Aligns a writer, and answers where it then is.
fn aligned<W: Writer>(rt: &impl Abort, writer: &mut W, align: usize) -> usize
    requires low { 0 < align }
    requires high { align ≤ 32 }
{
    writer.align(align).expect(rt, "room for padding")
}

// Writes five bytes, the zeros up to a multiple of four and of eight, no bytes, and three zeros.
fn write_and_pad<W: Writer>(rt: &impl Abort, writer: &mut W) {
    writer.write(b"hello").expect(rt, "room for bytes");
    assert_same(rt, "the position", writer.pos(), 5);
    let positions = (aligned(rt, writer, 4), aligned(rt, writer, 8));
    assert_same(rt, "aligned to 4 and to 8", positions, (8, 8));
    writer.write(b"").expect(rt, "room for no bytes");
    writer.pad(3).expect(rt, "room for padding");
}

#[test]
fn a_vector_takes_bytes_and_padding(rt: HostRuntime) {
    let mut bytes = Vec::new(rt.alloc());
    write_and_pad(&rt, &mut bytes);
    assert_bytes(&rt, "the bytes", &bytes, b"hello\0\0\0\0\0\0");
}

fn position_of<P: Positional>(of: &P) -> usize {
    of.pos()
}

#[test]
fn what_is_borrowed_is_as_its_owner(rt: HostRuntime) {
    let mut bytes = Vec::new(rt.alloc());
    let written = write_string(&mut &mut bytes).expect(&rt, "room");
    assert_same(&rt, "the string", written, 12);
    let positions = (bytes.pos(), position_of(&&bytes), position_of(&&mut bytes));
    assert_same(
        &rt,
        "its own, lent to be read, and to be written",
        positions,
        (20, 20, 20),
    );
}

// Writes two bytes, and the zeros up to a multiple of four.
fn write_few<W: Writer>(rt: &impl Abort, writer: &mut W) {
    writer.write(b"hi").expect(rt, "room for bytes");
    let positions = (aligned(rt, writer, 4), writer.pos());
    assert_same(rt, "aligned, and the position", positions, (4, 4));
}

#[test]
fn a_serializer_passes_on_to_its_writer(rt: HostRuntime) {
    let mut serializer = Serializer::new(Vec::new(rt.alloc()), rt.alloc(), ());
    write_few(&rt, &mut serializer);
    let _ = serializer.resolver_alloc();
    let (writer, allocator, sharing) = serializer.into_raw_parts();
    let bytes = Serializer::new(writer, allocator, sharing).into_writer();
    assert_bytes(&rt, "the bytes", &bytes, b"hi\0\0");
}

// Over a buffer that has room for them, zeros are written. The contracts alone show it: a buffer asks for no memory, and its device never fails.
fn align_within(buffer: &mut Buffer<'_>, align: usize) -> Result<usize, Error>
    requires low { 0 < align }
    requires high { align ≤ 32 }
    requires fits { padding align buffer.old.len ≤ length buffer.old.bytes.now - buffer.old.len }
    ensures { IsOk result }
{
    buffer.align(align)
}

// A buffer of four bytes, of which `len` are taken, has no room for these.
fn assert_full(rt: &impl Abort, buffer: &mut Buffer<'_>, bytes: &[u8], len: usize) {
    let refusal = Error::BufferOverflow {
        write_len: bytes.len(),
        cap: 4,
        len,
    };
    let found = buffer.write(bytes);
    assert_refusal(rt, "more than fit", found, refusal);
}

// A buffer takes bytes.
fn assert_taken(rt: &impl Abort, buffer: &mut Buffer<'_>, bytes: &[u8]) {
    buffer.write(bytes).expect(rt, "room for bytes");
}

#[test]
fn a_buffer_takes_what_fits(rt: HostRuntime) {
    let mut bytes = [0xcc; 4];
    let mut buffer = Buffer::from(&mut bytes);
    let aligned = align_within(&mut buffer, 4).expect(&rt, "room");
    assert_same(&rt, "aligned", aligned, 0);
    assert_taken(&rt, &mut buffer, b"");
    assert_bytes(&rt, "no bytes", buffer.as_slice(), b"");
    assert_full(&rt, &mut buffer, b"12345", 0);
    assert_same(&rt, "the position", buffer.pos(), 0);
    assert_taken(&rt, &mut buffer, b"1234");
    assert_taken(&rt, &mut buffer, b"");
    assert_full(&rt, &mut buffer, b"5", 4);
    assert_bytes(&rt, "the bytes", buffer.as_slice(), b"1234");
}

// Two bytes are written at once, and then five aren't.
fn assert_two_fit<W: Writer>(rt: &impl Abort, writer: &mut W) {
    let few = writer.write_at_once(b"12");
    let answers = (few, writer.write_at_once(b"34567"));
    assert_same(rt, "two bytes, and five", answers, (true, false));
}

#[test]
fn what_fits_is_written_at_once(rt: HostRuntime) {
    let bytes = Vec::with_capacity(rt.alloc(), 4);
    let mut bytes = bytes.expect(&rt, "memory");
    assert_two_fit(&rt, &mut bytes);
    assert_bytes(&rt, "a vector's bytes", &bytes, b"12");
    assert_two_fit(&rt, &mut Serializer::new(&mut bytes, rt.alloc(), ()));
    assert_bytes(&rt, "by a serializer", &bytes, b"1212");
}

#[test]
fn what_fits_a_buffer_is_written_at_once(rt: HostRuntime) {
    let mut array = [0xcc; 4];
    let mut buffer = Buffer::from(&mut array);
    assert_two_fit(&rt, &mut buffer);
    assert_bytes(&rt, "a buffer's bytes", buffer.as_slice(), b"12");
}
