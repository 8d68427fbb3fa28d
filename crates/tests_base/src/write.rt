// Bytes that are written, keys that are shared, and what is refused.

mod memory;
mod sharing;
mod writers;

use archive_check::format::error::Error;
use archive_write::ser::{Writer, WriterExt};

// A text and the zeros up to a multiple of four; answers where these end.
fn write_text<W: Writer>(writer: &mut W) -> Result<usize, Error> {
    writer.write(b"hello world")?;
    writer.align(4)
}

// Such a text, and the eight bytes that point at it; answers where these stand.
fn write_string<W: Writer>(writer: &mut W) -> Result<usize, Error> {
    let pos = write_text(writer)?;
    match writer.write(b"\x8b\0\0\0\xf4\xff\xff\xff") {
        Ok(()) => Ok(pos),
        Err(error) => Err(error),
    }
}
