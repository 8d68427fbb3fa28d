//! Numbers and texts in bytes, by the library's readers. Positions are whole numbers, and may lie
//! outside: then there is nothing.

ghost use Rattle.std.specs.Prelude.{◌+◌, ◌≤◌, length, IfSome};

use archive_check::format::bytes::{
    inline_length, is_out_of_line as is_text_elsewhere, read_coded_length, read_position, read_u32,
};

// Where so many bytes begin, if they lie in the buffer.
pub(super) fn start_of(bytes: &[u8], at: i128, size: usize) -> Option<usize>
    ensures { IfSome result (λ start. start + size ≤ length bytes.now) }
{
    let start = usize::try_from(at).ok()?;
    let end = start.checked_add(size)?;
    if end <= bytes.len() {
        Some(start)
    } else {
        None
    }
}

// So many bytes at a position.
pub(crate) fn bytes_at(bytes: &[u8], at: i128, size: i128) -> Option<&[u8]> {
    let start = usize::try_from(at).ok()?;
    let end = usize::try_from(at.saturating_add(size)).ok()?;
    bytes.get(start..end)
}

// The byte at a position.
pub(crate) fn byte_at(bytes: &[u8], at: i128) -> Option<u8> {
    let start = start_of(bytes, at, 1)?;
    Some(bytes[start])
}

// The number in the four bytes at a position.
pub(crate) fn number_at(bytes: &[u8], at: i128) -> Option<u32> {
    let start = start_of(bytes, at, 4)?;
    Some(read_u32(bytes, start))
}

// Where the pointer at a position leads.
pub(crate) fn target_at(bytes: &[u8], at: i128) -> Option<i128> {
    let start = start_of(bytes, at, 4)?;
    Some(read_position(bytes, start, start))
}

// Where the out-of-line string at a position leads, whose offset lies behind its length.
pub(crate) fn text_target_at(bytes: &[u8], at: i128) -> Option<i128> {
    let start = start_of(bytes, at, 8)?;
    Some(read_position(bytes, start, start + 4))
}

// Whether the string at a position says that its text lies elsewhere.
pub(crate) fn is_out_of_line(bytes: &[u8], at: i128) -> Option<bool> {
    let start = start_of(bytes, at, 8)?;
    Some(is_text_elsewhere(bytes, start))
}

// The text in the eight bytes of the string at a position.
pub(crate) fn inline_text(bytes: &[u8], at: i128) -> Option<&[u8]> {
    let start = start_of(bytes, at, 8)?;
    bytes.get(start..start + inline_length(bytes, start))
}

// The length that the out-of-line string at a position codes.
pub(crate) fn coded_length(bytes: &[u8], at: i128) -> Option<usize> {
    let start = start_of(bytes, at, 8)?;
    Some(read_coded_length(bytes, start))
}
