//! What is printed of bytes that are no archive: the refusal, the way to the fault, and the bytes
//! around it.

use archive_inspect::explain::Explanation;
use std::io;

// How many bytes are printed.
const AROUND: usize = 16;

// The position of the first byte that is printed: the faulty ones come after some others.
fn first_around(len: usize, faulty: usize) -> usize {
    let latest = len.saturating_sub(AROUND);
    faulty.saturating_sub(AROUND / 2).min(latest)
}

// The bytes around a position, and below them marks under those that are faulty.
fn print_around<W: io::Write>(
    out: &mut W,
    bytes: &[u8],
    faulty: usize,
    count: usize,
) -> io::Result<()> {
    let start = first_around(bytes.len(), faulty);
    let end = start.saturating_add(AROUND).min(bytes.len());
    let around = bytes.get(start..end).unwrap_or(&[]);
    if around.is_empty() {
        return Ok(());
    }
    write!(out, "{start:>8} ")?;
    for byte in around {
        write!(out, " {byte:02x}")?;
    }
    write!(out, "\n         ")?;
    for index in start..faulty.saturating_add(count).min(end) {
        out.write_all(if index < faulty { b"   " } else { b" ^^" })?;
    }
    writeln!(out)
}

/// Prints why bytes are no archive, and those around the fault.
pub fn print_refused<W: io::Write>(
    out: &mut W,
    bytes: &[u8],
    explanation: &Explanation,
) -> io::Result<()> {
    let refusal = explanation.refusal;
    let number = refusal.number();
    let name = refusal.name();
    writeln!(out, "refused: {number} {name}")?;
    writeln!(out, "{explanation}")?;
    let Some(place) = &explanation.place else {
        return Ok(());
    };
    let faulty = usize::try_from(place.fault.faulty).unwrap_or(usize::MAX);
    let count = usize::try_from(place.fault.count).unwrap_or(0);
    print_around(out, bytes, faulty.min(bytes.len()), count)
}
