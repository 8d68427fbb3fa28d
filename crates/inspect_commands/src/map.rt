//! What lies where, a line for each range.

use archive_inspect::form::Form;
use archive_inspect::route::route_of;
use archive_inspect::walk::faults::Stop;
use archive_inspect::walk::{Count, Region, Visited, Walker, What};
use std::alloc::Global;
use std::io;

// How many records, variants, lists and regions a way tells of: the last ones.
const STEPS: usize = 64;

// What a pointer leads to.
fn print_region<W: io::Write>(out: &mut W, region: Region) -> io::Result<()> {
    let position = region.position;
    match region.count {
        Count::Root | Count::One => write!(out, "pointer to {position}"),
        Count::Elements(1) => write!(out, "pointer to 1 element at {position}"),
        Count::Elements(count) => write!(out, "pointer to {count} elements at {position}"),
        Count::Text(count) => write!(out, "pointer to {count} bytes at {position}"),
    }
}

// What bytes are.
fn print_content<W: io::Write>(out: &mut W, content: What<'_>) -> io::Result<()> {
    match content {
        What::Leaf(leaf) => write!(out, "{leaf}"),
        What::Text(text) => write!(out, "{text:?}"),
        What::Variant(tag, name, _) => write!(out, "tag {tag} {name}"),
        What::Pointer(region) => print_region(out, region),
        What::Again(region) => {
            let position = region.position;
            write!(out, "shared pointer to {position}")
        }
        What::Null => out.write_all(b"null"),
        What::Record(_) | What::Array(_) => Ok(()),
    }
}

// Begins the line of a range.
fn print_range<W: io::Write>(out: &mut W, start: i128, end: i128) -> io::Result<()> {
    write!(out, "{start:>8}..{end:<8}  ")
}

// The line of bytes that are no part of the archive, if there are some.
fn print_unused<W: io::Write>(out: &mut W, start: i128, end: i128) -> io::Result<()> {
    if start < end {
        print_range(out, start, end)?;
        out.write_all(b"unused\n")?;
    }
    Ok(())
}

// The line of what was found, and the position behind it.
fn print_part<W: io::Write>(
    alloc: Global,
    out: &mut W,
    walk: &Walker<'_>,
    found: Visited<'_>,
) -> io::Result<i128> {
    let end = found.position.saturating_add(found.size);
    let way = route_of(alloc, walk.holders(found), STEPS)?;
    print_range(out, found.position, end)?;
    print_content(out, found.what)?;
    writeln!(out, "  {way}")?;
    Ok(end)
}

/// Prints a line for each range of an archive, in order of position: where it begins and ends, what
/// it is, and the way there. Whether the bytes are an archive of the form: else the lines end at the
/// fault.
pub fn print_map<W: io::Write>(
    alloc: Global,
    out: &mut W,
    form: &Form,
    bytes: &[u8],
) -> io::Result<bool> {
    let mut walk = Walker::by_position(alloc, form, bytes);
    let mut end = 0;
    for _ in 0..u64::MAX {
        match walk.next_part() {
            Ok(Some(found)) => {
                print_unused(out, end, found.position)?;
                end = print_part(alloc, out, &walk, found)?;
            }
            Ok(None) => break,
            Err(Stop::OutOfMemory) => return Err(io::Error::from(io::ErrorKind::OutOfMemory)),
            Err(Stop::Fault(_)) => return Ok(false),
        }
    }
    print_unused(out, end, bytes.len() as i128)?;
    Ok(true)
}
