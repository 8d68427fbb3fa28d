//! What is printed of bytes, and the status that says how it went.

use crate::json::json_of;
use crate::map::print_map;
use crate::options::{Options, Shown};
use crate::refused::print_refused;
use crate::summary::{print_summary, summary_of};
use crate::tree::print_tree;
use archive_inspect::explain::explain_with;
use archive_inspect::form::Form;
use std::alloc::Global;
use std::io;

// How deep JSON goes at most, since it is written by calls that nest.
const JSON_LEVELS: usize = 128;

// Prints what is asked for of an archive.
fn print_accepted<W: io::Write + Drop>(
    alloc: Global,
    out: &mut W,
    options: &Options<'_>,
    form: &Form,
    bytes: &[u8],
) -> io::Result<()> {
    let most = (options.depth, options.elements);
    match options.shown {
        Shown::Tree => {
            let _ = print_tree(alloc, out, form, bytes, most)?;
        }
        Shown::Json => {
            let most = (options.depth.min(JSON_LEVELS), options.elements);
            if let Some(value) = json_of(alloc, form, bytes, most)? {
                let text = value.to_string_pretty(alloc)?;
                out.write_all(text.as_bytes())?;
                writeln!(out)?;
            }
        }
        Shown::Map => {
            let _ = print_map(alloc, out, form, bytes)?;
        }
        Shown::Summary => {
            if let Some(summary) = summary_of(alloc, form, bytes)? {
                print_summary(out, &summary)?;
            }
        }
    }
    Ok(())
}

/// Prints what the options select of an archive, and returns 0; or why the bytes are none, and returns 1.
pub fn report<W: io::Write + Drop>(
    alloc: Global,
    out: &mut W,
    options: &Options<'_>,
    form: &Form,
    bytes: &[u8],
) -> io::Result<u8> {
    match explain_with(alloc, form, bytes)? {
        Some(explanation) => {
            print_refused(out, bytes, &explanation)?;
            Ok(1)
        }
        None => {
            print_accepted(alloc, out, options, form, bytes)?;
            Ok(0)
        }
    }
}
