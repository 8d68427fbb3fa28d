//! Numbers and sizes of an archive.

use archive_check::format::expr::Expr;
use archive_inspect::form::Form;
use archive_inspect::walk::faults::Stop;
use archive_inspect::walk::{Event, Visited, Walker, What};
use std::alloc::{AllocError, Global};
use std::io;

/// How much of each kind an archive has.
#[derive(Clone, Copy)]
pub struct Summary {
    /// How many bytes the file has.
    pub bytes: i128,
    /// How many regions there are, the root's among them.
    pub regions: usize,
    /// How deep they lie in one another.
    pub depth: usize,
    /// How many shared values there are.
    pub shared: usize,
    /// How many pointers lead to those again.
    pub again: usize,
    /// The bytes of leaves.
    pub leaves: i128,
    /// The bytes of tags.
    pub tags: i128,
    /// The bytes of texts, also those in strings.
    pub texts: i128,
    /// The bytes of pointers.
    pub pointers: i128,
}

impl Summary {
    /// The bytes that are no part of the archive.
    pub fn unused(&self) -> i128 {
        self.bytes
            .saturating_sub(self.leaves)
            .saturating_sub(self.tags)
            .saturating_sub(self.texts)
            .saturating_sub(self.pointers)
    }

    // What was found counts.
    fn add(&mut self, found: Visited<'_>) {
        match found.what {
            What::Leaf(_) => self.leaves = self.leaves.saturating_add(found.size),
            What::Text(_) => self.texts = self.texts.saturating_add(found.size),
            What::Variant(_, _, _) => self.tags = self.tags.saturating_add(found.size),
            What::Pointer(_) | What::Again(_) | What::Null => {
                self.pointers = self.pointers.saturating_add(found.size)
            }
            What::Record(_) | What::Array(_) => {}
        }
        self.add_region(found);
    }

    // A region that it leads to counts.
    fn add_region(&mut self, found: Visited<'_>) {
        match found.what {
            What::Pointer(_) => {
                self.regions = self.regions.saturating_add(1);
                match found.expr {
                    Expr::Shared(_, _) | Expr::Weak(_, _) => {
                        self.shared = self.shared.saturating_add(1)
                    }
                    _ => {}
                }
            }
            What::Again(_) => self.again = self.again.saturating_add(1),
            _ => {}
        }
    }
}

/// The numbers of an archive: none if the bytes are none.
pub fn summary_of(alloc: Global, form: &Form, bytes: &[u8]) -> Result<Option<Summary>, AllocError> {
    let mut summary = Summary {
        bytes: bytes.len() as i128,
        regions: 1,
        depth: 1,
        shared: 0,
        again: 0,
        leaves: 0,
        tags: 0,
        texts: 0,
        pointers: 0,
    };
    let mut walk = Walker::new(alloc, form, bytes);
    for _ in 0..u64::MAX {
        match walk.step() {
            Ok(Some(Event::Found(found))) => {
                summary.add(found);
                summary.depth = summary.depth.max(walk.depth());
            }
            Ok(Some(Event::Ended)) => {}
            Ok(None) => break,
            Err(Stop::OutOfMemory) => return Err(AllocError),
            Err(Stop::Fault(_)) => return Ok(None),
        }
    }
    Ok(Some(summary))
}

/// Prints the numbers, a line each.
pub fn print_summary<W: io::Write>(out: &mut W, summary: &Summary) -> io::Result<()> {
    let Summary {
        bytes,
        regions,
        depth,
        shared,
        again,
        leaves,
        tags,
        texts,
        pointers,
    } = *summary;
    let unused = summary.unused();
    writeln!(out, "bytes:    {bytes}")?;
    writeln!(out, "regions:  {regions}, nested at most {depth} deep")?;
    writeln!(out, "shared:   {shared}, pointed to {again} more times")?;
    writeln!(out, "numbers:  {leaves} bytes")?;
    writeln!(out, "tags:     {tags} bytes")?;
    writeln!(out, "texts:    {texts} bytes")?;
    writeln!(out, "pointers: {pointers} bytes")?;
    writeln!(out, "unused:   {unused} bytes")
}
