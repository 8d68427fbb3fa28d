//! Many archives in one buffer, and a check that is made once.

use crate::entries::{moved, step};
use crate::entry::{ArchivedEntry, Entry};
use archive_core::api::{Access, to_bytes_into};
use archive_core::error::Error;
use std::alloc::Global;
use std::test::Fail;

/// Appends the archive of an entry to a buffer, and returns its position.
fn append(alloc: Global, entry: &Entry, buffer: &mut Vec<u8>) -> Result<usize, Error> {
    to_bytes_into(alloc, entry, buffer)
}

/// How far the entry at a position moves to the right.
fn moved_at(entries: &Access<ArchivedEntry>, buffer: &[u8], pos: usize) -> Result<i32, Error> {
    Ok(moved(entries.access_pos(buffer, pos)?))
}

#[test]
fn two_archives_in_one_buffer(rt: HostRuntime) -> Result<(), Fail> {
    let mut buffer = Vec::new(rt.alloc());
    let first = append(rt.alloc(), &step(), &mut buffer)?;
    let second = append(rt.alloc(), &step(), &mut buffer)?;
    assert_eq!(rt; (first, second), (0, 24));
    let entries = Access::new(rt.alloc())?;
    for pos in [first, second] {
        assert_eq!(rt; moved_at(&entries, &buffer, pos)?, -2);
    }
    Ok(())
}
