//! An entry is written, viewed in place and read back.

use crate::entry::{ArchivedEntry, Entry, EntryView};
use crate::event::{Event, EventView, ViewOfEvent};
use archive_core::api::{access, from_bytes, to_bytes};
use archive_core::error::Error;
use archive_core::view::Ref;
use std::alloc::Global;
use std::test::Fail;

/// The archive of an entry.
pub fn archived(alloc: Global, entry: &Entry) -> Result<Vec<u8>, Error> {
    to_bytes(alloc, entry)
}

/// The view of the entry in an archive.
pub fn viewed(alloc: Global, bytes: &[u8]) -> Result<Ref<'_, ArchivedEntry>, Error> {
    access(alloc, bytes)
}

/// The entry of an archive.
pub fn read(alloc: Global, bytes: &[u8]) -> Result<Entry, Error> {
    from_bytes(alloc, bytes, &mut ())
}

/// How far an entry moves to the right.
pub fn moved(entry: Ref<'_, ArchivedEntry>) -> i32 {
    match entry.event().variant() {
        ViewOfEvent::Move { x, .. } => x.get(),
        _ => 0,
    }
}

/// A step after nine seconds.
pub fn step() -> Entry {
    Entry {
        seconds: 9,
        event: Event::Move { x: -2, y: 258 },
    }
}

#[test]
fn an_entry_goes_there_and_back(rt: HostRuntime) -> Result<(), Fail> {
    let bytes = archived(rt.alloc(), &step())?;
    assert_eq!(rt; bytes.len(), 24);
    let view = viewed(rt.alloc(), &bytes)?;
    assert_eq!(rt; view.seconds().get(), 9);
    assert_eq!(rt; moved(view), -2);
    assert_eq!(rt; read(rt.alloc(), &bytes)?, step());
    Ok(())
}
