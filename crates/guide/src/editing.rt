//! An entry is edited in place: its number, and the field of a variant.

ghost use Rattle.archive_core.specs.SealOutcomes.{IsSealOf};

use crate::entries::{archived, moved, step, viewed};
use crate::entry::{ArchivedEntry, EntrySeal, EntryView};
use crate::event::EventSeal;
use archive_core::api::access_mut;
use archive_core::error::Error;
use archive_core::seal::Seal;
use archive_core::traits::ArchivePointee;
use std::alloc::Global;
use std::test::Fail;

/// Writes other seconds over those of an entry.
pub fn write_seconds(alloc: Global, bytes: &mut [u8], seconds: u64) -> Result<(), Error> {
    let entry = access_mut::<ArchivedEntry>(alloc, bytes)?;
    entry.seconds_mut().write(seconds);
    Ok(())
}

/// Writes over how far an entry moves to the right. Whether it moves.
pub fn write_moved(alloc: Global, bytes: &mut [u8], x: i32) -> Result<bool, Error> {
    let event = access_mut::<ArchivedEntry>(alloc, bytes)?.event_mut();
    // `Move` is the fourth variant, and tags count from 0.
    if event.as_ref().tag() != 3 {
        return Ok(false);
    }
    event.move_x_mut().write(x);
    Ok(true)
}

/// Adds to the seconds of an entry.
pub fn add_seconds(entry: Seal<'_, ArchivedEntry>, more: u64)
    requires { IsSealOf ⟦<ArchivedEntry as ArchivePointee>⟧.definitions
        ⟦<ArchivedEntry as ArchivePointee>⟧.pointee entry }
{
    let seconds = entry.as_ref().seconds().get();
    entry.seconds_mut().write(seconds.saturating_add(more));
}

/// Adds to the seconds of the entry in an archive.
pub fn add_to_archive(alloc: Global, bytes: &mut [u8], more: u64) -> Result<(), Error> {
    add_seconds(access_mut::<ArchivedEntry>(alloc, bytes)?, more);
    Ok(())
}

#[test]
fn an_entry_is_edited(rt: HostRuntime) -> Result<(), Fail> {
    let mut bytes = archived(rt.alloc(), &step())?;
    write_seconds(rt.alloc(), &mut bytes, 10)?;
    add_to_archive(rt.alloc(), &mut bytes, 2)?;
    assert!(rt; write_moved(rt.alloc(), &mut bytes, 5)?);
    let view = viewed(rt.alloc(), &bytes)?;
    assert_eq!(rt; view.seconds().get(), 12);
    assert_eq!(rt; moved(view), 5);
    Ok(())
}
