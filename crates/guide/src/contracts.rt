//! Functions whose contracts cite the library's words, as in the guide's step 10.

ghost use Rattle.std.specs.Prelude.{pos};
ghost use Rattle.archive_core.specs.Fields.{field_in};
ghost use Rattle.archive_core.specs.Seen.{ShowsValue, ShowsValueOf};
ghost use Rattle.archive_core.specs.Value.{number};
ghost use Rattle.archive_core.specs.WholeArchives.{MakesArchive};

use crate::entries::{step, viewed};
use crate::entry::{ArchivedEntry, Entry, EntryView};
use archive_core::api::to_bytes;
use archive_core::error::Error;
use archive_core::primitive::{ArchivedU64, Native};
use archive_core::traits::{Archive, Portable};
use archive_core::view::Ref;
use std::alloc::Global;
use std::test::Fail;

/// The archive of an entry.
pub fn archived(alloc: Global, entry: &Entry) -> Result<Vec<u8>, Error>
    ensures { MakesArchive ⟦<Entry as Archive>⟧ ⟦<ArchivedEntry as Portable>⟧ entry.now
        (λ bytes. bytes.items) result }
{
    to_bytes(alloc, entry)
}

/// The view of an entry's seconds: field 0 of the value that the view shows.
pub fn seconds_in(entry: Ref<'_, ArchivedEntry>) -> Ref<'_, ArchivedU64>
    ensures { ShowsValueOf result entry.entry (field_in 0) }
{
    entry.seconds()
}

/// The seconds that a view shows.
pub fn number_in(seconds: Ref<'_, ArchivedU64>) -> u64
    ensures { ShowsValue seconds.entry (number (pos result)) }
{
    seconds.get()
}

#[test]
fn seconds_are_shown(rt: HostRuntime) -> Result<(), Fail> {
    let bytes = archived(rt.alloc(), &step())?;
    let entry = viewed(rt.alloc(), &bytes)?;
    assert_eq!(rt; number_in(seconds_in(entry)), 9);

    Ok(())
}
