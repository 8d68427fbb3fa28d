//! What is wrong with damaged bytes, and where.

use crate::entries::{archived, step, viewed};
use crate::entry::{ArchivedEntry, SCHEMA};
use archive_core::api::{Access, explain, explain_by};
use archive_core::error::Error;
use archive_core::inspect::explain::Explanation;
use std::alloc::Global;
use std::test::Fail;

/// Why there is no entry in these bytes, if there is none.
fn fault(alloc: Global, bytes: &[u8]) -> Option<Error> {
    viewed(alloc, bytes).err()
}

#[test]
fn damaged_bytes_are_rejected(rt: HostRuntime) -> Result<(), Fail> {
    let mut bytes = archived(rt.alloc(), &step())?;

    // The last byte is missing: 24 bytes don't fit in 23.
    let outside = Error::InvalidSubtreePointer {
        position: 0,
        size: 24,
        start: 0,
        end: 23,
    };
    let cut = bytes.get(..23).unwrap_or(&[]);
    assert_eq!(rt; fault(rt.alloc(), cut), Some(outside));

    // The tag of the event is 9, and its type has five variants.
    if let Some(tag) = bytes.get_mut(8) {
        *tag = 9;
    }
    let unknown = Error::InvalidDiscriminant {
        name: "ArchivedEvent",
        value: 9,
    };
    assert_eq!(rt; fault(rt.alloc(), &bytes), Some(unknown));
    println!(rt; "{unknown}")?;
    Ok(())
}

/// The line that tells a fault and where it is.
fn line(alloc: Global, explanation: Option<Explanation>) -> Result<String, Error> {
    match explanation {
        Some(explanation) => Ok(format!(in alloc; "{explanation}")?),
        None => Ok(String::new(alloc)),
    }
}

#[test]
fn the_place_is_told(rt: HostRuntime) -> Result<(), Fail> {
    let alloc = rt.alloc();
    let mut bytes = archived(alloc, &step())?;
    let entries: Access<ArchivedEntry> = Access::new(alloc)?;
    assert!(rt; entries.explain(&bytes)?.is_none());

    // The tag of the event is 9.
    if let Some(tag) = bytes.get_mut(8) {
        *tag = 9;
    }
    let named = line(alloc, explain_by::<ArchivedEntry>(alloc, SCHEMA, &bytes)?)?;
    let told = "at .event, byte 8: the tag is 9, and Event has 5 variants";
    assert_eq!(rt; named.as_str(), told);

    // Without the text there are numbers for names.
    let numbered = "at .1, byte 8: the tag is 9, and ArchivedEvent has 5 variants";
    let fresh = line(alloc, explain::<ArchivedEntry>(alloc, &bytes)?)?;
    assert_eq!(rt; fresh.as_str(), numbered);
    let kept = line(alloc, entries.explain(&bytes)?)?;
    assert_eq!(rt; kept.as_str(), numbered);
    Ok(())
}
