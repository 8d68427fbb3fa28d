//! Two tracks share a line: it is written once for its key, and read back once for its position.

use crate::spot::{Line, LineView, Spot, SpotView};
use crate::track::{ArchivedTrack, Track, TrackView};
use archive_core::api::{access, from_bytes, to_bytes};
use archive_core::error::Error;
use archive_core::pooling::Pool;
use archive_core::rc::Shared;
use archive_core::vec::ArchivedVec;
use archive_core::view::Ref;
use std::alloc::{AllocError, Global};
use std::rc::Rc;
use std::test::Fail;

/// A line under the key 1.
fn line(alloc: Global) -> Result<Shared<Line>, AllocError> {
    let from = Spot { right: 1, up: -2 };
    let to = Spot { right: 3, up: 4 };
    let value = Rc::new(alloc, Line { from, to })?;
    Ok(Shared { key: 1, value })
}

/// Two tracks along it.
fn tracks(alloc: Global) -> Result<Vec<Track>, AllocError> {
    let line = line(alloc)?;
    let same = line.clone()?;
    let first = Track { line, other: None };
    let second = Track {
        line: same,
        other: None,
    };
    Ok(vec![in alloc; first, second]?)
}

/// The archive of tracks.
fn archived(alloc: Global, tracks: &Vec<Track>) -> Result<Vec<u8>, Error> {
    to_bytes(alloc, tracks)
}

/// The view of the tracks in an archive.
fn viewed(alloc: Global, bytes: &[u8]) -> Result<Ref<'_, ArchivedVec<ArchivedTrack>>, Error> {
    access(alloc, bytes)
}

/// The tracks of an archive. A pool has the lines that were read back, by their positions.
fn read(alloc: Global, bytes: &[u8]) -> Result<Vec<Track>, Error> {
    let mut pool: Pool<Shared<Line>> = Pool::new(alloc);
    from_bytes(alloc, bytes, &mut pool)
}

#[test]
fn two_tracks_share_a_line(rt: HostRuntime) -> Result<(), Fail> {
    let bytes = archived(rt.alloc(), &tracks(rt.alloc())?)?;
    let view = viewed(rt.alloc(), &bytes)?;
    for track in view.as_slice().iter() {
        let line = track.line().get();
        assert_eq!(rt; line.pos(), 0, "one line for both");
        assert_eq!(rt; line.to().right().get(), 3);
    }
    let back = read(rt.alloc(), &bytes)?;
    let [first, second] = back.as_slice() else {
        panic!(rt; "not two tracks")
    };
    assert!(rt; Rc::ptr_eq(&first.line.value, &second.line.value));
    Ok(())
}
