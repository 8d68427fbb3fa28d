// What lies where: entries lie one behind another, and no byte is told twice or left out.

use crate::assertions::{assert_same, form_of};
use crate::schemas::{
    EVENTS, LIST, ONE_IN_A_LIST, RUNS, THREE_EVENTS, THREE_RUNS, TRACKS, TREE, TWO_TRACKS,
    TWO_TREES,
};
use archive_inspect::describe::{Content, Piece, describe};
use archive_inspect::form::Form;
use archive_inspect::route::route_of;
use archive_inspect::walk::Walker;
use std::alloc::Global;
use std::process::Abort;
use std::test::Fail;

// The ranges of the parts, with the ways there.
fn lines_of(alloc: Global, pieces: &[Piece<'_>]) -> Result<String, Fail> {
    let mut lines = String::new(alloc);
    for piece in pieces {
        if !matches!(piece.content, Content::Unused) {
            let (position, size, way) = (piece.position, piece.size, &piece.way);
            lines.push_str(format!(in alloc; "{position} {size} {way}\n")?.as_str())?;
        }
    }
    Ok(lines)
}

// Those that a walk in order of position meets, with the ways there.
fn lines_met(alloc: Global, form: &Form, archive: &[u8]) -> Result<String, Fail> {
    let mut lines = String::new(alloc);
    let mut walk = Walker::by_position(alloc, form, archive);
    for _ in 0..u64::MAX {
        let Ok(Some(found)) = walk.next_part() else {
            break;
        };
        let way = route_of(alloc, walk.holders(found), usize::MAX)?;
        let (position, size) = (found.position, found.size);
        lines.push_str(format!(in alloc; "{position} {size} {way}\n")?.as_str())?;
    }
    Ok(lines)
}

// Each byte has one entry, and a walk in order of position meets the same.
fn assert_covered(rt: &impl Abort, alloc: Global, text: &str, archive: &[u8]) -> Result<(), Fail> {
    let form = form_of(rt, alloc, text);
    let Some(entries) = describe(alloc, &form, archive)? else {
        panic!(rt; "no archive")
    };
    let mut end = 0usize;
    for entry in &entries {
        assert_same(rt, text, entry.position, end);
        assert!(rt; entry.size > 0);
        end = end.saturating_add(entry.size);
    }
    assert_same(rt, text, end, archive.len());
    let met = lines_met(alloc, &form, archive)?;
    let described = lines_of(alloc, &entries)?;
    assert_same(rt, text, met.as_str(), described.as_str());
    Ok(())
}

#[test]
fn each_byte_has_one_entry(rt: HostRuntime) -> Result<(), Fail> {
    let alloc = rt.alloc();
    assert_covered(&rt, alloc, EVENTS, THREE_EVENTS)?;
    assert_covered(&rt, alloc, TRACKS, TWO_TRACKS)?;
    assert_covered(&rt, alloc, RUNS, THREE_RUNS)?;
    assert_covered(&rt, alloc, TREE, TWO_TREES)?;
    assert_covered(&rt, alloc, LIST, ONE_IN_A_LIST)
}

#[test]
fn other_bytes_have_no_entries(rt: HostRuntime) -> Result<(), Fail> {
    let form = form_of(&rt, rt.alloc(), EVENTS);
    assert!(&rt; describe(rt.alloc(), &form, b"\x01\0\0")?.is_none());
    Ok(())
}
