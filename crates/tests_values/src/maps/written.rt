// Maps are written, from a `BTreeMap` and from sorted entries, and read back.

use crate::assertions::{assert_archived, assert_unwritten, assert_written};
use crate::maps::archives::{EMPTY, NUMBERS, TEXTS, map_of, texts_of};
use archive_check::format::error::Error;
use archive_types::map::SortedEntries;
use std::alloc::{AllocError, Global};
use std::collections::BTreeMap;
use std::process::Abort;

// The map of these entries has this archive.
fn assert_map(rt: &impl Abort, alloc: Global, entries: &[(u32, u32)], archive: &[u8]) {
    let map = map_of(rt, alloc, entries);
    assert_archived(rt, alloc, &map, archive);
}

#[test]
fn maps_and_their_archives(rt: HostRuntime) {
    assert_map(&rt, rt.alloc(), &[(2, 20), (1, 10)], NUMBERS);
    assert_map(&rt, rt.alloc(), &[], EMPTY);
    let texts = texts_of(&rt, rt.alloc(), &[("hello world", 2), ("a", 1)]);
    assert_archived(&rt, rt.alloc(), &texts, TEXTS);
}

// The archive of these entries.
fn assert_entries(rt: &impl Abort, alloc: Global, entries: &[(u32, u32)], archive: &[u8]) {
    assert_written(rt, alloc, &SortedEntries { entries }, archive);
}

#[test]
fn sorted_entries_are_written(rt: HostRuntime) {
    assert_entries(&rt, rt.alloc(), &[(1, 10), (2, 20)], NUMBERS);
    assert_entries(&rt, rt.alloc(), &[], EMPTY);
}

// In each row entries that are refused, and nothing is written of them.
fn assert_unsorted(rt: &impl Abort, alloc: Global, rows: &[&[(u32, u32)]]) {
    for entries in rows {
        let entries = SortedEntries { entries: *entries };
        assert_unwritten(rt, "unsorted", alloc, &entries, Error::UnsortedKeys);
    }
}

// A falling key, a key twice, and a last key that falls.
#[test]
fn unsorted_entries_are_refused(rt: HostRuntime) {
    let rows: [&[(u32, u32)]; 3] = [
        &[(2, 1), (1, 1)],
        &[(1, 1), (1, 2)],
        &[(1, 1), (3, 1), (2, 1)],
    ];
    assert_unsorted(&rt, rt.alloc(), &rows);
}

// Bytes to bools.
type Bools = BTreeMap<u8, bool>;

// 3 to true, and at 4 the entries of 1, to the map of that, and of 2, to an empty one.
const MAPS: &[u8] =
    b"\x03\x01\0\0\x01\0\0\0\xf8\xff\xff\xff\x01\0\0\0\x02\0\0\0\xee\xff\xff\xff\0\0\0\0\xe8\xff\xff\xff\x02\0\0\0";

// The maps of that archive.
fn two_maps(alloc: Global, first: Bools) -> Result<BTreeMap<u8, Bools>, AllocError> {
    let mut maps = BTreeMap::new(alloc);
    maps.insert(2, BTreeMap::new(alloc))?;
    maps.insert(1, first)?;
    Ok(maps)
}

#[test]
fn maps_of_maps_are_written(rt: HostRuntime) {
    let first = map_of(&rt, rt.alloc(), &[(3, true)]);
    let maps = two_maps(rt.alloc(), first).expect(&rt, "memory for a map");
    assert_written(&rt, rt.alloc(), &maps, MAPS);
}

// 1 to true and 2 to false, and at 4 the map of these, and an empty one. At 20 the vector of both.
const TWO_MAPS: &[u8] =
    b"\x01\x01\x02\0\xfc\xff\xff\xff\x02\0\0\0\xf8\xff\xff\xff\0\0\0\0\xf0\xff\xff\xff\x02\0\0\0";

#[test]
fn vectors_of_maps_are_written(rt: HostRuntime) {
    let first = map_of(&rt, rt.alloc(), &[(1, true), (2, false)]);
    let second: Bools = BTreeMap::new(rt.alloc());
    let maps = Vec::from_array(rt.alloc(), [first, second]).expect(&rt, "memory for a vector");
    assert_written(&rt, rt.alloc(), &maps, TWO_MAPS);
}
