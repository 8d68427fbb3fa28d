// Maps are written by parts: their entries behind what is there, and then the pointer to them.

ghost use Rattle.std.specs.Prelude.{◌≡◌, length};

use crate::assertions::assert_same;
use crate::maps::archives::Numbers;
use archive_check::format::error::Error;
use archive_types::map::SortedMapResolver;
use archive_types::place::Place;
use archive_types::ser::{Serializer, Writer};
use std::alloc::Global;
use std::process::Abort;

// The map of two entries at this position, where its entries lie at 0, or why there is none.
fn resolved_at(pos: usize, place: &mut [u8]) -> Option<Error>
    requires { length place.old ≡ 8 }
{
    let resolver = SortedMapResolver::from_pos(0);
    Numbers::resolve_from_len(2, resolver, Place::new(pos, place)).err()
}

#[test]
fn maps_are_resolved_by_position(rt: HostRuntime) {
    let mut place = [0; 8];
    let near = (resolved_at(16, &mut place), place);
    assert_same(&rt, "near", near, (None, *b"\xf0\xff\xff\xff\x02\0\0\0"));
    let far = (resolved_at(4_294_967_295, &mut place), place);
    let wanted = (Some(Error::OffsetOverflow), *b"\xf0\xff\xff\xff\x02\0\0\0");
    assert_same(&rt, "too far", far, wanted);
}

// What is held once these entries are written behind a byte, or why they aren't.
fn written(rt: &impl Abort, alloc: Global, entries: &[(u32, u32)]) -> (Option<Error>, Vec<u8>) {
    let before = Vec::from_slice(alloc, b"\xaa").expect(rt, "memory for a byte");
    let mut serializer = Serializer::new(before, alloc, ());
    let refusal = match Numbers::serialize_from_entries(entries, &mut serializer) {
        Ok(_) => None,
        Err(error) => Some(error),
    };
    (refusal, serializer.into_writer())
}

// The entries are written so, or refused so.
fn assert_entries(
    rt: &impl Abort,
    alloc: Global,
    entries: &[(u32, u32)],
    refusal: Option<Error>,
    bytes: &[u8],
) {
    let (found, held) = written(rt, alloc, entries);
    assert_same(rt, "entries", (found, held.as_slice()), (refusal, bytes));
}

#[test]
fn entries_are_written_behind_what_is_there(rt: HostRuntime) {
    let alloc = rt.alloc();
    let two = b"\xaa\0\0\0\x01\0\0\0\x0a\0\0\0\x02\0\0\0\x14\0\0\0";
    assert_entries(&rt, alloc, &[(1, 10), (2, 20)], None, two);
    let unsorted = Some(Error::UnsortedKeys);
    assert_entries(&rt, alloc, &[(2, 20), (1, 10)], unsorted, b"\xaa");
}
