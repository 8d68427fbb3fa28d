// Memory that runs out: budgets that rise, until one serves.

ghost use Rattle.std.specs.Prelude.{◌<◌};

use crate::assertions::{assert_holds, assert_refusal, assert_same};
use crate::write::write_string;
use archive_check::format::error::Error;
use archive_write::ser::{Positional, Serializer, Writer};
use archive_write::sharing::{Share, Sharing, SharingState};
use linked_list_allocator::LocalHeap;
use std::alloc::{Allocator, Global};
use std::process::Abort;

// A string for a key; its second string isn't written.
fn write_once<S: Writer + Sharing>(serializer: &mut S, key: u64) -> Result<(), Error> {
    if serializer.start_sharing(key)? != SharingState::Started {
        return Ok(());
    }
    let pos = write_string(serializer)?;
    serializer.finish_sharing(key, pos)
}

// One string for each key below 20.
fn write_strings<S: Writer + Sharing>(serializer: &mut S) -> Result<(), Error> {
    for key in 0..40 {
        write_once(serializer, key % 20)?;
    }
    Ok(())
}

// All of them in memory from `alloc`, and how many bytes they take.
fn length_of_strings<A: Allocator + Copy + Drop>(alloc: A) -> Result<usize, Error> {
    let mut serializer = Serializer::new(Vec::new(alloc), alloc, Share::new(alloc));
    match write_strings(&mut serializer) {
        Ok(()) => Ok(serializer.pos()),
        Err(error) => Err(error),
    }
}

// Whether memory of so many units of 32 bytes serves; where it doesn't, that is the refusal.
fn is_served(rt: &impl Abort, alloc: Global, units: usize) -> bool
    requires { units < 192 }
{
    let heap = LocalHeap::new(alloc, units * 32).expect(rt, "a heap");
    match length_of_strings(&heap) {
        Ok(length) => {
            assert_same(rt, "the length", length, 400);
            true
        }
        Err(error) => {
            assert_same(rt, "the refusal", error, Error::OutOfMemory);
            false
        }
    }
}

#[test]
fn each_budget_serves_or_is_refused(rt: HostRuntime) {
    let (mut refused, mut served) = (false, false);
    for units in 1..192usize {
        let is_served = is_served(&rt, rt.alloc(), units);
        served = served || is_served;
        refused = refused || !is_served;
        assert_same(&rt, "units that serve", (units, is_served), (units, served));
    }
    assert_same(&rt, "refused, and served", (refused, served), (true, true));
}

// A start is refused, and its key is then still unknown.
fn assert_unstarted<S: Sharing>(rt: &impl Abort, sharing: &mut S) {
    let started = sharing.start_sharing(7);
    assert_refusal(rt, "to start", started, Error::OutOfMemory);
    let finished = sharing.finish_sharing(7, 0);
    assert_refusal(rt, "to finish", finished, Error::NotStarted);
}

#[test]
fn a_refused_start_changes_nothing(rt: HostRuntime) {
    let heap = LocalHeap::new(rt.alloc(), 16).expect(&rt, "a heap");
    let no_room = Share::with_capacity(&heap, 100).is_err();
    assert_holds(&rt, "no room", no_room);
    assert_unstarted(&rt, &mut Share::new(&heap));
}
