// Shared positions under budgets of memory: an allocator of a fixed size is handed in, and the size rises, so that the refusal moves from request to
// request until all are served.

ghost use Rattle.std.specs.Prelude.{◌<◌};

use crate::assertions::{assert_holds, assert_refusal, assert_same};
use crate::check::RC;
use archive_check::context::positions::SharedValidator;
use archive_check::context::{SharedContext, ValidationState};
use archive_check::format::error::Error;
use archive_check::format::expr::{Expr, Kind, Pointee};
use linked_list_allocator::LocalHeap;
use std::alloc::{Allocator, Global};
use std::process::Abort;

// Starts a position, and answers why it is refused; none where it isn't.
fn start_as<S: SharedContext>(
    shared: &mut S,
    position: i128,
    pointee: &Pointee,
    length: usize,
) -> Option<Error> {
    shared.start_shared(&RC, pointee, position, length).err()
}

// The same, of one that leads to a text for the first three, and to a unit for the others.
fn start<S: SharedContext>(shared: &mut S, position: i128) -> Option<Error> {
    if position < 3 {
        return start_as(shared, position, &Pointee::Text, 1);
    }
    let unit = Pointee::One(Expr::Leaf(Kind::Unit));
    start_as(shared, position, &unit, 0)
}

// Starts eight positions of two types, and answers how many were started before the first refusal.
fn start_eight<S: SharedContext>(shared: &mut S) -> (i128, Option<Error>) {
    for number in 0..8u32 {
        let position = i128::from(number);
        if let Some(error) = start(shared, position) {
            return (position, Some(error));
        }
    }
    (8, None)
}

// The position after those that were started is unknown.
fn assert_unknown<S: SharedContext>(rt: &impl Abort, shared: &mut S, position: i128) {
    let finished = shared.finish_shared(&RC, &Pointee::Text, position);
    assert_refusal(rt, "unknown", finished, Error::NotStarted);
}

// The first position of all is pending, and is finished.
fn assert_pending<S: SharedContext>(rt: &impl Abort, shared: &mut S) {
    let state = shared.start_shared(&RC, &Pointee::Text, 0, 1);
    let state = state.expect(rt, "a state");
    assert_same(rt, "pending", state, ValidationState::Pending);
    let finished = shared.finish_shared(&RC, &Pointee::Text, 0);
    finished.expect(rt, "to finish");
}

// Starts eight positions, and answers how many were started. The first that is refused stays unknown, and the first of all is pending.
fn started<S: SharedContext>(rt: &impl Abort, shared: &mut S) -> i128 {
    let (started, refusal) = start_eight(shared);
    if started < 8 {
        assert_same(rt, "the refusal", refusal, Some(Error::OutOfMemory));
        assert_unknown(rt, shared, started);
    }
    if started > 0 {
        assert_pending(rt, shared);
    }
    started
}

// How many of eight positions are started with memory of so many units of 32 bytes.
fn started_within(rt: &impl Abort, alloc: Global, units: usize) -> i128
    requires { units < 128 }
{
    let heap = LocalHeap::new(alloc, units * 32).expect(rt, "a heap");
    started(rt, &mut SharedValidator::new(&heap))
}

#[test]
fn every_budget_serves_or_refuses(rt: HostRuntime) {
    let mut most = 0i128;
    for units in 1..64usize {
        let started = started_within(&rt, rt.alloc(), units);
        let no_fewer = most <= started;
        assert_same(
            &rt,
            "units that start no fewer",
            (units, no_fewer),
            (units, true),
        );
        most = started;
    }
    assert_same(&rt, "with the most memory", most, 8);
}

// Why there is no room for eight positions; none where there is.
fn refusal_of_room<A: Allocator + Copy + Drop>(alloc: A) -> Option<Error> {
    SharedValidator::with_capacity(alloc, 8).err()
}

// Whether memory of so many units of 32 bytes has room for eight positions; where it doesn't, that is the refusal.
fn has_room(rt: &impl Abort, alloc: Global, units: usize) -> bool
    requires { units < 128 }
{
    let heap = LocalHeap::new(alloc, units * 32).expect(rt, "a heap");
    match refusal_of_room(&heap) {
        Some(refusal) => {
            assert_same(rt, "the refusal", refusal, Error::OutOfMemory);
            false
        }
        None => true,
    }
}

#[test]
fn room_is_made_or_refused(rt: HostRuntime) {
    let mut served = false;
    for units in 1..80usize {
        let has_room = has_room(&rt, rt.alloc(), units);
        served = served || has_room;
        assert_same(&rt, "units with room", (units, has_room), (units, served));
    }
    assert_holds(&rt, "with the most memory", served);
}
