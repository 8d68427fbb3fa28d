// Pools: what they know of positions, and what is read back by one that knows some.

use crate::archive::pairs::{ONE_NUMBER, parts_of_pair, read_pair};
use crate::assertions::{assert_holds, assert_same};
use archive_core::error::Error;
use archive_core::pooling::{Pool, Pooled, Pooling, PoolingExt, PoolingState};
use archive_core::primitive::ArchivedU32;
use archive_core::rc::{ArchivedRc, RcFlavor, Shared, SharedStr};
use std::alloc::Global;
use std::process::Abort;
use std::rc::{Rc, RcStr};

// Two pointers to one number.
type Numbers = (Shared<u32>, Shared<u32>);

// What is read back of them by a pool, if the number isn't pending.
fn read_numbers(rt: &impl Abort, alloc: Global, pool: &mut Pool<Shared<u32>>) -> Option<Numbers> {
    read_pair(rt, alloc, ONE_NUMBER, pool, Error::CyclicDeserialize)
}

// A position is started, where it was unknown, or else is pending.
fn assert_open<T: Pooled>(rt: &impl Abort, pool: &mut Pool<T>, pos: usize, was_known: bool) {
    let is_pending = match pool.start_pooling(pos).expect(rt, "memory") {
        PoolingState::Started => false,
        PoolingState::Pending => true,
        PoolingState::Finished(_) => panic!(rt; "finished"),
    };
    assert_same(rt, "pending", is_pending, was_known);
}

// A position is started, and pending then.
fn assert_pending<T: Pooled>(rt: &impl Abort, pool: &mut Pool<T>, pos: usize) {
    assert_open(rt, pool, pos, false);
    assert_open(rt, pool, pos, true);
}

// So many positions are started and finished, each with a number of its own.
fn assert_numbers(rt: &impl Abort, alloc: Global, positions: u8) {
    let mut pool: Pool<Shared<u32>> = Pool::new(alloc);
    for index in 0..positions {
        assert_pending(rt, &mut pool, 610 * usize::from(index));
    }
    for index in 0..positions {
        let pos = 610 * usize::from(index);
        let number = <Shared<u32> as Pooled>::from_value(alloc, pos, u32::from(index));
        let done = pool.finish_pooling(pos, number.expect(rt, "memory"));
        assert_holds(rt, "pending", done.is_ok());
    }
    for index in 0..positions {
        let state = pool.start_pooling(610 * usize::from(index));
        let PoolingState::Finished(number) = state.expect(rt, "memory") else {
            panic!(rt; "not finished")
        };
        assert_same(rt, "the number", *number.value, u32::from(index));
    }
}

#[test]
fn positions_in_a_pool_are_told_apart(rt: HostRuntime) {
    for positions in [1, 2, 10, 17] {
        assert_numbers(&rt, rt.alloc(), positions);
    }
}

type Pointer = ArchivedRc<ArchivedU32, RcFlavor>;

// What is read back of the first pointer alone.
fn read_first(rt: &impl Abort, alloc: Global, pool: &mut Pool<Shared<u32>>) -> Shared<u32> {
    let (first, _second) = parts_of_pair::<Pointer, Pointer>(rt, alloc, ONE_NUMBER);
    pool.deserialize_shared(alloc, first.get())
        .expect(rt, "a value")
}

#[test]
fn a_pool_is_used_twice_for_one_buffer(rt: HostRuntime) {
    let mut pool: Pool<Shared<u32>> = Pool::new(rt.alloc());
    let pair = read_numbers(&rt, rt.alloc(), &mut pool);
    let (first, second) = pair.expect(&rt, "a pair");
    let again = read_first(&rt, rt.alloc(), &mut pool);
    let same = (
        Rc::ptr_eq(&first.value, &again.value),
        Rc::ptr_eq(&second.value, &again.value),
    );
    assert_same(&rt, "one number", same, (true, true));
    let known = (pool.is_known(0), pool.is_known(4));
    assert_same(&rt, "the number's position", known, (true, false));
}

#[test]
fn a_pending_position_is_refused(rt: HostRuntime) {
    let mut pool: Pool<Shared<u32>> = Pool::new(rt.alloc());
    assert_pending(&rt, &mut pool, 0);
    let numbers = read_numbers(&rt, rt.alloc(), &mut pool);
    assert_holds(&rt, "refused", numbers.is_none());
}

// The numbers of `NotStarted` and `AlreadyFinished`, and that of no refusal.
const NOT_STARTED: u32 = 14;

const ALREADY_FINISHED: u32 = 15;

const FINISHED: u32 = 0;

// A text is finished, or refused with the error of this number.
fn assert_finished(rt: &impl Abort, pool: &mut Pool<SharedStr>, text: &SharedStr, number: u32) {
    let text = text.clone().expect(rt, "memory");
    let found = match pool.finish_pooling(3, text) {
        Ok(()) => 0,
        Err(error) => error.number(),
    };
    assert_same(rt, "finished", found, number);
}

#[test]
fn a_text_is_finished_once(rt: HostRuntime) {
    let mut pool: Pool<SharedStr> = Pool::new(rt.alloc());
    let value = RcStr::from_str(rt.alloc(), "hello").expect(&rt, "memory");
    let text = SharedStr { key: 3, value };
    assert_finished(&rt, &mut pool, &text, NOT_STARTED);
    assert_open(&rt, &mut pool, 3, false);
    assert_finished(&rt, &mut pool, &text, FINISHED);
    assert_finished(&rt, &mut pool, &text, ALREADY_FINISHED);
}
