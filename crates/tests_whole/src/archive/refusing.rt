// A pool of the user's own that refuses: what it finished before stands.

ghost use Rattle.std.specs.Prelude.{true};
ghost use Rattle.std.proofs.Common.{true≢false};

use crate::archive::pairs::{ONE_NUMBER, read_pair};
use crate::assertions::assert_same;
use archive_core::error::Error;
use archive_core::pooling::{Pool, Pooling, PoolingState};
use archive_core::rc::Shared;
use archive_core::traits::Entries;
use std::alloc::Global;
use std::process::Abort;

type Pair = (Shared<u32>, Shared<u32>);

// A pool that serves so many requests and refuses those behind them.
#[derive(Drop)]
struct Refusing {
    pool: Pool<Shared<u32>>,
    served: usize,
}

impl Entries for Refusing {
    ghost entry_of = { λ p. ⟦<Pool<Shared<u32>> as Entries>⟧.entry_of p.pool };

    ghost keeps = { true };

    ghost keeps_nothing = { λ p e. absurd (true≢false e) };
}

impl Pooling<Shared<u32>> for Refusing {
    fn start_pooling(&mut self, pos: usize) -> Result<PoolingState<Shared<u32>>, Error> {
        let Some(served) = self.served.checked_sub(1) else {
            return Err(Error::OutOfMemory);
        };
        self.served = served;
        self.pool.start_pooling(pos)
    }

    fn finish_pooling(&mut self, pos: usize, value: Shared<u32>) -> Result<(), Error> {
        let Some(served) = self.served.checked_sub(1) else {
            return Err(Error::OutOfMemory);
        };
        self.served = served;
        self.pool.finish_pooling(pos, value)
    }
}

// What a pool has at the number's position: nothing, or it is pending, or the number.
fn state_of(rt: &impl Abort, pool: &mut Pool<Shared<u32>>) -> Option<Option<u32>> {
    if !pool.is_known(0) {
        return None;
    }
    match pool.start_pooling(0).expect(rt, "memory") {
        PoolingState::Finished(number) => Some(Some(*number.value)),
        PoolingState::Pending | PoolingState::Started => Some(None),
    }
}

// What the pool has there behind a reading with so many requests served, which is refused for want of memory or isn't.
fn assert_state(
    rt: &impl Abort,
    alloc: Global,
    served: usize,
    is_refused: bool,
    state: Option<Option<u32>>,
) {
    let pool: Pool<Shared<u32>> = Pool::new(alloc);
    let mut refusing = Refusing { pool, served };
    let pair: Option<Pair> = read_pair(rt, alloc, ONE_NUMBER, &mut refusing, Error::OutOfMemory);
    let Refusing { mut pool, .. } = refusing;
    let found = (served, pair.is_some(), state_of(rt, &mut pool));
    assert_same(rt, "so many served", found, (served, !is_refused, state));
}

#[test]
fn what_a_pool_finished_stands(rt: HostRuntime) {
    assert_state(&rt, rt.alloc(), 0, true, None);
    assert_state(&rt, rt.alloc(), 1, true, Some(None));
    assert_state(&rt, rt.alloc(), 2, true, Some(Some(10)));
    assert_state(&rt, rt.alloc(), 3, false, Some(Some(10)));
}
