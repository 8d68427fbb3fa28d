// A deserializer of the user's own, with a pool for each of two types.

ghost use Rattle.std.specs.Prelude.{◌≡◌, true, is_some, refl};
ghost use Rattle.std.proofs.Common.{true≢false};
ghost use Rattle.tests_whole.specs.TwoPools.{both_pools};

use crate::archive::pairs::read_pair;
use crate::assertions::assert_same;
use archive_core::error::Error;
use archive_core::pooling::{Pool, Pooled, Pooling, PoolingState};
use archive_core::rc::{Shared, SharedStr};
use archive_core::traits::Entries;
use std::alloc::Global;
use std::process::Abort;

// A pointer to a 10, and one to the text "hello".
const NUMBER_AND_TEXT: &[u8] = b"\x0a\0\0\0hello\0\0\0\xf4\xff\xff\xff\xf4\xff\xff\xff\x05\0\0\0";

// A pool that tells whether it knows a position.
trait Telling<T: Pooled>: Pooling<T> {
    fn knows(&self, pos: usize) -> bool
        ensures { result ≡ is_some (Self.entry_of self.now pos) };

    // It keeps what it has read.
    ghost keeping: { Self.keeps ≡ true };
}

impl<T: Pooled> Telling<T> for Pool<T> {
    ghost keeping = { refl };

    fn knows(&self, pos: usize) -> bool {
        self.is_known(pos)
    }
}

// A pool of numbers and one of texts. A position that the one knows is refused by the other, with 1.
#[derive(Drop)]
struct TwoPools<P, Q> {
    numbers: P,
    texts: Q,
}

impl<P: Entries, Q: Entries> Entries for TwoPools<P, Q> {
    ghost entry_of = { λ p. both_pools (P.entry_of p.numbers) (Q.entry_of p.texts) };

    ghost keeps = { true };

    ghost keeps_nothing = { λ p e. absurd (true≢false e) };
}

impl<P: Telling<Shared<u32>>, Q: Telling<SharedStr>> Pooling<Shared<u32>> for TwoPools<P, Q> {
    #[tactic(auto, using(crate::proofs::TwoPools::unknown_second, crate::proofs::TwoPools::started_first, crate::proofs::TwoPools::same_first))]
    fn start_pooling(&mut self, pos: usize) -> Result<PoolingState<Shared<u32>>, Error> {
        if self.texts.knows(pos) {
            return Err(Error::OutOfMemory);
        }
        self.numbers.start_pooling(pos)
    }

    #[tactic(auto, using(crate::proofs::TwoPools::unknown_second, crate::proofs::TwoPools::put_first, crate::proofs::TwoPools::same_first))]
    fn finish_pooling(&mut self, pos: usize, value: Shared<u32>) -> Result<(), Error> {
        if self.texts.knows(pos) {
            return Err(Error::OutOfMemory);
        }
        self.numbers.finish_pooling(pos, value)
    }
}

impl<P: Telling<Shared<u32>>, Q: Telling<SharedStr>> Pooling<SharedStr> for TwoPools<P, Q> {
    #[tactic(auto, using(crate::proofs::TwoPools::unknown_first, crate::proofs::TwoPools::started_second, crate::proofs::TwoPools::same_second))]
    fn start_pooling(&mut self, pos: usize) -> Result<PoolingState<SharedStr>, Error> {
        if self.numbers.knows(pos) {
            return Err(Error::OutOfMemory);
        }
        self.texts.start_pooling(pos)
    }

    #[tactic(auto, using(crate::proofs::TwoPools::unknown_first, crate::proofs::TwoPools::put_second, crate::proofs::TwoPools::same_second))]
    fn finish_pooling(&mut self, pos: usize, value: SharedStr) -> Result<(), Error> {
        if self.numbers.knows(pos) {
            return Err(Error::OutOfMemory);
        }
        self.texts.finish_pooling(pos, value)
    }
}

// A pointer to a number and one to a text, read back by both pools.
fn read_both<P: Telling<Shared<u32>>, Q: Telling<SharedStr>>(
    rt: &impl Abort,
    alloc: Global,
    pools: &mut TwoPools<P, Q>,
) -> (Shared<u32>, SharedStr) {
    let pair = read_pair(rt, alloc, NUMBER_AND_TEXT, pools, Error::OutOfMemory);
    pair.expect(rt, "a pair")
}

#[test]
fn values_of_two_types_are_pooled(rt: HostRuntime) {
    let mut pools = TwoPools {
        numbers: Pool::new(rt.alloc()),
        texts: Pool::new(rt.alloc()),
    };
    let (number, text) = read_both(&rt, rt.alloc(), &mut pools);
    let found = (number.key, *number.value, text.key, text.value.as_str());
    assert_same(&rt, "what is read", found, (0, 10, 4, "hello"));
    let found = (pools.numbers.is_known(0), pools.numbers.is_known(4));
    assert_same(&rt, "the numbers' pool", found, (true, false));
    let found = (pools.texts.is_known(4), pools.texts.is_known(0));
    assert_same(&rt, "the texts' pool", found, (true, false));
}
