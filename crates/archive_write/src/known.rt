//! The keys that are known. The first one lies beside the map of the others, since many archives share one value. Those of a pool are positions.
#![tactic(auto, unfolding(crate::specs::Known::key_states))]

ghost use Rattle.std.specs.Prelude.{◌≡◌, ◌+◌, ◌≤◌, ◌<◌, None, Some, OnOk, OnErr, IfOk, IsTrue, IsFalse, is_some};
ghost use Rattle.archive_check.specs.context.PositionStates.{finish_answer};
ghost use Rattle.archive_check.specs.WriterState.{KeepsKeys, no_keys};
ghost use Rattle.archive_write.specs.Known.{key_states, spare_of, with_first};
ghost use Rattle.archive_write.specs.Sharing.{IsSet, KnowsNone};
ghost use Rattle.archive_write.specs.Writes.{IsStarted};

mod mapped;

use archive_check::format::error::Error;
use mapped::MappedKeys;
use std::alloc::{AllocError, Allocator, Global};

// A key, and its state: pending, or finished with a number.
#[derive(Clone, Copy)]
struct FirstKey {
    key: u64,
    state: Option<usize>,
}

/// The states of keys: each is unknown, pending, or finished with a number, as its position or an
/// index.
#[derive(Drop)]
pub struct KnownKeys<A: Allocator = Global> {
    first: Option<FirstKey>,
    others: MappedKeys<A>,
}

impl<A: Allocator + Clone> KnownKeys<A> {
    /// No key. Memory comes from `alloc`, for slots from `slots`, and none is taken yet.
    pub fn new(alloc: A, slots: A) -> KnownKeys<A>
        ensures { KnowsNone (key_states result) }
    {
        KnownKeys {
            first: None,
            others: MappedKeys::new(alloc, slots),
        }
    }

    /// No key, and room for `capacity` of them. Fails if memory from `alloc` is refused.
    pub fn with_capacity(alloc: A, slots: A, capacity: usize) -> Result<KnownKeys<A>, AllocError>
        ensures fresh { IfOk result (λ known. KnowsNone (key_states known)) }
        ensures room { IfOk result (λ known. capacity ≤ spare_of known) }
    {
        Ok(KnownKeys {
            first: None,
            others: MappedKeys::with_capacity(alloc, slots, capacity)?,
        })
    }

    // The state of a key, where it is the first one.
    #[inline(always)]
    fn first_state(&self, key: u64) -> Option<Option<usize>>
        ensures { result ≡ with_first self.now.first no_keys key }
    {
        match self.first {
            Some(first) if first.key == key => Some(first.state),
            _ => None,
        }
    }

    /// Whether a key is pending or finished.
    pub fn is_known(&self, key: u64) -> bool
        ensures { result ≡ is_some (key_states self.now key) }
    {
        self.first_state(key).is_some() || self.others.is_known(key)
    }

    /// The state of a key: pending, or finished with a number; none where it is unknown.
    #[inline(always)]
    pub fn find(&mut self, key: u64) -> Option<Option<usize>>
        ensures state { result ≡ key_states self.old key }
        ensures same { key_states self.new ≡ key_states self.old }
        ensures room { spare_of self.new ≡ spare_of self.old }
    {
        match self.first_state(key) {
            None => self.others.find(key),
            state => state,
        }
    }

    /// Starts a key, and returns whether there was memory for it. The caller must ensure that the
    /// key is unknown.
    pub fn start(&mut self, key: u64) -> bool
        requires { key_states self.old key ≡ None }
        ensures started { IsTrue result → IsStarted (key_states self.old) key
            (key_states self.new) }
        ensures unchanged { IsFalse result → KeepsKeys (key_states self.old)
            (key_states self.new) }
        ensures served { 0 < spare_of self.old → IsTrue result }
        ensures room { spare_of self.old ≤ spare_of self.new + 1 }
    {
        if self.first.is_some() {
            return self.others.start(key);
        }
        self.first = Some(FirstKey { key, state: None });
        true
    }

    /// Finishes the pending `key` with `number`. Takes no memory. Fails with `NotStarted` if it is
    /// unknown, and with `AlreadyFinished` if it is finished already.
    pub fn finish(&mut self, key: u64, number: usize) -> Result<(), Error>
        ensures answer { result ≡ finish_answer is_some (key_states self.old key) }
        ensures after { OnOk result (IsSet (key_states self.old) key (Some (Some number))
            (key_states self.new)) }
        ensures unchanged { OnErr result (KeepsKeys (key_states self.old)
            (key_states self.new)) }
        ensures room { spare_of self.new ≡ spare_of self.old }
    {
        match self.first_state(key) {
            None => self.others.finish(key, number),
            Some(Some(_)) => Err(Error::AlreadyFinished),
            Some(None) => {
                self.first = Some(FirstKey {
                    key,
                    state: Some(number),
                });
                Ok(())
            }
        }
    }

    /// Forgets every key. Takes no memory, and keeps what it has.
    pub fn clear(&mut self)
        ensures fresh { KnowsNone (key_states self.new) }
        ensures room { spare_of self.old ≤ spare_of self.new }
    {
        self.first = None;
        self.others.clear();
    }
}
