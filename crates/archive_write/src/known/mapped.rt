// A map of the states of keys, and slots for finished ones that are found again.

ghost use Rattle.std.specs.Prelude.{◌≡◌, ◌+◌, ◌≤◌, ◌<◌, None, Some, OnOk, OnErr, IfOk, IsTrue, IsFalse, is_some, nat_eq};
ghost use Rattle.std.specs.HashMap.{get, spare};
ghost use Rattle.archive_check.specs.context.PositionStates.{finish_answer};
ghost use Rattle.archive_check.specs.WriterState.{KeepsKeys};
ghost use Rattle.archive_write.specs.FinishedKeys.{AreFinishedKeys};
ghost use Rattle.archive_write.specs.Sharing.{IsSet, KnowsNone};
ghost use Rattle.archive_write.specs.Writes.{IsStarted};

use crate::repeats::Repeats;
use archive_check::format::error::Error;
use std::alloc::{AllocError, Allocator, Global};
use std::collections::HashMap;
use std::hash::{BuildHasherDefault, FoldHasher};

type States<A> = HashMap<u64, Option<usize>, BuildHasherDefault<FoldHasher>, A>;

/// The states of keys in a map. One that is found again and again is found in a slot.
#[derive(Drop)]
pub(crate) struct MappedKeys<A: Allocator = Global> {
    states: States<A>,
    repeats: Repeats<usize, A>,
    ghost recalls: { AreFinishedKeys repeats.slots (get nat_eq states) },
}

impl<A: Allocator + Clone> MappedKeys<A> {
    /// No key. Memory comes from `alloc`, for slots from `slots`, and none is taken yet.
    pub(crate) fn new(alloc: A, slots: A) -> MappedKeys<A>
        ensures { KnowsNone (get nat_eq result.states) }
    {
        MappedKeys {
            states: HashMap::new(alloc),
            repeats: Repeats::new(slots),
        }
    }

    /// No key, and room for `capacity` of them. Fails if memory from `alloc` is refused.
    pub(crate) fn with_capacity(
        alloc: A,
        slots: A,
        capacity: usize,
    ) -> Result<MappedKeys<A>, AllocError>
        ensures fresh { IfOk result (λ known. KnowsNone (get nat_eq known.states)) }
        ensures room { IfOk result (λ known. capacity ≤ spare known.states) }
    {
        Ok(MappedKeys {
            states: HashMap::with_capacity(alloc, capacity)?,
            repeats: Repeats::new(slots),
        })
    }

    /// Whether a key is pending or finished.
    pub(crate) fn is_known(&self, key: u64) -> bool
        ensures { result ≡ is_some (get nat_eq self.now.states key) }
    {
        self.states.contains_key(&key)
    }

    /// The state of a key: pending, or finished with a number; none where it is unknown.
    #[inline(always)]
    pub(crate) fn find(&mut self, key: u64) -> Option<Option<usize>>
        ensures state { result ≡ get nat_eq self.old.states key }
        ensures same { self.new.states ≡ self.old.states }
    {
        match self.repeats.get(key) {
            Some(number) => Some(Some(*number)),
            None => self.search(key),
        }
    }

    // The same, by the map.
    #[inline(always)]
    fn search(&mut self, key: u64) -> Option<Option<usize>>
        ensures state { result ≡ get nat_eq self.old.states key }
        ensures same { self.new.states ≡ self.old.states }
    {
        let state = self.states.get(&key).copied();
        if let Some(Some(number)) = state {
            self.repeats.add_found(key, number, self.states.len());
        }
        state
    }

    /// Starts a key, and returns whether there was memory for it. The caller must ensure that the
    /// key is unknown.
    pub(crate) fn start(&mut self, key: u64) -> bool
        requires { get nat_eq self.old.states key ≡ None }
        ensures started { IsTrue result → IsStarted (get nat_eq self.old.states) key
            (get nat_eq self.new.states) }
        ensures unchanged { IsFalse result → KeepsKeys (get nat_eq self.old.states)
            (get nat_eq self.new.states) }
        ensures served { 0 < spare self.old.states → IsTrue result }
        ensures room { spare self.old.states ≤ spare self.new.states + 1 }
    {
        self.states.insert(key, None).is_ok()
    }

    /// Finishes the pending `key` with `number`. Takes no memory. Fails with `NotStarted` if it is
    /// unknown, and with `AlreadyFinished` if it is finished already.
    pub(crate) fn finish(&mut self, key: u64, number: usize) -> Result<(), Error>
        ensures answer { result ≡ finish_answer is_some (get nat_eq self.old.states key) }
        ensures after { OnOk result (IsSet (get nat_eq self.old.states) key (Some (Some number))
            (get nat_eq self.new.states)) }
        ensures unchanged { OnErr result (KeepsKeys (get nat_eq self.old.states)
            (get nat_eq self.new.states)) }
        ensures room { spare self.new.states ≡ spare self.old.states }
    {
        match self.states.get_mut(&key) {
            None => Err(Error::NotStarted),
            Some(state) => {
                if state.is_some() {
                    return Err(Error::AlreadyFinished);
                }
                *state = Some(number);
                Ok(())
            }
        }
    }

    /// Forgets every key. Takes no memory, and keeps what it has.
    pub(crate) fn clear(&mut self)
        ensures fresh { KnowsNone (get nat_eq self.new.states) }
        ensures room { spare self.old.states ≤ spare self.new.states }
    {
        self.states.clear();
        self.repeats.clear();
    }
}
