//! The states of shared keys. A key names one value, which is written once: the key is unknown, then pending while the value is written, then
//! finished at the value's position.

ghost use Rattle.std.specs.Prelude.{◌≡◌, ◌+◌, ◌≤◌, ◌<◌, None, Some, OnOk, OnErr, IfOk, IfErr, IsOk, IsSome, IsTrue, IsFalse, is_some};
ghost use Rattle.archive_write.specs.Known.{known_keys, spare_keys};
ghost use Rattle.archive_check.specs.context.PositionStates.{finish_answer};
ghost use Rattle.archive_check.specs.WriterState.{KeepsKeys, KeepsBytes, only_keys};
ghost use Rattle.archive_write.specs.Sharing.{start_answer, IsSet, KnowsNone};
ghost use Rattle.archive_write.specs.Writes.{IsStarted};

use crate::known::KnownKeys;
use crate::ser::Serializer;
use archive_check::format::error::Error;
use archive_check::format::traits::Keys;
use std::alloc::{Allocator, Global};

/// What a key was when it was started. As in rkyv 0.8.18.
#[derive(Clone, Copy, Debug, PartialEq, Eq)]
pub enum SharingState {
    /// It was unknown, and is pending now: its value is to be written.
    Started,
    /// It is pending: its value is being written.
    Pending,
    /// Its value lies at this position, in bytes from the first one.
    Finished(usize),
}

/// What keeps the states of shared keys. The writer's bytes stay as they are, and a failed call
/// changes nothing. The calls are those of rkyv 0.8.18; a key is a number that the owner chooses,
/// in place of an address.
pub trait Sharing: Keys {
    /// Returns what `key` was, and makes it pending where it was unknown. Fails with `OutOfMemory`
    /// if memory is refused, for an unknown key alone.
    fn start_sharing(&mut self, key: u64) -> Result<SharingState, Error>
        ensures answer { IfOk result (λ s. s ≡ start_answer ((Self.state self.old).states key)) }
        ensures after { OnOk result (IsStarted (Self.state self.old).states key
            (Self.state self.new).states) }
        ensures unchanged { OnErr result (KeepsKeys (Self.state self.old).states
            (Self.state self.new).states) }
        ensures refusal { IfErr result (λ e. (e ≡ Error.OutOfMemory)
            × ((Self.state self.old).states key ≡ None)) }
        ensures bytes { KeepsBytes (Self.state self.old) (Self.state self.new) };

    /// Finishes the pending `key` at `pos`, in bytes from the first one. Fails with `NotStarted`
    /// exactly if it is unknown, and with `AlreadyFinished` exactly if it is finished already.
    /// Takes no memory.
    fn finish_sharing(&mut self, key: u64, pos: usize) -> Result<(), Error>
        ensures answer { result ≡ finish_answer is_some ((Self.state self.old).states key) }
        ensures after { OnOk result (IsSet (Self.state self.old).states key (Some (Some pos))
            (Self.state self.new).states) }
        ensures unchanged { OnErr result (KeepsKeys (Self.state self.old).states
            (Self.state self.new).states) }
        ensures bytes { KeepsBytes (Self.state self.old) (Self.state self.new) };
}

/// What is borrowed keeps its owner's states.
impl<S: Sharing> Sharing for &mut S {
    fn start_sharing(&mut self, key: u64) -> Result<SharingState, Error> {
        S::start_sharing(&mut **self, key)
    }

    fn finish_sharing(&mut self, key: u64, pos: usize) -> Result<(), Error> {
        S::finish_sharing(&mut **self, key, pos)
    }
}

impl<W: Keys, A, S: Sharing> Sharing for Serializer<W, A, S> {
    #[inline(always)]
    fn start_sharing(&mut self, key: u64) -> Result<SharingState, Error> {
        self.sharing.start_sharing(key)
    }

    fn finish_sharing(&mut self, key: u64, pos: usize) -> Result<(), Error> {
        self.sharing.finish_sharing(key, pos)
    }
}

/// The states of the shared keys of one archive, in memory from an `A`. As in rkyv 0.8.18.
///
/// ```
/// let sharing = Share::new(alloc);          // knows no key, and takes no memory yet
/// let serializer = Serializer::new(Vec::new(alloc), alloc, sharing);
/// ```
#[derive(Drop)]
pub struct Share<A: Allocator = Global> {
    alloc: A,
    // In a box, made with the first key: what moves a serializer moves a word of it.
    states: Option<Box<KnownKeys<A>, A>>,
}

impl<A: Allocator + Clone> Share<A> {
    /// Knows no key. Memory comes from `alloc` with the first one.
    pub fn new(alloc: A) -> Share<A>
        ensures { KnowsNone (⟦<Share<A> as Keys>⟧.state result).states }
    {
        Share {
            alloc,
            states: None,
        }
    }

    /// Knows no key, and has room for `capacity` of them: the next `capacity` starts don't fail.
    /// Memory comes from `alloc`. Fails with `OutOfMemory` if it is refused.
    pub fn with_capacity(alloc: A, capacity: usize) -> Result<Share<A>, Error>
        ensures fresh { IfOk result (λ s. KnowsNone (⟦<Share<A> as Keys>⟧.state s).states) }
        ensures room { IfOk result (λ s. capacity ≤ spare_keys s.states) }
        ensures refusal { IfErr result (λ e. e ≡ Error.OutOfMemory) }
    {
        let states = Box::new(
            alloc.clone()?,
            KnownKeys::with_capacity(alloc.clone()?, alloc.clone()?, capacity)?,
        )?;
        Ok(Share {
            alloc,
            states: Some(states),
        })
    }

    /// Forgets every key, so that it serves for another archive. Takes no memory, and keeps what it has.
    pub fn clear(&mut self)
        ensures fresh { KnowsNone (⟦<Share<A> as Keys>⟧.state self.new).states }
        ensures room { spare_keys self.old.states ≤ spare_keys self.new.states }
    {
        if let Some(states) = &mut self.states {
            states.clear();
        }
    }

    // Starts an unknown key, and returns whether there was memory for it. It stands apart, so that a
    // loop over pointers has the code for known keys alone.
    #[inline(never)]
    fn start_unknown(&mut self, key: u64) -> bool
        requires { known_keys self.old.states key ≡ None }
        ensures started { IsTrue result → IsStarted (known_keys self.old.states) key
            (known_keys self.new.states) }
        ensures unchanged { IsFalse result → KeepsKeys (known_keys self.old.states)
            (known_keys self.new.states) }
        ensures served { 0 < spare_keys self.old.states → IsTrue result }
        ensures room { spare_keys self.old.states ≤ spare_keys self.new.states + 1 }
    {
        if self.open().is_err() {
            return false;
        }
        let Some(states) = &mut self.states else {
            unreachable!();
        };
        states.start(key)
    }

    // Makes what keeps the states, where there is none.
    #[tactic(auto, unfolding(crate::specs::Known::key_states))]
    fn open(&mut self) -> Result<(), Error>
        ensures open { OnOk result (IsSome self.new.states) }
        ensures same_keys { KeepsKeys (known_keys self.old.states) (known_keys self.new.states) }
        ensures room { spare_keys self.old.states ≤ spare_keys self.new.states }
        ensures refusal { IfErr result (λ e. (e ≡ Error.OutOfMemory) × (self.old.states ≡ None)) }
    {
        if self.states.is_none() {
            let states = KnownKeys::new(self.alloc.clone()?, self.alloc.clone()?);
            self.states = Some(Box::new(self.alloc.clone()?, states)?);
        }
        Ok(())
    }
}

/// It holds no bytes.
impl<A: Allocator + Clone> Keys for Share<A> {
    ghost state = { λ s. only_keys (known_keys s.states) };
}

/// A start takes memory only if no room is left, or for slots, whose want refuses nothing; it uses
/// up room for one key at most. A finish uses up none.
impl<A: Allocator + Clone> Sharing for Share<A> {
    #[inline(always)]
    fn start_sharing(&mut self, key: u64) -> Result<SharingState, Error>
        ensures answer { IfOk result (λ s. s ≡ start_answer (known_keys self.old.states key)) }
        ensures after { OnOk result (IsStarted (known_keys self.old.states) key
            (known_keys self.new.states)) }
        ensures unchanged { OnErr result (KeepsKeys (known_keys self.old.states)
            (known_keys self.new.states)) }
        ensures refusal { IfErr result (λ e. (e ≡ Error.OutOfMemory)
            × (known_keys self.old.states key ≡ None)) }
        ensures bytes { KeepsBytes (only_keys (known_keys self.old.states))
            (only_keys (known_keys self.new.states)) }
        ensures served { 0 < spare_keys self.old.states → IsOk result }
        ensures room { spare_keys self.old.states ≤ spare_keys self.new.states + 1 }
    {
        if let Some(states) = &mut self.states {
            match states.find(key) {
                Some(None) => return Ok(SharingState::Pending),
                Some(Some(pos)) => return Ok(SharingState::Finished(pos)),
                None => {}
            }
        }
        if !self.start_unknown(key) {
            return Err(Error::OutOfMemory);
        }
        Ok(SharingState::Started)
    }

    fn finish_sharing(&mut self, key: u64, pos: usize) -> Result<(), Error>
        ensures answer { result ≡ finish_answer is_some (known_keys self.old.states key) }
        ensures after { OnOk result (IsSet (known_keys self.old.states) key (Some (Some pos))
            (known_keys self.new.states)) }
        ensures unchanged { OnErr result (KeepsKeys (known_keys self.old.states)
            (known_keys self.new.states)) }
        ensures bytes { KeepsBytes (only_keys (known_keys self.old.states))
            (only_keys (known_keys self.new.states)) }
        ensures room { spare_keys self.new.states ≡ spare_keys self.old.states }
    {
        let Some(states) = &mut self.states else {
            return Err(Error::NotStarted);
        };
        states.finish(key, pos)
    }
}
