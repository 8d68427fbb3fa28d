//! Pools: shared values that are read back once for each position, and handed out at each pointer. The position is unknown, then pending while its
//! value is read, then finished with the value.

ghost use Rattle.std.specs.Prelude.{◌≡◌, ◌⊎◌, ◌≤◌, ℕ, true, false, refl, None, Some, is_some, Err, IfOk, OnOk, IfErr, OnErr, IsOk};
ghost use Rattle.std.proofs.Common.{true≢false};
ghost use Rattle.archive_check.specs.Entries.{NoEntries, KeepsEntries};
ghost use Rattle.archive_check.specs.Pooled.{Kept, pooled};
ghost use Rattle.archive_check.specs.declared.format.error.Error.TheVariants.{OutOfMemory};
ghost use Rattle.archive_write.specs.Known.{key_states, spare_of};
ghost use Rattle.archive_core.specs.Pooling.{known_by, value_by, AreIndexed, IsPoolAnswer, IsSame, Spans, IsFinishAnswer};
ghost use Rattle.archive_core.specs.KeptValues.{kept_value};
ghost use Rattle.archive_core.specs.SharedSeen.{ReadsKept, HandsOut, SaysShown, RefusesKept, PutAt};

use archive_check::format::error::Error;
use archive_types::traits::{Archive, ArchivePointee, DeserializeUnsized, Entries};
use archive_types::view::Ref;
use archive_write::known::KnownKeys;
use std::alloc::Global;

/// What a position was when it was started. As in rkyv 0.8.18, with the value in place of a pointer to it.
#[derive(Drop)]
pub enum PoolingState<T> {
    /// It was unknown, and is pending now, where pending positions are kept: its value is to be read.
    Started,
    /// It is pending: its value is being read.
    Pending,
    /// Its value is this.
    Finished(T),
}

/// A shared value that a pool hands out at each pointer to it. `Shared`, `SharedSlice` and
/// `SharedStr` implement it.
pub trait Pooled: Clone + Drop {
    /// What is read back there.
    type Value: Archive + Drop;

    /// What lies there.
    type Archived: ArchivePointee;

    // What is kept of it.
    ghost kept: { Self → Kept };

    // How many elements or bytes a value has that is read back; 0 for one value.
    ghost count: { Self.Value → ℕ };

    /// The shared value whose key is this position, in bytes from the first one. Fails with
    /// `OutOfMemory` if memory from `alloc` is refused.
    fn from_value(alloc: Global, pos: usize, value: Self::Value) -> Result<Self, Error>
        ensures kept { IfOk result (λ s. kept s ≡ kept_value pos Self.Archived.pointee (count value)
            Self.Value.Archive value) }
        ensures refused { IfErr result (λ e. e ≡ OutOfMemory) };

    // A clone is the same shared value.
    ghost clone_law: { (a b : Self) → Self.is_clone a b → kept b ≡ kept a };

    // What is read back has as many elements or bytes as the pointer says.
    ghost spans: { (v : Self.Value) → Spans Self.Archived.definitions Self.Archived.pointee
        (count v) (Self.Value.meaning v) };
}

/// Keeps the shared values that were read back, by position, so that each is read once. A failed
/// call changes nothing.
///
/// `Pool` implements it, and `Unpool`, which keeps none, so that a shared value is read at each
/// pointer.
///
/// ```
/// let mut pool: Pool<Shared<u32>> = Pool::new(alloc);
/// let pair: (Shared<u32>, Shared<u32>) = from_bytes(alloc, bytes.as_slice(), &mut pool)?;
/// ```
///
/// The calls are those of rkyv 0.8.18.
pub trait Pooling<T: Pooled>: Entries {
    /// Returns what the position was, and makes an unknown one pending. Fails with `OutOfMemory` if
    /// memory is refused.
    fn start_pooling(&mut self, pos: usize) -> Result<PoolingState<T>, Error>
        ensures answer { IfOk result (IsPoolAnswer T.kept (Self.entry_of self.old pos)) }
        ensures after { Self.keeps ≡ true → OnOk result
            (PutAt Self.Entries self pos (pooled (Self.entry_of self.old pos))) }
        ensures unchanged { OnErr result (IsSame (Self.entry_of self.old)
            (Self.entry_of self.new)) }
        ensures refused { IfErr result (λ e. e ≡ OutOfMemory) };

    /// Finishes the pending position with `value`.
    ///
    /// Errors:
    /// - `NotStarted`: the position is unknown.
    /// - `AlreadyFinished`: it is finished.
    /// - `OutOfMemory`: memory is refused, whatever the position is.
    fn finish_pooling(&mut self, pos: usize, value: T) -> Result<(), Error>
        ensures answer { Self.keeps ≡ true → IsFinishAnswer (Self.entry_of self.old pos) result }
        ensures after { Self.keeps ≡ true → OnOk result
            (PutAt Self.Entries self pos (Some (Some (T.kept value)))) }
        ensures unchanged { OnErr result (IsSame (Self.entry_of self.old)
            (Self.entry_of self.new)) }
        ensures refused { Self.keeps ≡ false → IfErr result (λ e. e ≡ OutOfMemory) };
}

/// What everything that keeps shared values can do besides. As in rkyv 0.8.18.
pub trait PoolingExt<T: Pooled>: Pooling<T> {
    /// The shared value that the view shows, named by its position: a finished position's is
    /// returned as kept, an unknown one is read back and finished.
    ///
    /// Errors:
    /// - `OutOfMemory`: memory from `alloc` is refused.
    /// - `CyclicDeserialize`: only if a pending position is met.
    final fn deserialize_shared(
        &mut self,
        alloc: Global,
        view: Ref<'_, T::Archived>,
    ) -> Result<T, Error>
    where
        Self: Sized,
        T::Archived: DeserializeUnsized<T::Value, Self>,
        ensures read { IfOk result (λ v. ReadsKept view.entry Self.Entries self (T.kept v)) }
        ensures handed_out { IfOk result (λ v. HandsOut view.entry Self.Entries self (T.kept v)) }
        ensures says { IfOk result (λ v. SaysShown view.entry Self.Entries self (T.kept v)) }
        ensures finished { Self.keeps ≡ true → IfOk result
            (λ v. Self.entry_of self.new view.entry.pos ≡ Some (Some (T.kept v))) }
        ensures kept { OnOk result (KeepsEntries (Self.entry_of self.old)
            (Self.entry_of self.new)) }
        ensures refused { IfErr result (λ e. RefusesKept view.entry Self.Entries self e) }
    {
        let part = view.part();
        let pos = part.pos;
        match self.start_pooling(pos)? {
            PoolingState::Pending => Err(Error::CyclicDeserialize),
            PoolingState::Finished(value) => Ok(value),
            PoolingState::Started => {
                let value = T::Archived::deserialize_unsized_part(alloc, part, self)?;
                let shared = T::from_value(alloc, pos, value)?;
                let kept = shared.clone()?;
                self.finish_pooling(pos, kept)?;
                Ok(shared)
            }
        }
    }
}

impl<T: Pooled, D: Pooling<T>> PoolingExt<T> for D {}

/// The shared values of one buffer that were read back, one for each position. Make a new one for
/// another buffer, and after a failure. As in rkyv 0.8.18, with values of one type.
///
/// ```
/// let mut pool: Pool<Shared<u32>> = Pool::new(alloc);
/// let numbers: Vec<Shared<u32>> = from_bytes(alloc, bytes.as_slice(), &mut pool)?;
/// ```
#[derive(Drop)]
pub struct Pool<T> {
    // A finished position has the index of its value.
    positions: KnownKeys,
    finished: Vec<T>,
    ghost indexed: { AreIndexed finished.items (key_states positions) },
}

impl<T: Pooled> Pool<T> {
    /// A pool that knows no position. Memory comes from `alloc` with the first one.
    pub fn new(alloc: Global) -> Pool<T>
        ensures { NoEntries (⟦<Pool<T> as Entries>⟧.entry_of result) }
    {
        Pool {
            positions: KnownKeys::new(alloc, alloc),
            finished: Vec::new(alloc),
        }
    }

    /// A pool that knows no position, with room for `capacity` of them. Fails with `OutOfMemory` if
    /// memory from `alloc` is refused.
    pub fn with_capacity(alloc: Global, capacity: usize) -> Result<Pool<T>, Error>
        ensures fresh { IfOk result (λ p. NoEntries (⟦<Pool<T> as Entries>⟧.entry_of p)) }
        ensures room { IfOk result (λ p. capacity ≤ spare_of p.positions) }
        ensures refusal { IfErr result (λ e. e ≡ OutOfMemory) }
    {
        Ok(Pool {
            positions: KnownKeys::with_capacity(alloc, alloc, capacity)?,
            finished: Vec::with_capacity(alloc, capacity)?,
        })
    }

    /// Whether the position is pending or finished here. A deserializer of several pools tests it
    /// before it starts a position in another one.
    pub fn is_known(&self, pos: usize) -> bool
        ensures { result ≡ is_some (⟦<Pool<T> as Entries>⟧.entry_of self.now pos) }
    {
        self.positions.is_known(pos as u64)
    }
}

impl<T: Pooled> Entries for Pool<T> {
    ghost entry_of = { λ p t. known_by T.kept (value_by p.finished.items
        (key_states p.positions t)) };

    ghost keeps = { true };

    ghost keeps_nothing = { λ p e. absurd (true≢false e) };
}

impl<T: Pooled> Pooling<T> for Pool<T> {
    fn start_pooling(&mut self, pos: usize) -> Result<PoolingState<T>, Error> {
        match self.positions.find(pos as u64) {
            Some(None) => return Ok(PoolingState::Pending),
            Some(Some(index)) => {
                return Ok(PoolingState::Finished(self.finished[index].clone()?));
            }
            None => {}
        }
        if !self.positions.start(pos as u64) {
            return Err(Error::OutOfMemory);
        }
        Ok(PoolingState::Started)
    }

    fn finish_pooling(&mut self, pos: usize, value: T) -> Result<(), Error> {
        let index = self.finished.len();
        self.finished.push(value)?;
        let finished = self.positions.finish(pos as u64, index);
        if finished.is_err() {
            self.finished.pop();
        }
        finished
    }
}

/// Keeps nothing: a shared value is read back at each pointer. As in rkyv 0.8.18.
#[derive(Drop, Debug)]
pub struct Unpool;

impl Entries for Unpool {
    ghost entry_of = { λ _ _. None };

    ghost keeps = { false };

    ghost keeps_nothing = { λ _ _ _. refl };
}

impl<T: Pooled> Pooling<T> for Unpool {
    fn start_pooling(&mut self, _pos: usize) -> Result<PoolingState<T>, Error>
        ensures answer { IfOk result (IsPoolAnswer T.kept
            (⟦<Self as Entries>⟧.entry_of self.old _pos)) }
        ensures after { ⟦<Self as Entries>⟧.keeps ≡ true
            → OnOk result (PutAt ⟦<Self as Entries>⟧ self _pos
            (pooled (⟦<Self as Entries>⟧.entry_of self.old _pos))) }
        ensures unchanged { OnErr result (IsSame (⟦<Self as Entries>⟧.entry_of self.old)
            (⟦<Self as Entries>⟧.entry_of self.new)) }
        ensures refused { IfErr result (λ e. e ≡ OutOfMemory) }
        ensures succeeds { IsOk result }
    {
        Ok(PoolingState::Started)
    }

    fn finish_pooling(&mut self, _pos: usize, _value: T) -> Result<(), Error>
        ensures answer { ⟦<Self as Entries>⟧.keeps ≡ true
            → IsFinishAnswer (⟦<Self as Entries>⟧.entry_of self.old _pos) result }
        ensures after { ⟦<Self as Entries>⟧.keeps ≡ true
            → OnOk result (PutAt ⟦<Self as Entries>⟧ self _pos (Some (Some (T.kept _value)))) }
        ensures unchanged { OnErr result (IsSame (⟦<Self as Entries>⟧.entry_of self.old)
            (⟦<Self as Entries>⟧.entry_of self.new)) }
        ensures refused { ⟦<Self as Entries>⟧.keeps ≡ false → IfErr result (λ e. e ≡ OutOfMemory) }
        ensures succeeds { IsOk result }
    {
        Ok(())
    }
}
