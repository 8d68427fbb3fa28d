//! Shared values: each is written once, and its key returns where.

ghost use Rattle.std.specs.Prelude.{◌≡◌, ◌⊎◌, None, Option, Some, ℕ, IfOk, IfErr, OnErr};
ghost use Rattle.archive_check.specs.WriterState.{KeepsBytes, KeepsKeys};
ghost use Rattle.archive_types.specs.Causes.{IsSharedRefused};
ghost use Rattle.archive_types.specs.Plans.{SerializedShared};
ghost use Rattle.archive_write.specs.Sharing.{known_answer};
ghost use Rattle.archive_write.specs.Written.{GoesOn};

use crate::ser::by_words;
use crate::traits::SerializeUnsized;
use archive_check::format::error::Error;
use archive_write::ser::Writer;
pub use archive_write::sharing::{Share, Sharing, SharingState};

/// What everything that writes and keeps shared keys can do besides. As in rkyv 0.8.18, with a key in place of an address.
pub trait SharingExt: Sharing + Writer {
    /// Writes `value` if `key` is unknown, finishes the key and returns the position in bytes; of a
    /// finished key returns the kept position, whatever `value` is. A key should name one value;
    /// nothing tests it.
    ///
    /// Errors, never `NotStarted` or `AlreadyFinished`:
    /// - `CyclicSerialize`: the key is pending, so its value contains itself; nothing changes.
    /// - `OutOfMemory`: memory is refused.
    /// - those of the value and the writer; the key is then unknown or pending.
    #[tactic(auto, using(crate::proofs::Planning::Causes::goes_nowhere))]
    #[inline(always)]
    final fn serialize_shared<T: SerializeUnsized<Self>>(
        &mut self,
        key: u64,
        value: &T,
    ) -> Result<usize, Error>
    where
        Self: Sized,
        ensures known { (s : Option ℕ) → (Self.state self.old).states key ≡ Some s → result
            ≡ known_answer s }
        ensures unchanged { (s : Option ℕ) → (Self.state self.old).states key ≡ Some s
            → KeepsBytes (Self.state self.old) (Self.state self.new)
            × KeepsKeys (Self.state self.old).states (Self.state self.new).states }
        ensures serialized { (Self.state self.old).states key ≡ None
            → IfOk result (λ p. SerializedShared T.Archived.definitions T.Archived.pointee
            (T.source_length value.now) key (T.keys value.now) (T.meaning value.now) p
            (Self.state self.old) (Self.state self.new)) }
        ensures goes_on { GoesOn (Self.state self.old) (Self.state self.new) }
        ensures refused { (Self.state self.old).states key ≡ None
            → IfErr result (IsSharedRefused T.Archived.definitions T.Archived.pointee
            (T.source_length value.now) key (T.keys value.now) (T.meaning value.now)
            (Self.state self.old) (Self.state self.new)) }
        ensures finished { IfOk result (λ p. (Self.state self.new).states key ≡ Some (Some p)) }
        ensures unfinished { OnErr result (((Self.state self.new).states key ≡ None)
            ⊎ ((Self.state self.new).states key ≡ Some None)) }
    {
        match self.start_sharing(key)? {
            SharingState::Started => {
                let pos = match value.serialize_unsized(self) {
                    Ok(pos) => pos,
                    Err(error) => return Err(by_words(error)),
                };
                self.finish_sharing(key, pos)?;
                Ok(pos)
            }
            SharingState::Pending => Err(Error::CyclicSerialize),
            SharingState::Finished(pos) => Ok(pos),
        }
    }
}

impl<S: Sharing + Writer> SharingExt for S {}
