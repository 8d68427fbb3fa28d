// Vectors of values that are copied.

ghost use Rattle.std.specs.Prelude.{◌≡◌, ◌<◌, ◌≤◌, IfOk, OnOk, IfErr, IsOk, IsErrOf, IsTrue, length};
ghost use Rattle.archive_check.specs.Shape.{vec as vec_shape};
ghost use Rattle.archive_check.specs.declared.format.error.Error.TheVariants.{LengthTooLarge};
ghost use Rattle.archive_types.specs.Copies.{each_bytes, copies_from, AreCopiesRefused, TakesCopy, copies_to};
ghost use Rattle.archive_write.specs.Written.{GoesOn};
ghost use Rattle.archive_types.specs.Words.BulkCopies.{AddedAligned};
ghost use Rattle.archive_types.specs.Words.WrittenPointers.{AtOnce};
ghost use Rattle.archive_types.specs.Runs.{each_keys, each_meaning};
ghost use Rattle.archive_types.specs.Writing.{vec_flat};
ghost use Rattle.archive_check.specs.Value.{list};
ghost use Rattle.archive_types.specs.Plans.{Serialized};

use super::{ArchivedVec, VecResolver};
use crate::owner_pointers::position_of;
use crate::slice::copy_slice;
use crate::traits::{Archive, CopiedSource, Keys, Portable};
use archive_check::format::error::Error;
use archive_write::ser::Writer;

impl<T: Portable> ArchivedVec<T> {
    /// Writes the elements, which are copied, as one region: zeros up to their alignment, and then
    /// the bytes of each. It takes no memory but the writer's. So does `serialize_from_slice`, if
    /// the elements' type is on in bulk.
    ///
    /// Errors:
    /// - `LengthTooLarge`: exactly if there are more than 4,294,967,295 elements; nothing is
    ///   written.
    /// - `PositionTooLarge`: only if they would lie above 4,294,967,295.
    /// - those of `copy_slice`.
    #[tactic(auto, using(crate::proofs::Planning::Owners::serialized_vec, crate::proofs::Planning::Causes::goes_nowhere, crate::proofs::Copying::Copies::copies_refused, crate::proofs::Copying::Copies::long_copies_refused, crate::proofs::Copying::Copies::far_copies_refused))]
    #[inline(always)]
    pub fn serialize_from_copied<U: CopiedSource + Archive<Archived = T>, S: Writer + Keys>(
        value: &[U],
        serializer: &mut S,
    ) -> Result<VecResolver, Error>
        ensures serialized { IfOk result
            (λ r. Serialized T.definitions (vec_shape T.shape) (each_keys U.keys value.now)
            (list (each_meaning U.meaning value.now)) (vec_flat T.shape (length value.now) r)
            (S.state serializer.old) (S.state serializer.new)) }
        ensures copied { OnOk result (AddedAligned T.layout (each_bytes U.copied_bytes value.now)
            S.Keys serializer) }
        ensures position { IfOk result (λ r. r ≡ copies_from T.layout (S.position serializer.old)) }
        ensures held { OnOk result (length value.now ≤ 4294967295) }
        ensures goes_on { GoesOn (S.state serializer.old) (S.state serializer.new) }
        ensures refused { IfErr result (AreCopiesRefused T.layout (length value.now)
            (S.position serializer.old) (S.state serializer.old) (S.state serializer.new)) }
        ensures too_long { 4294967295 < length value.now
            → AtOnce result LengthTooLarge S.Keys serializer }
        ensures memory { IsErrOf result Error.OutOfMemory → IsTrue S.takes_memory }
        ensures succeeds { TakesCopy (IsTrue S.takes_memory)
            (copies_to T.layout (length value.now) (S.position serializer.old))
            (S.state serializer.old) (S.state serializer.new) → length value.now ≤ 4294967295
            → copies_from T.layout (S.position serializer.old) ≤ 4294967295 → IsOk result }
    {
        if value.len() > u32::MAX as usize {
            return Err(Error::LengthTooLarge);
        }
        let pos = copy_slice(value, serializer)?;
        let pos = position_of(pos)?;
        Ok(VecResolver::from_pos(pos as usize))
    }
}
