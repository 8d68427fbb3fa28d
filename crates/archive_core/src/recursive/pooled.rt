// What a shared pointer leads to is read back by the recursive type's own function, between the start of its position in a pool and the end of it.

ghost use Rattle.std.specs.Prelude.{◌≡◌, IfOk, IfErr, IfSome, IfNone};
ghost use Rattle.archive_check.specs.Readable.{target_from};
ghost use Rattle.archive_check.specs.Reads.{length_at};
ghost use Rattle.archive_core.specs.recursive.PooledParts.{Awaits, IsNotPooled, IsPooled, ReadsPointer};
ghost use Rattle.archive_types.specs.Words.Seen.{IsPartOf, RefusesPart};
ghost use Rattle.archive_types.specs.Words.SharedPointers.{flavor_of_type};

use crate::pooling::{Pooled, Pooling, PoolingState};
use archive_check::format::error::Error;
use archive_types::rc::{ArchivedRc, Flavor};
use archive_types::traits::{ArchivePointee, Portable};
use archive_types::view::{RawView, Ref};
use std::alloc::Global;

/// What a shared pointer leads to.
#[inline(always)]
pub fn part_behind<'a, X: Portable, F: Flavor>(part: RawView<'a>) -> RawView<'a>
    requires { IsPartOf ⟦<ArchivedRc<X, F> as ArchivePointee>⟧ part }
    ensures buffer { result.bytes.now ≡ part.entry.bytes.now }
    ensures position { result.pos ≡ target_from part.entry.bytes.now part.entry.pos part.entry.pos }
    ensures length { result.len ≡ length_at part.entry.bytes.now part.entry.pos X.pointee }
    ensures viewed { IsPartOf X.ArchivePointee result }
{
    let view: Ref<'_, ArchivedRc<X, F>> = Ref::at(part);
    view.get().part()
}

/// The shared value of a pointer, if the pool has it; none if its position was unknown: then the
/// caller reads back what the pointer leads to, and calls `finish_reading`.
///
/// Errors:
/// - `CyclicDeserialize`: the position is pending.
/// - `OutOfMemory`: memory is refused.
pub fn begin_reading<X: Portable, F: Flavor, T: Pooled<Archived = X>, D: Pooling<T>>(
    part: RawView<'_>,
    deserializer: &mut D,
) -> Result<Option<T>, Error>
    requires { IsPartOf ⟦<ArchivedRc<X, F> as ArchivePointee>⟧ part }
    ensures known { IfOk result (λ r. IfSome r (λ s. ReadsPointer D.keeps X.definitions
        part.entry.bytes.now part.entry.pos part.entry.len (flavor_of_type F.Flavor) X.pointee
        (T.kept s) (D.entry_of deserializer.old) (D.entry_of deserializer.new))) }
    ensures begun { IfOk result (λ r. IfNone r (Awaits D.keeps
        (target_from part.entry.bytes.now part.entry.pos part.entry.pos)
        (D.entry_of deserializer.old) (D.entry_of deserializer.new))) }
    ensures refused { IfErr result (RefusesPart ⟦<ArchivedRc<X, F> as ArchivePointee>⟧ part
        D.Entries deserializer) }
{
    let pos = part_behind::<X, F>(part).pos;
    match deserializer.start_pooling(pos)? {
        PoolingState::Pending => Err(Error::CyclicDeserialize),
        PoolingState::Finished(value) => Ok(Some(value)),
        PoolingState::Started => Ok(None),
    }
}

/// The shared value of a pointer, of what was read back since its position was started: the pool
/// has it from now on. Fails with `OutOfMemory` if memory is refused, and with `NotStarted` or
/// `AlreadyFinished` if the position isn't pending.
pub fn finish_reading<X: Portable, F: Flavor, T: Pooled<Archived = X>, D: Pooling<T>>(
    alloc: Global,
    part: RawView<'_>,
    value: T::Value,
    deserializer: &mut D,
) -> Result<T, Error>
    requires { IsPartOf ⟦<ArchivedRc<X, F> as ArchivePointee>⟧ part }
    ensures read { IfOk result (λ s. IsPooled D.keeps X.definitions part.entry.bytes.now
        part.entry.pos part.entry.len (flavor_of_type F.Flavor) X.pointee (T.Value.meaning value)
        (T.Value.keys value) (T.kept s) (D.entry_of deserializer.old)
        (D.entry_of deserializer.new)) }
    ensures refused { IfErr result (IsNotPooled D.keeps X.definitions part.entry.bytes.now
        part.entry.pos part.entry.len (flavor_of_type F.Flavor) X.pointee (T.Value.meaning value)
        (T.Value.keys value) (D.entry_of deserializer.old)) }
{
    let pos = part_behind::<X, F>(part).pos;
    let shared = T::from_value(alloc, pos, value)?;
    let kept = shared.clone()?;
    deserializer.finish_pooling(pos, kept)?;
    Ok(shared)
}
