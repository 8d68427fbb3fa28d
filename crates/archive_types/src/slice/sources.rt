// Borrowed slices as sources: what each element owns, and then all elements as one region.

ghost use Rattle.std.specs.Prelude.{◌≡◌, ◌<◌, ◌≤◌, IfOk, OnOk, IfErr, IsErrOf, length};
ghost use Rattle.archive_check.specs.Shape.{array, one, run};
ghost use Rattle.archive_check.specs.Value.{list};
ghost use Rattle.archive_check.specs.declared.format.error.Error.TheVariants.{LengthTooLarge};
ghost use Rattle.archive_types.specs.Causes.{IsRegionRefused};
ghost use Rattle.archive_types.specs.Members.Keyed.{each_keyed};
ghost use Rattle.archive_types.specs.Words.BulkCopies.{SliceWritesInBulk};
ghost use Rattle.archive_types.specs.Words.WrittenPointers.{AtOnce};
ghost use Rattle.archive_types.specs.Members.PlannedOwners.{is_long, slice_planned};
ghost use Rattle.archive_types.specs.Plans.{SerializedRegion};
ghost use Rattle.archive_types.specs.Runs.{each_keys, each_meaning, each_flat, EachBelongs, SerializedRun, IsRunRefused};
ghost use Rattle.archive_write.specs.Written.{GoesOn};
ghost use Rattle.archive_types.specs.Outcomes.{WritesRegion, WritesElements};
ghost use Rattle.archive_types.specs.SourceOutcomes.{WritesUnsized};

use super::ArchivedSlice;
use crate::primitive::ArchivedUsize;
use crate::ser::{ResolveExt, by_words};
use crate::traits::{Archive, ArchivePointee, ArchiveUnsized, Serialize, SerializeUnsized};
use archive_check::format::error::Error;
use archive_write::ser::{ResolverAlloc, Writer, WriterExt};
use std::alloc::Allocator;

/// A borrowed slice, as a source. In its place rkyv 0.8.18 has a slice.
#[derive(Drop)]
pub struct Slice<'a, T> {
    /// The slice.
    pub slice: &'a [T],
}

// Writes what each of the values owns, in order, and answers their resolvers, in memory from `alloc`.
#[tactic(auto, using(crate::proofs::Planning::Runs::continues_start, crate::proofs::Planning::Runs::continues_step, crate::proofs::Planning::Runs::continues_end, crate::proofs::Planning::Runs::belongs_end))]
#[inline(always)]
pub(crate) fn serialize_each<A: Allocator + Drop, S: Writer, T: Serialize<S>>(
    alloc: A,
    values: &[T],
    serializer: &mut S,
) -> Result<Vec<T::Resolver, A>, Error>
    ensures serialized { IfOk result
        (λ rs. SerializedRun T.Archived.definitions T.Archived.shape (length values.now)
        (each_keys T.keys values.now) (each_meaning T.meaning values.now)
        (each_flat T.flat values.now rs.items) (S.state serializer.old)
        (S.state serializer.new)) }
    ensures same_values { IfOk result (λ rs. EachBelongs T.belongs values.now rs.items) }
    ensures goes_on { GoesOn (S.state serializer.old) (S.state serializer.new) }
    ensures refused { IfErr result
        (IsRunRefused T.Archived.definitions T.Archived.shape (length values.now)
        (each_keys T.keys values.now) (each_meaning T.meaning values.now)
        (S.state serializer.old) (S.state serializer.new)) }
{
    let mut resolvers = Vec::with_capacity(alloc, values.len())?;
    for value in values {
        let resolver = match value.serialize(serializer) {
            Ok(resolver) => resolver,
            Err(error) => return Err(by_words(error)),
        };
        resolvers.push_reserved(resolver);
    }
    Ok(resolvers)
}

// Writes what each of the values owns and then all of them as a region of its own, and answers the region's position. The region is that of an array of
// them, too. It isn't `inline(always)`: within what is copied in bulk it never runs, but would count for the limit above which the build drops that mark.
#[inline]
pub(crate) fn serialize_in_turn<S: Writer + ResolverAlloc, T: Serialize<S>>(
    values: &[T],
    serializer: &mut S,
) -> Result<usize, Error>
    ensures outcome { WritesElements T.keys T.meaning T.Archived.Portable values.now S.Keys
        serializer result }
    ensures as_array { WritesRegion T.Archived.definitions
        (one (array (length values.now) T.Archived.shape)) 0 (each_keys T.keys values.now)
        (list (each_meaning T.meaning values.now)) (S.state serializer.old) (S.state serializer.new)
        result }
{
    let alloc = serializer.resolver_alloc();
    let resolvers = serialize_each(alloc, values, serializer)?;
    serializer.align_for_run::<T::Archived>(values.len())?;
    serializer.resolve_slice_aligned(alloc, values, resolvers)
}

// The same in bulk, if the type is copied so. Fails with `LengthTooLarge`, before anything is written, exactly if there are more than
// 4,294,967,295 values.
#[inline(always)]
pub(crate) fn serialize_slice<S: Writer + ResolverAlloc, T: Serialize<S>>(
    values: &[T],
    serializer: &mut S,
) -> Result<usize, Error>
    ensures outcome { WritesElements T.keys T.meaning T.Archived.Portable values.now S.Keys
        serializer result }
    ensures held { OnOk result (length values.now ≤ 4294967295) }
    ensures too_long { 4294967295 < length values.now
        → AtOnce result LengthTooLarge S.Keys serializer }
    ensures in_bulk { SliceWritesInBulk T.in_bulk T.Archived.layout values.now
        (S.position serializer.old) (S.state serializer.old) (S.state serializer.new) S.takes_memory
        result }
{
    if values.len() > u32::MAX as usize {
        return Err(Error::LengthTooLarge);
    }
    let copied = T::serialize_copied(values, 1, serializer)?;
    let Some(pos) = copied else {
        return serialize_in_turn(values, serializer);
    };
    Ok(pos)
}

impl<'a, T: Archive> ArchiveUnsized for Slice<'a, T> {
    type Archived = ArchivedSlice<T::Archived>;

    ghost source_length = { λ s. length s.slice.now };

    ghost meaning = { λ s. list (each_meaning T.meaning s.slice.now) };

    ghost keys = { λ s. each_keys T.keys s.slice.now };

    ghost keyed = { λ s. each_keyed T.keys T.meaning T.keyed s.slice.now };

    ghost one_length = { λ s e. is_long e };

    ghost planned = { λ s. slice_planned T.Archived.definitions T.Archived.shape T.keys T.meaning
        T.planned s.slice.now };

    #[inline(always)]
    fn archived_metadata(&self) -> Result<ArchivedUsize, Error> {
        let Ok(len) = u32::try_from(self.slice.len()) else {
            return Err(Error::LengthTooLarge);
        };
        Ok(ArchivedUsize::from_native(len))
    }
}

impl<'a, S: Writer + ResolverAlloc, T: Serialize<S>> SerializeUnsized<S> for Slice<'a, T> {
    /// Writes what each element owns, in order, zeros up to the elements' alignment, and then all
    /// elements. The resolvers of all are kept meanwhile, in memory from the serializer's
    /// allocator. Fails with `LengthTooLarge` before anything is written, exactly if there are more
    /// than 4,294,967,295 elements, with `LayoutTooLarge` if the region would end above
    /// `usize::MAX`, as the elements do, and as the trait says it.
    #[inline(always)]
    fn serialize_unsized(&self, serializer: &mut S) -> Result<usize, Error>
        ensures outcome { WritesUnsized ⟦<Self as ArchiveUnsized>⟧
            ⟦<Self::Archived as ArchivePointee>⟧ self.now S.Keys serializer result }
        ensures held { OnOk result (length self.now.slice.now ≤ 4294967295) }
        ensures too_long { 4294967295 < length self.now.slice.now
            → AtOnce result LengthTooLarge S.Keys serializer }
        ensures in_bulk { SliceWritesInBulk T.in_bulk T.Archived.layout self.now.slice.now
            (S.position serializer.old) (S.state serializer.old) (S.state serializer.new)
            S.takes_memory result }
    {
        serialize_slice(self.slice, serializer)
    }
}
