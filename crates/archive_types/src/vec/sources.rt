// Vectors as sources: their elements as one region, and the pointer to it.

ghost use Rattle.std.specs.Prelude.{◌≡◌, ◌<◌, ◌≤◌, ℕ, IfOk, OnOk, IfErr, IsErrOf, FitsSigned, length, true, refl, None};
ghost use Rattle.std.specs.Int.{w32};
ghost use Rattle.archive_check.specs.Shape.{vec as vec_shape, run};
ghost use Rattle.archive_check.specs.Value.{list, hole};
ghost use Rattle.archive_check.specs.declared.format.error.Error.TheVariants.{LengthTooLarge};
ghost use Rattle.archive_types.specs.Causes.{HindersAt, IsRefused};
ghost use Rattle.archive_types.specs.Members.Keyed.{each_keyed};
ghost use Rattle.archive_num.specs.Offsets.{distance, IsTooFar};
ghost use Rattle.archive_num.specs.OwnerBytes.{owner_bytes};
ghost use Rattle.archive_types.specs.Words.BulkCopies.{OwnerWritesInBulk};
ghost use Rattle.archive_types.specs.Words.WrittenPointers.{IsTooFarFrom, PointsTo, AtOnce};
ghost use Rattle.archive_types.specs.Members.PlannedOwners.{one_planned, vec_planned, slice_planned};
ghost use Rattle.archive_types.specs.Plans.{Serialized};
ghost use Rattle.archive_types.specs.Runs.{each_keys, each_meaning};
ghost use Rattle.archive_types.specs.Writing.{ZeroedPlace, Resolves, to_pointee, vec_flat};
ghost use Rattle.archive_write.specs.Written.{GoesOn};
ghost use Rattle.archive_types.specs.Outcomes.{ResolvesAs, SerializesAs};
ghost use Rattle.archive_types.specs.SourceOutcomes.{Serializes};

use super::ArchivedVec;
use crate::owner_pointers::position_of;
use crate::place::Place;
use crate::ser::serialize_one;
use crate::slice::serialize_slice;
use crate::traits::{
    Archive, ArchiveUnsized, CopyOptimization, Keys, Portable, Serialize, SerializeUnsized,
};
use archive_check::format::error::Error;
use archive_num::FixedUsize;
use archive_num::owners::emplace_long_owner;
use archive_write::ser::{ResolverAlloc, Writer};
use std::marker::Model;

/// Where a vector's elements were written, in bytes from the first one. In a contract it is that position. As in rkyv 0.8.18.
#[derive(Clone, Copy, Debug)]
pub struct VecResolver {
    pos: u32,
}

impl Model for VecResolver {
    ghost Value = { ℕ };

    ghost view = { λ r. r.pos };

    ghost inverse = { λ n. record { pos = n } };
}

impl VecResolver {
    /// The resolver of a vector whose elements lie at `pos`, in bytes from the first one. The
    /// caller must ensure that it fits 32 bits. As in rkyv 0.8.18, where it may be any.
    #[inline(always)]
    pub fn from_pos(pos: usize) -> VecResolver
        requires { pos ≤ 4294967295 }
        ensures { result ≡ pos }
    {
        VecResolver { pos: pos as u32 }
    }
}

impl<T: Portable> ArchivedVec<T> {
    /// Writes what each element owns, in order, and then all elements as one region. rkyv 0.8.18
    /// truncates the length.
    ///
    /// Errors:
    /// - `LengthTooLarge`: exactly if there are more than 4,294,967,295 elements; nothing is
    ///   written.
    /// - `PositionTooLarge`: they lie above 4,294,967,295.
    /// - `LayoutTooLarge`: their region would end above `usize::MAX`.
    /// - `OutOfMemory`: memory for their resolvers is refused.
    /// - those of the elements and the writer.
    #[tactic(auto, using(crate::proofs::Planning::Owners::serialized_vec, crate::proofs::Planning::Owners::vec_refused, crate::proofs::Planning::Owners::far_vec_refused))]
    #[inline(always)]
    pub fn serialize_from_slice<U: Serialize<S, Archived = T>, S: Writer + ResolverAlloc>(
        value: &[U],
        serializer: &mut S,
    ) -> Result<VecResolver, Error>
        ensures outcome { SerializesAs ⟦<Self as Portable>⟧ (each_keys U.keys value.now)
            (list (each_meaning U.meaning value.now)) (vec_flat T.shape (length value.now))
            (λ _. length value.now ≤ 4294967295) S.Keys serializer result }
        ensures too_long { 4294967295 < length value.now
            → AtOnce result LengthTooLarge S.Keys serializer }
        ensures in_bulk { OwnerWritesInBulk U.in_bulk T.layout value.now (S.position serializer.old)
            (S.state serializer.old) (S.state serializer.new) S.takes_memory result }
    {
        let pos = serialize_slice(value, serializer)?;
        let pos = position_of(pos)?;
        Ok(VecResolver { pos })
    }

    /// Writes the vector's bytes over those of `place`, of `len` elements. The caller must ensure
    /// that these are eight, and that `len` is at most 4,294,967,295; `resolver` should be that of
    /// `len` elements. Fails with `IsizeOverflow` or `OffsetOverflow` exactly if the offset to the
    /// elements doesn't fit; they are then unchanged. rkyv 0.8.18 panics there.
    #[tactic(auto, using(crate::proofs::Writing::OwnersWritten::resolves_vec, crate::proofs::Writing::OwnersWritten::vec_hindered_at))]
    #[inline(always)]
    pub fn resolve_from_len(
        len: usize,
        resolver: VecResolver,
        place: Place<'_, ArchivedVec<T>>,
    ) -> Result<(), Error>
        requires sized { length place.bytes.now ≡ 8 }
        requires held { len ≤ 4294967295 }
        ensures outcome { ResolvesAs ⟦<Self as Portable>⟧ place (vec_flat T.shape len resolver)
            result }
        ensures written { OnOk result (PointsTo place true resolver len) }
        ensures fits { OnOk result (FitsSigned w32 (distance place.entry.pos resolver)) }
        ensures cause { IfErr result (IsTooFarFrom place resolver) }
    {
        let Place { bytes, pos, .. } = place;
        emplace_long_owner(resolver.pos as usize, len as FixedUsize, pos, bytes)
    }

    /// The same for the elements of `value`, of which there may be 4,294,967,295 at most.
    #[inline(always)]
    pub fn resolve_from_slice<U: Archive<Archived = T>>(
        value: &[U],
        resolver: VecResolver,
        place: Place<'_, ArchivedVec<T>>,
    ) -> Result<(), Error>
        requires sized { length place.bytes.now ≡ 8 }
        requires held { length value.now ≤ 4294967295 }
        ensures outcome { ResolvesAs ⟦<Self as Portable>⟧ place
            (vec_flat T.shape (length value.now) resolver) result }
        ensures written { OnOk result (PointsTo place true resolver (length value.now)) }
        ensures fits { OnOk result (FitsSigned w32 (distance place.entry.pos resolver)) }
        ensures cause { IfErr result (IsTooFarFrom place resolver) }
    {
        let Place { bytes, pos, .. } = place;
        Self::resolve_from_len(value.len(), resolver, Place::new(pos, bytes))
    }
}

impl<T: Archive> Archive for Vec<T> {
    type Archived = ArchivedVec<T::Archived>;

    type Resolver = VecResolver;

    ghost meaning = { λ v. list (each_meaning T.meaning v.items) };

    ghost flat = { λ v r. hole (to_pointee r (run T.Archived.shape) (length v.items)) };

    ghost keys = { λ v. each_keys T.keys v.items };

    ghost belongs = { λ v _. length v.items ≤ 4294967295 };

    ghost in_bulk = { None };

    ghost keyed = { λ v. each_keyed T.keys T.meaning T.keyed v.items };

    ghost planned = { λ v. vec_planned T.Archived.definitions T.Archived.shape (length v.items)
        (each_keys T.keys v.items) (list (each_meaning T.meaning v.items))
        (slice_planned T.Archived.definitions T.Archived.shape T.keys T.meaning T.planned
        v.items) };

    #[inline(always)]
    fn resolve(
        &self,
        resolver: VecResolver,
        place: Place<'_, ArchivedVec<T::Archived>>,
    ) -> Result<(), Error>
        requires zeroed { ZeroedPlace 8 place.pos place.bytes.now }
        requires same_value { length self.now.items ≤ 4294967295 }
        ensures outcome { ResolvesAs ⟦<Self::Archived as Portable>⟧ place
            (⟦<Self as Archive>⟧.flat self.now resolver) result }
        ensures written { OnOk result (PointsTo place true resolver (length self.now.items)) }
        ensures cause { IfErr result (λ e. IsTooFar e (distance place.entry.pos resolver)) }
    {
        let Place { bytes, pos, .. } = place;
        ArchivedVec::<T::Archived>::resolve_from_len(self.len(), resolver, Place::new(pos, bytes))
    }

    #[inline(always)]
    fn copy_optimization() -> CopyOptimization<Self> {
        CopyOptimization::disable()
    }

    #[inline(always)]
    fn serialize_copied<S: Writer + Keys>(
        _values: &[Self],
        _together: usize,
        _serializer: &mut S,
    ) -> Result<Option<usize>, Error> {
        Ok(None)
    }
}

impl<S: Writer + ResolverAlloc, T: Serialize<S>> Serialize<S> for Vec<T> {
    /// Writes the elements, as `ArchivedVec::serialize_from_slice` does, with its errors.
    #[inline(always)]
    fn serialize(&self, serializer: &mut S) -> Result<VecResolver, Error>
        ensures outcome { Serializes ⟦<Self as Archive>⟧ ⟦<Self::Archived as Portable>⟧ self.now
            S.Keys serializer result }
        ensures too_long { 4294967295 < length self.now.items
            → AtOnce result LengthTooLarge S.Keys serializer }
        ensures in_bulk { OwnerWritesInBulk T.in_bulk T.Archived.layout self.now.items
            (S.position serializer.old) (S.state serializer.old) (S.state serializer.new)
            S.takes_memory result }
    {
        ArchivedVec::<T::Archived>::serialize_from_slice(self.as_slice(), serializer)
    }
}

/// As a region of its own: the vector itself, not its elements.
impl<T: Archive> ArchiveUnsized for Vec<T> {
    type Archived = ArchivedVec<T::Archived>;

    ghost source_length = { λ _. 0 };

    ghost meaning = { λ v. list (each_meaning T.meaning v.items) };

    ghost keys = { λ v. each_keys T.keys v.items };

    ghost keyed = { λ v. each_keyed T.keys T.meaning T.keyed v.items };

    ghost one_length = { λ _ _. refl };

    ghost planned = { λ v. one_planned T.Archived.definitions (vec_shape T.Archived.shape)
        (each_keys T.keys v.items) (list (each_meaning T.meaning v.items))
        (vec_planned T.Archived.definitions T.Archived.shape (length v.items)
        (each_keys T.keys v.items) (list (each_meaning T.meaning v.items))
        (slice_planned T.Archived.definitions T.Archived.shape T.keys T.meaning T.planned
        v.items)) };

    #[inline(always)]
    fn archived_metadata(&self) -> Result<(), Error> {
        Ok(())
    }
}

impl<S: Writer + ResolverAlloc, T: Serialize<S>> SerializeUnsized<S> for Vec<T> {
    #[inline(always)]
    fn serialize_unsized(&self, serializer: &mut S) -> Result<usize, Error> {
        serialize_one(self, serializer)
    }
}
