// Boxes as sources: what they own as a region, and the pointer to it.

ghost use Rattle.std.specs.Prelude.{◌≡◌, ◌⊎◌, ◌<◌, ◌≤◌, ℕ, ⊤, IfOk, OnOk, OnErr, IfErr, FitsSigned, length, false, refl, None};
ghost use Rattle.std.specs.Int.{w32};
ghost use Rattle.archive_check.specs.Shape.{boxed};
ghost use Rattle.archive_check.specs.Layout.{pointer_size, has_length};
ghost use Rattle.archive_check.specs.Value.{box, hole};
ghost use Rattle.archive_check.specs.declared.format.error.Error.TheVariants.{LengthTooLarge};
ghost use Rattle.archive_types.specs.Causes.{HindersAt, IsRefused};
ghost use Rattle.archive_types.specs.Members.Keyed.{box_keyed};
ghost use Rattle.archive_num.specs.Offsets.{distance, IsTooFar};
ghost use Rattle.archive_num.specs.OwnerBytes.{owner_bytes};
ghost use Rattle.archive_types.specs.Words.WrittenPointers.{IsTooFarFrom, PointsTo};
ghost use Rattle.archive_types.specs.Members.PlannedOwners.{one_planned, boxed_one_planned};
ghost use Rattle.archive_types.specs.Plans.{Serialized};
ghost use Rattle.archive_types.specs.Writing.{ZeroedPlace, Resolves, to_pointee, box_flat};
ghost use Rattle.archive_write.specs.Written.{GoesOn};
ghost use Rattle.archive_types.specs.Outcomes.{ResolvesAs, SerializesAs};

use super::ArchivedBox;
use crate::owner_pointers::position_of;
use crate::place::Place;
use crate::rel_ptr::Metadata;
use crate::ser::serialize_one;
use crate::traits::{
    Archive, ArchiveUnsized, CopyOptimization, Keys, Portable, PortablePointee, Serialize,
    SerializeUnsized,
};
use archive_check::format::error::Error;
use archive_num::FixedUsize;
use archive_num::owners::emplace_pointer;
use archive_write::ser::{ResolverAlloc, Writer};
use std::marker::Model;

/// Where what a box owns was written, in bytes from the first one. In a contract it is that position. As in rkyv 0.8.18.
#[derive(Clone, Copy, Debug)]
pub struct BoxResolver {
    pos: u32,
}

impl Model for BoxResolver {
    ghost Value = { ℕ };

    ghost view = { λ r. r.pos };

    ghost inverse = { λ n. record { pos = n } };
}

impl BoxResolver {
    /// The resolver of a box of what is at `pos`, in bytes from the first one. The caller must
    /// ensure that it fits 32 bits. As in rkyv 0.8.18, where it may be any.
    #[inline(always)]
    pub fn from_pos(pos: usize) -> BoxResolver
        requires { pos ≤ 4294967295 }
        ensures { result ≡ pos }
    {
        BoxResolver { pos: pos as u32 }
    }
}

impl<T: PortablePointee> ArchivedBox<T> {
    /// Writes what `value` owns and then its region, and returns where. Fails with
    /// `PositionTooLarge` if the region lies above 4,294,967,295, and as `serialize_unsized` of
    /// `value` does.
    #[tactic(auto, using(crate::proofs::Planning::Owners::serialized_box, crate::proofs::Planning::Owners::box_refused, crate::proofs::Planning::Owners::far_box_refused))]
    #[inline(always)]
    pub fn serialize_from_ref<S: Writer, U: SerializeUnsized<S, Archived = T>>(
        value: &U,
        serializer: &mut S,
    ) -> Result<BoxResolver, Error>
        ensures { SerializesAs ⟦<Self as Portable>⟧ (U.keys value.now) (box (U.meaning value.now))
            (box_flat T.pointee (U.source_length value.now)) (λ _. ⊤) S.Keys serializer result }
    {
        let pos = value.serialize_unsized(serializer)?;
        let pos = position_of(pos)?;
        Ok(BoxResolver { pos })
    }

    /// Writes the box's bytes over those of `place`, with this length of what it leads to. The
    /// caller must ensure that they have the box's size, and that the length is 0 for one value.
    /// Fails with `IsizeOverflow` or `OffsetOverflow` exactly if the offset doesn't fit; they are
    /// then unchanged. rkyv 0.8.18 takes the pointer's metadata, and panics there.
    #[tactic(auto, using(crate::proofs::Writing::OwnersWritten::resolves_box, crate::proofs::Writing::OwnersWritten::box_hindered_at))]
    #[inline(always)]
    pub fn resolve_from_raw_parts(
        resolver: BoxResolver,
        count: FixedUsize,
        place: Place<'_, ArchivedBox<T>>,
    ) -> Result<(), Error>
        requires sized { length place.bytes.now ≡ pointer_size T.pointee }
        requires plain { has_length T.pointee ≡ false → count ≡ 0 }
        ensures outcome { ResolvesAs ⟦<Self as Portable>⟧ place (box_flat T.pointee count resolver)
            result }
        ensures written { OnOk result (PointsTo place (has_length T.pointee) resolver count) }
        ensures fits { OnOk result (FitsSigned w32 (distance place.entry.pos resolver)) }
        ensures cause { IfErr result (IsTooFarFrom place resolver) }
    {
        let Place { bytes, pos, .. } = place;
        emplace_pointer(T::has_length(), resolver.pos as usize, count, pos, bytes)
    }

    /// The same with the length of `value`. Fails with `LengthTooLarge` exactly if that is above
    /// 4,294,967,295.
    #[inline(always)]
    pub fn resolve_from_ref<U: ArchiveUnsized<Archived = T>>(
        value: &U,
        resolver: BoxResolver,
        place: Place<'_, ArchivedBox<T>>,
    ) -> Result<(), Error>
    where
        T::ArchivedMetadata: Metadata,
        requires sized { length place.bytes.now ≡ pointer_size T.pointee }
        ensures resolved { OnOk result
            (Resolves T.definitions place.entry.pos place.exit.0.now (boxed T.pointee)
            (box_flat T.pointee (U.source_length value.now) resolver)) }
        ensures written { OnOk result (PointsTo place (has_length T.pointee) resolver
            (U.source_length value.now)) }
        ensures unchanged { OnErr result (place.exit.0.now ≡ place.entry.bytes.now) }
        ensures cause { IfErr result (λ e. ((e ≡ LengthTooLarge)
            × (4294967295 < U.source_length value.now))
            ⊎ IsTooFar e (distance place.entry.pos resolver)) }
    {
        let Place { bytes, pos, .. } = place;
        let metadata = value.archived_metadata()?;
        let count = T::pointer_metadata(&metadata) as FixedUsize;
        Self::resolve_from_raw_parts(resolver, count, Place::new(pos, bytes))
    }
}

impl<T: Archive> Archive for Box<T> {
    type Archived = ArchivedBox<T::Archived>;

    type Resolver = BoxResolver;

    ghost meaning = { λ b. box (T.meaning b.value) };

    ghost flat = { λ b r. box (hole (to_pointee r T.Archived.pointee 0)) };

    ghost keys = { λ b. T.keys b.value };

    ghost belongs = { λ _ _. ⊤ };

    ghost in_bulk = { None };

    ghost keyed = { λ b. box_keyed (T.keys b.value) (T.meaning b.value) (T.keyed b.value) };

    ghost planned = { λ b. boxed_one_planned T.Archived.definitions T.Archived.pointee
        T.Archived.shape T.Archived.is_one (T.keys b.value) (T.meaning b.value)
        (T.planned b.value) };

    #[inline(always)]
    fn resolve(
        &self,
        resolver: BoxResolver,
        place: Place<'_, ArchivedBox<T::Archived>>,
    ) -> Result<(), Error>
        requires zeroed { ZeroedPlace (pointer_size T.Archived.pointee) place.pos place.bytes.now }
        requires same_value { ⊤ }
        ensures outcome { ResolvesAs ⟦<Self::Archived as Portable>⟧ place
            (⟦<Self as Archive>⟧.flat self.now resolver) result }
        ensures written { OnOk result (PointsTo place (has_length T.Archived.pointee) resolver 0) }
        ensures cause { IfErr result (λ e. IsTooFar e (distance place.entry.pos resolver)) }
    {
        let Place { bytes, pos, .. } = place;
        ArchivedBox::<T::Archived>::resolve_from_raw_parts(resolver, 0, Place::new(pos, bytes))
    }

    #[inline(always)]
    fn copy_optimization() -> CopyOptimization<Self> {
        CopyOptimization::disable()
    }

    #[inline(always)]
    fn serialize_copied<S: Writer + Keys>(
        _values: &[Self],
        _together: usize,
        _serializer: &mut S,
    ) -> Result<Option<usize>, Error> {
        Ok(None)
    }
}

impl<S: Writer + ResolverAlloc, T: Serialize<S>> Serialize<S> for Box<T> {
    /// Writes what the value owns and then the value as a region of its own. Fails with
    /// `PositionTooLarge` if it lies above 4,294,967,295, with `LayoutTooLarge` if it would end
    /// above `usize::MAX`, as the value does, and as the trait says it.
    #[tactic(auto, using(crate::proofs::Planning::Owners::serialized_boxed_one, crate::proofs::Planning::Owners::boxed_one_refused, crate::proofs::Planning::Owners::far_boxed_one_refused))]
    #[inline(always)]
    fn serialize(&self, serializer: &mut S) -> Result<BoxResolver, Error> {
        let pos = serialize_one(&**self, serializer)?;
        let pos = position_of(pos)?;
        Ok(BoxResolver { pos })
    }
}

/// As a region of its own: the box itself, not what it owns.
impl<T: Archive> ArchiveUnsized for Box<T> {
    type Archived = ArchivedBox<T::Archived>;

    ghost source_length = { λ _. 0 };

    ghost meaning = { λ b. box (T.meaning b.value) };

    ghost keys = { λ b. T.keys b.value };

    ghost keyed = { λ b. box_keyed (T.keys b.value) (T.meaning b.value) (T.keyed b.value) };

    ghost one_length = { λ _ _. refl };

    ghost planned = { λ b. one_planned T.Archived.definitions (boxed T.Archived.pointee)
        (T.keys b.value) (box (T.meaning b.value)) (boxed_one_planned T.Archived.definitions
        T.Archived.pointee T.Archived.shape T.Archived.is_one (T.keys b.value) (T.meaning b.value)
        (T.planned b.value)) };

    #[inline(always)]
    fn archived_metadata(&self) -> Result<(), Error> {
        Ok(())
    }
}

impl<S: Writer + ResolverAlloc, T: Serialize<S>> SerializeUnsized<S> for Box<T> {
    #[inline(always)]
    fn serialize_unsized(&self, serializer: &mut S) -> Result<usize, Error> {
        serialize_one(self, serializer)
    }
}
