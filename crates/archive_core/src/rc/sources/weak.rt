// Weak pointers as sources: to a shared value, or to none.

ghost use Rattle.std.specs.Prelude.{◌≡◌, ⊤, IfOk, OnOk, IfErr, Option, Some, None, length, refl};
ghost use Rattle.archive_check.specs.Layout.{pointer_size};
ghost use Rattle.archive_check.specs.Shape.{weak};
ghost use Rattle.archive_check.specs.Value.{shared_value};
ghost use Rattle.archive_types.specs.Causes.{HindersAt, IsRefused};
ghost use Rattle.archive_types.specs.Members.PlannedOwners.{one_planned};
ghost use Rattle.archive_types.specs.Plans.{Serialized};
ghost use Rattle.archive_types.specs.Members.Options.{option_keys};
ghost use Rattle.archive_types.specs.Members.SharedLaws.{weak_value, weak_flat, weak_keyed, weak_planned};
ghost use Rattle.archive_types.specs.Members.SharedSources.{rc_flavor, rc_keys, rc_keyed, rc_one_planned};
ghost use Rattle.archive_types.specs.Writing.{ZeroedPlace, Resolves};
ghost use Rattle.archive_write.specs.Written.{GoesOn};
ghost use Rattle.archive_types.specs.Outcomes.{ResolvesAs};

use super::Shared;
use archive_check::format::error::Error;
use archive_types::place::Place;
use archive_types::rc::{ArchivedRcWeak, RcFlavor, RcWeakResolver, write_null, write_pointer};
use archive_types::ser::{ResolverAlloc, Writer, serialize_one};
use archive_types::sharing::Sharing;
use archive_types::traits::{
    Archive, ArchiveUnsized, CopyOptimization, Keys, Portable, Serialize, SerializeUnsized,
};

/// A weak pointer in an archive: to a shared value, or null. In memory it keeps the value. In rkyv
/// 0.8.18 it is an `rc::Weak`, which is null once its value is gone.
#[derive(Debug, PartialEq, Drop)]
pub struct WeakShared<T> {
    /// The value, or `None` for a null.
    pub value: Option<Shared<T>>,
}

impl<T: Archive> Archive for WeakShared<T> {
    type Archived = ArchivedRcWeak<T::Archived, RcFlavor>;

    type Resolver = RcWeakResolver;

    ghost meaning = { λ w. weak_value (λ s. shared_value s.key) w.value };

    ghost flat = { λ w r. weak_flat rc_flavor T.Archived.pointee 0 r };

    ghost keys = { λ w. option_keys (λ s. rc_keys s.key T.Archived.pointee 0
        (T.meaning s.value.value) (T.keys s.value.value)) w.value };

    ghost belongs = { λ _ _. ⊤ };

    ghost in_bulk = { None };

    ghost keyed = { λ w. weak_keyed (λ s. rc_keys s.key T.Archived.pointee 0
        (T.meaning s.value.value) (T.keys s.value.value)) (λ s. shared_value s.key)
        (λ s. rc_keyed s.key T.Archived.pointee 0 (T.meaning s.value.value) (T.keys s.value.value)
        (T.keyed s.value.value)) w.value };

    ghost planned = { λ w. weak_planned T.Archived.definitions rc_flavor T.Archived.pointee
        (λ s. rc_keys s.key T.Archived.pointee 0 (T.meaning s.value.value) (T.keys s.value.value))
        (λ s. shared_value s.key) (λ s. rc_one_planned T.Archived.definitions s.key
        T.Archived.pointee T.Archived.shape T.Archived.is_one (T.meaning s.value.value)
        (T.keys s.value.value) (T.planned s.value.value)) w.value };

    #[tactic(auto, using(archive_types::proofs::SharedValues::SharedBytes::resolves_weak, archive_types::proofs::SharedValues::SharedBytes::resolves_null, archive_types::proofs::SharedValues::SharedBytes::weak_hindered_at, archive_types::proofs::SharedValues::SharedBytes::null_hindered_at))]
    fn resolve(
        &self,
        resolver: RcWeakResolver,
        place: Place<'_, ArchivedRcWeak<T::Archived, RcFlavor>>,
    ) -> Result<(), Error>
        requires zeroed { ZeroedPlace (pointer_size T.Archived.pointee) place.pos place.bytes.now }
        requires same_value { ⊤ }
        ensures { ResolvesAs ⟦<Self::Archived as Portable>⟧ place
            (⟦<Self as Archive>⟧.flat self.now resolver) result }
    {
        let Place { bytes, pos, .. } = place;
        let Some(resolver) = resolver else {
            return write_null::<T::Archived>(bytes);
        };
        let target = resolver.pos as usize;
        if target.saturating_sub(pos) == 1 {
            return Err(Error::OffsetOverflow);
        }
        write_pointer::<T::Archived>(target, 0, pos, bytes)
    }

    #[inline(always)]
    fn copy_optimization() -> CopyOptimization<Self> {
        CopyOptimization::disable()
    }

    #[inline(always)]
    fn serialize_copied<S: Writer + Keys>(
        _values: &[Self],
        _together: usize,
        _serializer: &mut S,
    ) -> Result<Option<usize>, Error> {
        Ok(None)
    }
}

impl<T: Serialize<S>, S: Sharing + Writer + ResolverAlloc> Serialize<S> for WeakShared<T> {
    /// Writes what it leads to as a shared value, with its errors; where that is none, nothing, and
    /// it doesn't fail.
    #[tactic(auto, using(archive_types::proofs::SharedValues::SharedWritten::weak_serialized, archive_types::proofs::SharedValues::SharedWritten::weak_refused, archive_types::proofs::SharedValues::SharedWritten::null_serialized, archive_types::proofs::Planning::Causes::goes_nowhere))]
    fn serialize(&self, serializer: &mut S) -> Result<RcWeakResolver, Error> {
        let Some(value) = &self.value else {
            return Ok(None);
        };
        match value.serialize(serializer) {
            Ok(resolver) => Ok(Some(resolver)),
            Err(error) => Err(error),
        }
    }
}

/// As a region of its own: the pointer itself, not the value.
impl<T: Archive> ArchiveUnsized for WeakShared<T> {
    type Archived = ArchivedRcWeak<T::Archived, RcFlavor>;

    ghost source_length = { λ _. 0 };

    ghost meaning = { λ w. weak_value (λ s. shared_value s.key) w.value };

    ghost keys = { λ w. option_keys (λ s. rc_keys s.key T.Archived.pointee 0
        (T.meaning s.value.value) (T.keys s.value.value)) w.value };

    ghost keyed = { λ w. weak_keyed (λ s. rc_keys s.key T.Archived.pointee 0
        (T.meaning s.value.value) (T.keys s.value.value)) (λ s. shared_value s.key)
        (λ s. rc_keyed s.key T.Archived.pointee 0 (T.meaning s.value.value) (T.keys s.value.value)
        (T.keyed s.value.value)) w.value };

    ghost one_length = { λ _ _. refl };

    ghost planned = { λ w. one_planned T.Archived.definitions (weak rc_flavor T.Archived.pointee)
        (option_keys (λ s. rc_keys s.key T.Archived.pointee 0 (T.meaning s.value.value)
        (T.keys s.value.value)) w.value) (weak_value (λ s. shared_value s.key) w.value)
        (weak_planned T.Archived.definitions rc_flavor T.Archived.pointee
        (λ s. rc_keys s.key T.Archived.pointee 0 (T.meaning s.value.value) (T.keys s.value.value))
        (λ s. shared_value s.key) (λ s. rc_one_planned T.Archived.definitions s.key
        T.Archived.pointee T.Archived.shape T.Archived.is_one (T.meaning s.value.value)
        (T.keys s.value.value) (T.planned s.value.value)) w.value) };

    fn archived_metadata(&self) -> Result<(), Error> {
        Ok(())
    }
}

impl<T: Serialize<S>, S: Sharing + Writer + ResolverAlloc> SerializeUnsized<S> for WeakShared<T> {
    fn serialize_unsized(&self, serializer: &mut S) -> Result<usize, Error> {
        serialize_one(self, serializer)
    }
}
