// Shared values as sources, with the keys that name them.

ghost use Rattle.std.specs.Prelude.{◌≡◌, ⊤, IfOk, OnOk, IfErr, length, refl, None};
ghost use Rattle.archive_check.specs.Layout.{pointer_size};
ghost use Rattle.archive_check.specs.Shape.{one, shared};
ghost use Rattle.archive_check.specs.Value.{shared_value};
ghost use Rattle.archive_types.specs.Causes.{HindersAt, IsRefused};
ghost use Rattle.archive_types.specs.Members.PlannedOwners.{one_planned};
ghost use Rattle.archive_types.specs.Plans.{Serialized};
ghost use Rattle.archive_types.specs.Members.SharedSources.{rc_flavor, rc_keys, rc_flat, rc_keyed, rc_planned, rc_one_planned};
ghost use Rattle.archive_types.specs.Writing.{ZeroedPlace, Resolves};
ghost use Rattle.archive_write.specs.Written.{GoesOn};
ghost use Rattle.archive_types.specs.Outcomes.{ResolvesAs};

mod long;
mod weak;

use crate::recursive::handed_on;
use archive_check::format::error::Error;
use archive_types::place::Place;
use archive_types::rc::{ArchivedRc, RcFlavor, RcResolver, write_pointer, write_shared};
use archive_types::ser::{ResolverAlloc, Writer, serialize_one};
use archive_types::sharing::Sharing;
use archive_types::traits::{
    Archive, ArchivePointee, ArchiveUnsized, CopyOptimization, Keys, Portable, Serialize,
    SerializeUnsized,
};
pub use long::{SharedSlice, SharedStr};
use std::marker::PhantomData;
use std::rc::Rc;
pub use weak::WeakShared;

/// A shared value, with the key that names it. Pointers with one key should hold the same value: in
/// an archive they lead to that of the first. Read back, it has its position as its key. In rkyv
/// 0.8.18 it is an `Rc<T>`, named by its address.
#[derive(Debug, PartialEq, Drop)]
pub struct Shared<T> {
    /// The key: it should name one value.
    pub key: u64,
    /// The value.
    pub value: Rc<T>,
}

// One archived value, as what a pointer leads to.
struct OneOf<A> {
    of: PhantomData<A>,
}

impl<A: Portable> ArchivePointee for OneOf<A> {
    type ArchivedMetadata = ();

    ghost pointee = { one A.shape };

    ghost definitions = { A.definitions };

    ghost metadata_length = { λ _. 0 };

    fn pointer_metadata(_metadata: &()) -> usize {
        0
    }
}

// A value in a region of its own.
#[derive(Drop)]
struct One<'a, T> {
    value: &'a T,
}

impl<'a, T: Archive> ArchiveUnsized for One<'a, T> {
    type Archived = OneOf<T::Archived>;

    ghost source_length = { λ _. 0 };

    ghost meaning = { λ o. T.meaning o.value.now };

    ghost keys = { λ o. T.keys o.value.now };

    ghost keyed = { λ o. T.keyed o.value.now };

    ghost one_length = { λ _ _. refl };

    ghost planned = { λ o. one_planned T.Archived.definitions T.Archived.shape (T.keys o.value.now)
        (T.meaning o.value.now) (T.planned o.value.now) };

    fn archived_metadata(&self) -> Result<(), Error> {
        Ok(())
    }
}

impl<'a, T: Serialize<S>, S: Writer + ResolverAlloc> SerializeUnsized<S> for One<'a, T> {
    fn serialize_unsized(&self, serializer: &mut S) -> Result<usize, Error> {
        serialize_one(self.value, serializer)
    }
}

impl<T: Archive> Archive for Shared<T> {
    type Archived = ArchivedRc<T::Archived, RcFlavor>;

    type Resolver = RcResolver;

    ghost meaning = { λ s. shared_value s.key };

    ghost flat = { λ s r. rc_flat r T.Archived.pointee 0 };

    ghost keys = { λ s. rc_keys s.key T.Archived.pointee 0 (T.meaning s.value.value)
        (T.keys s.value.value) };

    ghost belongs = { λ _ _. ⊤ };

    ghost in_bulk = { None };

    ghost keyed = { λ s. rc_keyed s.key T.Archived.pointee 0 (T.meaning s.value.value)
        (T.keys s.value.value) (T.keyed s.value.value) };

    ghost planned = { λ s. rc_one_planned T.Archived.definitions s.key T.Archived.pointee
        T.Archived.shape T.Archived.is_one (T.meaning s.value.value) (T.keys s.value.value)
        (T.planned s.value.value) };

    #[tactic(auto, using(archive_types::proofs::SharedValues::SharedBytes::resolves_shared, archive_types::proofs::SharedValues::SharedBytes::shared_hindered_at))]
    fn resolve(
        &self,
        resolver: RcResolver,
        place: Place<'_, ArchivedRc<T::Archived, RcFlavor>>,
    ) -> Result<(), Error>
        requires zeroed { ZeroedPlace (pointer_size T.Archived.pointee) place.pos place.bytes.now }
        requires same_value { ⊤ }
        ensures { ResolvesAs ⟦<Self::Archived as Portable>⟧ place
            (⟦<Self as Archive>⟧.flat self.now resolver) result }
    {
        let Place { bytes, pos, .. } = place;
        write_pointer::<T::Archived>(resolver.pos as usize, 0, pos, bytes)
    }

    #[inline(always)]
    fn copy_optimization() -> CopyOptimization<Self> {
        CopyOptimization::disable()
    }

    #[inline(always)]
    fn serialize_copied<S: Writer + Keys>(
        _values: &[Self],
        _together: usize,
        _serializer: &mut S,
    ) -> Result<Option<usize>, Error> {
        Ok(None)
    }
}

impl<T: Serialize<S>, S: Sharing + Writer + ResolverAlloc> Serialize<S> for Shared<T> {
    /// Writes the value as a region of its own, if its key is unknown, as
    /// `ArchivedRc::serialize_from_ref` does, with its errors.
    #[tactic(auto, using(crate::proofs::SharedOnes::shared_one, crate::proofs::SharedOnes::shared_one_refused, crate::proofs::SharedOnes::far_shared_one_refused))]
    #[inline(always)]
    fn serialize(&self, serializer: &mut S) -> Result<RcResolver, Error> {
        let value = One {
            value: &*self.value,
        };
        let pos = match write_shared::<RcFlavor, One<'_, T>, S>(self.key, &value, serializer) {
            Ok(pos) => pos,
            Err(error) => return Err(handed_on(error)),
        };
        let Ok(pos) = u32::try_from(pos) else {
            return Err(Error::PositionTooLarge);
        };
        Ok(RcResolver { pos })
    }
}

/// As a region of its own: the pointer itself, not the value.
impl<T: Archive> ArchiveUnsized for Shared<T> {
    type Archived = ArchivedRc<T::Archived, RcFlavor>;

    ghost source_length = { λ _. 0 };

    ghost meaning = { λ s. shared_value s.key };

    ghost keys = { λ s. rc_keys s.key T.Archived.pointee 0 (T.meaning s.value.value)
        (T.keys s.value.value) };

    ghost keyed = { λ s. rc_keyed s.key T.Archived.pointee 0 (T.meaning s.value.value)
        (T.keys s.value.value) (T.keyed s.value.value) };

    ghost one_length = { λ _ _. refl };

    ghost planned = { λ s. one_planned T.Archived.definitions (shared rc_flavor T.Archived.pointee)
        (rc_keys s.key T.Archived.pointee 0 (T.meaning s.value.value) (T.keys s.value.value))
        (shared_value s.key) (rc_one_planned T.Archived.definitions s.key T.Archived.pointee
        T.Archived.shape T.Archived.is_one (T.meaning s.value.value) (T.keys s.value.value)
        (T.planned s.value.value)) };

    fn archived_metadata(&self) -> Result<(), Error> {
        Ok(())
    }
}

impl<T: Serialize<S>, S: Sharing + Writer + ResolverAlloc> SerializeUnsized<S> for Shared<T> {
    fn serialize_unsized(&self, serializer: &mut S) -> Result<usize, Error> {
        serialize_one(self, serializer)
    }
}
