// Tuples as regions of their own: the tuple itself, as one value.

ghost use Rattle.std.specs.Prelude.{refl};
ghost use Rattle.archive_types.specs.Members.Keyed.{nothing_keyed, part_keyed, record_keyed};
ghost use Rattle.archive_types.specs.Members.PartsPlanned.{no_part_planned, part_planned, product_planned};
ghost use Rattle.archive_types.specs.Members.PlannedOwners.{one_planned};

use crate::ser::serialize_one;
use crate::traits::{Archive, ArchiveUnsized, Serialize, SerializeUnsized};
use archive_check::format::error::Error;
use archive_tuple::{ArchivedTuple1, ArchivedTuple2, ArchivedTuple3};
use archive_write::ser::{ResolverAlloc, Writer};

impl<A: Archive> ArchiveUnsized for (A,) {
    type Archived = ArchivedTuple1<A::Archived>;

    ghost source_length = { λ _. 0 };

    ghost meaning = { ⟦<(A,) as Archive>⟧.meaning };

    ghost keys = { ⟦<(A,) as Archive>⟧.keys };

    ghost keyed = { λ v. record_keyed (part_keyed (A.keyed v.0) nothing_keyed) };

    ghost one_length = { λ _ _. refl };

    ghost planned = { λ v. one_planned _ _ _ _ (product_planned _ _ _ _
        (part_planned _ _ _ _ (A.planned v.0) no_part_planned)) };

    #[inline(always)]
    fn archived_metadata(&self) -> Result<(), Error> {
        Ok(())
    }
}

impl<A: Serialize<S>, S: Writer + ResolverAlloc> SerializeUnsized<S> for (A,) {
    #[inline(always)]
    fn serialize_unsized(&self, serializer: &mut S) -> Result<usize, Error> {
        serialize_one(self, serializer)
    }
}

impl<A: Archive, B: Archive> ArchiveUnsized for (A, B) {
    type Archived = ArchivedTuple2<A::Archived, B::Archived>;

    ghost source_length = { λ _. 0 };

    ghost meaning = { ⟦<(A, B) as Archive>⟧.meaning };

    ghost keys = { ⟦<(A, B) as Archive>⟧.keys };

    ghost keyed = { λ v. record_keyed (part_keyed (A.keyed v.0)
        (part_keyed (B.keyed v.1) nothing_keyed)) };

    ghost one_length = { λ _ _. refl };

    ghost planned = { λ v. one_planned _ _ _ _ (product_planned _ _ _ _
        (part_planned _ _ _ _ (A.planned v.0) (part_planned _ _ _ _ (B.planned v.1)
        no_part_planned))) };

    #[inline(always)]
    fn archived_metadata(&self) -> Result<(), Error> {
        Ok(())
    }
}

impl<A: Serialize<S>, B: Serialize<S>, S: Writer + ResolverAlloc> SerializeUnsized<S> for (A, B) {
    #[inline(always)]
    fn serialize_unsized(&self, serializer: &mut S) -> Result<usize, Error> {
        serialize_one(self, serializer)
    }
}

impl<A: Archive, B: Archive, C: Archive> ArchiveUnsized for (A, B, C) {
    type Archived = ArchivedTuple3<A::Archived, B::Archived, C::Archived>;

    ghost source_length = { λ _. 0 };

    ghost meaning = { ⟦<(A, B, C) as Archive>⟧.meaning };

    ghost keys = { ⟦<(A, B, C) as Archive>⟧.keys };

    ghost keyed = { λ v. record_keyed (part_keyed (A.keyed v.0)
        (part_keyed (B.keyed v.1) (part_keyed (C.keyed v.2) nothing_keyed))) };

    ghost one_length = { λ _ _. refl };

    ghost planned = { λ v. one_planned _ _ _ _ (product_planned _ _ _ _
        (part_planned _ _ _ _ (A.planned v.0) (part_planned _ _ _ _ (B.planned v.1)
        (part_planned _ _ _ _ (C.planned v.2) no_part_planned)))) };

    #[inline(always)]
    fn archived_metadata(&self) -> Result<(), Error> {
        Ok(())
    }
}

impl<A: Serialize<S>, B: Serialize<S>, C: Serialize<S>, S: Writer + ResolverAlloc> SerializeUnsized<
    S,
> for (A, B, C) {
    #[inline(always)]
    fn serialize_unsized(&self, serializer: &mut S) -> Result<usize, Error> {
        serialize_one(self, serializer)
    }
}
