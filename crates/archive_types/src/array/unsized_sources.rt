// Arrays as regions of their own: the array itself, as one value. Their elements are written as those of a slice, with no length beside.

ghost use Rattle.std.specs.Prelude.{refl};
ghost use Rattle.archive_types.specs.Members.Arrays.{array_meaning, array_keys, array_keyed, array_planned};
ghost use Rattle.archive_types.specs.Members.PlannedOwners.{one_planned};

use super::owned::OwnedArray;
use crate::slice::serialize_in_turn;
use crate::traits::{Archive, ArchiveUnsized, Serialize, SerializeUnsized};
use archive_check::format::error::Error;
use archive_write::ser::{ResolverAlloc, Writer};

impl<T: Archive, const N: usize> ArchiveUnsized for [T; N] {
    type Archived = [T::Archived; N];

    ghost source_length = { λ _. 0 };

    ghost meaning = { array_meaning N T.meaning };

    ghost keys = { array_keys N T.keys };

    ghost keyed = { array_keyed N T.keys T.meaning T.keyed };

    ghost one_length = { λ _ _. refl };

    ghost planned = { λ v. one_planned _ _ _ _ (array_planned N T.Archived.definitions
        T.Archived.shape T.keys T.meaning T.planned v) };

    #[inline(always)]
    fn archived_metadata(&self) -> Result<(), Error> {
        Ok(())
    }
}

impl<T: Serialize<S>, S: Writer + ResolverAlloc, const N: usize> SerializeUnsized<S> for [T; N] {
    #[inline(always)]
    fn serialize_unsized(&self, serializer: &mut S) -> Result<usize, Error> {
        serialize_in_turn(self, serializer)
    }
}

impl<T: Archive, const N: usize> ArchiveUnsized for OwnedArray<T, N> {
    type Archived = [T::Archived; N];

    ghost source_length = { λ _. 0 };

    ghost meaning = { array_meaning N T.meaning };

    ghost keys = { array_keys N T.keys };

    ghost keyed = { array_keyed N T.keys T.meaning T.keyed };

    ghost one_length = { λ _ _. refl };

    ghost planned = { λ v. one_planned _ _ _ _ (array_planned N T.Archived.definitions
        T.Archived.shape T.keys T.meaning T.planned v) };

    #[inline(always)]
    fn archived_metadata(&self) -> Result<(), Error> {
        Ok(())
    }
}

impl<T: Serialize<S>, S: Writer + ResolverAlloc, const N: usize> SerializeUnsized<S>
    for OwnedArray<T, N> {
    #[inline(always)]
    fn serialize_unsized(&self, serializer: &mut S) -> Result<usize, Error> {
        serialize_in_turn(self.as_slice(), serializer)
    }
}
