// Vectors are read back.

ghost use Rattle.std.specs.Prelude.{◌≡◌};
ghost use Rattle.archive_check.specs.Shape.{one, vec as vec_shape};
ghost use Rattle.archive_check.specs.Value.{list};
ghost use Rattle.archive_check.specs.Viewed.{Viewed};
ghost use Rattle.archive_check.specs.Entries.{ReadsBack, RefusesReading};
ghost use Rattle.archive_types.specs.Runs.{each_meaning, each_keys};
ghost use Rattle.archive_types.specs.Words.Seen.{IsPartOf};
ghost use Rattle.archive_types.specs.Words.ReadBack.{ReadsAs};

use super::ArchivedVec;
use crate::slice::read_elements;
use crate::traits::{Archive, ArchivePointee, Deserialize, Entries, Portable};
use crate::view::{RawView, Ref};
use archive_check::format::error::Error;
use std::alloc::Global;

impl<T: Portable + Deserialize<U, D>, U: Archive + Drop, D: Entries> Deserialize<Vec<U>, D>
    for ArchivedVec<T> {
    #[inline(always)]
    fn deserialize_part(
        alloc: Global,
        part: RawView<'_>,
        deserializer: &mut D,
    ) -> Result<Vec<U>, Error>
        requires { IsPartOf ⟦<Self as ArchivePointee>⟧ part }
        ensures { ReadsAs ⟦<Self as ArchivePointee>⟧ part D.Entries deserializer
            ⟦<Vec<U> as Archive>⟧ result }
    {
        let view: Ref<'_, ArchivedVec<T>> = Ref::at(part);
        let items = read_elements::<T, U, D>(alloc, view.as_slice().part(), deserializer)?;
        Ok(items)
    }
}
