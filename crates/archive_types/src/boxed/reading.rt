// Boxes are read back.

ghost use Rattle.std.specs.Prelude.{◌≡◌};
ghost use Rattle.archive_check.specs.Shape.{one, boxed};
ghost use Rattle.archive_check.specs.Value.{box};
ghost use Rattle.archive_check.specs.Viewed.{Viewed};
ghost use Rattle.archive_check.specs.Entries.{ReadsBack, RefusesReading};
ghost use Rattle.archive_types.specs.Words.Seen.{IsPartOf};
ghost use Rattle.archive_types.specs.Words.ReadBack.{ReadsAs};

use super::ArchivedBox;
use crate::traits::{Archive, ArchivePointee, Deserialize, Entries, PortablePointee};
use crate::view::{RawView, Ref};
use archive_check::format::error::Error;
use std::alloc::Global;

impl<T: PortablePointee + Deserialize<U, D>, U: Archive + Drop, D: Entries> Deserialize<Box<U>, D>
    for ArchivedBox<T> {
    #[inline(always)]
    fn deserialize_part(
        alloc: Global,
        part: RawView<'_>,
        deserializer: &mut D,
    ) -> Result<Box<U>, Error>
        requires { IsPartOf ⟦<Self as ArchivePointee>⟧ part }
        ensures { ReadsAs ⟦<Self as ArchivePointee>⟧ part D.Entries deserializer
            ⟦<Box<U> as Archive>⟧ result }
    {
        let view: Ref<'_, ArchivedBox<T>> = Ref::at(part);
        let value = T::deserialize_part(alloc, view.get().part(), deserializer)?;
        let whole = Box::new(alloc, value)?;
        Ok(whole)
    }
}
