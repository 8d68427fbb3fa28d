// One value as a pointee.

ghost use Rattle.std.specs.Prelude.{◌≡◌};
ghost use Rattle.archive_check.specs.Viewed.{Viewed};
ghost use Rattle.archive_check.specs.Entries.{ReadsBack, RefusesReading};
ghost use Rattle.archive_types.specs.Words.Seen.{IsPartOf};
ghost use Rattle.archive_types.specs.Words.ReadBack.{ReadsAs};

use super::{Archive, Deserialize, DeserializeUnsized, Entries, Portable};
use crate::view::RawView;
use archive_check::format::error::Error;
use std::alloc::Global;

/// The value, as `Deserialize` has it.
impl<T: Portable + Deserialize<U, D>, U: Archive, D: Entries> DeserializeUnsized<U, D> for T {
    fn deserialize_unsized_part(
        alloc: Global,
        part: RawView<'_>,
        deserializer: &mut D,
    ) -> Result<U, Error>
        requires { IsPartOf T.ArchivePointee part }
        ensures { ReadsAs T.ArchivePointee part D.Entries deserializer U.Archive result }
    {
        T::deserialize_part(alloc, part, deserializer)
    }
}
