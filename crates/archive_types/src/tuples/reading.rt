// Tuples are read back: from their parts, one after another.

ghost use Rattle.archive_types.specs.Words.Seen.{IsPartOf};
ghost use Rattle.archive_types.specs.Words.ReadBack.{ReadsAs};

use crate::parts::{DeserializeParts, FromParts};
use crate::record::deserialize_record;
use crate::traits::{Archive, ArchivePointee, Deserialize, Entries, PortableParts};
use crate::view::RawView;
use archive_check::format::error::Error;
use archive_tuple::ArchivedTuple;
use std::alloc::Global;

impl<P: PortableParts, T: FromParts, D: Entries> Deserialize<T, D> for ArchivedTuple<P>
where
    P: DeserializeParts<T::Owned, D>,
{
    #[inline(always)]
    fn deserialize_part(alloc: Global, part: RawView<'_>, deserializer: &mut D) -> Result<T, Error>
        requires { IsPartOf ⟦<Self as ArchivePointee>⟧ part }
        ensures { ReadsAs ⟦<Self as ArchivePointee>⟧ part D.Entries deserializer T.Archive result }
    {
        let values = deserialize_record::<Self, T::Owned, D>(alloc, part, deserializer)?;
        Ok(T::from_parts(values))
    }
}

impl<A: Archive + Drop> FromParts for (A,) {
    type Owned = (A, ());

    #[inline(always)]
    fn from_parts(values: (A, ())) -> (A,) {
        let (a, ()) = values;
        (a,)
    }
}

impl<A: Archive + Drop, B: Archive + Drop> FromParts for (A, B) {
    type Owned = (A, (B, ()));

    #[inline(always)]
    fn from_parts(values: (A, (B, ()))) -> (A, B) {
        let (a, (b, ())) = values;
        (a, b)
    }
}

impl<A: Archive + Drop, B: Archive + Drop, C: Archive + Drop> FromParts for (A, B, C) {
    type Owned = (A, (B, (C, ())));

    #[inline(always)]
    fn from_parts(values: (A, (B, (C, ())))) -> (A, B, C) {
        let (a, (b, (c, ()))) = values;
        (a, b, c)
    }
}
