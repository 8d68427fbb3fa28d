// The elements of an array are read back one after another.

ghost use Rattle.std.specs.Prelude.{◌≡◌};
ghost use Rattle.archive_types.specs.Words.Seen.{IsPartOf};
ghost use Rattle.archive_types.specs.Words.ReadBack.{ReadsAs};

use super::owned::OwnedArray;
use crate::slice::read_each;
use crate::traits::{Archive, ArchivePointee, Deserialize, Entries, Portable};
use crate::view::RawView;
use archive_check::format::error::Error;
use std::alloc::Global;

/// As an `OwnedArray`, where rkyv 0.8.18 gives the array. The elements take their memory at once.
impl<T: Portable + Deserialize<U, D>, U: Archive + Drop, D: Entries, const N: usize> Deserialize<
    OwnedArray<U, N>,
    D,
> for [T; N] {
    #[inline(always)]
    fn deserialize_part(
        alloc: Global,
        part: RawView<'_>,
        deserializer: &mut D,
    ) -> Result<OwnedArray<U, N>, Error>
        requires { IsPartOf ⟦<Self as ArchivePointee>⟧ part }
        ensures { ReadsAs ⟦<Self as ArchivePointee>⟧ part D.Entries deserializer
            ⟦<OwnedArray<U, N> as Archive>⟧ result }
    {
        let items = read_each::<T, U, D>(alloc, part, N, deserializer)?;
        Ok(OwnedArray { items })
    }

    /// None: an array doesn't inherit the default, of which a caller would have to show that there is room for it.
    #[inline(always)]
    fn deserialize_first(
        _alloc: Global,
        _bytes: &[u8],
        _pos: usize,
        _step: usize,
        _count: usize,
        _items: &mut Vec<OwnedArray<U, N>>,
    ) {}
}
