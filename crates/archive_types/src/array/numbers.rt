// Arrays of numbers, of `bool` and of `char` are read back as they are, as an `OwnedArray` first, which takes memory. A generic impl gets no proof, so there is one
// for each type.
// Written by tools/arrays: change that, and run it again.

use super::owned::OwnedArray;
use crate::primitive::{
    ArchivedChar, ArchivedI16, ArchivedI32, ArchivedI64, ArchivedI128, ArchivedIsize, ArchivedU16,
    ArchivedU32, ArchivedU64, ArchivedU128, ArchivedUsize,
};
use crate::traits::{Deserialize, Entries};
use crate::view::RawView;
use archive_check::format::error::Error;
use std::alloc::Global;

/// As in rkyv 0.8.18. They are read as an `OwnedArray` first, which takes memory: fails with
/// `OutOfMemory` if that is refused.
impl<D: Entries, const N: usize> Deserialize<[u8; N], D> for [u8; N] {
    #[inline(always)]
    fn deserialize_part(
        alloc: Global,
        part: RawView<'_>,
        deserializer: &mut D,
    ) -> Result<[u8; N], Error> {
        let read = <Self as Deserialize<OwnedArray<u8, N>, D>>::deserialize_part(
            alloc,
            part,
            deserializer,
        );
        match read {
            Ok(elements) => Ok(elements.into_array()),
            Err(error) => Err(error),
        }
    }

    // None, as of other arrays.
    #[inline(always)]
    fn deserialize_first(
        _alloc: Global,
        _bytes: &[u8],
        _pos: usize,
        _step: usize,
        _count: usize,
        _items: &mut Vec<[u8; N]>,
    ) {}
}

/// As in rkyv 0.8.18. They are read as an `OwnedArray` first, which takes memory: fails with
/// `OutOfMemory` if that is refused.
impl<D: Entries, const N: usize> Deserialize<[u16; N], D> for [ArchivedU16; N] {
    #[inline(always)]
    fn deserialize_part(
        alloc: Global,
        part: RawView<'_>,
        deserializer: &mut D,
    ) -> Result<[u16; N], Error> {
        let read = <Self as Deserialize<OwnedArray<u16, N>, D>>::deserialize_part(
            alloc,
            part,
            deserializer,
        );
        match read {
            Ok(elements) => Ok(elements.into_array()),
            Err(error) => Err(error),
        }
    }

    // None, as of other arrays.
    #[inline(always)]
    fn deserialize_first(
        _alloc: Global,
        _bytes: &[u8],
        _pos: usize,
        _step: usize,
        _count: usize,
        _items: &mut Vec<[u16; N]>,
    ) {}
}

/// As in rkyv 0.8.18. They are read as an `OwnedArray` first, which takes memory: fails with
/// `OutOfMemory` if that is refused.
impl<D: Entries, const N: usize> Deserialize<[u32; N], D> for [ArchivedU32; N] {
    #[inline(always)]
    fn deserialize_part(
        alloc: Global,
        part: RawView<'_>,
        deserializer: &mut D,
    ) -> Result<[u32; N], Error> {
        let read = <Self as Deserialize<OwnedArray<u32, N>, D>>::deserialize_part(
            alloc,
            part,
            deserializer,
        );
        match read {
            Ok(elements) => Ok(elements.into_array()),
            Err(error) => Err(error),
        }
    }

    // None, as of other arrays.
    #[inline(always)]
    fn deserialize_first(
        _alloc: Global,
        _bytes: &[u8],
        _pos: usize,
        _step: usize,
        _count: usize,
        _items: &mut Vec<[u32; N]>,
    ) {}
}

/// As in rkyv 0.8.18. They are read as an `OwnedArray` first, which takes memory: fails with
/// `OutOfMemory` if that is refused.
impl<D: Entries, const N: usize> Deserialize<[u64; N], D> for [ArchivedU64; N] {
    #[inline(always)]
    fn deserialize_part(
        alloc: Global,
        part: RawView<'_>,
        deserializer: &mut D,
    ) -> Result<[u64; N], Error> {
        let read = <Self as Deserialize<OwnedArray<u64, N>, D>>::deserialize_part(
            alloc,
            part,
            deserializer,
        );
        match read {
            Ok(elements) => Ok(elements.into_array()),
            Err(error) => Err(error),
        }
    }

    // None, as of other arrays.
    #[inline(always)]
    fn deserialize_first(
        _alloc: Global,
        _bytes: &[u8],
        _pos: usize,
        _step: usize,
        _count: usize,
        _items: &mut Vec<[u64; N]>,
    ) {}
}

/// As in rkyv 0.8.18. They are read as an `OwnedArray` first, which takes memory: fails with
/// `OutOfMemory` if that is refused.
impl<D: Entries, const N: usize> Deserialize<[u128; N], D> for [ArchivedU128; N] {
    #[inline(always)]
    fn deserialize_part(
        alloc: Global,
        part: RawView<'_>,
        deserializer: &mut D,
    ) -> Result<[u128; N], Error> {
        let read = <Self as Deserialize<OwnedArray<u128, N>, D>>::deserialize_part(
            alloc,
            part,
            deserializer,
        );
        match read {
            Ok(elements) => Ok(elements.into_array()),
            Err(error) => Err(error),
        }
    }

    // None, as of other arrays.
    #[inline(always)]
    fn deserialize_first(
        _alloc: Global,
        _bytes: &[u8],
        _pos: usize,
        _step: usize,
        _count: usize,
        _items: &mut Vec<[u128; N]>,
    ) {}
}

/// As in rkyv 0.8.18. They are read as an `OwnedArray` first, which takes memory: fails with
/// `OutOfMemory` if that is refused.
impl<D: Entries, const N: usize> Deserialize<[i8; N], D> for [i8; N] {
    #[inline(always)]
    fn deserialize_part(
        alloc: Global,
        part: RawView<'_>,
        deserializer: &mut D,
    ) -> Result<[i8; N], Error> {
        let read = <Self as Deserialize<OwnedArray<i8, N>, D>>::deserialize_part(
            alloc,
            part,
            deserializer,
        );
        match read {
            Ok(elements) => Ok(elements.into_array()),
            Err(error) => Err(error),
        }
    }

    // None, as of other arrays.
    #[inline(always)]
    fn deserialize_first(
        _alloc: Global,
        _bytes: &[u8],
        _pos: usize,
        _step: usize,
        _count: usize,
        _items: &mut Vec<[i8; N]>,
    ) {}
}

/// As in rkyv 0.8.18. They are read as an `OwnedArray` first, which takes memory: fails with
/// `OutOfMemory` if that is refused.
impl<D: Entries, const N: usize> Deserialize<[i16; N], D> for [ArchivedI16; N] {
    #[inline(always)]
    fn deserialize_part(
        alloc: Global,
        part: RawView<'_>,
        deserializer: &mut D,
    ) -> Result<[i16; N], Error> {
        let read = <Self as Deserialize<OwnedArray<i16, N>, D>>::deserialize_part(
            alloc,
            part,
            deserializer,
        );
        match read {
            Ok(elements) => Ok(elements.into_array()),
            Err(error) => Err(error),
        }
    }

    // None, as of other arrays.
    #[inline(always)]
    fn deserialize_first(
        _alloc: Global,
        _bytes: &[u8],
        _pos: usize,
        _step: usize,
        _count: usize,
        _items: &mut Vec<[i16; N]>,
    ) {}
}

/// As in rkyv 0.8.18. They are read as an `OwnedArray` first, which takes memory: fails with
/// `OutOfMemory` if that is refused.
impl<D: Entries, const N: usize> Deserialize<[i32; N], D> for [ArchivedI32; N] {
    #[inline(always)]
    fn deserialize_part(
        alloc: Global,
        part: RawView<'_>,
        deserializer: &mut D,
    ) -> Result<[i32; N], Error> {
        let read = <Self as Deserialize<OwnedArray<i32, N>, D>>::deserialize_part(
            alloc,
            part,
            deserializer,
        );
        match read {
            Ok(elements) => Ok(elements.into_array()),
            Err(error) => Err(error),
        }
    }

    // None, as of other arrays.
    #[inline(always)]
    fn deserialize_first(
        _alloc: Global,
        _bytes: &[u8],
        _pos: usize,
        _step: usize,
        _count: usize,
        _items: &mut Vec<[i32; N]>,
    ) {}
}

/// As in rkyv 0.8.18. They are read as an `OwnedArray` first, which takes memory: fails with
/// `OutOfMemory` if that is refused.
impl<D: Entries, const N: usize> Deserialize<[i64; N], D> for [ArchivedI64; N] {
    #[inline(always)]
    fn deserialize_part(
        alloc: Global,
        part: RawView<'_>,
        deserializer: &mut D,
    ) -> Result<[i64; N], Error> {
        let read = <Self as Deserialize<OwnedArray<i64, N>, D>>::deserialize_part(
            alloc,
            part,
            deserializer,
        );
        match read {
            Ok(elements) => Ok(elements.into_array()),
            Err(error) => Err(error),
        }
    }

    // None, as of other arrays.
    #[inline(always)]
    fn deserialize_first(
        _alloc: Global,
        _bytes: &[u8],
        _pos: usize,
        _step: usize,
        _count: usize,
        _items: &mut Vec<[i64; N]>,
    ) {}
}

/// As in rkyv 0.8.18. They are read as an `OwnedArray` first, which takes memory: fails with
/// `OutOfMemory` if that is refused.
impl<D: Entries, const N: usize> Deserialize<[i128; N], D> for [ArchivedI128; N] {
    #[inline(always)]
    fn deserialize_part(
        alloc: Global,
        part: RawView<'_>,
        deserializer: &mut D,
    ) -> Result<[i128; N], Error> {
        let read = <Self as Deserialize<OwnedArray<i128, N>, D>>::deserialize_part(
            alloc,
            part,
            deserializer,
        );
        match read {
            Ok(elements) => Ok(elements.into_array()),
            Err(error) => Err(error),
        }
    }

    // None, as of other arrays.
    #[inline(always)]
    fn deserialize_first(
        _alloc: Global,
        _bytes: &[u8],
        _pos: usize,
        _step: usize,
        _count: usize,
        _items: &mut Vec<[i128; N]>,
    ) {}
}

/// As in rkyv 0.8.18. They are read as an `OwnedArray` first, which takes memory: fails with
/// `OutOfMemory` if that is refused.
impl<D: Entries, const N: usize> Deserialize<[bool; N], D> for [bool; N] {
    #[inline(always)]
    fn deserialize_part(
        alloc: Global,
        part: RawView<'_>,
        deserializer: &mut D,
    ) -> Result<[bool; N], Error> {
        let read = <Self as Deserialize<OwnedArray<bool, N>, D>>::deserialize_part(
            alloc,
            part,
            deserializer,
        );
        match read {
            Ok(elements) => Ok(elements.into_array()),
            Err(error) => Err(error),
        }
    }

    // None, as of other arrays.
    #[inline(always)]
    fn deserialize_first(
        _alloc: Global,
        _bytes: &[u8],
        _pos: usize,
        _step: usize,
        _count: usize,
        _items: &mut Vec<[bool; N]>,
    ) {}
}

/// As in rkyv 0.8.18. They are read as an `OwnedArray` first, which takes memory: fails with
/// `OutOfMemory` if that is refused.
impl<D: Entries, const N: usize> Deserialize<[char; N], D> for [ArchivedChar; N] {
    #[inline(always)]
    fn deserialize_part(
        alloc: Global,
        part: RawView<'_>,
        deserializer: &mut D,
    ) -> Result<[char; N], Error> {
        let read = <Self as Deserialize<OwnedArray<char, N>, D>>::deserialize_part(
            alloc,
            part,
            deserializer,
        );
        match read {
            Ok(elements) => Ok(elements.into_array()),
            Err(error) => Err(error),
        }
    }

    // None, as of other arrays.
    #[inline(always)]
    fn deserialize_first(
        _alloc: Global,
        _bytes: &[u8],
        _pos: usize,
        _step: usize,
        _count: usize,
        _items: &mut Vec<[char; N]>,
    ) {}
}

/// As in rkyv 0.8.18. They are read as an `OwnedArray` first, which takes memory: fails with
/// `OutOfMemory` if that is refused.
impl<D: Entries, const N: usize> Deserialize<[usize; N], D> for [ArchivedUsize; N] {
    #[inline(always)]
    fn deserialize_part(
        alloc: Global,
        part: RawView<'_>,
        deserializer: &mut D,
    ) -> Result<[usize; N], Error> {
        let read = <Self as Deserialize<OwnedArray<usize, N>, D>>::deserialize_part(
            alloc,
            part,
            deserializer,
        );
        match read {
            Ok(elements) => Ok(elements.into_array()),
            Err(error) => Err(error),
        }
    }

    // None, as of other arrays.
    #[inline(always)]
    fn deserialize_first(
        _alloc: Global,
        _bytes: &[u8],
        _pos: usize,
        _step: usize,
        _count: usize,
        _items: &mut Vec<[usize; N]>,
    ) {}
}

/// As in rkyv 0.8.18. They are read as an `OwnedArray` first, which takes memory: fails with
/// `OutOfMemory` if that is refused.
impl<D: Entries, const N: usize> Deserialize<[isize; N], D> for [ArchivedIsize; N] {
    #[inline(always)]
    fn deserialize_part(
        alloc: Global,
        part: RawView<'_>,
        deserializer: &mut D,
    ) -> Result<[isize; N], Error> {
        let read = <Self as Deserialize<OwnedArray<isize, N>, D>>::deserialize_part(
            alloc,
            part,
            deserializer,
        );
        match read {
            Ok(elements) => Ok(elements.into_array()),
            Err(error) => Err(error),
        }
    }

    // None, as of other arrays.
    #[inline(always)]
    fn deserialize_first(
        _alloc: Global,
        _bytes: &[u8],
        _pos: usize,
        _step: usize,
        _count: usize,
        _items: &mut Vec<[isize; N]>,
    ) {}
}
