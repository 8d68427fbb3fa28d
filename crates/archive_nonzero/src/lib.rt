//! Numbers that aren't 0, as archives hold them: the lowest byte first. One format serves every
//! width. The bytes and names are those of rkyv 0.8.18, but for `ArchivedNonZeroU8` and
//! `ArchivedNonZeroI8`.
#![tactic(auto)]

mod non_zero;

use archive_num::{FixedIsize, FixedUsize};
pub use non_zero::NonZero;

/// An archived `i8` that isn't 0: one byte.
pub type ArchivedNonZeroI8 = NonZero<i8>;

/// An archived `i16` that isn't 0: two bytes, at a multiple of two.
pub type ArchivedNonZeroI16 = NonZero<i16>;

/// An archived `i32` that isn't 0: four bytes, at a multiple of four.
pub type ArchivedNonZeroI32 = NonZero<i32>;

/// An archived `i64` that isn't 0: eight bytes, at a multiple of eight.
pub type ArchivedNonZeroI64 = NonZero<i64>;

/// An archived `i128` that isn't 0: sixteen bytes, at a multiple of sixteen.
pub type ArchivedNonZeroI128 = NonZero<i128>;

/// An archived `u8` that isn't 0: one byte.
pub type ArchivedNonZeroU8 = NonZero<u8>;

/// An archived `u16` that isn't 0: two bytes, at a multiple of two.
pub type ArchivedNonZeroU16 = NonZero<u16>;

/// An archived `u32` that isn't 0: four bytes, at a multiple of four.
pub type ArchivedNonZeroU32 = NonZero<u32>;

/// An archived `u64` that isn't 0: eight bytes, at a multiple of eight.
pub type ArchivedNonZeroU64 = NonZero<u64>;

/// An archived `u128` that isn't 0: sixteen bytes, at a multiple of sixteen.
pub type ArchivedNonZeroU128 = NonZero<u128>;

/// An archived length or position that isn't 0: four bytes, at a multiple of four.
pub type ArchivedNonZeroUsize = NonZero<FixedUsize>;

/// An archived offset that isn't 0: four bytes, at a multiple of four.
pub type ArchivedNonZeroIsize = NonZero<FixedIsize>;
