//! Numbers as archives hold them: the lowest byte first. One format serves every width. The bytes
//! and the aliases' names are those of rkyv 0.8.18. Positions, sizes and alignments are in bytes.
#![tactic(auto)]

mod little_endian;
mod native;
pub mod offset;
pub mod owners;
pub mod repr;

pub use little_endian::LittleEndian;
pub use native::{Integer, Native};

/// An archived `i16`: two bytes, at a multiple of two.
pub type ArchivedI16 = LittleEndian<i16>;

/// An archived `i32`: four bytes, at a multiple of four.
pub type ArchivedI32 = LittleEndian<i32>;

/// An archived `i64`: eight bytes, at a multiple of eight.
pub type ArchivedI64 = LittleEndian<i64>;

/// An archived `i128`: sixteen bytes, at a multiple of sixteen.
pub type ArchivedI128 = LittleEndian<i128>;

/// An archived `u16`: two bytes, at a multiple of two.
pub type ArchivedU16 = LittleEndian<u16>;

/// An archived `u32`: four bytes, at a multiple of four.
pub type ArchivedU32 = LittleEndian<u32>;

/// An archived `u64`: eight bytes, at a multiple of eight.
pub type ArchivedU64 = LittleEndian<u64>;

/// An archived `u128`: sixteen bytes, at a multiple of sixteen.
pub type ArchivedU128 = LittleEndian<u128>;

/// An archived `char`: the number of a Unicode scalar value, in four bytes, at a multiple of four.
pub type ArchivedChar = LittleEndian<char>;

/// The number that an archived length or position holds: 32 bits, as by default in rkyv 0.8.18.
pub type FixedUsize = u32;

/// The number that an archived offset holds: 32 bits, as by default in rkyv 0.8.18.
pub type FixedIsize = i32;

/// An archived length or position: four bytes, at a multiple of four.
pub type ArchivedUsize = LittleEndian<FixedUsize>;

/// An archived offset: four bytes, at a multiple of four.
pub type ArchivedIsize = LittleEndian<FixedIsize>;
