//! Relative pointers: offsets from their own position to what they lead to. As in rkyv 0.8.18.

mod metadata;
mod raw;
mod typed;

pub use archive_num::offset::{Offset, OffsetNumber, signed_offset};
pub use metadata::Metadata;
pub use raw::{
    RawRelPtr, RawRelPtrI8, RawRelPtrI16, RawRelPtrI32, RawRelPtrI64, RawRelPtrU8, RawRelPtrU16,
    RawRelPtrU32, RawRelPtrU64,
};
pub use typed::RelPtr;
