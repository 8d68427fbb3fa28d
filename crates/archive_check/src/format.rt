//! The format: errors, expressions and definitions, layouts, leaves in bytes, and what archived
//! types say of themselves.

pub mod bytes;
pub mod defs;
pub mod error;
pub mod expr;
pub mod extents;
pub mod keys;
pub mod layout;
pub mod leaf;
pub mod order;
pub mod traits;
