//! What takes an archive's bytes, and what is written to each of them.

mod buffer;
mod extension;
mod serializer;
mod writer;

pub use buffer::Buffer;
pub use extension::WriterExt;
pub use serializer::{ResolverAlloc, Serializer};
pub use writer::{Positional, Writer};
