//! A writer, an allocator and the states of shared keys, as one.

ghost use Rattle.std.specs.Prelude.{◌≡◌};

use crate::ser::{Positional, Writer};
use archive_check::format::error::Error;
use archive_check::format::traits::Keys;
use std::alloc::Allocator;

/// A writer with what values need besides: an allocator for resolvers and the states of shared keys.
/// Each call is that of the part that it concerns. As in rkyv 0.8.18.
///
/// ```
/// let mut serializer = Serializer::new(Vec::new(alloc), alloc, Share::new(alloc));
/// let root = serialize_one(&value, &mut serializer)?;
/// ```
#[derive(Drop)]
pub struct Serializer<W, A, S> {
    /// What takes the bytes.
    pub writer: W,
    /// Where memory for resolvers comes from.
    pub allocator: A,
    /// The states of the shared keys; `()` if no value is shared.
    pub sharing: S,
}

impl<W, A, S> Serializer<W, A, S> {
    /// A serializer of these parts.
    #[inline(always)]
    pub fn new(writer: W, allocator: A, sharing: S) -> Serializer<W, A, S>
        ensures writer { result.writer ≡ writer }
        ensures allocator { result.allocator ≡ allocator }
        ensures sharing { result.sharing ≡ sharing }
    {
        Serializer {
            writer,
            allocator,
            sharing,
        }
    }

    /// The parts.
    pub fn into_raw_parts(self) -> (W, A, S)
        ensures { result ≡ (self.writer, self.allocator, self.sharing) }
    {
        let Serializer {
            writer,
            allocator,
            sharing,
        } = self;
        (writer, allocator, sharing)
    }

    /// The writer alone.
    #[inline(always)]
    pub fn into_writer(self) -> W
    where
        A: Drop,
        S: Drop,
        ensures { result ≡ self.writer }
    {
        let Serializer { writer, .. } = self;
        writer
    }
}

/// What hands out an allocator for resolvers. rkyv 0.8.18 allocates by calls of the serializer.
pub trait ResolverAlloc {
    /// The allocator's type.
    type Alloc: Allocator + Copy;

    // The allocator.
    ghost resolver_alloc: { Self → Self.Alloc };

    /// The allocator.
    fn resolver_alloc(&self) -> Self::Alloc
        ensures { result ≡ resolver_alloc self.now };
}

impl<W, A: Allocator + Copy, S> ResolverAlloc for Serializer<W, A, S> {
    type Alloc = A;

    ghost resolver_alloc = { λ s. s.allocator };

    #[inline(always)]
    fn resolver_alloc(&self) -> A {
        self.allocator
    }
}

impl<W: Positional, A, S> Positional for Serializer<W, A, S> {
    ghost position = { λ s. W.position s.writer };

    #[inline(always)]
    fn pos(&self) -> usize {
        self.writer.pos()
    }
}

impl<W: Keys, A, S: Keys> Keys for Serializer<W, A, S> {
    ghost state = { λ s. record (W.state s.writer) { states = (S.state s.sharing).states } };
}

impl<W: Writer, A, S: Keys> Writer for Serializer<W, A, S> {
    ghost takes_memory = { W.takes_memory };

    ghost position_law = { λ s. W.position_law s.writer };

    #[inline(always)]
    fn write(&mut self, bytes: &[u8]) -> Result<(), Error> {
        self.writer.write(bytes)
    }

    #[inline(always)]
    fn write_zeros(&mut self, n: usize) -> Result<(), Error> {
        self.writer.write_zeros(n)
    }

    #[inline(always)]
    fn write_at_once(&mut self, bytes: &[u8]) -> bool {
        self.writer.write_at_once(bytes)
    }

    #[inline(always)]
    fn make_room(&mut self, n: usize) {
        self.writer.make_room(n);
    }
}
