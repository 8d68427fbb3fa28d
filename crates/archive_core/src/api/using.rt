// Calls with a serializer of the caller, or with memory for resolvers from an allocator of its own.

ghost use Rattle.std.specs.Prelude.{◌≡◌, ◌⊎◌, IfOk, IfErr, ℕ, []};
ghost use Rattle.archive_check.specs.Shape.{one};
ghost use Rattle.archive_check.specs.declared.format.error.Error.TheVariants.{OutOfMemory};
ghost use Rattle.archive_core.specs.WholeArchives.{AppendsTaken, MakesArchive};
ghost use Rattle.archive_types.specs.Causes.{HindersRegion, IsRegionRefused};
ghost use Rattle.archive_types.specs.Plans.{SerializedRegion, at_start, unshared};
ghost use Rattle.archive_types.specs.Writing.{Archives};
ghost use Rattle.archive_write.specs.Written.{GoesOn};
ghost use Rattle.archive_types.specs.SourceOutcomes.{WritesUnsized};

use super::{HighSerializer, serialize_whole};
use archive_check::format::error::Error;
use archive_types::ser::{Serializer, Writer, serialize_one};
use archive_types::sharing::Share;
use archive_types::traits::{Keys, Serialize, SerializeUnsized};
use std::alloc::{Allocator, Global};

/// The room of a new vector in bytes, so that a small archive is written without growing it.
const FIRST_ROOM: usize = 64;

/// As `to_bytes_in`, with memory for resolvers from `resolvers`; all else comes from `alloc`. As in rkyv 0.8.18.
#[inline(always)]
pub fn to_bytes_in_with_alloc<
    W: Writer + Drop,
    A: Allocator + Copy + Drop,
    T: Serialize<HighSerializer<W, A>>,
>(alloc: Global, value: &T, writer: W, resolvers: A) -> Result<W, Error>
    ensures { AppendsTaken T.Archive T.Archived.Portable value.now W.Keys writer result }
{
    let mut serializer = Serializer::new(writer, resolvers, Share::new(alloc));
    serialize_one(value, &mut serializer)?;
    Ok(serializer.into_writer())
}

/// As `to_bytes`, with memory for resolvers from `resolvers`; all else comes from `alloc`. As in rkyv 0.8.18.
#[inline(always)]
pub fn to_bytes_with_alloc<A: Allocator + Copy + Drop, T: Serialize<HighSerializer<Vec<u8>, A>>>(
    alloc: Global,
    value: &T,
    resolvers: A,
) -> Result<Vec<u8>, Error>
    ensures { MakesArchive T.Archive T.Archived.Portable value.now (λ bytes. bytes.items) result }
{
    let empty = Vec::with_capacity(alloc, FIRST_ROOM)?;
    let (bytes, root) = serialize_whole(alloc, resolvers, value, empty);
    root?;
    Ok(bytes)
}

/// Writes what `value` owns and its region with your serializer, and returns the root's position in
/// bytes. Fails as `serialize_unsized` of `value` does. As in rkyv 0.8.18.
pub fn serialize_using<S: Writer + Keys, T: SerializeUnsized<S>>(
    value: &T,
    serializer: &mut S,
) -> Result<usize, Error>
    ensures { WritesUnsized T.ArchiveUnsized T.Archived.ArchivePointee value.now S.Keys serializer
        result }
{
    value.serialize_unsized(serializer)
}
