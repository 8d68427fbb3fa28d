//! Records by their parts: what the impls of a user-defined record call. rkyv 0.8.18 derives the
//! impls.

ghost use Rattle.std.specs.Prelude.{◌≡◌, length, IfOk, OnOk, IfErr};
ghost use Rattle.archive_check.specs.Entries.{ReadsBack, RefusesReading};
ghost use Rattle.archive_check.specs.Value.{product};
ghost use Rattle.archive_check.specs.Viewed.{Viewed};
ghost use Rattle.archive_types.specs.Causes.{HindersAt, IsRefused};
ghost use Rattle.archive_types.specs.Plans.{Serialized};
ghost use Rattle.archive_types.specs.Words.Seen.{IsPartOf, RefusesPart, ReadsPart};
ghost use Rattle.archive_types.specs.Writing.{ZeroedPlace, Resolves};
ghost use Rattle.archive_write.specs.Written.{GoesOn};
ghost use Rattle.archive_types.specs.Outcomes.{ResolvesAs, SerializesAs};

use crate::parts::{DeserializeParts, OwnedParts, SerializeParts, SourceParts};
use crate::place::Place;
use crate::traits::{Entries, Keys, Record};
use crate::view::RawView;
use archive_check::format::error::Error;
use archive_write::ser::Writer;
use std::alloc::Global;

/// Writes what the parts of a record own, one after another, and returns their resolvers. Fails as
/// `Serialize::serialize` does, for a cause of one of the parts.
#[tactic(auto, using(crate::proofs::Planning::PlannedParts::serialized_record, crate::proofs::Planning::PlannedParts::record_refused))]
#[inline(always)]
pub fn serialize_record<
    T,
    P: SerializeParts<T, S>,
    X: Record<Parts = P::Archived>,
    S: Writer + Keys,
>(whole: &T, serializer: &mut S) -> Result<P::Resolvers, Error>
    ensures { SerializesAs X.Portable (P.keys whole.now) (product (P.meanings whole.now))
        (λ r. product (P.flats whole.now r)) (P.belongs whole.now) S.Keys serializer result }
{
    P::serialize_parts(whole, serializer)
}

/// Writes the archived record over the bytes of `place`, part by part, each at its offset; between
/// them and behind the last one zeros stay. The caller must ensure that the bytes are zeros, of the
/// record's size, and that the resolvers are those of these parts. Fails as the parts do: with
/// `IsizeOverflow` or `OffsetOverflow` if an offset doesn't fit.
#[inline(always)]
pub fn resolve_record<T, P: SourceParts<T>, X: Record<Parts = P::Archived>>(
    whole: &T,
    resolvers: P::Resolvers,
    place: Place<'_, X>,
) -> Result<(), Error>
    requires zeroed { ZeroedPlace X.layout.size place.pos place.bytes.now }
    requires same_values { P.belongs whole.now resolvers }
    ensures { ResolvesAs X.Portable place (product (P.flats whole.now resolvers)) result }
{
    let Place { bytes, pos, .. } = place;
    P::resolve_parts(whole, resolvers, pos, 0, bytes)
}

/// The values of a record's parts, which `part` shows, one after another. Requires what a view
/// promises of it. Memory comes from `alloc`. Fails with `OutOfMemory` if it is refused, and with
/// `CyclicDeserialize` only if a shared position is met that is still being read.
#[inline(always)]
pub fn deserialize_record<X: Record, T: OwnedParts, D: Entries>(
    alloc: Global,
    part: RawView<'_>,
    deserializer: &mut D,
) -> Result<T, Error>
where
    X::Parts: DeserializeParts<T, D>,
    requires { IsPartOf X.ArchivePointee part }
    ensures read { IfOk result (λ t. ReadsPart X.ArchivePointee part D.Entries deserializer
        (product (T.meanings t)) (T.keys t)) }
    ensures refused { IfErr result (RefusesPart X.ArchivePointee part D.Entries deserializer) }
{
    let RawView { bytes, pos, .. } = part;
    <X::Parts as DeserializeParts<T, D>>::deserialize_parts(alloc, bytes, pos, 0, deserializer)
}
