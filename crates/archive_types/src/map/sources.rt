// Sorted maps as sources: their entries as one region, in the order of their keys, and the pointer to it.

ghost use Rattle.std.specs.Prelude.{◌≡◌, ◌<◌, ◌≤◌, ℕ, IfErr, OnOk, FitsSigned, length, true, false, refl};
ghost use Rattle.std.specs.Int.{w32};
ghost use Rattle.archive_check.specs.Shape.{sorted_map, entry_of};
ghost use Rattle.archive_check.specs.Value.{list};
ghost use Rattle.archive_check.specs.declared.format.error.Error.TheVariants.{LengthTooLarge, UnsortedKeys};
ghost use Rattle.archive_num.specs.Offsets.{distance};
ghost use Rattle.archive_types.specs.MapPairs.{pair_keys, pair_meaning};
ghost use Rattle.archive_types.specs.Outcomes.{ResolvesAs, SerializesAs, SerializesTo};
ghost use Rattle.archive_types.specs.Runs.{each_keys, each_meaning};
ghost use Rattle.archive_types.specs.ValueOrder.{keys_ascend};
ghost use Rattle.archive_types.specs.Words.WrittenPointers.{AtOnce, IsTooFarFrom, PointsTo};
ghost use Rattle.archive_types.specs.Writing.{map_flat};

use super::{ArchivedSortedMap, SortedKey};
use crate::owner_pointers::position_of;
use crate::place::Place;
use crate::slice::serialize_in_turn;
use crate::traits::{Archive, MapKey, Portable, Serialize};
use archive_check::format::error::Error;
use archive_num::FixedUsize;
use archive_num::owners::emplace_long_owner;
use archive_tuple::entries::is_ascending;
use archive_write::ser::{ResolverAlloc, Writer};
use std::marker::Model;

/// Where a map's entries were written, in bytes from the first one. In a contract it is that position.
#[derive(Clone, Copy, Debug)]
pub struct SortedMapResolver {
    pos: u32,
}

impl Model for SortedMapResolver {
    ghost Value = { ℕ };

    ghost view = { λ r. r.pos };

    ghost inverse = { λ n. record { pos = n } };
}

impl SortedMapResolver {
    /// The resolver of a map whose entries lie at `pos`, in bytes from the first one. The caller
    /// must ensure that it fits 32 bits.
    #[inline(always)]
    pub fn from_pos(pos: usize) -> SortedMapResolver
        requires { pos ≤ 4294967295 }
        ensures { result ≡ pos }
    {
        SortedMapResolver { pos: pos as u32 }
    }
}

// Whether the keys of entries ascend strictly, each behind the one before it.
pub(super) fn are_sorted<A: SortedKey, B: Archive>(entries: &[(A, B)]) -> bool
    ensures { result ≡ keys_ascend (each_meaning (pair_meaning A.meaning B.meaning) entries.now) }
{
    is_ascending(entries)
}

// Writes what the entries of a map own, in order, and then all of them as one region. Their keys ascend, and a pointer can say how many there are.
#[tactic(auto, using(crate::proofs::Planning::PlannedMaps::serialized_map, crate::proofs::Planning::PlannedMaps::map_refused, crate::proofs::Planning::PlannedMaps::far_map_refused))]
#[inline(always)]
pub(super) fn serialize_ordered<K: MapKey, V: Portable, T: Serialize<S>, S: Writer + ResolverAlloc>(
    entries: &[T],
    serializer: &mut S,
) -> Result<SortedMapResolver, Error>
    requires few { length entries.now ≤ 4294967295 }
    requires ordered { keys_ascend (each_meaning T.meaning entries.now) ≡ true }
    requires pairs { T.Archived.shape ≡ entry_of K.key V.shape }
    ensures { SerializesTo T.Archived.definitions (sorted_map K.key V.shape)
        (each_keys T.keys entries.now) (list (each_meaning T.meaning entries.now))
        (map_flat K.key V.shape (length entries.now)) (λ _. length entries.now ≤ 4294967295)
        (S.state serializer.old) (S.state serializer.new) result }
{
    let pos = serialize_in_turn(entries, serializer)?;
    let pos = position_of(pos)?;
    Ok(SortedMapResolver { pos })
}

impl<K: MapKey, V: Portable> ArchivedSortedMap<K, V> {
    /// Writes what each entry owns, in order, its key first, and then all entries as one region.
    ///
    /// Errors:
    /// - `LengthTooLarge`: exactly if there are more than 4,294,967,295 entries; nothing is
    ///   written.
    /// - `UnsortedKeys`: else if two neighbouring keys don't ascend; nothing is written.
    /// - `PositionTooLarge`: they lie above 4,294,967,295.
    /// - `LayoutTooLarge`: their region would end above `usize::MAX`.
    /// - `OutOfMemory`: memory for their resolvers is refused.
    /// - those of the keys, the values and the writer.
    #[tactic(auto, using(crate::proofs::Planning::Causes::goes_nowhere))]
    #[inline(always)]
    pub fn serialize_from_entries<
        A: SortedKey + Serialize<S, Archived = K>,
        B: Serialize<S, Archived = V>,
        S: Writer + ResolverAlloc,
    >(entries: &[(A, B)], serializer: &mut S) -> Result<SortedMapResolver, Error>
        ensures outcome { SerializesAs ⟦<Self as Portable>⟧
            (each_keys (pair_keys A.keys B.keys) entries.now)
            (list (each_meaning (pair_meaning A.meaning B.meaning) entries.now))
            (map_flat K.key V.shape (length entries.now)) (λ _. length entries.now ≤ 4294967295)
            S.Keys serializer result }
        ensures too_long { 4294967295 < length entries.now
            → AtOnce result LengthTooLarge S.Keys serializer }
        ensures unsorted { length entries.now ≤ 4294967295
            → keys_ascend (each_meaning (pair_meaning A.meaning B.meaning) entries.now) ≡ false
            → AtOnce result UnsortedKeys S.Keys serializer }
    {
        if entries.len() > u32::MAX as usize {
            return Err(Error::LengthTooLarge);
        }
        if !are_sorted(entries) {
            return Err(Error::UnsortedKeys);
        }
        serialize_ordered::<K, V, (A, B), S>(entries, serializer)
    }

    /// Writes the map's bytes over those of `place`, of `len` entries. The caller must ensure that
    /// these are eight, and that `len` is at most 4,294,967,295; `resolver` should be that of `len`
    /// entries. Fails with `IsizeOverflow` or `OffsetOverflow` exactly if the offset to the entries
    /// doesn't fit; the bytes are then unchanged.
    #[inline(always)]
    pub fn resolve_from_len(
        len: usize,
        resolver: SortedMapResolver,
        place: Place<'_, ArchivedSortedMap<K, V>>,
    ) -> Result<(), Error>
        requires sized { length place.bytes.now ≡ 8 }
        requires held { len ≤ 4294967295 }
        ensures outcome { ResolvesAs ⟦<Self as Portable>⟧ place
            (map_flat K.key V.shape len resolver) result }
        ensures written { OnOk result (PointsTo place true resolver len) }
        ensures fits { OnOk result (FitsSigned w32 (distance place.entry.pos resolver)) }
        ensures cause { IfErr result (IsTooFarFrom place resolver) }
    {
        let Place { bytes, pos, .. } = place;
        emplace_long_owner(resolver.pos as usize, len as FixedUsize, pos, bytes)
    }
}
