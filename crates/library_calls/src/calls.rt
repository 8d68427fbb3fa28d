//! Calls of the library, in functions that promise these calls' clauses, or some of them: wrong bodies of this module are refused.

ghost use Rattle.archive_core.specs.CallOutcomes.{ResolvesAs, SerializesAs};
ghost use Rattle.archive_core.specs.ComesTo.{IsComeTo};
ghost use Rattle.archive_core.specs.Layout.{pointer_size};
ghost use Rattle.archive_core.specs.Leaves.{edit};
ghost use Rattle.archive_core.specs.Readable.{target_from};
ghost use Rattle.archive_core.specs.Reads.{u32_at};
ghost use Rattle.archive_core.specs.SealedEntries.{entry_value};
ghost use Rattle.archive_core.specs.SealOutcomes.{IsSealOf, WritesNumber};
ghost use Rattle.archive_core.specs.Seen.{IsPartOf};
ghost use Rattle.archive_core.specs.SharedSeen.{FinishesTarget, HandsOutTarget};
ghost use Rattle.archive_core.specs.SharedPointers.{AnswersPending, flavor_of_type, keys_under};
ghost use Rattle.archive_core.specs.Value.{shared_value};
ghost use Rattle.archive_core.specs.WholeArchives.{AppendsTaken};
ghost use Rattle.archive_core.specs.Writing.{ZeroedPlace, box_flat, shared_flat, vec_flat};
ghost use Rattle.std.specs.Prelude.{IfOk, length, true, ◌*◌, ◌+◌, ◌<◌, ◌≡◌, ◌≤◌};

use archive_core::api::{HighSerializer, to_bytes_in};
use archive_core::boxed::{ArchivedBox, BoxResolver};
use archive_core::error::Error;
use archive_core::map::ArchivedSortedMap;
use archive_core::place::Place;
use archive_core::pooling::{Pooled, Pooling};
use archive_core::primitive::ArchivedU16;
use archive_core::rc::{ArchivedRc, Flavor, RcResolver, SharedStr};
use archive_core::recursive::{BoxAt, before_vec};
use archive_core::seal::{Seal, SealedLeaf, Spot};
use archive_core::ser::Writer;
use archive_core::sharing::Sharing;
use archive_core::slice::ArchivedSlice;
use archive_core::string::ArchivedStr;
use archive_core::traits::{
    Archive, ArchivePointee, Deserialize, Portable, PortablePointee, Serialize, SerializeUnsized,
};
use archive_core::vec::{ArchivedVec, VecResolver};
use archive_core::view::{RawView, Ref};
use std::alloc::Global;

/// Numbers by numbers.
pub type Numbers = ArchivedSortedMap<ArchivedU16, ArchivedU16>;

/// Appends an archive of `value` to what `writer` holds, and returns the writer. Fails as `to_bytes_in` does.
pub fn append<W: Writer + Drop, T: Serialize<HighSerializer<W, Global>>>(
    alloc: Global,
    value: &T,
    writer: W,
) -> Result<W, Error>
    ensures { AppendsTaken T.Archive T.Archived.Portable value.now W.Keys writer result }
{
    to_bytes_in(alloc, value, writer)
}

/// Writes `value` if `key` is unknown, and returns what its pointer is resolved with. Fails as `ArchivedRc::serialize_from_ref` does.
pub fn write_shared<
    T: PortablePointee,
    F: Flavor,
    U: SerializeUnsized<S, Archived = T>,
    S: Sharing + Writer,
>(key: u64, value: &U, serializer: &mut S) -> Result<RcResolver, Error>
where
    T::ArchivedMetadata: Drop,
    ensures outcome { SerializesAs ⟦<ArchivedRc<T, F> as Portable>⟧
        (keys_under F.Flavor T.ArchivePointee U.ArchiveUnsized key value.now) (shared_value key)
        (shared_flat (flavor_of_type F.Flavor) T.pointee (U.source_length value.now))
        (λ _. U.source_length value.now ≤ 4294967295) S.Keys serializer result }
    ensures pending { AnswersPending key result S.Keys serializer }
{
    ArchivedRc::<T, F>::serialize_from_ref(key, value, serializer)
}

/// Reads the text that a shared pointer leads to, which `pool` hands out at each pointer to it. Requires and fails as the call of `Deserialize` does.
pub fn read_shared<F: Flavor, D: Pooling<SharedStr>>(
    alloc: Global,
    part: RawView<'_>,
    pool: &mut D,
) -> Result<SharedStr, Error>
    requires { IsPartOf ⟦<ArchivedRc<ArchivedStr, F> as ArchivePointee>⟧ part }
    ensures handed_out { IfOk result (λ s. HandsOutTarget part D.Entries pool
        (⟦<SharedStr as Pooled>⟧.kept s)) }
    ensures finished { D.keeps ≡ true → IfOk result (λ s. FinishesTarget part D.Entries pool
        (⟦<SharedStr as Pooled>⟧.kept s)) }
{
    <ArchivedRc<ArchivedStr, F> as Deserialize<SharedStr, D>>::deserialize_part(alloc, part, pool)
}

/// Writes a value over the leaf at a spot, and over no other byte. The caller must ensure that seals reach it, and that it may hold the value.
pub fn write_over<T: SealedLeaf>(spot: Spot<T>, bytes: &mut [u8], value: T::Written)
    requires come_to { IsComeTo T.definitions bytes.old spot.pos T.pointee spot.len }
    requires can_hold { T.can_hold value }
    ensures edited { bytes.new ≡ edit bytes.old spot.pos (T.Written.bytes_of value) }
    ensures written { WritesNumber T.kind spot.pos T.pointee spot.len (T.Written.value_of value)
        bytes.old bytes.new }
{
    spot.seal(bytes).write(value);
}

/// The seal of the value of an entry of the map at a spot. The caller must ensure that there is such an entry, and that seals reach the map.
pub fn seal_of_value<'a>(
    map: Spot<Numbers>,
    bytes: &'a mut [u8],
    index: usize,
) -> Seal<'a, ArchivedU16>
    requires come_to { IsComeTo ⟦<Numbers as ArchivePointee>⟧.definitions bytes.old map.pos
        ⟦<Numbers as ArchivePointee>⟧.pointee map.len }
    requires below { index < u32_at bytes.old (map.pos + 4) }
    ensures buffer { result.bytes.now ≡ bytes.old }
    ensures position { result.pos ≡ entry_value ⟦<ArchivedU16 as Portable>⟧.layout
        ⟦<ArchivedU16 as Portable>⟧.layout bytes.old map.pos index }
    ensures come_to { IsSealOf ⟦<ArchivedU16 as ArchivePointee>⟧.definitions
        ⟦<ArchivedU16 as ArchivePointee>⟧.pointee result }
{
    map.seal(bytes).value_seal(index)
}

/// Writes a box's bytes over those of `place`, which are zeros. Fails as `ArchivedBox::resolve_from_raw_parts` does.
pub fn resolve_box<X: Portable>(
    resolver: BoxResolver,
    place: Place<'_, ArchivedBox<X>>,
) -> Result<(), Error>
    requires { ZeroedPlace (pointer_size X.pointee) place.pos place.bytes.now }
    ensures { ResolvesAs ⟦<ArchivedBox<X> as Portable>⟧ place (box_flat X.pointee 0 resolver) result }
{
    let Place { bytes, pos, .. } = place;
    BoxAt::<X>::new().resolve(resolver, Place::new(pos, bytes))
}

/// Writes a vector's bytes over those of `place`, of `len` elements. Requires and fails as `ArchivedVec::resolve_from_len` does.
pub fn resolve_vec<X: Portable>(
    len: usize,
    resolver: VecResolver,
    place: Place<'_, ArchivedVec<X>>,
) -> Result<(), Error>
    requires sized { length place.bytes.now ≡ 8 }
    requires held { len ≤ 4294967295 }
    ensures { ResolvesAs ⟦<ArchivedVec<X> as Portable>⟧ place (vec_flat X.shape len resolver) result }
{
    let Place { bytes, pos, .. } = place;
    ArchivedVec::<X>::resolve_from_len(len, resolver, Place::new(pos, bytes))
}

/// The view of a vector's elements, which end before the vector.
pub fn elements_of<'a, X: Portable>(view: Ref<'a, ArchivedVec<X>>) -> Ref<'a, ArchivedSlice<X>>
    ensures buffer { result.bytes.now ≡ view.entry.bytes.now }
    ensures position { result.pos ≡ target_from view.entry.bytes.now view.entry.pos view.entry.pos }
    ensures length { result.len ≡ u32_at view.entry.bytes.now (view.entry.pos + 4) }
    ensures ends { result.pos + result.len * X.layout.size ≤ view.entry.pos }
{
    before_vec(view)
}
