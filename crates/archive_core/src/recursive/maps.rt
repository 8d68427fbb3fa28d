// Sorted maps whose values lead back to what holds them: their entries are written and read back by functions of that type, and all else by these calls.

ghost use Rattle.std.specs.Prelude.{◌≡◌, ◌≤◌, ◌+◌, ◌*◌, IfErr, IfOk, None, length, map, true};
ghost use Rattle.archive_check.specs.Readable.{target_from};
ghost use Rattle.archive_check.specs.Reads.{u32_at};
ghost use Rattle.archive_check.specs.SelfCheck.Maps.{entry_definitions};
ghost use Rattle.archive_check.specs.Shape.{entry_of};
ghost use Rattle.archive_check.specs.Value.{product, shared_value};
ghost use Rattle.archive_check.specs.declared.format.error.Error.TheVariants.{OutOfMemory};
ghost use Rattle.archive_core.specs.recursive.HeldMaps.{InnerMapped, MappingRefused, IsMapped, IsNotMapped, IsReadMap, PairBelongs, pair_flat, pair_shape};
ghost use Rattle.archive_types.specs.MapPairs.{pair_keys, pair_meaning};
ghost use Rattle.archive_types.specs.Members.Arrays.{named_twice, no_two, twice_keyed};
ghost use Rattle.archive_types.specs.Members.Keyed.{nothing_keyed, part_keyed, record_keyed};
ghost use Rattle.archive_types.specs.Members.PartsPlanned.{no_part_planned, part_planned, product_planned};
ghost use Rattle.archive_types.specs.Outcomes.{ResolvesAs};
ghost use Rattle.archive_types.specs.Runs.{EachBelongs, each_flat, each_keys, each_meaning};
ghost use Rattle.archive_types.specs.ValueOrder.{keys_ascend};
ghost use Rattle.archive_types.specs.Words.Seen.{IsPartOf};
ghost use Rattle.archive_types.specs.Writing.{ZeroedPlace, map_flat};
ghost use Rattle.archive_write.specs.Written.{GoesOn};

use archive_check::format::bytes::{read_target, read_u32};
use archive_check::format::error::Error;
use archive_tuple::ArchivedTuple2;
use archive_types::map::{ArchivedSortedMap, SortedKey, SortedMapResolver};
use archive_types::parts::{PartOf, SourceParts};
use archive_types::place::Place;
use archive_types::record::resolve_record;
use archive_types::ser::{ResolveExt, ResolverAlloc, Writer, WriterExt};
use archive_types::slice::ArchivedSlice;
use archive_types::traits::{Archive, ArchivePointee, CopyOptimization, Keys, MapKey, Portable};
use archive_types::tuples::{Part0, Part1};
use archive_types::view::{RawView, Ref};
use std::alloc::{AllocError, Allocator, Global};
use std::collections::BTreeMap;
use std::marker::PhantomData;

/// A map whose entries, of keys of the format `K` and of values of the format `V`, were written before. It can be resolved, and nothing else: it means nothing.
#[derive(Drop)]
pub struct MapAt<K, V> {
    /// The number of entries.
    pub len: usize,
    of: PhantomData<(K, V)>,
}

impl<K, V> MapAt<K, V> {
    /// A map of `len` entries that were written.
    #[inline(always)]
    pub fn of(len: usize) -> MapAt<K, V>
        ensures { result.len ≡ len }
    {
        MapAt {
            len,
            of: PhantomData,
        }
    }
}

impl<K: MapKey, V: Portable> Archive for MapAt<K, V> {
    type Archived = ArchivedSortedMap<K, V>;

    type Resolver = SortedMapResolver;

    ghost meaning = { λ _. shared_value 0 };

    ghost flat = { λ m r. map_flat K.key V.shape m.len r };

    ghost keys = { λ _. named_twice };

    ghost belongs = { λ m _. m.len ≤ 4294967295 };

    ghost in_bulk = { None };

    ghost keyed = { λ _. twice_keyed };

    ghost planned = { λ _ a s names known named. absurd (no_two names named) };

    #[inline(always)]
    fn resolve(
        &self,
        resolver: SortedMapResolver,
        place: Place<'_, ArchivedSortedMap<K, V>>,
    ) -> Result<(), Error>
        requires zeroed { ZeroedPlace 8 place.pos place.bytes.now }
        requires same_value { self.now.len ≤ 4294967295 }
        ensures { ResolvesAs ⟦<Self::Archived as Portable>⟧ place
            (⟦<Self as Archive>⟧.flat self.now resolver) result }
    {
        let Place { bytes, pos, .. } = place;
        ArchivedSortedMap::<K, V>::resolve_from_len(self.len, resolver, Place::new(pos, bytes))
    }

    #[inline(always)]
    fn copy_optimization() -> CopyOptimization<Self> {
        CopyOptimization::disable()
    }

    #[inline(always)]
    fn serialize_copied<S: Writer + Keys>(
        _values: &[Self],
        _together: usize,
        _serializer: &mut S,
    ) -> Result<Option<usize>, Error> {
        Ok(None)
    }
}

// An entry of a map: its key and its value, where they are.
#[derive(Drop)]
struct Entry<'a, A, B> {
    key: &'a A,
    value: &'a B,
}

impl<'a, A: Archive, B> PartOf<Entry<'a, A, B>> for Part0 {
    type Source = A;

    ghost part = { λ e. e.key.now };

    #[inline(always)]
    fn part_of<'b>(whole: &'b Entry<'a, A, B>) -> &'b A {
        whole.key
    }
}

impl<'a, A, B: Archive> PartOf<Entry<'a, A, B>> for Part1 {
    type Source = B;

    ghost part = { λ e. e.value.now };

    #[inline(always)]
    fn part_of<'b>(whole: &'b Entry<'a, A, B>) -> &'b B {
        whole.value
    }
}

// The parts of an entry.
type EntryParts = (Part0, (Part1, ()));

impl<'a, A: Archive, B: Archive> Archive for Entry<'a, A, B> {
    type Archived = ArchivedTuple2<A::Archived, B::Archived>;

    type Resolver = (A::Resolver, (B::Resolver, ()));

    ghost meaning = { λ e. product (⟦<EntryParts as SourceParts<Entry<'a, A, B>>>⟧.meanings e) };

    ghost flat = { λ e r. product (⟦<EntryParts as SourceParts<Entry<'a, A, B>>>⟧.flats e r) };

    ghost keys = { λ e. ⟦<EntryParts as SourceParts<Entry<'a, A, B>>>⟧.keys e };

    ghost belongs = { λ e r. ⟦<EntryParts as SourceParts<Entry<'a, A, B>>>⟧.belongs e r };

    ghost in_bulk = { None };

    ghost keyed = { λ e. record_keyed (part_keyed (A.keyed e.key.now)
        (part_keyed (B.keyed e.value.now) nothing_keyed)) };

    ghost planned = { λ e. product_planned _ _ _ _ (part_planned _ _ _ _ (A.planned e.key.now)
        (part_planned _ _ _ _ (B.planned e.value.now) no_part_planned)) };

    #[inline(always)]
    fn resolve(
        &self,
        resolver: (A::Resolver, (B::Resolver, ())),
        place: Place<'_, ArchivedTuple2<A::Archived, B::Archived>>,
    ) -> Result<(), Error>
        requires zeroed { ZeroedPlace ⟦<Self::Archived as Portable>⟧.layout.size place.pos
            place.bytes.now }
        requires same_value { ⟦<Self as Archive>⟧.belongs self.now resolver }
        ensures { ResolvesAs ⟦<Self::Archived as Portable>⟧ place
            (⟦<Self as Archive>⟧.flat self.now resolver) result }
    {
        let Place { bytes, pos, .. } = place;
        resolve_record::<Self, EntryParts, Self::Archived>(self, resolver, Place::new(pos, bytes))
    }

    #[inline(always)]
    fn copy_optimization() -> CopyOptimization<Self> {
        CopyOptimization::disable()
    }

    #[inline(always)]
    fn serialize_copied<S: Writer + Keys>(
        _values: &[Self],
        _together: usize,
        _serializer: &mut S,
    ) -> Result<Option<usize>, Error> {
        Ok(None)
    }
}

// The entries of a map, in order, in memory from `alloc`.
fn entries_of<'a, M: Allocator + Drop, A: Ord, B>(
    alloc: M,
    source: &'a BTreeMap<A, B>,
) -> Result<Vec<Entry<'a, A, B>, M>, AllocError>
    ensures { IfOk result (λ es. map (λ e. (e.key.now, e.value.now)) es.items
        ≡ source.now.entries) }
{
    let mut entries = Vec::with_capacity(alloc, source.len())?;
    for (key, value) in source {
        entries.push_reserved(Entry { key, value });
    }
    Ok(entries)
}

// Writes the region of entries that were serialized, whose keys ascend.
#[inline(always)]
fn resolve_entries<
    K: MapKey,
    V: Portable,
    T: Archive,
    S: Writer + ResolverAlloc,
    B: Allocator + Drop,
>(
    entries: &[T],
    resolvers: Vec<T::Resolver, B>,
    serializer: &mut S,
) -> Result<SortedMapResolver, Error>
    requires ordered { keys_ascend (each_meaning T.meaning entries.now) ≡ true }
    requires pairs { T.Archived.shape ≡ entry_of K.key V.shape }
    requires same_values { EachBelongs T.belongs entries.now resolvers.items }
    ensures mapped { IfOk result (InnerMapped T.Archive T.Archived.Portable K.key V.shape
        entries.now resolvers.items S.Keys serializer) }
    ensures goes_on { GoesOn (S.state serializer.old) (S.state serializer.new) }
    ensures refused { IfErr result (MappingRefused T.Archive T.Archived.Portable K.key V.shape
        entries.now resolvers.items S.Keys serializer) }
{
    let alloc = serializer.resolver_alloc();
    serializer.align_for::<T::Archived>()?;
    let pos = serializer.resolve_slice_aligned(alloc, entries, resolvers)?;
    if pos > 4294967295 {
        return Err(Error::PositionTooLarge);
    }
    Ok(SortedMapResolver::from_pos(pos))
}

/// Writes the region of a map's entries that were serialized, and returns the resolver of the map. The caller must ensure that each resolver is one of its
/// entry. Fails as the resolving of a key or of a value does, with `PositionTooLarge` where the region begins above 4,294,967,295, with `LayoutTooLarge` where
/// it would end above `usize::MAX`, with `OutOfMemory`, or as the writer fails.
#[inline(never)]
pub fn serialize_inner_map<
    S: Writer + ResolverAlloc,
    K: SortedKey,
    V: Archive,
    B: Allocator + Drop,
>(
    source: &BTreeMap<K, V>,
    resolvers: Vec<(K::Resolver, (V::Resolver, ())), B>,
    serializer: &mut S,
) -> Result<SortedMapResolver, Error>
where
    K::Archived: MapKey,
    requires same_values { EachBelongs (PairBelongs K.belongs V.belongs) source.now.entries
        resolvers.items }
    ensures mapped { IfOk result (λ t.
        IsMapped (entry_definitions K.Archived.definitions V.Archived.definitions)
        (pair_shape K.Archived.shape V.Archived.shape) K.Archived.key
        V.Archived.shape (length source.now.entries)
        (each_keys (pair_keys K.keys V.keys) source.now.entries)
        (each_meaning (pair_meaning K.meaning V.meaning) source.now.entries)
        (each_flat (pair_flat K.flat V.flat) source.now.entries resolvers.items) t
        (S.state serializer.old) (S.state serializer.new)) }
    ensures goes_on { GoesOn (S.state serializer.old) (S.state serializer.new) }
    ensures refused { IfErr result
        (IsNotMapped (entry_definitions K.Archived.definitions V.Archived.definitions)
        (pair_shape K.Archived.shape V.Archived.shape) K.Archived.key
        V.Archived.shape (length source.now.entries)
        (each_keys (pair_keys K.keys V.keys) source.now.entries)
        (each_meaning (pair_meaning K.meaning V.meaning) source.now.entries)
        (each_flat (pair_flat K.flat V.flat) source.now.entries resolvers.items)
        (S.state serializer.old) (S.state serializer.new)) }
{
    // The contract of `len` says that the keys ascend.
    let _count = source.len();
    let entries = entries_of(serializer.resolver_alloc(), source)?;
    resolve_entries::<K::Archived, V::Archived, Entry<'_, K, V>, S, B>(
        &entries, resolvers, serializer,
    )
}

/// The view of a map's entries, which end before the map, as elements of the format `X`: a key and its value.
#[inline(always)]
pub fn before_map<'a, K: MapKey, V: Portable, X: Portable>(
    part: RawView<'a>,
) -> Ref<'a, ArchivedSlice<X>>
    requires viewed { IsPartOf ⟦<ArchivedSortedMap<K, V> as ArchivePointee>⟧ part }
    requires pairs { X.shape ≡ pair_shape K.shape V.shape }
    requires definitions { X.definitions ≡ entry_definitions K.definitions V.definitions }
    ensures buffer { result.bytes.now ≡ part.entry.bytes.now }
    ensures position { result.pos ≡ target_from part.entry.bytes.now part.entry.pos part.entry.pos }
    ensures length { result.len ≡ u32_at part.entry.bytes.now (part.entry.pos + 4) }
    ensures ends { result.pos + result.len * X.layout.size ≤ part.entry.pos }
{
    let RawView { bytes, pos, .. } = part;
    Ref::at(RawView {
        bytes,
        pos: read_target(bytes, pos, pos),
        len: read_u32(bytes, pos + 4) as usize,
    })
}

/// The map of the pairs that the entries of a map were read back as.
#[inline(always)]
pub fn collect_map<K: MapKey, V: Portable, A: SortedKey + Drop, B: Archive + Drop>(
    alloc: Global,
    part: RawView<'_>,
    pairs: Vec<(A, B)>,
) -> Result<BTreeMap<A, B>, Error>
    requires { IsPartOf ⟦<ArchivedSortedMap<K, V> as ArchivePointee>⟧ part }
    ensures read { IfOk result (λ m. IsReadMap (entry_definitions K.definitions V.definitions)
        part.entry.bytes.now part.entry.pos part.entry.len K.shape V.shape K.key
        (each_meaning (pair_meaning A.meaning B.meaning) pairs.items)
        (each_meaning (pair_meaning A.meaning B.meaning) m.entries)
        (each_keys (pair_keys A.keys B.keys) pairs.items)
        (each_keys (pair_keys A.keys B.keys) m.entries)) }
    ensures refused { IfErr result (λ e. e ≡ OutOfMemory) }
{
    // The contract alone speaks of the part.
    let _part = part;
    Ok(BTreeMap::from_iter(alloc, pairs)?)
}
