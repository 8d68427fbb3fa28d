//! Folders: a recursive struct with a sorted map that leads back to it.

use std::collections::BTreeMap;

/// A folder.
#[derive(Debug, PartialEq, Drop)]
pub struct Folder {
    /// Its number.
    pub id: u8,
    /// What is in it, by name.
    pub entries: BTreeMap<String, Folder>,
}

// Below this line all is written by tools/derive: change what is above it, and run it again.

ghost use Rattle.archive_core.specs.CallOutcomes.{ResolvesAs};
ghost use Rattle.archive_core.specs.Causes.{IsRefused};
ghost use Rattle.archive_core.specs.Definitions.{both, no_definition};
ghost use Rattle.archive_core.specs.Expressed.{ExpressesParts};
ghost use Rattle.archive_core.specs.Fields.{field_in};
ghost use Rattle.archive_core.specs.PlannedOwners.{one_planned};
ghost use Rattle.archive_core.specs.Plans.{Serialized};
ghost use Rattle.archive_core.specs.ReadBack.{Read, ReadsAs};
ghost use Rattle.archive_core.specs.Runs.{EachBelongs, IsRunRefused, SerializedRun, each_flat, each_keys, each_meaning};
ghost use Rattle.archive_core.specs.SealOutcomes.{IsSealOf, SealsPart};
ghost use Rattle.archive_core.specs.Seen.{IsPartOf, ReadsPart, RefusesPart, ShowsValueOf};
ghost use Rattle.archive_core.specs.SelfCheck.Laws.{by_schema};
ghost use Rattle.archive_core.specs.Shape.{one, part, parts};
ghost use Rattle.archive_core.specs.Value.{list, value};
ghost use Rattle.archive_core.specs.Writing.{ZeroedPlace};
ghost use Rattle.archive_core.specs.Written.{GoesOn};
ghost use Rattle.recursive_fields.specs.FolderMeaning.{pair_string_folder_keys, pair_string_folder_meaning};
ghost use Rattle.recursive_fields.specs.FolderShape.{folder_definitions, folder_has_layout, folder_has_parts, folder_is_align, folder_layout, folder_no_others, folder_parts, folder_shape, map_string_folder_shape, pair_string_folder_definitions, pair_string_folder_has_layout, pair_string_folder_has_parts, pair_string_folder_is_align, pair_string_folder_layout, pair_string_folder_no_others, pair_string_folder_parts, pair_string_folder_shape};
ghost use Rattle.std.proofs.Common.{lit≤};
ghost use Rattle.std.specs.Prelude.{IfErr, IfOk, None, length, refl, ◌+◌, ◌≡◌, ◌≤◌};

use archive_core::core_impls::ArchivedTuple2;
use archive_core::error::Error;
use archive_core::map::{ArchivedSortedMap, SortedMapResolver};
use archive_core::place::Place;
use archive_core::recursive::{
    MapAt, before_map, collect_map, define_record, expression_of, first_expression, handed_on,
    map_expression, named_expression, no_expressions, part_of_record, read_part,
    resolve_named_record_2, seal_of_field, serialize_inner_map, serialize_part, view_of_field,
};
use archive_core::seal::Seal;
use archive_core::self_check::BySchema;
use archive_core::ser::{ResolverAlloc, Writer, serialize_one};
use archive_core::shape::Defs;
use archive_core::string::ArchivedString;
use archive_core::traits::{
    Archive, ArchivePointee, ArchiveUnsized, CopyOptimization, Deserialize, Entries, Keys,
    Portable, PortableParts, Record, Serialize, SerializeUnsized, expr_of_record,
};
use archive_core::view::{RawView, Ref};
use std::alloc::{AllocError, Global};

/// An archived `Folder`: 12 bytes at a multiple of 4. It is validated by its schema.
pub struct ArchivedFolder;

type FolderParts = (u8, (ArchivedSortedMap<ArchivedString, ArchivedFolder>, ()));

impl ArchivePointee for ArchivedFolder {
    type ArchivedMetadata = ();

    ghost pointee = { one folder_shape };

    ghost definitions = { folder_definitions };

    ghost metadata_length = { λ _. 0 };

    fn pointer_metadata(_metadata: &()) -> usize {
        0
    }
}

/// `ArchivedTuple2<ArchivedString, ArchivedFolder>` by a name, for the functions below.
pub struct PairStringFolder;

type PairStringFolderParts = (ArchivedString, (ArchivedFolder, ()));

impl ArchivePointee for PairStringFolder {
    type ArchivedMetadata = ();

    ghost pointee = { one pair_string_folder_shape };

    ghost definitions = { pair_string_folder_definitions };

    ghost metadata_length = { λ _. 0 };

    fn pointer_metadata(_metadata: &()) -> usize {
        0
    }
}

impl Portable for PairStringFolder {
    ghost shape = { pair_string_folder_shape };

    ghost layout = { pair_string_folder_layout };

    type Check = BySchema;

    ghost is_one = { refl };

    ghost is_align = { pair_string_folder_is_align };

    ghost has_layout = { pair_string_folder_has_layout };

    ghost no_others = { pair_string_folder_no_others };

    ghost checks = { λ direct. by_schema direct };

    fn size() -> usize {
        20
    }

    fn align() -> usize {
        4
    }

    fn expr(alloc: Global) -> Result<archive_core::shape::Expr, Error> {
        expr_of_record::<PairStringFolderParts>(alloc)
    }

    fn define(alloc: Global, defs: &mut Defs) -> Result<(), Error> {
        <PairStringFolderParts as PortableParts>::define(alloc, defs)
    }
}

impl Record for PairStringFolder {
    type Parts = PairStringFolderParts;

    ghost has_parts = { pair_string_folder_has_parts };

    ghost holds = { lit≤ tt };
}

// The parts of a tuple.
fn pair_string_folder_expressions(
    alloc: Global,
) -> Result<Vec<archive_core::shape::Expr>, AllocError>
    ensures { ExpressesParts pair_string_folder_parts result }
{
    let rest2 = no_expressions(alloc);
    let rest1 = first_expression(named_expression("ArchivedFolder"), rest2);
    first_expression(expression_of::<ArchivedString>(alloc), rest1)
}

// The parts of `Folder`.
fn folder_expressions(alloc: Global) -> Result<Vec<archive_core::shape::Expr>, AllocError>
    ensures { ExpressesParts folder_parts result }
{
    let rest2 = no_expressions(alloc);
    let rest1 = first_expression(
        map_expression::<ArchivedString>(alloc, named_expression("ArchivedFolder")),
        rest2,
    );
    first_expression(expression_of::<u8>(alloc), rest1)
}

impl Portable for ArchivedFolder {
    ghost shape = { folder_shape };

    ghost layout = { folder_layout };

    type Check = BySchema;

    ghost is_one = { refl };

    ghost is_align = { folder_is_align };

    ghost has_layout = { folder_has_layout };

    ghost no_others = { folder_no_others };

    ghost checks = { λ direct. by_schema direct };

    fn size() -> usize {
        12
    }

    fn align() -> usize {
        4
    }

    fn expr(_alloc: Global) -> Result<archive_core::shape::Expr, Error> {
        Ok(archive_core::shape::Expr::Named("ArchivedFolder"))
    }

    fn define(alloc: Global, defs: &mut Defs) -> Result<(), Error> {
        define_record("ArchivedFolder", folder_expressions(alloc), defs)
    }
}

impl Record for ArchivedFolder {
    type Parts = FolderParts;

    ghost has_parts = { folder_has_parts };

    ghost holds = { lit≤ tt };
}

/// What is kept of `Folder` between `serialize` and `resolve`.
#[derive(Drop)]
pub struct FolderResolver {
    kept: (<u8 as Archive>::Resolver, (SortedMapResolver, ())),
}

impl Archive for Folder {
    ghost use Rattle.recursive_fields.specs.FolderMeaning.{folder_meaning, folder_flat, folder_keys, folder_belongs, folder_keyed, folder_planned};

    type Archived = ArchivedFolder;

    type Resolver = FolderResolver;

    ghost meaning = { folder_meaning };

    ghost flat = { folder_flat };

    ghost keys = { folder_keys };

    ghost belongs = { folder_belongs };

    ghost in_bulk = { None };

    ghost keyed = { folder_keyed };

    ghost planned = { folder_planned };

    #[inline(always)]
    fn resolve(
        &self,
        resolver: Self::Resolver,
        place: Place<'_, Self::Archived>,
    ) -> Result<(), Error>
        requires zeroed { ZeroedPlace 12 place.pos place.bytes.now }
        requires same_value { ⟦<Self as Archive>⟧.belongs self.now resolver }
        ensures { ResolvesAs ⟦<Self::Archived as Portable>⟧ place
            (⟦<Self as Archive>⟧.flat self.now resolver) result }
    {
        let Place { bytes, pos, .. } = place;
        let FolderResolver { kept } = resolver;
        let h1: MapAt<ArchivedString, ArchivedFolder> = MapAt::of(self.entries.len());
        resolve_named_record_2::<u8, MapAt<ArchivedString, ArchivedFolder>, ArchivedFolder>(
            &self.id,
            &h1,
            kept,
            Place::new(pos, bytes),
        )
    }

    #[inline(always)]
    fn copy_optimization() -> CopyOptimization<Self> {
        CopyOptimization::disable()
    }

    #[inline(always)]
    fn serialize_copied<S: Writer + Keys>(
        _values: &[Self],
        _together: usize,
        _serializer: &mut S,
    ) -> Result<Option<usize>, Error> {
        Ok(None)
    }
}

// Writes what each of the entries owns, in order.
#[cycle(serialize_folder)]
fn serialize_entries_map_string_folder<S: Writer + Keys + ResolverAlloc>(
    values: &BTreeMap<String, Folder>,
    serializer: &mut S,
) -> Result<Vec<<(String, Folder) as Archive>::Resolver, S::Alloc>, Error>
    ensures serialized { IfOk result (λ rs. SerializedRun pair_string_folder_definitions
        pair_string_folder_shape (length values.now.entries)
        (each_keys ⟦<(String, Folder) as Archive>⟧.keys values.now.entries)
        (each_meaning ⟦<(String, Folder) as Archive>⟧.meaning values.now.entries)
        (each_flat ⟦<(String, Folder) as Archive>⟧.flat values.now.entries rs.items)
        (S.state serializer.old) (S.state serializer.new)) }
    ensures same_values { IfOk result (λ rs. EachBelongs ⟦<(String, Folder) as Archive>⟧.belongs
        values.now.entries rs.items) }
    ensures goes_on { GoesOn (S.state serializer.old) (S.state serializer.new) }
    ensures refused { IfErr result (IsRunRefused pair_string_folder_definitions
        pair_string_folder_shape (length values.now.entries)
        (each_keys ⟦<(String, Folder) as Archive>⟧.keys values.now.entries)
        (each_meaning ⟦<(String, Folder) as Archive>⟧.meaning values.now.entries)
        (S.state serializer.old) (S.state serializer.new)) }
{
    let alloc = serializer.resolver_alloc();
    let mut resolvers = Vec::with_capacity(alloc, values.len())?;
    for (key, value) in values {
        let a0 = match serialize_part(key, serializer) {
            Ok(a0) => a0,
            Err(error) => return Err(error),
        };
        let a1 = match serialize_folder(value, serializer) {
            Ok(a1) => a1,
            Err(error) => return Err(handed_on(error)),
        };
        resolvers.push((a0, (a1, ()))).map_err(AllocError::from)?;
    }
    Ok(resolvers)
}

// Writes what a map owns.
#[cycle(serialize_folder)]
fn serialize_map_string_folder<S: Writer + Keys + ResolverAlloc>(
    value: &BTreeMap<String, Folder>,
    serializer: &mut S,
) -> Result<SortedMapResolver, Error>
    ensures serialized { IfOk result (λ r. Serialized pair_string_folder_definitions
        map_string_folder_shape (⟦<BTreeMap<String, Folder> as Archive>⟧.keys value.now)
        (⟦<BTreeMap<String, Folder> as Archive>⟧.meaning value.now)
        (⟦<BTreeMap<String, Folder> as Archive>⟧.flat value.now r) (S.state serializer.old)
        (S.state serializer.new)) }
    ensures same_value { IfOk result (λ r. ⟦<BTreeMap<String, Folder> as Archive>⟧.belongs value.now
        r) }
    ensures goes_on { GoesOn (S.state serializer.old) (S.state serializer.new) }
    ensures refused { IfErr result (IsRefused pair_string_folder_definitions map_string_folder_shape
        (⟦<BTreeMap<String, Folder> as Archive>⟧.keys value.now)
        (⟦<BTreeMap<String, Folder> as Archive>⟧.meaning value.now) (S.state serializer.old)
        (S.state serializer.new)) }
{
    if value.len() > u32::MAX as usize {
        return Err(Error::LengthTooLarge);
    }
    let kept = match serialize_entries_map_string_folder(value, serializer) {
        Ok(kept) => kept,
        Err(error) => return Err(error),
    };
    match serialize_inner_map(value, kept, serializer) {
        Ok(at) => Ok(at),
        Err(error) => Err(error),
    }
}

// Writes what a value owns, part by part.
#[cycle(serialize_folder)]
fn serialize_whole_folder<S: Writer + Keys + ResolverAlloc>(
    value: &Folder,
    serializer: &mut S,
) -> Result<FolderResolver, Error>
    ensures serialized { IfOk result (λ r. Serialized folder_definitions folder_shape
        (⟦<Folder as Archive>⟧.keys value.now) (⟦<Folder as Archive>⟧.meaning value.now)
        (⟦<Folder as Archive>⟧.flat value.now r) (S.state serializer.old)
        (S.state serializer.new)) }
    ensures same_value { IfOk result (λ r. ⟦<Folder as Archive>⟧.belongs value.now r) }
    ensures goes_on { GoesOn (S.state serializer.old) (S.state serializer.new) }
    ensures refused { IfErr result (IsRefused folder_definitions folder_shape
        (⟦<Folder as Archive>⟧.keys value.now) (⟦<Folder as Archive>⟧.meaning value.now)
        (S.state serializer.old) (S.state serializer.new)) }
{
    let a0 = match serialize_part(&value.id, serializer) {
        Ok(a0) => a0,
        Err(error) => return Err(error),
    };
    let a1 = match serialize_map_string_folder(&value.entries, serializer) {
        Ok(a1) => a1,
        Err(error) => return Err(handed_on(error)),
    };
    Ok(FolderResolver {
        kept: (a0, (a1, ())),
    })
}

// The same by a call, whose result has its room only while it lasts.
#[cycle(serialize_folder)]
#[inline(always)]
fn serialize_folder<S: Writer + Keys + ResolverAlloc>(
    value: &Folder,
    serializer: &mut S,
) -> Result<FolderResolver, Error>
    ensures serialized { IfOk result (λ r. Serialized folder_definitions folder_shape
        (⟦<Folder as Archive>⟧.keys value.now) (⟦<Folder as Archive>⟧.meaning value.now)
        (⟦<Folder as Archive>⟧.flat value.now r) (S.state serializer.old)
        (S.state serializer.new)) }
    ensures same_value { IfOk result (λ r. ⟦<Folder as Archive>⟧.belongs value.now r) }
    ensures goes_on { GoesOn (S.state serializer.old) (S.state serializer.new) }
    ensures refused { IfErr result (IsRefused folder_definitions folder_shape
        (⟦<Folder as Archive>⟧.keys value.now) (⟦<Folder as Archive>⟧.meaning value.now)
        (S.state serializer.old) (S.state serializer.new)) }
{
    serialize_whole_folder(value, serializer)
}

impl<S: Writer + Keys + ResolverAlloc> Serialize<S> for Folder {
    #[inline(always)]
    fn serialize(&self, serializer: &mut S) -> Result<Self::Resolver, Error> {
        serialize_folder(self, serializer)
    }
}

/// As a region of its own: the value itself.
impl ArchiveUnsized for Folder {
    ghost use Rattle.recursive_fields.specs.contracts.folder.FolderArchive.TheImpl.Laws.{keyed-law as keyed_of_folder, planned-law as planned_of_folder};

    type Archived = ArchivedFolder;

    ghost source_length = { λ _. 0 };

    ghost meaning = { ⟦<Folder as Archive>⟧.meaning };

    ghost keys = { ⟦<Folder as Archive>⟧.keys };

    ghost keyed = { keyed_of_folder };

    ghost one_length = { λ _ _. refl };

    ghost planned = { λ v. one_planned folder_definitions folder_shape
        (⟦<Folder as Archive>⟧.keys v) (⟦<Folder as Archive>⟧.meaning v) (planned_of_folder v) };

    #[inline(always)]
    fn archived_metadata(&self) -> Result<(), Error> {
        Ok(())
    }
}

impl<S: Writer + Keys + ResolverAlloc> SerializeUnsized<S> for Folder {
    #[inline(always)]
    fn serialize_unsized(&self, serializer: &mut S) -> Result<usize, Error> {
        serialize_one(self, serializer)
    }
}

// Reads a tuple back, part by part.
#[cycle(read_folder)]
#[inline(always)]
fn read_pair_string_folder<D: Entries>(
    alloc: Global,
    part: RawView<'_>,
    deserializer: &mut D,
) -> Result<(String, Folder), Error>
    requires { IsPartOf ⟦<PairStringFolder as ArchivePointee>⟧ part }
    ensures read { IfOk result (λ t. ReadsPart ⟦<PairStringFolder as ArchivePointee>⟧ part D.Entries
        deserializer (pair_string_folder_meaning t) (pair_string_folder_keys t)) }
    ensures refused { IfErr result (RefusesPart ⟦<PairStringFolder as ArchivePointee>⟧ part
        D.Entries deserializer) }
{
    let p0 = part_of_record::<PairStringFolder, ArchivedString>(part, 0, 0);
    let a0 = match read_part::<ArchivedString, String, D>(alloc, p0, deserializer) {
        Ok(a0) => a0,
        Err(error) => return Err(error),
    };
    let p1 = part_of_record::<PairStringFolder, ArchivedFolder>(part, 1, 8);
    let a1 = match read_folder(alloc, p1, deserializer) {
        Ok(a1) => a1,
        Err(error) => return Err(error),
    };
    Ok((a0, a1))
}

// Reads a map back.
#[cycle(read_folder)]
#[inline(always)]
fn read_map_string_folder<D: Entries>(
    alloc: Global,
    part: RawView<'_>,
    deserializer: &mut D,
) -> Result<BTreeMap<String, Folder>, Error>
    requires { IsPartOf ⟦<ArchivedSortedMap<ArchivedString, ArchivedFolder> as ArchivePointee>⟧
        part }
    ensures read { IfOk result
        (Read ⟦<ArchivedSortedMap<ArchivedString, ArchivedFolder> as ArchivePointee>⟧ part D.Entries
        deserializer ⟦<BTreeMap<String, Folder> as Archive>⟧) }
    ensures refused { IfErr result
        (RefusesPart ⟦<ArchivedSortedMap<ArchivedString, ArchivedFolder> as ArchivePointee>⟧ part
        D.Entries deserializer) }
{
    let list = before_map::<ArchivedString, ArchivedFolder, PairStringFolder>(part);
    let mut items = Vec::with_capacity(alloc, list.len())?;
    for index in 0..list.len() {
        let item = match read_pair_string_folder(alloc, list.index(index).part(), deserializer) {
            Ok(item) => item,
            Err(error) => return Err(error),
        };
        items.push_reserved(item);
    }
    collect_map::<ArchivedString, ArchivedFolder, String, Folder>(alloc, part, items)
}

// Reads a value back, part by part.
#[cycle(read_folder)]
fn read_folder<D: Entries>(
    alloc: Global,
    part: RawView<'_>,
    deserializer: &mut D,
) -> Result<Folder, Error>
    requires { IsPartOf ⟦<ArchivedFolder as ArchivePointee>⟧ part }
    ensures read { IfOk result (Read ⟦<ArchivedFolder as ArchivePointee>⟧ part D.Entries
        deserializer ⟦<Folder as Archive>⟧) }
    ensures refused { IfErr result (RefusesPart ⟦<ArchivedFolder as ArchivePointee>⟧ part D.Entries
        deserializer) }
{
    let p0 = part_of_record::<ArchivedFolder, u8>(part, 0, 0);
    let a0 = match read_part::<u8, u8, D>(alloc, p0, deserializer) {
        Ok(a0) => a0,
        Err(error) => return Err(error),
    };
    let p1 = part_of_record::<ArchivedFolder, ArchivedSortedMap<ArchivedString, ArchivedFolder>>(
        part, 1, 4,
    );
    let a1 = match read_map_string_folder(alloc, p1, deserializer) {
        Ok(a1) => a1,
        Err(error) => return Err(error),
    };
    Ok(Folder {
        id: a0,
        entries: a1,
    })
}

impl<D: Entries> Deserialize<Folder, D> for ArchivedFolder {
    #[inline(always)]
    fn deserialize_part(
        alloc: Global,
        part: RawView<'_>,
        deserializer: &mut D,
    ) -> Result<Folder, Error>
        requires { IsPartOf ⟦<Self as ArchivePointee>⟧ part }
        ensures { ReadsAs ⟦<Self as ArchivePointee>⟧ part D.Entries deserializer
            ⟦<Folder as Archive>⟧ result }
    {
        read_folder(alloc, part, deserializer)
    }
}

/// The fields of an archived `Folder`, as views.
pub trait FolderView<'a> {
    /// Its number.
    fn id(self) -> Ref<'a, u8>;

    /// What is in it, by name.
    fn entries(self) -> Ref<'a, ArchivedSortedMap<ArchivedString, ArchivedFolder>>;
}

impl<'a> FolderView<'a> for Ref<'a, ArchivedFolder> {
    fn id(self) -> Ref<'a, u8>
        ensures buffer { result.bytes.now ≡ self.entry.bytes.now }
        ensures position { result.pos ≡ self.entry.pos + 0 }
        ensures length { result.len ≡ 0 }
        ensures shows { ShowsValueOf result self.entry (field_in 0) }
    {
        view_of_field::<ArchivedFolder, u8>(self, 0, 0)
    }

    fn entries(self) -> Ref<'a, ArchivedSortedMap<ArchivedString, ArchivedFolder>>
        ensures buffer { result.bytes.now ≡ self.entry.bytes.now }
        ensures position { result.pos ≡ self.entry.pos + 4 }
        ensures length { result.len ≡ 0 }
        ensures shows { ShowsValueOf result self.entry (field_in 1) }
    {
        view_of_field::<ArchivedFolder, ArchivedSortedMap<ArchivedString, ArchivedFolder>>(
            self, 1, 4,
        )
    }
}

/// The fields of an archived `Folder`, as seals.
pub trait FolderSeal<'a> {
    // The seal shows a part of a buffer that was checked.
    ghost sealed: { Self → Type 0 };

    /// Its number.
    fn id_mut(self) -> Seal<'a, u8>
        requires { sealed self };

    /// What is in it, by name.
    fn entries_mut(self) -> Seal<'a, ArchivedSortedMap<ArchivedString, ArchivedFolder>>
        requires { sealed self };
}

impl<'a> FolderSeal<'a> for Seal<'a, ArchivedFolder> {
    ghost sealed = { λ s. IsSealOf folder_definitions (one ⟦<ArchivedFolder as Portable>⟧.shape)
        s };

    fn id_mut(self) -> Seal<'a, u8>
        requires come_to { IsSealOf folder_definitions (one ⟦<ArchivedFolder as Portable>⟧.shape)
            self }
        ensures { SealsPart folder_definitions (one ⟦<ArchivedFolder as Portable>⟧.shape)
            no_definition ⟦<u8 as ArchivePointee>⟧.pointee (self.entry.pos + 0) 0 self.entry
            result }
    {
        seal_of_field::<ArchivedFolder, u8>(self, 0, 0)
    }

    fn entries_mut(self) -> Seal<'a, ArchivedSortedMap<ArchivedString, ArchivedFolder>>
        requires come_to { IsSealOf folder_definitions (one ⟦<ArchivedFolder as Portable>⟧.shape)
            self }
        ensures { SealsPart folder_definitions (one ⟦<ArchivedFolder as Portable>⟧.shape)
            (both no_definition (both ⟦<ArchivedFolder as ArchivePointee>⟧.definitions
            no_definition))
            ⟦<ArchivedSortedMap<ArchivedString, ArchivedFolder> as ArchivePointee>⟧.pointee
            (self.entry.pos + 4) 0 self.entry result }
    {
        seal_of_field::<ArchivedFolder, ArchivedSortedMap<ArchivedString, ArchivedFolder>>(
            self, 1, 4,
        )
    }
}
