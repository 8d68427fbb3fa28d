//! Folders.

/// A folder.
#[derive(Debug, PartialEq, Drop)]
#[cycle(dir)]
pub struct Dir {
    /// Its name.
    pub name: String,
    /// What is in it.
    pub entries: Vec<Entry>,
}

/// What is in a folder.
#[derive(Debug, PartialEq, Drop)]
#[cycle(dir)]
pub enum Entry {
    /// A file, by its length.
    File(u64),
    /// A folder.
    Sub(Box<Dir>),
}

// Below this line all is written by tools/derive: change what is above it, and run it again.

ghost use Rattle.archive_core.specs.CallOutcomes.{ResolvesAs};
ghost use Rattle.archive_core.specs.Causes.{HindersAt, IsRefused};
ghost use Rattle.archive_core.specs.Definitions.{ExplainsConflict, Extended, both, defines, no_definition};
ghost use Rattle.archive_core.specs.Expressed.{ExpressesParts, ExpressesVariants};
ghost use Rattle.archive_core.specs.Expressions.{table_of};
ghost use Rattle.archive_core.specs.Fields.{field_in};
ghost use Rattle.archive_core.specs.Layout.{up};
ghost use Rattle.archive_core.specs.OwnChoices.{variant_definitions};
ghost use Rattle.archive_core.specs.Payloads.{payload_in};
ghost use Rattle.archive_core.specs.PlannedOwners.{one_planned};
ghost use Rattle.archive_core.specs.Plans.{Serialized};
ghost use Rattle.archive_core.specs.ReadBack.{Read, ReadsAs};
ghost use Rattle.archive_core.specs.Runs.{EachBelongs, IsRunRefused, SerializedRun, each_flat, each_keys, each_meaning};
ghost use Rattle.archive_core.specs.SealOutcomes.{IsSealOf, SealsPart, seal_tag};
ghost use Rattle.archive_core.specs.Seen.{IsPartOf, RefusesPart, ShowsValueOf, part_tag, tag_of};
ghost use Rattle.archive_core.specs.SelfCheck.Laws.{by_schema};
ghost use Rattle.archive_core.specs.Shape.{boxed, no_part, one, part, parts, variant, variant_at, vec};
ghost use Rattle.archive_core.specs.Value.{case, no_value, value};
ghost use Rattle.archive_core.specs.Writing.{Resolves, ZeroedPlace};
ghost use Rattle.archive_core.specs.Written.{GoesOn};
ghost use Rattle.recursive_types.specs.DirShape.{dir_definitions, dir_has_layout, dir_has_parts, dir_is_align, dir_layout, dir_name, dir_no_others, dir_parts, dir_shape, dir_stands_for, entry_definitions, entry_file_parts, entry_has_layout, entry_has_variants, entry_is_align, entry_layout, entry_name, entry_no_others, entry_shape, entry_stands_for, entry_sub_parts, entry_variant_definitions, entry_variants};
ghost use Rattle.std.proofs.Common.{lit≤};
ghost use Rattle.std.specs.Prelude.{IfErr, IfOk, None, OnOk, Some, [], length, refl, ℕ, ◌++◌, ◌+◌, ◌<◌, ◌≡◌, ◌≤◌};

use archive_core::boxed::{ArchivedBox, BoxResolver};
use archive_core::error::Error;
use archive_core::fields::resolve_1;
use archive_core::place::Place;
use archive_core::primitive::ArchivedU64;
use archive_core::recursive::{
    BoxAt, VecAt, before_box, before_vec, boxed_expression, define_choice, define_record,
    expression_of, first_expression, first_variant, handed_on, named_expression, no_expressions,
    no_variants, part_of_record, part_of_variant, read_part, resolve_named_record_2, seal_of_field,
    seal_of_payload, serialize_inner, serialize_inner_slice, serialize_part, tag_of_choice,
    tag_of_view, vec_expression, view_of_field, view_of_payload,
};
use archive_core::seal::Seal;
use archive_core::self_check::BySchema;
use archive_core::ser::{ResolverAlloc, Writer, serialize_one};
use archive_core::shape::Defs;
use archive_core::string::ArchivedString;
use archive_core::traits::{
    Archive, ArchivePointee, ArchiveUnsized, Choice, CopyOptimization, Deserialize, Entries, Keys,
    Portable, Record, Serialize, SerializeUnsized,
};
use archive_core::vec::{ArchivedVec, VecResolver};
use archive_core::view::{RawView, Ref};
use std::alloc::{AllocError, Global};

/// An archived `Dir`: 16 bytes at a multiple of 4. It is validated by its schema.
pub struct ArchivedDir;

type DirParts = (ArchivedString, (ArchivedVec<ArchivedEntry>, ()));

impl ArchivePointee for ArchivedDir {
    type ArchivedMetadata = ();

    ghost pointee = { one dir_shape };

    ghost definitions = { dir_definitions };

    ghost metadata_length = { λ _. 0 };

    fn pointer_metadata(_metadata: &()) -> usize {
        0
    }
}

// The parts of `Dir`.
fn dir_expressions(alloc: Global) -> Result<Vec<archive_core::shape::Expr>, AllocError>
    ensures { ExpressesParts dir_parts result }
{
    let rest2 = no_expressions(alloc);
    let rest1 = first_expression(
        vec_expression(alloc, named_expression("ArchivedEntry")),
        rest2,
    );
    first_expression(expression_of::<ArchivedString>(alloc), rest1)
}

// Adds what the name stands for.
fn define_dir(alloc: Global, defs: &mut Defs) -> Result<(), Error>
    ensures added { OnOk result (Extended (table_of defs.old) (defines dir_name dir_stands_for)
        (table_of defs.new)) }
    ensures refused { IfErr result (ExplainsConflict (table_of defs.old)
        (defines dir_name dir_stands_for)) }
{
    define_record("ArchivedDir", dir_expressions(alloc), defs)
}

impl Portable for ArchivedDir {
    ghost shape = { dir_shape };

    ghost layout = { dir_layout };

    type Check = BySchema;

    ghost is_one = { refl };

    ghost is_align = { dir_is_align };

    ghost has_layout = { dir_has_layout };

    ghost no_others = { dir_no_others };

    ghost checks = { λ direct. by_schema direct };

    fn size() -> usize {
        16
    }

    fn align() -> usize {
        4
    }

    fn expr(_alloc: Global) -> Result<archive_core::shape::Expr, Error> {
        Ok(archive_core::shape::Expr::Named("ArchivedDir"))
    }

    fn define(alloc: Global, defs: &mut Defs) -> Result<(), Error> {
        define_dir_family(alloc, defs)
    }
}

impl Record for ArchivedDir {
    type Parts = DirParts;

    ghost has_parts = { dir_has_parts };

    ghost holds = { lit≤ tt };
}

/// What is kept of `Dir` between `serialize` and `resolve`.
#[derive(Drop)]
pub struct DirResolver {
    kept: (<String as Archive>::Resolver, (VecResolver, ())),
}

impl Archive for Dir {
    ghost use Rattle.recursive_types.specs.DirMeaning.{dir_meaning, dir_flat, dir_keys, dir_belongs, dir_keyed, dir_planned};

    type Archived = ArchivedDir;

    type Resolver = DirResolver;

    ghost meaning = { dir_meaning };

    ghost flat = { dir_flat };

    ghost keys = { dir_keys };

    ghost belongs = { dir_belongs };

    ghost in_bulk = { None };

    ghost keyed = { dir_keyed };

    ghost planned = { dir_planned };

    #[inline(always)]
    fn resolve(
        &self,
        resolver: Self::Resolver,
        place: Place<'_, Self::Archived>,
    ) -> Result<(), Error>
        requires zeroed { ZeroedPlace 16 place.pos place.bytes.now }
        requires same_value { ⟦<Self as Archive>⟧.belongs self.now resolver }
        ensures { ResolvesAs ⟦<Self::Archived as Portable>⟧ place
            (⟦<Self as Archive>⟧.flat self.now resolver) result }
    {
        let Place { bytes, pos, .. } = place;
        let DirResolver { kept } = resolver;
        let h1: VecAt<ArchivedEntry> = VecAt::of(self.entries.len());
        resolve_named_record_2::<String, VecAt<ArchivedEntry>, ArchivedDir>(
            &self.name,
            &h1,
            kept,
            Place::new(pos, bytes),
        )
    }

    #[inline(always)]
    fn copy_optimization() -> CopyOptimization<Self> {
        CopyOptimization::disable()
    }

    #[inline(always)]
    fn serialize_copied<S: Writer + Keys>(
        _values: &[Self],
        _together: usize,
        _serializer: &mut S,
    ) -> Result<Option<usize>, Error> {
        Ok(None)
    }
}

// Writes what each of the values owns, in order.
#[cycle(serialize_dir)]
fn serialize_each_entry<S: Writer + Keys + ResolverAlloc>(
    values: &[Entry],
    serializer: &mut S,
) -> Result<Vec<<Entry as Archive>::Resolver, S::Alloc>, Error>
    ensures serialized { IfOk result (λ rs. SerializedRun dir_definitions entry_shape
        (length values.now) (each_keys ⟦<Entry as Archive>⟧.keys values.now)
        (each_meaning ⟦<Entry as Archive>⟧.meaning values.now)
        (each_flat ⟦<Entry as Archive>⟧.flat values.now rs.items) (S.state serializer.old)
        (S.state serializer.new)) }
    ensures same_values { IfOk result (λ rs. EachBelongs ⟦<Entry as Archive>⟧.belongs values.now
        rs.items) }
    ensures goes_on { GoesOn (S.state serializer.old) (S.state serializer.new) }
    ensures refused { IfErr result (IsRunRefused dir_definitions entry_shape (length values.now)
        (each_keys ⟦<Entry as Archive>⟧.keys values.now)
        (each_meaning ⟦<Entry as Archive>⟧.meaning values.now) (S.state serializer.old)
        (S.state serializer.new)) }
{
    let alloc = serializer.resolver_alloc();
    let mut resolvers = Vec::with_capacity(alloc, values.len())?;
    for value in values {
        let resolver = match serialize_entry(value, serializer) {
            Ok(resolver) => resolver,
            Err(error) => return Err(handed_on(error)),
        };
        resolvers.push_reserved(resolver);
    }
    Ok(resolvers)
}

// Writes what a vector owns.
#[cycle(serialize_dir)]
fn serialize_vec_entry<S: Writer + Keys + ResolverAlloc>(
    value: &Vec<Entry>,
    serializer: &mut S,
) -> Result<VecResolver, Error>
    ensures serialized { IfOk result (λ r. Serialized dir_definitions (vec entry_shape)
        (⟦<Vec<Entry> as Archive>⟧.keys value.now) (⟦<Vec<Entry> as Archive>⟧.meaning value.now)
        (⟦<Vec<Entry> as Archive>⟧.flat value.now r) (S.state serializer.old)
        (S.state serializer.new)) }
    ensures same_value { IfOk result (λ r. ⟦<Vec<Entry> as Archive>⟧.belongs value.now r) }
    ensures goes_on { GoesOn (S.state serializer.old) (S.state serializer.new) }
    ensures refused { IfErr result (IsRefused dir_definitions (vec entry_shape)
        (⟦<Vec<Entry> as Archive>⟧.keys value.now) (⟦<Vec<Entry> as Archive>⟧.meaning value.now)
        (S.state serializer.old) (S.state serializer.new)) }
{
    if value.len() > u32::MAX as usize {
        return Err(Error::LengthTooLarge);
    }
    let items = value.as_slice();
    let kept = match serialize_each_entry(items, serializer) {
        Ok(kept) => kept,
        Err(error) => return Err(error),
    };
    match serialize_inner_slice(items, kept, serializer) {
        Ok(at) => Ok(at),
        Err(error) => Err(error),
    }
}

// Writes what a value owns, part by part.
#[cycle(serialize_dir)]
fn serialize_whole_dir<S: Writer + Keys + ResolverAlloc>(
    value: &Dir,
    serializer: &mut S,
) -> Result<DirResolver, Error>
    ensures serialized { IfOk result (λ r. Serialized dir_definitions dir_shape
        (⟦<Dir as Archive>⟧.keys value.now) (⟦<Dir as Archive>⟧.meaning value.now)
        (⟦<Dir as Archive>⟧.flat value.now r) (S.state serializer.old) (S.state serializer.new)) }
    ensures same_value { IfOk result (λ r. ⟦<Dir as Archive>⟧.belongs value.now r) }
    ensures goes_on { GoesOn (S.state serializer.old) (S.state serializer.new) }
    ensures refused { IfErr result (IsRefused dir_definitions dir_shape
        (⟦<Dir as Archive>⟧.keys value.now) (⟦<Dir as Archive>⟧.meaning value.now)
        (S.state serializer.old) (S.state serializer.new)) }
{
    let a0 = match serialize_part(&value.name, serializer) {
        Ok(a0) => a0,
        Err(error) => return Err(error),
    };
    let a1 = match serialize_vec_entry(&value.entries, serializer) {
        Ok(a1) => a1,
        Err(error) => return Err(handed_on(error)),
    };
    Ok(DirResolver {
        kept: (a0, (a1, ())),
    })
}

// The same by a call, whose result has its room only while it lasts.
#[cycle(serialize_dir)]
#[inline(always)]
fn serialize_dir<S: Writer + Keys + ResolverAlloc>(
    value: &Dir,
    serializer: &mut S,
) -> Result<DirResolver, Error>
    ensures serialized { IfOk result (λ r. Serialized dir_definitions dir_shape
        (⟦<Dir as Archive>⟧.keys value.now) (⟦<Dir as Archive>⟧.meaning value.now)
        (⟦<Dir as Archive>⟧.flat value.now r) (S.state serializer.old) (S.state serializer.new)) }
    ensures same_value { IfOk result (λ r. ⟦<Dir as Archive>⟧.belongs value.now r) }
    ensures goes_on { GoesOn (S.state serializer.old) (S.state serializer.new) }
    ensures refused { IfErr result (IsRefused dir_definitions dir_shape
        (⟦<Dir as Archive>⟧.keys value.now) (⟦<Dir as Archive>⟧.meaning value.now)
        (S.state serializer.old) (S.state serializer.new)) }
{
    serialize_whole_dir(value, serializer)
}

impl<S: Writer + Keys + ResolverAlloc> Serialize<S> for Dir {
    #[inline(always)]
    fn serialize(&self, serializer: &mut S) -> Result<Self::Resolver, Error> {
        serialize_dir(self, serializer)
    }
}

/// As a region of its own: the value itself.
impl ArchiveUnsized for Dir {
    ghost use Rattle.recursive_types.specs.contracts.dir.DirArchive.TheImpl.Laws.{keyed-law as keyed_of_dir, planned-law as planned_of_dir};

    type Archived = ArchivedDir;

    ghost source_length = { λ _. 0 };

    ghost meaning = { ⟦<Dir as Archive>⟧.meaning };

    ghost keys = { ⟦<Dir as Archive>⟧.keys };

    ghost keyed = { keyed_of_dir };

    ghost one_length = { λ _ _. refl };

    ghost planned = { λ v. one_planned dir_definitions dir_shape (⟦<Dir as Archive>⟧.keys v)
        (⟦<Dir as Archive>⟧.meaning v) (planned_of_dir v) };

    #[inline(always)]
    fn archived_metadata(&self) -> Result<(), Error> {
        Ok(())
    }
}

impl<S: Writer + Keys + ResolverAlloc> SerializeUnsized<S> for Dir {
    #[inline(always)]
    fn serialize_unsized(&self, serializer: &mut S) -> Result<usize, Error> {
        serialize_one(self, serializer)
    }
}

// Reads a vector back. One with no elements takes no call, whose result would go through memory.
#[cycle(read_dir)]
#[inline(always)]
fn read_vec_entry<D: Entries>(
    alloc: Global,
    part: RawView<'_>,
    deserializer: &mut D,
) -> Result<Vec<Entry>, Error>
    requires { IsPartOf ⟦<ArchivedVec<ArchivedEntry> as ArchivePointee>⟧ part }
    ensures read { IfOk result (Read ⟦<ArchivedVec<ArchivedEntry> as ArchivePointee>⟧ part D.Entries
        deserializer ⟦<Vec<Entry> as Archive>⟧) }
    ensures refused { IfErr result (RefusesPart ⟦<ArchivedVec<ArchivedEntry> as ArchivePointee>⟧
        part D.Entries deserializer) }
{
    let view: Ref<'_, ArchivedVec<ArchivedEntry>> = Ref::at(part);
    if view.is_empty() {
        return Ok(Vec::new(alloc));
    }
    read_each_entry(alloc, part, deserializer)
}

// Reads the elements of a vector back.
#[cycle(read_dir)]
#[inline(always)]
fn read_each_entry<D: Entries>(
    alloc: Global,
    part: RawView<'_>,
    deserializer: &mut D,
) -> Result<Vec<Entry>, Error>
    requires { IsPartOf ⟦<ArchivedVec<ArchivedEntry> as ArchivePointee>⟧ part }
    ensures read { IfOk result (Read ⟦<ArchivedVec<ArchivedEntry> as ArchivePointee>⟧ part D.Entries
        deserializer ⟦<Vec<Entry> as Archive>⟧) }
    ensures refused { IfErr result (RefusesPart ⟦<ArchivedVec<ArchivedEntry> as ArchivePointee>⟧
        part D.Entries deserializer) }
{
    let view: Ref<'_, ArchivedVec<ArchivedEntry>> = Ref::at(part);
    let list = before_vec(view);
    let mut items = Vec::with_capacity(alloc, list.len())?;
    for index in 0..list.len() {
        let item = match read_entry(alloc, list.index(index).part(), deserializer) {
            Ok(item) => item,
            Err(error) => return Err(error),
        };
        items.push_reserved(item);
    }
    Ok(items)
}

// Reads a value back, part by part.
#[cycle(read_dir)]
fn read_dir<D: Entries>(
    alloc: Global,
    part: RawView<'_>,
    deserializer: &mut D,
) -> Result<Dir, Error>
    requires { IsPartOf ⟦<ArchivedDir as ArchivePointee>⟧ part }
    ensures read { IfOk result (Read ⟦<ArchivedDir as ArchivePointee>⟧ part D.Entries deserializer
        ⟦<Dir as Archive>⟧) }
    ensures refused { IfErr result (RefusesPart ⟦<ArchivedDir as ArchivePointee>⟧ part D.Entries
        deserializer) }
{
    let p0 = part_of_record::<ArchivedDir, ArchivedString>(part, 0, 0);
    let a0 = match read_part::<ArchivedString, String, D>(alloc, p0, deserializer) {
        Ok(a0) => a0,
        Err(error) => return Err(error),
    };
    let p1 = part_of_record::<ArchivedDir, ArchivedVec<ArchivedEntry>>(part, 1, 8);
    let a1 = match read_vec_entry(alloc, p1, deserializer) {
        Ok(a1) => a1,
        Err(error) => return Err(error),
    };
    Ok(Dir {
        name: a0,
        entries: a1,
    })
}

impl<D: Entries> Deserialize<Dir, D> for ArchivedDir {
    #[inline(always)]
    fn deserialize_part(
        alloc: Global,
        part: RawView<'_>,
        deserializer: &mut D,
    ) -> Result<Dir, Error>
        requires { IsPartOf ⟦<Self as ArchivePointee>⟧ part }
        ensures { ReadsAs ⟦<Self as ArchivePointee>⟧ part D.Entries deserializer ⟦<Dir as Archive>⟧
            result }
    {
        read_dir(alloc, part, deserializer)
    }
}

/// The fields of an archived `Dir`, as views.
pub trait DirView<'a> {
    /// Its name.
    fn name(self) -> Ref<'a, ArchivedString>;

    /// What is in it.
    fn entries(self) -> Ref<'a, ArchivedVec<ArchivedEntry>>;
}

impl<'a> DirView<'a> for Ref<'a, ArchivedDir> {
    fn name(self) -> Ref<'a, ArchivedString>
        ensures buffer { result.bytes.now ≡ self.entry.bytes.now }
        ensures position { result.pos ≡ self.entry.pos + 0 }
        ensures length { result.len ≡ 0 }
        ensures shows { ShowsValueOf result self.entry (field_in 0) }
    {
        view_of_field::<ArchivedDir, ArchivedString>(self, 0, 0)
    }

    fn entries(self) -> Ref<'a, ArchivedVec<ArchivedEntry>>
        ensures buffer { result.bytes.now ≡ self.entry.bytes.now }
        ensures position { result.pos ≡ self.entry.pos + 8 }
        ensures length { result.len ≡ 0 }
        ensures shows { ShowsValueOf result self.entry (field_in 1) }
    {
        view_of_field::<ArchivedDir, ArchivedVec<ArchivedEntry>>(self, 1, 8)
    }
}

/// The fields of an archived `Dir`, as seals.
pub trait DirSeal<'a> {
    // The seal shows a part of a buffer that was checked.
    ghost sealed: { Self → Type 0 };

    /// Its name.
    fn name_mut(self) -> Seal<'a, ArchivedString>
        requires { sealed self };

    /// What is in it.
    fn entries_mut(self) -> Seal<'a, ArchivedVec<ArchivedEntry>>
        requires { sealed self };
}

impl<'a> DirSeal<'a> for Seal<'a, ArchivedDir> {
    ghost sealed = { λ s. IsSealOf dir_definitions (one ⟦<ArchivedDir as Portable>⟧.shape) s };

    fn name_mut(self) -> Seal<'a, ArchivedString>
        requires come_to { IsSealOf dir_definitions (one ⟦<ArchivedDir as Portable>⟧.shape) self }
        ensures { SealsPart dir_definitions (one ⟦<ArchivedDir as Portable>⟧.shape) no_definition
            ⟦<ArchivedString as ArchivePointee>⟧.pointee (self.entry.pos + 0) 0 self.entry result }
    {
        seal_of_field::<ArchivedDir, ArchivedString>(self, 0, 0)
    }

    fn entries_mut(self) -> Seal<'a, ArchivedVec<ArchivedEntry>>
        requires come_to { IsSealOf dir_definitions (one ⟦<ArchivedDir as Portable>⟧.shape) self }
        ensures { SealsPart dir_definitions (one ⟦<ArchivedDir as Portable>⟧.shape)
            ⟦<ArchivedEntry as ArchivePointee>⟧.definitions
            ⟦<ArchivedVec<ArchivedEntry> as ArchivePointee>⟧.pointee (self.entry.pos + 8) 0
            self.entry result }
    {
        seal_of_field::<ArchivedDir, ArchivedVec<ArchivedEntry>>(self, 1, 8)
    }
}

/// An archived `Entry`: 16 bytes at a multiple of 8. It is validated by its schema.
pub struct ArchivedEntry;

type EntryFileParts = (ArchivedU64, ());

type EntrySubParts = (ArchivedBox<ArchivedDir>, ());

type EntryVariants = (EntryFileParts, (EntrySubParts, ()));

impl ArchivePointee for ArchivedEntry {
    type ArchivedMetadata = ();

    ghost pointee = { one entry_shape };

    ghost definitions = { entry_definitions };

    ghost metadata_length = { λ _. 0 };

    fn pointer_metadata(_metadata: &()) -> usize {
        0
    }
}

// The parts of `File`.
fn entry_file_expressions(alloc: Global) -> Result<Vec<archive_core::shape::Expr>, AllocError>
    ensures { ExpressesParts entry_file_parts result }
{
    let rest1 = no_expressions(alloc);
    first_expression(expression_of::<ArchivedU64>(alloc), rest1)
}

// The parts of `Sub`.
fn entry_sub_expressions(alloc: Global) -> Result<Vec<archive_core::shape::Expr>, AllocError>
    ensures { ExpressesParts entry_sub_parts result }
{
    let rest1 = no_expressions(alloc);
    first_expression(
        boxed_expression(alloc, named_expression("ArchivedDir")),
        rest1,
    )
}

// Its variants.
fn entry_expressions(alloc: Global) -> Result<Vec<Vec<archive_core::shape::Expr>>, AllocError>
    ensures { ExpressesVariants entry_variants result }
{
    let rest2 = no_variants(alloc);
    let rest1 = first_variant(entry_sub_expressions(alloc), rest2);
    first_variant(entry_file_expressions(alloc), rest1)
}

// Adds what the name stands for.
fn define_entry(alloc: Global, defs: &mut Defs) -> Result<(), Error>
    ensures added { OnOk result (Extended (table_of defs.old) (defines entry_name entry_stands_for)
        (table_of defs.new)) }
    ensures refused { IfErr result (ExplainsConflict (table_of defs.old)
        (defines entry_name entry_stands_for)) }
{
    define_choice("ArchivedEntry", entry_expressions(alloc), defs)
}

// Adds what the names stand for.
fn define_dir_family(alloc: Global, defs: &mut Defs) -> Result<(), Error>
    ensures added { OnOk result (Extended (table_of defs.old) dir_definitions (table_of defs.new)) }
    ensures refused { IfErr result (ExplainsConflict (table_of defs.old) dir_definitions) }
{
    define_dir(alloc, defs)?;
    define_entry(alloc, defs)
}

impl Portable for ArchivedEntry {
    ghost shape = { entry_shape };

    ghost layout = { entry_layout };

    type Check = BySchema;

    ghost is_one = { refl };

    ghost is_align = { entry_is_align };

    ghost has_layout = { entry_has_layout };

    ghost no_others = { entry_no_others };

    ghost checks = { λ direct. by_schema direct };

    fn size() -> usize {
        16
    }

    fn align() -> usize {
        8
    }

    fn expr(_alloc: Global) -> Result<archive_core::shape::Expr, Error> {
        Ok(archive_core::shape::Expr::Named("ArchivedEntry"))
    }

    fn define(alloc: Global, defs: &mut Defs) -> Result<(), Error> {
        define_dir_family(alloc, defs)
    }
}

impl Choice for ArchivedEntry {
    type Variants = EntryVariants;

    ghost name = { entry_name };

    ghost has_variants = { entry_has_variants };

    ghost holds = { lit≤ tt };
}

/// What is kept of `Entry` between `serialize` and `resolve`.
#[derive(Drop)]
pub enum EntryResolver {
    /// Of `File`.
    File((<u64 as Archive>::Resolver, ())),
    /// Of `Sub`.
    Sub((BoxResolver, ())),
}

// Writes a variant of a field over zeros: its tag, and behind it the fields.
#[inline(always)]
fn resolve_entry_1<A: Archive>(
    tag: u8,
    a: &A,
    resolvers: (A::Resolver, ()),
    place: Place<'_, ArchivedEntry>,
) -> Result<(), Error>
    requires variant { variant_at entry_variants tag ≡ Some (part A.Archived.shape no_part) }
    requires definitions { variant_definitions entry_variant_definitions tag
        ≡ (both A.Archived.definitions no_definition) }
    requires inside { Unit {0} → (up 1 A.Archived.layout.align + A.Archived.layout.size) ≤ 16 }
    requires zeroed { ZeroedPlace 16 place.pos place.bytes.now }
    requires same_values { (A.belongs a.now resolvers.0 × Unit {0}) }
    ensures resolved { OnOk result (Resolves entry_definitions place.entry.pos place.exit.0.now
        entry_shape (case tag (value (A.flat a.now resolvers.0) no_value))) }
    ensures same_length { length place.exit.0.now ≡ length place.entry.bytes.now }
    ensures refused { IfErr result (HindersAt entry_definitions entry_shape
        (case tag (value (A.flat a.now resolvers.0) no_value)) place.entry.pos) }
{
    let Place { bytes, pos, .. } = place;
    bytes[0] = tag;
    resolve_1(a, resolvers, pos, 1, &mut bytes[1..])
}

impl Archive for Entry {
    ghost use Rattle.recursive_types.specs.DirMeaning.{entry_meaning, entry_flat, entry_keys, entry_belongs, entry_keyed, entry_planned};

    type Archived = ArchivedEntry;

    type Resolver = EntryResolver;

    ghost meaning = { entry_meaning };

    ghost flat = { entry_flat };

    ghost keys = { entry_keys };

    ghost belongs = { entry_belongs };

    ghost in_bulk = { None };

    ghost keyed = { entry_keyed };

    ghost planned = { entry_planned };

    #[inline(always)]
    fn resolve(
        &self,
        resolver: Self::Resolver,
        place: Place<'_, Self::Archived>,
    ) -> Result<(), Error>
        requires zeroed { ZeroedPlace 16 place.pos place.bytes.now }
        requires same_value { ⟦<Self as Archive>⟧.belongs self.now resolver }
        ensures { ResolvesAs ⟦<Self::Archived as Portable>⟧ place
            (⟦<Self as Archive>⟧.flat self.now resolver) result }
    {
        let Place { bytes, pos, .. } = place;
        match self {
            Entry::File(a0) => {
                let EntryResolver::File(kept) = resolver else {
                    unreachable!();
                };
                resolve_entry_1::<u64>(0, a0, kept, Place::new(pos, bytes))
            }
            Entry::Sub(_a0) => {
                let EntryResolver::Sub(kept) = resolver else {
                    unreachable!();
                };
                let h0: BoxAt<ArchivedDir> = BoxAt::new();
                resolve_entry_1::<BoxAt<ArchivedDir>>(1, &h0, kept, Place::new(pos, bytes))
            }
        }
    }

    #[inline(always)]
    fn copy_optimization() -> CopyOptimization<Self> {
        CopyOptimization::disable()
    }

    #[inline(always)]
    fn serialize_copied<S: Writer + Keys>(
        _values: &[Self],
        _together: usize,
        _serializer: &mut S,
    ) -> Result<Option<usize>, Error> {
        Ok(None)
    }
}

// Writes what a box owns.
#[cycle(serialize_dir)]
fn serialize_box_dir<S: Writer + Keys + ResolverAlloc>(
    value: &Box<Dir>,
    serializer: &mut S,
) -> Result<BoxResolver, Error>
    ensures serialized { IfOk result (λ r. Serialized entry_definitions (boxed (one dir_shape))
        (⟦<Box<Dir> as Archive>⟧.keys value.now) (⟦<Box<Dir> as Archive>⟧.meaning value.now)
        (⟦<Box<Dir> as Archive>⟧.flat value.now r) (S.state serializer.old)
        (S.state serializer.new)) }
    ensures same_value { IfOk result (λ r. ⟦<Box<Dir> as Archive>⟧.belongs value.now r) }
    ensures goes_on { GoesOn (S.state serializer.old) (S.state serializer.new) }
    ensures refused { IfErr result (IsRefused entry_definitions (boxed (one dir_shape))
        (⟦<Box<Dir> as Archive>⟧.keys value.now) (⟦<Box<Dir> as Archive>⟧.meaning value.now)
        (S.state serializer.old) (S.state serializer.new)) }
{
    let inner = &**value;
    let kept = match serialize_dir(inner, serializer) {
        Ok(kept) => kept,
        Err(error) => return Err(handed_on(error)),
    };
    match serialize_inner(inner, kept, serializer) {
        Ok(at) => Ok(at),
        Err(error) => Err(error),
    }
}

// Writes what the parts of `File` own, in order.
fn serialize_entry_file<S: Writer + Keys + ResolverAlloc>(
    a0: &u64,
    serializer: &mut S,
) -> Result<(<u64 as Archive>::Resolver, ()), Error>
    ensures serialized { IfOk result (λ r. Serialized entry_definitions entry_shape
        (⟦<u64 as Archive>⟧.keys a0.now ++ []) (case 0 (value (⟦<u64 as Archive>⟧.meaning a0.now)
        no_value)) (case 0 (value (⟦<u64 as Archive>⟧.flat a0.now r.0) no_value))
        (S.state serializer.old) (S.state serializer.new)) }
    ensures same_values { IfOk result (λ r. ⟦<u64 as Archive>⟧.belongs a0.now r.0 × Unit {0}) }
    ensures goes_on { GoesOn (S.state serializer.old) (S.state serializer.new) }
    ensures refused { IfErr result (IsRefused entry_definitions entry_shape
        (⟦<u64 as Archive>⟧.keys a0.now ++ []) (case 0 (value (⟦<u64 as Archive>⟧.meaning a0.now)
        no_value)) (S.state serializer.old) (S.state serializer.new)) }
{
    let a0 = match serialize_part(a0, serializer) {
        Ok(a0) => a0,
        Err(error) => return Err(error),
    };
    Ok((a0, ()))
}

// Writes what the parts of `Sub` own, in order.
#[cycle(serialize_dir)]
fn serialize_entry_sub<S: Writer + Keys + ResolverAlloc>(
    a0: &Box<Dir>,
    serializer: &mut S,
) -> Result<(BoxResolver, ()), Error>
    ensures serialized { IfOk result (λ r. Serialized entry_definitions entry_shape
        (⟦<Box<Dir> as Archive>⟧.keys a0.now ++ []) (case 1
        (value (⟦<Box<Dir> as Archive>⟧.meaning a0.now) no_value))
        (case 1 (value (⟦<Box<Dir> as Archive>⟧.flat a0.now r.0) no_value)) (S.state serializer.old)
        (S.state serializer.new)) }
    ensures same_values { IfOk result (λ r. ⟦<Box<Dir> as Archive>⟧.belongs a0.now r.0 × Unit {0}) }
    ensures goes_on { GoesOn (S.state serializer.old) (S.state serializer.new) }
    ensures refused { IfErr result (IsRefused entry_definitions entry_shape
        (⟦<Box<Dir> as Archive>⟧.keys a0.now ++ []) (case 1
        (value (⟦<Box<Dir> as Archive>⟧.meaning a0.now) no_value)) (S.state serializer.old)
        (S.state serializer.new)) }
{
    let a0 = match serialize_box_dir(a0, serializer) {
        Ok(a0) => a0,
        Err(error) => return Err(error),
    };
    Ok((a0, ()))
}

// Writes what a value owns.
#[cycle(serialize_dir)]
fn serialize_whole_entry<S: Writer + Keys + ResolverAlloc>(
    value: &Entry,
    serializer: &mut S,
) -> Result<EntryResolver, Error>
    ensures serialized { IfOk result (λ r. Serialized entry_definitions entry_shape
        (⟦<Entry as Archive>⟧.keys value.now) (⟦<Entry as Archive>⟧.meaning value.now)
        (⟦<Entry as Archive>⟧.flat value.now r) (S.state serializer.old) (S.state serializer.new)) }
    ensures same_value { IfOk result (λ r. ⟦<Entry as Archive>⟧.belongs value.now r) }
    ensures goes_on { GoesOn (S.state serializer.old) (S.state serializer.new) }
    ensures refused { IfErr result (IsRefused entry_definitions entry_shape
        (⟦<Entry as Archive>⟧.keys value.now) (⟦<Entry as Archive>⟧.meaning value.now)
        (S.state serializer.old) (S.state serializer.new)) }
{
    match value {
        Entry::File(a0) => match serialize_entry_file(a0, serializer) {
            Ok(kept) => Ok(EntryResolver::File(kept)),
            Err(error) => Err(error),
        },
        Entry::Sub(a0) => match serialize_entry_sub(a0, serializer) {
            Ok(kept) => Ok(EntryResolver::Sub(kept)),
            Err(error) => Err(error),
        },
    }
}

// The same by a call, whose result has its room only while it lasts.
#[cycle(serialize_dir)]
#[inline(always)]
fn serialize_entry<S: Writer + Keys + ResolverAlloc>(
    value: &Entry,
    serializer: &mut S,
) -> Result<EntryResolver, Error>
    ensures serialized { IfOk result (λ r. Serialized entry_definitions entry_shape
        (⟦<Entry as Archive>⟧.keys value.now) (⟦<Entry as Archive>⟧.meaning value.now)
        (⟦<Entry as Archive>⟧.flat value.now r) (S.state serializer.old) (S.state serializer.new)) }
    ensures same_value { IfOk result (λ r. ⟦<Entry as Archive>⟧.belongs value.now r) }
    ensures goes_on { GoesOn (S.state serializer.old) (S.state serializer.new) }
    ensures refused { IfErr result (IsRefused entry_definitions entry_shape
        (⟦<Entry as Archive>⟧.keys value.now) (⟦<Entry as Archive>⟧.meaning value.now)
        (S.state serializer.old) (S.state serializer.new)) }
{
    serialize_whole_entry(value, serializer)
}

impl<S: Writer + Keys + ResolverAlloc> Serialize<S> for Entry {
    #[inline(always)]
    fn serialize(&self, serializer: &mut S) -> Result<Self::Resolver, Error> {
        serialize_entry(self, serializer)
    }
}

/// As a region of its own: the value itself.
impl ArchiveUnsized for Entry {
    ghost use Rattle.recursive_types.specs.contracts.dir.EntryArchive.TheImpl.Laws.{keyed-law as keyed_of_entry, planned-law as planned_of_entry};

    type Archived = ArchivedEntry;

    ghost source_length = { λ _. 0 };

    ghost meaning = { ⟦<Entry as Archive>⟧.meaning };

    ghost keys = { ⟦<Entry as Archive>⟧.keys };

    ghost keyed = { keyed_of_entry };

    ghost one_length = { λ _ _. refl };

    ghost planned = { λ v. one_planned entry_definitions entry_shape (⟦<Entry as Archive>⟧.keys v)
        (⟦<Entry as Archive>⟧.meaning v) (planned_of_entry v) };

    #[inline(always)]
    fn archived_metadata(&self) -> Result<(), Error> {
        Ok(())
    }
}

impl<S: Writer + Keys + ResolverAlloc> SerializeUnsized<S> for Entry {
    #[inline(always)]
    fn serialize_unsized(&self, serializer: &mut S) -> Result<usize, Error> {
        serialize_one(self, serializer)
    }
}

// The tag of a value, which names its variant.
#[inline(always)]
fn tag_of_entry(part: RawView<'_>) -> u8
    requires { IsPartOf ⟦<ArchivedEntry as ArchivePointee>⟧ part }
    ensures tag { result ≡ part_tag part.entry }
    ensures below { result < 2 }
{
    tag_of_choice::<ArchivedEntry>(part)
}

// The part of a value that is `Sub` with the index 0.
#[inline(always)]
fn part_0_of_entry_sub<'a>(part: RawView<'a>) -> RawView<'a>
    requires viewed { IsPartOf ⟦<ArchivedEntry as ArchivePointee>⟧ part }
    requires tag { part_tag part ≡ 1 }
    ensures buffer { result.bytes.now ≡ part.entry.bytes.now }
    ensures position { result.pos ≡ part.entry.pos + 4 }
    ensures length { result.len ≡ 0 }
    ensures viewed { IsPartOf ⟦<ArchivedBox<ArchivedDir> as ArchivePointee>⟧ result }
{
    part_of_variant::<ArchivedEntry, ArchivedBox<ArchivedDir>>(part, 1, 0, 4)
}

// Reads a box back.
#[cycle(read_dir)]
#[inline(always)]
fn read_box_dir<D: Entries>(
    alloc: Global,
    part: RawView<'_>,
    deserializer: &mut D,
) -> Result<Box<Dir>, Error>
    requires { IsPartOf ⟦<ArchivedBox<ArchivedDir> as ArchivePointee>⟧ part }
    ensures read { IfOk result (Read ⟦<ArchivedBox<ArchivedDir> as ArchivePointee>⟧ part D.Entries
        deserializer ⟦<Box<Dir> as Archive>⟧) }
    ensures refused { IfErr result (RefusesPart ⟦<ArchivedBox<ArchivedDir> as ArchivePointee>⟧ part
        D.Entries deserializer) }
{
    let view: Ref<'_, ArchivedBox<ArchivedDir>> = Ref::at(part);
    let value = match read_dir(alloc, before_box(view).part(), deserializer) {
        Ok(value) => value,
        Err(error) => return Err(error),
    };
    let whole = Box::new(alloc, value)?;
    Ok(whole)
}

// Reads `File` back.
#[inline(always)]
fn read_entry_file<D: Entries>(
    alloc: Global,
    part: RawView<'_>,
    deserializer: &mut D,
) -> Result<Entry, Error>
    requires viewed { IsPartOf ⟦<ArchivedEntry as ArchivePointee>⟧ part }
    requires tag { part_tag part ≡ 0 }
    ensures read { IfOk result (Read ⟦<ArchivedEntry as ArchivePointee>⟧ part D.Entries deserializer
        ⟦<Entry as Archive>⟧) }
    ensures refused { IfErr result (RefusesPart ⟦<ArchivedEntry as ArchivePointee>⟧ part D.Entries
        deserializer) }
{
    let p0 = part_of_variant::<ArchivedEntry, ArchivedU64>(part, 0, 0, 8);
    let a0 = match read_part::<ArchivedU64, u64, D>(alloc, p0, deserializer) {
        Ok(a0) => a0,
        Err(error) => return Err(error),
    };
    Ok(Entry::File(a0))
}

// Reads `Sub` back.
#[cycle(read_dir)]
fn read_entry_sub<D: Entries>(
    alloc: Global,
    part: RawView<'_>,
    deserializer: &mut D,
) -> Result<Entry, Error>
    requires viewed { IsPartOf ⟦<ArchivedEntry as ArchivePointee>⟧ part }
    requires tag { part_tag part ≡ 1 }
    ensures read { IfOk result (Read ⟦<ArchivedEntry as ArchivePointee>⟧ part D.Entries deserializer
        ⟦<Entry as Archive>⟧) }
    ensures refused { IfErr result (RefusesPart ⟦<ArchivedEntry as ArchivePointee>⟧ part D.Entries
        deserializer) }
{
    let p0 = part_0_of_entry_sub(part);
    let a0 = match read_box_dir(alloc, p0, deserializer) {
        Ok(a0) => a0,
        Err(error) => return Err(error),
    };
    Ok(Entry::Sub(a0))
}

// Reads a value back.
#[cycle(read_dir)]
#[inline(always)]
fn read_entry<D: Entries>(
    alloc: Global,
    part: RawView<'_>,
    deserializer: &mut D,
) -> Result<Entry, Error>
    requires { IsPartOf ⟦<ArchivedEntry as ArchivePointee>⟧ part }
    ensures read { IfOk result (Read ⟦<ArchivedEntry as ArchivePointee>⟧ part D.Entries deserializer
        ⟦<Entry as Archive>⟧) }
    ensures refused { IfErr result (RefusesPart ⟦<ArchivedEntry as ArchivePointee>⟧ part D.Entries
        deserializer) }
{
    match tag_of_entry(part) {
        0 => read_entry_file(alloc, part, deserializer),
        _ => read_entry_sub(alloc, part, deserializer),
    }
}

impl<D: Entries> Deserialize<Entry, D> for ArchivedEntry {
    #[inline(always)]
    fn deserialize_part(
        alloc: Global,
        part: RawView<'_>,
        deserializer: &mut D,
    ) -> Result<Entry, Error>
        requires { IsPartOf ⟦<Self as ArchivePointee>⟧ part }
        ensures { ReadsAs ⟦<Self as ArchivePointee>⟧ part D.Entries deserializer
            ⟦<Entry as Archive>⟧ result }
    {
        read_entry(alloc, part, deserializer)
    }
}

/// What a view of an archived `Entry` shows, by its tag.
#[derive(Drop)]
pub enum ViewOfEntry<'a> {
    /// A file, by its length.
    File(Ref<'a, ArchivedU64>),
    /// A folder.
    Sub(Ref<'a, ArchivedBox<ArchivedDir>>),
}

/// The variant of an archived `Entry`, as a view.
pub trait EntryView<'a> {
    /// The variant that the tag names, with views of its fields.
    fn variant(self) -> ViewOfEntry<'a>;
}

impl<'a> EntryView<'a> for Ref<'a, ArchivedEntry> {
    ghost use Rattle.recursive_types.specs.declared.dir.ViewOfEntry.TheVariants.{File as EntryFileShown, Sub as EntrySubShown};

    fn variant(self) -> ViewOfEntry<'a>
        ensures shows { elim result [
          | EntryFileShown a0 ↦ (tag_of self.entry ≡ 0) × (a0.bytes.now ≡ self.entry.bytes.now)
              × (a0.pos ≡ self.entry.pos + 8) × (a0.len ≡ 0)
              × ShowsValueOf a0 self.entry (payload_in 0)
          | EntrySubShown a0 ↦ (tag_of self.entry ≡ 1) × (a0.bytes.now ≡ self.entry.bytes.now)
              × (a0.pos ≡ self.entry.pos + 4) × (a0.len ≡ 0)
              × ShowsValueOf a0 self.entry (payload_in 0)
        ] }
    {
        match tag_of_view(self) {
            0 => ViewOfEntry::File(view_of_payload::<ArchivedEntry, ArchivedU64>(self, 0, 0, 8)),
            _ => {
                let a0 = view_of_payload::<ArchivedEntry, ArchivedBox<ArchivedDir>>(self, 1, 0, 4);
                ViewOfEntry::Sub(a0)
            }
        }
    }
}

/// The fields of an archived `Entry`, as seals. The caller must ensure that the tag is the variant's.
pub trait EntrySeal<'a> {
    // The seal shows a part of a buffer that was checked.
    ghost sealed: { Self → Type 0 };

    // The tag that it shows.
    ghost tag: { Self → ℕ };

    /// The field `0` of `File`.
    fn file_0_mut(self) -> Seal<'a, ArchivedU64>
        requires come_to { sealed self }
        requires tag { tag self ≡ 0 };

    /// The field `0` of `Sub`.
    fn sub_0_mut(self) -> Seal<'a, ArchivedBox<ArchivedDir>>
        requires come_to { sealed self }
        requires tag { tag self ≡ 1 };
}

impl<'a> EntrySeal<'a> for Seal<'a, ArchivedEntry> {
    ghost sealed = { λ s. IsSealOf entry_definitions (one ⟦<ArchivedEntry as Portable>⟧.shape) s };

    ghost tag = { λ s. seal_tag s };

    fn file_0_mut(self) -> Seal<'a, ArchivedU64>
        requires come_to { IsSealOf entry_definitions (one ⟦<ArchivedEntry as Portable>⟧.shape)
            self }
        requires tag { seal_tag self ≡ 0 }
        ensures { SealsPart entry_definitions (one ⟦<ArchivedEntry as Portable>⟧.shape)
            no_definition ⟦<ArchivedU64 as ArchivePointee>⟧.pointee (self.entry.pos + 8) 0
            self.entry result }
    {
        seal_of_payload::<ArchivedEntry, ArchivedU64>(self, 0, 0, 8)
    }

    fn sub_0_mut(self) -> Seal<'a, ArchivedBox<ArchivedDir>>
        requires come_to { IsSealOf entry_definitions (one ⟦<ArchivedEntry as Portable>⟧.shape)
            self }
        requires tag { seal_tag self ≡ 1 }
        ensures { SealsPart entry_definitions (one ⟦<ArchivedEntry as Portable>⟧.shape)
            ⟦<ArchivedDir as ArchivePointee>⟧.definitions
            ⟦<ArchivedBox<ArchivedDir> as ArchivePointee>⟧.pointee (self.entry.pos + 4) 0 self.entry
            result }
    {
        seal_of_payload::<ArchivedEntry, ArchivedBox<ArchivedDir>>(self, 1, 0, 4)
    }
}
