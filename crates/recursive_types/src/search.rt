//! A binary tree.

/// A number, with the smaller ones on the left and the greater ones on the right.
#[derive(Debug, PartialEq, Drop)]
pub struct Search {
    /// The smaller ones.
    pub left: Option<Box<Search>>,
    /// The number.
    pub value: u32,
    /// The greater ones.
    pub right: Option<Box<Search>>,
}

// Below this line all is written by tools/derive: change what is above it, and run it again.

ghost use Rattle.archive_core.specs.CallOutcomes.{ResolvesAs};
ghost use Rattle.archive_core.specs.Causes.{IsRefused};
ghost use Rattle.archive_core.specs.Choices.{option_shape};
ghost use Rattle.archive_core.specs.Definitions.{no_definition};
ghost use Rattle.archive_core.specs.Expressed.{ExpressesParts};
ghost use Rattle.archive_core.specs.Fields.{field_in};
ghost use Rattle.archive_core.specs.Hollow.{option_at};
ghost use Rattle.archive_core.specs.PlannedOwners.{one_planned};
ghost use Rattle.archive_core.specs.Plans.{Serialized};
ghost use Rattle.archive_core.specs.ReadBack.{Read, ReadsAs};
ghost use Rattle.archive_core.specs.SealOutcomes.{IsSealOf, SealsPart};
ghost use Rattle.archive_core.specs.Seen.{IsPartOf, RefusesPart, ShowsValueOf};
ghost use Rattle.archive_core.specs.SelfCheck.Laws.{by_schema};
ghost use Rattle.archive_core.specs.Shape.{boxed, one, part, parts};
ghost use Rattle.archive_core.specs.Value.{value};
ghost use Rattle.archive_core.specs.Writing.{ZeroedPlace};
ghost use Rattle.archive_core.specs.Written.{GoesOn};
ghost use Rattle.recursive_types.specs.SearchShape.{search_definitions, search_has_layout, search_has_parts, search_is_align, search_layout, search_no_others, search_parts, search_shape};
ghost use Rattle.std.proofs.Common.{lit≤};
ghost use Rattle.std.specs.Prelude.{IfErr, IfOk, None, Some, length, refl, ⊤, ◌+◌, ◌≡◌, ◌≤◌};

use archive_core::boxed::{ArchivedBox, BoxResolver};
use archive_core::error::Error;
use archive_core::option::ArchivedOption;
use archive_core::place::Place;
use archive_core::primitive::ArchivedU32;
use archive_core::recursive::{
    OptionAt, before_box, boxed_expression, define_record, expression_of, first_expression,
    handed_on, named_expression, no_expressions, option_expression, part_of_record, read_part,
    resolve_named_record_3, seal_of_field, serialize_inner, serialize_part, view_of_field,
};
use archive_core::seal::Seal;
use archive_core::self_check::BySchema;
use archive_core::ser::{ResolverAlloc, Writer, serialize_one};
use archive_core::shape::Defs;
use archive_core::traits::{
    Archive, ArchivePointee, ArchiveUnsized, CopyOptimization, Deserialize, Entries, Keys,
    Portable, Record, Serialize, SerializeUnsized,
};
use archive_core::view::{RawView, Ref};
use std::alloc::{AllocError, Global};

/// An archived `Search`: 20 bytes at a multiple of 4. It is validated by its schema.
pub struct ArchivedSearch;

type SearchParts = (
    ArchivedOption<ArchivedBox<ArchivedSearch>>,
    (
        ArchivedU32,
        (ArchivedOption<ArchivedBox<ArchivedSearch>>, ()),
    ),
);

impl ArchivePointee for ArchivedSearch {
    type ArchivedMetadata = ();

    ghost pointee = { one search_shape };

    ghost definitions = { search_definitions };

    ghost metadata_length = { λ _. 0 };

    fn pointer_metadata(_metadata: &()) -> usize {
        0
    }
}

// The parts of `Search`.
fn search_expressions(alloc: Global) -> Result<Vec<archive_core::shape::Expr>, AllocError>
    ensures { ExpressesParts search_parts result }
{
    let rest3 = no_expressions(alloc);
    let rest2 = first_expression(
        option_expression(
            alloc,
            boxed_expression(alloc, named_expression("ArchivedSearch")),
        ),
        rest3,
    );
    let rest1 = first_expression(expression_of::<ArchivedU32>(alloc), rest2);
    first_expression(
        option_expression(
            alloc,
            boxed_expression(alloc, named_expression("ArchivedSearch")),
        ),
        rest1,
    )
}

impl Portable for ArchivedSearch {
    ghost shape = { search_shape };

    ghost layout = { search_layout };

    type Check = BySchema;

    ghost is_one = { refl };

    ghost is_align = { search_is_align };

    ghost has_layout = { search_has_layout };

    ghost no_others = { search_no_others };

    ghost checks = { λ direct. by_schema direct };

    fn size() -> usize {
        20
    }

    fn align() -> usize {
        4
    }

    fn expr(_alloc: Global) -> Result<archive_core::shape::Expr, Error> {
        Ok(archive_core::shape::Expr::Named("ArchivedSearch"))
    }

    fn define(alloc: Global, defs: &mut Defs) -> Result<(), Error> {
        define_record("ArchivedSearch", search_expressions(alloc), defs)
    }
}

impl Record for ArchivedSearch {
    type Parts = SearchParts;

    ghost has_parts = { search_has_parts };

    ghost holds = { lit≤ tt };
}

/// What is kept of `Search` between `serialize` and `resolve`.
#[derive(Drop)]
pub struct SearchResolver {
    kept: (
        Option<BoxResolver>,
        (<u32 as Archive>::Resolver, (Option<BoxResolver>, ())),
    ),
}

impl Archive for Search {
    ghost use Rattle.recursive_types.specs.SearchMeaning.{search_meaning, search_flat, search_keys, search_belongs, search_keyed, search_planned};

    type Archived = ArchivedSearch;

    type Resolver = SearchResolver;

    ghost meaning = { search_meaning };

    ghost flat = { search_flat };

    ghost keys = { search_keys };

    ghost belongs = { search_belongs };

    ghost in_bulk = { None };

    ghost keyed = { search_keyed };

    ghost planned = { search_planned };

    #[inline(always)]
    fn resolve(
        &self,
        resolver: Self::Resolver,
        place: Place<'_, Self::Archived>,
    ) -> Result<(), Error>
        requires zeroed { ZeroedPlace 20 place.pos place.bytes.now }
        requires same_value { ⟦<Self as Archive>⟧.belongs self.now resolver }
        ensures { ResolvesAs ⟦<Self::Archived as Portable>⟧ place
            (⟦<Self as Archive>⟧.flat self.now resolver) result }
    {
        let Place { bytes, pos, .. } = place;
        let SearchResolver { kept } = resolver;
        let h0: OptionAt<ArchivedSearch> = OptionAt::new();
        let h2: OptionAt<ArchivedSearch> = OptionAt::new();
        resolve_named_record_3::<
            OptionAt<ArchivedSearch>,
            u32,
            OptionAt<ArchivedSearch>,
            ArchivedSearch,
        >(&h0, &self.value, &h2, kept, Place::new(pos, bytes))
    }

    #[inline(always)]
    fn copy_optimization() -> CopyOptimization<Self> {
        CopyOptimization::disable()
    }

    #[inline(always)]
    fn serialize_copied<S: Writer + Keys>(
        _values: &[Self],
        _together: usize,
        _serializer: &mut S,
    ) -> Result<Option<usize>, Error> {
        Ok(None)
    }
}

// Writes what an option owns.
#[cycle(serialize_search)]
#[inline(always)]
fn serialize_option_box_search<S: Writer + Keys + ResolverAlloc>(
    value: &Option<Box<Search>>,
    serializer: &mut S,
) -> Result<Option<BoxResolver>, Error>
    ensures serialized { IfOk result (λ r. Serialized search_definitions
        (option_shape (boxed (one search_shape))) (⟦<Option<Box<Search>> as Archive>⟧.keys
        value.now) (⟦<Option<Box<Search>> as Archive>⟧.meaning value.now)
        (option_at (one search_shape) r) (S.state serializer.old) (S.state serializer.new)) }
    ensures same_value { IfOk result (λ r. ⊤) }
    ensures goes_on { GoesOn (S.state serializer.old) (S.state serializer.new) }
    ensures refused { IfErr result (IsRefused search_definitions
        (option_shape (boxed (one search_shape))) (⟦<Option<Box<Search>> as Archive>⟧.keys
        value.now) (⟦<Option<Box<Search>> as Archive>⟧.meaning value.now) (S.state serializer.old)
        (S.state serializer.new)) }
{
    match value {
        None => Ok(None),
        Some(whole) => {
            let inner = &**whole;
            let kept = match serialize_search(inner, serializer) {
                Ok(kept) => kept,
                Err(error) => return Err(handed_on(error)),
            };
            match serialize_inner(inner, kept, serializer) {
                Ok(at) => Ok(Some(at)),
                Err(error) => Err(error),
            }
        }
    }
}

// Writes what a value owns, part by part.
#[cycle(serialize_search)]
fn serialize_whole_search<S: Writer + Keys + ResolverAlloc>(
    value: &Search,
    serializer: &mut S,
) -> Result<SearchResolver, Error>
    ensures serialized { IfOk result (λ r. Serialized search_definitions search_shape
        (⟦<Search as Archive>⟧.keys value.now) (⟦<Search as Archive>⟧.meaning value.now)
        (⟦<Search as Archive>⟧.flat value.now r) (S.state serializer.old)
        (S.state serializer.new)) }
    ensures same_value { IfOk result (λ r. ⟦<Search as Archive>⟧.belongs value.now r) }
    ensures goes_on { GoesOn (S.state serializer.old) (S.state serializer.new) }
    ensures refused { IfErr result (IsRefused search_definitions search_shape
        (⟦<Search as Archive>⟧.keys value.now) (⟦<Search as Archive>⟧.meaning value.now)
        (S.state serializer.old) (S.state serializer.new)) }
{
    let a0 = match serialize_option_box_search(&value.left, serializer) {
        Ok(a0) => a0,
        Err(error) => return Err(handed_on(error)),
    };
    let a1 = match serialize_part(&value.value, serializer) {
        Ok(a1) => a1,
        Err(error) => return Err(error),
    };
    let a2 = match serialize_option_box_search(&value.right, serializer) {
        Ok(a2) => a2,
        Err(error) => return Err(error),
    };
    Ok(SearchResolver {
        kept: (a0, (a1, (a2, ()))),
    })
}

// The same by a call, whose result has its room only while it lasts.
#[cycle(serialize_search)]
#[inline(always)]
fn serialize_search<S: Writer + Keys + ResolverAlloc>(
    value: &Search,
    serializer: &mut S,
) -> Result<SearchResolver, Error>
    ensures serialized { IfOk result (λ r. Serialized search_definitions search_shape
        (⟦<Search as Archive>⟧.keys value.now) (⟦<Search as Archive>⟧.meaning value.now)
        (⟦<Search as Archive>⟧.flat value.now r) (S.state serializer.old)
        (S.state serializer.new)) }
    ensures same_value { IfOk result (λ r. ⟦<Search as Archive>⟧.belongs value.now r) }
    ensures goes_on { GoesOn (S.state serializer.old) (S.state serializer.new) }
    ensures refused { IfErr result (IsRefused search_definitions search_shape
        (⟦<Search as Archive>⟧.keys value.now) (⟦<Search as Archive>⟧.meaning value.now)
        (S.state serializer.old) (S.state serializer.new)) }
{
    serialize_whole_search(value, serializer)
}

impl<S: Writer + Keys + ResolverAlloc> Serialize<S> for Search {
    #[inline(always)]
    fn serialize(&self, serializer: &mut S) -> Result<Self::Resolver, Error> {
        serialize_search(self, serializer)
    }
}

/// As a region of its own: the value itself.
impl ArchiveUnsized for Search {
    ghost use Rattle.recursive_types.specs.contracts.search.SearchArchive.TheImpl.Laws.{keyed-law as keyed_of_search, planned-law as planned_of_search};

    type Archived = ArchivedSearch;

    ghost source_length = { λ _. 0 };

    ghost meaning = { ⟦<Search as Archive>⟧.meaning };

    ghost keys = { ⟦<Search as Archive>⟧.keys };

    ghost keyed = { keyed_of_search };

    ghost one_length = { λ _ _. refl };

    ghost planned = { λ v. one_planned search_definitions search_shape
        (⟦<Search as Archive>⟧.keys v) (⟦<Search as Archive>⟧.meaning v) (planned_of_search v) };

    #[inline(always)]
    fn archived_metadata(&self) -> Result<(), Error> {
        Ok(())
    }
}

impl<S: Writer + Keys + ResolverAlloc> SerializeUnsized<S> for Search {
    #[inline(always)]
    fn serialize_unsized(&self, serializer: &mut S) -> Result<usize, Error> {
        serialize_one(self, serializer)
    }
}

// Reads a box back.
#[cycle(read_search)]
#[inline(always)]
fn read_box_search<D: Entries>(
    alloc: Global,
    part: RawView<'_>,
    deserializer: &mut D,
) -> Result<Box<Search>, Error>
    requires { IsPartOf ⟦<ArchivedBox<ArchivedSearch> as ArchivePointee>⟧ part }
    ensures read { IfOk result (Read ⟦<ArchivedBox<ArchivedSearch> as ArchivePointee>⟧ part
        D.Entries deserializer ⟦<Box<Search> as Archive>⟧) }
    ensures refused { IfErr result (RefusesPart ⟦<ArchivedBox<ArchivedSearch> as ArchivePointee>⟧
        part D.Entries deserializer) }
{
    let view: Ref<'_, ArchivedBox<ArchivedSearch>> = Ref::at(part);
    let value = match read_search(alloc, before_box(view).part(), deserializer) {
        Ok(value) => value,
        Err(error) => return Err(error),
    };
    let whole = Box::new(alloc, value)?;
    Ok(whole)
}

// Reads an option back.
#[cycle(read_search)]
#[inline(always)]
fn read_option_box_search<D: Entries>(
    alloc: Global,
    part: RawView<'_>,
    deserializer: &mut D,
) -> Result<Option<Box<Search>>, Error>
    requires { IsPartOf ⟦<ArchivedOption<ArchivedBox<ArchivedSearch>> as ArchivePointee>⟧ part }
    ensures read { IfOk result (Read ⟦<ArchivedOption<ArchivedBox<ArchivedSearch>> as ArchivePointee>⟧
        part D.Entries deserializer ⟦<Option<Box<Search>> as Archive>⟧) }
    ensures refused { IfErr result
        (RefusesPart ⟦<ArchivedOption<ArchivedBox<ArchivedSearch>> as ArchivePointee>⟧ part
        D.Entries deserializer) }
{
    let view: Ref<'_, ArchivedOption<ArchivedBox<ArchivedSearch>>> = Ref::at(part);
    match view.as_ref() {
        None => Ok(None),
        Some(inner) => match read_box_search(alloc, inner.part(), deserializer) {
            Ok(value) => Ok(Some(value)),
            Err(error) => Err(error),
        },
    }
}

// Reads a value back, part by part.
#[cycle(read_search)]
fn read_search<D: Entries>(
    alloc: Global,
    part: RawView<'_>,
    deserializer: &mut D,
) -> Result<Search, Error>
    requires { IsPartOf ⟦<ArchivedSearch as ArchivePointee>⟧ part }
    ensures read { IfOk result (Read ⟦<ArchivedSearch as ArchivePointee>⟧ part D.Entries
        deserializer ⟦<Search as Archive>⟧) }
    ensures refused { IfErr result (RefusesPart ⟦<ArchivedSearch as ArchivePointee>⟧ part D.Entries
        deserializer) }
{
    let p0 = part_of_record::<ArchivedSearch, ArchivedOption<ArchivedBox<ArchivedSearch>>>(
        part, 0, 0,
    );
    let a0 = match read_option_box_search(alloc, p0, deserializer) {
        Ok(a0) => a0,
        Err(error) => return Err(error),
    };
    let p1 = part_of_record::<ArchivedSearch, ArchivedU32>(part, 1, 8);
    let a1 = match read_part::<ArchivedU32, u32, D>(alloc, p1, deserializer) {
        Ok(a1) => a1,
        Err(error) => return Err(error),
    };
    let p2 = part_of_record::<ArchivedSearch, ArchivedOption<ArchivedBox<ArchivedSearch>>>(
        part, 2, 12,
    );
    let a2 = match read_option_box_search(alloc, p2, deserializer) {
        Ok(a2) => a2,
        Err(error) => return Err(error),
    };
    Ok(Search {
        left: a0,
        value: a1,
        right: a2,
    })
}

impl<D: Entries> Deserialize<Search, D> for ArchivedSearch {
    #[inline(always)]
    fn deserialize_part(
        alloc: Global,
        part: RawView<'_>,
        deserializer: &mut D,
    ) -> Result<Search, Error>
        requires { IsPartOf ⟦<Self as ArchivePointee>⟧ part }
        ensures { ReadsAs ⟦<Self as ArchivePointee>⟧ part D.Entries deserializer
            ⟦<Search as Archive>⟧ result }
    {
        read_search(alloc, part, deserializer)
    }
}

/// The fields of an archived `Search`, as views.
pub trait SearchView<'a> {
    /// The smaller ones.
    fn left(self) -> Ref<'a, ArchivedOption<ArchivedBox<ArchivedSearch>>>;

    /// The number.
    fn value(self) -> Ref<'a, ArchivedU32>;

    /// The greater ones.
    fn right(self) -> Ref<'a, ArchivedOption<ArchivedBox<ArchivedSearch>>>;
}

impl<'a> SearchView<'a> for Ref<'a, ArchivedSearch> {
    fn left(self) -> Ref<'a, ArchivedOption<ArchivedBox<ArchivedSearch>>>
        ensures buffer { result.bytes.now ≡ self.entry.bytes.now }
        ensures position { result.pos ≡ self.entry.pos + 0 }
        ensures length { result.len ≡ 0 }
        ensures shows { ShowsValueOf result self.entry (field_in 0) }
    {
        view_of_field::<ArchivedSearch, ArchivedOption<ArchivedBox<ArchivedSearch>>>(self, 0, 0)
    }

    fn value(self) -> Ref<'a, ArchivedU32>
        ensures buffer { result.bytes.now ≡ self.entry.bytes.now }
        ensures position { result.pos ≡ self.entry.pos + 8 }
        ensures length { result.len ≡ 0 }
        ensures shows { ShowsValueOf result self.entry (field_in 1) }
    {
        view_of_field::<ArchivedSearch, ArchivedU32>(self, 1, 8)
    }

    fn right(self) -> Ref<'a, ArchivedOption<ArchivedBox<ArchivedSearch>>>
        ensures buffer { result.bytes.now ≡ self.entry.bytes.now }
        ensures position { result.pos ≡ self.entry.pos + 12 }
        ensures length { result.len ≡ 0 }
        ensures shows { ShowsValueOf result self.entry (field_in 2) }
    {
        view_of_field::<ArchivedSearch, ArchivedOption<ArchivedBox<ArchivedSearch>>>(self, 2, 12)
    }
}

/// The fields of an archived `Search`, as seals.
pub trait SearchSeal<'a> {
    // The seal shows a part of a buffer that was checked.
    ghost sealed: { Self → Type 0 };

    /// The smaller ones.
    fn left_mut(self) -> Seal<'a, ArchivedOption<ArchivedBox<ArchivedSearch>>>
        requires { sealed self };

    /// The number.
    fn value_mut(self) -> Seal<'a, ArchivedU32>
        requires { sealed self };

    /// The greater ones.
    fn right_mut(self) -> Seal<'a, ArchivedOption<ArchivedBox<ArchivedSearch>>>
        requires { sealed self };
}

impl<'a> SearchSeal<'a> for Seal<'a, ArchivedSearch> {
    ghost sealed = { λ s. IsSealOf search_definitions (one ⟦<ArchivedSearch as Portable>⟧.shape)
        s };

    fn left_mut(self) -> Seal<'a, ArchivedOption<ArchivedBox<ArchivedSearch>>>
        requires come_to { IsSealOf search_definitions (one ⟦<ArchivedSearch as Portable>⟧.shape)
            self }
        ensures { SealsPart search_definitions (one ⟦<ArchivedSearch as Portable>⟧.shape)
            ⟦<ArchivedSearch as ArchivePointee>⟧.definitions
            ⟦<ArchivedOption<ArchivedBox<ArchivedSearch>> as ArchivePointee>⟧.pointee
            (self.entry.pos + 0) 0 self.entry result }
    {
        seal_of_field::<ArchivedSearch, ArchivedOption<ArchivedBox<ArchivedSearch>>>(self, 0, 0)
    }

    fn value_mut(self) -> Seal<'a, ArchivedU32>
        requires come_to { IsSealOf search_definitions (one ⟦<ArchivedSearch as Portable>⟧.shape)
            self }
        ensures { SealsPart search_definitions (one ⟦<ArchivedSearch as Portable>⟧.shape)
            no_definition ⟦<ArchivedU32 as ArchivePointee>⟧.pointee (self.entry.pos + 8) 0
            self.entry result }
    {
        seal_of_field::<ArchivedSearch, ArchivedU32>(self, 1, 8)
    }

    fn right_mut(self) -> Seal<'a, ArchivedOption<ArchivedBox<ArchivedSearch>>>
        requires come_to { IsSealOf search_definitions (one ⟦<ArchivedSearch as Portable>⟧.shape)
            self }
        ensures { SealsPart search_definitions (one ⟦<ArchivedSearch as Portable>⟧.shape)
            ⟦<ArchivedSearch as ArchivePointee>⟧.definitions
            ⟦<ArchivedOption<ArchivedBox<ArchivedSearch>> as ArchivePointee>⟧.pointee
            (self.entry.pos + 12) 0 self.entry result }
    {
        seal_of_field::<ArchivedSearch, ArchivedOption<ArchivedBox<ArchivedSearch>>>(self, 2, 12)
    }
}
