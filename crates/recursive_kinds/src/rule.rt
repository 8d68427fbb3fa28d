//! Rules with parts of their own, which lie in a boxed slice.

use archive_core::boxed::{BoxSlice, BoxStr};
use archive_core::core_impls::OwnedArray;

/// A rule.
#[derive(Drop)]
pub struct Rule {
    /// Its words.
    pub words: BoxStr,
    /// Its version.
    pub version: OwnedArray<u8, 4>,
    /// The pages on which it is cited.
    pub pages: BoxSlice<u16>,
    /// How many lines it has.
    pub lines: usize,
    /// Its parts, each a rule.
    pub parts: BoxSlice<Rule>,
}

// Below this line all is written by tools/derive: change what is above it, and run it again.

ghost use Rattle.archive_core.specs.Arrays.{named_twice, no_two, twice_keyed};
ghost use Rattle.archive_core.specs.CallOutcomes.{ResolvesAs};
ghost use Rattle.archive_core.specs.Causes.{IsRefused};
ghost use Rattle.archive_core.specs.Definitions.{no_definition};
ghost use Rattle.archive_core.specs.Expressed.{ExpressesParts};
ghost use Rattle.archive_core.specs.Fields.{field_in};
ghost use Rattle.archive_core.specs.PlannedOwners.{one_planned};
ghost use Rattle.archive_core.specs.Plans.{Serialized};
ghost use Rattle.archive_core.specs.ReadBack.{Read, ReadsAs};
ghost use Rattle.archive_core.specs.Readable.{target_from};
ghost use Rattle.archive_core.specs.Reads.{u32_at};
ghost use Rattle.archive_core.specs.Runs.{EachBelongs, IsRunRefused, SerializedRun, each_flat, each_keys, each_meaning};
ghost use Rattle.archive_core.specs.SealOutcomes.{IsSealOf, SealsPart};
ghost use Rattle.archive_core.specs.Seen.{IsPartOf, RefusesPart, ShowsValueOf};
ghost use Rattle.archive_core.specs.SelfCheck.Laws.{by_schema};
ghost use Rattle.archive_core.specs.Shape.{boxed, one, part, parts, run};
ghost use Rattle.archive_core.specs.Value.{box, hole, list, shared_value, value};
ghost use Rattle.archive_core.specs.WriterState.{WriterState};
ghost use Rattle.archive_core.specs.Writing.{ZeroedPlace, to_pointee};
ghost use Rattle.archive_core.specs.Written.{GoesOn};
ghost use Rattle.recursive_kinds.specs.RuleShape.{rule_definitions, rule_has_layout, rule_has_parts, rule_is_align, rule_layout, rule_no_others, rule_parts, rule_shape};
ghost use Rattle.std.proofs.Common.{lit≤};
ghost use Rattle.std.specs.Prelude.{IfErr, IfOk, None, length, refl, ◌*◌, ◌+◌, ◌≡◌, ◌≤◌};

use archive_core::boxed::{ArchivedBox, BoxResolver};
use archive_core::error::Error;
use archive_core::laws::{parts_reached, pointers_reached, unique_before};
use archive_core::place::Place;
use archive_core::primitive::{ArchivedU16, ArchivedUsize};
use archive_core::recursive::{
    define_record, expression_of, first_expression, handed_on, named_expression, no_expressions,
    part_of_record, read_part, resolve_named_record_5, run_expression, seal_of_field,
    serialize_part, view_of_field,
};
use archive_core::seal::Seal;
use archive_core::self_check::BySchema;
use archive_core::ser::{ResolveExt, ResolverAlloc, Writer, WriterExt, serialize_one};
use archive_core::shape::Defs;
use archive_core::slice::ArchivedSlice;
use archive_core::string::ArchivedStr;
use archive_core::traits::{
    Archive, ArchivePointee, ArchiveUnsized, CopyOptimization, Deserialize, Entries, Keys,
    Portable, Record, Serialize, SerializeUnsized,
};
use archive_core::view::{RawView, Ref};
use std::alloc::{AllocError, Allocator, Global};
use std::marker::PhantomData;

/// An archived `Rule`: 32 bytes at a multiple of 4. It is validated by its schema.
pub struct ArchivedRule;

type RuleParts = (
    ArchivedBox<ArchivedStr>,
    (
        [u8; 4],
        (
            ArchivedBox<ArchivedSlice<ArchivedU16>>,
            (
                ArchivedUsize,
                (ArchivedBox<ArchivedSlice<ArchivedRule>>, ()),
            ),
        ),
    ),
);

impl ArchivePointee for ArchivedRule {
    type ArchivedMetadata = ();

    ghost pointee = { one rule_shape };

    ghost definitions = { rule_definitions };

    ghost metadata_length = { λ _. 0 };

    fn pointer_metadata(_metadata: &()) -> usize {
        0
    }
}

// The parts of `Rule`.
fn rule_expressions(alloc: Global) -> Result<Vec<archive_core::shape::Expr>, AllocError>
    ensures { ExpressesParts rule_parts result }
{
    let rest5 = no_expressions(alloc);
    let rest4 = first_expression(
        run_expression(alloc, named_expression("ArchivedRule")),
        rest5,
    );
    let rest3 = first_expression(expression_of::<ArchivedUsize>(alloc), rest4);
    let rest2 = first_expression(
        expression_of::<ArchivedBox<ArchivedSlice<ArchivedU16>>>(alloc),
        rest3,
    );
    let rest1 = first_expression(expression_of::<[u8; 4]>(alloc), rest2);
    first_expression(expression_of::<ArchivedBox<ArchivedStr>>(alloc), rest1)
}

impl Portable for ArchivedRule {
    ghost shape = { rule_shape };

    ghost layout = { rule_layout };

    type Check = BySchema;

    ghost is_one = { refl };

    ghost is_align = { rule_is_align };

    ghost has_layout = { rule_has_layout };

    ghost no_others = { rule_no_others };

    ghost checks = { λ direct. by_schema direct };

    fn size() -> usize {
        32
    }

    fn align() -> usize {
        4
    }

    fn expr(_alloc: Global) -> Result<archive_core::shape::Expr, Error> {
        Ok(archive_core::shape::Expr::Named("ArchivedRule"))
    }

    fn define(alloc: Global, defs: &mut Defs) -> Result<(), Error> {
        define_record("ArchivedRule", rule_expressions(alloc), defs)
    }
}

impl Record for ArchivedRule {
    type Parts = RuleParts;

    ghost has_parts = { rule_has_parts };

    ghost holds = { lit≤ tt };
}

/// What is kept of `Rule` between `serialize` and `resolve`.
#[derive(Drop)]
pub struct RuleResolver {
    kept: (
        <BoxStr as Archive>::Resolver,
        (
            <OwnedArray<u8, 4> as Archive>::Resolver,
            (
                <BoxSlice<u16> as Archive>::Resolver,
                (<usize as Archive>::Resolver, (BoxResolver, ())),
            ),
        ),
    ),
}

// A boxed slice whose elements, of the format `X`, were written before. It can be resolved, and nothing else: it means nothing.
#[derive(Drop)]
struct BoxSliceAt<X> {
    // The number of elements.
    len: usize,
    of: PhantomData<X>,
}

impl<X> BoxSliceAt<X> {
    // A boxed slice of `len` elements that were written.
    #[inline(always)]
    fn of(len: usize) -> BoxSliceAt<X>
        ensures { result.len ≡ len }
    {
        BoxSliceAt {
            len,
            of: PhantomData,
        }
    }
}

impl<X: Portable> Archive for BoxSliceAt<X> {
    type Archived = ArchivedBox<ArchivedSlice<X>>;

    type Resolver = BoxResolver;

    ghost meaning = { λ _. shared_value 0 };

    ghost flat = { λ b r. box (hole (to_pointee r (run X.shape) b.len)) };

    ghost keys = { λ _. named_twice };

    ghost belongs = { λ b _. b.len ≤ 4294967295 };

    ghost in_bulk = { None };

    ghost keyed = { λ _. twice_keyed };

    ghost planned = { λ _ a s names known named. absurd (no_two names named) };

    #[inline(always)]
    fn resolve(
        &self,
        resolver: BoxResolver,
        place: Place<'_, ArchivedBox<ArchivedSlice<X>>>,
    ) -> Result<(), Error>
        requires zeroed { ZeroedPlace 8 place.pos place.bytes.now }
        requires same_value { self.now.len ≤ 4294967295 }
        ensures { ResolvesAs ⟦<Self::Archived as Portable>⟧ place
            (⟦<Self as Archive>⟧.flat self.now resolver) result }
    {
        let Place { bytes, pos, .. } = place;
        ArchivedBox::<ArchivedSlice<X>>::resolve_from_raw_parts(
            resolver,
            self.len as u32,
            Place::new(pos, bytes),
        )
    }

    #[inline(always)]
    fn copy_optimization() -> CopyOptimization<Self> {
        CopyOptimization::disable()
    }

    #[inline(always)]
    fn serialize_copied<S: Writer + Keys>(
        _values: &[Self],
        _together: usize,
        _serializer: &mut S,
    ) -> Result<Option<usize>, Error> {
        Ok(None)
    }
}

// Writes the region of values that were serialized, and returns the resolver of a boxed slice of them: from wherever they were, that is serialized now.
#[inline(never)]
fn serialize_inner_box_slice<S: Writer + ResolverAlloc, T: Archive, B: Allocator + Drop>(
    values: &[T],
    resolvers: Vec<T::Resolver, B>,
    serializer: &mut S,
) -> Result<BoxResolver, Error>
    requires same_values { EachBelongs T.belongs values.now resolvers.items }
    ensures boxed { IfOk result (λ t. (old : WriterState) → GoesOn old (S.state serializer.old)
        → SerializedRun T.Archived.definitions T.Archived.shape (length values.now)
        (each_keys T.keys values.now) (each_meaning T.meaning values.now)
        (each_flat T.flat values.now resolvers.items) old (S.state serializer.old)
        → Serialized T.Archived.definitions (boxed (run T.Archived.shape))
        (each_keys T.keys values.now) (box (list (each_meaning T.meaning values.now)))
        (box (hole (to_pointee t (run T.Archived.shape) (length values.now)))) old
        (S.state serializer.new)) }
    ensures goes_on { GoesOn (S.state serializer.old) (S.state serializer.new) }
    ensures refused { IfErr result (λ e. (old : WriterState) → GoesOn old (S.state serializer.old)
        → SerializedRun T.Archived.definitions T.Archived.shape (length values.now)
        (each_keys T.keys values.now) (each_meaning T.meaning values.now)
        (each_flat T.flat values.now resolvers.items) old (S.state serializer.old)
        → IsRefused T.Archived.definitions (boxed (run T.Archived.shape))
        (each_keys T.keys values.now) (box (list (each_meaning T.meaning values.now))) old
        (S.state serializer.new) e) }
{
    let alloc = serializer.resolver_alloc();
    WriterExt::align_for::<T::Archived>(serializer)?;
    let pos = ResolveExt::resolve_slice_aligned(serializer, alloc, values, resolvers)?;
    if pos > 4294967295 {
        return Err(Error::PositionTooLarge);
    }
    Ok(BoxResolver::from_pos(pos))
}

// The view of a boxed slice's elements, which end before it.
#[inline(always)]
fn before_box_slice<X: Portable>(part: RawView<'_>) -> Ref<'_, ArchivedSlice<X>>
    requires { IsPartOf ⟦<ArchivedBox<ArchivedSlice<X>> as ArchivePointee>⟧ part }
    ensures buffer { result.bytes.now ≡ part.entry.bytes.now }
    ensures position { result.pos ≡ target_from part.entry.bytes.now part.entry.pos part.entry.pos }
    ensures length { result.len ≡ u32_at part.entry.bytes.now (part.entry.pos + 4) }
    ensures ends { result.pos + result.len * X.layout.size ≤ part.entry.pos }
{
    parts_reached();
    pointers_reached();
    unique_before();
    let view: Ref<'_, ArchivedBox<ArchivedSlice<X>>> = Ref::at(part);
    view.get()
}

impl Archive for Rule {
    ghost use Rattle.recursive_kinds.specs.RuleMeaning.{rule_meaning, rule_flat, rule_keys, rule_belongs, rule_keyed, rule_planned};

    type Archived = ArchivedRule;

    type Resolver = RuleResolver;

    ghost meaning = { rule_meaning };

    ghost flat = { rule_flat };

    ghost keys = { rule_keys };

    ghost belongs = { rule_belongs };

    ghost in_bulk = { None };

    ghost keyed = { rule_keyed };

    ghost planned = { rule_planned };

    #[inline(always)]
    fn resolve(
        &self,
        resolver: Self::Resolver,
        place: Place<'_, Self::Archived>,
    ) -> Result<(), Error>
        requires zeroed { ZeroedPlace 32 place.pos place.bytes.now }
        requires same_value { ⟦<Self as Archive>⟧.belongs self.now resolver }
        ensures { ResolvesAs ⟦<Self::Archived as Portable>⟧ place
            (⟦<Self as Archive>⟧.flat self.now resolver) result }
    {
        let Place { bytes, pos, .. } = place;
        let RuleResolver { kept } = resolver;
        let h4: BoxSliceAt<ArchivedRule> = BoxSliceAt::of(self.parts.items.len());
        resolve_named_record_5::<
            BoxStr,
            OwnedArray<u8, 4>,
            BoxSlice<u16>,
            usize,
            BoxSliceAt<ArchivedRule>,
            ArchivedRule,
        >(
            &self.words,
            &self.version,
            &self.pages,
            &self.lines,
            &h4,
            kept,
            Place::new(pos, bytes),
        )
    }

    #[inline(always)]
    fn copy_optimization() -> CopyOptimization<Self> {
        CopyOptimization::disable()
    }

    #[inline(always)]
    fn serialize_copied<S: Writer + Keys>(
        _values: &[Self],
        _together: usize,
        _serializer: &mut S,
    ) -> Result<Option<usize>, Error> {
        Ok(None)
    }
}

// Writes what each of the values owns, in order.
#[cycle(serialize_rule)]
fn serialize_each_rule<S: Writer + Keys + ResolverAlloc<Alloc = Global>>(
    values: &[Rule],
    serializer: &mut S,
) -> Result<Vec<<Rule as Archive>::Resolver, S::Alloc>, Error>
    ensures serialized { IfOk result (λ rs. SerializedRun rule_definitions rule_shape
        (length values.now) (each_keys ⟦<Rule as Archive>⟧.keys values.now)
        (each_meaning ⟦<Rule as Archive>⟧.meaning values.now)
        (each_flat ⟦<Rule as Archive>⟧.flat values.now rs.items) (S.state serializer.old)
        (S.state serializer.new)) }
    ensures same_values { IfOk result (λ rs. EachBelongs ⟦<Rule as Archive>⟧.belongs values.now
        rs.items) }
    ensures goes_on { GoesOn (S.state serializer.old) (S.state serializer.new) }
    ensures refused { IfErr result (IsRunRefused rule_definitions rule_shape (length values.now)
        (each_keys ⟦<Rule as Archive>⟧.keys values.now)
        (each_meaning ⟦<Rule as Archive>⟧.meaning values.now) (S.state serializer.old)
        (S.state serializer.new)) }
{
    let alloc = serializer.resolver_alloc();
    let mut resolvers = Vec::with_capacity(alloc, values.len())?;
    for value in values {
        let resolver = match serialize_rule(value, serializer) {
            Ok(resolver) => resolver,
            Err(error) => return Err(handed_on(error)),
        };
        resolvers.push_reserved(resolver);
    }
    Ok(resolvers)
}

// Writes what a boxed slice of these elements owns.
#[cycle(serialize_rule)]
fn serialize_box_slice_rule<S: Writer + Keys + ResolverAlloc<Alloc = Global>>(
    value: &Vec<Rule>,
    serializer: &mut S,
) -> Result<BoxResolver, Error>
    ensures serialized { IfOk result (λ r. Serialized rule_definitions (boxed (run rule_shape))
        (each_keys ⟦<Rule as Archive>⟧.keys value.now.items)
        (box (list (each_meaning ⟦<Rule as Archive>⟧.meaning value.now.items)))
        (box (hole (to_pointee r (run rule_shape) (length value.now.items))))
        (S.state serializer.old) (S.state serializer.new)) }
    ensures same_value { IfOk result (λ r. length value.now.items ≤ 4294967295) }
    ensures goes_on { GoesOn (S.state serializer.old) (S.state serializer.new) }
    ensures refused { IfErr result (IsRefused rule_definitions (boxed (run rule_shape))
        (each_keys ⟦<Rule as Archive>⟧.keys value.now.items)
        (box (list (each_meaning ⟦<Rule as Archive>⟧.meaning value.now.items)))
        (S.state serializer.old) (S.state serializer.new)) }
{
    if value.len() > u32::MAX as usize {
        return Err(Error::LengthTooLarge);
    }
    let items = value.as_slice();
    let kept = match serialize_each_rule(items, serializer) {
        Ok(kept) => kept,
        Err(error) => return Err(error),
    };
    match serialize_inner_box_slice(items, kept, serializer) {
        Ok(at) => Ok(at),
        Err(error) => Err(error),
    }
}

// Writes what a value owns, part by part.
#[cycle(serialize_rule)]
fn serialize_whole_rule<S: Writer + Keys + ResolverAlloc<Alloc = Global>>(
    value: &Rule,
    serializer: &mut S,
) -> Result<RuleResolver, Error>
    ensures serialized { IfOk result (λ r. Serialized rule_definitions rule_shape
        (⟦<Rule as Archive>⟧.keys value.now) (⟦<Rule as Archive>⟧.meaning value.now)
        (⟦<Rule as Archive>⟧.flat value.now r) (S.state serializer.old) (S.state serializer.new)) }
    ensures same_value { IfOk result (λ r. ⟦<Rule as Archive>⟧.belongs value.now r) }
    ensures goes_on { GoesOn (S.state serializer.old) (S.state serializer.new) }
    ensures refused { IfErr result (IsRefused rule_definitions rule_shape
        (⟦<Rule as Archive>⟧.keys value.now) (⟦<Rule as Archive>⟧.meaning value.now)
        (S.state serializer.old) (S.state serializer.new)) }
{
    let a0 = match serialize_part(&value.words, serializer) {
        Ok(a0) => a0,
        Err(error) => return Err(error),
    };
    let a1 = match serialize_part(&value.version, serializer) {
        Ok(a1) => a1,
        Err(error) => return Err(error),
    };
    let a2 = match serialize_part(&value.pages, serializer) {
        Ok(a2) => a2,
        Err(error) => return Err(error),
    };
    let a3 = match serialize_part(&value.lines, serializer) {
        Ok(a3) => a3,
        Err(error) => return Err(error),
    };
    let a4 = match serialize_box_slice_rule(&value.parts.items, serializer) {
        Ok(a4) => a4,
        Err(error) => return Err(handed_on(error)),
    };
    Ok(RuleResolver {
        kept: (a0, (a1, (a2, (a3, (a4, ()))))),
    })
}

// The same by a call, whose result has its room only while it lasts.
#[cycle(serialize_rule)]
#[inline(always)]
fn serialize_rule<S: Writer + Keys + ResolverAlloc<Alloc = Global>>(
    value: &Rule,
    serializer: &mut S,
) -> Result<RuleResolver, Error>
    ensures serialized { IfOk result (λ r. Serialized rule_definitions rule_shape
        (⟦<Rule as Archive>⟧.keys value.now) (⟦<Rule as Archive>⟧.meaning value.now)
        (⟦<Rule as Archive>⟧.flat value.now r) (S.state serializer.old) (S.state serializer.new)) }
    ensures same_value { IfOk result (λ r. ⟦<Rule as Archive>⟧.belongs value.now r) }
    ensures goes_on { GoesOn (S.state serializer.old) (S.state serializer.new) }
    ensures refused { IfErr result (IsRefused rule_definitions rule_shape
        (⟦<Rule as Archive>⟧.keys value.now) (⟦<Rule as Archive>⟧.meaning value.now)
        (S.state serializer.old) (S.state serializer.new)) }
{
    serialize_whole_rule(value, serializer)
}

impl<S: Writer + Keys + ResolverAlloc<Alloc = Global>> Serialize<S> for Rule {
    #[inline(always)]
    fn serialize(&self, serializer: &mut S) -> Result<Self::Resolver, Error> {
        serialize_rule(self, serializer)
    }
}

/// As a region of its own: the value itself.
impl ArchiveUnsized for Rule {
    ghost use Rattle.recursive_kinds.specs.contracts.rule.RuleArchive.TheImpl.Laws.{keyed-law as keyed_of_rule, planned-law as planned_of_rule};

    type Archived = ArchivedRule;

    ghost source_length = { λ _. 0 };

    ghost meaning = { ⟦<Rule as Archive>⟧.meaning };

    ghost keys = { ⟦<Rule as Archive>⟧.keys };

    ghost keyed = { keyed_of_rule };

    ghost one_length = { λ _ _. refl };

    ghost planned = { λ v. one_planned rule_definitions rule_shape (⟦<Rule as Archive>⟧.keys v)
        (⟦<Rule as Archive>⟧.meaning v) (planned_of_rule v) };

    #[inline(always)]
    fn archived_metadata(&self) -> Result<(), Error> {
        Ok(())
    }
}

impl<S: Writer + Keys + ResolverAlloc<Alloc = Global>> SerializeUnsized<S> for Rule {
    #[inline(always)]
    fn serialize_unsized(&self, serializer: &mut S) -> Result<usize, Error> {
        serialize_one(self, serializer)
    }
}

// Reads a boxed slice back.
#[cycle(read_rule)]
#[inline(always)]
fn read_box_slice_rule<D: Entries>(
    alloc: Global,
    part: RawView<'_>,
    deserializer: &mut D,
) -> Result<BoxSlice<Rule>, Error>
    requires { IsPartOf ⟦<ArchivedBox<ArchivedSlice<ArchivedRule>> as ArchivePointee>⟧ part }
    ensures read { IfOk result (Read ⟦<ArchivedBox<ArchivedSlice<ArchivedRule>> as ArchivePointee>⟧
        part D.Entries deserializer ⟦<BoxSlice<Rule> as Archive>⟧) }
    ensures refused { IfErr result
        (RefusesPart ⟦<ArchivedBox<ArchivedSlice<ArchivedRule>> as ArchivePointee>⟧ part D.Entries
        deserializer) }
{
    let list = before_box_slice::<ArchivedRule>(part);
    let mut items = Vec::with_capacity(alloc, list.len())?;
    for index in 0..list.len() {
        let item = match read_rule(alloc, list.index(index).part(), deserializer) {
            Ok(item) => item,
            Err(error) => return Err(error),
        };
        items.push_reserved(item);
    }
    Ok(BoxSlice { items })
}

// Reads a value back, part by part.
#[cycle(read_rule)]
fn read_rule<D: Entries>(
    alloc: Global,
    part: RawView<'_>,
    deserializer: &mut D,
) -> Result<Rule, Error>
    requires { IsPartOf ⟦<ArchivedRule as ArchivePointee>⟧ part }
    ensures read { IfOk result (Read ⟦<ArchivedRule as ArchivePointee>⟧ part D.Entries deserializer
        ⟦<Rule as Archive>⟧) }
    ensures refused { IfErr result (RefusesPart ⟦<ArchivedRule as ArchivePointee>⟧ part D.Entries
        deserializer) }
{
    let p0 = part_of_record::<ArchivedRule, ArchivedBox<ArchivedStr>>(part, 0, 0);
    let a0 = match read_part::<ArchivedBox<ArchivedStr>, BoxStr, D>(alloc, p0, deserializer) {
        Ok(a0) => a0,
        Err(error) => return Err(error),
    };
    let p1 = part_of_record::<ArchivedRule, [u8; 4]>(part, 1, 8);
    let a1 = match read_part::<[u8; 4], OwnedArray<u8, 4>, D>(alloc, p1, deserializer) {
        Ok(a1) => a1,
        Err(error) => return Err(error),
    };
    let p2 = part_of_record::<ArchivedRule, ArchivedBox<ArchivedSlice<ArchivedU16>>>(part, 2, 12);
    let a2 = match read_part::<ArchivedBox<ArchivedSlice<ArchivedU16>>, BoxSlice<u16>, D>(
        alloc,
        p2,
        deserializer,
    ) {
        Ok(a2) => a2,
        Err(error) => return Err(error),
    };
    let p3 = part_of_record::<ArchivedRule, ArchivedUsize>(part, 3, 20);
    let a3 = match read_part::<ArchivedUsize, usize, D>(alloc, p3, deserializer) {
        Ok(a3) => a3,
        Err(error) => return Err(error),
    };
    let p4 = part_of_record::<ArchivedRule, ArchivedBox<ArchivedSlice<ArchivedRule>>>(part, 4, 24);
    let a4 = match read_box_slice_rule(alloc, p4, deserializer) {
        Ok(a4) => a4,
        Err(error) => return Err(error),
    };
    Ok(Rule {
        words: a0,
        version: a1,
        pages: a2,
        lines: a3,
        parts: a4,
    })
}

impl<D: Entries> Deserialize<Rule, D> for ArchivedRule {
    #[inline(always)]
    fn deserialize_part(
        alloc: Global,
        part: RawView<'_>,
        deserializer: &mut D,
    ) -> Result<Rule, Error>
        requires { IsPartOf ⟦<Self as ArchivePointee>⟧ part }
        ensures { ReadsAs ⟦<Self as ArchivePointee>⟧ part D.Entries deserializer ⟦<Rule as Archive>⟧
            result }
    {
        read_rule(alloc, part, deserializer)
    }
}

/// The fields of an archived `Rule`, as views.
pub trait RuleView<'a> {
    /// Its words.
    fn words(self) -> Ref<'a, ArchivedBox<ArchivedStr>>;

    /// Its version.
    fn version(self) -> Ref<'a, [u8; 4]>;

    /// The pages on which it is cited.
    fn pages(self) -> Ref<'a, ArchivedBox<ArchivedSlice<ArchivedU16>>>;

    /// How many lines it has.
    fn lines(self) -> Ref<'a, ArchivedUsize>;

    /// Its parts, each a rule.
    fn parts(self) -> Ref<'a, ArchivedBox<ArchivedSlice<ArchivedRule>>>;
}

impl<'a> RuleView<'a> for Ref<'a, ArchivedRule> {
    fn words(self) -> Ref<'a, ArchivedBox<ArchivedStr>>
        ensures buffer { result.bytes.now ≡ self.entry.bytes.now }
        ensures position { result.pos ≡ self.entry.pos + 0 }
        ensures length { result.len ≡ 0 }
        ensures shows { ShowsValueOf result self.entry (field_in 0) }
    {
        view_of_field::<ArchivedRule, ArchivedBox<ArchivedStr>>(self, 0, 0)
    }

    fn version(self) -> Ref<'a, [u8; 4]>
        ensures buffer { result.bytes.now ≡ self.entry.bytes.now }
        ensures position { result.pos ≡ self.entry.pos + 8 }
        ensures length { result.len ≡ 0 }
        ensures shows { ShowsValueOf result self.entry (field_in 1) }
    {
        view_of_field::<ArchivedRule, [u8; 4]>(self, 1, 8)
    }

    fn pages(self) -> Ref<'a, ArchivedBox<ArchivedSlice<ArchivedU16>>>
        ensures buffer { result.bytes.now ≡ self.entry.bytes.now }
        ensures position { result.pos ≡ self.entry.pos + 12 }
        ensures length { result.len ≡ 0 }
        ensures shows { ShowsValueOf result self.entry (field_in 2) }
    {
        view_of_field::<ArchivedRule, ArchivedBox<ArchivedSlice<ArchivedU16>>>(self, 2, 12)
    }

    fn lines(self) -> Ref<'a, ArchivedUsize>
        ensures buffer { result.bytes.now ≡ self.entry.bytes.now }
        ensures position { result.pos ≡ self.entry.pos + 20 }
        ensures length { result.len ≡ 0 }
        ensures shows { ShowsValueOf result self.entry (field_in 3) }
    {
        view_of_field::<ArchivedRule, ArchivedUsize>(self, 3, 20)
    }

    fn parts(self) -> Ref<'a, ArchivedBox<ArchivedSlice<ArchivedRule>>>
        ensures buffer { result.bytes.now ≡ self.entry.bytes.now }
        ensures position { result.pos ≡ self.entry.pos + 24 }
        ensures length { result.len ≡ 0 }
        ensures shows { ShowsValueOf result self.entry (field_in 4) }
    {
        view_of_field::<ArchivedRule, ArchivedBox<ArchivedSlice<ArchivedRule>>>(self, 4, 24)
    }
}

/// The fields of an archived `Rule`, as seals.
pub trait RuleSeal<'a> {
    // The seal shows a part of a buffer that was checked.
    ghost sealed: { Self → Type 0 };

    /// Its words.
    fn words_mut(self) -> Seal<'a, ArchivedBox<ArchivedStr>>
        requires { sealed self };

    /// Its version.
    fn version_mut(self) -> Seal<'a, [u8; 4]>
        requires { sealed self };

    /// The pages on which it is cited.
    fn pages_mut(self) -> Seal<'a, ArchivedBox<ArchivedSlice<ArchivedU16>>>
        requires { sealed self };

    /// How many lines it has.
    fn lines_mut(self) -> Seal<'a, ArchivedUsize>
        requires { sealed self };

    /// Its parts, each a rule.
    fn parts_mut(self) -> Seal<'a, ArchivedBox<ArchivedSlice<ArchivedRule>>>
        requires { sealed self };
}

impl<'a> RuleSeal<'a> for Seal<'a, ArchivedRule> {
    ghost sealed = { λ s. IsSealOf rule_definitions (one ⟦<ArchivedRule as Portable>⟧.shape) s };

    fn words_mut(self) -> Seal<'a, ArchivedBox<ArchivedStr>>
        requires come_to { IsSealOf rule_definitions (one ⟦<ArchivedRule as Portable>⟧.shape) self }
        ensures { SealsPart rule_definitions (one ⟦<ArchivedRule as Portable>⟧.shape) no_definition
            ⟦<ArchivedBox<ArchivedStr> as ArchivePointee>⟧.pointee (self.entry.pos + 0) 0 self.entry
            result }
    {
        seal_of_field::<ArchivedRule, ArchivedBox<ArchivedStr>>(self, 0, 0)
    }

    fn version_mut(self) -> Seal<'a, [u8; 4]>
        requires come_to { IsSealOf rule_definitions (one ⟦<ArchivedRule as Portable>⟧.shape) self }
        ensures { SealsPart rule_definitions (one ⟦<ArchivedRule as Portable>⟧.shape) no_definition
            ⟦<[u8; 4] as ArchivePointee>⟧.pointee (self.entry.pos + 8) 0 self.entry result }
    {
        seal_of_field::<ArchivedRule, [u8; 4]>(self, 1, 8)
    }

    fn pages_mut(self) -> Seal<'a, ArchivedBox<ArchivedSlice<ArchivedU16>>>
        requires come_to { IsSealOf rule_definitions (one ⟦<ArchivedRule as Portable>⟧.shape) self }
        ensures { SealsPart rule_definitions (one ⟦<ArchivedRule as Portable>⟧.shape) no_definition
            ⟦<ArchivedBox<ArchivedSlice<ArchivedU16>> as ArchivePointee>⟧.pointee
            (self.entry.pos + 12) 0 self.entry result }
    {
        seal_of_field::<ArchivedRule, ArchivedBox<ArchivedSlice<ArchivedU16>>>(self, 2, 12)
    }

    fn lines_mut(self) -> Seal<'a, ArchivedUsize>
        requires come_to { IsSealOf rule_definitions (one ⟦<ArchivedRule as Portable>⟧.shape) self }
        ensures { SealsPart rule_definitions (one ⟦<ArchivedRule as Portable>⟧.shape) no_definition
            ⟦<ArchivedUsize as ArchivePointee>⟧.pointee (self.entry.pos + 20) 0 self.entry result }
    {
        seal_of_field::<ArchivedRule, ArchivedUsize>(self, 3, 20)
    }

    fn parts_mut(self) -> Seal<'a, ArchivedBox<ArchivedSlice<ArchivedRule>>>
        requires come_to { IsSealOf rule_definitions (one ⟦<ArchivedRule as Portable>⟧.shape) self }
        ensures { SealsPart rule_definitions (one ⟦<ArchivedRule as Portable>⟧.shape)
            ⟦<ArchivedRule as ArchivePointee>⟧.definitions
            ⟦<ArchivedBox<ArchivedSlice<ArchivedRule>> as ArchivePointee>⟧.pointee
            (self.entry.pos + 24) 0 self.entry result }
    {
        seal_of_field::<ArchivedRule, ArchivedBox<ArchivedSlice<ArchivedRule>>>(self, 4, 24)
    }
}
