//! A tree of boxes in vectors.

/// A number, and what it leads to.
#[derive(Debug, PartialEq, Drop)]
pub struct Bush {
    /// Its number.
    pub id: u32,
    /// Each in a box of its own, or nothing.
    pub sides: Vec<Option<Box<Bush>>>,
    /// Each in a box of its own.
    pub next: Vec<Box<Bush>>,
}

// Below this line all is written by tools/derive: change what is above it, and run it again.

ghost use Rattle.archive_core.specs.CallOutcomes.{ResolvesAs};
ghost use Rattle.archive_core.specs.Causes.{IsRefused};
ghost use Rattle.archive_core.specs.Choices.{option_shape};
ghost use Rattle.archive_core.specs.Definitions.{no_definition};
ghost use Rattle.archive_core.specs.Expressed.{ExpressesParts};
ghost use Rattle.archive_core.specs.Fields.{field_in};
ghost use Rattle.archive_core.specs.PlannedOwners.{one_planned};
ghost use Rattle.archive_core.specs.Plans.{Serialized};
ghost use Rattle.archive_core.specs.ReadBack.{Read, ReadsAs};
ghost use Rattle.archive_core.specs.Runs.{EachBelongs, IsRunRefused, SerializedRun, each_flat, each_keys, each_meaning};
ghost use Rattle.archive_core.specs.SealOutcomes.{IsSealOf, SealsPart};
ghost use Rattle.archive_core.specs.Seen.{IsPartOf, RefusesPart, ShowsValueOf};
ghost use Rattle.archive_core.specs.SelfCheck.Laws.{by_schema};
ghost use Rattle.archive_core.specs.Shape.{boxed, one, part, parts, vec};
ghost use Rattle.archive_core.specs.Value.{value};
ghost use Rattle.archive_core.specs.Writing.{ZeroedPlace};
ghost use Rattle.archive_core.specs.Written.{GoesOn};
ghost use Rattle.recursive_kinds.specs.BushShape.{bush_definitions, bush_has_layout, bush_has_parts, bush_is_align, bush_layout, bush_no_others, bush_parts, bush_shape};
ghost use Rattle.std.proofs.Common.{lit≤};
ghost use Rattle.std.specs.Prelude.{IfErr, IfOk, None, Some, length, refl, ◌+◌, ◌≡◌, ◌≤◌};

use archive_core::boxed::ArchivedBox;
use archive_core::error::Error;
use archive_core::option::ArchivedOption;
use archive_core::place::Place;
use archive_core::primitive::ArchivedU32;
use archive_core::recursive::{
    VecAt, before_box, before_vec, boxed_expression, define_record, expression_of,
    first_expression, handed_on, named_expression, no_expressions, option_expression,
    part_of_record, read_part, resolve_named_record_3, seal_of_field, serialize_inner,
    serialize_part, serialize_run, vec_expression, view_of_field,
};
use archive_core::seal::Seal;
use archive_core::self_check::BySchema;
use archive_core::ser::{ResolverAlloc, Writer, serialize_one};
use archive_core::shape::Defs;
use archive_core::traits::{
    Archive, ArchivePointee, ArchiveUnsized, CopyOptimization, Deserialize, Entries, Keys,
    Portable, Record, Serialize, SerializeUnsized,
};
use archive_core::vec::{ArchivedVec, VecResolver};
use archive_core::view::{RawView, Ref};
use std::alloc::{AllocError, Global};

/// An archived `Bush`: 20 bytes at a multiple of 4. It is validated by its schema.
pub struct ArchivedBush;

type BushParts = (
    ArchivedU32,
    (
        ArchivedVec<ArchivedOption<ArchivedBox<ArchivedBush>>>,
        (ArchivedVec<ArchivedBox<ArchivedBush>>, ()),
    ),
);

impl ArchivePointee for ArchivedBush {
    type ArchivedMetadata = ();

    ghost pointee = { one bush_shape };

    ghost definitions = { bush_definitions };

    ghost metadata_length = { λ _. 0 };

    fn pointer_metadata(_metadata: &()) -> usize {
        0
    }
}

// The parts of `Bush`.
fn bush_expressions(alloc: Global) -> Result<Vec<archive_core::shape::Expr>, AllocError>
    ensures { ExpressesParts bush_parts result }
{
    let rest3 = no_expressions(alloc);
    let rest2 = first_expression(
        vec_expression(
            alloc,
            boxed_expression(alloc, named_expression("ArchivedBush")),
        ),
        rest3,
    );
    let rest1 = first_expression(
        vec_expression(
            alloc,
            option_expression(
                alloc,
                boxed_expression(alloc, named_expression("ArchivedBush")),
            ),
        ),
        rest2,
    );
    first_expression(expression_of::<ArchivedU32>(alloc), rest1)
}

impl Portable for ArchivedBush {
    ghost shape = { bush_shape };

    ghost layout = { bush_layout };

    type Check = BySchema;

    ghost is_one = { refl };

    ghost is_align = { bush_is_align };

    ghost has_layout = { bush_has_layout };

    ghost no_others = { bush_no_others };

    ghost checks = { λ direct. by_schema direct };

    fn size() -> usize {
        20
    }

    fn align() -> usize {
        4
    }

    fn expr(_alloc: Global) -> Result<archive_core::shape::Expr, Error> {
        Ok(archive_core::shape::Expr::Named("ArchivedBush"))
    }

    fn define(alloc: Global, defs: &mut Defs) -> Result<(), Error> {
        define_record("ArchivedBush", bush_expressions(alloc), defs)
    }
}

impl Record for ArchivedBush {
    type Parts = BushParts;

    ghost has_parts = { bush_has_parts };

    ghost holds = { lit≤ tt };
}

/// What is kept of `Bush` between `serialize` and `resolve`.
#[derive(Drop)]
pub struct BushResolver {
    kept: (<u32 as Archive>::Resolver, (VecResolver, (VecResolver, ()))),
}

impl Archive for Bush {
    ghost use Rattle.recursive_kinds.specs.BushMeaning.{bush_meaning, bush_flat, bush_keys, bush_belongs, bush_keyed, bush_planned};

    type Archived = ArchivedBush;

    type Resolver = BushResolver;

    ghost meaning = { bush_meaning };

    ghost flat = { bush_flat };

    ghost keys = { bush_keys };

    ghost belongs = { bush_belongs };

    ghost in_bulk = { None };

    ghost keyed = { bush_keyed };

    ghost planned = { bush_planned };

    #[inline(always)]
    fn resolve(
        &self,
        resolver: Self::Resolver,
        place: Place<'_, Self::Archived>,
    ) -> Result<(), Error>
        requires zeroed { ZeroedPlace 20 place.pos place.bytes.now }
        requires same_value { ⟦<Self as Archive>⟧.belongs self.now resolver }
        ensures { ResolvesAs ⟦<Self::Archived as Portable>⟧ place
            (⟦<Self as Archive>⟧.flat self.now resolver) result }
    {
        let Place { bytes, pos, .. } = place;
        let BushResolver { kept } = resolver;
        let h1: VecAt<ArchivedOption<ArchivedBox<ArchivedBush>>> = VecAt::of(self.sides.len());
        let h2: VecAt<ArchivedBox<ArchivedBush>> = VecAt::of(self.next.len());
        resolve_named_record_3::<
            u32,
            VecAt<ArchivedOption<ArchivedBox<ArchivedBush>>>,
            VecAt<ArchivedBox<ArchivedBush>>,
            ArchivedBush,
        >(&self.id, &h1, &h2, kept, Place::new(pos, bytes))
    }

    #[inline(always)]
    fn copy_optimization() -> CopyOptimization<Self> {
        CopyOptimization::disable()
    }

    #[inline(always)]
    fn serialize_copied<S: Writer + Keys>(
        _values: &[Self],
        _together: usize,
        _serializer: &mut S,
    ) -> Result<Option<usize>, Error> {
        Ok(None)
    }
}

// Writes what each of the values owns, in order.
#[cycle(serialize_bush)]
fn serialize_each_option_box_bush<S: Writer + Keys + ResolverAlloc>(
    values: &[Option<Box<Bush>>],
    serializer: &mut S,
) -> Result<Vec<<Option<Box<Bush>> as Archive>::Resolver, S::Alloc>, Error>
    ensures serialized { IfOk result (λ rs. SerializedRun bush_definitions
        (option_shape (boxed (one bush_shape))) (length values.now)
        (each_keys ⟦<Option<Box<Bush>> as Archive>⟧.keys values.now)
        (each_meaning ⟦<Option<Box<Bush>> as Archive>⟧.meaning values.now)
        (each_flat ⟦<Option<Box<Bush>> as Archive>⟧.flat values.now rs.items)
        (S.state serializer.old) (S.state serializer.new)) }
    ensures same_values { IfOk result (λ rs. EachBelongs ⟦<Option<Box<Bush>> as Archive>⟧.belongs
        values.now rs.items) }
    ensures goes_on { GoesOn (S.state serializer.old) (S.state serializer.new) }
    ensures refused { IfErr result (IsRunRefused bush_definitions
        (option_shape (boxed (one bush_shape))) (length values.now)
        (each_keys ⟦<Option<Box<Bush>> as Archive>⟧.keys values.now)
        (each_meaning ⟦<Option<Box<Bush>> as Archive>⟧.meaning values.now) (S.state serializer.old)
        (S.state serializer.new)) }
{
    let alloc = serializer.resolver_alloc();
    let mut resolvers = Vec::with_capacity(alloc, values.len())?;
    for value in values {
        match value {
            None => {
                resolvers.push(None).map_err(AllocError::from)?;
            }
            Some(whole) => {
                let inner = &**whole;
                let kept = match serialize_bush(inner, serializer) {
                    Ok(kept) => kept,
                    Err(error) => return Err(handed_on(error)),
                };
                let resolver = match serialize_inner(inner, kept, serializer) {
                    Ok(resolver) => resolver,
                    Err(error) => return Err(error),
                };
                resolvers.push(Some(resolver)).map_err(AllocError::from)?;
            }
        }
    }
    Ok(resolvers)
}

// Writes what a vector owns.
#[cycle(serialize_bush)]
fn serialize_vec_option_box_bush<S: Writer + Keys + ResolverAlloc>(
    value: &Vec<Option<Box<Bush>>>,
    serializer: &mut S,
) -> Result<VecResolver, Error>
    ensures serialized { IfOk result (λ r. Serialized bush_definitions
        (vec (option_shape (boxed (one bush_shape)))) (⟦<Vec<Option<Box<Bush>>> as Archive>⟧.keys
        value.now) (⟦<Vec<Option<Box<Bush>>> as Archive>⟧.meaning value.now)
        (⟦<Vec<Option<Box<Bush>>> as Archive>⟧.flat value.now r) (S.state serializer.old)
        (S.state serializer.new)) }
    ensures same_value { IfOk result (λ r. ⟦<Vec<Option<Box<Bush>>> as Archive>⟧.belongs value.now
        r) }
    ensures goes_on { GoesOn (S.state serializer.old) (S.state serializer.new) }
    ensures refused { IfErr result (IsRefused bush_definitions
        (vec (option_shape (boxed (one bush_shape)))) (⟦<Vec<Option<Box<Bush>>> as Archive>⟧.keys
        value.now) (⟦<Vec<Option<Box<Bush>>> as Archive>⟧.meaning value.now)
        (S.state serializer.old) (S.state serializer.new)) }
{
    if value.len() > u32::MAX as usize {
        return Err(Error::LengthTooLarge);
    }
    let items = value.as_slice();
    let kept = match serialize_each_option_box_bush(items, serializer) {
        Ok(kept) => kept,
        Err(error) => return Err(error),
    };
    match serialize_run(items, kept, serializer) {
        Ok(at) => Ok(at),
        Err(error) => Err(error),
    }
}

// Writes what each of the values owns, in order.
#[cycle(serialize_bush)]
fn serialize_each_box_bush<S: Writer + Keys + ResolverAlloc>(
    values: &[Box<Bush>],
    serializer: &mut S,
) -> Result<Vec<<Box<Bush> as Archive>::Resolver, S::Alloc>, Error>
    ensures serialized { IfOk result (λ rs. SerializedRun bush_definitions (boxed (one bush_shape))
        (length values.now) (each_keys ⟦<Box<Bush> as Archive>⟧.keys values.now)
        (each_meaning ⟦<Box<Bush> as Archive>⟧.meaning values.now)
        (each_flat ⟦<Box<Bush> as Archive>⟧.flat values.now rs.items) (S.state serializer.old)
        (S.state serializer.new)) }
    ensures same_values { IfOk result (λ rs. EachBelongs ⟦<Box<Bush> as Archive>⟧.belongs values.now
        rs.items) }
    ensures goes_on { GoesOn (S.state serializer.old) (S.state serializer.new) }
    ensures refused { IfErr result (IsRunRefused bush_definitions (boxed (one bush_shape))
        (length values.now) (each_keys ⟦<Box<Bush> as Archive>⟧.keys values.now)
        (each_meaning ⟦<Box<Bush> as Archive>⟧.meaning values.now) (S.state serializer.old)
        (S.state serializer.new)) }
{
    let alloc = serializer.resolver_alloc();
    let mut resolvers = Vec::with_capacity(alloc, values.len())?;
    for value in values {
        let inner = &**value;
        let kept = match serialize_bush(inner, serializer) {
            Ok(kept) => kept,
            Err(error) => return Err(handed_on(error)),
        };
        let resolver = match serialize_inner(inner, kept, serializer) {
            Ok(resolver) => resolver,
            Err(error) => return Err(error),
        };
        resolvers.push_reserved(resolver);
    }
    Ok(resolvers)
}

// Writes what a vector owns.
#[cycle(serialize_bush)]
fn serialize_vec_box_bush<S: Writer + Keys + ResolverAlloc>(
    value: &Vec<Box<Bush>>,
    serializer: &mut S,
) -> Result<VecResolver, Error>
    ensures serialized { IfOk result (λ r. Serialized bush_definitions
        (vec (boxed (one bush_shape))) (⟦<Vec<Box<Bush>> as Archive>⟧.keys value.now)
        (⟦<Vec<Box<Bush>> as Archive>⟧.meaning value.now)
        (⟦<Vec<Box<Bush>> as Archive>⟧.flat value.now r) (S.state serializer.old)
        (S.state serializer.new)) }
    ensures same_value { IfOk result (λ r. ⟦<Vec<Box<Bush>> as Archive>⟧.belongs value.now r) }
    ensures goes_on { GoesOn (S.state serializer.old) (S.state serializer.new) }
    ensures refused { IfErr result (IsRefused bush_definitions (vec (boxed (one bush_shape)))
        (⟦<Vec<Box<Bush>> as Archive>⟧.keys value.now) (⟦<Vec<Box<Bush>> as Archive>⟧.meaning
        value.now) (S.state serializer.old) (S.state serializer.new)) }
{
    if value.len() > u32::MAX as usize {
        return Err(Error::LengthTooLarge);
    }
    let items = value.as_slice();
    let kept = match serialize_each_box_bush(items, serializer) {
        Ok(kept) => kept,
        Err(error) => return Err(error),
    };
    match serialize_run(items, kept, serializer) {
        Ok(at) => Ok(at),
        Err(error) => Err(error),
    }
}

// Writes what a value owns, part by part.
#[cycle(serialize_bush)]
fn serialize_whole_bush<S: Writer + Keys + ResolverAlloc>(
    value: &Bush,
    serializer: &mut S,
) -> Result<BushResolver, Error>
    ensures serialized { IfOk result (λ r. Serialized bush_definitions bush_shape
        (⟦<Bush as Archive>⟧.keys value.now) (⟦<Bush as Archive>⟧.meaning value.now)
        (⟦<Bush as Archive>⟧.flat value.now r) (S.state serializer.old) (S.state serializer.new)) }
    ensures same_value { IfOk result (λ r. ⟦<Bush as Archive>⟧.belongs value.now r) }
    ensures goes_on { GoesOn (S.state serializer.old) (S.state serializer.new) }
    ensures refused { IfErr result (IsRefused bush_definitions bush_shape
        (⟦<Bush as Archive>⟧.keys value.now) (⟦<Bush as Archive>⟧.meaning value.now)
        (S.state serializer.old) (S.state serializer.new)) }
{
    let a0 = match serialize_part(&value.id, serializer) {
        Ok(a0) => a0,
        Err(error) => return Err(error),
    };
    let a1 = match serialize_vec_option_box_bush(&value.sides, serializer) {
        Ok(a1) => a1,
        Err(error) => return Err(handed_on(error)),
    };
    let a2 = match serialize_vec_box_bush(&value.next, serializer) {
        Ok(a2) => a2,
        Err(error) => return Err(error),
    };
    Ok(BushResolver {
        kept: (a0, (a1, (a2, ()))),
    })
}

// The same by a call, whose result has its room only while it lasts.
#[cycle(serialize_bush)]
#[inline(always)]
fn serialize_bush<S: Writer + Keys + ResolverAlloc>(
    value: &Bush,
    serializer: &mut S,
) -> Result<BushResolver, Error>
    ensures serialized { IfOk result (λ r. Serialized bush_definitions bush_shape
        (⟦<Bush as Archive>⟧.keys value.now) (⟦<Bush as Archive>⟧.meaning value.now)
        (⟦<Bush as Archive>⟧.flat value.now r) (S.state serializer.old) (S.state serializer.new)) }
    ensures same_value { IfOk result (λ r. ⟦<Bush as Archive>⟧.belongs value.now r) }
    ensures goes_on { GoesOn (S.state serializer.old) (S.state serializer.new) }
    ensures refused { IfErr result (IsRefused bush_definitions bush_shape
        (⟦<Bush as Archive>⟧.keys value.now) (⟦<Bush as Archive>⟧.meaning value.now)
        (S.state serializer.old) (S.state serializer.new)) }
{
    serialize_whole_bush(value, serializer)
}

impl<S: Writer + Keys + ResolverAlloc> Serialize<S> for Bush {
    #[inline(always)]
    fn serialize(&self, serializer: &mut S) -> Result<Self::Resolver, Error> {
        serialize_bush(self, serializer)
    }
}

/// As a region of its own: the value itself.
impl ArchiveUnsized for Bush {
    ghost use Rattle.recursive_kinds.specs.contracts.bush.BushArchive.TheImpl.Laws.{keyed-law as keyed_of_bush, planned-law as planned_of_bush};

    type Archived = ArchivedBush;

    ghost source_length = { λ _. 0 };

    ghost meaning = { ⟦<Bush as Archive>⟧.meaning };

    ghost keys = { ⟦<Bush as Archive>⟧.keys };

    ghost keyed = { keyed_of_bush };

    ghost one_length = { λ _ _. refl };

    ghost planned = { λ v. one_planned bush_definitions bush_shape (⟦<Bush as Archive>⟧.keys v)
        (⟦<Bush as Archive>⟧.meaning v) (planned_of_bush v) };

    #[inline(always)]
    fn archived_metadata(&self) -> Result<(), Error> {
        Ok(())
    }
}

impl<S: Writer + Keys + ResolverAlloc> SerializeUnsized<S> for Bush {
    #[inline(always)]
    fn serialize_unsized(&self, serializer: &mut S) -> Result<usize, Error> {
        serialize_one(self, serializer)
    }
}

// Reads a box back.
#[cycle(read_bush)]
#[inline(always)]
fn read_box_bush<D: Entries>(
    alloc: Global,
    part: RawView<'_>,
    deserializer: &mut D,
) -> Result<Box<Bush>, Error>
    requires { IsPartOf ⟦<ArchivedBox<ArchivedBush> as ArchivePointee>⟧ part }
    ensures read { IfOk result (Read ⟦<ArchivedBox<ArchivedBush> as ArchivePointee>⟧ part D.Entries
        deserializer ⟦<Box<Bush> as Archive>⟧) }
    ensures refused { IfErr result (RefusesPart ⟦<ArchivedBox<ArchivedBush> as ArchivePointee>⟧ part
        D.Entries deserializer) }
{
    let view: Ref<'_, ArchivedBox<ArchivedBush>> = Ref::at(part);
    let value = match read_bush(alloc, before_box(view).part(), deserializer) {
        Ok(value) => value,
        Err(error) => return Err(error),
    };
    let whole = Box::new(alloc, value)?;
    Ok(whole)
}

// Reads an option back.
#[cycle(read_bush)]
#[inline(always)]
fn read_option_box_bush<D: Entries>(
    alloc: Global,
    part: RawView<'_>,
    deserializer: &mut D,
) -> Result<Option<Box<Bush>>, Error>
    requires { IsPartOf ⟦<ArchivedOption<ArchivedBox<ArchivedBush>> as ArchivePointee>⟧ part }
    ensures read { IfOk result (Read ⟦<ArchivedOption<ArchivedBox<ArchivedBush>> as ArchivePointee>⟧
        part D.Entries deserializer ⟦<Option<Box<Bush>> as Archive>⟧) }
    ensures refused { IfErr result
        (RefusesPart ⟦<ArchivedOption<ArchivedBox<ArchivedBush>> as ArchivePointee>⟧ part D.Entries
        deserializer) }
{
    let view: Ref<'_, ArchivedOption<ArchivedBox<ArchivedBush>>> = Ref::at(part);
    match view.as_ref() {
        None => Ok(None),
        Some(inner) => match read_box_bush(alloc, inner.part(), deserializer) {
            Ok(value) => Ok(Some(value)),
            Err(error) => Err(error),
        },
    }
}

// Reads a vector back.
#[cycle(read_bush)]
#[inline(always)]
fn read_vec_option_box_bush<D: Entries>(
    alloc: Global,
    part: RawView<'_>,
    deserializer: &mut D,
) -> Result<Vec<Option<Box<Bush>>>, Error>
    requires { IsPartOf ⟦<ArchivedVec<ArchivedOption<ArchivedBox<ArchivedBush>>> as ArchivePointee>⟧
        part }
    ensures read { IfOk result
        (Read ⟦<ArchivedVec<ArchivedOption<ArchivedBox<ArchivedBush>>> as ArchivePointee>⟧ part
        D.Entries deserializer ⟦<Vec<Option<Box<Bush>>> as Archive>⟧) }
    ensures refused { IfErr result
        (RefusesPart ⟦<ArchivedVec<ArchivedOption<ArchivedBox<ArchivedBush>>> as ArchivePointee>⟧
        part D.Entries deserializer) }
{
    let view: Ref<'_, ArchivedVec<ArchivedOption<ArchivedBox<ArchivedBush>>>> = Ref::at(part);
    let list = before_vec(view);
    let mut items = Vec::with_capacity(alloc, list.len())?;
    for index in 0..list.len() {
        let item = match read_option_box_bush(alloc, list.index(index).part(), deserializer) {
            Ok(item) => item,
            Err(error) => return Err(error),
        };
        items.push_reserved(item);
    }
    Ok(items)
}

// Reads a vector back.
#[cycle(read_bush)]
#[inline(always)]
fn read_vec_box_bush<D: Entries>(
    alloc: Global,
    part: RawView<'_>,
    deserializer: &mut D,
) -> Result<Vec<Box<Bush>>, Error>
    requires { IsPartOf ⟦<ArchivedVec<ArchivedBox<ArchivedBush>> as ArchivePointee>⟧ part }
    ensures read { IfOk result (Read ⟦<ArchivedVec<ArchivedBox<ArchivedBush>> as ArchivePointee>⟧
        part D.Entries deserializer ⟦<Vec<Box<Bush>> as Archive>⟧) }
    ensures refused { IfErr result
        (RefusesPart ⟦<ArchivedVec<ArchivedBox<ArchivedBush>> as ArchivePointee>⟧ part D.Entries
        deserializer) }
{
    let view: Ref<'_, ArchivedVec<ArchivedBox<ArchivedBush>>> = Ref::at(part);
    let list = before_vec(view);
    let mut items = Vec::with_capacity(alloc, list.len())?;
    for index in 0..list.len() {
        let item = match read_box_bush(alloc, list.index(index).part(), deserializer) {
            Ok(item) => item,
            Err(error) => return Err(error),
        };
        items.push_reserved(item);
    }
    Ok(items)
}

// Reads a value back, part by part.
#[cycle(read_bush)]
fn read_bush<D: Entries>(
    alloc: Global,
    part: RawView<'_>,
    deserializer: &mut D,
) -> Result<Bush, Error>
    requires { IsPartOf ⟦<ArchivedBush as ArchivePointee>⟧ part }
    ensures read { IfOk result (Read ⟦<ArchivedBush as ArchivePointee>⟧ part D.Entries deserializer
        ⟦<Bush as Archive>⟧) }
    ensures refused { IfErr result (RefusesPart ⟦<ArchivedBush as ArchivePointee>⟧ part D.Entries
        deserializer) }
{
    let p0 = part_of_record::<ArchivedBush, ArchivedU32>(part, 0, 0);
    let a0 = match read_part::<ArchivedU32, u32, D>(alloc, p0, deserializer) {
        Ok(a0) => a0,
        Err(error) => return Err(error),
    };
    let p1 = part_of_record::<ArchivedBush, ArchivedVec<ArchivedOption<ArchivedBox<ArchivedBush>>>>(
        part, 1, 4,
    );
    let a1 = match read_vec_option_box_bush(alloc, p1, deserializer) {
        Ok(a1) => a1,
        Err(error) => return Err(error),
    };
    let p2 = part_of_record::<ArchivedBush, ArchivedVec<ArchivedBox<ArchivedBush>>>(part, 2, 12);
    let a2 = match read_vec_box_bush(alloc, p2, deserializer) {
        Ok(a2) => a2,
        Err(error) => return Err(error),
    };
    Ok(Bush {
        id: a0,
        sides: a1,
        next: a2,
    })
}

impl<D: Entries> Deserialize<Bush, D> for ArchivedBush {
    #[inline(always)]
    fn deserialize_part(
        alloc: Global,
        part: RawView<'_>,
        deserializer: &mut D,
    ) -> Result<Bush, Error>
        requires { IsPartOf ⟦<Self as ArchivePointee>⟧ part }
        ensures { ReadsAs ⟦<Self as ArchivePointee>⟧ part D.Entries deserializer ⟦<Bush as Archive>⟧
            result }
    {
        read_bush(alloc, part, deserializer)
    }
}

/// The fields of an archived `Bush`, as views.
pub trait BushView<'a> {
    /// Its number.
    fn id(self) -> Ref<'a, ArchivedU32>;

    /// Each in a box of its own, or nothing.
    fn sides(self) -> Ref<'a, ArchivedVec<ArchivedOption<ArchivedBox<ArchivedBush>>>>;

    /// Each in a box of its own.
    fn next(self) -> Ref<'a, ArchivedVec<ArchivedBox<ArchivedBush>>>;
}

impl<'a> BushView<'a> for Ref<'a, ArchivedBush> {
    fn id(self) -> Ref<'a, ArchivedU32>
        ensures buffer { result.bytes.now ≡ self.entry.bytes.now }
        ensures position { result.pos ≡ self.entry.pos + 0 }
        ensures length { result.len ≡ 0 }
        ensures shows { ShowsValueOf result self.entry (field_in 0) }
    {
        view_of_field::<ArchivedBush, ArchivedU32>(self, 0, 0)
    }

    fn sides(self) -> Ref<'a, ArchivedVec<ArchivedOption<ArchivedBox<ArchivedBush>>>>
        ensures buffer { result.bytes.now ≡ self.entry.bytes.now }
        ensures position { result.pos ≡ self.entry.pos + 4 }
        ensures length { result.len ≡ 0 }
        ensures shows { ShowsValueOf result self.entry (field_in 1) }
    {
        view_of_field::<ArchivedBush, ArchivedVec<ArchivedOption<ArchivedBox<ArchivedBush>>>>(
            self, 1, 4,
        )
    }

    fn next(self) -> Ref<'a, ArchivedVec<ArchivedBox<ArchivedBush>>>
        ensures buffer { result.bytes.now ≡ self.entry.bytes.now }
        ensures position { result.pos ≡ self.entry.pos + 12 }
        ensures length { result.len ≡ 0 }
        ensures shows { ShowsValueOf result self.entry (field_in 2) }
    {
        view_of_field::<ArchivedBush, ArchivedVec<ArchivedBox<ArchivedBush>>>(self, 2, 12)
    }
}

/// The fields of an archived `Bush`, as seals.
pub trait BushSeal<'a> {
    // The seal shows a part of a buffer that was checked.
    ghost sealed: { Self → Type 0 };

    /// Its number.
    fn id_mut(self) -> Seal<'a, ArchivedU32>
        requires { sealed self };

    /// Each in a box of its own, or nothing.
    fn sides_mut(self) -> Seal<'a, ArchivedVec<ArchivedOption<ArchivedBox<ArchivedBush>>>>
        requires { sealed self };

    /// Each in a box of its own.
    fn next_mut(self) -> Seal<'a, ArchivedVec<ArchivedBox<ArchivedBush>>>
        requires { sealed self };
}

impl<'a> BushSeal<'a> for Seal<'a, ArchivedBush> {
    ghost sealed = { λ s. IsSealOf bush_definitions (one ⟦<ArchivedBush as Portable>⟧.shape) s };

    fn id_mut(self) -> Seal<'a, ArchivedU32>
        requires come_to { IsSealOf bush_definitions (one ⟦<ArchivedBush as Portable>⟧.shape) self }
        ensures { SealsPart bush_definitions (one ⟦<ArchivedBush as Portable>⟧.shape) no_definition
            ⟦<ArchivedU32 as ArchivePointee>⟧.pointee (self.entry.pos + 0) 0 self.entry result }
    {
        seal_of_field::<ArchivedBush, ArchivedU32>(self, 0, 0)
    }

    fn sides_mut(self) -> Seal<'a, ArchivedVec<ArchivedOption<ArchivedBox<ArchivedBush>>>>
        requires come_to { IsSealOf bush_definitions (one ⟦<ArchivedBush as Portable>⟧.shape) self }
        ensures { SealsPart bush_definitions (one ⟦<ArchivedBush as Portable>⟧.shape)
            ⟦<ArchivedBush as ArchivePointee>⟧.definitions
            ⟦<ArchivedVec<ArchivedOption<ArchivedBox<ArchivedBush>>> as ArchivePointee>⟧.pointee
            (self.entry.pos + 4) 0 self.entry result }
    {
        seal_of_field::<ArchivedBush, ArchivedVec<ArchivedOption<ArchivedBox<ArchivedBush>>>>(
            self, 1, 4,
        )
    }

    fn next_mut(self) -> Seal<'a, ArchivedVec<ArchivedBox<ArchivedBush>>>
        requires come_to { IsSealOf bush_definitions (one ⟦<ArchivedBush as Portable>⟧.shape) self }
        ensures { SealsPart bush_definitions (one ⟦<ArchivedBush as Portable>⟧.shape)
            ⟦<ArchivedBush as ArchivePointee>⟧.definitions
            ⟦<ArchivedVec<ArchivedBox<ArchivedBush>> as ArchivePointee>⟧.pointee
            (self.entry.pos + 12) 0 self.entry result }
    {
        seal_of_field::<ArchivedBush, ArchivedVec<ArchivedBox<ArchivedBush>>>(self, 2, 12)
    }
}
