//! The knots of a graph.

use archive_core::rc::Shared;

/// A number, and the knots that it leads to; several may lead to one.
#[derive(Debug, PartialEq, Drop)]
pub struct Knot {
    /// Its number.
    pub id: u32,
    /// What it leads to.
    pub next: Vec<Shared<Knot>>,
}

// Below this line all is written by tools/derive: change what is above it, and run it again.

ghost use Rattle.archive_core.specs.CallOutcomes.{ResolvesAs};
ghost use Rattle.archive_core.specs.Causes.{IsRefused};
ghost use Rattle.archive_core.specs.Definitions.{no_definition};
ghost use Rattle.archive_core.specs.Error.TheVariants.{OutOfMemory};
ghost use Rattle.archive_core.specs.Expressed.{ExpressesParts};
ghost use Rattle.archive_core.specs.Fields.{field_in};
ghost use Rattle.archive_core.specs.PlannedOwners.{one_planned};
ghost use Rattle.archive_core.specs.Plans.{Serialized};
ghost use Rattle.archive_core.specs.ReadBack.{Read, ReadsAs};
ghost use Rattle.archive_core.specs.Runs.{EachBelongs, IsRunRefused, SerializedRun, each_flat, each_keys, each_meaning};
ghost use Rattle.archive_core.specs.SealOutcomes.{IsSealOf, SealsPart};
ghost use Rattle.archive_core.specs.Seen.{IsPartOf, RefusesPart, ShowsValueOf};
ghost use Rattle.archive_core.specs.SelfCheck.Laws.{by_schema};
ghost use Rattle.archive_core.specs.Shape.{one, part, parts, shared, vec};
ghost use Rattle.archive_core.specs.SharedSources.{rc_flavor};
ghost use Rattle.archive_core.specs.Value.{value};
ghost use Rattle.archive_core.specs.Writing.{ZeroedPlace};
ghost use Rattle.archive_core.specs.Written.{GoesOn};
ghost use Rattle.recursive_kinds.specs.KnotShape.{knot_definitions, knot_has_layout, knot_has_parts, knot_is_align, knot_layout, knot_no_others, knot_parts, knot_shape};
ghost use Rattle.std.proofs.Common.{lit≤};
ghost use Rattle.std.specs.Prelude.{IfErr, IfOk, None, Some, length, refl, ◌+◌, ◌≡◌, ◌≤◌};

use archive_core::error::Error;
use archive_core::place::Place;
use archive_core::pooling::Pooling;
use archive_core::primitive::ArchivedU32;
use archive_core::rc::{ArchivedRc, RcFlavor};
use archive_core::recursive::{
    VecAt, before_vec, begin_reading, begin_shared, define_record, expression_of, finish_reading,
    finish_shared, first_expression, handed_on, named_expression, no_expressions, part_behind,
    part_of_record, read_part, resolve_named_record_2, seal_of_field, serialize_part,
    serialize_run, shared_expression, vec_expression, view_of_field,
};
use archive_core::seal::Seal;
use archive_core::self_check::BySchema;
use archive_core::ser::{ResolverAlloc, Writer, serialize_one};
use archive_core::shape::Defs;
use archive_core::sharing::Sharing;
use archive_core::traits::{
    Archive, ArchivePointee, ArchiveUnsized, CopyOptimization, Deserialize, Entries, Keys,
    Portable, Record, Serialize, SerializeUnsized,
};
use archive_core::vec::{ArchivedVec, VecResolver};
use archive_core::view::{RawView, Ref};
use std::alloc::{AllocError, Global};

/// An archived `Knot`: 12 bytes at a multiple of 4. It is validated by its schema.
pub struct ArchivedKnot;

type KnotParts = (
    ArchivedU32,
    (ArchivedVec<ArchivedRc<ArchivedKnot, RcFlavor>>, ()),
);

impl ArchivePointee for ArchivedKnot {
    type ArchivedMetadata = ();

    ghost pointee = { one knot_shape };

    ghost definitions = { knot_definitions };

    ghost metadata_length = { λ _. 0 };

    fn pointer_metadata(_metadata: &()) -> usize {
        0
    }
}

// The parts of `Knot`.
fn knot_expressions(alloc: Global) -> Result<Vec<archive_core::shape::Expr>, AllocError>
    ensures { ExpressesParts knot_parts result }
{
    let rest2 = no_expressions(alloc);
    let rest1 = first_expression(
        vec_expression(
            alloc,
            shared_expression(alloc, named_expression("ArchivedKnot")),
        ),
        rest2,
    );
    first_expression(expression_of::<ArchivedU32>(alloc), rest1)
}

impl Portable for ArchivedKnot {
    ghost shape = { knot_shape };

    ghost layout = { knot_layout };

    type Check = BySchema;

    ghost is_one = { refl };

    ghost is_align = { knot_is_align };

    ghost has_layout = { knot_has_layout };

    ghost no_others = { knot_no_others };

    ghost checks = { λ direct. by_schema direct };

    fn size() -> usize {
        12
    }

    fn align() -> usize {
        4
    }

    fn expr(_alloc: Global) -> Result<archive_core::shape::Expr, Error> {
        Ok(archive_core::shape::Expr::Named("ArchivedKnot"))
    }

    fn define(alloc: Global, defs: &mut Defs) -> Result<(), Error> {
        define_record("ArchivedKnot", knot_expressions(alloc), defs)
    }
}

impl Record for ArchivedKnot {
    type Parts = KnotParts;

    ghost has_parts = { knot_has_parts };

    ghost holds = { lit≤ tt };
}

/// What is kept of `Knot` between `serialize` and `resolve`.
#[derive(Drop)]
pub struct KnotResolver {
    kept: (<u32 as Archive>::Resolver, (VecResolver, ())),
}

impl Archive for Knot {
    ghost use Rattle.recursive_kinds.specs.KnotMeaning.{knot_meaning, knot_flat, knot_keys, knot_belongs, knot_keyed, knot_planned};

    type Archived = ArchivedKnot;

    type Resolver = KnotResolver;

    ghost meaning = { knot_meaning };

    ghost flat = { knot_flat };

    ghost keys = { knot_keys };

    ghost belongs = { knot_belongs };

    ghost in_bulk = { None };

    ghost keyed = { knot_keyed };

    ghost planned = { knot_planned };

    #[inline(always)]
    fn resolve(
        &self,
        resolver: Self::Resolver,
        place: Place<'_, Self::Archived>,
    ) -> Result<(), Error>
        requires zeroed { ZeroedPlace 12 place.pos place.bytes.now }
        requires same_value { ⟦<Self as Archive>⟧.belongs self.now resolver }
        ensures { ResolvesAs ⟦<Self::Archived as Portable>⟧ place
            (⟦<Self as Archive>⟧.flat self.now resolver) result }
    {
        let Place { bytes, pos, .. } = place;
        let KnotResolver { kept } = resolver;
        let h1: VecAt<ArchivedRc<ArchivedKnot, RcFlavor>> = VecAt::of(self.next.len());
        resolve_named_record_2::<u32, VecAt<ArchivedRc<ArchivedKnot, RcFlavor>>, ArchivedKnot>(
            &self.id,
            &h1,
            kept,
            Place::new(pos, bytes),
        )
    }

    #[inline(always)]
    fn copy_optimization() -> CopyOptimization<Self> {
        CopyOptimization::disable()
    }

    #[inline(always)]
    fn serialize_copied<S: Writer + Keys>(
        _values: &[Self],
        _together: usize,
        _serializer: &mut S,
    ) -> Result<Option<usize>, Error> {
        Ok(None)
    }
}

// Writes what each of the values owns, in order.
#[cycle(serialize_knot)]
fn serialize_each_shared_knot<S: Sharing + Writer + ResolverAlloc>(
    values: &[Shared<Knot>],
    serializer: &mut S,
) -> Result<Vec<<Shared<Knot> as Archive>::Resolver, S::Alloc>, Error>
    ensures serialized { IfOk result (λ rs. SerializedRun knot_definitions
        (shared rc_flavor (one knot_shape)) (length values.now)
        (each_keys ⟦<Shared<Knot> as Archive>⟧.keys values.now)
        (each_meaning ⟦<Shared<Knot> as Archive>⟧.meaning values.now)
        (each_flat ⟦<Shared<Knot> as Archive>⟧.flat values.now rs.items) (S.state serializer.old)
        (S.state serializer.new)) }
    ensures same_values { IfOk result (λ rs. EachBelongs ⟦<Shared<Knot> as Archive>⟧.belongs
        values.now rs.items) }
    ensures goes_on { GoesOn (S.state serializer.old) (S.state serializer.new) }
    ensures refused { IfErr result (IsRunRefused knot_definitions
        (shared rc_flavor (one knot_shape)) (length values.now)
        (each_keys ⟦<Shared<Knot> as Archive>⟧.keys values.now)
        (each_meaning ⟦<Shared<Knot> as Archive>⟧.meaning values.now) (S.state serializer.old)
        (S.state serializer.new)) }
{
    let alloc = serializer.resolver_alloc();
    let mut resolvers = Vec::with_capacity(alloc, values.len())?;
    for value in values {
        let inner = &*value.value;
        let known = match begin_shared(value.key, serializer) {
            Ok(known) => known,
            Err(error) => return Err(error),
        };
        match known {
            Some(resolver) => {
                resolvers.push(resolver).map_err(AllocError::from)?;
            }
            None => {
                let kept = match serialize_knot(inner, serializer) {
                    Ok(kept) => kept,
                    Err(error) => return Err(error),
                };
                let resolver = match finish_shared(value.key, inner, kept, serializer) {
                    Ok(resolver) => resolver,
                    Err(error) => return Err(error),
                };
                resolvers.push(resolver).map_err(AllocError::from)?;
            }
        }
    }
    Ok(resolvers)
}

// Writes what a vector owns.
#[cycle(serialize_knot)]
fn serialize_vec_shared_knot<S: Sharing + Writer + ResolverAlloc>(
    value: &Vec<Shared<Knot>>,
    serializer: &mut S,
) -> Result<VecResolver, Error>
    ensures serialized { IfOk result (λ r. Serialized knot_definitions
        (vec (shared rc_flavor (one knot_shape))) (⟦<Vec<Shared<Knot>> as Archive>⟧.keys value.now)
        (⟦<Vec<Shared<Knot>> as Archive>⟧.meaning value.now)
        (⟦<Vec<Shared<Knot>> as Archive>⟧.flat value.now r) (S.state serializer.old)
        (S.state serializer.new)) }
    ensures same_value { IfOk result (λ r. ⟦<Vec<Shared<Knot>> as Archive>⟧.belongs value.now r) }
    ensures goes_on { GoesOn (S.state serializer.old) (S.state serializer.new) }
    ensures refused { IfErr result (IsRefused knot_definitions
        (vec (shared rc_flavor (one knot_shape))) (⟦<Vec<Shared<Knot>> as Archive>⟧.keys value.now)
        (⟦<Vec<Shared<Knot>> as Archive>⟧.meaning value.now) (S.state serializer.old)
        (S.state serializer.new)) }
{
    if value.len() > u32::MAX as usize {
        return Err(Error::LengthTooLarge);
    }
    let items = value.as_slice();
    let kept = match serialize_each_shared_knot(items, serializer) {
        Ok(kept) => kept,
        Err(error) => return Err(error),
    };
    match serialize_run(items, kept, serializer) {
        Ok(at) => Ok(at),
        Err(error) => Err(error),
    }
}

// Writes what a value owns, part by part.
#[cycle(serialize_knot)]
fn serialize_whole_knot<S: Sharing + Writer + ResolverAlloc>(
    value: &Knot,
    serializer: &mut S,
) -> Result<KnotResolver, Error>
    ensures serialized { IfOk result (λ r. Serialized knot_definitions knot_shape
        (⟦<Knot as Archive>⟧.keys value.now) (⟦<Knot as Archive>⟧.meaning value.now)
        (⟦<Knot as Archive>⟧.flat value.now r) (S.state serializer.old) (S.state serializer.new)) }
    ensures same_value { IfOk result (λ r. ⟦<Knot as Archive>⟧.belongs value.now r) }
    ensures goes_on { GoesOn (S.state serializer.old) (S.state serializer.new) }
    ensures refused { IfErr result (IsRefused knot_definitions knot_shape
        (⟦<Knot as Archive>⟧.keys value.now) (⟦<Knot as Archive>⟧.meaning value.now)
        (S.state serializer.old) (S.state serializer.new)) }
{
    let a0 = match serialize_part(&value.id, serializer) {
        Ok(a0) => a0,
        Err(error) => return Err(error),
    };
    let a1 = match serialize_vec_shared_knot(&value.next, serializer) {
        Ok(a1) => a1,
        Err(error) => return Err(handed_on(error)),
    };
    Ok(KnotResolver {
        kept: (a0, (a1, ())),
    })
}

// The same by a call, whose result has its room only while it lasts.
#[cycle(serialize_knot)]
#[inline(always)]
fn serialize_knot<S: Sharing + Writer + ResolverAlloc>(
    value: &Knot,
    serializer: &mut S,
) -> Result<KnotResolver, Error>
    ensures serialized { IfOk result (λ r. Serialized knot_definitions knot_shape
        (⟦<Knot as Archive>⟧.keys value.now) (⟦<Knot as Archive>⟧.meaning value.now)
        (⟦<Knot as Archive>⟧.flat value.now r) (S.state serializer.old) (S.state serializer.new)) }
    ensures same_value { IfOk result (λ r. ⟦<Knot as Archive>⟧.belongs value.now r) }
    ensures goes_on { GoesOn (S.state serializer.old) (S.state serializer.new) }
    ensures refused { IfErr result (IsRefused knot_definitions knot_shape
        (⟦<Knot as Archive>⟧.keys value.now) (⟦<Knot as Archive>⟧.meaning value.now)
        (S.state serializer.old) (S.state serializer.new)) }
{
    serialize_whole_knot(value, serializer)
}

impl<S: Sharing + Writer + ResolverAlloc> Serialize<S> for Knot {
    #[inline(always)]
    fn serialize(&self, serializer: &mut S) -> Result<Self::Resolver, Error> {
        serialize_knot(self, serializer)
    }
}

/// As a region of its own: the value itself.
impl ArchiveUnsized for Knot {
    ghost use Rattle.recursive_kinds.specs.contracts.knot.KnotArchive.TheImpl.Laws.{keyed-law as keyed_of_knot, planned-law as planned_of_knot};

    type Archived = ArchivedKnot;

    ghost source_length = { λ _. 0 };

    ghost meaning = { ⟦<Knot as Archive>⟧.meaning };

    ghost keys = { ⟦<Knot as Archive>⟧.keys };

    ghost keyed = { keyed_of_knot };

    ghost one_length = { λ _ _. refl };

    ghost planned = { λ v. one_planned knot_definitions knot_shape (⟦<Knot as Archive>⟧.keys v)
        (⟦<Knot as Archive>⟧.meaning v) (planned_of_knot v) };

    #[inline(always)]
    fn archived_metadata(&self) -> Result<(), Error> {
        Ok(())
    }
}

impl<S: Sharing + Writer + ResolverAlloc> SerializeUnsized<S> for Knot {
    #[inline(always)]
    fn serialize_unsized(&self, serializer: &mut S) -> Result<usize, Error> {
        serialize_one(self, serializer)
    }
}

// Reads a shared value back.
#[cycle(read_knot)]
fn read_shared_knot<D: Pooling<Shared<Knot>>>(
    alloc: Global,
    part: RawView<'_>,
    levels: usize,
    deserializer: &mut D,
) -> Result<Shared<Knot>, Error>
    requires { IsPartOf ⟦<ArchivedRc<ArchivedKnot, RcFlavor> as ArchivePointee>⟧ part }
    ensures read { IfOk result (Read ⟦<ArchivedRc<ArchivedKnot, RcFlavor> as ArchivePointee>⟧ part
        D.Entries deserializer ⟦<Shared<Knot> as Archive>⟧) }
    ensures refused { IfErr result (RefusesPart ⟦<ArchivedRc<ArchivedKnot, RcFlavor> as ArchivePointee>⟧
        part D.Entries deserializer) }
{
    let known = match begin_reading::<ArchivedKnot, RcFlavor, Shared<Knot>, D>(part, deserializer) {
        Ok(known) => known,
        Err(error) => return Err(error),
    };
    match known {
        Some(value) => Ok(value),
        None => {
            let behind = part_behind::<ArchivedKnot, RcFlavor>(part);
            let value = match read_knot(alloc, behind, levels, deserializer) {
                Ok(value) => value,
                Err(error) => return Err(error),
            };
            finish_reading::<ArchivedKnot, RcFlavor, Shared<Knot>, D>(
                alloc,
                part,
                value,
                deserializer,
            )
        }
    }
}

// Reads a vector back.
#[cycle(read_knot)]
fn read_vec_shared_knot<D: Pooling<Shared<Knot>>>(
    alloc: Global,
    part: RawView<'_>,
    levels: usize,
    deserializer: &mut D,
) -> Result<Vec<Shared<Knot>>, Error>
    requires { IsPartOf ⟦<ArchivedVec<ArchivedRc<ArchivedKnot, RcFlavor>> as ArchivePointee>⟧ part }
    ensures read { IfOk result
        (Read ⟦<ArchivedVec<ArchivedRc<ArchivedKnot, RcFlavor>> as ArchivePointee>⟧ part D.Entries
        deserializer ⟦<Vec<Shared<Knot>> as Archive>⟧) }
    ensures refused { IfErr result
        (RefusesPart ⟦<ArchivedVec<ArchivedRc<ArchivedKnot, RcFlavor>> as ArchivePointee>⟧ part
        D.Entries deserializer) }
{
    let view: Ref<'_, ArchivedVec<ArchivedRc<ArchivedKnot, RcFlavor>>> = Ref::at(part);
    let list = before_vec(view);
    let mut items = Vec::with_capacity(alloc, list.len())?;
    for index in 0..list.len() {
        let item = match read_shared_knot(alloc, list.index(index).part(), levels, deserializer) {
            Ok(item) => item,
            Err(error) => return Err(error),
        };
        items.push_reserved(item);
    }
    Ok(items)
}

// Reads a value back, part by part.
#[cycle(read_knot)]
fn read_knot<D: Pooling<Shared<Knot>>>(
    alloc: Global,
    part: RawView<'_>,
    levels: usize,
    deserializer: &mut D,
) -> Result<Knot, Error>
    requires { IsPartOf ⟦<ArchivedKnot as ArchivePointee>⟧ part }
    ensures read { IfOk result (Read ⟦<ArchivedKnot as ArchivePointee>⟧ part D.Entries deserializer
        ⟦<Knot as Archive>⟧) }
    ensures refused { IfErr result (RefusesPart ⟦<ArchivedKnot as ArchivePointee>⟧ part D.Entries
        deserializer) }
{
    if levels == 0 {
        return Err(Error::OutOfMemory);
    }
    let levels = levels - 1;
    let p0 = part_of_record::<ArchivedKnot, ArchivedU32>(part, 0, 0);
    let a0 = match read_part::<ArchivedU32, u32, D>(alloc, p0, deserializer) {
        Ok(a0) => a0,
        Err(error) => return Err(error),
    };
    let p1 = part_of_record::<ArchivedKnot, ArchivedVec<ArchivedRc<ArchivedKnot, RcFlavor>>>(
        part, 1, 4,
    );
    let a1 = match read_vec_shared_knot(alloc, p1, levels, deserializer) {
        Ok(a1) => a1,
        Err(error) => return Err(error),
    };
    Ok(Knot { id: a0, next: a1 })
}

impl<D: Pooling<Shared<Knot>>> Deserialize<Knot, D> for ArchivedKnot {
    #[inline(always)]
    fn deserialize_part(
        alloc: Global,
        part: RawView<'_>,
        deserializer: &mut D,
    ) -> Result<Knot, Error>
        requires { IsPartOf ⟦<Self as ArchivePointee>⟧ part }
        ensures { ReadsAs ⟦<Self as ArchivePointee>⟧ part D.Entries deserializer ⟦<Knot as Archive>⟧
            result }
    {
        let levels = part.bytes.len();
        read_knot(alloc, part, levels, deserializer)
    }
}

/// The fields of an archived `Knot`, as views.
pub trait KnotView<'a> {
    /// Its number.
    fn id(self) -> Ref<'a, ArchivedU32>;

    /// What it leads to.
    fn next(self) -> Ref<'a, ArchivedVec<ArchivedRc<ArchivedKnot, RcFlavor>>>;
}

impl<'a> KnotView<'a> for Ref<'a, ArchivedKnot> {
    fn id(self) -> Ref<'a, ArchivedU32>
        ensures buffer { result.bytes.now ≡ self.entry.bytes.now }
        ensures position { result.pos ≡ self.entry.pos + 0 }
        ensures length { result.len ≡ 0 }
        ensures shows { ShowsValueOf result self.entry (field_in 0) }
    {
        view_of_field::<ArchivedKnot, ArchivedU32>(self, 0, 0)
    }

    fn next(self) -> Ref<'a, ArchivedVec<ArchivedRc<ArchivedKnot, RcFlavor>>>
        ensures buffer { result.bytes.now ≡ self.entry.bytes.now }
        ensures position { result.pos ≡ self.entry.pos + 4 }
        ensures length { result.len ≡ 0 }
        ensures shows { ShowsValueOf result self.entry (field_in 1) }
    {
        view_of_field::<ArchivedKnot, ArchivedVec<ArchivedRc<ArchivedKnot, RcFlavor>>>(self, 1, 4)
    }
}

/// The fields of an archived `Knot`, as seals.
pub trait KnotSeal<'a> {
    // The seal shows a part of a buffer that was checked.
    ghost sealed: { Self → Type 0 };

    /// Its number.
    fn id_mut(self) -> Seal<'a, ArchivedU32>
        requires { sealed self };

    /// What it leads to.
    fn next_mut(self) -> Seal<'a, ArchivedVec<ArchivedRc<ArchivedKnot, RcFlavor>>>
        requires { sealed self };
}

impl<'a> KnotSeal<'a> for Seal<'a, ArchivedKnot> {
    ghost sealed = { λ s. IsSealOf knot_definitions (one ⟦<ArchivedKnot as Portable>⟧.shape) s };

    fn id_mut(self) -> Seal<'a, ArchivedU32>
        requires come_to { IsSealOf knot_definitions (one ⟦<ArchivedKnot as Portable>⟧.shape) self }
        ensures { SealsPart knot_definitions (one ⟦<ArchivedKnot as Portable>⟧.shape) no_definition
            ⟦<ArchivedU32 as ArchivePointee>⟧.pointee (self.entry.pos + 0) 0 self.entry result }
    {
        seal_of_field::<ArchivedKnot, ArchivedU32>(self, 0, 0)
    }

    fn next_mut(self) -> Seal<'a, ArchivedVec<ArchivedRc<ArchivedKnot, RcFlavor>>>
        requires come_to { IsSealOf knot_definitions (one ⟦<ArchivedKnot as Portable>⟧.shape) self }
        ensures { SealsPart knot_definitions (one ⟦<ArchivedKnot as Portable>⟧.shape)
            ⟦<ArchivedKnot as ArchivePointee>⟧.definitions
            ⟦<ArchivedVec<ArchivedRc<ArchivedKnot, RcFlavor>> as ArchivePointee>⟧.pointee
            (self.entry.pos + 4) 0 self.entry result }
    {
        seal_of_field::<ArchivedKnot, ArchivedVec<ArchivedRc<ArchivedKnot, RcFlavor>>>(self, 1, 4)
    }
}
