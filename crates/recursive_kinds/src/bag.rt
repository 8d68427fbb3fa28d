//! Bags of bags.

use archive_core::rc::SharedSlice;

/// A bag; several may hold the same bags.
#[derive(Drop)]
pub struct Bag {
    /// The bag that lies on top, if any.
    pub top: Option<Box<Bag>>,
    /// The bags in it.
    pub inside: SharedSlice<Bag>,
}

// Below this line all is written by tools/derive: change what is above it, and run it again.

ghost use Rattle.archive_core.specs.Arrays.{named_twice, no_two, twice_keyed};
ghost use Rattle.archive_core.specs.CallOutcomes.{ResolvesAs};
ghost use Rattle.archive_core.specs.Causes.{IsRefused};
ghost use Rattle.archive_core.specs.Choices.{option_shape};
ghost use Rattle.archive_core.specs.Entries.{ReadsBack};
ghost use Rattle.archive_core.specs.Error.TheVariants.{OutOfMemory};
ghost use Rattle.archive_core.specs.Expressed.{ExpressesParts};
ghost use Rattle.archive_core.specs.Fields.{field_in};
ghost use Rattle.archive_core.specs.Hollow.{option_at};
ghost use Rattle.archive_core.specs.PlannedOwners.{is_long, one_planned};
ghost use Rattle.archive_core.specs.Plans.{Serialized};
ghost use Rattle.archive_core.specs.Pooled.{Entries as Known};
ghost use Rattle.archive_core.specs.PooledParts.{Awaits};
ghost use Rattle.archive_core.specs.Pooling.{ReadsShared, RefusesShared};
ghost use Rattle.archive_core.specs.ReadBack.{Read, ReadsAs};
ghost use Rattle.archive_core.specs.Runs.{EachBelongs, IsRunRefused, SerializedRun, each_flat, each_keys, each_meaning};
ghost use Rattle.archive_core.specs.SealOutcomes.{IsSealOf, SealsPart};
ghost use Rattle.archive_core.specs.Seen.{IsPartOf, ReadsPart, RefusesPart, ShowsValueOf};
ghost use Rattle.archive_core.specs.SelfCheck.Laws.{by_schema};
ghost use Rattle.archive_core.specs.Shape.{boxed, one, part, parts, run, shared};
ghost use Rattle.archive_core.specs.SharedSources.{rc_flat, rc_flavor, rc_keys};
ghost use Rattle.archive_core.specs.Value.{list, shared_value, value};
ghost use Rattle.archive_core.specs.Viewed.{Viewed};
ghost use Rattle.archive_core.specs.Writing.{ZeroedPlace};
ghost use Rattle.archive_core.specs.Written.{GoesOn};
ghost use Rattle.recursive_kinds.specs.BagShape.{bag_definitions, bag_has_layout, bag_has_parts, bag_is_align, bag_layout, bag_no_others, bag_parts, bag_shape};
ghost use Rattle.std.proofs.Common.{lit≤};
ghost use Rattle.std.specs.Prelude.{IfErr, IfNone, IfOk, IfSome, List, None, Some, length, refl, ℕ, ⊤, ◌+◌, ◌≡◌, ◌≤◌};

use archive_core::boxed::{ArchivedBox, BoxResolver};
use archive_core::error::Error;
use archive_core::option::ArchivedOption;
use archive_core::place::Place;
use archive_core::pooling::{Pooled, Pooling, PoolingState};
use archive_core::primitive::ArchivedUsize;
use archive_core::rc::{ArchivedRc, RcFlavor, RcResolver};
use archive_core::recursive::{
    OptionAt, before_box, begin_shared_slice, boxed_expression, define_record, finish_shared_slice,
    first_expression, handed_on, named_expression, no_expressions, option_expression,
    part_of_record, resolve_named_record_2, seal_of_field, serialize_inner, shared_run_expression,
    view_of_field,
};
use archive_core::seal::Seal;
use archive_core::self_check::BySchema;
use archive_core::ser::{ResolverAlloc, Writer, serialize_one};
use archive_core::shape::Defs;
use archive_core::sharing::Sharing;
use archive_core::slice::ArchivedSlice;
use archive_core::traits::{
    Archive, ArchivePointee, ArchiveUnsized, CopyOptimization, Deserialize, Entries, Keys,
    Portable, Record, Serialize, SerializeUnsized,
};
use archive_core::view::{RawView, Ref};
use std::alloc::{AllocError, Global};

/// An archived `Bag`: 16 bytes at a multiple of 4. It is validated by its schema.
pub struct ArchivedBag;

type BagParts = (
    ArchivedOption<ArchivedBox<ArchivedBag>>,
    (ArchivedRc<ArchivedSlice<ArchivedBag>, RcFlavor>, ()),
);

impl ArchivePointee for ArchivedBag {
    type ArchivedMetadata = ();

    ghost pointee = { one bag_shape };

    ghost definitions = { bag_definitions };

    ghost metadata_length = { λ _. 0 };

    fn pointer_metadata(_metadata: &()) -> usize {
        0
    }
}

// The parts of `Bag`.
fn bag_expressions(alloc: Global) -> Result<Vec<archive_core::shape::Expr>, AllocError>
    ensures { ExpressesParts bag_parts result }
{
    let rest2 = no_expressions(alloc);
    let rest1 = first_expression(
        shared_run_expression(alloc, named_expression("ArchivedBag")),
        rest2,
    );
    first_expression(
        option_expression(
            alloc,
            boxed_expression(alloc, named_expression("ArchivedBag")),
        ),
        rest1,
    )
}

impl Portable for ArchivedBag {
    ghost shape = { bag_shape };

    ghost layout = { bag_layout };

    type Check = BySchema;

    ghost is_one = { refl };

    ghost is_align = { bag_is_align };

    ghost has_layout = { bag_has_layout };

    ghost no_others = { bag_no_others };

    ghost checks = { λ direct. by_schema direct };

    fn size() -> usize {
        16
    }

    fn align() -> usize {
        4
    }

    fn expr(_alloc: Global) -> Result<archive_core::shape::Expr, Error> {
        Ok(archive_core::shape::Expr::Named("ArchivedBag"))
    }

    fn define(alloc: Global, defs: &mut Defs) -> Result<(), Error> {
        define_record("ArchivedBag", bag_expressions(alloc), defs)
    }
}

impl Record for ArchivedBag {
    type Parts = BagParts;

    ghost has_parts = { bag_has_parts };

    ghost holds = { lit≤ tt };
}

/// What is kept of `Bag` between `serialize` and `resolve`.
#[derive(Drop)]
pub struct BagResolver {
    kept: (Option<BoxResolver>, (RcResolver, ())),
}

// The shared value at a position, if the pool has it; none if the position was unknown: then the caller reads it back, and calls `finish_target`.
fn begin_target<T: Pooled, D: Pooling<T>>(
    pos: usize,
    deserializer: &mut D,
) -> Result<Option<T>, Error>
    ensures known { IfOk result (λ r. IfSome r (λ s. (bytes : List ℕ) (n : ℕ)
        → ReadsShared D.keeps T.Archived.definitions bytes pos T.Archived.pointee n
        (D.entry_of deserializer.old) (D.entry_of deserializer.new) (T.kept s))) }
    ensures begun { IfOk result (λ r. IfNone r (Awaits D.keeps pos (D.entry_of deserializer.old)
        (D.entry_of deserializer.new))) }
    ensures refused { IfErr result (λ e. (bytes : List ℕ) (n : ℕ)
        → RefusesShared T.Archived.definitions bytes pos T.Archived.pointee n
        (D.entry_of deserializer.old) e) }
{
    match deserializer.start_pooling(pos)? {
        PoolingState::Pending => Err(Error::CyclicDeserialize),
        PoolingState::Finished(value) => Ok(Some(value)),
        PoolingState::Started => Ok(None),
    }
}

// The shared value of what was read back at a position since it was started: the pool has it from now on.
fn finish_target<T: Pooled, D: Pooling<T>>(
    alloc: Global,
    pos: usize,
    value: T::Value,
    deserializer: &mut D,
) -> Result<T, Error>
    ensures read { IfOk result (λ s. (old started : Known) (bytes : List ℕ) (n : ℕ)
        → Awaits D.keeps pos old started
        → Viewed T.Archived.definitions bytes pos T.Archived.pointee n
        → ReadsBack D.keeps T.Archived.definitions bytes pos T.Archived.pointee n started
        (D.entry_of deserializer.old) (T.Value.meaning value) (T.Value.keys value)
        → ReadsShared D.keeps T.Archived.definitions bytes pos T.Archived.pointee n old
        (D.entry_of deserializer.new) (T.kept s)) }
    ensures refused { IfErr result (λ e. (old started : Known) (bytes : List ℕ) (n : ℕ)
        → Awaits D.keeps pos old started
        → ReadsBack D.keeps T.Archived.definitions bytes pos T.Archived.pointee n started
        (D.entry_of deserializer.old) (T.Value.meaning value) (T.Value.keys value)
        → e ≡ OutOfMemory) }
{
    let shared = T::from_value(alloc, pos, value)?;
    let kept = shared.clone()?;
    deserializer.finish_pooling(pos, kept)?;
    Ok(shared)
}

// A shared slice whose elements were written before. It can be resolved, and nothing else: it means nothing.
#[derive(Drop)]
struct SharedSliceBagAt {
    // The number of elements.
    len: usize,
}

impl ArchiveUnsized for SharedSliceBagAt {
    type Archived = ArchivedSlice<ArchivedBag>;

    ghost source_length = { λ b. b.len };

    ghost meaning = { λ _. shared_value 0 };

    ghost keys = { λ _. named_twice };

    ghost keyed = { λ _. twice_keyed };

    ghost planned = { λ _ a s names known named. absurd (no_two names named) };

    ghost one_length = { λ _ e. is_long e };

    #[inline(always)]
    fn archived_metadata(&self) -> Result<ArchivedUsize, Error> {
        let Ok(len) = u32::try_from(self.len) else {
            return Err(Error::LengthTooLarge);
        };
        Ok(ArchivedUsize::from_native(len))
    }
}

impl Archive for SharedSliceBagAt {
    type Archived = ArchivedRc<ArchivedSlice<ArchivedBag>, RcFlavor>;

    type Resolver = RcResolver;

    ghost meaning = { λ _. shared_value 0 };

    ghost flat = { λ b r. rc_flat r (run bag_shape) b.len };

    ghost keys = { λ _. named_twice };

    ghost belongs = { λ b _. b.len ≤ 4294967295 };

    ghost in_bulk = { None };

    ghost keyed = { λ _. twice_keyed };

    ghost planned = { λ _ a s names known named. absurd (no_two names named) };

    #[inline(always)]
    fn resolve(
        &self,
        resolver: RcResolver,
        place: Place<'_, ArchivedRc<ArchivedSlice<ArchivedBag>, RcFlavor>>,
    ) -> Result<(), Error>
        requires zeroed { ZeroedPlace 8 place.pos place.bytes.now }
        requires same_value { self.now.len ≤ 4294967295 }
        ensures { ResolvesAs ⟦<Self::Archived as Portable>⟧ place
            (⟦<Self as Archive>⟧.flat self.now resolver) result }
    {
        let Place { bytes, pos, .. } = place;
        ArchivedRc::<ArchivedSlice<ArchivedBag>, RcFlavor>::resolve_from_ref(
            self,
            resolver,
            Place::new(pos, bytes),
        )
    }

    #[inline(always)]
    fn copy_optimization() -> CopyOptimization<Self> {
        CopyOptimization::disable()
    }

    #[inline(always)]
    fn serialize_copied<S: Writer + Keys>(
        _values: &[Self],
        _together: usize,
        _serializer: &mut S,
    ) -> Result<Option<usize>, Error> {
        Ok(None)
    }
}

impl Archive for Bag {
    ghost use Rattle.recursive_kinds.specs.BagMeaning.{bag_meaning, bag_flat, bag_keys, bag_belongs, bag_keyed, bag_planned};

    type Archived = ArchivedBag;

    type Resolver = BagResolver;

    ghost meaning = { bag_meaning };

    ghost flat = { bag_flat };

    ghost keys = { bag_keys };

    ghost belongs = { bag_belongs };

    ghost in_bulk = { None };

    ghost keyed = { bag_keyed };

    ghost planned = { bag_planned };

    #[inline(always)]
    fn resolve(
        &self,
        resolver: Self::Resolver,
        place: Place<'_, Self::Archived>,
    ) -> Result<(), Error>
        requires zeroed { ZeroedPlace 16 place.pos place.bytes.now }
        requires same_value { ⟦<Self as Archive>⟧.belongs self.now resolver }
        ensures { ResolvesAs ⟦<Self::Archived as Portable>⟧ place
            (⟦<Self as Archive>⟧.flat self.now resolver) result }
    {
        let Place { bytes, pos, .. } = place;
        let BagResolver { kept } = resolver;
        let h0: OptionAt<ArchivedBag> = OptionAt::new();
        let h1: SharedSliceBagAt = SharedSliceBagAt {
            len: self.inside.value.len(),
        };
        resolve_named_record_2::<OptionAt<ArchivedBag>, SharedSliceBagAt, ArchivedBag>(
            &h0,
            &h1,
            kept,
            Place::new(pos, bytes),
        )
    }

    #[inline(always)]
    fn copy_optimization() -> CopyOptimization<Self> {
        CopyOptimization::disable()
    }

    #[inline(always)]
    fn serialize_copied<S: Writer + Keys>(
        _values: &[Self],
        _together: usize,
        _serializer: &mut S,
    ) -> Result<Option<usize>, Error> {
        Ok(None)
    }
}

// Writes what an option owns.
#[cycle(serialize_bag)]
#[inline(always)]
fn serialize_option_box_bag<S: Sharing + Writer + ResolverAlloc>(
    value: &Option<Box<Bag>>,
    serializer: &mut S,
) -> Result<Option<BoxResolver>, Error>
    ensures serialized { IfOk result (λ r. Serialized bag_definitions
        (option_shape (boxed (one bag_shape))) (⟦<Option<Box<Bag>> as Archive>⟧.keys value.now)
        (⟦<Option<Box<Bag>> as Archive>⟧.meaning value.now) (option_at (one bag_shape) r)
        (S.state serializer.old) (S.state serializer.new)) }
    ensures same_value { IfOk result (λ r. ⊤) }
    ensures goes_on { GoesOn (S.state serializer.old) (S.state serializer.new) }
    ensures refused { IfErr result (IsRefused bag_definitions (option_shape (boxed (one bag_shape)))
        (⟦<Option<Box<Bag>> as Archive>⟧.keys value.now)
        (⟦<Option<Box<Bag>> as Archive>⟧.meaning value.now) (S.state serializer.old)
        (S.state serializer.new)) }
{
    match value {
        None => Ok(None),
        Some(whole) => {
            let inner = &**whole;
            let kept = match serialize_bag(inner, serializer) {
                Ok(kept) => kept,
                Err(error) => return Err(handed_on(error)),
            };
            match serialize_inner(inner, kept, serializer) {
                Ok(at) => Ok(Some(at)),
                Err(error) => Err(error),
            }
        }
    }
}

// Writes what each of the values owns, in order.
#[cycle(serialize_bag)]
fn serialize_each_bag<S: Sharing + Writer + ResolverAlloc>(
    values: &[Bag],
    serializer: &mut S,
) -> Result<Vec<<Bag as Archive>::Resolver, S::Alloc>, Error>
    ensures serialized { IfOk result (λ rs. SerializedRun bag_definitions bag_shape
        (length values.now) (each_keys ⟦<Bag as Archive>⟧.keys values.now)
        (each_meaning ⟦<Bag as Archive>⟧.meaning values.now)
        (each_flat ⟦<Bag as Archive>⟧.flat values.now rs.items) (S.state serializer.old)
        (S.state serializer.new)) }
    ensures same_values { IfOk result (λ rs. EachBelongs ⟦<Bag as Archive>⟧.belongs values.now
        rs.items) }
    ensures goes_on { GoesOn (S.state serializer.old) (S.state serializer.new) }
    ensures refused { IfErr result (IsRunRefused bag_definitions bag_shape (length values.now)
        (each_keys ⟦<Bag as Archive>⟧.keys values.now) (each_meaning ⟦<Bag as Archive>⟧.meaning
        values.now) (S.state serializer.old) (S.state serializer.new)) }
{
    let alloc = serializer.resolver_alloc();
    let mut resolvers = Vec::with_capacity(alloc, values.len())?;
    for value in values {
        let resolver = match serialize_bag(value, serializer) {
            Ok(resolver) => resolver,
            Err(error) => return Err(handed_on(error)),
        };
        resolvers.push_reserved(resolver);
    }
    Ok(resolvers)
}

// Writes the elements of a shared slice, if their key is unknown.
#[cycle(serialize_bag)]
fn serialize_shared_slice_bag<S: Sharing + Writer + ResolverAlloc>(
    key: u64,
    values: &[Bag],
    serializer: &mut S,
) -> Result<RcResolver, Error>
    ensures serialized { IfOk result (λ r. Serialized bag_definitions
        (shared rc_flavor (run bag_shape)) (rc_keys key (run bag_shape) (length values.now)
        (list (each_meaning ⟦<Bag as Archive>⟧.meaning values.now))
        (each_keys ⟦<Bag as Archive>⟧.keys values.now)) (shared_value key)
        (rc_flat r (run bag_shape) (length values.now)) (S.state serializer.old)
        (S.state serializer.new)) }
    ensures same_value { IfOk result (λ r. length values.now ≤ 4294967295) }
    ensures goes_on { GoesOn (S.state serializer.old) (S.state serializer.new) }
    ensures refused { IfErr result (IsRefused bag_definitions (shared rc_flavor (run bag_shape))
        (rc_keys key (run bag_shape) (length values.now)
        (list (each_meaning ⟦<Bag as Archive>⟧.meaning values.now))
        (each_keys ⟦<Bag as Archive>⟧.keys values.now)) (shared_value key) (S.state serializer.old)
        (S.state serializer.new)) }
{
    let known = match begin_shared_slice(key, values.len(), serializer) {
        Ok(known) => known,
        Err(error) => return Err(error),
    };
    match known {
        Some(resolver) => Ok(resolver),
        None => {
            let kept = match serialize_each_bag(values, serializer) {
                Ok(kept) => kept,
                Err(error) => return Err(error),
            };
            match finish_shared_slice(key, values, kept, serializer) {
                Ok(resolver) => Ok(resolver),
                Err(error) => Err(error),
            }
        }
    }
}

// Writes what a value owns, part by part.
#[cycle(serialize_bag)]
fn serialize_whole_bag<S: Sharing + Writer + ResolverAlloc>(
    value: &Bag,
    serializer: &mut S,
) -> Result<BagResolver, Error>
    ensures serialized { IfOk result (λ r. Serialized bag_definitions bag_shape
        (⟦<Bag as Archive>⟧.keys value.now) (⟦<Bag as Archive>⟧.meaning value.now)
        (⟦<Bag as Archive>⟧.flat value.now r) (S.state serializer.old) (S.state serializer.new)) }
    ensures same_value { IfOk result (λ r. ⟦<Bag as Archive>⟧.belongs value.now r) }
    ensures goes_on { GoesOn (S.state serializer.old) (S.state serializer.new) }
    ensures refused { IfErr result (IsRefused bag_definitions bag_shape
        (⟦<Bag as Archive>⟧.keys value.now) (⟦<Bag as Archive>⟧.meaning value.now)
        (S.state serializer.old) (S.state serializer.new)) }
{
    let a0 = match serialize_option_box_bag(&value.top, serializer) {
        Ok(a0) => a0,
        Err(error) => return Err(handed_on(error)),
    };
    let items = value.inside.value.as_slice();
    let a1 = match serialize_shared_slice_bag(value.inside.key, items, serializer) {
        Ok(a1) => a1,
        Err(error) => return Err(error),
    };
    Ok(BagResolver {
        kept: (a0, (a1, ())),
    })
}

// The same by a call, whose result has its room only while it lasts.
#[cycle(serialize_bag)]
#[inline(always)]
fn serialize_bag<S: Sharing + Writer + ResolverAlloc>(
    value: &Bag,
    serializer: &mut S,
) -> Result<BagResolver, Error>
    ensures serialized { IfOk result (λ r. Serialized bag_definitions bag_shape
        (⟦<Bag as Archive>⟧.keys value.now) (⟦<Bag as Archive>⟧.meaning value.now)
        (⟦<Bag as Archive>⟧.flat value.now r) (S.state serializer.old) (S.state serializer.new)) }
    ensures same_value { IfOk result (λ r. ⟦<Bag as Archive>⟧.belongs value.now r) }
    ensures goes_on { GoesOn (S.state serializer.old) (S.state serializer.new) }
    ensures refused { IfErr result (IsRefused bag_definitions bag_shape
        (⟦<Bag as Archive>⟧.keys value.now) (⟦<Bag as Archive>⟧.meaning value.now)
        (S.state serializer.old) (S.state serializer.new)) }
{
    serialize_whole_bag(value, serializer)
}

impl<S: Sharing + Writer + ResolverAlloc> Serialize<S> for Bag {
    #[inline(always)]
    fn serialize(&self, serializer: &mut S) -> Result<Self::Resolver, Error> {
        serialize_bag(self, serializer)
    }
}

/// As a region of its own: the value itself.
impl ArchiveUnsized for Bag {
    ghost use Rattle.recursive_kinds.specs.contracts.bag.BagArchive.TheImpl.Laws.{keyed-law as keyed_of_bag, planned-law as planned_of_bag};

    type Archived = ArchivedBag;

    ghost source_length = { λ _. 0 };

    ghost meaning = { ⟦<Bag as Archive>⟧.meaning };

    ghost keys = { ⟦<Bag as Archive>⟧.keys };

    ghost keyed = { keyed_of_bag };

    ghost one_length = { λ _ _. refl };

    ghost planned = { λ v. one_planned bag_definitions bag_shape (⟦<Bag as Archive>⟧.keys v)
        (⟦<Bag as Archive>⟧.meaning v) (planned_of_bag v) };

    #[inline(always)]
    fn archived_metadata(&self) -> Result<(), Error> {
        Ok(())
    }
}

impl<S: Sharing + Writer + ResolverAlloc> SerializeUnsized<S> for Bag {
    #[inline(always)]
    fn serialize_unsized(&self, serializer: &mut S) -> Result<usize, Error> {
        serialize_one(self, serializer)
    }
}

// Reads a box back.
#[cycle(read_bag)]
fn read_box_bag<D: Pooling<SharedSlice<Bag>>>(
    alloc: Global,
    part: RawView<'_>,
    levels: usize,
    deserializer: &mut D,
) -> Result<Box<Bag>, Error>
    requires { IsPartOf ⟦<ArchivedBox<ArchivedBag> as ArchivePointee>⟧ part }
    ensures read { IfOk result (Read ⟦<ArchivedBox<ArchivedBag> as ArchivePointee>⟧ part D.Entries
        deserializer ⟦<Box<Bag> as Archive>⟧) }
    ensures refused { IfErr result (RefusesPart ⟦<ArchivedBox<ArchivedBag> as ArchivePointee>⟧ part
        D.Entries deserializer) }
{
    let view: Ref<'_, ArchivedBox<ArchivedBag>> = Ref::at(part);
    let value = match read_bag(alloc, before_box(view).part(), levels, deserializer) {
        Ok(value) => value,
        Err(error) => return Err(error),
    };
    let whole = Box::new(alloc, value)?;
    Ok(whole)
}

// Reads an option back.
#[cycle(read_bag)]
fn read_option_box_bag<D: Pooling<SharedSlice<Bag>>>(
    alloc: Global,
    part: RawView<'_>,
    levels: usize,
    deserializer: &mut D,
) -> Result<Option<Box<Bag>>, Error>
    requires { IsPartOf ⟦<ArchivedOption<ArchivedBox<ArchivedBag>> as ArchivePointee>⟧ part }
    ensures read { IfOk result (Read ⟦<ArchivedOption<ArchivedBox<ArchivedBag>> as ArchivePointee>⟧
        part D.Entries deserializer ⟦<Option<Box<Bag>> as Archive>⟧) }
    ensures refused { IfErr result
        (RefusesPart ⟦<ArchivedOption<ArchivedBox<ArchivedBag>> as ArchivePointee>⟧ part D.Entries
        deserializer) }
{
    let view: Ref<'_, ArchivedOption<ArchivedBox<ArchivedBag>>> = Ref::at(part);
    match view.as_ref() {
        None => Ok(None),
        Some(inner) => match read_box_bag(alloc, inner.part(), levels, deserializer) {
            Ok(value) => Ok(Some(value)),
            Err(error) => Err(error),
        },
    }
}

// Reads the elements of a shared slice back.
#[cycle(read_bag)]
fn read_items_bag<D: Pooling<SharedSlice<Bag>>>(
    alloc: Global,
    part: RawView<'_>,
    levels: usize,
    deserializer: &mut D,
) -> Result<Vec<Bag>, Error>
    requires { IsPartOf ⟦<ArchivedSlice<ArchivedBag> as ArchivePointee>⟧ part }
    ensures read { IfOk result (λ t. ReadsPart ⟦<ArchivedSlice<ArchivedBag> as ArchivePointee>⟧ part
        D.Entries deserializer (list (each_meaning ⟦<Bag as Archive>⟧.meaning t.items))
        (each_keys ⟦<Bag as Archive>⟧.keys t.items)) }
    ensures refused { IfErr result (RefusesPart ⟦<ArchivedSlice<ArchivedBag> as ArchivePointee>⟧
        part D.Entries deserializer) }
{
    let list: Ref<'_, ArchivedSlice<ArchivedBag>> = Ref::at(part);
    let mut items = Vec::with_capacity(alloc, list.len())?;
    for index in 0..list.len() {
        let item = match read_bag(alloc, list.index(index).part(), levels, deserializer) {
            Ok(item) => item,
            Err(error) => return Err(error),
        };
        items.push_reserved(item);
    }
    Ok(items)
}

// Reads a shared slice back.
#[cycle(read_bag)]
fn read_shared_slice_bag<D: Pooling<SharedSlice<Bag>>>(
    alloc: Global,
    part: RawView<'_>,
    levels: usize,
    deserializer: &mut D,
) -> Result<SharedSlice<Bag>, Error>
    requires { IsPartOf ⟦<ArchivedRc<ArchivedSlice<ArchivedBag>, RcFlavor> as ArchivePointee>⟧
        part }
    ensures read { IfOk result
        (Read ⟦<ArchivedRc<ArchivedSlice<ArchivedBag>, RcFlavor> as ArchivePointee>⟧ part D.Entries
        deserializer ⟦<SharedSlice<Bag> as Archive>⟧) }
    ensures refused { IfErr result
        (RefusesPart ⟦<ArchivedRc<ArchivedSlice<ArchivedBag>, RcFlavor> as ArchivePointee>⟧ part
        D.Entries deserializer) }
{
    let view: Ref<'_, ArchivedRc<ArchivedSlice<ArchivedBag>, RcFlavor>> = Ref::at(part);
    let behind = view.get().part();
    let pos = behind.pos;
    match begin_target::<SharedSlice<Bag>, D>(pos, deserializer)? {
        Some(value) => Ok(value),
        None => {
            let value = read_items_bag(alloc, behind, levels, deserializer)?;
            finish_target::<SharedSlice<Bag>, D>(alloc, pos, value, deserializer)
        }
    }
}

// Reads a value back, part by part.
#[cycle(read_bag)]
fn read_bag<D: Pooling<SharedSlice<Bag>>>(
    alloc: Global,
    part: RawView<'_>,
    levels: usize,
    deserializer: &mut D,
) -> Result<Bag, Error>
    requires { IsPartOf ⟦<ArchivedBag as ArchivePointee>⟧ part }
    ensures read { IfOk result (Read ⟦<ArchivedBag as ArchivePointee>⟧ part D.Entries deserializer
        ⟦<Bag as Archive>⟧) }
    ensures refused { IfErr result (RefusesPart ⟦<ArchivedBag as ArchivePointee>⟧ part D.Entries
        deserializer) }
{
    if levels == 0 {
        return Err(Error::OutOfMemory);
    }
    let levels = levels - 1;
    let p0 = part_of_record::<ArchivedBag, ArchivedOption<ArchivedBox<ArchivedBag>>>(part, 0, 0);
    let a0 = match read_option_box_bag(alloc, p0, levels, deserializer) {
        Ok(a0) => a0,
        Err(error) => return Err(error),
    };
    let p1 = part_of_record::<ArchivedBag, ArchivedRc<ArchivedSlice<ArchivedBag>, RcFlavor>>(
        part, 1, 8,
    );
    let a1 = match read_shared_slice_bag(alloc, p1, levels, deserializer) {
        Ok(a1) => a1,
        Err(error) => return Err(error),
    };
    Ok(Bag {
        top: a0,
        inside: a1,
    })
}

impl<D: Pooling<SharedSlice<Bag>>> Deserialize<Bag, D> for ArchivedBag {
    #[inline(always)]
    fn deserialize_part(
        alloc: Global,
        part: RawView<'_>,
        deserializer: &mut D,
    ) -> Result<Bag, Error>
        requires { IsPartOf ⟦<Self as ArchivePointee>⟧ part }
        ensures { ReadsAs ⟦<Self as ArchivePointee>⟧ part D.Entries deserializer ⟦<Bag as Archive>⟧
            result }
    {
        let levels = part.bytes.len();
        read_bag(alloc, part, levels, deserializer)
    }
}

/// The fields of an archived `Bag`, as views.
pub trait BagView<'a> {
    /// The bag that lies on top, if any.
    fn top(self) -> Ref<'a, ArchivedOption<ArchivedBox<ArchivedBag>>>;

    /// The bags in it.
    fn inside(self) -> Ref<'a, ArchivedRc<ArchivedSlice<ArchivedBag>, RcFlavor>>;
}

impl<'a> BagView<'a> for Ref<'a, ArchivedBag> {
    fn top(self) -> Ref<'a, ArchivedOption<ArchivedBox<ArchivedBag>>>
        ensures buffer { result.bytes.now ≡ self.entry.bytes.now }
        ensures position { result.pos ≡ self.entry.pos + 0 }
        ensures length { result.len ≡ 0 }
        ensures shows { ShowsValueOf result self.entry (field_in 0) }
    {
        view_of_field::<ArchivedBag, ArchivedOption<ArchivedBox<ArchivedBag>>>(self, 0, 0)
    }

    fn inside(self) -> Ref<'a, ArchivedRc<ArchivedSlice<ArchivedBag>, RcFlavor>>
        ensures buffer { result.bytes.now ≡ self.entry.bytes.now }
        ensures position { result.pos ≡ self.entry.pos + 8 }
        ensures length { result.len ≡ 0 }
        ensures shows { ShowsValueOf result self.entry (field_in 1) }
    {
        view_of_field::<ArchivedBag, ArchivedRc<ArchivedSlice<ArchivedBag>, RcFlavor>>(self, 1, 8)
    }
}

/// The fields of an archived `Bag`, as seals.
pub trait BagSeal<'a> {
    // The seal shows a part of a buffer that was checked.
    ghost sealed: { Self → Type 0 };

    /// The bag that lies on top, if any.
    fn top_mut(self) -> Seal<'a, ArchivedOption<ArchivedBox<ArchivedBag>>>
        requires { sealed self };

    /// The bags in it.
    fn inside_mut(self) -> Seal<'a, ArchivedRc<ArchivedSlice<ArchivedBag>, RcFlavor>>
        requires { sealed self };
}

impl<'a> BagSeal<'a> for Seal<'a, ArchivedBag> {
    ghost sealed = { λ s. IsSealOf bag_definitions (one ⟦<ArchivedBag as Portable>⟧.shape) s };

    fn top_mut(self) -> Seal<'a, ArchivedOption<ArchivedBox<ArchivedBag>>>
        requires come_to { IsSealOf bag_definitions (one ⟦<ArchivedBag as Portable>⟧.shape) self }
        ensures { SealsPart bag_definitions (one ⟦<ArchivedBag as Portable>⟧.shape)
            ⟦<ArchivedBag as ArchivePointee>⟧.definitions
            ⟦<ArchivedOption<ArchivedBox<ArchivedBag>> as ArchivePointee>⟧.pointee
            (self.entry.pos + 0) 0 self.entry result }
    {
        seal_of_field::<ArchivedBag, ArchivedOption<ArchivedBox<ArchivedBag>>>(self, 0, 0)
    }

    fn inside_mut(self) -> Seal<'a, ArchivedRc<ArchivedSlice<ArchivedBag>, RcFlavor>>
        requires come_to { IsSealOf bag_definitions (one ⟦<ArchivedBag as Portable>⟧.shape) self }
        ensures { SealsPart bag_definitions (one ⟦<ArchivedBag as Portable>⟧.shape)
            ⟦<ArchivedBag as ArchivePointee>⟧.definitions
            ⟦<ArchivedRc<ArchivedSlice<ArchivedBag>, RcFlavor> as ArchivePointee>⟧.pointee
            (self.entry.pos + 8) 0 self.entry result }
    {
        seal_of_field::<ArchivedBag, ArchivedRc<ArchivedSlice<ArchivedBag>, RcFlavor>>(self, 1, 8)
    }
}
