//! Roads that lead into one another.

use archive_core::rc::{Shared, WeakShared};

/// A road; several may lead into one.
#[derive(Debug, PartialEq, Drop)]
pub enum Road {
    /// A length, and the road that it leads into, if it does.
    Way(u8, Option<Shared<Road>>),
    /// Another road in place of this one, and the road that is closed, if that is known.
    Detour(Shared<Road>, WeakShared<Road>),
}

// Below this line all is written by tools/derive: change what is above it, and run it again.

ghost use Rattle.archive_core.specs.Arrays.{named_twice, no_two, twice_keyed};
ghost use Rattle.archive_core.specs.CallOutcomes.{ResolvesAs};
ghost use Rattle.archive_core.specs.Causes.{HindersAt, IsRefused};
ghost use Rattle.archive_core.specs.Choices.{option_shape};
ghost use Rattle.archive_core.specs.Definitions.{both, no_definition};
ghost use Rattle.archive_core.specs.Entries.{ReadsBack};
ghost use Rattle.archive_core.specs.Error.TheVariants.{OutOfMemory};
ghost use Rattle.archive_core.specs.Expressed.{ExpressesParts, ExpressesVariants};
ghost use Rattle.archive_core.specs.Layout.{up};
ghost use Rattle.archive_core.specs.Options.{option_flat};
ghost use Rattle.archive_core.specs.OwnChoices.{variant_definitions};
ghost use Rattle.archive_core.specs.Payloads.{payload_in};
ghost use Rattle.archive_core.specs.PlannedOwners.{one_planned};
ghost use Rattle.archive_core.specs.Plans.{Serialized};
ghost use Rattle.archive_core.specs.Pooled.{Entries as Known};
ghost use Rattle.archive_core.specs.PooledParts.{Awaits};
ghost use Rattle.archive_core.specs.Pooling.{ReadsShared, RefusesShared};
ghost use Rattle.archive_core.specs.ReadBack.{Read, ReadsAs};
ghost use Rattle.archive_core.specs.SealOutcomes.{IsSealOf, SealsPart, seal_tag};
ghost use Rattle.archive_core.specs.Seen.{IsPartOf, RefusesPart, ShowsValueOf, part_tag, tag_of};
ghost use Rattle.archive_core.specs.SelfCheck.Laws.{by_schema};
ghost use Rattle.archive_core.specs.Shape.{no_part, one, part, parts, shared, variant, variant_at, weak};
ghost use Rattle.archive_core.specs.SharedLaws.{weak_flat};
ghost use Rattle.archive_core.specs.SharedSources.{rc_flat, rc_flavor};
ghost use Rattle.archive_core.specs.Value.{case, no_value, shared_value, value};
ghost use Rattle.archive_core.specs.Viewed.{Viewed};
ghost use Rattle.archive_core.specs.Writing.{Resolves, ZeroedPlace};
ghost use Rattle.archive_core.specs.Written.{GoesOn};
ghost use Rattle.recursive_kinds.specs.RoadShape.{road_definitions, road_detour_parts, road_has_layout, road_has_variants, road_is_align, road_layout, road_name, road_no_others, road_shape, road_variant_definitions, road_variants, road_way_parts};
ghost use Rattle.std.proofs.Common.{lit≤};
ghost use Rattle.std.specs.Prelude.{IfErr, IfNone, IfOk, IfSome, List, None, OnOk, Some, [], length, refl, ℕ, ⊤, ◌++◌, ◌+◌, ◌<◌, ◌≡◌, ◌≤◌};

use archive_core::error::Error;
use archive_core::fields::resolve_2;
use archive_core::option::ArchivedOption;
use archive_core::place::Place;
use archive_core::pooling::{Pooled, Pooling, PoolingState};
use archive_core::rc::{ArchivedRc, ArchivedRcWeak, RcFlavor, RcResolver, RcWeakResolver};
use archive_core::recursive::{
    begin_reading, begin_shared, define_choice, expression_of, finish_reading, finish_shared,
    first_expression, first_variant, named_expression, no_expressions, no_variants,
    option_expression, part_behind, part_of_variant, read_part, seal_of_payload, serialize_part,
    shared_expression, tag_of_choice, tag_of_view, view_of_payload, weak_expression,
};
use archive_core::seal::Seal;
use archive_core::self_check::BySchema;
use archive_core::ser::{ResolverAlloc, Writer, serialize_one};
use archive_core::shape::Defs;
use archive_core::sharing::Sharing;
use archive_core::traits::{
    Archive, ArchivePointee, ArchiveUnsized, Choice, CopyOptimization, Deserialize, Entries, Keys,
    Portable, Serialize, SerializeUnsized,
};
use archive_core::view::{RawView, Ref};
use std::alloc::{AllocError, Global};

/// An archived `Road`: 12 bytes at a multiple of 4. It is validated by its schema.
pub struct ArchivedRoad;

type RoadWayParts = (u8, (ArchivedOption<ArchivedRc<ArchivedRoad, RcFlavor>>, ()));

type RoadDetourParts = (
    ArchivedRc<ArchivedRoad, RcFlavor>,
    (ArchivedRcWeak<ArchivedRoad, RcFlavor>, ()),
);

type RoadVariants = (RoadWayParts, (RoadDetourParts, ()));

impl ArchivePointee for ArchivedRoad {
    type ArchivedMetadata = ();

    ghost pointee = { one road_shape };

    ghost definitions = { road_definitions };

    ghost metadata_length = { λ _. 0 };

    fn pointer_metadata(_metadata: &()) -> usize {
        0
    }
}

// The parts of `Way`.
fn road_way_expressions(alloc: Global) -> Result<Vec<archive_core::shape::Expr>, AllocError>
    ensures { ExpressesParts road_way_parts result }
{
    let rest2 = no_expressions(alloc);
    let rest1 = first_expression(
        option_expression(
            alloc,
            shared_expression(alloc, named_expression("ArchivedRoad")),
        ),
        rest2,
    );
    first_expression(expression_of::<u8>(alloc), rest1)
}

// The parts of `Detour`.
fn road_detour_expressions(alloc: Global) -> Result<Vec<archive_core::shape::Expr>, AllocError>
    ensures { ExpressesParts road_detour_parts result }
{
    let rest2 = no_expressions(alloc);
    let rest1 = first_expression(
        weak_expression(alloc, named_expression("ArchivedRoad")),
        rest2,
    );
    first_expression(
        shared_expression(alloc, named_expression("ArchivedRoad")),
        rest1,
    )
}

// Its variants.
fn road_expressions(alloc: Global) -> Result<Vec<Vec<archive_core::shape::Expr>>, AllocError>
    ensures { ExpressesVariants road_variants result }
{
    let rest2 = no_variants(alloc);
    let rest1 = first_variant(road_detour_expressions(alloc), rest2);
    first_variant(road_way_expressions(alloc), rest1)
}

impl Portable for ArchivedRoad {
    ghost shape = { road_shape };

    ghost layout = { road_layout };

    type Check = BySchema;

    ghost is_one = { refl };

    ghost is_align = { road_is_align };

    ghost has_layout = { road_has_layout };

    ghost no_others = { road_no_others };

    ghost checks = { λ direct. by_schema direct };

    fn size() -> usize {
        12
    }

    fn align() -> usize {
        4
    }

    fn expr(_alloc: Global) -> Result<archive_core::shape::Expr, Error> {
        Ok(archive_core::shape::Expr::Named("ArchivedRoad"))
    }

    fn define(alloc: Global, defs: &mut Defs) -> Result<(), Error> {
        define_choice("ArchivedRoad", road_expressions(alloc), defs)
    }
}

impl Choice for ArchivedRoad {
    type Variants = RoadVariants;

    ghost name = { road_name };

    ghost has_variants = { road_has_variants };

    ghost holds = { lit≤ tt };
}

/// What is kept of `Road` between `serialize` and `resolve`.
#[derive(Drop)]
pub enum RoadResolver {
    /// Of `Way`.
    Way((<u8 as Archive>::Resolver, (Option<RcResolver>, ()))),
    /// Of `Detour`.
    Detour((RcResolver, (RcWeakResolver, ()))),
}

// The shared value at a position, if the pool has it; none if the position was unknown: then the caller reads it back, and calls `finish_target`.
fn begin_target<T: Pooled, D: Pooling<T>>(
    pos: usize,
    deserializer: &mut D,
) -> Result<Option<T>, Error>
    ensures known { IfOk result (λ r. IfSome r (λ s. (bytes : List ℕ) (n : ℕ)
        → ReadsShared D.keeps T.Archived.definitions bytes pos T.Archived.pointee n
        (D.entry_of deserializer.old) (D.entry_of deserializer.new) (T.kept s))) }
    ensures begun { IfOk result (λ r. IfNone r (Awaits D.keeps pos (D.entry_of deserializer.old)
        (D.entry_of deserializer.new))) }
    ensures refused { IfErr result (λ e. (bytes : List ℕ) (n : ℕ)
        → RefusesShared T.Archived.definitions bytes pos T.Archived.pointee n
        (D.entry_of deserializer.old) e) }
{
    match deserializer.start_pooling(pos)? {
        PoolingState::Pending => Err(Error::CyclicDeserialize),
        PoolingState::Finished(value) => Ok(Some(value)),
        PoolingState::Started => Ok(None),
    }
}

// The shared value of what was read back at a position since it was started: the pool has it from now on.
fn finish_target<T: Pooled, D: Pooling<T>>(
    alloc: Global,
    pos: usize,
    value: T::Value,
    deserializer: &mut D,
) -> Result<T, Error>
    ensures read { IfOk result (λ s. (old started : Known) (bytes : List ℕ) (n : ℕ)
        → Awaits D.keeps pos old started
        → Viewed T.Archived.definitions bytes pos T.Archived.pointee n
        → ReadsBack D.keeps T.Archived.definitions bytes pos T.Archived.pointee n started
        (D.entry_of deserializer.old) (T.Value.meaning value) (T.Value.keys value)
        → ReadsShared D.keeps T.Archived.definitions bytes pos T.Archived.pointee n old
        (D.entry_of deserializer.new) (T.kept s)) }
    ensures refused { IfErr result (λ e. (old started : Known) (bytes : List ℕ) (n : ℕ)
        → Awaits D.keeps pos old started
        → ReadsBack D.keeps T.Archived.definitions bytes pos T.Archived.pointee n started
        (D.entry_of deserializer.old) (T.Value.meaning value) (T.Value.keys value)
        → e ≡ OutOfMemory) }
{
    let shared = T::from_value(alloc, pos, value)?;
    let kept = shared.clone()?;
    deserializer.finish_pooling(pos, kept)?;
    Ok(shared)
}

// A shared pointer to a value that was written before. It can be resolved, and nothing else: it means nothing.
#[derive(Drop)]
struct SharedRoadAt;

impl ArchiveUnsized for SharedRoadAt {
    type Archived = ArchivedRoad;

    ghost source_length = { λ _. 0 };

    ghost meaning = { λ _. shared_value 0 };

    ghost keys = { λ _. named_twice };

    ghost keyed = { λ _. twice_keyed };

    ghost planned = { λ _ a s names known named. absurd (no_two names named) };

    ghost one_length = { λ _ _. refl };

    #[inline(always)]
    fn archived_metadata(&self) -> Result<(), Error> {
        Ok(())
    }
}

impl Archive for SharedRoadAt {
    type Archived = ArchivedRc<ArchivedRoad, RcFlavor>;

    type Resolver = RcResolver;

    ghost meaning = { λ _. shared_value 0 };

    ghost flat = { λ _ r. rc_flat r (one road_shape) 0 };

    ghost keys = { λ _. named_twice };

    ghost belongs = { λ _ _. ⊤ };

    ghost in_bulk = { None };

    ghost keyed = { λ _. twice_keyed };

    ghost planned = { λ _ a s names known named. absurd (no_two names named) };

    #[inline(always)]
    fn resolve(
        &self,
        resolver: RcResolver,
        place: Place<'_, ArchivedRc<ArchivedRoad, RcFlavor>>,
    ) -> Result<(), Error>
        requires zeroed { ZeroedPlace 4 place.pos place.bytes.now }
        requires same_value { ⊤ }
        ensures { ResolvesAs ⟦<Self::Archived as Portable>⟧ place
            (⟦<Self as Archive>⟧.flat self.now resolver) result }
    {
        let Place { bytes, pos, .. } = place;
        ArchivedRc::<ArchivedRoad, RcFlavor>::resolve_from_ref(
            self,
            resolver,
            Place::new(pos, bytes),
        )
    }

    #[inline(always)]
    fn copy_optimization() -> CopyOptimization<Self> {
        CopyOptimization::disable()
    }

    #[inline(always)]
    fn serialize_copied<S: Writer + Keys>(
        _values: &[Self],
        _together: usize,
        _serializer: &mut S,
    ) -> Result<Option<usize>, Error> {
        Ok(None)
    }
}

// An option of a shared pointer to a value that was written before, if there is one: what is kept of it says so. It means nothing.
#[derive(Drop)]
struct OptionSharedRoadAt;

impl Archive for OptionSharedRoadAt {
    type Archived = ArchivedOption<ArchivedRc<ArchivedRoad, RcFlavor>>;

    type Resolver = Option<RcResolver>;

    ghost meaning = { λ _. shared_value 0 };

    ghost flat = { λ _ r. option_flat (λ y s. rc_flat s (one road_shape) 0) r r };

    ghost keys = { λ _. named_twice };

    ghost belongs = { λ _ _. ⊤ };

    ghost in_bulk = { None };

    ghost keyed = { λ _. twice_keyed };

    ghost planned = { λ _ a s names known named. absurd (no_two names named) };

    #[inline(always)]
    fn resolve(
        &self,
        resolver: Option<RcResolver>,
        place: Place<'_, ArchivedOption<ArchivedRc<ArchivedRoad, RcFlavor>>>,
    ) -> Result<(), Error>
        requires zeroed { ZeroedPlace 8 place.pos place.bytes.now }
        requires same_value { ⊤ }
        ensures { ResolvesAs ⟦<Self::Archived as Portable>⟧ place
            (⟦<Self as Archive>⟧.flat self.now resolver) result }
    {
        let Place { bytes, pos, .. } = place;
        match resolver {
            None => {
                let none: Option<SharedRoadAt> = None;
                none.resolve(None, Place::new(pos, bytes))
            }
            Some(at) => {
                let some = Some(SharedRoadAt);
                some.resolve(Some(at), Place::new(pos, bytes))
            }
        }
    }

    #[inline(always)]
    fn copy_optimization() -> CopyOptimization<Self> {
        CopyOptimization::disable()
    }

    #[inline(always)]
    fn serialize_copied<S: Writer + Keys>(
        _values: &[Self],
        _together: usize,
        _serializer: &mut S,
    ) -> Result<Option<usize>, Error> {
        Ok(None)
    }
}

// A weak pointer to a value that was written before, if there is one: what is kept of it says so. It means nothing.
#[derive(Drop)]
struct WeakRoadAt;

impl ArchiveUnsized for WeakRoadAt {
    type Archived = ArchivedRoad;

    ghost source_length = { λ _. 0 };

    ghost meaning = { λ _. shared_value 0 };

    ghost keys = { λ _. named_twice };

    ghost keyed = { λ _. twice_keyed };

    ghost planned = { λ _ a s names known named. absurd (no_two names named) };

    ghost one_length = { λ _ _. refl };

    #[inline(always)]
    fn archived_metadata(&self) -> Result<(), Error> {
        Ok(())
    }
}

impl Archive for WeakRoadAt {
    type Archived = ArchivedRcWeak<ArchivedRoad, RcFlavor>;

    type Resolver = RcWeakResolver;

    ghost meaning = { λ _. shared_value 0 };

    ghost flat = { λ _ r. weak_flat rc_flavor (one road_shape) 0 r };

    ghost keys = { λ _. named_twice };

    ghost belongs = { λ _ _. ⊤ };

    ghost in_bulk = { None };

    ghost keyed = { λ _. twice_keyed };

    ghost planned = { λ _ a s names known named. absurd (no_two names named) };

    #[inline(always)]
    fn resolve(
        &self,
        resolver: RcWeakResolver,
        place: Place<'_, ArchivedRcWeak<ArchivedRoad, RcFlavor>>,
    ) -> Result<(), Error>
        requires zeroed { ZeroedPlace 4 place.pos place.bytes.now }
        requires same_value { ⊤ }
        ensures { ResolvesAs ⟦<Self::Archived as Portable>⟧ place
            (⟦<Self as Archive>⟧.flat self.now resolver) result }
    {
        let Place { bytes, pos, .. } = place;
        let none: Option<&WeakRoadAt> = None;
        ArchivedRcWeak::<ArchivedRoad, RcFlavor>::resolve_from_ref(
            none,
            resolver,
            Place::new(pos, bytes),
        )
    }

    #[inline(always)]
    fn copy_optimization() -> CopyOptimization<Self> {
        CopyOptimization::disable()
    }

    #[inline(always)]
    fn serialize_copied<S: Writer + Keys>(
        _values: &[Self],
        _together: usize,
        _serializer: &mut S,
    ) -> Result<Option<usize>, Error> {
        Ok(None)
    }
}

// Writes a variant of 2 fields over zeros: its tag, and behind it the fields.
#[inline(always)]
fn resolve_road_2<A: Archive, B: Archive>(
    tag: u8,
    a: &A,
    b: &B,
    resolvers: (A::Resolver, (B::Resolver, ())),
    place: Place<'_, ArchivedRoad>,
) -> Result<(), Error>
    requires variant { variant_at road_variants tag ≡ Some
        (part A.Archived.shape (part B.Archived.shape no_part)) }
    requires definitions { variant_definitions road_variant_definitions tag
        ≡ (both A.Archived.definitions (both B.Archived.definitions no_definition)) }
    requires inside { Unit {0} → (up (up 1 A.Archived.layout.align + A.Archived.layout.size)
        B.Archived.layout.align + B.Archived.layout.size) ≤ 12 }
    requires zeroed { ZeroedPlace 12 place.pos place.bytes.now }
    requires same_values { (A.belongs a.now resolvers.0
        × (B.belongs b.now resolvers.1.0 × Unit {0})) }
    ensures resolved { OnOk result (Resolves road_definitions place.entry.pos place.exit.0.now
        road_shape (case tag (value (A.flat a.now resolvers.0)
        (value (B.flat b.now resolvers.1.0) no_value)))) }
    ensures same_length { length place.exit.0.now ≡ length place.entry.bytes.now }
    ensures refused { IfErr result (HindersAt road_definitions road_shape
        (case tag (value (A.flat a.now resolvers.0) (value (B.flat b.now resolvers.1.0) no_value)))
        place.entry.pos) }
{
    let Place { bytes, pos, .. } = place;
    bytes[0] = tag;
    resolve_2(a, b, resolvers, pos, 1, &mut bytes[1..])
}

impl Archive for Road {
    ghost use Rattle.recursive_kinds.specs.RoadMeaning.{road_meaning, road_flat, road_keys, road_belongs, road_keyed, road_planned};

    type Archived = ArchivedRoad;

    type Resolver = RoadResolver;

    ghost meaning = { road_meaning };

    ghost flat = { road_flat };

    ghost keys = { road_keys };

    ghost belongs = { road_belongs };

    ghost in_bulk = { None };

    ghost keyed = { road_keyed };

    ghost planned = { road_planned };

    #[inline(always)]
    fn resolve(
        &self,
        resolver: Self::Resolver,
        place: Place<'_, Self::Archived>,
    ) -> Result<(), Error>
        requires zeroed { ZeroedPlace 12 place.pos place.bytes.now }
        requires same_value { ⟦<Self as Archive>⟧.belongs self.now resolver }
        ensures { ResolvesAs ⟦<Self::Archived as Portable>⟧ place
            (⟦<Self as Archive>⟧.flat self.now resolver) result }
    {
        let Place { bytes, pos, .. } = place;
        match self {
            Road::Way(a0, _a1) => {
                let RoadResolver::Way(kept) = resolver else {
                    unreachable!();
                };
                resolve_road_2::<u8, OptionSharedRoadAt>(
                    0,
                    a0,
                    &OptionSharedRoadAt,
                    kept,
                    Place::new(pos, bytes),
                )
            }
            Road::Detour(_a0, _a1) => {
                let RoadResolver::Detour(kept) = resolver else {
                    unreachable!();
                };
                resolve_road_2::<SharedRoadAt, WeakRoadAt>(
                    1,
                    &SharedRoadAt,
                    &WeakRoadAt,
                    kept,
                    Place::new(pos, bytes),
                )
            }
        }
    }

    #[inline(always)]
    fn copy_optimization() -> CopyOptimization<Self> {
        CopyOptimization::disable()
    }

    #[inline(always)]
    fn serialize_copied<S: Writer + Keys>(
        _values: &[Self],
        _together: usize,
        _serializer: &mut S,
    ) -> Result<Option<usize>, Error> {
        Ok(None)
    }
}

// Writes what a shared pointer leads to, if its key is unknown.
#[cycle(serialize_road)]
fn serialize_shared_road<S: Sharing + Writer + ResolverAlloc>(
    value: &Shared<Road>,
    serializer: &mut S,
) -> Result<RcResolver, Error>
    ensures serialized { IfOk result (λ r. Serialized road_definitions
        (shared rc_flavor (one road_shape)) (⟦<Shared<Road> as Archive>⟧.keys value.now)
        (⟦<Shared<Road> as Archive>⟧.meaning value.now)
        (⟦<Shared<Road> as Archive>⟧.flat value.now r) (S.state serializer.old)
        (S.state serializer.new)) }
    ensures same_value { IfOk result (λ r. ⟦<Shared<Road> as Archive>⟧.belongs value.now r) }
    ensures goes_on { GoesOn (S.state serializer.old) (S.state serializer.new) }
    ensures refused { IfErr result (IsRefused road_definitions (shared rc_flavor (one road_shape))
        (⟦<Shared<Road> as Archive>⟧.keys value.now) (⟦<Shared<Road> as Archive>⟧.meaning value.now)
        (S.state serializer.old) (S.state serializer.new)) }
{
    let inner = &*value.value;
    let known = match begin_shared(value.key, serializer) {
        Ok(known) => known,
        Err(error) => return Err(error),
    };
    match known {
        Some(resolver) => Ok(resolver),
        None => {
            let kept = match serialize_road(inner, serializer) {
                Ok(kept) => kept,
                Err(error) => return Err(error),
            };
            match finish_shared(value.key, inner, kept, serializer) {
                Ok(resolver) => Ok(resolver),
                Err(error) => Err(error),
            }
        }
    }
}

// Writes what an option of a shared pointer leads to, if its key is unknown.
#[cycle(serialize_road)]
fn serialize_option_shared_road<S: Sharing + Writer + ResolverAlloc>(
    value: &Option<Shared<Road>>,
    serializer: &mut S,
) -> Result<Option<RcResolver>, Error>
    ensures serialized { IfOk result (λ r. Serialized road_definitions
        (option_shape (shared rc_flavor (one road_shape)))
        (⟦<Option<Shared<Road>> as Archive>⟧.keys value.now)
        (⟦<Option<Shared<Road>> as Archive>⟧.meaning value.now)
        (option_flat (λ y s. (rc_flat s (one road_shape) 0)) r r) (S.state serializer.old)
        (S.state serializer.new)) }
    ensures same_value { IfOk result (λ r. ⊤) }
    ensures goes_on { GoesOn (S.state serializer.old) (S.state serializer.new) }
    ensures refused { IfErr result (IsRefused road_definitions
        (option_shape (shared rc_flavor (one road_shape)))
        (⟦<Option<Shared<Road>> as Archive>⟧.keys value.now)
        (⟦<Option<Shared<Road>> as Archive>⟧.meaning value.now) (S.state serializer.old)
        (S.state serializer.new)) }
{
    match value {
        None => Ok(None),
        Some(whole) => {
            let inner = &*whole.value;
            let known = match begin_shared(whole.key, serializer) {
                Ok(known) => known,
                Err(error) => return Err(error),
            };
            match known {
                Some(resolver) => Ok(Some(resolver)),
                None => {
                    let kept = match serialize_road(inner, serializer) {
                        Ok(kept) => kept,
                        Err(error) => return Err(error),
                    };
                    match finish_shared(whole.key, inner, kept, serializer) {
                        Ok(resolver) => Ok(Some(resolver)),
                        Err(error) => Err(error),
                    }
                }
            }
        }
    }
}

// Writes what a weak pointer leads to, if its key is unknown.
#[cycle(serialize_road)]
fn serialize_weak_shared_road<S: Sharing + Writer + ResolverAlloc>(
    value: &WeakShared<Road>,
    serializer: &mut S,
) -> Result<RcWeakResolver, Error>
    ensures serialized { IfOk result (λ r. Serialized road_definitions
        (weak rc_flavor (one road_shape)) (⟦<WeakShared<Road> as Archive>⟧.keys value.now)
        (⟦<WeakShared<Road> as Archive>⟧.meaning value.now)
        (⟦<WeakShared<Road> as Archive>⟧.flat value.now r) (S.state serializer.old)
        (S.state serializer.new)) }
    ensures same_value { IfOk result (λ r. ⟦<WeakShared<Road> as Archive>⟧.belongs value.now r) }
    ensures goes_on { GoesOn (S.state serializer.old) (S.state serializer.new) }
    ensures refused { IfErr result (IsRefused road_definitions (weak rc_flavor (one road_shape))
        (⟦<WeakShared<Road> as Archive>⟧.keys value.now)
        (⟦<WeakShared<Road> as Archive>⟧.meaning value.now) (S.state serializer.old)
        (S.state serializer.new)) }
{
    match &value.value {
        None => Ok(None),
        Some(whole) => {
            let inner = &*whole.value;
            let known = match begin_shared(whole.key, serializer) {
                Ok(known) => known,
                Err(error) => return Err(error),
            };
            match known {
                Some(resolver) => Ok(Some(resolver)),
                None => {
                    let kept = match serialize_road(inner, serializer) {
                        Ok(kept) => kept,
                        Err(error) => return Err(error),
                    };
                    match finish_shared(whole.key, inner, kept, serializer) {
                        Ok(resolver) => Ok(Some(resolver)),
                        Err(error) => Err(error),
                    }
                }
            }
        }
    }
}

// Writes what the parts of `Way` own, in order.
#[cycle(serialize_road)]
fn serialize_road_way<S: Sharing + Writer + ResolverAlloc>(
    a0: &u8,
    a1: &Option<Shared<Road>>,
    serializer: &mut S,
) -> Result<(<u8 as Archive>::Resolver, (Option<RcResolver>, ())), Error>
    ensures serialized { IfOk result (λ r. Serialized road_definitions road_shape
        (⟦<u8 as Archive>⟧.keys a0.now ++ (⟦<Option<Shared<Road>> as Archive>⟧.keys a1.now ++ []))
        (case 0 (value (⟦<u8 as Archive>⟧.meaning a0.now)
        (value (⟦<Option<Shared<Road>> as Archive>⟧.meaning a1.now) no_value)))
        (case 0 (value (⟦<u8 as Archive>⟧.flat a0.now r.0)
        (value (option_flat (λ y s. (rc_flat s (one road_shape) 0)) r.1.0 r.1.0) no_value)))
        (S.state serializer.old) (S.state serializer.new)) }
    ensures same_values { IfOk result (λ r. ⟦<u8 as Archive>⟧.belongs a0.now r.0 × (⊤ × Unit {0})) }
    ensures goes_on { GoesOn (S.state serializer.old) (S.state serializer.new) }
    ensures refused { IfErr result (IsRefused road_definitions road_shape
        (⟦<u8 as Archive>⟧.keys a0.now ++ (⟦<Option<Shared<Road>> as Archive>⟧.keys a1.now ++ []))
        (case 0 (value (⟦<u8 as Archive>⟧.meaning a0.now)
        (value (⟦<Option<Shared<Road>> as Archive>⟧.meaning a1.now) no_value)))
        (S.state serializer.old) (S.state serializer.new)) }
{
    let a0 = match serialize_part(a0, serializer) {
        Ok(a0) => a0,
        Err(error) => return Err(error),
    };
    let a1 = match serialize_option_shared_road(a1, serializer) {
        Ok(a1) => a1,
        Err(error) => return Err(error),
    };
    Ok((a0, (a1, ())))
}

// Writes what a value owns.
#[cycle(serialize_road)]
fn serialize_whole_road<S: Sharing + Writer + ResolverAlloc>(
    value: &Road,
    serializer: &mut S,
) -> Result<RoadResolver, Error>
    ensures serialized { IfOk result (λ r. Serialized road_definitions road_shape
        (⟦<Road as Archive>⟧.keys value.now) (⟦<Road as Archive>⟧.meaning value.now)
        (⟦<Road as Archive>⟧.flat value.now r) (S.state serializer.old) (S.state serializer.new)) }
    ensures same_value { IfOk result (λ r. ⟦<Road as Archive>⟧.belongs value.now r) }
    ensures goes_on { GoesOn (S.state serializer.old) (S.state serializer.new) }
    ensures refused { IfErr result (IsRefused road_definitions road_shape
        (⟦<Road as Archive>⟧.keys value.now) (⟦<Road as Archive>⟧.meaning value.now)
        (S.state serializer.old) (S.state serializer.new)) }
{
    match value {
        Road::Way(a0, a1) => match serialize_road_way(a0, a1, serializer) {
            Ok(kept) => Ok(RoadResolver::Way(kept)),
            Err(error) => Err(error),
        },
        Road::Detour(a0, a1) => {
            let a0 = match serialize_shared_road(a0, serializer) {
                Ok(a0) => a0,
                Err(error) => return Err(error),
            };
            let a1 = match serialize_weak_shared_road(a1, serializer) {
                Ok(a1) => a1,
                Err(error) => return Err(error),
            };
            Ok(RoadResolver::Detour((a0, (a1, ()))))
        }
    }
}

// The same by a call, whose result has its room only while it lasts.
#[cycle(serialize_road)]
#[inline(always)]
fn serialize_road<S: Sharing + Writer + ResolverAlloc>(
    value: &Road,
    serializer: &mut S,
) -> Result<RoadResolver, Error>
    ensures serialized { IfOk result (λ r. Serialized road_definitions road_shape
        (⟦<Road as Archive>⟧.keys value.now) (⟦<Road as Archive>⟧.meaning value.now)
        (⟦<Road as Archive>⟧.flat value.now r) (S.state serializer.old) (S.state serializer.new)) }
    ensures same_value { IfOk result (λ r. ⟦<Road as Archive>⟧.belongs value.now r) }
    ensures goes_on { GoesOn (S.state serializer.old) (S.state serializer.new) }
    ensures refused { IfErr result (IsRefused road_definitions road_shape
        (⟦<Road as Archive>⟧.keys value.now) (⟦<Road as Archive>⟧.meaning value.now)
        (S.state serializer.old) (S.state serializer.new)) }
{
    serialize_whole_road(value, serializer)
}

impl<S: Sharing + Writer + ResolverAlloc> Serialize<S> for Road {
    #[inline(always)]
    fn serialize(&self, serializer: &mut S) -> Result<Self::Resolver, Error> {
        serialize_road(self, serializer)
    }
}

/// As a region of its own: the value itself.
impl ArchiveUnsized for Road {
    ghost use Rattle.recursive_kinds.specs.contracts.road.RoadArchive.TheImpl.Laws.{keyed-law as keyed_of_road, planned-law as planned_of_road};

    type Archived = ArchivedRoad;

    ghost source_length = { λ _. 0 };

    ghost meaning = { ⟦<Road as Archive>⟧.meaning };

    ghost keys = { ⟦<Road as Archive>⟧.keys };

    ghost keyed = { keyed_of_road };

    ghost one_length = { λ _ _. refl };

    ghost planned = { λ v. one_planned road_definitions road_shape (⟦<Road as Archive>⟧.keys v)
        (⟦<Road as Archive>⟧.meaning v) (planned_of_road v) };

    #[inline(always)]
    fn archived_metadata(&self) -> Result<(), Error> {
        Ok(())
    }
}

impl<S: Sharing + Writer + ResolverAlloc> SerializeUnsized<S> for Road {
    #[inline(always)]
    fn serialize_unsized(&self, serializer: &mut S) -> Result<usize, Error> {
        serialize_one(self, serializer)
    }
}

// The tag of a value, which names its variant.
#[inline(always)]
fn tag_of_road(part: RawView<'_>) -> u8
    requires { IsPartOf ⟦<ArchivedRoad as ArchivePointee>⟧ part }
    ensures tag { result ≡ part_tag part.entry }
    ensures below { result < 2 }
{
    tag_of_choice::<ArchivedRoad>(part)
}

// The part of a value that is `Way` with the index 0.
#[inline(always)]
fn part_0_of_road_way<'a>(part: RawView<'a>) -> RawView<'a>
    requires viewed { IsPartOf ⟦<ArchivedRoad as ArchivePointee>⟧ part }
    requires tag { part_tag part ≡ 0 }
    ensures buffer { result.bytes.now ≡ part.entry.bytes.now }
    ensures position { result.pos ≡ part.entry.pos + 1 }
    ensures length { result.len ≡ 0 }
    ensures viewed { IsPartOf ⟦<u8 as ArchivePointee>⟧ result }
{
    part_of_variant::<ArchivedRoad, u8>(part, 0, 0, 1)
}

// The part of a value that is `Way` with the index 1.
#[inline(always)]
fn part_1_of_road_way<'a>(part: RawView<'a>) -> RawView<'a>
    requires viewed { IsPartOf ⟦<ArchivedRoad as ArchivePointee>⟧ part }
    requires tag { part_tag part ≡ 0 }
    ensures buffer { result.bytes.now ≡ part.entry.bytes.now }
    ensures position { result.pos ≡ part.entry.pos + 4 }
    ensures length { result.len ≡ 0 }
    ensures viewed { IsPartOf ⟦<ArchivedOption<ArchivedRc<ArchivedRoad, RcFlavor>> as ArchivePointee>⟧
        result }
{
    part_of_variant::<ArchivedRoad, ArchivedOption<ArchivedRc<ArchivedRoad, RcFlavor>>>(
        part, 0, 1, 4,
    )
}

// The part of a value that is `Detour` with the index 0.
#[inline(always)]
fn part_0_of_road_detour<'a>(part: RawView<'a>) -> RawView<'a>
    requires viewed { IsPartOf ⟦<ArchivedRoad as ArchivePointee>⟧ part }
    requires tag { part_tag part ≡ 1 }
    ensures buffer { result.bytes.now ≡ part.entry.bytes.now }
    ensures position { result.pos ≡ part.entry.pos + 4 }
    ensures length { result.len ≡ 0 }
    ensures viewed { IsPartOf ⟦<ArchivedRc<ArchivedRoad, RcFlavor> as ArchivePointee>⟧ result }
{
    part_of_variant::<ArchivedRoad, ArchivedRc<ArchivedRoad, RcFlavor>>(part, 1, 0, 4)
}

// The part of a value that is `Detour` with the index 1.
#[inline(always)]
fn part_1_of_road_detour<'a>(part: RawView<'a>) -> RawView<'a>
    requires viewed { IsPartOf ⟦<ArchivedRoad as ArchivePointee>⟧ part }
    requires tag { part_tag part ≡ 1 }
    ensures buffer { result.bytes.now ≡ part.entry.bytes.now }
    ensures position { result.pos ≡ part.entry.pos + 8 }
    ensures length { result.len ≡ 0 }
    ensures viewed { IsPartOf ⟦<ArchivedRcWeak<ArchivedRoad, RcFlavor> as ArchivePointee>⟧ result }
{
    part_of_variant::<ArchivedRoad, ArchivedRcWeak<ArchivedRoad, RcFlavor>>(part, 1, 1, 8)
}

// Reads a shared value back.
#[cycle(read_road)]
fn read_shared_road<D: Pooling<Shared<Road>>>(
    alloc: Global,
    part: RawView<'_>,
    levels: usize,
    deserializer: &mut D,
) -> Result<Shared<Road>, Error>
    requires { IsPartOf ⟦<ArchivedRc<ArchivedRoad, RcFlavor> as ArchivePointee>⟧ part }
    ensures read { IfOk result (Read ⟦<ArchivedRc<ArchivedRoad, RcFlavor> as ArchivePointee>⟧ part
        D.Entries deserializer ⟦<Shared<Road> as Archive>⟧) }
    ensures refused { IfErr result (RefusesPart ⟦<ArchivedRc<ArchivedRoad, RcFlavor> as ArchivePointee>⟧
        part D.Entries deserializer) }
{
    let known = match begin_reading::<ArchivedRoad, RcFlavor, Shared<Road>, D>(part, deserializer) {
        Ok(known) => known,
        Err(error) => return Err(error),
    };
    match known {
        Some(value) => Ok(value),
        None => {
            let behind = part_behind::<ArchivedRoad, RcFlavor>(part);
            let value = match read_road(alloc, behind, levels, deserializer) {
                Ok(value) => value,
                Err(error) => return Err(error),
            };
            finish_reading::<ArchivedRoad, RcFlavor, Shared<Road>, D>(
                alloc,
                part,
                value,
                deserializer,
            )
        }
    }
}

// Reads an option back.
#[cycle(read_road)]
fn read_option_shared_road<D: Pooling<Shared<Road>>>(
    alloc: Global,
    part: RawView<'_>,
    levels: usize,
    deserializer: &mut D,
) -> Result<Option<Shared<Road>>, Error>
    requires { IsPartOf ⟦<ArchivedOption<ArchivedRc<ArchivedRoad, RcFlavor>> as ArchivePointee>⟧
        part }
    ensures read { IfOk result
        (Read ⟦<ArchivedOption<ArchivedRc<ArchivedRoad, RcFlavor>> as ArchivePointee>⟧ part
        D.Entries deserializer ⟦<Option<Shared<Road>> as Archive>⟧) }
    ensures refused { IfErr result
        (RefusesPart ⟦<ArchivedOption<ArchivedRc<ArchivedRoad, RcFlavor>> as ArchivePointee>⟧ part
        D.Entries deserializer) }
{
    let view: Ref<'_, ArchivedOption<ArchivedRc<ArchivedRoad, RcFlavor>>> = Ref::at(part);
    match view.as_ref() {
        None => Ok(None),
        Some(inner) => match read_shared_road(alloc, inner.part(), levels, deserializer) {
            Ok(value) => Ok(Some(value)),
            Err(error) => Err(error),
        },
    }
}

// Reads a weak pointer back.
#[cycle(read_road)]
fn read_weak_shared_road<D: Pooling<Shared<Road>>>(
    alloc: Global,
    part: RawView<'_>,
    levels: usize,
    deserializer: &mut D,
) -> Result<WeakShared<Road>, Error>
    requires { IsPartOf ⟦<ArchivedRcWeak<ArchivedRoad, RcFlavor> as ArchivePointee>⟧ part }
    ensures read { IfOk result (Read ⟦<ArchivedRcWeak<ArchivedRoad, RcFlavor> as ArchivePointee>⟧
        part D.Entries deserializer ⟦<WeakShared<Road> as Archive>⟧) }
    ensures refused { IfErr result
        (RefusesPart ⟦<ArchivedRcWeak<ArchivedRoad, RcFlavor> as ArchivePointee>⟧ part D.Entries
        deserializer) }
{
    let view: Ref<'_, ArchivedRcWeak<ArchivedRoad, RcFlavor>> = Ref::at(part);
    let Some(target) = view.upgrade() else {
        return Ok(WeakShared { value: None });
    };
    let behind = target.part();
    let pos = behind.pos;
    let known = match begin_target::<Shared<Road>, D>(pos, deserializer) {
        Ok(known) => known,
        Err(error) => return Err(error),
    };
    match known {
        Some(value) => Ok(WeakShared { value: Some(value) }),
        None => {
            let value = match read_road(alloc, behind, levels, deserializer) {
                Ok(value) => value,
                Err(error) => return Err(error),
            };
            match finish_target::<Shared<Road>, D>(alloc, pos, value, deserializer) {
                Ok(shared) => Ok(WeakShared {
                    value: Some(shared),
                }),
                Err(error) => Err(error),
            }
        }
    }
}

// Reads `Way` back.
#[cycle(read_road)]
fn read_road_way<D: Pooling<Shared<Road>>>(
    alloc: Global,
    part: RawView<'_>,
    levels: usize,
    deserializer: &mut D,
) -> Result<Road, Error>
    requires viewed { IsPartOf ⟦<ArchivedRoad as ArchivePointee>⟧ part }
    requires tag { part_tag part ≡ 0 }
    ensures read { IfOk result (Read ⟦<ArchivedRoad as ArchivePointee>⟧ part D.Entries deserializer
        ⟦<Road as Archive>⟧) }
    ensures refused { IfErr result (RefusesPart ⟦<ArchivedRoad as ArchivePointee>⟧ part D.Entries
        deserializer) }
{
    let p0 = part_0_of_road_way(part);
    let a0 = match read_part::<u8, u8, D>(alloc, p0, deserializer) {
        Ok(a0) => a0,
        Err(error) => return Err(error),
    };
    let p1 = part_1_of_road_way(part);
    let a1 = match read_option_shared_road(alloc, p1, levels, deserializer) {
        Ok(a1) => a1,
        Err(error) => return Err(error),
    };
    Ok(Road::Way(a0, a1))
}

// Reads `Detour` back.
#[cycle(read_road)]
fn read_road_detour<D: Pooling<Shared<Road>>>(
    alloc: Global,
    part: RawView<'_>,
    levels: usize,
    deserializer: &mut D,
) -> Result<Road, Error>
    requires viewed { IsPartOf ⟦<ArchivedRoad as ArchivePointee>⟧ part }
    requires tag { part_tag part ≡ 1 }
    ensures read { IfOk result (Read ⟦<ArchivedRoad as ArchivePointee>⟧ part D.Entries deserializer
        ⟦<Road as Archive>⟧) }
    ensures refused { IfErr result (RefusesPart ⟦<ArchivedRoad as ArchivePointee>⟧ part D.Entries
        deserializer) }
{
    let p0 = part_0_of_road_detour(part);
    let a0 = match read_shared_road(alloc, p0, levels, deserializer) {
        Ok(a0) => a0,
        Err(error) => return Err(error),
    };
    let p1 = part_1_of_road_detour(part);
    let a1 = match read_weak_shared_road(alloc, p1, levels, deserializer) {
        Ok(a1) => a1,
        Err(error) => return Err(error),
    };
    Ok(Road::Detour(a0, a1))
}

// Reads a value back.
#[cycle(read_road)]
fn read_road<D: Pooling<Shared<Road>>>(
    alloc: Global,
    part: RawView<'_>,
    levels: usize,
    deserializer: &mut D,
) -> Result<Road, Error>
    requires { IsPartOf ⟦<ArchivedRoad as ArchivePointee>⟧ part }
    ensures read { IfOk result (Read ⟦<ArchivedRoad as ArchivePointee>⟧ part D.Entries deserializer
        ⟦<Road as Archive>⟧) }
    ensures refused { IfErr result (RefusesPart ⟦<ArchivedRoad as ArchivePointee>⟧ part D.Entries
        deserializer) }
{
    if levels == 0 {
        return Err(Error::OutOfMemory);
    }
    let levels = levels - 1;
    match tag_of_road(part) {
        0 => read_road_way(alloc, part, levels, deserializer),
        _ => read_road_detour(alloc, part, levels, deserializer),
    }
}

impl<D: Pooling<Shared<Road>>> Deserialize<Road, D> for ArchivedRoad {
    #[inline(always)]
    fn deserialize_part(
        alloc: Global,
        part: RawView<'_>,
        deserializer: &mut D,
    ) -> Result<Road, Error>
        requires { IsPartOf ⟦<Self as ArchivePointee>⟧ part }
        ensures { ReadsAs ⟦<Self as ArchivePointee>⟧ part D.Entries deserializer ⟦<Road as Archive>⟧
            result }
    {
        let levels = part.bytes.len();
        read_road(alloc, part, levels, deserializer)
    }
}

/// What a view of an archived `Road` shows, by its tag.
#[derive(Drop)]
pub enum ViewOfRoad<'a> {
    /// A length, and the road that it leads into, if it does.
    Way(Ref<'a, u8>, Ref<'a, ArchivedOption<ArchivedRc<ArchivedRoad, RcFlavor>>>),
    /// Another road in place of this one, and the road that is closed, if that is known.
    Detour(
        Ref<'a, ArchivedRc<ArchivedRoad, RcFlavor>>,
        Ref<'a, ArchivedRcWeak<ArchivedRoad, RcFlavor>>,
    ),
}

/// The variant of an archived `Road`, as a view.
pub trait RoadView<'a> {
    /// The variant that the tag names, with views of its fields.
    fn variant(self) -> ViewOfRoad<'a>;
}

impl<'a> RoadView<'a> for Ref<'a, ArchivedRoad> {
    ghost use Rattle.recursive_kinds.specs.declared.road.ViewOfRoad.TheVariants.{Detour as RoadDetourShown, Way as RoadWayShown};

    fn variant(self) -> ViewOfRoad<'a>
        ensures shows { elim result [
          | RoadWayShown a0 a1 ↦ (tag_of self.entry ≡ 0) × (a0.bytes.now ≡ self.entry.bytes.now)
              × (a0.pos ≡ self.entry.pos + 1) × (a0.len ≡ 0)
              × ShowsValueOf a0 self.entry (payload_in 0) × (a1.bytes.now ≡ self.entry.bytes.now)
              × (a1.pos ≡ self.entry.pos + 4) × (a1.len ≡ 0)
              × ShowsValueOf a1 self.entry (payload_in 1)
          | RoadDetourShown a0 a1 ↦ (tag_of self.entry ≡ 1) × (a0.bytes.now ≡ self.entry.bytes.now)
              × (a0.pos ≡ self.entry.pos + 4) × (a0.len ≡ 0)
              × ShowsValueOf a0 self.entry (payload_in 0) × (a1.bytes.now ≡ self.entry.bytes.now)
              × (a1.pos ≡ self.entry.pos + 8) × (a1.len ≡ 0)
              × ShowsValueOf a1 self.entry (payload_in 1)
        ] }
    {
        match tag_of_view(self) {
            0 => {
                let a0 = view_of_payload::<ArchivedRoad, u8>(self, 0, 0, 1);
                let a1 = view_of_payload::<
                    ArchivedRoad,
                    ArchivedOption<ArchivedRc<ArchivedRoad, RcFlavor>>,
                >(self, 0, 1, 4);
                ViewOfRoad::Way(a0, a1)
            }
            _ => {
                let a0 = view_of_payload::<ArchivedRoad, ArchivedRc<ArchivedRoad, RcFlavor>>(
                    self, 1, 0, 4,
                );
                let a1 = view_of_payload::<ArchivedRoad, ArchivedRcWeak<ArchivedRoad, RcFlavor>>(
                    self, 1, 1, 8,
                );
                ViewOfRoad::Detour(a0, a1)
            }
        }
    }
}

/// The fields of an archived `Road`, as seals. The caller must ensure that the tag is the variant's.
pub trait RoadSeal<'a> {
    // The seal shows a part of a buffer that was checked.
    ghost sealed: { Self → Type 0 };

    // The tag that it shows.
    ghost tag: { Self → ℕ };

    /// The field `0` of `Way`.
    fn way_0_mut(self) -> Seal<'a, u8>
        requires come_to { sealed self }
        requires tag { tag self ≡ 0 };

    /// The field `1` of `Way`.
    fn way_1_mut(self) -> Seal<'a, ArchivedOption<ArchivedRc<ArchivedRoad, RcFlavor>>>
        requires come_to { sealed self }
        requires tag { tag self ≡ 0 };

    /// The field `0` of `Detour`.
    fn detour_0_mut(self) -> Seal<'a, ArchivedRc<ArchivedRoad, RcFlavor>>
        requires come_to { sealed self }
        requires tag { tag self ≡ 1 };

    /// The field `1` of `Detour`.
    fn detour_1_mut(self) -> Seal<'a, ArchivedRcWeak<ArchivedRoad, RcFlavor>>
        requires come_to { sealed self }
        requires tag { tag self ≡ 1 };
}

impl<'a> RoadSeal<'a> for Seal<'a, ArchivedRoad> {
    ghost sealed = { λ s. IsSealOf road_definitions (one ⟦<ArchivedRoad as Portable>⟧.shape) s };

    ghost tag = { λ s. seal_tag s };

    fn way_0_mut(self) -> Seal<'a, u8>
        requires come_to { IsSealOf road_definitions (one ⟦<ArchivedRoad as Portable>⟧.shape) self }
        requires tag { seal_tag self ≡ 0 }
        ensures { SealsPart road_definitions (one ⟦<ArchivedRoad as Portable>⟧.shape) no_definition
            ⟦<u8 as ArchivePointee>⟧.pointee (self.entry.pos + 1) 0 self.entry result }
    {
        seal_of_payload::<ArchivedRoad, u8>(self, 0, 0, 1)
    }

    fn way_1_mut(self) -> Seal<'a, ArchivedOption<ArchivedRc<ArchivedRoad, RcFlavor>>>
        requires come_to { IsSealOf road_definitions (one ⟦<ArchivedRoad as Portable>⟧.shape) self }
        requires tag { seal_tag self ≡ 0 }
        ensures { SealsPart road_definitions (one ⟦<ArchivedRoad as Portable>⟧.shape)
            ⟦<ArchivedRoad as ArchivePointee>⟧.definitions
            ⟦<ArchivedOption<ArchivedRc<ArchivedRoad, RcFlavor>> as ArchivePointee>⟧.pointee
            (self.entry.pos + 4) 0 self.entry result }
    {
        seal_of_payload::<ArchivedRoad, ArchivedOption<ArchivedRc<ArchivedRoad, RcFlavor>>>(
            self, 0, 1, 4,
        )
    }

    fn detour_0_mut(self) -> Seal<'a, ArchivedRc<ArchivedRoad, RcFlavor>>
        requires come_to { IsSealOf road_definitions (one ⟦<ArchivedRoad as Portable>⟧.shape) self }
        requires tag { seal_tag self ≡ 1 }
        ensures { SealsPart road_definitions (one ⟦<ArchivedRoad as Portable>⟧.shape)
            ⟦<ArchivedRoad as ArchivePointee>⟧.definitions
            ⟦<ArchivedRc<ArchivedRoad, RcFlavor> as ArchivePointee>⟧.pointee (self.entry.pos + 4) 0
            self.entry result }
    {
        seal_of_payload::<ArchivedRoad, ArchivedRc<ArchivedRoad, RcFlavor>>(self, 1, 0, 4)
    }

    fn detour_1_mut(self) -> Seal<'a, ArchivedRcWeak<ArchivedRoad, RcFlavor>>
        requires come_to { IsSealOf road_definitions (one ⟦<ArchivedRoad as Portable>⟧.shape) self }
        requires tag { seal_tag self ≡ 1 }
        ensures { SealsPart road_definitions (one ⟦<ArchivedRoad as Portable>⟧.shape)
            ⟦<ArchivedRoad as ArchivePointee>⟧.definitions
            ⟦<ArchivedRcWeak<ArchivedRoad, RcFlavor> as ArchivePointee>⟧.pointee
            (self.entry.pos + 8) 0 self.entry result }
    {
        seal_of_payload::<ArchivedRoad, ArchivedRcWeak<ArchivedRoad, RcFlavor>>(self, 1, 1, 8)
    }
}
