//! A record that holds an enum.

use crate::event::Event;

/// An event, and when it came.
#[derive(Debug, PartialEq, Drop)]
pub struct Entry {
    /// When it came, in seconds.
    pub seconds: u64,
    /// What came.
    pub event: Event,
}

// text: SCHEMA

// Below this line all is written by tools/derive: change what is above it, and run it again.

ghost use Rattle.archive_core.specs.CallOutcomes.{ResolvesAs};
ghost use Rattle.archive_core.specs.Definitions.{both, no_definition};
ghost use Rattle.archive_core.specs.Fields.{field_in};
ghost use Rattle.archive_core.specs.Keyed.{nothing_keyed, number_keyed, part_keyed, record_keyed};
ghost use Rattle.archive_core.specs.LeafLayout.{no_definition_reached};
ghost use Rattle.archive_core.specs.PartsPlanned.{no_part_planned, part_planned};
ghost use Rattle.archive_core.specs.Plain.{plain_own_check, plain_record, plain_record_planned};
ghost use Rattle.archive_core.specs.Planned.{leaf_planned};
ghost use Rattle.archive_core.specs.PlannedOwners.{one_planned};
ghost use Rattle.archive_core.specs.ReadBack.{ReadsAs};
ghost use Rattle.archive_core.specs.SealOutcomes.{IsSealOf, SealsPart};
ghost use Rattle.archive_core.specs.Seen.{IsPartOf, ShowsValueOf};
ghost use Rattle.archive_core.specs.Shape.{no_part, one, part, parts};
ghost use Rattle.archive_core.specs.Value.{no_value, product, value};
ghost use Rattle.archive_core.specs.Writing.{ZeroedPlace};
ghost use Rattle.std.proofs.Common.{inl, inr, lit≤};
ghost use Rattle.std.specs.Prelude.{None, [], length, refl, true, ◌++◌, ◌+◌, ◌≡◌};

use crate::event::ArchivedEvent;
use archive_core::error::Error;
use archive_core::fields::{part_in_record, resolve_record_2, serialize_record_2};
use archive_core::place::Place;
use archive_core::primitive::ArchivedU64;
use archive_core::record::deserialize_record;
use archive_core::seal::{Seal, sealed_part_in_record};
use archive_core::self_check::{RecordCheck, SelfCheck};
use archive_core::ser::{ResolverAlloc, Writer, serialize_one};
use archive_core::shape::Defs;
use archive_core::traits::{
    Archive, ArchivePointee, ArchiveUnsized, CopyOptimization, Deserialize, Entries, Keys,
    Portable, Record, Serialize, SerializeUnsized, expr_of_record,
};
use archive_core::validation::ArchiveContext;
use archive_core::view::{RawView, Ref};
use std::alloc::Global;

/// The types of this file and those that they name, as a schema text.
pub const SCHEMA: &str =
    "enum Event { Quit, Key(char), Text(String), Move { x: i32, y: i32 }, Batch(Vec<u32>) }
struct Entry { seconds: u64, event: Event }";

/// An archived `Entry`: 24 bytes at a multiple of 8.
pub struct ArchivedEntry;

type EntryParts = (ArchivedU64, (ArchivedEvent, ()));

type EntryOwned = (u64, (Event, ()));

impl ArchivePointee for ArchivedEntry {
    type ArchivedMetadata = ();

    ghost pointee = { one (parts (part ⟦<ArchivedU64 as Portable>⟧.shape
        (part ⟦<ArchivedEvent as Portable>⟧.shape no_part))) };

    ghost definitions = { no_definition };

    ghost metadata_length = { λ _. 0 };

    fn pointer_metadata(_metadata: &()) -> usize {
        0
    }
}

impl Portable for ArchivedEntry {
    ghost shape = { parts (part ⟦<ArchivedU64 as Portable>⟧.shape
        (part ⟦<ArchivedEvent as Portable>⟧.shape no_part)) };

    ghost layout = { record { size = 24; align = 8 } };

    type Check = ArchivedEntry;

    ghost is_one = { refl };

    ghost is_align = { inr (inr (inr (inl refl))) };

    ghost has_layout = { record { solved = λ s k. refl } };

    ghost no_others = { no_definition_reached (parts (part ⟦<ArchivedU64 as Portable>⟧.shape
        (part ⟦<ArchivedEvent as Portable>⟧.shape no_part))) };

    ghost checks = { λ _. plain_own_check _ _ _ _ _ refl refl refl refl };

    fn size() -> usize {
        24
    }

    fn align() -> usize {
        8
    }

    fn expr(alloc: Global) -> Result<archive_core::shape::Expr, Error> {
        expr_of_record::<EntryParts>(alloc)
    }

    fn define(_alloc: Global, _defs: &mut Defs) -> Result<(), Error> {
        Ok(())
    }
}

impl SelfCheck for ArchivedEntry {
    ghost shape = { parts (part ⟦<ArchivedU64 as Portable>⟧.shape
        (part ⟦<ArchivedEvent as Portable>⟧.shape no_part)) };

    ghost definitions = { (both no_definition (both no_definition no_definition)) };

    ghost span = { 20 };

    ghost direct = { true };

    ghost nameless = { true };

    fn is_direct() -> bool {
        true
    }

    fn is_nameless() -> bool {
        true
    }

    #[inline(always)]
    fn check_at<C: ArchiveContext>(
        bytes: &[u8],
        at: usize,
        refusal: &mut Error,
        context: &mut C,
    ) -> Option<()> {
        RecordCheck::<EntryParts>::check_at(bytes, at, refusal, context)
    }
}

impl Record for ArchivedEntry {
    type Parts = EntryParts;

    ghost has_parts = { plain_record (part ⟦<ArchivedU64 as Portable>⟧.shape
        (part ⟦<ArchivedEvent as Portable>⟧.shape no_part))
        (both no_definition (both no_definition no_definition)) refl };

    ghost holds = { lit≤ tt };
}

/// What is kept of `Entry` between `serialize` and `resolve`.
#[derive(Drop)]
pub struct EntryResolver {
    kept: (
        <u64 as Archive>::Resolver,
        (<Event as Archive>::Resolver, ()),
    ),
}

impl Archive for Entry {
    ghost use Rattle.derived_types.specs.contracts.event.EventArchive.TheImpl.Laws.{keyed-law as keyed_of_event, planned-law as planned_of_event};

    type Archived = ArchivedEntry;

    type Resolver = EntryResolver;

    ghost meaning = { λ v. product (value (⟦<u64 as Archive>⟧.meaning v.seconds)
        (value (⟦<Event as Archive>⟧.meaning v.event) no_value)) };

    ghost flat = { λ v r. product (value (⟦<u64 as Archive>⟧.flat v.seconds r.kept.0)
        (value (⟦<Event as Archive>⟧.flat v.event r.kept.1.0) no_value)) };

    ghost keys = { λ v. ⟦<u64 as Archive>⟧.keys v.seconds
        ++ (⟦<Event as Archive>⟧.keys v.event ++ []) };

    ghost belongs = { λ v r. ⟦<u64 as Archive>⟧.belongs v.seconds r.kept.0
        × (⟦<Event as Archive>⟧.belongs v.event r.kept.1.0 × Unit {0}) };

    ghost in_bulk = { None };

    ghost keyed = { λ v. record_keyed (part_keyed (number_keyed _)
        (part_keyed (keyed_of_event v.event) nothing_keyed)) };

    ghost planned = { λ v. plain_record_planned (both no_definition
        (both no_definition no_definition)) (part ⟦<ArchivedU64 as Portable>⟧.shape
        (part ⟦<ArchivedEvent as Portable>⟧.shape no_part)) _ _
        (part_planned no_definition ⟦<ArchivedU64 as Portable>⟧.shape
        (⟦<u64 as Archive>⟧.keys v.seconds) (⟦<u64 as Archive>⟧.meaning v.seconds)
        (leaf_planned no_definition _ _ [] _ refl) (part_planned no_definition
        ⟦<ArchivedEvent as Portable>⟧.shape (⟦<Event as Archive>⟧.keys v.event)
        (⟦<Event as Archive>⟧.meaning v.event) (planned_of_event v.event) no_part_planned)) refl };

    #[inline(always)]
    fn resolve(
        &self,
        resolver: Self::Resolver,
        place: Place<'_, Self::Archived>,
    ) -> Result<(), Error>
        requires zeroed { ZeroedPlace 24 place.pos place.bytes.now }
        requires same_value { ⟦<Self as Archive>⟧.belongs self.now resolver }
        ensures { ResolvesAs ⟦<Self::Archived as Portable>⟧ place
            (⟦<Self as Archive>⟧.flat self.now resolver) result }
    {
        let Place { bytes, pos, .. } = place;
        let EntryResolver { kept } = resolver;
        resolve_record_2::<u64, Event, ArchivedEntry>(
            &self.seconds,
            &self.event,
            kept,
            Place::new(pos, bytes),
        )
    }

    #[inline(always)]
    fn copy_optimization() -> CopyOptimization<Self> {
        CopyOptimization::disable()
    }

    #[inline(always)]
    fn serialize_copied<S: Writer + Keys>(
        _values: &[Self],
        _together: usize,
        _serializer: &mut S,
    ) -> Result<Option<usize>, Error> {
        Ok(None)
    }
}

impl<S: Writer + ResolverAlloc> Serialize<S> for Entry {
    #[inline(always)]
    fn serialize(&self, serializer: &mut S) -> Result<Self::Resolver, Error> {
        match serialize_record_2::<u64, Event, ArchivedEntry, S>(
            &self.seconds,
            &self.event,
            serializer,
        ) {
            Ok(kept) => Ok(EntryResolver { kept }),
            Err(error) => Err(error),
        }
    }
}

/// As a region of its own: the value itself.
impl ArchiveUnsized for Entry {
    ghost use Rattle.derived_types.specs.contracts.entry.EntryArchive.TheImpl.Laws.{keyed-law as keyed_of_entry, planned-law as planned_of_entry};

    type Archived = ArchivedEntry;

    ghost source_length = { λ _. 0 };

    ghost meaning = { ⟦<Entry as Archive>⟧.meaning };

    ghost keys = { ⟦<Entry as Archive>⟧.keys };

    ghost keyed = { keyed_of_entry };

    ghost one_length = { λ _ _. refl };

    ghost planned = { λ v. one_planned no_definition (parts
        (part ⟦<ArchivedU64 as Portable>⟧.shape (part ⟦<ArchivedEvent as Portable>⟧.shape no_part)))
        (⟦<Entry as Archive>⟧.keys v) (⟦<Entry as Archive>⟧.meaning v) (planned_of_entry v) };

    #[inline(always)]
    fn archived_metadata(&self) -> Result<(), Error> {
        Ok(())
    }
}

impl<S: Writer + ResolverAlloc> SerializeUnsized<S> for Entry {
    #[inline(always)]
    fn serialize_unsized(&self, serializer: &mut S) -> Result<usize, Error> {
        serialize_one(self, serializer)
    }
}

impl<D: Entries> Deserialize<Entry, D> for ArchivedEntry {
    #[inline(always)]
    fn deserialize_part(
        alloc: Global,
        part: RawView<'_>,
        deserializer: &mut D,
    ) -> Result<Entry, Error>
        requires { IsPartOf ⟦<Self as ArchivePointee>⟧ part }
        ensures { ReadsAs ⟦<Self as ArchivePointee>⟧ part D.Entries deserializer
            ⟦<Entry as Archive>⟧ result }
    {
        match deserialize_record::<Self, EntryOwned, D>(alloc, part, deserializer) {
            Ok((a0, (a1, ()))) => Ok(Entry {
                seconds: a0,
                event: a1,
            }),
            Err(error) => Err(error),
        }
    }
}

/// The fields of an archived `Entry`, as views.
pub trait EntryView<'a> {
    /// When it came, in seconds.
    fn seconds(self) -> Ref<'a, ArchivedU64>;

    /// What came.
    fn event(self) -> Ref<'a, ArchivedEvent>;
}

impl<'a> EntryView<'a> for Ref<'a, ArchivedEntry> {
    fn seconds(self) -> Ref<'a, ArchivedU64>
        ensures buffer { result.bytes.now ≡ self.entry.bytes.now }
        ensures position { result.pos ≡ self.entry.pos + 0 }
        ensures length { result.len ≡ 0 }
        ensures shows { ShowsValueOf result self.entry (field_in 0) }
    {
        part_in_record::<ArchivedEntry, ArchivedU64>(self, 0, 0)
    }

    fn event(self) -> Ref<'a, ArchivedEvent>
        ensures buffer { result.bytes.now ≡ self.entry.bytes.now }
        ensures position { result.pos ≡ self.entry.pos + 8 }
        ensures length { result.len ≡ 0 }
        ensures shows { ShowsValueOf result self.entry (field_in 1) }
    {
        part_in_record::<ArchivedEntry, ArchivedEvent>(self, 1, 8)
    }
}

/// The fields of an archived `Entry`, as seals.
pub trait EntrySeal<'a> {
    // The seal shows a part of a buffer that was checked.
    ghost sealed: { Self → Type 0 };

    /// When it came, in seconds.
    fn seconds_mut(self) -> Seal<'a, ArchivedU64>
        requires { sealed self };

    /// What came.
    fn event_mut(self) -> Seal<'a, ArchivedEvent>
        requires { sealed self };
}

impl<'a> EntrySeal<'a> for Seal<'a, ArchivedEntry> {
    ghost sealed = { λ s. IsSealOf no_definition (one ⟦<ArchivedEntry as Portable>⟧.shape) s };

    fn seconds_mut(self) -> Seal<'a, ArchivedU64>
        requires come_to { IsSealOf no_definition (one ⟦<ArchivedEntry as Portable>⟧.shape) self }
        ensures { SealsPart no_definition (one ⟦<ArchivedEntry as Portable>⟧.shape) no_definition
            ⟦<ArchivedU64 as ArchivePointee>⟧.pointee (self.entry.pos + 0) 0 self.entry result }
    {
        sealed_part_in_record::<ArchivedEntry, ArchivedU64>(self, 0, 0)
    }

    fn event_mut(self) -> Seal<'a, ArchivedEvent>
        requires come_to { IsSealOf no_definition (one ⟦<ArchivedEntry as Portable>⟧.shape) self }
        ensures { SealsPart no_definition (one ⟦<ArchivedEntry as Portable>⟧.shape) no_definition
            ⟦<ArchivedEvent as ArchivePointee>⟧.pointee (self.entry.pos + 8) 0 self.entry result }
    {
        sealed_part_in_record::<ArchivedEntry, ArchivedEvent>(self, 1, 8)
    }
}
