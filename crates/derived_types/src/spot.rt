//! Records in records, in one module, three deep.

use crate::event::Event;

/// A place.
#[derive(Debug, PartialEq, Drop)]
pub struct Spot {
    /// To the right.
    pub right: u16,
    /// Up.
    pub up: i16,
}

/// From one place to another.
#[derive(Debug, PartialEq, Drop)]
pub struct Line {
    /// Where it begins.
    pub from: Spot,
    /// Where it ends.
    pub to: Spot,
}

/// Lines.
#[derive(Debug, PartialEq, Drop)]
pub struct Drawing {
    /// The first one.
    pub first: Line,
    /// All of them.
    pub lines: Vec<Line>,
    /// The last one, if there is one.
    pub last: Option<Box<Line>>,
    /// What happened.
    pub event: Event,
}

// Below this line all is written by tools/derive: change what is above it, and run it again.

ghost use Rattle.archive_core.specs.CallOutcomes.{ResolvesAs};
ghost use Rattle.archive_core.specs.Definitions.{both, no_definition};
ghost use Rattle.archive_core.specs.Fields.{field_in};
ghost use Rattle.archive_core.specs.Keyed.{box_keyed, each_keyed, nothing_keyed, number_keyed, part_keyed, record_keyed};
ghost use Rattle.archive_core.specs.LeafLayout.{no_definition_reached};
ghost use Rattle.archive_core.specs.Options.{option_keyed, option_planned};
ghost use Rattle.archive_core.specs.PartsPlanned.{no_part_planned, part_planned};
ghost use Rattle.archive_core.specs.Plain.{plain_own_check, plain_record, plain_record_planned};
ghost use Rattle.archive_core.specs.Planned.{leaf_planned};
ghost use Rattle.archive_core.specs.PlannedOwners.{boxed_one_planned, one_planned, slice_planned, vec_planned};
ghost use Rattle.archive_core.specs.ReadBack.{ReadsAs};
ghost use Rattle.archive_core.specs.SealOutcomes.{IsSealOf, SealsPart};
ghost use Rattle.archive_core.specs.Seen.{IsPartOf, ShowsValueOf};
ghost use Rattle.archive_core.specs.Shape.{no_part, one, part, parts};
ghost use Rattle.archive_core.specs.Value.{no_value, product, value};
ghost use Rattle.archive_core.specs.Writing.{ZeroedPlace};
ghost use Rattle.std.proofs.Common.{inl, inr, lit≤};
ghost use Rattle.std.specs.Prelude.{None, Some, [], length, refl, true, ◌++◌, ◌+◌, ◌≡◌};

use crate::event::ArchivedEvent;
use archive_core::boxed::ArchivedBox;
use archive_core::error::Error;
use archive_core::fields::{
    copy_2, part_in_record, resolve_record_4, serialize_record_2, serialize_record_4,
};
use archive_core::option::ArchivedOption;
use archive_core::place::Place;
use archive_core::primitive::{ArchivedI16, ArchivedU16};
use archive_core::record::deserialize_record;
use archive_core::seal::{Seal, sealed_part_in_record};
use archive_core::self_check::{RecordCheck, SelfCheck};
use archive_core::ser::{ResolverAlloc, Writer, serialize_one};
use archive_core::shape::Defs;
use archive_core::slice::copy_groups;
use archive_core::traits::{
    Archive, ArchivePointee, ArchiveUnsized, Copied, CopiedSource, CopyOptimization, Deserialize,
    Entries, FourParts, Keys, Portable, Record, Serialize, SerializeUnsized, expr_of_record,
};
use archive_core::validation::ArchiveContext;
use archive_core::vec::ArchivedVec;
use archive_core::view::{RawView, Ref};
use std::alloc::Global;

/// An archived `Spot`: 4 bytes at a multiple of 2.
pub struct ArchivedSpot;

type SpotParts = (ArchivedU16, (ArchivedI16, ()));

type SpotOwned = (u16, (i16, ()));

impl ArchivePointee for ArchivedSpot {
    type ArchivedMetadata = ();

    ghost pointee = { one (parts (part ⟦<ArchivedU16 as Portable>⟧.shape
        (part ⟦<ArchivedI16 as Portable>⟧.shape no_part))) };

    ghost definitions = { no_definition };

    ghost metadata_length = { λ _. 0 };

    fn pointer_metadata(_metadata: &()) -> usize {
        0
    }
}

impl Portable for ArchivedSpot {
    ghost shape = { parts (part ⟦<ArchivedU16 as Portable>⟧.shape
        (part ⟦<ArchivedI16 as Portable>⟧.shape no_part)) };

    ghost layout = { record { size = 4; align = 2 } };

    type Check = ArchivedSpot;

    ghost is_one = { refl };

    ghost is_align = { inr (inl refl) };

    ghost has_layout = { record { solved = λ s k. refl } };

    ghost no_others = { no_definition_reached (parts (part ⟦<ArchivedU16 as Portable>⟧.shape
        (part ⟦<ArchivedI16 as Portable>⟧.shape no_part))) };

    ghost checks = { λ _. plain_own_check _ _ _ _ _ refl refl refl refl };

    fn size() -> usize {
        4
    }

    fn align() -> usize {
        2
    }

    fn expr(alloc: Global) -> Result<archive_core::shape::Expr, Error> {
        expr_of_record::<SpotParts>(alloc)
    }

    fn define(_alloc: Global, _defs: &mut Defs) -> Result<(), Error> {
        Ok(())
    }
}

impl SelfCheck for ArchivedSpot {
    ghost shape = { parts (part ⟦<ArchivedU16 as Portable>⟧.shape
        (part ⟦<ArchivedI16 as Portable>⟧.shape no_part)) };

    ghost definitions = { (both no_definition (both no_definition no_definition)) };

    ghost span = { 4 };

    ghost direct = { true };

    ghost nameless = { true };

    fn is_direct() -> bool {
        true
    }

    fn is_nameless() -> bool {
        true
    }

    #[inline(always)]
    fn check_at<C: ArchiveContext>(
        bytes: &[u8],
        at: usize,
        refusal: &mut Error,
        context: &mut C,
    ) -> Option<()> {
        RecordCheck::<SpotParts>::check_at(bytes, at, refusal, context)
    }
}

impl Record for ArchivedSpot {
    type Parts = SpotParts;

    ghost has_parts = { plain_record (part ⟦<ArchivedU16 as Portable>⟧.shape
        (part ⟦<ArchivedI16 as Portable>⟧.shape no_part))
        (both no_definition (both no_definition no_definition)) refl };

    ghost holds = { lit≤ tt };
}

/// What is kept of `Spot` between `serialize` and `resolve`.
#[derive(Drop)]
pub struct SpotResolver {
    kept: (<u16 as Archive>::Resolver, (<i16 as Archive>::Resolver, ())),
}

impl Archive for Spot {
    type Archived = ArchivedSpot;

    type Resolver = SpotResolver;

    ghost meaning = { λ v. product (value (⟦<u16 as Archive>⟧.meaning v.right)
        (value (⟦<i16 as Archive>⟧.meaning v.up) no_value)) };

    ghost flat = { λ v r. product (value (⟦<u16 as Archive>⟧.flat v.right r.kept.0)
        (value (⟦<i16 as Archive>⟧.flat v.up r.kept.1.0) no_value)) };

    ghost keys = { λ v. ⟦<u16 as Archive>⟧.keys v.right ++ (⟦<i16 as Archive>⟧.keys v.up ++ []) };

    ghost belongs = { λ v r. ⟦<u16 as Archive>⟧.belongs v.right r.kept.0
        × (⟦<i16 as Archive>⟧.belongs v.up r.kept.1.0 × Unit {0}) };

    ghost in_bulk = { Some (λ v. ⟦<u16 as Copied>⟧.copied_bytes v.right
        ++ (⟦<i16 as Copied>⟧.copied_bytes v.up ++ [])) };

    ghost keyed = { λ v. record_keyed (part_keyed (number_keyed _)
        (part_keyed (number_keyed _) nothing_keyed)) };

    ghost planned = { λ v. plain_record_planned (both no_definition
        (both no_definition no_definition)) (part ⟦<ArchivedU16 as Portable>⟧.shape
        (part ⟦<ArchivedI16 as Portable>⟧.shape no_part)) _ _
        (part_planned no_definition ⟦<ArchivedU16 as Portable>⟧.shape
        (⟦<u16 as Archive>⟧.keys v.right) (⟦<u16 as Archive>⟧.meaning v.right)
        (leaf_planned no_definition _ _ [] _ refl) (part_planned no_definition
        ⟦<ArchivedI16 as Portable>⟧.shape (⟦<i16 as Archive>⟧.keys v.up)
        (⟦<i16 as Archive>⟧.meaning v.up) (leaf_planned no_definition _ _ [] _ refl)
        no_part_planned)) refl };

    #[inline(always)]
    fn resolve(
        &self,
        resolver: Self::Resolver,
        place: Place<'_, Self::Archived>,
    ) -> Result<(), Error>
        requires zeroed { ZeroedPlace 4 place.pos place.bytes.now }
        requires same_value { ⟦<Self as Archive>⟧.belongs self.now resolver }
        ensures { ResolvesAs ⟦<Self::Archived as Portable>⟧ place
            (⟦<Self as Archive>⟧.flat self.now resolver) result }
    {
        let Place { bytes, .. } = place;
        self.copy_one(bytes);
        Ok(())
    }

    #[inline(always)]
    fn copy_optimization() -> CopyOptimization<Self> {
        CopyOptimization::enable()
    }

    #[inline(always)]
    fn serialize_copied<S: Writer + Keys>(
        values: &[Self],
        together: usize,
        serializer: &mut S,
    ) -> Result<Option<usize>, Error> {
        copy_groups(values, together, serializer)
    }
}

/// Slices of it are written in bulk.
impl Copied for Spot {
    type CopiedAs = ArchivedSpot;

    ghost copied_keys = { λ _. [] };

    ghost copied_meaning = { λ v. product (value (⟦<u16 as Archive>⟧.meaning v.right)
        (value (⟦<i16 as Archive>⟧.meaning v.up) no_value)) };

    ghost copied_bytes = { λ v. ⟦<u16 as Copied>⟧.copied_bytes v.right
        ++ (⟦<i16 as Copied>⟧.copied_bytes v.up ++ []) };

    #[inline(always)]
    fn copied_size() -> usize {
        4
    }

    #[inline(always)]
    fn copy_one(&self, bytes: &mut [u8]) {
        copy_2(&self.right, &self.up, bytes);
    }
}

impl CopiedSource for Spot {
    ghost same_keys = { refl };

    ghost same_meaning = { refl };
}

impl<S: Writer + ResolverAlloc> Serialize<S> for Spot {
    #[inline(always)]
    fn serialize(&self, serializer: &mut S) -> Result<Self::Resolver, Error> {
        match serialize_record_2::<u16, i16, ArchivedSpot, S>(&self.right, &self.up, serializer) {
            Ok(kept) => Ok(SpotResolver { kept }),
            Err(error) => Err(error),
        }
    }
}

/// As a region of its own: the value itself.
impl ArchiveUnsized for Spot {
    ghost use Rattle.derived_types.specs.contracts.spot.SpotArchive.TheImpl.Laws.{keyed-law as keyed_of_spot, planned-law as planned_of_spot};

    type Archived = ArchivedSpot;

    ghost source_length = { λ _. 0 };

    ghost meaning = { ⟦<Spot as Archive>⟧.meaning };

    ghost keys = { ⟦<Spot as Archive>⟧.keys };

    ghost keyed = { keyed_of_spot };

    ghost one_length = { λ _ _. refl };

    ghost planned = { λ v. one_planned no_definition (parts
        (part ⟦<ArchivedU16 as Portable>⟧.shape (part ⟦<ArchivedI16 as Portable>⟧.shape no_part)))
        (⟦<Spot as Archive>⟧.keys v) (⟦<Spot as Archive>⟧.meaning v) (planned_of_spot v) };

    #[inline(always)]
    fn archived_metadata(&self) -> Result<(), Error> {
        Ok(())
    }
}

impl<S: Writer + ResolverAlloc> SerializeUnsized<S> for Spot {
    #[inline(always)]
    fn serialize_unsized(&self, serializer: &mut S) -> Result<usize, Error> {
        serialize_one(self, serializer)
    }
}

impl<D: Entries> Deserialize<Spot, D> for ArchivedSpot {
    #[inline(always)]
    fn deserialize_part(
        alloc: Global,
        part: RawView<'_>,
        deserializer: &mut D,
    ) -> Result<Spot, Error>
        requires { IsPartOf ⟦<Self as ArchivePointee>⟧ part }
        ensures { ReadsAs ⟦<Self as ArchivePointee>⟧ part D.Entries deserializer ⟦<Spot as Archive>⟧
            result }
    {
        match deserialize_record::<Self, SpotOwned, D>(alloc, part, deserializer) {
            Ok((a0, (a1, ()))) => Ok(Spot { right: a0, up: a1 }),
            Err(error) => Err(error),
        }
    }
}

/// The fields of an archived `Spot`, as views.
pub trait SpotView<'a> {
    /// To the right.
    fn right(self) -> Ref<'a, ArchivedU16>;

    /// Up.
    fn up(self) -> Ref<'a, ArchivedI16>;
}

impl<'a> SpotView<'a> for Ref<'a, ArchivedSpot> {
    fn right(self) -> Ref<'a, ArchivedU16>
        ensures buffer { result.bytes.now ≡ self.entry.bytes.now }
        ensures position { result.pos ≡ self.entry.pos + 0 }
        ensures length { result.len ≡ 0 }
        ensures shows { ShowsValueOf result self.entry (field_in 0) }
    {
        part_in_record::<ArchivedSpot, ArchivedU16>(self, 0, 0)
    }

    fn up(self) -> Ref<'a, ArchivedI16>
        ensures buffer { result.bytes.now ≡ self.entry.bytes.now }
        ensures position { result.pos ≡ self.entry.pos + 2 }
        ensures length { result.len ≡ 0 }
        ensures shows { ShowsValueOf result self.entry (field_in 1) }
    {
        part_in_record::<ArchivedSpot, ArchivedI16>(self, 1, 2)
    }
}

/// The fields of an archived `Spot`, as seals.
pub trait SpotSeal<'a> {
    // The seal shows a part of a buffer that was checked.
    ghost sealed: { Self → Type 0 };

    /// To the right.
    fn right_mut(self) -> Seal<'a, ArchivedU16>
        requires { sealed self };

    /// Up.
    fn up_mut(self) -> Seal<'a, ArchivedI16>
        requires { sealed self };
}

impl<'a> SpotSeal<'a> for Seal<'a, ArchivedSpot> {
    ghost sealed = { λ s. IsSealOf no_definition (one ⟦<ArchivedSpot as Portable>⟧.shape) s };

    fn right_mut(self) -> Seal<'a, ArchivedU16>
        requires come_to { IsSealOf no_definition (one ⟦<ArchivedSpot as Portable>⟧.shape) self }
        ensures { SealsPart no_definition (one ⟦<ArchivedSpot as Portable>⟧.shape) no_definition
            ⟦<ArchivedU16 as ArchivePointee>⟧.pointee (self.entry.pos + 0) 0 self.entry result }
    {
        sealed_part_in_record::<ArchivedSpot, ArchivedU16>(self, 0, 0)
    }

    fn up_mut(self) -> Seal<'a, ArchivedI16>
        requires come_to { IsSealOf no_definition (one ⟦<ArchivedSpot as Portable>⟧.shape) self }
        ensures { SealsPart no_definition (one ⟦<ArchivedSpot as Portable>⟧.shape) no_definition
            ⟦<ArchivedI16 as ArchivePointee>⟧.pointee (self.entry.pos + 2) 0 self.entry result }
    {
        sealed_part_in_record::<ArchivedSpot, ArchivedI16>(self, 1, 2)
    }
}

/// An archived `Line`: 8 bytes at a multiple of 2.
pub struct ArchivedLine;

type LineParts = (ArchivedSpot, (ArchivedSpot, ()));

type LineOwned = (Spot, (Spot, ()));

impl ArchivePointee for ArchivedLine {
    type ArchivedMetadata = ();

    ghost pointee = { one (parts (part ⟦<ArchivedSpot as Portable>⟧.shape
        (part ⟦<ArchivedSpot as Portable>⟧.shape no_part))) };

    ghost definitions = { no_definition };

    ghost metadata_length = { λ _. 0 };

    fn pointer_metadata(_metadata: &()) -> usize {
        0
    }
}

impl Portable for ArchivedLine {
    ghost shape = { parts (part ⟦<ArchivedSpot as Portable>⟧.shape
        (part ⟦<ArchivedSpot as Portable>⟧.shape no_part)) };

    ghost layout = { record { size = 8; align = 2 } };

    type Check = ArchivedLine;

    ghost is_one = { refl };

    ghost is_align = { inr (inl refl) };

    ghost has_layout = { record { solved = λ s k. refl } };

    ghost no_others = { no_definition_reached (parts (part ⟦<ArchivedSpot as Portable>⟧.shape
        (part ⟦<ArchivedSpot as Portable>⟧.shape no_part))) };

    ghost checks = { λ _. plain_own_check _ _ _ _ _ refl refl refl refl };

    fn size() -> usize {
        8
    }

    fn align() -> usize {
        2
    }

    fn expr(alloc: Global) -> Result<archive_core::shape::Expr, Error> {
        expr_of_record::<LineParts>(alloc)
    }

    fn define(_alloc: Global, _defs: &mut Defs) -> Result<(), Error> {
        Ok(())
    }
}

impl SelfCheck for ArchivedLine {
    ghost shape = { parts (part ⟦<ArchivedSpot as Portable>⟧.shape
        (part ⟦<ArchivedSpot as Portable>⟧.shape no_part)) };

    ghost definitions = { (both no_definition (both no_definition no_definition)) };

    ghost span = { 8 };

    ghost direct = { true };

    ghost nameless = { true };

    fn is_direct() -> bool {
        true
    }

    fn is_nameless() -> bool {
        true
    }

    #[inline(always)]
    fn check_at<C: ArchiveContext>(
        bytes: &[u8],
        at: usize,
        refusal: &mut Error,
        context: &mut C,
    ) -> Option<()> {
        RecordCheck::<LineParts>::check_at(bytes, at, refusal, context)
    }
}

impl Record for ArchivedLine {
    type Parts = LineParts;

    ghost has_parts = { plain_record (part ⟦<ArchivedSpot as Portable>⟧.shape
        (part ⟦<ArchivedSpot as Portable>⟧.shape no_part))
        (both no_definition (both no_definition no_definition)) refl };

    ghost holds = { lit≤ tt };
}

/// What is kept of `Line` between `serialize` and `resolve`.
#[derive(Drop)]
pub struct LineResolver {
    kept: (
        <Spot as Archive>::Resolver,
        (<Spot as Archive>::Resolver, ()),
    ),
}

impl Archive for Line {
    ghost use Rattle.derived_types.specs.contracts.spot.SpotArchive.TheImpl.Laws.{keyed-law as keyed_of_spot, planned-law as planned_of_spot};

    type Archived = ArchivedLine;

    type Resolver = LineResolver;

    ghost meaning = { λ v. product (value (⟦<Spot as Archive>⟧.meaning v.from)
        (value (⟦<Spot as Archive>⟧.meaning v.to) no_value)) };

    ghost flat = { λ v r. product (value (⟦<Spot as Archive>⟧.flat v.from r.kept.0)
        (value (⟦<Spot as Archive>⟧.flat v.to r.kept.1.0) no_value)) };

    ghost keys = { λ v. ⟦<Spot as Archive>⟧.keys v.from ++ (⟦<Spot as Archive>⟧.keys v.to ++ []) };

    ghost belongs = { λ v r. ⟦<Spot as Archive>⟧.belongs v.from r.kept.0
        × (⟦<Spot as Archive>⟧.belongs v.to r.kept.1.0 × Unit {0}) };

    ghost in_bulk = { Some (λ v. ⟦<Spot as Copied>⟧.copied_bytes v.from
        ++ (⟦<Spot as Copied>⟧.copied_bytes v.to ++ [])) };

    ghost keyed = { λ v. record_keyed (part_keyed (keyed_of_spot v.from)
        (part_keyed (keyed_of_spot v.to) nothing_keyed)) };

    ghost planned = { λ v. plain_record_planned (both no_definition
        (both no_definition no_definition)) (part ⟦<ArchivedSpot as Portable>⟧.shape
        (part ⟦<ArchivedSpot as Portable>⟧.shape no_part)) _ _
        (part_planned no_definition ⟦<ArchivedSpot as Portable>⟧.shape
        (⟦<Spot as Archive>⟧.keys v.from) (⟦<Spot as Archive>⟧.meaning v.from)
        (planned_of_spot v.from) (part_planned no_definition ⟦<ArchivedSpot as Portable>⟧.shape
        (⟦<Spot as Archive>⟧.keys v.to) (⟦<Spot as Archive>⟧.meaning v.to) (planned_of_spot v.to)
        no_part_planned)) refl };

    #[inline(always)]
    fn resolve(
        &self,
        resolver: Self::Resolver,
        place: Place<'_, Self::Archived>,
    ) -> Result<(), Error>
        requires zeroed { ZeroedPlace 8 place.pos place.bytes.now }
        requires same_value { ⟦<Self as Archive>⟧.belongs self.now resolver }
        ensures { ResolvesAs ⟦<Self::Archived as Portable>⟧ place
            (⟦<Self as Archive>⟧.flat self.now resolver) result }
    {
        let Place { bytes, .. } = place;
        self.copy_one(bytes);
        Ok(())
    }

    #[inline(always)]
    fn copy_optimization() -> CopyOptimization<Self> {
        CopyOptimization::enable()
    }

    #[inline(always)]
    fn serialize_copied<S: Writer + Keys>(
        values: &[Self],
        together: usize,
        serializer: &mut S,
    ) -> Result<Option<usize>, Error> {
        copy_groups(values, together, serializer)
    }
}

/// Slices of it are written in bulk.
impl Copied for Line {
    type CopiedAs = ArchivedLine;

    ghost copied_keys = { λ _. [] };

    ghost copied_meaning = { λ v. product (value (⟦<Spot as Archive>⟧.meaning v.from)
        (value (⟦<Spot as Archive>⟧.meaning v.to) no_value)) };

    ghost copied_bytes = { λ v. ⟦<Spot as Copied>⟧.copied_bytes v.from
        ++ (⟦<Spot as Copied>⟧.copied_bytes v.to ++ []) };

    #[inline(always)]
    fn copied_size() -> usize {
        8
    }

    #[inline(always)]
    fn copy_one(&self, bytes: &mut [u8]) {
        copy_2(&self.from, &self.to, bytes);
    }
}

impl CopiedSource for Line {
    ghost same_keys = { refl };

    ghost same_meaning = { refl };
}

impl<S: Writer + ResolverAlloc> Serialize<S> for Line {
    #[inline(always)]
    fn serialize(&self, serializer: &mut S) -> Result<Self::Resolver, Error> {
        match serialize_record_2::<Spot, Spot, ArchivedLine, S>(&self.from, &self.to, serializer) {
            Ok(kept) => Ok(LineResolver { kept }),
            Err(error) => Err(error),
        }
    }
}

/// As a region of its own: the value itself.
impl ArchiveUnsized for Line {
    ghost use Rattle.derived_types.specs.contracts.spot.LineArchive.TheImpl.Laws.{keyed-law as keyed_of_line, planned-law as planned_of_line};

    type Archived = ArchivedLine;

    ghost source_length = { λ _. 0 };

    ghost meaning = { ⟦<Line as Archive>⟧.meaning };

    ghost keys = { ⟦<Line as Archive>⟧.keys };

    ghost keyed = { keyed_of_line };

    ghost one_length = { λ _ _. refl };

    ghost planned = { λ v. one_planned no_definition (parts
        (part ⟦<ArchivedSpot as Portable>⟧.shape (part ⟦<ArchivedSpot as Portable>⟧.shape no_part)))
        (⟦<Line as Archive>⟧.keys v) (⟦<Line as Archive>⟧.meaning v) (planned_of_line v) };

    #[inline(always)]
    fn archived_metadata(&self) -> Result<(), Error> {
        Ok(())
    }
}

impl<S: Writer + ResolverAlloc> SerializeUnsized<S> for Line {
    #[inline(always)]
    fn serialize_unsized(&self, serializer: &mut S) -> Result<usize, Error> {
        serialize_one(self, serializer)
    }
}

impl<D: Entries> Deserialize<Line, D> for ArchivedLine {
    #[inline(always)]
    fn deserialize_part(
        alloc: Global,
        part: RawView<'_>,
        deserializer: &mut D,
    ) -> Result<Line, Error>
        requires { IsPartOf ⟦<Self as ArchivePointee>⟧ part }
        ensures { ReadsAs ⟦<Self as ArchivePointee>⟧ part D.Entries deserializer ⟦<Line as Archive>⟧
            result }
    {
        match deserialize_record::<Self, LineOwned, D>(alloc, part, deserializer) {
            Ok((a0, (a1, ()))) => Ok(Line { from: a0, to: a1 }),
            Err(error) => Err(error),
        }
    }
}

/// The fields of an archived `Line`, as views.
pub trait LineView<'a> {
    /// Where it begins.
    fn from(self) -> Ref<'a, ArchivedSpot>;

    /// Where it ends.
    fn to(self) -> Ref<'a, ArchivedSpot>;
}

impl<'a> LineView<'a> for Ref<'a, ArchivedLine> {
    fn from(self) -> Ref<'a, ArchivedSpot>
        ensures buffer { result.bytes.now ≡ self.entry.bytes.now }
        ensures position { result.pos ≡ self.entry.pos + 0 }
        ensures length { result.len ≡ 0 }
        ensures shows { ShowsValueOf result self.entry (field_in 0) }
    {
        part_in_record::<ArchivedLine, ArchivedSpot>(self, 0, 0)
    }

    fn to(self) -> Ref<'a, ArchivedSpot>
        ensures buffer { result.bytes.now ≡ self.entry.bytes.now }
        ensures position { result.pos ≡ self.entry.pos + 4 }
        ensures length { result.len ≡ 0 }
        ensures shows { ShowsValueOf result self.entry (field_in 1) }
    {
        part_in_record::<ArchivedLine, ArchivedSpot>(self, 1, 4)
    }
}

/// The fields of an archived `Line`, as seals.
pub trait LineSeal<'a> {
    // The seal shows a part of a buffer that was checked.
    ghost sealed: { Self → Type 0 };

    /// Where it begins.
    fn from_mut(self) -> Seal<'a, ArchivedSpot>
        requires { sealed self };

    /// Where it ends.
    fn to_mut(self) -> Seal<'a, ArchivedSpot>
        requires { sealed self };
}

impl<'a> LineSeal<'a> for Seal<'a, ArchivedLine> {
    ghost sealed = { λ s. IsSealOf no_definition (one ⟦<ArchivedLine as Portable>⟧.shape) s };

    fn from_mut(self) -> Seal<'a, ArchivedSpot>
        requires come_to { IsSealOf no_definition (one ⟦<ArchivedLine as Portable>⟧.shape) self }
        ensures { SealsPart no_definition (one ⟦<ArchivedLine as Portable>⟧.shape) no_definition
            ⟦<ArchivedSpot as ArchivePointee>⟧.pointee (self.entry.pos + 0) 0 self.entry result }
    {
        sealed_part_in_record::<ArchivedLine, ArchivedSpot>(self, 0, 0)
    }

    fn to_mut(self) -> Seal<'a, ArchivedSpot>
        requires come_to { IsSealOf no_definition (one ⟦<ArchivedLine as Portable>⟧.shape) self }
        ensures { SealsPart no_definition (one ⟦<ArchivedLine as Portable>⟧.shape) no_definition
            ⟦<ArchivedSpot as ArchivePointee>⟧.pointee (self.entry.pos + 4) 0 self.entry result }
    {
        sealed_part_in_record::<ArchivedLine, ArchivedSpot>(self, 1, 4)
    }
}

/// An archived `Drawing`: 36 bytes at a multiple of 4.
pub struct ArchivedDrawing;

type DrawingParts = FourParts<
    ArchivedLine,
    ArchivedVec<ArchivedLine>,
    ArchivedOption<ArchivedBox<ArchivedLine>>,
    ArchivedEvent,
    (),
>;

type DrawingOwned = FourParts<Line, Vec<Line>, Option<Box<Line>>, Event, ()>;

impl ArchivePointee for ArchivedDrawing {
    type ArchivedMetadata = ();

    ghost pointee = { one (parts (part ⟦<ArchivedLine as Portable>⟧.shape
        (part ⟦<ArchivedVec<ArchivedLine> as Portable>⟧.shape
        (part ⟦<ArchivedOption<ArchivedBox<ArchivedLine>> as Portable>⟧.shape
        (part ⟦<ArchivedEvent as Portable>⟧.shape no_part))))) };

    ghost definitions = { no_definition };

    ghost metadata_length = { λ _. 0 };

    fn pointer_metadata(_metadata: &()) -> usize {
        0
    }
}

impl Portable for ArchivedDrawing {
    ghost shape = { parts (part ⟦<ArchivedLine as Portable>⟧.shape
        (part ⟦<ArchivedVec<ArchivedLine> as Portable>⟧.shape
        (part ⟦<ArchivedOption<ArchivedBox<ArchivedLine>> as Portable>⟧.shape
        (part ⟦<ArchivedEvent as Portable>⟧.shape no_part)))) };

    ghost layout = { record { size = 36; align = 4 } };

    type Check = ArchivedDrawing;

    ghost is_one = { refl };

    ghost is_align = { inr (inr (inl refl)) };

    ghost has_layout = { record { solved = λ s k. refl } };

    ghost no_others = { no_definition_reached (parts (part ⟦<ArchivedLine as Portable>⟧.shape
        (part ⟦<ArchivedVec<ArchivedLine> as Portable>⟧.shape
        (part ⟦<ArchivedOption<ArchivedBox<ArchivedLine>> as Portable>⟧.shape
        (part ⟦<ArchivedEvent as Portable>⟧.shape no_part))))) };

    ghost checks = { λ _. plain_own_check _ _ _ _ _ refl refl refl refl };

    fn size() -> usize {
        36
    }

    fn align() -> usize {
        4
    }

    fn expr(alloc: Global) -> Result<archive_core::shape::Expr, Error> {
        expr_of_record::<DrawingParts>(alloc)
    }

    fn define(_alloc: Global, _defs: &mut Defs) -> Result<(), Error> {
        Ok(())
    }
}

impl SelfCheck for ArchivedDrawing {
    ghost shape = { parts (part ⟦<ArchivedLine as Portable>⟧.shape
        (part ⟦<ArchivedVec<ArchivedLine> as Portable>⟧.shape
        (part ⟦<ArchivedOption<ArchivedBox<ArchivedLine>> as Portable>⟧.shape
        (part ⟦<ArchivedEvent as Portable>⟧.shape no_part)))) };

    ghost definitions = { (both no_definition (both no_definition
        (both no_definition (both no_definition no_definition)))) };

    ghost span = { 36 };

    ghost direct = { true };

    ghost nameless = { true };

    fn is_direct() -> bool {
        true
    }

    fn is_nameless() -> bool {
        true
    }

    #[inline(always)]
    fn check_at<C: ArchiveContext>(
        bytes: &[u8],
        at: usize,
        refusal: &mut Error,
        context: &mut C,
    ) -> Option<()> {
        RecordCheck::<DrawingParts>::check_at(bytes, at, refusal, context)
    }
}

impl Record for ArchivedDrawing {
    type Parts = DrawingParts;

    ghost has_parts = { plain_record (part ⟦<ArchivedLine as Portable>⟧.shape
        (part ⟦<ArchivedVec<ArchivedLine> as Portable>⟧.shape
        (part ⟦<ArchivedOption<ArchivedBox<ArchivedLine>> as Portable>⟧.shape
        (part ⟦<ArchivedEvent as Portable>⟧.shape no_part))))
        (both no_definition (both no_definition (both no_definition
        (both no_definition no_definition)))) refl };

    ghost holds = { lit≤ tt };
}

/// What is kept of `Drawing` between `serialize` and `resolve`.
#[derive(Drop)]
pub struct DrawingResolver {
    kept: (
        <Line as Archive>::Resolver,
        (
            <Vec<Line> as Archive>::Resolver,
            (
                <Option<Box<Line>> as Archive>::Resolver,
                (<Event as Archive>::Resolver, ()),
            ),
        ),
    ),
}

impl Archive for Drawing {
    ghost use Rattle.derived_types.specs.contracts.event.EventArchive.TheImpl.Laws.{keyed-law as keyed_of_event, planned-law as planned_of_event};
    ghost use Rattle.derived_types.specs.contracts.spot.LineArchive.TheImpl.Laws.{keyed-law as keyed_of_line, planned-law as planned_of_line};

    type Archived = ArchivedDrawing;

    type Resolver = DrawingResolver;

    ghost meaning = { λ v. product (value (⟦<Line as Archive>⟧.meaning v.first)
        (value (⟦<Vec<Line> as Archive>⟧.meaning v.lines)
        (value (⟦<Option<Box<Line>> as Archive>⟧.meaning v.last)
        (value (⟦<Event as Archive>⟧.meaning v.event) no_value)))) };

    ghost flat = { λ v r. product (value (⟦<Line as Archive>⟧.flat v.first r.kept.0)
        (value (⟦<Vec<Line> as Archive>⟧.flat v.lines r.kept.1.0)
        (value (⟦<Option<Box<Line>> as Archive>⟧.flat v.last r.kept.1.1.0)
        (value (⟦<Event as Archive>⟧.flat v.event r.kept.1.1.1.0) no_value)))) };

    ghost keys = { λ v. ⟦<Line as Archive>⟧.keys v.first
        ++ (⟦<Vec<Line> as Archive>⟧.keys v.lines ++ (⟦<Option<Box<Line>> as Archive>⟧.keys v.last
        ++ (⟦<Event as Archive>⟧.keys v.event ++ []))) };

    ghost belongs = { λ v r. ⟦<Line as Archive>⟧.belongs v.first r.kept.0
        × (⟦<Vec<Line> as Archive>⟧.belongs v.lines r.kept.1.0
        × (⟦<Option<Box<Line>> as Archive>⟧.belongs v.last r.kept.1.1.0
        × (⟦<Event as Archive>⟧.belongs v.event r.kept.1.1.1.0 × Unit {0}))) };

    ghost in_bulk = { None };

    ghost keyed = { λ v. record_keyed (part_keyed (keyed_of_line v.first)
        (part_keyed (each_keyed ⟦<Line as Archive>⟧.keys ⟦<Line as Archive>⟧.meaning keyed_of_line
        v.lines.items) (part_keyed (option_keyed ⟦<Box<Line> as Archive>⟧.keys
        ⟦<Box<Line> as Archive>⟧.meaning (λ x. box_keyed (⟦<Line as Archive>⟧.keys x.value)
        (⟦<Line as Archive>⟧.meaning x.value) (keyed_of_line x.value)) v.last)
        (part_keyed (keyed_of_event v.event) nothing_keyed)))) };

    ghost planned = { λ v. plain_record_planned (both no_definition
        (both no_definition (both no_definition (both no_definition no_definition))))
        (part ⟦<ArchivedLine as Portable>⟧.shape
        (part ⟦<ArchivedVec<ArchivedLine> as Portable>⟧.shape
        (part ⟦<ArchivedOption<ArchivedBox<ArchivedLine>> as Portable>⟧.shape
        (part ⟦<ArchivedEvent as Portable>⟧.shape no_part)))) _ _
        (part_planned no_definition ⟦<ArchivedLine as Portable>⟧.shape
        (⟦<Line as Archive>⟧.keys v.first) (⟦<Line as Archive>⟧.meaning v.first)
        (planned_of_line v.first) (part_planned no_definition
        ⟦<ArchivedVec<ArchivedLine> as Portable>⟧.shape (⟦<Vec<Line> as Archive>⟧.keys v.lines)
        (⟦<Vec<Line> as Archive>⟧.meaning v.lines) (vec_planned no_definition
        ⟦<ArchivedLine as Portable>⟧.shape _ _ _ (slice_planned no_definition
        ⟦<ArchivedLine as Portable>⟧.shape ⟦<Line as Archive>⟧.keys ⟦<Line as Archive>⟧.meaning
        planned_of_line v.lines.items)) (part_planned no_definition
        ⟦<ArchivedOption<ArchivedBox<ArchivedLine>> as Portable>⟧.shape
        (⟦<Option<Box<Line>> as Archive>⟧.keys v.last) (⟦<Option<Box<Line>> as Archive>⟧.meaning
        v.last) (option_planned no_definition ⟦<ArchivedBox<ArchivedLine> as Portable>⟧.shape
        ⟦<Box<Line> as Archive>⟧.keys ⟦<Box<Line> as Archive>⟧.meaning
        (λ x. boxed_one_planned no_definition (one ⟦<ArchivedLine as Portable>⟧.shape)
        ⟦<ArchivedLine as Portable>⟧.shape refl (⟦<Line as Archive>⟧.keys x.value)
        (⟦<Line as Archive>⟧.meaning x.value) (planned_of_line x.value)) v.last)
        (part_planned no_definition ⟦<ArchivedEvent as Portable>⟧.shape
        (⟦<Event as Archive>⟧.keys v.event) (⟦<Event as Archive>⟧.meaning v.event)
        (planned_of_event v.event) no_part_planned)))) refl };

    #[inline(always)]
    fn resolve(
        &self,
        resolver: Self::Resolver,
        place: Place<'_, Self::Archived>,
    ) -> Result<(), Error>
        requires zeroed { ZeroedPlace 36 place.pos place.bytes.now }
        requires same_value { ⟦<Self as Archive>⟧.belongs self.now resolver }
        ensures { ResolvesAs ⟦<Self::Archived as Portable>⟧ place
            (⟦<Self as Archive>⟧.flat self.now resolver) result }
    {
        let Place { bytes, pos, .. } = place;
        let DrawingResolver { kept } = resolver;
        resolve_record_4::<Line, Vec<Line>, Option<Box<Line>>, Event, ArchivedDrawing>(
            &self.first,
            &self.lines,
            &self.last,
            &self.event,
            kept,
            Place::new(pos, bytes),
        )
    }

    #[inline(always)]
    fn copy_optimization() -> CopyOptimization<Self> {
        CopyOptimization::disable()
    }

    #[inline(always)]
    fn serialize_copied<S: Writer + Keys>(
        _values: &[Self],
        _together: usize,
        _serializer: &mut S,
    ) -> Result<Option<usize>, Error> {
        Ok(None)
    }
}

impl<S: Writer + ResolverAlloc> Serialize<S> for Drawing {
    #[inline(always)]
    fn serialize(&self, serializer: &mut S) -> Result<Self::Resolver, Error> {
        match serialize_record_4::<Line, Vec<Line>, Option<Box<Line>>, Event, ArchivedDrawing, S>(
            &self.first,
            &self.lines,
            &self.last,
            &self.event,
            serializer,
        ) {
            Ok(kept) => Ok(DrawingResolver { kept }),
            Err(error) => Err(error),
        }
    }
}

/// As a region of its own: the value itself.
impl ArchiveUnsized for Drawing {
    ghost use Rattle.derived_types.specs.contracts.spot.DrawingArchive.TheImpl.Laws.{keyed-law as keyed_of_drawing, planned-law as planned_of_drawing};

    type Archived = ArchivedDrawing;

    ghost source_length = { λ _. 0 };

    ghost meaning = { ⟦<Drawing as Archive>⟧.meaning };

    ghost keys = { ⟦<Drawing as Archive>⟧.keys };

    ghost keyed = { keyed_of_drawing };

    ghost one_length = { λ _ _. refl };

    ghost planned = { λ v. one_planned no_definition (parts
        (part ⟦<ArchivedLine as Portable>⟧.shape
        (part ⟦<ArchivedVec<ArchivedLine> as Portable>⟧.shape
        (part ⟦<ArchivedOption<ArchivedBox<ArchivedLine>> as Portable>⟧.shape
        (part ⟦<ArchivedEvent as Portable>⟧.shape no_part))))) (⟦<Drawing as Archive>⟧.keys v)
        (⟦<Drawing as Archive>⟧.meaning v) (planned_of_drawing v) };

    #[inline(always)]
    fn archived_metadata(&self) -> Result<(), Error> {
        Ok(())
    }
}

impl<S: Writer + ResolverAlloc> SerializeUnsized<S> for Drawing {
    #[inline(always)]
    fn serialize_unsized(&self, serializer: &mut S) -> Result<usize, Error> {
        serialize_one(self, serializer)
    }
}

impl<D: Entries> Deserialize<Drawing, D> for ArchivedDrawing {
    #[inline(always)]
    fn deserialize_part(
        alloc: Global,
        part: RawView<'_>,
        deserializer: &mut D,
    ) -> Result<Drawing, Error>
        requires { IsPartOf ⟦<Self as ArchivePointee>⟧ part }
        ensures { ReadsAs ⟦<Self as ArchivePointee>⟧ part D.Entries deserializer
            ⟦<Drawing as Archive>⟧ result }
    {
        match deserialize_record::<Self, DrawingOwned, D>(alloc, part, deserializer) {
            Ok(
                FourParts {
                    first: a0,
                    second: a1,
                    third: a2,
                    fourth: a3,
                    rest: (),
                },
            ) => Ok(Drawing {
                first: a0,
                lines: a1,
                last: a2,
                event: a3,
            }),
            Err(error) => Err(error),
        }
    }
}

/// The fields of an archived `Drawing`, as views.
pub trait DrawingView<'a> {
    /// The first one.
    fn first(self) -> Ref<'a, ArchivedLine>;

    /// All of them.
    fn lines(self) -> Ref<'a, ArchivedVec<ArchivedLine>>;

    /// The last one, if there is one.
    fn last(self) -> Ref<'a, ArchivedOption<ArchivedBox<ArchivedLine>>>;

    /// What happened.
    fn event(self) -> Ref<'a, ArchivedEvent>;
}

impl<'a> DrawingView<'a> for Ref<'a, ArchivedDrawing> {
    fn first(self) -> Ref<'a, ArchivedLine>
        ensures buffer { result.bytes.now ≡ self.entry.bytes.now }
        ensures position { result.pos ≡ self.entry.pos + 0 }
        ensures length { result.len ≡ 0 }
        ensures shows { ShowsValueOf result self.entry (field_in 0) }
    {
        part_in_record::<ArchivedDrawing, ArchivedLine>(self, 0, 0)
    }

    fn lines(self) -> Ref<'a, ArchivedVec<ArchivedLine>>
        ensures buffer { result.bytes.now ≡ self.entry.bytes.now }
        ensures position { result.pos ≡ self.entry.pos + 8 }
        ensures length { result.len ≡ 0 }
        ensures shows { ShowsValueOf result self.entry (field_in 1) }
    {
        part_in_record::<ArchivedDrawing, ArchivedVec<ArchivedLine>>(self, 1, 8)
    }

    fn last(self) -> Ref<'a, ArchivedOption<ArchivedBox<ArchivedLine>>>
        ensures buffer { result.bytes.now ≡ self.entry.bytes.now }
        ensures position { result.pos ≡ self.entry.pos + 16 }
        ensures length { result.len ≡ 0 }
        ensures shows { ShowsValueOf result self.entry (field_in 2) }
    {
        part_in_record::<ArchivedDrawing, ArchivedOption<ArchivedBox<ArchivedLine>>>(self, 2, 16)
    }

    fn event(self) -> Ref<'a, ArchivedEvent>
        ensures buffer { result.bytes.now ≡ self.entry.bytes.now }
        ensures position { result.pos ≡ self.entry.pos + 24 }
        ensures length { result.len ≡ 0 }
        ensures shows { ShowsValueOf result self.entry (field_in 3) }
    {
        part_in_record::<ArchivedDrawing, ArchivedEvent>(self, 3, 24)
    }
}

/// The fields of an archived `Drawing`, as seals.
pub trait DrawingSeal<'a> {
    // The seal shows a part of a buffer that was checked.
    ghost sealed: { Self → Type 0 };

    /// The first one.
    fn first_mut(self) -> Seal<'a, ArchivedLine>
        requires { sealed self };

    /// All of them.
    fn lines_mut(self) -> Seal<'a, ArchivedVec<ArchivedLine>>
        requires { sealed self };

    /// The last one, if there is one.
    fn last_mut(self) -> Seal<'a, ArchivedOption<ArchivedBox<ArchivedLine>>>
        requires { sealed self };

    /// What happened.
    fn event_mut(self) -> Seal<'a, ArchivedEvent>
        requires { sealed self };
}

impl<'a> DrawingSeal<'a> for Seal<'a, ArchivedDrawing> {
    ghost sealed = { λ s. IsSealOf no_definition (one ⟦<ArchivedDrawing as Portable>⟧.shape) s };

    fn first_mut(self) -> Seal<'a, ArchivedLine>
        requires come_to { IsSealOf no_definition (one ⟦<ArchivedDrawing as Portable>⟧.shape) self }
        ensures { SealsPart no_definition (one ⟦<ArchivedDrawing as Portable>⟧.shape) no_definition
            ⟦<ArchivedLine as ArchivePointee>⟧.pointee (self.entry.pos + 0) 0 self.entry result }
    {
        sealed_part_in_record::<ArchivedDrawing, ArchivedLine>(self, 0, 0)
    }

    fn lines_mut(self) -> Seal<'a, ArchivedVec<ArchivedLine>>
        requires come_to { IsSealOf no_definition (one ⟦<ArchivedDrawing as Portable>⟧.shape) self }
        ensures { SealsPart no_definition (one ⟦<ArchivedDrawing as Portable>⟧.shape) no_definition
            ⟦<ArchivedVec<ArchivedLine> as ArchivePointee>⟧.pointee (self.entry.pos + 8) 0
            self.entry result }
    {
        sealed_part_in_record::<ArchivedDrawing, ArchivedVec<ArchivedLine>>(self, 1, 8)
    }

    fn last_mut(self) -> Seal<'a, ArchivedOption<ArchivedBox<ArchivedLine>>>
        requires come_to { IsSealOf no_definition (one ⟦<ArchivedDrawing as Portable>⟧.shape) self }
        ensures { SealsPart no_definition (one ⟦<ArchivedDrawing as Portable>⟧.shape) no_definition
            ⟦<ArchivedOption<ArchivedBox<ArchivedLine>> as ArchivePointee>⟧.pointee
            (self.entry.pos + 16) 0 self.entry result }
    {
        sealed_part_in_record::<ArchivedDrawing, ArchivedOption<ArchivedBox<ArchivedLine>>>(
            self, 2, 16,
        )
    }

    fn event_mut(self) -> Seal<'a, ArchivedEvent>
        requires come_to { IsSealOf no_definition (one ⟦<ArchivedDrawing as Portable>⟧.shape) self }
        ensures { SealsPart no_definition (one ⟦<ArchivedDrawing as Portable>⟧.shape) no_definition
            ⟦<ArchivedEvent as ArchivePointee>⟧.pointee (self.entry.pos + 24) 0 self.entry result }
    {
        sealed_part_in_record::<ArchivedDrawing, ArchivedEvent>(self, 3, 24)
    }
}
