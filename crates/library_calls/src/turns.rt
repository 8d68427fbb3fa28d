//! Fields and variants of one type each, which only their order and their tags tell apart: wrong bodies of this module are refused.

/// Which way, and how far.
#[derive(Debug, PartialEq, Drop)]
pub enum Turn {
    /// To the left.
    Left(u16),
    /// To the right.
    Right(u16),
}

/// Two distances.
#[derive(Debug, PartialEq, Drop)]
pub struct Steps {
    /// The first one.
    pub first: u16,
    /// The second one.
    pub second: u16,
}

// Below this line all is written by tools/derive: change what is above it, and run it again.

ghost use Rattle.archive_core.specs.CallOutcomes.{ResolvesAs};
ghost use Rattle.archive_core.specs.Definitions.{both, no_definition};
ghost use Rattle.archive_core.specs.Fields.{field_in};
ghost use Rattle.archive_core.specs.Keyed.{case_keyed, nothing_keyed, number_keyed, part_keyed, record_keyed};
ghost use Rattle.archive_core.specs.LeafLayout.{no_definition_reached};
ghost use Rattle.archive_core.specs.PartsPlanned.{no_part_planned, part_planned};
ghost use Rattle.archive_core.specs.Payloads.{payload_in};
ghost use Rattle.archive_core.specs.Plain.{plain_choice, plain_own_check, plain_record, plain_record_planned, plain_variant_planned};
ghost use Rattle.archive_core.specs.Planned.{leaf_planned};
ghost use Rattle.archive_core.specs.PlannedOwners.{one_planned};
ghost use Rattle.archive_core.specs.ReadBack.{ReadsAs};
ghost use Rattle.archive_core.specs.SealOutcomes.{IsSealOf, SealsPart, seal_tag};
ghost use Rattle.archive_core.specs.Seen.{IsPartOf, ShowsValueOf, tag_of};
ghost use Rattle.archive_core.specs.Shape.{choice, no_part, no_variant, one, part, parts, variant};
ghost use Rattle.archive_core.specs.Value.{case, no_value, product, value};
ghost use Rattle.archive_core.specs.Writing.{ZeroedPlace};
ghost use Rattle.std.proofs.Common.{inl, inr, lit≤};
ghost use Rattle.std.specs.Prelude.{None, Some, [], codes, length, refl, true, ℕ, ◌++◌, ◌+◌, ◌≡◌};

use archive_core::error::Error;
use archive_core::fields::{
    copy_2, known_tag, part_in_case, part_in_record, read_case, resolve_case_1, serialize_case_1,
    serialize_record_2, tag_in,
};
use archive_core::place::Place;
use archive_core::primitive::ArchivedU16;
use archive_core::record::deserialize_record;
use archive_core::seal::{Seal, sealed_part_in_case, sealed_part_in_record};
use archive_core::self_check::{RecordCheck, SelfCheck, check_choice};
use archive_core::ser::{ResolverAlloc, Writer, serialize_one};
use archive_core::shape::Defs;
use archive_core::slice::copy_groups;
use archive_core::traits::{
    Archive, ArchivePointee, ArchiveUnsized, Choice, Copied, CopiedSource, CopyOptimization,
    Deserialize, Entries, Keys, Portable, Record, Serialize, SerializeUnsized, expr_of_choice,
    expr_of_record,
};
use archive_core::validation::ArchiveContext;
use archive_core::view::{RawView, Ref};
use std::alloc::Global;

/// An archived `Turn`: 4 bytes at a multiple of 2.
pub struct ArchivedTurn;

type TurnLeftParts = (ArchivedU16, ());

type TurnLeftOwned = (u16, ());

type TurnRightParts = (ArchivedU16, ());

type TurnRightOwned = (u16, ());

type TurnVariants = (TurnLeftParts, (TurnRightParts, ()));

impl ArchivePointee for ArchivedTurn {
    type ArchivedMetadata = ();

    ghost pointee = { one (choice (codes "ArchivedTurn")
        (variant (part ⟦<ArchivedU16 as Portable>⟧.shape no_part)
        (variant (part ⟦<ArchivedU16 as Portable>⟧.shape no_part) no_variant))) };

    ghost definitions = { no_definition };

    ghost metadata_length = { λ _. 0 };

    fn pointer_metadata(_metadata: &()) -> usize {
        0
    }
}

impl Portable for ArchivedTurn {
    ghost shape = { choice (codes "ArchivedTurn") (variant
        (part ⟦<ArchivedU16 as Portable>⟧.shape no_part)
        (variant (part ⟦<ArchivedU16 as Portable>⟧.shape no_part) no_variant)) };

    ghost layout = { record { size = 4; align = 2 } };

    type Check = ArchivedTurn;

    ghost is_one = { refl };

    ghost is_align = { inr (inl refl) };

    ghost has_layout = { record { solved = λ s k. refl } };

    ghost no_others = { no_definition_reached (choice (codes "ArchivedTurn")
        (variant (part ⟦<ArchivedU16 as Portable>⟧.shape no_part)
        (variant (part ⟦<ArchivedU16 as Portable>⟧.shape no_part) no_variant))) };

    ghost checks = { λ _. plain_own_check _ _ _ _ _ refl refl refl refl };

    fn size() -> usize {
        4
    }

    fn align() -> usize {
        2
    }

    fn expr(alloc: Global) -> Result<archive_core::shape::Expr, Error> {
        expr_of_choice::<TurnVariants>(alloc, "ArchivedTurn")
    }

    fn define(_alloc: Global, _defs: &mut Defs) -> Result<(), Error> {
        Ok(())
    }
}

impl SelfCheck for ArchivedTurn {
    ghost shape = { choice (codes "ArchivedTurn") (variant
        (part ⟦<ArchivedU16 as Portable>⟧.shape no_part)
        (variant (part ⟦<ArchivedU16 as Portable>⟧.shape no_part) no_variant)) };

    ghost definitions = { (both (both no_definition no_definition)
        (both (both no_definition no_definition) no_definition)) };

    ghost span = { 4 };

    ghost direct = { true };

    ghost nameless = { true };

    fn is_direct() -> bool {
        true
    }

    fn is_nameless() -> bool {
        true
    }

    #[inline(always)]
    fn check_at<C: ArchiveContext>(
        bytes: &[u8],
        at: usize,
        refusal: &mut Error,
        context: &mut C,
    ) -> Option<()> {
        check_choice::<TurnVariants, C>("ArchivedTurn", bytes, at, refusal, context)
    }
}

impl Choice for ArchivedTurn {
    type Variants = TurnVariants;

    ghost name = { codes "ArchivedTurn" };

    ghost has_variants = { plain_choice (codes "ArchivedTurn")
        (variant (part ⟦<ArchivedU16 as Portable>⟧.shape no_part)
        (variant (part ⟦<ArchivedU16 as Portable>⟧.shape no_part) no_variant))
        (both (both no_definition no_definition) (both (both no_definition no_definition)
        no_definition)) refl };

    ghost holds = { lit≤ tt };
}

/// What is kept of `Turn` between `serialize` and `resolve`.
#[derive(Drop)]
pub enum TurnResolver {
    /// Of `Left`.
    Left((<u16 as Archive>::Resolver, ())),
    /// Of `Right`.
    Right((<u16 as Archive>::Resolver, ())),
}

impl Archive for Turn {
    ghost use Rattle.library_calls.specs.declared.turns.Turn.TheVariants.{Left as TurnLeft, Right as TurnRight};
    ghost use Rattle.library_calls.specs.declared.turns.TurnResolver.TheVariants.{Left as TurnLeftKept, Right as TurnRightKept};

    type Archived = ArchivedTurn;

    type Resolver = TurnResolver;

    ghost meaning = { elim [
      | TurnLeft a0 ↦ case 0 (value (⟦<u16 as Archive>⟧.meaning a0) no_value)
      | TurnRight a0 ↦ case 1 (value (⟦<u16 as Archive>⟧.meaning a0) no_value)
    ] };

    ghost flat = { λ v r. elim v [
      | TurnLeft a0 ↦ elim r [
        | TurnLeftKept s ↦ case 0 (value (⟦<u16 as Archive>⟧.flat a0 s.0) no_value)
        | _ ↦ case 0 no_value
      ]
      | TurnRight a0 ↦ elim r [
        | TurnRightKept s ↦ case 1 (value (⟦<u16 as Archive>⟧.flat a0 s.0) no_value)
        | _ ↦ case 1 no_value
      ]
    ] };

    ghost keys = { elim [
      | TurnLeft a0 ↦ ⟦<u16 as Archive>⟧.keys a0 ++ []
      | TurnRight a0 ↦ ⟦<u16 as Archive>⟧.keys a0 ++ []
    ] };

    ghost belongs = { λ v r. elim v [
      | TurnLeft a0 ↦ elim r [
        | TurnLeftKept s ↦ ⟦<u16 as Archive>⟧.belongs a0 s.0 × Unit {0}
        | _ ↦ ⊥
      ]
      | TurnRight a0 ↦ elim r [
        | TurnRightKept s ↦ ⟦<u16 as Archive>⟧.belongs a0 s.0 × Unit {0}
        | _ ↦ ⊥
      ]
    ] };

    ghost in_bulk = { None };

    ghost keyed = { elim [
      | TurnLeft a0 ↦ case_keyed _ 0 _ (part_keyed (number_keyed _) nothing_keyed)
      | TurnRight a0 ↦ case_keyed _ 1 _ (part_keyed (number_keyed _) nothing_keyed)
    ] };

    ghost planned = { elim [
      | TurnLeft a0 ↦ plain_variant_planned _ _ 0 (part ⟦<ArchivedU16 as Portable>⟧.shape no_part)
          refl (both no_definition no_definition) _ _ (part_planned no_definition
          ⟦<ArchivedU16 as Portable>⟧.shape (⟦<u16 as Archive>⟧.keys a0)
          (⟦<u16 as Archive>⟧.meaning a0) (leaf_planned no_definition _ _ [] _ refl)
          no_part_planned) refl
      | TurnRight a0 ↦ plain_variant_planned _ _ 1 (part ⟦<ArchivedU16 as Portable>⟧.shape no_part)
          refl (both no_definition no_definition) _ _ (part_planned no_definition
          ⟦<ArchivedU16 as Portable>⟧.shape (⟦<u16 as Archive>⟧.keys a0)
          (⟦<u16 as Archive>⟧.meaning a0) (leaf_planned no_definition _ _ [] _ refl)
          no_part_planned) refl
    ] };

    #[inline(always)]
    fn resolve(
        &self,
        resolver: Self::Resolver,
        place: Place<'_, Self::Archived>,
    ) -> Result<(), Error>
        requires zeroed { ZeroedPlace 4 place.pos place.bytes.now }
        requires same_value { ⟦<Self as Archive>⟧.belongs self.now resolver }
        ensures { ResolvesAs ⟦<Self::Archived as Portable>⟧ place
            (⟦<Self as Archive>⟧.flat self.now resolver) result }
    {
        let Place { bytes, pos, .. } = place;
        match self {
            Turn::Left(a0) => {
                let TurnResolver::Left(kept) = resolver else {
                    unreachable!();
                };
                resolve_case_1::<u16, ArchivedTurn>(0, a0, kept, Place::new(pos, bytes))
            }
            Turn::Right(a0) => {
                let TurnResolver::Right(kept) = resolver else {
                    unreachable!();
                };
                resolve_case_1::<u16, ArchivedTurn>(1, a0, kept, Place::new(pos, bytes))
            }
        }
    }

    #[inline(always)]
    fn copy_optimization() -> CopyOptimization<Self> {
        CopyOptimization::disable()
    }

    #[inline(always)]
    fn serialize_copied<S: Writer + Keys>(
        _values: &[Self],
        _together: usize,
        _serializer: &mut S,
    ) -> Result<Option<usize>, Error> {
        Ok(None)
    }
}

impl<S: Writer + ResolverAlloc> Serialize<S> for Turn {
    #[inline(always)]
    fn serialize(&self, serializer: &mut S) -> Result<Self::Resolver, Error> {
        match self {
            Turn::Left(a0) => match serialize_case_1::<u16, ArchivedTurn, S>(0, a0, serializer) {
                Ok(kept) => Ok(TurnResolver::Left(kept)),
                Err(error) => Err(error),
            },
            Turn::Right(a0) => match serialize_case_1::<u16, ArchivedTurn, S>(1, a0, serializer) {
                Ok(kept) => Ok(TurnResolver::Right(kept)),
                Err(error) => Err(error),
            },
        }
    }
}

/// As a region of its own: the value itself.
impl ArchiveUnsized for Turn {
    ghost use Rattle.library_calls.specs.contracts.turns.TurnArchive.TheImpl.Laws.{keyed-law as keyed_of_turn, planned-law as planned_of_turn};

    type Archived = ArchivedTurn;

    ghost source_length = { λ _. 0 };

    ghost meaning = { ⟦<Turn as Archive>⟧.meaning };

    ghost keys = { ⟦<Turn as Archive>⟧.keys };

    ghost keyed = { keyed_of_turn };

    ghost one_length = { λ _ _. refl };

    ghost planned = { λ v. one_planned no_definition (choice (codes "ArchivedTurn")
        (variant (part ⟦<ArchivedU16 as Portable>⟧.shape no_part)
        (variant (part ⟦<ArchivedU16 as Portable>⟧.shape no_part) no_variant)))
        (⟦<Turn as Archive>⟧.keys v) (⟦<Turn as Archive>⟧.meaning v) (planned_of_turn v) };

    #[inline(always)]
    fn archived_metadata(&self) -> Result<(), Error> {
        Ok(())
    }
}

impl<S: Writer + ResolverAlloc> SerializeUnsized<S> for Turn {
    #[inline(always)]
    fn serialize_unsized(&self, serializer: &mut S) -> Result<usize, Error> {
        serialize_one(self, serializer)
    }
}

impl<D: Entries> Deserialize<Turn, D> for ArchivedTurn {
    #[inline(always)]
    fn deserialize_part(
        alloc: Global,
        part: RawView<'_>,
        deserializer: &mut D,
    ) -> Result<Turn, Error>
        requires { IsPartOf ⟦<Self as ArchivePointee>⟧ part }
        ensures { ReadsAs ⟦<Self as ArchivePointee>⟧ part D.Entries deserializer ⟦<Turn as Archive>⟧
            result }
    {
        match known_tag::<Self>(part) {
            0 => match read_case::<Self, TurnLeftParts, TurnLeftOwned, D>(
                0,
                alloc,
                part,
                deserializer,
            ) {
                Ok((a0, ())) => Ok(Turn::Left(a0)),
                Err(error) => Err(error),
            },
            _ => match read_case::<Self, TurnRightParts, TurnRightOwned, D>(
                1,
                alloc,
                part,
                deserializer,
            ) {
                Ok((a0, ())) => Ok(Turn::Right(a0)),
                Err(error) => Err(error),
            },
        }
    }
}

/// What a view of an archived `Turn` shows, by its tag.
#[derive(Drop)]
pub enum ViewOfTurn<'a> {
    /// To the left.
    Left(Ref<'a, ArchivedU16>),
    /// To the right.
    Right(Ref<'a, ArchivedU16>),
}

/// The variant of an archived `Turn`, as a view.
pub trait TurnView<'a> {
    /// The variant that the tag names, with views of its fields.
    fn variant(self) -> ViewOfTurn<'a>;
}

impl<'a> TurnView<'a> for Ref<'a, ArchivedTurn> {
    ghost use Rattle.library_calls.specs.declared.turns.ViewOfTurn.TheVariants.{Left as TurnLeftShown, Right as TurnRightShown};

    fn variant(self) -> ViewOfTurn<'a>
        ensures shows { elim result [
          | TurnLeftShown a0 ↦ (tag_of self.entry ≡ 0) × (a0.bytes.now ≡ self.entry.bytes.now)
              × (a0.pos ≡ self.entry.pos + 2) × (a0.len ≡ 0)
              × ShowsValueOf a0 self.entry (payload_in 0)
          | TurnRightShown a0 ↦ (tag_of self.entry ≡ 1) × (a0.bytes.now ≡ self.entry.bytes.now)
              × (a0.pos ≡ self.entry.pos + 2) × (a0.len ≡ 0)
              × ShowsValueOf a0 self.entry (payload_in 0)
        ] }
    {
        match tag_in(self) {
            0 => ViewOfTurn::Left(part_in_case::<ArchivedTurn, ArchivedU16>(self, 0, 0, 2)),
            _ => ViewOfTurn::Right(part_in_case::<ArchivedTurn, ArchivedU16>(self, 1, 0, 2)),
        }
    }
}

/// The fields of an archived `Turn`, as seals. The caller must ensure that the tag is the variant's.
pub trait TurnSeal<'a> {
    // The seal shows a part of a buffer that was checked.
    ghost sealed: { Self → Type 0 };

    // The tag that it shows.
    ghost tag: { Self → ℕ };

    /// The field `0` of `Left`.
    fn left_0_mut(self) -> Seal<'a, ArchivedU16>
        requires come_to { sealed self }
        requires tag { tag self ≡ 0 };

    /// The field `0` of `Right`.
    fn right_0_mut(self) -> Seal<'a, ArchivedU16>
        requires come_to { sealed self }
        requires tag { tag self ≡ 1 };
}

impl<'a> TurnSeal<'a> for Seal<'a, ArchivedTurn> {
    ghost sealed = { λ s. IsSealOf no_definition (one ⟦<ArchivedTurn as Portable>⟧.shape) s };

    ghost tag = { λ s. seal_tag s };

    fn left_0_mut(self) -> Seal<'a, ArchivedU16>
        requires come_to { IsSealOf no_definition (one ⟦<ArchivedTurn as Portable>⟧.shape) self }
        requires tag { seal_tag self ≡ 0 }
        ensures { SealsPart no_definition (one ⟦<ArchivedTurn as Portable>⟧.shape) no_definition
            ⟦<ArchivedU16 as ArchivePointee>⟧.pointee (self.entry.pos + 2) 0 self.entry result }
    {
        sealed_part_in_case::<ArchivedTurn, ArchivedU16>(self, 0, 0, 2)
    }

    fn right_0_mut(self) -> Seal<'a, ArchivedU16>
        requires come_to { IsSealOf no_definition (one ⟦<ArchivedTurn as Portable>⟧.shape) self }
        requires tag { seal_tag self ≡ 1 }
        ensures { SealsPart no_definition (one ⟦<ArchivedTurn as Portable>⟧.shape) no_definition
            ⟦<ArchivedU16 as ArchivePointee>⟧.pointee (self.entry.pos + 2) 0 self.entry result }
    {
        sealed_part_in_case::<ArchivedTurn, ArchivedU16>(self, 1, 0, 2)
    }
}

/// An archived `Steps`: 4 bytes at a multiple of 2.
pub struct ArchivedSteps;

type StepsParts = (ArchivedU16, (ArchivedU16, ()));

type StepsOwned = (u16, (u16, ()));

impl ArchivePointee for ArchivedSteps {
    type ArchivedMetadata = ();

    ghost pointee = { one (parts (part ⟦<ArchivedU16 as Portable>⟧.shape
        (part ⟦<ArchivedU16 as Portable>⟧.shape no_part))) };

    ghost definitions = { no_definition };

    ghost metadata_length = { λ _. 0 };

    fn pointer_metadata(_metadata: &()) -> usize {
        0
    }
}

impl Portable for ArchivedSteps {
    ghost shape = { parts (part ⟦<ArchivedU16 as Portable>⟧.shape
        (part ⟦<ArchivedU16 as Portable>⟧.shape no_part)) };

    ghost layout = { record { size = 4; align = 2 } };

    type Check = ArchivedSteps;

    ghost is_one = { refl };

    ghost is_align = { inr (inl refl) };

    ghost has_layout = { record { solved = λ s k. refl } };

    ghost no_others = { no_definition_reached (parts (part ⟦<ArchivedU16 as Portable>⟧.shape
        (part ⟦<ArchivedU16 as Portable>⟧.shape no_part))) };

    ghost checks = { λ _. plain_own_check _ _ _ _ _ refl refl refl refl };

    fn size() -> usize {
        4
    }

    fn align() -> usize {
        2
    }

    fn expr(alloc: Global) -> Result<archive_core::shape::Expr, Error> {
        expr_of_record::<StepsParts>(alloc)
    }

    fn define(_alloc: Global, _defs: &mut Defs) -> Result<(), Error> {
        Ok(())
    }
}

impl SelfCheck for ArchivedSteps {
    ghost shape = { parts (part ⟦<ArchivedU16 as Portable>⟧.shape
        (part ⟦<ArchivedU16 as Portable>⟧.shape no_part)) };

    ghost definitions = { (both no_definition (both no_definition no_definition)) };

    ghost span = { 4 };

    ghost direct = { true };

    ghost nameless = { true };

    fn is_direct() -> bool {
        true
    }

    fn is_nameless() -> bool {
        true
    }

    #[inline(always)]
    fn check_at<C: ArchiveContext>(
        bytes: &[u8],
        at: usize,
        refusal: &mut Error,
        context: &mut C,
    ) -> Option<()> {
        RecordCheck::<StepsParts>::check_at(bytes, at, refusal, context)
    }
}

impl Record for ArchivedSteps {
    type Parts = StepsParts;

    ghost has_parts = { plain_record (part ⟦<ArchivedU16 as Portable>⟧.shape
        (part ⟦<ArchivedU16 as Portable>⟧.shape no_part))
        (both no_definition (both no_definition no_definition)) refl };

    ghost holds = { lit≤ tt };
}

/// What is kept of `Steps` between `serialize` and `resolve`.
#[derive(Drop)]
pub struct StepsResolver {
    kept: (<u16 as Archive>::Resolver, (<u16 as Archive>::Resolver, ())),
}

impl Archive for Steps {
    type Archived = ArchivedSteps;

    type Resolver = StepsResolver;

    ghost meaning = { λ v. product (value (⟦<u16 as Archive>⟧.meaning v.first)
        (value (⟦<u16 as Archive>⟧.meaning v.second) no_value)) };

    ghost flat = { λ v r. product (value (⟦<u16 as Archive>⟧.flat v.first r.kept.0)
        (value (⟦<u16 as Archive>⟧.flat v.second r.kept.1.0) no_value)) };

    ghost keys = { λ v. ⟦<u16 as Archive>⟧.keys v.first
        ++ (⟦<u16 as Archive>⟧.keys v.second ++ []) };

    ghost belongs = { λ v r. ⟦<u16 as Archive>⟧.belongs v.first r.kept.0
        × (⟦<u16 as Archive>⟧.belongs v.second r.kept.1.0 × Unit {0}) };

    ghost in_bulk = { Some (λ v. ⟦<u16 as Copied>⟧.copied_bytes v.first
        ++ (⟦<u16 as Copied>⟧.copied_bytes v.second ++ [])) };

    ghost keyed = { λ v. record_keyed (part_keyed (number_keyed _)
        (part_keyed (number_keyed _) nothing_keyed)) };

    ghost planned = { λ v. plain_record_planned (both no_definition
        (both no_definition no_definition)) (part ⟦<ArchivedU16 as Portable>⟧.shape
        (part ⟦<ArchivedU16 as Portable>⟧.shape no_part)) _ _
        (part_planned no_definition ⟦<ArchivedU16 as Portable>⟧.shape
        (⟦<u16 as Archive>⟧.keys v.first) (⟦<u16 as Archive>⟧.meaning v.first)
        (leaf_planned no_definition _ _ [] _ refl) (part_planned no_definition
        ⟦<ArchivedU16 as Portable>⟧.shape (⟦<u16 as Archive>⟧.keys v.second)
        (⟦<u16 as Archive>⟧.meaning v.second) (leaf_planned no_definition _ _ [] _ refl)
        no_part_planned)) refl };

    #[inline(always)]
    fn resolve(
        &self,
        resolver: Self::Resolver,
        place: Place<'_, Self::Archived>,
    ) -> Result<(), Error>
        requires zeroed { ZeroedPlace 4 place.pos place.bytes.now }
        requires same_value { ⟦<Self as Archive>⟧.belongs self.now resolver }
        ensures { ResolvesAs ⟦<Self::Archived as Portable>⟧ place
            (⟦<Self as Archive>⟧.flat self.now resolver) result }
    {
        let Place { bytes, .. } = place;
        self.copy_one(bytes);
        Ok(())
    }

    #[inline(always)]
    fn copy_optimization() -> CopyOptimization<Self> {
        CopyOptimization::enable()
    }

    #[inline(always)]
    fn serialize_copied<S: Writer + Keys>(
        values: &[Self],
        together: usize,
        serializer: &mut S,
    ) -> Result<Option<usize>, Error> {
        copy_groups(values, together, serializer)
    }
}

/// Slices of it are written in bulk.
impl Copied for Steps {
    type CopiedAs = ArchivedSteps;

    ghost copied_keys = { λ _. [] };

    ghost copied_meaning = { λ v. product (value (⟦<u16 as Archive>⟧.meaning v.first)
        (value (⟦<u16 as Archive>⟧.meaning v.second) no_value)) };

    ghost copied_bytes = { λ v. ⟦<u16 as Copied>⟧.copied_bytes v.first
        ++ (⟦<u16 as Copied>⟧.copied_bytes v.second ++ []) };

    #[inline(always)]
    fn copied_size() -> usize {
        4
    }

    #[inline(always)]
    fn copy_one(&self, bytes: &mut [u8]) {
        copy_2(&self.first, &self.second, bytes);
    }
}

impl CopiedSource for Steps {
    ghost same_keys = { refl };

    ghost same_meaning = { refl };
}

impl<S: Writer + ResolverAlloc> Serialize<S> for Steps {
    #[inline(always)]
    fn serialize(&self, serializer: &mut S) -> Result<Self::Resolver, Error> {
        match serialize_record_2::<u16, u16, ArchivedSteps, S>(
            &self.first,
            &self.second,
            serializer,
        ) {
            Ok(kept) => Ok(StepsResolver { kept }),
            Err(error) => Err(error),
        }
    }
}

/// As a region of its own: the value itself.
impl ArchiveUnsized for Steps {
    ghost use Rattle.library_calls.specs.contracts.turns.StepsArchive.TheImpl.Laws.{keyed-law as keyed_of_steps, planned-law as planned_of_steps};

    type Archived = ArchivedSteps;

    ghost source_length = { λ _. 0 };

    ghost meaning = { ⟦<Steps as Archive>⟧.meaning };

    ghost keys = { ⟦<Steps as Archive>⟧.keys };

    ghost keyed = { keyed_of_steps };

    ghost one_length = { λ _ _. refl };

    ghost planned = { λ v. one_planned no_definition (parts
        (part ⟦<ArchivedU16 as Portable>⟧.shape (part ⟦<ArchivedU16 as Portable>⟧.shape no_part)))
        (⟦<Steps as Archive>⟧.keys v) (⟦<Steps as Archive>⟧.meaning v) (planned_of_steps v) };

    #[inline(always)]
    fn archived_metadata(&self) -> Result<(), Error> {
        Ok(())
    }
}

impl<S: Writer + ResolverAlloc> SerializeUnsized<S> for Steps {
    #[inline(always)]
    fn serialize_unsized(&self, serializer: &mut S) -> Result<usize, Error> {
        serialize_one(self, serializer)
    }
}

impl<D: Entries> Deserialize<Steps, D> for ArchivedSteps {
    #[inline(always)]
    fn deserialize_part(
        alloc: Global,
        part: RawView<'_>,
        deserializer: &mut D,
    ) -> Result<Steps, Error>
        requires { IsPartOf ⟦<Self as ArchivePointee>⟧ part }
        ensures { ReadsAs ⟦<Self as ArchivePointee>⟧ part D.Entries deserializer
            ⟦<Steps as Archive>⟧ result }
    {
        match deserialize_record::<Self, StepsOwned, D>(alloc, part, deserializer) {
            Ok((a0, (a1, ()))) => Ok(Steps {
                first: a0,
                second: a1,
            }),
            Err(error) => Err(error),
        }
    }
}

/// The fields of an archived `Steps`, as views.
pub trait StepsView<'a> {
    /// The first one.
    fn first(self) -> Ref<'a, ArchivedU16>;

    /// The second one.
    fn second(self) -> Ref<'a, ArchivedU16>;
}

impl<'a> StepsView<'a> for Ref<'a, ArchivedSteps> {
    fn first(self) -> Ref<'a, ArchivedU16>
        ensures buffer { result.bytes.now ≡ self.entry.bytes.now }
        ensures position { result.pos ≡ self.entry.pos + 0 }
        ensures length { result.len ≡ 0 }
        ensures shows { ShowsValueOf result self.entry (field_in 0) }
    {
        part_in_record::<ArchivedSteps, ArchivedU16>(self, 0, 0)
    }

    fn second(self) -> Ref<'a, ArchivedU16>
        ensures buffer { result.bytes.now ≡ self.entry.bytes.now }
        ensures position { result.pos ≡ self.entry.pos + 2 }
        ensures length { result.len ≡ 0 }
        ensures shows { ShowsValueOf result self.entry (field_in 1) }
    {
        part_in_record::<ArchivedSteps, ArchivedU16>(self, 1, 2)
    }
}

/// The fields of an archived `Steps`, as seals.
pub trait StepsSeal<'a> {
    // The seal shows a part of a buffer that was checked.
    ghost sealed: { Self → Type 0 };

    /// The first one.
    fn first_mut(self) -> Seal<'a, ArchivedU16>
        requires { sealed self };

    /// The second one.
    fn second_mut(self) -> Seal<'a, ArchivedU16>
        requires { sealed self };
}

impl<'a> StepsSeal<'a> for Seal<'a, ArchivedSteps> {
    ghost sealed = { λ s. IsSealOf no_definition (one ⟦<ArchivedSteps as Portable>⟧.shape) s };

    fn first_mut(self) -> Seal<'a, ArchivedU16>
        requires come_to { IsSealOf no_definition (one ⟦<ArchivedSteps as Portable>⟧.shape) self }
        ensures { SealsPart no_definition (one ⟦<ArchivedSteps as Portable>⟧.shape) no_definition
            ⟦<ArchivedU16 as ArchivePointee>⟧.pointee (self.entry.pos + 0) 0 self.entry result }
    {
        sealed_part_in_record::<ArchivedSteps, ArchivedU16>(self, 0, 0)
    }

    fn second_mut(self) -> Seal<'a, ArchivedU16>
        requires come_to { IsSealOf no_definition (one ⟦<ArchivedSteps as Portable>⟧.shape) self }
        ensures { SealsPart no_definition (one ⟦<ArchivedSteps as Portable>⟧.shape) no_definition
            ⟦<ArchivedU16 as ArchivePointee>⟧.pointee (self.entry.pos + 2) 0 self.entry result }
    {
        sealed_part_in_record::<ArchivedSteps, ArchivedU16>(self, 1, 2)
    }
}
