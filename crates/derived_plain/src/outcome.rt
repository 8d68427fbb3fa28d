//! An enum with type parameters: each alias that names its arguments is archived.

/// What came of something.
#[derive(Debug, PartialEq, Drop)]
pub enum Outcome<T, E> {
    /// It was done, with this.
    Done(T),
    /// It failed, for this.
    Failed(E),
}

/// A sum, or why there is none.
pub type Sum = Outcome<u8, String>;

/// Some numbers, or what came of their sum.
pub type Numbers = Outcome<Vec<u8>, Sum>;

// Below this line all is written by tools/derive: change what is above it, and run it again.

ghost use Rattle.archive_core.specs.CallOutcomes.{ResolvesAs};
ghost use Rattle.archive_core.specs.Definitions.{both, no_definition};
ghost use Rattle.archive_core.specs.Keyed.{case_keyed, each_keyed, nothing_keyed, number_keyed, part_keyed, text_keyed};
ghost use Rattle.archive_core.specs.LeafLayout.{no_definition_reached};
ghost use Rattle.archive_core.specs.PartsPlanned.{no_part_planned, part_planned};
ghost use Rattle.archive_core.specs.Payloads.{payload_in};
ghost use Rattle.archive_core.specs.Plain.{plain_choice, plain_own_check, plain_variant_planned};
ghost use Rattle.archive_core.specs.Planned.{leaf_planned, string_planned};
ghost use Rattle.archive_core.specs.PlannedOwners.{one_planned, slice_planned, vec_planned};
ghost use Rattle.archive_core.specs.ReadBack.{ReadsAs};
ghost use Rattle.archive_core.specs.SealOutcomes.{IsSealOf, SealsPart, seal_tag};
ghost use Rattle.archive_core.specs.Seen.{IsPartOf, ShowsValueOf, tag_of};
ghost use Rattle.archive_core.specs.Shape.{choice, no_part, no_variant, one, part, variant};
ghost use Rattle.archive_core.specs.Value.{case, no_value, value};
ghost use Rattle.archive_core.specs.Writing.{ZeroedPlace};
ghost use Rattle.std.proofs.Common.{inl, inr, lit≤};
ghost use Rattle.std.specs.Prelude.{None, [], codes, refl, string_bytes, true, ℕ, ◌++◌, ◌+◌, ◌≡◌};

use archive_core::error::Error;
use archive_core::fields::{
    known_tag, part_in_case, read_case, resolve_case_1, serialize_case_1, tag_in,
};
use archive_core::place::Place;
use archive_core::seal::{Seal, sealed_part_in_case};
use archive_core::self_check::{SelfCheck, check_choice};
use archive_core::ser::{ResolverAlloc, Writer, serialize_one};
use archive_core::shape::Defs;
use archive_core::string::ArchivedString;
use archive_core::traits::{
    Archive, ArchivePointee, ArchiveUnsized, Choice, CopyOptimization, Deserialize, Entries, Keys,
    Portable, Serialize, SerializeUnsized, expr_of_choice,
};
use archive_core::validation::ArchiveContext;
use archive_core::vec::ArchivedVec;
use archive_core::view::{RawView, Ref};
use std::alloc::Global;

/// An archived `Sum`: 12 bytes at a multiple of 4.
pub struct ArchivedSum;

type SumDoneParts = (u8, ());

type SumDoneOwned = (u8, ());

type SumFailedParts = (ArchivedString, ());

type SumFailedOwned = (String, ());

type SumVariants = (SumDoneParts, (SumFailedParts, ()));

impl ArchivePointee for ArchivedSum {
    type ArchivedMetadata = ();

    ghost pointee = { one (choice (codes "ArchivedSum")
        (variant (part ⟦<u8 as Portable>⟧.shape no_part)
        (variant (part ⟦<ArchivedString as Portable>⟧.shape no_part) no_variant))) };

    ghost definitions = { no_definition };

    ghost metadata_length = { λ _. 0 };

    fn pointer_metadata(_metadata: &()) -> usize {
        0
    }
}

impl Portable for ArchivedSum {
    ghost shape = { choice (codes "ArchivedSum") (variant (part ⟦<u8 as Portable>⟧.shape no_part)
        (variant (part ⟦<ArchivedString as Portable>⟧.shape no_part) no_variant)) };

    ghost layout = { record { size = 12; align = 4 } };

    type Check = ArchivedSum;

    ghost is_one = { refl };

    ghost is_align = { inr (inr (inl refl)) };

    ghost has_layout = { record { solved = λ s k. refl } };

    ghost no_others = { no_definition_reached (choice (codes "ArchivedSum")
        (variant (part ⟦<u8 as Portable>⟧.shape no_part)
        (variant (part ⟦<ArchivedString as Portable>⟧.shape no_part) no_variant))) };

    ghost checks = { λ _. plain_own_check _ _ _ _ _ refl refl refl refl };

    fn size() -> usize {
        12
    }

    fn align() -> usize {
        4
    }

    fn expr(alloc: Global) -> Result<archive_core::shape::Expr, Error> {
        expr_of_choice::<SumVariants>(alloc, "ArchivedSum")
    }

    fn define(_alloc: Global, _defs: &mut Defs) -> Result<(), Error> {
        Ok(())
    }
}

impl SelfCheck for ArchivedSum {
    ghost shape = { choice (codes "ArchivedSum") (variant (part ⟦<u8 as Portable>⟧.shape no_part)
        (variant (part ⟦<ArchivedString as Portable>⟧.shape no_part) no_variant)) };

    ghost definitions = { (both (both no_definition no_definition)
        (both (both no_definition no_definition) no_definition)) };

    ghost span = { 12 };

    ghost direct = { true };

    ghost nameless = { true };

    fn is_direct() -> bool {
        true
    }

    fn is_nameless() -> bool {
        true
    }

    #[inline(always)]
    fn check_at<C: ArchiveContext>(
        bytes: &[u8],
        at: usize,
        refusal: &mut Error,
        context: &mut C,
    ) -> Option<()> {
        check_choice::<SumVariants, C>("ArchivedSum", bytes, at, refusal, context)
    }
}

impl Choice for ArchivedSum {
    type Variants = SumVariants;

    ghost name = { codes "ArchivedSum" };

    ghost has_variants = { plain_choice (codes "ArchivedSum")
        (variant (part ⟦<u8 as Portable>⟧.shape no_part)
        (variant (part ⟦<ArchivedString as Portable>⟧.shape no_part) no_variant))
        (both (both no_definition no_definition) (both (both no_definition no_definition)
        no_definition)) refl };

    ghost holds = { lit≤ tt };
}

/// What is kept of `Sum` between `serialize` and `resolve`.
#[derive(Drop)]
pub enum SumResolver {
    /// Of `Done`.
    Done((<u8 as Archive>::Resolver, ())),
    /// Of `Failed`.
    Failed((<String as Archive>::Resolver, ())),
}

impl Archive for Sum {
    ghost use Rattle.derived_plain.specs.declared.outcome.Outcome.TheVariants.{Done as SumDone, Failed as SumFailed};
    ghost use Rattle.derived_plain.specs.declared.outcome.SumResolver.TheVariants.{Done as SumDoneKept, Failed as SumFailedKept};

    type Archived = ArchivedSum;

    type Resolver = SumResolver;

    ghost meaning = { elim [
      | SumDone a0 ↦ case 0 (value (⟦<u8 as Archive>⟧.meaning a0) no_value)
      | SumFailed a0 ↦ case 1 (value (⟦<String as Archive>⟧.meaning a0) no_value)
    ] };

    ghost flat = { λ v r. elim v [
      | SumDone a0 ↦ elim r [
        | SumDoneKept s ↦ case 0 (value (⟦<u8 as Archive>⟧.flat a0 s.0) no_value)
        | _ ↦ case 0 no_value
      ]
      | SumFailed a0 ↦ elim r [
        | SumFailedKept s ↦ case 1 (value (⟦<String as Archive>⟧.flat a0 s.0) no_value)
        | _ ↦ case 1 no_value
      ]
    ] };

    ghost keys = { elim [
      | SumDone a0 ↦ ⟦<u8 as Archive>⟧.keys a0 ++ []
      | SumFailed a0 ↦ ⟦<String as Archive>⟧.keys a0 ++ []
    ] };

    ghost belongs = { λ v r. elim v [
      | SumDone a0 ↦ elim r [ SumDoneKept s ↦ ⟦<u8 as Archive>⟧.belongs a0 s.0 × Unit {0} | _ ↦ ⊥ ]
      | SumFailed a0 ↦ elim r [
        | SumFailedKept s ↦ ⟦<String as Archive>⟧.belongs a0 s.0 × Unit {0}
        | _ ↦ ⊥
      ]
    ] };

    ghost in_bulk = { None };

    ghost keyed = { elim [
      | SumDone a0 ↦ case_keyed _ 0 _ (part_keyed (number_keyed _) nothing_keyed)
      | SumFailed a0 ↦ case_keyed _ 1 _ (part_keyed (text_keyed (string_bytes a0)) nothing_keyed)
    ] };

    ghost planned = { elim [
      | SumDone a0 ↦ plain_variant_planned _ _ 0 (part ⟦<u8 as Portable>⟧.shape no_part) refl
          (both no_definition no_definition) _ _ (part_planned no_definition
          ⟦<u8 as Portable>⟧.shape (⟦<u8 as Archive>⟧.keys a0) (⟦<u8 as Archive>⟧.meaning a0)
          (leaf_planned no_definition _ _ [] _ refl) no_part_planned) refl
      | SumFailed a0 ↦ plain_variant_planned _ _ 1 (part ⟦<ArchivedString as Portable>⟧.shape
          no_part) refl (both no_definition no_definition) _ _
          (part_planned no_definition ⟦<ArchivedString as Portable>⟧.shape
          (⟦<String as Archive>⟧.keys a0) (⟦<String as Archive>⟧.meaning a0)
          (string_planned no_definition [] (string_bytes a0)) no_part_planned) refl
    ] };

    #[inline(always)]
    fn resolve(
        &self,
        resolver: Self::Resolver,
        place: Place<'_, Self::Archived>,
    ) -> Result<(), Error>
        requires zeroed { ZeroedPlace 12 place.pos place.bytes.now }
        requires same_value { ⟦<Self as Archive>⟧.belongs self.now resolver }
        ensures { ResolvesAs ⟦<Self::Archived as Portable>⟧ place
            (⟦<Self as Archive>⟧.flat self.now resolver) result }
    {
        let Place { bytes, pos, .. } = place;
        match self {
            Sum::Done(a0) => {
                let SumResolver::Done(kept) = resolver else {
                    unreachable!();
                };
                resolve_case_1::<u8, ArchivedSum>(0, a0, kept, Place::new(pos, bytes))
            }
            Sum::Failed(a0) => {
                let SumResolver::Failed(kept) = resolver else {
                    unreachable!();
                };
                resolve_case_1::<String, ArchivedSum>(1, a0, kept, Place::new(pos, bytes))
            }
        }
    }

    #[inline(always)]
    fn copy_optimization() -> CopyOptimization<Self> {
        CopyOptimization::disable()
    }

    #[inline(always)]
    fn serialize_copied<S: Writer + Keys>(
        _values: &[Self],
        _together: usize,
        _serializer: &mut S,
    ) -> Result<Option<usize>, Error> {
        Ok(None)
    }
}

impl<S: Writer + ResolverAlloc> Serialize<S> for Sum {
    #[inline(always)]
    fn serialize(&self, serializer: &mut S) -> Result<Self::Resolver, Error> {
        match self {
            Sum::Done(a0) => match serialize_case_1::<u8, ArchivedSum, S>(0, a0, serializer) {
                Ok(kept) => Ok(SumResolver::Done(kept)),
                Err(error) => Err(error),
            },
            Sum::Failed(a0) => match serialize_case_1::<String, ArchivedSum, S>(1, a0, serializer) {
                Ok(kept) => Ok(SumResolver::Failed(kept)),
                Err(error) => Err(error),
            },
        }
    }
}

/// As a region of its own: the value itself.
impl ArchiveUnsized for Sum {
    ghost use Rattle.derived_plain.specs.contracts.outcome.SumArchive.TheImpl.Laws.{keyed-law as keyed_of_sum, planned-law as planned_of_sum};

    type Archived = ArchivedSum;

    ghost source_length = { λ _. 0 };

    ghost meaning = { ⟦<Sum as Archive>⟧.meaning };

    ghost keys = { ⟦<Sum as Archive>⟧.keys };

    ghost keyed = { keyed_of_sum };

    ghost one_length = { λ _ _. refl };

    ghost planned = { λ v. one_planned no_definition (choice (codes "ArchivedSum")
        (variant (part ⟦<u8 as Portable>⟧.shape no_part)
        (variant (part ⟦<ArchivedString as Portable>⟧.shape no_part) no_variant)))
        (⟦<Sum as Archive>⟧.keys v) (⟦<Sum as Archive>⟧.meaning v) (planned_of_sum v) };

    #[inline(always)]
    fn archived_metadata(&self) -> Result<(), Error> {
        Ok(())
    }
}

impl<S: Writer + ResolverAlloc> SerializeUnsized<S> for Sum {
    #[inline(always)]
    fn serialize_unsized(&self, serializer: &mut S) -> Result<usize, Error> {
        serialize_one(self, serializer)
    }
}

impl<D: Entries> Deserialize<Sum, D> for ArchivedSum {
    #[inline(always)]
    fn deserialize_part(
        alloc: Global,
        part: RawView<'_>,
        deserializer: &mut D,
    ) -> Result<Sum, Error>
        requires { IsPartOf ⟦<Self as ArchivePointee>⟧ part }
        ensures { ReadsAs ⟦<Self as ArchivePointee>⟧ part D.Entries deserializer ⟦<Sum as Archive>⟧
            result }
    {
        match known_tag::<Self>(part) {
            0 => match read_case::<Self, SumDoneParts, SumDoneOwned, D>(
                0,
                alloc,
                part,
                deserializer,
            ) {
                Ok((a0, ())) => Ok(Sum::Done(a0)),
                Err(error) => Err(error),
            },
            _ => match read_case::<Self, SumFailedParts, SumFailedOwned, D>(
                1,
                alloc,
                part,
                deserializer,
            ) {
                Ok((a0, ())) => Ok(Sum::Failed(a0)),
                Err(error) => Err(error),
            },
        }
    }
}

/// What a view of an archived `Sum` shows, by its tag.
#[derive(Drop)]
pub enum ViewOfSum<'a> {
    /// It was done, with this.
    Done(Ref<'a, u8>),
    /// It failed, for this.
    Failed(Ref<'a, ArchivedString>),
}

/// The variant of an archived `Sum`, as a view.
pub trait SumView<'a> {
    /// The variant that the tag names, with views of its fields.
    fn variant(self) -> ViewOfSum<'a>;
}

impl<'a> SumView<'a> for Ref<'a, ArchivedSum> {
    ghost use Rattle.derived_plain.specs.declared.outcome.ViewOfSum.TheVariants.{Done as SumDoneShown, Failed as SumFailedShown};

    fn variant(self) -> ViewOfSum<'a>
        ensures shows { elim result [
          | SumDoneShown a0 ↦ (tag_of self.entry ≡ 0) × (a0.bytes.now ≡ self.entry.bytes.now)
              × (a0.pos ≡ self.entry.pos + 1) × (a0.len ≡ 0)
              × ShowsValueOf a0 self.entry (payload_in 0)
          | SumFailedShown a0 ↦ (tag_of self.entry ≡ 1) × (a0.bytes.now ≡ self.entry.bytes.now)
              × (a0.pos ≡ self.entry.pos + 4) × (a0.len ≡ 0)
              × ShowsValueOf a0 self.entry (payload_in 0)
        ] }
    {
        match tag_in(self) {
            0 => ViewOfSum::Done(part_in_case::<ArchivedSum, u8>(self, 0, 0, 1)),
            _ => ViewOfSum::Failed(part_in_case::<ArchivedSum, ArchivedString>(self, 1, 0, 4)),
        }
    }
}

/// The fields of an archived `Sum`, as seals. The caller must ensure that the tag is the variant's.
pub trait SumSeal<'a> {
    // The seal shows a part of a buffer that was checked.
    ghost sealed: { Self → Type 0 };

    // The tag that it shows.
    ghost tag: { Self → ℕ };

    /// The field `0` of `Done`.
    fn done_0_mut(self) -> Seal<'a, u8>
        requires come_to { sealed self }
        requires tag { tag self ≡ 0 };

    /// The field `0` of `Failed`.
    fn failed_0_mut(self) -> Seal<'a, ArchivedString>
        requires come_to { sealed self }
        requires tag { tag self ≡ 1 };
}

impl<'a> SumSeal<'a> for Seal<'a, ArchivedSum> {
    ghost sealed = { λ s. IsSealOf no_definition (one ⟦<ArchivedSum as Portable>⟧.shape) s };

    ghost tag = { λ s. seal_tag s };

    fn done_0_mut(self) -> Seal<'a, u8>
        requires come_to { IsSealOf no_definition (one ⟦<ArchivedSum as Portable>⟧.shape) self }
        requires tag { seal_tag self ≡ 0 }
        ensures { SealsPart no_definition (one ⟦<ArchivedSum as Portable>⟧.shape) no_definition
            ⟦<u8 as ArchivePointee>⟧.pointee (self.entry.pos + 1) 0 self.entry result }
    {
        sealed_part_in_case::<ArchivedSum, u8>(self, 0, 0, 1)
    }

    fn failed_0_mut(self) -> Seal<'a, ArchivedString>
        requires come_to { IsSealOf no_definition (one ⟦<ArchivedSum as Portable>⟧.shape) self }
        requires tag { seal_tag self ≡ 1 }
        ensures { SealsPart no_definition (one ⟦<ArchivedSum as Portable>⟧.shape) no_definition
            ⟦<ArchivedString as ArchivePointee>⟧.pointee (self.entry.pos + 4) 0 self.entry result }
    {
        sealed_part_in_case::<ArchivedSum, ArchivedString>(self, 1, 0, 4)
    }
}

/// An archived `Numbers`: 16 bytes at a multiple of 4.
pub struct ArchivedNumbers;

type NumbersDoneParts = (ArchivedVec<u8>, ());

type NumbersDoneOwned = (Vec<u8>, ());

type NumbersFailedParts = (ArchivedSum, ());

type NumbersFailedOwned = (Sum, ());

type NumbersVariants = (NumbersDoneParts, (NumbersFailedParts, ()));

impl ArchivePointee for ArchivedNumbers {
    type ArchivedMetadata = ();

    ghost pointee = { one (choice (codes "ArchivedNumbers")
        (variant (part ⟦<ArchivedVec<u8> as Portable>⟧.shape no_part)
        (variant (part ⟦<ArchivedSum as Portable>⟧.shape no_part) no_variant))) };

    ghost definitions = { no_definition };

    ghost metadata_length = { λ _. 0 };

    fn pointer_metadata(_metadata: &()) -> usize {
        0
    }
}

impl Portable for ArchivedNumbers {
    ghost shape = { choice (codes "ArchivedNumbers") (variant
        (part ⟦<ArchivedVec<u8> as Portable>⟧.shape no_part)
        (variant (part ⟦<ArchivedSum as Portable>⟧.shape no_part) no_variant)) };

    ghost layout = { record { size = 16; align = 4 } };

    type Check = ArchivedNumbers;

    ghost is_one = { refl };

    ghost is_align = { inr (inr (inl refl)) };

    ghost has_layout = { record { solved = λ s k. refl } };

    ghost no_others = { no_definition_reached (choice (codes "ArchivedNumbers")
        (variant (part ⟦<ArchivedVec<u8> as Portable>⟧.shape no_part)
        (variant (part ⟦<ArchivedSum as Portable>⟧.shape no_part) no_variant))) };

    ghost checks = { λ _. plain_own_check _ _ _ _ _ refl refl refl refl };

    fn size() -> usize {
        16
    }

    fn align() -> usize {
        4
    }

    fn expr(alloc: Global) -> Result<archive_core::shape::Expr, Error> {
        expr_of_choice::<NumbersVariants>(alloc, "ArchivedNumbers")
    }

    fn define(_alloc: Global, _defs: &mut Defs) -> Result<(), Error> {
        Ok(())
    }
}

impl SelfCheck for ArchivedNumbers {
    ghost shape = { choice (codes "ArchivedNumbers") (variant
        (part ⟦<ArchivedVec<u8> as Portable>⟧.shape no_part)
        (variant (part ⟦<ArchivedSum as Portable>⟧.shape no_part) no_variant)) };

    ghost definitions = { (both (both no_definition no_definition)
        (both (both no_definition no_definition) no_definition)) };

    ghost span = { 16 };

    ghost direct = { true };

    ghost nameless = { true };

    fn is_direct() -> bool {
        true
    }

    fn is_nameless() -> bool {
        true
    }

    #[inline(always)]
    fn check_at<C: ArchiveContext>(
        bytes: &[u8],
        at: usize,
        refusal: &mut Error,
        context: &mut C,
    ) -> Option<()> {
        check_choice::<NumbersVariants, C>("ArchivedNumbers", bytes, at, refusal, context)
    }
}

impl Choice for ArchivedNumbers {
    type Variants = NumbersVariants;

    ghost name = { codes "ArchivedNumbers" };

    ghost has_variants = { plain_choice (codes "ArchivedNumbers")
        (variant (part ⟦<ArchivedVec<u8> as Portable>⟧.shape no_part)
        (variant (part ⟦<ArchivedSum as Portable>⟧.shape no_part) no_variant))
        (both (both no_definition no_definition) (both (both no_definition no_definition)
        no_definition)) refl };

    ghost holds = { lit≤ tt };
}

/// What is kept of `Numbers` between `serialize` and `resolve`.
#[derive(Drop)]
pub enum NumbersResolver {
    /// Of `Done`.
    Done((<Vec<u8> as Archive>::Resolver, ())),
    /// Of `Failed`.
    Failed((<Sum as Archive>::Resolver, ())),
}

impl Archive for Numbers {
    ghost use Rattle.derived_plain.specs.contracts.outcome.SumArchive.TheImpl.Laws.{keyed-law as keyed_of_sum, planned-law as planned_of_sum};
    ghost use Rattle.derived_plain.specs.declared.outcome.Outcome.TheVariants.{Done as NumbersDone, Failed as NumbersFailed};
    ghost use Rattle.derived_plain.specs.declared.outcome.NumbersResolver.TheVariants.{Done as NumbersDoneKept, Failed as NumbersFailedKept};

    type Archived = ArchivedNumbers;

    type Resolver = NumbersResolver;

    ghost meaning = { elim [
      | NumbersDone a0 ↦ case 0 (value (⟦<Vec<u8> as Archive>⟧.meaning a0) no_value)
      | NumbersFailed a0 ↦ case 1 (value (⟦<Sum as Archive>⟧.meaning a0) no_value)
    ] };

    ghost flat = { λ v r. elim v [
      | NumbersDone a0 ↦ elim r [
        | NumbersDoneKept s ↦ case 0 (value (⟦<Vec<u8> as Archive>⟧.flat a0 s.0) no_value)
        | _ ↦ case 0 no_value
      ]
      | NumbersFailed a0 ↦ elim r [
        | NumbersFailedKept s ↦ case 1 (value (⟦<Sum as Archive>⟧.flat a0 s.0) no_value)
        | _ ↦ case 1 no_value
      ]
    ] };

    ghost keys = { elim [
      | NumbersDone a0 ↦ ⟦<Vec<u8> as Archive>⟧.keys a0 ++ []
      | NumbersFailed a0 ↦ ⟦<Sum as Archive>⟧.keys a0 ++ []
    ] };

    ghost belongs = { λ v r. elim v [
      | NumbersDone a0 ↦ elim r [
        | NumbersDoneKept s ↦ ⟦<Vec<u8> as Archive>⟧.belongs a0 s.0 × Unit {0}
        | _ ↦ ⊥
      ]
      | NumbersFailed a0 ↦ elim r [
        | NumbersFailedKept s ↦ ⟦<Sum as Archive>⟧.belongs a0 s.0 × Unit {0}
        | _ ↦ ⊥
      ]
    ] };

    ghost in_bulk = { None };

    ghost keyed = { elim [
      | NumbersDone a0 ↦ case_keyed _ 0 _ (part_keyed (each_keyed ⟦<u8 as Archive>⟧.keys
          ⟦<u8 as Archive>⟧.meaning (λ x. number_keyed _) a0.items) nothing_keyed)
      | NumbersFailed a0 ↦ case_keyed _ 1 _ (part_keyed (keyed_of_sum a0) nothing_keyed)
    ] };

    ghost planned = { elim [
      | NumbersDone a0 ↦ plain_variant_planned _ _ 0 (part ⟦<ArchivedVec<u8> as Portable>⟧.shape
          no_part) refl (both no_definition no_definition) _ _
          (part_planned no_definition ⟦<ArchivedVec<u8> as Portable>⟧.shape
          (⟦<Vec<u8> as Archive>⟧.keys a0) (⟦<Vec<u8> as Archive>⟧.meaning a0)
          (vec_planned no_definition ⟦<u8 as Portable>⟧.shape _ _ _
          (slice_planned no_definition ⟦<u8 as Portable>⟧.shape ⟦<u8 as Archive>⟧.keys
          ⟦<u8 as Archive>⟧.meaning (λ x. leaf_planned no_definition _ _ [] _ refl) a0.items))
          no_part_planned) refl
      | NumbersFailed a0 ↦ plain_variant_planned _ _ 1
          (part ⟦<ArchivedSum as Portable>⟧.shape no_part) refl (both no_definition no_definition) _
          _ (part_planned no_definition ⟦<ArchivedSum as Portable>⟧.shape
          (⟦<Sum as Archive>⟧.keys a0) (⟦<Sum as Archive>⟧.meaning a0) (planned_of_sum a0)
          no_part_planned) refl
    ] };

    #[inline(always)]
    fn resolve(
        &self,
        resolver: Self::Resolver,
        place: Place<'_, Self::Archived>,
    ) -> Result<(), Error>
        requires zeroed { ZeroedPlace 16 place.pos place.bytes.now }
        requires same_value { ⟦<Self as Archive>⟧.belongs self.now resolver }
        ensures { ResolvesAs ⟦<Self::Archived as Portable>⟧ place
            (⟦<Self as Archive>⟧.flat self.now resolver) result }
    {
        let Place { bytes, pos, .. } = place;
        match self {
            Numbers::Done(a0) => {
                let NumbersResolver::Done(kept) = resolver else {
                    unreachable!();
                };
                resolve_case_1::<Vec<u8>, ArchivedNumbers>(0, a0, kept, Place::new(pos, bytes))
            }
            Numbers::Failed(a0) => {
                let NumbersResolver::Failed(kept) = resolver else {
                    unreachable!();
                };
                resolve_case_1::<Sum, ArchivedNumbers>(1, a0, kept, Place::new(pos, bytes))
            }
        }
    }

    #[inline(always)]
    fn copy_optimization() -> CopyOptimization<Self> {
        CopyOptimization::disable()
    }

    #[inline(always)]
    fn serialize_copied<S: Writer + Keys>(
        _values: &[Self],
        _together: usize,
        _serializer: &mut S,
    ) -> Result<Option<usize>, Error> {
        Ok(None)
    }
}

impl<S: Writer + ResolverAlloc> Serialize<S> for Numbers {
    #[inline(always)]
    fn serialize(&self, serializer: &mut S) -> Result<Self::Resolver, Error> {
        match self {
            Numbers::Done(a0) => match serialize_case_1::<Vec<u8>, ArchivedNumbers, S>(
                0, a0, serializer,
            ) {
                Ok(kept) => Ok(NumbersResolver::Done(kept)),
                Err(error) => Err(error),
            },
            Numbers::Failed(a0) => match serialize_case_1::<Sum, ArchivedNumbers, S>(
                1, a0, serializer,
            ) {
                Ok(kept) => Ok(NumbersResolver::Failed(kept)),
                Err(error) => Err(error),
            },
        }
    }
}

/// As a region of its own: the value itself.
impl ArchiveUnsized for Numbers {
    ghost use Rattle.derived_plain.specs.contracts.outcome.NumbersArchive.TheImpl.Laws.{keyed-law as keyed_of_numbers, planned-law as planned_of_numbers};

    type Archived = ArchivedNumbers;

    ghost source_length = { λ _. 0 };

    ghost meaning = { ⟦<Numbers as Archive>⟧.meaning };

    ghost keys = { ⟦<Numbers as Archive>⟧.keys };

    ghost keyed = { keyed_of_numbers };

    ghost one_length = { λ _ _. refl };

    ghost planned = { λ v. one_planned no_definition (choice (codes "ArchivedNumbers")
        (variant (part ⟦<ArchivedVec<u8> as Portable>⟧.shape no_part)
        (variant (part ⟦<ArchivedSum as Portable>⟧.shape no_part) no_variant)))
        (⟦<Numbers as Archive>⟧.keys v) (⟦<Numbers as Archive>⟧.meaning v) (planned_of_numbers v) };

    #[inline(always)]
    fn archived_metadata(&self) -> Result<(), Error> {
        Ok(())
    }
}

impl<S: Writer + ResolverAlloc> SerializeUnsized<S> for Numbers {
    #[inline(always)]
    fn serialize_unsized(&self, serializer: &mut S) -> Result<usize, Error> {
        serialize_one(self, serializer)
    }
}

impl<D: Entries> Deserialize<Numbers, D> for ArchivedNumbers {
    #[inline(always)]
    fn deserialize_part(
        alloc: Global,
        part: RawView<'_>,
        deserializer: &mut D,
    ) -> Result<Numbers, Error>
        requires { IsPartOf ⟦<Self as ArchivePointee>⟧ part }
        ensures { ReadsAs ⟦<Self as ArchivePointee>⟧ part D.Entries deserializer
            ⟦<Numbers as Archive>⟧ result }
    {
        match known_tag::<Self>(part) {
            0 => match read_case::<Self, NumbersDoneParts, NumbersDoneOwned, D>(
                0,
                alloc,
                part,
                deserializer,
            ) {
                Ok((a0, ())) => Ok(Numbers::Done(a0)),
                Err(error) => Err(error),
            },
            _ => match read_case::<Self, NumbersFailedParts, NumbersFailedOwned, D>(
                1,
                alloc,
                part,
                deserializer,
            ) {
                Ok((a0, ())) => Ok(Numbers::Failed(a0)),
                Err(error) => Err(error),
            },
        }
    }
}

/// What a view of an archived `Numbers` shows, by its tag.
#[derive(Drop)]
pub enum ViewOfNumbers<'a> {
    /// It was done, with this.
    Done(Ref<'a, ArchivedVec<u8>>),
    /// It failed, for this.
    Failed(Ref<'a, ArchivedSum>),
}

/// The variant of an archived `Numbers`, as a view.
pub trait NumbersView<'a> {
    /// The variant that the tag names, with views of its fields.
    fn variant(self) -> ViewOfNumbers<'a>;
}

impl<'a> NumbersView<'a> for Ref<'a, ArchivedNumbers> {
    ghost use Rattle.derived_plain.specs.declared.outcome.ViewOfNumbers.TheVariants.{Done as NumbersDoneShown, Failed as NumbersFailedShown};

    fn variant(self) -> ViewOfNumbers<'a>
        ensures shows { elim result [
          | NumbersDoneShown a0 ↦ (tag_of self.entry ≡ 0) × (a0.bytes.now ≡ self.entry.bytes.now)
              × (a0.pos ≡ self.entry.pos + 4) × (a0.len ≡ 0)
              × ShowsValueOf a0 self.entry (payload_in 0)
          | NumbersFailedShown a0 ↦ (tag_of self.entry ≡ 1) × (a0.bytes.now ≡ self.entry.bytes.now)
              × (a0.pos ≡ self.entry.pos + 4) × (a0.len ≡ 0)
              × ShowsValueOf a0 self.entry (payload_in 0)
        ] }
    {
        match tag_in(self) {
            0 => {
                let a0 = part_in_case::<ArchivedNumbers, ArchivedVec<u8>>(self, 0, 0, 4);
                ViewOfNumbers::Done(a0)
            }
            _ => ViewOfNumbers::Failed(part_in_case::<ArchivedNumbers, ArchivedSum>(self, 1, 0, 4)),
        }
    }
}

/// The fields of an archived `Numbers`, as seals. The caller must ensure that the tag is the variant's.
pub trait NumbersSeal<'a> {
    // The seal shows a part of a buffer that was checked.
    ghost sealed: { Self → Type 0 };

    // The tag that it shows.
    ghost tag: { Self → ℕ };

    /// The field `0` of `Done`.
    fn done_0_mut(self) -> Seal<'a, ArchivedVec<u8>>
        requires come_to { sealed self }
        requires tag { tag self ≡ 0 };

    /// The field `0` of `Failed`.
    fn failed_0_mut(self) -> Seal<'a, ArchivedSum>
        requires come_to { sealed self }
        requires tag { tag self ≡ 1 };
}

impl<'a> NumbersSeal<'a> for Seal<'a, ArchivedNumbers> {
    ghost sealed = { λ s. IsSealOf no_definition (one ⟦<ArchivedNumbers as Portable>⟧.shape) s };

    ghost tag = { λ s. seal_tag s };

    fn done_0_mut(self) -> Seal<'a, ArchivedVec<u8>>
        requires come_to { IsSealOf no_definition (one ⟦<ArchivedNumbers as Portable>⟧.shape) self }
        requires tag { seal_tag self ≡ 0 }
        ensures { SealsPart no_definition (one ⟦<ArchivedNumbers as Portable>⟧.shape) no_definition
            ⟦<ArchivedVec<u8> as ArchivePointee>⟧.pointee (self.entry.pos + 4) 0 self.entry result }
    {
        sealed_part_in_case::<ArchivedNumbers, ArchivedVec<u8>>(self, 0, 0, 4)
    }

    fn failed_0_mut(self) -> Seal<'a, ArchivedSum>
        requires come_to { IsSealOf no_definition (one ⟦<ArchivedNumbers as Portable>⟧.shape) self }
        requires tag { seal_tag self ≡ 1 }
        ensures { SealsPart no_definition (one ⟦<ArchivedNumbers as Portable>⟧.shape) no_definition
            ⟦<ArchivedSum as ArchivePointee>⟧.pointee (self.entry.pos + 4) 0 self.entry result }
    {
        sealed_part_in_case::<ArchivedNumbers, ArchivedSum>(self, 1, 0, 4)
    }
}
