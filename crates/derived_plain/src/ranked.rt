//! What is ordered and hashed, as views and as values, by names that mean something elsewhere: words of contracts, calls of views, variants of `Option` and
//! `Result`.

use archive_core::primitive::NonZero;
use std::collections::BTreeMap;

/// What something is called.
#[derive(Debug, PartialEq, Eq, PartialOrd, Ord, Hash, Drop)]
pub enum Label {
    /// Nothing, as `Option` has it.
    None,
    /// A number. `Option` has this name, too.
    Some(u16),
    /// A name, and which of them. `Result` has this one.
    Ok {
        /// The name.
        name: String,
        /// Which of them, from below 0 on.
        which: i8,
    },
}

/// What is compared of each kind: the first field that differs decides.
#[derive(Debug, PartialEq, Eq, Drop)]
pub struct Scores {
    /// A letter's byte, or whether there is one. A word of contracts.
    pub data: Result<u8, bool>,
    /// Not 0, and the other one maybe below it. What contracts call an answer.
    pub result: (NonZero<u8>, NonZero<i8>),
    /// Numbers by names, boxed. A call of views: the accessor is `pos_field`.
    pub pos: BTreeMap<String, Box<i8>>,
    /// Labels, perhaps. A call of vectors alone.
    pub len: Option<Vec<Label>>,
}

// Below this line all is written by tools/derive: change what is above it, and run it again.

ghost use Rattle.archive_core.specs.CallOutcomes.{ResolvesAs};
ghost use Rattle.archive_core.specs.ComparedCases.{choice_fed, choice_order};
ghost use Rattle.archive_core.specs.ComparedLeaves.{bool_compared, signed_compared, signed_non_zero_compared, unsigned_compared, unsigned_non_zero_compared};
ghost use Rattle.archive_core.specs.ComparedTypes.{as_known, box_compared, case_compared, choice_compared, field_compared, map_compared, no_case_compared, no_field_compared, option_compared, pair_compared, record_compared, result_compared, string_compared, vec_compared};
ghost use Rattle.archive_core.specs.Definitions.{both, no_definition};
ghost use Rattle.archive_core.specs.Fields.{field_in};
ghost use Rattle.archive_core.specs.Keyed.{box_keyed, case_keyed, each_keyed, nothing_keyed, number_keyed, part_keyed, record_keyed, text_keyed};
ghost use Rattle.archive_core.specs.LeafLayout.{no_definition_reached};
ghost use Rattle.archive_core.specs.Options.{option_keyed, option_planned};
ghost use Rattle.archive_core.specs.PartsPlanned.{no_part_planned, part_planned, product_planned};
ghost use Rattle.archive_core.specs.Payloads.{payload_in};
ghost use Rattle.archive_core.specs.Plain.{plain_choice, plain_own_check, plain_record, plain_record_planned, plain_variant_planned};
ghost use Rattle.archive_core.specs.Planned.{leaf_planned, string_planned};
ghost use Rattle.archive_core.specs.PlannedMaps.{map_of_pairs_planned, pairs_keyed};
ghost use Rattle.archive_core.specs.PlannedOwners.{boxed_one_planned, one_planned, slice_planned, vec_planned};
ghost use Rattle.archive_core.specs.ReadBack.{ReadsAs};
ghost use Rattle.archive_core.specs.Results.{result_keyed, result_planned};
ghost use Rattle.archive_core.specs.SealOutcomes.{IsSealOf, SealsPart, seal_tag};
ghost use Rattle.archive_core.specs.Seen.{IsPartOf, ShowsValueOf, tag_of};
ghost use Rattle.archive_core.specs.Shape.{choice, no_part, no_variant, one, part, parts, variant};
ghost use Rattle.archive_core.specs.Value.{case, no_value, product, value};
ghost use Rattle.archive_core.specs.Writing.{ZeroedPlace};
ghost use Rattle.std.proofs.Common.{inl, inr, lit≤};
ghost use Rattle.std.specs.Int.{w16, w8};
ghost use Rattle.std.specs.Prelude.{None, [], codes, length, refl, string_bytes, true, ℕ, ◌++◌, ◌+◌, ◌≡◌};

use archive_core::boxed::ArchivedBox;
use archive_core::compare::Ordered;
use archive_core::compared::{
    ComparedCases, ComparedFields, compare_choice, compare_record, hash_choice, hash_record,
};
use archive_core::core_impls::ArchivedTuple2;
use archive_core::error::Error;
use archive_core::fields::{
    known_tag, part_in_case, part_in_record, read_case, resolve_case_0, resolve_case_1,
    resolve_case_2, resolve_record_4, serialize_case_0, serialize_case_1, serialize_case_2,
    serialize_record_4, tag_in,
};
use archive_core::map::ArchivedSortedMap;
use archive_core::option::ArchivedOption;
use archive_core::place::Place;
use archive_core::primitive::ArchivedU16;
use archive_core::record::deserialize_record;
use archive_core::result::ArchivedResult;
use archive_core::seal::{Seal, sealed_part_in_case, sealed_part_in_record};
use archive_core::self_check::{RecordCheck, SelfCheck, check_choice};
use archive_core::ser::{ResolverAlloc, Writer, serialize_one};
use archive_core::shape::Defs;
use archive_core::string::ArchivedString;
use archive_core::traits::{
    Archive, ArchivePointee, ArchiveUnsized, Choice, CopyOptimization, Deserialize, Entries,
    FourParts, Keys, MapKey, Portable, Record, Serialize, SerializeUnsized, expr_of_choice,
    expr_of_record,
};
use archive_core::validation::ArchiveContext;
use archive_core::vec::ArchivedVec;
use archive_core::view::{RawView, Ref};
use std::alloc::Global;
use std::cmp::Ordering;
use std::hash::{Hash, Hasher};

/// An archived `Label`: 16 bytes at a multiple of 4.
pub struct ArchivedLabel;

type LabelSomeParts = (ArchivedU16, ());

type LabelSomeOwned = (u16, ());

type LabelOkParts = (ArchivedString, (i8, ()));

type LabelOkOwned = (String, (i8, ()));

type LabelVariants = ((), (LabelSomeParts, (LabelOkParts, ())));

impl ArchivePointee for ArchivedLabel {
    type ArchivedMetadata = ();

    ghost pointee = { one (choice (codes "ArchivedLabel")
        (variant no_part (variant (part ⟦<ArchivedU16 as Portable>⟧.shape no_part)
        (variant (part ⟦<ArchivedString as Portable>⟧.shape (part ⟦<i8 as Portable>⟧.shape no_part))
        no_variant)))) };

    ghost definitions = { no_definition };

    ghost metadata_length = { λ _. 0 };

    fn pointer_metadata(_metadata: &()) -> usize {
        0
    }
}

impl Portable for ArchivedLabel {
    ghost shape = { choice (codes "ArchivedLabel") (variant no_part
        (variant (part ⟦<ArchivedU16 as Portable>⟧.shape no_part)
        (variant (part ⟦<ArchivedString as Portable>⟧.shape (part ⟦<i8 as Portable>⟧.shape no_part))
        no_variant))) };

    ghost layout = { record { size = 16; align = 4 } };

    type Check = ArchivedLabel;

    ghost is_one = { refl };

    ghost is_align = { inr (inr (inl refl)) };

    ghost has_layout = { record { solved = λ s k. refl } };

    ghost no_others = { no_definition_reached (choice (codes "ArchivedLabel")
        (variant no_part (variant (part ⟦<ArchivedU16 as Portable>⟧.shape no_part)
        (variant (part ⟦<ArchivedString as Portable>⟧.shape (part ⟦<i8 as Portable>⟧.shape no_part))
        no_variant)))) };

    ghost checks = { λ _. plain_own_check _ _ _ _ _ refl refl refl refl };

    fn size() -> usize {
        16
    }

    fn align() -> usize {
        4
    }

    fn expr(alloc: Global) -> Result<archive_core::shape::Expr, Error> {
        expr_of_choice::<LabelVariants>(alloc, "ArchivedLabel")
    }

    fn define(_alloc: Global, _defs: &mut Defs) -> Result<(), Error> {
        Ok(())
    }
}

impl SelfCheck for ArchivedLabel {
    ghost shape = { choice (codes "ArchivedLabel") (variant no_part
        (variant (part ⟦<ArchivedU16 as Portable>⟧.shape no_part)
        (variant (part ⟦<ArchivedString as Portable>⟧.shape (part ⟦<i8 as Portable>⟧.shape no_part))
        no_variant))) };

    ghost definitions = { (both no_definition (both (both no_definition no_definition)
        (both (both no_definition (both no_definition no_definition)) no_definition))) };

    ghost span = { 13 };

    ghost direct = { true };

    ghost nameless = { true };

    fn is_direct() -> bool {
        true
    }

    fn is_nameless() -> bool {
        true
    }

    #[inline(always)]
    fn check_at<C: ArchiveContext>(
        bytes: &[u8],
        at: usize,
        refusal: &mut Error,
        context: &mut C,
    ) -> Option<()> {
        check_choice::<LabelVariants, C>("ArchivedLabel", bytes, at, refusal, context)
    }
}

impl Choice for ArchivedLabel {
    type Variants = LabelVariants;

    ghost name = { codes "ArchivedLabel" };

    ghost has_variants = { plain_choice (codes "ArchivedLabel")
        (variant no_part (variant (part ⟦<ArchivedU16 as Portable>⟧.shape no_part)
        (variant (part ⟦<ArchivedString as Portable>⟧.shape (part ⟦<i8 as Portable>⟧.shape no_part))
        no_variant))) (both no_definition (both (both no_definition no_definition)
        (both (both no_definition (both no_definition no_definition)) no_definition))) refl };

    ghost holds = { lit≤ tt };
}

/// What is kept of `Label` between `serialize` and `resolve`.
#[derive(Drop)]
pub enum LabelResolver {
    /// Of `None`.
    None,
    /// Of `Some`.
    Some((<u16 as Archive>::Resolver, ())),
    /// Of `Ok`.
    Ok(
        (
            <String as Archive>::Resolver,
            (<i8 as Archive>::Resolver, ()),
        ),
    ),
}

impl Archive for Label {
    ghost use Rattle.derived_plain.specs.declared.ranked.Label.TheVariants.{None as LabelNone, Ok as LabelOk, Some as LabelSome};
    ghost use Rattle.derived_plain.specs.declared.ranked.LabelResolver.TheVariants.{None as LabelNoneKept, Ok as LabelOkKept, Some as LabelSomeKept};

    type Archived = ArchivedLabel;

    type Resolver = LabelResolver;

    ghost meaning = { elim [
      | LabelNone ↦ case 0 no_value
      | LabelSome a0 ↦ case 1 (value (⟦<u16 as Archive>⟧.meaning a0) no_value)
      | LabelOk a0 a1 ↦ case 2 (value (⟦<String as Archive>⟧.meaning a0)
          (value (⟦<i8 as Archive>⟧.meaning a1) no_value))
    ] };

    ghost flat = { λ v r. elim v [
      | LabelNone ↦ case 0 no_value
      | LabelSome a0 ↦ elim r [
        | LabelSomeKept s ↦ case 1 (value (⟦<u16 as Archive>⟧.flat a0 s.0) no_value)
        | _ ↦ case 1 no_value
      ]
      | LabelOk a0 a1 ↦ elim r [
        | LabelOkKept s ↦ case 2 (value (⟦<String as Archive>⟧.flat a0 s.0)
            (value (⟦<i8 as Archive>⟧.flat a1 s.1.0) no_value))
        | _ ↦ case 2 no_value
      ]
    ] };

    ghost keys = { elim [
      | LabelNone ↦ []
      | LabelSome a0 ↦ ⟦<u16 as Archive>⟧.keys a0 ++ []
      | LabelOk a0 a1 ↦ ⟦<String as Archive>⟧.keys a0 ++ (⟦<i8 as Archive>⟧.keys a1 ++ [])
    ] };

    ghost belongs = { λ v r. elim v [
      | LabelNone ↦ elim r [ LabelNoneKept ↦ Unit {0} | _ ↦ ⊥ ]
      | LabelSome a0 ↦ elim r [
        | LabelSomeKept s ↦ ⟦<u16 as Archive>⟧.belongs a0 s.0 × Unit {0}
        | _ ↦ ⊥
      ]
      | LabelOk a0 a1 ↦ elim r [
        | LabelOkKept s ↦ ⟦<String as Archive>⟧.belongs a0 s.0
            × (⟦<i8 as Archive>⟧.belongs a1 s.1.0 × Unit {0})
        | _ ↦ ⊥
      ]
    ] };

    ghost in_bulk = { None };

    ghost keyed = { elim [
      | LabelNone ↦ case_keyed _ 0 _ nothing_keyed
      | LabelSome a0 ↦ case_keyed _ 1 _ (part_keyed (number_keyed _) nothing_keyed)
      | LabelOk a0 a1 ↦ case_keyed _ 2 _ (part_keyed (text_keyed (string_bytes a0))
          (part_keyed (number_keyed _) nothing_keyed))
    ] };

    ghost planned = { elim [
      | LabelNone ↦ plain_variant_planned _ _ 0 no_part refl no_definition _ _ no_part_planned refl
      | LabelSome a0 ↦ plain_variant_planned _ _ 1 (part ⟦<ArchivedU16 as Portable>⟧.shape no_part)
          refl (both no_definition no_definition) _ _ (part_planned no_definition
          ⟦<ArchivedU16 as Portable>⟧.shape (⟦<u16 as Archive>⟧.keys a0)
          (⟦<u16 as Archive>⟧.meaning a0) (leaf_planned no_definition _ _ [] _ refl)
          no_part_planned) refl
      | LabelOk a0 a1 ↦ plain_variant_planned _ _ 2 (part ⟦<ArchivedString as Portable>⟧.shape
          (part ⟦<i8 as Portable>⟧.shape no_part)) refl (both no_definition
          (both no_definition no_definition)) _ _ (part_planned no_definition
          ⟦<ArchivedString as Portable>⟧.shape (⟦<String as Archive>⟧.keys a0)
          (⟦<String as Archive>⟧.meaning a0) (string_planned no_definition [] (string_bytes a0))
          (part_planned no_definition ⟦<i8 as Portable>⟧.shape (⟦<i8 as Archive>⟧.keys a1)
          (⟦<i8 as Archive>⟧.meaning a1) (leaf_planned no_definition _ _ [] _ refl)
          no_part_planned)) refl
    ] };

    #[inline(always)]
    fn resolve(
        &self,
        resolver: Self::Resolver,
        place: Place<'_, Self::Archived>,
    ) -> Result<(), Error>
        requires zeroed { ZeroedPlace 16 place.pos place.bytes.now }
        requires same_value { ⟦<Self as Archive>⟧.belongs self.now resolver }
        ensures { ResolvesAs ⟦<Self::Archived as Portable>⟧ place
            (⟦<Self as Archive>⟧.flat self.now resolver) result }
    {
        let Place { bytes, pos, .. } = place;
        match self {
            Label::None => resolve_case_0::<ArchivedLabel>(0, (), Place::new(pos, bytes)),
            Label::Some(a0) => {
                let LabelResolver::Some(kept) = resolver else {
                    unreachable!();
                };
                resolve_case_1::<u16, ArchivedLabel>(1, a0, kept, Place::new(pos, bytes))
            }
            Label::Ok {
                name: a0,
                which: a1,
            } => {
                let LabelResolver::Ok(kept) = resolver else {
                    unreachable!();
                };
                resolve_case_2::<String, i8, ArchivedLabel>(2, a0, a1, kept, Place::new(pos, bytes))
            }
        }
    }

    #[inline(always)]
    fn copy_optimization() -> CopyOptimization<Self> {
        CopyOptimization::disable()
    }

    #[inline(always)]
    fn serialize_copied<S: Writer + Keys>(
        _values: &[Self],
        _together: usize,
        _serializer: &mut S,
    ) -> Result<Option<usize>, Error> {
        Ok(None)
    }
}

impl<S: Writer + ResolverAlloc> Serialize<S> for Label {
    #[inline(always)]
    fn serialize(&self, serializer: &mut S) -> Result<Self::Resolver, Error> {
        match self {
            Label::None => match serialize_case_0::<ArchivedLabel, S>(0, serializer) {
                Ok(()) => Ok(LabelResolver::None),
                Err(error) => Err(error),
            },
            Label::Some(a0) => match serialize_case_1::<u16, ArchivedLabel, S>(1, a0, serializer) {
                Ok(kept) => Ok(LabelResolver::Some(kept)),
                Err(error) => Err(error),
            },
            Label::Ok {
                name: a0,
                which: a1,
            } => match serialize_case_2::<String, i8, ArchivedLabel, S>(2, a0, a1, serializer) {
                Ok(kept) => Ok(LabelResolver::Ok(kept)),
                Err(error) => Err(error),
            },
        }
    }
}

/// As a region of its own: the value itself.
impl ArchiveUnsized for Label {
    ghost use Rattle.derived_plain.specs.contracts.ranked.LabelArchive.TheImpl.Laws.{keyed-law as keyed_of_label, planned-law as planned_of_label};

    type Archived = ArchivedLabel;

    ghost source_length = { λ _. 0 };

    ghost meaning = { ⟦<Label as Archive>⟧.meaning };

    ghost keys = { ⟦<Label as Archive>⟧.keys };

    ghost keyed = { keyed_of_label };

    ghost one_length = { λ _ _. refl };

    ghost planned = { λ v. one_planned no_definition (choice (codes "ArchivedLabel")
        (variant no_part (variant (part ⟦<ArchivedU16 as Portable>⟧.shape no_part)
        (variant (part ⟦<ArchivedString as Portable>⟧.shape (part ⟦<i8 as Portable>⟧.shape no_part))
        no_variant)))) (⟦<Label as Archive>⟧.keys v) (⟦<Label as Archive>⟧.meaning v)
        (planned_of_label v) };

    #[inline(always)]
    fn archived_metadata(&self) -> Result<(), Error> {
        Ok(())
    }
}

impl<S: Writer + ResolverAlloc> SerializeUnsized<S> for Label {
    #[inline(always)]
    fn serialize_unsized(&self, serializer: &mut S) -> Result<usize, Error> {
        serialize_one(self, serializer)
    }
}

impl<D: Entries> Deserialize<Label, D> for ArchivedLabel {
    #[inline(always)]
    fn deserialize_part(
        alloc: Global,
        part: RawView<'_>,
        deserializer: &mut D,
    ) -> Result<Label, Error>
        requires { IsPartOf ⟦<Self as ArchivePointee>⟧ part }
        ensures { ReadsAs ⟦<Self as ArchivePointee>⟧ part D.Entries deserializer
            ⟦<Label as Archive>⟧ result }
    {
        match known_tag::<Self>(part) {
            0 => match read_case::<Self, (), (), D>(0, alloc, part, deserializer) {
                Ok(()) => Ok(Label::None),
                Err(error) => Err(error),
            },
            1 => match read_case::<Self, LabelSomeParts, LabelSomeOwned, D>(
                1,
                alloc,
                part,
                deserializer,
            ) {
                Ok((a0, ())) => Ok(Label::Some(a0)),
                Err(error) => Err(error),
            },
            _ => match read_case::<Self, LabelOkParts, LabelOkOwned, D>(
                2,
                alloc,
                part,
                deserializer,
            ) {
                Ok((a0, (a1, ()))) => Ok(Label::Ok {
                    name: a0,
                    which: a1,
                }),
                Err(error) => Err(error),
            },
        }
    }
}

/// What a view of an archived `Label` shows, by its tag.
#[derive(Drop)]
pub enum ViewOfLabel<'a> {
    /// Nothing, as `Option` has it.
    None,
    /// A number. `Option` has this name, too.
    Some(Ref<'a, ArchivedU16>),
    /// A name, and which of them. `Result` has this one.
    Ok {
        /// The name.
        name: Ref<'a, ArchivedString>,
        /// Which of them, from below 0 on.
        which: Ref<'a, i8>,
    },
}

/// The variant of an archived `Label`, as a view.
pub trait LabelView<'a> {
    /// The variant that the tag names, with views of its fields.
    fn variant(self) -> ViewOfLabel<'a>;
}

impl<'a> LabelView<'a> for Ref<'a, ArchivedLabel> {
    ghost use Rattle.derived_plain.specs.declared.ranked.ViewOfLabel.TheVariants.{None as LabelNoneShown, Ok as LabelOkShown, Some as LabelSomeShown};

    fn variant(self) -> ViewOfLabel<'a>
        ensures shows { elim result [
          | LabelNoneShown ↦ (tag_of self.entry ≡ 0)
          | LabelSomeShown a0 ↦ (tag_of self.entry ≡ 1) × (a0.bytes.now ≡ self.entry.bytes.now)
              × (a0.pos ≡ self.entry.pos + 2) × (a0.len ≡ 0)
              × ShowsValueOf a0 self.entry (payload_in 0)
          | LabelOkShown a0 a1 ↦ (tag_of self.entry ≡ 2) × (a0.bytes.now ≡ self.entry.bytes.now)
              × (a0.pos ≡ self.entry.pos + 4) × (a0.len ≡ 0)
              × ShowsValueOf a0 self.entry (payload_in 0) × (a1.bytes.now ≡ self.entry.bytes.now)
              × (a1.pos ≡ self.entry.pos + 12) × (a1.len ≡ 0)
              × ShowsValueOf a1 self.entry (payload_in 1)
        ] }
    {
        match tag_in(self) {
            0 => ViewOfLabel::None,
            1 => ViewOfLabel::Some(part_in_case::<ArchivedLabel, ArchivedU16>(self, 1, 0, 2)),
            _ => ViewOfLabel::Ok {
                name: part_in_case::<ArchivedLabel, ArchivedString>(self, 2, 0, 4),
                which: part_in_case::<ArchivedLabel, i8>(self, 2, 1, 12),
            },
        }
    }
}

/// The fields of an archived `Label`, as seals. The caller must ensure that the tag is the variant's.
pub trait LabelSeal<'a> {
    // The seal shows a part of a buffer that was checked.
    ghost sealed: { Self → Type 0 };

    // The tag that it shows.
    ghost tag: { Self → ℕ };

    /// The field `0` of `Some`.
    fn some_0_mut(self) -> Seal<'a, ArchivedU16>
        requires come_to { sealed self }
        requires tag { tag self ≡ 1 };

    /// The name.
    fn ok_name_mut(self) -> Seal<'a, ArchivedString>
        requires come_to { sealed self }
        requires tag { tag self ≡ 2 };

    /// Which of them, from below 0 on.
    fn ok_which_mut(self) -> Seal<'a, i8>
        requires come_to { sealed self }
        requires tag { tag self ≡ 2 };
}

impl<'a> LabelSeal<'a> for Seal<'a, ArchivedLabel> {
    ghost sealed = { λ s. IsSealOf no_definition (one ⟦<ArchivedLabel as Portable>⟧.shape) s };

    ghost tag = { λ s. seal_tag s };

    fn some_0_mut(self) -> Seal<'a, ArchivedU16>
        requires come_to { IsSealOf no_definition (one ⟦<ArchivedLabel as Portable>⟧.shape) self }
        requires tag { seal_tag self ≡ 1 }
        ensures { SealsPart no_definition (one ⟦<ArchivedLabel as Portable>⟧.shape) no_definition
            ⟦<ArchivedU16 as ArchivePointee>⟧.pointee (self.entry.pos + 2) 0 self.entry result }
    {
        sealed_part_in_case::<ArchivedLabel, ArchivedU16>(self, 1, 0, 2)
    }

    fn ok_name_mut(self) -> Seal<'a, ArchivedString>
        requires come_to { IsSealOf no_definition (one ⟦<ArchivedLabel as Portable>⟧.shape) self }
        requires tag { seal_tag self ≡ 2 }
        ensures { SealsPart no_definition (one ⟦<ArchivedLabel as Portable>⟧.shape) no_definition
            ⟦<ArchivedString as ArchivePointee>⟧.pointee (self.entry.pos + 4) 0 self.entry result }
    {
        sealed_part_in_case::<ArchivedLabel, ArchivedString>(self, 2, 0, 4)
    }

    fn ok_which_mut(self) -> Seal<'a, i8>
        requires come_to { IsSealOf no_definition (one ⟦<ArchivedLabel as Portable>⟧.shape) self }
        requires tag { seal_tag self ≡ 2 }
        ensures { SealsPart no_definition (one ⟦<ArchivedLabel as Portable>⟧.shape) no_definition
            ⟦<i8 as ArchivePointee>⟧.pointee (self.entry.pos + 12) 0 self.entry result }
    {
        sealed_part_in_case::<ArchivedLabel, i8>(self, 2, 1, 12)
    }
}

/// Views are compared as the values that they show.
impl Ordered for ArchivedLabel {
    ghost order = { choice_order ⟦<LabelVariants as ComparedCases>⟧.order };

    ghost hash_input = { choice_fed ⟦<LabelVariants as ComparedCases>⟧.hash_input };

    ghost settling = { 0 };

    ghost total = { (choice_compared (codes "ArchivedLabel")
        (case_compared no_field_compared (case_compared
        (field_compared (unsigned_compared w16 2 ⟦<u16 as Hash>⟧.hash_input refl)
        ⟦<ArchivedU16 as Portable>⟧.layout (record { solved = λ s k. refl }) no_field_compared)
        (case_compared (field_compared string_compared ⟦<ArchivedString as Portable>⟧.layout
        (record { solved = λ s k. refl }) (field_compared
        (signed_compared w8 1 ⟦<i8 as Hash>⟧.hash_input refl) ⟦<i8 as Portable>⟧.layout (record {
          solved = λ s k. refl;
        }) no_field_compared)) no_case_compared))) refl).total };

    ghost respects = { (choice_compared (codes "ArchivedLabel")
        (case_compared no_field_compared (case_compared
        (field_compared (unsigned_compared w16 2 ⟦<u16 as Hash>⟧.hash_input refl)
        ⟦<ArchivedU16 as Portable>⟧.layout (record { solved = λ s k. refl }) no_field_compared)
        (case_compared (field_compared string_compared ⟦<ArchivedString as Portable>⟧.layout
        (record { solved = λ s k. refl }) (field_compared
        (signed_compared w8 1 ⟦<i8 as Hash>⟧.hash_input refl) ⟦<i8 as Portable>⟧.layout (record {
          solved = λ s k. refl;
        }) no_field_compared)) no_case_compared))) refl).respects };

    ghost level = { tt };

    ghost by_value = { (choice_compared (codes "ArchivedLabel")
        (case_compared no_field_compared (case_compared
        (field_compared (unsigned_compared w16 2 ⟦<u16 as Hash>⟧.hash_input refl)
        ⟦<ArchivedU16 as Portable>⟧.layout (record { solved = λ s k. refl }) no_field_compared)
        (case_compared (field_compared string_compared ⟦<ArchivedString as Portable>⟧.layout
        (record { solved = λ s k. refl }) (field_compared
        (signed_compared w8 1 ⟦<i8 as Hash>⟧.hash_input refl) ⟦<i8 as Portable>⟧.layout (record {
          solved = λ s k. refl;
        }) no_field_compared)) no_case_compared))) refl).by_value };

    fn compare(a: RawView<'_>, b: RawView<'_>) -> Ordering {
        compare_choice::<Self, LabelVariants>(a, b)
    }

    fn hash_part<H: Hasher>(part: RawView<'_>, state: &mut H) {
        hash_choice::<Self, LabelVariants, H>(part, state);
    }

    fn settling_bytes() -> usize {
        0
    }
}

/// An archived `Scores`: 24 bytes at a multiple of 4.
pub struct ArchivedScores;

type ScoresParts = FourParts<
    ArchivedResult<u8, bool>,
    ArchivedTuple2<NonZero<u8>, NonZero<i8>>,
    ArchivedSortedMap<ArchivedString, ArchivedBox<i8>>,
    ArchivedOption<ArchivedVec<ArchivedLabel>>,
    (),
>;

type ScoresOwned = FourParts<
    Result<u8, bool>,
    (NonZero<u8>, NonZero<i8>),
    BTreeMap<String, Box<i8>>,
    Option<Vec<Label>>,
    (),
>;

impl ArchivePointee for ArchivedScores {
    type ArchivedMetadata = ();

    ghost pointee = { one (parts (part ⟦<ArchivedResult<u8, bool> as Portable>⟧.shape
        (part ⟦<ArchivedTuple2<NonZero<u8>, NonZero<i8>> as Portable>⟧.shape
        (part ⟦<ArchivedSortedMap<ArchivedString, ArchivedBox<i8>> as Portable>⟧.shape
        (part ⟦<ArchivedOption<ArchivedVec<ArchivedLabel>> as Portable>⟧.shape no_part))))) };

    ghost definitions = { no_definition };

    ghost metadata_length = { λ _. 0 };

    fn pointer_metadata(_metadata: &()) -> usize {
        0
    }
}

impl Portable for ArchivedScores {
    ghost shape = { parts (part ⟦<ArchivedResult<u8, bool> as Portable>⟧.shape
        (part ⟦<ArchivedTuple2<NonZero<u8>, NonZero<i8>> as Portable>⟧.shape
        (part ⟦<ArchivedSortedMap<ArchivedString, ArchivedBox<i8>> as Portable>⟧.shape
        (part ⟦<ArchivedOption<ArchivedVec<ArchivedLabel>> as Portable>⟧.shape no_part)))) };

    ghost layout = { record { size = 24; align = 4 } };

    type Check = ArchivedScores;

    ghost is_one = { refl };

    ghost is_align = { inr (inr (inl refl)) };

    ghost has_layout = { record { solved = λ s k. refl } };

    ghost no_others = { no_definition_reached (parts (part
        ⟦<ArchivedResult<u8, bool> as Portable>⟧.shape (part
        ⟦<ArchivedTuple2<NonZero<u8>, NonZero<i8>> as Portable>⟧.shape
        (part ⟦<ArchivedSortedMap<ArchivedString, ArchivedBox<i8>> as Portable>⟧.shape
        (part ⟦<ArchivedOption<ArchivedVec<ArchivedLabel>> as Portable>⟧.shape no_part))))) };

    ghost checks = { λ _. plain_own_check _ _ _ _ _ refl refl refl refl };

    fn size() -> usize {
        24
    }

    fn align() -> usize {
        4
    }

    fn expr(alloc: Global) -> Result<archive_core::shape::Expr, Error> {
        expr_of_record::<ScoresParts>(alloc)
    }

    fn define(_alloc: Global, _defs: &mut Defs) -> Result<(), Error> {
        Ok(())
    }
}

impl SelfCheck for ArchivedScores {
    ghost shape = { parts (part ⟦<ArchivedResult<u8, bool> as Portable>⟧.shape
        (part ⟦<ArchivedTuple2<NonZero<u8>, NonZero<i8>> as Portable>⟧.shape
        (part ⟦<ArchivedSortedMap<ArchivedString, ArchivedBox<i8>> as Portable>⟧.shape
        (part ⟦<ArchivedOption<ArchivedVec<ArchivedLabel>> as Portable>⟧.shape no_part)))) };

    ghost definitions = { (both (both no_definition no_definition)
        (both (both no_definition (both no_definition no_definition))
        (both (both no_definition (both no_definition no_definition))
        (both no_definition no_definition)))) };

    ghost span = { 24 };

    ghost direct = { true };

    ghost nameless = { true };

    fn is_direct() -> bool {
        true
    }

    fn is_nameless() -> bool {
        true
    }

    #[inline(always)]
    fn check_at<C: ArchiveContext>(
        bytes: &[u8],
        at: usize,
        refusal: &mut Error,
        context: &mut C,
    ) -> Option<()> {
        RecordCheck::<ScoresParts>::check_at(bytes, at, refusal, context)
    }
}

impl Record for ArchivedScores {
    type Parts = ScoresParts;

    ghost has_parts = { plain_record (part ⟦<ArchivedResult<u8, bool> as Portable>⟧.shape
        (part ⟦<ArchivedTuple2<NonZero<u8>, NonZero<i8>> as Portable>⟧.shape
        (part ⟦<ArchivedSortedMap<ArchivedString, ArchivedBox<i8>> as Portable>⟧.shape
        (part ⟦<ArchivedOption<ArchivedVec<ArchivedLabel>> as Portable>⟧.shape no_part))))
        (both (both no_definition no_definition) (both (both no_definition
        (both no_definition no_definition)) (both (both no_definition
        (both no_definition no_definition)) (both no_definition no_definition)))) refl };

    ghost holds = { lit≤ tt };
}

/// What is kept of `Scores` between `serialize` and `resolve`.
#[derive(Drop)]
pub struct ScoresResolver {
    kept: (
        <Result<u8, bool> as Archive>::Resolver,
        (
            <(NonZero<u8>, NonZero<i8>) as Archive>::Resolver,
            (
                <BTreeMap<String, Box<i8>> as Archive>::Resolver,
                (<Option<Vec<Label>> as Archive>::Resolver, ()),
            ),
        ),
    ),
}

impl Archive for Scores {
    ghost use Rattle.derived_plain.specs.contracts.ranked.LabelArchive.TheImpl.Laws.{keyed-law as keyed_of_label, planned-law as planned_of_label};

    type Archived = ArchivedScores;

    type Resolver = ScoresResolver;

    ghost meaning = { λ v. product (value (⟦<Result<u8, bool> as Archive>⟧.meaning v.data)
        (value (⟦<(NonZero<u8>, NonZero<i8>) as Archive>⟧.meaning v.result)
        (value (⟦<BTreeMap<String, Box<i8>> as Archive>⟧.meaning v.pos)
        (value (⟦<Option<Vec<Label>> as Archive>⟧.meaning v.len) no_value)))) };

    ghost flat = { λ v r. product (value (⟦<Result<u8, bool> as Archive>⟧.flat v.data r.kept.0)
        (value (⟦<(NonZero<u8>, NonZero<i8>) as Archive>⟧.flat v.result r.kept.1.0)
        (value (⟦<BTreeMap<String, Box<i8>> as Archive>⟧.flat v.pos r.kept.1.1.0)
        (value (⟦<Option<Vec<Label>> as Archive>⟧.flat v.len r.kept.1.1.1.0) no_value)))) };

    ghost keys = { λ v. ⟦<Result<u8, bool> as Archive>⟧.keys v.data
        ++ (⟦<(NonZero<u8>, NonZero<i8>) as Archive>⟧.keys v.result
        ++ (⟦<BTreeMap<String, Box<i8>> as Archive>⟧.keys v.pos
        ++ (⟦<Option<Vec<Label>> as Archive>⟧.keys v.len ++ []))) };

    ghost belongs = { λ v r. ⟦<Result<u8, bool> as Archive>⟧.belongs v.data r.kept.0
        × (⟦<(NonZero<u8>, NonZero<i8>) as Archive>⟧.belongs v.result r.kept.1.0
        × (⟦<BTreeMap<String, Box<i8>> as Archive>⟧.belongs v.pos r.kept.1.1.0
        × (⟦<Option<Vec<Label>> as Archive>⟧.belongs v.len r.kept.1.1.1.0 × Unit {0}))) };

    ghost in_bulk = { None };

    ghost keyed = { λ v. record_keyed (part_keyed (result_keyed ⟦<u8 as Archive>⟧.keys
        ⟦<bool as Archive>⟧.keys ⟦<u8 as Archive>⟧.meaning ⟦<bool as Archive>⟧.meaning
        (λ x. number_keyed _) (λ x. number_keyed _) v.data)
        (part_keyed (record_keyed (part_keyed (number_keyed _)
        (part_keyed (number_keyed _) nothing_keyed))) (part_keyed
        (pairs_keyed ⟦<String as Archive>⟧.keys ⟦<Box<i8> as Archive>⟧.keys
        ⟦<String as Archive>⟧.meaning ⟦<Box<i8> as Archive>⟧.meaning
        (λ x. text_keyed (string_bytes x)) (λ x. box_keyed (⟦<i8 as Archive>⟧.keys x.value)
        (⟦<i8 as Archive>⟧.meaning x.value) (number_keyed _)) v.pos.entries)
        (part_keyed (option_keyed ⟦<Vec<Label> as Archive>⟧.keys ⟦<Vec<Label> as Archive>⟧.meaning
        (λ x. each_keyed ⟦<Label as Archive>⟧.keys ⟦<Label as Archive>⟧.meaning keyed_of_label
        x.items) v.len) nothing_keyed)))) };

    ghost planned = { λ v. plain_record_planned (both (both no_definition no_definition)
        (both (both no_definition (both no_definition no_definition))
        (both (both no_definition (both no_definition no_definition))
        (both no_definition no_definition)))) (part ⟦<ArchivedResult<u8, bool> as Portable>⟧.shape
        (part ⟦<ArchivedTuple2<NonZero<u8>, NonZero<i8>> as Portable>⟧.shape
        (part ⟦<ArchivedSortedMap<ArchivedString, ArchivedBox<i8>> as Portable>⟧.shape
        (part ⟦<ArchivedOption<ArchivedVec<ArchivedLabel>> as Portable>⟧.shape no_part)))) _ _
        (part_planned (both no_definition no_definition)
        ⟦<ArchivedResult<u8, bool> as Portable>⟧.shape (⟦<Result<u8, bool> as Archive>⟧.keys v.data)
        (⟦<Result<u8, bool> as Archive>⟧.meaning v.data)
        (result_planned ⟦<u8 as Archive>⟧.keys ⟦<bool as Archive>⟧.keys ⟦<u8 as Archive>⟧.meaning
        ⟦<bool as Archive>⟧.meaning no_definition no_definition ⟦<u8 as Portable>⟧.shape
        ⟦<bool as Portable>⟧.shape (λ x. leaf_planned no_definition _ _ [] _ refl)
        (λ x. leaf_planned no_definition _ _ [] _ refl) v.data)
        (part_planned (both no_definition (both no_definition no_definition))
        ⟦<ArchivedTuple2<NonZero<u8>, NonZero<i8>> as Portable>⟧.shape
        (⟦<(NonZero<u8>, NonZero<i8>) as Archive>⟧.keys v.result)
        (⟦<(NonZero<u8>, NonZero<i8>) as Archive>⟧.meaning v.result)
        (product_planned (both no_definition (both no_definition no_definition))
        (part ⟦<NonZero<u8> as Portable>⟧.shape (part ⟦<NonZero<i8> as Portable>⟧.shape no_part))
        (⟦<NonZero<u8> as Archive>⟧.keys v.result.0 ++ (⟦<NonZero<i8> as Archive>⟧.keys v.result.1
        ++ [])) (value (⟦<NonZero<u8> as Archive>⟧.meaning v.result.0)
        (value (⟦<NonZero<i8> as Archive>⟧.meaning v.result.1) no_value))
        (part_planned no_definition ⟦<NonZero<u8> as Portable>⟧.shape
        (⟦<NonZero<u8> as Archive>⟧.keys v.result.0) (⟦<NonZero<u8> as Archive>⟧.meaning v.result.0)
        (leaf_planned no_definition _ _ [] _ refl) (part_planned no_definition
        ⟦<NonZero<i8> as Portable>⟧.shape (⟦<NonZero<i8> as Archive>⟧.keys v.result.1)
        (⟦<NonZero<i8> as Archive>⟧.meaning v.result.1) (leaf_planned no_definition _ _ [] _ refl)
        no_part_planned))) (part_planned (both no_definition (both no_definition no_definition))
        ⟦<ArchivedSortedMap<ArchivedString, ArchivedBox<i8>> as Portable>⟧.shape
        (⟦<BTreeMap<String, Box<i8>> as Archive>⟧.keys v.pos)
        (⟦<BTreeMap<String, Box<i8>> as Archive>⟧.meaning v.pos)
        (map_of_pairs_planned ⟦<String as Archive>⟧.keys ⟦<Box<i8> as Archive>⟧.keys
        ⟦<String as Archive>⟧.meaning ⟦<Box<i8> as Archive>⟧.meaning no_definition no_definition
        ⟦<ArchivedString as Portable>⟧.shape ⟦<ArchivedBox<i8> as Portable>⟧.shape
        (λ x. string_planned no_definition [] (string_bytes x))
        (λ x. boxed_one_planned no_definition (one ⟦<i8 as Portable>⟧.shape)
        ⟦<i8 as Portable>⟧.shape refl (⟦<i8 as Archive>⟧.keys x.value)
        (⟦<i8 as Archive>⟧.meaning x.value) (leaf_planned no_definition _ _ [] _ refl))
        ⟦<ArchivedString as MapKey>⟧.key refl v.pos.entries)
        (part_planned no_definition ⟦<ArchivedOption<ArchivedVec<ArchivedLabel>> as Portable>⟧.shape
        (⟦<Option<Vec<Label>> as Archive>⟧.keys v.len) (⟦<Option<Vec<Label>> as Archive>⟧.meaning
        v.len) (option_planned no_definition ⟦<ArchivedVec<ArchivedLabel> as Portable>⟧.shape
        ⟦<Vec<Label> as Archive>⟧.keys ⟦<Vec<Label> as Archive>⟧.meaning
        (λ x. vec_planned no_definition ⟦<ArchivedLabel as Portable>⟧.shape _ _ _
        (slice_planned no_definition ⟦<ArchivedLabel as Portable>⟧.shape ⟦<Label as Archive>⟧.keys
        ⟦<Label as Archive>⟧.meaning planned_of_label x.items)) v.len) no_part_planned)))) refl };

    #[inline(always)]
    fn resolve(
        &self,
        resolver: Self::Resolver,
        place: Place<'_, Self::Archived>,
    ) -> Result<(), Error>
        requires zeroed { ZeroedPlace 24 place.pos place.bytes.now }
        requires same_value { ⟦<Self as Archive>⟧.belongs self.now resolver }
        ensures { ResolvesAs ⟦<Self::Archived as Portable>⟧ place
            (⟦<Self as Archive>⟧.flat self.now resolver) result }
    {
        let Place { bytes, pos, .. } = place;
        let ScoresResolver { kept } = resolver;
        resolve_record_4::<
            Result<u8, bool>,
            (NonZero<u8>, NonZero<i8>),
            BTreeMap<String, Box<i8>>,
            Option<Vec<Label>>,
            ArchivedScores,
        >(
            &self.data,
            &self.result,
            &self.pos,
            &self.len,
            kept,
            Place::new(pos, bytes),
        )
    }

    #[inline(always)]
    fn copy_optimization() -> CopyOptimization<Self> {
        CopyOptimization::disable()
    }

    #[inline(always)]
    fn serialize_copied<S: Writer + Keys>(
        _values: &[Self],
        _together: usize,
        _serializer: &mut S,
    ) -> Result<Option<usize>, Error> {
        Ok(None)
    }
}

impl<S: Writer + ResolverAlloc> Serialize<S> for Scores {
    #[inline(always)]
    fn serialize(&self, serializer: &mut S) -> Result<Self::Resolver, Error> {
        match serialize_record_4::<
            Result<u8, bool>,
            (NonZero<u8>, NonZero<i8>),
            BTreeMap<String, Box<i8>>,
            Option<Vec<Label>>,
            ArchivedScores,
            S,
        >(&self.data, &self.result, &self.pos, &self.len, serializer)
        {
            Ok(kept) => Ok(ScoresResolver { kept }),
            Err(error) => Err(error),
        }
    }
}

/// As a region of its own: the value itself.
impl ArchiveUnsized for Scores {
    ghost use Rattle.derived_plain.specs.contracts.ranked.ScoresArchive.TheImpl.Laws.{keyed-law as keyed_of_scores, planned-law as planned_of_scores};

    type Archived = ArchivedScores;

    ghost source_length = { λ _. 0 };

    ghost meaning = { ⟦<Scores as Archive>⟧.meaning };

    ghost keys = { ⟦<Scores as Archive>⟧.keys };

    ghost keyed = { keyed_of_scores };

    ghost one_length = { λ _ _. refl };

    ghost planned = { λ v. one_planned no_definition (parts
        (part ⟦<ArchivedResult<u8, bool> as Portable>⟧.shape
        (part ⟦<ArchivedTuple2<NonZero<u8>, NonZero<i8>> as Portable>⟧.shape
        (part ⟦<ArchivedSortedMap<ArchivedString, ArchivedBox<i8>> as Portable>⟧.shape
        (part ⟦<ArchivedOption<ArchivedVec<ArchivedLabel>> as Portable>⟧.shape no_part)))))
        (⟦<Scores as Archive>⟧.keys v) (⟦<Scores as Archive>⟧.meaning v) (planned_of_scores v) };

    #[inline(always)]
    fn archived_metadata(&self) -> Result<(), Error> {
        Ok(())
    }
}

impl<S: Writer + ResolverAlloc> SerializeUnsized<S> for Scores {
    #[inline(always)]
    fn serialize_unsized(&self, serializer: &mut S) -> Result<usize, Error> {
        serialize_one(self, serializer)
    }
}

impl<D: Entries> Deserialize<Scores, D> for ArchivedScores {
    #[inline(always)]
    fn deserialize_part(
        alloc: Global,
        part: RawView<'_>,
        deserializer: &mut D,
    ) -> Result<Scores, Error>
        requires { IsPartOf ⟦<Self as ArchivePointee>⟧ part }
        ensures { ReadsAs ⟦<Self as ArchivePointee>⟧ part D.Entries deserializer
            ⟦<Scores as Archive>⟧ result }
    {
        match deserialize_record::<Self, ScoresOwned, D>(alloc, part, deserializer) {
            Ok(
                FourParts {
                    first: a0,
                    second: a1,
                    third: a2,
                    fourth: a3,
                    rest: (),
                },
            ) => Ok(Scores {
                data: a0,
                result: a1,
                pos: a2,
                len: a3,
            }),
            Err(error) => Err(error),
        }
    }
}

/// The fields of an archived `Scores`, as views.
pub trait ScoresView<'a> {
    /// A letter's byte, or whether there is one. A word of contracts.
    fn data(self) -> Ref<'a, ArchivedResult<u8, bool>>;

    /// Not 0, and the other one maybe below it. What contracts call an answer.
    fn result(self) -> Ref<'a, ArchivedTuple2<NonZero<u8>, NonZero<i8>>>;

    /// Numbers by names, boxed. A call of views: the accessor is `pos_field`.
    fn pos_field(self) -> Ref<'a, ArchivedSortedMap<ArchivedString, ArchivedBox<i8>>>;

    /// Labels, perhaps. A call of vectors alone.
    fn len(self) -> Ref<'a, ArchivedOption<ArchivedVec<ArchivedLabel>>>;
}

impl<'a> ScoresView<'a> for Ref<'a, ArchivedScores> {
    fn data(self) -> Ref<'a, ArchivedResult<u8, bool>>
        ensures buffer { result.bytes.now ≡ self.entry.bytes.now }
        ensures position { result.pos ≡ self.entry.pos + 0 }
        ensures length { result.len ≡ 0 }
        ensures shows { ShowsValueOf result self.entry (field_in 0) }
    {
        part_in_record::<ArchivedScores, ArchivedResult<u8, bool>>(self, 0, 0)
    }

    fn result(self) -> Ref<'a, ArchivedTuple2<NonZero<u8>, NonZero<i8>>>
        ensures buffer { result.bytes.now ≡ self.entry.bytes.now }
        ensures position { result.pos ≡ self.entry.pos + 2 }
        ensures length { result.len ≡ 0 }
        ensures shows { ShowsValueOf result self.entry (field_in 1) }
    {
        part_in_record::<ArchivedScores, ArchivedTuple2<NonZero<u8>, NonZero<i8>>>(self, 1, 2)
    }

    fn pos_field(self) -> Ref<'a, ArchivedSortedMap<ArchivedString, ArchivedBox<i8>>>
        ensures buffer { result.bytes.now ≡ self.entry.bytes.now }
        ensures position { result.pos ≡ self.entry.pos + 4 }
        ensures length { result.len ≡ 0 }
        ensures shows { ShowsValueOf result self.entry (field_in 2) }
    {
        part_in_record::<ArchivedScores, ArchivedSortedMap<ArchivedString, ArchivedBox<i8>>>(
            self, 2, 4,
        )
    }

    fn len(self) -> Ref<'a, ArchivedOption<ArchivedVec<ArchivedLabel>>>
        ensures buffer { result.bytes.now ≡ self.entry.bytes.now }
        ensures position { result.pos ≡ self.entry.pos + 12 }
        ensures length { result.len ≡ 0 }
        ensures shows { ShowsValueOf result self.entry (field_in 3) }
    {
        part_in_record::<ArchivedScores, ArchivedOption<ArchivedVec<ArchivedLabel>>>(self, 3, 12)
    }
}

/// The fields of an archived `Scores`, as seals.
pub trait ScoresSeal<'a> {
    // The seal shows a part of a buffer that was checked.
    ghost sealed: { Self → Type 0 };

    /// A letter's byte, or whether there is one. A word of contracts.
    fn data_mut(self) -> Seal<'a, ArchivedResult<u8, bool>>
        requires { sealed self };

    /// Not 0, and the other one maybe below it. What contracts call an answer.
    fn result_mut(self) -> Seal<'a, ArchivedTuple2<NonZero<u8>, NonZero<i8>>>
        requires { sealed self };

    /// Numbers by names, boxed. A call of views: the accessor is `pos_field`.
    fn pos_field_mut(self) -> Seal<'a, ArchivedSortedMap<ArchivedString, ArchivedBox<i8>>>
        requires { sealed self };

    /// Labels, perhaps. A call of vectors alone.
    fn len_mut(self) -> Seal<'a, ArchivedOption<ArchivedVec<ArchivedLabel>>>
        requires { sealed self };
}

impl<'a> ScoresSeal<'a> for Seal<'a, ArchivedScores> {
    ghost sealed = { λ s. IsSealOf no_definition (one ⟦<ArchivedScores as Portable>⟧.shape) s };

    fn data_mut(self) -> Seal<'a, ArchivedResult<u8, bool>>
        requires come_to { IsSealOf no_definition (one ⟦<ArchivedScores as Portable>⟧.shape) self }
        ensures { SealsPart no_definition (one ⟦<ArchivedScores as Portable>⟧.shape)
            (both no_definition no_definition)
            ⟦<ArchivedResult<u8, bool> as ArchivePointee>⟧.pointee (self.entry.pos + 0) 0 self.entry
            result }
    {
        sealed_part_in_record::<ArchivedScores, ArchivedResult<u8, bool>>(self, 0, 0)
    }

    fn result_mut(self) -> Seal<'a, ArchivedTuple2<NonZero<u8>, NonZero<i8>>>
        requires come_to { IsSealOf no_definition (one ⟦<ArchivedScores as Portable>⟧.shape) self }
        ensures { SealsPart no_definition (one ⟦<ArchivedScores as Portable>⟧.shape)
            (both no_definition (both no_definition no_definition))
            ⟦<ArchivedTuple2<NonZero<u8>, NonZero<i8>> as ArchivePointee>⟧.pointee
            (self.entry.pos + 2) 0 self.entry result }
    {
        sealed_part_in_record::<ArchivedScores, ArchivedTuple2<NonZero<u8>, NonZero<i8>>>(
            self, 1, 2,
        )
    }

    fn pos_field_mut(self) -> Seal<'a, ArchivedSortedMap<ArchivedString, ArchivedBox<i8>>>
        requires come_to { IsSealOf no_definition (one ⟦<ArchivedScores as Portable>⟧.shape) self }
        ensures { SealsPart no_definition (one ⟦<ArchivedScores as Portable>⟧.shape)
            (both no_definition (both no_definition no_definition))
            ⟦<ArchivedSortedMap<ArchivedString, ArchivedBox<i8>> as ArchivePointee>⟧.pointee
            (self.entry.pos + 4) 0 self.entry result }
    {
        sealed_part_in_record::<ArchivedScores, ArchivedSortedMap<ArchivedString, ArchivedBox<i8>>>(
            self, 2, 4,
        )
    }

    fn len_mut(self) -> Seal<'a, ArchivedOption<ArchivedVec<ArchivedLabel>>>
        requires come_to { IsSealOf no_definition (one ⟦<ArchivedScores as Portable>⟧.shape) self }
        ensures { SealsPart no_definition (one ⟦<ArchivedScores as Portable>⟧.shape) no_definition
            ⟦<ArchivedOption<ArchivedVec<ArchivedLabel>> as ArchivePointee>⟧.pointee
            (self.entry.pos + 12) 0 self.entry result }
    {
        sealed_part_in_record::<ArchivedScores, ArchivedOption<ArchivedVec<ArchivedLabel>>>(
            self, 3, 12,
        )
    }
}

// As views are compared.
type ScoresCompared = (
    ArchivedResult<u8, bool>,
    (
        ArchivedTuple2<NonZero<u8>, NonZero<i8>>,
        (
            ArchivedSortedMap<ArchivedString, ArchivedBox<i8>>,
            (ArchivedOption<ArchivedVec<ArchivedLabel>>, ()),
        ),
    ),
);

/// Views are compared as the values that they show.
impl Ordered for ArchivedScores {
    ghost use Rattle.derived_plain.specs.contracts.ranked.ArchivedLabelOrdered.TheImpl.Laws.{by_value-law as by_value_of_archived_label, respects-law as respects_of_archived_label, total-law as total_of_archived_label};

    ghost order = { ⟦<ScoresCompared as ComparedFields>⟧.order 0 };

    ghost hash_input = { ⟦<ScoresCompared as ComparedFields>⟧.hash_input 0 };

    ghost settling = { 0 };

    ghost total = { (record_compared (field_compared (result_compared
        (unsigned_compared w8 1 ⟦<u8 as Hash>⟧.hash_input refl) ⟦<u8 as Portable>⟧.layout (record {
          solved = λ s k. refl;
        }) (bool_compared ⟦<bool as Hash>⟧.hash_input) ⟦<bool as Portable>⟧.layout (record {
          solved = λ s k. refl;
        }) (inl refl) (inl refl)) ⟦<ArchivedResult<u8, bool> as Portable>⟧.layout (record {
          solved = λ s k. refl;
        }) (field_compared (pair_compared (unsigned_non_zero_compared w8 1 ⟦<u8 as Hash>⟧.hash_input
        refl) ⟦<NonZero<u8> as Portable>⟧.layout (record { solved = λ s k. refl })
        (signed_non_zero_compared w8 1 ⟦<i8 as Hash>⟧.hash_input refl)
        ⟦<NonZero<i8> as Portable>⟧.layout (record { solved = λ s k. refl }))
        ⟦<ArchivedTuple2<NonZero<u8>, NonZero<i8>> as Portable>⟧.layout (record {
          solved = λ s k. refl;
        }) (field_compared (map_compared string_compared ⟦<ArchivedString as Portable>⟧.layout
        (record { solved = λ s k. refl }) (box_compared
        (signed_compared w8 1 ⟦<i8 as Hash>⟧.hash_input refl))
        ⟦<ArchivedBox<i8> as Portable>⟧.layout (record { solved = λ s k. refl })
        ⟦<ArchivedString as MapKey>⟧.key refl)
        ⟦<ArchivedSortedMap<ArchivedString, ArchivedBox<i8>> as Portable>⟧.layout (record {
          solved = λ s k. refl;
        }) (field_compared (option_compared (vec_compared
        (as_known no_definition (one ⟦<ArchivedLabel as Portable>⟧.shape)
        ⟦<ArchivedLabel as Ordered>⟧.order ⟦<ArchivedLabel as Ordered>⟧.hash_input
        total_of_archived_label respects_of_archived_label by_value_of_archived_label)
        ⟦<ArchivedLabel as Portable>⟧.layout (record { solved = λ s k. refl }))
        ⟦<ArchivedVec<ArchivedLabel> as Portable>⟧.layout (record { solved = λ s k. refl })
        (inr (inr (inl refl)))) ⟦<ArchivedOption<ArchivedVec<ArchivedLabel>> as Portable>⟧.layout
        (record { solved = λ s k. refl }) no_field_compared)))) refl).total };

    ghost respects = { (record_compared (field_compared
        (result_compared (unsigned_compared w8 1 ⟦<u8 as Hash>⟧.hash_input refl)
        ⟦<u8 as Portable>⟧.layout (record { solved = λ s k. refl })
        (bool_compared ⟦<bool as Hash>⟧.hash_input) ⟦<bool as Portable>⟧.layout (record {
          solved = λ s k. refl;
        }) (inl refl) (inl refl)) ⟦<ArchivedResult<u8, bool> as Portable>⟧.layout (record {
          solved = λ s k. refl;
        }) (field_compared (pair_compared (unsigned_non_zero_compared w8 1 ⟦<u8 as Hash>⟧.hash_input
        refl) ⟦<NonZero<u8> as Portable>⟧.layout (record { solved = λ s k. refl })
        (signed_non_zero_compared w8 1 ⟦<i8 as Hash>⟧.hash_input refl)
        ⟦<NonZero<i8> as Portable>⟧.layout (record { solved = λ s k. refl }))
        ⟦<ArchivedTuple2<NonZero<u8>, NonZero<i8>> as Portable>⟧.layout (record {
          solved = λ s k. refl;
        }) (field_compared (map_compared string_compared ⟦<ArchivedString as Portable>⟧.layout
        (record { solved = λ s k. refl }) (box_compared
        (signed_compared w8 1 ⟦<i8 as Hash>⟧.hash_input refl))
        ⟦<ArchivedBox<i8> as Portable>⟧.layout (record { solved = λ s k. refl })
        ⟦<ArchivedString as MapKey>⟧.key refl)
        ⟦<ArchivedSortedMap<ArchivedString, ArchivedBox<i8>> as Portable>⟧.layout (record {
          solved = λ s k. refl;
        }) (field_compared (option_compared (vec_compared
        (as_known no_definition (one ⟦<ArchivedLabel as Portable>⟧.shape)
        ⟦<ArchivedLabel as Ordered>⟧.order ⟦<ArchivedLabel as Ordered>⟧.hash_input
        total_of_archived_label respects_of_archived_label by_value_of_archived_label)
        ⟦<ArchivedLabel as Portable>⟧.layout (record { solved = λ s k. refl }))
        ⟦<ArchivedVec<ArchivedLabel> as Portable>⟧.layout (record { solved = λ s k. refl })
        (inr (inr (inl refl)))) ⟦<ArchivedOption<ArchivedVec<ArchivedLabel>> as Portable>⟧.layout
        (record { solved = λ s k. refl }) no_field_compared)))) refl).respects };

    ghost level = { tt };

    ghost by_value = { (record_compared (field_compared
        (result_compared (unsigned_compared w8 1 ⟦<u8 as Hash>⟧.hash_input refl)
        ⟦<u8 as Portable>⟧.layout (record { solved = λ s k. refl })
        (bool_compared ⟦<bool as Hash>⟧.hash_input) ⟦<bool as Portable>⟧.layout (record {
          solved = λ s k. refl;
        }) (inl refl) (inl refl)) ⟦<ArchivedResult<u8, bool> as Portable>⟧.layout (record {
          solved = λ s k. refl;
        }) (field_compared (pair_compared (unsigned_non_zero_compared w8 1 ⟦<u8 as Hash>⟧.hash_input
        refl) ⟦<NonZero<u8> as Portable>⟧.layout (record { solved = λ s k. refl })
        (signed_non_zero_compared w8 1 ⟦<i8 as Hash>⟧.hash_input refl)
        ⟦<NonZero<i8> as Portable>⟧.layout (record { solved = λ s k. refl }))
        ⟦<ArchivedTuple2<NonZero<u8>, NonZero<i8>> as Portable>⟧.layout (record {
          solved = λ s k. refl;
        }) (field_compared (map_compared string_compared ⟦<ArchivedString as Portable>⟧.layout
        (record { solved = λ s k. refl }) (box_compared
        (signed_compared w8 1 ⟦<i8 as Hash>⟧.hash_input refl))
        ⟦<ArchivedBox<i8> as Portable>⟧.layout (record { solved = λ s k. refl })
        ⟦<ArchivedString as MapKey>⟧.key refl)
        ⟦<ArchivedSortedMap<ArchivedString, ArchivedBox<i8>> as Portable>⟧.layout (record {
          solved = λ s k. refl;
        }) (field_compared (option_compared (vec_compared
        (as_known no_definition (one ⟦<ArchivedLabel as Portable>⟧.shape)
        ⟦<ArchivedLabel as Ordered>⟧.order ⟦<ArchivedLabel as Ordered>⟧.hash_input
        total_of_archived_label respects_of_archived_label by_value_of_archived_label)
        ⟦<ArchivedLabel as Portable>⟧.layout (record { solved = λ s k. refl }))
        ⟦<ArchivedVec<ArchivedLabel> as Portable>⟧.layout (record { solved = λ s k. refl })
        (inr (inr (inl refl)))) ⟦<ArchivedOption<ArchivedVec<ArchivedLabel>> as Portable>⟧.layout
        (record { solved = λ s k. refl }) no_field_compared)))) refl).by_value };

    fn compare(a: RawView<'_>, b: RawView<'_>) -> Ordering {
        compare_record::<Self, ScoresCompared>(a, b)
    }

    fn hash_part<H: Hasher>(part: RawView<'_>, state: &mut H) {
        hash_record::<Self, ScoresCompared, H>(part, state);
    }

    fn settling_bytes() -> usize {
        0
    }
}
