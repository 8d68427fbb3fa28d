//! An enum with a variant of nine fields.

/// What a depot tells.
#[derive(Debug, PartialEq, Drop)]
pub enum Depot {
    /// That it is free.
    Free,
    /// What was sent.
    Sent {
        /// Its number.
        number: u8,
        /// The row in which it lay.
        row: u8,
        /// The shelf.
        shelf: u8,
        /// The place.
        place: u8,
        /// The letter on it.
        letter: char,
        /// How high it was, above the floor.
        height: i8,
        /// How wide.
        width: u8,
        /// Whether it was open.
        is_open: bool,
        /// Who took it.
        to: String,
    },
}

// Below this line all is written by tools/derive: change what is above it, and run it again.

ghost use Rattle.archive_core.specs.CallOutcomes.{ResolvesAs};
ghost use Rattle.archive_core.specs.Definitions.{both, no_definition};
ghost use Rattle.archive_core.specs.Keyed.{case_keyed, nothing_keyed, number_keyed, part_keyed, text_keyed};
ghost use Rattle.archive_core.specs.LeafLayout.{no_definition_reached};
ghost use Rattle.archive_core.specs.PartsPlanned.{no_part_planned, part_planned};
ghost use Rattle.archive_core.specs.Payloads.{payload_in};
ghost use Rattle.archive_core.specs.Plain.{plain_choice, plain_own_check, plain_variant_planned};
ghost use Rattle.archive_core.specs.Planned.{leaf_planned, string_planned};
ghost use Rattle.archive_core.specs.PlannedOwners.{one_planned};
ghost use Rattle.archive_core.specs.ReadBack.{ReadsAs};
ghost use Rattle.archive_core.specs.SealOutcomes.{IsSealOf, SealsPart, seal_tag};
ghost use Rattle.archive_core.specs.Seen.{IsPartOf, ShowsValueOf, tag_of};
ghost use Rattle.archive_core.specs.Shape.{choice, no_part, no_variant, one, part, variant};
ghost use Rattle.archive_core.specs.Value.{case, no_value, value};
ghost use Rattle.archive_core.specs.Writing.{ZeroedPlace};
ghost use Rattle.std.proofs.Common.{inl, inr, lit≤};
ghost use Rattle.std.specs.Prelude.{None, [], codes, refl, string_bytes, true, ℕ, ◌++◌, ◌+◌, ◌≡◌};

use archive_core::error::Error;
use archive_core::fields::{
    known_tag, part_in_case, read_case, resolve_case, resolve_case_0, serialize_case,
    serialize_case_0, tag_in,
};
use archive_core::own::{Field, HasField};
use archive_core::place::Place;
use archive_core::primitive::ArchivedChar;
use archive_core::seal::{Seal, sealed_part_in_case};
use archive_core::self_check::{SelfCheck, check_choice};
use archive_core::ser::{ResolverAlloc, Writer, serialize_one};
use archive_core::shape::Defs;
use archive_core::string::ArchivedString;
use archive_core::traits::{
    Archive, ArchivePointee, ArchiveUnsized, Choice, CopyOptimization, Deserialize, Entries,
    FourParts, Keys, Portable, Serialize, SerializeUnsized, expr_of_choice,
};
use archive_core::validation::ArchiveContext;
use archive_core::view::{RawView, Ref};
use std::alloc::Global;

/// An archived `Depot`: 24 bytes at a multiple of 4.
pub struct ArchivedDepot;

type DepotSentParts = FourParts<
    u8,
    u8,
    u8,
    u8,
    FourParts<ArchivedChar, i8, u8, bool, (ArchivedString, ())>,
>;

type DepotSentOwned = FourParts<u8, u8, u8, u8, FourParts<char, i8, u8, bool, (String, ())>>;

type DepotVariants = ((), (DepotSentParts, ()));

// The fields of `Depot::Sent`, lent.
#[derive(Drop)]
struct DepotSentLent<'a> {
    a0: &'a u8,
    a1: &'a u8,
    a2: &'a u8,
    a3: &'a u8,
    a4: &'a char,
    a5: &'a i8,
    a6: &'a u8,
    a7: &'a bool,
    a8: &'a String,
}

// The fields as sources.
type DepotSentFields = FourParts<
    Field<0, u8>,
    Field<1, u8>,
    Field<2, u8>,
    Field<3, u8>,
    FourParts<Field<4, char>, Field<5, i8>, Field<6, u8>, Field<7, bool>, (Field<8, String>, ())>,
>;

impl HasField<0, u8> for DepotSentLent<'_> {
    ghost field = { λ v. v.a0.now };

    fn field(&self) -> &u8 {
        self.a0
    }
}

impl HasField<1, u8> for DepotSentLent<'_> {
    ghost field = { λ v. v.a1.now };

    fn field(&self) -> &u8 {
        self.a1
    }
}

impl HasField<2, u8> for DepotSentLent<'_> {
    ghost field = { λ v. v.a2.now };

    fn field(&self) -> &u8 {
        self.a2
    }
}

impl HasField<3, u8> for DepotSentLent<'_> {
    ghost field = { λ v. v.a3.now };

    fn field(&self) -> &u8 {
        self.a3
    }
}

impl HasField<4, char> for DepotSentLent<'_> {
    ghost field = { λ v. v.a4.now };

    fn field(&self) -> &char {
        self.a4
    }
}

impl HasField<5, i8> for DepotSentLent<'_> {
    ghost field = { λ v. v.a5.now };

    fn field(&self) -> &i8 {
        self.a5
    }
}

impl HasField<6, u8> for DepotSentLent<'_> {
    ghost field = { λ v. v.a6.now };

    fn field(&self) -> &u8 {
        self.a6
    }
}

impl HasField<7, bool> for DepotSentLent<'_> {
    ghost field = { λ v. v.a7.now };

    fn field(&self) -> &bool {
        self.a7
    }
}

impl HasField<8, String> for DepotSentLent<'_> {
    ghost field = { λ v. v.a8.now };

    fn field(&self) -> &String {
        self.a8
    }
}

impl ArchivePointee for ArchivedDepot {
    type ArchivedMetadata = ();

    ghost pointee = { one (choice (codes "ArchivedDepot")
        (variant no_part (variant (part ⟦<u8 as Portable>⟧.shape
        (part ⟦<u8 as Portable>⟧.shape (part ⟦<u8 as Portable>⟧.shape
        (part ⟦<u8 as Portable>⟧.shape (part ⟦<ArchivedChar as Portable>⟧.shape
        (part ⟦<i8 as Portable>⟧.shape (part ⟦<u8 as Portable>⟧.shape
        (part ⟦<bool as Portable>⟧.shape (part ⟦<ArchivedString as Portable>⟧.shape no_part)))))))))
        no_variant))) };

    ghost definitions = { no_definition };

    ghost metadata_length = { λ _. 0 };

    fn pointer_metadata(_metadata: &()) -> usize {
        0
    }
}

impl Portable for ArchivedDepot {
    ghost shape = { choice (codes "ArchivedDepot") (variant no_part
        (variant (part ⟦<u8 as Portable>⟧.shape (part ⟦<u8 as Portable>⟧.shape
        (part ⟦<u8 as Portable>⟧.shape (part ⟦<u8 as Portable>⟧.shape
        (part ⟦<ArchivedChar as Portable>⟧.shape (part ⟦<i8 as Portable>⟧.shape
        (part ⟦<u8 as Portable>⟧.shape (part ⟦<bool as Portable>⟧.shape
        (part ⟦<ArchivedString as Portable>⟧.shape no_part))))))))) no_variant)) };

    ghost layout = { record { size = 24; align = 4 } };

    type Check = ArchivedDepot;

    ghost is_one = { refl };

    ghost is_align = { inr (inr (inl refl)) };

    ghost has_layout = { record { solved = λ s k. refl } };

    ghost no_others = { no_definition_reached (choice (codes "ArchivedDepot")
        (variant no_part (variant (part ⟦<u8 as Portable>⟧.shape
        (part ⟦<u8 as Portable>⟧.shape (part ⟦<u8 as Portable>⟧.shape
        (part ⟦<u8 as Portable>⟧.shape (part ⟦<ArchivedChar as Portable>⟧.shape
        (part ⟦<i8 as Portable>⟧.shape (part ⟦<u8 as Portable>⟧.shape
        (part ⟦<bool as Portable>⟧.shape (part ⟦<ArchivedString as Portable>⟧.shape no_part)))))))))
        no_variant))) };

    ghost checks = { λ _. plain_own_check _ _ _ _ _ refl refl refl refl };

    fn size() -> usize {
        24
    }

    fn align() -> usize {
        4
    }

    fn expr(alloc: Global) -> Result<archive_core::shape::Expr, Error> {
        expr_of_choice::<DepotVariants>(alloc, "ArchivedDepot")
    }

    fn define(_alloc: Global, _defs: &mut Defs) -> Result<(), Error> {
        Ok(())
    }
}

impl SelfCheck for ArchivedDepot {
    ghost shape = { choice (codes "ArchivedDepot") (variant no_part
        (variant (part ⟦<u8 as Portable>⟧.shape (part ⟦<u8 as Portable>⟧.shape
        (part ⟦<u8 as Portable>⟧.shape (part ⟦<u8 as Portable>⟧.shape
        (part ⟦<ArchivedChar as Portable>⟧.shape (part ⟦<i8 as Portable>⟧.shape
        (part ⟦<u8 as Portable>⟧.shape (part ⟦<bool as Portable>⟧.shape
        (part ⟦<ArchivedString as Portable>⟧.shape no_part))))))))) no_variant)) };

    ghost definitions = { (both no_definition (both (both no_definition
        (both no_definition (both no_definition (both no_definition
        (both no_definition (both no_definition (both no_definition
        (both no_definition (both no_definition no_definition))))))))) no_definition)) };

    ghost span = { 24 };

    ghost direct = { true };

    ghost nameless = { true };

    fn is_direct() -> bool {
        true
    }

    fn is_nameless() -> bool {
        true
    }

    #[inline(always)]
    fn check_at<C: ArchiveContext>(
        bytes: &[u8],
        at: usize,
        refusal: &mut Error,
        context: &mut C,
    ) -> Option<()> {
        check_choice::<DepotVariants, C>("ArchivedDepot", bytes, at, refusal, context)
    }
}

impl Choice for ArchivedDepot {
    type Variants = DepotVariants;

    ghost name = { codes "ArchivedDepot" };

    ghost has_variants = { plain_choice (codes "ArchivedDepot")
        (variant no_part (variant (part ⟦<u8 as Portable>⟧.shape
        (part ⟦<u8 as Portable>⟧.shape (part ⟦<u8 as Portable>⟧.shape
        (part ⟦<u8 as Portable>⟧.shape (part ⟦<ArchivedChar as Portable>⟧.shape
        (part ⟦<i8 as Portable>⟧.shape (part ⟦<u8 as Portable>⟧.shape
        (part ⟦<bool as Portable>⟧.shape (part ⟦<ArchivedString as Portable>⟧.shape no_part)))))))))
        no_variant)) (both no_definition (both (both no_definition
        (both no_definition (both no_definition (both no_definition
        (both no_definition (both no_definition (both no_definition
        (both no_definition (both no_definition no_definition))))))))) no_definition)) refl };

    ghost holds = { lit≤ tt };
}

/// What is kept of `Depot` between `serialize` and `resolve`.
#[derive(Drop)]
pub enum DepotResolver {
    /// Of `Free`.
    Free,
    /// Of `Sent`.
    Sent(
        (
            <u8 as Archive>::Resolver,
            (
                <u8 as Archive>::Resolver,
                (
                    <u8 as Archive>::Resolver,
                    (
                        <u8 as Archive>::Resolver,
                        (
                            <char as Archive>::Resolver,
                            (
                                <i8 as Archive>::Resolver,
                                (
                                    <u8 as Archive>::Resolver,
                                    (
                                        <bool as Archive>::Resolver,
                                        (<String as Archive>::Resolver, ()),
                                    ),
                                ),
                            ),
                        ),
                    ),
                ),
            ),
        ),
    ),
}

impl Archive for Depot {
    ghost use Rattle.derived_plain.specs.declared.depot.Depot.TheVariants.{Free as DepotFree, Sent as DepotSent};
    ghost use Rattle.derived_plain.specs.declared.depot.DepotResolver.TheVariants.{Free as DepotFreeKept, Sent as DepotSentKept};

    type Archived = ArchivedDepot;

    type Resolver = DepotResolver;

    ghost meaning = { elim [
      | DepotFree ↦ case 0 no_value
      | DepotSent a0 a1 a2 a3 a4 a5 a6 a7 a8 ↦ case 1 (value (⟦<u8 as Archive>⟧.meaning a0)
          (value (⟦<u8 as Archive>⟧.meaning a1) (value (⟦<u8 as Archive>⟧.meaning a2)
          (value (⟦<u8 as Archive>⟧.meaning a3) (value (⟦<char as Archive>⟧.meaning a4)
          (value (⟦<i8 as Archive>⟧.meaning a5) (value (⟦<u8 as Archive>⟧.meaning a6)
          (value (⟦<bool as Archive>⟧.meaning a7) (value (⟦<String as Archive>⟧.meaning a8)
          no_value)))))))))
    ] };

    ghost flat = { λ v r. elim v [
      | DepotFree ↦ case 0 no_value
      | DepotSent a0 a1 a2 a3 a4 a5 a6 a7 a8 ↦ elim r [
        | DepotSentKept s ↦ case 1 (value (⟦<u8 as Archive>⟧.flat a0 s.0)
            (value (⟦<u8 as Archive>⟧.flat a1 s.1.0) (value (⟦<u8 as Archive>⟧.flat a2 s.1.1.0)
            (value (⟦<u8 as Archive>⟧.flat a3 s.1.1.1.0) (value
            (⟦<char as Archive>⟧.flat a4 s.1.1.1.1.0) (value
            (⟦<i8 as Archive>⟧.flat a5 s.1.1.1.1.1.0) (value
            (⟦<u8 as Archive>⟧.flat a6 s.1.1.1.1.1.1.0) (value
            (⟦<bool as Archive>⟧.flat a7 s.1.1.1.1.1.1.1.0)
            (value (⟦<String as Archive>⟧.flat a8 s.1.1.1.1.1.1.1.1.0) no_value)))))))))
        | _ ↦ case 1 no_value
      ]
    ] };

    ghost keys = { elim [
      | DepotFree ↦ []
      | DepotSent a0 a1 a2 a3 a4 a5 a6 a7 a8 ↦ ⟦<u8 as Archive>⟧.keys a0
          ++ (⟦<u8 as Archive>⟧.keys a1 ++ (⟦<u8 as Archive>⟧.keys a2
          ++ (⟦<u8 as Archive>⟧.keys a3 ++ (⟦<char as Archive>⟧.keys a4
          ++ (⟦<i8 as Archive>⟧.keys a5 ++ (⟦<u8 as Archive>⟧.keys a6
          ++ (⟦<bool as Archive>⟧.keys a7 ++ (⟦<String as Archive>⟧.keys a8 ++ []))))))))
    ] };

    ghost belongs = { λ v r. elim v [
      | DepotFree ↦ elim r [ DepotFreeKept ↦ Unit {0} | _ ↦ ⊥ ]
      | DepotSent a0 a1 a2 a3 a4 a5 a6 a7 a8 ↦ elim r [
        | DepotSentKept s ↦ ⟦<u8 as Archive>⟧.belongs a0 s.0
            × (⟦<u8 as Archive>⟧.belongs a1 s.1.0 × (⟦<u8 as Archive>⟧.belongs a2 s.1.1.0
            × (⟦<u8 as Archive>⟧.belongs a3 s.1.1.1.0 × (⟦<char as Archive>⟧.belongs a4 s.1.1.1.1.0
            × (⟦<i8 as Archive>⟧.belongs a5 s.1.1.1.1.1.0
            × (⟦<u8 as Archive>⟧.belongs a6 s.1.1.1.1.1.1.0
            × (⟦<bool as Archive>⟧.belongs a7 s.1.1.1.1.1.1.1.0
            × (⟦<String as Archive>⟧.belongs a8 s.1.1.1.1.1.1.1.1.0 × Unit {0}))))))))
        | _ ↦ ⊥
      ]
    ] };

    ghost in_bulk = { None };

    ghost keyed = { elim [
      | DepotFree ↦ case_keyed _ 0 _ nothing_keyed
      | DepotSent a0 a1 a2 a3 a4 a5 a6 a7 a8 ↦ case_keyed _ 1 _
          (part_keyed (number_keyed _) (part_keyed (number_keyed _)
          (part_keyed (number_keyed _) (part_keyed (number_keyed _)
          (part_keyed (number_keyed _) (part_keyed (number_keyed _)
          (part_keyed (number_keyed _) (part_keyed (number_keyed _)
          (part_keyed (text_keyed (string_bytes a8)) nothing_keyed)))))))))
    ] };

    ghost planned = { elim [
      | DepotFree ↦ plain_variant_planned _ _ 0 no_part refl no_definition _ _ no_part_planned refl
      | DepotSent a0 a1 a2 a3 a4 a5 a6 a7 a8 ↦ plain_variant_planned _ _ 1
          (part ⟦<u8 as Portable>⟧.shape (part ⟦<u8 as Portable>⟧.shape
          (part ⟦<u8 as Portable>⟧.shape (part ⟦<u8 as Portable>⟧.shape
          (part ⟦<ArchivedChar as Portable>⟧.shape (part ⟦<i8 as Portable>⟧.shape
          (part ⟦<u8 as Portable>⟧.shape (part ⟦<bool as Portable>⟧.shape
          (part ⟦<ArchivedString as Portable>⟧.shape no_part))))))))) refl
          (both no_definition (both no_definition (both no_definition
          (both no_definition (both no_definition (both no_definition
          (both no_definition (both no_definition (both no_definition no_definition))))))))) _ _
          (part_planned no_definition ⟦<u8 as Portable>⟧.shape (⟦<u8 as Archive>⟧.keys a0)
          (⟦<u8 as Archive>⟧.meaning a0) (leaf_planned no_definition _ _ [] _ refl)
          (part_planned no_definition ⟦<u8 as Portable>⟧.shape (⟦<u8 as Archive>⟧.keys a1)
          (⟦<u8 as Archive>⟧.meaning a1) (leaf_planned no_definition _ _ [] _ refl)
          (part_planned no_definition ⟦<u8 as Portable>⟧.shape (⟦<u8 as Archive>⟧.keys a2)
          (⟦<u8 as Archive>⟧.meaning a2) (leaf_planned no_definition _ _ [] _ refl)
          (part_planned no_definition ⟦<u8 as Portable>⟧.shape (⟦<u8 as Archive>⟧.keys a3)
          (⟦<u8 as Archive>⟧.meaning a3) (leaf_planned no_definition _ _ [] _ refl)
          (part_planned no_definition ⟦<ArchivedChar as Portable>⟧.shape
          (⟦<char as Archive>⟧.keys a4) (⟦<char as Archive>⟧.meaning a4)
          (leaf_planned no_definition _ _ [] _ refl) (part_planned no_definition
          ⟦<i8 as Portable>⟧.shape (⟦<i8 as Archive>⟧.keys a5) (⟦<i8 as Archive>⟧.meaning a5)
          (leaf_planned no_definition _ _ [] _ refl) (part_planned no_definition
          ⟦<u8 as Portable>⟧.shape (⟦<u8 as Archive>⟧.keys a6) (⟦<u8 as Archive>⟧.meaning a6)
          (leaf_planned no_definition _ _ [] _ refl) (part_planned no_definition
          ⟦<bool as Portable>⟧.shape (⟦<bool as Archive>⟧.keys a7) (⟦<bool as Archive>⟧.meaning a7)
          (leaf_planned no_definition _ _ [] _ refl) (part_planned no_definition
          ⟦<ArchivedString as Portable>⟧.shape (⟦<String as Archive>⟧.keys a8)
          (⟦<String as Archive>⟧.meaning a8) (string_planned no_definition [] (string_bytes a8))
          no_part_planned))))))))) refl
    ] };

    #[inline(always)]
    fn resolve(
        &self,
        resolver: Self::Resolver,
        place: Place<'_, Self::Archived>,
    ) -> Result<(), Error>
        requires zeroed { ZeroedPlace 24 place.pos place.bytes.now }
        requires same_value { ⟦<Self as Archive>⟧.belongs self.now resolver }
        ensures { ResolvesAs ⟦<Self::Archived as Portable>⟧ place
            (⟦<Self as Archive>⟧.flat self.now resolver) result }
    {
        let Place { bytes, pos, .. } = place;
        match self {
            Depot::Free => resolve_case_0::<ArchivedDepot>(0, (), Place::new(pos, bytes)),
            Depot::Sent {
                number: a0,
                row: a1,
                shelf: a2,
                place: a3,
                letter: a4,
                height: a5,
                width: a6,
                is_open: a7,
                to: a8,
            } => {
                let DepotResolver::Sent(kept) = resolver else {
                    unreachable!();
                };
                let lent = DepotSentLent {
                    a0,
                    a1,
                    a2,
                    a3,
                    a4,
                    a5,
                    a6,
                    a7,
                    a8,
                };
                resolve_case::<DepotSentLent<'_>, DepotSentFields, ArchivedDepot>(
                    1,
                    &lent,
                    kept,
                    Place::new(pos, bytes),
                )
            }
        }
    }

    #[inline(always)]
    fn copy_optimization() -> CopyOptimization<Self> {
        CopyOptimization::disable()
    }

    #[inline(always)]
    fn serialize_copied<S: Writer + Keys>(
        _values: &[Self],
        _together: usize,
        _serializer: &mut S,
    ) -> Result<Option<usize>, Error> {
        Ok(None)
    }
}

impl<S: Writer + ResolverAlloc> Serialize<S> for Depot {
    #[inline(always)]
    fn serialize(&self, serializer: &mut S) -> Result<Self::Resolver, Error> {
        match self {
            Depot::Free => match serialize_case_0::<ArchivedDepot, S>(0, serializer) {
                Ok(()) => Ok(DepotResolver::Free),
                Err(error) => Err(error),
            },
            Depot::Sent {
                number: a0,
                row: a1,
                shelf: a2,
                place: a3,
                letter: a4,
                height: a5,
                width: a6,
                is_open: a7,
                to: a8,
            } => {
                let lent = DepotSentLent {
                    a0,
                    a1,
                    a2,
                    a3,
                    a4,
                    a5,
                    a6,
                    a7,
                    a8,
                };
                match serialize_case::<DepotSentLent<'_>, DepotSentFields, ArchivedDepot, S>(
                    1, &lent, serializer,
                ) {
                    Ok(kept) => Ok(DepotResolver::Sent(kept)),
                    Err(error) => Err(error),
                }
            }
        }
    }
}

/// As a region of its own: the value itself.
impl ArchiveUnsized for Depot {
    ghost use Rattle.derived_plain.specs.contracts.depot.DepotArchive.TheImpl.Laws.{keyed-law as keyed_of_depot, planned-law as planned_of_depot};

    type Archived = ArchivedDepot;

    ghost source_length = { λ _. 0 };

    ghost meaning = { ⟦<Depot as Archive>⟧.meaning };

    ghost keys = { ⟦<Depot as Archive>⟧.keys };

    ghost keyed = { keyed_of_depot };

    ghost one_length = { λ _ _. refl };

    ghost planned = { λ v. one_planned no_definition (choice (codes "ArchivedDepot")
        (variant no_part (variant (part ⟦<u8 as Portable>⟧.shape
        (part ⟦<u8 as Portable>⟧.shape (part ⟦<u8 as Portable>⟧.shape
        (part ⟦<u8 as Portable>⟧.shape (part ⟦<ArchivedChar as Portable>⟧.shape
        (part ⟦<i8 as Portable>⟧.shape (part ⟦<u8 as Portable>⟧.shape
        (part ⟦<bool as Portable>⟧.shape (part ⟦<ArchivedString as Portable>⟧.shape no_part)))))))))
        no_variant))) (⟦<Depot as Archive>⟧.keys v) (⟦<Depot as Archive>⟧.meaning v)
        (planned_of_depot v) };

    #[inline(always)]
    fn archived_metadata(&self) -> Result<(), Error> {
        Ok(())
    }
}

impl<S: Writer + ResolverAlloc> SerializeUnsized<S> for Depot {
    #[inline(always)]
    fn serialize_unsized(&self, serializer: &mut S) -> Result<usize, Error> {
        serialize_one(self, serializer)
    }
}

// The `Depot::Sent` of these values, one after another.
fn depot_sent_of(values: DepotSentOwned) -> Depot
    ensures meaning { ⟦<Depot as Archive>⟧.meaning result
        ≡ case 1 (value (⟦<u8 as Archive>⟧.meaning values.first)
        (value (⟦<u8 as Archive>⟧.meaning values.second)
        (value (⟦<u8 as Archive>⟧.meaning values.third)
        (value (⟦<u8 as Archive>⟧.meaning values.fourth)
        (value (⟦<char as Archive>⟧.meaning values.rest.first)
        (value (⟦<i8 as Archive>⟧.meaning values.rest.second)
        (value (⟦<u8 as Archive>⟧.meaning values.rest.third)
        (value (⟦<bool as Archive>⟧.meaning values.rest.fourth)
        (value (⟦<String as Archive>⟧.meaning values.rest.rest.0) no_value))))))))) }
    ensures keys { ⟦<Depot as Archive>⟧.keys result ≡ ⟦<u8 as Archive>⟧.keys values.first
        ++ (⟦<u8 as Archive>⟧.keys values.second ++ (⟦<u8 as Archive>⟧.keys values.third
        ++ (⟦<u8 as Archive>⟧.keys values.fourth ++ (⟦<char as Archive>⟧.keys values.rest.first
        ++ (⟦<i8 as Archive>⟧.keys values.rest.second ++ (⟦<u8 as Archive>⟧.keys values.rest.third
        ++ (⟦<bool as Archive>⟧.keys values.rest.fourth
        ++ (⟦<String as Archive>⟧.keys values.rest.rest.0 ++ [])))))))) }
{
    let FourParts {
        first: a0,
        second: a1,
        third: a2,
        fourth: a3,
        rest,
    } = values;
    let FourParts {
        first: a4,
        second: a5,
        third: a6,
        fourth: a7,
        rest,
    } = rest;
    let (a8, ()) = rest;
    Depot::Sent {
        number: a0,
        row: a1,
        shelf: a2,
        place: a3,
        letter: a4,
        height: a5,
        width: a6,
        is_open: a7,
        to: a8,
    }
}

impl<D: Entries> Deserialize<Depot, D> for ArchivedDepot {
    #[inline(always)]
    fn deserialize_part(
        alloc: Global,
        part: RawView<'_>,
        deserializer: &mut D,
    ) -> Result<Depot, Error>
        requires { IsPartOf ⟦<Self as ArchivePointee>⟧ part }
        ensures { ReadsAs ⟦<Self as ArchivePointee>⟧ part D.Entries deserializer
            ⟦<Depot as Archive>⟧ result }
    {
        match known_tag::<Self>(part) {
            0 => match read_case::<Self, (), (), D>(0, alloc, part, deserializer) {
                Ok(()) => Ok(Depot::Free),
                Err(error) => Err(error),
            },
            _ => match read_case::<Self, DepotSentParts, DepotSentOwned, D>(
                1,
                alloc,
                part,
                deserializer,
            ) {
                Ok(values) => Ok(depot_sent_of(values)),
                Err(error) => Err(error),
            },
        }
    }
}

/// What a view of an archived `Depot` shows, by its tag.
#[derive(Drop)]
pub enum ViewOfDepot<'a> {
    /// That it is free.
    Free,
    /// What was sent.
    Sent {
        /// Its number.
        number: Ref<'a, u8>,
        /// The row in which it lay.
        row: Ref<'a, u8>,
        /// The shelf.
        shelf: Ref<'a, u8>,
        /// The place.
        place: Ref<'a, u8>,
        /// The letter on it.
        letter: Ref<'a, ArchivedChar>,
        /// How high it was, above the floor.
        height: Ref<'a, i8>,
        /// How wide.
        width: Ref<'a, u8>,
        /// Whether it was open.
        is_open: Ref<'a, bool>,
        /// Who took it.
        to: Ref<'a, ArchivedString>,
    },
}

/// The variant of an archived `Depot`, as a view.
pub trait DepotView<'a> {
    /// The variant that the tag names, with views of its fields.
    fn variant(self) -> ViewOfDepot<'a>;
}

impl<'a> DepotView<'a> for Ref<'a, ArchivedDepot> {
    ghost use Rattle.derived_plain.specs.declared.depot.ViewOfDepot.TheVariants.{Free as DepotFreeShown, Sent as DepotSentShown};

    fn variant(self) -> ViewOfDepot<'a>
        ensures shows { elim result [
          | DepotFreeShown ↦ (tag_of self.entry ≡ 0)
          | DepotSentShown a0 a1 a2 a3 a4 a5 a6 a7 a8 ↦ (tag_of self.entry ≡ 1)
              × (a0.bytes.now ≡ self.entry.bytes.now) × (a0.pos ≡ self.entry.pos + 1) × (a0.len ≡ 0)
              × ShowsValueOf a0 self.entry (payload_in 0) × (a1.bytes.now ≡ self.entry.bytes.now)
              × (a1.pos ≡ self.entry.pos + 2) × (a1.len ≡ 0)
              × ShowsValueOf a1 self.entry (payload_in 1) × (a2.bytes.now ≡ self.entry.bytes.now)
              × (a2.pos ≡ self.entry.pos + 3) × (a2.len ≡ 0)
              × ShowsValueOf a2 self.entry (payload_in 2) × (a3.bytes.now ≡ self.entry.bytes.now)
              × (a3.pos ≡ self.entry.pos + 4) × (a3.len ≡ 0)
              × ShowsValueOf a3 self.entry (payload_in 3) × (a4.bytes.now ≡ self.entry.bytes.now)
              × (a4.pos ≡ self.entry.pos + 8) × (a4.len ≡ 0)
              × ShowsValueOf a4 self.entry (payload_in 4) × (a5.bytes.now ≡ self.entry.bytes.now)
              × (a5.pos ≡ self.entry.pos + 12) × (a5.len ≡ 0)
              × ShowsValueOf a5 self.entry (payload_in 5) × (a6.bytes.now ≡ self.entry.bytes.now)
              × (a6.pos ≡ self.entry.pos + 13) × (a6.len ≡ 0)
              × ShowsValueOf a6 self.entry (payload_in 6) × (a7.bytes.now ≡ self.entry.bytes.now)
              × (a7.pos ≡ self.entry.pos + 14) × (a7.len ≡ 0)
              × ShowsValueOf a7 self.entry (payload_in 7) × (a8.bytes.now ≡ self.entry.bytes.now)
              × (a8.pos ≡ self.entry.pos + 16) × (a8.len ≡ 0)
              × ShowsValueOf a8 self.entry (payload_in 8)
        ] }
    {
        match tag_in(self) {
            0 => ViewOfDepot::Free,
            _ => ViewOfDepot::Sent {
                number: part_in_case::<ArchivedDepot, u8>(self, 1, 0, 1),
                row: part_in_case::<ArchivedDepot, u8>(self, 1, 1, 2),
                shelf: part_in_case::<ArchivedDepot, u8>(self, 1, 2, 3),
                place: part_in_case::<ArchivedDepot, u8>(self, 1, 3, 4),
                letter: part_in_case::<ArchivedDepot, ArchivedChar>(self, 1, 4, 8),
                height: part_in_case::<ArchivedDepot, i8>(self, 1, 5, 12),
                width: part_in_case::<ArchivedDepot, u8>(self, 1, 6, 13),
                is_open: part_in_case::<ArchivedDepot, bool>(self, 1, 7, 14),
                to: part_in_case::<ArchivedDepot, ArchivedString>(self, 1, 8, 16),
            },
        }
    }
}

/// The fields of an archived `Depot`, as seals. The caller must ensure that the tag is the variant's.
pub trait DepotSeal<'a> {
    // The seal shows a part of a buffer that was checked.
    ghost sealed: { Self → Type 0 };

    // The tag that it shows.
    ghost tag: { Self → ℕ };

    /// Its number.
    fn sent_number_mut(self) -> Seal<'a, u8>
        requires come_to { sealed self }
        requires tag { tag self ≡ 1 };

    /// The row in which it lay.
    fn sent_row_mut(self) -> Seal<'a, u8>
        requires come_to { sealed self }
        requires tag { tag self ≡ 1 };

    /// The shelf.
    fn sent_shelf_mut(self) -> Seal<'a, u8>
        requires come_to { sealed self }
        requires tag { tag self ≡ 1 };

    /// The place.
    fn sent_place_mut(self) -> Seal<'a, u8>
        requires come_to { sealed self }
        requires tag { tag self ≡ 1 };

    /// The letter on it.
    fn sent_letter_mut(self) -> Seal<'a, ArchivedChar>
        requires come_to { sealed self }
        requires tag { tag self ≡ 1 };

    /// How high it was, above the floor.
    fn sent_height_mut(self) -> Seal<'a, i8>
        requires come_to { sealed self }
        requires tag { tag self ≡ 1 };

    /// How wide.
    fn sent_width_mut(self) -> Seal<'a, u8>
        requires come_to { sealed self }
        requires tag { tag self ≡ 1 };

    /// Whether it was open.
    fn sent_is_open_mut(self) -> Seal<'a, bool>
        requires come_to { sealed self }
        requires tag { tag self ≡ 1 };

    /// Who took it.
    fn sent_to_mut(self) -> Seal<'a, ArchivedString>
        requires come_to { sealed self }
        requires tag { tag self ≡ 1 };
}

impl<'a> DepotSeal<'a> for Seal<'a, ArchivedDepot> {
    ghost sealed = { λ s. IsSealOf no_definition (one ⟦<ArchivedDepot as Portable>⟧.shape) s };

    ghost tag = { λ s. seal_tag s };

    fn sent_number_mut(self) -> Seal<'a, u8>
        requires come_to { IsSealOf no_definition (one ⟦<ArchivedDepot as Portable>⟧.shape) self }
        requires tag { seal_tag self ≡ 1 }
        ensures { SealsPart no_definition (one ⟦<ArchivedDepot as Portable>⟧.shape) no_definition
            ⟦<u8 as ArchivePointee>⟧.pointee (self.entry.pos + 1) 0 self.entry result }
    {
        sealed_part_in_case::<ArchivedDepot, u8>(self, 1, 0, 1)
    }

    fn sent_row_mut(self) -> Seal<'a, u8>
        requires come_to { IsSealOf no_definition (one ⟦<ArchivedDepot as Portable>⟧.shape) self }
        requires tag { seal_tag self ≡ 1 }
        ensures { SealsPart no_definition (one ⟦<ArchivedDepot as Portable>⟧.shape) no_definition
            ⟦<u8 as ArchivePointee>⟧.pointee (self.entry.pos + 2) 0 self.entry result }
    {
        sealed_part_in_case::<ArchivedDepot, u8>(self, 1, 1, 2)
    }

    fn sent_shelf_mut(self) -> Seal<'a, u8>
        requires come_to { IsSealOf no_definition (one ⟦<ArchivedDepot as Portable>⟧.shape) self }
        requires tag { seal_tag self ≡ 1 }
        ensures { SealsPart no_definition (one ⟦<ArchivedDepot as Portable>⟧.shape) no_definition
            ⟦<u8 as ArchivePointee>⟧.pointee (self.entry.pos + 3) 0 self.entry result }
    {
        sealed_part_in_case::<ArchivedDepot, u8>(self, 1, 2, 3)
    }

    fn sent_place_mut(self) -> Seal<'a, u8>
        requires come_to { IsSealOf no_definition (one ⟦<ArchivedDepot as Portable>⟧.shape) self }
        requires tag { seal_tag self ≡ 1 }
        ensures { SealsPart no_definition (one ⟦<ArchivedDepot as Portable>⟧.shape) no_definition
            ⟦<u8 as ArchivePointee>⟧.pointee (self.entry.pos + 4) 0 self.entry result }
    {
        sealed_part_in_case::<ArchivedDepot, u8>(self, 1, 3, 4)
    }

    fn sent_letter_mut(self) -> Seal<'a, ArchivedChar>
        requires come_to { IsSealOf no_definition (one ⟦<ArchivedDepot as Portable>⟧.shape) self }
        requires tag { seal_tag self ≡ 1 }
        ensures { SealsPart no_definition (one ⟦<ArchivedDepot as Portable>⟧.shape) no_definition
            ⟦<ArchivedChar as ArchivePointee>⟧.pointee (self.entry.pos + 8) 0 self.entry result }
    {
        sealed_part_in_case::<ArchivedDepot, ArchivedChar>(self, 1, 4, 8)
    }

    fn sent_height_mut(self) -> Seal<'a, i8>
        requires come_to { IsSealOf no_definition (one ⟦<ArchivedDepot as Portable>⟧.shape) self }
        requires tag { seal_tag self ≡ 1 }
        ensures { SealsPart no_definition (one ⟦<ArchivedDepot as Portable>⟧.shape) no_definition
            ⟦<i8 as ArchivePointee>⟧.pointee (self.entry.pos + 12) 0 self.entry result }
    {
        sealed_part_in_case::<ArchivedDepot, i8>(self, 1, 5, 12)
    }

    fn sent_width_mut(self) -> Seal<'a, u8>
        requires come_to { IsSealOf no_definition (one ⟦<ArchivedDepot as Portable>⟧.shape) self }
        requires tag { seal_tag self ≡ 1 }
        ensures { SealsPart no_definition (one ⟦<ArchivedDepot as Portable>⟧.shape) no_definition
            ⟦<u8 as ArchivePointee>⟧.pointee (self.entry.pos + 13) 0 self.entry result }
    {
        sealed_part_in_case::<ArchivedDepot, u8>(self, 1, 6, 13)
    }

    fn sent_is_open_mut(self) -> Seal<'a, bool>
        requires come_to { IsSealOf no_definition (one ⟦<ArchivedDepot as Portable>⟧.shape) self }
        requires tag { seal_tag self ≡ 1 }
        ensures { SealsPart no_definition (one ⟦<ArchivedDepot as Portable>⟧.shape) no_definition
            ⟦<bool as ArchivePointee>⟧.pointee (self.entry.pos + 14) 0 self.entry result }
    {
        sealed_part_in_case::<ArchivedDepot, bool>(self, 1, 7, 14)
    }

    fn sent_to_mut(self) -> Seal<'a, ArchivedString>
        requires come_to { IsSealOf no_definition (one ⟦<ArchivedDepot as Portable>⟧.shape) self }
        requires tag { seal_tag self ≡ 1 }
        ensures { SealsPart no_definition (one ⟦<ArchivedDepot as Portable>⟧.shape) no_definition
            ⟦<ArchivedString as ArchivePointee>⟧.pointee (self.entry.pos + 16) 0 self.entry result }
    {
        sealed_part_in_case::<ArchivedDepot, ArchivedString>(self, 1, 8, 16)
    }
}
