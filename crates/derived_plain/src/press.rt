//! The keys of a keyboard: an enum of many variants, which are compared.

/// A key that is pressed.
#[derive(Debug, PartialEq, Eq, Drop)]
pub enum Press {
    Unknown,
    /// A key that has no name here.
    Scanned(u32),
    A,
    B,
    C,
    D,
    E,
    F,
    G,
    H,
    I,
    J,
    K,
    L,
    M,
    N,
    O,
    P,
    Q,
    R,
    S,
    T,
    U,
    V,
    W,
    X,
    Y,
    Z,
    Digit0,
    Digit1,
    Digit2,
    Digit3,
    Digit4,
    Digit5,
    Digit6,
    Digit7,
    Digit8,
    Digit9,
    /// A key of its own name.
    Named(String),
    /// A character with modifiers.
    Chord {
        /// The modifiers, a bit each.
        modifiers: u8,
        /// The character.
        key: char,
    },
}

// Below this line all is written by tools/derive: change what is above it, and run it again.

ghost use Rattle.archive_core.specs.CallOutcomes.{ResolvesAs};
ghost use Rattle.archive_core.specs.ComparedCases.{choice_fed, choice_order};
ghost use Rattle.archive_core.specs.ComparedLeaves.{char_compared, unsigned_compared};
ghost use Rattle.archive_core.specs.ComparedTypes.{case_compared, choice_compared, field_compared, no_case_compared, no_field_compared, string_compared};
ghost use Rattle.archive_core.specs.ComparedUnits.{units_compared};
ghost use Rattle.archive_core.specs.Definitions.{both, no_definition};
ghost use Rattle.archive_core.specs.Keyed.{case_keyed, nothing_keyed, number_keyed, part_keyed, text_keyed};
ghost use Rattle.archive_core.specs.Layout.{up};
ghost use Rattle.archive_core.specs.LeafLayout.{no_definition_reached};
ghost use Rattle.archive_core.specs.PartsLayout.{first_or, no_part_laid_out, no_part_sized, part_laid_out, part_sized, within_at, within_over};
ghost use Rattle.archive_core.specs.PartsPlanned.{no_part_planned, part_planned};
ghost use Rattle.archive_core.specs.Payloads.{payload_in};
ghost use Rattle.archive_core.specs.Plain.{plain_choice, plain_own_check, plain_variant_planned, variant_in};
ghost use Rattle.archive_core.specs.Planned.{leaf_planned, string_planned};
ghost use Rattle.archive_core.specs.PlannedOwners.{one_planned};
ghost use Rattle.archive_core.specs.ReadBack.{ReadsAs};
ghost use Rattle.archive_core.specs.SealOutcomes.{IsSealOf, SealsPart, seal_tag};
ghost use Rattle.archive_core.specs.Seen.{IsPartOf, ShowsValueOf, tag_of};
ghost use Rattle.archive_core.specs.SelfCheck.Regions.{no_lower, rises_over};
ghost use Rattle.archive_core.specs.Shape.{choice, no_part, no_variant, one, part, parts, variant};
ghost use Rattle.archive_core.specs.Units.{unit_definitions, units};
ghost use Rattle.archive_core.specs.Value.{case, no_value, value};
ghost use Rattle.archive_core.specs.VariantsHeld.{no_payload_sized, no_payload_within, payload_sized, payload_within};
ghost use Rattle.archive_core.specs.VariantsLayout.{no_variant_laid_out, no_variants_reached, variant_laid_out, variant_reached};
ghost use Rattle.archive_core.specs.Writing.{ZeroedPlace};
ghost use Rattle.std.proofs.Common.{inl, inr, lit≤};
ghost use Rattle.std.specs.Int.{w32, w8};
ghost use Rattle.std.specs.Prelude.{None, Some, [], codes, refl, string_bytes, true, ℕ, ◌++◌, ◌+◌, ◌<◌, ◌≡◌, ◌≢◌};

use archive_core::compare::Ordered;
use archive_core::compared::{ComparedCases, compare_choice, hash_choice};
use archive_core::error::Error;
use archive_core::fields::{
    UnitVariants, known_tag, part_in_case, read_case, resolve_case_0, resolve_case_1,
    resolve_case_2, serialize_case_0, serialize_case_1, serialize_case_2, tag_in,
};
use archive_core::place::Place;
use archive_core::primitive::{ArchivedChar, ArchivedU32};
use archive_core::seal::{Seal, sealed_part_in_case};
use archive_core::self_check::{CheckedVariants, SelfCheck, check_choice};
use archive_core::ser::{ResolverAlloc, Writer, serialize_one};
use archive_core::shape::Defs;
use archive_core::string::ArchivedString;
use archive_core::traits::{
    Archive, ArchivePointee, ArchiveUnsized, Choice, CopyOptimization, Deserialize, Entries, Keys,
    Portable, PortableVariants, Serialize, SerializeUnsized, expr_of_choice,
};
use archive_core::validation::ArchiveContext;
use archive_core::view::{RawView, Ref};
use std::alloc::Global;
use std::cmp::Ordering;
use std::hash::{Hash, Hasher};

/// An archived `Press`: 12 bytes at a multiple of 4.
pub struct ArchivedPress;

type PressScannedParts = (ArchivedU32, ());

type PressScannedOwned = (u32, ());

type PressNamedParts = (ArchivedString, ());

type PressNamedOwned = (String, ());

type PressChordParts = (u8, (ArchivedChar, ()));

type PressChordOwned = (u8, (char, ()));

type PressVariants = UnitVariants<
    1,
    (
        PressScannedParts,
        UnitVariants<36, (PressNamedParts, PressRest1)>,
    ),
>;

/// The variants of `Press` from `Chord` on, as one type: it has no values.
pub struct PressRest1;

type PressBlock1 = (PressChordParts, ());

impl CheckedVariants for PressRest1 {
    ghost variants = { ⟦<PressBlock1 as CheckedVariants>⟧.variants };

    ghost definitions = { ⟦<PressBlock1 as CheckedVariants>⟧.definitions };

    ghost end = { ⟦<PressBlock1 as CheckedVariants>⟧.end };

    ghost direct = { ⟦<PressBlock1 as CheckedVariants>⟧.direct };

    fn are_direct() -> bool {
        <PressBlock1 as CheckedVariants>::are_direct()
    }

    #[inline(always)]
    fn check_variant<C: ArchiveContext>(
        bytes: &[u8],
        base: usize,
        tag: usize,
        refusal: &mut Error,
        context: &mut C,
    ) -> Option<bool> {
        <PressBlock1 as CheckedVariants>::check_variant(bytes, base, tag, refusal, context)
    }
}

impl PortableVariants for PressRest1 {
    ghost greatest = { ⟦<PressBlock1 as PortableVariants>⟧.greatest };

    ghost begin = { ⟦<PressBlock1 as PortableVariants>⟧.begin };

    ghost size_at = { ⟦<PressBlock1 as PortableVariants>⟧.size_at };

    ghost is_align = { inr (inr (inl refl)) };

    ghost laid_out = { variant_laid_out _ _ _ _ _ _ (part_laid_out no_definition _
        ⟦<u8 as Portable>⟧.shape (record { size = 1; align = 1 }) (record { solved = λ s k. refl })
        _ _ _ _ (part_laid_out no_definition _ ⟦<ArchivedChar as Portable>⟧.shape (record {
          size = 4;
          align = 4;
        }) (record { solved = λ s k. refl }) _ _ _ _ no_part_laid_out)) _ _ _ _
        no_variant_laid_out };

    ghost no_others = { variant_reached (both no_definition (both no_definition no_definition))
        no_definition (part ⟦<u8 as Portable>⟧.shape (part ⟦<ArchivedChar as Portable>⟧.shape
        no_part)) no_variant (no_definition_reached (parts
        (part ⟦<u8 as Portable>⟧.shape (part ⟦<ArchivedChar as Portable>⟧.shape no_part))))
        no_variants_reached };

    ghost sized = { payload_sized (both no_definition (both no_definition no_definition))
        no_definition (part ⟦<u8 as Portable>⟧.shape (part ⟦<ArchivedChar as Portable>⟧.shape
        no_part)) _ (part_sized no_definition (both no_definition no_definition)
        ⟦<u8 as Portable>⟧.shape (record { size = 1; align = 1 }) (record { solved = λ s k. refl })
        (part ⟦<ArchivedChar as Portable>⟧.shape no_part) (first_or 4 (λ i. 0))
        (part_sized no_definition no_definition ⟦<ArchivedChar as Portable>⟧.shape (record {
          size = 4;
          align = 4;
        }) (record { solved = λ s k. refl }) no_part (λ i. 0) no_part_sized)) no_variant _
        no_payload_sized };

    ghost within = { payload_within _ _ _ (within_over (up 1 1) 1 _ _ _
        (λ n. rises_over n 4 4 (inr (inr (inl refl))) _ no_lower)
        (λ n. within_over (up n 4) 4 _ _ _ no_lower within_at)) _ _ _ no_payload_within };

    fn align() -> usize {
        <PressBlock1 as PortableVariants>::align()
    }

    #[inline(always)]
    fn longest_end() -> usize {
        <PressBlock1 as PortableVariants>::longest_end()
    }

    #[inline(always)]
    fn payload_offset(tag: usize, i: usize) -> usize {
        <PressBlock1 as PortableVariants>::payload_offset(tag, i)
    }

    fn push_variants(
        alloc: Global,
        list: &mut Vec<Vec<archive_core::shape::Expr>>,
    ) -> Result<(), Error> {
        <PressBlock1 as PortableVariants>::push_variants(alloc, list)
    }

    fn define(alloc: Global, defs: &mut Defs) -> Result<(), Error> {
        <PressBlock1 as PortableVariants>::define(alloc, defs)
    }
}

impl ArchivePointee for ArchivedPress {
    type ArchivedMetadata = ();

    ghost pointee = { one (choice (codes "ArchivedPress")
        (units 1 (variant (part ⟦<ArchivedU32 as Portable>⟧.shape no_part)
        (units 36 (variant (part ⟦<ArchivedString as Portable>⟧.shape no_part)
        (variant (part ⟦<u8 as Portable>⟧.shape (part ⟦<ArchivedChar as Portable>⟧.shape no_part))
        no_variant)))))) };

    ghost definitions = { no_definition };

    ghost metadata_length = { λ _. 0 };

    fn pointer_metadata(_metadata: &()) -> usize {
        0
    }
}

impl Portable for ArchivedPress {
    ghost shape = { choice (codes "ArchivedPress") (units 1
        (variant (part ⟦<ArchivedU32 as Portable>⟧.shape no_part)
        (units 36 (variant (part ⟦<ArchivedString as Portable>⟧.shape no_part)
        (variant (part ⟦<u8 as Portable>⟧.shape (part ⟦<ArchivedChar as Portable>⟧.shape no_part))
        no_variant))))) };

    ghost layout = { record { size = 12; align = 4 } };

    type Check = ArchivedPress;

    ghost is_one = { refl };

    ghost is_align = { inr (inr (inl refl)) };

    ghost has_layout = { record { solved = λ s k. refl } };

    ghost no_others = { no_definition_reached (choice (codes "ArchivedPress")
        (units 1 (variant (part ⟦<ArchivedU32 as Portable>⟧.shape no_part)
        (units 36 (variant (part ⟦<ArchivedString as Portable>⟧.shape no_part)
        (variant (part ⟦<u8 as Portable>⟧.shape (part ⟦<ArchivedChar as Portable>⟧.shape no_part))
        no_variant)))))) };

    ghost checks = { λ _. plain_own_check _ _ _ _ _ refl refl refl refl };

    fn size() -> usize {
        12
    }

    fn align() -> usize {
        4
    }

    fn expr(alloc: Global) -> Result<archive_core::shape::Expr, Error> {
        expr_of_choice::<PressVariants>(alloc, "ArchivedPress")
    }

    fn define(_alloc: Global, _defs: &mut Defs) -> Result<(), Error> {
        Ok(())
    }
}

impl SelfCheck for ArchivedPress {
    ghost shape = { choice (codes "ArchivedPress") (units 1
        (variant (part ⟦<ArchivedU32 as Portable>⟧.shape no_part)
        (units 36 (variant (part ⟦<ArchivedString as Portable>⟧.shape no_part)
        (variant (part ⟦<u8 as Portable>⟧.shape (part ⟦<ArchivedChar as Portable>⟧.shape no_part))
        no_variant))))) };

    ghost definitions = { (unit_definitions 1 (both (both no_definition no_definition)
        (unit_definitions 36 (both (both no_definition no_definition)
        (both (both no_definition (both no_definition no_definition)) no_definition))))) };

    ghost span = { 12 };

    ghost direct = { true };

    ghost nameless = { true };

    fn is_direct() -> bool {
        true
    }

    fn is_nameless() -> bool {
        true
    }

    #[inline(always)]
    fn check_at<C: ArchiveContext>(
        bytes: &[u8],
        at: usize,
        refusal: &mut Error,
        context: &mut C,
    ) -> Option<()> {
        check_choice::<PressVariants, C>("ArchivedPress", bytes, at, refusal, context)
    }
}

impl Choice for ArchivedPress {
    type Variants = PressVariants;

    ghost name = { codes "ArchivedPress" };

    ghost has_variants = { plain_choice (codes "ArchivedPress")
        (units 1 (variant (part ⟦<ArchivedU32 as Portable>⟧.shape no_part)
        (units 36 (variant (part ⟦<ArchivedString as Portable>⟧.shape no_part)
        (variant (part ⟦<u8 as Portable>⟧.shape (part ⟦<ArchivedChar as Portable>⟧.shape no_part))
        no_variant))))) (unit_definitions 1 (both (both no_definition no_definition)
        (unit_definitions 36 (both (both no_definition no_definition)
        (both (both no_definition (both no_definition no_definition)) no_definition))))) refl };

    ghost holds = { lit≤ tt };
}

/// What is kept of `Press` between `serialize` and `resolve`.
#[derive(Drop)]
pub enum PressResolver {
    /// Of a variant without fields.
    Unit,
    /// Of `Scanned`.
    Scanned((<u32 as Archive>::Resolver, ())),
    /// Of `Named`.
    Named((<String as Archive>::Resolver, ())),
    /// Of `Chord`.
    Chord((<u8 as Archive>::Resolver, (<char as Archive>::Resolver, ()))),
}

// The tag of each variant.
trait PressTag {
    fn tag(&self) -> u8;
}

impl PressTag for Press {
    ghost use Rattle.derived_plain.specs.declared.press.Press.TheVariants.{A as PressA, B as PressB, C as PressC, Chord as PressChord, D as PressD, Digit0 as PressDigit0, Digit1 as PressDigit1, Digit2 as PressDigit2, Digit3 as PressDigit3, Digit4 as PressDigit4, Digit5 as PressDigit5, Digit6 as PressDigit6, Digit7 as PressDigit7, Digit8 as PressDigit8, Digit9 as PressDigit9, E as PressE, F as PressF, G as PressG, H as PressH, I as PressI, J as PressJ, K as PressK, L as PressL, M as PressM, N as PressN, Named as PressNamed, O as PressO, P as PressP, Q as PressQ, R as PressR, S as PressS, Scanned as PressScanned, T as PressT, U as PressU, Unknown as PressUnknown, V as PressV, W as PressW, X as PressX, Y as PressY, Z as PressZ};

    fn tag(&self) -> u8
        ensures { elim self.now [
          | PressUnknown ↦ result ≡ 0
          | PressScanned a0 ↦ result ≡ 1
          | PressA ↦ result ≡ 2
          | PressB ↦ result ≡ 3
          | PressC ↦ result ≡ 4
          | PressD ↦ result ≡ 5
          | PressE ↦ result ≡ 6
          | PressF ↦ result ≡ 7
          | PressG ↦ result ≡ 8
          | PressH ↦ result ≡ 9
          | PressI ↦ result ≡ 10
          | PressJ ↦ result ≡ 11
          | PressK ↦ result ≡ 12
          | PressL ↦ result ≡ 13
          | PressM ↦ result ≡ 14
          | PressN ↦ result ≡ 15
          | PressO ↦ result ≡ 16
          | PressP ↦ result ≡ 17
          | PressQ ↦ result ≡ 18
          | PressR ↦ result ≡ 19
          | PressS ↦ result ≡ 20
          | PressT ↦ result ≡ 21
          | PressU ↦ result ≡ 22
          | PressV ↦ result ≡ 23
          | PressW ↦ result ≡ 24
          | PressX ↦ result ≡ 25
          | PressY ↦ result ≡ 26
          | PressZ ↦ result ≡ 27
          | PressDigit0 ↦ result ≡ 28
          | PressDigit1 ↦ result ≡ 29
          | PressDigit2 ↦ result ≡ 30
          | PressDigit3 ↦ result ≡ 31
          | PressDigit4 ↦ result ≡ 32
          | PressDigit5 ↦ result ≡ 33
          | PressDigit6 ↦ result ≡ 34
          | PressDigit7 ↦ result ≡ 35
          | PressDigit8 ↦ result ≡ 36
          | PressDigit9 ↦ result ≡ 37
          | PressNamed a0 ↦ result ≡ 38
          | PressChord a0 a1 ↦ result ≡ 39
        ] }
    {
        match self {
            Press::Unknown => 0,
            Press::Scanned(..) => 1,
            Press::A => 2,
            Press::B => 3,
            Press::C => 4,
            Press::D => 5,
            Press::E => 6,
            Press::F => 7,
            Press::G => 8,
            Press::H => 9,
            Press::I => 10,
            Press::J => 11,
            Press::K => 12,
            Press::L => 13,
            Press::M => 14,
            Press::N => 15,
            Press::O => 16,
            Press::P => 17,
            Press::Q => 18,
            Press::R => 19,
            Press::S => 20,
            Press::T => 21,
            Press::U => 22,
            Press::V => 23,
            Press::W => 24,
            Press::X => 25,
            Press::Y => 26,
            Press::Z => 27,
            Press::Digit0 => 28,
            Press::Digit1 => 29,
            Press::Digit2 => 30,
            Press::Digit3 => 31,
            Press::Digit4 => 32,
            Press::Digit5 => 33,
            Press::Digit6 => 34,
            Press::Digit7 => 35,
            Press::Digit8 => 36,
            Press::Digit9 => 37,
            Press::Named(..) => 38,
            Press::Chord { .. } => 39,
        }
    }
}

impl Archive for Press {
    ghost use Rattle.derived_plain.specs.declared.press.Press.TheVariants.{A as PressA, B as PressB, C as PressC, Chord as PressChord, D as PressD, Digit0 as PressDigit0, Digit1 as PressDigit1, Digit2 as PressDigit2, Digit3 as PressDigit3, Digit4 as PressDigit4, Digit5 as PressDigit5, Digit6 as PressDigit6, Digit7 as PressDigit7, Digit8 as PressDigit8, Digit9 as PressDigit9, E as PressE, F as PressF, G as PressG, H as PressH, I as PressI, J as PressJ, K as PressK, L as PressL, M as PressM, N as PressN, Named as PressNamed, O as PressO, P as PressP, Q as PressQ, R as PressR, S as PressS, Scanned as PressScanned, T as PressT, U as PressU, Unknown as PressUnknown, V as PressV, W as PressW, X as PressX, Y as PressY, Z as PressZ};
    ghost use Rattle.derived_plain.specs.declared.press.PressResolver.TheVariants.{Chord as PressChordKept, Named as PressNamedKept, Scanned as PressScannedKept, Unit as PressUnitKept};

    type Archived = ArchivedPress;

    type Resolver = PressResolver;

    ghost meaning = { elim [
      | PressUnknown ↦ case 0 no_value
      | PressScanned a0 ↦ case 1 (value (⟦<u32 as Archive>⟧.meaning a0) no_value)
      | PressA ↦ case 2 no_value
      | PressB ↦ case 3 no_value
      | PressC ↦ case 4 no_value
      | PressD ↦ case 5 no_value
      | PressE ↦ case 6 no_value
      | PressF ↦ case 7 no_value
      | PressG ↦ case 8 no_value
      | PressH ↦ case 9 no_value
      | PressI ↦ case 10 no_value
      | PressJ ↦ case 11 no_value
      | PressK ↦ case 12 no_value
      | PressL ↦ case 13 no_value
      | PressM ↦ case 14 no_value
      | PressN ↦ case 15 no_value
      | PressO ↦ case 16 no_value
      | PressP ↦ case 17 no_value
      | PressQ ↦ case 18 no_value
      | PressR ↦ case 19 no_value
      | PressS ↦ case 20 no_value
      | PressT ↦ case 21 no_value
      | PressU ↦ case 22 no_value
      | PressV ↦ case 23 no_value
      | PressW ↦ case 24 no_value
      | PressX ↦ case 25 no_value
      | PressY ↦ case 26 no_value
      | PressZ ↦ case 27 no_value
      | PressDigit0 ↦ case 28 no_value
      | PressDigit1 ↦ case 29 no_value
      | PressDigit2 ↦ case 30 no_value
      | PressDigit3 ↦ case 31 no_value
      | PressDigit4 ↦ case 32 no_value
      | PressDigit5 ↦ case 33 no_value
      | PressDigit6 ↦ case 34 no_value
      | PressDigit7 ↦ case 35 no_value
      | PressDigit8 ↦ case 36 no_value
      | PressDigit9 ↦ case 37 no_value
      | PressNamed a0 ↦ case 38 (value (⟦<String as Archive>⟧.meaning a0) no_value)
      | PressChord a0 a1 ↦ case 39 (value (⟦<u8 as Archive>⟧.meaning a0)
          (value (⟦<char as Archive>⟧.meaning a1) no_value))
    ] };

    ghost flat = { λ v r. elim v [
      | PressUnknown ↦ case 0 no_value
      | PressScanned a0 ↦ elim r [
        | PressScannedKept s ↦ case 1 (value (⟦<u32 as Archive>⟧.flat a0 s.0) no_value)
        | _ ↦ case 1 no_value
      ]
      | PressA ↦ case 2 no_value
      | PressB ↦ case 3 no_value
      | PressC ↦ case 4 no_value
      | PressD ↦ case 5 no_value
      | PressE ↦ case 6 no_value
      | PressF ↦ case 7 no_value
      | PressG ↦ case 8 no_value
      | PressH ↦ case 9 no_value
      | PressI ↦ case 10 no_value
      | PressJ ↦ case 11 no_value
      | PressK ↦ case 12 no_value
      | PressL ↦ case 13 no_value
      | PressM ↦ case 14 no_value
      | PressN ↦ case 15 no_value
      | PressO ↦ case 16 no_value
      | PressP ↦ case 17 no_value
      | PressQ ↦ case 18 no_value
      | PressR ↦ case 19 no_value
      | PressS ↦ case 20 no_value
      | PressT ↦ case 21 no_value
      | PressU ↦ case 22 no_value
      | PressV ↦ case 23 no_value
      | PressW ↦ case 24 no_value
      | PressX ↦ case 25 no_value
      | PressY ↦ case 26 no_value
      | PressZ ↦ case 27 no_value
      | PressDigit0 ↦ case 28 no_value
      | PressDigit1 ↦ case 29 no_value
      | PressDigit2 ↦ case 30 no_value
      | PressDigit3 ↦ case 31 no_value
      | PressDigit4 ↦ case 32 no_value
      | PressDigit5 ↦ case 33 no_value
      | PressDigit6 ↦ case 34 no_value
      | PressDigit7 ↦ case 35 no_value
      | PressDigit8 ↦ case 36 no_value
      | PressDigit9 ↦ case 37 no_value
      | PressNamed a0 ↦ elim r [
        | PressNamedKept s ↦ case 38 (value (⟦<String as Archive>⟧.flat a0 s.0) no_value)
        | _ ↦ case 38 no_value
      ]
      | PressChord a0 a1 ↦ elim r [
        | PressChordKept s ↦ case 39 (value (⟦<u8 as Archive>⟧.flat a0 s.0)
            (value (⟦<char as Archive>⟧.flat a1 s.1.0) no_value))
        | _ ↦ case 39 no_value
      ]
    ] };

    ghost keys = { elim [
      | PressUnknown ↦ []
      | PressScanned a0 ↦ ⟦<u32 as Archive>⟧.keys a0 ++ []
      | PressA ↦ []
      | PressB ↦ []
      | PressC ↦ []
      | PressD ↦ []
      | PressE ↦ []
      | PressF ↦ []
      | PressG ↦ []
      | PressH ↦ []
      | PressI ↦ []
      | PressJ ↦ []
      | PressK ↦ []
      | PressL ↦ []
      | PressM ↦ []
      | PressN ↦ []
      | PressO ↦ []
      | PressP ↦ []
      | PressQ ↦ []
      | PressR ↦ []
      | PressS ↦ []
      | PressT ↦ []
      | PressU ↦ []
      | PressV ↦ []
      | PressW ↦ []
      | PressX ↦ []
      | PressY ↦ []
      | PressZ ↦ []
      | PressDigit0 ↦ []
      | PressDigit1 ↦ []
      | PressDigit2 ↦ []
      | PressDigit3 ↦ []
      | PressDigit4 ↦ []
      | PressDigit5 ↦ []
      | PressDigit6 ↦ []
      | PressDigit7 ↦ []
      | PressDigit8 ↦ []
      | PressDigit9 ↦ []
      | PressNamed a0 ↦ ⟦<String as Archive>⟧.keys a0 ++ []
      | PressChord a0 a1 ↦ ⟦<u8 as Archive>⟧.keys a0 ++ (⟦<char as Archive>⟧.keys a1 ++ [])
    ] };

    ghost belongs = { λ v r. elim v [
      | PressUnknown ↦ Unit {0}
      | PressScanned a0 ↦ elim r [
        | PressScannedKept s ↦ ⟦<u32 as Archive>⟧.belongs a0 s.0 × Unit {0}
        | _ ↦ ⊥
      ]
      | PressA ↦ Unit {0}
      | PressB ↦ Unit {0}
      | PressC ↦ Unit {0}
      | PressD ↦ Unit {0}
      | PressE ↦ Unit {0}
      | PressF ↦ Unit {0}
      | PressG ↦ Unit {0}
      | PressH ↦ Unit {0}
      | PressI ↦ Unit {0}
      | PressJ ↦ Unit {0}
      | PressK ↦ Unit {0}
      | PressL ↦ Unit {0}
      | PressM ↦ Unit {0}
      | PressN ↦ Unit {0}
      | PressO ↦ Unit {0}
      | PressP ↦ Unit {0}
      | PressQ ↦ Unit {0}
      | PressR ↦ Unit {0}
      | PressS ↦ Unit {0}
      | PressT ↦ Unit {0}
      | PressU ↦ Unit {0}
      | PressV ↦ Unit {0}
      | PressW ↦ Unit {0}
      | PressX ↦ Unit {0}
      | PressY ↦ Unit {0}
      | PressZ ↦ Unit {0}
      | PressDigit0 ↦ Unit {0}
      | PressDigit1 ↦ Unit {0}
      | PressDigit2 ↦ Unit {0}
      | PressDigit3 ↦ Unit {0}
      | PressDigit4 ↦ Unit {0}
      | PressDigit5 ↦ Unit {0}
      | PressDigit6 ↦ Unit {0}
      | PressDigit7 ↦ Unit {0}
      | PressDigit8 ↦ Unit {0}
      | PressDigit9 ↦ Unit {0}
      | PressNamed a0 ↦ elim r [
        | PressNamedKept s ↦ ⟦<String as Archive>⟧.belongs a0 s.0 × Unit {0}
        | _ ↦ ⊥
      ]
      | PressChord a0 a1 ↦ elim r [
        | PressChordKept s ↦ ⟦<u8 as Archive>⟧.belongs a0 s.0
            × (⟦<char as Archive>⟧.belongs a1 s.1.0 × Unit {0})
        | _ ↦ ⊥
      ]
    ] };

    ghost in_bulk = { None };

    ghost keyed = { elim [
      | PressUnknown ↦ case_keyed _ 0 _ nothing_keyed
      | PressScanned a0 ↦ case_keyed _ 1 _ (part_keyed (number_keyed _) nothing_keyed)
      | PressA ↦ case_keyed _ 2 _ nothing_keyed
      | PressB ↦ case_keyed _ 3 _ nothing_keyed
      | PressC ↦ case_keyed _ 4 _ nothing_keyed
      | PressD ↦ case_keyed _ 5 _ nothing_keyed
      | PressE ↦ case_keyed _ 6 _ nothing_keyed
      | PressF ↦ case_keyed _ 7 _ nothing_keyed
      | PressG ↦ case_keyed _ 8 _ nothing_keyed
      | PressH ↦ case_keyed _ 9 _ nothing_keyed
      | PressI ↦ case_keyed _ 10 _ nothing_keyed
      | PressJ ↦ case_keyed _ 11 _ nothing_keyed
      | PressK ↦ case_keyed _ 12 _ nothing_keyed
      | PressL ↦ case_keyed _ 13 _ nothing_keyed
      | PressM ↦ case_keyed _ 14 _ nothing_keyed
      | PressN ↦ case_keyed _ 15 _ nothing_keyed
      | PressO ↦ case_keyed _ 16 _ nothing_keyed
      | PressP ↦ case_keyed _ 17 _ nothing_keyed
      | PressQ ↦ case_keyed _ 18 _ nothing_keyed
      | PressR ↦ case_keyed _ 19 _ nothing_keyed
      | PressS ↦ case_keyed _ 20 _ nothing_keyed
      | PressT ↦ case_keyed _ 21 _ nothing_keyed
      | PressU ↦ case_keyed _ 22 _ nothing_keyed
      | PressV ↦ case_keyed _ 23 _ nothing_keyed
      | PressW ↦ case_keyed _ 24 _ nothing_keyed
      | PressX ↦ case_keyed _ 25 _ nothing_keyed
      | PressY ↦ case_keyed _ 26 _ nothing_keyed
      | PressZ ↦ case_keyed _ 27 _ nothing_keyed
      | PressDigit0 ↦ case_keyed _ 28 _ nothing_keyed
      | PressDigit1 ↦ case_keyed _ 29 _ nothing_keyed
      | PressDigit2 ↦ case_keyed _ 30 _ nothing_keyed
      | PressDigit3 ↦ case_keyed _ 31 _ nothing_keyed
      | PressDigit4 ↦ case_keyed _ 32 _ nothing_keyed
      | PressDigit5 ↦ case_keyed _ 33 _ nothing_keyed
      | PressDigit6 ↦ case_keyed _ 34 _ nothing_keyed
      | PressDigit7 ↦ case_keyed _ 35 _ nothing_keyed
      | PressDigit8 ↦ case_keyed _ 36 _ nothing_keyed
      | PressDigit9 ↦ case_keyed _ 37 _ nothing_keyed
      | PressNamed a0 ↦ case_keyed _ 38 _ (part_keyed (text_keyed (string_bytes a0)) nothing_keyed)
      | PressChord a0 a1 ↦ case_keyed _ 39 _ (part_keyed (number_keyed _)
          (part_keyed (number_keyed _) nothing_keyed))
    ] };

    ghost planned = { elim [
      | PressUnknown ↦ plain_variant_planned _ _ 0 no_part refl no_definition _ _ no_part_planned
          refl
      | PressScanned a0 ↦ plain_variant_planned _ _ 1 (part ⟦<ArchivedU32 as Portable>⟧.shape
          no_part) refl (both no_definition no_definition) _ _
          (part_planned no_definition ⟦<ArchivedU32 as Portable>⟧.shape (⟦<u32 as Archive>⟧.keys a0)
          (⟦<u32 as Archive>⟧.meaning a0) (leaf_planned no_definition _ _ [] _ refl)
          no_part_planned) refl
      | PressA ↦ plain_variant_planned _ _ 2 no_part refl no_definition _ _ no_part_planned refl
      | PressB ↦ plain_variant_planned _ _ 3 no_part refl no_definition _ _ no_part_planned refl
      | PressC ↦ plain_variant_planned _ _ 4 no_part refl no_definition _ _ no_part_planned refl
      | PressD ↦ plain_variant_planned _ _ 5 no_part refl no_definition _ _ no_part_planned refl
      | PressE ↦ plain_variant_planned _ _ 6 no_part refl no_definition _ _ no_part_planned refl
      | PressF ↦ plain_variant_planned _ _ 7 no_part refl no_definition _ _ no_part_planned refl
      | PressG ↦ plain_variant_planned _ _ 8 no_part refl no_definition _ _ no_part_planned refl
      | PressH ↦ plain_variant_planned _ _ 9 no_part refl no_definition _ _ no_part_planned refl
      | PressI ↦ plain_variant_planned _ _ 10 no_part refl no_definition _ _ no_part_planned refl
      | PressJ ↦ plain_variant_planned _ _ 11 no_part refl no_definition _ _ no_part_planned refl
      | PressK ↦ plain_variant_planned _ _ 12 no_part refl no_definition _ _ no_part_planned refl
      | PressL ↦ plain_variant_planned _ _ 13 no_part refl no_definition _ _ no_part_planned refl
      | PressM ↦ plain_variant_planned _ _ 14 no_part refl no_definition _ _ no_part_planned refl
      | PressN ↦ plain_variant_planned _ _ 15 no_part refl no_definition _ _ no_part_planned refl
      | PressO ↦ plain_variant_planned _ _ 16 no_part refl no_definition _ _ no_part_planned refl
      | PressP ↦ plain_variant_planned _ _ 17 no_part refl no_definition _ _ no_part_planned refl
      | PressQ ↦ plain_variant_planned _ _ 18 no_part refl no_definition _ _ no_part_planned refl
      | PressR ↦ plain_variant_planned _ _ 19 no_part refl no_definition _ _ no_part_planned refl
      | PressS ↦ plain_variant_planned _ _ 20 no_part refl no_definition _ _ no_part_planned refl
      | PressT ↦ plain_variant_planned _ _ 21 no_part refl no_definition _ _ no_part_planned refl
      | PressU ↦ plain_variant_planned _ _ 22 no_part refl no_definition _ _ no_part_planned refl
      | PressV ↦ plain_variant_planned _ _ 23 no_part refl no_definition _ _ no_part_planned refl
      | PressW ↦ plain_variant_planned _ _ 24 no_part refl no_definition _ _ no_part_planned refl
      | PressX ↦ plain_variant_planned _ _ 25 no_part refl no_definition _ _ no_part_planned refl
      | PressY ↦ plain_variant_planned _ _ 26 no_part refl no_definition _ _ no_part_planned refl
      | PressZ ↦ plain_variant_planned _ _ 27 no_part refl no_definition _ _ no_part_planned refl
      | PressDigit0 ↦ plain_variant_planned _ _ 28 no_part refl no_definition _ _ no_part_planned
          refl
      | PressDigit1 ↦ plain_variant_planned _ _ 29 no_part refl no_definition _ _ no_part_planned
          refl
      | PressDigit2 ↦ plain_variant_planned _ _ 30 no_part refl no_definition _ _ no_part_planned
          refl
      | PressDigit3 ↦ plain_variant_planned _ _ 31 no_part refl no_definition _ _ no_part_planned
          refl
      | PressDigit4 ↦ plain_variant_planned _ _ 32 no_part refl no_definition _ _ no_part_planned
          refl
      | PressDigit5 ↦ plain_variant_planned _ _ 33 no_part refl no_definition _ _ no_part_planned
          refl
      | PressDigit6 ↦ plain_variant_planned _ _ 34 no_part refl no_definition _ _ no_part_planned
          refl
      | PressDigit7 ↦ plain_variant_planned _ _ 35 no_part refl no_definition _ _ no_part_planned
          refl
      | PressDigit8 ↦ plain_variant_planned _ _ 36 no_part refl no_definition _ _ no_part_planned
          refl
      | PressDigit9 ↦ plain_variant_planned _ _ 37 no_part refl no_definition _ _ no_part_planned
          refl
      | PressNamed a0 ↦ plain_variant_planned _ _ 38 (part ⟦<ArchivedString as Portable>⟧.shape
          no_part) refl (both no_definition no_definition) _ _
          (part_planned no_definition ⟦<ArchivedString as Portable>⟧.shape
          (⟦<String as Archive>⟧.keys a0) (⟦<String as Archive>⟧.meaning a0)
          (string_planned no_definition [] (string_bytes a0)) no_part_planned) refl
      | PressChord a0 a1 ↦ plain_variant_planned _ _ 39
          (part ⟦<u8 as Portable>⟧.shape (part ⟦<ArchivedChar as Portable>⟧.shape no_part)) refl
          (both no_definition (both no_definition no_definition)) _ _
          (part_planned no_definition ⟦<u8 as Portable>⟧.shape (⟦<u8 as Archive>⟧.keys a0)
          (⟦<u8 as Archive>⟧.meaning a0) (leaf_planned no_definition _ _ [] _ refl)
          (part_planned no_definition ⟦<ArchivedChar as Portable>⟧.shape
          (⟦<char as Archive>⟧.keys a1) (⟦<char as Archive>⟧.meaning a1)
          (leaf_planned no_definition _ _ [] _ refl) no_part_planned)) refl
    ] };

    #[inline(always)]
    fn resolve(
        &self,
        resolver: Self::Resolver,
        place: Place<'_, Self::Archived>,
    ) -> Result<(), Error>
        requires zeroed { ZeroedPlace 12 place.pos place.bytes.now }
        requires same_value { ⟦<Self as Archive>⟧.belongs self.now resolver }
        ensures { ResolvesAs ⟦<Self::Archived as Portable>⟧ place
            (⟦<Self as Archive>⟧.flat self.now resolver) result }
    {
        let Place { bytes, pos, .. } = place;
        match self {
            Press::Scanned(a0) => {
                let PressResolver::Scanned(kept) = resolver else {
                    unreachable!();
                };
                resolve_case_1::<u32, ArchivedPress>(1, a0, kept, Place::new(pos, bytes))
            }
            Press::Named(a0) => {
                let PressResolver::Named(kept) = resolver else {
                    unreachable!();
                };
                resolve_case_1::<String, ArchivedPress>(38, a0, kept, Place::new(pos, bytes))
            }
            Press::Chord {
                modifiers: a0,
                key: a1,
            } => {
                let PressResolver::Chord(kept) = resolver else {
                    unreachable!();
                };
                resolve_case_2::<u8, char, ArchivedPress>(39, a0, a1, kept, Place::new(pos, bytes))
            }
            _ => resolve_case_0::<ArchivedPress>(PressTag::tag(self), (), Place::new(pos, bytes)),
        }
    }

    #[inline(always)]
    fn copy_optimization() -> CopyOptimization<Self> {
        CopyOptimization::disable()
    }

    #[inline(always)]
    fn serialize_copied<S: Writer + Keys>(
        _values: &[Self],
        _together: usize,
        _serializer: &mut S,
    ) -> Result<Option<usize>, Error> {
        Ok(None)
    }
}

impl<S: Writer + ResolverAlloc> Serialize<S> for Press {
    #[inline(always)]
    fn serialize(&self, serializer: &mut S) -> Result<Self::Resolver, Error> {
        match self {
            Press::Scanned(a0) => match serialize_case_1::<u32, ArchivedPress, S>(
                1, a0, serializer,
            ) {
                Ok(kept) => Ok(PressResolver::Scanned(kept)),
                Err(error) => Err(error),
            },
            Press::Named(a0) => match serialize_case_1::<String, ArchivedPress, S>(
                38, a0, serializer,
            ) {
                Ok(kept) => Ok(PressResolver::Named(kept)),
                Err(error) => Err(error),
            },
            Press::Chord {
                modifiers: a0,
                key: a1,
            } => match serialize_case_2::<u8, char, ArchivedPress, S>(39, a0, a1, serializer) {
                Ok(kept) => Ok(PressResolver::Chord(kept)),
                Err(error) => Err(error),
            },
            _ => match serialize_case_0::<ArchivedPress, S>(PressTag::tag(self), serializer) {
                Ok(()) => Ok(PressResolver::Unit),
                Err(error) => Err(error),
            },
        }
    }
}

/// As a region of its own: the value itself.
impl ArchiveUnsized for Press {
    ghost use Rattle.derived_plain.specs.contracts.press.PressArchive.TheImpl.Laws.{keyed-law as keyed_of_press, planned-law as planned_of_press};

    type Archived = ArchivedPress;

    ghost source_length = { λ _. 0 };

    ghost meaning = { ⟦<Press as Archive>⟧.meaning };

    ghost keys = { ⟦<Press as Archive>⟧.keys };

    ghost keyed = { keyed_of_press };

    ghost one_length = { λ _ _. refl };

    ghost planned = { λ v. one_planned no_definition (choice (codes "ArchivedPress")
        (units 1 (variant (part ⟦<ArchivedU32 as Portable>⟧.shape no_part)
        (units 36 (variant (part ⟦<ArchivedString as Portable>⟧.shape no_part)
        (variant (part ⟦<u8 as Portable>⟧.shape (part ⟦<ArchivedChar as Portable>⟧.shape no_part))
        no_variant)))))) (⟦<Press as Archive>⟧.keys v) (⟦<Press as Archive>⟧.meaning v)
        (planned_of_press v) };

    #[inline(always)]
    fn archived_metadata(&self) -> Result<(), Error> {
        Ok(())
    }
}

impl<S: Writer + ResolverAlloc> SerializeUnsized<S> for Press {
    #[inline(always)]
    fn serialize_unsized(&self, serializer: &mut S) -> Result<usize, Error> {
        serialize_one(self, serializer)
    }
}

// The variant with this tag, which has no fields.
fn press_without_fields(tag: u8) -> Press
    requires below { tag < 40 }
    requires not_1 { tag ≢ 1 }
    requires not_38 { tag ≢ 38 }
    requires not_39 { tag ≢ 39 }
    ensures variant { variant_in ⟦<ArchivedPress as Portable>⟧.shape tag ≡ Some no_part }
    ensures meaning { ⟦<Press as Archive>⟧.meaning result ≡ case tag no_value }
    ensures keys { ⟦<Press as Archive>⟧.keys result ≡ [] }
{
    match tag {
        0 => Press::Unknown,
        2 => Press::A,
        3 => Press::B,
        4 => Press::C,
        5 => Press::D,
        6 => Press::E,
        7 => Press::F,
        8 => Press::G,
        9 => Press::H,
        10 => Press::I,
        11 => Press::J,
        12 => Press::K,
        13 => Press::L,
        14 => Press::M,
        15 => Press::N,
        16 => Press::O,
        17 => Press::P,
        18 => Press::Q,
        19 => Press::R,
        20 => Press::S,
        21 => Press::T,
        22 => Press::U,
        23 => Press::V,
        24 => Press::W,
        25 => Press::X,
        26 => Press::Y,
        27 => Press::Z,
        28 => Press::Digit0,
        29 => Press::Digit1,
        30 => Press::Digit2,
        31 => Press::Digit3,
        32 => Press::Digit4,
        33 => Press::Digit5,
        34 => Press::Digit6,
        35 => Press::Digit7,
        36 => Press::Digit8,
        _ => Press::Digit9,
    }
}

impl<D: Entries> Deserialize<Press, D> for ArchivedPress {
    #[inline(always)]
    fn deserialize_part(
        alloc: Global,
        part: RawView<'_>,
        deserializer: &mut D,
    ) -> Result<Press, Error>
        requires { IsPartOf ⟦<Self as ArchivePointee>⟧ part }
        ensures { ReadsAs ⟦<Self as ArchivePointee>⟧ part D.Entries deserializer
            ⟦<Press as Archive>⟧ result }
    {
        match known_tag::<Self>(part) {
            1 => match read_case::<Self, PressScannedParts, PressScannedOwned, D>(
                1,
                alloc,
                part,
                deserializer,
            ) {
                Ok((a0, ())) => Ok(Press::Scanned(a0)),
                Err(error) => Err(error),
            },
            38 => match read_case::<Self, PressNamedParts, PressNamedOwned, D>(
                38,
                alloc,
                part,
                deserializer,
            ) {
                Ok((a0, ())) => Ok(Press::Named(a0)),
                Err(error) => Err(error),
            },
            39 => match read_case::<Self, PressChordParts, PressChordOwned, D>(
                39,
                alloc,
                part,
                deserializer,
            ) {
                Ok((a0, (a1, ()))) => Ok(Press::Chord {
                    modifiers: a0,
                    key: a1,
                }),
                Err(error) => Err(error),
            },
            tag => {
                let value = press_without_fields(tag);
                match read_case::<Self, (), (), D>(tag, alloc, part, deserializer) {
                    Ok(()) => Ok(value),
                    Err(error) => Err(error),
                }
            }
        }
    }
}

/// What a view of an archived `Press` shows, by its tag.
#[derive(Drop)]
pub enum ViewOfPress<'a> {
    /// The variant `Unknown`.
    Unknown,
    /// A key that has no name here.
    Scanned(Ref<'a, ArchivedU32>),
    /// The variant `A`.
    A,
    /// The variant `B`.
    B,
    /// The variant `C`.
    C,
    /// The variant `D`.
    D,
    /// The variant `E`.
    E,
    /// The variant `F`.
    F,
    /// The variant `G`.
    G,
    /// The variant `H`.
    H,
    /// The variant `I`.
    I,
    /// The variant `J`.
    J,
    /// The variant `K`.
    K,
    /// The variant `L`.
    L,
    /// The variant `M`.
    M,
    /// The variant `N`.
    N,
    /// The variant `O`.
    O,
    /// The variant `P`.
    P,
    /// The variant `Q`.
    Q,
    /// The variant `R`.
    R,
    /// The variant `S`.
    S,
    /// The variant `T`.
    T,
    /// The variant `U`.
    U,
    /// The variant `V`.
    V,
    /// The variant `W`.
    W,
    /// The variant `X`.
    X,
    /// The variant `Y`.
    Y,
    /// The variant `Z`.
    Z,
    /// The variant `Digit0`.
    Digit0,
    /// The variant `Digit1`.
    Digit1,
    /// The variant `Digit2`.
    Digit2,
    /// The variant `Digit3`.
    Digit3,
    /// The variant `Digit4`.
    Digit4,
    /// The variant `Digit5`.
    Digit5,
    /// The variant `Digit6`.
    Digit6,
    /// The variant `Digit7`.
    Digit7,
    /// The variant `Digit8`.
    Digit8,
    /// The variant `Digit9`.
    Digit9,
    /// A key of its own name.
    Named(Ref<'a, ArchivedString>),
    /// A character with modifiers.
    Chord {
        /// The modifiers, a bit each.
        modifiers: Ref<'a, u8>,
        /// The character.
        key: Ref<'a, ArchivedChar>,
    },
}

/// The variant of an archived `Press`, as a view.
pub trait PressView<'a> {
    /// The variant that the tag names, with views of its fields.
    fn variant(self) -> ViewOfPress<'a>;
}

impl<'a> PressView<'a> for Ref<'a, ArchivedPress> {
    ghost use Rattle.derived_plain.specs.declared.press.ViewOfPress.TheVariants.{A as PressAShown, B as PressBShown, C as PressCShown, Chord as PressChordShown, D as PressDShown, Digit0 as PressDigit0Shown, Digit1 as PressDigit1Shown, Digit2 as PressDigit2Shown, Digit3 as PressDigit3Shown, Digit4 as PressDigit4Shown, Digit5 as PressDigit5Shown, Digit6 as PressDigit6Shown, Digit7 as PressDigit7Shown, Digit8 as PressDigit8Shown, Digit9 as PressDigit9Shown, E as PressEShown, F as PressFShown, G as PressGShown, H as PressHShown, I as PressIShown, J as PressJShown, K as PressKShown, L as PressLShown, M as PressMShown, N as PressNShown, Named as PressNamedShown, O as PressOShown, P as PressPShown, Q as PressQShown, R as PressRShown, S as PressSShown, Scanned as PressScannedShown, T as PressTShown, U as PressUShown, Unknown as PressUnknownShown, V as PressVShown, W as PressWShown, X as PressXShown, Y as PressYShown, Z as PressZShown};

    fn variant(self) -> ViewOfPress<'a>
        ensures shows { elim result [
          | PressUnknownShown ↦ (tag_of self.entry ≡ 0)
          | PressScannedShown a0 ↦ (tag_of self.entry ≡ 1) × (a0.bytes.now ≡ self.entry.bytes.now)
              × (a0.pos ≡ self.entry.pos + 4) × (a0.len ≡ 0)
              × ShowsValueOf a0 self.entry (payload_in 0)
          | PressAShown ↦ (tag_of self.entry ≡ 2)
          | PressBShown ↦ (tag_of self.entry ≡ 3)
          | PressCShown ↦ (tag_of self.entry ≡ 4)
          | PressDShown ↦ (tag_of self.entry ≡ 5)
          | PressEShown ↦ (tag_of self.entry ≡ 6)
          | PressFShown ↦ (tag_of self.entry ≡ 7)
          | PressGShown ↦ (tag_of self.entry ≡ 8)
          | PressHShown ↦ (tag_of self.entry ≡ 9)
          | PressIShown ↦ (tag_of self.entry ≡ 10)
          | PressJShown ↦ (tag_of self.entry ≡ 11)
          | PressKShown ↦ (tag_of self.entry ≡ 12)
          | PressLShown ↦ (tag_of self.entry ≡ 13)
          | PressMShown ↦ (tag_of self.entry ≡ 14)
          | PressNShown ↦ (tag_of self.entry ≡ 15)
          | PressOShown ↦ (tag_of self.entry ≡ 16)
          | PressPShown ↦ (tag_of self.entry ≡ 17)
          | PressQShown ↦ (tag_of self.entry ≡ 18)
          | PressRShown ↦ (tag_of self.entry ≡ 19)
          | PressSShown ↦ (tag_of self.entry ≡ 20)
          | PressTShown ↦ (tag_of self.entry ≡ 21)
          | PressUShown ↦ (tag_of self.entry ≡ 22)
          | PressVShown ↦ (tag_of self.entry ≡ 23)
          | PressWShown ↦ (tag_of self.entry ≡ 24)
          | PressXShown ↦ (tag_of self.entry ≡ 25)
          | PressYShown ↦ (tag_of self.entry ≡ 26)
          | PressZShown ↦ (tag_of self.entry ≡ 27)
          | PressDigit0Shown ↦ (tag_of self.entry ≡ 28)
          | PressDigit1Shown ↦ (tag_of self.entry ≡ 29)
          | PressDigit2Shown ↦ (tag_of self.entry ≡ 30)
          | PressDigit3Shown ↦ (tag_of self.entry ≡ 31)
          | PressDigit4Shown ↦ (tag_of self.entry ≡ 32)
          | PressDigit5Shown ↦ (tag_of self.entry ≡ 33)
          | PressDigit6Shown ↦ (tag_of self.entry ≡ 34)
          | PressDigit7Shown ↦ (tag_of self.entry ≡ 35)
          | PressDigit8Shown ↦ (tag_of self.entry ≡ 36)
          | PressDigit9Shown ↦ (tag_of self.entry ≡ 37)
          | PressNamedShown a0 ↦ (tag_of self.entry ≡ 38) × (a0.bytes.now ≡ self.entry.bytes.now)
              × (a0.pos ≡ self.entry.pos + 4) × (a0.len ≡ 0)
              × ShowsValueOf a0 self.entry (payload_in 0)
          | PressChordShown a0 a1 ↦ (tag_of self.entry ≡ 39) × (a0.bytes.now ≡ self.entry.bytes.now)
              × (a0.pos ≡ self.entry.pos + 1) × (a0.len ≡ 0)
              × ShowsValueOf a0 self.entry (payload_in 0) × (a1.bytes.now ≡ self.entry.bytes.now)
              × (a1.pos ≡ self.entry.pos + 4) × (a1.len ≡ 0)
              × ShowsValueOf a1 self.entry (payload_in 1)
        ] }
    {
        match tag_in(self) {
            0 => ViewOfPress::Unknown,
            1 => ViewOfPress::Scanned(part_in_case::<ArchivedPress, ArchivedU32>(self, 1, 0, 4)),
            2 => ViewOfPress::A,
            3 => ViewOfPress::B,
            4 => ViewOfPress::C,
            5 => ViewOfPress::D,
            6 => ViewOfPress::E,
            7 => ViewOfPress::F,
            8 => ViewOfPress::G,
            9 => ViewOfPress::H,
            10 => ViewOfPress::I,
            11 => ViewOfPress::J,
            12 => ViewOfPress::K,
            13 => ViewOfPress::L,
            14 => ViewOfPress::M,
            15 => ViewOfPress::N,
            16 => ViewOfPress::O,
            17 => ViewOfPress::P,
            18 => ViewOfPress::Q,
            19 => ViewOfPress::R,
            20 => ViewOfPress::S,
            21 => ViewOfPress::T,
            22 => ViewOfPress::U,
            23 => ViewOfPress::V,
            24 => ViewOfPress::W,
            25 => ViewOfPress::X,
            26 => ViewOfPress::Y,
            27 => ViewOfPress::Z,
            28 => ViewOfPress::Digit0,
            29 => ViewOfPress::Digit1,
            30 => ViewOfPress::Digit2,
            31 => ViewOfPress::Digit3,
            32 => ViewOfPress::Digit4,
            33 => ViewOfPress::Digit5,
            34 => ViewOfPress::Digit6,
            35 => ViewOfPress::Digit7,
            36 => ViewOfPress::Digit8,
            37 => ViewOfPress::Digit9,
            38 => {
                let a0 = part_in_case::<ArchivedPress, ArchivedString>(self, 38, 0, 4);
                ViewOfPress::Named(a0)
            }
            _ => ViewOfPress::Chord {
                modifiers: part_in_case::<ArchivedPress, u8>(self, 39, 0, 1),
                key: part_in_case::<ArchivedPress, ArchivedChar>(self, 39, 1, 4),
            },
        }
    }
}

/// The fields of an archived `Press`, as seals. The caller must ensure that the tag is the variant's.
pub trait PressSeal<'a> {
    // The seal shows a part of a buffer that was checked.
    ghost sealed: { Self → Type 0 };

    // The tag that it shows.
    ghost tag: { Self → ℕ };

    /// The field `0` of `Scanned`.
    fn scanned_0_mut(self) -> Seal<'a, ArchivedU32>
        requires come_to { sealed self }
        requires tag { tag self ≡ 1 };

    /// The field `0` of `Named`.
    fn named_0_mut(self) -> Seal<'a, ArchivedString>
        requires come_to { sealed self }
        requires tag { tag self ≡ 38 };

    /// The modifiers, a bit each.
    fn chord_modifiers_mut(self) -> Seal<'a, u8>
        requires come_to { sealed self }
        requires tag { tag self ≡ 39 };

    /// The character.
    fn chord_key_mut(self) -> Seal<'a, ArchivedChar>
        requires come_to { sealed self }
        requires tag { tag self ≡ 39 };
}

impl<'a> PressSeal<'a> for Seal<'a, ArchivedPress> {
    ghost sealed = { λ s. IsSealOf no_definition (one ⟦<ArchivedPress as Portable>⟧.shape) s };

    ghost tag = { λ s. seal_tag s };

    fn scanned_0_mut(self) -> Seal<'a, ArchivedU32>
        requires come_to { IsSealOf no_definition (one ⟦<ArchivedPress as Portable>⟧.shape) self }
        requires tag { seal_tag self ≡ 1 }
        ensures { SealsPart no_definition (one ⟦<ArchivedPress as Portable>⟧.shape) no_definition
            ⟦<ArchivedU32 as ArchivePointee>⟧.pointee (self.entry.pos + 4) 0 self.entry result }
    {
        sealed_part_in_case::<ArchivedPress, ArchivedU32>(self, 1, 0, 4)
    }

    fn named_0_mut(self) -> Seal<'a, ArchivedString>
        requires come_to { IsSealOf no_definition (one ⟦<ArchivedPress as Portable>⟧.shape) self }
        requires tag { seal_tag self ≡ 38 }
        ensures { SealsPart no_definition (one ⟦<ArchivedPress as Portable>⟧.shape) no_definition
            ⟦<ArchivedString as ArchivePointee>⟧.pointee (self.entry.pos + 4) 0 self.entry result }
    {
        sealed_part_in_case::<ArchivedPress, ArchivedString>(self, 38, 0, 4)
    }

    fn chord_modifiers_mut(self) -> Seal<'a, u8>
        requires come_to { IsSealOf no_definition (one ⟦<ArchivedPress as Portable>⟧.shape) self }
        requires tag { seal_tag self ≡ 39 }
        ensures { SealsPart no_definition (one ⟦<ArchivedPress as Portable>⟧.shape) no_definition
            ⟦<u8 as ArchivePointee>⟧.pointee (self.entry.pos + 1) 0 self.entry result }
    {
        sealed_part_in_case::<ArchivedPress, u8>(self, 39, 0, 1)
    }

    fn chord_key_mut(self) -> Seal<'a, ArchivedChar>
        requires come_to { IsSealOf no_definition (one ⟦<ArchivedPress as Portable>⟧.shape) self }
        requires tag { seal_tag self ≡ 39 }
        ensures { SealsPart no_definition (one ⟦<ArchivedPress as Portable>⟧.shape) no_definition
            ⟦<ArchivedChar as ArchivePointee>⟧.pointee (self.entry.pos + 4) 0 self.entry result }
    {
        sealed_part_in_case::<ArchivedPress, ArchivedChar>(self, 39, 1, 4)
    }
}

// As views are compared.
type PressCompared = UnitVariants<
    1,
    (
        (ArchivedU32, ()),
        UnitVariants<36, ((ArchivedString, ()), ((u8, (ArchivedChar, ())), ()))>,
    ),
>;

/// Views are compared as the values that they show.
impl Ordered for ArchivedPress {
    ghost order = { choice_order ⟦<PressCompared as ComparedCases>⟧.order };

    ghost hash_input = { choice_fed ⟦<PressCompared as ComparedCases>⟧.hash_input };

    ghost settling = { 0 };

    ghost total = { (choice_compared (codes "ArchivedPress")
        (units_compared 1 (case_compared (field_compared
        (unsigned_compared w32 4 ⟦<u32 as Hash>⟧.hash_input refl) ⟦<ArchivedU32 as Portable>⟧.layout
        (record { solved = λ s k. refl }) no_field_compared)
        (units_compared 36 (case_compared (field_compared string_compared
        ⟦<ArchivedString as Portable>⟧.layout (record { solved = λ s k. refl }) no_field_compared)
        (case_compared (field_compared (unsigned_compared w8 1 ⟦<u8 as Hash>⟧.hash_input refl)
        ⟦<u8 as Portable>⟧.layout (record { solved = λ s k. refl })
        (field_compared (char_compared ⟦<char as Hash>⟧.hash_input)
        ⟦<ArchivedChar as Portable>⟧.layout (record { solved = λ s k. refl }) no_field_compared))
        no_case_compared))))) refl).total };

    ghost respects = { (choice_compared (codes "ArchivedPress")
        (units_compared 1 (case_compared (field_compared
        (unsigned_compared w32 4 ⟦<u32 as Hash>⟧.hash_input refl) ⟦<ArchivedU32 as Portable>⟧.layout
        (record { solved = λ s k. refl }) no_field_compared)
        (units_compared 36 (case_compared (field_compared string_compared
        ⟦<ArchivedString as Portable>⟧.layout (record { solved = λ s k. refl }) no_field_compared)
        (case_compared (field_compared (unsigned_compared w8 1 ⟦<u8 as Hash>⟧.hash_input refl)
        ⟦<u8 as Portable>⟧.layout (record { solved = λ s k. refl })
        (field_compared (char_compared ⟦<char as Hash>⟧.hash_input)
        ⟦<ArchivedChar as Portable>⟧.layout (record { solved = λ s k. refl }) no_field_compared))
        no_case_compared))))) refl).respects };

    ghost level = { tt };

    ghost by_value = { (choice_compared (codes "ArchivedPress")
        (units_compared 1 (case_compared (field_compared
        (unsigned_compared w32 4 ⟦<u32 as Hash>⟧.hash_input refl) ⟦<ArchivedU32 as Portable>⟧.layout
        (record { solved = λ s k. refl }) no_field_compared)
        (units_compared 36 (case_compared (field_compared string_compared
        ⟦<ArchivedString as Portable>⟧.layout (record { solved = λ s k. refl }) no_field_compared)
        (case_compared (field_compared (unsigned_compared w8 1 ⟦<u8 as Hash>⟧.hash_input refl)
        ⟦<u8 as Portable>⟧.layout (record { solved = λ s k. refl })
        (field_compared (char_compared ⟦<char as Hash>⟧.hash_input)
        ⟦<ArchivedChar as Portable>⟧.layout (record { solved = λ s k. refl }) no_field_compared))
        no_case_compared))))) refl).by_value };

    fn compare(a: RawView<'_>, b: RawView<'_>) -> Ordering {
        compare_choice::<Self, PressCompared>(a, b)
    }

    fn hash_part<H: Hasher>(part: RawView<'_>, state: &mut H) {
        hash_choice::<Self, PressCompared, H>(part, state);
    }

    fn settling_bytes() -> usize {
        0
    }
}
