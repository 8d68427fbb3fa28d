//! An enum of more variants than go into one nest, each with functions of its own.

use std::collections::BTreeMap;

/// What is told to those in a room.
#[derive(Debug, PartialEq, Drop)]
pub enum Notice {
    /// The room is closed.
    Closed,
    /// It is open.
    Opened,
    /// Nobody may speak.
    Paused,
    /// All may speak again.
    Resumed,
    /// Nobody may come in.
    Locked,
    /// All may come in again.
    Unlocked,
    /// No sound is heard.
    Muted,
    /// Sounds are heard again.
    Unmuted,
    /// A file, and its digest.
    File {
        member: u8,
        name: String,
        digest: [u8; 4],
    },
    /// What is set.
    Settings(BTreeMap<String, String>),
    /// A member came.
    Joined(u8),
    /// A member went.
    Left(u8),
    /// How often each was chosen.
    Result(Vec<(String, u8)>),
    /// A member may speak.
    Called(u8),
    /// A seat is taken.
    Seated(u8),
    /// A seat is free.
    Freed(u8),
    /// How many are there.
    Counted(u8),
}

// Below this line all is written by tools/derive: change what is above it, and run it again.

ghost use Rattle.archive_core.specs.Arrays.{array_keyed, array_planned};
ghost use Rattle.archive_core.specs.CallOutcomes.{ResolvesAs};
ghost use Rattle.archive_core.specs.Definitions.{both, no_definition};
ghost use Rattle.archive_core.specs.Keyed.{case_keyed, each_keyed, nothing_keyed, number_keyed, part_keyed, record_keyed, text_keyed};
ghost use Rattle.archive_core.specs.Layout.{up};
ghost use Rattle.archive_core.specs.LeafLayout.{no_definition_reached};
ghost use Rattle.archive_core.specs.PartsLayout.{first_or, no_part_laid_out, no_part_sized, part_laid_out, part_sized, within_at, within_over};
ghost use Rattle.archive_core.specs.PartsPlanned.{no_part_planned, part_planned, product_planned};
ghost use Rattle.archive_core.specs.Payloads.{payload_in};
ghost use Rattle.archive_core.specs.Plain.{plain_choice, plain_own_check, plain_variant_planned, variant_in};
ghost use Rattle.archive_core.specs.Planned.{leaf_planned, string_planned};
ghost use Rattle.archive_core.specs.PlannedMaps.{map_of_pairs_planned, pairs_keyed};
ghost use Rattle.archive_core.specs.PlannedOwners.{one_planned, slice_planned, vec_planned};
ghost use Rattle.archive_core.specs.ReadBack.{ReadsAs};
ghost use Rattle.archive_core.specs.SealOutcomes.{IsSealOf, SealsPart, seal_tag};
ghost use Rattle.archive_core.specs.Seen.{IsPartOf, ShowsValueOf, part_tag, tag_of};
ghost use Rattle.archive_core.specs.SelfCheck.Regions.{no_lower, rises_over};
ghost use Rattle.archive_core.specs.Shape.{choice, no_part, no_variant, one, part, parts, variant};
ghost use Rattle.archive_core.specs.SourceOutcomes.{Serializes};
ghost use Rattle.archive_core.specs.Units.{unit_definitions, units};
ghost use Rattle.archive_core.specs.Value.{case, no_value, value};
ghost use Rattle.archive_core.specs.VariantsHeld.{no_payload_sized, no_payload_within, payload_sized, payload_within};
ghost use Rattle.archive_core.specs.VariantsLayout.{no_variant_laid_out, no_variants_reached, variant_laid_out, variant_reached};
ghost use Rattle.archive_core.specs.Writing.{ZeroedPlace};
ghost use Rattle.std.proofs.Common.{inl, inr, lit≤};
ghost use Rattle.std.specs.Prelude.{None, Some, [], codes, refl, string_bytes, true, ℕ, ◌++◌, ◌+◌, ◌<◌, ◌≡◌, ◌≢◌};

use archive_core::core_impls::{ArchivedTuple2, OwnedArray};
use archive_core::error::Error;
use archive_core::fields::{
    UnitVariants, known_tag, part_in_case, read_case, resolve_case_0, resolve_case_1,
    resolve_case_3, serialize_case_0, serialize_case_1, serialize_case_3, tag_in,
};
use archive_core::map::ArchivedSortedMap;
use archive_core::place::Place;
use archive_core::seal::{Seal, sealed_part_in_case};
use archive_core::self_check::{CheckedVariants, SelfCheck, check_choice};
use archive_core::ser::{ResolverAlloc, Writer, serialize_one};
use archive_core::shape::Defs;
use archive_core::string::ArchivedString;
use archive_core::traits::{
    Archive, ArchivePointee, ArchiveUnsized, Choice, CopyOptimization, Deserialize, Entries, Keys,
    MapKey, Portable, PortableVariants, Serialize, SerializeUnsized, expr_of_choice,
};
use archive_core::validation::ArchiveContext;
use archive_core::vec::ArchivedVec;
use archive_core::view::{RawView, Ref};
use std::alloc::Global;
use std::mem::drop;

/// An archived `Notice`: 16 bytes at a multiple of 4.
pub struct ArchivedNotice;

type NoticeFileParts = (u8, (ArchivedString, ([u8; 4], ())));

type NoticeFileOwned = (u8, (String, (OwnedArray<u8, 4>, ())));

type NoticeSettingsParts = (ArchivedSortedMap<ArchivedString, ArchivedString>, ());

type NoticeSettingsOwned = (BTreeMap<String, String>, ());

type NoticeJoinedParts = (u8, ());

type NoticeJoinedOwned = (u8, ());

type NoticeLeftParts = (u8, ());

type NoticeLeftOwned = (u8, ());

type NoticeResultParts = (ArchivedVec<ArchivedTuple2<ArchivedString, u8>>, ());

type NoticeResultOwned = (Vec<(String, u8)>, ());

type NoticeCalledParts = (u8, ());

type NoticeCalledOwned = (u8, ());

type NoticeSeatedParts = (u8, ());

type NoticeSeatedOwned = (u8, ());

type NoticeFreedParts = (u8, ());

type NoticeFreedOwned = (u8, ());

type NoticeCountedParts = (u8, ());

type NoticeCountedOwned = (u8, ());

type NoticeVariants = UnitVariants<8, NoticeRest1>;

/// The variants of `Notice` from `File` on, as one type: it has no values.
pub struct NoticeRest1;

type NoticeBlock1 = (
    NoticeFileParts,
    (
        NoticeSettingsParts,
        (NoticeJoinedParts, (NoticeLeftParts, NoticeRest2)),
    ),
);

impl CheckedVariants for NoticeRest1 {
    ghost variants = { ⟦<NoticeBlock1 as CheckedVariants>⟧.variants };

    ghost definitions = { ⟦<NoticeBlock1 as CheckedVariants>⟧.definitions };

    ghost end = { ⟦<NoticeBlock1 as CheckedVariants>⟧.end };

    ghost direct = { ⟦<NoticeBlock1 as CheckedVariants>⟧.direct };

    fn are_direct() -> bool {
        <NoticeBlock1 as CheckedVariants>::are_direct()
    }

    #[inline(always)]
    fn check_variant<C: ArchiveContext>(
        bytes: &[u8],
        base: usize,
        tag: usize,
        refusal: &mut Error,
        context: &mut C,
    ) -> Option<bool> {
        <NoticeBlock1 as CheckedVariants>::check_variant(bytes, base, tag, refusal, context)
    }
}

impl PortableVariants for NoticeRest1 {
    ghost use Rattle.derived_plain.specs.contracts.notice.NoticeRest2PortableVariants.TheImpl.Laws.{laid_out-law as laid_out_behind, no_others-law as no_others_behind, sized-law as sized_behind, within-law as within_behind};

    ghost greatest = { ⟦<NoticeBlock1 as PortableVariants>⟧.greatest };

    ghost begin = { ⟦<NoticeBlock1 as PortableVariants>⟧.begin };

    ghost size_at = { ⟦<NoticeBlock1 as PortableVariants>⟧.size_at };

    ghost is_align = { inr (inr (inl refl)) };

    ghost laid_out = { variant_laid_out _ _ _ _ _ _ (part_laid_out no_definition _
        ⟦<u8 as Portable>⟧.shape (record { size = 1; align = 1 }) (record { solved = λ s k. refl })
        _ _ _ _ (part_laid_out no_definition _ ⟦<ArchivedString as Portable>⟧.shape (record {
          size = 8;
          align = 4;
        }) (record { solved = λ s k. refl }) _ _ _ _ (part_laid_out no_definition _
        ⟦<[u8; 4] as Portable>⟧.shape (record { size = 4; align = 1 }) (record {
          solved = λ s k. refl;
        }) _ _ _ _ no_part_laid_out))) _ _ _ _ (variant_laid_out _ _ _ _ _ _
        (part_laid_out (both no_definition (both no_definition no_definition)) _
        ⟦<ArchivedSortedMap<ArchivedString, ArchivedString> as Portable>⟧.shape (record {
          size = 8;
          align = 4;
        }) (record { solved = λ s k. refl }) _ _ _ _ no_part_laid_out) _ _ _ _
        (variant_laid_out _ _ _ _ _ _ (part_laid_out no_definition _ ⟦<u8 as Portable>⟧.shape
        (record { size = 1; align = 1 }) (record { solved = λ s k. refl }) _ _ _ _ no_part_laid_out)
        _ _ _ _ (variant_laid_out _ _ _ _ _ _ (part_laid_out no_definition _
        ⟦<u8 as Portable>⟧.shape (record { size = 1; align = 1 }) (record { solved = λ s k. refl })
        _ _ _ _ no_part_laid_out) _ _ _ _ laid_out_behind))) };

    ghost no_others = { variant_reached (both no_definition
        (both no_definition (both no_definition no_definition)))
        (both (both (both no_definition (both no_definition no_definition)) no_definition)
        (both (both no_definition no_definition) (both (both no_definition no_definition)
        ⟦<NoticeRest2 as CheckedVariants>⟧.definitions)))
        (part ⟦<u8 as Portable>⟧.shape (part ⟦<ArchivedString as Portable>⟧.shape
        (part ⟦<[u8; 4] as Portable>⟧.shape no_part))) (variant
        (part ⟦<ArchivedSortedMap<ArchivedString, ArchivedString> as Portable>⟧.shape no_part)
        (variant (part ⟦<u8 as Portable>⟧.shape no_part)
        (variant (part ⟦<u8 as Portable>⟧.shape no_part)
        ⟦<NoticeRest2 as CheckedVariants>⟧.variants))) (no_definition_reached
        (parts (part ⟦<u8 as Portable>⟧.shape (part ⟦<ArchivedString as Portable>⟧.shape
        (part ⟦<[u8; 4] as Portable>⟧.shape no_part)))))
        (variant_reached (both (both no_definition (both no_definition no_definition))
        no_definition) (both (both no_definition no_definition)
        (both (both no_definition no_definition) ⟦<NoticeRest2 as CheckedVariants>⟧.definitions))
        (part ⟦<ArchivedSortedMap<ArchivedString, ArchivedString> as Portable>⟧.shape no_part)
        (variant (part ⟦<u8 as Portable>⟧.shape no_part)
        (variant (part ⟦<u8 as Portable>⟧.shape no_part)
        ⟦<NoticeRest2 as CheckedVariants>⟧.variants)) (no_definition_reached
        (parts (part ⟦<ArchivedSortedMap<ArchivedString, ArchivedString> as Portable>⟧.shape
        no_part))) (variant_reached (both no_definition no_definition)
        (both (both no_definition no_definition) ⟦<NoticeRest2 as CheckedVariants>⟧.definitions)
        (part ⟦<u8 as Portable>⟧.shape no_part) (variant (part ⟦<u8 as Portable>⟧.shape no_part)
        ⟦<NoticeRest2 as CheckedVariants>⟧.variants) (no_definition_reached
        (parts (part ⟦<u8 as Portable>⟧.shape no_part)))
        (variant_reached (both no_definition no_definition)
        ⟦<NoticeRest2 as CheckedVariants>⟧.definitions (part ⟦<u8 as Portable>⟧.shape no_part)
        ⟦<NoticeRest2 as CheckedVariants>⟧.variants (no_definition_reached
        (parts (part ⟦<u8 as Portable>⟧.shape no_part))) no_others_behind))) };

    ghost sized = { payload_sized (both no_definition
        (both no_definition (both no_definition no_definition)))
        (both (both (both no_definition (both no_definition no_definition)) no_definition)
        (both (both no_definition no_definition) (both (both no_definition no_definition)
        ⟦<NoticeRest2 as CheckedVariants>⟧.definitions)))
        (part ⟦<u8 as Portable>⟧.shape (part ⟦<ArchivedString as Portable>⟧.shape
        (part ⟦<[u8; 4] as Portable>⟧.shape no_part))) _
        (part_sized no_definition (both no_definition (both no_definition no_definition))
        ⟦<u8 as Portable>⟧.shape (record { size = 1; align = 1 }) (record { solved = λ s k. refl })
        (part ⟦<ArchivedString as Portable>⟧.shape (part ⟦<[u8; 4] as Portable>⟧.shape no_part))
        (first_or 8 (first_or 4 (λ i. 0))) (part_sized no_definition
        (both no_definition no_definition) ⟦<ArchivedString as Portable>⟧.shape (record {
          size = 8;
          align = 4;
        }) (record { solved = λ s k. refl }) (part ⟦<[u8; 4] as Portable>⟧.shape no_part)
        (first_or 4 (λ i. 0)) (part_sized no_definition no_definition ⟦<[u8; 4] as Portable>⟧.shape
        (record { size = 4; align = 1 }) (record { solved = λ s k. refl }) no_part (λ i. 0)
        no_part_sized)))
        (variant (part ⟦<ArchivedSortedMap<ArchivedString, ArchivedString> as Portable>⟧.shape
        no_part) (variant (part ⟦<u8 as Portable>⟧.shape no_part)
        (variant (part ⟦<u8 as Portable>⟧.shape no_part)
        ⟦<NoticeRest2 as CheckedVariants>⟧.variants))) _
        (payload_sized (both (both no_definition (both no_definition no_definition)) no_definition)
        (both (both no_definition no_definition) (both (both no_definition no_definition)
        ⟦<NoticeRest2 as CheckedVariants>⟧.definitions))
        (part ⟦<ArchivedSortedMap<ArchivedString, ArchivedString> as Portable>⟧.shape no_part) _
        (part_sized (both no_definition (both no_definition no_definition)) no_definition
        ⟦<ArchivedSortedMap<ArchivedString, ArchivedString> as Portable>⟧.shape (record {
          size = 8;
          align = 4;
        }) (record { solved = λ s k. refl }) no_part (λ i. 0) no_part_sized)
        (variant (part ⟦<u8 as Portable>⟧.shape no_part)
        (variant (part ⟦<u8 as Portable>⟧.shape no_part)
        ⟦<NoticeRest2 as CheckedVariants>⟧.variants)) _
        (payload_sized (both no_definition no_definition)
        (both (both no_definition no_definition) ⟦<NoticeRest2 as CheckedVariants>⟧.definitions)
        (part ⟦<u8 as Portable>⟧.shape no_part) _ (part_sized no_definition no_definition
        ⟦<u8 as Portable>⟧.shape (record { size = 1; align = 1 }) (record { solved = λ s k. refl })
        no_part (λ i. 0) no_part_sized) (variant (part ⟦<u8 as Portable>⟧.shape no_part)
        ⟦<NoticeRest2 as CheckedVariants>⟧.variants) _ (payload_sized
        (both no_definition no_definition) ⟦<NoticeRest2 as CheckedVariants>⟧.definitions
        (part ⟦<u8 as Portable>⟧.shape no_part) _ (part_sized no_definition no_definition
        ⟦<u8 as Portable>⟧.shape (record { size = 1; align = 1 }) (record { solved = λ s k. refl })
        no_part (λ i. 0) no_part_sized) ⟦<NoticeRest2 as CheckedVariants>⟧.variants _
        sized_behind))) };

    ghost within = { payload_within _ _ _ (within_over (up 1 1) 1 _ _ _
        (λ n. rises_over n 4 8 (inr (inr (inl refl))) _
        (λ n. rises_over n 1 4 (inl refl) _ no_lower)) (λ n. within_over (up n 4) 8 _ _ _
        (λ n. rises_over n 1 4 (inl refl) _ no_lower) (λ n. within_over (up n 1) 4 _ _ _ no_lower
        within_at))) _ _ _ (payload_within _ _ _ (within_over (up 1 4) 8 _ _ _ no_lower within_at) _
        _ _ (payload_within _ _ _ (within_over (up 1 1) 1 _ _ _ no_lower within_at) _ _ _
        (payload_within _ _ _ (within_over (up 1 1) 1 _ _ _ no_lower within_at) _ _ _
        within_behind))) };

    fn align() -> usize {
        <NoticeBlock1 as PortableVariants>::align()
    }

    #[inline(always)]
    fn longest_end() -> usize {
        <NoticeBlock1 as PortableVariants>::longest_end()
    }

    #[inline(always)]
    fn payload_offset(tag: usize, i: usize) -> usize {
        <NoticeBlock1 as PortableVariants>::payload_offset(tag, i)
    }

    fn push_variants(
        alloc: Global,
        list: &mut Vec<Vec<archive_core::shape::Expr>>,
    ) -> Result<(), Error> {
        <NoticeBlock1 as PortableVariants>::push_variants(alloc, list)
    }

    fn define(alloc: Global, defs: &mut Defs) -> Result<(), Error> {
        <NoticeBlock1 as PortableVariants>::define(alloc, defs)
    }
}

/// The variants of `Notice` from `Result` on, as one type: it has no values.
pub struct NoticeRest2;

type NoticeBlock2 = (NoticeResultParts, (NoticeCalledParts, NoticeRest3));

impl CheckedVariants for NoticeRest2 {
    ghost variants = { ⟦<NoticeBlock2 as CheckedVariants>⟧.variants };

    ghost definitions = { ⟦<NoticeBlock2 as CheckedVariants>⟧.definitions };

    ghost end = { ⟦<NoticeBlock2 as CheckedVariants>⟧.end };

    ghost direct = { ⟦<NoticeBlock2 as CheckedVariants>⟧.direct };

    fn are_direct() -> bool {
        <NoticeBlock2 as CheckedVariants>::are_direct()
    }

    #[inline(always)]
    fn check_variant<C: ArchiveContext>(
        bytes: &[u8],
        base: usize,
        tag: usize,
        refusal: &mut Error,
        context: &mut C,
    ) -> Option<bool> {
        <NoticeBlock2 as CheckedVariants>::check_variant(bytes, base, tag, refusal, context)
    }
}

impl PortableVariants for NoticeRest2 {
    ghost use Rattle.derived_plain.specs.contracts.notice.NoticeRest3PortableVariants.TheImpl.Laws.{laid_out-law as laid_out_behind, no_others-law as no_others_behind, sized-law as sized_behind, within-law as within_behind};

    ghost greatest = { ⟦<NoticeBlock2 as PortableVariants>⟧.greatest };

    ghost begin = { ⟦<NoticeBlock2 as PortableVariants>⟧.begin };

    ghost size_at = { ⟦<NoticeBlock2 as PortableVariants>⟧.size_at };

    ghost is_align = { inr (inr (inl refl)) };

    ghost laid_out = { variant_laid_out _ _ _ _ _ _ (part_laid_out
        (both no_definition (both no_definition no_definition)) _
        ⟦<ArchivedVec<ArchivedTuple2<ArchivedString, u8>> as Portable>⟧.shape (record {
          size = 8;
          align = 4;
        }) (record { solved = λ s k. refl }) _ _ _ _ no_part_laid_out) _ _ _ _
        (variant_laid_out _ _ _ _ _ _ (part_laid_out no_definition _ ⟦<u8 as Portable>⟧.shape
        (record { size = 1; align = 1 }) (record { solved = λ s k. refl }) _ _ _ _ no_part_laid_out)
        _ _ _ _ laid_out_behind) };

    ghost no_others = { variant_reached (both (both no_definition
        (both no_definition no_definition)) no_definition)
        (both (both no_definition no_definition) ⟦<NoticeRest3 as CheckedVariants>⟧.definitions)
        (part ⟦<ArchivedVec<ArchivedTuple2<ArchivedString, u8>> as Portable>⟧.shape no_part)
        (variant (part ⟦<u8 as Portable>⟧.shape no_part)
        ⟦<NoticeRest3 as CheckedVariants>⟧.variants) (no_definition_reached
        (parts (part ⟦<ArchivedVec<ArchivedTuple2<ArchivedString, u8>> as Portable>⟧.shape
        no_part))) (variant_reached (both no_definition no_definition)
        ⟦<NoticeRest3 as CheckedVariants>⟧.definitions (part ⟦<u8 as Portable>⟧.shape no_part)
        ⟦<NoticeRest3 as CheckedVariants>⟧.variants (no_definition_reached
        (parts (part ⟦<u8 as Portable>⟧.shape no_part))) no_others_behind) };

    ghost sized = { payload_sized (both (both no_definition (both no_definition no_definition))
        no_definition) (both (both no_definition no_definition)
        ⟦<NoticeRest3 as CheckedVariants>⟧.definitions)
        (part ⟦<ArchivedVec<ArchivedTuple2<ArchivedString, u8>> as Portable>⟧.shape no_part) _
        (part_sized (both no_definition (both no_definition no_definition)) no_definition
        ⟦<ArchivedVec<ArchivedTuple2<ArchivedString, u8>> as Portable>⟧.shape (record {
          size = 8;
          align = 4;
        }) (record { solved = λ s k. refl }) no_part (λ i. 0) no_part_sized)
        (variant (part ⟦<u8 as Portable>⟧.shape no_part)
        ⟦<NoticeRest3 as CheckedVariants>⟧.variants) _ (payload_sized
        (both no_definition no_definition) ⟦<NoticeRest3 as CheckedVariants>⟧.definitions
        (part ⟦<u8 as Portable>⟧.shape no_part) _ (part_sized no_definition no_definition
        ⟦<u8 as Portable>⟧.shape (record { size = 1; align = 1 }) (record { solved = λ s k. refl })
        no_part (λ i. 0) no_part_sized) ⟦<NoticeRest3 as CheckedVariants>⟧.variants _
        sized_behind) };

    ghost within = { payload_within _ _ _ (within_over (up 1 4) 8 _ _ _ no_lower within_at) _ _ _
        (payload_within _ _ _ (within_over (up 1 1) 1 _ _ _ no_lower within_at) _ _ _
        within_behind) };

    fn align() -> usize {
        <NoticeBlock2 as PortableVariants>::align()
    }

    #[inline(always)]
    fn longest_end() -> usize {
        <NoticeBlock2 as PortableVariants>::longest_end()
    }

    #[inline(always)]
    fn payload_offset(tag: usize, i: usize) -> usize {
        <NoticeBlock2 as PortableVariants>::payload_offset(tag, i)
    }

    fn push_variants(
        alloc: Global,
        list: &mut Vec<Vec<archive_core::shape::Expr>>,
    ) -> Result<(), Error> {
        <NoticeBlock2 as PortableVariants>::push_variants(alloc, list)
    }

    fn define(alloc: Global, defs: &mut Defs) -> Result<(), Error> {
        <NoticeBlock2 as PortableVariants>::define(alloc, defs)
    }
}

/// The variants of `Notice` from `Seated` on, as one type: it has no values.
pub struct NoticeRest3;

type NoticeBlock3 = (
    NoticeSeatedParts,
    (NoticeFreedParts, (NoticeCountedParts, ())),
);

impl CheckedVariants for NoticeRest3 {
    ghost variants = { ⟦<NoticeBlock3 as CheckedVariants>⟧.variants };

    ghost definitions = { ⟦<NoticeBlock3 as CheckedVariants>⟧.definitions };

    ghost end = { ⟦<NoticeBlock3 as CheckedVariants>⟧.end };

    ghost direct = { ⟦<NoticeBlock3 as CheckedVariants>⟧.direct };

    fn are_direct() -> bool {
        <NoticeBlock3 as CheckedVariants>::are_direct()
    }

    #[inline(always)]
    fn check_variant<C: ArchiveContext>(
        bytes: &[u8],
        base: usize,
        tag: usize,
        refusal: &mut Error,
        context: &mut C,
    ) -> Option<bool> {
        <NoticeBlock3 as CheckedVariants>::check_variant(bytes, base, tag, refusal, context)
    }
}

impl PortableVariants for NoticeRest3 {
    ghost greatest = { ⟦<NoticeBlock3 as PortableVariants>⟧.greatest };

    ghost begin = { ⟦<NoticeBlock3 as PortableVariants>⟧.begin };

    ghost size_at = { ⟦<NoticeBlock3 as PortableVariants>⟧.size_at };

    ghost is_align = { inl refl };

    ghost laid_out = { variant_laid_out _ _ _ _ _ _ (part_laid_out no_definition _
        ⟦<u8 as Portable>⟧.shape (record { size = 1; align = 1 }) (record { solved = λ s k. refl })
        _ _ _ _ no_part_laid_out) _ _ _ _ (variant_laid_out _ _ _ _ _ _
        (part_laid_out no_definition _ ⟦<u8 as Portable>⟧.shape (record { size = 1; align = 1 })
        (record { solved = λ s k. refl }) _ _ _ _ no_part_laid_out) _ _ _ _
        (variant_laid_out _ _ _ _ _ _ (part_laid_out no_definition _ ⟦<u8 as Portable>⟧.shape
        (record { size = 1; align = 1 }) (record { solved = λ s k. refl }) _ _ _ _ no_part_laid_out)
        _ _ _ _ no_variant_laid_out)) };

    ghost no_others = { variant_reached (both no_definition no_definition)
        (both (both no_definition no_definition) (both (both no_definition no_definition)
        no_definition)) (part ⟦<u8 as Portable>⟧.shape no_part)
        (variant (part ⟦<u8 as Portable>⟧.shape no_part)
        (variant (part ⟦<u8 as Portable>⟧.shape no_part) no_variant))
        (no_definition_reached (parts (part ⟦<u8 as Portable>⟧.shape no_part)))
        (variant_reached (both no_definition no_definition)
        (both (both no_definition no_definition) no_definition)
        (part ⟦<u8 as Portable>⟧.shape no_part) (variant (part ⟦<u8 as Portable>⟧.shape no_part)
        no_variant) (no_definition_reached (parts (part ⟦<u8 as Portable>⟧.shape no_part)))
        (variant_reached (both no_definition no_definition) no_definition
        (part ⟦<u8 as Portable>⟧.shape no_part) no_variant
        (no_definition_reached (parts (part ⟦<u8 as Portable>⟧.shape no_part)))
        no_variants_reached)) };

    ghost sized = { payload_sized (both no_definition no_definition)
        (both (both no_definition no_definition) (both (both no_definition no_definition)
        no_definition)) (part ⟦<u8 as Portable>⟧.shape no_part) _
        (part_sized no_definition no_definition ⟦<u8 as Portable>⟧.shape (record {
          size = 1;
          align = 1;
        }) (record { solved = λ s k. refl }) no_part (λ i. 0) no_part_sized)
        (variant (part ⟦<u8 as Portable>⟧.shape no_part)
        (variant (part ⟦<u8 as Portable>⟧.shape no_part) no_variant)) _
        (payload_sized (both no_definition no_definition)
        (both (both no_definition no_definition) no_definition)
        (part ⟦<u8 as Portable>⟧.shape no_part) _ (part_sized no_definition no_definition
        ⟦<u8 as Portable>⟧.shape (record { size = 1; align = 1 }) (record { solved = λ s k. refl })
        no_part (λ i. 0) no_part_sized) (variant (part ⟦<u8 as Portable>⟧.shape no_part) no_variant)
        _ (payload_sized (both no_definition no_definition) no_definition
        (part ⟦<u8 as Portable>⟧.shape no_part) _ (part_sized no_definition no_definition
        ⟦<u8 as Portable>⟧.shape (record { size = 1; align = 1 }) (record { solved = λ s k. refl })
        no_part (λ i. 0) no_part_sized) no_variant _ no_payload_sized)) };

    ghost within = { payload_within _ _ _ (within_over (up 1 1) 1 _ _ _ no_lower within_at) _ _ _
        (payload_within _ _ _ (within_over (up 1 1) 1 _ _ _ no_lower within_at) _ _ _
        (payload_within _ _ _ (within_over (up 1 1) 1 _ _ _ no_lower within_at) _ _ _
        no_payload_within)) };

    fn align() -> usize {
        <NoticeBlock3 as PortableVariants>::align()
    }

    #[inline(always)]
    fn longest_end() -> usize {
        <NoticeBlock3 as PortableVariants>::longest_end()
    }

    #[inline(always)]
    fn payload_offset(tag: usize, i: usize) -> usize {
        <NoticeBlock3 as PortableVariants>::payload_offset(tag, i)
    }

    fn push_variants(
        alloc: Global,
        list: &mut Vec<Vec<archive_core::shape::Expr>>,
    ) -> Result<(), Error> {
        <NoticeBlock3 as PortableVariants>::push_variants(alloc, list)
    }

    fn define(alloc: Global, defs: &mut Defs) -> Result<(), Error> {
        <NoticeBlock3 as PortableVariants>::define(alloc, defs)
    }
}

impl ArchivePointee for ArchivedNotice {
    type ArchivedMetadata = ();

    ghost pointee = { one (choice (codes "ArchivedNotice")
        (units 8 (variant (part ⟦<u8 as Portable>⟧.shape
        (part ⟦<ArchivedString as Portable>⟧.shape (part ⟦<[u8; 4] as Portable>⟧.shape no_part)))
        (variant (part ⟦<ArchivedSortedMap<ArchivedString, ArchivedString> as Portable>⟧.shape
        no_part) (variant (part ⟦<u8 as Portable>⟧.shape no_part)
        (variant (part ⟦<u8 as Portable>⟧.shape no_part)
        (variant (part ⟦<ArchivedVec<ArchivedTuple2<ArchivedString, u8>> as Portable>⟧.shape
        no_part) (variant (part ⟦<u8 as Portable>⟧.shape no_part)
        (variant (part ⟦<u8 as Portable>⟧.shape no_part)
        (variant (part ⟦<u8 as Portable>⟧.shape no_part)
        (variant (part ⟦<u8 as Portable>⟧.shape no_part) no_variant))))))))))) };

    ghost definitions = { no_definition };

    ghost metadata_length = { λ _. 0 };

    fn pointer_metadata(_metadata: &()) -> usize {
        0
    }
}

impl Portable for ArchivedNotice {
    ghost shape = { choice (codes "ArchivedNotice") (units 8
        (variant (part ⟦<u8 as Portable>⟧.shape (part ⟦<ArchivedString as Portable>⟧.shape
        (part ⟦<[u8; 4] as Portable>⟧.shape no_part))) (variant
        (part ⟦<ArchivedSortedMap<ArchivedString, ArchivedString> as Portable>⟧.shape no_part)
        (variant (part ⟦<u8 as Portable>⟧.shape no_part)
        (variant (part ⟦<u8 as Portable>⟧.shape no_part)
        (variant (part ⟦<ArchivedVec<ArchivedTuple2<ArchivedString, u8>> as Portable>⟧.shape
        no_part) (variant (part ⟦<u8 as Portable>⟧.shape no_part)
        (variant (part ⟦<u8 as Portable>⟧.shape no_part)
        (variant (part ⟦<u8 as Portable>⟧.shape no_part)
        (variant (part ⟦<u8 as Portable>⟧.shape no_part) no_variant)))))))))) };

    ghost layout = { record { size = 16; align = 4 } };

    type Check = ArchivedNotice;

    ghost is_one = { refl };

    ghost is_align = { inr (inr (inl refl)) };

    ghost has_layout = { record { solved = λ s k. refl } };

    ghost no_others = { no_definition_reached (choice (codes "ArchivedNotice")
        (units 8 (variant (part ⟦<u8 as Portable>⟧.shape
        (part ⟦<ArchivedString as Portable>⟧.shape (part ⟦<[u8; 4] as Portable>⟧.shape no_part)))
        (variant (part ⟦<ArchivedSortedMap<ArchivedString, ArchivedString> as Portable>⟧.shape
        no_part) (variant (part ⟦<u8 as Portable>⟧.shape no_part)
        (variant (part ⟦<u8 as Portable>⟧.shape no_part)
        (variant (part ⟦<ArchivedVec<ArchivedTuple2<ArchivedString, u8>> as Portable>⟧.shape
        no_part) (variant (part ⟦<u8 as Portable>⟧.shape no_part)
        (variant (part ⟦<u8 as Portable>⟧.shape no_part)
        (variant (part ⟦<u8 as Portable>⟧.shape no_part)
        (variant (part ⟦<u8 as Portable>⟧.shape no_part) no_variant))))))))))) };

    ghost checks = { λ _. plain_own_check _ _ _ _ _ refl refl refl refl };

    fn size() -> usize {
        16
    }

    fn align() -> usize {
        4
    }

    fn expr(alloc: Global) -> Result<archive_core::shape::Expr, Error> {
        expr_of_choice::<NoticeVariants>(alloc, "ArchivedNotice")
    }

    fn define(_alloc: Global, _defs: &mut Defs) -> Result<(), Error> {
        Ok(())
    }
}

impl SelfCheck for ArchivedNotice {
    ghost shape = { choice (codes "ArchivedNotice") (units 8
        (variant (part ⟦<u8 as Portable>⟧.shape (part ⟦<ArchivedString as Portable>⟧.shape
        (part ⟦<[u8; 4] as Portable>⟧.shape no_part))) (variant
        (part ⟦<ArchivedSortedMap<ArchivedString, ArchivedString> as Portable>⟧.shape no_part)
        (variant (part ⟦<u8 as Portable>⟧.shape no_part)
        (variant (part ⟦<u8 as Portable>⟧.shape no_part)
        (variant (part ⟦<ArchivedVec<ArchivedTuple2<ArchivedString, u8>> as Portable>⟧.shape
        no_part) (variant (part ⟦<u8 as Portable>⟧.shape no_part)
        (variant (part ⟦<u8 as Portable>⟧.shape no_part)
        (variant (part ⟦<u8 as Portable>⟧.shape no_part)
        (variant (part ⟦<u8 as Portable>⟧.shape no_part) no_variant)))))))))) };

    ghost definitions = { (unit_definitions 8 (both (both no_definition
        (both no_definition (both no_definition no_definition)))
        (both (both (both no_definition (both no_definition no_definition)) no_definition)
        (both (both no_definition no_definition) (both (both no_definition no_definition)
        (both (both (both no_definition (both no_definition no_definition)) no_definition)
        (both (both no_definition no_definition) (both (both no_definition no_definition)
        (both (both no_definition no_definition) (both (both no_definition no_definition)
        no_definition)))))))))) };

    ghost span = { 16 };

    ghost direct = { true };

    ghost nameless = { true };

    fn is_direct() -> bool {
        true
    }

    fn is_nameless() -> bool {
        true
    }

    #[inline(always)]
    fn check_at<C: ArchiveContext>(
        bytes: &[u8],
        at: usize,
        refusal: &mut Error,
        context: &mut C,
    ) -> Option<()> {
        check_choice::<NoticeVariants, C>("ArchivedNotice", bytes, at, refusal, context)
    }
}

impl Choice for ArchivedNotice {
    type Variants = NoticeVariants;

    ghost name = { codes "ArchivedNotice" };

    ghost has_variants = { plain_choice (codes "ArchivedNotice")
        (units 8 (variant (part ⟦<u8 as Portable>⟧.shape
        (part ⟦<ArchivedString as Portable>⟧.shape (part ⟦<[u8; 4] as Portable>⟧.shape no_part)))
        (variant (part ⟦<ArchivedSortedMap<ArchivedString, ArchivedString> as Portable>⟧.shape
        no_part) (variant (part ⟦<u8 as Portable>⟧.shape no_part)
        (variant (part ⟦<u8 as Portable>⟧.shape no_part)
        (variant (part ⟦<ArchivedVec<ArchivedTuple2<ArchivedString, u8>> as Portable>⟧.shape
        no_part) (variant (part ⟦<u8 as Portable>⟧.shape no_part)
        (variant (part ⟦<u8 as Portable>⟧.shape no_part)
        (variant (part ⟦<u8 as Portable>⟧.shape no_part)
        (variant (part ⟦<u8 as Portable>⟧.shape no_part) no_variant))))))))))
        (unit_definitions 8 (both (both no_definition (both no_definition
        (both no_definition no_definition))) (both (both
        (both no_definition (both no_definition no_definition)) no_definition)
        (both (both no_definition no_definition) (both (both no_definition no_definition)
        (both (both (both no_definition (both no_definition no_definition)) no_definition)
        (both (both no_definition no_definition) (both (both no_definition no_definition)
        (both (both no_definition no_definition) (both (both no_definition no_definition)
        no_definition)))))))))) refl };

    ghost holds = { lit≤ tt };
}

/// What is kept of `Notice` between `serialize` and `resolve`.
#[derive(Drop)]
pub enum NoticeResolver {
    /// Of a variant without fields.
    Unit,
    /// Of `File`.
    File(
        (
            <u8 as Archive>::Resolver,
            (
                <String as Archive>::Resolver,
                (<[u8; 4] as Archive>::Resolver, ()),
            ),
        ),
    ),
    /// Of `Settings`.
    Settings((<BTreeMap<String, String> as Archive>::Resolver, ())),
    /// Of `Joined`.
    Joined((<u8 as Archive>::Resolver, ())),
    /// Of `Left`.
    Left((<u8 as Archive>::Resolver, ())),
    /// Of `Result`.
    Result((<Vec<(String, u8)> as Archive>::Resolver, ())),
    /// Of `Called`.
    Called((<u8 as Archive>::Resolver, ())),
    /// Of `Seated`.
    Seated((<u8 as Archive>::Resolver, ())),
    /// Of `Freed`.
    Freed((<u8 as Archive>::Resolver, ())),
    /// Of `Counted`.
    Counted((<u8 as Archive>::Resolver, ())),
}

// The tag of each variant.
trait NoticeTag {
    fn tag(&self) -> u8;
}

impl NoticeTag for Notice {
    ghost use Rattle.derived_plain.specs.declared.notice.Notice.TheVariants.{Called as NoticeCalled, Closed as NoticeClosed, Counted as NoticeCounted, File as NoticeFile, Freed as NoticeFreed, Joined as NoticeJoined, Left as NoticeLeft, Locked as NoticeLocked, Muted as NoticeMuted, Opened as NoticeOpened, Paused as NoticePaused, Result as NoticeResult, Resumed as NoticeResumed, Seated as NoticeSeated, Settings as NoticeSettings, Unlocked as NoticeUnlocked, Unmuted as NoticeUnmuted};

    fn tag(&self) -> u8
        ensures { elim self.now [
          | NoticeClosed ↦ result ≡ 0
          | NoticeOpened ↦ result ≡ 1
          | NoticePaused ↦ result ≡ 2
          | NoticeResumed ↦ result ≡ 3
          | NoticeLocked ↦ result ≡ 4
          | NoticeUnlocked ↦ result ≡ 5
          | NoticeMuted ↦ result ≡ 6
          | NoticeUnmuted ↦ result ≡ 7
          | NoticeFile a0 a1 a2 ↦ result ≡ 8
          | NoticeSettings a0 ↦ result ≡ 9
          | NoticeJoined a0 ↦ result ≡ 10
          | NoticeLeft a0 ↦ result ≡ 11
          | NoticeResult a0 ↦ result ≡ 12
          | NoticeCalled a0 ↦ result ≡ 13
          | NoticeSeated a0 ↦ result ≡ 14
          | NoticeFreed a0 ↦ result ≡ 15
          | NoticeCounted a0 ↦ result ≡ 16
        ] }
    {
        match self {
            Notice::Closed => 0,
            Notice::Opened => 1,
            Notice::Paused => 2,
            Notice::Resumed => 3,
            Notice::Locked => 4,
            Notice::Unlocked => 5,
            Notice::Muted => 6,
            Notice::Unmuted => 7,
            Notice::File { .. } => 8,
            Notice::Settings(..) => 9,
            Notice::Joined(..) => 10,
            Notice::Left(..) => 11,
            Notice::Result(..) => 12,
            Notice::Called(..) => 13,
            Notice::Seated(..) => 14,
            Notice::Freed(..) => 15,
            Notice::Counted(..) => 16,
        }
    }
}

// What is done variant by variant.
impl ArchivedNotice {
    ghost use Rattle.derived_plain.specs.declared.notice.Notice.TheVariants.{Called as NoticeCalled, Closed as NoticeClosed, Counted as NoticeCounted, File as NoticeFile, Freed as NoticeFreed, Joined as NoticeJoined, Left as NoticeLeft, Locked as NoticeLocked, Muted as NoticeMuted, Opened as NoticeOpened, Paused as NoticePaused, Result as NoticeResult, Resumed as NoticeResumed, Seated as NoticeSeated, Settings as NoticeSettings, Unlocked as NoticeUnlocked, Unmuted as NoticeUnmuted};

    // Writes `File` over its place.
    fn resolve_variant_8(
        a0: &u8,
        a1: &String,
        a2: &[u8; 4],
        resolver: NoticeResolver,
        place: Place<'_, ArchivedNotice>,
    ) -> Result<(), Error>
        requires zeroed { ZeroedPlace 16 place.pos place.bytes.now }
        requires same_value { ⟦<Notice as Archive>⟧.belongs (NoticeFile a0.now a1.now a2.now)
            resolver }
        ensures { ResolvesAs ⟦<ArchivedNotice as Portable>⟧ place
            (⟦<Notice as Archive>⟧.flat (NoticeFile a0.now a1.now a2.now) resolver) result }
    {
        let NoticeResolver::File(kept) = resolver else {
            unreachable!();
        };
        let Place { bytes, pos, .. } = place;
        resolve_case_3::<u8, String, [u8; 4], ArchivedNotice>(
            8,
            a0,
            a1,
            a2,
            kept,
            Place::new(pos, bytes),
        )
    }

    // Writes what `File` owns.
    fn serialize_variant_8<S: Writer + ResolverAlloc<Alloc = Global>>(
        a0: &u8,
        a1: &String,
        a2: &[u8; 4],
        serializer: &mut S,
    ) -> Result<NoticeResolver, Error>
        ensures { Serializes ⟦<Notice as Archive>⟧ ⟦<ArchivedNotice as Portable>⟧
            (NoticeFile a0.now a1.now a2.now) S.Keys serializer result }
    {
        match serialize_case_3::<u8, String, [u8; 4], ArchivedNotice, S>(
            8, a0, a1, a2, serializer,
        ) {
            Ok(kept) => Ok(NoticeResolver::File(kept)),
            Err(error) => Err(error),
        }
    }

    // Reads `File` back.
    fn read_variant_8<D: Entries>(
        alloc: Global,
        part: RawView<'_>,
        deserializer: &mut D,
    ) -> Result<Notice, Error>
        requires viewed { IsPartOf ⟦<ArchivedNotice as ArchivePointee>⟧ part }
        requires tag { part_tag part ≡ 8 }
        ensures { ReadsAs ⟦<ArchivedNotice as ArchivePointee>⟧ part D.Entries deserializer
            ⟦<Notice as Archive>⟧ result }
    {
        match read_case::<Self, NoticeFileParts, NoticeFileOwned, D>(8, alloc, part, deserializer) {
            Ok(values) => Ok(notice_file_of(values)),
            Err(error) => Err(error),
        }
    }

    // Writes `Settings` over its place.
    fn resolve_variant_9(
        a0: &BTreeMap<String, String>,
        resolver: NoticeResolver,
        place: Place<'_, ArchivedNotice>,
    ) -> Result<(), Error>
        requires zeroed { ZeroedPlace 16 place.pos place.bytes.now }
        requires same_value { ⟦<Notice as Archive>⟧.belongs (NoticeSettings a0.now) resolver }
        ensures { ResolvesAs ⟦<ArchivedNotice as Portable>⟧ place
            (⟦<Notice as Archive>⟧.flat (NoticeSettings a0.now) resolver) result }
    {
        let NoticeResolver::Settings(kept) = resolver else {
            unreachable!();
        };
        let Place { bytes, pos, .. } = place;
        resolve_case_1::<BTreeMap<String, String>, ArchivedNotice>(
            9,
            a0,
            kept,
            Place::new(pos, bytes),
        )
    }

    // Writes what `Settings` owns.
    fn serialize_variant_9<S: Writer + ResolverAlloc<Alloc = Global>>(
        a0: &BTreeMap<String, String>,
        serializer: &mut S,
    ) -> Result<NoticeResolver, Error>
        ensures { Serializes ⟦<Notice as Archive>⟧ ⟦<ArchivedNotice as Portable>⟧
            (NoticeSettings a0.now) S.Keys serializer result }
    {
        match serialize_case_1::<BTreeMap<String, String>, ArchivedNotice, S>(9, a0, serializer) {
            Ok(kept) => Ok(NoticeResolver::Settings(kept)),
            Err(error) => Err(error),
        }
    }

    // Reads `Settings` back.
    fn read_variant_9<D: Entries>(
        alloc: Global,
        part: RawView<'_>,
        deserializer: &mut D,
    ) -> Result<Notice, Error>
        requires viewed { IsPartOf ⟦<ArchivedNotice as ArchivePointee>⟧ part }
        requires tag { part_tag part ≡ 9 }
        ensures { ReadsAs ⟦<ArchivedNotice as ArchivePointee>⟧ part D.Entries deserializer
            ⟦<Notice as Archive>⟧ result }
    {
        match read_case::<Self, NoticeSettingsParts, NoticeSettingsOwned, D>(
            9,
            alloc,
            part,
            deserializer,
        ) {
            Ok((a0, ())) => Ok(Notice::Settings(a0)),
            Err(error) => Err(error),
        }
    }

    // Writes `Joined` over its place.
    fn resolve_variant_10(
        a0: &u8,
        resolver: NoticeResolver,
        place: Place<'_, ArchivedNotice>,
    ) -> Result<(), Error>
        requires zeroed { ZeroedPlace 16 place.pos place.bytes.now }
        requires same_value { ⟦<Notice as Archive>⟧.belongs (NoticeJoined a0.now) resolver }
        ensures { ResolvesAs ⟦<ArchivedNotice as Portable>⟧ place
            (⟦<Notice as Archive>⟧.flat (NoticeJoined a0.now) resolver) result }
    {
        let NoticeResolver::Joined(kept) = resolver else {
            unreachable!();
        };
        let Place { bytes, pos, .. } = place;
        resolve_case_1::<u8, ArchivedNotice>(10, a0, kept, Place::new(pos, bytes))
    }

    // Writes what `Joined` owns.
    fn serialize_variant_10<S: Writer + ResolverAlloc<Alloc = Global>>(
        a0: &u8,
        serializer: &mut S,
    ) -> Result<NoticeResolver, Error>
        ensures { Serializes ⟦<Notice as Archive>⟧ ⟦<ArchivedNotice as Portable>⟧
            (NoticeJoined a0.now) S.Keys serializer result }
    {
        match serialize_case_1::<u8, ArchivedNotice, S>(10, a0, serializer) {
            Ok(kept) => Ok(NoticeResolver::Joined(kept)),
            Err(error) => Err(error),
        }
    }

    // Reads `Joined` back.
    fn read_variant_10<D: Entries>(
        alloc: Global,
        part: RawView<'_>,
        deserializer: &mut D,
    ) -> Result<Notice, Error>
        requires viewed { IsPartOf ⟦<ArchivedNotice as ArchivePointee>⟧ part }
        requires tag { part_tag part ≡ 10 }
        ensures { ReadsAs ⟦<ArchivedNotice as ArchivePointee>⟧ part D.Entries deserializer
            ⟦<Notice as Archive>⟧ result }
    {
        match read_case::<Self, NoticeJoinedParts, NoticeJoinedOwned, D>(
            10,
            alloc,
            part,
            deserializer,
        ) {
            Ok((a0, ())) => Ok(Notice::Joined(a0)),
            Err(error) => Err(error),
        }
    }

    // Writes `Left` over its place.
    fn resolve_variant_11(
        a0: &u8,
        resolver: NoticeResolver,
        place: Place<'_, ArchivedNotice>,
    ) -> Result<(), Error>
        requires zeroed { ZeroedPlace 16 place.pos place.bytes.now }
        requires same_value { ⟦<Notice as Archive>⟧.belongs (NoticeLeft a0.now) resolver }
        ensures { ResolvesAs ⟦<ArchivedNotice as Portable>⟧ place
            (⟦<Notice as Archive>⟧.flat (NoticeLeft a0.now) resolver) result }
    {
        let NoticeResolver::Left(kept) = resolver else {
            unreachable!();
        };
        let Place { bytes, pos, .. } = place;
        resolve_case_1::<u8, ArchivedNotice>(11, a0, kept, Place::new(pos, bytes))
    }

    // Writes what `Left` owns.
    fn serialize_variant_11<S: Writer + ResolverAlloc<Alloc = Global>>(
        a0: &u8,
        serializer: &mut S,
    ) -> Result<NoticeResolver, Error>
        ensures { Serializes ⟦<Notice as Archive>⟧ ⟦<ArchivedNotice as Portable>⟧
            (NoticeLeft a0.now) S.Keys serializer result }
    {
        match serialize_case_1::<u8, ArchivedNotice, S>(11, a0, serializer) {
            Ok(kept) => Ok(NoticeResolver::Left(kept)),
            Err(error) => Err(error),
        }
    }

    // Reads `Left` back.
    fn read_variant_11<D: Entries>(
        alloc: Global,
        part: RawView<'_>,
        deserializer: &mut D,
    ) -> Result<Notice, Error>
        requires viewed { IsPartOf ⟦<ArchivedNotice as ArchivePointee>⟧ part }
        requires tag { part_tag part ≡ 11 }
        ensures { ReadsAs ⟦<ArchivedNotice as ArchivePointee>⟧ part D.Entries deserializer
            ⟦<Notice as Archive>⟧ result }
    {
        match read_case::<Self, NoticeLeftParts, NoticeLeftOwned, D>(
            11,
            alloc,
            part,
            deserializer,
        ) {
            Ok((a0, ())) => Ok(Notice::Left(a0)),
            Err(error) => Err(error),
        }
    }

    // Writes `Result` over its place.
    fn resolve_variant_12(
        a0: &Vec<(String, u8)>,
        resolver: NoticeResolver,
        place: Place<'_, ArchivedNotice>,
    ) -> Result<(), Error>
        requires zeroed { ZeroedPlace 16 place.pos place.bytes.now }
        requires same_value { ⟦<Notice as Archive>⟧.belongs (NoticeResult a0.now) resolver }
        ensures { ResolvesAs ⟦<ArchivedNotice as Portable>⟧ place
            (⟦<Notice as Archive>⟧.flat (NoticeResult a0.now) resolver) result }
    {
        let NoticeResolver::Result(kept) = resolver else {
            unreachable!();
        };
        let Place { bytes, pos, .. } = place;
        resolve_case_1::<Vec<(String, u8)>, ArchivedNotice>(12, a0, kept, Place::new(pos, bytes))
    }

    // Writes what `Result` owns.
    fn serialize_variant_12<S: Writer + ResolverAlloc<Alloc = Global>>(
        a0: &Vec<(String, u8)>,
        serializer: &mut S,
    ) -> Result<NoticeResolver, Error>
        ensures { Serializes ⟦<Notice as Archive>⟧ ⟦<ArchivedNotice as Portable>⟧
            (NoticeResult a0.now) S.Keys serializer result }
    {
        match serialize_case_1::<Vec<(String, u8)>, ArchivedNotice, S>(12, a0, serializer) {
            Ok(kept) => Ok(NoticeResolver::Result(kept)),
            Err(error) => Err(error),
        }
    }

    // Reads `Result` back.
    fn read_variant_12<D: Entries>(
        alloc: Global,
        part: RawView<'_>,
        deserializer: &mut D,
    ) -> Result<Notice, Error>
        requires viewed { IsPartOf ⟦<ArchivedNotice as ArchivePointee>⟧ part }
        requires tag { part_tag part ≡ 12 }
        ensures { ReadsAs ⟦<ArchivedNotice as ArchivePointee>⟧ part D.Entries deserializer
            ⟦<Notice as Archive>⟧ result }
    {
        match read_case::<Self, NoticeResultParts, NoticeResultOwned, D>(
            12,
            alloc,
            part,
            deserializer,
        ) {
            Ok((a0, ())) => Ok(Notice::Result(a0)),
            Err(error) => Err(error),
        }
    }

    // Writes `Called` over its place.
    fn resolve_variant_13(
        a0: &u8,
        resolver: NoticeResolver,
        place: Place<'_, ArchivedNotice>,
    ) -> Result<(), Error>
        requires zeroed { ZeroedPlace 16 place.pos place.bytes.now }
        requires same_value { ⟦<Notice as Archive>⟧.belongs (NoticeCalled a0.now) resolver }
        ensures { ResolvesAs ⟦<ArchivedNotice as Portable>⟧ place
            (⟦<Notice as Archive>⟧.flat (NoticeCalled a0.now) resolver) result }
    {
        let NoticeResolver::Called(kept) = resolver else {
            unreachable!();
        };
        let Place { bytes, pos, .. } = place;
        resolve_case_1::<u8, ArchivedNotice>(13, a0, kept, Place::new(pos, bytes))
    }

    // Writes what `Called` owns.
    fn serialize_variant_13<S: Writer + ResolverAlloc<Alloc = Global>>(
        a0: &u8,
        serializer: &mut S,
    ) -> Result<NoticeResolver, Error>
        ensures { Serializes ⟦<Notice as Archive>⟧ ⟦<ArchivedNotice as Portable>⟧
            (NoticeCalled a0.now) S.Keys serializer result }
    {
        match serialize_case_1::<u8, ArchivedNotice, S>(13, a0, serializer) {
            Ok(kept) => Ok(NoticeResolver::Called(kept)),
            Err(error) => Err(error),
        }
    }

    // Reads `Called` back.
    fn read_variant_13<D: Entries>(
        alloc: Global,
        part: RawView<'_>,
        deserializer: &mut D,
    ) -> Result<Notice, Error>
        requires viewed { IsPartOf ⟦<ArchivedNotice as ArchivePointee>⟧ part }
        requires tag { part_tag part ≡ 13 }
        ensures { ReadsAs ⟦<ArchivedNotice as ArchivePointee>⟧ part D.Entries deserializer
            ⟦<Notice as Archive>⟧ result }
    {
        match read_case::<Self, NoticeCalledParts, NoticeCalledOwned, D>(
            13,
            alloc,
            part,
            deserializer,
        ) {
            Ok((a0, ())) => Ok(Notice::Called(a0)),
            Err(error) => Err(error),
        }
    }

    // Writes `Seated` over its place.
    fn resolve_variant_14(
        a0: &u8,
        resolver: NoticeResolver,
        place: Place<'_, ArchivedNotice>,
    ) -> Result<(), Error>
        requires zeroed { ZeroedPlace 16 place.pos place.bytes.now }
        requires same_value { ⟦<Notice as Archive>⟧.belongs (NoticeSeated a0.now) resolver }
        ensures { ResolvesAs ⟦<ArchivedNotice as Portable>⟧ place
            (⟦<Notice as Archive>⟧.flat (NoticeSeated a0.now) resolver) result }
    {
        let NoticeResolver::Seated(kept) = resolver else {
            unreachable!();
        };
        let Place { bytes, pos, .. } = place;
        resolve_case_1::<u8, ArchivedNotice>(14, a0, kept, Place::new(pos, bytes))
    }

    // Writes what `Seated` owns.
    fn serialize_variant_14<S: Writer + ResolverAlloc<Alloc = Global>>(
        a0: &u8,
        serializer: &mut S,
    ) -> Result<NoticeResolver, Error>
        ensures { Serializes ⟦<Notice as Archive>⟧ ⟦<ArchivedNotice as Portable>⟧
            (NoticeSeated a0.now) S.Keys serializer result }
    {
        match serialize_case_1::<u8, ArchivedNotice, S>(14, a0, serializer) {
            Ok(kept) => Ok(NoticeResolver::Seated(kept)),
            Err(error) => Err(error),
        }
    }

    // Reads `Seated` back.
    fn read_variant_14<D: Entries>(
        alloc: Global,
        part: RawView<'_>,
        deserializer: &mut D,
    ) -> Result<Notice, Error>
        requires viewed { IsPartOf ⟦<ArchivedNotice as ArchivePointee>⟧ part }
        requires tag { part_tag part ≡ 14 }
        ensures { ReadsAs ⟦<ArchivedNotice as ArchivePointee>⟧ part D.Entries deserializer
            ⟦<Notice as Archive>⟧ result }
    {
        match read_case::<Self, NoticeSeatedParts, NoticeSeatedOwned, D>(
            14,
            alloc,
            part,
            deserializer,
        ) {
            Ok((a0, ())) => Ok(Notice::Seated(a0)),
            Err(error) => Err(error),
        }
    }

    // Writes `Freed` over its place.
    fn resolve_variant_15(
        a0: &u8,
        resolver: NoticeResolver,
        place: Place<'_, ArchivedNotice>,
    ) -> Result<(), Error>
        requires zeroed { ZeroedPlace 16 place.pos place.bytes.now }
        requires same_value { ⟦<Notice as Archive>⟧.belongs (NoticeFreed a0.now) resolver }
        ensures { ResolvesAs ⟦<ArchivedNotice as Portable>⟧ place
            (⟦<Notice as Archive>⟧.flat (NoticeFreed a0.now) resolver) result }
    {
        let NoticeResolver::Freed(kept) = resolver else {
            unreachable!();
        };
        let Place { bytes, pos, .. } = place;
        resolve_case_1::<u8, ArchivedNotice>(15, a0, kept, Place::new(pos, bytes))
    }

    // Writes what `Freed` owns.
    fn serialize_variant_15<S: Writer + ResolverAlloc<Alloc = Global>>(
        a0: &u8,
        serializer: &mut S,
    ) -> Result<NoticeResolver, Error>
        ensures { Serializes ⟦<Notice as Archive>⟧ ⟦<ArchivedNotice as Portable>⟧
            (NoticeFreed a0.now) S.Keys serializer result }
    {
        match serialize_case_1::<u8, ArchivedNotice, S>(15, a0, serializer) {
            Ok(kept) => Ok(NoticeResolver::Freed(kept)),
            Err(error) => Err(error),
        }
    }

    // Reads `Freed` back.
    fn read_variant_15<D: Entries>(
        alloc: Global,
        part: RawView<'_>,
        deserializer: &mut D,
    ) -> Result<Notice, Error>
        requires viewed { IsPartOf ⟦<ArchivedNotice as ArchivePointee>⟧ part }
        requires tag { part_tag part ≡ 15 }
        ensures { ReadsAs ⟦<ArchivedNotice as ArchivePointee>⟧ part D.Entries deserializer
            ⟦<Notice as Archive>⟧ result }
    {
        match read_case::<Self, NoticeFreedParts, NoticeFreedOwned, D>(
            15,
            alloc,
            part,
            deserializer,
        ) {
            Ok((a0, ())) => Ok(Notice::Freed(a0)),
            Err(error) => Err(error),
        }
    }

    // Writes `Counted` over its place.
    fn resolve_variant_16(
        a0: &u8,
        resolver: NoticeResolver,
        place: Place<'_, ArchivedNotice>,
    ) -> Result<(), Error>
        requires zeroed { ZeroedPlace 16 place.pos place.bytes.now }
        requires same_value { ⟦<Notice as Archive>⟧.belongs (NoticeCounted a0.now) resolver }
        ensures { ResolvesAs ⟦<ArchivedNotice as Portable>⟧ place
            (⟦<Notice as Archive>⟧.flat (NoticeCounted a0.now) resolver) result }
    {
        let NoticeResolver::Counted(kept) = resolver else {
            unreachable!();
        };
        let Place { bytes, pos, .. } = place;
        resolve_case_1::<u8, ArchivedNotice>(16, a0, kept, Place::new(pos, bytes))
    }

    // Writes what `Counted` owns.
    fn serialize_variant_16<S: Writer + ResolverAlloc<Alloc = Global>>(
        a0: &u8,
        serializer: &mut S,
    ) -> Result<NoticeResolver, Error>
        ensures { Serializes ⟦<Notice as Archive>⟧ ⟦<ArchivedNotice as Portable>⟧
            (NoticeCounted a0.now) S.Keys serializer result }
    {
        match serialize_case_1::<u8, ArchivedNotice, S>(16, a0, serializer) {
            Ok(kept) => Ok(NoticeResolver::Counted(kept)),
            Err(error) => Err(error),
        }
    }

    // Reads `Counted` back.
    fn read_variant_16<D: Entries>(
        alloc: Global,
        part: RawView<'_>,
        deserializer: &mut D,
    ) -> Result<Notice, Error>
        requires viewed { IsPartOf ⟦<ArchivedNotice as ArchivePointee>⟧ part }
        requires tag { part_tag part ≡ 16 }
        ensures { ReadsAs ⟦<ArchivedNotice as ArchivePointee>⟧ part D.Entries deserializer
            ⟦<Notice as Archive>⟧ result }
    {
        match read_case::<Self, NoticeCountedParts, NoticeCountedOwned, D>(
            16,
            alloc,
            part,
            deserializer,
        ) {
            Ok((a0, ())) => Ok(Notice::Counted(a0)),
            Err(error) => Err(error),
        }
    }

    // Writes the tag of a variant without fields over its place.
    fn resolve_unit(tag: u8, place: Place<'_, ArchivedNotice>) -> Result<(), Error>
        requires variant { variant_in ⟦<ArchivedNotice as Portable>⟧.shape tag ≡ Some no_part }
        requires zeroed { ZeroedPlace 16 place.pos place.bytes.now }
        ensures { ResolvesAs ⟦<ArchivedNotice as Portable>⟧ place (case tag no_value) result }
    {
        let Place { bytes, pos, .. } = place;
        resolve_case_0::<ArchivedNotice>(tag, (), Place::new(pos, bytes))
    }
}

impl Archive for Notice {
    ghost use Rattle.derived_plain.specs.declared.notice.Notice.TheVariants.{Called as NoticeCalled, Closed as NoticeClosed, Counted as NoticeCounted, File as NoticeFile, Freed as NoticeFreed, Joined as NoticeJoined, Left as NoticeLeft, Locked as NoticeLocked, Muted as NoticeMuted, Opened as NoticeOpened, Paused as NoticePaused, Result as NoticeResult, Resumed as NoticeResumed, Seated as NoticeSeated, Settings as NoticeSettings, Unlocked as NoticeUnlocked, Unmuted as NoticeUnmuted};
    ghost use Rattle.derived_plain.specs.declared.notice.NoticeResolver.TheVariants.{Called as NoticeCalledKept, Counted as NoticeCountedKept, File as NoticeFileKept, Freed as NoticeFreedKept, Joined as NoticeJoinedKept, Left as NoticeLeftKept, Result as NoticeResultKept, Seated as NoticeSeatedKept, Settings as NoticeSettingsKept, Unit as NoticeUnitKept};

    type Archived = ArchivedNotice;

    type Resolver = NoticeResolver;

    ghost meaning = { elim [
      | NoticeClosed ↦ case 0 no_value
      | NoticeOpened ↦ case 1 no_value
      | NoticePaused ↦ case 2 no_value
      | NoticeResumed ↦ case 3 no_value
      | NoticeLocked ↦ case 4 no_value
      | NoticeUnlocked ↦ case 5 no_value
      | NoticeMuted ↦ case 6 no_value
      | NoticeUnmuted ↦ case 7 no_value
      | NoticeFile a0 a1 a2 ↦ case 8 (value (⟦<u8 as Archive>⟧.meaning a0)
          (value (⟦<String as Archive>⟧.meaning a1) (value (⟦<[u8; 4] as Archive>⟧.meaning a2)
          no_value)))
      | NoticeSettings a0 ↦ case 9 (value (⟦<BTreeMap<String, String> as Archive>⟧.meaning a0)
          no_value)
      | NoticeJoined a0 ↦ case 10 (value (⟦<u8 as Archive>⟧.meaning a0) no_value)
      | NoticeLeft a0 ↦ case 11 (value (⟦<u8 as Archive>⟧.meaning a0) no_value)
      | NoticeResult a0 ↦ case 12 (value (⟦<Vec<(String, u8)> as Archive>⟧.meaning a0) no_value)
      | NoticeCalled a0 ↦ case 13 (value (⟦<u8 as Archive>⟧.meaning a0) no_value)
      | NoticeSeated a0 ↦ case 14 (value (⟦<u8 as Archive>⟧.meaning a0) no_value)
      | NoticeFreed a0 ↦ case 15 (value (⟦<u8 as Archive>⟧.meaning a0) no_value)
      | NoticeCounted a0 ↦ case 16 (value (⟦<u8 as Archive>⟧.meaning a0) no_value)
    ] };

    ghost flat = { λ v r. elim v [
      | NoticeClosed ↦ case 0 no_value
      | NoticeOpened ↦ case 1 no_value
      | NoticePaused ↦ case 2 no_value
      | NoticeResumed ↦ case 3 no_value
      | NoticeLocked ↦ case 4 no_value
      | NoticeUnlocked ↦ case 5 no_value
      | NoticeMuted ↦ case 6 no_value
      | NoticeUnmuted ↦ case 7 no_value
      | NoticeFile a0 a1 a2 ↦ elim r [
        | NoticeFileKept s ↦ case 8 (value (⟦<u8 as Archive>⟧.flat a0 s.0)
            (value (⟦<String as Archive>⟧.flat a1 s.1.0) (value
            (⟦<[u8; 4] as Archive>⟧.flat a2 s.1.1.0) no_value)))
        | _ ↦ case 8 no_value
      ]
      | NoticeSettings a0 ↦ elim r [
        | NoticeSettingsKept s ↦ case 9 (value (⟦<BTreeMap<String, String> as Archive>⟧.flat a0 s.0)
            no_value)
        | _ ↦ case 9 no_value
      ]
      | NoticeJoined a0 ↦ elim r [
        | NoticeJoinedKept s ↦ case 10 (value (⟦<u8 as Archive>⟧.flat a0 s.0) no_value)
        | _ ↦ case 10 no_value
      ]
      | NoticeLeft a0 ↦ elim r [
        | NoticeLeftKept s ↦ case 11 (value (⟦<u8 as Archive>⟧.flat a0 s.0) no_value)
        | _ ↦ case 11 no_value
      ]
      | NoticeResult a0 ↦ elim r [
        | NoticeResultKept s ↦ case 12 (value (⟦<Vec<(String, u8)> as Archive>⟧.flat a0 s.0)
            no_value)
        | _ ↦ case 12 no_value
      ]
      | NoticeCalled a0 ↦ elim r [
        | NoticeCalledKept s ↦ case 13 (value (⟦<u8 as Archive>⟧.flat a0 s.0) no_value)
        | _ ↦ case 13 no_value
      ]
      | NoticeSeated a0 ↦ elim r [
        | NoticeSeatedKept s ↦ case 14 (value (⟦<u8 as Archive>⟧.flat a0 s.0) no_value)
        | _ ↦ case 14 no_value
      ]
      | NoticeFreed a0 ↦ elim r [
        | NoticeFreedKept s ↦ case 15 (value (⟦<u8 as Archive>⟧.flat a0 s.0) no_value)
        | _ ↦ case 15 no_value
      ]
      | NoticeCounted a0 ↦ elim r [
        | NoticeCountedKept s ↦ case 16 (value (⟦<u8 as Archive>⟧.flat a0 s.0) no_value)
        | _ ↦ case 16 no_value
      ]
    ] };

    ghost keys = { elim [
      | NoticeClosed ↦ []
      | NoticeOpened ↦ []
      | NoticePaused ↦ []
      | NoticeResumed ↦ []
      | NoticeLocked ↦ []
      | NoticeUnlocked ↦ []
      | NoticeMuted ↦ []
      | NoticeUnmuted ↦ []
      | NoticeFile a0 a1 a2 ↦ ⟦<u8 as Archive>⟧.keys a0
          ++ (⟦<String as Archive>⟧.keys a1 ++ (⟦<[u8; 4] as Archive>⟧.keys a2 ++ []))
      | NoticeSettings a0 ↦ ⟦<BTreeMap<String, String> as Archive>⟧.keys a0 ++ []
      | NoticeJoined a0 ↦ ⟦<u8 as Archive>⟧.keys a0 ++ []
      | NoticeLeft a0 ↦ ⟦<u8 as Archive>⟧.keys a0 ++ []
      | NoticeResult a0 ↦ ⟦<Vec<(String, u8)> as Archive>⟧.keys a0 ++ []
      | NoticeCalled a0 ↦ ⟦<u8 as Archive>⟧.keys a0 ++ []
      | NoticeSeated a0 ↦ ⟦<u8 as Archive>⟧.keys a0 ++ []
      | NoticeFreed a0 ↦ ⟦<u8 as Archive>⟧.keys a0 ++ []
      | NoticeCounted a0 ↦ ⟦<u8 as Archive>⟧.keys a0 ++ []
    ] };

    ghost belongs = { λ v r. elim v [
      | NoticeClosed ↦ Unit {0}
      | NoticeOpened ↦ Unit {0}
      | NoticePaused ↦ Unit {0}
      | NoticeResumed ↦ Unit {0}
      | NoticeLocked ↦ Unit {0}
      | NoticeUnlocked ↦ Unit {0}
      | NoticeMuted ↦ Unit {0}
      | NoticeUnmuted ↦ Unit {0}
      | NoticeFile a0 a1 a2 ↦ elim r [
        | NoticeFileKept s ↦ ⟦<u8 as Archive>⟧.belongs a0 s.0
            × (⟦<String as Archive>⟧.belongs a1 s.1.0 × (⟦<[u8; 4] as Archive>⟧.belongs a2 s.1.1.0
            × Unit {0}))
        | _ ↦ ⊥
      ]
      | NoticeSettings a0 ↦ elim r [
        | NoticeSettingsKept s ↦ ⟦<BTreeMap<String, String> as Archive>⟧.belongs a0 s.0 × Unit {0}
        | _ ↦ ⊥
      ]
      | NoticeJoined a0 ↦ elim r [
        | NoticeJoinedKept s ↦ ⟦<u8 as Archive>⟧.belongs a0 s.0 × Unit {0}
        | _ ↦ ⊥
      ]
      | NoticeLeft a0 ↦ elim r [
        | NoticeLeftKept s ↦ ⟦<u8 as Archive>⟧.belongs a0 s.0 × Unit {0}
        | _ ↦ ⊥
      ]
      | NoticeResult a0 ↦ elim r [
        | NoticeResultKept s ↦ ⟦<Vec<(String, u8)> as Archive>⟧.belongs a0 s.0 × Unit {0}
        | _ ↦ ⊥
      ]
      | NoticeCalled a0 ↦ elim r [
        | NoticeCalledKept s ↦ ⟦<u8 as Archive>⟧.belongs a0 s.0 × Unit {0}
        | _ ↦ ⊥
      ]
      | NoticeSeated a0 ↦ elim r [
        | NoticeSeatedKept s ↦ ⟦<u8 as Archive>⟧.belongs a0 s.0 × Unit {0}
        | _ ↦ ⊥
      ]
      | NoticeFreed a0 ↦ elim r [
        | NoticeFreedKept s ↦ ⟦<u8 as Archive>⟧.belongs a0 s.0 × Unit {0}
        | _ ↦ ⊥
      ]
      | NoticeCounted a0 ↦ elim r [
        | NoticeCountedKept s ↦ ⟦<u8 as Archive>⟧.belongs a0 s.0 × Unit {0}
        | _ ↦ ⊥
      ]
    ] };

    ghost in_bulk = { None };

    ghost keyed = { elim [
      | NoticeClosed ↦ case_keyed _ 0 _ nothing_keyed
      | NoticeOpened ↦ case_keyed _ 1 _ nothing_keyed
      | NoticePaused ↦ case_keyed _ 2 _ nothing_keyed
      | NoticeResumed ↦ case_keyed _ 3 _ nothing_keyed
      | NoticeLocked ↦ case_keyed _ 4 _ nothing_keyed
      | NoticeUnlocked ↦ case_keyed _ 5 _ nothing_keyed
      | NoticeMuted ↦ case_keyed _ 6 _ nothing_keyed
      | NoticeUnmuted ↦ case_keyed _ 7 _ nothing_keyed
      | NoticeFile a0 a1 a2 ↦ case_keyed _ 8 _ (part_keyed (number_keyed _)
          (part_keyed (text_keyed (string_bytes a1)) (part_keyed
          (array_keyed 4 ⟦<u8 as Archive>⟧.keys ⟦<u8 as Archive>⟧.meaning (λ x. number_keyed _) a2)
          nothing_keyed)))
      | NoticeSettings a0 ↦ case_keyed _ 9 _ (part_keyed
          (pairs_keyed ⟦<String as Archive>⟧.keys ⟦<String as Archive>⟧.keys
          ⟦<String as Archive>⟧.meaning ⟦<String as Archive>⟧.meaning
          (λ x. text_keyed (string_bytes x)) (λ x. text_keyed (string_bytes x)) a0.entries)
          nothing_keyed)
      | NoticeJoined a0 ↦ case_keyed _ 10 _ (part_keyed (number_keyed _) nothing_keyed)
      | NoticeLeft a0 ↦ case_keyed _ 11 _ (part_keyed (number_keyed _) nothing_keyed)
      | NoticeResult a0 ↦ case_keyed _ 12 _ (part_keyed
          (each_keyed ⟦<(String, u8) as Archive>⟧.keys ⟦<(String, u8) as Archive>⟧.meaning
          (λ x. record_keyed (part_keyed (text_keyed (string_bytes x.0))
          (part_keyed (number_keyed _) nothing_keyed))) a0.items) nothing_keyed)
      | NoticeCalled a0 ↦ case_keyed _ 13 _ (part_keyed (number_keyed _) nothing_keyed)
      | NoticeSeated a0 ↦ case_keyed _ 14 _ (part_keyed (number_keyed _) nothing_keyed)
      | NoticeFreed a0 ↦ case_keyed _ 15 _ (part_keyed (number_keyed _) nothing_keyed)
      | NoticeCounted a0 ↦ case_keyed _ 16 _ (part_keyed (number_keyed _) nothing_keyed)
    ] };

    ghost planned = { elim [
      | NoticeClosed ↦ plain_variant_planned _ _ 0 no_part refl no_definition _ _ no_part_planned
          refl
      | NoticeOpened ↦ plain_variant_planned _ _ 1 no_part refl no_definition _ _ no_part_planned
          refl
      | NoticePaused ↦ plain_variant_planned _ _ 2 no_part refl no_definition _ _ no_part_planned
          refl
      | NoticeResumed ↦ plain_variant_planned _ _ 3 no_part refl no_definition _ _ no_part_planned
          refl
      | NoticeLocked ↦ plain_variant_planned _ _ 4 no_part refl no_definition _ _ no_part_planned
          refl
      | NoticeUnlocked ↦ plain_variant_planned _ _ 5 no_part refl no_definition _ _ no_part_planned
          refl
      | NoticeMuted ↦ plain_variant_planned _ _ 6 no_part refl no_definition _ _ no_part_planned
          refl
      | NoticeUnmuted ↦ plain_variant_planned _ _ 7 no_part refl no_definition _ _ no_part_planned
          refl
      | NoticeFile a0 a1 a2 ↦ plain_variant_planned _ _ 8
          (part ⟦<u8 as Portable>⟧.shape (part ⟦<ArchivedString as Portable>⟧.shape
          (part ⟦<[u8; 4] as Portable>⟧.shape no_part))) refl
          (both no_definition (both no_definition (both no_definition no_definition))) _ _
          (part_planned no_definition ⟦<u8 as Portable>⟧.shape (⟦<u8 as Archive>⟧.keys a0)
          (⟦<u8 as Archive>⟧.meaning a0) (leaf_planned no_definition _ _ [] _ refl)
          (part_planned no_definition ⟦<ArchivedString as Portable>⟧.shape
          (⟦<String as Archive>⟧.keys a1) (⟦<String as Archive>⟧.meaning a1)
          (string_planned no_definition [] (string_bytes a1))
          (part_planned no_definition ⟦<[u8; 4] as Portable>⟧.shape (⟦<[u8; 4] as Archive>⟧.keys a2)
          (⟦<[u8; 4] as Archive>⟧.meaning a2) (array_planned 4 no_definition
          ⟦<u8 as Portable>⟧.shape ⟦<u8 as Archive>⟧.keys ⟦<u8 as Archive>⟧.meaning
          (λ x. leaf_planned no_definition _ _ [] _ refl) a2) no_part_planned))) refl
      | NoticeSettings a0 ↦ plain_variant_planned _ _ 9
          (part ⟦<ArchivedSortedMap<ArchivedString, ArchivedString> as Portable>⟧.shape no_part)
          refl (both (both no_definition (both no_definition no_definition)) no_definition) _ _
          (part_planned (both no_definition (both no_definition no_definition))
          ⟦<ArchivedSortedMap<ArchivedString, ArchivedString> as Portable>⟧.shape
          (⟦<BTreeMap<String, String> as Archive>⟧.keys a0)
          (⟦<BTreeMap<String, String> as Archive>⟧.meaning a0)
          (map_of_pairs_planned ⟦<String as Archive>⟧.keys ⟦<String as Archive>⟧.keys
          ⟦<String as Archive>⟧.meaning ⟦<String as Archive>⟧.meaning no_definition no_definition
          ⟦<ArchivedString as Portable>⟧.shape ⟦<ArchivedString as Portable>⟧.shape
          (λ x. string_planned no_definition [] (string_bytes x))
          (λ x. string_planned no_definition [] (string_bytes x)) ⟦<ArchivedString as MapKey>⟧.key
          refl a0.entries) no_part_planned) refl
      | NoticeJoined a0 ↦ plain_variant_planned _ _ 10 (part ⟦<u8 as Portable>⟧.shape no_part) refl
          (both no_definition no_definition) _ _ (part_planned no_definition
          ⟦<u8 as Portable>⟧.shape (⟦<u8 as Archive>⟧.keys a0) (⟦<u8 as Archive>⟧.meaning a0)
          (leaf_planned no_definition _ _ [] _ refl) no_part_planned) refl
      | NoticeLeft a0 ↦ plain_variant_planned _ _ 11 (part ⟦<u8 as Portable>⟧.shape no_part) refl
          (both no_definition no_definition) _ _ (part_planned no_definition
          ⟦<u8 as Portable>⟧.shape (⟦<u8 as Archive>⟧.keys a0) (⟦<u8 as Archive>⟧.meaning a0)
          (leaf_planned no_definition _ _ [] _ refl) no_part_planned) refl
      | NoticeResult a0 ↦ plain_variant_planned _ _ 12
          (part ⟦<ArchivedVec<ArchivedTuple2<ArchivedString, u8>> as Portable>⟧.shape no_part) refl
          (both (both no_definition (both no_definition no_definition)) no_definition) _ _
          (part_planned (both no_definition (both no_definition no_definition))
          ⟦<ArchivedVec<ArchivedTuple2<ArchivedString, u8>> as Portable>⟧.shape
          (⟦<Vec<(String, u8)> as Archive>⟧.keys a0) (⟦<Vec<(String, u8)> as Archive>⟧.meaning a0)
          (vec_planned (both no_definition (both no_definition no_definition))
          ⟦<ArchivedTuple2<ArchivedString, u8> as Portable>⟧.shape _ _ _
          (slice_planned (both no_definition (both no_definition no_definition))
          ⟦<ArchivedTuple2<ArchivedString, u8> as Portable>⟧.shape ⟦<(String, u8) as Archive>⟧.keys
          ⟦<(String, u8) as Archive>⟧.meaning (λ x. product_planned
          (both no_definition (both no_definition no_definition))
          (part ⟦<ArchivedString as Portable>⟧.shape (part ⟦<u8 as Portable>⟧.shape no_part))
          (⟦<String as Archive>⟧.keys x.0 ++ (⟦<u8 as Archive>⟧.keys x.1 ++ []))
          (value (⟦<String as Archive>⟧.meaning x.0) (value (⟦<u8 as Archive>⟧.meaning x.1)
          no_value)) (part_planned no_definition ⟦<ArchivedString as Portable>⟧.shape
          (⟦<String as Archive>⟧.keys x.0) (⟦<String as Archive>⟧.meaning x.0)
          (string_planned no_definition [] (string_bytes x.0))
          (part_planned no_definition ⟦<u8 as Portable>⟧.shape (⟦<u8 as Archive>⟧.keys x.1)
          (⟦<u8 as Archive>⟧.meaning x.1) (leaf_planned no_definition _ _ [] _ refl)
          no_part_planned))) a0.items)) no_part_planned) refl
      | NoticeCalled a0 ↦ plain_variant_planned _ _ 13 (part ⟦<u8 as Portable>⟧.shape no_part) refl
          (both no_definition no_definition) _ _ (part_planned no_definition
          ⟦<u8 as Portable>⟧.shape (⟦<u8 as Archive>⟧.keys a0) (⟦<u8 as Archive>⟧.meaning a0)
          (leaf_planned no_definition _ _ [] _ refl) no_part_planned) refl
      | NoticeSeated a0 ↦ plain_variant_planned _ _ 14 (part ⟦<u8 as Portable>⟧.shape no_part) refl
          (both no_definition no_definition) _ _ (part_planned no_definition
          ⟦<u8 as Portable>⟧.shape (⟦<u8 as Archive>⟧.keys a0) (⟦<u8 as Archive>⟧.meaning a0)
          (leaf_planned no_definition _ _ [] _ refl) no_part_planned) refl
      | NoticeFreed a0 ↦ plain_variant_planned _ _ 15 (part ⟦<u8 as Portable>⟧.shape no_part) refl
          (both no_definition no_definition) _ _ (part_planned no_definition
          ⟦<u8 as Portable>⟧.shape (⟦<u8 as Archive>⟧.keys a0) (⟦<u8 as Archive>⟧.meaning a0)
          (leaf_planned no_definition _ _ [] _ refl) no_part_planned) refl
      | NoticeCounted a0 ↦ plain_variant_planned _ _ 16 (part ⟦<u8 as Portable>⟧.shape no_part) refl
          (both no_definition no_definition) _ _ (part_planned no_definition
          ⟦<u8 as Portable>⟧.shape (⟦<u8 as Archive>⟧.keys a0) (⟦<u8 as Archive>⟧.meaning a0)
          (leaf_planned no_definition _ _ [] _ refl) no_part_planned) refl
    ] };

    #[inline(always)]
    fn resolve(
        &self,
        resolver: Self::Resolver,
        place: Place<'_, Self::Archived>,
    ) -> Result<(), Error>
        requires zeroed { ZeroedPlace 16 place.pos place.bytes.now }
        requires same_value { ⟦<Self as Archive>⟧.belongs self.now resolver }
        ensures { ResolvesAs ⟦<Self::Archived as Portable>⟧ place
            (⟦<Self as Archive>⟧.flat self.now resolver) result }
    {
        let Place { bytes, pos, .. } = place;
        match self {
            Notice::File {
                member: a0,
                name: a1,
                digest: a2,
            } => ArchivedNotice::resolve_variant_8(a0, a1, a2, resolver, Place::new(pos, bytes)),
            Notice::Settings(a0) => ArchivedNotice::resolve_variant_9(
                a0,
                resolver,
                Place::new(pos, bytes),
            ),
            Notice::Joined(a0) => ArchivedNotice::resolve_variant_10(
                a0,
                resolver,
                Place::new(pos, bytes),
            ),
            Notice::Left(a0) => ArchivedNotice::resolve_variant_11(
                a0,
                resolver,
                Place::new(pos, bytes),
            ),
            Notice::Result(a0) => ArchivedNotice::resolve_variant_12(
                a0,
                resolver,
                Place::new(pos, bytes),
            ),
            Notice::Called(a0) => ArchivedNotice::resolve_variant_13(
                a0,
                resolver,
                Place::new(pos, bytes),
            ),
            Notice::Seated(a0) => ArchivedNotice::resolve_variant_14(
                a0,
                resolver,
                Place::new(pos, bytes),
            ),
            Notice::Freed(a0) => ArchivedNotice::resolve_variant_15(
                a0,
                resolver,
                Place::new(pos, bytes),
            ),
            Notice::Counted(a0) => ArchivedNotice::resolve_variant_16(
                a0,
                resolver,
                Place::new(pos, bytes),
            ),
            _ => {
                drop(resolver);
                ArchivedNotice::resolve_unit(NoticeTag::tag(self), Place::new(pos, bytes))
            }
        }
    }

    #[inline(always)]
    fn copy_optimization() -> CopyOptimization<Self> {
        CopyOptimization::disable()
    }

    #[inline(always)]
    fn serialize_copied<S: Writer + Keys>(
        _values: &[Self],
        _together: usize,
        _serializer: &mut S,
    ) -> Result<Option<usize>, Error> {
        Ok(None)
    }
}

impl<S: Writer + ResolverAlloc<Alloc = Global>> Serialize<S> for Notice {
    #[inline(always)]
    fn serialize(&self, serializer: &mut S) -> Result<Self::Resolver, Error> {
        match self {
            Notice::File {
                member: a0,
                name: a1,
                digest: a2,
            } => ArchivedNotice::serialize_variant_8(a0, a1, a2, serializer),
            Notice::Settings(a0) => ArchivedNotice::serialize_variant_9(a0, serializer),
            Notice::Joined(a0) => ArchivedNotice::serialize_variant_10(a0, serializer),
            Notice::Left(a0) => ArchivedNotice::serialize_variant_11(a0, serializer),
            Notice::Result(a0) => ArchivedNotice::serialize_variant_12(a0, serializer),
            Notice::Called(a0) => ArchivedNotice::serialize_variant_13(a0, serializer),
            Notice::Seated(a0) => ArchivedNotice::serialize_variant_14(a0, serializer),
            Notice::Freed(a0) => ArchivedNotice::serialize_variant_15(a0, serializer),
            Notice::Counted(a0) => ArchivedNotice::serialize_variant_16(a0, serializer),
            _ => match serialize_case_0::<ArchivedNotice, S>(NoticeTag::tag(self), serializer) {
                Ok(()) => Ok(NoticeResolver::Unit),
                Err(error) => Err(error),
            },
        }
    }
}

/// As a region of its own: the value itself.
impl ArchiveUnsized for Notice {
    ghost use Rattle.derived_plain.specs.contracts.notice.NoticeArchive.TheImpl.Laws.{keyed-law as keyed_of_notice, planned-law as planned_of_notice};

    type Archived = ArchivedNotice;

    ghost source_length = { λ _. 0 };

    ghost meaning = { ⟦<Notice as Archive>⟧.meaning };

    ghost keys = { ⟦<Notice as Archive>⟧.keys };

    ghost keyed = { keyed_of_notice };

    ghost one_length = { λ _ _. refl };

    ghost planned = { λ v. one_planned no_definition (choice (codes "ArchivedNotice")
        (units 8 (variant (part ⟦<u8 as Portable>⟧.shape
        (part ⟦<ArchivedString as Portable>⟧.shape (part ⟦<[u8; 4] as Portable>⟧.shape no_part)))
        (variant (part ⟦<ArchivedSortedMap<ArchivedString, ArchivedString> as Portable>⟧.shape
        no_part) (variant (part ⟦<u8 as Portable>⟧.shape no_part)
        (variant (part ⟦<u8 as Portable>⟧.shape no_part)
        (variant (part ⟦<ArchivedVec<ArchivedTuple2<ArchivedString, u8>> as Portable>⟧.shape
        no_part) (variant (part ⟦<u8 as Portable>⟧.shape no_part)
        (variant (part ⟦<u8 as Portable>⟧.shape no_part)
        (variant (part ⟦<u8 as Portable>⟧.shape no_part)
        (variant (part ⟦<u8 as Portable>⟧.shape no_part) no_variant)))))))))))
        (⟦<Notice as Archive>⟧.keys v) (⟦<Notice as Archive>⟧.meaning v) (planned_of_notice v) };

    #[inline(always)]
    fn archived_metadata(&self) -> Result<(), Error> {
        Ok(())
    }
}

impl<S: Writer + ResolverAlloc<Alloc = Global>> SerializeUnsized<S> for Notice {
    #[inline(always)]
    fn serialize_unsized(&self, serializer: &mut S) -> Result<usize, Error> {
        serialize_one(self, serializer)
    }
}

// The `Notice::File` of these values, one after another.
fn notice_file_of(values: NoticeFileOwned) -> Notice
    ensures meaning { ⟦<Notice as Archive>⟧.meaning result
        ≡ case 8 (value (⟦<u8 as Archive>⟧.meaning values.0)
        (value (⟦<String as Archive>⟧.meaning values.1.0)
        (value (⟦<OwnedArray<u8, 4> as Archive>⟧.meaning values.1.1.0) no_value))) }
    ensures keys { ⟦<Notice as Archive>⟧.keys result ≡ ⟦<u8 as Archive>⟧.keys values.0
        ++ (⟦<String as Archive>⟧.keys values.1.0 ++ (⟦<OwnedArray<u8, 4> as Archive>⟧.keys
        values.1.1.0 ++ [])) }
{
    let (a0, (a1, (a2, ()))) = values;
    Notice::File {
        member: a0,
        name: a1,
        digest: a2.into_array(),
    }
}

// The variant with this tag, which has no fields.
fn notice_without_fields(tag: u8) -> Notice
    requires below { tag < 17 }
    requires not_8 { tag ≢ 8 }
    requires not_9 { tag ≢ 9 }
    requires not_10 { tag ≢ 10 }
    requires not_11 { tag ≢ 11 }
    requires not_12 { tag ≢ 12 }
    requires not_13 { tag ≢ 13 }
    requires not_14 { tag ≢ 14 }
    requires not_15 { tag ≢ 15 }
    requires not_16 { tag ≢ 16 }
    ensures variant { variant_in ⟦<ArchivedNotice as Portable>⟧.shape tag ≡ Some no_part }
    ensures meaning { ⟦<Notice as Archive>⟧.meaning result ≡ case tag no_value }
    ensures keys { ⟦<Notice as Archive>⟧.keys result ≡ [] }
{
    match tag {
        0 => Notice::Closed,
        1 => Notice::Opened,
        2 => Notice::Paused,
        3 => Notice::Resumed,
        4 => Notice::Locked,
        5 => Notice::Unlocked,
        6 => Notice::Muted,
        _ => Notice::Unmuted,
    }
}

impl<D: Entries> Deserialize<Notice, D> for ArchivedNotice {
    #[inline(always)]
    fn deserialize_part(
        alloc: Global,
        part: RawView<'_>,
        deserializer: &mut D,
    ) -> Result<Notice, Error>
        requires { IsPartOf ⟦<Self as ArchivePointee>⟧ part }
        ensures { ReadsAs ⟦<Self as ArchivePointee>⟧ part D.Entries deserializer
            ⟦<Notice as Archive>⟧ result }
    {
        match known_tag::<Self>(part) {
            8 => ArchivedNotice::read_variant_8(alloc, part, deserializer),
            9 => ArchivedNotice::read_variant_9(alloc, part, deserializer),
            10 => ArchivedNotice::read_variant_10(alloc, part, deserializer),
            11 => ArchivedNotice::read_variant_11(alloc, part, deserializer),
            12 => ArchivedNotice::read_variant_12(alloc, part, deserializer),
            13 => ArchivedNotice::read_variant_13(alloc, part, deserializer),
            14 => ArchivedNotice::read_variant_14(alloc, part, deserializer),
            15 => ArchivedNotice::read_variant_15(alloc, part, deserializer),
            16 => ArchivedNotice::read_variant_16(alloc, part, deserializer),
            tag => {
                let value = notice_without_fields(tag);
                match read_case::<Self, (), (), D>(tag, alloc, part, deserializer) {
                    Ok(()) => Ok(value),
                    Err(error) => Err(error),
                }
            }
        }
    }
}

/// What a view of an archived `Notice` shows, by its tag.
#[derive(Drop)]
pub enum ViewOfNotice<'a> {
    /// The room is closed.
    Closed,
    /// It is open.
    Opened,
    /// Nobody may speak.
    Paused,
    /// All may speak again.
    Resumed,
    /// Nobody may come in.
    Locked,
    /// All may come in again.
    Unlocked,
    /// No sound is heard.
    Muted,
    /// Sounds are heard again.
    Unmuted,
    /// A file, and its digest.
    File {
        /// The field `member`.
        member: Ref<'a, u8>,
        /// The field `name`.
        name: Ref<'a, ArchivedString>,
        /// The field `digest`.
        digest: Ref<'a, [u8; 4]>,
    },
    /// What is set.
    Settings(Ref<'a, ArchivedSortedMap<ArchivedString, ArchivedString>>),
    /// A member came.
    Joined(Ref<'a, u8>),
    /// A member went.
    Left(Ref<'a, u8>),
    /// How often each was chosen.
    Result(Ref<'a, ArchivedVec<ArchivedTuple2<ArchivedString, u8>>>),
    /// A member may speak.
    Called(Ref<'a, u8>),
    /// A seat is taken.
    Seated(Ref<'a, u8>),
    /// A seat is free.
    Freed(Ref<'a, u8>),
    /// How many are there.
    Counted(Ref<'a, u8>),
}

/// The variant of an archived `Notice`, as a view.
pub trait NoticeView<'a> {
    /// The variant that the tag names, with views of its fields.
    fn variant(self) -> ViewOfNotice<'a>;
}

impl<'a> NoticeView<'a> for Ref<'a, ArchivedNotice> {
    ghost use Rattle.derived_plain.specs.declared.notice.ViewOfNotice.TheVariants.{Called as NoticeCalledShown, Closed as NoticeClosedShown, Counted as NoticeCountedShown, File as NoticeFileShown, Freed as NoticeFreedShown, Joined as NoticeJoinedShown, Left as NoticeLeftShown, Locked as NoticeLockedShown, Muted as NoticeMutedShown, Opened as NoticeOpenedShown, Paused as NoticePausedShown, Result as NoticeResultShown, Resumed as NoticeResumedShown, Seated as NoticeSeatedShown, Settings as NoticeSettingsShown, Unlocked as NoticeUnlockedShown, Unmuted as NoticeUnmutedShown};

    fn variant(self) -> ViewOfNotice<'a>
        ensures shows { elim result [
          | NoticeClosedShown ↦ (tag_of self.entry ≡ 0)
          | NoticeOpenedShown ↦ (tag_of self.entry ≡ 1)
          | NoticePausedShown ↦ (tag_of self.entry ≡ 2)
          | NoticeResumedShown ↦ (tag_of self.entry ≡ 3)
          | NoticeLockedShown ↦ (tag_of self.entry ≡ 4)
          | NoticeUnlockedShown ↦ (tag_of self.entry ≡ 5)
          | NoticeMutedShown ↦ (tag_of self.entry ≡ 6)
          | NoticeUnmutedShown ↦ (tag_of self.entry ≡ 7)
          | NoticeFileShown a0 a1 a2 ↦ (tag_of self.entry ≡ 8)
              × (a0.bytes.now ≡ self.entry.bytes.now) × (a0.pos ≡ self.entry.pos + 1) × (a0.len ≡ 0)
              × ShowsValueOf a0 self.entry (payload_in 0) × (a1.bytes.now ≡ self.entry.bytes.now)
              × (a1.pos ≡ self.entry.pos + 4) × (a1.len ≡ 0)
              × ShowsValueOf a1 self.entry (payload_in 1) × (a2.bytes.now ≡ self.entry.bytes.now)
              × (a2.pos ≡ self.entry.pos + 12) × (a2.len ≡ 0)
              × ShowsValueOf a2 self.entry (payload_in 2)
          | NoticeSettingsShown a0 ↦ (tag_of self.entry ≡ 9) × (a0.bytes.now ≡ self.entry.bytes.now)
              × (a0.pos ≡ self.entry.pos + 4) × (a0.len ≡ 0)
              × ShowsValueOf a0 self.entry (payload_in 0)
          | NoticeJoinedShown a0 ↦ (tag_of self.entry ≡ 10) × (a0.bytes.now ≡ self.entry.bytes.now)
              × (a0.pos ≡ self.entry.pos + 1) × (a0.len ≡ 0)
              × ShowsValueOf a0 self.entry (payload_in 0)
          | NoticeLeftShown a0 ↦ (tag_of self.entry ≡ 11) × (a0.bytes.now ≡ self.entry.bytes.now)
              × (a0.pos ≡ self.entry.pos + 1) × (a0.len ≡ 0)
              × ShowsValueOf a0 self.entry (payload_in 0)
          | NoticeResultShown a0 ↦ (tag_of self.entry ≡ 12) × (a0.bytes.now ≡ self.entry.bytes.now)
              × (a0.pos ≡ self.entry.pos + 4) × (a0.len ≡ 0)
              × ShowsValueOf a0 self.entry (payload_in 0)
          | NoticeCalledShown a0 ↦ (tag_of self.entry ≡ 13) × (a0.bytes.now ≡ self.entry.bytes.now)
              × (a0.pos ≡ self.entry.pos + 1) × (a0.len ≡ 0)
              × ShowsValueOf a0 self.entry (payload_in 0)
          | NoticeSeatedShown a0 ↦ (tag_of self.entry ≡ 14) × (a0.bytes.now ≡ self.entry.bytes.now)
              × (a0.pos ≡ self.entry.pos + 1) × (a0.len ≡ 0)
              × ShowsValueOf a0 self.entry (payload_in 0)
          | NoticeFreedShown a0 ↦ (tag_of self.entry ≡ 15) × (a0.bytes.now ≡ self.entry.bytes.now)
              × (a0.pos ≡ self.entry.pos + 1) × (a0.len ≡ 0)
              × ShowsValueOf a0 self.entry (payload_in 0)
          | NoticeCountedShown a0 ↦ (tag_of self.entry ≡ 16) × (a0.bytes.now ≡ self.entry.bytes.now)
              × (a0.pos ≡ self.entry.pos + 1) × (a0.len ≡ 0)
              × ShowsValueOf a0 self.entry (payload_in 0)
        ] }
    {
        match tag_in(self) {
            0 => ViewOfNotice::Closed,
            1 => ViewOfNotice::Opened,
            2 => ViewOfNotice::Paused,
            3 => ViewOfNotice::Resumed,
            4 => ViewOfNotice::Locked,
            5 => ViewOfNotice::Unlocked,
            6 => ViewOfNotice::Muted,
            7 => ViewOfNotice::Unmuted,
            8 => ViewOfNotice::File {
                member: part_in_case::<ArchivedNotice, u8>(self, 8, 0, 1),
                name: part_in_case::<ArchivedNotice, ArchivedString>(self, 8, 1, 4),
                digest: part_in_case::<ArchivedNotice, [u8; 4]>(self, 8, 2, 12),
            },
            9 => {
                let a0 = part_in_case::<
                    ArchivedNotice,
                    ArchivedSortedMap<ArchivedString, ArchivedString>,
                >(self, 9, 0, 4);
                ViewOfNotice::Settings(a0)
            }
            10 => ViewOfNotice::Joined(part_in_case::<ArchivedNotice, u8>(self, 10, 0, 1)),
            11 => ViewOfNotice::Left(part_in_case::<ArchivedNotice, u8>(self, 11, 0, 1)),
            12 => {
                let a0 = part_in_case::<
                    ArchivedNotice,
                    ArchivedVec<ArchivedTuple2<ArchivedString, u8>>,
                >(self, 12, 0, 4);
                ViewOfNotice::Result(a0)
            }
            13 => ViewOfNotice::Called(part_in_case::<ArchivedNotice, u8>(self, 13, 0, 1)),
            14 => ViewOfNotice::Seated(part_in_case::<ArchivedNotice, u8>(self, 14, 0, 1)),
            15 => ViewOfNotice::Freed(part_in_case::<ArchivedNotice, u8>(self, 15, 0, 1)),
            _ => ViewOfNotice::Counted(part_in_case::<ArchivedNotice, u8>(self, 16, 0, 1)),
        }
    }
}

/// The fields of an archived `Notice`, as seals. The caller must ensure that the tag is the variant's.
pub trait NoticeSeal<'a> {
    // The seal shows a part of a buffer that was checked.
    ghost sealed: { Self → Type 0 };

    // The tag that it shows.
    ghost tag: { Self → ℕ };

    /// The field `member` of `File`.
    fn file_member_mut(self) -> Seal<'a, u8>
        requires come_to { sealed self }
        requires tag { tag self ≡ 8 };

    /// The field `name` of `File`.
    fn file_name_mut(self) -> Seal<'a, ArchivedString>
        requires come_to { sealed self }
        requires tag { tag self ≡ 8 };

    /// The field `digest` of `File`.
    fn file_digest_mut(self) -> Seal<'a, [u8; 4]>
        requires come_to { sealed self }
        requires tag { tag self ≡ 8 };

    /// The field `0` of `Settings`.
    fn settings_0_mut(self) -> Seal<'a, ArchivedSortedMap<ArchivedString, ArchivedString>>
        requires come_to { sealed self }
        requires tag { tag self ≡ 9 };

    /// The field `0` of `Joined`.
    fn joined_0_mut(self) -> Seal<'a, u8>
        requires come_to { sealed self }
        requires tag { tag self ≡ 10 };

    /// The field `0` of `Left`.
    fn left_0_mut(self) -> Seal<'a, u8>
        requires come_to { sealed self }
        requires tag { tag self ≡ 11 };

    /// The field `0` of `Result`.
    fn result_0_mut(self) -> Seal<'a, ArchivedVec<ArchivedTuple2<ArchivedString, u8>>>
        requires come_to { sealed self }
        requires tag { tag self ≡ 12 };

    /// The field `0` of `Called`.
    fn called_0_mut(self) -> Seal<'a, u8>
        requires come_to { sealed self }
        requires tag { tag self ≡ 13 };

    /// The field `0` of `Seated`.
    fn seated_0_mut(self) -> Seal<'a, u8>
        requires come_to { sealed self }
        requires tag { tag self ≡ 14 };

    /// The field `0` of `Freed`.
    fn freed_0_mut(self) -> Seal<'a, u8>
        requires come_to { sealed self }
        requires tag { tag self ≡ 15 };

    /// The field `0` of `Counted`.
    fn counted_0_mut(self) -> Seal<'a, u8>
        requires come_to { sealed self }
        requires tag { tag self ≡ 16 };
}

impl<'a> NoticeSeal<'a> for Seal<'a, ArchivedNotice> {
    ghost sealed = { λ s. IsSealOf no_definition (one ⟦<ArchivedNotice as Portable>⟧.shape) s };

    ghost tag = { λ s. seal_tag s };

    fn file_member_mut(self) -> Seal<'a, u8>
        requires come_to { IsSealOf no_definition (one ⟦<ArchivedNotice as Portable>⟧.shape) self }
        requires tag { seal_tag self ≡ 8 }
        ensures { SealsPart no_definition (one ⟦<ArchivedNotice as Portable>⟧.shape) no_definition
            ⟦<u8 as ArchivePointee>⟧.pointee (self.entry.pos + 1) 0 self.entry result }
    {
        sealed_part_in_case::<ArchivedNotice, u8>(self, 8, 0, 1)
    }

    fn file_name_mut(self) -> Seal<'a, ArchivedString>
        requires come_to { IsSealOf no_definition (one ⟦<ArchivedNotice as Portable>⟧.shape) self }
        requires tag { seal_tag self ≡ 8 }
        ensures { SealsPart no_definition (one ⟦<ArchivedNotice as Portable>⟧.shape) no_definition
            ⟦<ArchivedString as ArchivePointee>⟧.pointee (self.entry.pos + 4) 0 self.entry result }
    {
        sealed_part_in_case::<ArchivedNotice, ArchivedString>(self, 8, 1, 4)
    }

    fn file_digest_mut(self) -> Seal<'a, [u8; 4]>
        requires come_to { IsSealOf no_definition (one ⟦<ArchivedNotice as Portable>⟧.shape) self }
        requires tag { seal_tag self ≡ 8 }
        ensures { SealsPart no_definition (one ⟦<ArchivedNotice as Portable>⟧.shape) no_definition
            ⟦<[u8; 4] as ArchivePointee>⟧.pointee (self.entry.pos + 12) 0 self.entry result }
    {
        sealed_part_in_case::<ArchivedNotice, [u8; 4]>(self, 8, 2, 12)
    }

    fn settings_0_mut(self) -> Seal<'a, ArchivedSortedMap<ArchivedString, ArchivedString>>
        requires come_to { IsSealOf no_definition (one ⟦<ArchivedNotice as Portable>⟧.shape) self }
        requires tag { seal_tag self ≡ 9 }
        ensures { SealsPart no_definition (one ⟦<ArchivedNotice as Portable>⟧.shape)
            (both no_definition (both no_definition no_definition))
            ⟦<ArchivedSortedMap<ArchivedString, ArchivedString> as ArchivePointee>⟧.pointee
            (self.entry.pos + 4) 0 self.entry result }
    {
        sealed_part_in_case::<ArchivedNotice, ArchivedSortedMap<ArchivedString, ArchivedString>>(
            self, 9, 0, 4,
        )
    }

    fn joined_0_mut(self) -> Seal<'a, u8>
        requires come_to { IsSealOf no_definition (one ⟦<ArchivedNotice as Portable>⟧.shape) self }
        requires tag { seal_tag self ≡ 10 }
        ensures { SealsPart no_definition (one ⟦<ArchivedNotice as Portable>⟧.shape) no_definition
            ⟦<u8 as ArchivePointee>⟧.pointee (self.entry.pos + 1) 0 self.entry result }
    {
        sealed_part_in_case::<ArchivedNotice, u8>(self, 10, 0, 1)
    }

    fn left_0_mut(self) -> Seal<'a, u8>
        requires come_to { IsSealOf no_definition (one ⟦<ArchivedNotice as Portable>⟧.shape) self }
        requires tag { seal_tag self ≡ 11 }
        ensures { SealsPart no_definition (one ⟦<ArchivedNotice as Portable>⟧.shape) no_definition
            ⟦<u8 as ArchivePointee>⟧.pointee (self.entry.pos + 1) 0 self.entry result }
    {
        sealed_part_in_case::<ArchivedNotice, u8>(self, 11, 0, 1)
    }

    fn result_0_mut(self) -> Seal<'a, ArchivedVec<ArchivedTuple2<ArchivedString, u8>>>
        requires come_to { IsSealOf no_definition (one ⟦<ArchivedNotice as Portable>⟧.shape) self }
        requires tag { seal_tag self ≡ 12 }
        ensures { SealsPart no_definition (one ⟦<ArchivedNotice as Portable>⟧.shape)
            (both no_definition (both no_definition no_definition))
            ⟦<ArchivedVec<ArchivedTuple2<ArchivedString, u8>> as ArchivePointee>⟧.pointee
            (self.entry.pos + 4) 0 self.entry result }
    {
        sealed_part_in_case::<ArchivedNotice, ArchivedVec<ArchivedTuple2<ArchivedString, u8>>>(
            self, 12, 0, 4,
        )
    }

    fn called_0_mut(self) -> Seal<'a, u8>
        requires come_to { IsSealOf no_definition (one ⟦<ArchivedNotice as Portable>⟧.shape) self }
        requires tag { seal_tag self ≡ 13 }
        ensures { SealsPart no_definition (one ⟦<ArchivedNotice as Portable>⟧.shape) no_definition
            ⟦<u8 as ArchivePointee>⟧.pointee (self.entry.pos + 1) 0 self.entry result }
    {
        sealed_part_in_case::<ArchivedNotice, u8>(self, 13, 0, 1)
    }

    fn seated_0_mut(self) -> Seal<'a, u8>
        requires come_to { IsSealOf no_definition (one ⟦<ArchivedNotice as Portable>⟧.shape) self }
        requires tag { seal_tag self ≡ 14 }
        ensures { SealsPart no_definition (one ⟦<ArchivedNotice as Portable>⟧.shape) no_definition
            ⟦<u8 as ArchivePointee>⟧.pointee (self.entry.pos + 1) 0 self.entry result }
    {
        sealed_part_in_case::<ArchivedNotice, u8>(self, 14, 0, 1)
    }

    fn freed_0_mut(self) -> Seal<'a, u8>
        requires come_to { IsSealOf no_definition (one ⟦<ArchivedNotice as Portable>⟧.shape) self }
        requires tag { seal_tag self ≡ 15 }
        ensures { SealsPart no_definition (one ⟦<ArchivedNotice as Portable>⟧.shape) no_definition
            ⟦<u8 as ArchivePointee>⟧.pointee (self.entry.pos + 1) 0 self.entry result }
    {
        sealed_part_in_case::<ArchivedNotice, u8>(self, 15, 0, 1)
    }

    fn counted_0_mut(self) -> Seal<'a, u8>
        requires come_to { IsSealOf no_definition (one ⟦<ArchivedNotice as Portable>⟧.shape) self }
        requires tag { seal_tag self ≡ 16 }
        ensures { SealsPart no_definition (one ⟦<ArchivedNotice as Portable>⟧.shape) no_definition
            ⟦<u8 as ArchivePointee>⟧.pointee (self.entry.pos + 1) 0 self.entry result }
    {
        sealed_part_in_case::<ArchivedNotice, u8>(self, 16, 0, 1)
    }
}
