//! Notes: a recursive enum with a map, and with tuples that lead back to it, in the manner of JSON.

use std::collections::BTreeMap;

/// What was noted.
#[derive(Drop)]
pub enum Note {
    /// A text.
    Text(String),
    /// Hours of work, by the day.
    Work(BTreeMap<u16, i8>),
    /// Notes with names, and who wrote each, if that is known.
    Table(Vec<(String, Note, Option<String>)>),
    /// Whether it is done.
    Done(bool),
    /// The days of it.
    Days(Vec<u16>),
    /// One of which something is noted.
    About(Box<Note>),
    /// One, or else another.
    Either(Box<Note>, Box<Note>),
    /// One after another.
    Several(Vec<Note>),
}

// Below this line all is written by tools/derive: change what is above it, and run it again.

ghost use Rattle.archive_core.specs.CallOutcomes.{ResolvesAs};
ghost use Rattle.archive_core.specs.Causes.{HindersAt, IsRefused};
ghost use Rattle.archive_core.specs.Definitions.{both, no_definition};
ghost use Rattle.archive_core.specs.Expressed.{ExpressesParts, ExpressesVariants};
ghost use Rattle.archive_core.specs.Layout.{up};
ghost use Rattle.archive_core.specs.LeafLayout.{no_definition_reached};
ghost use Rattle.archive_core.specs.NoOthers.{no_parts_reached, part_reached};
ghost use Rattle.archive_core.specs.OwnChoices.{variant_definitions};
ghost use Rattle.archive_core.specs.PartsLayout.{first_or, no_part_laid_out, no_part_sized, part_laid_out, part_sized, within_at, within_over};
ghost use Rattle.archive_core.specs.Payloads.{payload_in};
ghost use Rattle.archive_core.specs.PlannedOwners.{one_planned};
ghost use Rattle.archive_core.specs.Plans.{Serialized};
ghost use Rattle.archive_core.specs.ReadBack.{Read, ReadsAs};
ghost use Rattle.archive_core.specs.Runs.{EachBelongs, IsRunRefused, SerializedRun, each_flat, each_keys, each_meaning};
ghost use Rattle.archive_core.specs.SealOutcomes.{IsSealOf, SealsPart, seal_tag};
ghost use Rattle.archive_core.specs.Seen.{IsPartOf, ReadsPart, RefusesPart, ShowsValueOf, part_tag, tag_of};
ghost use Rattle.archive_core.specs.SelfCheck.Laws.{by_schema};
ghost use Rattle.archive_core.specs.SelfCheck.Owners.{one_reaches, vec_reaches};
ghost use Rattle.archive_core.specs.SelfCheck.Regions.{no_lower, rises_over};
ghost use Rattle.archive_core.specs.Shape.{boxed, no_part, no_variant, one, part, parts, variant, variant_at, vec};
ghost use Rattle.archive_core.specs.Value.{case, list, no_value, value};
ghost use Rattle.archive_core.specs.VariantsHeld.{no_payload_sized, no_payload_within, payload_sized, payload_within};
ghost use Rattle.archive_core.specs.VariantsLayout.{no_variant_laid_out, no_variants_reached, variant_laid_out, variant_reached};
ghost use Rattle.archive_core.specs.Writing.{Resolves, ZeroedPlace};
ghost use Rattle.archive_core.specs.Written.{GoesOn};
ghost use Rattle.recursive_fields.specs.NoteMeaning.{tuple3_string_note_option_string_keys, tuple3_string_note_option_string_meaning};
ghost use Rattle.recursive_fields.specs.NoteShape.{note_about_definitions, note_about_parts, note_days_definitions, note_days_parts, note_definitions, note_done_parts, note_either_definitions, note_either_parts, note_has_layout, note_has_variants, note_is_align, note_layout, note_name, note_no_others, note_several_definitions, note_several_parts, note_shape, note_table_parts, note_text_parts, note_variant_definitions, note_variants, note_work_parts, tuple3_string_note_option_string_definitions, tuple3_string_note_option_string_has_layout, tuple3_string_note_option_string_has_parts, tuple3_string_note_option_string_is_align, tuple3_string_note_option_string_layout, tuple3_string_note_option_string_no_others, tuple3_string_note_option_string_parts, tuple3_string_note_option_string_shape};
ghost use Rattle.std.proofs.Common.{inl, inr, lit≤};
ghost use Rattle.std.specs.Prelude.{IfErr, IfOk, None, OnOk, Some, [], length, refl, ℕ, ◌++◌, ◌+◌, ◌<◌, ◌≡◌, ◌≤◌};

use archive_core::boxed::{ArchivedBox, BoxResolver};
use archive_core::core_impls::ArchivedTuple3;
use archive_core::error::Error;
use archive_core::fields::{resolve_1, resolve_2};
use archive_core::map::ArchivedSortedMap;
use archive_core::option::ArchivedOption;
use archive_core::place::Place;
use archive_core::primitive::ArchivedU16;
use archive_core::recursive::{
    BoxAt, VecAt, before_box, before_vec, boxed_expression, define_choice, expression_of,
    first_expression, first_variant, handed_on, named_expression, no_expressions, no_variants,
    part_of_record, part_of_variant, read_part, record_expression, seal_of_payload,
    serialize_inner, serialize_part, serialize_run, tag_of_choice, tag_of_view, vec_expression,
    view_of_payload,
};
use archive_core::seal::Seal;
use archive_core::self_check::{BySchema, CheckedVariants};
use archive_core::ser::{ResolverAlloc, Writer, serialize_one};
use archive_core::shape::Defs;
use archive_core::string::ArchivedString;
use archive_core::traits::{
    Archive, ArchivePointee, ArchiveUnsized, Choice, CopyOptimization, Deserialize, Entries, Keys,
    Portable, PortableParts, PortableVariants, Record, Serialize, SerializeUnsized, expr_of_record,
};
use archive_core::validation::ArchiveContext;
use archive_core::vec::{ArchivedVec, VecResolver};
use archive_core::view::{RawView, Ref};
use std::alloc::{AllocError, Global};

/// An archived `Note`: 12 bytes at a multiple of 4. It is validated by its schema.
pub struct ArchivedNote;

type NoteTextParts = (ArchivedString, ());

type NoteWorkParts = (ArchivedSortedMap<ArchivedU16, i8>, ());

type NoteTableParts = (ArchivedVec<Tuple3StringNoteOptionString>, ());

type NoteDoneParts = (bool, ());

type NoteDaysParts = (ArchivedVec<ArchivedU16>, ());

type NoteAboutParts = (ArchivedBox<ArchivedNote>, ());

type NoteEitherParts = (ArchivedBox<ArchivedNote>, (ArchivedBox<ArchivedNote>, ()));

type NoteSeveralParts = (ArchivedVec<ArchivedNote>, ());

type NoteVariants = (
    NoteTextParts,
    (NoteWorkParts, (NoteTableParts, (NoteDoneParts, NoteRest1))),
);

impl ArchivePointee for ArchivedNote {
    type ArchivedMetadata = ();

    ghost pointee = { one note_shape };

    ghost definitions = { note_definitions };

    ghost metadata_length = { λ _. 0 };

    fn pointer_metadata(_metadata: &()) -> usize {
        0
    }
}

/// `ArchivedTuple3<ArchivedString, ArchivedNote, ArchivedOption<ArchivedString>>` by a name, for the functions below.
pub struct Tuple3StringNoteOptionString;

type Tuple3StringNoteOptionStringParts = (
    ArchivedString,
    (ArchivedNote, (ArchivedOption<ArchivedString>, ())),
);

impl ArchivePointee for Tuple3StringNoteOptionString {
    type ArchivedMetadata = ();

    ghost pointee = { one tuple3_string_note_option_string_shape };

    ghost definitions = { tuple3_string_note_option_string_definitions };

    ghost metadata_length = { λ _. 0 };

    fn pointer_metadata(_metadata: &()) -> usize {
        0
    }
}

impl Portable for Tuple3StringNoteOptionString {
    ghost shape = { tuple3_string_note_option_string_shape };

    ghost layout = { tuple3_string_note_option_string_layout };

    type Check = BySchema;

    ghost is_one = { refl };

    ghost is_align = { tuple3_string_note_option_string_is_align };

    ghost has_layout = { tuple3_string_note_option_string_has_layout };

    ghost no_others = { tuple3_string_note_option_string_no_others };

    ghost checks = { λ direct. by_schema direct };

    fn size() -> usize {
        32
    }

    fn align() -> usize {
        4
    }

    fn expr(alloc: Global) -> Result<archive_core::shape::Expr, Error> {
        expr_of_record::<Tuple3StringNoteOptionStringParts>(alloc)
    }

    fn define(alloc: Global, defs: &mut Defs) -> Result<(), Error> {
        <Tuple3StringNoteOptionStringParts as PortableParts>::define(alloc, defs)
    }
}

impl Record for Tuple3StringNoteOptionString {
    type Parts = Tuple3StringNoteOptionStringParts;

    ghost has_parts = { tuple3_string_note_option_string_has_parts };

    ghost holds = { lit≤ tt };
}

// The parts of a tuple.
fn tuple3_string_note_option_string_expressions(
    alloc: Global,
) -> Result<Vec<archive_core::shape::Expr>, AllocError>
    ensures { ExpressesParts tuple3_string_note_option_string_parts result }
{
    let rest3 = no_expressions(alloc);
    let rest2 = first_expression(
        expression_of::<ArchivedOption<ArchivedString>>(alloc),
        rest3,
    );
    let rest1 = first_expression(named_expression("ArchivedNote"), rest2);
    first_expression(expression_of::<ArchivedString>(alloc), rest1)
}

// The parts of `Text`.
fn note_text_expressions(alloc: Global) -> Result<Vec<archive_core::shape::Expr>, AllocError>
    ensures { ExpressesParts note_text_parts result }
{
    let rest1 = no_expressions(alloc);
    first_expression(expression_of::<ArchivedString>(alloc), rest1)
}

// The parts of `Work`.
fn note_work_expressions(alloc: Global) -> Result<Vec<archive_core::shape::Expr>, AllocError>
    ensures { ExpressesParts note_work_parts result }
{
    let rest1 = no_expressions(alloc);
    first_expression(
        expression_of::<ArchivedSortedMap<ArchivedU16, i8>>(alloc),
        rest1,
    )
}

// The parts of `Table`.
fn note_table_expressions(alloc: Global) -> Result<Vec<archive_core::shape::Expr>, AllocError>
    ensures { ExpressesParts note_table_parts result }
{
    let rest1 = no_expressions(alloc);
    first_expression(
        vec_expression(
            alloc,
            record_expression(tuple3_string_note_option_string_expressions(alloc)),
        ),
        rest1,
    )
}

// The parts of `Done`.
fn note_done_expressions(alloc: Global) -> Result<Vec<archive_core::shape::Expr>, AllocError>
    ensures { ExpressesParts note_done_parts result }
{
    let rest1 = no_expressions(alloc);
    first_expression(expression_of::<bool>(alloc), rest1)
}

// The parts of `Days`.
fn note_days_expressions(alloc: Global) -> Result<Vec<archive_core::shape::Expr>, AllocError>
    ensures { ExpressesParts note_days_parts result }
{
    let rest1 = no_expressions(alloc);
    first_expression(expression_of::<ArchivedVec<ArchivedU16>>(alloc), rest1)
}

// The parts of `About`.
fn note_about_expressions(alloc: Global) -> Result<Vec<archive_core::shape::Expr>, AllocError>
    ensures { ExpressesParts note_about_parts result }
{
    let rest1 = no_expressions(alloc);
    first_expression(
        boxed_expression(alloc, named_expression("ArchivedNote")),
        rest1,
    )
}

// The parts of `Either`.
fn note_either_expressions(alloc: Global) -> Result<Vec<archive_core::shape::Expr>, AllocError>
    ensures { ExpressesParts note_either_parts result }
{
    let rest2 = no_expressions(alloc);
    let rest1 = first_expression(
        boxed_expression(alloc, named_expression("ArchivedNote")),
        rest2,
    );
    first_expression(
        boxed_expression(alloc, named_expression("ArchivedNote")),
        rest1,
    )
}

// The parts of `Several`.
fn note_several_expressions(alloc: Global) -> Result<Vec<archive_core::shape::Expr>, AllocError>
    ensures { ExpressesParts note_several_parts result }
{
    let rest1 = no_expressions(alloc);
    first_expression(
        vec_expression(alloc, named_expression("ArchivedNote")),
        rest1,
    )
}

// Its variants.
fn note_expressions(alloc: Global) -> Result<Vec<Vec<archive_core::shape::Expr>>, AllocError>
    ensures { ExpressesVariants note_variants result }
{
    let rest8 = no_variants(alloc);
    let rest7 = first_variant(note_several_expressions(alloc), rest8);
    let rest6 = first_variant(note_either_expressions(alloc), rest7);
    let rest5 = first_variant(note_about_expressions(alloc), rest6);
    let rest4 = first_variant(note_days_expressions(alloc), rest5);
    let rest3 = first_variant(note_done_expressions(alloc), rest4);
    let rest2 = first_variant(note_table_expressions(alloc), rest3);
    let rest1 = first_variant(note_work_expressions(alloc), rest2);
    first_variant(note_text_expressions(alloc), rest1)
}

impl Portable for ArchivedNote {
    ghost shape = { note_shape };

    ghost layout = { note_layout };

    type Check = BySchema;

    ghost is_one = { refl };

    ghost is_align = { note_is_align };

    ghost has_layout = { note_has_layout };

    ghost no_others = { note_no_others };

    ghost checks = { λ direct. by_schema direct };

    fn size() -> usize {
        12
    }

    fn align() -> usize {
        4
    }

    fn expr(_alloc: Global) -> Result<archive_core::shape::Expr, Error> {
        Ok(archive_core::shape::Expr::Named("ArchivedNote"))
    }

    fn define(alloc: Global, defs: &mut Defs) -> Result<(), Error> {
        define_choice("ArchivedNote", note_expressions(alloc), defs)
    }
}

/// The variants of `Note` from `Days` on, as one type: it has no values.
pub struct NoteRest1;

type NoteBlock1 = (
    NoteDaysParts,
    (NoteAboutParts, (NoteEitherParts, (NoteSeveralParts, ()))),
);

impl CheckedVariants for NoteRest1 {
    ghost variants = { ⟦<NoteBlock1 as CheckedVariants>⟧.variants };

    ghost definitions = { ⟦<NoteBlock1 as CheckedVariants>⟧.definitions };

    ghost end = { ⟦<NoteBlock1 as CheckedVariants>⟧.end };

    ghost direct = { ⟦<NoteBlock1 as CheckedVariants>⟧.direct };

    fn are_direct() -> bool {
        <NoteBlock1 as CheckedVariants>::are_direct()
    }

    #[inline(always)]
    fn check_variant<C: ArchiveContext>(
        bytes: &[u8],
        base: usize,
        tag: usize,
        refusal: &mut Error,
        context: &mut C,
    ) -> Option<bool> {
        <NoteBlock1 as CheckedVariants>::check_variant(bytes, base, tag, refusal, context)
    }
}

impl PortableVariants for NoteRest1 {
    ghost greatest = { ⟦<NoteBlock1 as PortableVariants>⟧.greatest };

    ghost begin = { ⟦<NoteBlock1 as PortableVariants>⟧.begin };

    ghost size_at = { ⟦<NoteBlock1 as PortableVariants>⟧.size_at };

    ghost is_align = { inr (inr (inl refl)) };

    ghost laid_out = { variant_laid_out _ _ _ _ _ _ (part_laid_out no_definition _
        ⟦<ArchivedVec<ArchivedU16> as Portable>⟧.shape (record { size = 8; align = 4 }) (record {
          solved = λ s k. refl;
        }) _ _ _ _ no_part_laid_out) _ _ _ _ (variant_laid_out _ _ _ _ _ _
        (part_laid_out ⟦<ArchivedNote as ArchivePointee>⟧.definitions _
        ⟦<ArchivedBox<ArchivedNote> as Portable>⟧.shape (record { size = 4; align = 4 }) (record {
          solved = λ s k. refl;
        }) _ _ _ _ no_part_laid_out) _ _ _ _ (variant_laid_out _ _ _ _ _ _
        (part_laid_out ⟦<ArchivedNote as ArchivePointee>⟧.definitions _
        ⟦<ArchivedBox<ArchivedNote> as Portable>⟧.shape (record { size = 4; align = 4 }) (record {
          solved = λ s k. refl;
        }) _ _ _ _ (part_laid_out ⟦<ArchivedNote as ArchivePointee>⟧.definitions _
        ⟦<ArchivedBox<ArchivedNote> as Portable>⟧.shape (record { size = 4; align = 4 }) (record {
          solved = λ s k. refl;
        }) _ _ _ _ no_part_laid_out)) _ _ _ _ (variant_laid_out _ _ _ _ _ _
        (part_laid_out ⟦<ArchivedNote as ArchivePointee>⟧.definitions _
        ⟦<ArchivedVec<ArchivedNote> as Portable>⟧.shape (record { size = 8; align = 4 }) (record {
          solved = λ s k. refl;
        }) _ _ _ _ no_part_laid_out) _ _ _ _ no_variant_laid_out))) };

    ghost no_others = { variant_reached note_days_definitions
        (both note_about_definitions (both note_either_definitions
        (both note_several_definitions no_definition))) note_days_parts
        (variant note_about_parts (variant note_either_parts
        (variant note_several_parts no_variant))) (part_reached no_definition no_definition
        ⟦<ArchivedVec<ArchivedU16> as Portable>⟧.shape no_part
        (no_definition_reached ⟦<ArchivedVec<ArchivedU16> as Portable>⟧.shape) no_parts_reached)
        (variant_reached note_about_definitions (both note_either_definitions
        (both note_several_definitions no_definition)) note_about_parts
        (variant note_either_parts (variant note_several_parts no_variant))
        (part_reached ⟦<ArchivedNote as ArchivePointee>⟧.definitions no_definition
        ⟦<ArchivedBox<ArchivedNote> as Portable>⟧.shape no_part
        (one_reaches ⟦<ArchivedNote as ArchivePointee>⟧.definitions
        ⟦<ArchivedNote as Portable>⟧.shape note_no_others (one ⟦<ArchivedNote as Portable>⟧.shape)
        refl) no_parts_reached) (variant_reached note_either_definitions
        (both note_several_definitions no_definition) note_either_parts
        (variant note_several_parts no_variant) (part_reached
        ⟦<ArchivedNote as ArchivePointee>⟧.definitions (both
        ⟦<ArchivedNote as ArchivePointee>⟧.definitions no_definition)
        ⟦<ArchivedBox<ArchivedNote> as Portable>⟧.shape
        (part ⟦<ArchivedBox<ArchivedNote> as Portable>⟧.shape no_part)
        (one_reaches ⟦<ArchivedNote as ArchivePointee>⟧.definitions
        ⟦<ArchivedNote as Portable>⟧.shape note_no_others (one ⟦<ArchivedNote as Portable>⟧.shape)
        refl) (part_reached ⟦<ArchivedNote as ArchivePointee>⟧.definitions no_definition
        ⟦<ArchivedBox<ArchivedNote> as Portable>⟧.shape no_part
        (one_reaches ⟦<ArchivedNote as ArchivePointee>⟧.definitions
        ⟦<ArchivedNote as Portable>⟧.shape note_no_others (one ⟦<ArchivedNote as Portable>⟧.shape)
        refl) no_parts_reached)) (variant_reached note_several_definitions no_definition
        note_several_parts no_variant (part_reached ⟦<ArchivedNote as ArchivePointee>⟧.definitions
        no_definition ⟦<ArchivedVec<ArchivedNote> as Portable>⟧.shape no_part
        (vec_reaches ⟦<ArchivedNote as ArchivePointee>⟧.definitions
        ⟦<ArchivedNote as Portable>⟧.shape note_no_others) no_parts_reached)
        no_variants_reached))) };

    ghost sized = { payload_sized note_days_definitions
        (both note_about_definitions (both note_either_definitions
        (both note_several_definitions no_definition))) note_days_parts _
        (part_sized no_definition no_definition ⟦<ArchivedVec<ArchivedU16> as Portable>⟧.shape
        (record { size = 8; align = 4 }) (record { solved = λ s k. refl }) no_part (λ i. 0)
        no_part_sized) (variant note_about_parts (variant note_either_parts
        (variant note_several_parts no_variant))) _ (payload_sized note_about_definitions
        (both note_either_definitions (both note_several_definitions no_definition))
        note_about_parts _ (part_sized ⟦<ArchivedNote as ArchivePointee>⟧.definitions no_definition
        ⟦<ArchivedBox<ArchivedNote> as Portable>⟧.shape (record { size = 4; align = 4 }) (record {
          solved = λ s k. refl;
        }) no_part (λ i. 0) no_part_sized) (variant note_either_parts
        (variant note_several_parts no_variant)) _ (payload_sized note_either_definitions
        (both note_several_definitions no_definition) note_either_parts _
        (part_sized ⟦<ArchivedNote as ArchivePointee>⟧.definitions
        (both ⟦<ArchivedNote as ArchivePointee>⟧.definitions no_definition)
        ⟦<ArchivedBox<ArchivedNote> as Portable>⟧.shape (record { size = 4; align = 4 }) (record {
          solved = λ s k. refl;
        }) (part ⟦<ArchivedBox<ArchivedNote> as Portable>⟧.shape no_part) (first_or 4 (λ i. 0))
        (part_sized ⟦<ArchivedNote as ArchivePointee>⟧.definitions no_definition
        ⟦<ArchivedBox<ArchivedNote> as Portable>⟧.shape (record { size = 4; align = 4 }) (record {
          solved = λ s k. refl;
        }) no_part (λ i. 0) no_part_sized)) (variant note_several_parts no_variant) _
        (payload_sized note_several_definitions no_definition note_several_parts _
        (part_sized ⟦<ArchivedNote as ArchivePointee>⟧.definitions no_definition
        ⟦<ArchivedVec<ArchivedNote> as Portable>⟧.shape (record { size = 8; align = 4 }) (record {
          solved = λ s k. refl;
        }) no_part (λ i. 0) no_part_sized) no_variant _ no_payload_sized))) };

    ghost within = { payload_within _ _ _ (within_over (up 1 4) 8 _ _ _ no_lower within_at) _ _ _
        (payload_within _ _ _ (within_over (up 1 4) 4 _ _ _ no_lower within_at) _ _ _
        (payload_within _ _ _ (within_over (up 1 4) 4 _ _ _
        (λ n. rises_over n 4 4 (inr (inr (inl refl))) _ no_lower)
        (λ n. within_over (up n 4) 4 _ _ _ no_lower within_at)) _ _ _
        (payload_within _ _ _ (within_over (up 1 4) 8 _ _ _ no_lower within_at) _ _ _
        no_payload_within))) };

    fn align() -> usize {
        <NoteBlock1 as PortableVariants>::align()
    }

    #[inline(always)]
    fn longest_end() -> usize {
        <NoteBlock1 as PortableVariants>::longest_end()
    }

    #[inline(always)]
    fn payload_offset(tag: usize, i: usize) -> usize {
        <NoteBlock1 as PortableVariants>::payload_offset(tag, i)
    }

    fn push_variants(
        alloc: Global,
        list: &mut Vec<Vec<archive_core::shape::Expr>>,
    ) -> Result<(), Error> {
        <NoteBlock1 as PortableVariants>::push_variants(alloc, list)
    }

    fn define(alloc: Global, defs: &mut Defs) -> Result<(), Error> {
        <NoteBlock1 as PortableVariants>::define(alloc, defs)
    }
}

impl Choice for ArchivedNote {
    type Variants = NoteVariants;

    ghost name = { note_name };

    ghost has_variants = { note_has_variants };

    ghost holds = { lit≤ tt };
}

/// What is kept of `Note` between `serialize` and `resolve`.
#[derive(Drop)]
pub enum NoteResolver {
    /// Of `Text`.
    Text((<String as Archive>::Resolver, ())),
    /// Of `Work`.
    Work((<BTreeMap<u16, i8> as Archive>::Resolver, ())),
    /// Of `Table`.
    Table((VecResolver, ())),
    /// Of `Done`.
    Done((<bool as Archive>::Resolver, ())),
    /// Of `Days`.
    Days((<Vec<u16> as Archive>::Resolver, ())),
    /// Of `About`.
    About((BoxResolver, ())),
    /// Of `Either`.
    Either((BoxResolver, (BoxResolver, ()))),
    /// Of `Several`.
    Several((VecResolver, ())),
}

// Writes a variant of a field over zeros: its tag, and behind it the fields.
#[inline(always)]
fn resolve_note_1<A: Archive>(
    tag: u8,
    a: &A,
    resolvers: (A::Resolver, ()),
    place: Place<'_, ArchivedNote>,
) -> Result<(), Error>
    requires variant { variant_at note_variants tag ≡ Some (part A.Archived.shape no_part) }
    requires definitions { variant_definitions note_variant_definitions tag
        ≡ (both A.Archived.definitions no_definition) }
    requires inside { Unit {0} → (up 1 A.Archived.layout.align + A.Archived.layout.size) ≤ 12 }
    requires zeroed { ZeroedPlace 12 place.pos place.bytes.now }
    requires same_values { (A.belongs a.now resolvers.0 × Unit {0}) }
    ensures resolved { OnOk result (Resolves note_definitions place.entry.pos place.exit.0.now
        note_shape (case tag (value (A.flat a.now resolvers.0) no_value))) }
    ensures same_length { length place.exit.0.now ≡ length place.entry.bytes.now }
    ensures refused { IfErr result (HindersAt note_definitions note_shape
        (case tag (value (A.flat a.now resolvers.0) no_value)) place.entry.pos) }
{
    let Place { bytes, pos, .. } = place;
    bytes[0] = tag;
    resolve_1(a, resolvers, pos, 1, &mut bytes[1..])
}

// Writes a variant of 2 fields over zeros: its tag, and behind it the fields.
#[inline(always)]
fn resolve_note_2<A: Archive, B: Archive>(
    tag: u8,
    a: &A,
    b: &B,
    resolvers: (A::Resolver, (B::Resolver, ())),
    place: Place<'_, ArchivedNote>,
) -> Result<(), Error>
    requires variant { variant_at note_variants tag ≡ Some
        (part A.Archived.shape (part B.Archived.shape no_part)) }
    requires definitions { variant_definitions note_variant_definitions tag
        ≡ (both A.Archived.definitions (both B.Archived.definitions no_definition)) }
    requires inside { Unit {0} → (up (up 1 A.Archived.layout.align + A.Archived.layout.size)
        B.Archived.layout.align + B.Archived.layout.size) ≤ 12 }
    requires zeroed { ZeroedPlace 12 place.pos place.bytes.now }
    requires same_values { (A.belongs a.now resolvers.0
        × (B.belongs b.now resolvers.1.0 × Unit {0})) }
    ensures resolved { OnOk result (Resolves note_definitions place.entry.pos place.exit.0.now
        note_shape (case tag (value (A.flat a.now resolvers.0)
        (value (B.flat b.now resolvers.1.0) no_value)))) }
    ensures same_length { length place.exit.0.now ≡ length place.entry.bytes.now }
    ensures refused { IfErr result (HindersAt note_definitions note_shape
        (case tag (value (A.flat a.now resolvers.0) (value (B.flat b.now resolvers.1.0) no_value)))
        place.entry.pos) }
{
    let Place { bytes, pos, .. } = place;
    bytes[0] = tag;
    resolve_2(a, b, resolvers, pos, 1, &mut bytes[1..])
}

impl Archive for Note {
    ghost use Rattle.recursive_fields.specs.NoteMeaning.{note_meaning, note_flat, note_keys, note_belongs, note_keyed, note_planned};

    type Archived = ArchivedNote;

    type Resolver = NoteResolver;

    ghost meaning = { note_meaning };

    ghost flat = { note_flat };

    ghost keys = { note_keys };

    ghost belongs = { note_belongs };

    ghost in_bulk = { None };

    ghost keyed = { note_keyed };

    ghost planned = { note_planned };

    #[inline(always)]
    fn resolve(
        &self,
        resolver: Self::Resolver,
        place: Place<'_, Self::Archived>,
    ) -> Result<(), Error>
        requires zeroed { ZeroedPlace 12 place.pos place.bytes.now }
        requires same_value { ⟦<Self as Archive>⟧.belongs self.now resolver }
        ensures { ResolvesAs ⟦<Self::Archived as Portable>⟧ place
            (⟦<Self as Archive>⟧.flat self.now resolver) result }
    {
        let Place { bytes, pos, .. } = place;
        match self {
            Note::Text(a0) => {
                let NoteResolver::Text(kept) = resolver else {
                    unreachable!();
                };
                resolve_note_1::<String>(0, a0, kept, Place::new(pos, bytes))
            }
            Note::Work(a0) => {
                let NoteResolver::Work(kept) = resolver else {
                    unreachable!();
                };
                resolve_note_1::<BTreeMap<u16, i8>>(1, a0, kept, Place::new(pos, bytes))
            }
            Note::Table(a0) => {
                let NoteResolver::Table(kept) = resolver else {
                    unreachable!();
                };
                let h0: VecAt<Tuple3StringNoteOptionString> = VecAt::of(a0.len());
                resolve_note_1::<VecAt<Tuple3StringNoteOptionString>>(
                    2,
                    &h0,
                    kept,
                    Place::new(pos, bytes),
                )
            }
            Note::Done(a0) => {
                let NoteResolver::Done(kept) = resolver else {
                    unreachable!();
                };
                resolve_note_1::<bool>(3, a0, kept, Place::new(pos, bytes))
            }
            Note::Days(a0) => {
                let NoteResolver::Days(kept) = resolver else {
                    unreachable!();
                };
                resolve_note_1::<Vec<u16>>(4, a0, kept, Place::new(pos, bytes))
            }
            Note::About(_a0) => {
                let NoteResolver::About(kept) = resolver else {
                    unreachable!();
                };
                let h0: BoxAt<ArchivedNote> = BoxAt::new();
                resolve_note_1::<BoxAt<ArchivedNote>>(5, &h0, kept, Place::new(pos, bytes))
            }
            Note::Either(_a0, _a1) => {
                let NoteResolver::Either(kept) = resolver else {
                    unreachable!();
                };
                let h0: BoxAt<ArchivedNote> = BoxAt::new();
                let h1: BoxAt<ArchivedNote> = BoxAt::new();
                resolve_note_2::<BoxAt<ArchivedNote>, BoxAt<ArchivedNote>>(
                    6,
                    &h0,
                    &h1,
                    kept,
                    Place::new(pos, bytes),
                )
            }
            Note::Several(a0) => {
                let NoteResolver::Several(kept) = resolver else {
                    unreachable!();
                };
                let h0: VecAt<ArchivedNote> = VecAt::of(a0.len());
                resolve_note_1::<VecAt<ArchivedNote>>(7, &h0, kept, Place::new(pos, bytes))
            }
        }
    }

    #[inline(always)]
    fn copy_optimization() -> CopyOptimization<Self> {
        CopyOptimization::disable()
    }

    #[inline(always)]
    fn serialize_copied<S: Writer + Keys>(
        _values: &[Self],
        _together: usize,
        _serializer: &mut S,
    ) -> Result<Option<usize>, Error> {
        Ok(None)
    }
}

// Writes what each of the values owns, in order.
#[cycle(serialize_note)]
fn serialize_each_tuple3_string_note_option_string<S: Writer + Keys + ResolverAlloc>(
    values: &[(String, Note, Option<String>)],
    serializer: &mut S,
) -> Result<Vec<<(String, Note, Option<String>) as Archive>::Resolver, S::Alloc>, Error>
    ensures serialized { IfOk result (λ rs. SerializedRun
        tuple3_string_note_option_string_definitions tuple3_string_note_option_string_shape
        (length values.now) (each_keys ⟦<(String, Note, Option<String>) as Archive>⟧.keys
        values.now) (each_meaning ⟦<(String, Note, Option<String>) as Archive>⟧.meaning values.now)
        (each_flat ⟦<(String, Note, Option<String>) as Archive>⟧.flat values.now rs.items)
        (S.state serializer.old) (S.state serializer.new)) }
    ensures same_values { IfOk result (λ rs. EachBelongs
        ⟦<(String, Note, Option<String>) as Archive>⟧.belongs values.now rs.items) }
    ensures goes_on { GoesOn (S.state serializer.old) (S.state serializer.new) }
    ensures refused { IfErr result (IsRunRefused tuple3_string_note_option_string_definitions
        tuple3_string_note_option_string_shape (length values.now)
        (each_keys ⟦<(String, Note, Option<String>) as Archive>⟧.keys values.now)
        (each_meaning ⟦<(String, Note, Option<String>) as Archive>⟧.meaning values.now)
        (S.state serializer.old) (S.state serializer.new)) }
{
    let alloc = serializer.resolver_alloc();
    let mut resolvers = Vec::with_capacity(alloc, values.len())?;
    for value in values {
        let a0 = match serialize_part(&value.0, serializer) {
            Ok(a0) => a0,
            Err(error) => return Err(error),
        };
        let a1 = match serialize_note(&value.1, serializer) {
            Ok(a1) => a1,
            Err(error) => return Err(handed_on(error)),
        };
        let a2 = match serialize_part(&value.2, serializer) {
            Ok(a2) => a2,
            Err(error) => return Err(error),
        };
        resolvers.push_reserved((a0, (a1, (a2, ()))));
    }
    Ok(resolvers)
}

// Writes what a vector owns.
#[cycle(serialize_note)]
fn serialize_vec_tuple3_string_note_option_string<S: Writer + Keys + ResolverAlloc>(
    value: &Vec<(String, Note, Option<String>)>,
    serializer: &mut S,
) -> Result<VecResolver, Error>
    ensures serialized { IfOk result (λ r. Serialized tuple3_string_note_option_string_definitions
        (vec tuple3_string_note_option_string_shape)
        (⟦<Vec<(String, Note, Option<String>)> as Archive>⟧.keys value.now)
        (⟦<Vec<(String, Note, Option<String>)> as Archive>⟧.meaning value.now)
        (⟦<Vec<(String, Note, Option<String>)> as Archive>⟧.flat value.now r)
        (S.state serializer.old) (S.state serializer.new)) }
    ensures same_value { IfOk result (λ r. ⟦<Vec<(String, Note, Option<String>)> as Archive>⟧.belongs
        value.now r) }
    ensures goes_on { GoesOn (S.state serializer.old) (S.state serializer.new) }
    ensures refused { IfErr result (IsRefused tuple3_string_note_option_string_definitions
        (vec tuple3_string_note_option_string_shape)
        (⟦<Vec<(String, Note, Option<String>)> as Archive>⟧.keys value.now)
        (⟦<Vec<(String, Note, Option<String>)> as Archive>⟧.meaning value.now)
        (S.state serializer.old) (S.state serializer.new)) }
{
    if value.len() > u32::MAX as usize {
        return Err(Error::LengthTooLarge);
    }
    let items = value.as_slice();
    let kept = match serialize_each_tuple3_string_note_option_string(items, serializer) {
        Ok(kept) => kept,
        Err(error) => return Err(error),
    };
    match serialize_run(items, kept, serializer) {
        Ok(at) => Ok(at),
        Err(error) => Err(error),
    }
}

// Writes what a box owns.
#[cycle(serialize_note)]
fn serialize_box_note<S: Writer + Keys + ResolverAlloc>(
    value: &Box<Note>,
    serializer: &mut S,
) -> Result<BoxResolver, Error>
    ensures serialized { IfOk result (λ r. Serialized note_definitions (boxed (one note_shape))
        (⟦<Box<Note> as Archive>⟧.keys value.now) (⟦<Box<Note> as Archive>⟧.meaning value.now)
        (⟦<Box<Note> as Archive>⟧.flat value.now r) (S.state serializer.old)
        (S.state serializer.new)) }
    ensures same_value { IfOk result (λ r. ⟦<Box<Note> as Archive>⟧.belongs value.now r) }
    ensures goes_on { GoesOn (S.state serializer.old) (S.state serializer.new) }
    ensures refused { IfErr result (IsRefused note_definitions (boxed (one note_shape))
        (⟦<Box<Note> as Archive>⟧.keys value.now) (⟦<Box<Note> as Archive>⟧.meaning value.now)
        (S.state serializer.old) (S.state serializer.new)) }
{
    let inner = &**value;
    let kept = match serialize_note(inner, serializer) {
        Ok(kept) => kept,
        Err(error) => return Err(handed_on(error)),
    };
    match serialize_inner(inner, kept, serializer) {
        Ok(at) => Ok(at),
        Err(error) => Err(error),
    }
}

// Writes what each of the values owns, in order.
#[cycle(serialize_note)]
fn serialize_each_note<S: Writer + Keys + ResolverAlloc>(
    values: &[Note],
    serializer: &mut S,
) -> Result<Vec<<Note as Archive>::Resolver, S::Alloc>, Error>
    ensures serialized { IfOk result (λ rs. SerializedRun note_definitions note_shape
        (length values.now) (each_keys ⟦<Note as Archive>⟧.keys values.now)
        (each_meaning ⟦<Note as Archive>⟧.meaning values.now)
        (each_flat ⟦<Note as Archive>⟧.flat values.now rs.items) (S.state serializer.old)
        (S.state serializer.new)) }
    ensures same_values { IfOk result (λ rs. EachBelongs ⟦<Note as Archive>⟧.belongs values.now
        rs.items) }
    ensures goes_on { GoesOn (S.state serializer.old) (S.state serializer.new) }
    ensures refused { IfErr result (IsRunRefused note_definitions note_shape (length values.now)
        (each_keys ⟦<Note as Archive>⟧.keys values.now)
        (each_meaning ⟦<Note as Archive>⟧.meaning values.now) (S.state serializer.old)
        (S.state serializer.new)) }
{
    let alloc = serializer.resolver_alloc();
    let mut resolvers = Vec::with_capacity(alloc, values.len())?;
    for value in values {
        let resolver = match serialize_note(value, serializer) {
            Ok(resolver) => resolver,
            Err(error) => return Err(handed_on(error)),
        };
        resolvers.push_reserved(resolver);
    }
    Ok(resolvers)
}

// Writes what a vector owns.
#[cycle(serialize_note)]
fn serialize_vec_note<S: Writer + Keys + ResolverAlloc>(
    value: &Vec<Note>,
    serializer: &mut S,
) -> Result<VecResolver, Error>
    ensures serialized { IfOk result (λ r. Serialized note_definitions (vec note_shape)
        (⟦<Vec<Note> as Archive>⟧.keys value.now) (⟦<Vec<Note> as Archive>⟧.meaning value.now)
        (⟦<Vec<Note> as Archive>⟧.flat value.now r) (S.state serializer.old)
        (S.state serializer.new)) }
    ensures same_value { IfOk result (λ r. ⟦<Vec<Note> as Archive>⟧.belongs value.now r) }
    ensures goes_on { GoesOn (S.state serializer.old) (S.state serializer.new) }
    ensures refused { IfErr result (IsRefused note_definitions (vec note_shape)
        (⟦<Vec<Note> as Archive>⟧.keys value.now) (⟦<Vec<Note> as Archive>⟧.meaning value.now)
        (S.state serializer.old) (S.state serializer.new)) }
{
    if value.len() > u32::MAX as usize {
        return Err(Error::LengthTooLarge);
    }
    let items = value.as_slice();
    let kept = match serialize_each_note(items, serializer) {
        Ok(kept) => kept,
        Err(error) => return Err(error),
    };
    match serialize_run(items, kept, serializer) {
        Ok(at) => Ok(at),
        Err(error) => Err(error),
    }
}

// Writes what the parts of `Text` own, in order.
fn serialize_note_text<S: Writer + Keys + ResolverAlloc>(
    a0: &String,
    serializer: &mut S,
) -> Result<(<String as Archive>::Resolver, ()), Error>
    ensures serialized { IfOk result (λ r. Serialized note_definitions note_shape
        (⟦<String as Archive>⟧.keys a0.now ++ []) (case 0
        (value (⟦<String as Archive>⟧.meaning a0.now) no_value))
        (case 0 (value (⟦<String as Archive>⟧.flat a0.now r.0) no_value)) (S.state serializer.old)
        (S.state serializer.new)) }
    ensures same_values { IfOk result (λ r. ⟦<String as Archive>⟧.belongs a0.now r.0 × Unit {0}) }
    ensures goes_on { GoesOn (S.state serializer.old) (S.state serializer.new) }
    ensures refused { IfErr result (IsRefused note_definitions note_shape
        (⟦<String as Archive>⟧.keys a0.now ++ []) (case 0
        (value (⟦<String as Archive>⟧.meaning a0.now) no_value)) (S.state serializer.old)
        (S.state serializer.new)) }
{
    let a0 = match serialize_part(a0, serializer) {
        Ok(a0) => a0,
        Err(error) => return Err(error),
    };
    Ok((a0, ()))
}

// Writes what the parts of `Work` own, in order.
fn serialize_note_work<S: Writer + Keys + ResolverAlloc>(
    a0: &BTreeMap<u16, i8>,
    serializer: &mut S,
) -> Result<(<BTreeMap<u16, i8> as Archive>::Resolver, ()), Error>
    ensures serialized { IfOk result (λ r. Serialized note_definitions note_shape
        (⟦<BTreeMap<u16, i8> as Archive>⟧.keys a0.now ++ [])
        (case 1 (value (⟦<BTreeMap<u16, i8> as Archive>⟧.meaning a0.now) no_value))
        (case 1 (value (⟦<BTreeMap<u16, i8> as Archive>⟧.flat a0.now r.0) no_value))
        (S.state serializer.old) (S.state serializer.new)) }
    ensures same_values { IfOk result (λ r. ⟦<BTreeMap<u16, i8> as Archive>⟧.belongs a0.now r.0
        × Unit {0}) }
    ensures goes_on { GoesOn (S.state serializer.old) (S.state serializer.new) }
    ensures refused { IfErr result (IsRefused note_definitions note_shape
        (⟦<BTreeMap<u16, i8> as Archive>⟧.keys a0.now ++ [])
        (case 1 (value (⟦<BTreeMap<u16, i8> as Archive>⟧.meaning a0.now) no_value))
        (S.state serializer.old) (S.state serializer.new)) }
{
    let a0 = match serialize_part(a0, serializer) {
        Ok(a0) => a0,
        Err(error) => return Err(error),
    };
    Ok((a0, ()))
}

// Writes what the parts of `Table` own, in order.
#[cycle(serialize_note)]
fn serialize_note_table<S: Writer + Keys + ResolverAlloc>(
    a0: &Vec<(String, Note, Option<String>)>,
    serializer: &mut S,
) -> Result<(VecResolver, ()), Error>
    ensures serialized { IfOk result (λ r. Serialized note_definitions note_shape
        (⟦<Vec<(String, Note, Option<String>)> as Archive>⟧.keys a0.now ++ [])
        (case 2 (value (⟦<Vec<(String, Note, Option<String>)> as Archive>⟧.meaning a0.now)
        no_value)) (case 2 (value (⟦<Vec<(String, Note, Option<String>)> as Archive>⟧.flat a0.now
        r.0) no_value)) (S.state serializer.old) (S.state serializer.new)) }
    ensures same_values { IfOk result (λ r. ⟦<Vec<(String, Note, Option<String>)> as Archive>⟧.belongs
        a0.now r.0 × Unit {0}) }
    ensures goes_on { GoesOn (S.state serializer.old) (S.state serializer.new) }
    ensures refused { IfErr result (IsRefused note_definitions note_shape
        (⟦<Vec<(String, Note, Option<String>)> as Archive>⟧.keys a0.now ++ [])
        (case 2 (value (⟦<Vec<(String, Note, Option<String>)> as Archive>⟧.meaning a0.now)
        no_value)) (S.state serializer.old) (S.state serializer.new)) }
{
    let a0 = match serialize_vec_tuple3_string_note_option_string(a0, serializer) {
        Ok(a0) => a0,
        Err(error) => return Err(error),
    };
    Ok((a0, ()))
}

// Writes what the parts of `Done` own, in order.
fn serialize_note_done<S: Writer + Keys + ResolverAlloc>(
    a0: &bool,
    serializer: &mut S,
) -> Result<(<bool as Archive>::Resolver, ()), Error>
    ensures serialized { IfOk result (λ r. Serialized note_definitions note_shape
        (⟦<bool as Archive>⟧.keys a0.now ++ []) (case 3
        (value (⟦<bool as Archive>⟧.meaning a0.now) no_value))
        (case 3 (value (⟦<bool as Archive>⟧.flat a0.now r.0) no_value)) (S.state serializer.old)
        (S.state serializer.new)) }
    ensures same_values { IfOk result (λ r. ⟦<bool as Archive>⟧.belongs a0.now r.0 × Unit {0}) }
    ensures goes_on { GoesOn (S.state serializer.old) (S.state serializer.new) }
    ensures refused { IfErr result (IsRefused note_definitions note_shape
        (⟦<bool as Archive>⟧.keys a0.now ++ []) (case 3
        (value (⟦<bool as Archive>⟧.meaning a0.now) no_value)) (S.state serializer.old)
        (S.state serializer.new)) }
{
    let a0 = match serialize_part(a0, serializer) {
        Ok(a0) => a0,
        Err(error) => return Err(error),
    };
    Ok((a0, ()))
}

// Writes what the parts of `Days` own, in order.
fn serialize_note_days<S: Writer + Keys + ResolverAlloc>(
    a0: &Vec<u16>,
    serializer: &mut S,
) -> Result<(<Vec<u16> as Archive>::Resolver, ()), Error>
    ensures serialized { IfOk result (λ r. Serialized note_definitions note_shape
        (⟦<Vec<u16> as Archive>⟧.keys a0.now ++ []) (case 4
        (value (⟦<Vec<u16> as Archive>⟧.meaning a0.now) no_value))
        (case 4 (value (⟦<Vec<u16> as Archive>⟧.flat a0.now r.0) no_value)) (S.state serializer.old)
        (S.state serializer.new)) }
    ensures same_values { IfOk result (λ r. ⟦<Vec<u16> as Archive>⟧.belongs a0.now r.0 × Unit {0}) }
    ensures goes_on { GoesOn (S.state serializer.old) (S.state serializer.new) }
    ensures refused { IfErr result (IsRefused note_definitions note_shape
        (⟦<Vec<u16> as Archive>⟧.keys a0.now ++ []) (case 4
        (value (⟦<Vec<u16> as Archive>⟧.meaning a0.now) no_value)) (S.state serializer.old)
        (S.state serializer.new)) }
{
    let a0 = match serialize_part(a0, serializer) {
        Ok(a0) => a0,
        Err(error) => return Err(error),
    };
    Ok((a0, ()))
}

// Writes what the parts of `About` own, in order.
#[cycle(serialize_note)]
fn serialize_note_about<S: Writer + Keys + ResolverAlloc>(
    a0: &Box<Note>,
    serializer: &mut S,
) -> Result<(BoxResolver, ()), Error>
    ensures serialized { IfOk result (λ r. Serialized note_definitions note_shape
        (⟦<Box<Note> as Archive>⟧.keys a0.now ++ []) (case 5
        (value (⟦<Box<Note> as Archive>⟧.meaning a0.now) no_value))
        (case 5 (value (⟦<Box<Note> as Archive>⟧.flat a0.now r.0) no_value))
        (S.state serializer.old) (S.state serializer.new)) }
    ensures same_values { IfOk result (λ r. ⟦<Box<Note> as Archive>⟧.belongs a0.now r.0
        × Unit {0}) }
    ensures goes_on { GoesOn (S.state serializer.old) (S.state serializer.new) }
    ensures refused { IfErr result (IsRefused note_definitions note_shape
        (⟦<Box<Note> as Archive>⟧.keys a0.now ++ []) (case 5
        (value (⟦<Box<Note> as Archive>⟧.meaning a0.now) no_value)) (S.state serializer.old)
        (S.state serializer.new)) }
{
    let a0 = match serialize_box_note(a0, serializer) {
        Ok(a0) => a0,
        Err(error) => return Err(error),
    };
    Ok((a0, ()))
}

// Writes what the parts of `Several` own, in order.
#[cycle(serialize_note)]
fn serialize_note_several<S: Writer + Keys + ResolverAlloc>(
    a0: &Vec<Note>,
    serializer: &mut S,
) -> Result<(VecResolver, ()), Error>
    ensures serialized { IfOk result (λ r. Serialized note_definitions note_shape
        (⟦<Vec<Note> as Archive>⟧.keys a0.now ++ []) (case 7
        (value (⟦<Vec<Note> as Archive>⟧.meaning a0.now) no_value))
        (case 7 (value (⟦<Vec<Note> as Archive>⟧.flat a0.now r.0) no_value))
        (S.state serializer.old) (S.state serializer.new)) }
    ensures same_values { IfOk result (λ r. ⟦<Vec<Note> as Archive>⟧.belongs a0.now r.0
        × Unit {0}) }
    ensures goes_on { GoesOn (S.state serializer.old) (S.state serializer.new) }
    ensures refused { IfErr result (IsRefused note_definitions note_shape
        (⟦<Vec<Note> as Archive>⟧.keys a0.now ++ []) (case 7
        (value (⟦<Vec<Note> as Archive>⟧.meaning a0.now) no_value)) (S.state serializer.old)
        (S.state serializer.new)) }
{
    let a0 = match serialize_vec_note(a0, serializer) {
        Ok(a0) => a0,
        Err(error) => return Err(error),
    };
    Ok((a0, ()))
}

// Writes what a value owns.
#[cycle(serialize_note)]
fn serialize_whole_note<S: Writer + Keys + ResolverAlloc>(
    value: &Note,
    serializer: &mut S,
) -> Result<NoteResolver, Error>
    ensures serialized { IfOk result (λ r. Serialized note_definitions note_shape
        (⟦<Note as Archive>⟧.keys value.now) (⟦<Note as Archive>⟧.meaning value.now)
        (⟦<Note as Archive>⟧.flat value.now r) (S.state serializer.old) (S.state serializer.new)) }
    ensures same_value { IfOk result (λ r. ⟦<Note as Archive>⟧.belongs value.now r) }
    ensures goes_on { GoesOn (S.state serializer.old) (S.state serializer.new) }
    ensures refused { IfErr result (IsRefused note_definitions note_shape
        (⟦<Note as Archive>⟧.keys value.now) (⟦<Note as Archive>⟧.meaning value.now)
        (S.state serializer.old) (S.state serializer.new)) }
{
    match value {
        Note::Text(a0) => match serialize_note_text(a0, serializer) {
            Ok(kept) => Ok(NoteResolver::Text(kept)),
            Err(error) => Err(error),
        },
        Note::Work(a0) => match serialize_note_work(a0, serializer) {
            Ok(kept) => Ok(NoteResolver::Work(kept)),
            Err(error) => Err(error),
        },
        Note::Table(a0) => match serialize_note_table(a0, serializer) {
            Ok(kept) => Ok(NoteResolver::Table(kept)),
            Err(error) => Err(error),
        },
        Note::Done(a0) => match serialize_note_done(a0, serializer) {
            Ok(kept) => Ok(NoteResolver::Done(kept)),
            Err(error) => Err(error),
        },
        Note::Days(a0) => match serialize_note_days(a0, serializer) {
            Ok(kept) => Ok(NoteResolver::Days(kept)),
            Err(error) => Err(error),
        },
        Note::About(a0) => match serialize_note_about(a0, serializer) {
            Ok(kept) => Ok(NoteResolver::About(kept)),
            Err(error) => Err(error),
        },
        Note::Either(a0, a1) => {
            let a0 = match serialize_box_note(a0, serializer) {
                Ok(a0) => a0,
                Err(error) => return Err(error),
            };
            let a1 = match serialize_box_note(a1, serializer) {
                Ok(a1) => a1,
                Err(error) => return Err(error),
            };
            Ok(NoteResolver::Either((a0, (a1, ()))))
        }
        Note::Several(a0) => match serialize_note_several(a0, serializer) {
            Ok(kept) => Ok(NoteResolver::Several(kept)),
            Err(error) => Err(error),
        },
    }
}

// The same by a call, whose result has its room only while it lasts.
#[cycle(serialize_note)]
#[inline(always)]
fn serialize_note<S: Writer + Keys + ResolverAlloc>(
    value: &Note,
    serializer: &mut S,
) -> Result<NoteResolver, Error>
    ensures serialized { IfOk result (λ r. Serialized note_definitions note_shape
        (⟦<Note as Archive>⟧.keys value.now) (⟦<Note as Archive>⟧.meaning value.now)
        (⟦<Note as Archive>⟧.flat value.now r) (S.state serializer.old) (S.state serializer.new)) }
    ensures same_value { IfOk result (λ r. ⟦<Note as Archive>⟧.belongs value.now r) }
    ensures goes_on { GoesOn (S.state serializer.old) (S.state serializer.new) }
    ensures refused { IfErr result (IsRefused note_definitions note_shape
        (⟦<Note as Archive>⟧.keys value.now) (⟦<Note as Archive>⟧.meaning value.now)
        (S.state serializer.old) (S.state serializer.new)) }
{
    serialize_whole_note(value, serializer)
}

impl<S: Writer + Keys + ResolverAlloc> Serialize<S> for Note {
    #[inline(always)]
    fn serialize(&self, serializer: &mut S) -> Result<Self::Resolver, Error> {
        serialize_note(self, serializer)
    }
}

/// As a region of its own: the value itself.
impl ArchiveUnsized for Note {
    ghost use Rattle.recursive_fields.specs.contracts.note.NoteArchive.TheImpl.Laws.{keyed-law as keyed_of_note, planned-law as planned_of_note};

    type Archived = ArchivedNote;

    ghost source_length = { λ _. 0 };

    ghost meaning = { ⟦<Note as Archive>⟧.meaning };

    ghost keys = { ⟦<Note as Archive>⟧.keys };

    ghost keyed = { keyed_of_note };

    ghost one_length = { λ _ _. refl };

    ghost planned = { λ v. one_planned note_definitions note_shape (⟦<Note as Archive>⟧.keys v)
        (⟦<Note as Archive>⟧.meaning v) (planned_of_note v) };

    #[inline(always)]
    fn archived_metadata(&self) -> Result<(), Error> {
        Ok(())
    }
}

impl<S: Writer + Keys + ResolverAlloc> SerializeUnsized<S> for Note {
    #[inline(always)]
    fn serialize_unsized(&self, serializer: &mut S) -> Result<usize, Error> {
        serialize_one(self, serializer)
    }
}

// The tag of a value, which names its variant.
#[inline(always)]
fn tag_of_note(part: RawView<'_>) -> u8
    requires { IsPartOf ⟦<ArchivedNote as ArchivePointee>⟧ part }
    ensures tag { result ≡ part_tag part.entry }
    ensures below { result < 8 }
{
    tag_of_choice::<ArchivedNote>(part)
}

// The part of a value that is `Table` with the index 0.
#[inline(always)]
fn part_0_of_note_table<'a>(part: RawView<'a>) -> RawView<'a>
    requires viewed { IsPartOf ⟦<ArchivedNote as ArchivePointee>⟧ part }
    requires tag { part_tag part ≡ 2 }
    ensures buffer { result.bytes.now ≡ part.entry.bytes.now }
    ensures position { result.pos ≡ part.entry.pos + 4 }
    ensures length { result.len ≡ 0 }
    ensures viewed { IsPartOf ⟦<ArchivedVec<Tuple3StringNoteOptionString> as ArchivePointee>⟧
        result }
{
    part_of_variant::<ArchivedNote, ArchivedVec<Tuple3StringNoteOptionString>>(part, 2, 0, 4)
}

// The part of a value that is `About` with the index 0.
#[inline(always)]
fn part_0_of_note_about<'a>(part: RawView<'a>) -> RawView<'a>
    requires viewed { IsPartOf ⟦<ArchivedNote as ArchivePointee>⟧ part }
    requires tag { part_tag part ≡ 5 }
    ensures buffer { result.bytes.now ≡ part.entry.bytes.now }
    ensures position { result.pos ≡ part.entry.pos + 4 }
    ensures length { result.len ≡ 0 }
    ensures viewed { IsPartOf ⟦<ArchivedBox<ArchivedNote> as ArchivePointee>⟧ result }
{
    part_of_variant::<ArchivedNote, ArchivedBox<ArchivedNote>>(part, 5, 0, 4)
}

// The part of a value that is `Either` with the index 0.
#[inline(always)]
fn part_0_of_note_either<'a>(part: RawView<'a>) -> RawView<'a>
    requires viewed { IsPartOf ⟦<ArchivedNote as ArchivePointee>⟧ part }
    requires tag { part_tag part ≡ 6 }
    ensures buffer { result.bytes.now ≡ part.entry.bytes.now }
    ensures position { result.pos ≡ part.entry.pos + 4 }
    ensures length { result.len ≡ 0 }
    ensures viewed { IsPartOf ⟦<ArchivedBox<ArchivedNote> as ArchivePointee>⟧ result }
{
    part_of_variant::<ArchivedNote, ArchivedBox<ArchivedNote>>(part, 6, 0, 4)
}

// The part of a value that is `Either` with the index 1.
#[inline(always)]
fn part_1_of_note_either<'a>(part: RawView<'a>) -> RawView<'a>
    requires viewed { IsPartOf ⟦<ArchivedNote as ArchivePointee>⟧ part }
    requires tag { part_tag part ≡ 6 }
    ensures buffer { result.bytes.now ≡ part.entry.bytes.now }
    ensures position { result.pos ≡ part.entry.pos + 8 }
    ensures length { result.len ≡ 0 }
    ensures viewed { IsPartOf ⟦<ArchivedBox<ArchivedNote> as ArchivePointee>⟧ result }
{
    part_of_variant::<ArchivedNote, ArchivedBox<ArchivedNote>>(part, 6, 1, 8)
}

// The part of a value that is `Several` with the index 0.
#[inline(always)]
fn part_0_of_note_several<'a>(part: RawView<'a>) -> RawView<'a>
    requires viewed { IsPartOf ⟦<ArchivedNote as ArchivePointee>⟧ part }
    requires tag { part_tag part ≡ 7 }
    ensures buffer { result.bytes.now ≡ part.entry.bytes.now }
    ensures position { result.pos ≡ part.entry.pos + 4 }
    ensures length { result.len ≡ 0 }
    ensures viewed { IsPartOf ⟦<ArchivedVec<ArchivedNote> as ArchivePointee>⟧ result }
{
    part_of_variant::<ArchivedNote, ArchivedVec<ArchivedNote>>(part, 7, 0, 4)
}

// Reads a tuple back, part by part.
#[cycle(read_note)]
#[inline(always)]
fn read_tuple3_string_note_option_string<D: Entries>(
    alloc: Global,
    part: RawView<'_>,
    deserializer: &mut D,
) -> Result<(String, Note, Option<String>), Error>
    requires { IsPartOf ⟦<Tuple3StringNoteOptionString as ArchivePointee>⟧ part }
    ensures read { IfOk result (λ t. ReadsPart ⟦<Tuple3StringNoteOptionString as ArchivePointee>⟧
        part D.Entries deserializer (tuple3_string_note_option_string_meaning t)
        (tuple3_string_note_option_string_keys t)) }
    ensures refused { IfErr result (RefusesPart ⟦<Tuple3StringNoteOptionString as ArchivePointee>⟧
        part D.Entries deserializer) }
{
    let p0 = part_of_record::<Tuple3StringNoteOptionString, ArchivedString>(part, 0, 0);
    let a0 = match read_part::<ArchivedString, String, D>(alloc, p0, deserializer) {
        Ok(a0) => a0,
        Err(error) => return Err(error),
    };
    let p1 = part_of_record::<Tuple3StringNoteOptionString, ArchivedNote>(part, 1, 8);
    let a1 = match read_note(alloc, p1, deserializer) {
        Ok(a1) => a1,
        Err(error) => return Err(error),
    };
    let p2 = part_of_record::<Tuple3StringNoteOptionString, ArchivedOption<ArchivedString>>(
        part, 2, 20,
    );
    let a2 = match read_part::<ArchivedOption<ArchivedString>, Option<String>, D>(
        alloc,
        p2,
        deserializer,
    ) {
        Ok(a2) => a2,
        Err(error) => return Err(error),
    };
    Ok((a0, a1, a2))
}

// Reads a vector back.
#[cycle(read_note)]
#[inline(always)]
fn read_vec_tuple3_string_note_option_string<D: Entries>(
    alloc: Global,
    part: RawView<'_>,
    deserializer: &mut D,
) -> Result<Vec<(String, Note, Option<String>)>, Error>
    requires { IsPartOf ⟦<ArchivedVec<Tuple3StringNoteOptionString> as ArchivePointee>⟧ part }
    ensures read { IfOk result
        (λ t. ReadsPart ⟦<ArchivedVec<Tuple3StringNoteOptionString> as ArchivePointee>⟧ part
        D.Entries deserializer (list (each_meaning tuple3_string_note_option_string_meaning
        t.items)) (each_keys tuple3_string_note_option_string_keys t.items)) }
    ensures refused { IfErr result
        (RefusesPart ⟦<ArchivedVec<Tuple3StringNoteOptionString> as ArchivePointee>⟧ part D.Entries
        deserializer) }
{
    let view: Ref<'_, ArchivedVec<Tuple3StringNoteOptionString>> = Ref::at(part);
    let list = before_vec(view);
    let mut items = Vec::with_capacity(alloc, list.len())?;
    for index in 0..list.len() {
        let item = match read_tuple3_string_note_option_string(
            alloc,
            list.index(index).part(),
            deserializer,
        ) {
            Ok(item) => item,
            Err(error) => return Err(error),
        };
        items.push_reserved(item);
    }
    Ok(items)
}

// Reads a box back.
#[cycle(read_note)]
#[inline(always)]
fn read_box_note<D: Entries>(
    alloc: Global,
    part: RawView<'_>,
    deserializer: &mut D,
) -> Result<Box<Note>, Error>
    requires { IsPartOf ⟦<ArchivedBox<ArchivedNote> as ArchivePointee>⟧ part }
    ensures read { IfOk result (Read ⟦<ArchivedBox<ArchivedNote> as ArchivePointee>⟧ part D.Entries
        deserializer ⟦<Box<Note> as Archive>⟧) }
    ensures refused { IfErr result (RefusesPart ⟦<ArchivedBox<ArchivedNote> as ArchivePointee>⟧ part
        D.Entries deserializer) }
{
    let view: Ref<'_, ArchivedBox<ArchivedNote>> = Ref::at(part);
    let value = match read_note(alloc, before_box(view).part(), deserializer) {
        Ok(value) => value,
        Err(error) => return Err(error),
    };
    let whole = Box::new(alloc, value)?;
    Ok(whole)
}

// Reads a vector back. One with no elements takes no call, whose result would go through memory.
#[cycle(read_note)]
#[inline(always)]
fn read_vec_note<D: Entries>(
    alloc: Global,
    part: RawView<'_>,
    deserializer: &mut D,
) -> Result<Vec<Note>, Error>
    requires { IsPartOf ⟦<ArchivedVec<ArchivedNote> as ArchivePointee>⟧ part }
    ensures read { IfOk result (Read ⟦<ArchivedVec<ArchivedNote> as ArchivePointee>⟧ part D.Entries
        deserializer ⟦<Vec<Note> as Archive>⟧) }
    ensures refused { IfErr result (RefusesPart ⟦<ArchivedVec<ArchivedNote> as ArchivePointee>⟧ part
        D.Entries deserializer) }
{
    let view: Ref<'_, ArchivedVec<ArchivedNote>> = Ref::at(part);
    if view.is_empty() {
        return Ok(Vec::new(alloc));
    }
    read_each_note(alloc, part, deserializer)
}

// Reads the elements of a vector back.
#[cycle(read_note)]
#[inline(always)]
fn read_each_note<D: Entries>(
    alloc: Global,
    part: RawView<'_>,
    deserializer: &mut D,
) -> Result<Vec<Note>, Error>
    requires { IsPartOf ⟦<ArchivedVec<ArchivedNote> as ArchivePointee>⟧ part }
    ensures read { IfOk result (Read ⟦<ArchivedVec<ArchivedNote> as ArchivePointee>⟧ part D.Entries
        deserializer ⟦<Vec<Note> as Archive>⟧) }
    ensures refused { IfErr result (RefusesPart ⟦<ArchivedVec<ArchivedNote> as ArchivePointee>⟧ part
        D.Entries deserializer) }
{
    let view: Ref<'_, ArchivedVec<ArchivedNote>> = Ref::at(part);
    let list = before_vec(view);
    let mut items = Vec::with_capacity(alloc, list.len())?;
    for index in 0..list.len() {
        let item = match read_note(alloc, list.index(index).part(), deserializer) {
            Ok(item) => item,
            Err(error) => return Err(error),
        };
        items.push_reserved(item);
    }
    Ok(items)
}

// Reads `Text` back.
#[inline(always)]
fn read_note_text<D: Entries>(
    alloc: Global,
    part: RawView<'_>,
    deserializer: &mut D,
) -> Result<Note, Error>
    requires viewed { IsPartOf ⟦<ArchivedNote as ArchivePointee>⟧ part }
    requires tag { part_tag part ≡ 0 }
    ensures read { IfOk result (Read ⟦<ArchivedNote as ArchivePointee>⟧ part D.Entries deserializer
        ⟦<Note as Archive>⟧) }
    ensures refused { IfErr result (RefusesPart ⟦<ArchivedNote as ArchivePointee>⟧ part D.Entries
        deserializer) }
{
    let p0 = part_of_variant::<ArchivedNote, ArchivedString>(part, 0, 0, 4);
    let a0 = match read_part::<ArchivedString, String, D>(alloc, p0, deserializer) {
        Ok(a0) => a0,
        Err(error) => return Err(error),
    };
    Ok(Note::Text(a0))
}

// Reads `Work` back.
#[inline(always)]
fn read_note_work<D: Entries>(
    alloc: Global,
    part: RawView<'_>,
    deserializer: &mut D,
) -> Result<Note, Error>
    requires viewed { IsPartOf ⟦<ArchivedNote as ArchivePointee>⟧ part }
    requires tag { part_tag part ≡ 1 }
    ensures read { IfOk result (Read ⟦<ArchivedNote as ArchivePointee>⟧ part D.Entries deserializer
        ⟦<Note as Archive>⟧) }
    ensures refused { IfErr result (RefusesPart ⟦<ArchivedNote as ArchivePointee>⟧ part D.Entries
        deserializer) }
{
    let p0 = part_of_variant::<ArchivedNote, ArchivedSortedMap<ArchivedU16, i8>>(part, 1, 0, 4);
    let a0 = match read_part::<ArchivedSortedMap<ArchivedU16, i8>, BTreeMap<u16, i8>, D>(
        alloc,
        p0,
        deserializer,
    ) {
        Ok(a0) => a0,
        Err(error) => return Err(error),
    };
    Ok(Note::Work(a0))
}

// Reads `Table` back.
#[cycle(read_note)]
#[inline(never)]
fn read_note_table<D: Entries>(
    alloc: Global,
    part: RawView<'_>,
    deserializer: &mut D,
) -> Result<Note, Error>
    requires viewed { IsPartOf ⟦<ArchivedNote as ArchivePointee>⟧ part }
    requires tag { part_tag part ≡ 2 }
    ensures read { IfOk result (Read ⟦<ArchivedNote as ArchivePointee>⟧ part D.Entries deserializer
        ⟦<Note as Archive>⟧) }
    ensures refused { IfErr result (RefusesPart ⟦<ArchivedNote as ArchivePointee>⟧ part D.Entries
        deserializer) }
{
    let p0 = part_0_of_note_table(part);
    let a0 = match read_vec_tuple3_string_note_option_string(alloc, p0, deserializer) {
        Ok(a0) => a0,
        Err(error) => return Err(error),
    };
    Ok(Note::Table(a0))
}

// Reads `Done` back.
#[inline(always)]
fn read_note_done<D: Entries>(
    alloc: Global,
    part: RawView<'_>,
    deserializer: &mut D,
) -> Result<Note, Error>
    requires viewed { IsPartOf ⟦<ArchivedNote as ArchivePointee>⟧ part }
    requires tag { part_tag part ≡ 3 }
    ensures read { IfOk result (Read ⟦<ArchivedNote as ArchivePointee>⟧ part D.Entries deserializer
        ⟦<Note as Archive>⟧) }
    ensures refused { IfErr result (RefusesPart ⟦<ArchivedNote as ArchivePointee>⟧ part D.Entries
        deserializer) }
{
    let p0 = part_of_variant::<ArchivedNote, bool>(part, 3, 0, 1);
    let a0 = match read_part::<bool, bool, D>(alloc, p0, deserializer) {
        Ok(a0) => a0,
        Err(error) => return Err(error),
    };
    Ok(Note::Done(a0))
}

// Reads `Days` back.
#[inline(always)]
fn read_note_days<D: Entries>(
    alloc: Global,
    part: RawView<'_>,
    deserializer: &mut D,
) -> Result<Note, Error>
    requires viewed { IsPartOf ⟦<ArchivedNote as ArchivePointee>⟧ part }
    requires tag { part_tag part ≡ 4 }
    ensures read { IfOk result (Read ⟦<ArchivedNote as ArchivePointee>⟧ part D.Entries deserializer
        ⟦<Note as Archive>⟧) }
    ensures refused { IfErr result (RefusesPart ⟦<ArchivedNote as ArchivePointee>⟧ part D.Entries
        deserializer) }
{
    let p0 = part_of_variant::<ArchivedNote, ArchivedVec<ArchivedU16>>(part, 4, 0, 4);
    let a0 = match read_part::<ArchivedVec<ArchivedU16>, Vec<u16>, D>(alloc, p0, deserializer) {
        Ok(a0) => a0,
        Err(error) => return Err(error),
    };
    Ok(Note::Days(a0))
}

// Reads `About` back.
#[cycle(read_note)]
#[inline(never)]
fn read_note_about<D: Entries>(
    alloc: Global,
    part: RawView<'_>,
    deserializer: &mut D,
) -> Result<Note, Error>
    requires viewed { IsPartOf ⟦<ArchivedNote as ArchivePointee>⟧ part }
    requires tag { part_tag part ≡ 5 }
    ensures read { IfOk result (Read ⟦<ArchivedNote as ArchivePointee>⟧ part D.Entries deserializer
        ⟦<Note as Archive>⟧) }
    ensures refused { IfErr result (RefusesPart ⟦<ArchivedNote as ArchivePointee>⟧ part D.Entries
        deserializer) }
{
    let p0 = part_0_of_note_about(part);
    let a0 = match read_box_note(alloc, p0, deserializer) {
        Ok(a0) => a0,
        Err(error) => return Err(error),
    };
    Ok(Note::About(a0))
}

// Reads `Either` back.
#[cycle(read_note)]
#[inline(never)]
fn read_note_either<D: Entries>(
    alloc: Global,
    part: RawView<'_>,
    deserializer: &mut D,
) -> Result<Note, Error>
    requires viewed { IsPartOf ⟦<ArchivedNote as ArchivePointee>⟧ part }
    requires tag { part_tag part ≡ 6 }
    ensures read { IfOk result (Read ⟦<ArchivedNote as ArchivePointee>⟧ part D.Entries deserializer
        ⟦<Note as Archive>⟧) }
    ensures refused { IfErr result (RefusesPart ⟦<ArchivedNote as ArchivePointee>⟧ part D.Entries
        deserializer) }
{
    let p0 = part_0_of_note_either(part);
    let a0 = match read_box_note(alloc, p0, deserializer) {
        Ok(a0) => a0,
        Err(error) => return Err(error),
    };
    let p1 = part_1_of_note_either(part);
    let a1 = match read_box_note(alloc, p1, deserializer) {
        Ok(a1) => a1,
        Err(error) => return Err(error),
    };
    Ok(Note::Either(a0, a1))
}

// Reads `Several` back.
#[cycle(read_note)]
#[inline(never)]
fn read_note_several<D: Entries>(
    alloc: Global,
    part: RawView<'_>,
    deserializer: &mut D,
) -> Result<Note, Error>
    requires viewed { IsPartOf ⟦<ArchivedNote as ArchivePointee>⟧ part }
    requires tag { part_tag part ≡ 7 }
    ensures read { IfOk result (Read ⟦<ArchivedNote as ArchivePointee>⟧ part D.Entries deserializer
        ⟦<Note as Archive>⟧) }
    ensures refused { IfErr result (RefusesPart ⟦<ArchivedNote as ArchivePointee>⟧ part D.Entries
        deserializer) }
{
    let p0 = part_0_of_note_several(part);
    let a0 = match read_vec_note(alloc, p0, deserializer) {
        Ok(a0) => a0,
        Err(error) => return Err(error),
    };
    Ok(Note::Several(a0))
}

// Reads a value back.
#[cycle(read_note)]
#[inline(always)]
fn read_note<D: Entries>(
    alloc: Global,
    part: RawView<'_>,
    deserializer: &mut D,
) -> Result<Note, Error>
    requires { IsPartOf ⟦<ArchivedNote as ArchivePointee>⟧ part }
    ensures read { IfOk result (Read ⟦<ArchivedNote as ArchivePointee>⟧ part D.Entries deserializer
        ⟦<Note as Archive>⟧) }
    ensures refused { IfErr result (RefusesPart ⟦<ArchivedNote as ArchivePointee>⟧ part D.Entries
        deserializer) }
{
    match tag_of_note(part) {
        0 => read_note_text(alloc, part, deserializer),
        1 => read_note_work(alloc, part, deserializer),
        2 => read_note_table(alloc, part, deserializer),
        3 => read_note_done(alloc, part, deserializer),
        4 => read_note_days(alloc, part, deserializer),
        5 => read_note_about(alloc, part, deserializer),
        6 => read_note_either(alloc, part, deserializer),
        _ => read_note_several(alloc, part, deserializer),
    }
}

impl<D: Entries> Deserialize<Note, D> for ArchivedNote {
    #[inline(always)]
    fn deserialize_part(
        alloc: Global,
        part: RawView<'_>,
        deserializer: &mut D,
    ) -> Result<Note, Error>
        requires { IsPartOf ⟦<Self as ArchivePointee>⟧ part }
        ensures { ReadsAs ⟦<Self as ArchivePointee>⟧ part D.Entries deserializer ⟦<Note as Archive>⟧
            result }
    {
        read_note(alloc, part, deserializer)
    }
}

/// What a view of an archived `Note` shows, by its tag.
#[derive(Drop)]
pub enum ViewOfNote<'a> {
    /// A text.
    Text(Ref<'a, ArchivedString>),
    /// Hours of work, by the day.
    Work(Ref<'a, ArchivedSortedMap<ArchivedU16, i8>>),
    /// Notes with names, and who wrote each, if that is known.
    Table(
        Ref<
            'a,
            ArchivedVec<
                ArchivedTuple3<ArchivedString, ArchivedNote, ArchivedOption<ArchivedString>>,
            >,
        >,
    ),
    /// Whether it is done.
    Done(Ref<'a, bool>),
    /// The days of it.
    Days(Ref<'a, ArchivedVec<ArchivedU16>>),
    /// One of which something is noted.
    About(Ref<'a, ArchivedBox<ArchivedNote>>),
    /// One, or else another.
    Either(Ref<'a, ArchivedBox<ArchivedNote>>, Ref<'a, ArchivedBox<ArchivedNote>>),
    /// One after another.
    Several(Ref<'a, ArchivedVec<ArchivedNote>>),
}

/// The variant of an archived `Note`, as a view.
pub trait NoteView<'a> {
    /// The variant that the tag names, with views of its fields.
    fn variant(self) -> ViewOfNote<'a>;
}

impl<'a> NoteView<'a> for Ref<'a, ArchivedNote> {
    ghost use Rattle.recursive_fields.specs.declared.note.ViewOfNote.TheVariants.{About as NoteAboutShown, Days as NoteDaysShown, Done as NoteDoneShown, Either as NoteEitherShown, Several as NoteSeveralShown, Table as NoteTableShown, Text as NoteTextShown, Work as NoteWorkShown};

    fn variant(self) -> ViewOfNote<'a>
        ensures shows { elim result [
          | NoteTextShown a0 ↦ (tag_of self.entry ≡ 0) × (a0.bytes.now ≡ self.entry.bytes.now)
              × (a0.pos ≡ self.entry.pos + 4) × (a0.len ≡ 0)
              × ShowsValueOf a0 self.entry (payload_in 0)
          | NoteWorkShown a0 ↦ (tag_of self.entry ≡ 1) × (a0.bytes.now ≡ self.entry.bytes.now)
              × (a0.pos ≡ self.entry.pos + 4) × (a0.len ≡ 0)
              × ShowsValueOf a0 self.entry (payload_in 0)
          | NoteTableShown a0 ↦ (tag_of self.entry ≡ 2) × (a0.bytes.now ≡ self.entry.bytes.now)
              × (a0.pos ≡ self.entry.pos + 4) × (a0.len ≡ 0)
              × ShowsValueOf a0 self.entry (payload_in 0)
          | NoteDoneShown a0 ↦ (tag_of self.entry ≡ 3) × (a0.bytes.now ≡ self.entry.bytes.now)
              × (a0.pos ≡ self.entry.pos + 1) × (a0.len ≡ 0)
              × ShowsValueOf a0 self.entry (payload_in 0)
          | NoteDaysShown a0 ↦ (tag_of self.entry ≡ 4) × (a0.bytes.now ≡ self.entry.bytes.now)
              × (a0.pos ≡ self.entry.pos + 4) × (a0.len ≡ 0)
              × ShowsValueOf a0 self.entry (payload_in 0)
          | NoteAboutShown a0 ↦ (tag_of self.entry ≡ 5) × (a0.bytes.now ≡ self.entry.bytes.now)
              × (a0.pos ≡ self.entry.pos + 4) × (a0.len ≡ 0)
              × ShowsValueOf a0 self.entry (payload_in 0)
          | NoteEitherShown a0 a1 ↦ (tag_of self.entry ≡ 6) × (a0.bytes.now ≡ self.entry.bytes.now)
              × (a0.pos ≡ self.entry.pos + 4) × (a0.len ≡ 0)
              × ShowsValueOf a0 self.entry (payload_in 0) × (a1.bytes.now ≡ self.entry.bytes.now)
              × (a1.pos ≡ self.entry.pos + 8) × (a1.len ≡ 0)
              × ShowsValueOf a1 self.entry (payload_in 1)
          | NoteSeveralShown a0 ↦ (tag_of self.entry ≡ 7) × (a0.bytes.now ≡ self.entry.bytes.now)
              × (a0.pos ≡ self.entry.pos + 4) × (a0.len ≡ 0)
              × ShowsValueOf a0 self.entry (payload_in 0)
        ] }
    {
        match tag_of_view(self) {
            0 => ViewOfNote::Text(view_of_payload::<ArchivedNote, ArchivedString>(self, 0, 0, 4)),
            1 => {
                let a0 = view_of_payload::<ArchivedNote, ArchivedSortedMap<ArchivedU16, i8>>(
                    self, 1, 0, 4,
                );
                ViewOfNote::Work(a0)
            }
            2 => {
                let a0 = view_of_payload::<
                    ArchivedNote,
                    ArchivedVec<
                        ArchivedTuple3<
                            ArchivedString,
                            ArchivedNote,
                            ArchivedOption<ArchivedString>,
                        >,
                    >,
                >(self, 2, 0, 4);
                ViewOfNote::Table(a0)
            }
            3 => ViewOfNote::Done(view_of_payload::<ArchivedNote, bool>(self, 3, 0, 1)),
            4 => {
                let a0 = view_of_payload::<ArchivedNote, ArchivedVec<ArchivedU16>>(self, 4, 0, 4);
                ViewOfNote::Days(a0)
            }
            5 => {
                let a0 = view_of_payload::<ArchivedNote, ArchivedBox<ArchivedNote>>(self, 5, 0, 4);
                ViewOfNote::About(a0)
            }
            6 => {
                let a0 = view_of_payload::<ArchivedNote, ArchivedBox<ArchivedNote>>(self, 6, 0, 4);
                let a1 = view_of_payload::<ArchivedNote, ArchivedBox<ArchivedNote>>(self, 6, 1, 8);
                ViewOfNote::Either(a0, a1)
            }
            _ => {
                let a0 = view_of_payload::<ArchivedNote, ArchivedVec<ArchivedNote>>(self, 7, 0, 4);
                ViewOfNote::Several(a0)
            }
        }
    }
}

/// The fields of an archived `Note`, as seals. The caller must ensure that the tag is the variant's.
pub trait NoteSeal<'a> {
    // The seal shows a part of a buffer that was checked.
    ghost sealed: { Self → Type 0 };

    // The tag that it shows.
    ghost tag: { Self → ℕ };

    /// The field `0` of `Text`.
    fn text_0_mut(self) -> Seal<'a, ArchivedString>
        requires come_to { sealed self }
        requires tag { tag self ≡ 0 };

    /// The field `0` of `Work`.
    fn work_0_mut(self) -> Seal<'a, ArchivedSortedMap<ArchivedU16, i8>>
        requires come_to { sealed self }
        requires tag { tag self ≡ 1 };

    /// The field `0` of `Table`.
    fn table_0_mut(
        self,
    ) -> Seal<
        'a,
        ArchivedVec<ArchivedTuple3<ArchivedString, ArchivedNote, ArchivedOption<ArchivedString>>>,
    >
        requires come_to { sealed self }
        requires tag { tag self ≡ 2 };

    /// The field `0` of `Done`.
    fn done_0_mut(self) -> Seal<'a, bool>
        requires come_to { sealed self }
        requires tag { tag self ≡ 3 };

    /// The field `0` of `Days`.
    fn days_0_mut(self) -> Seal<'a, ArchivedVec<ArchivedU16>>
        requires come_to { sealed self }
        requires tag { tag self ≡ 4 };

    /// The field `0` of `About`.
    fn about_0_mut(self) -> Seal<'a, ArchivedBox<ArchivedNote>>
        requires come_to { sealed self }
        requires tag { tag self ≡ 5 };

    /// The field `0` of `Either`.
    fn either_0_mut(self) -> Seal<'a, ArchivedBox<ArchivedNote>>
        requires come_to { sealed self }
        requires tag { tag self ≡ 6 };

    /// The field `1` of `Either`.
    fn either_1_mut(self) -> Seal<'a, ArchivedBox<ArchivedNote>>
        requires come_to { sealed self }
        requires tag { tag self ≡ 6 };

    /// The field `0` of `Several`.
    fn several_0_mut(self) -> Seal<'a, ArchivedVec<ArchivedNote>>
        requires come_to { sealed self }
        requires tag { tag self ≡ 7 };
}

impl<'a> NoteSeal<'a> for Seal<'a, ArchivedNote> {
    ghost sealed = { λ s. IsSealOf note_definitions (one ⟦<ArchivedNote as Portable>⟧.shape) s };

    ghost tag = { λ s. seal_tag s };

    fn text_0_mut(self) -> Seal<'a, ArchivedString>
        requires come_to { IsSealOf note_definitions (one ⟦<ArchivedNote as Portable>⟧.shape) self }
        requires tag { seal_tag self ≡ 0 }
        ensures { SealsPart note_definitions (one ⟦<ArchivedNote as Portable>⟧.shape) no_definition
            ⟦<ArchivedString as ArchivePointee>⟧.pointee (self.entry.pos + 4) 0 self.entry result }
    {
        seal_of_payload::<ArchivedNote, ArchivedString>(self, 0, 0, 4)
    }

    fn work_0_mut(self) -> Seal<'a, ArchivedSortedMap<ArchivedU16, i8>>
        requires come_to { IsSealOf note_definitions (one ⟦<ArchivedNote as Portable>⟧.shape) self }
        requires tag { seal_tag self ≡ 1 }
        ensures { SealsPart note_definitions (one ⟦<ArchivedNote as Portable>⟧.shape)
            (both no_definition (both no_definition no_definition))
            ⟦<ArchivedSortedMap<ArchivedU16, i8> as ArchivePointee>⟧.pointee (self.entry.pos + 4) 0
            self.entry result }
    {
        seal_of_payload::<ArchivedNote, ArchivedSortedMap<ArchivedU16, i8>>(self, 1, 0, 4)
    }

    fn table_0_mut(
        self,
    ) -> Seal<
        'a,
        ArchivedVec<ArchivedTuple3<ArchivedString, ArchivedNote, ArchivedOption<ArchivedString>>>,
    >
        requires come_to { IsSealOf note_definitions (one ⟦<ArchivedNote as Portable>⟧.shape) self }
        requires tag { seal_tag self ≡ 2 }
        ensures { SealsPart note_definitions (one ⟦<ArchivedNote as Portable>⟧.shape)
            (both no_definition (both ⟦<ArchivedNote as ArchivePointee>⟧.definitions
            (both no_definition no_definition)))
            ⟦<ArchivedVec<ArchivedTuple3<ArchivedString, ArchivedNote, ArchivedOption<ArchivedString>>> as ArchivePointee>⟧.pointee (self.entry.pos + 4) 0 self.entry result }
    {
        seal_of_payload::<
            ArchivedNote,
            ArchivedVec<
                ArchivedTuple3<ArchivedString, ArchivedNote, ArchivedOption<ArchivedString>>,
            >,
        >(self, 2, 0, 4)
    }

    fn done_0_mut(self) -> Seal<'a, bool>
        requires come_to { IsSealOf note_definitions (one ⟦<ArchivedNote as Portable>⟧.shape) self }
        requires tag { seal_tag self ≡ 3 }
        ensures { SealsPart note_definitions (one ⟦<ArchivedNote as Portable>⟧.shape) no_definition
            ⟦<bool as ArchivePointee>⟧.pointee (self.entry.pos + 1) 0 self.entry result }
    {
        seal_of_payload::<ArchivedNote, bool>(self, 3, 0, 1)
    }

    fn days_0_mut(self) -> Seal<'a, ArchivedVec<ArchivedU16>>
        requires come_to { IsSealOf note_definitions (one ⟦<ArchivedNote as Portable>⟧.shape) self }
        requires tag { seal_tag self ≡ 4 }
        ensures { SealsPart note_definitions (one ⟦<ArchivedNote as Portable>⟧.shape) no_definition
            ⟦<ArchivedVec<ArchivedU16> as ArchivePointee>⟧.pointee (self.entry.pos + 4) 0 self.entry
            result }
    {
        seal_of_payload::<ArchivedNote, ArchivedVec<ArchivedU16>>(self, 4, 0, 4)
    }

    fn about_0_mut(self) -> Seal<'a, ArchivedBox<ArchivedNote>>
        requires come_to { IsSealOf note_definitions (one ⟦<ArchivedNote as Portable>⟧.shape) self }
        requires tag { seal_tag self ≡ 5 }
        ensures { SealsPart note_definitions (one ⟦<ArchivedNote as Portable>⟧.shape)
            ⟦<ArchivedNote as ArchivePointee>⟧.definitions
            ⟦<ArchivedBox<ArchivedNote> as ArchivePointee>⟧.pointee (self.entry.pos + 4) 0
            self.entry result }
    {
        seal_of_payload::<ArchivedNote, ArchivedBox<ArchivedNote>>(self, 5, 0, 4)
    }

    fn either_0_mut(self) -> Seal<'a, ArchivedBox<ArchivedNote>>
        requires come_to { IsSealOf note_definitions (one ⟦<ArchivedNote as Portable>⟧.shape) self }
        requires tag { seal_tag self ≡ 6 }
        ensures { SealsPart note_definitions (one ⟦<ArchivedNote as Portable>⟧.shape)
            ⟦<ArchivedNote as ArchivePointee>⟧.definitions
            ⟦<ArchivedBox<ArchivedNote> as ArchivePointee>⟧.pointee (self.entry.pos + 4) 0
            self.entry result }
    {
        seal_of_payload::<ArchivedNote, ArchivedBox<ArchivedNote>>(self, 6, 0, 4)
    }

    fn either_1_mut(self) -> Seal<'a, ArchivedBox<ArchivedNote>>
        requires come_to { IsSealOf note_definitions (one ⟦<ArchivedNote as Portable>⟧.shape) self }
        requires tag { seal_tag self ≡ 6 }
        ensures { SealsPart note_definitions (one ⟦<ArchivedNote as Portable>⟧.shape)
            ⟦<ArchivedNote as ArchivePointee>⟧.definitions
            ⟦<ArchivedBox<ArchivedNote> as ArchivePointee>⟧.pointee (self.entry.pos + 8) 0
            self.entry result }
    {
        seal_of_payload::<ArchivedNote, ArchivedBox<ArchivedNote>>(self, 6, 1, 8)
    }

    fn several_0_mut(self) -> Seal<'a, ArchivedVec<ArchivedNote>>
        requires come_to { IsSealOf note_definitions (one ⟦<ArchivedNote as Portable>⟧.shape) self }
        requires tag { seal_tag self ≡ 7 }
        ensures { SealsPart note_definitions (one ⟦<ArchivedNote as Portable>⟧.shape)
            ⟦<ArchivedNote as ArchivePointee>⟧.definitions
            ⟦<ArchivedVec<ArchivedNote> as ArchivePointee>⟧.pointee (self.entry.pos + 4) 0
            self.entry result }
    {
        seal_of_payload::<ArchivedNote, ArchivedVec<ArchivedNote>>(self, 7, 0, 4)
    }
}
