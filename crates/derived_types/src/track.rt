//! What shares values.

use crate::spot::Line;
use archive_core::rc::{Shared, SharedSlice, SharedStr, WeakShared};

/// A shared line, and another one.
#[derive(Drop)]
pub struct Track {
    /// The line.
    pub line: Shared<Line>,
    /// Another one, perhaps.
    pub other: Option<Box<Line>>,
}

/// What shares, or doesn't.
#[derive(Drop)]
pub enum Either {
    /// It doesn't.
    Alone(u8),
    /// It does.
    Together {
        /// Lines.
        lines: SharedSlice<Line>,
        /// A text.
        text: SharedStr,
        /// Perhaps a line.
        weak: WeakShared<Line>,
    },
}

// Below this line all is written by tools/derive: change what is above it, and run it again.

ghost use Rattle.archive_core.specs.CallOutcomes.{ResolvesAs};
ghost use Rattle.archive_core.specs.Definitions.{both, no_definition};
ghost use Rattle.archive_core.specs.Fields.{field_in};
ghost use Rattle.archive_core.specs.Keyed.{box_keyed, case_keyed, each_keyed, nothing_keyed, number_keyed, part_keyed, record_keyed, text_keyed};
ghost use Rattle.archive_core.specs.LeafLayout.{no_definition_reached};
ghost use Rattle.archive_core.specs.Options.{option_keyed, option_planned};
ghost use Rattle.archive_core.specs.PartsPlanned.{no_part_planned, part_planned};
ghost use Rattle.archive_core.specs.Payloads.{payload_in};
ghost use Rattle.archive_core.specs.Plain.{plain_choice, plain_record, plain_record_planned, plain_variant_planned};
ghost use Rattle.archive_core.specs.Planned.{leaf_planned, text_planned};
ghost use Rattle.archive_core.specs.PlannedOwners.{boxed_one_planned, one_planned, slice_planned};
ghost use Rattle.archive_core.specs.ReadBack.{ReadsAs};
ghost use Rattle.archive_core.specs.Runs.{each_keys, each_meaning};
ghost use Rattle.archive_core.specs.SealOutcomes.{IsSealOf, SealsPart, seal_tag};
ghost use Rattle.archive_core.specs.Seen.{IsPartOf, ShowsValueOf, tag_of};
ghost use Rattle.archive_core.specs.SelfCheck.Laws.{by_schema};
ghost use Rattle.archive_core.specs.Shape.{choice, no_part, no_variant, one, part, parts, run, text, variant};
ghost use Rattle.archive_core.specs.SharedLaws.{weak_keyed, weak_planned};
ghost use Rattle.archive_core.specs.SharedSources.{rc_flavor, rc_keyed, rc_keys, rc_one_planned, rc_planned};
ghost use Rattle.archive_core.specs.Value.{case, list, no_value, product, shared_value, text_value, value};
ghost use Rattle.archive_core.specs.Writing.{ZeroedPlace};
ghost use Rattle.std.proofs.Common.{inl, inr, lit≤};
ghost use Rattle.std.specs.Prelude.{None, [], codes, length, refl, ℕ, ◌++◌, ◌+◌, ◌≡◌};
ghost use Rattle.std.specs.Rc.{rc_slice_items, rc_str_bytes};

use crate::spot::ArchivedLine;
use archive_core::boxed::ArchivedBox;
use archive_core::error::Error;
use archive_core::fields::{
    known_tag, part_in_case, part_in_record, read_case, resolve_case_1, resolve_case_3,
    resolve_record_2, serialize_case_1, serialize_case_3, serialize_record_2, tag_in,
};
use archive_core::option::ArchivedOption;
use archive_core::place::Place;
use archive_core::pooling::Pooling;
use archive_core::rc::{ArchivedRc, ArchivedRcWeak, RcFlavor};
use archive_core::record::deserialize_record;
use archive_core::seal::{Seal, sealed_part_in_case, sealed_part_in_record};
use archive_core::self_check::BySchema;
use archive_core::ser::{ResolverAlloc, Writer, serialize_one};
use archive_core::shape::Defs;
use archive_core::sharing::Sharing;
use archive_core::slice::ArchivedSlice;
use archive_core::string::ArchivedStr;
use archive_core::traits::{
    Archive, ArchivePointee, ArchiveUnsized, Choice, CopyOptimization, Deserialize, Keys, Portable,
    Record, Serialize, SerializeUnsized, expr_of_choice, expr_of_record,
};
use archive_core::view::{RawView, Ref};
use std::alloc::Global;

/// An archived `Track`: 12 bytes at a multiple of 4.
pub struct ArchivedTrack;

type TrackParts = (
    ArchivedRc<ArchivedLine, RcFlavor>,
    (ArchivedOption<ArchivedBox<ArchivedLine>>, ()),
);

type TrackOwned = (Shared<Line>, (Option<Box<Line>>, ()));

impl ArchivePointee for ArchivedTrack {
    type ArchivedMetadata = ();

    ghost pointee = { one (parts (part ⟦<ArchivedRc<ArchivedLine, RcFlavor> as Portable>⟧.shape
        (part ⟦<ArchivedOption<ArchivedBox<ArchivedLine>> as Portable>⟧.shape no_part))) };

    ghost definitions = { no_definition };

    ghost metadata_length = { λ _. 0 };

    fn pointer_metadata(_metadata: &()) -> usize {
        0
    }
}

impl Portable for ArchivedTrack {
    ghost shape = { parts (part ⟦<ArchivedRc<ArchivedLine, RcFlavor> as Portable>⟧.shape
        (part ⟦<ArchivedOption<ArchivedBox<ArchivedLine>> as Portable>⟧.shape no_part)) };

    ghost layout = { record { size = 12; align = 4 } };

    type Check = BySchema;

    ghost is_one = { refl };

    ghost is_align = { inr (inr (inl refl)) };

    ghost has_layout = { record { solved = λ s k. refl } };

    ghost no_others = { no_definition_reached (parts (part
        ⟦<ArchivedRc<ArchivedLine, RcFlavor> as Portable>⟧.shape
        (part ⟦<ArchivedOption<ArchivedBox<ArchivedLine>> as Portable>⟧.shape no_part))) };

    ghost checks = { λ direct. by_schema direct };

    fn size() -> usize {
        12
    }

    fn align() -> usize {
        4
    }

    fn expr(alloc: Global) -> Result<archive_core::shape::Expr, Error> {
        expr_of_record::<TrackParts>(alloc)
    }

    fn define(_alloc: Global, _defs: &mut Defs) -> Result<(), Error> {
        Ok(())
    }
}

impl Record for ArchivedTrack {
    type Parts = TrackParts;

    ghost has_parts = { plain_record (part ⟦<ArchivedRc<ArchivedLine, RcFlavor> as Portable>⟧.shape
        (part ⟦<ArchivedOption<ArchivedBox<ArchivedLine>> as Portable>⟧.shape no_part))
        (both no_definition (both no_definition no_definition)) refl };

    ghost holds = { lit≤ tt };
}

/// What is kept of `Track` between `serialize` and `resolve`.
#[derive(Drop)]
pub struct TrackResolver {
    kept: (
        <Shared<Line> as Archive>::Resolver,
        (<Option<Box<Line>> as Archive>::Resolver, ()),
    ),
}

impl Archive for Track {
    ghost use Rattle.derived_types.specs.contracts.spot.LineArchive.TheImpl.Laws.{keyed-law as keyed_of_line, planned-law as planned_of_line};

    type Archived = ArchivedTrack;

    type Resolver = TrackResolver;

    ghost meaning = { λ v. product (value (⟦<Shared<Line> as Archive>⟧.meaning v.line)
        (value (⟦<Option<Box<Line>> as Archive>⟧.meaning v.other) no_value)) };

    ghost flat = { λ v r. product (value (⟦<Shared<Line> as Archive>⟧.flat v.line r.kept.0)
        (value (⟦<Option<Box<Line>> as Archive>⟧.flat v.other r.kept.1.0) no_value)) };

    ghost keys = { λ v. ⟦<Shared<Line> as Archive>⟧.keys v.line
        ++ (⟦<Option<Box<Line>> as Archive>⟧.keys v.other ++ []) };

    ghost belongs = { λ v r. ⟦<Shared<Line> as Archive>⟧.belongs v.line r.kept.0
        × (⟦<Option<Box<Line>> as Archive>⟧.belongs v.other r.kept.1.0 × Unit {0}) };

    ghost in_bulk = { None };

    ghost keyed = { λ v. record_keyed (part_keyed (rc_keyed v.line.key
        ⟦<ArchivedLine as ArchivePointee>⟧.pointee 0 (⟦<Line as Archive>⟧.meaning
        v.line.value.value) (⟦<Line as Archive>⟧.keys v.line.value.value)
        (keyed_of_line v.line.value.value)) (part_keyed
        (option_keyed ⟦<Box<Line> as Archive>⟧.keys ⟦<Box<Line> as Archive>⟧.meaning
        (λ x. box_keyed (⟦<Line as Archive>⟧.keys x.value) (⟦<Line as Archive>⟧.meaning x.value)
        (keyed_of_line x.value)) v.other) nothing_keyed)) };

    ghost planned = { λ v. plain_record_planned (both no_definition
        (both no_definition no_definition))
        (part ⟦<ArchivedRc<ArchivedLine, RcFlavor> as Portable>⟧.shape
        (part ⟦<ArchivedOption<ArchivedBox<ArchivedLine>> as Portable>⟧.shape no_part)) _ _
        (part_planned no_definition ⟦<ArchivedRc<ArchivedLine, RcFlavor> as Portable>⟧.shape
        (⟦<Shared<Line> as Archive>⟧.keys v.line) (⟦<Shared<Line> as Archive>⟧.meaning v.line)
        (rc_one_planned no_definition v.line.key ⟦<ArchivedLine as ArchivePointee>⟧.pointee
        ⟦<ArchivedLine as Portable>⟧.shape refl (⟦<Line as Archive>⟧.meaning v.line.value.value)
        (⟦<Line as Archive>⟧.keys v.line.value.value) (planned_of_line v.line.value.value))
        (part_planned no_definition ⟦<ArchivedOption<ArchivedBox<ArchivedLine>> as Portable>⟧.shape
        (⟦<Option<Box<Line>> as Archive>⟧.keys v.other)
        (⟦<Option<Box<Line>> as Archive>⟧.meaning v.other)
        (option_planned no_definition ⟦<ArchivedBox<ArchivedLine> as Portable>⟧.shape
        ⟦<Box<Line> as Archive>⟧.keys ⟦<Box<Line> as Archive>⟧.meaning
        (λ x. boxed_one_planned no_definition (one ⟦<ArchivedLine as Portable>⟧.shape)
        ⟦<ArchivedLine as Portable>⟧.shape refl (⟦<Line as Archive>⟧.keys x.value)
        (⟦<Line as Archive>⟧.meaning x.value) (planned_of_line x.value)) v.other) no_part_planned))
        refl };

    #[inline(always)]
    fn resolve(
        &self,
        resolver: Self::Resolver,
        place: Place<'_, Self::Archived>,
    ) -> Result<(), Error>
        requires zeroed { ZeroedPlace 12 place.pos place.bytes.now }
        requires same_value { ⟦<Self as Archive>⟧.belongs self.now resolver }
        ensures { ResolvesAs ⟦<Self::Archived as Portable>⟧ place
            (⟦<Self as Archive>⟧.flat self.now resolver) result }
    {
        let Place { bytes, pos, .. } = place;
        let TrackResolver { kept } = resolver;
        resolve_record_2::<Shared<Line>, Option<Box<Line>>, ArchivedTrack>(
            &self.line,
            &self.other,
            kept,
            Place::new(pos, bytes),
        )
    }

    #[inline(always)]
    fn copy_optimization() -> CopyOptimization<Self> {
        CopyOptimization::disable()
    }

    #[inline(always)]
    fn serialize_copied<S: Writer + Keys>(
        _values: &[Self],
        _together: usize,
        _serializer: &mut S,
    ) -> Result<Option<usize>, Error> {
        Ok(None)
    }
}

impl<S: Sharing + Writer + ResolverAlloc> Serialize<S> for Track {
    #[inline(always)]
    fn serialize(&self, serializer: &mut S) -> Result<Self::Resolver, Error> {
        match serialize_record_2::<Shared<Line>, Option<Box<Line>>, ArchivedTrack, S>(
            &self.line,
            &self.other,
            serializer,
        ) {
            Ok(kept) => Ok(TrackResolver { kept }),
            Err(error) => Err(error),
        }
    }
}

/// As a region of its own: the value itself.
impl ArchiveUnsized for Track {
    ghost use Rattle.derived_types.specs.contracts.track.TrackArchive.TheImpl.Laws.{keyed-law as keyed_of_track, planned-law as planned_of_track};

    type Archived = ArchivedTrack;

    ghost source_length = { λ _. 0 };

    ghost meaning = { ⟦<Track as Archive>⟧.meaning };

    ghost keys = { ⟦<Track as Archive>⟧.keys };

    ghost keyed = { keyed_of_track };

    ghost one_length = { λ _ _. refl };

    ghost planned = { λ v. one_planned no_definition (parts
        (part ⟦<ArchivedRc<ArchivedLine, RcFlavor> as Portable>⟧.shape
        (part ⟦<ArchivedOption<ArchivedBox<ArchivedLine>> as Portable>⟧.shape no_part)))
        (⟦<Track as Archive>⟧.keys v) (⟦<Track as Archive>⟧.meaning v) (planned_of_track v) };

    #[inline(always)]
    fn archived_metadata(&self) -> Result<(), Error> {
        Ok(())
    }
}

impl<S: Sharing + Writer + ResolverAlloc> SerializeUnsized<S> for Track {
    #[inline(always)]
    fn serialize_unsized(&self, serializer: &mut S) -> Result<usize, Error> {
        serialize_one(self, serializer)
    }
}

impl<D: Pooling<Shared<Line>>> Deserialize<Track, D> for ArchivedTrack {
    #[inline(always)]
    fn deserialize_part(
        alloc: Global,
        part: RawView<'_>,
        deserializer: &mut D,
    ) -> Result<Track, Error>
        requires { IsPartOf ⟦<Self as ArchivePointee>⟧ part }
        ensures { ReadsAs ⟦<Self as ArchivePointee>⟧ part D.Entries deserializer
            ⟦<Track as Archive>⟧ result }
    {
        match deserialize_record::<Self, TrackOwned, D>(alloc, part, deserializer) {
            Ok((a0, (a1, ()))) => Ok(Track {
                line: a0,
                other: a1,
            }),
            Err(error) => Err(error),
        }
    }
}

/// The fields of an archived `Track`, as views.
pub trait TrackView<'a> {
    /// The line.
    fn line(self) -> Ref<'a, ArchivedRc<ArchivedLine, RcFlavor>>;

    /// Another one, perhaps.
    fn other(self) -> Ref<'a, ArchivedOption<ArchivedBox<ArchivedLine>>>;
}

impl<'a> TrackView<'a> for Ref<'a, ArchivedTrack> {
    fn line(self) -> Ref<'a, ArchivedRc<ArchivedLine, RcFlavor>>
        ensures buffer { result.bytes.now ≡ self.entry.bytes.now }
        ensures position { result.pos ≡ self.entry.pos + 0 }
        ensures length { result.len ≡ 0 }
        ensures shows { ShowsValueOf result self.entry (field_in 0) }
    {
        part_in_record::<ArchivedTrack, ArchivedRc<ArchivedLine, RcFlavor>>(self, 0, 0)
    }

    fn other(self) -> Ref<'a, ArchivedOption<ArchivedBox<ArchivedLine>>>
        ensures buffer { result.bytes.now ≡ self.entry.bytes.now }
        ensures position { result.pos ≡ self.entry.pos + 4 }
        ensures length { result.len ≡ 0 }
        ensures shows { ShowsValueOf result self.entry (field_in 1) }
    {
        part_in_record::<ArchivedTrack, ArchivedOption<ArchivedBox<ArchivedLine>>>(self, 1, 4)
    }
}

/// The fields of an archived `Track`, as seals.
pub trait TrackSeal<'a> {
    // The seal shows a part of a buffer that was checked.
    ghost sealed: { Self → Type 0 };

    /// The line.
    fn line_mut(self) -> Seal<'a, ArchivedRc<ArchivedLine, RcFlavor>>
        requires { sealed self };

    /// Another one, perhaps.
    fn other_mut(self) -> Seal<'a, ArchivedOption<ArchivedBox<ArchivedLine>>>
        requires { sealed self };
}

impl<'a> TrackSeal<'a> for Seal<'a, ArchivedTrack> {
    ghost sealed = { λ s. IsSealOf no_definition (one ⟦<ArchivedTrack as Portable>⟧.shape) s };

    fn line_mut(self) -> Seal<'a, ArchivedRc<ArchivedLine, RcFlavor>>
        requires come_to { IsSealOf no_definition (one ⟦<ArchivedTrack as Portable>⟧.shape) self }
        ensures { SealsPart no_definition (one ⟦<ArchivedTrack as Portable>⟧.shape) no_definition
            ⟦<ArchivedRc<ArchivedLine, RcFlavor> as ArchivePointee>⟧.pointee (self.entry.pos + 0) 0
            self.entry result }
    {
        sealed_part_in_record::<ArchivedTrack, ArchivedRc<ArchivedLine, RcFlavor>>(self, 0, 0)
    }

    fn other_mut(self) -> Seal<'a, ArchivedOption<ArchivedBox<ArchivedLine>>>
        requires come_to { IsSealOf no_definition (one ⟦<ArchivedTrack as Portable>⟧.shape) self }
        ensures { SealsPart no_definition (one ⟦<ArchivedTrack as Portable>⟧.shape) no_definition
            ⟦<ArchivedOption<ArchivedBox<ArchivedLine>> as ArchivePointee>⟧.pointee
            (self.entry.pos + 4) 0 self.entry result }
    {
        sealed_part_in_record::<ArchivedTrack, ArchivedOption<ArchivedBox<ArchivedLine>>>(
            self, 1, 4,
        )
    }
}

/// An archived `Either`: 24 bytes at a multiple of 4.
pub struct ArchivedEither;

type EitherAloneParts = (u8, ());

type EitherAloneOwned = (u8, ());

type EitherTogetherParts = (
    ArchivedRc<ArchivedSlice<ArchivedLine>, RcFlavor>,
    (
        ArchivedRc<ArchivedStr, RcFlavor>,
        (ArchivedRcWeak<ArchivedLine, RcFlavor>, ()),
    ),
);

type EitherTogetherOwned = (SharedSlice<Line>, (SharedStr, (WeakShared<Line>, ())));

type EitherVariants = (EitherAloneParts, (EitherTogetherParts, ()));

impl ArchivePointee for ArchivedEither {
    type ArchivedMetadata = ();

    ghost pointee = { one (choice (codes "ArchivedEither")
        (variant (part ⟦<u8 as Portable>⟧.shape no_part)
        (variant (part ⟦<ArchivedRc<ArchivedSlice<ArchivedLine>, RcFlavor> as Portable>⟧.shape
        (part ⟦<ArchivedRc<ArchivedStr, RcFlavor> as Portable>⟧.shape
        (part ⟦<ArchivedRcWeak<ArchivedLine, RcFlavor> as Portable>⟧.shape no_part)))
        no_variant))) };

    ghost definitions = { no_definition };

    ghost metadata_length = { λ _. 0 };

    fn pointer_metadata(_metadata: &()) -> usize {
        0
    }
}

impl Portable for ArchivedEither {
    ghost shape = { choice (codes "ArchivedEither") (variant (part ⟦<u8 as Portable>⟧.shape no_part)
        (variant (part ⟦<ArchivedRc<ArchivedSlice<ArchivedLine>, RcFlavor> as Portable>⟧.shape
        (part ⟦<ArchivedRc<ArchivedStr, RcFlavor> as Portable>⟧.shape
        (part ⟦<ArchivedRcWeak<ArchivedLine, RcFlavor> as Portable>⟧.shape no_part)))
        no_variant)) };

    ghost layout = { record { size = 24; align = 4 } };

    type Check = BySchema;

    ghost is_one = { refl };

    ghost is_align = { inr (inr (inl refl)) };

    ghost has_layout = { record { solved = λ s k. refl } };

    ghost no_others = { no_definition_reached (choice (codes "ArchivedEither")
        (variant (part ⟦<u8 as Portable>⟧.shape no_part)
        (variant (part ⟦<ArchivedRc<ArchivedSlice<ArchivedLine>, RcFlavor> as Portable>⟧.shape
        (part ⟦<ArchivedRc<ArchivedStr, RcFlavor> as Portable>⟧.shape
        (part ⟦<ArchivedRcWeak<ArchivedLine, RcFlavor> as Portable>⟧.shape no_part)))
        no_variant))) };

    ghost checks = { λ direct. by_schema direct };

    fn size() -> usize {
        24
    }

    fn align() -> usize {
        4
    }

    fn expr(alloc: Global) -> Result<archive_core::shape::Expr, Error> {
        expr_of_choice::<EitherVariants>(alloc, "ArchivedEither")
    }

    fn define(_alloc: Global, _defs: &mut Defs) -> Result<(), Error> {
        Ok(())
    }
}

impl Choice for ArchivedEither {
    type Variants = EitherVariants;

    ghost name = { codes "ArchivedEither" };

    ghost has_variants = { plain_choice (codes "ArchivedEither")
        (variant (part ⟦<u8 as Portable>⟧.shape no_part)
        (variant (part ⟦<ArchivedRc<ArchivedSlice<ArchivedLine>, RcFlavor> as Portable>⟧.shape
        (part ⟦<ArchivedRc<ArchivedStr, RcFlavor> as Portable>⟧.shape
        (part ⟦<ArchivedRcWeak<ArchivedLine, RcFlavor> as Portable>⟧.shape no_part))) no_variant))
        (both (both no_definition no_definition) (both (both no_definition
        (both no_definition (both no_definition no_definition))) no_definition)) refl };

    ghost holds = { lit≤ tt };
}

/// What is kept of `Either` between `serialize` and `resolve`.
#[derive(Drop)]
pub enum EitherResolver {
    /// Of `Alone`.
    Alone((<u8 as Archive>::Resolver, ())),
    /// Of `Together`.
    Together(
        (
            <SharedSlice<Line> as Archive>::Resolver,
            (
                <SharedStr as Archive>::Resolver,
                (<WeakShared<Line> as Archive>::Resolver, ()),
            ),
        ),
    ),
}

impl Archive for Either {
    ghost use Rattle.derived_types.specs.contracts.spot.LineArchive.TheImpl.Laws.{keyed-law as keyed_of_line, planned-law as planned_of_line};
    ghost use Rattle.derived_types.specs.declared.track.Either.TheVariants.{Alone as EitherAlone, Together as EitherTogether};
    ghost use Rattle.derived_types.specs.declared.track.EitherResolver.TheVariants.{Alone as EitherAloneKept, Together as EitherTogetherKept};

    type Archived = ArchivedEither;

    type Resolver = EitherResolver;

    ghost meaning = { elim [
      | EitherAlone a0 ↦ case 0 (value (⟦<u8 as Archive>⟧.meaning a0) no_value)
      | EitherTogether a0 a1 a2 ↦ case 1 (value (⟦<SharedSlice<Line> as Archive>⟧.meaning a0)
          (value (⟦<SharedStr as Archive>⟧.meaning a1) (value
          (⟦<WeakShared<Line> as Archive>⟧.meaning a2) no_value)))
    ] };

    ghost flat = { λ v r. elim v [
      | EitherAlone a0 ↦ elim r [
        | EitherAloneKept s ↦ case 0 (value (⟦<u8 as Archive>⟧.flat a0 s.0) no_value)
        | _ ↦ case 0 no_value
      ]
      | EitherTogether a0 a1 a2 ↦ elim r [
        | EitherTogetherKept s ↦ case 1 (value (⟦<SharedSlice<Line> as Archive>⟧.flat a0 s.0)
            (value (⟦<SharedStr as Archive>⟧.flat a1 s.1.0)
            (value (⟦<WeakShared<Line> as Archive>⟧.flat a2 s.1.1.0) no_value)))
        | _ ↦ case 1 no_value
      ]
    ] };

    ghost keys = { elim [
      | EitherAlone a0 ↦ ⟦<u8 as Archive>⟧.keys a0 ++ []
      | EitherTogether a0 a1 a2 ↦ ⟦<SharedSlice<Line> as Archive>⟧.keys a0
          ++ (⟦<SharedStr as Archive>⟧.keys a1 ++ (⟦<WeakShared<Line> as Archive>⟧.keys a2 ++ []))
    ] };

    ghost belongs = { λ v r. elim v [
      | EitherAlone a0 ↦ elim r [
        | EitherAloneKept s ↦ ⟦<u8 as Archive>⟧.belongs a0 s.0 × Unit {0}
        | _ ↦ ⊥
      ]
      | EitherTogether a0 a1 a2 ↦ elim r [
        | EitherTogetherKept s ↦ ⟦<SharedSlice<Line> as Archive>⟧.belongs a0 s.0
            × (⟦<SharedStr as Archive>⟧.belongs a1 s.1.0 × (⟦<WeakShared<Line> as Archive>⟧.belongs
            a2 s.1.1.0 × Unit {0}))
        | _ ↦ ⊥
      ]
    ] };

    ghost in_bulk = { None };

    ghost keyed = { elim [
      | EitherAlone a0 ↦ case_keyed _ 0 _ (part_keyed (number_keyed _) nothing_keyed)
      | EitherTogether a0 a1 a2 ↦ case_keyed _ 1 _ (part_keyed
          (rc_keyed a0.key (run ⟦<ArchivedLine as Portable>⟧.shape)
          (length (rc_slice_items a0.value)) (list (each_meaning ⟦<Line as Archive>⟧.meaning
          (rc_slice_items a0.value))) (each_keys ⟦<Line as Archive>⟧.keys (rc_slice_items a0.value))
          (each_keyed ⟦<Line as Archive>⟧.keys ⟦<Line as Archive>⟧.meaning keyed_of_line
          (rc_slice_items a0.value))) (part_keyed (rc_keyed a1.key text
          (length (rc_str_bytes a1.value)) (text_value (rc_str_bytes a1.value)) []
          (text_keyed (rc_str_bytes a1.value))) (part_keyed
          (weak_keyed (λ s. rc_keys s.key ⟦<ArchivedLine as ArchivePointee>⟧.pointee 0
          (⟦<Line as Archive>⟧.meaning s.value.value) (⟦<Line as Archive>⟧.keys s.value.value))
          (λ s. shared_value s.key) (λ s. rc_keyed s.key ⟦<ArchivedLine as ArchivePointee>⟧.pointee
          0 (⟦<Line as Archive>⟧.meaning s.value.value) (⟦<Line as Archive>⟧.keys s.value.value)
          (keyed_of_line s.value.value)) a2.value) nothing_keyed)))
    ] };

    ghost planned = { elim [
      | EitherAlone a0 ↦ plain_variant_planned _ _ 0 (part ⟦<u8 as Portable>⟧.shape no_part) refl
          (both no_definition no_definition) _ _ (part_planned no_definition
          ⟦<u8 as Portable>⟧.shape (⟦<u8 as Archive>⟧.keys a0) (⟦<u8 as Archive>⟧.meaning a0)
          (leaf_planned no_definition _ _ [] _ refl) no_part_planned) refl
      | EitherTogether a0 a1 a2 ↦ plain_variant_planned _ _ 1
          (part ⟦<ArchivedRc<ArchivedSlice<ArchivedLine>, RcFlavor> as Portable>⟧.shape
          (part ⟦<ArchivedRc<ArchivedStr, RcFlavor> as Portable>⟧.shape
          (part ⟦<ArchivedRcWeak<ArchivedLine, RcFlavor> as Portable>⟧.shape no_part))) refl
          (both no_definition (both no_definition (both no_definition no_definition))) _ _
          (part_planned no_definition
          ⟦<ArchivedRc<ArchivedSlice<ArchivedLine>, RcFlavor> as Portable>⟧.shape
          (⟦<SharedSlice<Line> as Archive>⟧.keys a0) (⟦<SharedSlice<Line> as Archive>⟧.meaning a0)
          (rc_planned no_definition a0.key (run ⟦<ArchivedLine as Portable>⟧.shape)
          (length (rc_slice_items a0.value)) (list (each_meaning ⟦<Line as Archive>⟧.meaning
          (rc_slice_items a0.value))) (each_keys ⟦<Line as Archive>⟧.keys (rc_slice_items a0.value))
          (slice_planned no_definition ⟦<ArchivedLine as Portable>⟧.shape ⟦<Line as Archive>⟧.keys
          ⟦<Line as Archive>⟧.meaning planned_of_line (rc_slice_items a0.value)))
          (part_planned no_definition ⟦<ArchivedRc<ArchivedStr, RcFlavor> as Portable>⟧.shape
          (⟦<SharedStr as Archive>⟧.keys a1) (⟦<SharedStr as Archive>⟧.meaning a1)
          (rc_planned no_definition a1.key text (length (rc_str_bytes a1.value))
          (text_value (rc_str_bytes a1.value)) [] (text_planned no_definition []
          (rc_str_bytes a1.value))) (part_planned no_definition
          ⟦<ArchivedRcWeak<ArchivedLine, RcFlavor> as Portable>⟧.shape
          (⟦<WeakShared<Line> as Archive>⟧.keys a2) (⟦<WeakShared<Line> as Archive>⟧.meaning a2)
          (weak_planned no_definition rc_flavor ⟦<ArchivedLine as ArchivePointee>⟧.pointee
          (λ s. rc_keys s.key ⟦<ArchivedLine as ArchivePointee>⟧.pointee 0
          (⟦<Line as Archive>⟧.meaning s.value.value) (⟦<Line as Archive>⟧.keys s.value.value))
          (λ s. shared_value s.key) (λ s. rc_one_planned no_definition s.key
          ⟦<ArchivedLine as ArchivePointee>⟧.pointee ⟦<ArchivedLine as Portable>⟧.shape refl
          (⟦<Line as Archive>⟧.meaning s.value.value) (⟦<Line as Archive>⟧.keys s.value.value)
          (planned_of_line s.value.value)) a2.value) no_part_planned))) refl
    ] };

    #[inline(always)]
    fn resolve(
        &self,
        resolver: Self::Resolver,
        place: Place<'_, Self::Archived>,
    ) -> Result<(), Error>
        requires zeroed { ZeroedPlace 24 place.pos place.bytes.now }
        requires same_value { ⟦<Self as Archive>⟧.belongs self.now resolver }
        ensures { ResolvesAs ⟦<Self::Archived as Portable>⟧ place
            (⟦<Self as Archive>⟧.flat self.now resolver) result }
    {
        let Place { bytes, pos, .. } = place;
        match self {
            Either::Alone(a0) => {
                let EitherResolver::Alone(kept) = resolver else {
                    unreachable!();
                };
                resolve_case_1::<u8, ArchivedEither>(0, a0, kept, Place::new(pos, bytes))
            }
            Either::Together {
                lines: a0,
                text: a1,
                weak: a2,
            } => {
                let EitherResolver::Together(kept) = resolver else {
                    unreachable!();
                };
                resolve_case_3::<SharedSlice<Line>, SharedStr, WeakShared<Line>, ArchivedEither>(
                    1,
                    a0,
                    a1,
                    a2,
                    kept,
                    Place::new(pos, bytes),
                )
            }
        }
    }

    #[inline(always)]
    fn copy_optimization() -> CopyOptimization<Self> {
        CopyOptimization::disable()
    }

    #[inline(always)]
    fn serialize_copied<S: Writer + Keys>(
        _values: &[Self],
        _together: usize,
        _serializer: &mut S,
    ) -> Result<Option<usize>, Error> {
        Ok(None)
    }
}

impl<S: Sharing + Writer + ResolverAlloc> Serialize<S> for Either {
    #[inline(always)]
    fn serialize(&self, serializer: &mut S) -> Result<Self::Resolver, Error> {
        match self {
            Either::Alone(a0) => match serialize_case_1::<u8, ArchivedEither, S>(
                0, a0, serializer,
            ) {
                Ok(kept) => Ok(EitherResolver::Alone(kept)),
                Err(error) => Err(error),
            },
            Either::Together {
                lines: a0,
                text: a1,
                weak: a2,
            } => match serialize_case_3::<
                SharedSlice<Line>,
                SharedStr,
                WeakShared<Line>,
                ArchivedEither,
                S,
            >(1, a0, a1, a2, serializer)
            {
                Ok(kept) => Ok(EitherResolver::Together(kept)),
                Err(error) => Err(error),
            },
        }
    }
}

/// As a region of its own: the value itself.
impl ArchiveUnsized for Either {
    ghost use Rattle.derived_types.specs.contracts.track.EitherArchive.TheImpl.Laws.{keyed-law as keyed_of_either, planned-law as planned_of_either};

    type Archived = ArchivedEither;

    ghost source_length = { λ _. 0 };

    ghost meaning = { ⟦<Either as Archive>⟧.meaning };

    ghost keys = { ⟦<Either as Archive>⟧.keys };

    ghost keyed = { keyed_of_either };

    ghost one_length = { λ _ _. refl };

    ghost planned = { λ v. one_planned no_definition (choice (codes "ArchivedEither")
        (variant (part ⟦<u8 as Portable>⟧.shape no_part)
        (variant (part ⟦<ArchivedRc<ArchivedSlice<ArchivedLine>, RcFlavor> as Portable>⟧.shape
        (part ⟦<ArchivedRc<ArchivedStr, RcFlavor> as Portable>⟧.shape
        (part ⟦<ArchivedRcWeak<ArchivedLine, RcFlavor> as Portable>⟧.shape no_part))) no_variant)))
        (⟦<Either as Archive>⟧.keys v) (⟦<Either as Archive>⟧.meaning v) (planned_of_either v) };

    #[inline(always)]
    fn archived_metadata(&self) -> Result<(), Error> {
        Ok(())
    }
}

impl<S: Sharing + Writer + ResolverAlloc> SerializeUnsized<S> for Either {
    #[inline(always)]
    fn serialize_unsized(&self, serializer: &mut S) -> Result<usize, Error> {
        serialize_one(self, serializer)
    }
}

impl<D: Pooling<SharedSlice<Line>> + Pooling<SharedStr> + Pooling<Shared<Line>>> Deserialize<
    Either,
    D,
> for ArchivedEither {
    #[inline(always)]
    fn deserialize_part(
        alloc: Global,
        part: RawView<'_>,
        deserializer: &mut D,
    ) -> Result<Either, Error>
        requires { IsPartOf ⟦<Self as ArchivePointee>⟧ part }
        ensures { ReadsAs ⟦<Self as ArchivePointee>⟧ part D.Entries deserializer
            ⟦<Either as Archive>⟧ result }
    {
        match known_tag::<Self>(part) {
            0 => match read_case::<Self, EitherAloneParts, EitherAloneOwned, D>(
                0,
                alloc,
                part,
                deserializer,
            ) {
                Ok((a0, ())) => Ok(Either::Alone(a0)),
                Err(error) => Err(error),
            },
            _ => match read_case::<Self, EitherTogetherParts, EitherTogetherOwned, D>(
                1,
                alloc,
                part,
                deserializer,
            ) {
                Ok((a0, (a1, (a2, ())))) => Ok(Either::Together {
                    lines: a0,
                    text: a1,
                    weak: a2,
                }),
                Err(error) => Err(error),
            },
        }
    }
}

/// What a view of an archived `Either` shows, by its tag.
#[derive(Drop)]
pub enum ViewOfEither<'a> {
    /// It doesn't.
    Alone(Ref<'a, u8>),
    /// It does.
    Together {
        /// Lines.
        lines: Ref<'a, ArchivedRc<ArchivedSlice<ArchivedLine>, RcFlavor>>,
        /// A text.
        text: Ref<'a, ArchivedRc<ArchivedStr, RcFlavor>>,
        /// Perhaps a line.
        weak: Ref<'a, ArchivedRcWeak<ArchivedLine, RcFlavor>>,
    },
}

/// The variant of an archived `Either`, as a view.
pub trait EitherView<'a> {
    /// The variant that the tag names, with views of its fields.
    fn variant(self) -> ViewOfEither<'a>;
}

impl<'a> EitherView<'a> for Ref<'a, ArchivedEither> {
    ghost use Rattle.derived_types.specs.declared.track.ViewOfEither.TheVariants.{Alone as EitherAloneShown, Together as EitherTogetherShown};

    fn variant(self) -> ViewOfEither<'a>
        ensures shows { elim result [
          | EitherAloneShown a0 ↦ (tag_of self.entry ≡ 0) × (a0.bytes.now ≡ self.entry.bytes.now)
              × (a0.pos ≡ self.entry.pos + 1) × (a0.len ≡ 0)
              × ShowsValueOf a0 self.entry (payload_in 0)
          | EitherTogetherShown a0 a1 a2 ↦ (tag_of self.entry ≡ 1)
              × (a0.bytes.now ≡ self.entry.bytes.now) × (a0.pos ≡ self.entry.pos + 4) × (a0.len ≡ 0)
              × ShowsValueOf a0 self.entry (payload_in 0) × (a1.bytes.now ≡ self.entry.bytes.now)
              × (a1.pos ≡ self.entry.pos + 12) × (a1.len ≡ 0)
              × ShowsValueOf a1 self.entry (payload_in 1) × (a2.bytes.now ≡ self.entry.bytes.now)
              × (a2.pos ≡ self.entry.pos + 20) × (a2.len ≡ 0)
              × ShowsValueOf a2 self.entry (payload_in 2)
        ] }
    {
        match tag_in(self) {
            0 => ViewOfEither::Alone(part_in_case::<ArchivedEither, u8>(self, 0, 0, 1)),
            _ => ViewOfEither::Together {
                lines: part_in_case::<
                    ArchivedEither,
                    ArchivedRc<ArchivedSlice<ArchivedLine>, RcFlavor>,
                >(self, 1, 0, 4),
                text: part_in_case::<ArchivedEither, ArchivedRc<ArchivedStr, RcFlavor>>(
                    self, 1, 1, 12,
                ),
                weak: part_in_case::<ArchivedEither, ArchivedRcWeak<ArchivedLine, RcFlavor>>(
                    self, 1, 2, 20,
                ),
            },
        }
    }
}

/// The fields of an archived `Either`, as seals. The caller must ensure that the tag is the variant's.
pub trait EitherSeal<'a> {
    // The seal shows a part of a buffer that was checked.
    ghost sealed: { Self → Type 0 };

    // The tag that it shows.
    ghost tag: { Self → ℕ };

    /// The field `0` of `Alone`.
    fn alone_0_mut(self) -> Seal<'a, u8>
        requires come_to { sealed self }
        requires tag { tag self ≡ 0 };

    /// Lines.
    fn together_lines_mut(self) -> Seal<'a, ArchivedRc<ArchivedSlice<ArchivedLine>, RcFlavor>>
        requires come_to { sealed self }
        requires tag { tag self ≡ 1 };

    /// A text.
    fn together_text_mut(self) -> Seal<'a, ArchivedRc<ArchivedStr, RcFlavor>>
        requires come_to { sealed self }
        requires tag { tag self ≡ 1 };

    /// Perhaps a line.
    fn together_weak_mut(self) -> Seal<'a, ArchivedRcWeak<ArchivedLine, RcFlavor>>
        requires come_to { sealed self }
        requires tag { tag self ≡ 1 };
}

impl<'a> EitherSeal<'a> for Seal<'a, ArchivedEither> {
    ghost sealed = { λ s. IsSealOf no_definition (one ⟦<ArchivedEither as Portable>⟧.shape) s };

    ghost tag = { λ s. seal_tag s };

    fn alone_0_mut(self) -> Seal<'a, u8>
        requires come_to { IsSealOf no_definition (one ⟦<ArchivedEither as Portable>⟧.shape) self }
        requires tag { seal_tag self ≡ 0 }
        ensures { SealsPart no_definition (one ⟦<ArchivedEither as Portable>⟧.shape) no_definition
            ⟦<u8 as ArchivePointee>⟧.pointee (self.entry.pos + 1) 0 self.entry result }
    {
        sealed_part_in_case::<ArchivedEither, u8>(self, 0, 0, 1)
    }

    fn together_lines_mut(self) -> Seal<'a, ArchivedRc<ArchivedSlice<ArchivedLine>, RcFlavor>>
        requires come_to { IsSealOf no_definition (one ⟦<ArchivedEither as Portable>⟧.shape) self }
        requires tag { seal_tag self ≡ 1 }
        ensures { SealsPart no_definition (one ⟦<ArchivedEither as Portable>⟧.shape) no_definition
            ⟦<ArchivedRc<ArchivedSlice<ArchivedLine>, RcFlavor> as ArchivePointee>⟧.pointee
            (self.entry.pos + 4) 0 self.entry result }
    {
        sealed_part_in_case::<ArchivedEither, ArchivedRc<ArchivedSlice<ArchivedLine>, RcFlavor>>(
            self, 1, 0, 4,
        )
    }

    fn together_text_mut(self) -> Seal<'a, ArchivedRc<ArchivedStr, RcFlavor>>
        requires come_to { IsSealOf no_definition (one ⟦<ArchivedEither as Portable>⟧.shape) self }
        requires tag { seal_tag self ≡ 1 }
        ensures { SealsPart no_definition (one ⟦<ArchivedEither as Portable>⟧.shape) no_definition
            ⟦<ArchivedRc<ArchivedStr, RcFlavor> as ArchivePointee>⟧.pointee (self.entry.pos + 12) 0
            self.entry result }
    {
        sealed_part_in_case::<ArchivedEither, ArchivedRc<ArchivedStr, RcFlavor>>(self, 1, 1, 12)
    }

    fn together_weak_mut(self) -> Seal<'a, ArchivedRcWeak<ArchivedLine, RcFlavor>>
        requires come_to { IsSealOf no_definition (one ⟦<ArchivedEither as Portable>⟧.shape) self }
        requires tag { seal_tag self ≡ 1 }
        ensures { SealsPart no_definition (one ⟦<ArchivedEither as Portable>⟧.shape) no_definition
            ⟦<ArchivedRcWeak<ArchivedLine, RcFlavor> as ArchivePointee>⟧.pointee
            (self.entry.pos + 20) 0 self.entry result }
    {
        sealed_part_in_case::<ArchivedEither, ArchivedRcWeak<ArchivedLine, RcFlavor>>(
            self, 1, 2, 20,
        )
    }
}
