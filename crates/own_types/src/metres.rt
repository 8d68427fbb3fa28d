//! A length in metres, of which slices are written in bulk.

/// A length in metres.
#[derive(Clone, Copy, Debug, PartialEq, Drop)]
pub struct Metres {
    /// The length, in metres.
    pub number: u32,
}

// Below this line all is written by tools/derive: change what is above it, and run it again.

ghost use Rattle.archive_core.specs.CallOutcomes.{ResolvesAs};
ghost use Rattle.archive_core.specs.Definitions.{both, no_definition};
ghost use Rattle.archive_core.specs.Fields.{field_in};
ghost use Rattle.archive_core.specs.Keyed.{nothing_keyed, number_keyed, part_keyed, record_keyed};
ghost use Rattle.archive_core.specs.LeafLayout.{no_definition_reached};
ghost use Rattle.archive_core.specs.PartsPlanned.{no_part_planned, part_planned};
ghost use Rattle.archive_core.specs.Plain.{plain_own_check, plain_record, plain_record_planned};
ghost use Rattle.archive_core.specs.Planned.{leaf_planned};
ghost use Rattle.archive_core.specs.PlannedOwners.{one_planned};
ghost use Rattle.archive_core.specs.ReadBack.{ReadsAs};
ghost use Rattle.archive_core.specs.SealOutcomes.{IsSealOf, SealsPart};
ghost use Rattle.archive_core.specs.Seen.{IsPartOf, ShowsValueOf};
ghost use Rattle.archive_core.specs.Shape.{no_part, one, part, parts};
ghost use Rattle.archive_core.specs.Value.{no_value, product, value};
ghost use Rattle.archive_core.specs.Writing.{ZeroedPlace};
ghost use Rattle.std.proofs.Common.{inl, inr, lit≤};
ghost use Rattle.std.specs.Prelude.{Some, [], length, refl, true, ◌++◌, ◌+◌, ◌≡◌};

use archive_core::error::Error;
use archive_core::fields::{copy_1, part_in_record, serialize_record_1};
use archive_core::place::Place;
use archive_core::primitive::ArchivedU32;
use archive_core::record::deserialize_record;
use archive_core::seal::{Seal, sealed_part_in_record};
use archive_core::self_check::{RecordCheck, SelfCheck};
use archive_core::ser::{ResolverAlloc, Writer, serialize_one};
use archive_core::shape::Defs;
use archive_core::slice::copy_groups;
use archive_core::traits::{
    Archive, ArchivePointee, ArchiveUnsized, Copied, CopiedSource, CopyOptimization, Deserialize,
    Entries, Keys, Portable, Record, Serialize, SerializeUnsized, expr_of_record,
};
use archive_core::validation::ArchiveContext;
use archive_core::view::{RawView, Ref};
use std::alloc::Global;

/// An archived `Metres`: 4 bytes at a multiple of 4.
pub struct ArchivedMetres;

type MetresParts = (ArchivedU32, ());

type MetresOwned = (u32, ());

impl ArchivePointee for ArchivedMetres {
    type ArchivedMetadata = ();

    ghost pointee = { one (parts (part ⟦<ArchivedU32 as Portable>⟧.shape no_part)) };

    ghost definitions = { no_definition };

    ghost metadata_length = { λ _. 0 };

    fn pointer_metadata(_metadata: &()) -> usize {
        0
    }
}

impl Portable for ArchivedMetres {
    ghost shape = { parts (part ⟦<ArchivedU32 as Portable>⟧.shape no_part) };

    ghost layout = { record { size = 4; align = 4 } };

    type Check = ArchivedMetres;

    ghost is_one = { refl };

    ghost is_align = { inr (inr (inl refl)) };

    ghost has_layout = { record { solved = λ s k. refl } };

    ghost no_others = { no_definition_reached (parts (part ⟦<ArchivedU32 as Portable>⟧.shape
        no_part)) };

    ghost checks = { λ _. plain_own_check _ _ _ _ _ refl refl refl refl };

    fn size() -> usize {
        4
    }

    fn align() -> usize {
        4
    }

    fn expr(alloc: Global) -> Result<archive_core::shape::Expr, Error> {
        expr_of_record::<MetresParts>(alloc)
    }

    fn define(_alloc: Global, _defs: &mut Defs) -> Result<(), Error> {
        Ok(())
    }
}

impl SelfCheck for ArchivedMetres {
    ghost shape = { parts (part ⟦<ArchivedU32 as Portable>⟧.shape no_part) };

    ghost definitions = { (both no_definition no_definition) };

    ghost span = { 4 };

    ghost direct = { true };

    ghost nameless = { true };

    fn is_direct() -> bool {
        true
    }

    fn is_nameless() -> bool {
        true
    }

    #[inline(always)]
    fn check_at<C: ArchiveContext>(
        bytes: &[u8],
        at: usize,
        refusal: &mut Error,
        context: &mut C,
    ) -> Option<()> {
        RecordCheck::<MetresParts>::check_at(bytes, at, refusal, context)
    }
}

impl Record for ArchivedMetres {
    type Parts = MetresParts;

    ghost has_parts = { plain_record (part ⟦<ArchivedU32 as Portable>⟧.shape no_part)
        (both no_definition no_definition) refl };

    ghost holds = { lit≤ tt };
}

/// What is kept of `Metres` between `serialize` and `resolve`.
#[derive(Drop)]
pub struct MetresResolver {
    kept: (<u32 as Archive>::Resolver, ()),
}

impl Archive for Metres {
    type Archived = ArchivedMetres;

    type Resolver = MetresResolver;

    ghost meaning = { λ v. product (value (⟦<u32 as Archive>⟧.meaning v.number) no_value) };

    ghost flat = { λ v r. product (value (⟦<u32 as Archive>⟧.flat v.number r.kept.0) no_value) };

    ghost keys = { λ v. ⟦<u32 as Archive>⟧.keys v.number ++ [] };

    ghost belongs = { λ v r. ⟦<u32 as Archive>⟧.belongs v.number r.kept.0 × Unit {0} };

    ghost in_bulk = { Some (λ v. ⟦<u32 as Copied>⟧.copied_bytes v.number ++ []) };

    ghost keyed = { λ v. record_keyed (part_keyed (number_keyed _) nothing_keyed) };

    ghost planned = { λ v. plain_record_planned (both no_definition no_definition)
        (part ⟦<ArchivedU32 as Portable>⟧.shape no_part) _ _
        (part_planned no_definition ⟦<ArchivedU32 as Portable>⟧.shape
        (⟦<u32 as Archive>⟧.keys v.number) (⟦<u32 as Archive>⟧.meaning v.number)
        (leaf_planned no_definition _ _ [] _ refl) no_part_planned) refl };

    #[inline(always)]
    fn resolve(
        &self,
        resolver: Self::Resolver,
        place: Place<'_, Self::Archived>,
    ) -> Result<(), Error>
        requires zeroed { ZeroedPlace 4 place.pos place.bytes.now }
        requires same_value { ⟦<Self as Archive>⟧.belongs self.now resolver }
        ensures { ResolvesAs ⟦<Self::Archived as Portable>⟧ place
            (⟦<Self as Archive>⟧.flat self.now resolver) result }
    {
        let Place { bytes, .. } = place;
        self.copy_one(bytes);
        Ok(())
    }

    #[inline(always)]
    fn copy_optimization() -> CopyOptimization<Self> {
        CopyOptimization::enable()
    }

    #[inline(always)]
    fn serialize_copied<S: Writer + Keys>(
        values: &[Self],
        together: usize,
        serializer: &mut S,
    ) -> Result<Option<usize>, Error> {
        copy_groups(values, together, serializer)
    }
}

/// Slices of it are written in bulk.
impl Copied for Metres {
    type CopiedAs = ArchivedMetres;

    ghost copied_keys = { λ _. [] };

    ghost copied_meaning = { λ v. product (value (⟦<u32 as Archive>⟧.meaning v.number) no_value) };

    ghost copied_bytes = { λ v. ⟦<u32 as Copied>⟧.copied_bytes v.number ++ [] };

    #[inline(always)]
    fn copied_size() -> usize {
        4
    }

    #[inline(always)]
    fn copy_one(&self, bytes: &mut [u8]) {
        copy_1(&self.number, bytes);
    }
}

impl CopiedSource for Metres {
    ghost same_keys = { refl };

    ghost same_meaning = { refl };
}

impl<S: Writer + ResolverAlloc> Serialize<S> for Metres {
    #[inline(always)]
    fn serialize(&self, serializer: &mut S) -> Result<Self::Resolver, Error> {
        match serialize_record_1::<u32, ArchivedMetres, S>(&self.number, serializer) {
            Ok(kept) => Ok(MetresResolver { kept }),
            Err(error) => Err(error),
        }
    }
}

/// As a region of its own: the value itself.
impl ArchiveUnsized for Metres {
    ghost use Rattle.own_types.specs.contracts.metres.MetresArchive.TheImpl.Laws.{keyed-law as keyed_of_metres, planned-law as planned_of_metres};

    type Archived = ArchivedMetres;

    ghost source_length = { λ _. 0 };

    ghost meaning = { ⟦<Metres as Archive>⟧.meaning };

    ghost keys = { ⟦<Metres as Archive>⟧.keys };

    ghost keyed = { keyed_of_metres };

    ghost one_length = { λ _ _. refl };

    ghost planned = { λ v. one_planned no_definition (parts
        (part ⟦<ArchivedU32 as Portable>⟧.shape no_part)) (⟦<Metres as Archive>⟧.keys v)
        (⟦<Metres as Archive>⟧.meaning v) (planned_of_metres v) };

    #[inline(always)]
    fn archived_metadata(&self) -> Result<(), Error> {
        Ok(())
    }
}

impl<S: Writer + ResolverAlloc> SerializeUnsized<S> for Metres {
    #[inline(always)]
    fn serialize_unsized(&self, serializer: &mut S) -> Result<usize, Error> {
        serialize_one(self, serializer)
    }
}

impl<D: Entries> Deserialize<Metres, D> for ArchivedMetres {
    #[inline(always)]
    fn deserialize_part(
        alloc: Global,
        part: RawView<'_>,
        deserializer: &mut D,
    ) -> Result<Metres, Error>
        requires { IsPartOf ⟦<Self as ArchivePointee>⟧ part }
        ensures { ReadsAs ⟦<Self as ArchivePointee>⟧ part D.Entries deserializer
            ⟦<Metres as Archive>⟧ result }
    {
        match deserialize_record::<Self, MetresOwned, D>(alloc, part, deserializer) {
            Ok((a0, ())) => Ok(Metres { number: a0 }),
            Err(error) => Err(error),
        }
    }
}

/// The fields of an archived `Metres`, as views.
pub trait MetresView<'a> {
    /// The length, in metres.
    fn number(self) -> Ref<'a, ArchivedU32>;
}

impl<'a> MetresView<'a> for Ref<'a, ArchivedMetres> {
    fn number(self) -> Ref<'a, ArchivedU32>
        ensures buffer { result.bytes.now ≡ self.entry.bytes.now }
        ensures position { result.pos ≡ self.entry.pos + 0 }
        ensures length { result.len ≡ 0 }
        ensures shows { ShowsValueOf result self.entry (field_in 0) }
    {
        part_in_record::<ArchivedMetres, ArchivedU32>(self, 0, 0)
    }
}

/// The fields of an archived `Metres`, as seals.
pub trait MetresSeal<'a> {
    // The seal shows a part of a buffer that was checked.
    ghost sealed: { Self → Type 0 };

    /// The length, in metres.
    fn number_mut(self) -> Seal<'a, ArchivedU32>
        requires { sealed self };
}

impl<'a> MetresSeal<'a> for Seal<'a, ArchivedMetres> {
    ghost sealed = { λ s. IsSealOf no_definition (one ⟦<ArchivedMetres as Portable>⟧.shape) s };

    fn number_mut(self) -> Seal<'a, ArchivedU32>
        requires come_to { IsSealOf no_definition (one ⟦<ArchivedMetres as Portable>⟧.shape) self }
        ensures { SealsPart no_definition (one ⟦<ArchivedMetres as Portable>⟧.shape) no_definition
            ⟦<ArchivedU32 as ArchivePointee>⟧.pointee (self.entry.pos + 0) 0 self.entry result }
    {
        sealed_part_in_record::<ArchivedMetres, ArchivedU32>(self, 0, 0)
    }
}
