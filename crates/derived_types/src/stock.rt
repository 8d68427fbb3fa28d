//! What holds maps.

use crate::spot::Spot;
use std::collections::BTreeMap;

/// What is in stock.
#[derive(Debug, PartialEq, Drop)]
pub struct Stock {
    /// What things cost, by their names.
    pub prices: BTreeMap<String, u32>,
    /// Where they lie, by their numbers.
    pub places: BTreeMap<u16, Spot>,
}

// Below this line all is written by tools/derive: change what is above it, and run it again.

ghost use Rattle.archive_core.specs.CallOutcomes.{ResolvesAs};
ghost use Rattle.archive_core.specs.Definitions.{both, no_definition};
ghost use Rattle.archive_core.specs.Fields.{field_in};
ghost use Rattle.archive_core.specs.Keyed.{nothing_keyed, number_keyed, part_keyed, record_keyed, text_keyed};
ghost use Rattle.archive_core.specs.LeafLayout.{no_definition_reached};
ghost use Rattle.archive_core.specs.PartsPlanned.{no_part_planned, part_planned};
ghost use Rattle.archive_core.specs.Plain.{plain_own_check, plain_record, plain_record_planned};
ghost use Rattle.archive_core.specs.Planned.{leaf_planned, string_planned};
ghost use Rattle.archive_core.specs.PlannedMaps.{map_of_pairs_planned, pairs_keyed};
ghost use Rattle.archive_core.specs.PlannedOwners.{one_planned};
ghost use Rattle.archive_core.specs.ReadBack.{ReadsAs};
ghost use Rattle.archive_core.specs.SealOutcomes.{IsSealOf, SealsPart};
ghost use Rattle.archive_core.specs.Seen.{IsPartOf, ShowsValueOf};
ghost use Rattle.archive_core.specs.Shape.{no_part, one, part, parts};
ghost use Rattle.archive_core.specs.Value.{no_value, product, value};
ghost use Rattle.archive_core.specs.Writing.{ZeroedPlace};
ghost use Rattle.std.proofs.Common.{inl, inr, lit≤};
ghost use Rattle.std.specs.Prelude.{None, [], length, refl, string_bytes, true, ◌++◌, ◌+◌, ◌≡◌};

use crate::spot::ArchivedSpot;
use archive_core::error::Error;
use archive_core::fields::{part_in_record, resolve_record_2, serialize_record_2};
use archive_core::map::ArchivedSortedMap;
use archive_core::place::Place;
use archive_core::primitive::{ArchivedU16, ArchivedU32};
use archive_core::record::deserialize_record;
use archive_core::seal::{Seal, sealed_part_in_record};
use archive_core::self_check::{RecordCheck, SelfCheck};
use archive_core::ser::{ResolverAlloc, Writer, serialize_one};
use archive_core::shape::Defs;
use archive_core::string::ArchivedString;
use archive_core::traits::{
    Archive, ArchivePointee, ArchiveUnsized, CopyOptimization, Deserialize, Entries, Keys, MapKey,
    Portable, Record, Serialize, SerializeUnsized, expr_of_record,
};
use archive_core::validation::ArchiveContext;
use archive_core::view::{RawView, Ref};
use std::alloc::Global;

/// An archived `Stock`: 16 bytes at a multiple of 4.
pub struct ArchivedStock;

type StockParts = (
    ArchivedSortedMap<ArchivedString, ArchivedU32>,
    (ArchivedSortedMap<ArchivedU16, ArchivedSpot>, ()),
);

type StockOwned = (BTreeMap<String, u32>, (BTreeMap<u16, Spot>, ()));

impl ArchivePointee for ArchivedStock {
    type ArchivedMetadata = ();

    ghost pointee = { one
        (parts (part ⟦<ArchivedSortedMap<ArchivedString, ArchivedU32> as Portable>⟧.shape
        (part ⟦<ArchivedSortedMap<ArchivedU16, ArchivedSpot> as Portable>⟧.shape no_part))) };

    ghost definitions = { no_definition };

    ghost metadata_length = { λ _. 0 };

    fn pointer_metadata(_metadata: &()) -> usize {
        0
    }
}

impl Portable for ArchivedStock {
    ghost shape = { parts (part ⟦<ArchivedSortedMap<ArchivedString, ArchivedU32> as Portable>⟧.shape
        (part ⟦<ArchivedSortedMap<ArchivedU16, ArchivedSpot> as Portable>⟧.shape no_part)) };

    ghost layout = { record { size = 16; align = 4 } };

    type Check = ArchivedStock;

    ghost is_one = { refl };

    ghost is_align = { inr (inr (inl refl)) };

    ghost has_layout = { record { solved = λ s k. refl } };

    ghost no_others = { no_definition_reached (parts (part
        ⟦<ArchivedSortedMap<ArchivedString, ArchivedU32> as Portable>⟧.shape
        (part ⟦<ArchivedSortedMap<ArchivedU16, ArchivedSpot> as Portable>⟧.shape no_part))) };

    ghost checks = { λ _. plain_own_check _ _ _ _ _ refl refl refl refl };

    fn size() -> usize {
        16
    }

    fn align() -> usize {
        4
    }

    fn expr(alloc: Global) -> Result<archive_core::shape::Expr, Error> {
        expr_of_record::<StockParts>(alloc)
    }

    fn define(_alloc: Global, _defs: &mut Defs) -> Result<(), Error> {
        Ok(())
    }
}

impl SelfCheck for ArchivedStock {
    ghost shape = { parts (part ⟦<ArchivedSortedMap<ArchivedString, ArchivedU32> as Portable>⟧.shape
        (part ⟦<ArchivedSortedMap<ArchivedU16, ArchivedSpot> as Portable>⟧.shape no_part)) };

    ghost definitions = { (both (both no_definition (both no_definition no_definition))
        (both (both no_definition (both no_definition no_definition)) no_definition)) };

    ghost span = { 16 };

    ghost direct = { true };

    ghost nameless = { true };

    fn is_direct() -> bool {
        true
    }

    fn is_nameless() -> bool {
        true
    }

    #[inline(always)]
    fn check_at<C: ArchiveContext>(
        bytes: &[u8],
        at: usize,
        refusal: &mut Error,
        context: &mut C,
    ) -> Option<()> {
        RecordCheck::<StockParts>::check_at(bytes, at, refusal, context)
    }
}

impl Record for ArchivedStock {
    type Parts = StockParts;

    ghost has_parts = { plain_record
        (part ⟦<ArchivedSortedMap<ArchivedString, ArchivedU32> as Portable>⟧.shape
        (part ⟦<ArchivedSortedMap<ArchivedU16, ArchivedSpot> as Portable>⟧.shape no_part))
        (both (both no_definition (both no_definition no_definition))
        (both (both no_definition (both no_definition no_definition)) no_definition)) refl };

    ghost holds = { lit≤ tt };
}

/// What is kept of `Stock` between `serialize` and `resolve`.
#[derive(Drop)]
pub struct StockResolver {
    kept: (
        <BTreeMap<String, u32> as Archive>::Resolver,
        (<BTreeMap<u16, Spot> as Archive>::Resolver, ()),
    ),
}

impl Archive for Stock {
    ghost use Rattle.derived_types.specs.contracts.spot.SpotArchive.TheImpl.Laws.{keyed-law as keyed_of_spot, planned-law as planned_of_spot};

    type Archived = ArchivedStock;

    type Resolver = StockResolver;

    ghost meaning = { λ v. product (value (⟦<BTreeMap<String, u32> as Archive>⟧.meaning v.prices)
        (value (⟦<BTreeMap<u16, Spot> as Archive>⟧.meaning v.places) no_value)) };

    ghost flat = { λ v r. product (value (⟦<BTreeMap<String, u32> as Archive>⟧.flat v.prices
        r.kept.0) (value (⟦<BTreeMap<u16, Spot> as Archive>⟧.flat v.places r.kept.1.0) no_value)) };

    ghost keys = { λ v. ⟦<BTreeMap<String, u32> as Archive>⟧.keys v.prices
        ++ (⟦<BTreeMap<u16, Spot> as Archive>⟧.keys v.places ++ []) };

    ghost belongs = { λ v r. ⟦<BTreeMap<String, u32> as Archive>⟧.belongs v.prices r.kept.0
        × (⟦<BTreeMap<u16, Spot> as Archive>⟧.belongs v.places r.kept.1.0 × Unit {0}) };

    ghost in_bulk = { None };

    ghost keyed = { λ v. record_keyed (part_keyed (pairs_keyed ⟦<String as Archive>⟧.keys
        ⟦<u32 as Archive>⟧.keys ⟦<String as Archive>⟧.meaning ⟦<u32 as Archive>⟧.meaning
        (λ x. text_keyed (string_bytes x)) (λ x. number_keyed _) v.prices.entries)
        (part_keyed (pairs_keyed ⟦<u16 as Archive>⟧.keys ⟦<Spot as Archive>⟧.keys
        ⟦<u16 as Archive>⟧.meaning ⟦<Spot as Archive>⟧.meaning (λ x. number_keyed _) keyed_of_spot
        v.places.entries) nothing_keyed)) };

    ghost planned = { λ v. plain_record_planned (both
        (both no_definition (both no_definition no_definition))
        (both (both no_definition (both no_definition no_definition)) no_definition))
        (part ⟦<ArchivedSortedMap<ArchivedString, ArchivedU32> as Portable>⟧.shape
        (part ⟦<ArchivedSortedMap<ArchivedU16, ArchivedSpot> as Portable>⟧.shape no_part)) _ _
        (part_planned (both no_definition (both no_definition no_definition))
        ⟦<ArchivedSortedMap<ArchivedString, ArchivedU32> as Portable>⟧.shape
        (⟦<BTreeMap<String, u32> as Archive>⟧.keys v.prices)
        (⟦<BTreeMap<String, u32> as Archive>⟧.meaning v.prices)
        (map_of_pairs_planned ⟦<String as Archive>⟧.keys ⟦<u32 as Archive>⟧.keys
        ⟦<String as Archive>⟧.meaning ⟦<u32 as Archive>⟧.meaning no_definition no_definition
        ⟦<ArchivedString as Portable>⟧.shape ⟦<ArchivedU32 as Portable>⟧.shape
        (λ x. string_planned no_definition [] (string_bytes x))
        (λ x. leaf_planned no_definition _ _ [] _ refl) ⟦<ArchivedString as MapKey>⟧.key refl
        v.prices.entries) (part_planned (both no_definition (both no_definition no_definition))
        ⟦<ArchivedSortedMap<ArchivedU16, ArchivedSpot> as Portable>⟧.shape
        (⟦<BTreeMap<u16, Spot> as Archive>⟧.keys v.places)
        (⟦<BTreeMap<u16, Spot> as Archive>⟧.meaning v.places)
        (map_of_pairs_planned ⟦<u16 as Archive>⟧.keys ⟦<Spot as Archive>⟧.keys
        ⟦<u16 as Archive>⟧.meaning ⟦<Spot as Archive>⟧.meaning no_definition no_definition
        ⟦<ArchivedU16 as Portable>⟧.shape ⟦<ArchivedSpot as Portable>⟧.shape
        (λ x. leaf_planned no_definition _ _ [] _ refl) planned_of_spot
        ⟦<ArchivedU16 as MapKey>⟧.key refl v.places.entries) no_part_planned)) refl };

    #[inline(always)]
    fn resolve(
        &self,
        resolver: Self::Resolver,
        place: Place<'_, Self::Archived>,
    ) -> Result<(), Error>
        requires zeroed { ZeroedPlace 16 place.pos place.bytes.now }
        requires same_value { ⟦<Self as Archive>⟧.belongs self.now resolver }
        ensures { ResolvesAs ⟦<Self::Archived as Portable>⟧ place
            (⟦<Self as Archive>⟧.flat self.now resolver) result }
    {
        let Place { bytes, pos, .. } = place;
        let StockResolver { kept } = resolver;
        resolve_record_2::<BTreeMap<String, u32>, BTreeMap<u16, Spot>, ArchivedStock>(
            &self.prices,
            &self.places,
            kept,
            Place::new(pos, bytes),
        )
    }

    #[inline(always)]
    fn copy_optimization() -> CopyOptimization<Self> {
        CopyOptimization::disable()
    }

    #[inline(always)]
    fn serialize_copied<S: Writer + Keys>(
        _values: &[Self],
        _together: usize,
        _serializer: &mut S,
    ) -> Result<Option<usize>, Error> {
        Ok(None)
    }
}

impl<S: Writer + ResolverAlloc> Serialize<S> for Stock {
    #[inline(always)]
    fn serialize(&self, serializer: &mut S) -> Result<Self::Resolver, Error> {
        match serialize_record_2::<BTreeMap<String, u32>, BTreeMap<u16, Spot>, ArchivedStock, S>(
            &self.prices,
            &self.places,
            serializer,
        ) {
            Ok(kept) => Ok(StockResolver { kept }),
            Err(error) => Err(error),
        }
    }
}

/// As a region of its own: the value itself.
impl ArchiveUnsized for Stock {
    ghost use Rattle.derived_types.specs.contracts.stock.StockArchive.TheImpl.Laws.{keyed-law as keyed_of_stock, planned-law as planned_of_stock};

    type Archived = ArchivedStock;

    ghost source_length = { λ _. 0 };

    ghost meaning = { ⟦<Stock as Archive>⟧.meaning };

    ghost keys = { ⟦<Stock as Archive>⟧.keys };

    ghost keyed = { keyed_of_stock };

    ghost one_length = { λ _ _. refl };

    ghost planned = { λ v. one_planned no_definition (parts
        (part ⟦<ArchivedSortedMap<ArchivedString, ArchivedU32> as Portable>⟧.shape
        (part ⟦<ArchivedSortedMap<ArchivedU16, ArchivedSpot> as Portable>⟧.shape no_part)))
        (⟦<Stock as Archive>⟧.keys v) (⟦<Stock as Archive>⟧.meaning v) (planned_of_stock v) };

    #[inline(always)]
    fn archived_metadata(&self) -> Result<(), Error> {
        Ok(())
    }
}

impl<S: Writer + ResolverAlloc> SerializeUnsized<S> for Stock {
    #[inline(always)]
    fn serialize_unsized(&self, serializer: &mut S) -> Result<usize, Error> {
        serialize_one(self, serializer)
    }
}

impl<D: Entries> Deserialize<Stock, D> for ArchivedStock {
    #[inline(always)]
    fn deserialize_part(
        alloc: Global,
        part: RawView<'_>,
        deserializer: &mut D,
    ) -> Result<Stock, Error>
        requires { IsPartOf ⟦<Self as ArchivePointee>⟧ part }
        ensures { ReadsAs ⟦<Self as ArchivePointee>⟧ part D.Entries deserializer
            ⟦<Stock as Archive>⟧ result }
    {
        match deserialize_record::<Self, StockOwned, D>(alloc, part, deserializer) {
            Ok((a0, (a1, ()))) => Ok(Stock {
                prices: a0,
                places: a1,
            }),
            Err(error) => Err(error),
        }
    }
}

/// The fields of an archived `Stock`, as views.
pub trait StockView<'a> {
    /// What things cost, by their names.
    fn prices(self) -> Ref<'a, ArchivedSortedMap<ArchivedString, ArchivedU32>>;

    /// Where they lie, by their numbers.
    fn places(self) -> Ref<'a, ArchivedSortedMap<ArchivedU16, ArchivedSpot>>;
}

impl<'a> StockView<'a> for Ref<'a, ArchivedStock> {
    fn prices(self) -> Ref<'a, ArchivedSortedMap<ArchivedString, ArchivedU32>>
        ensures buffer { result.bytes.now ≡ self.entry.bytes.now }
        ensures position { result.pos ≡ self.entry.pos + 0 }
        ensures length { result.len ≡ 0 }
        ensures shows { ShowsValueOf result self.entry (field_in 0) }
    {
        part_in_record::<ArchivedStock, ArchivedSortedMap<ArchivedString, ArchivedU32>>(self, 0, 0)
    }

    fn places(self) -> Ref<'a, ArchivedSortedMap<ArchivedU16, ArchivedSpot>>
        ensures buffer { result.bytes.now ≡ self.entry.bytes.now }
        ensures position { result.pos ≡ self.entry.pos + 8 }
        ensures length { result.len ≡ 0 }
        ensures shows { ShowsValueOf result self.entry (field_in 1) }
    {
        part_in_record::<ArchivedStock, ArchivedSortedMap<ArchivedU16, ArchivedSpot>>(self, 1, 8)
    }
}

/// The fields of an archived `Stock`, as seals.
pub trait StockSeal<'a> {
    // The seal shows a part of a buffer that was checked.
    ghost sealed: { Self → Type 0 };

    /// What things cost, by their names.
    fn prices_mut(self) -> Seal<'a, ArchivedSortedMap<ArchivedString, ArchivedU32>>
        requires { sealed self };

    /// Where they lie, by their numbers.
    fn places_mut(self) -> Seal<'a, ArchivedSortedMap<ArchivedU16, ArchivedSpot>>
        requires { sealed self };
}

impl<'a> StockSeal<'a> for Seal<'a, ArchivedStock> {
    ghost sealed = { λ s. IsSealOf no_definition (one ⟦<ArchivedStock as Portable>⟧.shape) s };

    fn prices_mut(self) -> Seal<'a, ArchivedSortedMap<ArchivedString, ArchivedU32>>
        requires come_to { IsSealOf no_definition (one ⟦<ArchivedStock as Portable>⟧.shape) self }
        ensures { SealsPart no_definition (one ⟦<ArchivedStock as Portable>⟧.shape)
            (both no_definition (both no_definition no_definition))
            ⟦<ArchivedSortedMap<ArchivedString, ArchivedU32> as ArchivePointee>⟧.pointee
            (self.entry.pos + 0) 0 self.entry result }
    {
        sealed_part_in_record::<ArchivedStock, ArchivedSortedMap<ArchivedString, ArchivedU32>>(
            self, 0, 0,
        )
    }

    fn places_mut(self) -> Seal<'a, ArchivedSortedMap<ArchivedU16, ArchivedSpot>>
        requires come_to { IsSealOf no_definition (one ⟦<ArchivedStock as Portable>⟧.shape) self }
        ensures { SealsPart no_definition (one ⟦<ArchivedStock as Portable>⟧.shape)
            (both no_definition (both no_definition no_definition))
            ⟦<ArchivedSortedMap<ArchivedU16, ArchivedSpot> as ArchivePointee>⟧.pointee
            (self.entry.pos + 8) 0 self.entry result }
    {
        sealed_part_in_record::<ArchivedStock, ArchivedSortedMap<ArchivedU16, ArchivedSpot>>(
            self, 1, 8,
        )
    }
}
