//! A struct of seventeen fields, of which three are deep: they go in blocks.

/// What is sent by ship.
#[derive(Debug, PartialEq, Drop)]
pub struct Shipment {
    /// Its number.
    pub number: u8,
    /// Its key.
    pub key: [u8; 4],
    /// Whether it is open.
    pub is_open: bool,
    /// What it weighed, and where.
    pub weighed: Option<(u8, String)>,
    /// How dangerous it is.
    pub class: u8,
    /// The deck.
    pub deck: u8,
    /// The row in which it stands.
    pub row: u8,
    /// The place in the row.
    pub place: u8,
    /// How far it is from the middle of the ship.
    pub side: i8,
    /// How many layers it has.
    pub layers: u8,
    /// How many boxes.
    pub boxes: u8,
    /// At how many ports it was.
    pub ports: u8,
    /// How many stamps it has.
    pub stamps: u8,
    /// How long it is, and how wide.
    pub size: (u8, u8),
    /// Who sent it.
    pub sender: String,
    /// In how many days it is due.
    pub due: u8,
    /// When it came, in seconds.
    pub came: u64,
}

// Below this line all is written by tools/derive: change what is above it, and run it again.

ghost use Rattle.archive_core.specs.Arrays.{array_keyed, array_planned};
ghost use Rattle.archive_core.specs.CallOutcomes.{ResolvesAs};
ghost use Rattle.archive_core.specs.Definitions.{both, no_definition};
ghost use Rattle.archive_core.specs.Fields.{field_in};
ghost use Rattle.archive_core.specs.Keyed.{nothing_keyed, number_keyed, part_keyed, record_keyed, text_keyed};
ghost use Rattle.archive_core.specs.Layout.{up};
ghost use Rattle.archive_core.specs.LeafLayout.{no_definition_reached};
ghost use Rattle.archive_core.specs.Options.{option_keyed, option_planned};
ghost use Rattle.archive_core.specs.PartsLayout.{begins_at, begins_over, first_or, no_part_laid_out, no_part_sized, part_laid_out, part_sized, within_at, within_over};
ghost use Rattle.archive_core.specs.PartsPlanned.{no_part_planned, part_planned, product_planned};
ghost use Rattle.archive_core.specs.Plain.{plain_own_check, plain_record, plain_record_planned};
ghost use Rattle.archive_core.specs.Planned.{leaf_planned, string_planned};
ghost use Rattle.archive_core.specs.PlannedOwners.{one_planned};
ghost use Rattle.archive_core.specs.ReadBack.{ReadsAs};
ghost use Rattle.archive_core.specs.SealOutcomes.{IsSealOf, SealsPart};
ghost use Rattle.archive_core.specs.Seen.{IsPartOf, ShowsValueOf};
ghost use Rattle.archive_core.specs.SelfCheck.Regions.{no_lower, rises_over};
ghost use Rattle.archive_core.specs.Shape.{no_part, one, part, parts};
ghost use Rattle.archive_core.specs.Value.{no_value, product, value};
ghost use Rattle.archive_core.specs.Writing.{ZeroedPlace};
ghost use Rattle.std.proofs.Common.{inl, inr, lit≤};
ghost use Rattle.std.specs.Prelude.{None, [], length, refl, string_bytes, true, ◌++◌, ◌+◌, ◌≡◌};

use archive_core::core_impls::{ArchivedTuple2, OwnedArray};
use archive_core::error::Error;
use archive_core::fields::part_in_record;
use archive_core::option::ArchivedOption;
use archive_core::own::{Field, HasField};
use archive_core::parts::{DeserializeParts, OwnedParts, SerializeParts, SourceParts};
use archive_core::place::Place;
use archive_core::primitive::ArchivedU64;
use archive_core::record::{deserialize_record, resolve_record, serialize_record};
use archive_core::seal::{Seal, sealed_part_in_record};
use archive_core::self_check::{CheckedParts, RecordCheck, SelfCheck};
use archive_core::ser::{ResolverAlloc, Writer, serialize_one};
use archive_core::shape::Defs;
use archive_core::string::ArchivedString;
use archive_core::traits::{
    Archive, ArchivePointee, ArchiveUnsized, CopyOptimization, Deserialize, Entries, FourParts,
    Keys, Portable, PortableParts, Record, Serialize, SerializeUnsized, expr_of_record,
};
use archive_core::validation::ArchiveContext;
use archive_core::view::{RawView, Ref};
use std::alloc::Global;

/// An archived `Shipment`: 56 bytes at a multiple of 8.
pub struct ArchivedShipment;

type ShipmentParts = FourParts<
    u8,
    [u8; 4],
    bool,
    ArchivedOption<ArchivedTuple2<u8, ArchivedString>>,
    FourParts<u8, u8, u8, u8, FourParts<i8, u8, u8, u8, ShipmentRest1>>,
>;

type ShipmentOwned = FourParts<
    u8,
    OwnedArray<u8, 4>,
    bool,
    Option<(u8, String)>,
    FourParts<u8, u8, u8, u8, FourParts<i8, u8, u8, u8, ShipmentOwned1>>,
>;

// The fields as sources.
type ShipmentFields = FourParts<
    Field<0, u8>,
    Field<1, [u8; 4]>,
    Field<2, bool>,
    Field<3, Option<(u8, String)>>,
    FourParts<
        Field<4, u8>,
        Field<5, u8>,
        Field<6, u8>,
        Field<7, u8>,
        FourParts<Field<8, i8>, Field<9, u8>, Field<10, u8>, Field<11, u8>, ShipmentRest1>,
    >,
>;

impl HasField<0, u8> for Shipment {
    ghost field = { λ v. v.number };

    fn field(&self) -> &u8 {
        &self.number
    }
}

impl HasField<1, [u8; 4]> for Shipment {
    ghost field = { λ v. v.key };

    fn field(&self) -> &[u8; 4] {
        &self.key
    }
}

impl HasField<2, bool> for Shipment {
    ghost field = { λ v. v.is_open };

    fn field(&self) -> &bool {
        &self.is_open
    }
}

impl HasField<3, Option<(u8, String)>> for Shipment {
    ghost field = { λ v. v.weighed };

    fn field(&self) -> &Option<(u8, String)> {
        &self.weighed
    }
}

impl HasField<4, u8> for Shipment {
    ghost field = { λ v. v.class };

    fn field(&self) -> &u8 {
        &self.class
    }
}

impl HasField<5, u8> for Shipment {
    ghost field = { λ v. v.deck };

    fn field(&self) -> &u8 {
        &self.deck
    }
}

impl HasField<6, u8> for Shipment {
    ghost field = { λ v. v.row };

    fn field(&self) -> &u8 {
        &self.row
    }
}

impl HasField<7, u8> for Shipment {
    ghost field = { λ v. v.place };

    fn field(&self) -> &u8 {
        &self.place
    }
}

impl HasField<8, i8> for Shipment {
    ghost field = { λ v. v.side };

    fn field(&self) -> &i8 {
        &self.side
    }
}

impl HasField<9, u8> for Shipment {
    ghost field = { λ v. v.layers };

    fn field(&self) -> &u8 {
        &self.layers
    }
}

impl HasField<10, u8> for Shipment {
    ghost field = { λ v. v.boxes };

    fn field(&self) -> &u8 {
        &self.boxes
    }
}

impl HasField<11, u8> for Shipment {
    ghost field = { λ v. v.ports };

    fn field(&self) -> &u8 {
        &self.ports
    }
}

impl HasField<12, u8> for Shipment {
    ghost field = { λ v. v.stamps };

    fn field(&self) -> &u8 {
        &self.stamps
    }
}

impl HasField<13, (u8, u8)> for Shipment {
    ghost field = { λ v. v.size };

    fn field(&self) -> &(u8, u8) {
        &self.size
    }
}

impl HasField<14, String> for Shipment {
    ghost field = { λ v. v.sender };

    fn field(&self) -> &String {
        &self.sender
    }
}

impl HasField<15, u8> for Shipment {
    ghost field = { λ v. v.due };

    fn field(&self) -> &u8 {
        &self.due
    }
}

impl HasField<16, u64> for Shipment {
    ghost field = { λ v. v.came };

    fn field(&self) -> &u64 {
        &self.came
    }
}

/// The fields of `Shipment` from `stamps` on, as one type: it has no values.
pub struct ShipmentRest1;

/// What is kept of them between `serialize` and `resolve`.
#[derive(Drop)]
pub struct ShipmentKept1 {
    kept: (
        <u8 as Archive>::Resolver,
        (
            <(u8, u8) as Archive>::Resolver,
            (
                <String as Archive>::Resolver,
                (<u8 as Archive>::Resolver, (<u64 as Archive>::Resolver, ())),
            ),
        ),
    ),
}

type ShipmentBlock1 = FourParts<u8, ArchivedTuple2<u8, u8>, ArchivedString, u8, (ArchivedU64, ())>;

type ShipmentFields1 = FourParts<
    Field<12, u8>,
    Field<13, (u8, u8)>,
    Field<14, String>,
    Field<15, u8>,
    (Field<16, u64>, ()),
>;

impl CheckedParts for ShipmentRest1 {
    ghost parts = { ⟦<ShipmentBlock1 as CheckedParts>⟧.parts };

    ghost definitions = { ⟦<ShipmentBlock1 as CheckedParts>⟧.definitions };

    ghost end = { ⟦<ShipmentBlock1 as CheckedParts>⟧.end };

    ghost direct = { ⟦<ShipmentBlock1 as CheckedParts>⟧.direct };

    ghost nameless = { ⟦<ShipmentBlock1 as CheckedParts>⟧.nameless };

    ghost lone = { ⟦<ShipmentBlock1 as CheckedParts>⟧.lone };

    ghost rises = { λ n. rises_over n 1 1 (inl refl) _
        (λ n. rises_over n 1 2 (inl refl) _ (λ n. rises_over n 4 8 (inr (inr (inl refl))) _
        (λ n. rises_over n 1 1 (inl refl) _ (λ n. rises_over n 8 8 (inr (inr (inr (inl refl)))) _
        no_lower)))) };

    ghost ordered = { λ _. record {
      plain = λ _. record { has = tt; only = tt; once = tt; root = refl; closed = tt; placed = tt };
      ordered = λ _. (
        [],
        record {
          has = tt;
          only = tt;
          once = tt;
          root = refl;
          closed = tt;
          placed = tt;
        },
      );
    } };

    fn are_direct() -> bool {
        <ShipmentBlock1 as CheckedParts>::are_direct()
    }

    fn are_nameless() -> bool {
        <ShipmentBlock1 as CheckedParts>::are_nameless()
    }

    fn are_lone() -> bool {
        <ShipmentBlock1 as CheckedParts>::are_lone()
    }

    #[inline(always)]
    fn check_parts<C: ArchiveContext>(
        bytes: &[u8],
        base: usize,
        start: usize,
        refusal: &mut Error,
        context: &mut C,
    ) -> Option<()> {
        <ShipmentBlock1 as CheckedParts>::check_parts(bytes, base, start, refusal, context)
    }
}

impl PortableParts for ShipmentRest1 {
    ghost greatest = { ⟦<ShipmentBlock1 as PortableParts>⟧.greatest };

    ghost begin = { ⟦<ShipmentBlock1 as PortableParts>⟧.begin };

    ghost size_at = { ⟦<ShipmentBlock1 as PortableParts>⟧.size_at };

    ghost is_align = { inr (inr (inr (inl refl))) };

    ghost laid_out = { part_laid_out no_definition _ ⟦<u8 as Portable>⟧.shape (record {
      size = 1;
      align = 1;
    }) (record { solved = λ s k. refl }) _ _ _ _ (part_laid_out
        (both no_definition (both no_definition no_definition)) _
        ⟦<ArchivedTuple2<u8, u8> as Portable>⟧.shape (record { size = 2; align = 1 }) (record {
          solved = λ s k. refl;
        }) _ _ _ _ (part_laid_out no_definition _ ⟦<ArchivedString as Portable>⟧.shape (record {
          size = 8;
          align = 4;
        }) (record { solved = λ s k. refl }) _ _ _ _ (part_laid_out no_definition _
        ⟦<u8 as Portable>⟧.shape (record { size = 1; align = 1 }) (record { solved = λ s k. refl })
        _ _ _ _ (part_laid_out no_definition _ ⟦<ArchivedU64 as Portable>⟧.shape (record {
          size = 8;
          align = 8;
        }) (record { solved = λ s k. refl }) _ _ _ _ no_part_laid_out)))) };

    ghost sized = { part_sized no_definition (both (both no_definition
        (both no_definition no_definition)) (both no_definition
        (both no_definition (both no_definition no_definition)))) ⟦<u8 as Portable>⟧.shape
        (record { size = 1; align = 1 }) (record { solved = λ s k. refl })
        (part ⟦<ArchivedTuple2<u8, u8> as Portable>⟧.shape
        (part ⟦<ArchivedString as Portable>⟧.shape (part ⟦<u8 as Portable>⟧.shape
        (part ⟦<ArchivedU64 as Portable>⟧.shape no_part))))
        (first_or 2 (first_or 8 (first_or 1 (first_or 8 (λ i. 0)))))
        (part_sized (both no_definition (both no_definition no_definition))
        (both no_definition (both no_definition (both no_definition no_definition)))
        ⟦<ArchivedTuple2<u8, u8> as Portable>⟧.shape (record { size = 2; align = 1 }) (record {
          solved = λ s k. refl;
        }) (part ⟦<ArchivedString as Portable>⟧.shape (part ⟦<u8 as Portable>⟧.shape
        (part ⟦<ArchivedU64 as Portable>⟧.shape no_part)))
        (first_or 8 (first_or 1 (first_or 8 (λ i. 0))))
        (part_sized no_definition (both no_definition (both no_definition no_definition))
        ⟦<ArchivedString as Portable>⟧.shape (record { size = 8; align = 4 }) (record {
          solved = λ s k. refl;
        }) (part ⟦<u8 as Portable>⟧.shape (part ⟦<ArchivedU64 as Portable>⟧.shape no_part))
        (first_or 1 (first_or 8 (λ i. 0))) (part_sized no_definition
        (both no_definition no_definition) ⟦<u8 as Portable>⟧.shape (record { size = 1; align = 1 })
        (record { solved = λ s k. refl }) (part ⟦<ArchivedU64 as Portable>⟧.shape no_part)
        (first_or 8 (λ i. 0)) (part_sized no_definition no_definition
        ⟦<ArchivedU64 as Portable>⟧.shape (record { size = 8; align = 8 }) (record {
          solved = λ s k. refl;
        }) no_part (λ i. 0) no_part_sized)))) };

    ghost no_others = { no_definition_reached (parts (part ⟦<u8 as Portable>⟧.shape
        (part ⟦<ArchivedTuple2<u8, u8> as Portable>⟧.shape
        (part ⟦<ArchivedString as Portable>⟧.shape (part ⟦<u8 as Portable>⟧.shape
        (part ⟦<ArchivedU64 as Portable>⟧.shape no_part)))))) };

    ghost begins = { λ n. begins_over n 1 1 (inl refl) _
        (λ n. begins_over n 1 2 (inl refl) _ (λ n. begins_over n 4 8 (inr (inr (inl refl))) _
        (λ n. begins_over n 1 1 (inl refl) _ (λ n. begins_over n 8 8 (inr (inr (inr (inl refl)))) _
        begins_at)))) };

    ghost within = { λ n. within_over (up n 1) 1 _ _ _
        (λ n. rises_over n 1 2 (inl refl) _ (λ n. rises_over n 4 8 (inr (inr (inl refl))) _
        (λ n. rises_over n 1 1 (inl refl) _ (λ n. rises_over n 8 8 (inr (inr (inr (inl refl)))) _
        no_lower)))) (λ n. within_over (up n 1) 2 _ _ _
        (λ n. rises_over n 4 8 (inr (inr (inl refl))) _
        (λ n. rises_over n 1 1 (inl refl) _ (λ n. rises_over n 8 8 (inr (inr (inr (inl refl)))) _
        no_lower))) (λ n. within_over (up n 4) 8 _ _ _ (λ n. rises_over n 1 1 (inl refl) _
        (λ n. rises_over n 8 8 (inr (inr (inr (inl refl)))) _ no_lower))
        (λ n. within_over (up n 1) 1 _ _ _ (λ n. rises_over n 8 8 (inr (inr (inr (inl refl)))) _
        no_lower) (λ n. within_over (up n 8) 8 _ _ _ no_lower within_at)))) };

    fn align() -> usize {
        <ShipmentBlock1 as PortableParts>::align()
    }

    #[inline(always)]
    fn end_from(start: usize) -> usize {
        <ShipmentBlock1 as PortableParts>::end_from(start)
    }

    #[inline(always)]
    fn offset_from(start: usize, i: usize) -> usize {
        <ShipmentBlock1 as PortableParts>::offset_from(start, i)
    }

    fn push_exprs(alloc: Global, list: &mut Vec<archive_core::shape::Expr>) -> Result<(), Error> {
        <ShipmentBlock1 as PortableParts>::push_exprs(alloc, list)
    }

    fn define(alloc: Global, defs: &mut Defs) -> Result<(), Error> {
        <ShipmentBlock1 as PortableParts>::define(alloc, defs)
    }
}

impl SourceParts<Shipment> for ShipmentRest1 {
    type Archived = ShipmentRest1;

    type Resolvers = ShipmentKept1;

    ghost meanings = { ⟦<ShipmentFields1 as SourceParts<Shipment>>⟧.meanings };

    ghost flats = { λ v r. ⟦<ShipmentFields1 as SourceParts<Shipment>>⟧.flats v r.kept };

    ghost keys = { ⟦<ShipmentFields1 as SourceParts<Shipment>>⟧.keys };

    ghost belongs = { λ v r. ⟦<ShipmentFields1 as SourceParts<Shipment>>⟧.belongs v r.kept };

    ghost keyed = { record {
      each = λ v. part_keyed (number_keyed _) (part_keyed
          (record_keyed (part_keyed (number_keyed _) (part_keyed (number_keyed _) nothing_keyed)))
          (part_keyed (text_keyed (string_bytes v.sender))
          (part_keyed (number_keyed _) (part_keyed (number_keyed _) nothing_keyed))));
    } };

    ghost planned = { record {
      each = λ v. part_planned no_definition ⟦<u8 as Portable>⟧.shape
          (⟦<u8 as Archive>⟧.keys v.stamps) (⟦<u8 as Archive>⟧.meaning v.stamps)
          (leaf_planned no_definition _ _ [] _ refl) (part_planned
          (both no_definition (both no_definition no_definition))
          ⟦<ArchivedTuple2<u8, u8> as Portable>⟧.shape (⟦<(u8, u8) as Archive>⟧.keys v.size)
          (⟦<(u8, u8) as Archive>⟧.meaning v.size) (product_planned
          (both no_definition (both no_definition no_definition))
          (part ⟦<u8 as Portable>⟧.shape (part ⟦<u8 as Portable>⟧.shape no_part))
          (⟦<u8 as Archive>⟧.keys v.size.0 ++ (⟦<u8 as Archive>⟧.keys v.size.1 ++ []))
          (value (⟦<u8 as Archive>⟧.meaning v.size.0) (value (⟦<u8 as Archive>⟧.meaning v.size.1)
          no_value)) (part_planned no_definition ⟦<u8 as Portable>⟧.shape
          (⟦<u8 as Archive>⟧.keys v.size.0) (⟦<u8 as Archive>⟧.meaning v.size.0)
          (leaf_planned no_definition _ _ [] _ refl) (part_planned no_definition
          ⟦<u8 as Portable>⟧.shape (⟦<u8 as Archive>⟧.keys v.size.1)
          (⟦<u8 as Archive>⟧.meaning v.size.1) (leaf_planned no_definition _ _ [] _ refl)
          no_part_planned))) (part_planned no_definition ⟦<ArchivedString as Portable>⟧.shape
          (⟦<String as Archive>⟧.keys v.sender) (⟦<String as Archive>⟧.meaning v.sender)
          (string_planned no_definition [] (string_bytes v.sender))
          (part_planned no_definition ⟦<u8 as Portable>⟧.shape (⟦<u8 as Archive>⟧.keys v.due)
          (⟦<u8 as Archive>⟧.meaning v.due) (leaf_planned no_definition _ _ [] _ refl)
          (part_planned no_definition ⟦<ArchivedU64 as Portable>⟧.shape
          (⟦<u64 as Archive>⟧.keys v.came) (⟦<u64 as Archive>⟧.meaning v.came)
          (leaf_planned no_definition _ _ [] _ refl) no_part_planned))));
    } };

    #[inline(always)]
    fn resolve_parts(
        whole: &Shipment,
        resolvers: ShipmentKept1,
        pos: usize,
        start: usize,
        bytes: &mut [u8],
    ) -> Result<(), Error> {
        let ShipmentKept1 { kept } = resolvers;
        <ShipmentFields1 as SourceParts<Shipment>>::resolve_parts(whole, kept, pos, start, bytes)
    }
}

impl<S: Writer + ResolverAlloc<Alloc = Global>> SerializeParts<Shipment, S> for ShipmentRest1 {
    #[inline(always)]
    fn serialize_parts(whole: &Shipment, serializer: &mut S) -> Result<ShipmentKept1, Error> {
        match <ShipmentFields1 as SerializeParts<Shipment, S>>::serialize_parts(whole, serializer) {
            Ok(kept) => Ok(ShipmentKept1 { kept }),
            Err(error) => Err(error),
        }
    }
}

type ShipmentValues1 = FourParts<u8, (u8, u8), String, u8, (u64, ())>;

/// Their values, as they are read back.
pub struct ShipmentOwned1 {
    values: ShipmentValues1,
}

impl OwnedParts for ShipmentOwned1 {
    ghost meanings = { λ v. ⟦<ShipmentValues1 as OwnedParts>⟧.meanings v.values };

    ghost keys = { λ v. ⟦<ShipmentValues1 as OwnedParts>⟧.keys v.values };
}

impl<D: Entries> DeserializeParts<ShipmentOwned1, D> for ShipmentRest1 {
    #[inline(always)]
    fn deserialize_parts(
        alloc: Global,
        bytes: &[u8],
        pos: usize,
        start: usize,
        deserializer: &mut D,
    ) -> Result<ShipmentOwned1, Error> {
        match <ShipmentBlock1 as DeserializeParts<ShipmentValues1, D>>::deserialize_parts(
            alloc,
            bytes,
            pos,
            start,
            deserializer,
        ) {
            Ok(values) => Ok(ShipmentOwned1 { values }),
            Err(error) => Err(error),
        }
    }
}

impl ArchivePointee for ArchivedShipment {
    type ArchivedMetadata = ();

    ghost pointee = { one (parts (part ⟦<u8 as Portable>⟧.shape
        (part ⟦<[u8; 4] as Portable>⟧.shape (part ⟦<bool as Portable>⟧.shape
        (part ⟦<ArchivedOption<ArchivedTuple2<u8, ArchivedString>> as Portable>⟧.shape
        (part ⟦<u8 as Portable>⟧.shape (part ⟦<u8 as Portable>⟧.shape
        (part ⟦<u8 as Portable>⟧.shape (part ⟦<u8 as Portable>⟧.shape
        (part ⟦<i8 as Portable>⟧.shape (part ⟦<u8 as Portable>⟧.shape
        (part ⟦<u8 as Portable>⟧.shape (part ⟦<u8 as Portable>⟧.shape
        (part ⟦<u8 as Portable>⟧.shape (part ⟦<ArchivedTuple2<u8, u8> as Portable>⟧.shape
        (part ⟦<ArchivedString as Portable>⟧.shape (part ⟦<u8 as Portable>⟧.shape
        (part ⟦<ArchivedU64 as Portable>⟧.shape no_part)))))))))))))))))) };

    ghost definitions = { no_definition };

    ghost metadata_length = { λ _. 0 };

    fn pointer_metadata(_metadata: &()) -> usize {
        0
    }
}

impl Portable for ArchivedShipment {
    ghost shape = { parts (part ⟦<u8 as Portable>⟧.shape
        (part ⟦<[u8; 4] as Portable>⟧.shape (part ⟦<bool as Portable>⟧.shape
        (part ⟦<ArchivedOption<ArchivedTuple2<u8, ArchivedString>> as Portable>⟧.shape
        (part ⟦<u8 as Portable>⟧.shape (part ⟦<u8 as Portable>⟧.shape
        (part ⟦<u8 as Portable>⟧.shape (part ⟦<u8 as Portable>⟧.shape
        (part ⟦<i8 as Portable>⟧.shape (part ⟦<u8 as Portable>⟧.shape
        (part ⟦<u8 as Portable>⟧.shape (part ⟦<u8 as Portable>⟧.shape
        (part ⟦<u8 as Portable>⟧.shape (part ⟦<ArchivedTuple2<u8, u8> as Portable>⟧.shape
        (part ⟦<ArchivedString as Portable>⟧.shape (part ⟦<u8 as Portable>⟧.shape
        (part ⟦<ArchivedU64 as Portable>⟧.shape no_part))))))))))))))))) };

    ghost layout = { record { size = 56; align = 8 } };

    type Check = ArchivedShipment;

    ghost is_one = { refl };

    ghost is_align = { inr (inr (inr (inl refl))) };

    ghost has_layout = { record { solved = λ s k. refl } };

    ghost no_others = { no_definition_reached (parts (part ⟦<u8 as Portable>⟧.shape
        (part ⟦<[u8; 4] as Portable>⟧.shape (part ⟦<bool as Portable>⟧.shape
        (part ⟦<ArchivedOption<ArchivedTuple2<u8, ArchivedString>> as Portable>⟧.shape
        (part ⟦<u8 as Portable>⟧.shape (part ⟦<u8 as Portable>⟧.shape
        (part ⟦<u8 as Portable>⟧.shape (part ⟦<u8 as Portable>⟧.shape
        (part ⟦<i8 as Portable>⟧.shape (part ⟦<u8 as Portable>⟧.shape
        (part ⟦<u8 as Portable>⟧.shape (part ⟦<u8 as Portable>⟧.shape
        (part ⟦<u8 as Portable>⟧.shape (part ⟦<ArchivedTuple2<u8, u8> as Portable>⟧.shape
        (part ⟦<ArchivedString as Portable>⟧.shape (part ⟦<u8 as Portable>⟧.shape
        (part ⟦<ArchivedU64 as Portable>⟧.shape no_part)))))))))))))))))) };

    ghost checks = { λ _. plain_own_check _ _ _ _ _ refl refl refl refl };

    fn size() -> usize {
        56
    }

    fn align() -> usize {
        8
    }

    fn expr(alloc: Global) -> Result<archive_core::shape::Expr, Error> {
        expr_of_record::<ShipmentParts>(alloc)
    }

    fn define(_alloc: Global, _defs: &mut Defs) -> Result<(), Error> {
        Ok(())
    }
}

impl SelfCheck for ArchivedShipment {
    ghost shape = { parts (part ⟦<u8 as Portable>⟧.shape
        (part ⟦<[u8; 4] as Portable>⟧.shape (part ⟦<bool as Portable>⟧.shape
        (part ⟦<ArchivedOption<ArchivedTuple2<u8, ArchivedString>> as Portable>⟧.shape
        (part ⟦<u8 as Portable>⟧.shape (part ⟦<u8 as Portable>⟧.shape
        (part ⟦<u8 as Portable>⟧.shape (part ⟦<u8 as Portable>⟧.shape
        (part ⟦<i8 as Portable>⟧.shape (part ⟦<u8 as Portable>⟧.shape
        (part ⟦<u8 as Portable>⟧.shape (part ⟦<u8 as Portable>⟧.shape
        (part ⟦<u8 as Portable>⟧.shape (part ⟦<ArchivedTuple2<u8, u8> as Portable>⟧.shape
        (part ⟦<ArchivedString as Portable>⟧.shape (part ⟦<u8 as Portable>⟧.shape
        (part ⟦<ArchivedU64 as Portable>⟧.shape no_part))))))))))))))))) };

    ghost definitions = { (both no_definition (both no_definition
        (both no_definition (both (both no_definition (both no_definition no_definition))
        (both no_definition (both no_definition (both no_definition
        (both no_definition (both no_definition (both no_definition
        (both no_definition (both no_definition (both no_definition
        (both (both no_definition (both no_definition no_definition))
        (both no_definition (both no_definition (both no_definition
        no_definition))))))))))))))))) };

    ghost span = { 56 };

    ghost direct = { true };

    ghost nameless = { true };

    fn is_direct() -> bool {
        true
    }

    fn is_nameless() -> bool {
        true
    }

    #[inline(always)]
    fn check_at<C: ArchiveContext>(
        bytes: &[u8],
        at: usize,
        refusal: &mut Error,
        context: &mut C,
    ) -> Option<()> {
        RecordCheck::<ShipmentParts>::check_at(bytes, at, refusal, context)
    }
}

impl Record for ArchivedShipment {
    type Parts = ShipmentParts;

    ghost has_parts = { plain_record (part ⟦<u8 as Portable>⟧.shape
        (part ⟦<[u8; 4] as Portable>⟧.shape (part ⟦<bool as Portable>⟧.shape
        (part ⟦<ArchivedOption<ArchivedTuple2<u8, ArchivedString>> as Portable>⟧.shape
        (part ⟦<u8 as Portable>⟧.shape (part ⟦<u8 as Portable>⟧.shape
        (part ⟦<u8 as Portable>⟧.shape (part ⟦<u8 as Portable>⟧.shape
        (part ⟦<i8 as Portable>⟧.shape (part ⟦<u8 as Portable>⟧.shape
        (part ⟦<u8 as Portable>⟧.shape (part ⟦<u8 as Portable>⟧.shape
        (part ⟦<u8 as Portable>⟧.shape (part ⟦<ArchivedTuple2<u8, u8> as Portable>⟧.shape
        (part ⟦<ArchivedString as Portable>⟧.shape (part ⟦<u8 as Portable>⟧.shape
        (part ⟦<ArchivedU64 as Portable>⟧.shape no_part)))))))))))))))))
        (both no_definition (both no_definition (both no_definition
        (both (both no_definition (both no_definition no_definition))
        (both no_definition (both no_definition (both no_definition
        (both no_definition (both no_definition (both no_definition
        (both no_definition (both no_definition (both no_definition
        (both (both no_definition (both no_definition no_definition))
        (both no_definition (both no_definition (both no_definition no_definition)))))))))))))))))
        refl };

    ghost holds = { lit≤ tt };
}

/// What is kept of `Shipment` between `serialize` and `resolve`.
#[derive(Drop)]
pub struct ShipmentResolver {
    kept: (
        <u8 as Archive>::Resolver,
        (
            <[u8; 4] as Archive>::Resolver,
            (
                <bool as Archive>::Resolver,
                (
                    <Option<(u8, String)> as Archive>::Resolver,
                    (
                        <u8 as Archive>::Resolver,
                        (
                            <u8 as Archive>::Resolver,
                            (
                                <u8 as Archive>::Resolver,
                                (
                                    <u8 as Archive>::Resolver,
                                    (
                                        <i8 as Archive>::Resolver,
                                        (
                                            <u8 as Archive>::Resolver,
                                            (
                                                <u8 as Archive>::Resolver,
                                                (<u8 as Archive>::Resolver, ShipmentKept1),
                                            ),
                                        ),
                                    ),
                                ),
                            ),
                        ),
                    ),
                ),
            ),
        ),
    ),
}

impl Archive for Shipment {
    type Archived = ArchivedShipment;

    type Resolver = ShipmentResolver;

    ghost meaning = { λ v. product (value (⟦<u8 as Archive>⟧.meaning v.number)
        (value (⟦<[u8; 4] as Archive>⟧.meaning v.key) (value (⟦<bool as Archive>⟧.meaning v.is_open)
        (value (⟦<Option<(u8, String)> as Archive>⟧.meaning v.weighed)
        (value (⟦<u8 as Archive>⟧.meaning v.class) (value (⟦<u8 as Archive>⟧.meaning v.deck)
        (value (⟦<u8 as Archive>⟧.meaning v.row) (value (⟦<u8 as Archive>⟧.meaning v.place)
        (value (⟦<i8 as Archive>⟧.meaning v.side) (value (⟦<u8 as Archive>⟧.meaning v.layers)
        (value (⟦<u8 as Archive>⟧.meaning v.boxes) (value (⟦<u8 as Archive>⟧.meaning v.ports)
        (value (⟦<u8 as Archive>⟧.meaning v.stamps) (value (⟦<(u8, u8) as Archive>⟧.meaning v.size)
        (value (⟦<String as Archive>⟧.meaning v.sender)
        (value (⟦<u8 as Archive>⟧.meaning v.due) (value (⟦<u64 as Archive>⟧.meaning v.came)
        no_value))))))))))))))))) };

    ghost flat = { λ v r. product (value (⟦<u8 as Archive>⟧.flat v.number r.kept.0)
        (value (⟦<[u8; 4] as Archive>⟧.flat v.key r.kept.1.0)
        (value (⟦<bool as Archive>⟧.flat v.is_open r.kept.1.1.0)
        (value (⟦<Option<(u8, String)> as Archive>⟧.flat v.weighed r.kept.1.1.1.0)
        (value (⟦<u8 as Archive>⟧.flat v.class r.kept.1.1.1.1.0)
        (value (⟦<u8 as Archive>⟧.flat v.deck r.kept.1.1.1.1.1.0)
        (value (⟦<u8 as Archive>⟧.flat v.row r.kept.1.1.1.1.1.1.0)
        (value (⟦<u8 as Archive>⟧.flat v.place r.kept.1.1.1.1.1.1.1.0)
        (value (⟦<i8 as Archive>⟧.flat v.side r.kept.1.1.1.1.1.1.1.1.0)
        (value (⟦<u8 as Archive>⟧.flat v.layers r.kept.1.1.1.1.1.1.1.1.1.0)
        (value (⟦<u8 as Archive>⟧.flat v.boxes r.kept.1.1.1.1.1.1.1.1.1.1.0)
        (value (⟦<u8 as Archive>⟧.flat v.ports r.kept.1.1.1.1.1.1.1.1.1.1.1.0)
        (value (⟦<u8 as Archive>⟧.flat v.stamps r.kept.1.1.1.1.1.1.1.1.1.1.1.1.kept.0)
        (value (⟦<(u8, u8) as Archive>⟧.flat v.size r.kept.1.1.1.1.1.1.1.1.1.1.1.1.kept.1.0)
        (value (⟦<String as Archive>⟧.flat v.sender r.kept.1.1.1.1.1.1.1.1.1.1.1.1.kept.1.1.0)
        (value (⟦<u8 as Archive>⟧.flat v.due r.kept.1.1.1.1.1.1.1.1.1.1.1.1.kept.1.1.1.0)
        (value (⟦<u64 as Archive>⟧.flat v.came r.kept.1.1.1.1.1.1.1.1.1.1.1.1.kept.1.1.1.1.0)
        no_value))))))))))))))))) };

    ghost keys = { λ v. ⟦<u8 as Archive>⟧.keys v.number
        ++ (⟦<[u8; 4] as Archive>⟧.keys v.key ++ (⟦<bool as Archive>⟧.keys v.is_open
        ++ (⟦<Option<(u8, String)> as Archive>⟧.keys v.weighed
        ++ (⟦<u8 as Archive>⟧.keys v.class ++ (⟦<u8 as Archive>⟧.keys v.deck
        ++ (⟦<u8 as Archive>⟧.keys v.row ++ (⟦<u8 as Archive>⟧.keys v.place
        ++ (⟦<i8 as Archive>⟧.keys v.side ++ (⟦<u8 as Archive>⟧.keys v.layers
        ++ (⟦<u8 as Archive>⟧.keys v.boxes ++ (⟦<u8 as Archive>⟧.keys v.ports
        ++ (⟦<u8 as Archive>⟧.keys v.stamps ++ (⟦<(u8, u8) as Archive>⟧.keys v.size
        ++ (⟦<String as Archive>⟧.keys v.sender ++ (⟦<u8 as Archive>⟧.keys v.due
        ++ (⟦<u64 as Archive>⟧.keys v.came ++ [])))))))))))))))) };

    ghost belongs = { λ v r. ⟦<u8 as Archive>⟧.belongs v.number r.kept.0
        × (⟦<[u8; 4] as Archive>⟧.belongs v.key r.kept.1.0
        × (⟦<bool as Archive>⟧.belongs v.is_open r.kept.1.1.0
        × (⟦<Option<(u8, String)> as Archive>⟧.belongs v.weighed r.kept.1.1.1.0
        × (⟦<u8 as Archive>⟧.belongs v.class r.kept.1.1.1.1.0
        × (⟦<u8 as Archive>⟧.belongs v.deck r.kept.1.1.1.1.1.0
        × (⟦<u8 as Archive>⟧.belongs v.row r.kept.1.1.1.1.1.1.0
        × (⟦<u8 as Archive>⟧.belongs v.place r.kept.1.1.1.1.1.1.1.0
        × (⟦<i8 as Archive>⟧.belongs v.side r.kept.1.1.1.1.1.1.1.1.0
        × (⟦<u8 as Archive>⟧.belongs v.layers r.kept.1.1.1.1.1.1.1.1.1.0
        × (⟦<u8 as Archive>⟧.belongs v.boxes r.kept.1.1.1.1.1.1.1.1.1.1.0
        × (⟦<u8 as Archive>⟧.belongs v.ports r.kept.1.1.1.1.1.1.1.1.1.1.1.0
        × (⟦<u8 as Archive>⟧.belongs v.stamps r.kept.1.1.1.1.1.1.1.1.1.1.1.1.kept.0
        × (⟦<(u8, u8) as Archive>⟧.belongs v.size r.kept.1.1.1.1.1.1.1.1.1.1.1.1.kept.1.0
        × (⟦<String as Archive>⟧.belongs v.sender r.kept.1.1.1.1.1.1.1.1.1.1.1.1.kept.1.1.0
        × (⟦<u8 as Archive>⟧.belongs v.due r.kept.1.1.1.1.1.1.1.1.1.1.1.1.kept.1.1.1.0
        × (⟦<u64 as Archive>⟧.belongs v.came r.kept.1.1.1.1.1.1.1.1.1.1.1.1.kept.1.1.1.1.0
        × Unit {0})))))))))))))))) };

    ghost in_bulk = { None };

    ghost keyed = { λ v. record_keyed (part_keyed (number_keyed _)
        (part_keyed (array_keyed 4 ⟦<u8 as Archive>⟧.keys ⟦<u8 as Archive>⟧.meaning
        (λ x. number_keyed _) v.key) (part_keyed (number_keyed _)
        (part_keyed (option_keyed ⟦<(u8, String) as Archive>⟧.keys
        ⟦<(u8, String) as Archive>⟧.meaning (λ x. record_keyed
        (part_keyed (number_keyed _) (part_keyed (text_keyed (string_bytes x.1)) nothing_keyed)))
        v.weighed) (part_keyed (number_keyed _) (part_keyed (number_keyed _)
        (part_keyed (number_keyed _) (part_keyed (number_keyed _)
        (part_keyed (number_keyed _) (part_keyed (number_keyed _)
        (part_keyed (number_keyed _) (part_keyed (number_keyed _)
        (part_keyed (number_keyed _) (part_keyed (record_keyed
        (part_keyed (number_keyed _) (part_keyed (number_keyed _) nothing_keyed)))
        (part_keyed (text_keyed (string_bytes v.sender))
        (part_keyed (number_keyed _) (part_keyed (number_keyed _) nothing_keyed))))))))))))))))) };

    ghost planned = { λ v. plain_record_planned (both no_definition
        (both no_definition (both no_definition (both (both no_definition
        (both no_definition no_definition)) (both no_definition
        (both no_definition (both no_definition (both no_definition
        (both no_definition (both no_definition (both no_definition
        (both no_definition (both no_definition (both (both no_definition
        (both no_definition no_definition)) (both no_definition
        (both no_definition (both no_definition no_definition)))))))))))))))))
        (part ⟦<u8 as Portable>⟧.shape (part ⟦<[u8; 4] as Portable>⟧.shape
        (part ⟦<bool as Portable>⟧.shape
        (part ⟦<ArchivedOption<ArchivedTuple2<u8, ArchivedString>> as Portable>⟧.shape
        (part ⟦<u8 as Portable>⟧.shape (part ⟦<u8 as Portable>⟧.shape
        (part ⟦<u8 as Portable>⟧.shape (part ⟦<u8 as Portable>⟧.shape
        (part ⟦<i8 as Portable>⟧.shape (part ⟦<u8 as Portable>⟧.shape
        (part ⟦<u8 as Portable>⟧.shape (part ⟦<u8 as Portable>⟧.shape
        (part ⟦<u8 as Portable>⟧.shape (part ⟦<ArchivedTuple2<u8, u8> as Portable>⟧.shape
        (part ⟦<ArchivedString as Portable>⟧.shape (part ⟦<u8 as Portable>⟧.shape
        (part ⟦<ArchivedU64 as Portable>⟧.shape no_part))))))))))))))))) _ _
        (part_planned no_definition ⟦<u8 as Portable>⟧.shape (⟦<u8 as Archive>⟧.keys v.number)
        (⟦<u8 as Archive>⟧.meaning v.number) (leaf_planned no_definition _ _ [] _ refl)
        (part_planned no_definition ⟦<[u8; 4] as Portable>⟧.shape
        (⟦<[u8; 4] as Archive>⟧.keys v.key) (⟦<[u8; 4] as Archive>⟧.meaning v.key)
        (array_planned 4 no_definition ⟦<u8 as Portable>⟧.shape ⟦<u8 as Archive>⟧.keys
        ⟦<u8 as Archive>⟧.meaning (λ x. leaf_planned no_definition _ _ [] _ refl) v.key)
        (part_planned no_definition ⟦<bool as Portable>⟧.shape (⟦<bool as Archive>⟧.keys v.is_open)
        (⟦<bool as Archive>⟧.meaning v.is_open) (leaf_planned no_definition _ _ [] _ refl)
        (part_planned (both no_definition (both no_definition no_definition))
        ⟦<ArchivedOption<ArchivedTuple2<u8, ArchivedString>> as Portable>⟧.shape
        (⟦<Option<(u8, String)> as Archive>⟧.keys v.weighed)
        (⟦<Option<(u8, String)> as Archive>⟧.meaning v.weighed)
        (option_planned (both no_definition (both no_definition no_definition))
        ⟦<ArchivedTuple2<u8, ArchivedString> as Portable>⟧.shape ⟦<(u8, String) as Archive>⟧.keys
        ⟦<(u8, String) as Archive>⟧.meaning (λ x. product_planned
        (both no_definition (both no_definition no_definition))
        (part ⟦<u8 as Portable>⟧.shape (part ⟦<ArchivedString as Portable>⟧.shape no_part))
        (⟦<u8 as Archive>⟧.keys x.0 ++ (⟦<String as Archive>⟧.keys x.1 ++ []))
        (value (⟦<u8 as Archive>⟧.meaning x.0) (value (⟦<String as Archive>⟧.meaning x.1) no_value))
        (part_planned no_definition ⟦<u8 as Portable>⟧.shape (⟦<u8 as Archive>⟧.keys x.0)
        (⟦<u8 as Archive>⟧.meaning x.0) (leaf_planned no_definition _ _ [] _ refl)
        (part_planned no_definition ⟦<ArchivedString as Portable>⟧.shape
        (⟦<String as Archive>⟧.keys x.1) (⟦<String as Archive>⟧.meaning x.1)
        (string_planned no_definition [] (string_bytes x.1)) no_part_planned))) v.weighed)
        (part_planned no_definition ⟦<u8 as Portable>⟧.shape (⟦<u8 as Archive>⟧.keys v.class)
        (⟦<u8 as Archive>⟧.meaning v.class) (leaf_planned no_definition _ _ [] _ refl)
        (part_planned no_definition ⟦<u8 as Portable>⟧.shape (⟦<u8 as Archive>⟧.keys v.deck)
        (⟦<u8 as Archive>⟧.meaning v.deck) (leaf_planned no_definition _ _ [] _ refl)
        (part_planned no_definition ⟦<u8 as Portable>⟧.shape (⟦<u8 as Archive>⟧.keys v.row)
        (⟦<u8 as Archive>⟧.meaning v.row) (leaf_planned no_definition _ _ [] _ refl)
        (part_planned no_definition ⟦<u8 as Portable>⟧.shape (⟦<u8 as Archive>⟧.keys v.place)
        (⟦<u8 as Archive>⟧.meaning v.place) (leaf_planned no_definition _ _ [] _ refl)
        (part_planned no_definition ⟦<i8 as Portable>⟧.shape (⟦<i8 as Archive>⟧.keys v.side)
        (⟦<i8 as Archive>⟧.meaning v.side) (leaf_planned no_definition _ _ [] _ refl)
        (part_planned no_definition ⟦<u8 as Portable>⟧.shape (⟦<u8 as Archive>⟧.keys v.layers)
        (⟦<u8 as Archive>⟧.meaning v.layers) (leaf_planned no_definition _ _ [] _ refl)
        (part_planned no_definition ⟦<u8 as Portable>⟧.shape (⟦<u8 as Archive>⟧.keys v.boxes)
        (⟦<u8 as Archive>⟧.meaning v.boxes) (leaf_planned no_definition _ _ [] _ refl)
        (part_planned no_definition ⟦<u8 as Portable>⟧.shape (⟦<u8 as Archive>⟧.keys v.ports)
        (⟦<u8 as Archive>⟧.meaning v.ports) (leaf_planned no_definition _ _ [] _ refl)
        (part_planned no_definition ⟦<u8 as Portable>⟧.shape (⟦<u8 as Archive>⟧.keys v.stamps)
        (⟦<u8 as Archive>⟧.meaning v.stamps) (leaf_planned no_definition _ _ [] _ refl)
        (part_planned (both no_definition (both no_definition no_definition))
        ⟦<ArchivedTuple2<u8, u8> as Portable>⟧.shape (⟦<(u8, u8) as Archive>⟧.keys v.size)
        (⟦<(u8, u8) as Archive>⟧.meaning v.size) (product_planned
        (both no_definition (both no_definition no_definition))
        (part ⟦<u8 as Portable>⟧.shape (part ⟦<u8 as Portable>⟧.shape no_part))
        (⟦<u8 as Archive>⟧.keys v.size.0 ++ (⟦<u8 as Archive>⟧.keys v.size.1 ++ []))
        (value (⟦<u8 as Archive>⟧.meaning v.size.0) (value (⟦<u8 as Archive>⟧.meaning v.size.1)
        no_value)) (part_planned no_definition ⟦<u8 as Portable>⟧.shape
        (⟦<u8 as Archive>⟧.keys v.size.0) (⟦<u8 as Archive>⟧.meaning v.size.0)
        (leaf_planned no_definition _ _ [] _ refl) (part_planned no_definition
        ⟦<u8 as Portable>⟧.shape (⟦<u8 as Archive>⟧.keys v.size.1)
        (⟦<u8 as Archive>⟧.meaning v.size.1) (leaf_planned no_definition _ _ [] _ refl)
        no_part_planned))) (part_planned no_definition ⟦<ArchivedString as Portable>⟧.shape
        (⟦<String as Archive>⟧.keys v.sender) (⟦<String as Archive>⟧.meaning v.sender)
        (string_planned no_definition [] (string_bytes v.sender))
        (part_planned no_definition ⟦<u8 as Portable>⟧.shape (⟦<u8 as Archive>⟧.keys v.due)
        (⟦<u8 as Archive>⟧.meaning v.due) (leaf_planned no_definition _ _ [] _ refl)
        (part_planned no_definition ⟦<ArchivedU64 as Portable>⟧.shape
        (⟦<u64 as Archive>⟧.keys v.came) (⟦<u64 as Archive>⟧.meaning v.came)
        (leaf_planned no_definition _ _ [] _ refl) no_part_planned))))))))))))))))) refl };

    #[inline(always)]
    fn resolve(
        &self,
        resolver: Self::Resolver,
        place: Place<'_, Self::Archived>,
    ) -> Result<(), Error>
        requires zeroed { ZeroedPlace 56 place.pos place.bytes.now }
        requires same_value { ⟦<Self as Archive>⟧.belongs self.now resolver }
        ensures { ResolvesAs ⟦<Self::Archived as Portable>⟧ place
            (⟦<Self as Archive>⟧.flat self.now resolver) result }
    {
        let Place { bytes, pos, .. } = place;
        let ShipmentResolver { kept } = resolver;
        let (r0, (r1, (r2, (r3, (r4, (r5, (r6, (r7, (r8, (r9, (r10, (r11, behind)))))))))))) = kept;
        resolve_record::<Self, ShipmentFields, ArchivedShipment>(
            self,
            (
                r0,
                (
                    r1,
                    (
                        r2,
                        (r3, (r4, (r5, (r6, (r7, (r8, (r9, (r10, (r11, behind))))))))),
                    ),
                ),
            ),
            Place::new(pos, bytes),
        )
    }

    #[inline(always)]
    fn copy_optimization() -> CopyOptimization<Self> {
        CopyOptimization::disable()
    }

    #[inline(always)]
    fn serialize_copied<S: Writer + Keys>(
        _values: &[Self],
        _together: usize,
        _serializer: &mut S,
    ) -> Result<Option<usize>, Error> {
        Ok(None)
    }
}

impl<S: Writer + ResolverAlloc<Alloc = Global>> Serialize<S> for Shipment {
    #[inline(always)]
    fn serialize(&self, serializer: &mut S) -> Result<Self::Resolver, Error> {
        match serialize_record::<Self, ShipmentFields, ArchivedShipment, S>(self, serializer) {
            Ok(kept) => Ok(ShipmentResolver { kept }),
            Err(error) => Err(error),
        }
    }
}

/// As a region of its own: the value itself.
impl ArchiveUnsized for Shipment {
    ghost use Rattle.derived_plain.specs.contracts.shipment.ShipmentArchive.TheImpl.Laws.{keyed-law as keyed_of_shipment, planned-law as planned_of_shipment};

    type Archived = ArchivedShipment;

    ghost source_length = { λ _. 0 };

    ghost meaning = { ⟦<Shipment as Archive>⟧.meaning };

    ghost keys = { ⟦<Shipment as Archive>⟧.keys };

    ghost keyed = { keyed_of_shipment };

    ghost one_length = { λ _ _. refl };

    ghost planned = { λ v. one_planned no_definition (parts
        (part ⟦<u8 as Portable>⟧.shape (part ⟦<[u8; 4] as Portable>⟧.shape
        (part ⟦<bool as Portable>⟧.shape
        (part ⟦<ArchivedOption<ArchivedTuple2<u8, ArchivedString>> as Portable>⟧.shape
        (part ⟦<u8 as Portable>⟧.shape (part ⟦<u8 as Portable>⟧.shape
        (part ⟦<u8 as Portable>⟧.shape (part ⟦<u8 as Portable>⟧.shape
        (part ⟦<i8 as Portable>⟧.shape (part ⟦<u8 as Portable>⟧.shape
        (part ⟦<u8 as Portable>⟧.shape (part ⟦<u8 as Portable>⟧.shape
        (part ⟦<u8 as Portable>⟧.shape (part ⟦<ArchivedTuple2<u8, u8> as Portable>⟧.shape
        (part ⟦<ArchivedString as Portable>⟧.shape (part ⟦<u8 as Portable>⟧.shape
        (part ⟦<ArchivedU64 as Portable>⟧.shape no_part))))))))))))))))))
        (⟦<Shipment as Archive>⟧.keys v) (⟦<Shipment as Archive>⟧.meaning v)
        (planned_of_shipment v) };

    #[inline(always)]
    fn archived_metadata(&self) -> Result<(), Error> {
        Ok(())
    }
}

impl<S: Writer + ResolverAlloc<Alloc = Global>> SerializeUnsized<S> for Shipment {
    #[inline(always)]
    fn serialize_unsized(&self, serializer: &mut S) -> Result<usize, Error> {
        serialize_one(self, serializer)
    }
}

// The `Shipment` of these values, one after another.
fn shipment_of(values: ShipmentOwned) -> Shipment
    ensures meaning { ⟦<Shipment as Archive>⟧.meaning result
        ≡ product (value (⟦<u8 as Archive>⟧.meaning values.first)
        (value (⟦<OwnedArray<u8, 4> as Archive>⟧.meaning values.second)
        (value (⟦<bool as Archive>⟧.meaning values.third)
        (value (⟦<Option<(u8, String)> as Archive>⟧.meaning values.fourth)
        (value (⟦<u8 as Archive>⟧.meaning values.rest.first)
        (value (⟦<u8 as Archive>⟧.meaning values.rest.second)
        (value (⟦<u8 as Archive>⟧.meaning values.rest.third)
        (value (⟦<u8 as Archive>⟧.meaning values.rest.fourth)
        (value (⟦<i8 as Archive>⟧.meaning values.rest.rest.first)
        (value (⟦<u8 as Archive>⟧.meaning values.rest.rest.second)
        (value (⟦<u8 as Archive>⟧.meaning values.rest.rest.third)
        (value (⟦<u8 as Archive>⟧.meaning values.rest.rest.fourth)
        (value (⟦<u8 as Archive>⟧.meaning values.rest.rest.rest.values.first)
        (value (⟦<(u8, u8) as Archive>⟧.meaning values.rest.rest.rest.values.second)
        (value (⟦<String as Archive>⟧.meaning values.rest.rest.rest.values.third)
        (value (⟦<u8 as Archive>⟧.meaning values.rest.rest.rest.values.fourth)
        (value (⟦<u64 as Archive>⟧.meaning values.rest.rest.rest.values.rest.0)
        no_value))))))))))))))))) }
    ensures keys { ⟦<Shipment as Archive>⟧.keys result ≡ ⟦<u8 as Archive>⟧.keys values.first
        ++ (⟦<OwnedArray<u8, 4> as Archive>⟧.keys values.second
        ++ (⟦<bool as Archive>⟧.keys values.third ++ (⟦<Option<(u8, String)> as Archive>⟧.keys
        values.fourth ++ (⟦<u8 as Archive>⟧.keys values.rest.first
        ++ (⟦<u8 as Archive>⟧.keys values.rest.second ++ (⟦<u8 as Archive>⟧.keys values.rest.third
        ++ (⟦<u8 as Archive>⟧.keys values.rest.fourth ++ (⟦<i8 as Archive>⟧.keys
        values.rest.rest.first ++ (⟦<u8 as Archive>⟧.keys values.rest.rest.second
        ++ (⟦<u8 as Archive>⟧.keys values.rest.rest.third
        ++ (⟦<u8 as Archive>⟧.keys values.rest.rest.fourth
        ++ (⟦<u8 as Archive>⟧.keys values.rest.rest.rest.values.first
        ++ (⟦<(u8, u8) as Archive>⟧.keys values.rest.rest.rest.values.second
        ++ (⟦<String as Archive>⟧.keys values.rest.rest.rest.values.third
        ++ (⟦<u8 as Archive>⟧.keys values.rest.rest.rest.values.fourth
        ++ (⟦<u64 as Archive>⟧.keys values.rest.rest.rest.values.rest.0 ++ [])))))))))))))))) }
{
    let FourParts {
        first: a0,
        second: a1,
        third: a2,
        fourth: a3,
        rest,
    } = values;
    let FourParts {
        first: a4,
        second: a5,
        third: a6,
        fourth: a7,
        rest,
    } = rest;
    let FourParts {
        first: a8,
        second: a9,
        third: a10,
        fourth: a11,
        rest,
    } = rest;
    let ShipmentOwned1 { values } = rest;
    let FourParts {
        first: a12,
        second: a13,
        third: a14,
        fourth: a15,
        rest,
    } = values;
    let (a16, ()) = rest;
    Shipment {
        number: a0,
        key: a1.into_array(),
        is_open: a2,
        weighed: a3,
        class: a4,
        deck: a5,
        row: a6,
        place: a7,
        side: a8,
        layers: a9,
        boxes: a10,
        ports: a11,
        stamps: a12,
        size: a13,
        sender: a14,
        due: a15,
        came: a16,
    }
}

impl<D: Entries> Deserialize<Shipment, D> for ArchivedShipment {
    #[inline(always)]
    fn deserialize_part(
        alloc: Global,
        part: RawView<'_>,
        deserializer: &mut D,
    ) -> Result<Shipment, Error>
        requires { IsPartOf ⟦<Self as ArchivePointee>⟧ part }
        ensures { ReadsAs ⟦<Self as ArchivePointee>⟧ part D.Entries deserializer
            ⟦<Shipment as Archive>⟧ result }
    {
        match deserialize_record::<Self, ShipmentOwned, D>(alloc, part, deserializer) {
            Ok(values) => Ok(shipment_of(values)),
            Err(error) => Err(error),
        }
    }
}

/// The fields of an archived `Shipment`, as views.
pub trait ShipmentView<'a> {
    /// Its number.
    fn number(self) -> Ref<'a, u8>;

    /// Its key.
    fn key(self) -> Ref<'a, [u8; 4]>;

    /// Whether it is open.
    fn is_open(self) -> Ref<'a, bool>;

    /// What it weighed, and where.
    fn weighed(self) -> Ref<'a, ArchivedOption<ArchivedTuple2<u8, ArchivedString>>>;

    /// How dangerous it is.
    fn class(self) -> Ref<'a, u8>;

    /// The deck.
    fn deck(self) -> Ref<'a, u8>;

    /// The row in which it stands.
    fn row(self) -> Ref<'a, u8>;

    /// The place in the row.
    fn place(self) -> Ref<'a, u8>;

    /// How far it is from the middle of the ship.
    fn side(self) -> Ref<'a, i8>;

    /// How many layers it has.
    fn layers(self) -> Ref<'a, u8>;

    /// How many boxes.
    fn boxes(self) -> Ref<'a, u8>;

    /// At how many ports it was.
    fn ports(self) -> Ref<'a, u8>;

    /// How many stamps it has.
    fn stamps(self) -> Ref<'a, u8>;

    /// How long it is, and how wide.
    fn size(self) -> Ref<'a, ArchivedTuple2<u8, u8>>;

    /// Who sent it.
    fn sender(self) -> Ref<'a, ArchivedString>;

    /// In how many days it is due.
    fn due(self) -> Ref<'a, u8>;

    /// When it came, in seconds.
    fn came(self) -> Ref<'a, ArchivedU64>;
}

impl<'a> ShipmentView<'a> for Ref<'a, ArchivedShipment> {
    fn number(self) -> Ref<'a, u8>
        ensures buffer { result.bytes.now ≡ self.entry.bytes.now }
        ensures position { result.pos ≡ self.entry.pos + 0 }
        ensures length { result.len ≡ 0 }
        ensures shows { ShowsValueOf result self.entry (field_in 0) }
    {
        part_in_record::<ArchivedShipment, u8>(self, 0, 0)
    }

    fn key(self) -> Ref<'a, [u8; 4]>
        ensures buffer { result.bytes.now ≡ self.entry.bytes.now }
        ensures position { result.pos ≡ self.entry.pos + 1 }
        ensures length { result.len ≡ 0 }
        ensures shows { ShowsValueOf result self.entry (field_in 1) }
    {
        part_in_record::<ArchivedShipment, [u8; 4]>(self, 1, 1)
    }

    fn is_open(self) -> Ref<'a, bool>
        ensures buffer { result.bytes.now ≡ self.entry.bytes.now }
        ensures position { result.pos ≡ self.entry.pos + 5 }
        ensures length { result.len ≡ 0 }
        ensures shows { ShowsValueOf result self.entry (field_in 2) }
    {
        part_in_record::<ArchivedShipment, bool>(self, 2, 5)
    }

    fn weighed(self) -> Ref<'a, ArchivedOption<ArchivedTuple2<u8, ArchivedString>>>
        ensures buffer { result.bytes.now ≡ self.entry.bytes.now }
        ensures position { result.pos ≡ self.entry.pos + 8 }
        ensures length { result.len ≡ 0 }
        ensures shows { ShowsValueOf result self.entry (field_in 3) }
    {
        part_in_record::<ArchivedShipment, ArchivedOption<ArchivedTuple2<u8, ArchivedString>>>(
            self, 3, 8,
        )
    }

    fn class(self) -> Ref<'a, u8>
        ensures buffer { result.bytes.now ≡ self.entry.bytes.now }
        ensures position { result.pos ≡ self.entry.pos + 24 }
        ensures length { result.len ≡ 0 }
        ensures shows { ShowsValueOf result self.entry (field_in 4) }
    {
        part_in_record::<ArchivedShipment, u8>(self, 4, 24)
    }

    fn deck(self) -> Ref<'a, u8>
        ensures buffer { result.bytes.now ≡ self.entry.bytes.now }
        ensures position { result.pos ≡ self.entry.pos + 25 }
        ensures length { result.len ≡ 0 }
        ensures shows { ShowsValueOf result self.entry (field_in 5) }
    {
        part_in_record::<ArchivedShipment, u8>(self, 5, 25)
    }

    fn row(self) -> Ref<'a, u8>
        ensures buffer { result.bytes.now ≡ self.entry.bytes.now }
        ensures position { result.pos ≡ self.entry.pos + 26 }
        ensures length { result.len ≡ 0 }
        ensures shows { ShowsValueOf result self.entry (field_in 6) }
    {
        part_in_record::<ArchivedShipment, u8>(self, 6, 26)
    }

    fn place(self) -> Ref<'a, u8>
        ensures buffer { result.bytes.now ≡ self.entry.bytes.now }
        ensures position { result.pos ≡ self.entry.pos + 27 }
        ensures length { result.len ≡ 0 }
        ensures shows { ShowsValueOf result self.entry (field_in 7) }
    {
        part_in_record::<ArchivedShipment, u8>(self, 7, 27)
    }

    fn side(self) -> Ref<'a, i8>
        ensures buffer { result.bytes.now ≡ self.entry.bytes.now }
        ensures position { result.pos ≡ self.entry.pos + 28 }
        ensures length { result.len ≡ 0 }
        ensures shows { ShowsValueOf result self.entry (field_in 8) }
    {
        part_in_record::<ArchivedShipment, i8>(self, 8, 28)
    }

    fn layers(self) -> Ref<'a, u8>
        ensures buffer { result.bytes.now ≡ self.entry.bytes.now }
        ensures position { result.pos ≡ self.entry.pos + 29 }
        ensures length { result.len ≡ 0 }
        ensures shows { ShowsValueOf result self.entry (field_in 9) }
    {
        part_in_record::<ArchivedShipment, u8>(self, 9, 29)
    }

    fn boxes(self) -> Ref<'a, u8>
        ensures buffer { result.bytes.now ≡ self.entry.bytes.now }
        ensures position { result.pos ≡ self.entry.pos + 30 }
        ensures length { result.len ≡ 0 }
        ensures shows { ShowsValueOf result self.entry (field_in 10) }
    {
        part_in_record::<ArchivedShipment, u8>(self, 10, 30)
    }

    fn ports(self) -> Ref<'a, u8>
        ensures buffer { result.bytes.now ≡ self.entry.bytes.now }
        ensures position { result.pos ≡ self.entry.pos + 31 }
        ensures length { result.len ≡ 0 }
        ensures shows { ShowsValueOf result self.entry (field_in 11) }
    {
        part_in_record::<ArchivedShipment, u8>(self, 11, 31)
    }

    fn stamps(self) -> Ref<'a, u8>
        ensures buffer { result.bytes.now ≡ self.entry.bytes.now }
        ensures position { result.pos ≡ self.entry.pos + 32 }
        ensures length { result.len ≡ 0 }
        ensures shows { ShowsValueOf result self.entry (field_in 12) }
    {
        part_in_record::<ArchivedShipment, u8>(self, 12, 32)
    }

    fn size(self) -> Ref<'a, ArchivedTuple2<u8, u8>>
        ensures buffer { result.bytes.now ≡ self.entry.bytes.now }
        ensures position { result.pos ≡ self.entry.pos + 33 }
        ensures length { result.len ≡ 0 }
        ensures shows { ShowsValueOf result self.entry (field_in 13) }
    {
        part_in_record::<ArchivedShipment, ArchivedTuple2<u8, u8>>(self, 13, 33)
    }

    fn sender(self) -> Ref<'a, ArchivedString>
        ensures buffer { result.bytes.now ≡ self.entry.bytes.now }
        ensures position { result.pos ≡ self.entry.pos + 36 }
        ensures length { result.len ≡ 0 }
        ensures shows { ShowsValueOf result self.entry (field_in 14) }
    {
        part_in_record::<ArchivedShipment, ArchivedString>(self, 14, 36)
    }

    fn due(self) -> Ref<'a, u8>
        ensures buffer { result.bytes.now ≡ self.entry.bytes.now }
        ensures position { result.pos ≡ self.entry.pos + 44 }
        ensures length { result.len ≡ 0 }
        ensures shows { ShowsValueOf result self.entry (field_in 15) }
    {
        part_in_record::<ArchivedShipment, u8>(self, 15, 44)
    }

    fn came(self) -> Ref<'a, ArchivedU64>
        ensures buffer { result.bytes.now ≡ self.entry.bytes.now }
        ensures position { result.pos ≡ self.entry.pos + 48 }
        ensures length { result.len ≡ 0 }
        ensures shows { ShowsValueOf result self.entry (field_in 16) }
    {
        part_in_record::<ArchivedShipment, ArchivedU64>(self, 16, 48)
    }
}

/// The fields of an archived `Shipment`, as seals.
pub trait ShipmentSeal<'a> {
    // The seal shows a part of a buffer that was checked.
    ghost sealed: { Self → Type 0 };

    /// Its number.
    fn number_mut(self) -> Seal<'a, u8>
        requires { sealed self };

    /// Its key.
    fn key_mut(self) -> Seal<'a, [u8; 4]>
        requires { sealed self };

    /// Whether it is open.
    fn is_open_mut(self) -> Seal<'a, bool>
        requires { sealed self };

    /// What it weighed, and where.
    fn weighed_mut(self) -> Seal<'a, ArchivedOption<ArchivedTuple2<u8, ArchivedString>>>
        requires { sealed self };

    /// How dangerous it is.
    fn class_mut(self) -> Seal<'a, u8>
        requires { sealed self };

    /// The deck.
    fn deck_mut(self) -> Seal<'a, u8>
        requires { sealed self };

    /// The row in which it stands.
    fn row_mut(self) -> Seal<'a, u8>
        requires { sealed self };

    /// The place in the row.
    fn place_mut(self) -> Seal<'a, u8>
        requires { sealed self };

    /// How far it is from the middle of the ship.
    fn side_mut(self) -> Seal<'a, i8>
        requires { sealed self };

    /// How many layers it has.
    fn layers_mut(self) -> Seal<'a, u8>
        requires { sealed self };

    /// How many boxes.
    fn boxes_mut(self) -> Seal<'a, u8>
        requires { sealed self };

    /// At how many ports it was.
    fn ports_mut(self) -> Seal<'a, u8>
        requires { sealed self };

    /// How many stamps it has.
    fn stamps_mut(self) -> Seal<'a, u8>
        requires { sealed self };

    /// How long it is, and how wide.
    fn size_mut(self) -> Seal<'a, ArchivedTuple2<u8, u8>>
        requires { sealed self };

    /// Who sent it.
    fn sender_mut(self) -> Seal<'a, ArchivedString>
        requires { sealed self };

    /// In how many days it is due.
    fn due_mut(self) -> Seal<'a, u8>
        requires { sealed self };

    /// When it came, in seconds.
    fn came_mut(self) -> Seal<'a, ArchivedU64>
        requires { sealed self };
}

impl<'a> ShipmentSeal<'a> for Seal<'a, ArchivedShipment> {
    ghost sealed = { λ s. IsSealOf no_definition (one ⟦<ArchivedShipment as Portable>⟧.shape) s };

    fn number_mut(self) -> Seal<'a, u8>
        requires come_to { IsSealOf no_definition (one ⟦<ArchivedShipment as Portable>⟧.shape)
            self }
        ensures { SealsPart no_definition (one ⟦<ArchivedShipment as Portable>⟧.shape) no_definition
            ⟦<u8 as ArchivePointee>⟧.pointee (self.entry.pos + 0) 0 self.entry result }
    {
        sealed_part_in_record::<ArchivedShipment, u8>(self, 0, 0)
    }

    fn key_mut(self) -> Seal<'a, [u8; 4]>
        requires come_to { IsSealOf no_definition (one ⟦<ArchivedShipment as Portable>⟧.shape)
            self }
        ensures { SealsPart no_definition (one ⟦<ArchivedShipment as Portable>⟧.shape) no_definition
            ⟦<[u8; 4] as ArchivePointee>⟧.pointee (self.entry.pos + 1) 0 self.entry result }
    {
        sealed_part_in_record::<ArchivedShipment, [u8; 4]>(self, 1, 1)
    }

    fn is_open_mut(self) -> Seal<'a, bool>
        requires come_to { IsSealOf no_definition (one ⟦<ArchivedShipment as Portable>⟧.shape)
            self }
        ensures { SealsPart no_definition (one ⟦<ArchivedShipment as Portable>⟧.shape) no_definition
            ⟦<bool as ArchivePointee>⟧.pointee (self.entry.pos + 5) 0 self.entry result }
    {
        sealed_part_in_record::<ArchivedShipment, bool>(self, 2, 5)
    }

    fn weighed_mut(self) -> Seal<'a, ArchivedOption<ArchivedTuple2<u8, ArchivedString>>>
        requires come_to { IsSealOf no_definition (one ⟦<ArchivedShipment as Portable>⟧.shape)
            self }
        ensures { SealsPart no_definition (one ⟦<ArchivedShipment as Portable>⟧.shape)
            (both no_definition (both no_definition no_definition))
            ⟦<ArchivedOption<ArchivedTuple2<u8, ArchivedString>> as ArchivePointee>⟧.pointee
            (self.entry.pos + 8) 0 self.entry result }
    {
        sealed_part_in_record::<
            ArchivedShipment,
            ArchivedOption<ArchivedTuple2<u8, ArchivedString>>,
        >(self, 3, 8)
    }

    fn class_mut(self) -> Seal<'a, u8>
        requires come_to { IsSealOf no_definition (one ⟦<ArchivedShipment as Portable>⟧.shape)
            self }
        ensures { SealsPart no_definition (one ⟦<ArchivedShipment as Portable>⟧.shape) no_definition
            ⟦<u8 as ArchivePointee>⟧.pointee (self.entry.pos + 24) 0 self.entry result }
    {
        sealed_part_in_record::<ArchivedShipment, u8>(self, 4, 24)
    }

    fn deck_mut(self) -> Seal<'a, u8>
        requires come_to { IsSealOf no_definition (one ⟦<ArchivedShipment as Portable>⟧.shape)
            self }
        ensures { SealsPart no_definition (one ⟦<ArchivedShipment as Portable>⟧.shape) no_definition
            ⟦<u8 as ArchivePointee>⟧.pointee (self.entry.pos + 25) 0 self.entry result }
    {
        sealed_part_in_record::<ArchivedShipment, u8>(self, 5, 25)
    }

    fn row_mut(self) -> Seal<'a, u8>
        requires come_to { IsSealOf no_definition (one ⟦<ArchivedShipment as Portable>⟧.shape)
            self }
        ensures { SealsPart no_definition (one ⟦<ArchivedShipment as Portable>⟧.shape) no_definition
            ⟦<u8 as ArchivePointee>⟧.pointee (self.entry.pos + 26) 0 self.entry result }
    {
        sealed_part_in_record::<ArchivedShipment, u8>(self, 6, 26)
    }

    fn place_mut(self) -> Seal<'a, u8>
        requires come_to { IsSealOf no_definition (one ⟦<ArchivedShipment as Portable>⟧.shape)
            self }
        ensures { SealsPart no_definition (one ⟦<ArchivedShipment as Portable>⟧.shape) no_definition
            ⟦<u8 as ArchivePointee>⟧.pointee (self.entry.pos + 27) 0 self.entry result }
    {
        sealed_part_in_record::<ArchivedShipment, u8>(self, 7, 27)
    }

    fn side_mut(self) -> Seal<'a, i8>
        requires come_to { IsSealOf no_definition (one ⟦<ArchivedShipment as Portable>⟧.shape)
            self }
        ensures { SealsPart no_definition (one ⟦<ArchivedShipment as Portable>⟧.shape) no_definition
            ⟦<i8 as ArchivePointee>⟧.pointee (self.entry.pos + 28) 0 self.entry result }
    {
        sealed_part_in_record::<ArchivedShipment, i8>(self, 8, 28)
    }

    fn layers_mut(self) -> Seal<'a, u8>
        requires come_to { IsSealOf no_definition (one ⟦<ArchivedShipment as Portable>⟧.shape)
            self }
        ensures { SealsPart no_definition (one ⟦<ArchivedShipment as Portable>⟧.shape) no_definition
            ⟦<u8 as ArchivePointee>⟧.pointee (self.entry.pos + 29) 0 self.entry result }
    {
        sealed_part_in_record::<ArchivedShipment, u8>(self, 9, 29)
    }

    fn boxes_mut(self) -> Seal<'a, u8>
        requires come_to { IsSealOf no_definition (one ⟦<ArchivedShipment as Portable>⟧.shape)
            self }
        ensures { SealsPart no_definition (one ⟦<ArchivedShipment as Portable>⟧.shape) no_definition
            ⟦<u8 as ArchivePointee>⟧.pointee (self.entry.pos + 30) 0 self.entry result }
    {
        sealed_part_in_record::<ArchivedShipment, u8>(self, 10, 30)
    }

    fn ports_mut(self) -> Seal<'a, u8>
        requires come_to { IsSealOf no_definition (one ⟦<ArchivedShipment as Portable>⟧.shape)
            self }
        ensures { SealsPart no_definition (one ⟦<ArchivedShipment as Portable>⟧.shape) no_definition
            ⟦<u8 as ArchivePointee>⟧.pointee (self.entry.pos + 31) 0 self.entry result }
    {
        sealed_part_in_record::<ArchivedShipment, u8>(self, 11, 31)
    }

    fn stamps_mut(self) -> Seal<'a, u8>
        requires come_to { IsSealOf no_definition (one ⟦<ArchivedShipment as Portable>⟧.shape)
            self }
        ensures { SealsPart no_definition (one ⟦<ArchivedShipment as Portable>⟧.shape) no_definition
            ⟦<u8 as ArchivePointee>⟧.pointee (self.entry.pos + 32) 0 self.entry result }
    {
        sealed_part_in_record::<ArchivedShipment, u8>(self, 12, 32)
    }

    fn size_mut(self) -> Seal<'a, ArchivedTuple2<u8, u8>>
        requires come_to { IsSealOf no_definition (one ⟦<ArchivedShipment as Portable>⟧.shape)
            self }
        ensures { SealsPart no_definition (one ⟦<ArchivedShipment as Portable>⟧.shape)
            (both no_definition (both no_definition no_definition))
            ⟦<ArchivedTuple2<u8, u8> as ArchivePointee>⟧.pointee (self.entry.pos + 33) 0 self.entry
            result }
    {
        sealed_part_in_record::<ArchivedShipment, ArchivedTuple2<u8, u8>>(self, 13, 33)
    }

    fn sender_mut(self) -> Seal<'a, ArchivedString>
        requires come_to { IsSealOf no_definition (one ⟦<ArchivedShipment as Portable>⟧.shape)
            self }
        ensures { SealsPart no_definition (one ⟦<ArchivedShipment as Portable>⟧.shape) no_definition
            ⟦<ArchivedString as ArchivePointee>⟧.pointee (self.entry.pos + 36) 0 self.entry result }
    {
        sealed_part_in_record::<ArchivedShipment, ArchivedString>(self, 14, 36)
    }

    fn due_mut(self) -> Seal<'a, u8>
        requires come_to { IsSealOf no_definition (one ⟦<ArchivedShipment as Portable>⟧.shape)
            self }
        ensures { SealsPart no_definition (one ⟦<ArchivedShipment as Portable>⟧.shape) no_definition
            ⟦<u8 as ArchivePointee>⟧.pointee (self.entry.pos + 44) 0 self.entry result }
    {
        sealed_part_in_record::<ArchivedShipment, u8>(self, 15, 44)
    }

    fn came_mut(self) -> Seal<'a, ArchivedU64>
        requires come_to { IsSealOf no_definition (one ⟦<ArchivedShipment as Portable>⟧.shape)
            self }
        ensures { SealsPart no_definition (one ⟦<ArchivedShipment as Portable>⟧.shape) no_definition
            ⟦<ArchivedU64 as ArchivePointee>⟧.pointee (self.entry.pos + 48) 0 self.entry result }
    {
        sealed_part_in_record::<ArchivedShipment, ArchivedU64>(self, 16, 48)
    }
}
