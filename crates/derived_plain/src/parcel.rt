//! A struct of deep fields, which are read back in pieces.

use std::collections::BTreeMap;

/// What is sent.
#[derive(Debug, PartialEq, Drop)]
pub struct Parcel {
    /// Its number.
    pub number: u64,
    /// Its key.
    pub key: [u8; 4],
    /// What it weighed, and where.
    pub weighed: Option<(u8, String)>,
    /// What is in it, and how many of each.
    pub content: Vec<(String, u8)>,
    /// What is noted of it.
    pub notes: Option<Vec<String>>,
    /// When it came to each station.
    pub stations: BTreeMap<String, Vec<u8>>,
    /// Who took it, or when it was offered.
    pub taken: Result<String, Vec<u8>>,
}

// Below this line all is written by tools/derive: change what is above it, and run it again.

ghost use Rattle.archive_core.specs.Arrays.{array_keyed, array_planned};
ghost use Rattle.archive_core.specs.CallOutcomes.{ResolvesAs};
ghost use Rattle.archive_core.specs.Definitions.{both, no_definition};
ghost use Rattle.archive_core.specs.Fields.{field_in};
ghost use Rattle.archive_core.specs.Keyed.{each_keyed, nothing_keyed, number_keyed, part_keyed, record_keyed, text_keyed};
ghost use Rattle.archive_core.specs.LeafLayout.{no_definition_reached};
ghost use Rattle.archive_core.specs.Options.{option_keyed, option_planned};
ghost use Rattle.archive_core.specs.PartsPlanned.{no_part_planned, part_planned, product_planned};
ghost use Rattle.archive_core.specs.Plain.{plain_own_check, plain_record, plain_record_planned};
ghost use Rattle.archive_core.specs.Planned.{leaf_planned, string_planned};
ghost use Rattle.archive_core.specs.PlannedMaps.{map_of_pairs_planned, pairs_keyed};
ghost use Rattle.archive_core.specs.PlannedOwners.{one_planned, slice_planned, vec_planned};
ghost use Rattle.archive_core.specs.ReadBack.{ReadsAs};
ghost use Rattle.archive_core.specs.Results.{result_keyed, result_planned};
ghost use Rattle.archive_core.specs.SealOutcomes.{IsSealOf, SealsPart};
ghost use Rattle.archive_core.specs.Seen.{IsPartOf, ReadsPart, RefusesPart, ShowsValueOf};
ghost use Rattle.archive_core.specs.Shape.{no_part, one, part, parts};
ghost use Rattle.archive_core.specs.Value.{no_value, product, value};
ghost use Rattle.archive_core.specs.Writing.{ZeroedPlace};
ghost use Rattle.std.proofs.Common.{inl, inr, lit≤};
ghost use Rattle.std.specs.Prelude.{IfErr, IfOk, None, [], length, refl, string_bytes, true, ◌++◌, ◌+◌, ◌≡◌};

use archive_core::core_impls::{ArchivedTuple2, OwnedArray};
use archive_core::error::Error;
use archive_core::fields::{part_in_record, resolve_record_7, serialize_record_7};
use archive_core::map::ArchivedSortedMap;
use archive_core::option::ArchivedOption;
use archive_core::parts::DeserializeParts;
use archive_core::place::Place;
use archive_core::primitive::ArchivedU64;
use archive_core::result::ArchivedResult;
use archive_core::seal::{Seal, sealed_part_in_record};
use archive_core::self_check::{RecordCheck, SelfCheck};
use archive_core::ser::{ResolverAlloc, Writer, serialize_one};
use archive_core::shape::Defs;
use archive_core::string::ArchivedString;
use archive_core::traits::{
    Archive, ArchivePointee, ArchiveUnsized, CopyOptimization, Deserialize, Entries, FourParts,
    Keys, MapKey, Portable, Record, Serialize, SerializeUnsized, expr_of_record,
};
use archive_core::validation::ArchiveContext;
use archive_core::vec::ArchivedVec;
use archive_core::view::{RawView, Ref};
use std::alloc::Global;

/// An archived `Parcel`: 72 bytes at a multiple of 8.
pub struct ArchivedParcel;

type ParcelParts = FourParts<
    ArchivedU64,
    [u8; 4],
    ArchivedOption<ArchivedTuple2<u8, ArchivedString>>,
    ArchivedVec<ArchivedTuple2<ArchivedString, u8>>,
    (
        ArchivedOption<ArchivedVec<ArchivedString>>,
        (
            ArchivedSortedMap<ArchivedString, ArchivedVec<u8>>,
            (ArchivedResult<ArchivedString, ArchivedVec<u8>>, ()),
        ),
    ),
>;

impl ArchivePointee for ArchivedParcel {
    type ArchivedMetadata = ();

    ghost pointee = { one (parts (part ⟦<ArchivedU64 as Portable>⟧.shape
        (part ⟦<[u8; 4] as Portable>⟧.shape
        (part ⟦<ArchivedOption<ArchivedTuple2<u8, ArchivedString>> as Portable>⟧.shape
        (part ⟦<ArchivedVec<ArchivedTuple2<ArchivedString, u8>> as Portable>⟧.shape
        (part ⟦<ArchivedOption<ArchivedVec<ArchivedString>> as Portable>⟧.shape
        (part ⟦<ArchivedSortedMap<ArchivedString, ArchivedVec<u8>> as Portable>⟧.shape
        (part ⟦<ArchivedResult<ArchivedString, ArchivedVec<u8>> as Portable>⟧.shape
        no_part)))))))) };

    ghost definitions = { no_definition };

    ghost metadata_length = { λ _. 0 };

    fn pointer_metadata(_metadata: &()) -> usize {
        0
    }
}

impl Portable for ArchivedParcel {
    ghost shape = { parts (part ⟦<ArchivedU64 as Portable>⟧.shape
        (part ⟦<[u8; 4] as Portable>⟧.shape
        (part ⟦<ArchivedOption<ArchivedTuple2<u8, ArchivedString>> as Portable>⟧.shape
        (part ⟦<ArchivedVec<ArchivedTuple2<ArchivedString, u8>> as Portable>⟧.shape
        (part ⟦<ArchivedOption<ArchivedVec<ArchivedString>> as Portable>⟧.shape
        (part ⟦<ArchivedSortedMap<ArchivedString, ArchivedVec<u8>> as Portable>⟧.shape
        (part ⟦<ArchivedResult<ArchivedString, ArchivedVec<u8>> as Portable>⟧.shape
        no_part))))))) };

    ghost layout = { record { size = 72; align = 8 } };

    type Check = ArchivedParcel;

    ghost is_one = { refl };

    ghost is_align = { inr (inr (inr (inl refl))) };

    ghost has_layout = { record { solved = λ s k. refl } };

    ghost no_others = { no_definition_reached (parts (part ⟦<ArchivedU64 as Portable>⟧.shape
        (part ⟦<[u8; 4] as Portable>⟧.shape
        (part ⟦<ArchivedOption<ArchivedTuple2<u8, ArchivedString>> as Portable>⟧.shape
        (part ⟦<ArchivedVec<ArchivedTuple2<ArchivedString, u8>> as Portable>⟧.shape
        (part ⟦<ArchivedOption<ArchivedVec<ArchivedString>> as Portable>⟧.shape
        (part ⟦<ArchivedSortedMap<ArchivedString, ArchivedVec<u8>> as Portable>⟧.shape
        (part ⟦<ArchivedResult<ArchivedString, ArchivedVec<u8>> as Portable>⟧.shape
        no_part)))))))) };

    ghost checks = { λ _. plain_own_check _ _ _ _ _ refl refl refl refl };

    fn size() -> usize {
        72
    }

    fn align() -> usize {
        8
    }

    fn expr(alloc: Global) -> Result<archive_core::shape::Expr, Error> {
        expr_of_record::<ParcelParts>(alloc)
    }

    fn define(_alloc: Global, _defs: &mut Defs) -> Result<(), Error> {
        Ok(())
    }
}

impl SelfCheck for ArchivedParcel {
    ghost shape = { parts (part ⟦<ArchivedU64 as Portable>⟧.shape
        (part ⟦<[u8; 4] as Portable>⟧.shape
        (part ⟦<ArchivedOption<ArchivedTuple2<u8, ArchivedString>> as Portable>⟧.shape
        (part ⟦<ArchivedVec<ArchivedTuple2<ArchivedString, u8>> as Portable>⟧.shape
        (part ⟦<ArchivedOption<ArchivedVec<ArchivedString>> as Portable>⟧.shape
        (part ⟦<ArchivedSortedMap<ArchivedString, ArchivedVec<u8>> as Portable>⟧.shape
        (part ⟦<ArchivedResult<ArchivedString, ArchivedVec<u8>> as Portable>⟧.shape
        no_part))))))) };

    ghost definitions = { (both no_definition (both no_definition
        (both (both no_definition (both no_definition no_definition))
        (both (both no_definition (both no_definition no_definition))
        (both no_definition (both (both no_definition (both no_definition no_definition))
        (both (both no_definition no_definition) no_definition))))))) };

    ghost span = { 68 };

    ghost direct = { true };

    ghost nameless = { true };

    fn is_direct() -> bool {
        true
    }

    fn is_nameless() -> bool {
        true
    }

    #[inline(always)]
    fn check_at<C: ArchiveContext>(
        bytes: &[u8],
        at: usize,
        refusal: &mut Error,
        context: &mut C,
    ) -> Option<()> {
        RecordCheck::<ParcelParts>::check_at(bytes, at, refusal, context)
    }
}

impl Record for ArchivedParcel {
    type Parts = ParcelParts;

    ghost has_parts = { plain_record (part ⟦<ArchivedU64 as Portable>⟧.shape
        (part ⟦<[u8; 4] as Portable>⟧.shape
        (part ⟦<ArchivedOption<ArchivedTuple2<u8, ArchivedString>> as Portable>⟧.shape
        (part ⟦<ArchivedVec<ArchivedTuple2<ArchivedString, u8>> as Portable>⟧.shape
        (part ⟦<ArchivedOption<ArchivedVec<ArchivedString>> as Portable>⟧.shape
        (part ⟦<ArchivedSortedMap<ArchivedString, ArchivedVec<u8>> as Portable>⟧.shape
        (part ⟦<ArchivedResult<ArchivedString, ArchivedVec<u8>> as Portable>⟧.shape no_part)))))))
        (both no_definition (both no_definition (both (both no_definition
        (both no_definition no_definition)) (both (both no_definition
        (both no_definition no_definition)) (both no_definition
        (both (both no_definition (both no_definition no_definition))
        (both (both no_definition no_definition) no_definition))))))) refl };

    ghost holds = { lit≤ tt };
}

/// What is kept of `Parcel` between `serialize` and `resolve`.
#[derive(Drop)]
pub struct ParcelResolver {
    kept: (
        <u64 as Archive>::Resolver,
        (
            <[u8; 4] as Archive>::Resolver,
            (
                <Option<(u8, String)> as Archive>::Resolver,
                (
                    <Vec<(String, u8)> as Archive>::Resolver,
                    (
                        <Option<Vec<String>> as Archive>::Resolver,
                        (
                            <BTreeMap<String, Vec<u8>> as Archive>::Resolver,
                            (<Result<String, Vec<u8>> as Archive>::Resolver, ()),
                        ),
                    ),
                ),
            ),
        ),
    ),
}

impl Archive for Parcel {
    type Archived = ArchivedParcel;

    type Resolver = ParcelResolver;

    ghost meaning = { λ v. product (value (⟦<u64 as Archive>⟧.meaning v.number)
        (value (⟦<[u8; 4] as Archive>⟧.meaning v.key) (value
        (⟦<Option<(u8, String)> as Archive>⟧.meaning v.weighed)
        (value (⟦<Vec<(String, u8)> as Archive>⟧.meaning v.content)
        (value (⟦<Option<Vec<String>> as Archive>⟧.meaning v.notes)
        (value (⟦<BTreeMap<String, Vec<u8>> as Archive>⟧.meaning v.stations)
        (value (⟦<Result<String, Vec<u8>> as Archive>⟧.meaning v.taken) no_value))))))) };

    ghost flat = { λ v r. product (value (⟦<u64 as Archive>⟧.flat v.number r.kept.0)
        (value (⟦<[u8; 4] as Archive>⟧.flat v.key r.kept.1.0)
        (value (⟦<Option<(u8, String)> as Archive>⟧.flat v.weighed r.kept.1.1.0)
        (value (⟦<Vec<(String, u8)> as Archive>⟧.flat v.content r.kept.1.1.1.0)
        (value (⟦<Option<Vec<String>> as Archive>⟧.flat v.notes r.kept.1.1.1.1.0)
        (value (⟦<BTreeMap<String, Vec<u8>> as Archive>⟧.flat v.stations r.kept.1.1.1.1.1.0)
        (value (⟦<Result<String, Vec<u8>> as Archive>⟧.flat v.taken r.kept.1.1.1.1.1.1.0)
        no_value))))))) };

    ghost keys = { λ v. ⟦<u64 as Archive>⟧.keys v.number
        ++ (⟦<[u8; 4] as Archive>⟧.keys v.key ++ (⟦<Option<(u8, String)> as Archive>⟧.keys v.weighed
        ++ (⟦<Vec<(String, u8)> as Archive>⟧.keys v.content
        ++ (⟦<Option<Vec<String>> as Archive>⟧.keys v.notes
        ++ (⟦<BTreeMap<String, Vec<u8>> as Archive>⟧.keys v.stations
        ++ (⟦<Result<String, Vec<u8>> as Archive>⟧.keys v.taken ++ [])))))) };

    ghost belongs = { λ v r. ⟦<u64 as Archive>⟧.belongs v.number r.kept.0
        × (⟦<[u8; 4] as Archive>⟧.belongs v.key r.kept.1.0
        × (⟦<Option<(u8, String)> as Archive>⟧.belongs v.weighed r.kept.1.1.0
        × (⟦<Vec<(String, u8)> as Archive>⟧.belongs v.content r.kept.1.1.1.0
        × (⟦<Option<Vec<String>> as Archive>⟧.belongs v.notes r.kept.1.1.1.1.0
        × (⟦<BTreeMap<String, Vec<u8>> as Archive>⟧.belongs v.stations r.kept.1.1.1.1.1.0
        × (⟦<Result<String, Vec<u8>> as Archive>⟧.belongs v.taken r.kept.1.1.1.1.1.1.0
        × Unit {0})))))) };

    ghost in_bulk = { None };

    ghost keyed = { λ v. record_keyed (part_keyed (number_keyed _)
        (part_keyed (array_keyed 4 ⟦<u8 as Archive>⟧.keys ⟦<u8 as Archive>⟧.meaning
        (λ x. number_keyed _) v.key) (part_keyed (option_keyed ⟦<(u8, String) as Archive>⟧.keys
        ⟦<(u8, String) as Archive>⟧.meaning (λ x. record_keyed
        (part_keyed (number_keyed _) (part_keyed (text_keyed (string_bytes x.1)) nothing_keyed)))
        v.weighed) (part_keyed (each_keyed ⟦<(String, u8) as Archive>⟧.keys
        ⟦<(String, u8) as Archive>⟧.meaning (λ x. record_keyed
        (part_keyed (text_keyed (string_bytes x.0)) (part_keyed (number_keyed _) nothing_keyed)))
        v.content.items) (part_keyed (option_keyed ⟦<Vec<String> as Archive>⟧.keys
        ⟦<Vec<String> as Archive>⟧.meaning (λ x. each_keyed ⟦<String as Archive>⟧.keys
        ⟦<String as Archive>⟧.meaning (λ x. text_keyed (string_bytes x)) x.items) v.notes)
        (part_keyed (pairs_keyed ⟦<String as Archive>⟧.keys ⟦<Vec<u8> as Archive>⟧.keys
        ⟦<String as Archive>⟧.meaning ⟦<Vec<u8> as Archive>⟧.meaning
        (λ x. text_keyed (string_bytes x)) (λ x. each_keyed ⟦<u8 as Archive>⟧.keys
        ⟦<u8 as Archive>⟧.meaning (λ x. number_keyed _) x.items) v.stations.entries)
        (part_keyed (result_keyed ⟦<String as Archive>⟧.keys ⟦<Vec<u8> as Archive>⟧.keys
        ⟦<String as Archive>⟧.meaning ⟦<Vec<u8> as Archive>⟧.meaning
        (λ x. text_keyed (string_bytes x)) (λ x. each_keyed ⟦<u8 as Archive>⟧.keys
        ⟦<u8 as Archive>⟧.meaning (λ x. number_keyed _) x.items) v.taken) nothing_keyed))))))) };

    ghost planned = { λ v. plain_record_planned (both no_definition
        (both no_definition (both (both no_definition (both no_definition no_definition))
        (both (both no_definition (both no_definition no_definition))
        (both no_definition (both (both no_definition (both no_definition no_definition))
        (both (both no_definition no_definition) no_definition)))))))
        (part ⟦<ArchivedU64 as Portable>⟧.shape (part ⟦<[u8; 4] as Portable>⟧.shape
        (part ⟦<ArchivedOption<ArchivedTuple2<u8, ArchivedString>> as Portable>⟧.shape
        (part ⟦<ArchivedVec<ArchivedTuple2<ArchivedString, u8>> as Portable>⟧.shape
        (part ⟦<ArchivedOption<ArchivedVec<ArchivedString>> as Portable>⟧.shape
        (part ⟦<ArchivedSortedMap<ArchivedString, ArchivedVec<u8>> as Portable>⟧.shape
        (part ⟦<ArchivedResult<ArchivedString, ArchivedVec<u8>> as Portable>⟧.shape no_part))))))) _
        _ (part_planned no_definition ⟦<ArchivedU64 as Portable>⟧.shape
        (⟦<u64 as Archive>⟧.keys v.number) (⟦<u64 as Archive>⟧.meaning v.number)
        (leaf_planned no_definition _ _ [] _ refl) (part_planned no_definition
        ⟦<[u8; 4] as Portable>⟧.shape (⟦<[u8; 4] as Archive>⟧.keys v.key)
        (⟦<[u8; 4] as Archive>⟧.meaning v.key) (array_planned 4 no_definition
        ⟦<u8 as Portable>⟧.shape ⟦<u8 as Archive>⟧.keys ⟦<u8 as Archive>⟧.meaning
        (λ x. leaf_planned no_definition _ _ [] _ refl) v.key)
        (part_planned (both no_definition (both no_definition no_definition))
        ⟦<ArchivedOption<ArchivedTuple2<u8, ArchivedString>> as Portable>⟧.shape
        (⟦<Option<(u8, String)> as Archive>⟧.keys v.weighed)
        (⟦<Option<(u8, String)> as Archive>⟧.meaning v.weighed)
        (option_planned (both no_definition (both no_definition no_definition))
        ⟦<ArchivedTuple2<u8, ArchivedString> as Portable>⟧.shape ⟦<(u8, String) as Archive>⟧.keys
        ⟦<(u8, String) as Archive>⟧.meaning (λ x. product_planned
        (both no_definition (both no_definition no_definition))
        (part ⟦<u8 as Portable>⟧.shape (part ⟦<ArchivedString as Portable>⟧.shape no_part))
        (⟦<u8 as Archive>⟧.keys x.0 ++ (⟦<String as Archive>⟧.keys x.1 ++ []))
        (value (⟦<u8 as Archive>⟧.meaning x.0) (value (⟦<String as Archive>⟧.meaning x.1) no_value))
        (part_planned no_definition ⟦<u8 as Portable>⟧.shape (⟦<u8 as Archive>⟧.keys x.0)
        (⟦<u8 as Archive>⟧.meaning x.0) (leaf_planned no_definition _ _ [] _ refl)
        (part_planned no_definition ⟦<ArchivedString as Portable>⟧.shape
        (⟦<String as Archive>⟧.keys x.1) (⟦<String as Archive>⟧.meaning x.1)
        (string_planned no_definition [] (string_bytes x.1)) no_part_planned))) v.weighed)
        (part_planned (both no_definition (both no_definition no_definition))
        ⟦<ArchivedVec<ArchivedTuple2<ArchivedString, u8>> as Portable>⟧.shape
        (⟦<Vec<(String, u8)> as Archive>⟧.keys v.content)
        (⟦<Vec<(String, u8)> as Archive>⟧.meaning v.content)
        (vec_planned (both no_definition (both no_definition no_definition))
        ⟦<ArchivedTuple2<ArchivedString, u8> as Portable>⟧.shape _ _ _
        (slice_planned (both no_definition (both no_definition no_definition))
        ⟦<ArchivedTuple2<ArchivedString, u8> as Portable>⟧.shape ⟦<(String, u8) as Archive>⟧.keys
        ⟦<(String, u8) as Archive>⟧.meaning (λ x. product_planned
        (both no_definition (both no_definition no_definition))
        (part ⟦<ArchivedString as Portable>⟧.shape (part ⟦<u8 as Portable>⟧.shape no_part))
        (⟦<String as Archive>⟧.keys x.0 ++ (⟦<u8 as Archive>⟧.keys x.1 ++ []))
        (value (⟦<String as Archive>⟧.meaning x.0) (value (⟦<u8 as Archive>⟧.meaning x.1) no_value))
        (part_planned no_definition ⟦<ArchivedString as Portable>⟧.shape
        (⟦<String as Archive>⟧.keys x.0) (⟦<String as Archive>⟧.meaning x.0)
        (string_planned no_definition [] (string_bytes x.0))
        (part_planned no_definition ⟦<u8 as Portable>⟧.shape (⟦<u8 as Archive>⟧.keys x.1)
        (⟦<u8 as Archive>⟧.meaning x.1) (leaf_planned no_definition _ _ [] _ refl)
        no_part_planned))) v.content.items)) (part_planned no_definition
        ⟦<ArchivedOption<ArchivedVec<ArchivedString>> as Portable>⟧.shape
        (⟦<Option<Vec<String>> as Archive>⟧.keys v.notes)
        (⟦<Option<Vec<String>> as Archive>⟧.meaning v.notes)
        (option_planned no_definition ⟦<ArchivedVec<ArchivedString> as Portable>⟧.shape
        ⟦<Vec<String> as Archive>⟧.keys ⟦<Vec<String> as Archive>⟧.meaning
        (λ x. vec_planned no_definition ⟦<ArchivedString as Portable>⟧.shape _ _ _
        (slice_planned no_definition ⟦<ArchivedString as Portable>⟧.shape ⟦<String as Archive>⟧.keys
        ⟦<String as Archive>⟧.meaning (λ x. string_planned no_definition [] (string_bytes x))
        x.items)) v.notes) (part_planned (both no_definition (both no_definition no_definition))
        ⟦<ArchivedSortedMap<ArchivedString, ArchivedVec<u8>> as Portable>⟧.shape
        (⟦<BTreeMap<String, Vec<u8>> as Archive>⟧.keys v.stations)
        (⟦<BTreeMap<String, Vec<u8>> as Archive>⟧.meaning v.stations)
        (map_of_pairs_planned ⟦<String as Archive>⟧.keys ⟦<Vec<u8> as Archive>⟧.keys
        ⟦<String as Archive>⟧.meaning ⟦<Vec<u8> as Archive>⟧.meaning no_definition no_definition
        ⟦<ArchivedString as Portable>⟧.shape ⟦<ArchivedVec<u8> as Portable>⟧.shape
        (λ x. string_planned no_definition [] (string_bytes x))
        (λ x. vec_planned no_definition ⟦<u8 as Portable>⟧.shape _ _ _
        (slice_planned no_definition ⟦<u8 as Portable>⟧.shape ⟦<u8 as Archive>⟧.keys
        ⟦<u8 as Archive>⟧.meaning (λ x. leaf_planned no_definition _ _ [] _ refl) x.items))
        ⟦<ArchivedString as MapKey>⟧.key refl v.stations.entries)
        (part_planned (both no_definition no_definition)
        ⟦<ArchivedResult<ArchivedString, ArchivedVec<u8>> as Portable>⟧.shape
        (⟦<Result<String, Vec<u8>> as Archive>⟧.keys v.taken)
        (⟦<Result<String, Vec<u8>> as Archive>⟧.meaning v.taken)
        (result_planned ⟦<String as Archive>⟧.keys ⟦<Vec<u8> as Archive>⟧.keys
        ⟦<String as Archive>⟧.meaning ⟦<Vec<u8> as Archive>⟧.meaning no_definition no_definition
        ⟦<ArchivedString as Portable>⟧.shape ⟦<ArchivedVec<u8> as Portable>⟧.shape
        (λ x. string_planned no_definition [] (string_bytes x))
        (λ x. vec_planned no_definition ⟦<u8 as Portable>⟧.shape _ _ _
        (slice_planned no_definition ⟦<u8 as Portable>⟧.shape ⟦<u8 as Archive>⟧.keys
        ⟦<u8 as Archive>⟧.meaning (λ x. leaf_planned no_definition _ _ [] _ refl) x.items)) v.taken)
        no_part_planned))))))) refl };

    #[inline(always)]
    fn resolve(
        &self,
        resolver: Self::Resolver,
        place: Place<'_, Self::Archived>,
    ) -> Result<(), Error>
        requires zeroed { ZeroedPlace 72 place.pos place.bytes.now }
        requires same_value { ⟦<Self as Archive>⟧.belongs self.now resolver }
        ensures { ResolvesAs ⟦<Self::Archived as Portable>⟧ place
            (⟦<Self as Archive>⟧.flat self.now resolver) result }
    {
        let Place { bytes, pos, .. } = place;
        let ParcelResolver { kept } = resolver;
        resolve_record_7::<
            u64,
            [u8; 4],
            Option<(u8, String)>,
            Vec<(String, u8)>,
            Option<Vec<String>>,
            BTreeMap<String, Vec<u8>>,
            Result<String, Vec<u8>>,
            ArchivedParcel,
        >(
            &self.number,
            &self.key,
            &self.weighed,
            &self.content,
            &self.notes,
            &self.stations,
            &self.taken,
            kept,
            Place::new(pos, bytes),
        )
    }

    #[inline(always)]
    fn copy_optimization() -> CopyOptimization<Self> {
        CopyOptimization::disable()
    }

    #[inline(always)]
    fn serialize_copied<S: Writer + Keys>(
        _values: &[Self],
        _together: usize,
        _serializer: &mut S,
    ) -> Result<Option<usize>, Error> {
        Ok(None)
    }
}

impl<S: Writer + ResolverAlloc<Alloc = Global>> Serialize<S> for Parcel {
    #[inline(always)]
    fn serialize(&self, serializer: &mut S) -> Result<Self::Resolver, Error> {
        match serialize_record_7::<
            u64,
            [u8; 4],
            Option<(u8, String)>,
            Vec<(String, u8)>,
            Option<Vec<String>>,
            BTreeMap<String, Vec<u8>>,
            Result<String, Vec<u8>>,
            ArchivedParcel,
            S,
        >(
            &self.number,
            &self.key,
            &self.weighed,
            &self.content,
            &self.notes,
            &self.stations,
            &self.taken,
            serializer,
        ) {
            Ok(kept) => Ok(ParcelResolver { kept }),
            Err(error) => Err(error),
        }
    }
}

/// As a region of its own: the value itself.
impl ArchiveUnsized for Parcel {
    ghost use Rattle.derived_plain.specs.contracts.parcel.ParcelArchive.TheImpl.Laws.{keyed-law as keyed_of_parcel, planned-law as planned_of_parcel};

    type Archived = ArchivedParcel;

    ghost source_length = { λ _. 0 };

    ghost meaning = { ⟦<Parcel as Archive>⟧.meaning };

    ghost keys = { ⟦<Parcel as Archive>⟧.keys };

    ghost keyed = { keyed_of_parcel };

    ghost one_length = { λ _ _. refl };

    ghost planned = { λ v. one_planned no_definition (parts
        (part ⟦<ArchivedU64 as Portable>⟧.shape (part ⟦<[u8; 4] as Portable>⟧.shape
        (part ⟦<ArchivedOption<ArchivedTuple2<u8, ArchivedString>> as Portable>⟧.shape
        (part ⟦<ArchivedVec<ArchivedTuple2<ArchivedString, u8>> as Portable>⟧.shape
        (part ⟦<ArchivedOption<ArchivedVec<ArchivedString>> as Portable>⟧.shape
        (part ⟦<ArchivedSortedMap<ArchivedString, ArchivedVec<u8>> as Portable>⟧.shape
        (part ⟦<ArchivedResult<ArchivedString, ArchivedVec<u8>> as Portable>⟧.shape no_part))))))))
        (⟦<Parcel as Archive>⟧.keys v) (⟦<Parcel as Archive>⟧.meaning v) (planned_of_parcel v) };

    #[inline(always)]
    fn archived_metadata(&self) -> Result<(), Error> {
        Ok(())
    }
}

impl<S: Writer + ResolverAlloc<Alloc = Global>> SerializeUnsized<S> for Parcel {
    #[inline(always)]
    fn serialize_unsized(&self, serializer: &mut S) -> Result<usize, Error> {
        serialize_one(self, serializer)
    }
}

type ParcelParts0 = (
    ArchivedU64,
    (
        [u8; 4],
        (ArchivedOption<ArchivedTuple2<u8, ArchivedString>>, ()),
    ),
);

type ParcelOwned0 = (u64, (OwnedArray<u8, 4>, (Option<(u8, String)>, ())));

type ParcelParts1 = (
    ArchivedVec<ArchivedTuple2<ArchivedString, u8>>,
    (
        ArchivedOption<ArchivedVec<ArchivedString>>,
        (ArchivedSortedMap<ArchivedString, ArchivedVec<u8>>, ()),
    ),
);

type ParcelOwned1 = (
    Vec<(String, u8)>,
    (Option<Vec<String>>, (BTreeMap<String, Vec<u8>>, ())),
);

type ParcelParts2 = (ArchivedResult<ArchivedString, ArchivedVec<u8>>, ());

type ParcelOwned2 = (Result<String, Vec<u8>>, ());

type ParcelOwned = (ParcelOwned0, (ParcelOwned1, (ParcelOwned2, ())));

// Reads the fields of `Parcel` back, piece by piece.
fn read_parcel<D: Entries>(
    alloc: Global,
    part: RawView<'_>,
    deserializer: &mut D,
) -> Result<ParcelOwned, Error>
    requires viewed { IsPartOf ⟦<ArchivedParcel as ArchivePointee>⟧ part }
    ensures read { IfOk result (λ t. ReadsPart ⟦<ArchivedParcel as ArchivePointee>⟧ part D.Entries
        deserializer (product (value (⟦<u64 as Archive>⟧.meaning t.0.0)
        (value (⟦<OwnedArray<u8, 4> as Archive>⟧.meaning t.0.1.0)
        (value (⟦<Option<(u8, String)> as Archive>⟧.meaning t.0.1.1.0)
        (value (⟦<Vec<(String, u8)> as Archive>⟧.meaning t.1.0.0)
        (value (⟦<Option<Vec<String>> as Archive>⟧.meaning t.1.0.1.0)
        (value (⟦<BTreeMap<String, Vec<u8>> as Archive>⟧.meaning t.1.0.1.1.0)
        (value (⟦<Result<String, Vec<u8>> as Archive>⟧.meaning t.1.1.0.0) no_value))))))))
        (⟦<u64 as Archive>⟧.keys t.0.0 ++ (⟦<OwnedArray<u8, 4> as Archive>⟧.keys t.0.1.0
        ++ (⟦<Option<(u8, String)> as Archive>⟧.keys t.0.1.1.0
        ++ (⟦<Vec<(String, u8)> as Archive>⟧.keys t.1.0.0
        ++ (⟦<Option<Vec<String>> as Archive>⟧.keys t.1.0.1.0
        ++ (⟦<BTreeMap<String, Vec<u8>> as Archive>⟧.keys t.1.0.1.1.0
        ++ (⟦<Result<String, Vec<u8>> as Archive>⟧.keys t.1.1.0.0 ++ [])))))))) }
    ensures refused { IfErr result (RefusesPart ⟦<ArchivedParcel as ArchivePointee>⟧ part D.Entries
        deserializer) }
{
    let RawView { bytes, pos, .. } = part;
    let v0 = match <ParcelParts0 as DeserializeParts<ParcelOwned0, D>>::deserialize_parts(
        alloc,
        bytes,
        pos,
        0,
        deserializer,
    ) {
        Ok(v0) => v0,
        Err(error) => return Err(error),
    };
    let v1 = match <ParcelParts1 as DeserializeParts<ParcelOwned1, D>>::deserialize_parts(
        alloc,
        bytes,
        pos,
        28,
        deserializer,
    ) {
        Ok(v1) => v1,
        Err(error) => return Err(error),
    };
    let v2 = match <ParcelParts2 as DeserializeParts<ParcelOwned2, D>>::deserialize_parts(
        alloc,
        bytes,
        pos,
        56,
        deserializer,
    ) {
        Ok(v2) => v2,
        Err(error) => return Err(error),
    };
    Ok((v0, (v1, (v2, ()))))
}

// The `Parcel` of these values, one after another.
fn parcel_of(values: ParcelOwned) -> Parcel
    ensures meaning { ⟦<Parcel as Archive>⟧.meaning result
        ≡ product (value (⟦<u64 as Archive>⟧.meaning values.0.0)
        (value (⟦<OwnedArray<u8, 4> as Archive>⟧.meaning values.0.1.0)
        (value (⟦<Option<(u8, String)> as Archive>⟧.meaning values.0.1.1.0)
        (value (⟦<Vec<(String, u8)> as Archive>⟧.meaning values.1.0.0)
        (value (⟦<Option<Vec<String>> as Archive>⟧.meaning values.1.0.1.0)
        (value (⟦<BTreeMap<String, Vec<u8>> as Archive>⟧.meaning values.1.0.1.1.0)
        (value (⟦<Result<String, Vec<u8>> as Archive>⟧.meaning values.1.1.0.0) no_value))))))) }
    ensures keys { ⟦<Parcel as Archive>⟧.keys result ≡ ⟦<u64 as Archive>⟧.keys values.0.0
        ++ (⟦<OwnedArray<u8, 4> as Archive>⟧.keys values.0.1.0
        ++ (⟦<Option<(u8, String)> as Archive>⟧.keys values.0.1.1.0
        ++ (⟦<Vec<(String, u8)> as Archive>⟧.keys values.1.0.0
        ++ (⟦<Option<Vec<String>> as Archive>⟧.keys values.1.0.1.0
        ++ (⟦<BTreeMap<String, Vec<u8>> as Archive>⟧.keys values.1.0.1.1.0
        ++ (⟦<Result<String, Vec<u8>> as Archive>⟧.keys values.1.1.0.0 ++ [])))))) }
{
    let (v0, (v1, (v2, ()))) = values;
    let (a0, (a1, (a2, ()))) = v0;
    let (a3, (a4, (a5, ()))) = v1;
    let (a6, ()) = v2;
    Parcel {
        number: a0,
        key: a1.into_array(),
        weighed: a2,
        content: a3,
        notes: a4,
        stations: a5,
        taken: a6,
    }
}

impl<D: Entries> Deserialize<Parcel, D> for ArchivedParcel {
    #[inline(always)]
    fn deserialize_part(
        alloc: Global,
        part: RawView<'_>,
        deserializer: &mut D,
    ) -> Result<Parcel, Error>
        requires { IsPartOf ⟦<Self as ArchivePointee>⟧ part }
        ensures { ReadsAs ⟦<Self as ArchivePointee>⟧ part D.Entries deserializer
            ⟦<Parcel as Archive>⟧ result }
    {
        match read_parcel(alloc, part, deserializer) {
            Ok(values) => Ok(parcel_of(values)),
            Err(error) => Err(error),
        }
    }
}

/// The fields of an archived `Parcel`, as views.
pub trait ParcelView<'a> {
    /// Its number.
    fn number(self) -> Ref<'a, ArchivedU64>;

    /// Its key.
    fn key(self) -> Ref<'a, [u8; 4]>;

    /// What it weighed, and where.
    fn weighed(self) -> Ref<'a, ArchivedOption<ArchivedTuple2<u8, ArchivedString>>>;

    /// What is in it, and how many of each.
    fn content(self) -> Ref<'a, ArchivedVec<ArchivedTuple2<ArchivedString, u8>>>;

    /// What is noted of it.
    fn notes(self) -> Ref<'a, ArchivedOption<ArchivedVec<ArchivedString>>>;

    /// When it came to each station.
    fn stations(self) -> Ref<'a, ArchivedSortedMap<ArchivedString, ArchivedVec<u8>>>;

    /// Who took it, or when it was offered.
    fn taken(self) -> Ref<'a, ArchivedResult<ArchivedString, ArchivedVec<u8>>>;
}

impl<'a> ParcelView<'a> for Ref<'a, ArchivedParcel> {
    fn number(self) -> Ref<'a, ArchivedU64>
        ensures buffer { result.bytes.now ≡ self.entry.bytes.now }
        ensures position { result.pos ≡ self.entry.pos + 0 }
        ensures length { result.len ≡ 0 }
        ensures shows { ShowsValueOf result self.entry (field_in 0) }
    {
        part_in_record::<ArchivedParcel, ArchivedU64>(self, 0, 0)
    }

    fn key(self) -> Ref<'a, [u8; 4]>
        ensures buffer { result.bytes.now ≡ self.entry.bytes.now }
        ensures position { result.pos ≡ self.entry.pos + 8 }
        ensures length { result.len ≡ 0 }
        ensures shows { ShowsValueOf result self.entry (field_in 1) }
    {
        part_in_record::<ArchivedParcel, [u8; 4]>(self, 1, 8)
    }

    fn weighed(self) -> Ref<'a, ArchivedOption<ArchivedTuple2<u8, ArchivedString>>>
        ensures buffer { result.bytes.now ≡ self.entry.bytes.now }
        ensures position { result.pos ≡ self.entry.pos + 12 }
        ensures length { result.len ≡ 0 }
        ensures shows { ShowsValueOf result self.entry (field_in 2) }
    {
        part_in_record::<ArchivedParcel, ArchivedOption<ArchivedTuple2<u8, ArchivedString>>>(
            self, 2, 12,
        )
    }

    fn content(self) -> Ref<'a, ArchivedVec<ArchivedTuple2<ArchivedString, u8>>>
        ensures buffer { result.bytes.now ≡ self.entry.bytes.now }
        ensures position { result.pos ≡ self.entry.pos + 28 }
        ensures length { result.len ≡ 0 }
        ensures shows { ShowsValueOf result self.entry (field_in 3) }
    {
        part_in_record::<ArchivedParcel, ArchivedVec<ArchivedTuple2<ArchivedString, u8>>>(
            self, 3, 28,
        )
    }

    fn notes(self) -> Ref<'a, ArchivedOption<ArchivedVec<ArchivedString>>>
        ensures buffer { result.bytes.now ≡ self.entry.bytes.now }
        ensures position { result.pos ≡ self.entry.pos + 36 }
        ensures length { result.len ≡ 0 }
        ensures shows { ShowsValueOf result self.entry (field_in 4) }
    {
        part_in_record::<ArchivedParcel, ArchivedOption<ArchivedVec<ArchivedString>>>(self, 4, 36)
    }

    fn stations(self) -> Ref<'a, ArchivedSortedMap<ArchivedString, ArchivedVec<u8>>>
        ensures buffer { result.bytes.now ≡ self.entry.bytes.now }
        ensures position { result.pos ≡ self.entry.pos + 48 }
        ensures length { result.len ≡ 0 }
        ensures shows { ShowsValueOf result self.entry (field_in 5) }
    {
        part_in_record::<ArchivedParcel, ArchivedSortedMap<ArchivedString, ArchivedVec<u8>>>(
            self, 5, 48,
        )
    }

    fn taken(self) -> Ref<'a, ArchivedResult<ArchivedString, ArchivedVec<u8>>>
        ensures buffer { result.bytes.now ≡ self.entry.bytes.now }
        ensures position { result.pos ≡ self.entry.pos + 56 }
        ensures length { result.len ≡ 0 }
        ensures shows { ShowsValueOf result self.entry (field_in 6) }
    {
        part_in_record::<ArchivedParcel, ArchivedResult<ArchivedString, ArchivedVec<u8>>>(
            self, 6, 56,
        )
    }
}

/// The fields of an archived `Parcel`, as seals.
pub trait ParcelSeal<'a> {
    // The seal shows a part of a buffer that was checked.
    ghost sealed: { Self → Type 0 };

    /// Its number.
    fn number_mut(self) -> Seal<'a, ArchivedU64>
        requires { sealed self };

    /// Its key.
    fn key_mut(self) -> Seal<'a, [u8; 4]>
        requires { sealed self };

    /// What it weighed, and where.
    fn weighed_mut(self) -> Seal<'a, ArchivedOption<ArchivedTuple2<u8, ArchivedString>>>
        requires { sealed self };

    /// What is in it, and how many of each.
    fn content_mut(self) -> Seal<'a, ArchivedVec<ArchivedTuple2<ArchivedString, u8>>>
        requires { sealed self };

    /// What is noted of it.
    fn notes_mut(self) -> Seal<'a, ArchivedOption<ArchivedVec<ArchivedString>>>
        requires { sealed self };

    /// When it came to each station.
    fn stations_mut(self) -> Seal<'a, ArchivedSortedMap<ArchivedString, ArchivedVec<u8>>>
        requires { sealed self };

    /// Who took it, or when it was offered.
    fn taken_mut(self) -> Seal<'a, ArchivedResult<ArchivedString, ArchivedVec<u8>>>
        requires { sealed self };
}

impl<'a> ParcelSeal<'a> for Seal<'a, ArchivedParcel> {
    ghost sealed = { λ s. IsSealOf no_definition (one ⟦<ArchivedParcel as Portable>⟧.shape) s };

    fn number_mut(self) -> Seal<'a, ArchivedU64>
        requires come_to { IsSealOf no_definition (one ⟦<ArchivedParcel as Portable>⟧.shape) self }
        ensures { SealsPart no_definition (one ⟦<ArchivedParcel as Portable>⟧.shape) no_definition
            ⟦<ArchivedU64 as ArchivePointee>⟧.pointee (self.entry.pos + 0) 0 self.entry result }
    {
        sealed_part_in_record::<ArchivedParcel, ArchivedU64>(self, 0, 0)
    }

    fn key_mut(self) -> Seal<'a, [u8; 4]>
        requires come_to { IsSealOf no_definition (one ⟦<ArchivedParcel as Portable>⟧.shape) self }
        ensures { SealsPart no_definition (one ⟦<ArchivedParcel as Portable>⟧.shape) no_definition
            ⟦<[u8; 4] as ArchivePointee>⟧.pointee (self.entry.pos + 8) 0 self.entry result }
    {
        sealed_part_in_record::<ArchivedParcel, [u8; 4]>(self, 1, 8)
    }

    fn weighed_mut(self) -> Seal<'a, ArchivedOption<ArchivedTuple2<u8, ArchivedString>>>
        requires come_to { IsSealOf no_definition (one ⟦<ArchivedParcel as Portable>⟧.shape) self }
        ensures { SealsPart no_definition (one ⟦<ArchivedParcel as Portable>⟧.shape)
            (both no_definition (both no_definition no_definition))
            ⟦<ArchivedOption<ArchivedTuple2<u8, ArchivedString>> as ArchivePointee>⟧.pointee
            (self.entry.pos + 12) 0 self.entry result }
    {
        sealed_part_in_record::<ArchivedParcel, ArchivedOption<ArchivedTuple2<u8, ArchivedString>>>(
            self, 2, 12,
        )
    }

    fn content_mut(self) -> Seal<'a, ArchivedVec<ArchivedTuple2<ArchivedString, u8>>>
        requires come_to { IsSealOf no_definition (one ⟦<ArchivedParcel as Portable>⟧.shape) self }
        ensures { SealsPart no_definition (one ⟦<ArchivedParcel as Portable>⟧.shape)
            (both no_definition (both no_definition no_definition))
            ⟦<ArchivedVec<ArchivedTuple2<ArchivedString, u8>> as ArchivePointee>⟧.pointee
            (self.entry.pos + 28) 0 self.entry result }
    {
        sealed_part_in_record::<ArchivedParcel, ArchivedVec<ArchivedTuple2<ArchivedString, u8>>>(
            self, 3, 28,
        )
    }

    fn notes_mut(self) -> Seal<'a, ArchivedOption<ArchivedVec<ArchivedString>>>
        requires come_to { IsSealOf no_definition (one ⟦<ArchivedParcel as Portable>⟧.shape) self }
        ensures { SealsPart no_definition (one ⟦<ArchivedParcel as Portable>⟧.shape) no_definition
            ⟦<ArchivedOption<ArchivedVec<ArchivedString>> as ArchivePointee>⟧.pointee
            (self.entry.pos + 36) 0 self.entry result }
    {
        sealed_part_in_record::<ArchivedParcel, ArchivedOption<ArchivedVec<ArchivedString>>>(
            self, 4, 36,
        )
    }

    fn stations_mut(self) -> Seal<'a, ArchivedSortedMap<ArchivedString, ArchivedVec<u8>>>
        requires come_to { IsSealOf no_definition (one ⟦<ArchivedParcel as Portable>⟧.shape) self }
        ensures { SealsPart no_definition (one ⟦<ArchivedParcel as Portable>⟧.shape)
            (both no_definition (both no_definition no_definition))
            ⟦<ArchivedSortedMap<ArchivedString, ArchivedVec<u8>> as ArchivePointee>⟧.pointee
            (self.entry.pos + 48) 0 self.entry result }
    {
        sealed_part_in_record::<ArchivedParcel, ArchivedSortedMap<ArchivedString, ArchivedVec<u8>>>(
            self, 5, 48,
        )
    }

    fn taken_mut(self) -> Seal<'a, ArchivedResult<ArchivedString, ArchivedVec<u8>>>
        requires come_to { IsSealOf no_definition (one ⟦<ArchivedParcel as Portable>⟧.shape) self }
        ensures { SealsPart no_definition (one ⟦<ArchivedParcel as Portable>⟧.shape)
            (both no_definition no_definition)
            ⟦<ArchivedResult<ArchivedString, ArchivedVec<u8>> as ArchivePointee>⟧.pointee
            (self.entry.pos + 56) 0 self.entry result }
    {
        sealed_part_in_record::<ArchivedParcel, ArchivedResult<ArchivedString, ArchivedVec<u8>>>(
            self, 6, 56,
        )
    }
}
