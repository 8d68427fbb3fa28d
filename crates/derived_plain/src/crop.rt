//! A struct of arrays in other types.

/// A part of a picture.
#[derive(Debug, PartialEq, Drop)]
pub struct Crop {
    /// Its left and upper edge, its width and height; `None` of the whole picture.
    pub area: Option<[u32; 4]>,
    /// How far it is moved, or the name of what it follows.
    pub moved: Result<[i16; 2], String>,
    /// How its edges are bent, to both sides.
    pub bends: [[i8; 2]; 2],
    /// The places that are marked in it.
    pub marks: Vec<[u16; 2]>,
}

// Below this line all is written by tools/derive: change what is above it, and run it again.

ghost use Rattle.archive_core.specs.Arrays.{array_keyed, array_planned};
ghost use Rattle.archive_core.specs.CallOutcomes.{ResolvesAs};
ghost use Rattle.archive_core.specs.Definitions.{both, no_definition};
ghost use Rattle.archive_core.specs.Fields.{field_in};
ghost use Rattle.archive_core.specs.Keyed.{each_keyed, nothing_keyed, number_keyed, part_keyed, record_keyed, text_keyed};
ghost use Rattle.archive_core.specs.LeafLayout.{no_definition_reached};
ghost use Rattle.archive_core.specs.Options.{option_keyed, option_planned};
ghost use Rattle.archive_core.specs.PartsPlanned.{no_part_planned, part_planned};
ghost use Rattle.archive_core.specs.Plain.{plain_own_check, plain_record, plain_record_planned};
ghost use Rattle.archive_core.specs.Planned.{leaf_planned, string_planned};
ghost use Rattle.archive_core.specs.PlannedOwners.{one_planned, slice_planned, vec_planned};
ghost use Rattle.archive_core.specs.ReadBack.{ReadsAs};
ghost use Rattle.archive_core.specs.Results.{result_keyed, result_planned};
ghost use Rattle.archive_core.specs.SealOutcomes.{IsSealOf, SealsPart};
ghost use Rattle.archive_core.specs.Seen.{IsPartOf, ShowsValueOf};
ghost use Rattle.archive_core.specs.Shape.{no_part, one, part, parts};
ghost use Rattle.archive_core.specs.Value.{no_value, product, value};
ghost use Rattle.archive_core.specs.Writing.{ZeroedPlace};
ghost use Rattle.std.proofs.Common.{inl, inr, lit≤};
ghost use Rattle.std.specs.Prelude.{None, [], length, refl, string_bytes, true, ◌++◌, ◌+◌, ◌≡◌};

use archive_core::core_impls::OwnedArray;
use archive_core::error::Error;
use archive_core::fields::{part_in_record, resolve_record_4, serialize_record_4};
use archive_core::option::ArchivedOption;
use archive_core::place::Place;
use archive_core::primitive::{ArchivedI16, ArchivedU16, ArchivedU32};
use archive_core::record::deserialize_record;
use archive_core::result::ArchivedResult;
use archive_core::seal::{Seal, sealed_part_in_record};
use archive_core::self_check::{RecordCheck, SelfCheck};
use archive_core::ser::{ResolverAlloc, Writer, serialize_one};
use archive_core::shape::Defs;
use archive_core::string::ArchivedString;
use archive_core::traits::{
    Archive, ArchivePointee, ArchiveUnsized, CopyOptimization, Deserialize, Entries, FourParts,
    Keys, Portable, Record, Serialize, SerializeUnsized, expr_of_record,
};
use archive_core::validation::ArchiveContext;
use archive_core::vec::ArchivedVec;
use archive_core::view::{RawView, Ref};
use std::alloc::Global;

/// An archived `Crop`: 44 bytes at a multiple of 4.
pub struct ArchivedCrop;

type CropParts = FourParts<
    ArchivedOption<[ArchivedU32; 4]>,
    ArchivedResult<[ArchivedI16; 2], ArchivedString>,
    [[i8; 2]; 2],
    ArchivedVec<[ArchivedU16; 2]>,
    (),
>;

type CropOwned = FourParts<
    Option<[u32; 4]>,
    Result<[i16; 2], String>,
    OwnedArray<[i8; 2], 2>,
    Vec<[u16; 2]>,
    (),
>;

impl ArchivePointee for ArchivedCrop {
    type ArchivedMetadata = ();

    ghost pointee = { one (parts (part ⟦<ArchivedOption<[ArchivedU32; 4]> as Portable>⟧.shape
        (part ⟦<ArchivedResult<[ArchivedI16; 2], ArchivedString> as Portable>⟧.shape
        (part ⟦<[[i8; 2]; 2] as Portable>⟧.shape
        (part ⟦<ArchivedVec<[ArchivedU16; 2]> as Portable>⟧.shape no_part))))) };

    ghost definitions = { no_definition };

    ghost metadata_length = { λ _. 0 };

    fn pointer_metadata(_metadata: &()) -> usize {
        0
    }
}

impl Portable for ArchivedCrop {
    ghost shape = { parts (part ⟦<ArchivedOption<[ArchivedU32; 4]> as Portable>⟧.shape
        (part ⟦<ArchivedResult<[ArchivedI16; 2], ArchivedString> as Portable>⟧.shape
        (part ⟦<[[i8; 2]; 2] as Portable>⟧.shape
        (part ⟦<ArchivedVec<[ArchivedU16; 2]> as Portable>⟧.shape no_part)))) };

    ghost layout = { record { size = 44; align = 4 } };

    type Check = ArchivedCrop;

    ghost is_one = { refl };

    ghost is_align = { inr (inr (inl refl)) };

    ghost has_layout = { record { solved = λ s k. refl } };

    ghost no_others = { no_definition_reached (parts (part
        ⟦<ArchivedOption<[ArchivedU32; 4]> as Portable>⟧.shape
        (part ⟦<ArchivedResult<[ArchivedI16; 2], ArchivedString> as Portable>⟧.shape
        (part ⟦<[[i8; 2]; 2] as Portable>⟧.shape
        (part ⟦<ArchivedVec<[ArchivedU16; 2]> as Portable>⟧.shape no_part))))) };

    ghost checks = { λ _. plain_own_check _ _ _ _ _ refl refl refl refl };

    fn size() -> usize {
        44
    }

    fn align() -> usize {
        4
    }

    fn expr(alloc: Global) -> Result<archive_core::shape::Expr, Error> {
        expr_of_record::<CropParts>(alloc)
    }

    fn define(_alloc: Global, _defs: &mut Defs) -> Result<(), Error> {
        Ok(())
    }
}

impl SelfCheck for ArchivedCrop {
    ghost shape = { parts (part ⟦<ArchivedOption<[ArchivedU32; 4]> as Portable>⟧.shape
        (part ⟦<ArchivedResult<[ArchivedI16; 2], ArchivedString> as Portable>⟧.shape
        (part ⟦<[[i8; 2]; 2] as Portable>⟧.shape
        (part ⟦<ArchivedVec<[ArchivedU16; 2]> as Portable>⟧.shape no_part)))) };

    ghost definitions = { (both no_definition (both (both no_definition no_definition)
        (both no_definition (both no_definition no_definition)))) };

    ghost span = { 44 };

    ghost direct = { true };

    ghost nameless = { true };

    fn is_direct() -> bool {
        true
    }

    fn is_nameless() -> bool {
        true
    }

    #[inline(always)]
    fn check_at<C: ArchiveContext>(
        bytes: &[u8],
        at: usize,
        refusal: &mut Error,
        context: &mut C,
    ) -> Option<()> {
        RecordCheck::<CropParts>::check_at(bytes, at, refusal, context)
    }
}

impl Record for ArchivedCrop {
    type Parts = CropParts;

    ghost has_parts = { plain_record (part ⟦<ArchivedOption<[ArchivedU32; 4]> as Portable>⟧.shape
        (part ⟦<ArchivedResult<[ArchivedI16; 2], ArchivedString> as Portable>⟧.shape
        (part ⟦<[[i8; 2]; 2] as Portable>⟧.shape
        (part ⟦<ArchivedVec<[ArchivedU16; 2]> as Portable>⟧.shape no_part))))
        (both no_definition (both (both no_definition no_definition)
        (both no_definition (both no_definition no_definition)))) refl };

    ghost holds = { lit≤ tt };
}

/// What is kept of `Crop` between `serialize` and `resolve`.
#[derive(Drop)]
pub struct CropResolver {
    kept: (
        <Option<[u32; 4]> as Archive>::Resolver,
        (
            <Result<[i16; 2], String> as Archive>::Resolver,
            (
                <[[i8; 2]; 2] as Archive>::Resolver,
                (<Vec<[u16; 2]> as Archive>::Resolver, ()),
            ),
        ),
    ),
}

impl Archive for Crop {
    type Archived = ArchivedCrop;

    type Resolver = CropResolver;

    ghost meaning = { λ v. product (value (⟦<Option<[u32; 4]> as Archive>⟧.meaning v.area)
        (value (⟦<Result<[i16; 2], String> as Archive>⟧.meaning v.moved)
        (value (⟦<[[i8; 2]; 2] as Archive>⟧.meaning v.bends)
        (value (⟦<Vec<[u16; 2]> as Archive>⟧.meaning v.marks) no_value)))) };

    ghost flat = { λ v r. product (value (⟦<Option<[u32; 4]> as Archive>⟧.flat v.area r.kept.0)
        (value (⟦<Result<[i16; 2], String> as Archive>⟧.flat v.moved r.kept.1.0)
        (value (⟦<[[i8; 2]; 2] as Archive>⟧.flat v.bends r.kept.1.1.0)
        (value (⟦<Vec<[u16; 2]> as Archive>⟧.flat v.marks r.kept.1.1.1.0) no_value)))) };

    ghost keys = { λ v. ⟦<Option<[u32; 4]> as Archive>⟧.keys v.area
        ++ (⟦<Result<[i16; 2], String> as Archive>⟧.keys v.moved
        ++ (⟦<[[i8; 2]; 2] as Archive>⟧.keys v.bends ++ (⟦<Vec<[u16; 2]> as Archive>⟧.keys v.marks
        ++ []))) };

    ghost belongs = { λ v r. ⟦<Option<[u32; 4]> as Archive>⟧.belongs v.area r.kept.0
        × (⟦<Result<[i16; 2], String> as Archive>⟧.belongs v.moved r.kept.1.0
        × (⟦<[[i8; 2]; 2] as Archive>⟧.belongs v.bends r.kept.1.1.0
        × (⟦<Vec<[u16; 2]> as Archive>⟧.belongs v.marks r.kept.1.1.1.0 × Unit {0}))) };

    ghost in_bulk = { None };

    ghost keyed = { λ v. record_keyed (part_keyed (option_keyed ⟦<[u32; 4] as Archive>⟧.keys
        ⟦<[u32; 4] as Archive>⟧.meaning (λ x. array_keyed 4 ⟦<u32 as Archive>⟧.keys
        ⟦<u32 as Archive>⟧.meaning (λ x. number_keyed _) x) v.area)
        (part_keyed (result_keyed ⟦<[i16; 2] as Archive>⟧.keys ⟦<String as Archive>⟧.keys
        ⟦<[i16; 2] as Archive>⟧.meaning ⟦<String as Archive>⟧.meaning
        (λ x. array_keyed 2 ⟦<i16 as Archive>⟧.keys ⟦<i16 as Archive>⟧.meaning (λ x. number_keyed _)
        x) (λ x. text_keyed (string_bytes x)) v.moved) (part_keyed
        (array_keyed 2 ⟦<[i8; 2] as Archive>⟧.keys ⟦<[i8; 2] as Archive>⟧.meaning
        (λ x. array_keyed 2 ⟦<i8 as Archive>⟧.keys ⟦<i8 as Archive>⟧.meaning (λ x. number_keyed _)
        x) v.bends) (part_keyed (each_keyed ⟦<[u16; 2] as Archive>⟧.keys
        ⟦<[u16; 2] as Archive>⟧.meaning (λ x. array_keyed 2 ⟦<u16 as Archive>⟧.keys
        ⟦<u16 as Archive>⟧.meaning (λ x. number_keyed _) x) v.marks.items) nothing_keyed)))) };

    ghost planned = { λ v. plain_record_planned (both no_definition
        (both (both no_definition no_definition) (both no_definition
        (both no_definition no_definition))))
        (part ⟦<ArchivedOption<[ArchivedU32; 4]> as Portable>⟧.shape
        (part ⟦<ArchivedResult<[ArchivedI16; 2], ArchivedString> as Portable>⟧.shape
        (part ⟦<[[i8; 2]; 2] as Portable>⟧.shape
        (part ⟦<ArchivedVec<[ArchivedU16; 2]> as Portable>⟧.shape no_part)))) _ _
        (part_planned no_definition ⟦<ArchivedOption<[ArchivedU32; 4]> as Portable>⟧.shape
        (⟦<Option<[u32; 4]> as Archive>⟧.keys v.area) (⟦<Option<[u32; 4]> as Archive>⟧.meaning
        v.area) (option_planned no_definition ⟦<[ArchivedU32; 4] as Portable>⟧.shape
        ⟦<[u32; 4] as Archive>⟧.keys ⟦<[u32; 4] as Archive>⟧.meaning
        (λ x. array_planned 4 no_definition ⟦<ArchivedU32 as Portable>⟧.shape
        ⟦<u32 as Archive>⟧.keys ⟦<u32 as Archive>⟧.meaning
        (λ x. leaf_planned no_definition _ _ [] _ refl) x) v.area)
        (part_planned (both no_definition no_definition)
        ⟦<ArchivedResult<[ArchivedI16; 2], ArchivedString> as Portable>⟧.shape
        (⟦<Result<[i16; 2], String> as Archive>⟧.keys v.moved)
        (⟦<Result<[i16; 2], String> as Archive>⟧.meaning v.moved)
        (result_planned ⟦<[i16; 2] as Archive>⟧.keys ⟦<String as Archive>⟧.keys
        ⟦<[i16; 2] as Archive>⟧.meaning ⟦<String as Archive>⟧.meaning no_definition no_definition
        ⟦<[ArchivedI16; 2] as Portable>⟧.shape ⟦<ArchivedString as Portable>⟧.shape
        (λ x. array_planned 2 no_definition ⟦<ArchivedI16 as Portable>⟧.shape
        ⟦<i16 as Archive>⟧.keys ⟦<i16 as Archive>⟧.meaning
        (λ x. leaf_planned no_definition _ _ [] _ refl) x)
        (λ x. string_planned no_definition [] (string_bytes x)) v.moved)
        (part_planned no_definition ⟦<[[i8; 2]; 2] as Portable>⟧.shape
        (⟦<[[i8; 2]; 2] as Archive>⟧.keys v.bends) (⟦<[[i8; 2]; 2] as Archive>⟧.meaning v.bends)
        (array_planned 2 no_definition ⟦<[i8; 2] as Portable>⟧.shape ⟦<[i8; 2] as Archive>⟧.keys
        ⟦<[i8; 2] as Archive>⟧.meaning (λ x. array_planned 2 no_definition ⟦<i8 as Portable>⟧.shape
        ⟦<i8 as Archive>⟧.keys ⟦<i8 as Archive>⟧.meaning
        (λ x. leaf_planned no_definition _ _ [] _ refl) x) v.bends)
        (part_planned no_definition ⟦<ArchivedVec<[ArchivedU16; 2]> as Portable>⟧.shape
        (⟦<Vec<[u16; 2]> as Archive>⟧.keys v.marks) (⟦<Vec<[u16; 2]> as Archive>⟧.meaning v.marks)
        (vec_planned no_definition ⟦<[ArchivedU16; 2] as Portable>⟧.shape _ _ _
        (slice_planned no_definition ⟦<[ArchivedU16; 2] as Portable>⟧.shape
        ⟦<[u16; 2] as Archive>⟧.keys ⟦<[u16; 2] as Archive>⟧.meaning
        (λ x. array_planned 2 no_definition ⟦<ArchivedU16 as Portable>⟧.shape
        ⟦<u16 as Archive>⟧.keys ⟦<u16 as Archive>⟧.meaning
        (λ x. leaf_planned no_definition _ _ [] _ refl) x) v.marks.items)) no_part_planned))))
        refl };

    #[inline(always)]
    fn resolve(
        &self,
        resolver: Self::Resolver,
        place: Place<'_, Self::Archived>,
    ) -> Result<(), Error>
        requires zeroed { ZeroedPlace 44 place.pos place.bytes.now }
        requires same_value { ⟦<Self as Archive>⟧.belongs self.now resolver }
        ensures { ResolvesAs ⟦<Self::Archived as Portable>⟧ place
            (⟦<Self as Archive>⟧.flat self.now resolver) result }
    {
        let Place { bytes, pos, .. } = place;
        let CropResolver { kept } = resolver;
        resolve_record_4::<
            Option<[u32; 4]>,
            Result<[i16; 2], String>,
            [[i8; 2]; 2],
            Vec<[u16; 2]>,
            ArchivedCrop,
        >(
            &self.area,
            &self.moved,
            &self.bends,
            &self.marks,
            kept,
            Place::new(pos, bytes),
        )
    }

    #[inline(always)]
    fn copy_optimization() -> CopyOptimization<Self> {
        CopyOptimization::disable()
    }

    #[inline(always)]
    fn serialize_copied<S: Writer + Keys>(
        _values: &[Self],
        _together: usize,
        _serializer: &mut S,
    ) -> Result<Option<usize>, Error> {
        Ok(None)
    }
}

impl<S: Writer + ResolverAlloc<Alloc = Global>> Serialize<S> for Crop {
    #[inline(always)]
    fn serialize(&self, serializer: &mut S) -> Result<Self::Resolver, Error> {
        match serialize_record_4::<
            Option<[u32; 4]>,
            Result<[i16; 2], String>,
            [[i8; 2]; 2],
            Vec<[u16; 2]>,
            ArchivedCrop,
            S,
        >(
            &self.area,
            &self.moved,
            &self.bends,
            &self.marks,
            serializer,
        ) {
            Ok(kept) => Ok(CropResolver { kept }),
            Err(error) => Err(error),
        }
    }
}

/// As a region of its own: the value itself.
impl ArchiveUnsized for Crop {
    ghost use Rattle.derived_plain.specs.contracts.crop.CropArchive.TheImpl.Laws.{keyed-law as keyed_of_crop, planned-law as planned_of_crop};

    type Archived = ArchivedCrop;

    ghost source_length = { λ _. 0 };

    ghost meaning = { ⟦<Crop as Archive>⟧.meaning };

    ghost keys = { ⟦<Crop as Archive>⟧.keys };

    ghost keyed = { keyed_of_crop };

    ghost one_length = { λ _ _. refl };

    ghost planned = { λ v. one_planned no_definition (parts
        (part ⟦<ArchivedOption<[ArchivedU32; 4]> as Portable>⟧.shape
        (part ⟦<ArchivedResult<[ArchivedI16; 2], ArchivedString> as Portable>⟧.shape
        (part ⟦<[[i8; 2]; 2] as Portable>⟧.shape
        (part ⟦<ArchivedVec<[ArchivedU16; 2]> as Portable>⟧.shape no_part)))))
        (⟦<Crop as Archive>⟧.keys v) (⟦<Crop as Archive>⟧.meaning v) (planned_of_crop v) };

    #[inline(always)]
    fn archived_metadata(&self) -> Result<(), Error> {
        Ok(())
    }
}

impl<S: Writer + ResolverAlloc<Alloc = Global>> SerializeUnsized<S> for Crop {
    #[inline(always)]
    fn serialize_unsized(&self, serializer: &mut S) -> Result<usize, Error> {
        serialize_one(self, serializer)
    }
}

// The `Crop` of these values, one after another.
fn crop_of(values: CropOwned) -> Crop
    ensures meaning { ⟦<Crop as Archive>⟧.meaning result
        ≡ product (value (⟦<Option<[u32; 4]> as Archive>⟧.meaning values.first)
        (value (⟦<Result<[i16; 2], String> as Archive>⟧.meaning values.second)
        (value (⟦<OwnedArray<[i8; 2], 2> as Archive>⟧.meaning values.third)
        (value (⟦<Vec<[u16; 2]> as Archive>⟧.meaning values.fourth) no_value)))) }
    ensures keys { ⟦<Crop as Archive>⟧.keys result ≡ ⟦<Option<[u32; 4]> as Archive>⟧.keys
        values.first ++ (⟦<Result<[i16; 2], String> as Archive>⟧.keys values.second
        ++ (⟦<OwnedArray<[i8; 2], 2> as Archive>⟧.keys values.third
        ++ (⟦<Vec<[u16; 2]> as Archive>⟧.keys values.fourth ++ []))) }
{
    let FourParts {
        first: a0,
        second: a1,
        third: a2,
        fourth: a3,
        rest,
    } = values;
    let () = rest;
    Crop {
        area: a0,
        moved: a1,
        bends: a2.into_array(),
        marks: a3,
    }
}

impl<D: Entries> Deserialize<Crop, D> for ArchivedCrop {
    #[inline(always)]
    fn deserialize_part(
        alloc: Global,
        part: RawView<'_>,
        deserializer: &mut D,
    ) -> Result<Crop, Error>
        requires { IsPartOf ⟦<Self as ArchivePointee>⟧ part }
        ensures { ReadsAs ⟦<Self as ArchivePointee>⟧ part D.Entries deserializer ⟦<Crop as Archive>⟧
            result }
    {
        match deserialize_record::<Self, CropOwned, D>(alloc, part, deserializer) {
            Ok(values) => Ok(crop_of(values)),
            Err(error) => Err(error),
        }
    }
}

/// The fields of an archived `Crop`, as views.
pub trait CropView<'a> {
    /// Its left and upper edge, its width and height; `None` of the whole picture.
    fn area(self) -> Ref<'a, ArchivedOption<[ArchivedU32; 4]>>;

    /// How far it is moved, or the name of what it follows.
    fn moved(self) -> Ref<'a, ArchivedResult<[ArchivedI16; 2], ArchivedString>>;

    /// How its edges are bent, to both sides.
    fn bends(self) -> Ref<'a, [[i8; 2]; 2]>;

    /// The places that are marked in it.
    fn marks(self) -> Ref<'a, ArchivedVec<[ArchivedU16; 2]>>;
}

impl<'a> CropView<'a> for Ref<'a, ArchivedCrop> {
    fn area(self) -> Ref<'a, ArchivedOption<[ArchivedU32; 4]>>
        ensures buffer { result.bytes.now ≡ self.entry.bytes.now }
        ensures position { result.pos ≡ self.entry.pos + 0 }
        ensures length { result.len ≡ 0 }
        ensures shows { ShowsValueOf result self.entry (field_in 0) }
    {
        part_in_record::<ArchivedCrop, ArchivedOption<[ArchivedU32; 4]>>(self, 0, 0)
    }

    fn moved(self) -> Ref<'a, ArchivedResult<[ArchivedI16; 2], ArchivedString>>
        ensures buffer { result.bytes.now ≡ self.entry.bytes.now }
        ensures position { result.pos ≡ self.entry.pos + 20 }
        ensures length { result.len ≡ 0 }
        ensures shows { ShowsValueOf result self.entry (field_in 1) }
    {
        part_in_record::<ArchivedCrop, ArchivedResult<[ArchivedI16; 2], ArchivedString>>(
            self, 1, 20,
        )
    }

    fn bends(self) -> Ref<'a, [[i8; 2]; 2]>
        ensures buffer { result.bytes.now ≡ self.entry.bytes.now }
        ensures position { result.pos ≡ self.entry.pos + 32 }
        ensures length { result.len ≡ 0 }
        ensures shows { ShowsValueOf result self.entry (field_in 2) }
    {
        part_in_record::<ArchivedCrop, [[i8; 2]; 2]>(self, 2, 32)
    }

    fn marks(self) -> Ref<'a, ArchivedVec<[ArchivedU16; 2]>>
        ensures buffer { result.bytes.now ≡ self.entry.bytes.now }
        ensures position { result.pos ≡ self.entry.pos + 36 }
        ensures length { result.len ≡ 0 }
        ensures shows { ShowsValueOf result self.entry (field_in 3) }
    {
        part_in_record::<ArchivedCrop, ArchivedVec<[ArchivedU16; 2]>>(self, 3, 36)
    }
}

/// The fields of an archived `Crop`, as seals.
pub trait CropSeal<'a> {
    // The seal shows a part of a buffer that was checked.
    ghost sealed: { Self → Type 0 };

    /// Its left and upper edge, its width and height; `None` of the whole picture.
    fn area_mut(self) -> Seal<'a, ArchivedOption<[ArchivedU32; 4]>>
        requires { sealed self };

    /// How far it is moved, or the name of what it follows.
    fn moved_mut(self) -> Seal<'a, ArchivedResult<[ArchivedI16; 2], ArchivedString>>
        requires { sealed self };

    /// How its edges are bent, to both sides.
    fn bends_mut(self) -> Seal<'a, [[i8; 2]; 2]>
        requires { sealed self };

    /// The places that are marked in it.
    fn marks_mut(self) -> Seal<'a, ArchivedVec<[ArchivedU16; 2]>>
        requires { sealed self };
}

impl<'a> CropSeal<'a> for Seal<'a, ArchivedCrop> {
    ghost sealed = { λ s. IsSealOf no_definition (one ⟦<ArchivedCrop as Portable>⟧.shape) s };

    fn area_mut(self) -> Seal<'a, ArchivedOption<[ArchivedU32; 4]>>
        requires come_to { IsSealOf no_definition (one ⟦<ArchivedCrop as Portable>⟧.shape) self }
        ensures { SealsPart no_definition (one ⟦<ArchivedCrop as Portable>⟧.shape) no_definition
            ⟦<ArchivedOption<[ArchivedU32; 4]> as ArchivePointee>⟧.pointee (self.entry.pos + 0) 0
            self.entry result }
    {
        sealed_part_in_record::<ArchivedCrop, ArchivedOption<[ArchivedU32; 4]>>(self, 0, 0)
    }

    fn moved_mut(self) -> Seal<'a, ArchivedResult<[ArchivedI16; 2], ArchivedString>>
        requires come_to { IsSealOf no_definition (one ⟦<ArchivedCrop as Portable>⟧.shape) self }
        ensures { SealsPart no_definition (one ⟦<ArchivedCrop as Portable>⟧.shape)
            (both no_definition no_definition)
            ⟦<ArchivedResult<[ArchivedI16; 2], ArchivedString> as ArchivePointee>⟧.pointee
            (self.entry.pos + 20) 0 self.entry result }
    {
        sealed_part_in_record::<ArchivedCrop, ArchivedResult<[ArchivedI16; 2], ArchivedString>>(
            self, 1, 20,
        )
    }

    fn bends_mut(self) -> Seal<'a, [[i8; 2]; 2]>
        requires come_to { IsSealOf no_definition (one ⟦<ArchivedCrop as Portable>⟧.shape) self }
        ensures { SealsPart no_definition (one ⟦<ArchivedCrop as Portable>⟧.shape) no_definition
            ⟦<[[i8; 2]; 2] as ArchivePointee>⟧.pointee (self.entry.pos + 32) 0 self.entry result }
    {
        sealed_part_in_record::<ArchivedCrop, [[i8; 2]; 2]>(self, 2, 32)
    }

    fn marks_mut(self) -> Seal<'a, ArchivedVec<[ArchivedU16; 2]>>
        requires come_to { IsSealOf no_definition (one ⟦<ArchivedCrop as Portable>⟧.shape) self }
        ensures { SealsPart no_definition (one ⟦<ArchivedCrop as Portable>⟧.shape) no_definition
            ⟦<ArchivedVec<[ArchivedU16; 2]> as ArchivePointee>⟧.pointee (self.entry.pos + 36) 0
            self.entry result }
    {
        sealed_part_in_record::<ArchivedCrop, ArchivedVec<[ArchivedU16; 2]>>(self, 3, 36)
    }
}
