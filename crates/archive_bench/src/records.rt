//! Records of the sets, as `tools/derive` archives them.

/// A number, a text and a list of numbers, for the set `plain`.
#[derive(Drop)]
pub struct Plain {
    /// The number.
    pub number: u8,
    /// The text.
    pub text: String,
    /// The list.
    pub list: Vec<i32>,
}

/// A row, for the set `rows`.
#[derive(Drop)]
pub struct Row {
    /// Its number.
    pub id: u64,
    /// What it is called.
    pub name: String,
    /// Its numbers.
    pub values: Vec<u32>,
}

// Below this line all is written by tools/derive: change what is above it, and run it again.

ghost use Rattle.archive_core.specs.CallOutcomes.{ResolvesAs};
ghost use Rattle.archive_core.specs.Definitions.{both, no_definition};
ghost use Rattle.archive_core.specs.Fields.{field_in};
ghost use Rattle.archive_core.specs.Keyed.{each_keyed, nothing_keyed, number_keyed, part_keyed, record_keyed, text_keyed};
ghost use Rattle.archive_core.specs.LeafLayout.{no_definition_reached};
ghost use Rattle.archive_core.specs.PartsPlanned.{no_part_planned, part_planned};
ghost use Rattle.archive_core.specs.Plain.{plain_own_check, plain_record, plain_record_planned};
ghost use Rattle.archive_core.specs.Planned.{leaf_planned, string_planned};
ghost use Rattle.archive_core.specs.PlannedOwners.{one_planned, slice_planned, vec_planned};
ghost use Rattle.archive_core.specs.ReadBack.{ReadsAs};
ghost use Rattle.archive_core.specs.SealOutcomes.{IsSealOf, SealsPart};
ghost use Rattle.archive_core.specs.Seen.{IsPartOf, ShowsValueOf};
ghost use Rattle.archive_core.specs.Shape.{no_part, one, part, parts};
ghost use Rattle.archive_core.specs.Value.{no_value, product, value};
ghost use Rattle.archive_core.specs.Writing.{ZeroedPlace};
ghost use Rattle.std.proofs.Common.{inl, inr, lit≤};
ghost use Rattle.std.specs.Prelude.{None, [], length, refl, string_bytes, true, ◌++◌, ◌+◌, ◌≡◌};

use archive_core::error::Error;
use archive_core::fields::{part_in_record, resolve_record_3, serialize_record_3};
use archive_core::place::Place;
use archive_core::primitive::{ArchivedI32, ArchivedU32, ArchivedU64};
use archive_core::record::deserialize_record;
use archive_core::seal::{Seal, sealed_part_in_record};
use archive_core::self_check::{RecordCheck, SelfCheck};
use archive_core::ser::{ResolverAlloc, Writer, serialize_one};
use archive_core::shape::Defs;
use archive_core::string::ArchivedString;
use archive_core::traits::{
    Archive, ArchivePointee, ArchiveUnsized, CopyOptimization, Deserialize, Entries, Keys,
    Portable, Record, Serialize, SerializeUnsized, expr_of_record,
};
use archive_core::validation::ArchiveContext;
use archive_core::vec::ArchivedVec;
use archive_core::view::{RawView, Ref};
use std::alloc::Global;

/// An archived `Plain`: 20 bytes at a multiple of 4.
pub struct ArchivedPlain;

type PlainParts = (u8, (ArchivedString, (ArchivedVec<ArchivedI32>, ())));

type PlainOwned = (u8, (String, (Vec<i32>, ())));

impl ArchivePointee for ArchivedPlain {
    type ArchivedMetadata = ();

    ghost pointee = { one (parts (part ⟦<u8 as Portable>⟧.shape
        (part ⟦<ArchivedString as Portable>⟧.shape (part
        ⟦<ArchivedVec<ArchivedI32> as Portable>⟧.shape no_part)))) };

    ghost definitions = { no_definition };

    ghost metadata_length = { λ _. 0 };

    fn pointer_metadata(_metadata: &()) -> usize {
        0
    }
}

impl Portable for ArchivedPlain {
    ghost shape = { parts (part ⟦<u8 as Portable>⟧.shape
        (part ⟦<ArchivedString as Portable>⟧.shape (part
        ⟦<ArchivedVec<ArchivedI32> as Portable>⟧.shape no_part))) };

    ghost layout = { record { size = 20; align = 4 } };

    type Check = ArchivedPlain;

    ghost is_one = { refl };

    ghost is_align = { inr (inr (inl refl)) };

    ghost has_layout = { record { solved = λ s k. refl } };

    ghost no_others = { no_definition_reached (parts (part ⟦<u8 as Portable>⟧.shape
        (part ⟦<ArchivedString as Portable>⟧.shape (part
        ⟦<ArchivedVec<ArchivedI32> as Portable>⟧.shape no_part)))) };

    ghost checks = { λ _. plain_own_check _ _ _ _ _ refl refl refl refl };

    fn size() -> usize {
        20
    }

    fn align() -> usize {
        4
    }

    fn expr(alloc: Global) -> Result<archive_core::shape::Expr, Error> {
        expr_of_record::<PlainParts>(alloc)
    }

    fn define(_alloc: Global, _defs: &mut Defs) -> Result<(), Error> {
        Ok(())
    }
}

impl SelfCheck for ArchivedPlain {
    ghost shape = { parts (part ⟦<u8 as Portable>⟧.shape
        (part ⟦<ArchivedString as Portable>⟧.shape (part
        ⟦<ArchivedVec<ArchivedI32> as Portable>⟧.shape no_part))) };

    ghost definitions = { (both no_definition (both no_definition
        (both no_definition no_definition))) };

    ghost span = { 20 };

    ghost direct = { true };

    ghost nameless = { true };

    fn is_direct() -> bool {
        true
    }

    fn is_nameless() -> bool {
        true
    }

    #[inline(always)]
    fn check_at<C: ArchiveContext>(
        bytes: &[u8],
        at: usize,
        refusal: &mut Error,
        context: &mut C,
    ) -> Option<()> {
        RecordCheck::<PlainParts>::check_at(bytes, at, refusal, context)
    }
}

impl Record for ArchivedPlain {
    type Parts = PlainParts;

    ghost has_parts = { plain_record (part ⟦<u8 as Portable>⟧.shape
        (part ⟦<ArchivedString as Portable>⟧.shape (part
        ⟦<ArchivedVec<ArchivedI32> as Portable>⟧.shape no_part)))
        (both no_definition (both no_definition (both no_definition no_definition))) refl };

    ghost holds = { lit≤ tt };
}

/// What is kept of `Plain` between `serialize` and `resolve`.
#[derive(Drop)]
pub struct PlainResolver {
    kept: (
        <u8 as Archive>::Resolver,
        (
            <String as Archive>::Resolver,
            (<Vec<i32> as Archive>::Resolver, ()),
        ),
    ),
}

impl Archive for Plain {
    type Archived = ArchivedPlain;

    type Resolver = PlainResolver;

    ghost meaning = { λ v. product (value (⟦<u8 as Archive>⟧.meaning v.number)
        (value (⟦<String as Archive>⟧.meaning v.text) (value
        (⟦<Vec<i32> as Archive>⟧.meaning v.list) no_value))) };

    ghost flat = { λ v r. product (value (⟦<u8 as Archive>⟧.flat v.number r.kept.0)
        (value (⟦<String as Archive>⟧.flat v.text r.kept.1.0)
        (value (⟦<Vec<i32> as Archive>⟧.flat v.list r.kept.1.1.0) no_value))) };

    ghost keys = { λ v. ⟦<u8 as Archive>⟧.keys v.number
        ++ (⟦<String as Archive>⟧.keys v.text ++ (⟦<Vec<i32> as Archive>⟧.keys v.list ++ [])) };

    ghost belongs = { λ v r. ⟦<u8 as Archive>⟧.belongs v.number r.kept.0
        × (⟦<String as Archive>⟧.belongs v.text r.kept.1.0
        × (⟦<Vec<i32> as Archive>⟧.belongs v.list r.kept.1.1.0 × Unit {0})) };

    ghost in_bulk = { None };

    ghost keyed = { λ v. record_keyed (part_keyed (number_keyed _)
        (part_keyed (text_keyed (string_bytes v.text)) (part_keyed
        (each_keyed ⟦<i32 as Archive>⟧.keys ⟦<i32 as Archive>⟧.meaning (λ x. number_keyed _)
        v.list.items) nothing_keyed))) };

    ghost planned = { λ v. plain_record_planned (both no_definition
        (both no_definition (both no_definition no_definition)))
        (part ⟦<u8 as Portable>⟧.shape (part ⟦<ArchivedString as Portable>⟧.shape
        (part ⟦<ArchivedVec<ArchivedI32> as Portable>⟧.shape no_part))) _ _
        (part_planned no_definition ⟦<u8 as Portable>⟧.shape (⟦<u8 as Archive>⟧.keys v.number)
        (⟦<u8 as Archive>⟧.meaning v.number) (leaf_planned no_definition _ _ [] _ refl)
        (part_planned no_definition ⟦<ArchivedString as Portable>⟧.shape
        (⟦<String as Archive>⟧.keys v.text) (⟦<String as Archive>⟧.meaning v.text)
        (string_planned no_definition [] (string_bytes v.text))
        (part_planned no_definition ⟦<ArchivedVec<ArchivedI32> as Portable>⟧.shape
        (⟦<Vec<i32> as Archive>⟧.keys v.list) (⟦<Vec<i32> as Archive>⟧.meaning v.list)
        (vec_planned no_definition ⟦<ArchivedI32 as Portable>⟧.shape _ _ _
        (slice_planned no_definition ⟦<ArchivedI32 as Portable>⟧.shape ⟦<i32 as Archive>⟧.keys
        ⟦<i32 as Archive>⟧.meaning (λ x. leaf_planned no_definition _ _ [] _ refl) v.list.items))
        no_part_planned))) refl };

    #[inline(always)]
    fn resolve(
        &self,
        resolver: Self::Resolver,
        place: Place<'_, Self::Archived>,
    ) -> Result<(), Error>
        requires zeroed { ZeroedPlace 20 place.pos place.bytes.now }
        requires same_value { ⟦<Self as Archive>⟧.belongs self.now resolver }
        ensures { ResolvesAs ⟦<Self::Archived as Portable>⟧ place
            (⟦<Self as Archive>⟧.flat self.now resolver) result }
    {
        let Place { bytes, pos, .. } = place;
        let PlainResolver { kept } = resolver;
        resolve_record_3::<u8, String, Vec<i32>, ArchivedPlain>(
            &self.number,
            &self.text,
            &self.list,
            kept,
            Place::new(pos, bytes),
        )
    }

    #[inline(always)]
    fn copy_optimization() -> CopyOptimization<Self> {
        CopyOptimization::disable()
    }

    #[inline(always)]
    fn serialize_copied<S: Writer + Keys>(
        _values: &[Self],
        _together: usize,
        _serializer: &mut S,
    ) -> Result<Option<usize>, Error> {
        Ok(None)
    }
}

impl<S: Writer + ResolverAlloc> Serialize<S> for Plain {
    #[inline(always)]
    fn serialize(&self, serializer: &mut S) -> Result<Self::Resolver, Error> {
        match serialize_record_3::<u8, String, Vec<i32>, ArchivedPlain, S>(
            &self.number,
            &self.text,
            &self.list,
            serializer,
        ) {
            Ok(kept) => Ok(PlainResolver { kept }),
            Err(error) => Err(error),
        }
    }
}

/// As a region of its own: the value itself.
impl ArchiveUnsized for Plain {
    ghost use Rattle.archive_bench.specs.contracts.records.PlainArchive.TheImpl.Laws.{keyed-law as keyed_of_plain, planned-law as planned_of_plain};

    type Archived = ArchivedPlain;

    ghost source_length = { λ _. 0 };

    ghost meaning = { ⟦<Plain as Archive>⟧.meaning };

    ghost keys = { ⟦<Plain as Archive>⟧.keys };

    ghost keyed = { keyed_of_plain };

    ghost one_length = { λ _ _. refl };

    ghost planned = { λ v. one_planned no_definition (parts
        (part ⟦<u8 as Portable>⟧.shape (part ⟦<ArchivedString as Portable>⟧.shape
        (part ⟦<ArchivedVec<ArchivedI32> as Portable>⟧.shape no_part))))
        (⟦<Plain as Archive>⟧.keys v) (⟦<Plain as Archive>⟧.meaning v) (planned_of_plain v) };

    #[inline(always)]
    fn archived_metadata(&self) -> Result<(), Error> {
        Ok(())
    }
}

impl<S: Writer + ResolverAlloc> SerializeUnsized<S> for Plain {
    #[inline(always)]
    fn serialize_unsized(&self, serializer: &mut S) -> Result<usize, Error> {
        serialize_one(self, serializer)
    }
}

impl<D: Entries> Deserialize<Plain, D> for ArchivedPlain {
    #[inline(always)]
    fn deserialize_part(
        alloc: Global,
        part: RawView<'_>,
        deserializer: &mut D,
    ) -> Result<Plain, Error>
        requires { IsPartOf ⟦<Self as ArchivePointee>⟧ part }
        ensures { ReadsAs ⟦<Self as ArchivePointee>⟧ part D.Entries deserializer
            ⟦<Plain as Archive>⟧ result }
    {
        match deserialize_record::<Self, PlainOwned, D>(alloc, part, deserializer) {
            Ok((a0, (a1, (a2, ())))) => Ok(Plain {
                number: a0,
                text: a1,
                list: a2,
            }),
            Err(error) => Err(error),
        }
    }
}

/// The fields of an archived `Plain`, as views.
pub trait PlainView<'a> {
    /// The number.
    fn number(self) -> Ref<'a, u8>;

    /// The text.
    fn text(self) -> Ref<'a, ArchivedString>;

    /// The list.
    fn list(self) -> Ref<'a, ArchivedVec<ArchivedI32>>;
}

impl<'a> PlainView<'a> for Ref<'a, ArchivedPlain> {
    fn number(self) -> Ref<'a, u8>
        ensures buffer { result.bytes.now ≡ self.entry.bytes.now }
        ensures position { result.pos ≡ self.entry.pos + 0 }
        ensures length { result.len ≡ 0 }
        ensures shows { ShowsValueOf result self.entry (field_in 0) }
    {
        part_in_record::<ArchivedPlain, u8>(self, 0, 0)
    }

    fn text(self) -> Ref<'a, ArchivedString>
        ensures buffer { result.bytes.now ≡ self.entry.bytes.now }
        ensures position { result.pos ≡ self.entry.pos + 4 }
        ensures length { result.len ≡ 0 }
        ensures shows { ShowsValueOf result self.entry (field_in 1) }
    {
        part_in_record::<ArchivedPlain, ArchivedString>(self, 1, 4)
    }

    fn list(self) -> Ref<'a, ArchivedVec<ArchivedI32>>
        ensures buffer { result.bytes.now ≡ self.entry.bytes.now }
        ensures position { result.pos ≡ self.entry.pos + 12 }
        ensures length { result.len ≡ 0 }
        ensures shows { ShowsValueOf result self.entry (field_in 2) }
    {
        part_in_record::<ArchivedPlain, ArchivedVec<ArchivedI32>>(self, 2, 12)
    }
}

/// The fields of an archived `Plain`, as seals.
pub trait PlainSeal<'a> {
    // The seal shows a part of a buffer that was checked.
    ghost sealed: { Self → Type 0 };

    /// The number.
    fn number_mut(self) -> Seal<'a, u8>
        requires { sealed self };

    /// The text.
    fn text_mut(self) -> Seal<'a, ArchivedString>
        requires { sealed self };

    /// The list.
    fn list_mut(self) -> Seal<'a, ArchivedVec<ArchivedI32>>
        requires { sealed self };
}

impl<'a> PlainSeal<'a> for Seal<'a, ArchivedPlain> {
    ghost sealed = { λ s. IsSealOf no_definition (one ⟦<ArchivedPlain as Portable>⟧.shape) s };

    fn number_mut(self) -> Seal<'a, u8>
        requires come_to { IsSealOf no_definition (one ⟦<ArchivedPlain as Portable>⟧.shape) self }
        ensures { SealsPart no_definition (one ⟦<ArchivedPlain as Portable>⟧.shape) no_definition
            ⟦<u8 as ArchivePointee>⟧.pointee (self.entry.pos + 0) 0 self.entry result }
    {
        sealed_part_in_record::<ArchivedPlain, u8>(self, 0, 0)
    }

    fn text_mut(self) -> Seal<'a, ArchivedString>
        requires come_to { IsSealOf no_definition (one ⟦<ArchivedPlain as Portable>⟧.shape) self }
        ensures { SealsPart no_definition (one ⟦<ArchivedPlain as Portable>⟧.shape) no_definition
            ⟦<ArchivedString as ArchivePointee>⟧.pointee (self.entry.pos + 4) 0 self.entry result }
    {
        sealed_part_in_record::<ArchivedPlain, ArchivedString>(self, 1, 4)
    }

    fn list_mut(self) -> Seal<'a, ArchivedVec<ArchivedI32>>
        requires come_to { IsSealOf no_definition (one ⟦<ArchivedPlain as Portable>⟧.shape) self }
        ensures { SealsPart no_definition (one ⟦<ArchivedPlain as Portable>⟧.shape) no_definition
            ⟦<ArchivedVec<ArchivedI32> as ArchivePointee>⟧.pointee (self.entry.pos + 12) 0
            self.entry result }
    {
        sealed_part_in_record::<ArchivedPlain, ArchivedVec<ArchivedI32>>(self, 2, 12)
    }
}

/// An archived `Row`: 24 bytes at a multiple of 8.
pub struct ArchivedRow;

type RowParts = (
    ArchivedU64,
    (ArchivedString, (ArchivedVec<ArchivedU32>, ())),
);

type RowOwned = (u64, (String, (Vec<u32>, ())));

impl ArchivePointee for ArchivedRow {
    type ArchivedMetadata = ();

    ghost pointee = { one (parts (part ⟦<ArchivedU64 as Portable>⟧.shape
        (part ⟦<ArchivedString as Portable>⟧.shape (part
        ⟦<ArchivedVec<ArchivedU32> as Portable>⟧.shape no_part)))) };

    ghost definitions = { no_definition };

    ghost metadata_length = { λ _. 0 };

    fn pointer_metadata(_metadata: &()) -> usize {
        0
    }
}

impl Portable for ArchivedRow {
    ghost shape = { parts (part ⟦<ArchivedU64 as Portable>⟧.shape
        (part ⟦<ArchivedString as Portable>⟧.shape (part
        ⟦<ArchivedVec<ArchivedU32> as Portable>⟧.shape no_part))) };

    ghost layout = { record { size = 24; align = 8 } };

    type Check = ArchivedRow;

    ghost is_one = { refl };

    ghost is_align = { inr (inr (inr (inl refl))) };

    ghost has_layout = { record { solved = λ s k. refl } };

    ghost no_others = { no_definition_reached (parts (part ⟦<ArchivedU64 as Portable>⟧.shape
        (part ⟦<ArchivedString as Portable>⟧.shape (part
        ⟦<ArchivedVec<ArchivedU32> as Portable>⟧.shape no_part)))) };

    ghost checks = { λ _. plain_own_check _ _ _ _ _ refl refl refl refl };

    fn size() -> usize {
        24
    }

    fn align() -> usize {
        8
    }

    fn expr(alloc: Global) -> Result<archive_core::shape::Expr, Error> {
        expr_of_record::<RowParts>(alloc)
    }

    fn define(_alloc: Global, _defs: &mut Defs) -> Result<(), Error> {
        Ok(())
    }
}

impl SelfCheck for ArchivedRow {
    ghost shape = { parts (part ⟦<ArchivedU64 as Portable>⟧.shape
        (part ⟦<ArchivedString as Portable>⟧.shape (part
        ⟦<ArchivedVec<ArchivedU32> as Portable>⟧.shape no_part))) };

    ghost definitions = { (both no_definition (both no_definition
        (both no_definition no_definition))) };

    ghost span = { 24 };

    ghost direct = { true };

    ghost nameless = { true };

    fn is_direct() -> bool {
        true
    }

    fn is_nameless() -> bool {
        true
    }

    #[inline(always)]
    fn check_at<C: ArchiveContext>(
        bytes: &[u8],
        at: usize,
        refusal: &mut Error,
        context: &mut C,
    ) -> Option<()> {
        RecordCheck::<RowParts>::check_at(bytes, at, refusal, context)
    }
}

impl Record for ArchivedRow {
    type Parts = RowParts;

    ghost has_parts = { plain_record (part ⟦<ArchivedU64 as Portable>⟧.shape
        (part ⟦<ArchivedString as Portable>⟧.shape (part
        ⟦<ArchivedVec<ArchivedU32> as Portable>⟧.shape no_part)))
        (both no_definition (both no_definition (both no_definition no_definition))) refl };

    ghost holds = { lit≤ tt };
}

/// What is kept of `Row` between `serialize` and `resolve`.
#[derive(Drop)]
pub struct RowResolver {
    kept: (
        <u64 as Archive>::Resolver,
        (
            <String as Archive>::Resolver,
            (<Vec<u32> as Archive>::Resolver, ()),
        ),
    ),
}

impl Archive for Row {
    type Archived = ArchivedRow;

    type Resolver = RowResolver;

    ghost meaning = { λ v. product (value (⟦<u64 as Archive>⟧.meaning v.id)
        (value (⟦<String as Archive>⟧.meaning v.name) (value
        (⟦<Vec<u32> as Archive>⟧.meaning v.values) no_value))) };

    ghost flat = { λ v r. product (value (⟦<u64 as Archive>⟧.flat v.id r.kept.0)
        (value (⟦<String as Archive>⟧.flat v.name r.kept.1.0)
        (value (⟦<Vec<u32> as Archive>⟧.flat v.values r.kept.1.1.0) no_value))) };

    ghost keys = { λ v. ⟦<u64 as Archive>⟧.keys v.id ++ (⟦<String as Archive>⟧.keys v.name
        ++ (⟦<Vec<u32> as Archive>⟧.keys v.values ++ [])) };

    ghost belongs = { λ v r. ⟦<u64 as Archive>⟧.belongs v.id r.kept.0
        × (⟦<String as Archive>⟧.belongs v.name r.kept.1.0
        × (⟦<Vec<u32> as Archive>⟧.belongs v.values r.kept.1.1.0 × Unit {0})) };

    ghost in_bulk = { None };

    ghost keyed = { λ v. record_keyed (part_keyed (number_keyed _)
        (part_keyed (text_keyed (string_bytes v.name)) (part_keyed
        (each_keyed ⟦<u32 as Archive>⟧.keys ⟦<u32 as Archive>⟧.meaning (λ x. number_keyed _)
        v.values.items) nothing_keyed))) };

    ghost planned = { λ v. plain_record_planned (both no_definition
        (both no_definition (both no_definition no_definition)))
        (part ⟦<ArchivedU64 as Portable>⟧.shape (part ⟦<ArchivedString as Portable>⟧.shape
        (part ⟦<ArchivedVec<ArchivedU32> as Portable>⟧.shape no_part))) _ _
        (part_planned no_definition ⟦<ArchivedU64 as Portable>⟧.shape (⟦<u64 as Archive>⟧.keys v.id)
        (⟦<u64 as Archive>⟧.meaning v.id) (leaf_planned no_definition _ _ [] _ refl)
        (part_planned no_definition ⟦<ArchivedString as Portable>⟧.shape
        (⟦<String as Archive>⟧.keys v.name) (⟦<String as Archive>⟧.meaning v.name)
        (string_planned no_definition [] (string_bytes v.name))
        (part_planned no_definition ⟦<ArchivedVec<ArchivedU32> as Portable>⟧.shape
        (⟦<Vec<u32> as Archive>⟧.keys v.values) (⟦<Vec<u32> as Archive>⟧.meaning v.values)
        (vec_planned no_definition ⟦<ArchivedU32 as Portable>⟧.shape _ _ _
        (slice_planned no_definition ⟦<ArchivedU32 as Portable>⟧.shape ⟦<u32 as Archive>⟧.keys
        ⟦<u32 as Archive>⟧.meaning (λ x. leaf_planned no_definition _ _ [] _ refl) v.values.items))
        no_part_planned))) refl };

    #[inline(always)]
    fn resolve(
        &self,
        resolver: Self::Resolver,
        place: Place<'_, Self::Archived>,
    ) -> Result<(), Error>
        requires zeroed { ZeroedPlace 24 place.pos place.bytes.now }
        requires same_value { ⟦<Self as Archive>⟧.belongs self.now resolver }
        ensures { ResolvesAs ⟦<Self::Archived as Portable>⟧ place
            (⟦<Self as Archive>⟧.flat self.now resolver) result }
    {
        let Place { bytes, pos, .. } = place;
        let RowResolver { kept } = resolver;
        resolve_record_3::<u64, String, Vec<u32>, ArchivedRow>(
            &self.id,
            &self.name,
            &self.values,
            kept,
            Place::new(pos, bytes),
        )
    }

    #[inline(always)]
    fn copy_optimization() -> CopyOptimization<Self> {
        CopyOptimization::disable()
    }

    #[inline(always)]
    fn serialize_copied<S: Writer + Keys>(
        _values: &[Self],
        _together: usize,
        _serializer: &mut S,
    ) -> Result<Option<usize>, Error> {
        Ok(None)
    }
}

impl<S: Writer + ResolverAlloc> Serialize<S> for Row {
    #[inline(always)]
    fn serialize(&self, serializer: &mut S) -> Result<Self::Resolver, Error> {
        match serialize_record_3::<u64, String, Vec<u32>, ArchivedRow, S>(
            &self.id,
            &self.name,
            &self.values,
            serializer,
        ) {
            Ok(kept) => Ok(RowResolver { kept }),
            Err(error) => Err(error),
        }
    }
}

/// As a region of its own: the value itself.
impl ArchiveUnsized for Row {
    ghost use Rattle.archive_bench.specs.contracts.records.RowArchive.TheImpl.Laws.{keyed-law as keyed_of_row, planned-law as planned_of_row};

    type Archived = ArchivedRow;

    ghost source_length = { λ _. 0 };

    ghost meaning = { ⟦<Row as Archive>⟧.meaning };

    ghost keys = { ⟦<Row as Archive>⟧.keys };

    ghost keyed = { keyed_of_row };

    ghost one_length = { λ _ _. refl };

    ghost planned = { λ v. one_planned no_definition (parts
        (part ⟦<ArchivedU64 as Portable>⟧.shape (part ⟦<ArchivedString as Portable>⟧.shape
        (part ⟦<ArchivedVec<ArchivedU32> as Portable>⟧.shape no_part)))) (⟦<Row as Archive>⟧.keys v)
        (⟦<Row as Archive>⟧.meaning v) (planned_of_row v) };

    #[inline(always)]
    fn archived_metadata(&self) -> Result<(), Error> {
        Ok(())
    }
}

impl<S: Writer + ResolverAlloc> SerializeUnsized<S> for Row {
    #[inline(always)]
    fn serialize_unsized(&self, serializer: &mut S) -> Result<usize, Error> {
        serialize_one(self, serializer)
    }
}

impl<D: Entries> Deserialize<Row, D> for ArchivedRow {
    #[inline(always)]
    fn deserialize_part(
        alloc: Global,
        part: RawView<'_>,
        deserializer: &mut D,
    ) -> Result<Row, Error>
        requires { IsPartOf ⟦<Self as ArchivePointee>⟧ part }
        ensures { ReadsAs ⟦<Self as ArchivePointee>⟧ part D.Entries deserializer ⟦<Row as Archive>⟧
            result }
    {
        match deserialize_record::<Self, RowOwned, D>(alloc, part, deserializer) {
            Ok((a0, (a1, (a2, ())))) => Ok(Row {
                id: a0,
                name: a1,
                values: a2,
            }),
            Err(error) => Err(error),
        }
    }
}

/// The fields of an archived `Row`, as views.
pub trait RowView<'a> {
    /// Its number.
    fn id(self) -> Ref<'a, ArchivedU64>;

    /// What it is called.
    fn name(self) -> Ref<'a, ArchivedString>;

    /// Its numbers.
    fn values(self) -> Ref<'a, ArchivedVec<ArchivedU32>>;
}

impl<'a> RowView<'a> for Ref<'a, ArchivedRow> {
    fn id(self) -> Ref<'a, ArchivedU64>
        ensures buffer { result.bytes.now ≡ self.entry.bytes.now }
        ensures position { result.pos ≡ self.entry.pos + 0 }
        ensures length { result.len ≡ 0 }
        ensures shows { ShowsValueOf result self.entry (field_in 0) }
    {
        part_in_record::<ArchivedRow, ArchivedU64>(self, 0, 0)
    }

    fn name(self) -> Ref<'a, ArchivedString>
        ensures buffer { result.bytes.now ≡ self.entry.bytes.now }
        ensures position { result.pos ≡ self.entry.pos + 8 }
        ensures length { result.len ≡ 0 }
        ensures shows { ShowsValueOf result self.entry (field_in 1) }
    {
        part_in_record::<ArchivedRow, ArchivedString>(self, 1, 8)
    }

    fn values(self) -> Ref<'a, ArchivedVec<ArchivedU32>>
        ensures buffer { result.bytes.now ≡ self.entry.bytes.now }
        ensures position { result.pos ≡ self.entry.pos + 16 }
        ensures length { result.len ≡ 0 }
        ensures shows { ShowsValueOf result self.entry (field_in 2) }
    {
        part_in_record::<ArchivedRow, ArchivedVec<ArchivedU32>>(self, 2, 16)
    }
}

/// The fields of an archived `Row`, as seals.
pub trait RowSeal<'a> {
    // The seal shows a part of a buffer that was checked.
    ghost sealed: { Self → Type 0 };

    /// Its number.
    fn id_mut(self) -> Seal<'a, ArchivedU64>
        requires { sealed self };

    /// What it is called.
    fn name_mut(self) -> Seal<'a, ArchivedString>
        requires { sealed self };

    /// Its numbers.
    fn values_mut(self) -> Seal<'a, ArchivedVec<ArchivedU32>>
        requires { sealed self };
}

impl<'a> RowSeal<'a> for Seal<'a, ArchivedRow> {
    ghost sealed = { λ s. IsSealOf no_definition (one ⟦<ArchivedRow as Portable>⟧.shape) s };

    fn id_mut(self) -> Seal<'a, ArchivedU64>
        requires come_to { IsSealOf no_definition (one ⟦<ArchivedRow as Portable>⟧.shape) self }
        ensures { SealsPart no_definition (one ⟦<ArchivedRow as Portable>⟧.shape) no_definition
            ⟦<ArchivedU64 as ArchivePointee>⟧.pointee (self.entry.pos + 0) 0 self.entry result }
    {
        sealed_part_in_record::<ArchivedRow, ArchivedU64>(self, 0, 0)
    }

    fn name_mut(self) -> Seal<'a, ArchivedString>
        requires come_to { IsSealOf no_definition (one ⟦<ArchivedRow as Portable>⟧.shape) self }
        ensures { SealsPart no_definition (one ⟦<ArchivedRow as Portable>⟧.shape) no_definition
            ⟦<ArchivedString as ArchivePointee>⟧.pointee (self.entry.pos + 8) 0 self.entry result }
    {
        sealed_part_in_record::<ArchivedRow, ArchivedString>(self, 1, 8)
    }

    fn values_mut(self) -> Seal<'a, ArchivedVec<ArchivedU32>>
        requires come_to { IsSealOf no_definition (one ⟦<ArchivedRow as Portable>⟧.shape) self }
        ensures { SealsPart no_definition (one ⟦<ArchivedRow as Portable>⟧.shape) no_definition
            ⟦<ArchivedVec<ArchivedU32> as ArchivePointee>⟧.pointee (self.entry.pos + 16) 0
            self.entry result }
    {
        sealed_part_in_record::<ArchivedRow, ArchivedVec<ArchivedU32>>(self, 2, 16)
    }
}
