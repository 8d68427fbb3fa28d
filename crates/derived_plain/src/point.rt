//! A record of numbers, a text and a list.

/// A point.
#[derive(Debug, PartialEq, Drop)]
pub struct Point {
    /// To the right.
    pub x: i32,
    /// Up.
    pub y: i32,
    /// What it is called.
    pub name: String,
    /// What is said of it.
    pub tags: Vec<String>,
}

// Below this line all is written by tools/derive: change what is above it, and run it again.

ghost use Rattle.archive_core.specs.CallOutcomes.{ResolvesAs};
ghost use Rattle.archive_core.specs.Definitions.{both, no_definition};
ghost use Rattle.archive_core.specs.Fields.{field_in};
ghost use Rattle.archive_core.specs.Keyed.{each_keyed, nothing_keyed, number_keyed, part_keyed, record_keyed, text_keyed};
ghost use Rattle.archive_core.specs.LeafLayout.{no_definition_reached};
ghost use Rattle.archive_core.specs.PartsPlanned.{no_part_planned, part_planned};
ghost use Rattle.archive_core.specs.Plain.{plain_own_check, plain_record, plain_record_planned};
ghost use Rattle.archive_core.specs.Planned.{leaf_planned, string_planned};
ghost use Rattle.archive_core.specs.PlannedOwners.{one_planned, slice_planned, vec_planned};
ghost use Rattle.archive_core.specs.ReadBack.{ReadsAs};
ghost use Rattle.archive_core.specs.SealOutcomes.{IsSealOf, SealsPart};
ghost use Rattle.archive_core.specs.Seen.{IsPartOf, ShowsValueOf};
ghost use Rattle.archive_core.specs.Shape.{no_part, one, part, parts};
ghost use Rattle.archive_core.specs.Value.{no_value, product, value};
ghost use Rattle.archive_core.specs.Writing.{ZeroedPlace};
ghost use Rattle.std.proofs.Common.{inl, inr, lit≤};
ghost use Rattle.std.specs.Prelude.{None, [], length, refl, string_bytes, true, ◌++◌, ◌+◌, ◌≡◌};

use archive_core::error::Error;
use archive_core::fields::{part_in_record, resolve_record_4, serialize_record_4};
use archive_core::place::Place;
use archive_core::primitive::ArchivedI32;
use archive_core::record::deserialize_record;
use archive_core::seal::{Seal, sealed_part_in_record};
use archive_core::self_check::{RecordCheck, SelfCheck};
use archive_core::ser::{ResolverAlloc, Writer, serialize_one};
use archive_core::shape::Defs;
use archive_core::string::ArchivedString;
use archive_core::traits::{
    Archive, ArchivePointee, ArchiveUnsized, CopyOptimization, Deserialize, Entries, FourParts,
    Keys, Portable, Record, Serialize, SerializeUnsized, expr_of_record,
};
use archive_core::validation::ArchiveContext;
use archive_core::vec::ArchivedVec;
use archive_core::view::{RawView, Ref};
use std::alloc::Global;

/// An archived `Point`: 24 bytes at a multiple of 4.
pub struct ArchivedPoint;

type PointParts = FourParts<
    ArchivedI32,
    ArchivedI32,
    ArchivedString,
    ArchivedVec<ArchivedString>,
    (),
>;

type PointOwned = FourParts<i32, i32, String, Vec<String>, ()>;

impl ArchivePointee for ArchivedPoint {
    type ArchivedMetadata = ();

    ghost pointee = { one (parts (part ⟦<ArchivedI32 as Portable>⟧.shape
        (part ⟦<ArchivedI32 as Portable>⟧.shape (part ⟦<ArchivedString as Portable>⟧.shape
        (part ⟦<ArchivedVec<ArchivedString> as Portable>⟧.shape no_part))))) };

    ghost definitions = { no_definition };

    ghost metadata_length = { λ _. 0 };

    fn pointer_metadata(_metadata: &()) -> usize {
        0
    }
}

impl Portable for ArchivedPoint {
    ghost shape = { parts (part ⟦<ArchivedI32 as Portable>⟧.shape
        (part ⟦<ArchivedI32 as Portable>⟧.shape (part ⟦<ArchivedString as Portable>⟧.shape
        (part ⟦<ArchivedVec<ArchivedString> as Portable>⟧.shape no_part)))) };

    ghost layout = { record { size = 24; align = 4 } };

    type Check = ArchivedPoint;

    ghost is_one = { refl };

    ghost is_align = { inr (inr (inl refl)) };

    ghost has_layout = { record { solved = λ s k. refl } };

    ghost no_others = { no_definition_reached (parts (part ⟦<ArchivedI32 as Portable>⟧.shape
        (part ⟦<ArchivedI32 as Portable>⟧.shape (part ⟦<ArchivedString as Portable>⟧.shape
        (part ⟦<ArchivedVec<ArchivedString> as Portable>⟧.shape no_part))))) };

    ghost checks = { λ _. plain_own_check _ _ _ _ _ refl refl refl refl };

    fn size() -> usize {
        24
    }

    fn align() -> usize {
        4
    }

    fn expr(alloc: Global) -> Result<archive_core::shape::Expr, Error> {
        expr_of_record::<PointParts>(alloc)
    }

    fn define(_alloc: Global, _defs: &mut Defs) -> Result<(), Error> {
        Ok(())
    }
}

impl SelfCheck for ArchivedPoint {
    ghost shape = { parts (part ⟦<ArchivedI32 as Portable>⟧.shape
        (part ⟦<ArchivedI32 as Portable>⟧.shape (part ⟦<ArchivedString as Portable>⟧.shape
        (part ⟦<ArchivedVec<ArchivedString> as Portable>⟧.shape no_part)))) };

    ghost definitions = { (both no_definition (both no_definition
        (both no_definition (both no_definition no_definition)))) };

    ghost span = { 24 };

    ghost direct = { true };

    ghost nameless = { true };

    fn is_direct() -> bool {
        true
    }

    fn is_nameless() -> bool {
        true
    }

    #[inline(always)]
    fn check_at<C: ArchiveContext>(
        bytes: &[u8],
        at: usize,
        refusal: &mut Error,
        context: &mut C,
    ) -> Option<()> {
        RecordCheck::<PointParts>::check_at(bytes, at, refusal, context)
    }
}

impl Record for ArchivedPoint {
    type Parts = PointParts;

    ghost has_parts = { plain_record (part ⟦<ArchivedI32 as Portable>⟧.shape
        (part ⟦<ArchivedI32 as Portable>⟧.shape (part ⟦<ArchivedString as Portable>⟧.shape
        (part ⟦<ArchivedVec<ArchivedString> as Portable>⟧.shape no_part))))
        (both no_definition (both no_definition (both no_definition
        (both no_definition no_definition)))) refl };

    ghost holds = { lit≤ tt };
}

/// What is kept of `Point` between `serialize` and `resolve`.
#[derive(Drop)]
pub struct PointResolver {
    kept: (
        <i32 as Archive>::Resolver,
        (
            <i32 as Archive>::Resolver,
            (
                <String as Archive>::Resolver,
                (<Vec<String> as Archive>::Resolver, ()),
            ),
        ),
    ),
}

impl Archive for Point {
    type Archived = ArchivedPoint;

    type Resolver = PointResolver;

    ghost meaning = { λ v. product (value (⟦<i32 as Archive>⟧.meaning v.x)
        (value (⟦<i32 as Archive>⟧.meaning v.y) (value (⟦<String as Archive>⟧.meaning v.name)
        (value (⟦<Vec<String> as Archive>⟧.meaning v.tags) no_value)))) };

    ghost flat = { λ v r. product (value (⟦<i32 as Archive>⟧.flat v.x r.kept.0)
        (value (⟦<i32 as Archive>⟧.flat v.y r.kept.1.0)
        (value (⟦<String as Archive>⟧.flat v.name r.kept.1.1.0)
        (value (⟦<Vec<String> as Archive>⟧.flat v.tags r.kept.1.1.1.0) no_value)))) };

    ghost keys = { λ v. ⟦<i32 as Archive>⟧.keys v.x ++ (⟦<i32 as Archive>⟧.keys v.y
        ++ (⟦<String as Archive>⟧.keys v.name ++ (⟦<Vec<String> as Archive>⟧.keys v.tags ++ []))) };

    ghost belongs = { λ v r. ⟦<i32 as Archive>⟧.belongs v.x r.kept.0
        × (⟦<i32 as Archive>⟧.belongs v.y r.kept.1.0 × (⟦<String as Archive>⟧.belongs v.name
        r.kept.1.1.0 × (⟦<Vec<String> as Archive>⟧.belongs v.tags r.kept.1.1.1.0 × Unit {0}))) };

    ghost in_bulk = { None };

    ghost keyed = { λ v. record_keyed (part_keyed (number_keyed _)
        (part_keyed (number_keyed _) (part_keyed (text_keyed (string_bytes v.name))
        (part_keyed (each_keyed ⟦<String as Archive>⟧.keys ⟦<String as Archive>⟧.meaning
        (λ x. text_keyed (string_bytes x)) v.tags.items) nothing_keyed)))) };

    ghost planned = { λ v. plain_record_planned (both no_definition
        (both no_definition (both no_definition (both no_definition no_definition))))
        (part ⟦<ArchivedI32 as Portable>⟧.shape (part ⟦<ArchivedI32 as Portable>⟧.shape
        (part ⟦<ArchivedString as Portable>⟧.shape (part
        ⟦<ArchivedVec<ArchivedString> as Portable>⟧.shape no_part)))) _ _
        (part_planned no_definition ⟦<ArchivedI32 as Portable>⟧.shape (⟦<i32 as Archive>⟧.keys v.x)
        (⟦<i32 as Archive>⟧.meaning v.x) (leaf_planned no_definition _ _ [] _ refl)
        (part_planned no_definition ⟦<ArchivedI32 as Portable>⟧.shape (⟦<i32 as Archive>⟧.keys v.y)
        (⟦<i32 as Archive>⟧.meaning v.y) (leaf_planned no_definition _ _ [] _ refl)
        (part_planned no_definition ⟦<ArchivedString as Portable>⟧.shape
        (⟦<String as Archive>⟧.keys v.name) (⟦<String as Archive>⟧.meaning v.name)
        (string_planned no_definition [] (string_bytes v.name))
        (part_planned no_definition ⟦<ArchivedVec<ArchivedString> as Portable>⟧.shape
        (⟦<Vec<String> as Archive>⟧.keys v.tags) (⟦<Vec<String> as Archive>⟧.meaning v.tags)
        (vec_planned no_definition ⟦<ArchivedString as Portable>⟧.shape _ _ _
        (slice_planned no_definition ⟦<ArchivedString as Portable>⟧.shape ⟦<String as Archive>⟧.keys
        ⟦<String as Archive>⟧.meaning (λ x. string_planned no_definition [] (string_bytes x))
        v.tags.items)) no_part_planned)))) refl };

    #[inline(always)]
    fn resolve(
        &self,
        resolver: Self::Resolver,
        place: Place<'_, Self::Archived>,
    ) -> Result<(), Error>
        requires zeroed { ZeroedPlace 24 place.pos place.bytes.now }
        requires same_value { ⟦<Self as Archive>⟧.belongs self.now resolver }
        ensures { ResolvesAs ⟦<Self::Archived as Portable>⟧ place
            (⟦<Self as Archive>⟧.flat self.now resolver) result }
    {
        let Place { bytes, pos, .. } = place;
        let PointResolver { kept } = resolver;
        resolve_record_4::<i32, i32, String, Vec<String>, ArchivedPoint>(
            &self.x,
            &self.y,
            &self.name,
            &self.tags,
            kept,
            Place::new(pos, bytes),
        )
    }

    #[inline(always)]
    fn copy_optimization() -> CopyOptimization<Self> {
        CopyOptimization::disable()
    }

    #[inline(always)]
    fn serialize_copied<S: Writer + Keys>(
        _values: &[Self],
        _together: usize,
        _serializer: &mut S,
    ) -> Result<Option<usize>, Error> {
        Ok(None)
    }
}

impl<S: Writer + ResolverAlloc> Serialize<S> for Point {
    #[inline(always)]
    fn serialize(&self, serializer: &mut S) -> Result<Self::Resolver, Error> {
        match serialize_record_4::<i32, i32, String, Vec<String>, ArchivedPoint, S>(
            &self.x, &self.y, &self.name, &self.tags, serializer,
        ) {
            Ok(kept) => Ok(PointResolver { kept }),
            Err(error) => Err(error),
        }
    }
}

/// As a region of its own: the value itself.
impl ArchiveUnsized for Point {
    ghost use Rattle.derived_plain.specs.contracts.point.PointArchive.TheImpl.Laws.{keyed-law as keyed_of_point, planned-law as planned_of_point};

    type Archived = ArchivedPoint;

    ghost source_length = { λ _. 0 };

    ghost meaning = { ⟦<Point as Archive>⟧.meaning };

    ghost keys = { ⟦<Point as Archive>⟧.keys };

    ghost keyed = { keyed_of_point };

    ghost one_length = { λ _ _. refl };

    ghost planned = { λ v. one_planned no_definition (parts
        (part ⟦<ArchivedI32 as Portable>⟧.shape (part ⟦<ArchivedI32 as Portable>⟧.shape
        (part ⟦<ArchivedString as Portable>⟧.shape (part
        ⟦<ArchivedVec<ArchivedString> as Portable>⟧.shape no_part))))) (⟦<Point as Archive>⟧.keys v)
        (⟦<Point as Archive>⟧.meaning v) (planned_of_point v) };

    #[inline(always)]
    fn archived_metadata(&self) -> Result<(), Error> {
        Ok(())
    }
}

impl<S: Writer + ResolverAlloc> SerializeUnsized<S> for Point {
    #[inline(always)]
    fn serialize_unsized(&self, serializer: &mut S) -> Result<usize, Error> {
        serialize_one(self, serializer)
    }
}

impl<D: Entries> Deserialize<Point, D> for ArchivedPoint {
    #[inline(always)]
    fn deserialize_part(
        alloc: Global,
        part: RawView<'_>,
        deserializer: &mut D,
    ) -> Result<Point, Error>
        requires { IsPartOf ⟦<Self as ArchivePointee>⟧ part }
        ensures { ReadsAs ⟦<Self as ArchivePointee>⟧ part D.Entries deserializer
            ⟦<Point as Archive>⟧ result }
    {
        match deserialize_record::<Self, PointOwned, D>(alloc, part, deserializer) {
            Ok(
                FourParts {
                    first: a0,
                    second: a1,
                    third: a2,
                    fourth: a3,
                    rest: (),
                },
            ) => Ok(Point {
                x: a0,
                y: a1,
                name: a2,
                tags: a3,
            }),
            Err(error) => Err(error),
        }
    }
}

/// The fields of an archived `Point`, as views.
pub trait PointView<'a> {
    /// To the right.
    fn x(self) -> Ref<'a, ArchivedI32>;

    /// Up.
    fn y(self) -> Ref<'a, ArchivedI32>;

    /// What it is called.
    fn name(self) -> Ref<'a, ArchivedString>;

    /// What is said of it.
    fn tags(self) -> Ref<'a, ArchivedVec<ArchivedString>>;
}

impl<'a> PointView<'a> for Ref<'a, ArchivedPoint> {
    fn x(self) -> Ref<'a, ArchivedI32>
        ensures buffer { result.bytes.now ≡ self.entry.bytes.now }
        ensures position { result.pos ≡ self.entry.pos + 0 }
        ensures length { result.len ≡ 0 }
        ensures shows { ShowsValueOf result self.entry (field_in 0) }
    {
        part_in_record::<ArchivedPoint, ArchivedI32>(self, 0, 0)
    }

    fn y(self) -> Ref<'a, ArchivedI32>
        ensures buffer { result.bytes.now ≡ self.entry.bytes.now }
        ensures position { result.pos ≡ self.entry.pos + 4 }
        ensures length { result.len ≡ 0 }
        ensures shows { ShowsValueOf result self.entry (field_in 1) }
    {
        part_in_record::<ArchivedPoint, ArchivedI32>(self, 1, 4)
    }

    fn name(self) -> Ref<'a, ArchivedString>
        ensures buffer { result.bytes.now ≡ self.entry.bytes.now }
        ensures position { result.pos ≡ self.entry.pos + 8 }
        ensures length { result.len ≡ 0 }
        ensures shows { ShowsValueOf result self.entry (field_in 2) }
    {
        part_in_record::<ArchivedPoint, ArchivedString>(self, 2, 8)
    }

    fn tags(self) -> Ref<'a, ArchivedVec<ArchivedString>>
        ensures buffer { result.bytes.now ≡ self.entry.bytes.now }
        ensures position { result.pos ≡ self.entry.pos + 16 }
        ensures length { result.len ≡ 0 }
        ensures shows { ShowsValueOf result self.entry (field_in 3) }
    {
        part_in_record::<ArchivedPoint, ArchivedVec<ArchivedString>>(self, 3, 16)
    }
}

/// The fields of an archived `Point`, as seals.
pub trait PointSeal<'a> {
    // The seal shows a part of a buffer that was checked.
    ghost sealed: { Self → Type 0 };

    /// To the right.
    fn x_mut(self) -> Seal<'a, ArchivedI32>
        requires { sealed self };

    /// Up.
    fn y_mut(self) -> Seal<'a, ArchivedI32>
        requires { sealed self };

    /// What it is called.
    fn name_mut(self) -> Seal<'a, ArchivedString>
        requires { sealed self };

    /// What is said of it.
    fn tags_mut(self) -> Seal<'a, ArchivedVec<ArchivedString>>
        requires { sealed self };
}

impl<'a> PointSeal<'a> for Seal<'a, ArchivedPoint> {
    ghost sealed = { λ s. IsSealOf no_definition (one ⟦<ArchivedPoint as Portable>⟧.shape) s };

    fn x_mut(self) -> Seal<'a, ArchivedI32>
        requires come_to { IsSealOf no_definition (one ⟦<ArchivedPoint as Portable>⟧.shape) self }
        ensures { SealsPart no_definition (one ⟦<ArchivedPoint as Portable>⟧.shape) no_definition
            ⟦<ArchivedI32 as ArchivePointee>⟧.pointee (self.entry.pos + 0) 0 self.entry result }
    {
        sealed_part_in_record::<ArchivedPoint, ArchivedI32>(self, 0, 0)
    }

    fn y_mut(self) -> Seal<'a, ArchivedI32>
        requires come_to { IsSealOf no_definition (one ⟦<ArchivedPoint as Portable>⟧.shape) self }
        ensures { SealsPart no_definition (one ⟦<ArchivedPoint as Portable>⟧.shape) no_definition
            ⟦<ArchivedI32 as ArchivePointee>⟧.pointee (self.entry.pos + 4) 0 self.entry result }
    {
        sealed_part_in_record::<ArchivedPoint, ArchivedI32>(self, 1, 4)
    }

    fn name_mut(self) -> Seal<'a, ArchivedString>
        requires come_to { IsSealOf no_definition (one ⟦<ArchivedPoint as Portable>⟧.shape) self }
        ensures { SealsPart no_definition (one ⟦<ArchivedPoint as Portable>⟧.shape) no_definition
            ⟦<ArchivedString as ArchivePointee>⟧.pointee (self.entry.pos + 8) 0 self.entry result }
    {
        sealed_part_in_record::<ArchivedPoint, ArchivedString>(self, 2, 8)
    }

    fn tags_mut(self) -> Seal<'a, ArchivedVec<ArchivedString>>
        requires come_to { IsSealOf no_definition (one ⟦<ArchivedPoint as Portable>⟧.shape) self }
        ensures { SealsPart no_definition (one ⟦<ArchivedPoint as Portable>⟧.shape) no_definition
            ⟦<ArchivedVec<ArchivedString> as ArchivePointee>⟧.pointee (self.entry.pos + 16) 0
            self.entry result }
    {
        sealed_part_in_record::<ArchivedPoint, ArchivedVec<ArchivedString>>(self, 3, 16)
    }
}
