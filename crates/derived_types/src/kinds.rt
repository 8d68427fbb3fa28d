//! Fields of every format of the library.

use crate::pair::Pair;
use crate::spot::{Line, Spot};
use archive_core::boxed::{BoxSlice, BoxStr};
use archive_core::core_impls::OwnedArray;
use archive_core::primitive::NonZero;
use std::marker::PhantomData;

/// Numbers of every kind.
#[derive(Debug, Drop)]
pub struct Numbers {
    /// Not 0.
    pub some: NonZero<u32>,
    /// A size.
    pub size: usize,
    /// A distance.
    pub distance: isize,
    /// 128 bits.
    pub wide: i128,
    /// Whether it is so.
    pub so: bool,
    /// Nothing.
    pub nothing: (),
}

/// What owns something.
#[derive(Drop)]
pub struct Owners {
    /// A number, or why there is none.
    pub outcome: Result<u8, String>,
    /// Numbers, boxed.
    pub numbers: BoxSlice<u16>,
    /// A text, boxed.
    pub text: BoxStr,
    /// A number and a text.
    pub both: (u8, String),
    /// No value, of a type.
    pub of: PhantomData<u64>,
}

/// Lists, and a record with parameters, four deep. Its fields have no names.
#[derive(Drop)]
pub struct Lists(
    /// A number and a line.
    pub Pair<u64, Line>,
    /// Four numbers.
    pub OwnedArray<i16, 4>,
    /// Places, perhaps.
    pub Vec<Option<Spot>>,
);

/// Nothing at all.
#[derive(Debug, PartialEq, Drop)]
pub struct Empty;

// Below this line all is written by tools/derive: change what is above it, and run it again.

ghost use Rattle.archive_core.specs.Arrays.{array_keyed, array_planned};
ghost use Rattle.archive_core.specs.CallOutcomes.{ResolvesAs};
ghost use Rattle.archive_core.specs.Definitions.{both, no_definition};
ghost use Rattle.archive_core.specs.Fields.{field_in};
ghost use Rattle.archive_core.specs.Keyed.{box_keyed, each_keyed, nothing_keyed, number_keyed, part_keyed, record_keyed, text_keyed};
ghost use Rattle.archive_core.specs.LeafLayout.{no_definition_reached};
ghost use Rattle.archive_core.specs.Nothing.{empty_product_keyed, empty_product_planned};
ghost use Rattle.archive_core.specs.Options.{option_keyed, option_planned};
ghost use Rattle.archive_core.specs.PartsPlanned.{no_part_planned, part_planned, product_planned};
ghost use Rattle.archive_core.specs.Plain.{plain_own_check, plain_record, plain_record_planned};
ghost use Rattle.archive_core.specs.Planned.{leaf_planned, string_planned, text_planned};
ghost use Rattle.archive_core.specs.PlannedOwners.{box_planned, one_planned, slice_planned, vec_planned};
ghost use Rattle.archive_core.specs.ReadBack.{ReadsAs};
ghost use Rattle.archive_core.specs.Results.{result_keyed, result_planned};
ghost use Rattle.archive_core.specs.Runs.{each_keys, each_meaning};
ghost use Rattle.archive_core.specs.SealOutcomes.{IsSealOf, SealsPart};
ghost use Rattle.archive_core.specs.Seen.{IsPartOf, ShowsValueOf};
ghost use Rattle.archive_core.specs.Shape.{no_part, one, part, parts, run, text};
ghost use Rattle.archive_core.specs.Value.{list, no_value, product, text_value, value};
ghost use Rattle.archive_core.specs.Writing.{ZeroedPlace};
ghost use Rattle.std.proofs.Common.{inl, inr, lit≤};
ghost use Rattle.std.specs.Prelude.{None, [], length, refl, string_bytes, true, ◌++◌, ◌+◌, ◌≡◌};

use crate::pair::ArchivedPair;
use crate::spot::{ArchivedLine, ArchivedSpot};
use archive_core::boxed::ArchivedBox;
use archive_core::core_impls::ArchivedTuple2;
use archive_core::error::Error;
use archive_core::fields::{
    part_in_record, resolve_record_0, resolve_record_3, resolve_record_5, resolve_record_6,
    serialize_record_0, serialize_record_3, serialize_record_5, serialize_record_6,
};
use archive_core::option::ArchivedOption;
use archive_core::place::Place;
use archive_core::primitive::{
    ArchivedI16, ArchivedI128, ArchivedIsize, ArchivedU16, ArchivedU64, ArchivedUsize,
};
use archive_core::record::deserialize_record;
use archive_core::result::ArchivedResult;
use archive_core::seal::{Seal, sealed_part_in_record};
use archive_core::self_check::{RecordCheck, SelfCheck};
use archive_core::ser::{ResolverAlloc, Writer, serialize_one};
use archive_core::shape::Defs;
use archive_core::slice::ArchivedSlice;
use archive_core::string::{ArchivedStr, ArchivedString};
use archive_core::traits::{
    Archive, ArchivePointee, ArchiveUnsized, CopyOptimization, Deserialize, Entries, FourParts,
    Keys, Portable, Record, Serialize, SerializeUnsized, expr_of_record,
};
use archive_core::validation::ArchiveContext;
use archive_core::vec::ArchivedVec;
use archive_core::view::{RawView, Ref};
use std::alloc::Global;

/// An archived `Numbers`: 48 bytes at a multiple of 16.
pub struct ArchivedNumbers;

type NumbersParts = FourParts<
    NonZero<u32>,
    ArchivedUsize,
    ArchivedIsize,
    ArchivedI128,
    (bool, ((), ())),
>;

type NumbersOwned = FourParts<NonZero<u32>, usize, isize, i128, (bool, ((), ()))>;

impl ArchivePointee for ArchivedNumbers {
    type ArchivedMetadata = ();

    ghost pointee = { one (parts (part ⟦<NonZero<u32> as Portable>⟧.shape
        (part ⟦<ArchivedUsize as Portable>⟧.shape (part ⟦<ArchivedIsize as Portable>⟧.shape
        (part ⟦<ArchivedI128 as Portable>⟧.shape (part ⟦<bool as Portable>⟧.shape
        (part ⟦<() as Portable>⟧.shape no_part))))))) };

    ghost definitions = { no_definition };

    ghost metadata_length = { λ _. 0 };

    fn pointer_metadata(_metadata: &()) -> usize {
        0
    }
}

impl Portable for ArchivedNumbers {
    ghost shape = { parts (part ⟦<NonZero<u32> as Portable>⟧.shape
        (part ⟦<ArchivedUsize as Portable>⟧.shape (part ⟦<ArchivedIsize as Portable>⟧.shape
        (part ⟦<ArchivedI128 as Portable>⟧.shape (part ⟦<bool as Portable>⟧.shape
        (part ⟦<() as Portable>⟧.shape no_part)))))) };

    ghost layout = { record { size = 48; align = 16 } };

    type Check = ArchivedNumbers;

    ghost is_one = { refl };

    ghost is_align = { inr (inr (inr (inr (inl refl)))) };

    ghost has_layout = { record { solved = λ s k. refl } };

    ghost no_others = { no_definition_reached (parts (part ⟦<NonZero<u32> as Portable>⟧.shape
        (part ⟦<ArchivedUsize as Portable>⟧.shape (part ⟦<ArchivedIsize as Portable>⟧.shape
        (part ⟦<ArchivedI128 as Portable>⟧.shape (part ⟦<bool as Portable>⟧.shape
        (part ⟦<() as Portable>⟧.shape no_part))))))) };

    ghost checks = { λ _. plain_own_check _ _ _ _ _ refl refl refl refl };

    fn size() -> usize {
        48
    }

    fn align() -> usize {
        16
    }

    fn expr(alloc: Global) -> Result<archive_core::shape::Expr, Error> {
        expr_of_record::<NumbersParts>(alloc)
    }

    fn define(_alloc: Global, _defs: &mut Defs) -> Result<(), Error> {
        Ok(())
    }
}

impl SelfCheck for ArchivedNumbers {
    ghost shape = { parts (part ⟦<NonZero<u32> as Portable>⟧.shape
        (part ⟦<ArchivedUsize as Portable>⟧.shape (part ⟦<ArchivedIsize as Portable>⟧.shape
        (part ⟦<ArchivedI128 as Portable>⟧.shape (part ⟦<bool as Portable>⟧.shape
        (part ⟦<() as Portable>⟧.shape no_part)))))) };

    ghost definitions = { (both no_definition (both no_definition
        (both no_definition (both no_definition (both no_definition
        (both no_definition no_definition)))))) };

    ghost span = { 33 };

    ghost direct = { true };

    ghost nameless = { true };

    fn is_direct() -> bool {
        true
    }

    fn is_nameless() -> bool {
        true
    }

    #[inline(always)]
    fn check_at<C: ArchiveContext>(
        bytes: &[u8],
        at: usize,
        refusal: &mut Error,
        context: &mut C,
    ) -> Option<()> {
        RecordCheck::<NumbersParts>::check_at(bytes, at, refusal, context)
    }
}

impl Record for ArchivedNumbers {
    type Parts = NumbersParts;

    ghost has_parts = { plain_record (part ⟦<NonZero<u32> as Portable>⟧.shape
        (part ⟦<ArchivedUsize as Portable>⟧.shape (part ⟦<ArchivedIsize as Portable>⟧.shape
        (part ⟦<ArchivedI128 as Portable>⟧.shape (part ⟦<bool as Portable>⟧.shape
        (part ⟦<() as Portable>⟧.shape no_part)))))) (both no_definition
        (both no_definition (both no_definition (both no_definition
        (both no_definition (both no_definition no_definition)))))) refl };

    ghost holds = { lit≤ tt };
}

/// What is kept of `Numbers` between `serialize` and `resolve`.
#[derive(Drop)]
pub struct NumbersResolver {
    kept: (
        <NonZero<u32> as Archive>::Resolver,
        (
            <usize as Archive>::Resolver,
            (
                <isize as Archive>::Resolver,
                (
                    <i128 as Archive>::Resolver,
                    (<bool as Archive>::Resolver, (<() as Archive>::Resolver, ())),
                ),
            ),
        ),
    ),
}

impl Archive for Numbers {
    type Archived = ArchivedNumbers;

    type Resolver = NumbersResolver;

    ghost meaning = { λ v. product (value (⟦<NonZero<u32> as Archive>⟧.meaning v.some)
        (value (⟦<usize as Archive>⟧.meaning v.size) (value
        (⟦<isize as Archive>⟧.meaning v.distance) (value (⟦<i128 as Archive>⟧.meaning v.wide)
        (value (⟦<bool as Archive>⟧.meaning v.so) (value (⟦<() as Archive>⟧.meaning v.nothing)
        no_value)))))) };

    ghost flat = { λ v r. product (value (⟦<NonZero<u32> as Archive>⟧.flat v.some r.kept.0)
        (value (⟦<usize as Archive>⟧.flat v.size r.kept.1.0)
        (value (⟦<isize as Archive>⟧.flat v.distance r.kept.1.1.0)
        (value (⟦<i128 as Archive>⟧.flat v.wide r.kept.1.1.1.0)
        (value (⟦<bool as Archive>⟧.flat v.so r.kept.1.1.1.1.0)
        (value (⟦<() as Archive>⟧.flat v.nothing r.kept.1.1.1.1.1.0) no_value)))))) };

    ghost keys = { λ v. ⟦<NonZero<u32> as Archive>⟧.keys v.some
        ++ (⟦<usize as Archive>⟧.keys v.size ++ (⟦<isize as Archive>⟧.keys v.distance
        ++ (⟦<i128 as Archive>⟧.keys v.wide ++ (⟦<bool as Archive>⟧.keys v.so
        ++ (⟦<() as Archive>⟧.keys v.nothing ++ []))))) };

    ghost belongs = { λ v r. ⟦<NonZero<u32> as Archive>⟧.belongs v.some r.kept.0
        × (⟦<usize as Archive>⟧.belongs v.size r.kept.1.0
        × (⟦<isize as Archive>⟧.belongs v.distance r.kept.1.1.0
        × (⟦<i128 as Archive>⟧.belongs v.wide r.kept.1.1.1.0
        × (⟦<bool as Archive>⟧.belongs v.so r.kept.1.1.1.1.0
        × (⟦<() as Archive>⟧.belongs v.nothing r.kept.1.1.1.1.1.0 × Unit {0}))))) };

    ghost in_bulk = { None };

    ghost keyed = { λ v. record_keyed (part_keyed (number_keyed _)
        (part_keyed (number_keyed _) (part_keyed (number_keyed _)
        (part_keyed (number_keyed _) (part_keyed (number_keyed _)
        (part_keyed (number_keyed _) nothing_keyed)))))) };

    ghost planned = { λ v. plain_record_planned (both no_definition
        (both no_definition (both no_definition (both no_definition
        (both no_definition (both no_definition no_definition))))))
        (part ⟦<NonZero<u32> as Portable>⟧.shape (part ⟦<ArchivedUsize as Portable>⟧.shape
        (part ⟦<ArchivedIsize as Portable>⟧.shape (part ⟦<ArchivedI128 as Portable>⟧.shape
        (part ⟦<bool as Portable>⟧.shape (part ⟦<() as Portable>⟧.shape no_part)))))) _ _
        (part_planned no_definition ⟦<NonZero<u32> as Portable>⟧.shape
        (⟦<NonZero<u32> as Archive>⟧.keys v.some) (⟦<NonZero<u32> as Archive>⟧.meaning v.some)
        (leaf_planned no_definition _ _ [] _ refl) (part_planned no_definition
        ⟦<ArchivedUsize as Portable>⟧.shape (⟦<usize as Archive>⟧.keys v.size)
        (⟦<usize as Archive>⟧.meaning v.size) (leaf_planned no_definition _ _ [] _ refl)
        (part_planned no_definition ⟦<ArchivedIsize as Portable>⟧.shape
        (⟦<isize as Archive>⟧.keys v.distance) (⟦<isize as Archive>⟧.meaning v.distance)
        (leaf_planned no_definition _ _ [] _ refl) (part_planned no_definition
        ⟦<ArchivedI128 as Portable>⟧.shape (⟦<i128 as Archive>⟧.keys v.wide)
        (⟦<i128 as Archive>⟧.meaning v.wide) (leaf_planned no_definition _ _ [] _ refl)
        (part_planned no_definition ⟦<bool as Portable>⟧.shape (⟦<bool as Archive>⟧.keys v.so)
        (⟦<bool as Archive>⟧.meaning v.so) (leaf_planned no_definition _ _ [] _ refl)
        (part_planned no_definition ⟦<() as Portable>⟧.shape (⟦<() as Archive>⟧.keys v.nothing)
        (⟦<() as Archive>⟧.meaning v.nothing) (leaf_planned no_definition _ _ [] _ refl)
        no_part_planned)))))) refl };

    #[inline(always)]
    fn resolve(
        &self,
        resolver: Self::Resolver,
        place: Place<'_, Self::Archived>,
    ) -> Result<(), Error>
        requires zeroed { ZeroedPlace 48 place.pos place.bytes.now }
        requires same_value { ⟦<Self as Archive>⟧.belongs self.now resolver }
        ensures { ResolvesAs ⟦<Self::Archived as Portable>⟧ place
            (⟦<Self as Archive>⟧.flat self.now resolver) result }
    {
        let Place { bytes, pos, .. } = place;
        let NumbersResolver { kept } = resolver;
        resolve_record_6::<NonZero<u32>, usize, isize, i128, bool, (), ArchivedNumbers>(
            &self.some,
            &self.size,
            &self.distance,
            &self.wide,
            &self.so,
            &self.nothing,
            kept,
            Place::new(pos, bytes),
        )
    }

    #[inline(always)]
    fn copy_optimization() -> CopyOptimization<Self> {
        CopyOptimization::disable()
    }

    #[inline(always)]
    fn serialize_copied<S: Writer + Keys>(
        _values: &[Self],
        _together: usize,
        _serializer: &mut S,
    ) -> Result<Option<usize>, Error> {
        Ok(None)
    }
}

impl<S: Writer + ResolverAlloc> Serialize<S> for Numbers {
    #[inline(always)]
    fn serialize(&self, serializer: &mut S) -> Result<Self::Resolver, Error> {
        match serialize_record_6::<NonZero<u32>, usize, isize, i128, bool, (), ArchivedNumbers, S>(
            &self.some,
            &self.size,
            &self.distance,
            &self.wide,
            &self.so,
            &self.nothing,
            serializer,
        ) {
            Ok(kept) => Ok(NumbersResolver { kept }),
            Err(error) => Err(error),
        }
    }
}

/// As a region of its own: the value itself.
impl ArchiveUnsized for Numbers {
    ghost use Rattle.derived_types.specs.contracts.kinds.NumbersArchive.TheImpl.Laws.{keyed-law as keyed_of_numbers, planned-law as planned_of_numbers};

    type Archived = ArchivedNumbers;

    ghost source_length = { λ _. 0 };

    ghost meaning = { ⟦<Numbers as Archive>⟧.meaning };

    ghost keys = { ⟦<Numbers as Archive>⟧.keys };

    ghost keyed = { keyed_of_numbers };

    ghost one_length = { λ _ _. refl };

    ghost planned = { λ v. one_planned no_definition (parts
        (part ⟦<NonZero<u32> as Portable>⟧.shape (part ⟦<ArchivedUsize as Portable>⟧.shape
        (part ⟦<ArchivedIsize as Portable>⟧.shape (part ⟦<ArchivedI128 as Portable>⟧.shape
        (part ⟦<bool as Portable>⟧.shape (part ⟦<() as Portable>⟧.shape no_part)))))))
        (⟦<Numbers as Archive>⟧.keys v) (⟦<Numbers as Archive>⟧.meaning v) (planned_of_numbers v) };

    #[inline(always)]
    fn archived_metadata(&self) -> Result<(), Error> {
        Ok(())
    }
}

impl<S: Writer + ResolverAlloc> SerializeUnsized<S> for Numbers {
    #[inline(always)]
    fn serialize_unsized(&self, serializer: &mut S) -> Result<usize, Error> {
        serialize_one(self, serializer)
    }
}

impl<D: Entries> Deserialize<Numbers, D> for ArchivedNumbers {
    #[inline(always)]
    fn deserialize_part(
        alloc: Global,
        part: RawView<'_>,
        deserializer: &mut D,
    ) -> Result<Numbers, Error>
        requires { IsPartOf ⟦<Self as ArchivePointee>⟧ part }
        ensures { ReadsAs ⟦<Self as ArchivePointee>⟧ part D.Entries deserializer
            ⟦<Numbers as Archive>⟧ result }
    {
        match deserialize_record::<Self, NumbersOwned, D>(alloc, part, deserializer) {
            Ok(
                FourParts {
                    first: a0,
                    second: a1,
                    third: a2,
                    fourth: a3,
                    rest: (a4, (a5, ())),
                },
            ) => {
                Ok(Numbers {
                    some: a0,
                    size: a1,
                    distance: a2,
                    wide: a3,
                    so: a4,
                    nothing: a5,
                })
            }
            Err(error) => Err(error),
        }
    }
}

/// The fields of an archived `Numbers`, as views.
pub trait NumbersView<'a> {
    /// Not 0.
    fn some(self) -> Ref<'a, NonZero<u32>>;

    /// A size.
    fn size(self) -> Ref<'a, ArchivedUsize>;

    /// A distance.
    fn distance(self) -> Ref<'a, ArchivedIsize>;

    /// 128 bits.
    fn wide(self) -> Ref<'a, ArchivedI128>;

    /// Whether it is so.
    fn so(self) -> Ref<'a, bool>;

    /// Nothing.
    fn nothing(self) -> Ref<'a, ()>;
}

impl<'a> NumbersView<'a> for Ref<'a, ArchivedNumbers> {
    fn some(self) -> Ref<'a, NonZero<u32>>
        ensures buffer { result.bytes.now ≡ self.entry.bytes.now }
        ensures position { result.pos ≡ self.entry.pos + 0 }
        ensures length { result.len ≡ 0 }
        ensures shows { ShowsValueOf result self.entry (field_in 0) }
    {
        part_in_record::<ArchivedNumbers, NonZero<u32>>(self, 0, 0)
    }

    fn size(self) -> Ref<'a, ArchivedUsize>
        ensures buffer { result.bytes.now ≡ self.entry.bytes.now }
        ensures position { result.pos ≡ self.entry.pos + 4 }
        ensures length { result.len ≡ 0 }
        ensures shows { ShowsValueOf result self.entry (field_in 1) }
    {
        part_in_record::<ArchivedNumbers, ArchivedUsize>(self, 1, 4)
    }

    fn distance(self) -> Ref<'a, ArchivedIsize>
        ensures buffer { result.bytes.now ≡ self.entry.bytes.now }
        ensures position { result.pos ≡ self.entry.pos + 8 }
        ensures length { result.len ≡ 0 }
        ensures shows { ShowsValueOf result self.entry (field_in 2) }
    {
        part_in_record::<ArchivedNumbers, ArchivedIsize>(self, 2, 8)
    }

    fn wide(self) -> Ref<'a, ArchivedI128>
        ensures buffer { result.bytes.now ≡ self.entry.bytes.now }
        ensures position { result.pos ≡ self.entry.pos + 16 }
        ensures length { result.len ≡ 0 }
        ensures shows { ShowsValueOf result self.entry (field_in 3) }
    {
        part_in_record::<ArchivedNumbers, ArchivedI128>(self, 3, 16)
    }

    fn so(self) -> Ref<'a, bool>
        ensures buffer { result.bytes.now ≡ self.entry.bytes.now }
        ensures position { result.pos ≡ self.entry.pos + 32 }
        ensures length { result.len ≡ 0 }
        ensures shows { ShowsValueOf result self.entry (field_in 4) }
    {
        part_in_record::<ArchivedNumbers, bool>(self, 4, 32)
    }

    fn nothing(self) -> Ref<'a, ()>
        ensures buffer { result.bytes.now ≡ self.entry.bytes.now }
        ensures position { result.pos ≡ self.entry.pos + 33 }
        ensures length { result.len ≡ 0 }
        ensures shows { ShowsValueOf result self.entry (field_in 5) }
    {
        part_in_record::<ArchivedNumbers, ()>(self, 5, 33)
    }
}

/// The fields of an archived `Numbers`, as seals.
pub trait NumbersSeal<'a> {
    // The seal shows a part of a buffer that was checked.
    ghost sealed: { Self → Type 0 };

    /// Not 0.
    fn some_mut(self) -> Seal<'a, NonZero<u32>>
        requires { sealed self };

    /// A size.
    fn size_mut(self) -> Seal<'a, ArchivedUsize>
        requires { sealed self };

    /// A distance.
    fn distance_mut(self) -> Seal<'a, ArchivedIsize>
        requires { sealed self };

    /// 128 bits.
    fn wide_mut(self) -> Seal<'a, ArchivedI128>
        requires { sealed self };

    /// Whether it is so.
    fn so_mut(self) -> Seal<'a, bool>
        requires { sealed self };

    /// Nothing.
    fn nothing_mut(self) -> Seal<'a, ()>
        requires { sealed self };
}

impl<'a> NumbersSeal<'a> for Seal<'a, ArchivedNumbers> {
    ghost sealed = { λ s. IsSealOf no_definition (one ⟦<ArchivedNumbers as Portable>⟧.shape) s };

    fn some_mut(self) -> Seal<'a, NonZero<u32>>
        requires come_to { IsSealOf no_definition (one ⟦<ArchivedNumbers as Portable>⟧.shape) self }
        ensures { SealsPart no_definition (one ⟦<ArchivedNumbers as Portable>⟧.shape) no_definition
            ⟦<NonZero<u32> as ArchivePointee>⟧.pointee (self.entry.pos + 0) 0 self.entry result }
    {
        sealed_part_in_record::<ArchivedNumbers, NonZero<u32>>(self, 0, 0)
    }

    fn size_mut(self) -> Seal<'a, ArchivedUsize>
        requires come_to { IsSealOf no_definition (one ⟦<ArchivedNumbers as Portable>⟧.shape) self }
        ensures { SealsPart no_definition (one ⟦<ArchivedNumbers as Portable>⟧.shape) no_definition
            ⟦<ArchivedUsize as ArchivePointee>⟧.pointee (self.entry.pos + 4) 0 self.entry result }
    {
        sealed_part_in_record::<ArchivedNumbers, ArchivedUsize>(self, 1, 4)
    }

    fn distance_mut(self) -> Seal<'a, ArchivedIsize>
        requires come_to { IsSealOf no_definition (one ⟦<ArchivedNumbers as Portable>⟧.shape) self }
        ensures { SealsPart no_definition (one ⟦<ArchivedNumbers as Portable>⟧.shape) no_definition
            ⟦<ArchivedIsize as ArchivePointee>⟧.pointee (self.entry.pos + 8) 0 self.entry result }
    {
        sealed_part_in_record::<ArchivedNumbers, ArchivedIsize>(self, 2, 8)
    }

    fn wide_mut(self) -> Seal<'a, ArchivedI128>
        requires come_to { IsSealOf no_definition (one ⟦<ArchivedNumbers as Portable>⟧.shape) self }
        ensures { SealsPart no_definition (one ⟦<ArchivedNumbers as Portable>⟧.shape) no_definition
            ⟦<ArchivedI128 as ArchivePointee>⟧.pointee (self.entry.pos + 16) 0 self.entry result }
    {
        sealed_part_in_record::<ArchivedNumbers, ArchivedI128>(self, 3, 16)
    }

    fn so_mut(self) -> Seal<'a, bool>
        requires come_to { IsSealOf no_definition (one ⟦<ArchivedNumbers as Portable>⟧.shape) self }
        ensures { SealsPart no_definition (one ⟦<ArchivedNumbers as Portable>⟧.shape) no_definition
            ⟦<bool as ArchivePointee>⟧.pointee (self.entry.pos + 32) 0 self.entry result }
    {
        sealed_part_in_record::<ArchivedNumbers, bool>(self, 4, 32)
    }

    fn nothing_mut(self) -> Seal<'a, ()>
        requires come_to { IsSealOf no_definition (one ⟦<ArchivedNumbers as Portable>⟧.shape) self }
        ensures { SealsPart no_definition (one ⟦<ArchivedNumbers as Portable>⟧.shape) no_definition
            ⟦<() as ArchivePointee>⟧.pointee (self.entry.pos + 33) 0 self.entry result }
    {
        sealed_part_in_record::<ArchivedNumbers, ()>(self, 5, 33)
    }
}

/// An archived `Owners`: 40 bytes at a multiple of 4.
pub struct ArchivedOwners;

type OwnersParts = FourParts<
    ArchivedResult<u8, ArchivedString>,
    ArchivedBox<ArchivedSlice<ArchivedU16>>,
    ArchivedBox<ArchivedStr>,
    ArchivedTuple2<u8, ArchivedString>,
    (PhantomData<u64>, ()),
>;

type OwnersOwned = FourParts<
    Result<u8, String>,
    BoxSlice<u16>,
    BoxStr,
    (u8, String),
    (PhantomData<u64>, ()),
>;

impl ArchivePointee for ArchivedOwners {
    type ArchivedMetadata = ();

    ghost pointee = { one (parts (part ⟦<ArchivedResult<u8, ArchivedString> as Portable>⟧.shape
        (part ⟦<ArchivedBox<ArchivedSlice<ArchivedU16>> as Portable>⟧.shape
        (part ⟦<ArchivedBox<ArchivedStr> as Portable>⟧.shape
        (part ⟦<ArchivedTuple2<u8, ArchivedString> as Portable>⟧.shape
        (part ⟦<PhantomData<u64> as Portable>⟧.shape no_part)))))) };

    ghost definitions = { no_definition };

    ghost metadata_length = { λ _. 0 };

    fn pointer_metadata(_metadata: &()) -> usize {
        0
    }
}

impl Portable for ArchivedOwners {
    ghost shape = { parts (part ⟦<ArchivedResult<u8, ArchivedString> as Portable>⟧.shape
        (part ⟦<ArchivedBox<ArchivedSlice<ArchivedU16>> as Portable>⟧.shape
        (part ⟦<ArchivedBox<ArchivedStr> as Portable>⟧.shape
        (part ⟦<ArchivedTuple2<u8, ArchivedString> as Portable>⟧.shape
        (part ⟦<PhantomData<u64> as Portable>⟧.shape no_part))))) };

    ghost layout = { record { size = 40; align = 4 } };

    type Check = ArchivedOwners;

    ghost is_one = { refl };

    ghost is_align = { inr (inr (inl refl)) };

    ghost has_layout = { record { solved = λ s k. refl } };

    ghost no_others = { no_definition_reached (parts (part
        ⟦<ArchivedResult<u8, ArchivedString> as Portable>⟧.shape
        (part ⟦<ArchivedBox<ArchivedSlice<ArchivedU16>> as Portable>⟧.shape
        (part ⟦<ArchivedBox<ArchivedStr> as Portable>⟧.shape
        (part ⟦<ArchivedTuple2<u8, ArchivedString> as Portable>⟧.shape
        (part ⟦<PhantomData<u64> as Portable>⟧.shape no_part)))))) };

    ghost checks = { λ _. plain_own_check _ _ _ _ _ refl refl refl refl };

    fn size() -> usize {
        40
    }

    fn align() -> usize {
        4
    }

    fn expr(alloc: Global) -> Result<archive_core::shape::Expr, Error> {
        expr_of_record::<OwnersParts>(alloc)
    }

    fn define(_alloc: Global, _defs: &mut Defs) -> Result<(), Error> {
        Ok(())
    }
}

impl SelfCheck for ArchivedOwners {
    ghost shape = { parts (part ⟦<ArchivedResult<u8, ArchivedString> as Portable>⟧.shape
        (part ⟦<ArchivedBox<ArchivedSlice<ArchivedU16>> as Portable>⟧.shape
        (part ⟦<ArchivedBox<ArchivedStr> as Portable>⟧.shape
        (part ⟦<ArchivedTuple2<u8, ArchivedString> as Portable>⟧.shape
        (part ⟦<PhantomData<u64> as Portable>⟧.shape no_part))))) };

    ghost definitions = { (both (both no_definition no_definition)
        (both no_definition (both no_definition (both (both no_definition
        (both no_definition no_definition)) (both no_definition no_definition))))) };

    ghost span = { 40 };

    ghost direct = { true };

    ghost nameless = { true };

    fn is_direct() -> bool {
        true
    }

    fn is_nameless() -> bool {
        true
    }

    #[inline(always)]
    fn check_at<C: ArchiveContext>(
        bytes: &[u8],
        at: usize,
        refusal: &mut Error,
        context: &mut C,
    ) -> Option<()> {
        RecordCheck::<OwnersParts>::check_at(bytes, at, refusal, context)
    }
}

impl Record for ArchivedOwners {
    type Parts = OwnersParts;

    ghost has_parts = { plain_record (part ⟦<ArchivedResult<u8, ArchivedString> as Portable>⟧.shape
        (part ⟦<ArchivedBox<ArchivedSlice<ArchivedU16>> as Portable>⟧.shape
        (part ⟦<ArchivedBox<ArchivedStr> as Portable>⟧.shape
        (part ⟦<ArchivedTuple2<u8, ArchivedString> as Portable>⟧.shape
        (part ⟦<PhantomData<u64> as Portable>⟧.shape no_part)))))
        (both (both no_definition no_definition) (both no_definition
        (both no_definition (both (both no_definition (both no_definition no_definition))
        (both no_definition no_definition))))) refl };

    ghost holds = { lit≤ tt };
}

/// What is kept of `Owners` between `serialize` and `resolve`.
#[derive(Drop)]
pub struct OwnersResolver {
    kept: (
        <Result<u8, String> as Archive>::Resolver,
        (
            <BoxSlice<u16> as Archive>::Resolver,
            (
                <BoxStr as Archive>::Resolver,
                (
                    <(u8, String) as Archive>::Resolver,
                    (<PhantomData<u64> as Archive>::Resolver, ()),
                ),
            ),
        ),
    ),
}

impl Archive for Owners {
    type Archived = ArchivedOwners;

    type Resolver = OwnersResolver;

    ghost meaning = { λ v. product (value (⟦<Result<u8, String> as Archive>⟧.meaning v.outcome)
        (value (⟦<BoxSlice<u16> as Archive>⟧.meaning v.numbers)
        (value (⟦<BoxStr as Archive>⟧.meaning v.text) (value
        (⟦<(u8, String) as Archive>⟧.meaning v.both) (value
        (⟦<PhantomData<u64> as Archive>⟧.meaning v.of) no_value))))) };

    ghost flat = { λ v r. product (value (⟦<Result<u8, String> as Archive>⟧.flat v.outcome r.kept.0)
        (value (⟦<BoxSlice<u16> as Archive>⟧.flat v.numbers r.kept.1.0)
        (value (⟦<BoxStr as Archive>⟧.flat v.text r.kept.1.1.0)
        (value (⟦<(u8, String) as Archive>⟧.flat v.both r.kept.1.1.1.0)
        (value (⟦<PhantomData<u64> as Archive>⟧.flat v.of r.kept.1.1.1.1.0) no_value))))) };

    ghost keys = { λ v. ⟦<Result<u8, String> as Archive>⟧.keys v.outcome
        ++ (⟦<BoxSlice<u16> as Archive>⟧.keys v.numbers
        ++ (⟦<BoxStr as Archive>⟧.keys v.text ++ (⟦<(u8, String) as Archive>⟧.keys v.both
        ++ (⟦<PhantomData<u64> as Archive>⟧.keys v.of ++ [])))) };

    ghost belongs = { λ v r. ⟦<Result<u8, String> as Archive>⟧.belongs v.outcome r.kept.0
        × (⟦<BoxSlice<u16> as Archive>⟧.belongs v.numbers r.kept.1.0
        × (⟦<BoxStr as Archive>⟧.belongs v.text r.kept.1.1.0
        × (⟦<(u8, String) as Archive>⟧.belongs v.both r.kept.1.1.1.0
        × (⟦<PhantomData<u64> as Archive>⟧.belongs v.of r.kept.1.1.1.1.0 × Unit {0})))) };

    ghost in_bulk = { None };

    ghost keyed = { λ v. record_keyed (part_keyed (result_keyed ⟦<u8 as Archive>⟧.keys
        ⟦<String as Archive>⟧.keys ⟦<u8 as Archive>⟧.meaning ⟦<String as Archive>⟧.meaning
        (λ x. number_keyed _) (λ x. text_keyed (string_bytes x)) v.outcome)
        (part_keyed (box_keyed (each_keys ⟦<u16 as Archive>⟧.keys v.numbers.items.items)
        (list (each_meaning ⟦<u16 as Archive>⟧.meaning v.numbers.items.items))
        (each_keyed ⟦<u16 as Archive>⟧.keys ⟦<u16 as Archive>⟧.meaning (λ x. number_keyed _)
        v.numbers.items.items)) (part_keyed (box_keyed [] (text_value (string_bytes v.text.text))
        (text_keyed (string_bytes v.text.text))) (part_keyed
        (record_keyed (part_keyed (number_keyed _) (part_keyed (text_keyed (string_bytes v.both.1))
        nothing_keyed))) (part_keyed empty_product_keyed nothing_keyed))))) };

    ghost planned = { λ v. plain_record_planned (both (both no_definition no_definition)
        (both no_definition (both no_definition (both (both no_definition
        (both no_definition no_definition)) (both no_definition no_definition)))))
        (part ⟦<ArchivedResult<u8, ArchivedString> as Portable>⟧.shape
        (part ⟦<ArchivedBox<ArchivedSlice<ArchivedU16>> as Portable>⟧.shape
        (part ⟦<ArchivedBox<ArchivedStr> as Portable>⟧.shape
        (part ⟦<ArchivedTuple2<u8, ArchivedString> as Portable>⟧.shape
        (part ⟦<PhantomData<u64> as Portable>⟧.shape no_part))))) _ _
        (part_planned (both no_definition no_definition)
        ⟦<ArchivedResult<u8, ArchivedString> as Portable>⟧.shape
        (⟦<Result<u8, String> as Archive>⟧.keys v.outcome)
        (⟦<Result<u8, String> as Archive>⟧.meaning v.outcome)
        (result_planned ⟦<u8 as Archive>⟧.keys ⟦<String as Archive>⟧.keys ⟦<u8 as Archive>⟧.meaning
        ⟦<String as Archive>⟧.meaning no_definition no_definition ⟦<u8 as Portable>⟧.shape
        ⟦<ArchivedString as Portable>⟧.shape (λ x. leaf_planned no_definition _ _ [] _ refl)
        (λ x. string_planned no_definition [] (string_bytes x)) v.outcome)
        (part_planned no_definition ⟦<ArchivedBox<ArchivedSlice<ArchivedU16>> as Portable>⟧.shape
        (⟦<BoxSlice<u16> as Archive>⟧.keys v.numbers) (⟦<BoxSlice<u16> as Archive>⟧.meaning
        v.numbers) (box_planned no_definition (run ⟦<ArchivedU16 as Portable>⟧.shape) _ _ _
        (slice_planned no_definition ⟦<ArchivedU16 as Portable>⟧.shape ⟦<u16 as Archive>⟧.keys
        ⟦<u16 as Archive>⟧.meaning (λ x. leaf_planned no_definition _ _ [] _ refl)
        v.numbers.items.items)) (part_planned no_definition
        ⟦<ArchivedBox<ArchivedStr> as Portable>⟧.shape (⟦<BoxStr as Archive>⟧.keys v.text)
        (⟦<BoxStr as Archive>⟧.meaning v.text) (box_planned no_definition text
        (length (string_bytes v.text.text)) [] (text_value (string_bytes v.text.text))
        (text_planned no_definition [] (string_bytes v.text.text)))
        (part_planned (both no_definition (both no_definition no_definition))
        ⟦<ArchivedTuple2<u8, ArchivedString> as Portable>⟧.shape
        (⟦<(u8, String) as Archive>⟧.keys v.both) (⟦<(u8, String) as Archive>⟧.meaning v.both)
        (product_planned (both no_definition (both no_definition no_definition))
        (part ⟦<u8 as Portable>⟧.shape (part ⟦<ArchivedString as Portable>⟧.shape no_part))
        (⟦<u8 as Archive>⟧.keys v.both.0 ++ (⟦<String as Archive>⟧.keys v.both.1 ++ []))
        (value (⟦<u8 as Archive>⟧.meaning v.both.0) (value (⟦<String as Archive>⟧.meaning v.both.1)
        no_value)) (part_planned no_definition ⟦<u8 as Portable>⟧.shape
        (⟦<u8 as Archive>⟧.keys v.both.0) (⟦<u8 as Archive>⟧.meaning v.both.0)
        (leaf_planned no_definition _ _ [] _ refl) (part_planned no_definition
        ⟦<ArchivedString as Portable>⟧.shape (⟦<String as Archive>⟧.keys v.both.1)
        (⟦<String as Archive>⟧.meaning v.both.1) (string_planned no_definition []
        (string_bytes v.both.1)) no_part_planned))) (part_planned no_definition
        ⟦<PhantomData<u64> as Portable>⟧.shape (⟦<PhantomData<u64> as Archive>⟧.keys v.of)
        (⟦<PhantomData<u64> as Archive>⟧.meaning v.of) empty_product_planned no_part_planned)))))
        refl };

    #[inline(always)]
    fn resolve(
        &self,
        resolver: Self::Resolver,
        place: Place<'_, Self::Archived>,
    ) -> Result<(), Error>
        requires zeroed { ZeroedPlace 40 place.pos place.bytes.now }
        requires same_value { ⟦<Self as Archive>⟧.belongs self.now resolver }
        ensures { ResolvesAs ⟦<Self::Archived as Portable>⟧ place
            (⟦<Self as Archive>⟧.flat self.now resolver) result }
    {
        let Place { bytes, pos, .. } = place;
        let OwnersResolver { kept } = resolver;
        resolve_record_5::<
            Result<u8, String>,
            BoxSlice<u16>,
            BoxStr,
            (u8, String),
            PhantomData<u64>,
            ArchivedOwners,
        >(
            &self.outcome,
            &self.numbers,
            &self.text,
            &self.both,
            &self.of,
            kept,
            Place::new(pos, bytes),
        )
    }

    #[inline(always)]
    fn copy_optimization() -> CopyOptimization<Self> {
        CopyOptimization::disable()
    }

    #[inline(always)]
    fn serialize_copied<S: Writer + Keys>(
        _values: &[Self],
        _together: usize,
        _serializer: &mut S,
    ) -> Result<Option<usize>, Error> {
        Ok(None)
    }
}

impl<S: Writer + ResolverAlloc> Serialize<S> for Owners {
    #[inline(always)]
    fn serialize(&self, serializer: &mut S) -> Result<Self::Resolver, Error> {
        match serialize_record_5::<
            Result<u8, String>,
            BoxSlice<u16>,
            BoxStr,
            (u8, String),
            PhantomData<u64>,
            ArchivedOwners,
            S,
        >(
            &self.outcome,
            &self.numbers,
            &self.text,
            &self.both,
            &self.of,
            serializer,
        ) {
            Ok(kept) => Ok(OwnersResolver { kept }),
            Err(error) => Err(error),
        }
    }
}

/// As a region of its own: the value itself.
impl ArchiveUnsized for Owners {
    ghost use Rattle.derived_types.specs.contracts.kinds.OwnersArchive.TheImpl.Laws.{keyed-law as keyed_of_owners, planned-law as planned_of_owners};

    type Archived = ArchivedOwners;

    ghost source_length = { λ _. 0 };

    ghost meaning = { ⟦<Owners as Archive>⟧.meaning };

    ghost keys = { ⟦<Owners as Archive>⟧.keys };

    ghost keyed = { keyed_of_owners };

    ghost one_length = { λ _ _. refl };

    ghost planned = { λ v. one_planned no_definition (parts
        (part ⟦<ArchivedResult<u8, ArchivedString> as Portable>⟧.shape
        (part ⟦<ArchivedBox<ArchivedSlice<ArchivedU16>> as Portable>⟧.shape
        (part ⟦<ArchivedBox<ArchivedStr> as Portable>⟧.shape
        (part ⟦<ArchivedTuple2<u8, ArchivedString> as Portable>⟧.shape
        (part ⟦<PhantomData<u64> as Portable>⟧.shape no_part)))))) (⟦<Owners as Archive>⟧.keys v)
        (⟦<Owners as Archive>⟧.meaning v) (planned_of_owners v) };

    #[inline(always)]
    fn archived_metadata(&self) -> Result<(), Error> {
        Ok(())
    }
}

impl<S: Writer + ResolverAlloc> SerializeUnsized<S> for Owners {
    #[inline(always)]
    fn serialize_unsized(&self, serializer: &mut S) -> Result<usize, Error> {
        serialize_one(self, serializer)
    }
}

impl<D: Entries> Deserialize<Owners, D> for ArchivedOwners {
    #[inline(always)]
    fn deserialize_part(
        alloc: Global,
        part: RawView<'_>,
        deserializer: &mut D,
    ) -> Result<Owners, Error>
        requires { IsPartOf ⟦<Self as ArchivePointee>⟧ part }
        ensures { ReadsAs ⟦<Self as ArchivePointee>⟧ part D.Entries deserializer
            ⟦<Owners as Archive>⟧ result }
    {
        match deserialize_record::<Self, OwnersOwned, D>(alloc, part, deserializer) {
            Ok(
                FourParts {
                    first: a0,
                    second: a1,
                    third: a2,
                    fourth: a3,
                    rest: (a4, ()),
                },
            ) => {
                Ok(Owners {
                    outcome: a0,
                    numbers: a1,
                    text: a2,
                    both: a3,
                    of: a4,
                })
            }
            Err(error) => Err(error),
        }
    }
}

/// The fields of an archived `Owners`, as views.
pub trait OwnersView<'a> {
    /// A number, or why there is none.
    fn outcome(self) -> Ref<'a, ArchivedResult<u8, ArchivedString>>;

    /// Numbers, boxed.
    fn numbers(self) -> Ref<'a, ArchivedBox<ArchivedSlice<ArchivedU16>>>;

    /// A text, boxed.
    fn text(self) -> Ref<'a, ArchivedBox<ArchivedStr>>;

    /// A number and a text.
    fn both(self) -> Ref<'a, ArchivedTuple2<u8, ArchivedString>>;

    /// No value, of a type.
    fn of(self) -> Ref<'a, PhantomData<u64>>;
}

impl<'a> OwnersView<'a> for Ref<'a, ArchivedOwners> {
    fn outcome(self) -> Ref<'a, ArchivedResult<u8, ArchivedString>>
        ensures buffer { result.bytes.now ≡ self.entry.bytes.now }
        ensures position { result.pos ≡ self.entry.pos + 0 }
        ensures length { result.len ≡ 0 }
        ensures shows { ShowsValueOf result self.entry (field_in 0) }
    {
        part_in_record::<ArchivedOwners, ArchivedResult<u8, ArchivedString>>(self, 0, 0)
    }

    fn numbers(self) -> Ref<'a, ArchivedBox<ArchivedSlice<ArchivedU16>>>
        ensures buffer { result.bytes.now ≡ self.entry.bytes.now }
        ensures position { result.pos ≡ self.entry.pos + 12 }
        ensures length { result.len ≡ 0 }
        ensures shows { ShowsValueOf result self.entry (field_in 1) }
    {
        part_in_record::<ArchivedOwners, ArchivedBox<ArchivedSlice<ArchivedU16>>>(self, 1, 12)
    }

    fn text(self) -> Ref<'a, ArchivedBox<ArchivedStr>>
        ensures buffer { result.bytes.now ≡ self.entry.bytes.now }
        ensures position { result.pos ≡ self.entry.pos + 20 }
        ensures length { result.len ≡ 0 }
        ensures shows { ShowsValueOf result self.entry (field_in 2) }
    {
        part_in_record::<ArchivedOwners, ArchivedBox<ArchivedStr>>(self, 2, 20)
    }

    fn both(self) -> Ref<'a, ArchivedTuple2<u8, ArchivedString>>
        ensures buffer { result.bytes.now ≡ self.entry.bytes.now }
        ensures position { result.pos ≡ self.entry.pos + 28 }
        ensures length { result.len ≡ 0 }
        ensures shows { ShowsValueOf result self.entry (field_in 3) }
    {
        part_in_record::<ArchivedOwners, ArchivedTuple2<u8, ArchivedString>>(self, 3, 28)
    }

    fn of(self) -> Ref<'a, PhantomData<u64>>
        ensures buffer { result.bytes.now ≡ self.entry.bytes.now }
        ensures position { result.pos ≡ self.entry.pos + 40 }
        ensures length { result.len ≡ 0 }
        ensures shows { ShowsValueOf result self.entry (field_in 4) }
    {
        part_in_record::<ArchivedOwners, PhantomData<u64>>(self, 4, 40)
    }
}

/// The fields of an archived `Owners`, as seals.
pub trait OwnersSeal<'a> {
    // The seal shows a part of a buffer that was checked.
    ghost sealed: { Self → Type 0 };

    /// A number, or why there is none.
    fn outcome_mut(self) -> Seal<'a, ArchivedResult<u8, ArchivedString>>
        requires { sealed self };

    /// Numbers, boxed.
    fn numbers_mut(self) -> Seal<'a, ArchivedBox<ArchivedSlice<ArchivedU16>>>
        requires { sealed self };

    /// A text, boxed.
    fn text_mut(self) -> Seal<'a, ArchivedBox<ArchivedStr>>
        requires { sealed self };

    /// A number and a text.
    fn both_mut(self) -> Seal<'a, ArchivedTuple2<u8, ArchivedString>>
        requires { sealed self };

    /// No value, of a type.
    fn of_mut(self) -> Seal<'a, PhantomData<u64>>
        requires { sealed self };
}

impl<'a> OwnersSeal<'a> for Seal<'a, ArchivedOwners> {
    ghost sealed = { λ s. IsSealOf no_definition (one ⟦<ArchivedOwners as Portable>⟧.shape) s };

    fn outcome_mut(self) -> Seal<'a, ArchivedResult<u8, ArchivedString>>
        requires come_to { IsSealOf no_definition (one ⟦<ArchivedOwners as Portable>⟧.shape) self }
        ensures { SealsPart no_definition (one ⟦<ArchivedOwners as Portable>⟧.shape)
            (both no_definition no_definition)
            ⟦<ArchivedResult<u8, ArchivedString> as ArchivePointee>⟧.pointee (self.entry.pos + 0) 0
            self.entry result }
    {
        sealed_part_in_record::<ArchivedOwners, ArchivedResult<u8, ArchivedString>>(self, 0, 0)
    }

    fn numbers_mut(self) -> Seal<'a, ArchivedBox<ArchivedSlice<ArchivedU16>>>
        requires come_to { IsSealOf no_definition (one ⟦<ArchivedOwners as Portable>⟧.shape) self }
        ensures { SealsPart no_definition (one ⟦<ArchivedOwners as Portable>⟧.shape) no_definition
            ⟦<ArchivedBox<ArchivedSlice<ArchivedU16>> as ArchivePointee>⟧.pointee
            (self.entry.pos + 12) 0 self.entry result }
    {
        sealed_part_in_record::<ArchivedOwners, ArchivedBox<ArchivedSlice<ArchivedU16>>>(
            self, 1, 12,
        )
    }

    fn text_mut(self) -> Seal<'a, ArchivedBox<ArchivedStr>>
        requires come_to { IsSealOf no_definition (one ⟦<ArchivedOwners as Portable>⟧.shape) self }
        ensures { SealsPart no_definition (one ⟦<ArchivedOwners as Portable>⟧.shape) no_definition
            ⟦<ArchivedBox<ArchivedStr> as ArchivePointee>⟧.pointee (self.entry.pos + 20) 0
            self.entry result }
    {
        sealed_part_in_record::<ArchivedOwners, ArchivedBox<ArchivedStr>>(self, 2, 20)
    }

    fn both_mut(self) -> Seal<'a, ArchivedTuple2<u8, ArchivedString>>
        requires come_to { IsSealOf no_definition (one ⟦<ArchivedOwners as Portable>⟧.shape) self }
        ensures { SealsPart no_definition (one ⟦<ArchivedOwners as Portable>⟧.shape)
            (both no_definition (both no_definition no_definition))
            ⟦<ArchivedTuple2<u8, ArchivedString> as ArchivePointee>⟧.pointee (self.entry.pos + 28) 0
            self.entry result }
    {
        sealed_part_in_record::<ArchivedOwners, ArchivedTuple2<u8, ArchivedString>>(self, 3, 28)
    }

    fn of_mut(self) -> Seal<'a, PhantomData<u64>>
        requires come_to { IsSealOf no_definition (one ⟦<ArchivedOwners as Portable>⟧.shape) self }
        ensures { SealsPart no_definition (one ⟦<ArchivedOwners as Portable>⟧.shape) no_definition
            ⟦<PhantomData<u64> as ArchivePointee>⟧.pointee (self.entry.pos + 40) 0 self.entry
            result }
    {
        sealed_part_in_record::<ArchivedOwners, PhantomData<u64>>(self, 4, 40)
    }
}

/// An archived `Lists`: 32 bytes at a multiple of 8.
pub struct ArchivedLists;

type ListsParts = (
    ArchivedPair<ArchivedU64, ArchivedLine>,
    (
        [ArchivedI16; 4],
        (ArchivedVec<ArchivedOption<ArchivedSpot>>, ()),
    ),
);

type ListsOwned = (
    Pair<u64, Line>,
    (OwnedArray<i16, 4>, (Vec<Option<Spot>>, ())),
);

impl ArchivePointee for ArchivedLists {
    type ArchivedMetadata = ();

    ghost pointee = { one (parts (part ⟦<ArchivedPair<ArchivedU64, ArchivedLine> as Portable>⟧.shape
        (part ⟦<[ArchivedI16; 4] as Portable>⟧.shape (part
        ⟦<ArchivedVec<ArchivedOption<ArchivedSpot>> as Portable>⟧.shape no_part)))) };

    ghost definitions = { no_definition };

    ghost metadata_length = { λ _. 0 };

    fn pointer_metadata(_metadata: &()) -> usize {
        0
    }
}

impl Portable for ArchivedLists {
    ghost shape = { parts (part ⟦<ArchivedPair<ArchivedU64, ArchivedLine> as Portable>⟧.shape
        (part ⟦<[ArchivedI16; 4] as Portable>⟧.shape (part
        ⟦<ArchivedVec<ArchivedOption<ArchivedSpot>> as Portable>⟧.shape no_part))) };

    ghost layout = { record { size = 32; align = 8 } };

    type Check = ArchivedLists;

    ghost is_one = { refl };

    ghost is_align = { inr (inr (inr (inl refl))) };

    ghost has_layout = { record { solved = λ s k. refl } };

    ghost no_others = { no_definition_reached (parts (part
        ⟦<ArchivedPair<ArchivedU64, ArchivedLine> as Portable>⟧.shape
        (part ⟦<[ArchivedI16; 4] as Portable>⟧.shape (part
        ⟦<ArchivedVec<ArchivedOption<ArchivedSpot>> as Portable>⟧.shape no_part)))) };

    ghost checks = { λ _. plain_own_check _ _ _ _ _ refl refl refl refl };

    fn size() -> usize {
        32
    }

    fn align() -> usize {
        8
    }

    fn expr(alloc: Global) -> Result<archive_core::shape::Expr, Error> {
        expr_of_record::<ListsParts>(alloc)
    }

    fn define(_alloc: Global, _defs: &mut Defs) -> Result<(), Error> {
        Ok(())
    }
}

impl SelfCheck for ArchivedLists {
    ghost shape = { parts (part ⟦<ArchivedPair<ArchivedU64, ArchivedLine> as Portable>⟧.shape
        (part ⟦<[ArchivedI16; 4] as Portable>⟧.shape (part
        ⟦<ArchivedVec<ArchivedOption<ArchivedSpot>> as Portable>⟧.shape no_part))) };

    ghost definitions = { (both (both no_definition (both no_definition no_definition))
        (both no_definition (both no_definition no_definition))) };

    ghost span = { 32 };

    ghost direct = { true };

    ghost nameless = { true };

    fn is_direct() -> bool {
        true
    }

    fn is_nameless() -> bool {
        true
    }

    #[inline(always)]
    fn check_at<C: ArchiveContext>(
        bytes: &[u8],
        at: usize,
        refusal: &mut Error,
        context: &mut C,
    ) -> Option<()> {
        RecordCheck::<ListsParts>::check_at(bytes, at, refusal, context)
    }
}

impl Record for ArchivedLists {
    type Parts = ListsParts;

    ghost has_parts = { plain_record
        (part ⟦<ArchivedPair<ArchivedU64, ArchivedLine> as Portable>⟧.shape
        (part ⟦<[ArchivedI16; 4] as Portable>⟧.shape (part
        ⟦<ArchivedVec<ArchivedOption<ArchivedSpot>> as Portable>⟧.shape no_part)))
        (both (both no_definition (both no_definition no_definition))
        (both no_definition (both no_definition no_definition))) refl };

    ghost holds = { lit≤ tt };
}

/// What is kept of `Lists` between `serialize` and `resolve`.
#[derive(Drop)]
pub struct ListsResolver {
    kept: (
        <Pair<u64, Line> as Archive>::Resolver,
        (
            <OwnedArray<i16, 4> as Archive>::Resolver,
            (<Vec<Option<Spot>> as Archive>::Resolver, ()),
        ),
    ),
}

impl Archive for Lists {
    ghost use Rattle.derived_types.specs.contracts.spot.LineArchive.TheImpl.Laws.{keyed-law as keyed_of_line, planned-law as planned_of_line};
    ghost use Rattle.derived_types.specs.contracts.spot.SpotArchive.TheImpl.Laws.{keyed-law as keyed_of_spot, planned-law as planned_of_spot};

    type Archived = ArchivedLists;

    type Resolver = ListsResolver;

    ghost meaning = { λ v. product (value (⟦<Pair<u64, Line> as Archive>⟧.meaning v.0)
        (value (⟦<OwnedArray<i16, 4> as Archive>⟧.meaning v.1)
        (value (⟦<Vec<Option<Spot>> as Archive>⟧.meaning v.2) no_value))) };

    ghost flat = { λ v r. product (value (⟦<Pair<u64, Line> as Archive>⟧.flat v.0 r.kept.0)
        (value (⟦<OwnedArray<i16, 4> as Archive>⟧.flat v.1 r.kept.1.0)
        (value (⟦<Vec<Option<Spot>> as Archive>⟧.flat v.2 r.kept.1.1.0) no_value))) };

    ghost keys = { λ v. ⟦<Pair<u64, Line> as Archive>⟧.keys v.0
        ++ (⟦<OwnedArray<i16, 4> as Archive>⟧.keys v.1 ++ (⟦<Vec<Option<Spot>> as Archive>⟧.keys v.2
        ++ [])) };

    ghost belongs = { λ v r. ⟦<Pair<u64, Line> as Archive>⟧.belongs v.0 r.kept.0
        × (⟦<OwnedArray<i16, 4> as Archive>⟧.belongs v.1 r.kept.1.0
        × (⟦<Vec<Option<Spot>> as Archive>⟧.belongs v.2 r.kept.1.1.0 × Unit {0})) };

    ghost in_bulk = { None };

    ghost keyed = { λ v. record_keyed (part_keyed (record_keyed
        (part_keyed (number_keyed _) (part_keyed (keyed_of_line v.0.right) nothing_keyed)))
        (part_keyed (array_keyed 4 ⟦<i16 as Archive>⟧.keys ⟦<i16 as Archive>⟧.meaning
        (λ x. number_keyed _) v.1) (part_keyed (each_keyed ⟦<Option<Spot> as Archive>⟧.keys
        ⟦<Option<Spot> as Archive>⟧.meaning (λ x. option_keyed ⟦<Spot as Archive>⟧.keys
        ⟦<Spot as Archive>⟧.meaning keyed_of_spot x) v.2.items) nothing_keyed))) };

    ghost planned = { λ v. plain_record_planned (both
        (both no_definition (both no_definition no_definition))
        (both no_definition (both no_definition no_definition)))
        (part ⟦<ArchivedPair<ArchivedU64, ArchivedLine> as Portable>⟧.shape
        (part ⟦<[ArchivedI16; 4] as Portable>⟧.shape (part
        ⟦<ArchivedVec<ArchivedOption<ArchivedSpot>> as Portable>⟧.shape no_part))) _ _
        (part_planned (both no_definition (both no_definition no_definition))
        ⟦<ArchivedPair<ArchivedU64, ArchivedLine> as Portable>⟧.shape
        (⟦<Pair<u64, Line> as Archive>⟧.keys v.0) (⟦<Pair<u64, Line> as Archive>⟧.meaning v.0)
        (product_planned (both no_definition (both no_definition no_definition))
        (part ⟦<ArchivedU64 as Portable>⟧.shape (part ⟦<ArchivedLine as Portable>⟧.shape no_part))
        (⟦<u64 as Archive>⟧.keys v.0.left ++ (⟦<Line as Archive>⟧.keys v.0.right ++ []))
        (value (⟦<u64 as Archive>⟧.meaning v.0.left) (value (⟦<Line as Archive>⟧.meaning v.0.right)
        no_value)) (part_planned no_definition ⟦<ArchivedU64 as Portable>⟧.shape
        (⟦<u64 as Archive>⟧.keys v.0.left) (⟦<u64 as Archive>⟧.meaning v.0.left)
        (leaf_planned no_definition _ _ [] _ refl) (part_planned no_definition
        ⟦<ArchivedLine as Portable>⟧.shape (⟦<Line as Archive>⟧.keys v.0.right)
        (⟦<Line as Archive>⟧.meaning v.0.right) (planned_of_line v.0.right) no_part_planned)))
        (part_planned no_definition ⟦<[ArchivedI16; 4] as Portable>⟧.shape
        (⟦<OwnedArray<i16, 4> as Archive>⟧.keys v.1) (⟦<OwnedArray<i16, 4> as Archive>⟧.meaning v.1)
        (array_planned 4 no_definition ⟦<ArchivedI16 as Portable>⟧.shape ⟦<i16 as Archive>⟧.keys
        ⟦<i16 as Archive>⟧.meaning (λ x. leaf_planned no_definition _ _ [] _ refl) v.1)
        (part_planned no_definition ⟦<ArchivedVec<ArchivedOption<ArchivedSpot>> as Portable>⟧.shape
        (⟦<Vec<Option<Spot>> as Archive>⟧.keys v.2) (⟦<Vec<Option<Spot>> as Archive>⟧.meaning v.2)
        (vec_planned no_definition ⟦<ArchivedOption<ArchivedSpot> as Portable>⟧.shape _ _ _
        (slice_planned no_definition ⟦<ArchivedOption<ArchivedSpot> as Portable>⟧.shape
        ⟦<Option<Spot> as Archive>⟧.keys ⟦<Option<Spot> as Archive>⟧.meaning
        (λ x. option_planned no_definition ⟦<ArchivedSpot as Portable>⟧.shape
        ⟦<Spot as Archive>⟧.keys ⟦<Spot as Archive>⟧.meaning planned_of_spot x) v.2.items))
        no_part_planned))) refl };

    #[inline(always)]
    fn resolve(
        &self,
        resolver: Self::Resolver,
        place: Place<'_, Self::Archived>,
    ) -> Result<(), Error>
        requires zeroed { ZeroedPlace 32 place.pos place.bytes.now }
        requires same_value { ⟦<Self as Archive>⟧.belongs self.now resolver }
        ensures { ResolvesAs ⟦<Self::Archived as Portable>⟧ place
            (⟦<Self as Archive>⟧.flat self.now resolver) result }
    {
        let Place { bytes, pos, .. } = place;
        let ListsResolver { kept } = resolver;
        resolve_record_3::<Pair<u64, Line>, OwnedArray<i16, 4>, Vec<Option<Spot>>, ArchivedLists>(
            &self.0,
            &self.1,
            &self.2,
            kept,
            Place::new(pos, bytes),
        )
    }

    #[inline(always)]
    fn copy_optimization() -> CopyOptimization<Self> {
        CopyOptimization::disable()
    }

    #[inline(always)]
    fn serialize_copied<S: Writer + Keys>(
        _values: &[Self],
        _together: usize,
        _serializer: &mut S,
    ) -> Result<Option<usize>, Error> {
        Ok(None)
    }
}

impl<S: Writer + ResolverAlloc<Alloc = Global>> Serialize<S> for Lists {
    #[inline(always)]
    fn serialize(&self, serializer: &mut S) -> Result<Self::Resolver, Error> {
        match serialize_record_3::<
            Pair<u64, Line>,
            OwnedArray<i16, 4>,
            Vec<Option<Spot>>,
            ArchivedLists,
            S,
        >(&self.0, &self.1, &self.2, serializer)
        {
            Ok(kept) => Ok(ListsResolver { kept }),
            Err(error) => Err(error),
        }
    }
}

/// As a region of its own: the value itself.
impl ArchiveUnsized for Lists {
    ghost use Rattle.derived_types.specs.contracts.kinds.ListsArchive.TheImpl.Laws.{keyed-law as keyed_of_lists, planned-law as planned_of_lists};

    type Archived = ArchivedLists;

    ghost source_length = { λ _. 0 };

    ghost meaning = { ⟦<Lists as Archive>⟧.meaning };

    ghost keys = { ⟦<Lists as Archive>⟧.keys };

    ghost keyed = { keyed_of_lists };

    ghost one_length = { λ _ _. refl };

    ghost planned = { λ v. one_planned no_definition (parts
        (part ⟦<ArchivedPair<ArchivedU64, ArchivedLine> as Portable>⟧.shape
        (part ⟦<[ArchivedI16; 4] as Portable>⟧.shape (part
        ⟦<ArchivedVec<ArchivedOption<ArchivedSpot>> as Portable>⟧.shape no_part))))
        (⟦<Lists as Archive>⟧.keys v) (⟦<Lists as Archive>⟧.meaning v) (planned_of_lists v) };

    #[inline(always)]
    fn archived_metadata(&self) -> Result<(), Error> {
        Ok(())
    }
}

impl<S: Writer + ResolverAlloc<Alloc = Global>> SerializeUnsized<S> for Lists {
    #[inline(always)]
    fn serialize_unsized(&self, serializer: &mut S) -> Result<usize, Error> {
        serialize_one(self, serializer)
    }
}

impl<D: Entries> Deserialize<Lists, D> for ArchivedLists {
    #[inline(always)]
    fn deserialize_part(
        alloc: Global,
        part: RawView<'_>,
        deserializer: &mut D,
    ) -> Result<Lists, Error>
        requires { IsPartOf ⟦<Self as ArchivePointee>⟧ part }
        ensures { ReadsAs ⟦<Self as ArchivePointee>⟧ part D.Entries deserializer
            ⟦<Lists as Archive>⟧ result }
    {
        match deserialize_record::<Self, ListsOwned, D>(alloc, part, deserializer) {
            Ok((a0, (a1, (a2, ())))) => Ok(Lists(a0, a1, a2)),
            Err(error) => Err(error),
        }
    }
}

/// The fields of an archived `Lists`, as views.
pub trait ListsView<'a> {
    /// A number and a line.
    fn field_0(self) -> Ref<'a, ArchivedPair<ArchivedU64, ArchivedLine>>;

    /// Four numbers.
    fn field_1(self) -> Ref<'a, [ArchivedI16; 4]>;

    /// Places, perhaps.
    fn field_2(self) -> Ref<'a, ArchivedVec<ArchivedOption<ArchivedSpot>>>;
}

impl<'a> ListsView<'a> for Ref<'a, ArchivedLists> {
    fn field_0(self) -> Ref<'a, ArchivedPair<ArchivedU64, ArchivedLine>>
        ensures buffer { result.bytes.now ≡ self.entry.bytes.now }
        ensures position { result.pos ≡ self.entry.pos + 0 }
        ensures length { result.len ≡ 0 }
        ensures shows { ShowsValueOf result self.entry (field_in 0) }
    {
        part_in_record::<ArchivedLists, ArchivedPair<ArchivedU64, ArchivedLine>>(self, 0, 0)
    }

    fn field_1(self) -> Ref<'a, [ArchivedI16; 4]>
        ensures buffer { result.bytes.now ≡ self.entry.bytes.now }
        ensures position { result.pos ≡ self.entry.pos + 16 }
        ensures length { result.len ≡ 0 }
        ensures shows { ShowsValueOf result self.entry (field_in 1) }
    {
        part_in_record::<ArchivedLists, [ArchivedI16; 4]>(self, 1, 16)
    }

    fn field_2(self) -> Ref<'a, ArchivedVec<ArchivedOption<ArchivedSpot>>>
        ensures buffer { result.bytes.now ≡ self.entry.bytes.now }
        ensures position { result.pos ≡ self.entry.pos + 24 }
        ensures length { result.len ≡ 0 }
        ensures shows { ShowsValueOf result self.entry (field_in 2) }
    {
        part_in_record::<ArchivedLists, ArchivedVec<ArchivedOption<ArchivedSpot>>>(self, 2, 24)
    }
}

/// The fields of an archived `Lists`, as seals.
pub trait ListsSeal<'a> {
    // The seal shows a part of a buffer that was checked.
    ghost sealed: { Self → Type 0 };

    /// A number and a line.
    fn field_0_mut(self) -> Seal<'a, ArchivedPair<ArchivedU64, ArchivedLine>>
        requires { sealed self };

    /// Four numbers.
    fn field_1_mut(self) -> Seal<'a, [ArchivedI16; 4]>
        requires { sealed self };

    /// Places, perhaps.
    fn field_2_mut(self) -> Seal<'a, ArchivedVec<ArchivedOption<ArchivedSpot>>>
        requires { sealed self };
}

impl<'a> ListsSeal<'a> for Seal<'a, ArchivedLists> {
    ghost sealed = { λ s. IsSealOf no_definition (one ⟦<ArchivedLists as Portable>⟧.shape) s };

    fn field_0_mut(self) -> Seal<'a, ArchivedPair<ArchivedU64, ArchivedLine>>
        requires come_to { IsSealOf no_definition (one ⟦<ArchivedLists as Portable>⟧.shape) self }
        ensures { SealsPart no_definition (one ⟦<ArchivedLists as Portable>⟧.shape)
            (both no_definition (both no_definition no_definition))
            ⟦<ArchivedPair<ArchivedU64, ArchivedLine> as ArchivePointee>⟧.pointee
            (self.entry.pos + 0) 0 self.entry result }
    {
        sealed_part_in_record::<ArchivedLists, ArchivedPair<ArchivedU64, ArchivedLine>>(self, 0, 0)
    }

    fn field_1_mut(self) -> Seal<'a, [ArchivedI16; 4]>
        requires come_to { IsSealOf no_definition (one ⟦<ArchivedLists as Portable>⟧.shape) self }
        ensures { SealsPart no_definition (one ⟦<ArchivedLists as Portable>⟧.shape) no_definition
            ⟦<[ArchivedI16; 4] as ArchivePointee>⟧.pointee (self.entry.pos + 16) 0 self.entry
            result }
    {
        sealed_part_in_record::<ArchivedLists, [ArchivedI16; 4]>(self, 1, 16)
    }

    fn field_2_mut(self) -> Seal<'a, ArchivedVec<ArchivedOption<ArchivedSpot>>>
        requires come_to { IsSealOf no_definition (one ⟦<ArchivedLists as Portable>⟧.shape) self }
        ensures { SealsPart no_definition (one ⟦<ArchivedLists as Portable>⟧.shape) no_definition
            ⟦<ArchivedVec<ArchivedOption<ArchivedSpot>> as ArchivePointee>⟧.pointee
            (self.entry.pos + 24) 0 self.entry result }
    {
        sealed_part_in_record::<ArchivedLists, ArchivedVec<ArchivedOption<ArchivedSpot>>>(
            self, 2, 24,
        )
    }
}

/// An archived `Empty`: 0 bytes at a multiple of 1.
pub struct ArchivedEmpty;

type EmptyParts = ();

type EmptyOwned = ();

impl ArchivePointee for ArchivedEmpty {
    type ArchivedMetadata = ();

    ghost pointee = { one (parts no_part) };

    ghost definitions = { no_definition };

    ghost metadata_length = { λ _. 0 };

    fn pointer_metadata(_metadata: &()) -> usize {
        0
    }
}

impl Portable for ArchivedEmpty {
    ghost shape = { parts no_part };

    ghost layout = { record { size = 0; align = 1 } };

    type Check = ArchivedEmpty;

    ghost is_one = { refl };

    ghost is_align = { inl refl };

    ghost has_layout = { record { solved = λ s k. refl } };

    ghost no_others = { no_definition_reached (parts no_part) };

    ghost checks = { λ _. plain_own_check _ _ _ _ _ refl refl refl refl };

    fn size() -> usize {
        0
    }

    fn align() -> usize {
        1
    }

    fn expr(alloc: Global) -> Result<archive_core::shape::Expr, Error> {
        expr_of_record::<EmptyParts>(alloc)
    }

    fn define(_alloc: Global, _defs: &mut Defs) -> Result<(), Error> {
        Ok(())
    }
}

impl SelfCheck for ArchivedEmpty {
    ghost shape = { parts no_part };

    ghost definitions = { no_definition };

    ghost span = { 0 };

    ghost direct = { true };

    ghost nameless = { true };

    fn is_direct() -> bool {
        true
    }

    fn is_nameless() -> bool {
        true
    }

    #[inline(always)]
    fn check_at<C: ArchiveContext>(
        bytes: &[u8],
        at: usize,
        refusal: &mut Error,
        context: &mut C,
    ) -> Option<()> {
        RecordCheck::<EmptyParts>::check_at(bytes, at, refusal, context)
    }
}

impl Record for ArchivedEmpty {
    type Parts = EmptyParts;

    ghost has_parts = { plain_record no_part no_definition refl };

    ghost holds = { lit≤ tt };
}

impl Archive for Empty {
    type Archived = ArchivedEmpty;

    type Resolver = ();

    ghost meaning = { λ v. product no_value };

    ghost flat = { λ v r. product no_value };

    ghost keys = { λ v. [] };

    ghost belongs = { λ v r. Unit {0} };

    ghost in_bulk = { None };

    ghost keyed = { λ v. record_keyed nothing_keyed };

    ghost planned = { λ v. plain_record_planned no_definition no_part _ _ no_part_planned refl };

    #[inline(always)]
    fn resolve(
        &self,
        resolver: Self::Resolver,
        place: Place<'_, Self::Archived>,
    ) -> Result<(), Error>
        requires zeroed { ZeroedPlace 0 place.pos place.bytes.now }
        requires same_value { ⟦<Self as Archive>⟧.belongs self.now resolver }
        ensures { ResolvesAs ⟦<Self::Archived as Portable>⟧ place
            (⟦<Self as Archive>⟧.flat self.now resolver) result }
    {
        let Place { bytes, pos, .. } = place;
        resolve_record_0::<ArchivedEmpty>(resolver, Place::new(pos, bytes))
    }

    #[inline(always)]
    fn copy_optimization() -> CopyOptimization<Self> {
        CopyOptimization::disable()
    }

    #[inline(always)]
    fn serialize_copied<S: Writer + Keys>(
        _values: &[Self],
        _together: usize,
        _serializer: &mut S,
    ) -> Result<Option<usize>, Error> {
        Ok(None)
    }
}

impl<S: Writer + ResolverAlloc> Serialize<S> for Empty {
    #[inline(always)]
    fn serialize(&self, serializer: &mut S) -> Result<Self::Resolver, Error> {
        serialize_record_0::<ArchivedEmpty, S>(serializer)
    }
}

/// As a region of its own: the value itself.
impl ArchiveUnsized for Empty {
    ghost use Rattle.derived_types.specs.contracts.kinds.EmptyArchive.TheImpl.Laws.{keyed-law as keyed_of_empty, planned-law as planned_of_empty};

    type Archived = ArchivedEmpty;

    ghost source_length = { λ _. 0 };

    ghost meaning = { ⟦<Empty as Archive>⟧.meaning };

    ghost keys = { ⟦<Empty as Archive>⟧.keys };

    ghost keyed = { keyed_of_empty };

    ghost one_length = { λ _ _. refl };

    ghost planned = { λ v. one_planned no_definition (parts no_part) (⟦<Empty as Archive>⟧.keys v)
        (⟦<Empty as Archive>⟧.meaning v) (planned_of_empty v) };

    #[inline(always)]
    fn archived_metadata(&self) -> Result<(), Error> {
        Ok(())
    }
}

impl<S: Writer + ResolverAlloc> SerializeUnsized<S> for Empty {
    #[inline(always)]
    fn serialize_unsized(&self, serializer: &mut S) -> Result<usize, Error> {
        serialize_one(self, serializer)
    }
}

impl<D: Entries> Deserialize<Empty, D> for ArchivedEmpty {
    #[inline(always)]
    fn deserialize_part(
        alloc: Global,
        part: RawView<'_>,
        deserializer: &mut D,
    ) -> Result<Empty, Error>
        requires { IsPartOf ⟦<Self as ArchivePointee>⟧ part }
        ensures { ReadsAs ⟦<Self as ArchivePointee>⟧ part D.Entries deserializer
            ⟦<Empty as Archive>⟧ result }
    {
        match deserialize_record::<Self, EmptyOwned, D>(alloc, part, deserializer) {
            Ok(()) => Ok(Empty),
            Err(error) => Err(error),
        }
    }
}
