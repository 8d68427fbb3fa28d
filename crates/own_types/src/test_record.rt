//! A record of three fields.

/// A number, a text, and perhaps a list of numbers.
#[derive(Debug, PartialEq, Drop)]
pub struct Test {
    /// The number.
    pub number: u8,
    /// The text.
    pub text: String,
    /// The list.
    pub list: Option<Vec<i32>>,
}

// Below this line all is written by tools/derive: change what is above it, and run it again.

ghost use Rattle.archive_core.specs.CallOutcomes.{ResolvesAs};
ghost use Rattle.archive_core.specs.Definitions.{both, no_definition};
ghost use Rattle.archive_core.specs.Fields.{field_in};
ghost use Rattle.archive_core.specs.Keyed.{each_keyed, nothing_keyed, number_keyed, part_keyed, record_keyed, text_keyed};
ghost use Rattle.archive_core.specs.LeafLayout.{no_definition_reached};
ghost use Rattle.archive_core.specs.Options.{option_keyed, option_planned};
ghost use Rattle.archive_core.specs.PartsPlanned.{no_part_planned, part_planned};
ghost use Rattle.archive_core.specs.Plain.{plain_own_check, plain_record, plain_record_planned};
ghost use Rattle.archive_core.specs.Planned.{leaf_planned, string_planned};
ghost use Rattle.archive_core.specs.PlannedOwners.{one_planned, slice_planned, vec_planned};
ghost use Rattle.archive_core.specs.ReadBack.{ReadsAs};
ghost use Rattle.archive_core.specs.SealOutcomes.{IsSealOf, SealsPart};
ghost use Rattle.archive_core.specs.Seen.{IsPartOf, ShowsValueOf};
ghost use Rattle.archive_core.specs.Shape.{no_part, one, part, parts};
ghost use Rattle.archive_core.specs.Value.{no_value, product, value};
ghost use Rattle.archive_core.specs.Writing.{ZeroedPlace};
ghost use Rattle.std.proofs.Common.{inl, inr, lit≤};
ghost use Rattle.std.specs.Prelude.{None, [], length, refl, string_bytes, true, ◌++◌, ◌+◌, ◌≡◌};

use archive_core::error::Error;
use archive_core::fields::{part_in_record, resolve_record_3, serialize_record_3};
use archive_core::option::ArchivedOption;
use archive_core::place::Place;
use archive_core::primitive::ArchivedI32;
use archive_core::record::deserialize_record;
use archive_core::seal::{Seal, sealed_part_in_record};
use archive_core::self_check::{RecordCheck, SelfCheck};
use archive_core::ser::{ResolverAlloc, Writer, serialize_one};
use archive_core::shape::Defs;
use archive_core::string::ArchivedString;
use archive_core::traits::{
    Archive, ArchivePointee, ArchiveUnsized, CopyOptimization, Deserialize, Entries, Keys,
    Portable, Record, Serialize, SerializeUnsized, expr_of_record,
};
use archive_core::validation::ArchiveContext;
use archive_core::vec::ArchivedVec;
use archive_core::view::{RawView, Ref};
use std::alloc::Global;

/// An archived `Test`: 24 bytes at a multiple of 4.
pub struct ArchivedTest;

type TestParts = (
    u8,
    (
        ArchivedString,
        (ArchivedOption<ArchivedVec<ArchivedI32>>, ()),
    ),
);

type TestOwned = (u8, (String, (Option<Vec<i32>>, ())));

impl ArchivePointee for ArchivedTest {
    type ArchivedMetadata = ();

    ghost pointee = { one (parts (part ⟦<u8 as Portable>⟧.shape
        (part ⟦<ArchivedString as Portable>⟧.shape (part
        ⟦<ArchivedOption<ArchivedVec<ArchivedI32>> as Portable>⟧.shape no_part)))) };

    ghost definitions = { no_definition };

    ghost metadata_length = { λ _. 0 };

    fn pointer_metadata(_metadata: &()) -> usize {
        0
    }
}

impl Portable for ArchivedTest {
    ghost shape = { parts (part ⟦<u8 as Portable>⟧.shape
        (part ⟦<ArchivedString as Portable>⟧.shape (part
        ⟦<ArchivedOption<ArchivedVec<ArchivedI32>> as Portable>⟧.shape no_part))) };

    ghost layout = { record { size = 24; align = 4 } };

    type Check = ArchivedTest;

    ghost is_one = { refl };

    ghost is_align = { inr (inr (inl refl)) };

    ghost has_layout = { record { solved = λ s k. refl } };

    ghost no_others = { no_definition_reached (parts (part ⟦<u8 as Portable>⟧.shape
        (part ⟦<ArchivedString as Portable>⟧.shape (part
        ⟦<ArchivedOption<ArchivedVec<ArchivedI32>> as Portable>⟧.shape no_part)))) };

    ghost checks = { λ _. plain_own_check _ _ _ _ _ refl refl refl refl };

    fn size() -> usize {
        24
    }

    fn align() -> usize {
        4
    }

    fn expr(alloc: Global) -> Result<archive_core::shape::Expr, Error> {
        expr_of_record::<TestParts>(alloc)
    }

    fn define(_alloc: Global, _defs: &mut Defs) -> Result<(), Error> {
        Ok(())
    }
}

impl SelfCheck for ArchivedTest {
    ghost shape = { parts (part ⟦<u8 as Portable>⟧.shape
        (part ⟦<ArchivedString as Portable>⟧.shape (part
        ⟦<ArchivedOption<ArchivedVec<ArchivedI32>> as Portable>⟧.shape no_part))) };

    ghost definitions = { (both no_definition (both no_definition
        (both no_definition no_definition))) };

    ghost span = { 24 };

    ghost direct = { true };

    ghost nameless = { true };

    fn is_direct() -> bool {
        true
    }

    fn is_nameless() -> bool {
        true
    }

    #[inline(always)]
    fn check_at<C: ArchiveContext>(
        bytes: &[u8],
        at: usize,
        refusal: &mut Error,
        context: &mut C,
    ) -> Option<()> {
        RecordCheck::<TestParts>::check_at(bytes, at, refusal, context)
    }
}

impl Record for ArchivedTest {
    type Parts = TestParts;

    ghost has_parts = { plain_record (part ⟦<u8 as Portable>⟧.shape
        (part ⟦<ArchivedString as Portable>⟧.shape (part
        ⟦<ArchivedOption<ArchivedVec<ArchivedI32>> as Portable>⟧.shape no_part)))
        (both no_definition (both no_definition (both no_definition no_definition))) refl };

    ghost holds = { lit≤ tt };
}

/// What is kept of `Test` between `serialize` and `resolve`.
#[derive(Drop)]
pub struct TestResolver {
    kept: (
        <u8 as Archive>::Resolver,
        (
            <String as Archive>::Resolver,
            (<Option<Vec<i32>> as Archive>::Resolver, ()),
        ),
    ),
}

impl Archive for Test {
    type Archived = ArchivedTest;

    type Resolver = TestResolver;

    ghost meaning = { λ v. product (value (⟦<u8 as Archive>⟧.meaning v.number)
        (value (⟦<String as Archive>⟧.meaning v.text) (value
        (⟦<Option<Vec<i32>> as Archive>⟧.meaning v.list) no_value))) };

    ghost flat = { λ v r. product (value (⟦<u8 as Archive>⟧.flat v.number r.kept.0)
        (value (⟦<String as Archive>⟧.flat v.text r.kept.1.0)
        (value (⟦<Option<Vec<i32>> as Archive>⟧.flat v.list r.kept.1.1.0) no_value))) };

    ghost keys = { λ v. ⟦<u8 as Archive>⟧.keys v.number
        ++ (⟦<String as Archive>⟧.keys v.text ++ (⟦<Option<Vec<i32>> as Archive>⟧.keys v.list
        ++ [])) };

    ghost belongs = { λ v r. ⟦<u8 as Archive>⟧.belongs v.number r.kept.0
        × (⟦<String as Archive>⟧.belongs v.text r.kept.1.0
        × (⟦<Option<Vec<i32>> as Archive>⟧.belongs v.list r.kept.1.1.0 × Unit {0})) };

    ghost in_bulk = { None };

    ghost keyed = { λ v. record_keyed (part_keyed (number_keyed _)
        (part_keyed (text_keyed (string_bytes v.text)) (part_keyed
        (option_keyed ⟦<Vec<i32> as Archive>⟧.keys ⟦<Vec<i32> as Archive>⟧.meaning
        (λ x. each_keyed ⟦<i32 as Archive>⟧.keys ⟦<i32 as Archive>⟧.meaning (λ x. number_keyed _)
        x.items) v.list) nothing_keyed))) };

    ghost planned = { λ v. plain_record_planned (both no_definition
        (both no_definition (both no_definition no_definition)))
        (part ⟦<u8 as Portable>⟧.shape (part ⟦<ArchivedString as Portable>⟧.shape
        (part ⟦<ArchivedOption<ArchivedVec<ArchivedI32>> as Portable>⟧.shape no_part))) _ _
        (part_planned no_definition ⟦<u8 as Portable>⟧.shape (⟦<u8 as Archive>⟧.keys v.number)
        (⟦<u8 as Archive>⟧.meaning v.number) (leaf_planned no_definition _ _ [] _ refl)
        (part_planned no_definition ⟦<ArchivedString as Portable>⟧.shape
        (⟦<String as Archive>⟧.keys v.text) (⟦<String as Archive>⟧.meaning v.text)
        (string_planned no_definition [] (string_bytes v.text))
        (part_planned no_definition ⟦<ArchivedOption<ArchivedVec<ArchivedI32>> as Portable>⟧.shape
        (⟦<Option<Vec<i32>> as Archive>⟧.keys v.list) (⟦<Option<Vec<i32>> as Archive>⟧.meaning
        v.list) (option_planned no_definition ⟦<ArchivedVec<ArchivedI32> as Portable>⟧.shape
        ⟦<Vec<i32> as Archive>⟧.keys ⟦<Vec<i32> as Archive>⟧.meaning
        (λ x. vec_planned no_definition ⟦<ArchivedI32 as Portable>⟧.shape _ _ _
        (slice_planned no_definition ⟦<ArchivedI32 as Portable>⟧.shape ⟦<i32 as Archive>⟧.keys
        ⟦<i32 as Archive>⟧.meaning (λ x. leaf_planned no_definition _ _ [] _ refl) x.items)) v.list)
        no_part_planned))) refl };

    #[inline(always)]
    fn resolve(
        &self,
        resolver: Self::Resolver,
        place: Place<'_, Self::Archived>,
    ) -> Result<(), Error>
        requires zeroed { ZeroedPlace 24 place.pos place.bytes.now }
        requires same_value { ⟦<Self as Archive>⟧.belongs self.now resolver }
        ensures { ResolvesAs ⟦<Self::Archived as Portable>⟧ place
            (⟦<Self as Archive>⟧.flat self.now resolver) result }
    {
        let Place { bytes, pos, .. } = place;
        let TestResolver { kept } = resolver;
        resolve_record_3::<u8, String, Option<Vec<i32>>, ArchivedTest>(
            &self.number,
            &self.text,
            &self.list,
            kept,
            Place::new(pos, bytes),
        )
    }

    #[inline(always)]
    fn copy_optimization() -> CopyOptimization<Self> {
        CopyOptimization::disable()
    }

    #[inline(always)]
    fn serialize_copied<S: Writer + Keys>(
        _values: &[Self],
        _together: usize,
        _serializer: &mut S,
    ) -> Result<Option<usize>, Error> {
        Ok(None)
    }
}

impl<S: Writer + ResolverAlloc> Serialize<S> for Test {
    #[inline(always)]
    fn serialize(&self, serializer: &mut S) -> Result<Self::Resolver, Error> {
        match serialize_record_3::<u8, String, Option<Vec<i32>>, ArchivedTest, S>(
            &self.number,
            &self.text,
            &self.list,
            serializer,
        ) {
            Ok(kept) => Ok(TestResolver { kept }),
            Err(error) => Err(error),
        }
    }
}

/// As a region of its own: the value itself.
impl ArchiveUnsized for Test {
    ghost use Rattle.own_types.specs.contracts.test_record.TestArchive.TheImpl.Laws.{keyed-law as keyed_of_test, planned-law as planned_of_test};

    type Archived = ArchivedTest;

    ghost source_length = { λ _. 0 };

    ghost meaning = { ⟦<Test as Archive>⟧.meaning };

    ghost keys = { ⟦<Test as Archive>⟧.keys };

    ghost keyed = { keyed_of_test };

    ghost one_length = { λ _ _. refl };

    ghost planned = { λ v. one_planned no_definition (parts
        (part ⟦<u8 as Portable>⟧.shape (part ⟦<ArchivedString as Portable>⟧.shape
        (part ⟦<ArchivedOption<ArchivedVec<ArchivedI32>> as Portable>⟧.shape no_part))))
        (⟦<Test as Archive>⟧.keys v) (⟦<Test as Archive>⟧.meaning v) (planned_of_test v) };

    #[inline(always)]
    fn archived_metadata(&self) -> Result<(), Error> {
        Ok(())
    }
}

impl<S: Writer + ResolverAlloc> SerializeUnsized<S> for Test {
    #[inline(always)]
    fn serialize_unsized(&self, serializer: &mut S) -> Result<usize, Error> {
        serialize_one(self, serializer)
    }
}

impl<D: Entries> Deserialize<Test, D> for ArchivedTest {
    #[inline(always)]
    fn deserialize_part(
        alloc: Global,
        part: RawView<'_>,
        deserializer: &mut D,
    ) -> Result<Test, Error>
        requires { IsPartOf ⟦<Self as ArchivePointee>⟧ part }
        ensures { ReadsAs ⟦<Self as ArchivePointee>⟧ part D.Entries deserializer ⟦<Test as Archive>⟧
            result }
    {
        match deserialize_record::<Self, TestOwned, D>(alloc, part, deserializer) {
            Ok((a0, (a1, (a2, ())))) => Ok(Test {
                number: a0,
                text: a1,
                list: a2,
            }),
            Err(error) => Err(error),
        }
    }
}

/// The fields of an archived `Test`, as views.
pub trait TestView<'a> {
    /// The number.
    fn number(self) -> Ref<'a, u8>;

    /// The text.
    fn text(self) -> Ref<'a, ArchivedString>;

    /// The list.
    fn list(self) -> Ref<'a, ArchivedOption<ArchivedVec<ArchivedI32>>>;
}

impl<'a> TestView<'a> for Ref<'a, ArchivedTest> {
    fn number(self) -> Ref<'a, u8>
        ensures buffer { result.bytes.now ≡ self.entry.bytes.now }
        ensures position { result.pos ≡ self.entry.pos + 0 }
        ensures length { result.len ≡ 0 }
        ensures shows { ShowsValueOf result self.entry (field_in 0) }
    {
        part_in_record::<ArchivedTest, u8>(self, 0, 0)
    }

    fn text(self) -> Ref<'a, ArchivedString>
        ensures buffer { result.bytes.now ≡ self.entry.bytes.now }
        ensures position { result.pos ≡ self.entry.pos + 4 }
        ensures length { result.len ≡ 0 }
        ensures shows { ShowsValueOf result self.entry (field_in 1) }
    {
        part_in_record::<ArchivedTest, ArchivedString>(self, 1, 4)
    }

    fn list(self) -> Ref<'a, ArchivedOption<ArchivedVec<ArchivedI32>>>
        ensures buffer { result.bytes.now ≡ self.entry.bytes.now }
        ensures position { result.pos ≡ self.entry.pos + 12 }
        ensures length { result.len ≡ 0 }
        ensures shows { ShowsValueOf result self.entry (field_in 2) }
    {
        part_in_record::<ArchivedTest, ArchivedOption<ArchivedVec<ArchivedI32>>>(self, 2, 12)
    }
}

/// The fields of an archived `Test`, as seals.
pub trait TestSeal<'a> {
    // The seal shows a part of a buffer that was checked.
    ghost sealed: { Self → Type 0 };

    /// The number.
    fn number_mut(self) -> Seal<'a, u8>
        requires { sealed self };

    /// The text.
    fn text_mut(self) -> Seal<'a, ArchivedString>
        requires { sealed self };

    /// The list.
    fn list_mut(self) -> Seal<'a, ArchivedOption<ArchivedVec<ArchivedI32>>>
        requires { sealed self };
}

impl<'a> TestSeal<'a> for Seal<'a, ArchivedTest> {
    ghost sealed = { λ s. IsSealOf no_definition (one ⟦<ArchivedTest as Portable>⟧.shape) s };

    fn number_mut(self) -> Seal<'a, u8>
        requires come_to { IsSealOf no_definition (one ⟦<ArchivedTest as Portable>⟧.shape) self }
        ensures { SealsPart no_definition (one ⟦<ArchivedTest as Portable>⟧.shape) no_definition
            ⟦<u8 as ArchivePointee>⟧.pointee (self.entry.pos + 0) 0 self.entry result }
    {
        sealed_part_in_record::<ArchivedTest, u8>(self, 0, 0)
    }

    fn text_mut(self) -> Seal<'a, ArchivedString>
        requires come_to { IsSealOf no_definition (one ⟦<ArchivedTest as Portable>⟧.shape) self }
        ensures { SealsPart no_definition (one ⟦<ArchivedTest as Portable>⟧.shape) no_definition
            ⟦<ArchivedString as ArchivePointee>⟧.pointee (self.entry.pos + 4) 0 self.entry result }
    {
        sealed_part_in_record::<ArchivedTest, ArchivedString>(self, 1, 4)
    }

    fn list_mut(self) -> Seal<'a, ArchivedOption<ArchivedVec<ArchivedI32>>>
        requires come_to { IsSealOf no_definition (one ⟦<ArchivedTest as Portable>⟧.shape) self }
        ensures { SealsPart no_definition (one ⟦<ArchivedTest as Portable>⟧.shape) no_definition
            ⟦<ArchivedOption<ArchivedVec<ArchivedI32>> as ArchivePointee>⟧.pointee
            (self.entry.pos + 12) 0 self.entry result }
    {
        sealed_part_in_record::<ArchivedTest, ArchivedOption<ArchivedVec<ArchivedI32>>>(self, 2, 12)
    }
}
