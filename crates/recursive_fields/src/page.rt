//! A struct that holds a recursive type, and enums that do.

use crate::json::{Json, Message};

/// A page of messages.
#[derive(Debug, PartialEq, Drop)]
pub struct Page {
    /// What it is on.
    pub subject: Json,
    /// What is posted on it.
    pub messages: Vec<Message>,
}

// Below this line all is written by tools/derive: change what is above it, and run it again.

ghost use Rattle.archive_core.specs.CallOutcomes.{ResolvesAs};
ghost use Rattle.archive_core.specs.Causes.{IsRefused};
ghost use Rattle.archive_core.specs.Fields.{field_in};
ghost use Rattle.archive_core.specs.PlannedOwners.{one_planned};
ghost use Rattle.archive_core.specs.Plans.{Serialized};
ghost use Rattle.archive_core.specs.ReadBack.{Read, ReadsAs};
ghost use Rattle.archive_core.specs.SealOutcomes.{IsSealOf, SealsPart};
ghost use Rattle.archive_core.specs.Seen.{IsPartOf, RefusesPart, ShowsValueOf};
ghost use Rattle.archive_core.specs.SelfCheck.Laws.{by_schema};
ghost use Rattle.archive_core.specs.Shape.{one, part};
ghost use Rattle.archive_core.specs.Value.{value};
ghost use Rattle.archive_core.specs.Writing.{ZeroedPlace};
ghost use Rattle.archive_core.specs.Written.{GoesOn};
ghost use Rattle.recursive_fields.specs.PageShape.{page_definitions, page_has_layout, page_has_parts, page_is_align, page_layout, page_no_others, page_shape};
ghost use Rattle.std.proofs.Common.{lit≤};
ghost use Rattle.std.specs.Prelude.{IfErr, IfOk, None, length, refl, ◌+◌, ◌≡◌, ◌≤◌};

use crate::json::{ArchivedJson, ArchivedMessage};
use archive_core::error::Error;
use archive_core::place::Place;
use archive_core::recursive::{
    part_of_record, read_part, resolve_named_record_2, seal_of_field, serialize_part, view_of_field,
};
use archive_core::seal::Seal;
use archive_core::self_check::BySchema;
use archive_core::ser::{ResolverAlloc, Writer, serialize_one};
use archive_core::shape::Defs;
use archive_core::traits::{
    Archive, ArchivePointee, ArchiveUnsized, CopyOptimization, Deserialize, Entries, Keys,
    Portable, PortableParts, Record, Serialize, SerializeUnsized, expr_of_record,
};
use archive_core::vec::ArchivedVec;
use archive_core::view::{RawView, Ref};
use std::alloc::Global;

/// An archived `Page`: 24 bytes at a multiple of 8. It is validated by its schema.
pub struct ArchivedPage;

type PageParts = (ArchivedJson, (ArchivedVec<ArchivedMessage>, ()));

impl ArchivePointee for ArchivedPage {
    type ArchivedMetadata = ();

    ghost pointee = { one page_shape };

    ghost definitions = { page_definitions };

    ghost metadata_length = { λ _. 0 };

    fn pointer_metadata(_metadata: &()) -> usize {
        0
    }
}

impl Portable for ArchivedPage {
    ghost shape = { page_shape };

    ghost layout = { page_layout };

    type Check = BySchema;

    ghost is_one = { refl };

    ghost is_align = { page_is_align };

    ghost has_layout = { page_has_layout };

    ghost no_others = { page_no_others };

    ghost checks = { λ direct. by_schema direct };

    fn size() -> usize {
        24
    }

    fn align() -> usize {
        8
    }

    fn expr(alloc: Global) -> Result<archive_core::shape::Expr, Error> {
        expr_of_record::<PageParts>(alloc)
    }

    fn define(alloc: Global, defs: &mut Defs) -> Result<(), Error> {
        <PageParts as PortableParts>::define(alloc, defs)
    }
}

impl Record for ArchivedPage {
    type Parts = PageParts;

    ghost has_parts = { page_has_parts };

    ghost holds = { lit≤ tt };
}

/// What is kept of `Page` between `serialize` and `resolve`.
#[derive(Drop)]
pub struct PageResolver {
    kept: (
        <Json as Archive>::Resolver,
        (<Vec<Message> as Archive>::Resolver, ()),
    ),
}

impl Archive for Page {
    ghost use Rattle.recursive_fields.specs.PageMeaning.{page_meaning, page_flat, page_keys, page_belongs, page_keyed, page_planned};

    type Archived = ArchivedPage;

    type Resolver = PageResolver;

    ghost meaning = { page_meaning };

    ghost flat = { page_flat };

    ghost keys = { page_keys };

    ghost belongs = { page_belongs };

    ghost in_bulk = { None };

    ghost keyed = { page_keyed };

    ghost planned = { page_planned };

    #[inline(always)]
    fn resolve(
        &self,
        resolver: Self::Resolver,
        place: Place<'_, Self::Archived>,
    ) -> Result<(), Error>
        requires zeroed { ZeroedPlace 24 place.pos place.bytes.now }
        requires same_value { ⟦<Self as Archive>⟧.belongs self.now resolver }
        ensures { ResolvesAs ⟦<Self::Archived as Portable>⟧ place
            (⟦<Self as Archive>⟧.flat self.now resolver) result }
    {
        let Place { bytes, pos, .. } = place;
        let PageResolver { kept } = resolver;
        resolve_named_record_2::<Json, Vec<Message>, ArchivedPage>(
            &self.subject,
            &self.messages,
            kept,
            Place::new(pos, bytes),
        )
    }

    #[inline(always)]
    fn copy_optimization() -> CopyOptimization<Self> {
        CopyOptimization::disable()
    }

    #[inline(always)]
    fn serialize_copied<S: Writer + Keys>(
        _values: &[Self],
        _together: usize,
        _serializer: &mut S,
    ) -> Result<Option<usize>, Error> {
        Ok(None)
    }
}

// Writes what a value owns, part by part.
fn serialize_page<S: Writer + Keys + ResolverAlloc>(
    value: &Page,
    serializer: &mut S,
) -> Result<PageResolver, Error>
    ensures serialized { IfOk result (λ r. Serialized page_definitions page_shape
        (⟦<Page as Archive>⟧.keys value.now) (⟦<Page as Archive>⟧.meaning value.now)
        (⟦<Page as Archive>⟧.flat value.now r) (S.state serializer.old) (S.state serializer.new)) }
    ensures same_value { IfOk result (λ r. ⟦<Page as Archive>⟧.belongs value.now r) }
    ensures goes_on { GoesOn (S.state serializer.old) (S.state serializer.new) }
    ensures refused { IfErr result (IsRefused page_definitions page_shape
        (⟦<Page as Archive>⟧.keys value.now) (⟦<Page as Archive>⟧.meaning value.now)
        (S.state serializer.old) (S.state serializer.new)) }
{
    let a0 = match serialize_part(&value.subject, serializer) {
        Ok(a0) => a0,
        Err(error) => return Err(error),
    };
    let a1 = match serialize_part(&value.messages, serializer) {
        Ok(a1) => a1,
        Err(error) => return Err(error),
    };
    Ok(PageResolver {
        kept: (a0, (a1, ())),
    })
}

impl<S: Writer + Keys + ResolverAlloc> Serialize<S> for Page {
    #[inline(always)]
    fn serialize(&self, serializer: &mut S) -> Result<Self::Resolver, Error> {
        serialize_page(self, serializer)
    }
}

/// As a region of its own: the value itself.
impl ArchiveUnsized for Page {
    ghost use Rattle.recursive_fields.specs.contracts.page.PageArchive.TheImpl.Laws.{keyed-law as keyed_of_page, planned-law as planned_of_page};

    type Archived = ArchivedPage;

    ghost source_length = { λ _. 0 };

    ghost meaning = { ⟦<Page as Archive>⟧.meaning };

    ghost keys = { ⟦<Page as Archive>⟧.keys };

    ghost keyed = { keyed_of_page };

    ghost one_length = { λ _ _. refl };

    ghost planned = { λ v. one_planned page_definitions page_shape (⟦<Page as Archive>⟧.keys v)
        (⟦<Page as Archive>⟧.meaning v) (planned_of_page v) };

    #[inline(always)]
    fn archived_metadata(&self) -> Result<(), Error> {
        Ok(())
    }
}

impl<S: Writer + Keys + ResolverAlloc> SerializeUnsized<S> for Page {
    #[inline(always)]
    fn serialize_unsized(&self, serializer: &mut S) -> Result<usize, Error> {
        serialize_one(self, serializer)
    }
}

// Reads a value back, part by part.
#[inline(always)]
fn read_page<D: Entries>(
    alloc: Global,
    part: RawView<'_>,
    deserializer: &mut D,
) -> Result<Page, Error>
    requires { IsPartOf ⟦<ArchivedPage as ArchivePointee>⟧ part }
    ensures read { IfOk result (Read ⟦<ArchivedPage as ArchivePointee>⟧ part D.Entries deserializer
        ⟦<Page as Archive>⟧) }
    ensures refused { IfErr result (RefusesPart ⟦<ArchivedPage as ArchivePointee>⟧ part D.Entries
        deserializer) }
{
    let p0 = part_of_record::<ArchivedPage, ArchivedJson>(part, 0, 0);
    let a0 = match read_part::<ArchivedJson, Json, D>(alloc, p0, deserializer) {
        Ok(a0) => a0,
        Err(error) => return Err(error),
    };
    let p1 = part_of_record::<ArchivedPage, ArchivedVec<ArchivedMessage>>(part, 1, 16);
    let a1 = match read_part::<ArchivedVec<ArchivedMessage>, Vec<Message>, D>(
        alloc,
        p1,
        deserializer,
    ) {
        Ok(a1) => a1,
        Err(error) => return Err(error),
    };
    Ok(Page {
        subject: a0,
        messages: a1,
    })
}

impl<D: Entries> Deserialize<Page, D> for ArchivedPage {
    #[inline(always)]
    fn deserialize_part(
        alloc: Global,
        part: RawView<'_>,
        deserializer: &mut D,
    ) -> Result<Page, Error>
        requires { IsPartOf ⟦<Self as ArchivePointee>⟧ part }
        ensures { ReadsAs ⟦<Self as ArchivePointee>⟧ part D.Entries deserializer ⟦<Page as Archive>⟧
            result }
    {
        read_page(alloc, part, deserializer)
    }
}

/// The fields of an archived `Page`, as views.
pub trait PageView<'a> {
    /// What it is on.
    fn subject(self) -> Ref<'a, ArchivedJson>;

    /// What is posted on it.
    fn messages(self) -> Ref<'a, ArchivedVec<ArchivedMessage>>;
}

impl<'a> PageView<'a> for Ref<'a, ArchivedPage> {
    fn subject(self) -> Ref<'a, ArchivedJson>
        ensures buffer { result.bytes.now ≡ self.entry.bytes.now }
        ensures position { result.pos ≡ self.entry.pos + 0 }
        ensures length { result.len ≡ 0 }
        ensures shows { ShowsValueOf result self.entry (field_in 0) }
    {
        view_of_field::<ArchivedPage, ArchivedJson>(self, 0, 0)
    }

    fn messages(self) -> Ref<'a, ArchivedVec<ArchivedMessage>>
        ensures buffer { result.bytes.now ≡ self.entry.bytes.now }
        ensures position { result.pos ≡ self.entry.pos + 16 }
        ensures length { result.len ≡ 0 }
        ensures shows { ShowsValueOf result self.entry (field_in 1) }
    {
        view_of_field::<ArchivedPage, ArchivedVec<ArchivedMessage>>(self, 1, 16)
    }
}

/// The fields of an archived `Page`, as seals.
pub trait PageSeal<'a> {
    // The seal shows a part of a buffer that was checked.
    ghost sealed: { Self → Type 0 };

    /// What it is on.
    fn subject_mut(self) -> Seal<'a, ArchivedJson>
        requires { sealed self };

    /// What is posted on it.
    fn messages_mut(self) -> Seal<'a, ArchivedVec<ArchivedMessage>>
        requires { sealed self };
}

impl<'a> PageSeal<'a> for Seal<'a, ArchivedPage> {
    ghost sealed = { λ s. IsSealOf page_definitions (one ⟦<ArchivedPage as Portable>⟧.shape) s };

    fn subject_mut(self) -> Seal<'a, ArchivedJson>
        requires come_to { IsSealOf page_definitions (one ⟦<ArchivedPage as Portable>⟧.shape) self }
        ensures { SealsPart page_definitions (one ⟦<ArchivedPage as Portable>⟧.shape)
            ⟦<ArchivedJson as ArchivePointee>⟧.definitions
            ⟦<ArchivedJson as ArchivePointee>⟧.pointee (self.entry.pos + 0) 0 self.entry result }
    {
        seal_of_field::<ArchivedPage, ArchivedJson>(self, 0, 0)
    }

    fn messages_mut(self) -> Seal<'a, ArchivedVec<ArchivedMessage>>
        requires come_to { IsSealOf page_definitions (one ⟦<ArchivedPage as Portable>⟧.shape) self }
        ensures { SealsPart page_definitions (one ⟦<ArchivedPage as Portable>⟧.shape)
            ⟦<ArchivedMessage as ArchivePointee>⟧.definitions
            ⟦<ArchivedVec<ArchivedMessage> as ArchivePointee>⟧.pointee (self.entry.pos + 16) 0
            self.entry result }
    {
        seal_of_field::<ArchivedPage, ArchivedVec<ArchivedMessage>>(self, 1, 16)
    }
}
