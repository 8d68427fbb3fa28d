//! A list with a payload.

/// A list of numbers.
#[derive(Debug, PartialEq)]
pub enum List {
    /// No more.
    Nil,
    /// A number, and the rest.
    Cons(u32, Box<List>),
}

// Below this line all is written by tools/derive: change what is above it, and run it again.

ghost use Rattle.archive_core.specs.CallOutcomes.{ResolvesAs};
ghost use Rattle.archive_core.specs.Causes.{HindersAt, IsRefused};
ghost use Rattle.archive_core.specs.Chains.{HeadIsRead, IsWrittenUpTo};
ghost use Rattle.archive_core.specs.Definitions.{both, no_definition};
ghost use Rattle.archive_core.specs.Expressed.{ExpressesParts, ExpressesVariants};
ghost use Rattle.archive_core.specs.Layout.{up};
ghost use Rattle.archive_core.specs.OwnChoices.{variant_definitions};
ghost use Rattle.archive_core.specs.Payloads.{payload_in};
ghost use Rattle.archive_core.specs.PlannedOwners.{one_planned};
ghost use Rattle.archive_core.specs.ReadBack.{Read, ReadsAs};
ghost use Rattle.archive_core.specs.SealOutcomes.{IsSealOf, SealsPart, seal_tag};
ghost use Rattle.archive_core.specs.Seen.{IsPartOf, RefusesPart, ShowsValueOf, part_tag, tag_of};
ghost use Rattle.archive_core.specs.Shape.{no_part, one, part, parts, variant, variant_at};
ghost use Rattle.archive_core.specs.Value.{case, no_value, value};
ghost use Rattle.archive_core.specs.Writing.{Resolves, ZeroedPlace};
ghost use Rattle.archive_core.specs.Written.{GoesOn};
ghost use Rattle.recursive_types.specs.ListMeaning.{list_around, list_keys_around};
ghost use Rattle.recursive_types.specs.ListShape.{list_chain_known, list_checked, list_cons_parts, list_definitions, list_has_layout, list_has_variants, list_is_align, list_layout, list_name, list_no_others, list_shape, list_variant_definitions, list_variants};
ghost use Rattle.std.proofs.Common.{lit≤};
ghost use Rattle.std.specs.Prelude.{IfErr, IfOk, None, OnOk, Some, [], false, length, refl, ℕ, ◌++◌, ◌+◌, ◌≡◌, ◌≤◌};

use archive_core::boxed::{ArchivedBox, BoxResolver};
use archive_core::error::Error;
use archive_core::fields::{resolve_0, resolve_2};
use archive_core::place::Place;
use archive_core::primitive::ArchivedU32;
use archive_core::recursive::{
    BoxAt, Chain, ChainBack, ChainCheck, ChainSource, ReadHead, Rest, WrittenHead,
    boxed_expression, define_choice, expression_of, first_expression, first_variant,
    named_expression, no_expressions, no_variants, part_of_variant, read_chain, read_part,
    seal_of_payload, serialize_chain, serialize_part, tag_of_choice, tag_of_view, view_of_payload,
};
use archive_core::seal::Seal;
use archive_core::self_check::SelfCheck;
use archive_core::ser::{ResolverAlloc, Writer, serialize_one};
use archive_core::shape::Defs;
use archive_core::traits::{
    Archive, ArchivePointee, ArchiveUnsized, Choice, CopyOptimization, Deserialize, Entries, Keys,
    Portable, Serialize, SerializeUnsized,
};
use archive_core::validation::ArchiveContext;
use archive_core::view::{RawView, Ref};
use std::alloc::{AllocError, Global};

/// An archived `List`: 12 bytes at a multiple of 4. It validates itself.
pub struct ArchivedList;

type ListConsParts = (ArchivedU32, (ArchivedBox<ArchivedList>, ()));

type ListVariants = ((), (ListConsParts, ()));

impl ArchivePointee for ArchivedList {
    type ArchivedMetadata = ();

    ghost pointee = { one list_shape };

    ghost definitions = { list_definitions };

    ghost metadata_length = { λ _. 0 };

    fn pointer_metadata(_metadata: &()) -> usize {
        0
    }
}

// The parts of `Cons`.
fn list_cons_expressions(alloc: Global) -> Result<Vec<archive_core::shape::Expr>, AllocError>
    ensures { ExpressesParts list_cons_parts result }
{
    let rest2 = no_expressions(alloc);
    let rest1 = first_expression(
        boxed_expression(alloc, named_expression("ArchivedList")),
        rest2,
    );
    first_expression(expression_of::<ArchivedU32>(alloc), rest1)
}

// Its variants.
fn list_expressions(alloc: Global) -> Result<Vec<Vec<archive_core::shape::Expr>>, AllocError>
    ensures { ExpressesVariants list_variants result }
{
    let rest2 = no_variants(alloc);
    let rest1 = first_variant(list_cons_expressions(alloc), rest2);
    first_variant(no_expressions(alloc), rest1)
}

impl Portable for ArchivedList {
    ghost shape = { list_shape };

    ghost layout = { list_layout };

    type Check = Self;

    ghost is_one = { refl };

    ghost is_align = { list_is_align };

    ghost has_layout = { list_has_layout };

    ghost no_others = { list_no_others };

    ghost checks = { λ _. list_checked };

    fn size() -> usize {
        12
    }

    fn align() -> usize {
        4
    }

    fn expr(_alloc: Global) -> Result<archive_core::shape::Expr, Error> {
        Ok(archive_core::shape::Expr::Named("ArchivedList"))
    }

    fn define(alloc: Global, defs: &mut Defs) -> Result<(), Error> {
        define_choice("ArchivedList", list_expressions(alloc), defs)
    }
}

impl Choice for ArchivedList {
    type Variants = ListVariants;

    ghost name = { list_name };

    ghost has_variants = { list_has_variants };

    ghost holds = { lit≤ tt };
}

/// What is kept of `List` between `serialize` and `resolve`.
#[derive(Drop)]
pub enum ListResolver {
    /// Of `Nil`.
    Nil,
    /// Of `Cons`.
    Cons((<u32 as Archive>::Resolver, (BoxResolver, ()))),
}

// Writes a variant of no field over zeros: its tag, and behind it the fields.
#[inline(always)]
fn resolve_list_0(tag: u8, resolvers: (), place: Place<'_, ArchivedList>) -> Result<(), Error>
    requires variant { variant_at list_variants tag ≡ Some no_part }
    requires definitions { variant_definitions list_variant_definitions tag ≡ no_definition }
    requires inside { Unit {0} → 1 ≤ 12 }
    requires zeroed { ZeroedPlace 12 place.pos place.bytes.now }
    requires same_values { Unit {0} }
    ensures resolved { OnOk result (Resolves list_definitions place.entry.pos place.exit.0.now
        list_shape (case tag no_value)) }
    ensures same_length { length place.exit.0.now ≡ length place.entry.bytes.now }
    ensures refused { IfErr result (HindersAt list_definitions list_shape (case tag no_value)
        place.entry.pos) }
{
    let Place { bytes, pos, .. } = place;
    bytes[0] = tag;
    resolve_0(resolvers, pos, 1, &mut bytes[1..])
}

// Writes a variant of 2 fields over zeros: its tag, and behind it the fields.
#[inline(always)]
fn resolve_list_2<A: Archive, B: Archive>(
    tag: u8,
    a: &A,
    b: &B,
    resolvers: (A::Resolver, (B::Resolver, ())),
    place: Place<'_, ArchivedList>,
) -> Result<(), Error>
    requires variant { variant_at list_variants tag ≡ Some
        (part A.Archived.shape (part B.Archived.shape no_part)) }
    requires definitions { variant_definitions list_variant_definitions tag
        ≡ (both A.Archived.definitions (both B.Archived.definitions no_definition)) }
    requires inside { Unit {0} → (up (up 1 A.Archived.layout.align + A.Archived.layout.size)
        B.Archived.layout.align + B.Archived.layout.size) ≤ 12 }
    requires zeroed { ZeroedPlace 12 place.pos place.bytes.now }
    requires same_values { (A.belongs a.now resolvers.0
        × (B.belongs b.now resolvers.1.0 × Unit {0})) }
    ensures resolved { OnOk result (Resolves list_definitions place.entry.pos place.exit.0.now
        list_shape (case tag (value (A.flat a.now resolvers.0)
        (value (B.flat b.now resolvers.1.0) no_value)))) }
    ensures same_length { length place.exit.0.now ≡ length place.entry.bytes.now }
    ensures refused { IfErr result (HindersAt list_definitions list_shape
        (case tag (value (A.flat a.now resolvers.0) (value (B.flat b.now resolvers.1.0) no_value)))
        place.entry.pos) }
{
    let Place { bytes, pos, .. } = place;
    bytes[0] = tag;
    resolve_2(a, b, resolvers, pos, 1, &mut bytes[1..])
}

impl Archive for List {
    ghost use Rattle.recursive_types.specs.ListMeaning.{list_meaning, list_flat, list_keys, list_belongs, list_keyed, list_planned};

    type Archived = ArchivedList;

    type Resolver = ListResolver;

    ghost meaning = { list_meaning };

    ghost flat = { list_flat };

    ghost keys = { list_keys };

    ghost belongs = { list_belongs };

    ghost in_bulk = { None };

    ghost keyed = { list_keyed };

    ghost planned = { list_planned };

    #[inline(always)]
    fn resolve(
        &self,
        resolver: Self::Resolver,
        place: Place<'_, Self::Archived>,
    ) -> Result<(), Error>
        requires zeroed { ZeroedPlace 12 place.pos place.bytes.now }
        requires same_value { ⟦<Self as Archive>⟧.belongs self.now resolver }
        ensures { ResolvesAs ⟦<Self::Archived as Portable>⟧ place
            (⟦<Self as Archive>⟧.flat self.now resolver) result }
    {
        let Place { bytes, pos, .. } = place;
        match self {
            List::Nil => { resolve_list_0(0, (), Place::new(pos, bytes)) }
            List::Cons(a0, _a1) => {
                let ListResolver::Cons(kept) = resolver else {
                    unreachable!();
                };
                let h1: BoxAt<ArchivedList> = BoxAt::new();
                resolve_list_2::<u32, BoxAt<ArchivedList>>(1, a0, &h1, kept, Place::new(pos, bytes))
            }
        }
    }

    #[inline(always)]
    fn copy_optimization() -> CopyOptimization<Self> {
        CopyOptimization::disable()
    }

    #[inline(always)]
    fn serialize_copied<S: Writer + Keys>(
        _values: &[Self],
        _together: usize,
        _serializer: &mut S,
    ) -> Result<Option<usize>, Error> {
        Ok(None)
    }
}

/// The check of an archived `List`.
pub struct ListChain;

impl Chain for ListChain {
    ghost name = { list_name };

    ghost layout = { list_layout };

    type Variants = ((), ((ArchivedU32, Rest), ()));

    ghost is_align = { list_is_align };

    ghost laid_out = { list_has_layout };

    ghost known = { list_chain_known };

    ghost holds = { lit≤ tt };

    ghost some = { lit≤ tt };

    fn name() -> &'static str {
        "ArchivedList"
    }

    fn size() -> usize {
        12
    }

    fn align() -> usize {
        4
    }
}

impl SelfCheck for ArchivedList {
    ghost shape = { list_shape };

    ghost definitions = { list_definitions };

    ghost span = { 12 };

    ghost direct = { ⟦<ChainCheck<ListChain> as SelfCheck>⟧.direct };

    ghost nameless = { false };

    fn is_direct() -> bool {
        <ChainCheck<ListChain> as SelfCheck>::is_direct()
    }

    fn is_nameless() -> bool {
        false
    }

    #[inline(always)]
    fn check_at<C: ArchiveContext>(
        bytes: &[u8],
        at: usize,
        refusal: &mut Error,
        context: &mut C,
    ) -> Option<()> {
        <ChainCheck<ListChain> as SelfCheck>::check_at(bytes, at, refusal, context)
    }
}

/// By a loop, so that a long list takes no machine stack.
impl Drop for List {
    fn drop(mut self) {
        loop {
            match self {
                List::Nil => return,
                List::Cons(_, rest) => self = Box::into_inner(rest),
            }
        }
    }
}

/// What is kept of a `List` until what its box holds is written.
#[derive(Drop)]
pub enum ListKept {
    /// Of `Cons`.
    Cons((<u32 as Archive>::Resolver, ())),
}

// Writes what the parts of `Cons` before its box own, in order.
#[inline(always)]
fn serialize_list_cons<S: Writer + Keys + ResolverAlloc>(
    a0: &u32,
    a1: &Box<List>,
    serializer: &mut S,
) -> Result<(<u32 as Archive>::Resolver, ()), Error>
    ensures written { IfOk result (λ r. IsWrittenUpTo list_definitions list_shape
        (⟦<u32 as Archive>⟧.keys a0.now ++ (⟦<Box<List> as Archive>⟧.keys a1.now ++ []))
        (case 1 (value (⟦<u32 as Archive>⟧.meaning a0.now)
        (value (⟦<Box<List> as Archive>⟧.meaning a1.now) no_value)))
        (λ t. case 1 (value (⟦<u32 as Archive>⟧.flat a0.now r.0)
        (value (⟦<Box<List> as Archive>⟧.flat a1.now t) no_value)))
        (λ t. ⟦<u32 as Archive>⟧.belongs a0.now r.0 × (⟦<Box<List> as Archive>⟧.belongs a1.now t
        × Unit {0})) (⟦<List as Archive>⟧.keys a1.now.value)
        (⟦<List as Archive>⟧.meaning a1.now.value) (S.state serializer.old)
        (S.state serializer.new)) }
    ensures goes_on { GoesOn (S.state serializer.old) (S.state serializer.new) }
    ensures refused { IfErr result (IsRefused list_definitions list_shape
        (⟦<u32 as Archive>⟧.keys a0.now ++ (⟦<Box<List> as Archive>⟧.keys a1.now ++ []))
        (case 1 (value (⟦<u32 as Archive>⟧.meaning a0.now)
        (value (⟦<Box<List> as Archive>⟧.meaning a1.now) no_value))) (S.state serializer.old)
        (S.state serializer.new)) }
{
    let _rest = a1;
    let a0 = match serialize_part(a0, serializer) {
        Ok(a0) => a0,
        Err(error) => return Err(error),
    };
    Ok((a0, ()))
}

impl<S: Writer + Keys + ResolverAlloc> ChainSource<S> for List {
    ghost use Rattle.recursive_types.specs.ListMeaning.{list_rest, list_closed};

    type Kept = ListKept;

    ghost rest = { list_rest };

    ghost closed = { list_closed };

    #[inline(always)]
    fn rest(&self) -> Option<&Self> {
        match self {
            List::Nil => None,
            List::Cons(_a0, a1) => Some(&**a1),
        }
    }

    #[inline(always)]
    fn serialize_head(
        &self,
        serializer: &mut S,
    ) -> Result<WrittenHead<Self::Resolver, Self::Kept>, Error> {
        match self {
            List::Nil => Ok(WrittenHead::Whole(ListResolver::Nil)),
            List::Cons(a0, a1) => match serialize_list_cons(a0, a1, serializer) {
                Ok(kept) => Ok(WrittenHead::Open(ListKept::Cons(kept))),
                Err(error) => Err(error),
            },
        }
    }

    #[inline(always)]
    fn close(kept: Self::Kept, at: BoxResolver) -> Self::Resolver {
        match kept {
            ListKept::Cons((r0, ())) => ListResolver::Cons((r0, (at, ()))),
        }
    }
}

impl<S: Writer + Keys + ResolverAlloc> Serialize<S> for List {
    #[inline(always)]
    fn serialize(&self, serializer: &mut S) -> Result<Self::Resolver, Error> {
        serialize_chain(self, serializer)
    }
}

/// As a region of its own: the value itself.
impl ArchiveUnsized for List {
    ghost use Rattle.recursive_types.specs.contracts.list.ListArchive.TheImpl.Laws.{keyed-law as keyed_of_list, planned-law as planned_of_list};

    type Archived = ArchivedList;

    ghost source_length = { λ _. 0 };

    ghost meaning = { ⟦<List as Archive>⟧.meaning };

    ghost keys = { ⟦<List as Archive>⟧.keys };

    ghost keyed = { keyed_of_list };

    ghost one_length = { λ _ _. refl };

    ghost planned = { λ v. one_planned list_definitions list_shape (⟦<List as Archive>⟧.keys v)
        (⟦<List as Archive>⟧.meaning v) (planned_of_list v) };

    #[inline(always)]
    fn archived_metadata(&self) -> Result<(), Error> {
        Ok(())
    }
}

impl<S: Writer + Keys + ResolverAlloc> SerializeUnsized<S> for List {
    #[inline(always)]
    fn serialize_unsized(&self, serializer: &mut S) -> Result<usize, Error> {
        serialize_one(self, serializer)
    }
}

/// What comes before the box of a `List`.
#[derive(Drop)]
pub enum ListFront {
    /// Of `Cons`.
    Cons(u32),
}

// Reads `Nil` back.
#[inline(always)]
fn read_list_nil<D: Entries>(
    _alloc: Global,
    part: RawView<'_>,
    _deserializer: &mut D,
) -> Result<List, Error>
    requires viewed { IsPartOf ⟦<ArchivedList as ArchivePointee>⟧ part }
    requires tag { part_tag part ≡ 0 }
    ensures read { IfOk result (Read ⟦<ArchivedList as ArchivePointee>⟧ part D.Entries _deserializer
        ⟦<List as Archive>⟧) }
    ensures refused { IfErr result (RefusesPart ⟦<ArchivedList as ArchivePointee>⟧ part D.Entries
        _deserializer) }
{
    Ok(List::Nil)
}

// Reads the parts of `Cons` before its box back.
#[inline(always)]
fn read_list_cons<D: Entries>(
    alloc: Global,
    part: RawView<'_>,
    deserializer: &mut D,
) -> Result<ReadHead<List, ListFront>, Error>
    requires viewed { IsPartOf ⟦<ArchivedList as ArchivePointee>⟧ part }
    requires tag { part_tag part ≡ 1 }
    ensures read { IfOk result (HeadIsRead ⟦<ArchivedList as Portable>⟧ part D.Entries deserializer
        ⟦<List as Archive>⟧ list_around list_keys_around) }
    ensures refused { IfErr result (RefusesPart ⟦<ArchivedList as ArchivePointee>⟧ part D.Entries
        deserializer) }
{
    let p0 = part_of_variant::<ArchivedList, ArchivedU32>(part, 1, 0, 4);
    let a0 = match read_part::<ArchivedU32, u32, D>(alloc, p0, deserializer) {
        Ok(a0) => a0,
        Err(error) => return Err(error),
    };
    let p1 = part_of_variant::<ArchivedList, ArchivedBox<ArchivedList>>(part, 1, 1, 8);
    Ok(ReadHead::Open(ListFront::Cons(a0), p1.pos))
}

impl<D: Entries> ChainBack<ArchivedList, D> for List {
    type Front = ListFront;

    ghost around = { list_around };

    ghost keys_around = { list_keys_around };

    #[inline(always)]
    fn read_head(
        alloc: Global,
        part: RawView<'_>,
        deserializer: &mut D,
    ) -> Result<ReadHead<Self, Self::Front>, Error>
        requires { IsPartOf ⟦<ArchivedList as ArchivePointee>⟧ part }
        ensures read { IfOk result (HeadIsRead ⟦<ArchivedList as Portable>⟧ part D.Entries
            deserializer ⟦<List as Archive>⟧ list_around list_keys_around) }
        ensures refused { IfErr result (RefusesPart ⟦<ArchivedList as ArchivePointee>⟧ part
            D.Entries deserializer) }
    {
        match tag_of_choice::<ArchivedList>(part) {
            0 => match read_list_nil(alloc, part, deserializer) {
                Ok(value) => Ok(ReadHead::Whole(value)),
                Err(error) => Err(error),
            },
            _ => read_list_cons(alloc, part, deserializer),
        }
    }

    #[inline(always)]
    fn around(front: Self::Front, rest: Box<Self>) -> Self
        ensures meaning { ⟦<Self as Archive>⟧.meaning result
            ≡ list_around front (⟦<Self as Archive>⟧.meaning rest.value) }
        ensures keys { ⟦<Self as Archive>⟧.keys result ≡ list_keys_around front
            (⟦<Self as Archive>⟧.keys rest.value) }
    {
        match front {
            ListFront::Cons(a0) => List::Cons(a0, rest),
        }
    }
}

impl<D: Entries> Deserialize<List, D> for ArchivedList {
    #[inline(always)]
    fn deserialize_part(
        alloc: Global,
        part: RawView<'_>,
        deserializer: &mut D,
    ) -> Result<List, Error>
        requires { IsPartOf ⟦<Self as ArchivePointee>⟧ part }
        ensures { ReadsAs ⟦<Self as ArchivePointee>⟧ part D.Entries deserializer ⟦<List as Archive>⟧
            result }
    {
        read_chain::<ArchivedList, List, D>(alloc, part, deserializer)
    }
}

/// What a view of an archived `List` shows, by its tag.
#[derive(Drop)]
pub enum ViewOfList<'a> {
    /// No more.
    Nil,
    /// A number, and the rest.
    Cons(Ref<'a, ArchivedU32>, Ref<'a, ArchivedBox<ArchivedList>>),
}

/// The variant of an archived `List`, as a view.
pub trait ListView<'a> {
    /// The variant that the tag names, with views of its fields.
    fn variant(self) -> ViewOfList<'a>;
}

impl<'a> ListView<'a> for Ref<'a, ArchivedList> {
    ghost use Rattle.recursive_types.specs.declared.list.ViewOfList.TheVariants.{Cons as ListConsShown, Nil as ListNilShown};

    fn variant(self) -> ViewOfList<'a>
        ensures shows { elim result [
          | ListNilShown ↦ (tag_of self.entry ≡ 0)
          | ListConsShown a0 a1 ↦ (tag_of self.entry ≡ 1) × (a0.bytes.now ≡ self.entry.bytes.now)
              × (a0.pos ≡ self.entry.pos + 4) × (a0.len ≡ 0)
              × ShowsValueOf a0 self.entry (payload_in 0) × (a1.bytes.now ≡ self.entry.bytes.now)
              × (a1.pos ≡ self.entry.pos + 8) × (a1.len ≡ 0)
              × ShowsValueOf a1 self.entry (payload_in 1)
        ] }
    {
        match tag_of_view(self) {
            0 => ViewOfList::Nil,
            _ => {
                let a0 = view_of_payload::<ArchivedList, ArchivedU32>(self, 1, 0, 4);
                let a1 = view_of_payload::<ArchivedList, ArchivedBox<ArchivedList>>(self, 1, 1, 8);
                ViewOfList::Cons(a0, a1)
            }
        }
    }
}

/// The fields of an archived `List`, as seals. The caller must ensure that the tag is the variant's.
pub trait ListSeal<'a> {
    // The seal shows a part of a buffer that was checked.
    ghost sealed: { Self → Type 0 };

    // The tag that it shows.
    ghost tag: { Self → ℕ };

    /// The field `0` of `Cons`.
    fn cons_0_mut(self) -> Seal<'a, ArchivedU32>
        requires come_to { sealed self }
        requires tag { tag self ≡ 1 };

    /// The field `1` of `Cons`.
    fn cons_1_mut(self) -> Seal<'a, ArchivedBox<ArchivedList>>
        requires come_to { sealed self }
        requires tag { tag self ≡ 1 };
}

impl<'a> ListSeal<'a> for Seal<'a, ArchivedList> {
    ghost sealed = { λ s. IsSealOf list_definitions (one ⟦<ArchivedList as Portable>⟧.shape) s };

    ghost tag = { λ s. seal_tag s };

    fn cons_0_mut(self) -> Seal<'a, ArchivedU32>
        requires come_to { IsSealOf list_definitions (one ⟦<ArchivedList as Portable>⟧.shape) self }
        requires tag { seal_tag self ≡ 1 }
        ensures { SealsPart list_definitions (one ⟦<ArchivedList as Portable>⟧.shape) no_definition
            ⟦<ArchivedU32 as ArchivePointee>⟧.pointee (self.entry.pos + 4) 0 self.entry result }
    {
        seal_of_payload::<ArchivedList, ArchivedU32>(self, 1, 0, 4)
    }

    fn cons_1_mut(self) -> Seal<'a, ArchivedBox<ArchivedList>>
        requires come_to { IsSealOf list_definitions (one ⟦<ArchivedList as Portable>⟧.shape) self }
        requires tag { seal_tag self ≡ 1 }
        ensures { SealsPart list_definitions (one ⟦<ArchivedList as Portable>⟧.shape)
            ⟦<ArchivedList as ArchivePointee>⟧.definitions
            ⟦<ArchivedBox<ArchivedList> as ArchivePointee>⟧.pointee (self.entry.pos + 8) 0
            self.entry result }
    {
        seal_of_payload::<ArchivedList, ArchivedBox<ArchivedList>>(self, 1, 1, 8)
    }
}
