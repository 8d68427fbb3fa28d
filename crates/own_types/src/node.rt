//! A list of boxes in boxes.

use archive_core::error::Error;
use std::alloc::Global;

/// Nothing, or a box of the rest.
pub enum Node {
    /// No box.
    Nil,
    /// A box of the rest.
    Cons(Box<Node>),
}

/// As many boxes as `count`, one in another. Fails with `OutOfMemory` if memory from `alloc` is refused.
pub fn node_of(alloc: Global, count: usize) -> Result<Node, Error> {
    let mut node = Node::Nil;
    for _ in 0..count {
        node = Node::Cons(Box::new(alloc, node)?);
    }
    Ok(node)
}

/// How many boxes there are, at most `most`.
pub fn boxes(node: &Node, most: usize) -> usize {
    let mut node = node;
    for count in 0..most {
        match node {
            Node::Nil => return count,
            Node::Cons(rest) => node = &**rest,
        }
    }
    most
}

// Below this line all is written by tools/derive: change what is above it, and run it again.

ghost use Rattle.archive_core.specs.CallOutcomes.{ResolvesAs};
ghost use Rattle.archive_core.specs.Causes.{HindersAt};
ghost use Rattle.archive_core.specs.Chains.{HeadIsRead};
ghost use Rattle.archive_core.specs.Definitions.{both, no_definition};
ghost use Rattle.archive_core.specs.Expressed.{ExpressesParts, ExpressesVariants};
ghost use Rattle.archive_core.specs.Layout.{up};
ghost use Rattle.archive_core.specs.OwnChoices.{variant_definitions};
ghost use Rattle.archive_core.specs.Payloads.{payload_in};
ghost use Rattle.archive_core.specs.PlannedOwners.{one_planned};
ghost use Rattle.archive_core.specs.ReadBack.{Read, ReadsAs};
ghost use Rattle.archive_core.specs.SealOutcomes.{IsSealOf, SealsPart, seal_tag};
ghost use Rattle.archive_core.specs.Seen.{IsPartOf, RefusesPart, ShowsValueOf, part_tag, tag_of};
ghost use Rattle.archive_core.specs.Shape.{no_part, one, part, parts, variant, variant_at};
ghost use Rattle.archive_core.specs.Value.{case, no_value, value};
ghost use Rattle.archive_core.specs.Writing.{Resolves, ZeroedPlace};
ghost use Rattle.own_types.specs.NodeMeaning.{node_around, node_keys_around};
ghost use Rattle.own_types.specs.NodeShape.{node_chain_known, node_checked, node_cons_parts, node_definitions, node_has_layout, node_has_variants, node_is_align, node_layout, node_name, node_no_others, node_shape, node_variant_definitions, node_variants};
ghost use Rattle.std.proofs.Common.{lit≤};
ghost use Rattle.std.specs.Prelude.{IfErr, IfOk, None, OnOk, Some, false, length, refl, ℕ, ◌+◌, ◌≡◌, ◌≤◌};

use archive_core::boxed::{ArchivedBox, BoxResolver};
use archive_core::fields::{resolve_0, resolve_1};
use archive_core::place::Place;
use archive_core::recursive::{
    BoxAt, Chain, ChainBack, ChainCheck, ChainSource, ReadHead, Rest, WrittenHead,
    boxed_expression, define_choice, first_expression, first_variant, named_expression,
    no_expressions, no_variants, part_of_variant, read_chain, seal_of_payload, serialize_chain,
    tag_of_choice, tag_of_view, view_of_payload,
};
use archive_core::seal::Seal;
use archive_core::self_check::SelfCheck;
use archive_core::ser::{ResolverAlloc, Writer, serialize_one};
use archive_core::shape::Defs;
use archive_core::traits::{
    Archive, ArchivePointee, ArchiveUnsized, Choice, CopyOptimization, Deserialize, Entries, Keys,
    Portable, Serialize, SerializeUnsized,
};
use archive_core::validation::ArchiveContext;
use archive_core::view::{RawView, Ref};
use std::alloc::AllocError;

/// An archived `Node`: 8 bytes at a multiple of 4. It validates itself.
pub struct ArchivedNode;

type NodeConsParts = (ArchivedBox<ArchivedNode>, ());

type NodeVariants = ((), (NodeConsParts, ()));

impl ArchivePointee for ArchivedNode {
    type ArchivedMetadata = ();

    ghost pointee = { one node_shape };

    ghost definitions = { node_definitions };

    ghost metadata_length = { λ _. 0 };

    fn pointer_metadata(_metadata: &()) -> usize {
        0
    }
}

// The parts of `Cons`.
fn node_cons_expressions(alloc: Global) -> Result<Vec<archive_core::shape::Expr>, AllocError>
    ensures { ExpressesParts node_cons_parts result }
{
    let rest1 = no_expressions(alloc);
    first_expression(
        boxed_expression(alloc, named_expression("ArchivedNode")),
        rest1,
    )
}

// Its variants.
fn node_expressions(alloc: Global) -> Result<Vec<Vec<archive_core::shape::Expr>>, AllocError>
    ensures { ExpressesVariants node_variants result }
{
    let rest2 = no_variants(alloc);
    let rest1 = first_variant(node_cons_expressions(alloc), rest2);
    first_variant(no_expressions(alloc), rest1)
}

impl Portable for ArchivedNode {
    ghost shape = { node_shape };

    ghost layout = { node_layout };

    type Check = Self;

    ghost is_one = { refl };

    ghost is_align = { node_is_align };

    ghost has_layout = { node_has_layout };

    ghost no_others = { node_no_others };

    ghost checks = { λ _. node_checked };

    fn size() -> usize {
        8
    }

    fn align() -> usize {
        4
    }

    fn expr(_alloc: Global) -> Result<archive_core::shape::Expr, Error> {
        Ok(archive_core::shape::Expr::Named("ArchivedNode"))
    }

    fn define(alloc: Global, defs: &mut Defs) -> Result<(), Error> {
        define_choice("ArchivedNode", node_expressions(alloc), defs)
    }
}

impl Choice for ArchivedNode {
    type Variants = NodeVariants;

    ghost name = { node_name };

    ghost has_variants = { node_has_variants };

    ghost holds = { lit≤ tt };
}

/// What is kept of `Node` between `serialize` and `resolve`.
#[derive(Drop)]
pub enum NodeResolver {
    /// Of `Nil`.
    Nil,
    /// Of `Cons`.
    Cons((BoxResolver, ())),
}

// Writes a variant of no field over zeros: its tag, and behind it the fields.
#[inline(always)]
fn resolve_node_0(tag: u8, resolvers: (), place: Place<'_, ArchivedNode>) -> Result<(), Error>
    requires variant { variant_at node_variants tag ≡ Some no_part }
    requires definitions { variant_definitions node_variant_definitions tag ≡ no_definition }
    requires inside { Unit {0} → 1 ≤ 8 }
    requires zeroed { ZeroedPlace 8 place.pos place.bytes.now }
    requires same_values { Unit {0} }
    ensures resolved { OnOk result (Resolves node_definitions place.entry.pos place.exit.0.now
        node_shape (case tag no_value)) }
    ensures same_length { length place.exit.0.now ≡ length place.entry.bytes.now }
    ensures refused { IfErr result (HindersAt node_definitions node_shape (case tag no_value)
        place.entry.pos) }
{
    let Place { bytes, pos, .. } = place;
    bytes[0] = tag;
    resolve_0(resolvers, pos, 1, &mut bytes[1..])
}

// Writes a variant of a field over zeros: its tag, and behind it the fields.
#[inline(always)]
fn resolve_node_1<A: Archive>(
    tag: u8,
    a: &A,
    resolvers: (A::Resolver, ()),
    place: Place<'_, ArchivedNode>,
) -> Result<(), Error>
    requires variant { variant_at node_variants tag ≡ Some (part A.Archived.shape no_part) }
    requires definitions { variant_definitions node_variant_definitions tag
        ≡ (both A.Archived.definitions no_definition) }
    requires inside { Unit {0} → (up 1 A.Archived.layout.align + A.Archived.layout.size) ≤ 8 }
    requires zeroed { ZeroedPlace 8 place.pos place.bytes.now }
    requires same_values { (A.belongs a.now resolvers.0 × Unit {0}) }
    ensures resolved { OnOk result (Resolves node_definitions place.entry.pos place.exit.0.now
        node_shape (case tag (value (A.flat a.now resolvers.0) no_value))) }
    ensures same_length { length place.exit.0.now ≡ length place.entry.bytes.now }
    ensures refused { IfErr result (HindersAt node_definitions node_shape
        (case tag (value (A.flat a.now resolvers.0) no_value)) place.entry.pos) }
{
    let Place { bytes, pos, .. } = place;
    bytes[0] = tag;
    resolve_1(a, resolvers, pos, 1, &mut bytes[1..])
}

impl Archive for Node {
    ghost use Rattle.own_types.specs.NodeMeaning.{node_meaning, node_flat, node_keys, node_belongs, node_keyed, node_planned};

    type Archived = ArchivedNode;

    type Resolver = NodeResolver;

    ghost meaning = { node_meaning };

    ghost flat = { node_flat };

    ghost keys = { node_keys };

    ghost belongs = { node_belongs };

    ghost in_bulk = { None };

    ghost keyed = { node_keyed };

    ghost planned = { node_planned };

    #[inline(always)]
    fn resolve(
        &self,
        resolver: Self::Resolver,
        place: Place<'_, Self::Archived>,
    ) -> Result<(), Error>
        requires zeroed { ZeroedPlace 8 place.pos place.bytes.now }
        requires same_value { ⟦<Self as Archive>⟧.belongs self.now resolver }
        ensures { ResolvesAs ⟦<Self::Archived as Portable>⟧ place
            (⟦<Self as Archive>⟧.flat self.now resolver) result }
    {
        let Place { bytes, pos, .. } = place;
        match self {
            Node::Nil => { resolve_node_0(0, (), Place::new(pos, bytes)) }
            Node::Cons(_a0) => {
                let NodeResolver::Cons(kept) = resolver else {
                    unreachable!();
                };
                let h0: BoxAt<ArchivedNode> = BoxAt::new();
                resolve_node_1::<BoxAt<ArchivedNode>>(1, &h0, kept, Place::new(pos, bytes))
            }
        }
    }

    #[inline(always)]
    fn copy_optimization() -> CopyOptimization<Self> {
        CopyOptimization::disable()
    }

    #[inline(always)]
    fn serialize_copied<S: Writer + Keys>(
        _values: &[Self],
        _together: usize,
        _serializer: &mut S,
    ) -> Result<Option<usize>, Error> {
        Ok(None)
    }
}

/// The check of an archived `Node`.
pub struct NodeChain;

impl Chain for NodeChain {
    ghost name = { node_name };

    ghost layout = { node_layout };

    type Variants = ((), (Rest, ()));

    ghost is_align = { node_is_align };

    ghost laid_out = { node_has_layout };

    ghost known = { node_chain_known };

    ghost holds = { lit≤ tt };

    ghost some = { lit≤ tt };

    fn name() -> &'static str {
        "ArchivedNode"
    }

    fn size() -> usize {
        8
    }

    fn align() -> usize {
        4
    }
}

impl SelfCheck for ArchivedNode {
    ghost shape = { node_shape };

    ghost definitions = { node_definitions };

    ghost span = { 8 };

    ghost direct = { ⟦<ChainCheck<NodeChain> as SelfCheck>⟧.direct };

    ghost nameless = { false };

    fn is_direct() -> bool {
        <ChainCheck<NodeChain> as SelfCheck>::is_direct()
    }

    fn is_nameless() -> bool {
        false
    }

    #[inline(always)]
    fn check_at<C: ArchiveContext>(
        bytes: &[u8],
        at: usize,
        refusal: &mut Error,
        context: &mut C,
    ) -> Option<()> {
        <ChainCheck<NodeChain> as SelfCheck>::check_at(bytes, at, refusal, context)
    }
}

/// By a loop, so that a long list takes no machine stack.
impl Drop for Node {
    fn drop(mut self) {
        loop {
            match self {
                Node::Nil => return,
                Node::Cons(rest) => self = Box::into_inner(rest),
            }
        }
    }
}

/// What is kept of a `Node` until what its box holds is written.
#[derive(Drop)]
pub enum NodeKept {
    /// Of `Cons`.
    Cons,
}

impl<S: Writer + Keys + ResolverAlloc> ChainSource<S> for Node {
    ghost use Rattle.own_types.specs.NodeMeaning.{node_rest, node_closed};

    type Kept = NodeKept;

    ghost rest = { node_rest };

    ghost closed = { node_closed };

    #[inline(always)]
    fn rest(&self) -> Option<&Self> {
        match self {
            Node::Nil => None,
            Node::Cons(a0) => Some(&**a0),
        }
    }

    #[inline(always)]
    fn serialize_head(
        &self,
        serializer: &mut S,
    ) -> Result<WrittenHead<Self::Resolver, Self::Kept>, Error> {
        match self {
            Node::Nil => Ok(WrittenHead::Whole(NodeResolver::Nil)),
            Node::Cons(_a0) => Ok(WrittenHead::Open(NodeKept::Cons)),
        }
    }

    #[inline(always)]
    fn close(kept: Self::Kept, at: BoxResolver) -> Self::Resolver {
        match kept {
            NodeKept::Cons => NodeResolver::Cons((at, ())),
        }
    }
}

impl<S: Writer + Keys + ResolverAlloc> Serialize<S> for Node {
    #[inline(always)]
    fn serialize(&self, serializer: &mut S) -> Result<Self::Resolver, Error> {
        serialize_chain(self, serializer)
    }
}

/// As a region of its own: the value itself.
impl ArchiveUnsized for Node {
    ghost use Rattle.own_types.specs.contracts.node.NodeArchive.TheImpl.Laws.{keyed-law as keyed_of_node, planned-law as planned_of_node};

    type Archived = ArchivedNode;

    ghost source_length = { λ _. 0 };

    ghost meaning = { ⟦<Node as Archive>⟧.meaning };

    ghost keys = { ⟦<Node as Archive>⟧.keys };

    ghost keyed = { keyed_of_node };

    ghost one_length = { λ _ _. refl };

    ghost planned = { λ v. one_planned node_definitions node_shape (⟦<Node as Archive>⟧.keys v)
        (⟦<Node as Archive>⟧.meaning v) (planned_of_node v) };

    #[inline(always)]
    fn archived_metadata(&self) -> Result<(), Error> {
        Ok(())
    }
}

impl<S: Writer + Keys + ResolverAlloc> SerializeUnsized<S> for Node {
    #[inline(always)]
    fn serialize_unsized(&self, serializer: &mut S) -> Result<usize, Error> {
        serialize_one(self, serializer)
    }
}

/// What comes before the box of a `Node`.
#[derive(Drop)]
pub enum NodeFront {
    /// Of `Cons`.
    Cons,
}

// Reads `Nil` back.
#[inline(always)]
fn read_node_nil<D: Entries>(
    _alloc: Global,
    part: RawView<'_>,
    _deserializer: &mut D,
) -> Result<Node, Error>
    requires viewed { IsPartOf ⟦<ArchivedNode as ArchivePointee>⟧ part }
    requires tag { part_tag part ≡ 0 }
    ensures read { IfOk result (Read ⟦<ArchivedNode as ArchivePointee>⟧ part D.Entries _deserializer
        ⟦<Node as Archive>⟧) }
    ensures refused { IfErr result (RefusesPart ⟦<ArchivedNode as ArchivePointee>⟧ part D.Entries
        _deserializer) }
{
    Ok(Node::Nil)
}

// Reads the parts of `Cons` before its box back.
#[inline(always)]
fn read_node_cons<D: Entries>(
    _alloc: Global,
    part: RawView<'_>,
    _deserializer: &mut D,
) -> Result<ReadHead<Node, NodeFront>, Error>
    requires viewed { IsPartOf ⟦<ArchivedNode as ArchivePointee>⟧ part }
    requires tag { part_tag part ≡ 1 }
    ensures read { IfOk result (HeadIsRead ⟦<ArchivedNode as Portable>⟧ part D.Entries _deserializer
        ⟦<Node as Archive>⟧ node_around node_keys_around) }
    ensures refused { IfErr result (RefusesPart ⟦<ArchivedNode as ArchivePointee>⟧ part D.Entries
        _deserializer) }
{
    let p0 = part_of_variant::<ArchivedNode, ArchivedBox<ArchivedNode>>(part, 1, 0, 4);
    Ok(ReadHead::Open(NodeFront::Cons, p0.pos))
}

impl<D: Entries> ChainBack<ArchivedNode, D> for Node {
    type Front = NodeFront;

    ghost around = { node_around };

    ghost keys_around = { node_keys_around };

    #[inline(always)]
    fn read_head(
        alloc: Global,
        part: RawView<'_>,
        deserializer: &mut D,
    ) -> Result<ReadHead<Self, Self::Front>, Error>
        requires { IsPartOf ⟦<ArchivedNode as ArchivePointee>⟧ part }
        ensures read { IfOk result (HeadIsRead ⟦<ArchivedNode as Portable>⟧ part D.Entries
            deserializer ⟦<Node as Archive>⟧ node_around node_keys_around) }
        ensures refused { IfErr result (RefusesPart ⟦<ArchivedNode as ArchivePointee>⟧ part
            D.Entries deserializer) }
    {
        match tag_of_choice::<ArchivedNode>(part) {
            0 => match read_node_nil(alloc, part, deserializer) {
                Ok(value) => Ok(ReadHead::Whole(value)),
                Err(error) => Err(error),
            },
            _ => read_node_cons(alloc, part, deserializer),
        }
    }

    #[inline(always)]
    fn around(front: Self::Front, rest: Box<Self>) -> Self
        ensures meaning { ⟦<Self as Archive>⟧.meaning result
            ≡ node_around front (⟦<Self as Archive>⟧.meaning rest.value) }
        ensures keys { ⟦<Self as Archive>⟧.keys result ≡ node_keys_around front
            (⟦<Self as Archive>⟧.keys rest.value) }
    {
        match front {
            NodeFront::Cons => Node::Cons(rest),
        }
    }
}

impl<D: Entries> Deserialize<Node, D> for ArchivedNode {
    #[inline(always)]
    fn deserialize_part(
        alloc: Global,
        part: RawView<'_>,
        deserializer: &mut D,
    ) -> Result<Node, Error>
        requires { IsPartOf ⟦<Self as ArchivePointee>⟧ part }
        ensures { ReadsAs ⟦<Self as ArchivePointee>⟧ part D.Entries deserializer ⟦<Node as Archive>⟧
            result }
    {
        read_chain::<ArchivedNode, Node, D>(alloc, part, deserializer)
    }
}

/// What a view of an archived `Node` shows, by its tag.
#[derive(Drop)]
pub enum ViewOfNode<'a> {
    /// No box.
    Nil,
    /// A box of the rest.
    Cons(Ref<'a, ArchivedBox<ArchivedNode>>),
}

/// The variant of an archived `Node`, as a view.
pub trait NodeView<'a> {
    /// The variant that the tag names, with views of its fields.
    fn variant(self) -> ViewOfNode<'a>;
}

impl<'a> NodeView<'a> for Ref<'a, ArchivedNode> {
    ghost use Rattle.own_types.specs.declared.node.ViewOfNode.TheVariants.{Cons as NodeConsShown, Nil as NodeNilShown};

    fn variant(self) -> ViewOfNode<'a>
        ensures shows { elim result [
          | NodeNilShown ↦ (tag_of self.entry ≡ 0)
          | NodeConsShown a0 ↦ (tag_of self.entry ≡ 1) × (a0.bytes.now ≡ self.entry.bytes.now)
              × (a0.pos ≡ self.entry.pos + 4) × (a0.len ≡ 0)
              × ShowsValueOf a0 self.entry (payload_in 0)
        ] }
    {
        match tag_of_view(self) {
            0 => ViewOfNode::Nil,
            _ => {
                let a0 = view_of_payload::<ArchivedNode, ArchivedBox<ArchivedNode>>(self, 1, 0, 4);
                ViewOfNode::Cons(a0)
            }
        }
    }
}

/// The fields of an archived `Node`, as seals. The caller must ensure that the tag is the variant's.
pub trait NodeSeal<'a> {
    // The seal shows a part of a buffer that was checked.
    ghost sealed: { Self → Type 0 };

    // The tag that it shows.
    ghost tag: { Self → ℕ };

    /// The field `0` of `Cons`.
    fn cons_0_mut(self) -> Seal<'a, ArchivedBox<ArchivedNode>>
        requires come_to { sealed self }
        requires tag { tag self ≡ 1 };
}

impl<'a> NodeSeal<'a> for Seal<'a, ArchivedNode> {
    ghost sealed = { λ s. IsSealOf node_definitions (one ⟦<ArchivedNode as Portable>⟧.shape) s };

    ghost tag = { λ s. seal_tag s };

    fn cons_0_mut(self) -> Seal<'a, ArchivedBox<ArchivedNode>>
        requires come_to { IsSealOf node_definitions (one ⟦<ArchivedNode as Portable>⟧.shape) self }
        requires tag { seal_tag self ≡ 1 }
        ensures { SealsPart node_definitions (one ⟦<ArchivedNode as Portable>⟧.shape)
            ⟦<ArchivedNode as ArchivePointee>⟧.definitions
            ⟦<ArchivedBox<ArchivedNode> as ArchivePointee>⟧.pointee (self.entry.pos + 4) 0
            self.entry result }
    {
        seal_of_payload::<ArchivedNode, ArchivedBox<ArchivedNode>>(self, 1, 0, 4)
    }
}
