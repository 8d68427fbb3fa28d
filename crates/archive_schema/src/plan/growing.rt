//! Plans that grow: everything is added behind what there is, and nothing is changed.

ghost use Rattle.std.specs.Prelude.{◌≡◌, ◌<◌, true, IfOk, OnOk, IsSome, [], Some};
ghost use Rattle.archive_check.specs.Layout.{kind_size, kind_align};
ghost use Rattle.archive_check.specs.Expressions.{kind_of};
ghost use Rattle.archive_check.specs.Words.PlainData.{is_plain_kind};
ghost use Rattle.archive_schema.specs.plan.PlanGrowth.{node_of, lists_of, no_lists, nothing_to_check, IsPushed, IsTypeAdded, type_of, IsMade, IsLeafMade, IsPartAdded, IsVariantAdded, PartsLaid, VariantsLaid};
ghost use Rattle.archive_schema.specs.plan.Shallow.{is_free as is_free_kind};

use crate::plan::extents::{Extent, is_plain};
use crate::plan::{Node, NodeKind, Part, Plan, Span};
use archive_check::context::positions::SharedType;
use archive_check::format::expr::{FlavorInfo, Kind, Pointee};
use std::alloc::{AllocError, Global};

/// A name, and the node that its definition is or will be.
#[derive(Clone, Copy)]
pub struct NamedNode {
    /// The name.
    pub name: &'static str,
    /// The node's index.
    pub node: usize,
}

/// Parts that are laid out one after another.
#[derive(Drop)]
pub struct LaidParts {
    /// The parts.
    pub parts: Vec<Part>,
    /// Where they end, and their greatest alignment.
    pub extent: Extent,
    /// Whether each of them has nothing to check.
    pub free: bool,
}

/// Variants, each laid out for itself.
#[derive(Drop)]
pub struct LaidVariants {
    /// Their parts.
    pub items: Vec<Span>,
    /// Where the longest ends, and the greatest alignment.
    pub extent: Extent,
}

/// Parts or variants of a plan, from `first` up to `last`.
#[derive(Clone, Copy)]
pub struct LaidRange {
    /// The first.
    pub first: usize,
    /// Behind the last.
    pub last: usize,
    /// Where they end.
    pub end: Option<usize>,
    /// The greatest alignment.
    pub align: usize,
    /// Whether each has nothing to check.
    pub free: bool,
}

impl Plan {
    /// A plan without a node.
    pub fn new(alloc: Global) -> Plan
        ensures { lists_of result ≡ no_lists }
    {
        Plan {
            nodes: Vec::new(alloc),
            parts: Vec::new(alloc),
            variants: Vec::new(alloc),
            shared_types: Vec::new(alloc),
        }
    }
}

/// The node of the first of the names that is this one.
pub fn find(names: &[NamedNode], name: &str) -> Option<usize>
    ensures { result ≡ node_of names.now name.now }
{
    match names {
        [] => None,
        [first, rest @ ..] => {
            if first.name == name {
                return Some(first.node);
            }
            find(rest, name)
        }
    }
}

/// The node of a name that is known.
pub fn known_node(names: &[NamedNode], name: &str) -> usize
    requires { IsSome (node_of names.now name.now) }
    ensures { node_of names.now name.now ≡ Some result }
{
    find(names, name).unwrap()
}

/// One node more.
pub fn push(
    plan: &mut Plan,
    size: Option<usize>,
    align: usize,
    kind: NodeKind,
) -> Result<usize, AllocError>
    requires { 0 < align }
    ensures { IfOk result (λ j. IsPushed (lists_of plan.old) (lists_of plan.new) size align kind
        j) }
{
    let node = plan.nodes.len();
    plan.nodes.push(Node { size, align, kind })?;
    Ok(node)
}

/// One shared type more.
pub fn push_shared_type(
    plan: &mut Plan,
    flavor: FlavorInfo,
    pointee: Pointee,
) -> Result<usize, AllocError>
    ensures { IfOk result (IsTypeAdded (lists_of plan.old) (lists_of plan.new)
        (type_of flavor pointee)) }
{
    let shared_type = plan.shared_types.len();
    plan.shared_types.push(SharedType { flavor, pointee })?;
    Ok(shared_type)
}

// Whether there is nothing to check: any bytes are legal, or there are none.
fn is_nothing(free: bool, size: Option<usize>) -> bool
    ensures { result ≡ nothing_to_check free size }
{
    match size {
        Some(0) | None => true,
        Some(_) => free,
    }
}

/// A node of what is laid out, with nothing to check where that is free.
pub fn push_laid(
    plan: &mut Plan,
    size: Option<usize>,
    align: usize,
    free: bool,
    kind: NodeKind,
) -> Result<usize, AllocError>
    requires { 0 < align }
    ensures { IfOk result (λ j. IsMade (lists_of plan.old) (lists_of plan.new) size align free kind
        j) }
{
    if is_nothing(free, size) {
        return push(plan, size, align, NodeKind::Free);
    }
    push(plan, size, align, kind)
}

/// A leaf's node.
pub fn push_leaf(plan: &mut Plan, kind: Kind) -> Result<usize, AllocError>
    ensures { IfOk result (IsLeafMade (lists_of plan.old) (lists_of plan.new) kind) }
{
    push_laid(
        plan,
        Some(kind.size()),
        kind.align(),
        is_plain(kind),
        NodeKind::Leaf(kind),
    )
}

/// Whether there is nothing to check.
pub fn is_free(kind: NodeKind) -> bool
    ensures { result ≡ is_free_kind kind }
{
    matches!(kind, NodeKind::Free)
}

impl LaidParts {
    /// No part, at an offset.
    pub fn new(alloc: Global, start: usize) -> LaidParts
        ensures parts { result.parts.items ≡ [] }
        ensures end { result.extent.end ≡ Some start }
        ensures align { result.extent.align ≡ 1 }
        ensures free { result.free ≡ true }
    {
        LaidParts {
            parts: Vec::new(alloc),
            extent: Extent::new(start),
            free: true,
        }
    }

    /// One part more, which is a node.
    pub fn add_part(&mut self, node: usize, here: Node) -> Result<(), AllocError>
        ensures { OnOk result (IsPartAdded node here self.old self.new) }
    {
        let offset = self.extent.add(here.size, here.align);
        self.parts.push(Part {
            offset: offset.unwrap_or(0),
            node,
        })?;
        self.free = self.free && is_free(here.kind);
        Ok(())
    }
}

impl LaidVariants {
    /// No variant. A tag takes one byte.
    pub fn new(alloc: Global) -> LaidVariants
        ensures items { result.items.items ≡ [] }
        ensures end { result.extent.end ≡ Some 1 }
        ensures align { result.extent.align ≡ 1 }
    {
        LaidVariants {
            items: Vec::new(alloc),
            extent: Extent::new(1),
        }
    }

    /// One variant more.
    pub fn add_variant(&mut self, laid: LaidRange) -> Result<(), AllocError>
        ensures { OnOk result (IsVariantAdded laid self.old self.new) }
    {
        self.items.push(Span {
            first: laid.first,
            last: laid.last,
        })?;
        self.extent.join(laid.end, laid.align);
        Ok(())
    }
}

/// Laid parts, behind those of a plan.
pub fn extend_parts(plan: &mut Plan, row: &LaidParts) -> Result<LaidRange, AllocError>
    ensures { IfOk result (λ laid. PartsLaid (lists_of plan.old) (lists_of plan.new) row.now laid) }
{
    let first = plan.parts.len();
    plan.parts.extend_from_slice(&row.parts)?;
    Ok(LaidRange {
        first,
        last: plan.parts.len(),
        end: row.extent.end,
        align: row.extent.align,
        free: row.free,
    })
}

/// Laid variants, behind those of a plan.
pub fn extend_variants(plan: &mut Plan, spans: &LaidVariants) -> Result<LaidRange, AllocError>
    ensures { IfOk result (λ laid. VariantsLaid (lists_of plan.old) (lists_of plan.new) spans.now
        laid) }
{
    let first = plan.variants.len();
    plan.variants.extend_from_slice(&spans.items)?;
    Ok(LaidRange {
        first,
        last: plan.variants.len(),
        end: spans.extent.end,
        align: spans.extent.align,
        free: false,
    })
}
