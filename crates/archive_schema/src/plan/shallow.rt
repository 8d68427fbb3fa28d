//! Which nodes of a plan are shallow: they lead to nothing but bytes that are legal whatever they are, and texts.

ghost use Rattle.std.specs.Prelude.{◌≡◌, length, IfOk, IsTrue};
ghost use Rattle.archive_check.specs.Words.Elements.{span};
ghost use Rattle.archive_schema.specs.plan.Shallow.{marked, free_at, parts_free, IsFreeSpan, parts_shallow, variants_shallow, IsShallowSpan, AreShallowVariants, HasRange, HasSpans, shallow_in, HasItsIndexes, AreShallowIn, AreAllMarkedIn};

use crate::plan::growing::is_free;
use crate::plan::{Node, NodeKind, Part, Plan, PointeeKind, Span};
use std::alloc::{AllocError, Global};

// Whether a node is marked. One that isn't there is not.
fn is_marked(marks: &[bool], node: usize) -> bool
    ensures { result ≡ marked marks.now node }
{
    node < marks.len() && marks[node]
}

// Whether a node may be any bytes. One that isn't there may not.
fn is_free_at(nodes: &[Node], node: usize) -> bool
    ensures { result ≡ free_at nodes.now node }
{
    node < nodes.len() && is_free(nodes[node].kind)
}

// Whether all these parts may be any bytes.
fn are_free(nodes: &[Node], parts: &[Part]) -> bool
    ensures { result ≡ parts_free nodes.now parts.now }
{
    for part in parts {
        if !is_free_at(nodes, part.node) {
            return false;
        }
    }
    true
}

/// Whether the parts from `first` up to `last` are there, and may all be any bytes.
pub fn is_span_free(nodes: &[Node], parts: &[Part], first: usize, last: usize) -> bool
    ensures { IsTrue result → IsFreeSpan nodes.now parts.now first last }
{
    match parts.get(first..last) {
        Some(parts) => are_free(nodes, parts),
        None => false,
    }
}

// Whether all these parts are marked.
fn are_marked(marks: &[bool], parts: &[Part]) -> bool
    ensures { result ≡ parts_shallow marks.now parts.now }
{
    for part in parts {
        if !is_marked(marks, part.node) {
            return false;
        }
    }
    true
}

/// Whether the parts from `first` up to `last` are there, and all marked.
pub fn is_span_shallow(marks: &[bool], parts: &[Part], first: usize, last: usize) -> bool
    ensures sound { IsTrue result → IsShallowSpan marks.now parts.now first last }
    ensures found { HasRange parts.now first last → IsShallowSpan marks.now parts.now first last
        → IsTrue result }
{
    match parts.get(first..last) {
        Some(parts) => are_marked(marks, parts),
        None => false,
    }
}

// Whether the parts of all these variants are there, and marked.
fn are_shallow(marks: &[bool], parts: &[Part], variants: &[Span]) -> bool
    ensures sound { IsTrue result → AreShallowVariants marks.now parts.now variants.now }
    ensures found { HasSpans parts.now variants.now → AreShallowVariants marks.now parts.now
        variants.now → IsTrue result }
{
    for variant in variants {
        if !is_span_shallow(marks, parts, variant.first, variant.last) {
            return false;
        }
    }
    true
}

// Whether a node that does this is shallow, where those that it holds and that are shallow are marked.
fn is_shallow(plan: &Plan, marks: &[bool], kind: NodeKind) -> bool
    ensures sound { IsTrue result → IsTrue (shallow_in plan.now marks.now kind) }
    ensures found { HasItsIndexes plan.now kind → IsTrue (shallow_in plan.now marks.now kind)
        → IsTrue result }
{
    match kind {
        NodeKind::Free | NodeKind::Leaf(_) | NodeKind::Str { .. } => true,
        NodeKind::Record { first, last } => is_span_shallow(marks, &plan.parts, first, last),
        NodeKind::Choice { first, last, .. } => match plan.variants.get(first..last) {
            Some(variants) => are_shallow(marks, &plan.parts, variants),
            None => false,
        },
        NodeKind::Array { element, .. } => is_marked(marks, element),
        NodeKind::Pointer { target, pointee } => match target {
            PointeeKind::One | PointeeKind::Run => is_free_at(&plan.nodes, pointee),
            PointeeKind::Text => true,
            PointeeKind::Entries(_) => false,
        },
        NodeKind::Shared { .. } | NodeKind::Weak { .. } => false,
    }
}

/// For each node of a plan whether it is shallow: it leads to nothing but texts and bytes of which
/// any are legal, and shares nothing. A node is marked by the marks of those before it: so each
/// shallow one is, if the nodes in a node come before it, as in each plan of an expression. Memory
/// comes from `alloc`.
pub fn shallow_nodes(alloc: Global, plan: &Plan) -> Result<Vec<bool>, AllocError>
    ensures ok { IfOk result (λ marks. AreShallowIn plan.now marks.items) }
    ensures all { IfOk result (λ marks. AreAllMarkedIn plan.now marks.items) }
    ensures count { IfOk result (λ marks. length marks.items ≡ length plan.now.nodes.items) }
{
    let mut marks = Vec::with_capacity(alloc, plan.nodes.len())?;
    for node in &plan.nodes {
        let shallow = is_shallow(plan, &marks, node.kind);
        marks.push(shallow)?;
    }
    Ok(marks)
}
