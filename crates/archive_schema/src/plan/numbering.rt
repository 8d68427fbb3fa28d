//! How many nodes expressions are compiled to, and which is whose.

ghost use Rattle.std.specs.Prelude.{◌≡◌, ◌+◌, IfOk, IsSome, length};
ghost use Rattle.archive_check.specs.Expressions.{shape_of, pointee_of, shapes_in, variants_in};
ghost use Rattle.archive_schema.specs.plan.NodeCounts.{count_of, count_pointee as pointee_count, counts_of, variant_counts_of};
ghost use Rattle.archive_check.specs.Shape.{Name, named};
ghost use Rattle.archive_schema.specs.plan.PlanGrowth.{node_of};
ghost use Rattle.archive_schema.specs.plan.Planned.{DefsInOrder};
ghost use Rattle.archive_schema.specs.plan.NodeNumbers.{IsExpressionNode, IsNumbered, IsNumberedFrom, AreNumbered, def_shapes, start_of};

use crate::plan::growing::{NamedNode, known_node};
use archive_check::format::defs::Def;
use archive_check::format::expr::{Expr, Pointee};
use std::alloc::{AllocError, Global};

/// The sum. Fails with `OutOfMemory` if it is above `usize::MAX`: there is no memory for it.
pub fn add(a: usize, b: usize) -> Result<usize, AllocError>
    ensures { IfOk result (λ n. n ≡ a + b) }
{
    a.checked_add(b).ok_or(AllocError)
}

// How many nodes a pointee has beside its pointer.
fn count_pointee(pointee: &Pointee) -> usize
    ensures { result ≡ pointee_count (pointee_of pointee.now) }
{
    match pointee {
        Pointee::One(_) | Pointee::Run(_) => 0,
        Pointee::Text => 1,
    }
}

/// How many nodes an expression is compiled to, but for what its pointers lead to. Fails with
/// `OutOfMemory` if that is above `usize::MAX`.
#[cycle(count)]
#[tactic(auto, using(archive_check::proofs::format::Views::views))]
pub fn count(expr: &Expr) -> Result<usize, AllocError>
    ensures { IfOk result (λ n. n ≡ count_of (shape_of expr.now)) }
{
    match expr {
        Expr::Leaf(_) | Expr::Vec(_) | Expr::Map(_, _) => Ok(1),
        Expr::Record(parts) => {
            let parts = count_parts(parts)?;
            add(parts, 1)
        }
        Expr::Choice(_, variants) => {
            let variants = count_variants(variants)?;
            add(variants, 1)
        }
        Expr::Array(_, x) => {
            let element = count(x)?;
            add(element, 1)
        }
        Expr::Box(x) | Expr::Shared(_, x) | Expr::Weak(_, x) => Ok(count_pointee(x) + 1),
        Expr::Str => Ok(2),
        Expr::Named(_) => Ok(0),
    }
}

// How many nodes parts are compiled to.
#[cycle(count)]
#[tactic(auto, using(archive_check::proofs::format::Views::views))]
fn count_parts(parts: &[Expr]) -> Result<usize, AllocError>
    ensures { IfOk result (λ n. n ≡ counts_of (shapes_in parts.now)) }
{
    let mut total = 0;
    for i in 0..parts.len() {
        let more = count(&parts[i])?;
        total = add(total, more)?;
    }
    Ok(total)
}

// How many nodes variants are compiled to.
#[cycle(count)]
#[tactic(auto, using(archive_check::proofs::format::Views::views))]
fn count_variants(variants: &[Vec<Expr>]) -> Result<usize, AllocError>
    ensures { IfOk result (λ n. n ≡ variant_counts_of (variants_in variants.now)) }
{
    let mut total = 0;
    for i in 0..variants.len() {
        let more = count_parts(&variants[i])?;
        total = add(total, more)?;
    }
    Ok(total)
}

/// The node of an expression whose nodes begin at `start`, and where they end: a name has its own,
/// which is elsewhere and known. Fails with `OutOfMemory` if the end is above `usize::MAX`.
pub fn root(names: &[NamedNode], expr: &Expr, start: usize) -> Result<(usize, usize), AllocError>
    requires { (name : Name) → shape_of expr.now ≡ named name → IsSome (node_of names.now name) }
    ensures { IfOk result (λ r. IsNumberedFrom names.now start (shape_of expr.now) r.0 r.1) }
{
    let more = count(expr)?;
    let end = add(start, more)?;
    if let Expr::Named(name) = expr {
        return Ok((known_node(names, name), end));
    }
    Ok((end - 1, end))
}

/// The nodes that definitions are compiled to, one after another, and how many there are. Each is a
/// name only if that is defined before it. Memory comes from `alloc`.
pub fn number(alloc: Global, defs: &[Def]) -> Result<(Vec<NamedNode>, usize), AllocError>
    requires { DefsInOrder defs.now }
    ensures { IfOk result (λ r. AreNumbered defs.now r.0.items r.1) }
{
    let mut names: Vec<NamedNode> = Vec::new(alloc);
    let mut start = 0;
    for i in 0..defs.len() {
        let (node, end) = root(&names, &defs[i].expr, start)?;
        names.push(NamedNode {
            name: defs[i].name,
            node,
        })?;
        start = end;
    }
    Ok((names, start))
}
