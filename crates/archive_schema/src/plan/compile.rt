//! From expressions to plans: an expression's node comes after those of what it contains. What its
//! pointers lead to waits, and comes later.
//!
//! Each case has a function of its own, which is never inlined: a call's frame is cleared when it is entered, so that one large function would
//! clear at each node what all of the cases need.

ghost use Rattle.std.specs.Prelude.{◌≡◌, ◌≤◌, IfOk, true, false, length};
ghost use Rattle.archive_check.specs.Expressions.{shape_of, flavor_of, key_of, pointee_of, shapes_in, variants_in};
ghost use Rattle.archive_check.specs.Shape.{parts as record_of, choice, array, boxed, vec, sorted_map};
ghost use Rattle.archive_schema.specs.plan.PlanGrowth.{lists_of, IsTypeCopied};
ghost use Rattle.archive_schema.specs.plan.Compilable.{Can, CanParts, CanVariants, CanPoint, CanWait};
ghost use Rattle.archive_schema.specs.plan.Compiled.{counted, IsCompiled, IsCompiledAnywhere, IsCountedAnywhere, IsStringCompiled, IsPointeeCompiled, ArePartsCompiled, AreVariantsCompiled};

use crate::plan::extents::pointer_size;
use crate::plan::growing::{
    LaidParts, LaidRange, LaidVariants, NamedNode, extend_parts, extend_variants, is_free,
    known_node, push, push_laid, push_leaf, push_shared_type,
};
use crate::plan::queue::{Queue, wait};
use crate::plan::{NodeKind, Plan, PointeeKind};
use archive_check::format::expr::{Expr, FlavorInfo, Key, Pointee};
use archive_check::format::extents::{offset_of, times};
use std::alloc::{AllocError, Global};

/// What an expression is compiled with.
#[derive(Clone, Copy)]
pub struct Scope<'n> {
    /// Where memory comes from.
    pub alloc: Global,
    /// The nodes of all names, known by counting.
    pub names: &'n [NamedNode],
    /// The names' nodes before this one are there.
    pub done: usize,
}

// What the node of a pointer does that others may share.
fn counted_kind(weak: bool, shared_type: usize, target: PointeeKind, pointee: usize) -> NodeKind
    ensures weak { weak ≡ true → result ≡ NodeKind.Weak shared_type target pointee }
    ensures shared { weak ≡ false → result ≡ NodeKind.Shared shared_type target pointee }
{
    if weak {
        return NodeKind::Weak {
            shared_type,
            target,
            pointee,
        };
    }
    NodeKind::Shared {
        shared_type,
        target,
        pointee,
    }
}

// One shared type more, with a copy of its pointee.
#[inline(never)]
fn copy_shared_type(
    plan: &mut Plan,
    flavor: FlavorInfo,
    pointee: &Pointee,
) -> Result<usize, AllocError>
    ensures { IfOk result (λ k. IsTypeCopied (lists_of plan.old) (lists_of plan.new) flavor
        (pointee_of pointee.now) k) }
{
    let copy = pointee.clone()?;
    push_shared_type(plan, flavor, copy)
}

// What a pointer leads to.
fn compile_pointee<'e>(
    names: &[NamedNode],
    pointee: &'e Pointee,
    plan: &mut Plan,
    queue: &mut Queue<'e>,
) -> Result<(PointeeKind, usize), AllocError>
    requires { CanPoint names.now (pointee_of pointee.now) }
    ensures { IfOk result (λ r. IsPointeeCompiled names.now (pointee_of pointee.now)
        queue plan r.0 r.1) }
{
    match pointee {
        Pointee::One(x) => {
            let node = wait(names, x, queue)?;
            Ok((PointeeKind::One, node))
        }
        Pointee::Run(x) => {
            let node = wait(names, x, queue)?;
            Ok((PointeeKind::Run, node))
        }
        Pointee::Text => {
            let node = push(plan, Some(1), 1, NodeKind::Free)?;
            Ok((PointeeKind::Text, node))
        }
    }
}

// A pointer to what is its own.
#[inline(never)]
fn compile_box<'e>(
    names: &[NamedNode],
    pointee: &'e Pointee,
    plan: &mut Plan,
    queue: &mut Queue<'e>,
) -> Result<usize, AllocError>
    requires { CanPoint names.now (pointee_of pointee.now) }
    ensures { IfOk result (IsCompiledAnywhere names.now (boxed (pointee_of pointee.now))
        queue plan) }
{
    let (target, pointee) = compile_pointee(names, pointee, plan, queue)?;
    push(
        plan,
        Some(pointer_size(target)),
        4,
        NodeKind::Pointer { target, pointee },
    )
}

// A pointer to a run of elements, with its length.
#[inline(never)]
fn compile_vec<'e>(
    names: &[NamedNode],
    element: &'e Expr,
    plan: &mut Plan,
    queue: &mut Queue<'e>,
) -> Result<usize, AllocError>
    requires { CanWait names.now (shape_of element.now) }
    ensures { IfOk result (IsCompiledAnywhere names.now (vec (shape_of element.now))
        queue plan) }
{
    let pointee = wait(names, element, queue)?;
    push(
        plan,
        Some(8),
        4,
        NodeKind::Pointer {
            target: PointeeKind::Run,
            pointee,
        },
    )
}

// A pointer to entries of this key and of a value, with their number: its pointee is the value.
#[inline(never)]
fn compile_map<'e>(
    names: &[NamedNode],
    key: Key,
    value: &'e Expr,
    plan: &mut Plan,
    queue: &mut Queue<'e>,
) -> Result<usize, AllocError>
    requires { CanWait names.now (shape_of value.now) }
    ensures { IfOk result (IsCompiledAnywhere names.now
        (sorted_map (key_of key) (shape_of value.now)) queue plan) }
{
    let pointee = wait(names, value, queue)?;
    push(
        plan,
        Some(8),
        4,
        NodeKind::Pointer {
            target: PointeeKind::Entries(key),
            pointee,
        },
    )
}

// A string, behind the node of its text's bytes.
#[inline(never)]
fn compile_str(plan: &mut Plan) -> Result<usize, AllocError>
    ensures { IfOk result (IsStringCompiled (lists_of plan.old) (lists_of plan.new)) }
{
    let pointee = push(plan, Some(1), 1, NodeKind::Free)?;
    push(plan, Some(8), 4, NodeKind::Str { pointee })
}

// A pointer to what others may point to as well, behind a copy of its shared type. A weak one may be null.
#[inline(never)]
fn compile_counted<'e>(
    names: &[NamedNode],
    weak: bool,
    flavor: FlavorInfo,
    pointee: &'e Pointee,
    plan: &mut Plan,
    queue: &mut Queue<'e>,
) -> Result<usize, AllocError>
    requires { CanPoint names.now (pointee_of pointee.now) }
    ensures { IfOk result (IsCountedAnywhere names.now weak (flavor_of flavor)
        (pointee_of pointee.now) queue plan) }
{
    let (target, node) = compile_pointee(names, pointee, plan, queue)?;
    let shared_type = copy_shared_type(plan, flavor, pointee)?;
    push(
        plan,
        Some(pointer_size(target)),
        4,
        counted_kind(weak, shared_type, target, node),
    )
}

/// Compiles an expression, and says which node is its own. Each name in the expression is known, and each that it holds other than behind a
/// pointer is there. What its pointers lead to waits in `queue`, unless it is a name.
#[cycle(compile)]
#[tactic(auto, using(archive_check::proofs::format::Views::views))]
pub fn compile<'e>(
    scope: &Scope,
    expr: &'e Expr,
    plan: &mut Plan,
    queue: &mut Queue<'e>,
) -> Result<usize, AllocError>
    requires done { scope.now.done ≤ length plan.old.nodes.items }
    requires can { Can scope.now.names.now scope.now.done (shape_of expr.now) }
    ensures { IfOk result (IsCompiled scope.now (shape_of expr.now) queue plan) }
{
    match expr {
        Expr::Leaf(kind) => push_leaf(plan, *kind),
        Expr::Record(parts) => compile_record(scope, parts, plan, queue),
        Expr::Choice(name, variants) => compile_choice(scope, name, variants, plan, queue),
        Expr::Array(count, x) => compile_array(scope, *count, x, plan, queue),
        Expr::Box(x) => compile_box(scope.names, x, plan, queue),
        Expr::Vec(x) => compile_vec(scope.names, x, plan, queue),
        Expr::Map(key, x) => compile_map(scope.names, *key, x, plan, queue),
        Expr::Str => compile_str(plan),
        Expr::Shared(flavor, x) => compile_counted(scope.names, false, *flavor, x, plan, queue),
        Expr::Weak(flavor, x) => compile_counted(scope.names, true, *flavor, x, plan, queue),
        Expr::Named(name) => Ok(known_node(scope.names, name)),
    }
}

// A record, behind its parts.
#[cycle(compile)]
#[tactic(auto, using(archive_check::proofs::format::Views::views))]
#[inline(never)]
fn compile_record<'e>(
    scope: &Scope,
    parts: &'e [Expr],
    plan: &mut Plan,
    queue: &mut Queue<'e>,
) -> Result<usize, AllocError>
    requires done { scope.now.done ≤ length plan.old.nodes.items }
    requires can { CanParts scope.now.names.now scope.now.done (shapes_in parts.now) }
    ensures { IfOk result (IsCompiled scope.now (record_of (shapes_in parts.now))
        queue plan) }
{
    let laid = compile_parts(scope, parts, 0, plan, queue)?;
    let size = offset_of(laid.end, laid.align);
    push_laid(
        plan,
        size,
        laid.align,
        laid.free,
        NodeKind::Record {
            first: laid.first,
            last: laid.last,
        },
    )
}

// A choice, behind its variants.
#[cycle(compile)]
#[tactic(auto, using(archive_check::proofs::format::Views::views))]
#[inline(never)]
fn compile_choice<'e>(
    scope: &Scope,
    name: &'static str,
    variants: &'e [Vec<Expr>],
    plan: &mut Plan,
    queue: &mut Queue<'e>,
) -> Result<usize, AllocError>
    requires done { scope.now.done ≤ length plan.old.nodes.items }
    requires can { CanVariants scope.now.names.now scope.now.done (variants_in variants.now) }
    ensures { IfOk result (IsCompiled scope.now (choice name.now (variants_in variants.now))
        queue plan) }
{
    let laid = compile_variants(scope, variants, plan, queue)?;
    let size = offset_of(laid.end, laid.align);
    push_laid(
        plan,
        size,
        laid.align,
        false,
        NodeKind::Choice {
            name,
            first: laid.first,
            last: laid.last,
        },
    )
}

// An array, behind its element.
#[cycle(compile)]
#[tactic(auto, using(archive_check::proofs::format::Views::views))]
#[inline(never)]
fn compile_array<'e>(
    scope: &Scope,
    count: usize,
    x: &'e Expr,
    plan: &mut Plan,
    queue: &mut Queue<'e>,
) -> Result<usize, AllocError>
    requires done { scope.now.done ≤ length plan.old.nodes.items }
    requires can { Can scope.now.names.now scope.now.done (shape_of x.now) }
    ensures { IfOk result (IsCompiled scope.now (array count (shape_of x.now))
        queue plan) }
{
    let element = compile(scope, x, plan, queue)?;
    let here = plan.nodes[element];
    push_laid(
        plan,
        times(here.size, count),
        here.align,
        is_free(here.kind),
        NodeKind::Array { count, element },
    )
}

// Parts, laid out from an offset on.
#[cycle(compile)]
#[tactic(auto, using(archive_check::proofs::format::Views::views))]
#[inline(never)]
fn compile_parts<'e>(
    scope: &Scope,
    parts: &'e [Expr],
    start: usize,
    plan: &mut Plan,
    queue: &mut Queue<'e>,
) -> Result<LaidRange, AllocError>
    requires done { scope.now.done ≤ length plan.old.nodes.items }
    requires can { CanParts scope.now.names.now scope.now.done (shapes_in parts.now) }
    ensures { IfOk result (ArePartsCompiled scope.now start (shapes_in parts.now)
        queue plan) }
{
    let mut row = LaidParts::new(scope.alloc, start);
    for i in 0..parts.len() {
        let node = compile(scope, &parts[i], plan, queue)?;
        row.add_part(node, plan.nodes[node])?;
    }
    extend_parts(plan, &row)
}

// Variants, each laid out behind the tag.
#[cycle(compile)]
#[tactic(auto, using(archive_check::proofs::format::Views::views))]
#[inline(never)]
fn compile_variants<'e>(
    scope: &Scope,
    variants: &'e [Vec<Expr>],
    plan: &mut Plan,
    queue: &mut Queue<'e>,
) -> Result<LaidRange, AllocError>
    requires done { scope.now.done ≤ length plan.old.nodes.items }
    requires can { CanVariants scope.now.names.now scope.now.done (variants_in variants.now) }
    ensures { IfOk result (AreVariantsCompiled scope.now (variants_in variants.now)
        queue plan) }
{
    let mut spans = LaidVariants::new(scope.alloc);
    for i in 0..variants.len() {
        let laid = compile_parts(scope, &variants[i], 1, plan, queue)?;
        spans.add_variant(laid)?;
    }
    extend_variants(plan, &spans)
}
