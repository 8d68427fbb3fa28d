//! Expressions that wait: what a pointer leads to is compiled behind all that holds it.

ghost use Rattle.std.specs.Prelude.{◌≡◌, IfOk};
ghost use Rattle.archive_check.specs.Expressions.{shape_of};
ghost use Rattle.archive_schema.specs.plan.Compilable.{CanWait};
ghost use Rattle.archive_schema.specs.plan.CompileQueue.{waits_of, no_waits, IsQueued};

use crate::plan::growing::{NamedNode, known_node};
use crate::plan::numbering::root;
use archive_check::format::expr::Expr;
use std::alloc::{AllocError, Global};

/// An expression, and the node that it is to be compiled to.
#[derive(Clone, Copy)]
pub struct Waiting<'e> {
    /// The expression.
    pub expr: &'e Expr,
    /// The node's index.
    pub node: usize,
}

/// Expressions that wait, in the order in which they are compiled.
#[derive(Drop)]
pub struct Queue<'e> {
    /// The expressions.
    pub items: Vec<Waiting<'e>>,
    /// How many nodes there are when all of them are compiled.
    pub next: usize,
}

impl<'e> Queue<'e> {
    /// No expression, behind `next` nodes.
    pub fn new(alloc: Global, next: usize) -> Queue<'e>
        ensures { waits_of result ≡ no_waits next }
    {
        Queue {
            items: Vec::new(alloc),
            next,
        }
    }
}

/// The node of what a pointer leads to: a name's, or that of an expression that waits from now on. Each name in it is known.
pub fn wait<'e>(
    names: &[NamedNode],
    expr: &'e Expr,
    queue: &mut Queue<'e>,
) -> Result<usize, AllocError>
    requires { CanWait names.now (shape_of expr.now) }
    ensures { IfOk result (λ j. IsQueued names.now (shape_of expr.now) (waits_of queue.old)
        (waits_of queue.new) j) }
{
    if let Expr::Named(name) = expr {
        return Ok(known_node(names, name));
    }
    let (node, end) = root(names, expr, queue.next)?;
    queue.items.push(Waiting { expr, node })?;
    queue.next = end;
    Ok(node)
}
