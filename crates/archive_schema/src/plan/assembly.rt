//! Plans of an expression and the definitions of its names. First come the nodes of the definitions, then those of the expression, then those of
//! what pointers lead to: so each held name is there when it is looked for.

ghost use Rattle.std.specs.Prelude.{◌≡◌, IfOk, OnOk};
ghost use Rattle.archive_check.specs.Expressions.{shape_of};
ghost use Rattle.archive_schema.specs.plan.PlanGrowth.{lists_of, no_lists};
ghost use Rattle.archive_schema.specs.plan.CompileQueue.{waits_of, no_waits};
ghost use Rattle.archive_schema.specs.plan.NodeNumbers.{def_shapes};
ghost use Rattle.archive_schema.specs.plan.Planned.{IsPlan, HasNames, InOrder, IsChained, CanChain, CanFinish, IsFinished};

use crate::plan::Plan;
use crate::plan::compile::{Scope, compile};
use crate::plan::growing::NamedNode;
use crate::plan::numbering::{add, count, number};
use crate::plan::queue::Queue;
use archive_check::format::defs::Def;
use archive_check::format::expr::Expr;
use std::alloc::{AllocError, Global};

// The definitions, compiled one after another to a plan without a node. What they lead to waits in a queue where nothing waits yet.
fn compile_defs<'e>(
    alloc: Global,
    names: &[NamedNode],
    defs: &'e [Def],
    plan: &mut Plan,
    queue: &mut Queue<'e>,
) -> Result<(), AllocError>
    requires new_plan { lists_of plan.old ≡ no_lists }
    requires new_queue { waits_of queue.old ≡ no_waits queue.old.next }
    requires can { CanChain names.now (def_shapes defs.now) }
    ensures { OnOk result (IsChained names.now (def_shapes defs.now) queue plan) }
{
    for i in 0..defs.len() {
        let done = plan.nodes.len();
        let scope = Scope { alloc, names, done };
        compile(&scope, &defs[i].expr, plan, queue)?;
    }
    Ok(())
}

// All that waits, and all that it leads to, compiled one after another.
fn compile_waiting<'e>(
    alloc: Global,
    names: &[NamedNode],
    plan: &mut Plan,
    queue: &mut Queue<'e>,
) -> Result<(), AllocError>
    requires { CanFinish names.now (waits_of queue.old) (lists_of plan.old) }
    ensures { OnOk result (IsFinished names.now queue plan) }
{
    let mut i = 0;
    while i < queue.items.len() {
        let done = plan.nodes.len();
        let waiting = queue.items[i];
        let scope = Scope { alloc, names, done };
        compile(&scope, waiting.expr, plan, queue)?;
        i += 1;
    }
    Ok(())
}

impl Plan {
    /// The plan of an expression and its definitions, the expression's node, and those of the
    /// names. Each definition holds only names that are defined before it, but for those behind
    /// pointers. Memory comes from `alloc`.
    pub(crate) fn of<'e>(
        alloc: Global,
        defs: &'e [Def],
        root: &'e Expr,
    ) -> Result<(Plan, usize, Vec<NamedNode>), AllocError>
        requires { InOrder defs.now (shape_of root.now) }
        ensures made { IfOk result (λ r. IsPlan defs.now (shape_of root.now) r.0 r.1) }
        ensures names { IfOk result (λ r. HasNames defs.now r.2.items r.0) }
    {
        let (names, start) = number(alloc, defs)?;
        let more = count(root)?;
        let base = add(start, more)?;
        let mut plan = Plan::new(alloc);
        let mut queue: Queue<'e> = Queue::new(alloc, base);
        compile_defs(alloc, &names, defs, &mut plan, &mut queue)?;
        let done = plan.nodes.len();
        let scope = Scope {
            alloc,
            names: &names,
            done,
        };
        let node = compile(&scope, root, &mut plan, &mut queue)?;
        compile_waiting(alloc, &names, &mut plan, &mut queue)?;
        Ok((plan, node, names))
    }
}
