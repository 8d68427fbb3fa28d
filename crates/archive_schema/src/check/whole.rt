//! The check of a whole archive against a plan.

ghost use Rattle.std.specs.Prelude.{◌<◌, ◌≤◌, length, OnOk, IfErr};
ghost use Rattle.archive_schema.specs.plan.SoundPlans.{IsSound};
ghost use Rattle.archive_schema.specs.plan.Shallow.{IsMarked};
ghost use Rattle.archive_schema.specs.plan.PackedPlans.{ArePacked};
ghost use Rattle.archive_check.specs.Words.Faults.{IsOfCheck};
ghost use Rattle.archive_check.specs.context.FreshContexts.{HasLevels, KeepsLevels};
ghost use Rattle.archive_check.specs.context.Pushes.{FewPushed};
ghost use Rattle.archive_schema.specs.check.PlanChecks.{WholeAccepts, WholeRefuses, WholeIsExact};

use crate::check::Checker;
use crate::check::worklist::Worklist;
use archive_check::context::{ArchiveContext, SharedContext};
use archive_check::format::error::Error;
use std::alloc::Global;

impl Checker<'_> {
    /// Whether the bytes are an archive of what the root node stands for, with the root at a
    /// position in bytes. In a fresh context for these bytes the result is exact: Ok where they are
    /// one with no region too deep, else the error of the first test that is false, or
    /// `OutOfMemory` if memory is refused.
    pub fn check<C: ArchiveContext + SharedContext>(
        &self,
        alloc: Global,
        root: usize,
        at: usize,
        context: &mut C,
    ) -> Result<(), Error>
        requires sound { IsSound self.now }
        requires marked { IsMarked self.now }
        requires packed { ArePacked self.now.nodes.now self.now.parts.now self.now.variants.now }
        requires below { (C.state context.old).end ≤ length self.now.bytes.now }
        requires known { root < length self.now.nodes.now }
        ensures ok { OnOk result (WholeAccepts self.now root at (C.state context.old)
            (C.positions context.old)) }
        ensures err { IfErr result (λ e. WholeRefuses self.now root at (C.state context.old)
            (C.positions context.old) e) }
        ensures exact { WholeIsExact self.now root at (C.state context.old)
            (C.positions context.old) result }
        ensures of_check { IfErr result (λ e. HasLevels (C.state context.old).depth → IsOfCheck e) }
        ensures levels { OnOk result (KeepsLevels (C.state context.old) (C.state context.new)) }
        ensures few_subtrees { FewPushed (C.state context.old) (C.state context.new) }
    {
        prove!(self.bytes.len() <= usize::MAX);
        let mut work = Worklist::new(alloc);
        match self.run(root, at, &mut work, context) {
            Some(()) => Ok(()),
            None => Err(work.fault()),
        }
    }
}
