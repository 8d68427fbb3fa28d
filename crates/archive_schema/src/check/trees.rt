//! Runs of records that end in a run of such records, as a tree's nodes: level by level, and of a level that is begun only the records behind are listed.

ghost use Rattle.std.specs.Prelude.{◌≡◌, ◌∷◌};
ghost use Rattle.archive_schema.specs.declared.check.worklist.Work.TheVariants.{Elements as ElementsWork};
ghost use Rattle.archive_schema.specs.check.Lists.{list_of};
ghost use Rattle.archive_schema.specs.check.Runs.{Takes};
ghost use Rattle.archive_schema.specs.check.Hollow.{IsHollow};
ghost use Rattle.archive_schema.specs.check.LoopInvariant.{Ready};
ghost use Rattle.archive_schema.specs.check.Paid.{Pays, PaysToRow, bytes_of_elements};
ghost use Rattle.archive_schema.specs.check.Turns.{IsCheckable, Turn, TurnToRow, Continues, ContinuesToRow};

use crate::check::Checker;
use crate::check::hollow::Hollow;
use crate::check::worklist::{Row, Worklist};
use crate::plan::PointeeKind;
use archive_check::context::ArchiveContext;
use archive_check::format::bytes::read_position;

impl Checker<'_> {
    /// Checks the first of the records at `at`, each of `size` bytes, whose parts these are, but for
    /// its run, which is entered. What that holds comes next; the other records are left.
    #[inline(always)]
    fn enter_first<C: ArchiveContext>(
        &self,
        node: usize,
        parts: Hollow,
        left: usize,
        at: usize,
        size: usize,
        work: &mut Worklist,
        context: &mut C,
    ) -> Option<Option<Row>>
        requires plan { IsCheckable self.now }
        requires hollow { IsHollow self.now node parts }
        requires same { parts.pointee ≡ node }
        requires ready { Ready self.now (C.state context.old)
            (ElementsWork node left at ∷ list_of work.old) }
        requires size { Takes self.now node size }
        ensures turn { TurnToRow C.Context self.now node (ElementsWork node left at) context work
            result }
        ensures pays { PaysToRow C.Context self.now node (bytes_of_elements self.now node left)
            context work result }
    {
        if left == 0 {
            return Some(None);
        }
        work.more_elements(node, left - 1, at + size)?;
        self.check_front(parts.first, parts.end, parts.is_free, at, work, context)?;
        let place = at + parts.offset;
        let count = self.count(PointeeKind::Run, place);
        let position = read_position(self.bytes, place, place);
        self.enter_row(node, count, position, work, context)
    }

    /// Leaves the region that is to be left next, if one is.
    #[inline(always)]
    fn leave_next<C: ArchiveContext>(&self, work: &mut Worklist, context: &mut C) -> Option<()>
        requires ready { Ready self.now (C.state context.old) (list_of work.old) }
        ensures turn { Continues C.Context self.now context work result }
        ensures pays { Pays C.Context self.now 0 context work }
    {
        match work.pop_leave() {
            Some(outer) => self.leave_regions(outer.start, outer.end, outer.inner, work, context),
            None => Some(()),
        }
    }

    /// Leaves the region that is to be left next, and takes the elements of this node that come
    /// then, if some do.
    #[inline(always)]
    fn ascend<C: ArchiveContext>(
        &self,
        node: usize,
        work: &mut Worklist,
        context: &mut C,
    ) -> Option<Option<Row>>
        requires ready { Ready self.now (C.state context.old) (list_of work.old) }
        ensures turn { ContinuesToRow C.Context self.now node context work result }
        ensures pays { PaysToRow C.Context self.now node 0 context work result }
    {
        self.leave_next(work, context)?;
        Some(work.pop_row(node))
    }

    /// Checks records at `at`, each of `size` bytes, whose parts these are, up to the first with
    /// elements. These come next; if there is no such record, those behind the region do.
    #[inline(always)]
    fn check_level<C: ArchiveContext>(
        &self,
        node: usize,
        parts: Hollow,
        left: usize,
        at: usize,
        size: usize,
        work: &mut Worklist,
        context: &mut C,
    ) -> Option<Option<Row>>
        requires plan { IsCheckable self.now }
        requires hollow { IsHollow self.now node parts }
        requires same { parts.pointee ≡ node }
        requires ready { Ready self.now (C.state context.old)
            (ElementsWork node left at ∷ list_of work.old) }
        requires size { Takes self.now node size }
        ensures turn { TurnToRow C.Context self.now node (ElementsWork node left at) context work
            result }
        ensures pays { PaysToRow C.Context self.now node (bytes_of_elements self.now node left)
            context work result }
    {
        let hollow = self.check_hollow(node, parts, left, at, size, work, context)?;
        let inner = self.enter_first(
            node,
            parts,
            left - hollow,
            at + hollow * size,
            size,
            work,
            context,
        )?;
        match inner {
            Some(row) => Some(Some(row)),
            None => self.ascend(node, work, context),
        }
    }

    /// Checks records at `at`, each of `size` bytes, whose parts these are and whose runs are of
    /// such records. It goes on behind the region, as long as such records come next.
    #[inline(never)]
    pub fn check_trees<C: ArchiveContext>(
        &self,
        node: usize,
        parts: Hollow,
        left: usize,
        at: usize,
        size: usize,
        work: &mut Worklist,
        context: &mut C,
    ) -> Option<()>
        requires plan { IsCheckable self.now }
        requires hollow { IsHollow self.now node parts }
        requires same { parts.pointee ≡ node }
        requires ready { Ready self.now (C.state context.old)
            (ElementsWork node left at ∷ list_of work.old) }
        requires size { Takes self.now node size }
        ensures turn { Turn C.Context self.now (ElementsWork node left at) context work result }
        ensures pays { Pays C.Context self.now (bytes_of_elements self.now node left) context
            work }
    {
        let mut count = left;
        let mut begin = at;
        while let Some(row) = self.check_level(node, parts, count, begin, size, work, context)? {
            count = row.left;
            begin = row.at;
        }
        Some(())
    }
}
