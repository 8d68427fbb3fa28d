//! Regions are entered and left.

ghost use Rattle.std.specs.Prelude.{◌≡◌, ◌+◌, ◌<◌, ◌≤◌, ℕ, length, Some, OnSome, IfNone};
ghost use Rattle.archive_schema.specs.declared.plan.PointeeKind.TheVariants.{One, Run as RunOf, Entries};
ghost use Rattle.archive_schema.specs.check.Lists.{list_of};
ghost use Rattle.archive_schema.specs.check.Runs.{RegionIs};
ghost use Rattle.archive_schema.specs.check.LoopInvariant.{PointeeFits, Ready};
ghost use Rattle.archive_schema.specs.check.Through.{PassesHeld};
ghost use Rattle.archive_schema.specs.check.Entered.{EntersRegion, LeavesRegion};
ghost use Rattle.archive_schema.specs.check.Paid.{Pays, PaysToNext, PaysToRow};
ghost use Rattle.archive_schema.specs.check.Turns.{IsCheckable, TurnEnters, EntersToNext, EntersToRow};

use crate::check::Checker;
use crate::check::worklist::{Next, Row, Worklist};
use crate::plan::extents::unit_of;
use crate::plan::{NodeKind, PointeeKind};
use archive_check::context::ArchiveContext;
use archive_check::context::range::Region;
use archive_check::context::regions::{enter, leave};
use archive_check::format::bytes::is_text;
use archive_check::format::error::Error;
use archive_check::format::expr::Key;
use archive_check::format::extents::times;

/// Leaves a region: the range is the one from `start` to `end` again. Fails as `pop_subtree_range`
/// does.
#[inline(always)]
pub fn leave_region<C: ArchiveContext>(
    start: usize,
    end: usize,
    work: &mut Worklist,
    context: &mut C,
) -> Option<()>
    ensures leaves { LeavesRegion C.Context start end context work result }
    ensures unchanged { IfNone result (C.state context.new ≡ C.state context.old) }
    ensures list { list_of work.new ≡ list_of work.old }
{
    leave(start, end, &mut work.fault, context)
}

impl Checker<'_> {
    /// Enters the region of `count` of the pointee at `position`. It is inlined, since what it
    /// returns is wide.
    #[inline(always)]
    pub fn enter_region<C: ArchiveContext>(
        &self,
        target: PointeeKind,
        pointee: usize,
        count: usize,
        position: i128,
        work: &mut Worklist,
        context: &mut C,
    ) -> Option<Region>
        requires known { pointee < length self.now.nodes.now }
        ensures enters { EntersRegion C.Context self.now target pointee count position context work
            result }
        ensures pushes { OnSome result ((C.state context.new).pushes ≤ (C.state context.old).pushes
            + 1) }
        ensures unchanged { IfNone result (C.state context.new ≡ C.state context.old) }
        ensures list { list_of work.new ≡ list_of work.old }
    {
        let unit = unit_of(target, self.nodes[pointee]);
        let size = times(unit.end, count);
        enter(size, unit.align, position, &mut work.fault, context)
    }

    /// Checks the entries of a region, if the values are shallow or there is no byte. Returns
    /// whether it is so. Entries without a byte have equal keys.
    #[inline(always)]
    fn entries_held<C: ArchiveContext>(
        &self,
        key: Key,
        value: usize,
        count: usize,
        begin: usize,
        size: usize,
        work: &mut Worklist,
        context: &mut C,
    ) -> Option<bool>
        requires plan { IsCheckable self.now }
        requires region { (align : ℕ) × RegionIs self.now (Entries key) value count (Some size)
            align }
        requires value { PointeeFits self.now (Entries key) value count }
        requires within { begin + size ≤ length self.now.bytes.now }
        requires ends { (C.state context.old).end ≡ begin }
        ensures passes { PassesHeld C.Context self.now (Entries key) value count begin size context
            work result }
        ensures pays { Pays C.Context self.now size context work }
    {
        if size == 0 {
            if count > 1 {
                return work.refuse(Error::UnsortedKeys);
            }
            return Some(true);
        }
        if !self.shallow[value] {
            return Some(false);
        }
        self.check_shallow_entries(key, value, count, begin, work, context)?;
        Some(true)
    }

    /// Checks what a region of the pointee holds, if that is shallow or has no byte. Returns
    /// whether it is.
    #[inline(always)]
    fn contents<C: ArchiveContext>(
        &self,
        target: PointeeKind,
        pointee: usize,
        count: usize,
        begin: usize,
        size: usize,
        work: &mut Worklist,
        context: &mut C,
    ) -> Option<bool>
        requires plan { IsCheckable self.now }
        requires region { (align : ℕ) × RegionIs self.now target pointee count (Some size) align }
        requires pointee { PointeeFits self.now target pointee count }
        requires within { begin + size ≤ length self.now.bytes.now }
        requires ends { (C.state context.old).end ≡ begin }
        ensures passes { PassesHeld C.Context self.now target pointee count begin size context work
            result }
        ensures pays { Pays C.Context self.now size context work }
    {
        if let PointeeKind::Text = target {
            if !is_text(self.bytes, begin, size) {
                return work.refuse(Error::InvalidUtf8);
            }
            return Some(true);
        }
        if let PointeeKind::Entries(key) = target {
            return self.entries_held(key, pointee, count, begin, size, work, context);
        }
        let here = self.nodes[pointee];
        if let NodeKind::Free = here.kind {
            return Some(true);
        }
        if size == 0 {
            return Some(true);
        }
        if !self.shallow[pointee] {
            return Some(false);
        }
        match target {
            PointeeKind::One => self.check_shallow(pointee, begin, work, context)?,
            _ => self.check_shallow_elements(pointee, count, begin, work, context)?,
        }
        Some(true)
    }

    /// Enters a region of the pointee, to be left behind what it leads to, or at once if it is
    /// shallow.
    #[inline(always)]
    pub fn enter_here<C: ArchiveContext>(
        &self,
        target: PointeeKind,
        pointee: usize,
        count: usize,
        position: i128,
        work: &mut Worklist,
        context: &mut C,
    ) -> Option<()>
        requires plan { IsCheckable self.now }
        requires ready { Ready self.now (C.state context.old) (list_of work.old) }
        requires pointee { PointeeFits self.now target pointee count }
        ensures enters { TurnEnters C.Context self.now target pointee count position context work
            result }
        ensures pays { Pays C.Context self.now 4 context work }
    {
        let region = self.enter_region(target, pointee, count, position, work, context)?;
        let Region {
            begin,
            size,
            outer_start: start,
            outer_end: end,
        } = region;
        if self.contents(target, pointee, count, begin, size, work, context)? {
            return leave_region(start, end, work, context);
        }
        work.leave(start, end)?;
        match target {
            PointeeKind::One => work.part(pointee, begin),
            PointeeKind::Entries(key) => work.entries(key, pointee, count, begin, false),
            _ => work.elements(pointee, count, begin),
        }
    }

    /// Enters a box's region, to be left behind what it holds, which comes next, or at once if it is
    /// shallow.
    #[inline(always)]
    pub fn enter_box<C: ArchiveContext>(
        &self,
        pointee: usize,
        position: i128,
        work: &mut Worklist,
        context: &mut C,
    ) -> Option<Next>
        requires plan { IsCheckable self.now }
        requires ready { Ready self.now (C.state context.old) (list_of work.old) }
        requires known { pointee < length self.now.nodes.now }
        ensures enters { EntersToNext C.Context self.now One pointee 1 position context work
            result }
        ensures pays { PaysToNext C.Context self.now 4 context work result }
    {
        let region = self.enter_region(PointeeKind::One, pointee, 1, position, work, context)?;
        let Region {
            begin,
            size,
            outer_start,
            outer_end,
        } = region;
        if self.contents(PointeeKind::One, pointee, 1, begin, size, work, context)? {
            leave_region(outer_start, outer_end, work, context)?;
            return Some(Next::Listed);
        }
        work.leave(outer_start, outer_end)?;
        Some(Next::Here {
            node: pointee,
            at: begin,
        })
    }

    /// Enters a run's region, to be left behind its elements, which come next, or at once if there
    /// is no byte.
    #[inline(always)]
    pub fn enter_row<C: ArchiveContext>(
        &self,
        pointee: usize,
        count: usize,
        position: i128,
        work: &mut Worklist,
        context: &mut C,
    ) -> Option<Option<Row>>
        requires plan { IsCheckable self.now }
        requires ready { Ready self.now (C.state context.old) (list_of work.old) }
        requires pointee { PointeeFits self.now RunOf pointee count }
        ensures enters { EntersToRow C.Context self.now pointee count position context work
            result }
        ensures pays { PaysToRow C.Context self.now pointee 4 context work result }
    {
        let region = self.enter_region(PointeeKind::Run, pointee, count, position, work, context)?;
        let Region {
            begin,
            size,
            outer_start,
            outer_end,
        } = region;
        if size == 0 {
            leave_region(outer_start, outer_end, work, context)?;
            return Some(None);
        }
        work.leave(outer_start, outer_end)?;
        Some(Some(Row {
            left: count,
            at: begin,
        }))
    }

    /// Enters a region so by a call.
    pub fn enter<C: ArchiveContext>(
        &self,
        target: PointeeKind,
        pointee: usize,
        count: usize,
        position: i128,
        work: &mut Worklist,
        context: &mut C,
    ) -> Option<()>
        requires plan { IsCheckable self.now }
        requires ready { Ready self.now (C.state context.old) (list_of work.old) }
        requires pointee { PointeeFits self.now target pointee count }
        ensures enters { TurnEnters C.Context self.now target pointee count position context work
            result }
        ensures pays { Pays C.Context self.now 4 context work }
    {
        self.enter_here(target, pointee, count, position, work, context)
    }
}
