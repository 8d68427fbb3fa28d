//! The loop of a check: each entry of the list is opened, and leaves others in its place.

ghost use Rattle.std.specs.Prelude.{◌≡◌, ◌+◌, ◌-◌, ◌<◌, ◌≤◌, ◌∷◌, [], length, OnSome, IfNone, IsTrue};
ghost use Rattle.archive_schema.specs.declared.plan.NodeKind.TheVariants.{Pointer as PointerNode};
ghost use Rattle.archive_schema.specs.declared.plan.PointeeKind.TheVariants.{Run as RunOf};
ghost use Rattle.archive_schema.specs.declared.check.worklist.Work.TheVariants.{Part as PartWork, Parts as PartsWork, Elements as ElementsWork, Leave as LeaveWork};
ghost use Rattle.archive_schema.specs.check.Lists.{list_of};
ghost use Rattle.archive_schema.specs.check.Runs.{IsNode, pointer_bytes, before_at, Takes};
ghost use Rattle.archive_schema.specs.check.Hollow.{IsHollow};
ghost use Rattle.archive_schema.specs.check.LoopInvariant.{Ready};
ghost use Rattle.archive_check.specs.context.FreshContexts.{KeepsLevels};
ghost use Rattle.archive_check.specs.context.Pushes.{FewPushed};
ghost use Rattle.archive_schema.specs.plan.PackedPlans.{size_at};
ghost use Rattle.archive_schema.specs.check.Paid.{Pays, PaysToNext, bytes_of, bytes_of_parts, bytes_of_elements};
ghost use Rattle.archive_schema.specs.check.Turns.{IsCheckable, Turn, TurnToNext, TurnFollows, PassesRoot, StopsInRoot};

use crate::check::Checker;
use crate::check::hollow::Hollow;
use crate::check::regions::leave_region;
use crate::check::worklist::{Next, Work, Worklist};
use crate::plan::extents::{unit_of, value_offset};
use crate::plan::{NodeKind, PointeeKind};
use archive_check::context::{ArchiveContext, SharedContext, ValidationState};
use archive_check::format::bytes::{read_i32, read_position};
use archive_check::format::error::Error;

// Where the entry of this size begins that is before the one at `at`; none where that is the first.
fn entry_before(later: bool, at: usize, size: usize) -> Option<usize>
    requires { IsTrue later → size ≤ at }
    ensures { result ≡ before_at later at size }
{
    if later {
        return Some(at - size);
    }
    None
}

impl Checker<'_> {
    /// Follows the shared pointer at `at`. What lies at a position that was met before isn't checked again.
    fn follow<C: ArchiveContext + SharedContext>(
        &self,
        shared_type: usize,
        target: PointeeKind,
        pointee: usize,
        at: usize,
        work: &mut Worklist,
        context: &mut C,
    ) -> Option<()>
        requires plan { IsCheckable self.now }
        requires ready { Ready self.now (C.state context.old) (list_of work.old) }
        requires within { at + pointer_bytes target ≤ length self.now.bytes.now }
        requires shared_type { shared_type < length self.now.shared_types.now }
        requires pointee { pointee < length self.now.nodes.now }
        ensures follows { TurnFollows C.Context self.now shared_type target pointee at context work
            result }
        ensures pays { Pays C.Context self.now 4 context work }
    {
        let count = self.count(target, at);
        let length = self.length(target, at);
        let position = read_position(self.bytes, at, at);
        let kind = &self.shared_types[shared_type];
        match context.start_shared(&kind.flavor, &kind.pointee, position, length) {
            Err(error) => work.refuse(error),
            Ok(ValidationState::Started) => {
                let Ok(begin) = usize::try_from(position) else {
                    return self.enter(target, pointee, count, position, work, context);
                };
                work.finish(shared_type, begin)?;
                self.enter(target, pointee, count, position, work, context)
            }
            Ok(ValidationState::Pending) => {
                if !kind.flavor.cycles {
                    return work.refuse(Error::CyclicValidate);
                }
                Some(())
            }
            Ok(ValidationState::Finished) => Some(()),
        }
    }

    /// Opens the pointer at `at` to a run, whose node this is.
    #[inline(always)]
    fn open_run<C: ArchiveContext + SharedContext>(
        &self,
        node: usize,
        pointee: usize,
        at: usize,
        work: &mut Worklist,
        context: &mut C,
    ) -> Option<()>
        requires plan { IsCheckable self.now }
        requires kind { IsNode self.now node (PointerNode RunOf pointee) }
        requires ready { Ready self.now (C.state context.old)
            (PartWork node at ∷ list_of work.old) }
        ensures turn { Turn C.Context self.now (PartWork node at) context work result }
        ensures pays { Pays C.Context self.now (size_at self.now.nodes.now node) context work }
    {
        let count = self.count(PointeeKind::Run, at);
        let position = read_position(self.bytes, at, at);
        self.enter_here(PointeeKind::Run, pointee, count, position, work, context)
    }

    // The first of the parts from `first` up to `last` that is to be opened, of what begins at `base`, comes next, and the others are left.
    #[inline(always)]
    fn next_part<C: ArchiveContext + SharedContext>(
        &self,
        first: usize,
        last: usize,
        base: usize,
        work: &mut Worklist,
        _context: &mut C,
    ) -> Option<Next>
        requires plan { IsCheckable self.now }
        requires ready { Ready self.now (C.state _context.old)
            (PartsWork first last base ∷ list_of work.old) }
        ensures turn { TurnToNext C.Context self.now (PartsWork first last base) _context work
            result }
        ensures pays { PaysToNext C.Context self.now (bytes_of_parts self.now first last) _context
            work result }
    {
        let next = self.first_to_open(first, last, base);
        if next >= last {
            return Some(Next::Listed);
        }
        let part = self.parts[next];
        work.more_parts(next + 1, last, base)?;
        Some(Next::Here {
            node: part.node,
            at: base + part.offset,
        })
    }

    // Opens the node at `at`, and says what comes next. Boxes and runs have copies of their own of the code that enters a region, which is shorter.
    #[inline(always)]
    fn open_node<C: ArchiveContext + SharedContext>(
        &self,
        node: usize,
        at: usize,
        work: &mut Worklist,
        context: &mut C,
    ) -> Option<Next>
        requires plan { IsCheckable self.now }
        requires ready { Ready self.now (C.state context.old)
            (PartWork node at ∷ list_of work.old) }
        ensures turn { TurnToNext C.Context self.now (PartWork node at) context work result }
        ensures pays { PaysToNext C.Context self.now (size_at self.now.nodes.now node) context work
            result }
    {
        if self.shallow[node] {
            self.check_shallow(node, at, work, context)?;
            return Some(Next::Listed);
        }
        let here = self.nodes[node];
        match here.kind {
            NodeKind::Free | NodeKind::Leaf(_) | NodeKind::Str { .. } => {
                self.check_shallow(node, at, work, context)?;
                Some(Next::Listed)
            }
            NodeKind::Record { first, last } => self.next_part(first, last, at, work, context),
            NodeKind::Choice { name, first, last } => {
                let variant = self.chosen(name, first, last, at, work)?;
                self.next_part(variant.first, variant.last, at, work, context)
            }
            NodeKind::Array { count, element } => {
                work.elements(element, count, at)?;
                Some(Next::Listed)
            }
            NodeKind::Pointer { target, pointee } => match target {
                PointeeKind::One => {
                    let position = read_position(self.bytes, at, at);
                    self.enter_box(pointee, position, work, context)
                }
                PointeeKind::Run => {
                    self.open_run(node, pointee, at, work, context)?;
                    Some(Next::Listed)
                }
                PointeeKind::Text | PointeeKind::Entries(_) => {
                    let count = self.count(target, at);
                    let position = read_position(self.bytes, at, at);
                    self.enter(target, pointee, count, position, work, context)?;
                    Some(Next::Listed)
                }
            },
            NodeKind::Shared {
                shared_type,
                target,
                pointee,
            } => {
                self.follow(shared_type, target, pointee, at, work, context)?;
                Some(Next::Listed)
            }
            NodeKind::Weak {
                shared_type,
                target,
                pointee,
            } => {
                if read_i32(self.bytes, at) == 1 {
                    return Some(Next::Listed);
                }
                self.follow(shared_type, target, pointee, at, work, context)?;
                Some(Next::Listed)
            }
        }
    }

    /// Opens the node at `at`, and one after another those that come next: parts, and what boxes hold.
    fn open<C: ArchiveContext + SharedContext>(
        &self,
        node: usize,
        at: usize,
        work: &mut Worklist,
        context: &mut C,
    ) -> Option<()>
        requires plan { IsCheckable self.now }
        requires ready { Ready self.now (C.state context.old)
            (PartWork node at ∷ list_of work.old) }
        ensures turn { Turn C.Context self.now (PartWork node at) context work result }
        ensures pays { Pays C.Context self.now (size_at self.now.nodes.now node) context work }
    {
        let mut here = node;
        let mut begin = at;
        while let Next::Here { node, at } = self.open_node(here, begin, work, context)? {
            here = node;
            begin = at;
        }
        Some(())
    }

    /// Opens the first of the parts from `first` up to `last` that is to be opened, of what begins at `base`, and leaves the others.
    fn open_parts<C: ArchiveContext + SharedContext>(
        &self,
        first: usize,
        last: usize,
        base: usize,
        work: &mut Worklist,
        context: &mut C,
    ) -> Option<()>
        requires plan { IsCheckable self.now }
        requires ready { Ready self.now (C.state context.old)
            (PartsWork first last base ∷ list_of work.old) }
        ensures turn { Turn C.Context self.now (PartsWork first last base) context work result }
        ensures pays { Pays C.Context self.now (bytes_of_parts self.now first last) context work }
    {
        match self.next_part(first, last, base, work, context)? {
            Next::Here { node, at } => self.open(node, at, work, context),
            Next::Listed => Some(()),
        }
    }

    /// Opens the first of the elements at `at`, each of `size` bytes, that is to be opened, and leaves the others.
    #[inline(always)]
    fn open_elements<C: ArchiveContext + SharedContext>(
        &self,
        node: usize,
        left: usize,
        at: usize,
        size: usize,
        work: &mut Worklist,
        context: &mut C,
    ) -> Option<()>
        requires plan { IsCheckable self.now }
        requires ready { Ready self.now (C.state context.old)
            (ElementsWork node left at ∷ list_of work.old) }
        requires size { Takes self.now node size }
        ensures turn { Turn C.Context self.now (ElementsWork node left at) context work result }
        ensures pays { Pays C.Context self.now (bytes_of_elements self.now node left) context
            work }
    {
        let passed = self.count_passed(node, left, at, size, context);
        if passed == left {
            return Some(());
        }
        let next = at + passed * size;
        work.more_elements(node, left - passed - 1, next + size)?;
        self.open(node, next, work, context)
    }

    /// Opens the record at `at`, whose node and whose parts these are: its run alone, where its other parts may be any bytes.
    #[inline(always)]
    fn open_hollow<C: ArchiveContext + SharedContext>(
        &self,
        node: usize,
        parts: Hollow,
        at: usize,
        work: &mut Worklist,
        context: &mut C,
    ) -> Option<()>
        requires plan { IsCheckable self.now }
        requires hollow { IsHollow self.now node parts }
        requires ready { Ready self.now (C.state context.old)
            (PartWork node at ∷ list_of work.old) }
        ensures turn { Turn C.Context self.now (PartWork node at) context work result }
        ensures pays { Pays C.Context self.now (size_at self.now.nodes.now node) context work }
    {
        if parts.is_free {
            return self.open_run(parts.node, parts.pointee, at + parts.offset, work, context);
        }
        self.open(node, at, work, context)
    }

    /// Opens the first of the records at `at`, each of `size` bytes, whose parts these are, and leaves the others.
    #[inline(always)]
    fn open_records<C: ArchiveContext + SharedContext>(
        &self,
        node: usize,
        parts: Hollow,
        left: usize,
        at: usize,
        size: usize,
        work: &mut Worklist,
        context: &mut C,
    ) -> Option<()>
        requires plan { IsCheckable self.now }
        requires hollow { IsHollow self.now node parts }
        requires ready { Ready self.now (C.state context.old)
            (ElementsWork node left at ∷ list_of work.old) }
        requires size { Takes self.now node size }
        ensures turn { Turn C.Context self.now (ElementsWork node left at) context work result }
        ensures pays { Pays C.Context self.now (bytes_of_elements self.now node left) context
            work }
    {
        if left == 0 {
            return Some(());
        }
        work.more_elements(node, left - 1, at + size)?;
        self.open_hollow(node, parts, at, work, context)
    }

    /// Checks records at `at`, each of `size` bytes, whose parts these are, up to the first with
    /// elements, which is opened.
    #[inline(never)]
    fn check_records<C: ArchiveContext + SharedContext>(
        &self,
        node: usize,
        parts: Hollow,
        left: usize,
        at: usize,
        size: usize,
        work: &mut Worklist,
        context: &mut C,
    ) -> Option<()>
        requires plan { IsCheckable self.now }
        requires hollow { IsHollow self.now node parts }
        requires ready { Ready self.now (C.state context.old)
            (ElementsWork node left at ∷ list_of work.old) }
        requires size { Takes self.now node size }
        ensures turn { Turn C.Context self.now (ElementsWork node left at) context work result }
        ensures pays { Pays C.Context self.now (bytes_of_elements self.now node left) context
            work }
    {
        let hollow = self.check_hollow(node, parts, left, at, size, work, context)?;
        self.open_records(
            node,
            parts,
            left - hollow,
            at + hollow * size,
            size,
            work,
            context,
        )
    }

    /// Checks elements at `at`, each of `size` bytes, up to the first that is opened.
    #[inline(always)]
    fn check_elements<C: ArchiveContext + SharedContext>(
        &self,
        node: usize,
        left: usize,
        at: usize,
        size: usize,
        work: &mut Worklist,
        context: &mut C,
    ) -> Option<()>
        requires plan { IsCheckable self.now }
        requires ready { Ready self.now (C.state context.old)
            (ElementsWork node left at ∷ list_of work.old) }
        requires size { Takes self.now node size }
        ensures turn { Turn C.Context self.now (ElementsWork node left at) context work result }
        ensures pays { Pays C.Context self.now (bytes_of_elements self.now node left) context
            work }
    {
        let Some(parts) = self.hollow(node, size) else {
            return self.open_elements(node, left, at, size, work, context);
        };
        if parts.pointee == node {
            return self.check_trees(node, parts, left, at, size, work, context);
        }
        self.check_records(node, parts, left, at, size, work, context)
    }

    /// Leaves a region, and before it the `inner` regions in it that end with it: each gives back a
    /// level, and the last one the range.
    #[inline(always)]
    pub fn leave_regions<C: ArchiveContext>(
        &self,
        start: usize,
        end: usize,
        inner: usize,
        work: &mut Worklist,
        context: &mut C,
    ) -> Option<()>
        requires ready { Ready self.now (C.state context.old)
            (LeaveWork start end inner ∷ list_of work.old) }
        ensures turn { Turn C.Context self.now (LeaveWork start end inner) context work result }
        ensures pays { Pays C.Context self.now (end - start) context work }
    {
        for given in 0..inner {
            leave_region(start, start, work, context)?;
        }
        leave_region(start, end, work, context)
    }

    /// Takes one entry of the list.
    fn step<C: ArchiveContext + SharedContext>(
        &self,
        entry: Work,
        work: &mut Worklist,
        context: &mut C,
    ) -> Option<()>
        requires plan { IsCheckable self.now }
        requires ready { Ready self.now (C.state context.old) (entry ∷ list_of work.old) }
        ensures turn { Turn C.Context self.now entry context work result }
        ensures pays { Pays C.Context self.now (bytes_of self.now entry) context work }
    {
        match entry {
            Work::Part { node, at } => self.open(node, at, work, context),
            Work::Parts { first, last, base } => self.open_parts(first, last, base, work, context),
            Work::Elements { node, left, at } => {
                let element = self.nodes[node];
                if let NodeKind::Free = element.kind {
                    return Some(());
                }
                let size = element.size.unwrap_or(0);
                self.check_elements(node, left, at, size, work, context)
            }
            Work::Entries {
                key,
                value,
                left,
                at,
                later,
            } => {
                if left == 0 {
                    return Some(());
                }
                let node = self.nodes[value];
                let size = unit_of(PointeeKind::Entries(key), node).end.unwrap_or(0);
                let offset = value_offset(key, node.align).unwrap_or(0);
                let before = entry_before(later, at, size);
                self.check_next_key(key, value, before, at, work, context)?;
                work.more_entries(key, value, left - 1, at + size, true)?;
                self.open(value, at + offset, work, context)
            }
            Work::Leave { start, end, inner } => {
                self.leave_regions(start, end, inner, work, context)
            }
            Work::Finish { shared_type, at } => {
                let kind = &self.shared_types[shared_type];
                if let Err(error) = context.finish_shared(&kind.flavor, &kind.pointee, at as i128) {
                    return work.refuse(error);
                }
                Some(())
            }
        }
    }

    /// Checks the root node at `at`, and all that it leads to, by a list on which nothing is left yet.
    #[inline(always)]
    pub(crate) fn run<C: ArchiveContext + SharedContext>(
        &self,
        root: usize,
        at: usize,
        work: &mut Worklist,
        context: &mut C,
    ) -> Option<()>
        requires plan { IsCheckable self.now }
        requires below { (C.state context.old).end ≤ length self.now.bytes.now }
        requires known { root < length self.now.nodes.now }
        requires none_left { list_of work.old ≡ [] }
        ensures ok { OnSome result (PassesRoot C.Context self.now root at context) }
        ensures err { IfNone result (StopsInRoot C.Context self.now root at context
            work.new.fault) }
        ensures levels { OnSome result (KeepsLevels (C.state context.old) (C.state context.new)) }
        ensures few_subtrees { FewPushed (C.state context.old) (C.state context.new) }
    {
        self.enter_here(PointeeKind::One, root, 1, at as i128, work, context)?;
        while let Some(entry) = work.pop() {
            self.step(entry, work, context)?;
        }
        Some(())
    }
}
