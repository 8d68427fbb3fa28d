//! Records that end in a run: those with no elements, as a tree's leaves, are checked one after another, and nothing is listed for them.

ghost use Rattle.std.specs.Prelude.{◌≡◌, ◌+◌, ◌<◌, ◌≤◌, length, IfSome, IsTrue, false};
ghost use Rattle.archive_schema.specs.declared.plan.NodeKind.TheVariants.{Pointer as PointerNode};
ghost use Rattle.archive_schema.specs.declared.plan.PointeeKind.TheVariants.{Run as RunOf};
ghost use Rattle.archive_schema.specs.check.Runs.{IsNode, Takes};
ghost use Rattle.archive_schema.specs.plan.SoundPlans.{IsSound};
ghost use Rattle.archive_schema.specs.plan.Shallow.{IsShallowSpan, IsFreeSpan};
ghost use Rattle.archive_schema.specs.check.Hollow.{IsHollow, HasAlign, IsEmptyAt};
ghost use Rattle.archive_schema.specs.check.LoopInvariant.{PartFits, PartsFit, ElementsFit};
ghost use Rattle.archive_schema.specs.check.Through.{Passes, PassesRegion, PassesFront, node_rule, parts_rule};
ghost use Rattle.archive_schema.specs.check.Turns.{IsCheckable};
ghost use Rattle.archive_schema.specs.plan.PackedPlans.{size_at};
ghost use Rattle.archive_schema.specs.check.Paid.{Pays, PaysFront, bytes_of_parts, bytes_of_elements};

use crate::check::Checker;
use crate::check::regions::leave_region;
use crate::check::worklist::Worklist;
use crate::plan::shallow::{is_span_free, is_span_shallow};
use crate::plan::{NodeKind, PointeeKind, Span};
use archive_check::context::ArchiveContext;
use archive_check::context::regions::enter;
use archive_check::format::bytes::{read_position, read_u32};

/// A record's parts, of which the last one is a pointer to a run, and the others may be any bytes, or are shallow.
#[derive(Clone, Copy)]
pub struct Hollow {
    /// The first part.
    pub first: usize,
    /// The last one.
    pub end: usize,
    /// The last one's offset.
    pub offset: usize,
    /// The last one's node.
    pub node: usize,
    /// The node that it leads to.
    pub pointee: usize,
    /// That one's alignment.
    pub align: usize,
    /// Whether the others may be any bytes.
    pub is_free: bool,
}

impl Checker<'_> {
    // Checks a region of no elements, of such an alignment.
    #[inline(always)]
    fn check_empty_region<C: ArchiveContext>(
        &self,
        pointee: usize,
        align: usize,
        position: i128,
        work: &mut Worklist,
        context: &mut C,
    ) -> Option<()>
        requires align { HasAlign self.now pointee align }
        ensures passes { PassesRegion C.Context self.now RunOf pointee 0 position context work
            result }
        ensures pays { Pays C.Context self.now 4 context work }
    {
        let region = enter(Some(0), align, position, &mut work.fault, context)?;
        leave_region(region.outer_start, region.outer_end, work, context)
    }

    // Checks the pointer at `at` to a run of no elements of such an alignment, whose node this is.
    #[inline(always)]
    fn check_empty_run<C: ArchiveContext>(
        &self,
        node: usize,
        at: usize,
        pointee: usize,
        align: usize,
        work: &mut Worklist,
        context: &mut C,
    ) -> Option<()>
        requires sound { IsSound self.now }
        requires kind { IsNode self.now node (PointerNode RunOf pointee) }
        requires align { HasAlign self.now pointee align }
        requires empty { IsEmptyAt self.now at }
        requires fits { PartFits self.now node at }
        ensures passes { Passes C.Context (node_rule self.now node at) context work result }
        ensures pays { Pays C.Context self.now (size_at self.now.nodes.now node) context work }
    {
        let position = read_position(self.bytes, at, at);
        self.check_empty_region(pointee, align, position, work, context)
    }

    /// Checks the parts from `first` up to `last`, of what begins at `base`. Each is shallow. They are mostly legal as they lie, or one text.
    #[inline(always)]
    pub fn check_front<C: ArchiveContext>(
        &self,
        first: usize,
        last: usize,
        is_free: bool,
        base: usize,
        work: &mut Worklist,
        context: &mut C,
    ) -> Option<()>
        requires plan { IsCheckable self.now }
        requires shallow { is_free ≡ false → IsShallowSpan self.now.shallow.now self.now.parts.now
            first last }
        requires free { IsTrue is_free → IsFreeSpan self.now.nodes.now self.now.parts.now first
            last }
        requires fits { PartsFit self.now first last base }
        requires below { (C.state context.old).end ≤ length self.now.bytes.now }
        ensures passes { Passes C.Context (parts_rule self.now first last base) context work
            result }
        ensures pays { Pays C.Context self.now (bytes_of_parts self.now first last) context work }
    {
        if is_free {
            return Some(());
        }
        if self.check_alone(Span { first, last }, base, work, context)? {
            return Some(());
        }
        if self.first_to_open(first, last, base) >= last {
            return Some(());
        }
        self.check_shallow_parts(first, last, base, work, context)
    }

    // Checks the record at `at`, whose node and whose parts these are, and whose run has no elements.
    #[inline(always)]
    fn check_hollow_record<C: ArchiveContext>(
        &self,
        node: usize,
        parts: Hollow,
        at: usize,
        work: &mut Worklist,
        context: &mut C,
    ) -> Option<()>
        requires plan { IsCheckable self.now }
        requires hollow { IsHollow self.now node parts }
        requires empty { IsEmptyAt self.now (at + parts.offset) }
        requires fits { PartFits self.now node at }
        requires below { (C.state context.old).end ≤ length self.now.bytes.now }
        ensures passes { Passes C.Context (node_rule self.now node at) context work result }
        ensures pays { Pays C.Context self.now (size_at self.now.nodes.now node) context work }
    {
        self.check_front(parts.first, parts.end, parts.is_free, at, work, context)?;
        self.check_empty_run(
            parts.node,
            at + parts.offset,
            parts.pointee,
            parts.align,
            work,
            context,
        )
    }

    // Whether the run of the record at `at`, whose parts these are, has no elements.
    #[inline(always)]
    fn is_empty_here(&self, node: usize, parts: Hollow, at: usize) -> bool
        requires sound { IsSound self.now }
        requires hollow { IsHollow self.now node parts }
        requires fits { PartFits self.now node at }
        ensures empty { IsTrue result → IsEmptyAt self.now (at + parts.offset) }
    {
        read_u32(self.bytes, at + parts.offset + 4) == 0
    }

    /// The parts of a node, if it is a record whose last part is a pointer to a run, and whose other parts may be any bytes or are shallow.
    pub fn hollow(&self, node: usize, size: usize) -> Option<Hollow>
        requires plan { IsCheckable self.now }
        requires takes { Takes self.now node size }
        ensures { IfSome result (λ parts. IsHollow self.now node parts) }
    {
        let here = self.nodes[node];
        let NodeKind::Record { first, last } = here.kind else {
            return None;
        };
        if first >= last {
            return None;
        }
        let end = last - 1;
        let part = self.parts[end];
        let there = self.nodes[part.node];
        let NodeKind::Pointer { target, pointee } = there.kind else {
            return None;
        };
        let PointeeKind::Run = target else {
            return None;
        };
        let offset = part.offset;
        let node = part.node;
        let align = self.nodes[pointee].align;
        if is_span_free(self.nodes, self.parts, first, end) {
            return Some(Hollow {
                first,
                end,
                offset,
                node,
                pointee,
                align,
                is_free: true,
            });
        }
        if !is_span_shallow(self.shallow, self.parts, first, end) {
            return None;
        }
        Some(Hollow {
            first,
            end,
            offset,
            node,
            pointee,
            align,
            is_free: false,
        })
    }

    /// `check_hollow` of records whose other parts may be any bytes.
    #[inline(always)]
    fn check_leaves<C: ArchiveContext>(
        &self,
        node: usize,
        parts: Hollow,
        count: usize,
        at: usize,
        size: usize,
        work: &mut Worklist,
        context: &mut C,
    ) -> Option<usize>
        requires plan { IsCheckable self.now }
        requires hollow { IsHollow self.now node parts }
        requires free { IsTrue parts.is_free }
        requires fits { ElementsFit self.now node count at }
        requires size { Takes self.now node size }
        ensures passes { PassesFront C.Context self.now node count at size context work result }
        ensures pays { PaysFront C.Context self.now node count context work result }
    {
        let bytes = self.bytes;
        for index in 0..count {
            let place = at + index * size + parts.offset;
            if read_u32(bytes, place + 4) != 0 {
                return Some(index);
            }
            let position = read_position(bytes, place, place);
            self.check_empty_region(parts.pointee, parts.align, position, work, context)?;
        }
        Some(count)
    }

    /// Checks the first of the records at `at`, each of `size` bytes, whose parts these are: as many as end in a run of no elements. Returns how many, or `None`
    /// where one is rejected, with the reason in `work`.
    #[inline(always)]
    pub fn check_hollow<C: ArchiveContext>(
        &self,
        node: usize,
        parts: Hollow,
        count: usize,
        at: usize,
        size: usize,
        work: &mut Worklist,
        context: &mut C,
    ) -> Option<usize>
        requires plan { IsCheckable self.now }
        requires hollow { IsHollow self.now node parts }
        requires fits { ElementsFit self.now node count at }
        requires size { Takes self.now node size }
        requires below { (C.state context.old).end ≤ length self.now.bytes.now }
        ensures passes { PassesFront C.Context self.now node count at size context work result }
        ensures pays { PaysFront C.Context self.now node count context work result }
    {
        if parts.is_free {
            return self.check_leaves(node, parts, count, at, size, work, context);
        }
        for index in 0..count {
            let element = at + index * size;
            if !self.is_empty_here(node, parts, element) {
                return Some(index);
            }
            self.check_hollow_record(node, parts, element, work, context)?;
        }
        Some(count)
    }
}
