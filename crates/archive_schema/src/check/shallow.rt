//! The check of shallow nodes. They lead to nothing that has to be listed, so the calls nest as deep as the shape does, and no deeper.

ghost use Rattle.std.specs.Prelude.{◌≡◌, ◌+◌, ◌<◌, ◌≤◌, ℕ, length, IsTrue, None, false};
ghost use Rattle.archive_schema.specs.declared.plan.NodeKind.TheVariants.{Str, Leaf as LeafNode, Pointer as PointerNode};
ghost use Rattle.archive_schema.specs.check.Runs.{IsNode};
ghost use Rattle.archive_schema.specs.plan.SoundPlans.{IsSound};
ghost use Rattle.archive_check.specs.Words.Elements.{span};
ghost use Rattle.archive_schema.specs.plan.Shallow.{marked, target_shallow, parts_shallow, IsShallow};
ghost use Rattle.archive_schema.specs.check.LoopInvariant.{PointeeFits, PartFits, PartsFit, ElementsFit, EntriesFit, KeyFits};
ghost use Rattle.archive_schema.specs.check.Through.{Passes, PassesIf, PassesRegion, node_rule, parts_rule, span_rule, elements_rule, string_rule, key_rule, order_rule, entries_rule};
ghost use Rattle.archive_schema.specs.check.Turns.{IsCheckable};
ghost use Rattle.archive_schema.specs.plan.PackedPlans.{size_at};
ghost use Rattle.archive_schema.specs.check.Paid.{Pays, bytes_of_parts, bytes_of_elements, bytes_of_entries};
ghost use Rattle.archive_check.specs.Expressions.{key_of};
ghost use Rattle.archive_check.specs.Layout.{key_size};

use crate::check::Checker;
use crate::check::regions::leave_region;
use crate::check::worklist::Worklist;
use crate::plan::extents::{unit_of, value_offset};
use crate::plan::{NodeKind, PointeeKind, Span};
use archive_check::context::ArchiveContext;
use archive_check::format::bytes::{
    is_inline_text, is_out_of_line, is_text, read_coded_length, read_position,
};
use archive_check::format::error::Error;
use archive_check::format::expr::{Key, Kind};
use archive_check::format::leaf::{illegal, is_legal};

impl Checker<'_> {
    /// Checks a region of the pointee: a text, or bytes of which any are legal.
    #[inline(always)]
    fn check_shallow_region<C: ArchiveContext>(
        &self,
        target: PointeeKind,
        pointee: usize,
        count: usize,
        position: i128,
        work: &mut Worklist,
        context: &mut C,
    ) -> Option<()>
        requires pointee { PointeeFits self.now target pointee count }
        requires shallow { IsTrue (target_shallow self.now.nodes.now target pointee) }
        requires below { (C.state context.old).end ≤ length self.now.bytes.now }
        ensures passes { PassesRegion C.Context self.now target pointee count position context work
            result }
        ensures pays { Pays C.Context self.now 4 context work }
    {
        let region = self.enter_region(target, pointee, count, position, work, context)?;
        if let PointeeKind::Text = target {
            if !is_text(self.bytes, region.begin, region.size) {
                return work.refuse(Error::InvalidUtf8);
            }
        }
        leave_region(region.outer_start, region.outer_end, work, context)
    }

    /// Checks the leaf at `at`, whose node this is.
    #[inline(always)]
    fn check_leaf<C: ArchiveContext>(
        &self,
        node: usize,
        at: usize,
        kind: Kind,
        work: &mut Worklist,
        _context: &mut C,
    ) -> Option<()>
        requires sound { IsSound self.now }
        requires kind { IsNode self.now node (LeafNode kind) }
        requires fits { PartFits self.now node at }
        ensures passes { Passes C.Context (node_rule self.now node at) _context work result }
        ensures pays { Pays C.Context self.now (size_at self.now.nodes.now node) _context work }
    {
        if !is_legal(kind, self.bytes, at) {
            return work.refuse(illegal(kind));
        }
        Some(())
    }

    /// Checks the pointer at `at`, whose node this is.
    #[inline(always)]
    fn check_pointer<C: ArchiveContext>(
        &self,
        node: usize,
        at: usize,
        target: PointeeKind,
        pointee: usize,
        work: &mut Worklist,
        context: &mut C,
    ) -> Option<()>
        requires sound { IsSound self.now }
        requires kind { IsNode self.now node (PointerNode target pointee) }
        requires shallow { IsTrue (target_shallow self.now.nodes.now target pointee) }
        requires fits { PartFits self.now node at }
        requires below { (C.state context.old).end ≤ length self.now.bytes.now }
        ensures passes { Passes C.Context (node_rule self.now node at) context work result }
        ensures pays { Pays C.Context self.now (size_at self.now.nodes.now node) context work }
    {
        let count = self.count(target, at);
        let position = read_position(self.bytes, at, at);
        self.check_shallow_region(target, pointee, count, position, work, context)
    }

    /// Checks the string at `at`, whose node this is.
    #[inline(always)]
    fn check_text<C: ArchiveContext>(
        &self,
        node: usize,
        at: usize,
        pointee: usize,
        work: &mut Worklist,
        context: &mut C,
    ) -> Option<()>
        requires sound { IsSound self.now }
        requires kind { IsNode self.now node (Str pointee) }
        requires fits { PartFits self.now node at }
        requires below { (C.state context.old).end ≤ length self.now.bytes.now }
        ensures passes { Passes C.Context (node_rule self.now node at) context work result }
        ensures pays { Pays C.Context self.now (size_at self.now.nodes.now node) context work }
    {
        self.check_string(at, pointee, work, context)
    }

    /// Checks the string at `at`. The region has the size of its text, so any node serves for that.
    #[inline(always)]
    fn check_string<C: ArchiveContext>(
        &self,
        at: usize,
        pointee: usize,
        work: &mut Worklist,
        context: &mut C,
    ) -> Option<()>
        requires known { pointee < length self.now.nodes.now }
        requires fits { at + 8 ≤ length self.now.bytes.now }
        requires below { (C.state context.old).end ≤ length self.now.bytes.now }
        ensures passes { Passes C.Context (string_rule self.now pointee at) context work result }
        ensures pays { Pays C.Context self.now 8 context work }
    {
        if is_out_of_line(self.bytes, at) {
            let length = read_coded_length(self.bytes, at);
            if length <= 8 {
                return work.refuse(Error::InvalidStringRepr);
            }
            let position = read_position(self.bytes, at, at + 4);
            return self.check_shallow_region(
                PointeeKind::Text,
                pointee,
                length,
                position,
                work,
                context,
            );
        }
        if !is_inline_text(self.bytes, at) {
            return work.refuse(Error::InvalidUtf8);
        }
        Some(())
    }

    /// Checks the key at `at`. Any node serves for a string's text, and here it is the value's.
    #[inline(always)]
    fn check_key<C: ArchiveContext>(
        &self,
        key: Key,
        value: usize,
        at: usize,
        work: &mut Worklist,
        context: &mut C,
    ) -> Option<()>
        requires known { value < length self.now.nodes.now }
        requires fits { at + key_size (key_of key) ≤ length self.now.bytes.now }
        requires below { (C.state context.old).end ≤ length self.now.bytes.now }
        ensures passes { Passes C.Context (key_rule self.now key value at) context work result }
        ensures pays { Pays C.Context self.now (key_size (key_of key)) context work }
    {
        match key {
            Key::Leaf(kind) => {
                if !is_legal(kind, self.bytes, at) {
                    return work.refuse(illegal(kind));
                }
                Some(())
            }
            Key::Str => self.check_string(at, value, work, context),
        }
    }

    /// Checks the key at `at`, and that it comes behind the one at `before`, if there is one. `value`
    /// is the node of the entry's value.
    #[inline(always)]
    pub fn check_next_key<C: ArchiveContext>(
        &self,
        key: Key,
        value: usize,
        before: Option<usize>,
        at: usize,
        work: &mut Worklist,
        context: &mut C,
    ) -> Option<()>
        requires known { value < length self.now.nodes.now }
        requires fits { KeyFits self.now key before at }
        requires below { (C.state context.old).end ≤ length self.now.bytes.now }
        ensures passes { Passes C.Context (order_rule self.now key value before at) context work
            result }
        ensures pays { Pays C.Context self.now (key_size (key_of key)) context work }
    {
        self.check_key(key, value, at, work, context)?;
        if !key.comes_behind(self.bytes, before, at) {
            return work.refuse(Error::UnsortedKeys);
        }
        Some(())
    }

    /// Checks the node at `at` where it is a string or a pointer, which takes no call. Returns
    /// whether it is one.
    #[inline(always)]
    fn check_single<C: ArchiveContext>(
        &self,
        node: usize,
        at: usize,
        work: &mut Worklist,
        context: &mut C,
    ) -> Option<bool>
        requires sound { IsSound self.now }
        requires shallow { IsShallow self.now node }
        requires fits { PartFits self.now node at }
        requires below { (C.state context.old).end ≤ length self.now.bytes.now }
        ensures passes { PassesIf C.Context (node_rule self.now node at) context work result }
        ensures pays { Pays C.Context self.now (size_at self.now.nodes.now node) context work }
    {
        let here = self.nodes[node];
        match here.kind {
            NodeKind::Pointer { target, pointee } => {
                self.check_pointer(node, at, target, pointee, work, context)?;
                Some(true)
            }
            NodeKind::Str { pointee } => {
                self.check_text(node, at, pointee, work, context)?;
                Some(true)
            }
            _ => Some(false),
        }
    }

    /// Checks a variant's part at its place in what begins at `at`, if the part is alone and is a
    /// string or a pointer. Returns whether it is so.
    #[inline(always)]
    pub fn check_alone<C: ArchiveContext>(
        &self,
        variant: Span,
        at: usize,
        work: &mut Worklist,
        context: &mut C,
    ) -> Option<bool>
        requires plan { IsCheckable self.now }
        requires shallow { IsTrue (parts_shallow self.now.shallow.now
            (span self.now.parts.now variant.first variant.last)) }
        requires fits { PartsFit self.now variant.first variant.last at }
        requires below { (C.state context.old).end ≤ length self.now.bytes.now }
        ensures passes { PassesIf C.Context (span_rule self.now variant at) context work result }
        ensures pays { Pays C.Context self.now (bytes_of_parts self.now variant.first variant.last)
            context work }
    {
        if variant.last.saturating_sub(variant.first) == 1 {
            let part = self.parts[variant.first];
            return self.check_single(part.node, at + part.offset, work, context);
        }
        Some(false)
    }

    /// Checks a shallow node at `at`.
    #[cycle(check_shallow)]
    #[inline(always)]
    pub fn check_shallow<C: ArchiveContext>(
        &self,
        node: usize,
        at: usize,
        work: &mut Worklist,
        context: &mut C,
    ) -> Option<()>
        requires plan { IsCheckable self.now }
        requires shallow { IsShallow self.now node }
        requires fits { PartFits self.now node at }
        requires below { (C.state context.old).end ≤ length self.now.bytes.now }
        ensures passes { Passes C.Context (node_rule self.now node at) context work result }
        ensures pays { Pays C.Context self.now (size_at self.now.nodes.now node) context work }
    {
        let here = self.nodes[node];
        match here.kind {
            NodeKind::Free => Some(()),
            NodeKind::Leaf(kind) => self.check_leaf(node, at, kind, work, context),
            NodeKind::Record { first, last } => self.check_shallow_parts(
                first, last, at, work, context,
            ),
            NodeKind::Choice { name, first, last } => {
                let variant = self.chosen(name, first, last, at, work)?;
                if self.check_alone(variant, at, work, context)? {
                    return Some(());
                }
                self.check_shallow_parts(variant.first, variant.last, at, work, context)
            }
            NodeKind::Array { count, element } => self.check_shallow_elements(
                element, count, at, work, context,
            ),
            NodeKind::Pointer { target, pointee } => self.check_pointer(
                node, at, target, pointee, work, context,
            ),
            NodeKind::Str { pointee } => self.check_text(node, at, pointee, work, context),
            NodeKind::Shared { .. } | NodeKind::Weak { .. } => unreachable!(),
        }
    }

    /// Checks the parts from `first` up to `last`, of what begins at `base`. Each is shallow.
    #[cycle(check_shallow)]
    pub fn check_shallow_parts<C: ArchiveContext>(
        &self,
        first: usize,
        last: usize,
        base: usize,
        work: &mut Worklist,
        context: &mut C,
    ) -> Option<()>
        requires plan { IsCheckable self.now }
        requires shallow { IsTrue (parts_shallow self.now.shallow.now
            (span self.now.parts.now first last)) }
        requires fits { PartsFit self.now first last base }
        requires below { (C.state context.old).end ≤ length self.now.bytes.now }
        ensures passes { Passes C.Context (parts_rule self.now first last base) context work
            result }
        ensures pays { Pays C.Context self.now (bytes_of_parts self.now first last) context work }
    {
        for index in first..last {
            let part = self.parts[index];
            let at = base + part.offset;
            self.check_shallow(part.node, at, work, context)?;
        }
        Some(())
    }

    /// Checks elements, the first of them at `at`. They are shallow.
    #[cycle(check_shallow)]
    pub fn check_shallow_elements<C: ArchiveContext>(
        &self,
        node: usize,
        count: usize,
        at: usize,
        work: &mut Worklist,
        context: &mut C,
    ) -> Option<()>
        requires plan { IsCheckable self.now }
        requires shallow { IsTrue (marked self.now.shallow.now node) }
        requires fits { ElementsFit self.now node count at }
        requires below { (C.state context.old).end ≤ length self.now.bytes.now }
        ensures passes { Passes C.Context (elements_rule self.now node count at) context work
            result }
        ensures pays { Pays C.Context self.now (bytes_of_elements self.now node count) context
            work }
    {
        let size = self.nodes[node].size.unwrap_or(0);
        let passed = self.count_legal(node, count, at, size);
        for index in passed..count {
            self.check_shallow(node, at + index * size, work, context)?;
        }
        Some(())
    }

    /// Checks entries of a key and a value, the first of them at `at`. The values are shallow.
    pub fn check_shallow_entries<C: ArchiveContext>(
        &self,
        key: Key,
        value: usize,
        count: usize,
        at: usize,
        work: &mut Worklist,
        context: &mut C,
    ) -> Option<()>
        requires plan { IsCheckable self.now }
        requires shallow { IsTrue (marked self.now.shallow.now value) }
        requires fits { EntriesFit self.now key value count at false }
        requires below { (C.state context.old).end ≤ length self.now.bytes.now }
        ensures passes { Passes C.Context (entries_rule self.now key value None count at) context
            work result }
        ensures pays { Pays C.Context self.now (bytes_of_entries self.now key value count) context
            work }
    {
        let node = self.nodes[value];
        let size = unit_of(PointeeKind::Entries(key), node).end.unwrap_or(0);
        let offset = value_offset(key, node.align).unwrap_or(0);
        let mut before = None;
        for index in 0..count {
            let next = at + index * size;
            self.check_next_key(key, value, before, next, work, context)?;
            self.check_shallow(value, next + offset, work, context)?;
            before = Some(next);
        }
        Some(())
    }
}
