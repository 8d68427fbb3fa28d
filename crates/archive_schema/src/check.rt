//! The check of bytes against a plan, by a list of what is left to check. Calls nest as deep as the shape does, and never by the data.

ghost use Rattle.std.specs.Prelude.{◌≡◌, ◌+◌, ◌*◌, ◌<◌, ◌≤◌, ℕ, length, slice_index, IfSome, IfNone, IsTrue, OnSome};
ghost use Rattle.archive_schema.specs.declared.plan.Part.{Part};
ghost use Rattle.archive_schema.specs.check.Runs.{pointee_count, pointee_length, pointer_bytes, IsVariant, IsNoVariant, Takes};
ghost use Rattle.archive_check.specs.Words.Elements.{IsAt};
ghost use Rattle.archive_schema.specs.check.Lists.{list_of};
ghost use Rattle.archive_schema.specs.plan.SoundPlans.{IsSound};
ghost use Rattle.archive_schema.specs.check.LoopInvariant.{PartFits, PartsFit, ElementsFit, IsLegalHere, PartIsLegalHere, LiesLegal, IsToOpen};

mod finished;
mod hollow;
pub mod regions;
mod shallow;
mod trees;
mod turns;
mod whole;
pub mod worklist;

use crate::check::worklist::Worklist;
use crate::plan::{Node, NodeKind, Part, PointeeKind, Span};
use archive_check::context::positions::SharedType;
use archive_check::format::bytes::read_u32;
use archive_check::format::error::Error;
use archive_check::format::leaf::{count_legal, is_legal};

/// A plan, and the bytes that it is checked against.
#[derive(Clone, Copy)]
pub struct Checker<'p> {
    /// The plan's nodes.
    pub nodes: &'p [Node],
    /// Its parts.
    pub parts: &'p [Part],
    /// Its variants.
    pub variants: &'p [Span],
    /// Its shared types.
    pub shared_types: &'p [SharedType],
    /// Which nodes are shallow: they lead to nothing but bytes that are legal whatever they are, and texts.
    pub shallow: &'p [bool],
    /// The bytes.
    pub bytes: &'p [u8],
}

impl Checker<'_> {
    /// How many there are behind the pointer at `at`.
    pub fn count(&self, target: PointeeKind, at: usize) -> usize
        requires { at + pointer_bytes target ≤ length self.now.bytes.now }
        ensures { result ≡ pointee_count self.now.bytes.now at target }
    {
        match target {
            PointeeKind::One => 1,
            PointeeKind::Run | PointeeKind::Text | PointeeKind::Entries(_) => read_u32(
                self.bytes,
                at + 4,
            ) as usize,
        }
    }

    /// The length in the pointer at `at`: 0 for one value.
    pub fn length(&self, target: PointeeKind, at: usize) -> usize
        requires { at + pointer_bytes target ≤ length self.now.bytes.now }
        ensures { result ≡ pointee_length self.now.bytes.now at target }
    {
        match target {
            PointeeKind::One => 0,
            PointeeKind::Run | PointeeKind::Text | PointeeKind::Entries(_) => read_u32(
                self.bytes,
                at + 4,
            ) as usize,
        }
    }

    /// The variant that the tag at `at` names, of those from `first` up to `last`.
    pub fn variant(&self, first: usize, last: usize, at: usize) -> Option<Span>
        requires within { at < length self.now.bytes.now }
        requires last { last ≤ length self.now.variants.now }
        ensures some { IfSome result (λ x. IsVariant self.now first last at x) }
        ensures none { IfNone result (last ≤ first + slice_index self.now.bytes.now at) }
    {
        let tag = self.bytes[at] as usize;
        if tag >= last.saturating_sub(first) {
            return None;
        }
        Some(self.variants[first + tag])
    }

    /// The variant that the tag at `at` names, of those from `first` up to `last` of the choice of
    /// this name. Fails with `InvalidDiscriminant` if it names none. It is inlined, since what it
    /// returns is wide.
    #[inline(always)]
    pub fn chosen(
        &self,
        name: &'static str,
        first: usize,
        last: usize,
        at: usize,
        work: &mut Worklist,
    ) -> Option<Span>
        requires within { at < length self.now.bytes.now }
        requires last { last ≤ length self.now.variants.now }
        ensures some { IfSome result (λ x. IsVariant self.now first last at x) }
        ensures none { IfNone result (IsNoVariant self.now name.entry first last at
            work.new.fault) }
        ensures list { list_of work.new ≡ list_of work.old }
    {
        let Some(variant) = self.variant(first, last, at) else {
            let value = self.bytes[at];
            return work.refuse(Error::InvalidDiscriminant { name, value });
        };
        Some(variant)
    }

    /// Whether the node at `at` is a leaf that is legal, or any bytes.
    pub fn is_legal_here(&self, node: usize, at: usize) -> bool
        requires sound { IsSound self.now }
        requires fits { PartFits self.now node at }
        ensures legal { IsTrue result → IsLegalHere self.now node at }
        ensures opened { LiesLegal self.now node at → IsTrue result }
    {
        let here = self.nodes[node];
        match here.kind {
            NodeKind::Free => true,
            NodeKind::Leaf(kind) => is_legal(kind, self.bytes, at),
            _ => false,
        }
    }

    /// The first of the parts from `first` up to `last`, of what begins at `base`, that is to be opened; `last` where none is.
    pub fn first_to_open(&self, first: usize, last: usize, base: usize) -> usize
        requires sound { IsSound self.now }
        requires fits { PartsFit self.now first last base }
        ensures below { result ≤ last }
        ensures above { result < last → first ≤ result }
        ensures opened { (x : Part) → result < last → IsAt self.now.parts.now result x
            → IsToOpen self.now base x }
        ensures skipped { (k : ℕ) → first ≤ k → k < result → PartIsLegalHere self.now base k }
    {
        for index in first..last {
            let part = self.parts[index];
            if !self.is_legal_here(part.node, base + part.offset) {
                return index;
            }
        }
        last
    }

    /// How many of the first of the elements at `at`, each of `size` bytes, are known to be legal at once.
    #[inline(always)]
    fn count_at_once(&self, node: usize, count: usize, at: usize, size: usize) -> usize
        requires fits { ElementsFit self.now node count at }
        requires size { Takes self.now node size }
        ensures below { result ≤ count }
        ensures passed { (k : ℕ) → k < result → IsLegalHere self.now node (at + k * size) }
    {
        let here = self.nodes[node];
        match here.kind {
            NodeKind::Free => count,
            NodeKind::Leaf(kind) => count_legal(kind, self.bytes, at, size, count),
            _ => 0,
        }
    }

    /// How many of the elements at `at`, each of `size` bytes, come before the first that is to be opened; `count` where none is.
    pub fn count_legal(&self, node: usize, count: usize, at: usize, size: usize) -> usize
        requires sound { IsSound self.now }
        requires fits { ElementsFit self.now node count at }
        requires size { Takes self.now node size }
        ensures below { result ≤ count }
        ensures opened { result < count → ¬ LiesLegal self.now node (at + result * size) }
        ensures passed { (k : ℕ) → k < result → IsLegalHere self.now node (at + k * size) }
    {
        let known = self.count_at_once(node, count, at, size);
        for index in known..count {
            if !self.is_legal_here(node, at + index * size) {
                return index;
            }
        }
        count
    }
}
