//! Plans: what an expression and the definitions that it reaches are compiled to, so that a check reads indices and no names.

ghost use Rattle.std.specs.Prelude.{◌<◌};

pub mod assembly;
pub mod compile;
pub mod extents;
pub mod growing;
pub mod names;
pub mod numbering;
pub mod queue;
pub mod shallow;

use archive_check::context::positions::SharedType;
use archive_check::format::expr::{Key, Kind};

/// How many elements a pointer leads to: one value, a run, the bytes of a text, or entries.
#[derive(Clone, Copy, PartialEq, Eq)]
pub enum PointeeKind {
    /// One value.
    One,
    /// Elements; the pointer's length is their number.
    Run,
    /// Bytes of a text; the pointer's length is their number.
    Text,
    /// Entries of such a key and of the pointee, whose keys ascend strictly; the pointer's length
    /// is their number.
    Entries(Key),
}

/// What there is to check of a node's bytes. Nodes, parts, variants and shared types are named by their index. A text's pointee is a node of one byte.
#[derive(Clone, Copy)]
pub enum NodeKind {
    /// Any bytes are legal, and lead nowhere.
    Free,
    /// A leaf.
    Leaf(Kind),
    /// The parts from `first` up to `last`.
    Record {
        first: usize,
        last: usize,
    },
    /// The variants from `first` up to `last`, of the choice of this name.
    Choice {
        name: &'static str,
        first: usize,
        last: usize,
    },
    /// So many elements.
    Array {
        count: usize,
        element: usize,
    },
    /// A pointer to what is its own.
    Pointer {
        target: PointeeKind,
        pointee: usize,
    },
    /// A string, whose text's bytes are such a node each.
    Str {
        pointee: usize,
    },
    /// A pointer to what others may point to as well.
    Shared {
        shared_type: usize,
        target: PointeeKind,
        pointee: usize,
    },
    /// Such a pointer, or a null.
    Weak {
        shared_type: usize,
        target: PointeeKind,
        pointee: usize,
    },
}

/// A node: its size and alignment. `None` is a size above `usize::MAX`.
#[derive(Clone, Copy)]
pub struct Node {
    /// The size in bytes.
    pub size: Option<usize>,
    /// The alignment in bytes.
    pub align: usize,
    /// What there is to check.
    pub kind: NodeKind,
    pub ghost positive: { 0 < align },
}

/// A part of a record or a variant.
#[derive(Clone, Copy)]
pub struct Part {
    /// Where it begins, in bytes from the record's or the choice's begin.
    pub offset: usize,
    /// What it is.
    pub node: usize,
}

/// The parts of a variant: those from `first` up to `last`.
#[derive(Clone, Copy)]
pub struct Span {
    /// The first.
    pub first: usize,
    /// Behind the last.
    pub last: usize,
}

/// The nodes that an expression is compiled to.
#[derive(Drop)]
pub struct Plan {
    /// The nodes. Those in a node come before it.
    pub nodes: Vec<Node>,
    /// The parts of records and variants.
    pub parts: Vec<Part>,
    /// The variants of choices.
    pub variants: Vec<Span>,
    /// The types of shared pointers.
    pub shared_types: Vec<SharedType>,
}
