//! Sizes in bytes. None: above `usize::MAX`.

ghost use Rattle.std.specs.Prelude.{◌≡◌, ◌<◌, max, min, Some};
ghost use Rattle.archive_check.specs.Layout.{up as up_to};
ghost use Rattle.archive_check.specs.Expressions.{kind_of};
ghost use Rattle.archive_check.specs.Words.BoundedSizes.{times as times_of, fits, rounded};
ghost use Rattle.archive_schema.specs.check.Runs.{pointer_bytes, unit_size, unit_align, value_begin};
ghost use Rattle.archive_check.specs.Words.PlainData.{is_plain_kind};
ghost use Rattle.archive_schema.specs.plan.BoundedSizes.{sum_of, greater_of};

use crate::plan::{Node, PointeeKind};
use archive_check::format::expr::{Key, Kind};
use archive_check::format::extents::offset_of;

/// Whether any bytes of its size are a leaf.
pub fn is_plain(kind: Kind) -> bool
    ensures { result ≡ is_plain_kind (kind_of kind) }
{
    matches!(kind, Kind::Unit | Kind::Number(_) | Kind::RawRel(_))
}

/// How many bytes a pointer takes: an offset's four, and four for the length where there is one.
pub fn pointer_size(target: PointeeKind) -> usize
    ensures { result ≡ pointer_bytes target }
{
    match target {
        PointeeKind::One => 4,
        PointeeKind::Run | PointeeKind::Text | PointeeKind::Entries(_) => 8,
    }
}

/// Where what has a size ends.
pub fn end_of(offset: Option<usize>, size: Option<usize>) -> Option<usize>
    ensures { result ≡ sum_of offset size }
{
    match (offset, size) {
        (Some(offset), Some(size)) => offset.checked_add(size),
        _ => None,
    }
}

/// The greater of two ends.
pub fn greater(a: Option<usize>, b: Option<usize>) -> Option<usize>
    ensures { result ≡ greater_of a b }
{
    match (a, b) {
        (Some(a), Some(b)) => Some(a.max(b)),
        _ => None,
    }
}

/// Where what is laid out ends, and the greatest alignment in it: of parts one after another, or of
/// variants each for itself.
#[derive(Clone, Copy)]
pub struct Extent {
    /// Where it ends; `None` is above `usize::MAX`.
    pub end: Option<usize>,
    /// The greatest alignment.
    pub align: usize,
    pub ghost positive: { 0 < align },
}

impl Extent {
    /// Nothing yet, from an offset on.
    pub fn new(start: usize) -> Extent
        ensures end { result.end ≡ Some start }
        ensures align { result.align ≡ 1 }
    {
        Extent {
            end: Some(start),
            align: 1,
        }
    }

    /// One part more, at the next multiple of its alignment. Says where it begins.
    pub fn add(&mut self, size: Option<usize>, align: usize) -> Option<usize>
        requires { 0 < align }
        ensures offset { result ≡ rounded self.old.end align }
        ensures end { self.new.end ≡ sum_of (rounded self.old.end align) size }
        ensures align { self.new.align ≡ max self.old.align align }
    {
        let offset = offset_of(self.end, align);
        self.end = end_of(offset, size);
        self.align = self.align.max(align);
        offset
    }

    /// One variant more, laid out for itself.
    pub fn join(&mut self, end: Option<usize>, align: usize)
        ensures end { self.new.end ≡ greater_of self.old.end end }
        ensures align { self.new.align ≡ max self.old.align align }
    {
        self.end = greater(self.end, end);
        self.align = self.align.max(align);
    }

    /// All of it: the end at the next multiple of the alignment.
    pub fn whole(self) -> Extent
        ensures end { result.end ≡ rounded self.end self.align }
        ensures align { result.align ≡ self.align }
    {
        Extent {
            end: offset_of(self.end, self.align),
            align: self.align,
        }
    }
}

/// Where the value begins in an entry of this key: at the next multiple of its alignment.
pub fn value_offset(key: Key, align: usize) -> Option<usize>
    requires { 0 < align }
    ensures { result ≡ value_begin key align }
{
    offset_of(Some(key.size()), align)
}

/// What each takes that such a pointer leads to, where its node is this one: the pointee, a byte of a text, or an entry. It is inlined, since a node is wide.
#[inline(always)]
pub fn unit_of(target: PointeeKind, pointee: Node) -> Extent
    ensures end { result.end ≡ unit_size target pointee }
    ensures align { result.align ≡ unit_align target pointee }
{
    match target {
        PointeeKind::One | PointeeKind::Run => Extent {
            end: pointee.size,
            align: pointee.align,
        },
        PointeeKind::Text => Extent {
            end: Some(1),
            align: 1,
        },
        PointeeKind::Entries(key) => {
            let end = end_of(value_offset(key, pointee.align), pointee.size);
            let align = key.align().max(pointee.align);
            Extent {
                end: offset_of(end, align),
                align,
            }
        }
    }
}
