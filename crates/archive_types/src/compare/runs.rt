// Elements at the fronts of two slices that stand in the same bytes are skipped many at a time, where bytes settle that elements are level.

ghost use Rattle.std.specs.Prelude.{◌≡◌, ◌+◌, ◌*◌, ◌<◌, ◌≤◌, IsTrue};
ghost use Rattle.archive_check.specs.Reads.{bytes_at};
ghost use Rattle.archive_types.specs.Compared.{AreLevelBetween, AreSameFrom};
ghost use Rattle.archive_types.specs.Words.Seen.{shown};

use super::Ordered;
use crate::slice::ArchivedSlice;
use crate::traits::Portable;
use crate::view::{RawView, Ref};

// So many bytes are compared at a time while they are the same, and then so many.
const MANY: usize = 512;

const FEW: usize = 16;

// The bytes of `count` elements, from the element `from` on.
#[inline(always)]
fn bytes_of<'a, T: Portable + Ordered>(
    view: Ref<'a, ArchivedSlice<T>>,
    from: usize,
    count: usize,
) -> &'a [u8]
    requires within { from + count ≤ view.len }
    requires sized { T.settling ≡ T.layout.size }
    ensures { result.now ≡ bytes_at view.entry.bytes.now (view.entry.pos + from * T.layout.size)
        (count * T.layout.size) }
{
    let size = T::settling_bytes();
    let RawView { bytes, pos, .. } = view.part();
    let first = pos + from * size;
    &bytes[first..first + count * size]
}

// Whether `count` elements of both, from the element `from` on, stand in the same bytes.
#[inline(always)]
fn are_same<T: Portable + Ordered>(
    a: Ref<'_, ArchivedSlice<T>>,
    b: Ref<'_, ArchivedSlice<T>>,
    from: usize,
    count: usize,
) -> bool
    requires first { from + count ≤ a.len }
    requires second { from + count ≤ b.len }
    requires sized { T.settling ≡ T.layout.size }
    ensures { IsTrue result → AreSameFrom (from * T.layout.size) (count * T.layout.size)
        (shown a.entry) (shown b.entry) }
{
    bytes_of(a, from, count) == bytes_of(b, from, count)
}

// The first element, from the element `from` on, in front of which all are skipped, `piece` at a time.
fn skip<T: Portable + Ordered>(
    a: Ref<'_, ArchivedSlice<T>>,
    b: Ref<'_, ArchivedSlice<T>>,
    from: usize,
    piece: usize,
) -> usize
    requires first { from ≤ a.len }
    requires second { from ≤ b.len }
    requires sized { T.settling ≡ T.layout.size }
    requires some { (0 < T.layout.size) × (0 < piece) }
    ensures first { result ≤ a.entry.len }
    ensures second { result ≤ b.entry.len }
    ensures level { AreLevelBetween T.layout.size T.order from result (shown a.entry)
        (shown b.entry) }
{
    let both = a.len().min(b.len());
    let mut at = from;
    while at < both {
        let count = piece.min(both - at);
        if are_same(a, b, at, count) {
            at += count;
        } else {
            return at;
        }
    }
    at
}

// The first element in front of which all are known to be level by their bytes: 0 where bytes don't settle it.
pub(super) fn skip_level<T: Portable + Ordered>(
    a: Ref<'_, ArchivedSlice<T>>,
    b: Ref<'_, ArchivedSlice<T>>,
) -> usize
    ensures first { result ≤ a.entry.len }
    ensures second { result ≤ b.entry.len }
    ensures level { AreLevelBetween T.layout.size T.order 0 result (shown a.entry) (shown b.entry) }
{
    let size = T::settling_bytes();
    if size == 0 || size != T::size() || a.is_empty() {
        return 0;
    }
    let far = skip(a, b, 0, (MANY / size).max(1));
    skip(a, b, far, (FEW / size).max(1))
}
