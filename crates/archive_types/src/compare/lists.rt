// Slices and vectors are compared element by element, as Rust's slices are: the first elements that differ decide, and else the lengths.

ghost use Rattle.std.specs.Prelude.{◌≡◌, ◌+◌, ◌*◌, ◌<◌, fold};
ghost use Rattle.std.specs.Hash as fed;
ghost use Rattle.archive_check.specs.Shape.{one};
ghost use Rattle.archive_types.specs.Compared.{elements, slices, slices_total, slices_fed};
ghost use Rattle.archive_types.specs.Members.OrderedParts.{as_pointee, slices_ordered};
ghost use Rattle.archive_types.specs.Words.Seen.{shown, element_shown};

use super::Ordered;
use super::runs::skip_level;
use crate::slice::ArchivedSlice;
use crate::traits::Portable;
use crate::view::{RawView, Ref};
use std::cmp::Ordering;
use std::hash::{Hash, Hasher};

impl<T: Portable + Ordered> Ordered for ArchivedSlice<T> {
    ghost order = { slices T.layout.size T.order };

    ghost hash_input = { λ v. fed.slice T.hash_input (elements T.layout.size v) };

    ghost settling = { 0 };

    ghost total = { slices_total T.layout.size T.total };

    ghost respects = { slices_fed T.layout.size T.order T.hash_input T.respects };

    ghost level = { tt };

    ghost by_value = { slices_ordered T.definitions T.shape T.layout T.has_layout T.order
        (as_pointee T.definitions T.pointee (one T.shape) T.order T.is_one T.by_value) };

    fn compare(a: RawView<'_>, b: RawView<'_>) -> Ordering {
        compare_elements::<T>(Ref::at(a), Ref::at(b))
    }

    fn hash_part<H: Hasher>(part: RawView<'_>, state: &mut H) {
        let slice: Ref<'_, ArchivedSlice<T>> = Ref::at(part);
        state.write_usize(slice.len());
        for index in 0..slice.len() {
            T::hash_part(slice.index(index).part(), state);
        }
    }

    fn settling_bytes() -> usize {
        0
    }
}

// The first elements that differ decide, and else the lengths. Those in front that stand in the same bytes are skipped, where that settles it.
fn compare_elements<T: Portable + Ordered>(
    a: Ref<'_, ArchivedSlice<T>>,
    b: Ref<'_, ArchivedSlice<T>>,
) -> Ordering
    ensures { result ≡ slices T.layout.size T.order (shown a.entry) (shown b.entry) }
{
    for index in skip_level(a, b)..a.len() {
        if index >= b.len() {
            return Ordering::Greater;
        }
        let order = compare_at(a, b, index);
        if order.is_ne() {
            return order;
        }
    }
    a.len().cmp(&b.len())
}

// The order of the two elements of an index.
fn compare_at<T: Portable + Ordered>(
    a: Ref<'_, ArchivedSlice<T>>,
    b: Ref<'_, ArchivedSlice<T>>,
    index: usize,
) -> Ordering
    requires both { (index < a.len) × (index < b.len) }
    ensures { result ≡ T.order (element_shown T.layout.size index a.entry)
        (element_shown T.layout.size index b.entry) }
{
    T::compare(a.index(index).part(), b.index(index).part())
}
