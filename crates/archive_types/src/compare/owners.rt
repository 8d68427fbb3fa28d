// Boxes, vectors and shared pointers are compared by what they lead to, wherever it lies.

ghost use Rattle.std.specs.Prelude.{◌≡◌};
ghost use Rattle.std.specs.Cmp.{on_total};
ghost use Rattle.std.specs.Hash as fed;
ghost use Rattle.std.specs.Ordering.{on};
ghost use Rattle.archive_check.specs.Shape.{one};
ghost use Rattle.archive_types.specs.Compared.{elements, pointee_at, slice_of, slices, slices_total, slices_fed};
ghost use Rattle.archive_types.specs.Members.OrderedParts.{as_pointee, boxes_ordered, shared_ordered, slices_ordered, vecs_ordered};
ghost use Rattle.archive_types.specs.Members.SharedLaws.{flavor_as};

use super::Ordered;
use crate::boxed::ArchivedBox;
use crate::rc::{Acyclic, ArchivedRc};
use crate::slice::ArchivedSlice;
use crate::traits::{Portable, PortablePointee};
use crate::vec::ArchivedVec;
use crate::view::{RawView, Ref};
use std::cmp::Ordering;
use std::hash::{Hash, Hasher};

impl<T: PortablePointee + Ordered> Ordered for ArchivedBox<T> {
    ghost order = { on (pointee_at T.pointee) T.order };

    ghost hash_input = { λ v. T.hash_input (pointee_at T.pointee v) };

    ghost settling = { 0 };

    ghost total = { on_total (pointee_at T.pointee) T.total };

    ghost respects = { λ v w. T.respects (pointee_at T.pointee v) (pointee_at T.pointee w) };

    ghost level = { tt };

    ghost by_value = { boxes_ordered T.definitions T.pointee T.order T.by_value };

    fn compare(a: RawView<'_>, b: RawView<'_>) -> Ordering {
        let a: Ref<'_, ArchivedBox<T>> = Ref::at(a);
        let b: Ref<'_, ArchivedBox<T>> = Ref::at(b);
        T::compare(a.get().part(), b.get().part())
    }

    fn hash_part<H: Hasher>(part: RawView<'_>, state: &mut H) {
        let view: Ref<'_, ArchivedBox<T>> = Ref::at(part);
        T::hash_part(view.get().part(), state);
    }

    fn settling_bytes() -> usize {
        0
    }
}

impl<T: PortablePointee + Ordered, F: Acyclic> Ordered for ArchivedRc<T, F> {
    ghost order = { on (pointee_at T.pointee) T.order };

    ghost hash_input = { λ v. T.hash_input (pointee_at T.pointee v) };

    ghost settling = { 0 };

    ghost total = { on_total (pointee_at T.pointee) T.total };

    ghost respects = { λ v w. T.respects (pointee_at T.pointee v) (pointee_at T.pointee w) };

    ghost level = { tt };

    ghost by_value = { shared_ordered T.definitions T.pointee (flavor_as F.name F.ALLOW_CYCLES)
        T.order T.by_value };

    fn compare(a: RawView<'_>, b: RawView<'_>) -> Ordering {
        let a: Ref<'_, ArchivedRc<T, F>> = Ref::at(a);
        let b: Ref<'_, ArchivedRc<T, F>> = Ref::at(b);
        T::compare(a.get().part(), b.get().part())
    }

    fn hash_part<H: Hasher>(part: RawView<'_>, state: &mut H) {
        let view: Ref<'_, ArchivedRc<T, F>> = Ref::at(part);
        T::hash_part(view.get().part(), state);
    }

    fn settling_bytes() -> usize {
        0
    }
}

impl<T: Portable + Ordered> Ordered for ArchivedVec<T> {
    ghost order = { on slice_of (slices T.layout.size T.order) };

    ghost hash_input = { λ v. fed.slice T.hash_input (elements T.layout.size (slice_of v)) };

    ghost settling = { 0 };

    ghost total = { on_total slice_of (slices_total T.layout.size T.total) };

    ghost respects = { λ v w. slices_fed T.layout.size T.order T.hash_input T.respects (slice_of v)
        (slice_of w) };

    ghost level = { tt };

    ghost by_value = { vecs_ordered T.definitions T.shape (slices T.layout.size T.order)
        (slices_ordered T.definitions T.shape T.layout T.has_layout T.order
        (as_pointee T.definitions T.pointee (one T.shape) T.order T.is_one T.by_value)) };

    fn compare(a: RawView<'_>, b: RawView<'_>) -> Ordering {
        let a: Ref<'_, ArchivedVec<T>> = Ref::at(a);
        let b: Ref<'_, ArchivedVec<T>> = Ref::at(b);
        ArchivedSlice::<T>::compare(a.as_slice().part(), b.as_slice().part())
    }

    fn hash_part<H: Hasher>(part: RawView<'_>, state: &mut H) {
        let view: Ref<'_, ArchivedVec<T>> = Ref::at(part);
        ArchivedSlice::<T>::hash_part(view.as_slice().part(), state);
    }

    fn settling_bytes() -> usize {
        0
    }
}
