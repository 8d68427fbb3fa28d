// Pairs are compared by their first parts, and then by their second ones; maps as lists of pairs.

ghost use Rattle.std.specs.Prelude.{◌≡◌};
ghost use Rattle.archive_check.specs.Shape.{one};
ghost use Rattle.archive_types.specs.Members.OrderedPairs.{pair_order, pair_fed, pairs_fed, pairs_ordered};
ghost use Rattle.archive_types.specs.Members.OrderedPairs.{map_order, map_fed, maps_fed, maps_in_order};
ghost use Rattle.archive_types.specs.Members.OrderedPairs.{pairs_total, maps_total};
ghost use Rattle.archive_types.specs.Members.OrderedParts.{as_pointee};

use super::Ordered;
use crate::map::ArchivedSortedMap;
use crate::slice::ArchivedSlice;
use crate::traits::{MapKey, Portable};
use crate::view::{RawView, Ref};
use archive_tuple::ArchivedTuple2;
use std::cmp::Ordering;
use std::hash::{Hash, Hasher};

impl<A: Portable + Ordered, B: Portable + Ordered> Ordered for ArchivedTuple2<A, B> {
    ghost order = { pair_order A.layout B.layout A.order B.order };

    ghost hash_input = { pair_fed A.layout B.layout A.hash_input B.hash_input };

    ghost settling = { 0 };

    ghost total = { pairs_total A.layout B.layout A.total B.total };

    ghost respects = { pairs_fed A.layout B.layout A.order B.order A.hash_input B.hash_input
        A.respects B.respects };

    ghost level = { tt };

    ghost by_value = { pairs_ordered A.definitions B.definitions A.shape B.shape
        A.layout B.layout A.has_layout B.has_layout A.order B.order
        (as_pointee A.definitions A.pointee (one A.shape) A.order A.is_one A.by_value)
        (as_pointee B.definitions B.pointee (one B.shape) B.order B.is_one B.by_value) };

    fn compare(a: RawView<'_>, b: RawView<'_>) -> Ordering {
        let a: Ref<'_, ArchivedTuple2<A, B>> = Ref::at(a);
        let b: Ref<'_, ArchivedTuple2<A, B>> = Ref::at(b);
        let order = A::compare(a.field::<A>(0).part(), b.field::<A>(0).part());
        if order.is_ne() {
            return order;
        }
        B::compare(a.field::<B>(1).part(), b.field::<B>(1).part())
    }

    fn hash_part<H: Hasher>(part: RawView<'_>, state: &mut H) {
        let view: Ref<'_, ArchivedTuple2<A, B>> = Ref::at(part);
        A::hash_part(view.field::<A>(0).part(), state);
        B::hash_part(view.field::<B>(1).part(), state);
    }

    fn settling_bytes() -> usize {
        0
    }
}

impl<K: MapKey + Ordered, V: Portable + Ordered> Ordered for ArchivedSortedMap<K, V> {
    ghost order = { map_order K.layout V.layout K.order V.order };

    ghost hash_input = { map_fed K.layout V.layout K.hash_input V.hash_input };

    ghost settling = { 0 };

    ghost total = { maps_total K.layout V.layout K.total V.total };

    ghost respects = { maps_fed K.layout V.layout K.order V.order K.hash_input V.hash_input
        K.respects V.respects };

    ghost level = { tt };

    ghost by_value = { maps_in_order K.definitions V.definitions K.shape V.shape
        K.layout V.layout K.has_layout V.has_layout K.key K.is_key K.order V.order
        (as_pointee K.definitions K.pointee (one K.shape) K.order K.is_one K.by_value)
        (as_pointee V.definitions V.pointee (one V.shape) V.order V.is_one V.by_value) };

    fn compare(a: RawView<'_>, b: RawView<'_>) -> Ordering {
        let a: Ref<'_, ArchivedSortedMap<K, V>> = Ref::at(a);
        let b: Ref<'_, ArchivedSortedMap<K, V>> = Ref::at(b);
        ArchivedSlice::<ArchivedTuple2<K, V>>::compare(a.entries().part(), b.entries().part())
    }

    fn hash_part<H: Hasher>(part: RawView<'_>, state: &mut H) {
        let view: Ref<'_, ArchivedSortedMap<K, V>> = Ref::at(part);
        ArchivedSlice::<ArchivedTuple2<K, V>>::hash_part(view.entries().part(), state);
    }

    fn settling_bytes() -> usize {
        0
    }
}
