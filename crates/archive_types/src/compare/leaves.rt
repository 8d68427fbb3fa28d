// Leaves are compared as their values.

ghost use Rattle.std.specs.Prelude.{◌≡◌};
ghost use Rattle.std.proofs.Common.{sym};
ghost use Rattle.std.specs.Cmp.{on_total};
ghost use Rattle.std.specs.Ordering.{on};
ghost use Rattle.archive_check.specs.Reads.{bytes_at};
ghost use Rattle.archive_check.specs.Definitions.{no_definition};
ghost use Rattle.archive_check.specs.Shape.{leaf, non_zero, one};
ghost use Rattle.archive_types.specs.Compared.{level_fed, level_values};
ghost use Rattle.archive_types.specs.Members.OrderedParts.{as_pointee, leaves_ordered, non_zero_law, non_zero_size};

use super::Ordered;
use crate::primitive::Plain;
use crate::view::{RawView, Ref};
use archive_nonzero::NonZero;
use archive_num::{Integer, LittleEndian, Native};
use std::cmp::Ordering;
use std::hash::{Hash, Hasher};

impl<N: Native> Ordered for LittleEndian<N> {
    ghost order = { on (λ v. N.number_of (bytes_at v.bytes v.pos N.byte_count)) N.cmp };

    ghost hash_input = { λ v. N.hash_input (N.number_of (bytes_at v.bytes v.pos N.byte_count)) };

    ghost settling = { N.byte_count };

    ghost total = { on_total (λ v. N.number_of (bytes_at v.bytes v.pos N.byte_count)) N.total };

    ghost respects = { λ v w. level_fed N.cmp N.hash_input N.matches_eq N.respects_eq
        (N.number_of (bytes_at v.bytes v.pos N.byte_count))
        (N.number_of (bytes_at w.bytes w.pos N.byte_count)) };

    ghost level = { level_values N.number_of N.cmp N.byte_count N.total };

    ghost by_value = { leaves_ordered N.value_of N.number_of N.cmp no_definition N.kind N.byte_count
        N.size_law N.value_law N.order_law };

    fn compare(a: RawView<'_>, b: RawView<'_>) -> Ordering {
        let a: Ref<'_, LittleEndian<N>> = Ref::at(a);
        let b: Ref<'_, LittleEndian<N>> = Ref::at(b);
        a.get().cmp(&b.get())
    }

    fn hash_part<H: Hasher>(part: RawView<'_>, state: &mut H) {
        let view: Ref<'_, LittleEndian<N>> = Ref::at(part);
        view.get().hash(state);
    }

    fn settling_bytes() -> usize {
        N::byte_count()
    }
}

impl<N: Integer> Ordered for NonZero<N> {
    ghost order = { on (λ v. N.number_of (bytes_at v.bytes v.pos N.byte_count)) N.cmp };

    ghost hash_input = { λ v. N.hash_input (N.number_of (bytes_at v.bytes v.pos N.byte_count)) };

    ghost settling = { N.byte_count };

    ghost total = { on_total (λ v. N.number_of (bytes_at v.bytes v.pos N.byte_count)) N.total };

    ghost respects = { λ v w. level_fed N.cmp N.hash_input N.matches_eq N.respects_eq
        (N.number_of (bytes_at v.bytes v.pos N.byte_count))
        (N.number_of (bytes_at w.bytes w.pos N.byte_count)) };

    ghost level = { level_values N.number_of N.cmp N.byte_count N.total };

    ghost by_value = { leaves_ordered N.value_of N.number_of N.cmp no_definition
        (non_zero N.sign N.width) N.byte_count (non_zero_size N.sign N.width N.kind N.byte_count
        N.integer_law N.size_law) (non_zero_law N.value_of N.number_of N.sign N.width N.kind
        N.integer_law N.value_law) N.order_law };

    fn compare(a: RawView<'_>, b: RawView<'_>) -> Ordering {
        let a: Ref<'_, NonZero<N>> = Ref::at(a);
        let b: Ref<'_, NonZero<N>> = Ref::at(b);
        a.get().cmp(&b.get())
    }

    fn hash_part<H: Hasher>(part: RawView<'_>, state: &mut H) {
        let view: Ref<'_, NonZero<N>> = Ref::at(part);
        view.get().hash(state);
    }

    fn settling_bytes() -> usize {
        N::byte_count()
    }
}

impl<N: Plain> Ordered for N {
    ghost order = { on (λ v. N.number_of (bytes_at v.bytes v.pos N.byte_count)) N.cmp };

    ghost hash_input = { λ v. N.hash_input (N.number_of (bytes_at v.bytes v.pos N.byte_count)) };

    ghost settling = { N.byte_count };

    ghost total = { on_total (λ v. N.number_of (bytes_at v.bytes v.pos N.byte_count)) N.total };

    ghost respects = { λ v w. level_fed N.cmp N.hash_input N.matches_eq N.respects_eq
        (N.number_of (bytes_at v.bytes v.pos N.byte_count))
        (N.number_of (bytes_at w.bytes w.pos N.byte_count)) };

    ghost level = { level_values N.number_of N.cmp N.byte_count N.total };

    ghost by_value = { as_pointee N.definitions (one (leaf N.kind)) N.pointee
        (on (λ v. N.number_of (bytes_at v.bytes v.pos N.byte_count)) N.cmp) (sym N.same_pointee)
        (leaves_ordered N.value_of N.number_of N.cmp N.definitions N.kind N.byte_count N.size_law
        N.value_law N.order_law) };

    fn compare(a: RawView<'_>, b: RawView<'_>) -> Ordering {
        let a: Ref<'_, N> = Ref::at(a);
        let b: Ref<'_, N> = Ref::at(b);
        a.get().cmp(&b.get())
    }

    fn hash_part<H: Hasher>(part: RawView<'_>, state: &mut H) {
        let view: Ref<'_, N> = Ref::at(part);
        view.get().hash(state);
    }

    fn settling_bytes() -> usize {
        N::byte_count()
    }
}
