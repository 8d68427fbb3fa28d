// Results are compared as Rust's are: `Ok` is less than `Err`, two values are compared as values and two errors as errors.

ghost use Rattle.std.specs.Prelude.{◌≡◌};
ghost use Rattle.std.specs.Cmp.{on_total};
ghost use Rattle.std.specs.Hash as fed;
ghost use Rattle.std.specs.Ordering.{on};
ghost use Rattle.std.specs.Result.{result_cmp};
ghost use Rattle.archive_check.specs.Shape.{one};
ghost use Rattle.archive_enum.specs.Orders.{results_total};
ghost use Rattle.archive_types.specs.Compared.{result_in, result_fed};
ghost use Rattle.archive_types.specs.Members.OrderedParts.{as_pointee, results_ordered};

use super::Ordered;
use crate::result::ArchivedResult;
use crate::traits::Portable;
use crate::view::{RawView, Ref};
use std::cmp::Ordering;
use std::hash::{Hash, Hasher};

impl<T: Portable + Ordered, E: Portable + Ordered> Ordered for ArchivedResult<T, E> {
    ghost order = { on (result_in T.layout.align E.layout.align) (result_cmp T.order E.order) };

    ghost hash_input = { λ v. fed.result T.hash_input E.hash_input
        (result_in T.layout.align E.layout.align v) };

    ghost settling = { 0 };

    ghost total = { on_total (result_in T.layout.align E.layout.align)
        (results_total T.total E.total) };

    ghost respects = { λ v w. result_fed T.order E.order T.hash_input E.hash_input T.respects
        E.respects (result_in T.layout.align E.layout.align v)
        (result_in T.layout.align E.layout.align w) };

    ghost level = { tt };

    ghost by_value = { results_ordered T.definitions E.definitions T.shape E.shape T.layout E.layout
        T.is_align E.is_align T.has_layout E.has_layout T.order E.order
        (as_pointee T.definitions T.pointee (one T.shape) T.order T.is_one T.by_value)
        (as_pointee E.definitions E.pointee (one E.shape) E.order E.is_one E.by_value) };

    fn compare(a: RawView<'_>, b: RawView<'_>) -> Ordering {
        let a: Ref<'_, ArchivedResult<T, E>> = Ref::at(a);
        let b: Ref<'_, ArchivedResult<T, E>> = Ref::at(b);
        match (a.as_ref(), b.as_ref()) {
            (Ok(a), Ok(b)) => T::compare(a.part(), b.part()),
            (Ok(_), Err(_)) => Ordering::Less,
            (Err(_), Ok(_)) => Ordering::Greater,
            (Err(a), Err(b)) => E::compare(a.part(), b.part()),
        }
    }

    fn hash_part<H: Hasher>(part: RawView<'_>, state: &mut H) {
        let view: Ref<'_, ArchivedResult<T, E>> = Ref::at(part);
        match view.as_ref() {
            Ok(value) => {
                state.write_isize(0);
                T::hash_part(value.part(), state);
            }
            Err(error) => {
                state.write_isize(1);
                E::hash_part(error.part(), state);
            }
        }
    }

    fn settling_bytes() -> usize {
        0
    }
}
