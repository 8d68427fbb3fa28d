// Options are compared as Rust's are: `None` is less than `Some`, and two values are compared as
// values. What is behind a `None` isn't looked at.

ghost use Rattle.std.specs.Prelude.{◌≡◌};
ghost use Rattle.std.specs.Cmp.{on_total};
ghost use Rattle.std.specs.Cmp.Lexicographic.{options_total};
ghost use Rattle.std.specs.Hash as fed;
ghost use Rattle.std.specs.Option.{option_cmp};
ghost use Rattle.std.specs.Ordering.{on};
ghost use Rattle.archive_check.specs.Shape.{one};
ghost use Rattle.archive_types.specs.Compared.{value_of, option_fed};
ghost use Rattle.archive_types.specs.Members.OrderedParts.{as_pointee, options_ordered};

use super::Ordered;
use crate::option::ArchivedOption;
use crate::traits::Portable;
use crate::view::{RawView, Ref};
use std::cmp::Ordering;
use std::hash::{Hash, Hasher};

impl<T: Portable + Ordered> Ordered for ArchivedOption<T> {
    ghost order = { on (value_of T.layout.align) (option_cmp T.order) };

    ghost hash_input = { λ v. fed.option T.hash_input (value_of T.layout.align v) };

    ghost settling = { 0 };

    ghost total = { on_total (value_of T.layout.align) (options_total T.total) };

    ghost respects = { λ v w. option_fed T.order T.hash_input T.respects (value_of T.layout.align v)
        (value_of T.layout.align w) };

    ghost level = { tt };

    ghost by_value = { options_ordered T.definitions T.shape T.layout T.is_align T.has_layout
        T.order (as_pointee T.definitions T.pointee (one T.shape) T.order T.is_one T.by_value) };

    fn compare(a: RawView<'_>, b: RawView<'_>) -> Ordering {
        let a: Ref<'_, ArchivedOption<T>> = Ref::at(a);
        let b: Ref<'_, ArchivedOption<T>> = Ref::at(b);
        match (a.as_ref(), b.as_ref()) {
            (None, None) => Ordering::Equal,
            (None, Some(_)) => Ordering::Less,
            (Some(_), None) => Ordering::Greater,
            (Some(a), Some(b)) => T::compare(a.part(), b.part()),
        }
    }

    fn hash_part<H: Hasher>(part: RawView<'_>, state: &mut H) {
        let view: Ref<'_, ArchivedOption<T>> = Ref::at(part);
        match view.as_ref() {
            None => state.write_isize(0),
            Some(value) => {
                state.write_isize(1);
                T::hash_part(value.part(), state);
            }
        }
    }

    fn settling_bytes() -> usize {
        0
    }
}
