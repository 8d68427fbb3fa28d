// Views of slices, vectors, options and results compared to native ones.

ghost use Rattle.std.specs.Prelude.{◌≡◌, ◌+◌, ◌*◌, ◌<◌};
ghost use Rattle.std.specs.Cmp.Lexicographic.{slice_cmp};
ghost use Rattle.std.specs.Ordering.{is_eq};
ghost use Rattle.archive_check.specs.Definitions.{both};
ghost use Rattle.archive_check.specs.Shape.{one, vec};
ghost use Rattle.archive_check.specs.Value.{list};
ghost use Rattle.archive_types.specs.Compared.{elements, value_of, option_order, result_order};
ghost use Rattle.archive_types.specs.Members.Options.{option_meaning};
ghost use Rattle.archive_types.specs.Members.Results.{result_meaning};
ghost use Rattle.archive_types.specs.Runs.{each_meaning};
ghost use Rattle.archive_types.specs.Words.Seen.{shown, ViewComparesTo, ViewEquals, elements_shown, elements_in, element_shown, result_to};

use super::CompareNative;
use crate::option::ArchivedOption;
use crate::result::ArchivedResult;
use crate::slice::ArchivedSlice;
use crate::traits::{Archive, Portable};
use crate::vec::ArchivedVec;
use crate::view::Ref;
use std::cmp::Ordering;

impl<'a, T: Portable> Ref<'a, ArchivedSlice<T>> {
    /// The order of the elements and of those of a native slice: the first that differ decide, and
    /// else the lengths.
    pub fn cmp_slice<U: Archive>(self, values: &[U]) -> Ordering
    where
        T: CompareNative<U>,
        ensures order { result ≡ slice_cmp T.native_order (elements_shown T.layout.size self.entry)
            values.now }
        ensures by_value { ViewComparesTo self.entry (list (each_meaning U.meaning values.now))
            result }
    {
        compare_slice(self, values)
    }

    /// Whether the elements equal those of a native slice, and are as many.
    #[tactic(auto, using(crate::proofs::Comparing::ComparedValues::slice_equals))]
    pub fn eq_slice<U: Archive>(self, values: &[U]) -> bool
    where
        T: CompareNative<U>,
        ensures order { result ≡ is_eq (slice_cmp T.native_order
            (elements_shown T.layout.size self.entry) values.now) }
        ensures by_value { ViewEquals self.entry (list (each_meaning U.meaning values.now)) result }
    {
        self.cmp_slice(values).is_eq()
    }
}

impl<'a, T: Portable> Ref<'a, ArchivedVec<T>> {
    /// The order of the elements and of those of a native slice: the first that differ decide, and
    /// else the lengths.
    pub fn cmp_slice<U: Archive>(self, values: &[U]) -> Ordering
    where
        T: CompareNative<U>,
        ensures order { result ≡ slice_cmp T.native_order (elements_in T.layout.size self.entry)
            values.now }
        ensures by_value { ViewComparesTo self.entry (list (each_meaning U.meaning values.now))
            result }
    {
        self.as_slice().cmp_slice(values)
    }

    /// Whether the elements equal those of a native slice, and are as many.
    #[tactic(auto, using(crate::proofs::Comparing::ComparedValues::vec_equals))]
    pub fn eq_slice<U: Archive>(self, values: &[U]) -> bool
    where
        T: CompareNative<U>,
        ensures order { result ≡ is_eq (slice_cmp T.native_order
            (elements_in T.layout.size self.entry) values.now) }
        ensures by_value { ViewEquals self.entry (list (each_meaning U.meaning values.now)) result }
    {
        self.cmp_slice(values).is_eq()
    }
}

impl<'a, T: Portable> Ref<'a, ArchivedOption<T>> {
    /// The order of the option and one of the machine: `None` is less than `Some`.
    pub fn cmp_option<U: Archive>(self, option: &Option<U>) -> Ordering
    where
        T: CompareNative<U>,
        ensures order { result ≡ option_order T.native_order
            (value_of T.layout.align (shown self.entry)) option.now }
        ensures by_value { ViewComparesTo self.entry (option_meaning U.meaning option.now) result }
    {
        compare_option(self, option)
    }

    /// Whether the option equals one of the machine.
    #[tactic(auto, using(crate::proofs::Comparing::ComparedValues::option_equals))]
    pub fn eq_option<U: Archive>(self, option: &Option<U>) -> bool
    where
        T: CompareNative<U>,
        ensures order { result ≡ is_eq (option_order T.native_order
            (value_of T.layout.align (shown self.entry)) option.now) }
        ensures by_value { ViewEquals self.entry (option_meaning U.meaning option.now) result }
    {
        self.cmp_option(option).is_eq()
    }
}

impl<'a, T: Portable, E: Portable> Ref<'a, ArchivedResult<T, E>> {
    /// Whether the result equals one of the machine: both are `Ok` or both `Err`, with equal values.
    pub fn eq_result<U: Archive, W: Archive>(self, outcome: &Result<U, W>) -> bool
    where
        T: CompareNative<U>,
        E: CompareNative<W>,
        ensures order { result ≡ is_eq (result_to T.native_order E.native_order T.layout E.layout
            self.entry outcome.now) }
        ensures by_value { ViewEquals self.entry (result_meaning U.meaning W.meaning outcome.now)
            result }
    {
        is_result(self, outcome)
    }
}

// The order of an element and a value.
fn compare_native_at<U: Archive, T: Portable + CompareNative<U>>(
    view: Ref<'_, ArchivedSlice<T>>,
    index: usize,
    value: &U,
) -> Ordering
    requires { index < view.len }
    ensures { result ≡ T.native_order (element_shown T.layout.size index view.entry) value.now }
{
    T::compare_native(view.index(index).part(), value)
}

// The first that differ decide, and else the lengths.
fn compare_slice<U: Archive, T: Portable + CompareNative<U>>(
    view: Ref<'_, ArchivedSlice<T>>,
    values: &[U],
) -> Ordering
    ensures { result ≡ slice_cmp T.native_order (elements_shown T.layout.size view.entry)
        values.now }
{
    for index in 0..view.len() {
        if index >= values.len() {
            return Ordering::Greater;
        }
        let order = compare_native_at(view, index, &values[index]);
        if order.is_ne() {
            return order;
        }
    }
    view.len().cmp(&values.len())
}

// `None` is less than `Some`.
fn compare_option<U: Archive, T: Portable + CompareNative<U>>(
    view: Ref<'_, ArchivedOption<T>>,
    option: &Option<U>,
) -> Ordering
    ensures { result ≡ option_order T.native_order (value_of T.layout.align (shown view.entry))
        option.now }
{
    match (view.as_ref(), option) {
        (None, None) => Ordering::Equal,
        (None, Some(_)) => Ordering::Less,
        (Some(_), None) => Ordering::Greater,
        (Some(view), Some(value)) => T::compare_native(view.part(), value),
    }
}

// Both are `Ok` or both `Err`, with equal values.
fn is_result<
    U: Archive,
    W: Archive,
    T: Portable + CompareNative<U>,
    E: Portable + CompareNative<W>,
>(view: Ref<'_, ArchivedResult<T, E>>, outcome: &Result<U, W>) -> bool
    ensures { result ≡ is_eq (result_to T.native_order E.native_order T.layout E.layout view.entry
        outcome.now) }
{
    match (view.as_ref(), outcome) {
        (Ok(view), Ok(value)) => T::compare_native(view.part(), value).is_eq(),
        (Err(view), Err(error)) => E::compare_native(view.part(), error).is_eq(),
        (Ok(_), Err(_)) | (Err(_), Ok(_)) => false,
    }
}
