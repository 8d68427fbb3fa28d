// Strings, boxes, vectors and options compared to native ones: so what holds them, as a vector of
// strings, is compared too.

ghost use Rattle.std.specs.Prelude.{◌≡◌, string_bytes};
ghost use Rattle.std.specs.Cmp.Lexicographic.{slice_cmp};
ghost use Rattle.std.specs.Ordering.{nat_cmp};
ghost use Rattle.archive_check.specs.Readable.{string_text};
ghost use Rattle.archive_check.specs.Definitions.{no_definition};
ghost use Rattle.archive_check.specs.Shape.{one};
ghost use Rattle.archive_types.specs.Compared.{elements, pointee_at, slice_of, value_of, option_order};
ghost use Rattle.archive_types.specs.Members.ComparedNative.{text_alike, lists_alike, option_alike, strings_native, boxes_native, vecs_native};
ghost use Rattle.archive_types.specs.Members.OrderedParts.{as_native_pointee, option_native};

use super::CompareNative;
use crate::boxed::ArchivedBox;
use crate::option::ArchivedOption;
use crate::string::ArchivedString;
use crate::traits::{Archive, Portable, PortablePointee};
use crate::vec::ArchivedVec;
use crate::view::{RawView, Ref};
use std::cmp::Ordering;

impl CompareNative<String> for ArchivedString {
    ghost native_order = { λ v s. slice_cmp nat_cmp (string_text v.bytes v.pos) (string_bytes s) };

    ghost agrees = { λ x y s. text_alike (string_text x.bytes x.pos) (string_text y.bytes y.pos)
        (string_bytes s) };

    ghost native_by_value = { strings_native string_bytes no_definition };

    fn compare_native(part: RawView<'_>, value: &String) -> Ordering {
        let view: Ref<'_, ArchivedString> = Ref::at(part);
        view.cmp_str(value.as_str())
    }
}

impl<T: PortablePointee + CompareNative<U>, U: Archive> CompareNative<Box<U>> for ArchivedBox<T> {
    ghost native_order = { λ v b. T.native_order (pointee_at T.pointee v) b.value };

    ghost agrees = { λ x y b. T.agrees (pointee_at T.pointee x) (pointee_at T.pointee y) b.value };

    ghost native_by_value = { boxes_native (λ b. b.value) T.definitions T.pointee U.meaning
        T.native_order T.native_by_value };

    fn compare_native(part: RawView<'_>, value: &Box<U>) -> Ordering {
        let view: Ref<'_, ArchivedBox<T>> = Ref::at(part);
        T::compare_native(view.get().part(), &**value)
    }
}

impl<T: Portable + CompareNative<U>, U: Archive> CompareNative<Vec<U>> for ArchivedVec<T> {
    ghost native_order = { λ v us. slice_cmp T.native_order (elements T.layout.size (slice_of v))
        us.items };

    ghost agrees = { λ x y us. lists_alike T.order T.native_order T.agrees
        (elements T.layout.size (slice_of x)) (elements T.layout.size (slice_of y)) us.items };

    ghost native_by_value = { vecs_native (λ us. us.items) T.definitions T.shape T.layout
        T.has_layout U.meaning T.native_order (as_native_pointee T.definitions T.pointee
        (one T.shape) U.meaning T.native_order T.is_one T.native_by_value) };

    fn compare_native(part: RawView<'_>, value: &Vec<U>) -> Ordering {
        let view: Ref<'_, ArchivedVec<T>> = Ref::at(part);
        view.cmp_slice(value.as_slice())
    }
}

impl<T: Portable + CompareNative<U>, U: Archive> CompareNative<Option<U>> for ArchivedOption<T> {
    ghost native_order = { λ v o. option_order T.native_order (value_of T.layout.align v) o };

    ghost agrees = { λ x y o. option_alike T.order T.native_order T.agrees
        (value_of T.layout.align x) (value_of T.layout.align y) o };

    ghost native_by_value = { option_native T.definitions T.shape T.layout T.is_align T.has_layout
        U.meaning T.native_order (as_native_pointee T.definitions T.pointee (one T.shape) U.meaning
        T.native_order T.is_one T.native_by_value) };

    fn compare_native(part: RawView<'_>, value: &Option<U>) -> Ordering {
        let view: Ref<'_, ArchivedOption<T>> = Ref::at(part);
        view.cmp_option(value)
    }
}
