// Views compared to native values.

ghost use Rattle.std.specs.Prelude.{◌≡◌, IsTrue, nat_eq};
ghost use Rattle.std.proofs.Common.{sym};
ghost use Rattle.std.specs.declared.cmp.Ordering.{Ordering as Order};
ghost use Rattle.std.specs.Cmp.Lexicographic.{slice_cmp, pointwise};
ghost use Rattle.std.specs.Ordering.{is_eq, nat_cmp};
ghost use Rattle.archive_check.specs.Reads.{bytes_at};
ghost use Rattle.archive_check.specs.Readable.{string_text};
ghost use Rattle.archive_check.specs.Viewed.{Viewed};
ghost use Rattle.archive_check.specs.Definitions.{no_definition};
ghost use Rattle.archive_check.specs.Shape.{leaf, non_zero, str, one};
ghost use Rattle.archive_check.specs.Value.{number, text_value};
ghost use Rattle.archive_types.specs.Compared.{Standing, standing, number_alike};
ghost use Rattle.archive_types.specs.Members.OrderedParts.{as_native_pointee, leaves_native, non_zero_law, non_zero_size};
ghost use Rattle.archive_types.specs.Words.Seen.{shown, ViewComparesTo, ViewEquals};
ghost use Rattle.archive_types.specs.ValueOrder.{OrdersNative};

use super::Ordered;
use super::texts::text_order;
use crate::primitive::{Plain, Source};
use crate::string::{ArchivedStr, ArchivedString};
use crate::traits::Archive;
use crate::view::{RawView, Ref};
use archive_nonzero::NonZero;
use archive_num::{Integer, LittleEndian};
use std::cmp::Ordering;

/// Compares an archived type with native values of type `U`, such as `ArchivedString` with
/// `String`.
///
/// Archived numbers, `bool`, `char`, strings, boxes, vectors and options implement it, for what
/// they archive. Callers use `cmp_native` and `eq_native` of a view:
///
/// ```
/// let view = access::<ArchivedVec<ArchivedU32>>(alloc, bytes.as_slice())?;
/// let same = view.eq_native(&numbers);          // numbers: Vec<u32>
/// ```
///
/// rkyv 0.8.18 has operators between the two types.
pub trait CompareNative<U: Archive>: Ordered {
    // The order of a part and a value.
    ghost native_order: { Standing → U → Order };

    /// The order of what the part shows and `value`. The caller must ensure that the part was
    /// validated.
    fn compare_native(part: RawView<'_>, value: &U) -> Ordering
        requires { Viewed Self.definitions part.bytes.now part.pos Self.pointee part.len }
        ensures { result ≡ native_order (standing part.entry.bytes.now part.entry.pos
            part.entry.len) value.now };

    // A value is compared as the parts are that equal it.
    ghost agrees: { (x y : Standing) (u : U) → IsTrue (is_eq (native_order x u)) → Self.order y x
        ≡ native_order y u };

    // It is the order of the value that the part means and of the value's own meaning.
    ghost native_by_value: { OrdersNative Self.definitions Self.pointee U.meaning native_order };
}

impl<'a, T: Ordered> Ref<'a, T> {
    /// The order of what the view shows and a native value.
    #[tactic(auto, using(crate::proofs::Comparing::ComparedValues::compares))]
    pub fn cmp_native<U: Archive>(self, value: &U) -> Ordering
    where
        T: CompareNative<U>,
        ensures order { result ≡ T.native_order (shown self.entry) value.now }
        ensures by_value { ViewComparesTo self.entry (U.meaning value.now) result }
    {
        T::compare_native(self.part(), value)
    }

    /// Whether what the view shows equals a native value.
    #[tactic(auto, using(crate::proofs::Comparing::ComparedValues::equals))]
    pub fn eq_native<U: Archive>(self, value: &U) -> bool
    where
        T: CompareNative<U>,
        ensures order { result ≡ is_eq (T.native_order (shown self.entry) value.now) }
        ensures by_value { ViewEquals self.entry (U.meaning value.now) result }
    {
        T::compare_native(self.part(), value).is_eq()
    }
}

impl<N: Source> CompareNative<N> for LittleEndian<N> {
    ghost native_order = { λ v u. N.cmp (N.number_of (bytes_at v.bytes v.pos N.byte_count)) u };

    ghost agrees = { λ x y u. number_alike N.total (N.number_of
        (bytes_at x.bytes x.pos N.byte_count)) (N.number_of (bytes_at y.bytes y.pos N.byte_count))
        u };

    ghost native_by_value = { leaves_native N.value_of N.number_of N.cmp no_definition N.kind
        N.byte_count N.size_law N.value_law N.order_law };

    fn compare_native(part: RawView<'_>, value: &N) -> Ordering {
        let view: Ref<'_, LittleEndian<N>> = Ref::at(part);
        view.get().cmp(value)
    }
}

impl<N: Integer + Source> CompareNative<N> for NonZero<N> {
    ghost native_order = { λ v u. N.cmp (N.number_of (bytes_at v.bytes v.pos N.byte_count)) u };

    ghost agrees = { λ x y u. number_alike N.total (N.number_of
        (bytes_at x.bytes x.pos N.byte_count)) (N.number_of (bytes_at y.bytes y.pos N.byte_count))
        u };

    ghost native_by_value = { leaves_native N.value_of N.number_of N.cmp no_definition
        (non_zero N.sign N.width) N.byte_count (non_zero_size N.sign N.width N.kind N.byte_count
        N.integer_law N.size_law) (non_zero_law N.value_of N.number_of N.sign N.width N.kind
        N.integer_law N.value_law) N.order_law };

    fn compare_native(part: RawView<'_>, value: &N) -> Ordering {
        let view: Ref<'_, NonZero<N>> = Ref::at(part);
        view.get().cmp(value)
    }
}

impl<N: Plain> CompareNative<N> for N {
    ghost native_order = { λ v u. N.cmp (N.number_of (bytes_at v.bytes v.pos N.byte_count)) u };

    ghost agrees = { λ x y u. number_alike N.total (N.number_of
        (bytes_at x.bytes x.pos N.byte_count)) (N.number_of (bytes_at y.bytes y.pos N.byte_count))
        u };

    ghost native_by_value = { as_native_pointee N.definitions (one (leaf N.kind)) N.pointee
        (λ n. number (N.value_of n)) (λ v u. N.cmp (N.number_of
        (bytes_at v.bytes v.pos N.byte_count)) u) (sym N.same_pointee)
        (leaves_native N.value_of N.number_of N.cmp N.definitions N.kind N.byte_count N.size_law
        N.value_law N.order_law) };

    fn compare_native(part: RawView<'_>, value: &N) -> Ordering {
        let view: Ref<'_, N> = Ref::at(part);
        view.get().cmp(value)
    }
}

impl<'a> Ref<'a, ArchivedStr> {
    /// The order of the text and another one, by their bytes.
    pub fn cmp_str(self, text: &str) -> Ordering
        ensures bytes { result ≡ slice_cmp nat_cmp (bytes_at self.entry.bytes.now self.entry.pos
            self.entry.len) text.now }
        ensures by_value { ViewComparesTo self.entry (text_value text.now) result }
    {
        text_order(self.as_str(), text)
    }

    /// Whether it is the same text as another one.
    pub fn eq_str(self, text: &str) -> bool
        ensures bytes { result ≡ pointwise nat_eq (bytes_at self.entry.bytes.now self.entry.pos
            self.entry.len) text.now }
        ensures by_value { ViewEquals self.entry (text_value text.now) result }
    {
        self.as_str() == text
    }
}

impl<'a> Ref<'a, ArchivedString> {
    /// The order of the text, wherever it lies, and another one, by their bytes.
    pub fn cmp_str(self, text: &str) -> Ordering
        ensures bytes { result ≡ slice_cmp nat_cmp (string_text self.entry.bytes.now self.entry.pos)
            text.now }
        ensures by_value { ViewComparesTo self.entry (text_value text.now) result }
    {
        text_order(self.as_str(), text)
    }

    /// Whether the text, wherever it lies, is the same as another one.
    pub fn eq_str(self, text: &str) -> bool
        ensures bytes { result ≡ pointwise nat_eq (string_text self.entry.bytes.now self.entry.pos)
            text.now }
        ensures by_value { ViewEquals self.entry (text_value text.now) result }
    {
        self.as_str() == text
    }
}
