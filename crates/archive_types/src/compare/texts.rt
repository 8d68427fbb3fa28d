// Texts are compared by their bytes, wherever they lie, as `str` is.

ghost use Rattle.std.specs.Prelude.{◌≡◌, ◌≤◌, IfSome, length};
ghost use Rattle.std.specs.Hash as fed;
ghost use Rattle.std.specs.Cmp.Lexicographic.{slice_cmp, on_texts};
ghost use Rattle.std.specs.Ordering.{on, nat_cmp};
ghost use Rattle.archive_check.specs.Reads.{bytes_at};
ghost use Rattle.archive_check.specs.Readable.{string_text};
ghost use Rattle.archive_check.specs.Definitions.{no_definition};
ghost use Rattle.archive_types.specs.Compared.{text_fed};
ghost use Rattle.archive_types.specs.Members.OrderedParts.{texts_ordered, strings_ordered};

use super::Ordered;
use crate::string::{ArchivedStr, ArchivedString};
use crate::view::{RawView, Ref};
use archive_check::format::order::eight_bytes;
use std::cmp::Ordering;
use std::hash::{Hash, Hasher};

// The order of two texts of sixteen bytes or more by the first sixteen, where these differ. No call is made.
#[inline(always)]
fn front_order(x: &str, y: &str) -> Option<Ordering>
    requires first { 16 ≤ length x.now }
    requires second { 16 ≤ length y.now }
    ensures { IfSome result (λ r. r ≡ slice_cmp nat_cmp x.now y.now) }
{
    let (x, y) = (x.as_bytes(), y.as_bytes());
    let (first, other) = (eight_bytes(x, 0), eight_bytes(y, 0));
    if first != other {
        return Some(first.cmp(&other));
    }
    let (second, other) = (eight_bytes(x, 8), eight_bytes(y, 8));
    if second != other {
        return Some(second.cmp(&other));
    }
    None
}

// The order of two texts by their bytes, as `cmp` of `str` answers it. Where both have sixteen, and these differ, as of most texts, no call is made.
#[inline(always)]
pub(super) fn text_order(a: &str, b: &str) -> Ordering
    ensures { result ≡ slice_cmp nat_cmp a.now b.now }
{
    if a.len() >= 16 && b.len() >= 16 {
        if let Some(order) = front_order(a, b) {
            return order;
        }
    }
    a.cmp(b)
}

impl Ordered for ArchivedStr {
    ghost order = { on (λ v. bytes_at v.bytes v.pos v.len) (slice_cmp nat_cmp) };

    ghost hash_input = { λ v. fed.str (bytes_at v.bytes v.pos v.len) };

    ghost settling = { 0 };

    ghost total = { on_texts (λ v. bytes_at v.bytes v.pos v.len) };

    ghost respects = { λ v w. text_fed (bytes_at v.bytes v.pos v.len)
        (bytes_at w.bytes w.pos w.len) };

    ghost level = { tt };

    ghost by_value = { texts_ordered no_definition };

    fn compare(a: RawView<'_>, b: RawView<'_>) -> Ordering {
        let a: Ref<'_, ArchivedStr> = Ref::at(a);
        let b: Ref<'_, ArchivedStr> = Ref::at(b);
        text_order(a.as_str(), b.as_str())
    }

    fn hash_part<H: Hasher>(part: RawView<'_>, state: &mut H) {
        let view: Ref<'_, ArchivedStr> = Ref::at(part);
        view.as_str().hash(state);
    }

    fn settling_bytes() -> usize {
        0
    }
}

impl Ordered for ArchivedString {
    ghost order = { on (λ v. string_text v.bytes v.pos) (slice_cmp nat_cmp) };

    ghost hash_input = { λ v. fed.str (string_text v.bytes v.pos) };

    ghost settling = { 0 };

    ghost total = { on_texts (λ v. string_text v.bytes v.pos) };

    ghost respects = { λ v w. text_fed (string_text v.bytes v.pos) (string_text w.bytes w.pos) };

    ghost level = { tt };

    ghost by_value = { strings_ordered no_definition };

    fn compare(a: RawView<'_>, b: RawView<'_>) -> Ordering {
        let a: Ref<'_, ArchivedString> = Ref::at(a);
        let b: Ref<'_, ArchivedString> = Ref::at(b);
        if let Some(x) = a.long_text() {
            if let Some(y) = b.long_text() {
                if let Some(order) = front_order(x, y) {
                    return order;
                }
            }
        }
        a.as_str().cmp(b.as_str())
    }

    fn hash_part<H: Hasher>(part: RawView<'_>, state: &mut H) {
        let view: Ref<'_, ArchivedString> = Ref::at(part);
        view.as_str().hash(state);
    }

    fn settling_bytes() -> usize {
        0
    }
}
