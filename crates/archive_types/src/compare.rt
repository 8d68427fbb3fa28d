//! Comparisons: equality, order and hashes of views of one type, as in rkyv 0.8.18 of references to
//! the archived type. They compare what the views show, wherever it lies; they never fail and take
//! no memory.

ghost use Rattle.std.specs.Prelude.{◌≡◌, List, ℕ, IsTrue, fold, refl};
ghost use Rattle.std.specs.Cmp.{IsTotalOrder, on_total, on_per, on_equiv, on_po, partial_equiv_from_equiv, eq_by_cmp_equiv, partial_order_from_total};
ghost use Rattle.std.specs.Ordering.{on, eq_by_cmp, as_partial_cmp};
ghost use Rattle.std.specs.declared.cmp.Ordering.{Ordering as Order};
ghost use Rattle.archive_check.specs.Viewed.{Viewed};
ghost use Rattle.archive_types.specs.Compared.{Standing, standing, AreLevelBy};
ghost use Rattle.archive_types.specs.ValueOrder.{OrdersValues};
ghost use Rattle.archive_types.specs.Words.Seen.{part_shown};

mod leaves;
mod lists;
mod native;
mod native_lists;
mod native_maps;
mod native_owners;
mod options;
mod owners;
mod pairs;
mod results;
mod runs;
mod said;
mod texts;

use crate::traits::ArchivePointee;
use crate::view::{RawView, Ref};
pub use native::CompareNative;
use std::cmp::Ordering;
use std::hash::{Hash, Hasher};

/// Gives the views of an archived type their equality, order and hash: those of the values that
/// they mean.
///
/// Numbers, `bool`, `char`, texts, strings, slices, vectors, boxes, options, results and acyclic
/// shared pointers implement it. Callers use the operators of views:
///
/// ```
/// let first = access::<ArchivedString>(alloc, one.as_slice())?;
/// let second = access::<ArchivedString>(alloc, other.as_slice())?;
/// let is_less = first < second;
/// ```
///
/// rkyv 0.8.18 has code for each type.
pub trait Ordered: ArchivePointee {
    // The order of two parts.
    ghost order: { Standing → Standing → Order };

    // What a part feeds a hasher.
    ghost hash_input: { Standing → List (List ℕ) };

    /// The order of what two parts show. The caller must ensure that both were validated.
    fn compare(a: RawView<'_>, b: RawView<'_>) -> Ordering
        requires first { Viewed Self.definitions a.bytes.now a.pos Self.pointee a.len }
        requires second { Viewed Self.definitions b.bytes.now b.pos Self.pointee b.len }
        ensures { result ≡ order (part_shown a.entry) (part_shown b.entry) };

    /// Feeds a hasher with what a part shows. The caller must ensure that it was validated.
    fn hash_part<H: Hasher>(part: RawView<'_>, state: &mut H)
        requires { Viewed Self.definitions part.bytes.now part.pos Self.pointee part.len }
        ensures { state.new ≡ fold H.write state.old (hash_input (part_shown part.entry)) };

    // How many bytes settle that two parts are level: 0 where none do.
    ghost settling: { ℕ };

    /// How many bytes of a part, the same in another one, settle that the two are equal; 0 where none do. So runs of them are skipped by their bytes.
    fn settling_bytes() -> usize
        ensures { result ≡ settling };

    // It is a total order.
    ghost total: { IsTotalOrder order };

    // What is equal feeds a hasher alike.
    ghost respects: { (x y : Standing) → IsTrue (eq_by_cmp order x y) → hash_input x
        ≡ hash_input y };

    // Parts with the same settling bytes are level.
    ghost level: { AreLevelBy settling order };

    // It is the order of the values that the parts mean.
    ghost by_value: { OrdersValues Self.definitions Self.pointee order };
}

/// Two views are equal where neither is less.
impl<'a, T: Ordered> PartialEq for Ref<'a, T> {
    ghost eq = { on (λ v. standing v.bytes.now v.pos v.len) (eq_by_cmp T.order) };

    ghost laws = { on_per (λ v. standing v.bytes.now v.pos v.len)
        (partial_equiv_from_equiv (eq_by_cmp_equiv T.total)) };

    fn eq(&self, other: &Ref<'a, T>) -> bool {
        T::compare(self.part(), other.part()).is_eq()
    }
}

impl<'a, T: Ordered> Eq for Ref<'a, T> {
    ghost laws = { on_equiv (λ v. standing v.bytes.now v.pos v.len) (eq_by_cmp_equiv T.total) };
}

impl<'a, T: Ordered> PartialOrd for Ref<'a, T> {
    ghost partial_cmp = { on (λ v. standing v.bytes.now v.pos v.len) (as_partial_cmp T.order) };

    ghost laws = { on_po (λ v. standing v.bytes.now v.pos v.len)
        (partial_order_from_total T.total) };

    fn partial_cmp(&self, other: &Ref<'a, T>) -> Option<Ordering> {
        Some(self.cmp(other))
    }
}

impl<'a, T: Ordered> Ord for Ref<'a, T> {
    ghost cmp = { on (λ v. standing v.bytes.now v.pos v.len) T.order };

    ghost total = { on_total (λ v. standing v.bytes.now v.pos v.len) T.total };

    ghost matches_partial_cmp = { λ x y. refl };

    ghost matches_eq = { λ x y. refl };

    fn cmp(&self, other: &Ref<'a, T>) -> Ordering {
        T::compare(self.part(), other.part())
    }
}

/// Equal views feed a hasher alike.
impl<'a, T: Ordered> Hash for Ref<'a, T> {
    ghost hash_input = { λ v. T.hash_input (standing v.bytes.now v.pos v.len) };

    ghost respects_eq = { λ x y e. T.respects (standing x.bytes.now x.pos x.len)
        (standing y.bytes.now y.pos y.len) e };

    fn hash<H: Hasher>(&self, state: &mut H) {
        T::hash_part(self.part(), state);
    }
}
