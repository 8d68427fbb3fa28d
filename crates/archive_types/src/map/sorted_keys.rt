// The keys of maps as sources.

ghost use Rattle.std.specs.Prelude.{◌≡◌, refl, pos, string_bytes};
ghost use Rattle.std.specs.declared.cmp.Ordering.TheVariants.{Equal};
ghost use Rattle.archive_num.specs.NumberLaws.{unsigned-order};
ghost use Rattle.archive_types.specs.Maps.{AreSame, numbers_exact, texts_exact};
ghost use Rattle.archive_types.specs.ValueOrder.{value_cmp};

use crate::primitive::Source;
use crate::traits::Archive;
use archive_nonzero::NonZero;
use archive_num::{Integer, LittleEndian, Native};

/// A source for keys of a sorted map: its order is that of the archived keys.
///
/// Integers, `usize`, `isize`, `char`, `String` and the archived numbers implement it. Who
/// implements it for another type proves its two laws.
pub trait SortedKey: Archive + Ord {
    // Two values are in the order of what they mean.
    ghost sorted: { (x y : Self) → Self.cmp x y ≡ value_cmp (Self.meaning x) (Self.meaning y) };

    // And two that are equal are the same in an archive, so that a map which is read back may keep either.
    ghost exact: { (x y : Self) → Self.cmp x y ≡ Equal
        → AreSame (Self.meaning x) (Self.meaning y) (Self.keys x) (Self.keys y) };
}

impl<N: Source> SortedKey for N {
    ghost sorted = { N.order_law };

    ghost exact = { numbers_exact N.cmp N.value_of N.order_law };
}

impl<N: Native> SortedKey for LittleEndian<N> {
    ghost sorted = { N.order_law };

    ghost exact = { numbers_exact N.cmp N.value_of N.order_law };
}

impl<N: Integer> SortedKey for NonZero<N> {
    ghost sorted = { N.order_law };

    ghost exact = { numbers_exact N.cmp N.value_of N.order_law };
}

impl SortedKey for usize {
    ghost sorted = { unsigned-order };

    ghost exact = { numbers_exact Self.cmp pos unsigned-order };
}

impl SortedKey for isize {
    ghost sorted = { λ x y. refl };

    ghost exact = { numbers_exact Self.cmp (λ n. n) (λ x y. refl) };
}

impl SortedKey for String {
    ghost sorted = { λ x y. refl };

    ghost exact = { λ x y. texts_exact (string_bytes x) (string_bytes y) };
}
