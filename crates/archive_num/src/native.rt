//! Values of the machine, and the leaves that they are archived as.

ghost use Rattle.std.specs.Prelude.{◌≡◌, ℕ, ℤ, List, length};
ghost use Rattle.std.specs.Int.{Width};
ghost use Rattle.std.specs.Ordering.{int_cmp};
ghost use Rattle.archive_check.specs.Shape.{Kind as KindOf, Sign, number};
ghost use Rattle.archive_check.specs.Layout.{kind_size};
ghost use Rattle.archive_check.specs.Reads.{IsLegal, kind_value};
ghost use Rattle.archive_check.specs.Expressions.{kind_of, integer_of};
ghost use Rattle.archive_check.specs.LittleEndian.{AreBytes};
ghost use Rattle.archive_num.specs.Digits.{is_zero};

use archive_check::format::expr::{IntegerKind, Kind};
use std::hash::Hash;

mod others;
mod signed;
mod unsigned;

/// A native value with its bytes in an archive: a number, a bool, a char, or nothing.
pub trait Native: Copy + Ord + Hash {
    // The leaf that it is archived as.
    ghost kind: { KindOf };

    // How many bytes stand for a value.
    ghost byte_count: { ℕ };

    // The bytes that stand for a value.
    ghost bytes_of: { Self → List ℕ };

    // The value that bytes stand for.
    ghost number_of: { List ℕ → Self };

    // The whole number that a value is in an archive.
    ghost value_of: { Self → ℤ };

    // Whether the type has this value.
    ghost fits: { Self → Type 0 };

    // Whether these bytes stand for a value of the type.
    ghost are_legal: { List ℕ → Type 0 };

    /// The leaf that it is archived as.
    fn kind() -> Kind
        ensures { kind_of result ≡ kind };

    /// How many bytes a value has in an archive.
    fn byte_count() -> usize
        ensures { result ≡ byte_count };

    /// Writes the bytes of `self` over `out`, the lowest first. The caller must ensure that `out`
    /// has `byte_count` bytes.
    fn write_to(self, out: &mut [u8])
        requires { length out.old ≡ byte_count }
        ensures bytes { out.new ≡ bytes_of self }
        ensures fits { fits self };

    /// The value of `bytes`, the lowest first. The caller must ensure that there are `byte_count`
    /// of them, and that they are those of a value, as the bytes of a leaf of its kind are
    /// (`archive_check::format::leaf::is_legal`).
    fn read_from(bytes: &[u8]) -> Self
        requires length { length bytes.now ≡ byte_count }
        requires legal { are_legal bytes.now }
        ensures { result ≡ number_of bytes.now };

    // So many bytes as the leaf has.
    ghost size_law: { kind_size kind ≡ byte_count };

    // Each value has so many.
    ghost length_law: { (x : Self) → length (bytes_of x) ≡ byte_count };

    // They are bytes.
    ghost bytes_law: { (x : Self) → AreBytes (bytes_of x) };

    // Bytes that are legal for the leaf stand for a value.
    ghost kind_law: { (bs : List ℕ) → ∥ IsLegal kind bs ∥₁ → are_legal bs };

    // A value's bytes stand for one.
    ghost legal_law: { (x : Self) → fits x → are_legal (bytes_of x) };

    // They are legal for the leaf.
    ghost leaf_law: { (x : Self) → fits x → IsLegal kind (bytes_of x) };

    // The bytes of a value stand for that value.
    ghost number_law: { (x : Self) → fits x → number_of (bytes_of x) ≡ x };

    // And the value that bytes stand for has those bytes.
    ghost reads_law: { (bs : List ℕ) → length bs ≡ byte_count → AreBytes bs → are_legal bs
        → bytes_of (number_of bs) ≡ bs };

    // What the definitions read in a leaf's bytes is the value that they stand for.
    ghost value_law: { (bs : List ℕ) → IsLegal kind bs → value_of (number_of bs)
        ≡ kind_value kind bs };

    // Values are ordered as these whole numbers are.
    ghost order_law: { (x y : Self) → Self.cmp x y ≡ int_cmp (value_of x) (value_of y) };
}

/// A number of the machine, which may be 0.
pub trait Integer: Native {
    // Whether it has a sign.
    ghost sign: { Sign };

    // How wide it is.
    ghost width: { Width };

    /// Its sign and width.
    fn integer_kind() -> IntegerKind
        ensures { integer_of result ≡ (sign, width) };

    /// Whether it is 0.
    fn is_zero(self) -> bool
        ensures { result ≡ is_zero (Self.value_of self) };

    // Its leaf is the number of that sign and width.
    ghost integer_law: { Self.kind ≡ number sign width };
}
