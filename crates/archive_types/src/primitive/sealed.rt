// Leaves that are written over: numbers, bools, chars, and numbers that aren't 0.

ghost use Rattle.std.specs.Prelude.{◌≡◌, ◌==◌, ⊤, false, refl, pos, [], ◌∷◌, slice_index};
ghost use Rattle.std.specs.Int.{w8, cast_signed, cast_unsigned};
ghost use Rattle.archive_check.proofs.LittleEndian.{length-little_bytes};
ghost use Rattle.archive_check.specs.Layout.{kind_size};
ghost use Rattle.archive_check.specs.LittleEndian.{little_bytes, little_number};
ghost use Rattle.archive_check.specs.Shape.{Kind as KindOf, bool, number, signed, unsigned, leaf, non_zero, one};
ghost use Rattle.archive_types.specs.Sealed.{Encodes, value_encodes, non_zero_encodes, non_zero_size};
ghost use Rattle.archive_num.specs.Digits.{is_zero, bool_byte};
ghost use Rattle.archive_num.specs.NumberLaws.{bool-leaf, bool-number, bool-value, number-leaf, signed-number, signed-value, unsigned-number, unsigned-value};

use archive_check::format::traits::ArchivePointee;
use archive_nonzero::NonZero;
use archive_num::{Integer, LittleEndian, Native};

/// A leaf that a seal writes over. So one implementation writes all of them.
pub trait SealedLeaf: ArchivePointee {
    /// What is written over it.
    type Written: Native;

    // The leaf.
    ghost kind: { KindOf };

    // Whether it may hold a value.
    ghost can_hold: { Self.Written → Type 0 };

    // As a pointee it is its leaf.
    ghost same_pointee: { Self.pointee ≡ one (leaf kind) };

    // It has so many bytes as a value.
    ghost same_size: { kind_size kind ≡ Self.Written.byte_count };

    // Those of each value that it may hold are legal there, and say that value.
    ghost encodes: { (x : Self.Written) → Self.Written.fits x → can_hold x
        → Encodes kind (Self.Written.bytes_of x) (Self.Written.value_of x) };
}

impl<N: Native> SealedLeaf for LittleEndian<N> {
    type Written = N;

    ghost kind = { N.kind };

    ghost can_hold = { λ _. ⊤ };

    ghost same_pointee = { refl };

    ghost same_size = { N.size_law };

    ghost encodes = { λ x fits _. value_encodes N.value_of N.number_of N.bytes_of N.kind x
        N.value_law (N.number_law x fits) (N.leaf_law x fits) };
}

impl<N: Integer> SealedLeaf for NonZero<N> {
    type Written = N;

    ghost kind = { non_zero N.sign N.width };

    ghost can_hold = { λ x. is_zero (N.value_of x) ≡ false };

    ghost same_pointee = { refl };

    ghost same_size = { non_zero_size N.kind N.sign N.width N.byte_count N.integer_law N.size_law };

    ghost encodes = { λ x fits other. non_zero_encodes N.kind N.sign N.width (N.bytes_of x)
        (N.value_of x) N.integer_law (value_encodes N.value_of N.number_of N.bytes_of N.kind x
        N.value_law (N.number_law x fits) (N.leaf_law x fits)) other };
}

impl SealedLeaf for bool {
    type Written = bool;

    ghost kind = { bool };

    ghost can_hold = { λ _. ⊤ };

    ghost same_pointee = { refl };

    ghost same_size = { refl };

    ghost encodes = { λ x _ _. value_encodes (λ b. pos (bool_byte b)) (λ bs. slice_index bs 0 == 1)
        (λ b. bool_byte b ∷ []) bool x bool-value (bool-number x) (bool-leaf x) };
}

impl SealedLeaf for u8 {
    type Written = u8;

    ghost kind = { number unsigned w8 };

    ghost can_hold = { λ _. ⊤ };

    ghost same_pointee = { refl };

    ghost same_size = { refl };

    ghost encodes = { λ x fits _. value_encodes (λ n. pos n) little_number (little_bytes 1)
        (number unsigned w8) x (unsigned-value w8) (unsigned-number w8 x fits)
        (number-leaf unsigned w8 (little_bytes 1 x) (length-little_bytes 1 x)) };
}

impl SealedLeaf for i8 {
    type Written = i8;

    ghost kind = { number signed w8 };

    ghost can_hold = { λ _. ⊤ };

    ghost same_pointee = { refl };

    ghost same_size = { refl };

    ghost encodes = { λ x fits _. value_encodes (λ z. z) (λ bs. cast_signed w8 (little_number bs))
        (λ z. little_bytes 1 (cast_unsigned w8 z)) (number signed w8) x (signed-value w8)
        (signed-number w8 x fits) (number-leaf signed w8 (little_bytes 1 (cast_unsigned w8 x))
        (length-little_bytes 1 (cast_unsigned w8 x))) };
}
