// The types of the keys of sorted maps.

ghost use Rattle.std.specs.Prelude.{◌≡◌, refl};
ghost use Rattle.std.specs.Int.{w8};
ghost use Rattle.archive_check.specs.Shape.{Key as KeyOf, leaf_key, key_shape, number, unsigned, signed};
ghost use Rattle.archive_check.specs.Layout.{key_size, key_align};
ghost use Rattle.archive_check.specs.Expressions.{key_of};

use super::Portable;
use crate::format::expr::{IntegerKind, Key, Kind};

/// A type whose values may be the keys of a sorted map: numbers, those that aren't 0, chars and strings.
pub trait MapKey: Portable {
    // What it is as a key.
    ghost key: { KeyOf };

    /// What it is as a key.
    fn key() -> Key
        ensures { key_of result ≡ key };

    ghost is_key: { Self.shape ≡ key_shape key };

    ghost key_laid: { Self.layout ≡ record { size = key_size key; align = key_align key } };
}

impl MapKey for u8 {
    ghost key = { leaf_key (number unsigned w8) };

    ghost is_key = { refl };

    ghost key_laid = { refl };

    fn key() -> Key {
        Key::Leaf(Kind::Number(IntegerKind::U8))
    }
}

impl MapKey for i8 {
    ghost key = { leaf_key (number signed w8) };

    ghost is_key = { refl };

    ghost key_laid = { refl };

    fn key() -> Key {
        Key::Leaf(Kind::Number(IntegerKind::I8))
    }
}
