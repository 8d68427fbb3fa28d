// What is in a relative pointer behind its offset.

ghost use Rattle.std.specs.Prelude.{◌≡◌, ℕ, Bool, true, false};

use archive_num::{ArchivedUsize, FixedUsize};

/// What is in a relative pointer behind its offset: nothing, or a length. rkyv 0.8.18 takes any
/// archived type there.
pub trait Metadata: Copy {
    // Whether a length stands there.
    ghost is_length: { Bool };

    // The length.
    ghost count: { Self → ℕ };

    /// Whether there is a length.
    fn is_length() -> bool
        ensures { result ≡ is_length };

    /// The metadata of this length, which is left out if there is none.
    fn from_length(length: FixedUsize) -> Self
        ensures { is_length ≡ true → count result ≡ length };

    /// The length; 0 if there is none.
    fn to_length(self) -> FixedUsize
        ensures { result ≡ count self };
}

impl Metadata for () {
    ghost is_length = { false };

    ghost count = { λ _. 0 };

    fn is_length() -> bool {
        false
    }

    fn from_length(_length: FixedUsize) {}

    fn to_length(self) -> FixedUsize {
        0
    }
}

impl Metadata for ArchivedUsize {
    ghost is_length = { true };

    ghost count = { λ m. m };

    fn is_length() -> bool {
        true
    }

    fn from_length(length: FixedUsize) -> ArchivedUsize {
        ArchivedUsize::from_native(length)
    }

    fn to_length(self) -> FixedUsize {
        self.to_native()
    }
}
