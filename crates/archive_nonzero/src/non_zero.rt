// The format of a number that isn't 0.

ghost use Rattle.std.specs.Prelude.{◌≡◌, true, false, ⊤, refl};
ghost use Rattle.archive_check.specs.Shape.{leaf, one, non_zero, leaf_key};
ghost use Rattle.archive_check.specs.Layout.{kind_size};
ghost use Rattle.archive_check.specs.Definitions.{no_definition};
ghost use Rattle.archive_check.specs.Members.LeafLayout.{leaf_layout, leaf_align, leaf_has_layout, no_definition_reached};
ghost use Rattle.archive_check.specs.SelfCheck.Laws.{leaf_check};
ghost use Rattle.archive_check.specs.Expressions.{kind_of};
ghost use Rattle.archive_num.specs.Digits.{is_zero};

use archive_check::context::ArchiveContext;
use archive_check::format::error::Error;
use archive_check::format::expr::{Defs, Expr, Key, Kind};
use archive_check::format::traits::{ArchivePointee, MapKey, Portable};
use archive_check::self_check::{SelfCheck, check_first_leaves, check_leaf};
use archive_num::Integer;
use std::alloc::{AllocError, Global};
use std::cmp::Ordering;
use std::fmt;
use std::hash::{Hash, Hasher};
use std::marker::Model;

/// A number that isn't 0, as an archive holds it: its bytes, the lowest first. In a contract it is
/// its number. In its place rkyv 0.8.18 has the types of rend, one for each number.
#[derive(Copy, PartialEq, Eq, PartialOrd, Ord, Hash, Debug)]
pub struct NonZero<N: Integer> {
    number: N,
}

impl<N: Integer> Model for NonZero<N> {
    ghost Value = { N };

    ghost view = { λ l. l.number };

    ghost invariant = { λ l. is_zero (N.value_of l.number) ≡ false };

    ghost inverse = { λ n. record { number = n } };
}

impl<N: Integer> Clone for NonZero<N> {
    ghost is_clone = { λ x y. y ≡ x };

    ghost is_infallible = { λ _. ⊤ };

    fn clone(&self) -> Result<NonZero<N>, AllocError> {
        Ok(*self)
    }
}

impl<N: Integer> NonZero<N> {
    /// The archived form of `number`. The caller must ensure that it isn't 0, as `Integer::is_zero`
    /// says; it never fails.
    pub fn from_native(number: N) -> NonZero<N>
        requires { is_zero (N.value_of number) ≡ false }
        ensures { result ≡ number }
    {
        NonZero { number }
    }

    /// The number, which isn't 0.
    pub fn to_native(self) -> N
        ensures number { result ≡ self }
        ensures not_zero { is_zero (N.value_of result) ≡ false }
    {
        self.number
    }
}

impl<N: Integer + fmt::Display> fmt::Display for NonZero<N> {
    ghost output = { N.output };

    fn fmt<W: fmt::Write>(&self, f: &mut fmt::Formatter<W>) -> fmt::Result {
        self.number.fmt(f)
    }
}

// The leaf that an integer's non-zero form is.
fn non_zero_kind<N: Integer>() -> Kind
    ensures { kind_of result ≡ non_zero N.sign N.width }
{
    Kind::NonZero(N::integer_kind())
}

impl<N: Integer> ArchivePointee for NonZero<N> {
    type ArchivedMetadata = ();

    ghost pointee = { one (leaf (non_zero N.sign N.width)) };

    ghost definitions = { no_definition };

    ghost metadata_length = { λ _. 0 };

    fn pointer_metadata(_metadata: &()) -> usize {
        0
    }
}

impl<N: Integer> Portable for NonZero<N> {
    ghost shape = { leaf (non_zero N.sign N.width) };

    ghost layout = { leaf_layout (non_zero N.sign N.width) };

    type Check = NonZero<N>;

    ghost is_one = { refl };

    ghost is_align = { leaf_align (non_zero N.sign N.width) };

    ghost has_layout = { leaf_has_layout (non_zero N.sign N.width) };

    ghost no_others = { no_definition_reached (leaf (non_zero N.sign N.width)) };

    ghost checks = { λ direct. leaf_check (non_zero N.sign N.width) };

    fn size() -> usize {
        non_zero_kind::<N>().size()
    }

    fn align() -> usize {
        non_zero_kind::<N>().align()
    }

    fn expr(_alloc: Global) -> Result<Expr, Error> {
        Ok(Expr::Leaf(non_zero_kind::<N>()))
    }

    fn define(_alloc: Global, _defs: &mut Defs) -> Result<(), Error> {
        Ok(())
    }
}

impl<N: Integer> SelfCheck for NonZero<N> {
    ghost shape = { leaf (non_zero N.sign N.width) };

    ghost definitions = { no_definition };

    ghost span = { kind_size (non_zero N.sign N.width) };

    ghost direct = { true };

    ghost nameless = { true };

    fn is_direct() -> bool {
        true
    }

    fn is_nameless() -> bool {
        true
    }

    #[inline(always)]
    fn check_at<C: ArchiveContext>(
        bytes: &[u8],
        at: usize,
        refusal: &mut Error,
        context: &mut C,
    ) -> Option<()> {
        check_leaf(non_zero_kind::<N>(), bytes, at, refusal, context)
    }

    #[inline(always)]
    fn check_first(bytes: &[u8], at: usize, step: usize, count: usize) -> usize {
        check_first_leaves(non_zero_kind::<N>(), bytes, at, step, count)
    }
}

impl<N: Integer> MapKey for NonZero<N> {
    ghost key = { leaf_key (non_zero N.sign N.width) };

    ghost is_key = { refl };

    ghost key_laid = { refl };

    fn key() -> Key {
        Key::Leaf(non_zero_kind::<N>())
    }
}
