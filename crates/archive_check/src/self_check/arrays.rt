// Arrays where they lie.

ghost use Rattle.std.specs.Prelude.{◌*◌};
ghost use Rattle.archive_check.specs.Shape.{array};
ghost use Rattle.archive_check.specs.SelfCheck.Arrays.{array_direct};

use super::SelfCheck;
use super::elements::check_elements;
use crate::context::ArchiveContext;
use crate::format::error::Error;
use crate::format::traits::Portable;
use std::marker::PhantomData;

/// The check of an array: its elements, one after another.
pub struct ArrayCheck<T, const N: usize> {
    of: PhantomData<T>,
}

impl<T: Portable, const N: usize> SelfCheck for ArrayCheck<T, N> {
    ghost shape = { array N T.shape };

    ghost definitions = { T.definitions };

    ghost span = { N * T.layout.size };

    ghost direct = { array_direct T.Check.direct N T.layout };

    ghost nameless = { T.Check.nameless };

    fn is_direct() -> bool {
        T::Check::is_direct() && <[T; N] as Portable>::size() < usize::MAX
    }

    fn is_nameless() -> bool {
        T::Check::is_nameless()
    }

    #[inline(always)]
    fn check_at<C: ArchiveContext>(
        bytes: &[u8],
        at: usize,
        refusal: &mut Error,
        context: &mut C,
    ) -> Option<()> {
        check_elements::<T, C>(bytes, at, N, refusal, context)
    }
}
