// What an option and a result are in an archive.

ghost use Rattle.std.specs.Prelude.{refl};
ghost use Rattle.archive_check.specs.Shape.{one};
ghost use Rattle.archive_enum.specs.Choices.{option_shape, option_layout, option_definitions, option_direct, option_has_layout, option_reached, option_check};

mod results;

use crate::option::ArchivedOption;
use archive_check::context::ArchiveContext;
use archive_check::format::defs::Defs;
use archive_check::format::error::Error;
use archive_check::format::expr::Expr;
use archive_check::format::traits::{
    ArchivePointee, Portable, PortableVariants, align_of_choice, expr_of_choice, size_of_choice,
};
use archive_check::self_check::{SelfCheck, check_choice};
use std::alloc::Global;

/// As a pointee it is one value.
impl<T: Portable> ArchivePointee for ArchivedOption<T> {
    type ArchivedMetadata = ();

    ghost pointee = { one (option_shape T.shape) };

    ghost definitions = { T.definitions };

    ghost metadata_length = { λ _. 0 };

    fn pointer_metadata(_metadata: &()) -> usize {
        0
    }
}

// The variants of an option: without a part, and with one.
type OptionVariants<T> = ((), ((T, ()), ()));

/// A choice named `ArchivedOption`: the byte 0 is `None`; behind the byte 1, at the next multiple
/// of its alignment, lies the value. The bytes behind a `None` may be any.
impl<T: Portable> Portable for ArchivedOption<T> {
    ghost shape = { option_shape T.shape };

    ghost layout = { option_layout T.layout };

    type Check = ArchivedOption<T>;

    ghost is_one = { refl };

    ghost is_align = { T.is_align };

    ghost has_layout = { option_has_layout T.definitions T.shape T.layout T.is_align T.has_layout };

    ghost no_others = { option_reached T.definitions T.shape T.no_others };

    ghost checks = { option_check T.definitions T.shape T.layout T.Check.direct T.Check.definitions
        T.Check.shape T.Check.span T.Check.nameless T.checks };

    fn size() -> usize {
        size_of_choice::<OptionVariants<T>>()
    }

    fn align() -> usize {
        align_of_choice::<OptionVariants<T>>()
    }

    fn expr(alloc: Global) -> Result<Expr, Error> {
        expr_of_choice::<OptionVariants<T>>(alloc, "ArchivedOption")
    }

    #[tactic(auto, using(crate::proofs::ByVariants::option_added))]
    fn define(alloc: Global, defs: &mut Defs) -> Result<(), Error> {
        <OptionVariants<T> as PortableVariants>::define(alloc, defs)
    }
}

/// The tag, and then the value behind a 1.
impl<T: Portable> SelfCheck for ArchivedOption<T> {
    ghost shape = { option_shape T.shape };

    ghost definitions = { option_definitions T.definitions };

    ghost span = { (option_layout T.layout).size };

    ghost direct = { option_direct T.Check.direct T.layout };

    ghost nameless = { T.Check.nameless };

    fn is_direct() -> bool {
        T::Check::is_direct() && ArchivedOption::<T>::size() < usize::MAX
    }

    fn is_nameless() -> bool {
        T::Check::is_nameless()
    }

    #[inline(always)]
    fn check_at<C: ArchiveContext>(
        bytes: &[u8],
        at: usize,
        refusal: &mut Error,
        context: &mut C,
    ) -> Option<()> {
        check_choice::<OptionVariants<T>, C>("ArchivedOption", bytes, at, refusal, context)
    }
}
