// What a result is in an archive.

ghost use Rattle.std.specs.Prelude.{◌&&◌, refl};
ghost use Rattle.archive_check.specs.Shape.{one};
ghost use Rattle.archive_check.specs.Definitions.{both};
ghost use Rattle.archive_check.specs.Members.PartsLayout.{greater_align};
ghost use Rattle.archive_enum.specs.ResultShapes.{result_shape, result_layout, result_definitions, result_direct, result_has_layout, result_reached, result_check};

use crate::result::ArchivedResult;
use archive_check::context::ArchiveContext;
use archive_check::format::defs::Defs;
use archive_check::format::error::Error;
use archive_check::format::expr::Expr;
use archive_check::format::traits::{
    ArchivePointee, Portable, PortableVariants, align_of_choice, expr_of_choice, size_of_choice,
};
use archive_check::self_check::{SelfCheck, check_choice};
use std::alloc::Global;

/// As a pointee it is one value.
impl<T: Portable, E: Portable> ArchivePointee for ArchivedResult<T, E> {
    type ArchivedMetadata = ();

    ghost pointee = { one (result_shape T.shape E.shape) };

    ghost definitions = { both T.definitions E.definitions };

    ghost metadata_length = { λ _. 0 };

    fn pointer_metadata(_metadata: &()) -> usize {
        0
    }
}

// The variants of a result: a value, and an error.
type ResultVariants<T, E> = ((T, ()), ((E, ()), ()));

/// A choice named `ArchivedResult`: behind the byte 0, at the next multiple of its alignment, lies
/// the value, and behind the byte 1 likewise the error. The bytes behind the shorter one may be
/// any.
impl<T: Portable, E: Portable> Portable for ArchivedResult<T, E> {
    ghost shape = { result_shape T.shape E.shape };

    ghost layout = { result_layout T.layout E.layout };

    type Check = ArchivedResult<T, E>;

    ghost is_one = { refl };

    ghost is_align = { greater_align T.layout.align E.layout.align T.is_align E.is_align };

    ghost has_layout = { result_has_layout T.definitions E.definitions T.shape E.shape T.layout
        E.layout T.is_align E.is_align T.has_layout E.has_layout };

    ghost no_others = { result_reached T.definitions E.definitions T.shape E.shape T.no_others
        E.no_others };

    ghost checks = { result_check T.definitions T.shape T.layout T.Check.definitions T.Check.shape
        T.Check.span T.Check.nameless E.definitions E.shape E.layout E.Check.definitions
        E.Check.shape E.Check.span E.Check.nameless T.Check.direct E.Check.direct T.checks
        E.checks };

    fn size() -> usize {
        size_of_choice::<ResultVariants<T, E>>()
    }

    fn align() -> usize {
        align_of_choice::<ResultVariants<T, E>>()
    }

    fn expr(alloc: Global) -> Result<Expr, Error> {
        expr_of_choice::<ResultVariants<T, E>>(alloc, "ArchivedResult")
    }

    #[tactic(auto, using(crate::proofs::ByVariants::result_added))]
    fn define(alloc: Global, defs: &mut Defs) -> Result<(), Error> {
        <ResultVariants<T, E> as PortableVariants>::define(alloc, defs)
    }
}

/// The tag, and then the value behind a 0, and the error behind a 1. It needs a schema where both bring definitions, which may be different ones of one name.
impl<T: Portable, E: Portable> SelfCheck for ArchivedResult<T, E> {
    ghost shape = { result_shape T.shape E.shape };

    ghost definitions = { result_definitions T.definitions E.definitions };

    ghost span = { (result_layout T.layout E.layout).size };

    ghost direct = { result_direct T.Check.direct E.Check.direct T.Check.nameless E.Check.nameless
        (result_layout T.layout E.layout).size };

    ghost nameless = { T.Check.nameless && E.Check.nameless };

    fn is_direct() -> bool {
        T::Check::is_direct()
            && E::Check::is_direct()
            && (T::Check::is_nameless() || E::Check::is_nameless())
            && ArchivedResult::<T, E>::size() < usize::MAX
    }

    fn is_nameless() -> bool {
        T::Check::is_nameless() && E::Check::is_nameless()
    }

    #[inline(always)]
    fn check_at<C: ArchiveContext>(
        bytes: &[u8],
        at: usize,
        refusal: &mut Error,
        context: &mut C,
    ) -> Option<()> {
        check_choice::<ResultVariants<T, E>, C>("ArchivedResult", bytes, at, refusal, context)
    }
}
