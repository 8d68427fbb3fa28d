// Parts that have no name of their own, as those of a tuple.

ghost use Rattle.archive_check.specs.Shape.{parts};
ghost use Rattle.archive_check.specs.Layout.{up};
ghost use Rattle.archive_check.specs.SelfCheck.Lone.{tuple_direct};

use super::SelfCheck;
use crate::context::ArchiveContext;
use crate::format::error::Error;
use crate::format::traits::{PortableParts, size_of_record};
use std::marker::PhantomData;

/// The check of parts with no name of their own, as those of a tuple. It needs a schema where two of them bring definitions, which may be different ones of
/// one name.
pub struct TupleCheck<P> {
    of: PhantomData<P>,
}

impl<P: PortableParts> SelfCheck for TupleCheck<P> {
    ghost shape = { parts P.parts };

    ghost definitions = { P.definitions };

    ghost span = { P.end 0 };

    ghost direct = { tuple_direct P.direct P.lone (up (P.end 0) P.greatest) };

    ghost nameless = { P.nameless };

    fn is_direct() -> bool {
        P::are_direct() && P::are_lone() && size_of_record::<P>() < usize::MAX
    }

    fn is_nameless() -> bool {
        P::are_nameless()
    }

    #[inline(always)]
    fn check_at<C: ArchiveContext>(
        bytes: &[u8],
        at: usize,
        refusal: &mut Error,
        context: &mut C,
    ) -> Option<()> {
        P::check_parts(bytes, at, 0, refusal, context)
    }
}
