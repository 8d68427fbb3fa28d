//! Tuples, as archives hold them: their parts, one after another. The names are those of rkyv
//! 0.8.18.
#![tactic(auto)]

ghost use Rattle.std.specs.Prelude.{refl};
ghost use Rattle.archive_check.specs.Shape.{one, parts};
ghost use Rattle.archive_check.specs.Layout.{up};
ghost use Rattle.archive_check.specs.Members.PartsLayout.{is_record, record_has_layout, holds_parts};
ghost use Rattle.archive_check.specs.SelfCheck.Lone.{tuple_check};

pub mod entries;

use archive_check::format::error::Error;
use archive_check::format::expr::{Defs, Expr};
use archive_check::format::traits::{
    ArchivePointee, FourParts, Portable, PortableParts, Record, expr_of_record, size_of_record,
};
use archive_check::self_check::TupleCheck;
use std::alloc::Global;
use std::marker::PhantomData;

/// An archived tuple of the parts `P`, nested pair by pair: `(A, (B, ()))` for one of an `A` and a `B`, or four at once by `FourParts`. Each begins at the
/// next multiple of its alignment.
#[derive(Debug)]
pub struct ArchivedTuple<P> {
    of: PhantomData<P>,
}

impl<P: PortableParts> ArchivePointee for ArchivedTuple<P> {
    type ArchivedMetadata = ();

    ghost pointee = { one (parts P.parts) };

    ghost definitions = { P.definitions };

    ghost metadata_length = { λ _. 0 };

    fn pointer_metadata(_metadata: &()) -> usize {
        0
    }
}

impl<P: PortableParts> Portable for ArchivedTuple<P> {
    ghost shape = { parts P.parts };

    ghost layout = { record { size = up (P.end 0) P.greatest; align = P.greatest } };

    type Check = TupleCheck<P>;

    ghost is_one = { refl };

    ghost is_align = { P.is_align };

    ghost has_layout = { record_has_layout P.definitions P.parts P.greatest P.end P.begin
        P.laid_out };

    ghost no_others = { P.no_others };

    ghost checks = { tuple_check P.definitions P.parts (up (P.end 0) P.greatest) (P.end 0) P.direct
        P.nameless P.lone (holds_parts (P.end 0) P.greatest P.is_align) P.ordered };

    fn size() -> usize {
        size_of_record::<P>()
    }

    fn align() -> usize {
        P::align()
    }

    fn expr(alloc: Global) -> Result<Expr, Error> {
        expr_of_record::<P>(alloc)
    }

    fn define(alloc: Global, defs: &mut Defs) -> Result<(), Error> {
        P::define(alloc, defs)
    }
}

impl<P: PortableParts> Record for ArchivedTuple<P> {
    type Parts = P;

    ghost has_parts = { is_record P.definitions P.parts };

    ghost holds = { holds_parts (P.end 0) P.greatest P.is_align };
}

/// An archived tuple of one part.
pub type ArchivedTuple1<A> = ArchivedTuple<(A, ())>;

/// An archived tuple of 2 parts.
pub type ArchivedTuple2<A, B> = ArchivedTuple<(A, (B, ()))>;

/// An archived tuple of 3 parts.
pub type ArchivedTuple3<A, B, C> = ArchivedTuple<(A, (B, (C, ())))>;

/// An archived tuple of 4 parts.
pub type ArchivedTuple4<A, B, C, D> = ArchivedTuple<FourParts<A, B, C, D, ()>>;

/// An archived tuple of 5 parts.
pub type ArchivedTuple5<A, B, C, D, E> = ArchivedTuple<FourParts<A, B, C, D, (E, ())>>;

/// An archived tuple of 6 parts.
pub type ArchivedTuple6<A, B, C, D, E, F> = ArchivedTuple<FourParts<A, B, C, D, (E, (F, ()))>>;

/// An archived tuple of 7 parts.
pub type ArchivedTuple7<A, B, C, D, E, F, G> = ArchivedTuple<
    FourParts<A, B, C, D, (E, (F, (G, ())))>,
>;

/// An archived tuple of 8 parts.
pub type ArchivedTuple8<A, B, C, D, E, F, G, H> = ArchivedTuple<
    FourParts<A, B, C, D, FourParts<E, F, G, H, ()>>,
>;

/// An archived tuple of 9 parts.
pub type ArchivedTuple9<A, B, C, D, E, F, G, H, I> = ArchivedTuple<
    FourParts<A, B, C, D, FourParts<E, F, G, H, (I, ())>>,
>;

/// An archived tuple of 10 parts.
pub type ArchivedTuple10<A, B, C, D, E, F, G, H, I, J> = ArchivedTuple<
    FourParts<A, B, C, D, FourParts<E, F, G, H, (I, (J, ()))>>,
>;

/// An archived tuple of 11 parts.
pub type ArchivedTuple11<A, B, C, D, E, F, G, H, I, J, K> = ArchivedTuple<
    FourParts<A, B, C, D, FourParts<E, F, G, H, (I, (J, (K, ())))>>,
>;

/// An archived tuple of 12 parts.
pub type ArchivedTuple12<A, B, C, D, E, F, G, H, I, J, K, L> = ArchivedTuple<
    FourParts<A, B, C, D, FourParts<E, F, G, H, FourParts<I, J, K, L, ()>>>,
>;

/// An archived tuple of 13 parts.
pub type ArchivedTuple13<A, B, C, D, E, F, G, H, I, J, K, L, M> = ArchivedTuple<
    FourParts<A, B, C, D, FourParts<E, F, G, H, FourParts<I, J, K, L, (M, ())>>>,
>;
