//! Shared and weak pointers: values that several pointers lead to. As in rkyv 0.8.18, with a key in place of an address.

ghost use Rattle.std.specs.Prelude.{◌≡◌, Bool, false, refl, codes};
ghost use Rattle.std.proofs.Common.{inl, inr};
ghost use Rattle.archive_check.specs.Expressions.{flavor_of};
ghost use Rattle.archive_check.specs.Layout.{pointer_size};
ghost use Rattle.archive_check.specs.SelfCheck.Laws.{by_schema};
ghost use Rattle.archive_check.specs.Shape.{Name, Flavor as FlavorOf, one, shared, weak};
ghost use Rattle.archive_types.specs.Members.SharedLaws.{flavor_as, shared_reaches, weak_reaches};

mod views;
mod writing;

use crate::owner_pointers::pointer_size;
use crate::traits::{ArchivePointee, Portable, PortablePointee};
use archive_check::format::error::Error;
use archive_check::format::expr::{Defs, Expr, FlavorInfo};
use archive_check::self_check::BySchema;
use std::alloc::Global;
use std::marker::PhantomData;
pub use writing::{RcResolver, RcWeakResolver, write_null, write_pointer, write_shared};

/// How values are shared: a name, by which one flavor's pointers differ from another's, and whether
/// a value may lead to itself. In rkyv 0.8.18 the name is the type.
pub trait Flavor {
    /// Whether a shared value may hold a pointer to itself.
    const ALLOW_CYCLES: bool;

    // The same.
    ghost ALLOW_CYCLES: { Bool };

    // The name.
    ghost name: { Name };

    /// The name.
    fn name() -> &'static str
        ensures { result.now ≡ name };
}

/// A flavor whose values never hold a pointer to themselves: what compares pointees, or reads them
/// back at each pointer, requires one.
pub trait Acyclic: Flavor {
    ghost acyclic: { Self.ALLOW_CYCLES ≡ false };
}

/// The flavor of `Rc`. As in rkyv 0.8.18.
#[derive(Debug)]
pub struct RcFlavor;

impl Flavor for RcFlavor {
    const ALLOW_CYCLES: bool = false;

    ghost ALLOW_CYCLES = { false };

    ghost name = { codes "RcFlavor" };

    fn name() -> &'static str {
        "RcFlavor"
    }
}

impl Acyclic for RcFlavor {
    ghost acyclic = { refl };
}

// The flavor, as expressions have it.
fn flavor_info<F: Flavor>() -> FlavorInfo
    ensures { flavor_of result ≡ flavor_as F.name F.ALLOW_CYCLES }
{
    FlavorInfo {
        name: F::name(),
        cycles: F::ALLOW_CYCLES,
    }
}

/// An archived shared pointer of the flavor `F`: an offset of four bytes, at a multiple of four, and behind it a length of four where it leads to a
/// slice or a text. As in rkyv 0.8.18.
#[derive(Debug)]
pub struct ArchivedRc<T, F> {
    to: PhantomData<T>,
    of: PhantomData<F>,
}

/// An archived weak pointer of the flavor `F`: a shared pointer, or a null, whose offset is 1 and whose length, where it has one, is 0. As in rkyv
/// 0.8.18.
#[derive(Debug)]
pub struct ArchivedRcWeak<T, F> {
    to: PhantomData<T>,
    of: PhantomData<F>,
}

impl<T: ArchivePointee, F: Flavor> ArchivePointee for ArchivedRc<T, F> {
    type ArchivedMetadata = ();

    ghost pointee = { one (shared (flavor_as F.name F.ALLOW_CYCLES) T.pointee) };

    ghost definitions = { T.definitions };

    ghost metadata_length = { λ _. 0 };

    fn pointer_metadata(_metadata: &()) -> usize {
        0
    }
}

impl<T: PortablePointee, F: Flavor> Portable for ArchivedRc<T, F> {
    ghost shape = { shared (flavor_as F.name F.ALLOW_CYCLES) T.pointee };

    ghost layout = { record { size = pointer_size T.pointee; align = 4 } };

    type Check = BySchema;

    ghost is_one = { refl };

    ghost is_align = { inr (inr (inl refl)) };

    ghost has_layout = { record { solved = λ s k. refl } };

    ghost no_others = { shared_reaches T.definitions (flavor_as F.name F.ALLOW_CYCLES) T.pointee
        T.box_reaches };

    ghost checks = { λ direct. by_schema direct };

    fn size() -> usize {
        pointer_size::<T>()
    }

    fn align() -> usize {
        4
    }

    fn expr(alloc: Global) -> Result<Expr, Error> {
        let pointee = Box::new(alloc, T::pointee_expr(alloc)?)?;
        Ok(Expr::Shared(flavor_info::<F>(), pointee))
    }

    fn define(alloc: Global, defs: &mut Defs) -> Result<(), Error> {
        T::define_pointee(alloc, defs)
    }
}

impl<T: ArchivePointee, F: Flavor> ArchivePointee for ArchivedRcWeak<T, F> {
    type ArchivedMetadata = ();

    ghost pointee = { one (weak (flavor_as F.name F.ALLOW_CYCLES) T.pointee) };

    ghost definitions = { T.definitions };

    ghost metadata_length = { λ _. 0 };

    fn pointer_metadata(_metadata: &()) -> usize {
        0
    }
}

impl<T: PortablePointee, F: Flavor> Portable for ArchivedRcWeak<T, F> {
    ghost shape = { weak (flavor_as F.name F.ALLOW_CYCLES) T.pointee };

    ghost layout = { record { size = pointer_size T.pointee; align = 4 } };

    type Check = BySchema;

    ghost is_one = { refl };

    ghost is_align = { inr (inr (inl refl)) };

    ghost has_layout = { record { solved = λ s k. refl } };

    ghost no_others = { weak_reaches T.definitions (flavor_as F.name F.ALLOW_CYCLES) T.pointee
        T.box_reaches };

    ghost checks = { λ direct. by_schema direct };

    fn size() -> usize {
        pointer_size::<T>()
    }

    fn align() -> usize {
        4
    }

    fn expr(alloc: Global) -> Result<Expr, Error> {
        let pointee = Box::new(alloc, T::pointee_expr(alloc)?)?;
        Ok(Expr::Weak(flavor_info::<F>(), pointee))
    }

    fn define(alloc: Global, defs: &mut Defs) -> Result<(), Error> {
        T::define_pointee(alloc, defs)
    }
}
