// User-defined recursive types: their format, stated once for all of them.

ghost use Rattle.std.specs.Prelude.{◌≡◌, IfOk, min, refl};
ghost use Rattle.archive_check.specs.Definitions.{HasLayout, IsAlign, defines};
ghost use Rattle.archive_check.specs.Expressions.{shape_of};
ghost use Rattle.archive_check.specs.Layout.{Layout};
ghost use Rattle.archive_check.specs.Members.NamedLayout.{name_has_layout, name_reached};
ghost use Rattle.archive_check.specs.SelfCheck.Laws.{by_schema};
ghost use Rattle.archive_check.specs.Shape.{Name, Shape, named, one};

use crate::recursive::define_name;
use archive_check::format::error::Error;
use archive_check::format::expr::{Defs, Expr};
use archive_check::self_check::BySchema;
use archive_types::traits::{ArchivePointee, Portable};
use std::alloc::{AllocError, Global};
use std::marker::PhantomData;

/// Describes a recursive archived type by hand: its name, and what the name stands for, in which the
/// name may be behind pointers. `tools/derive` doesn't need it.
///
/// A type of yours without values implements it; `ArchivedRecursive` of that is the archived type.
/// Archives of it are checked and viewed; no value is written or read back.
pub trait NamedRecursive {
    // The name.
    ghost name: { Name };

    // What the name stands for.
    ghost stands_for: { Shape };

    // The size and alignment of that.
    ghost layout: { Layout };

    /// The name.
    fn name() -> &'static str
        ensures { result.now ≡ name };

    /// The size in bytes, `usize::MAX` where it is that or more.
    fn size() -> usize
        ensures { result ≡ min layout.size 18446744073709551615 };

    /// The alignment in bytes: a power of two, at most 32.
    fn align() -> usize
        ensures { result ≡ layout.align };

    /// What the name stands for, as an expression. Fails if memory from `alloc` is refused.
    fn definition(alloc: Global) -> Result<Expr, AllocError>
        ensures { IfOk result (λ e. shape_of e ≡ stands_for) };

    ghost is_align: { IsAlign layout.align };

    ghost laid_out: { HasLayout (defines name stands_for) stands_for layout };
}

/// A recursive archived type with the name of `N`. It is validated by a schema, so that its depth
/// takes no machine stack.
pub struct ArchivedRecursive<N> {
    of: PhantomData<N>,
}

impl<N: NamedRecursive> ArchivePointee for ArchivedRecursive<N> {
    type ArchivedMetadata = ();

    ghost pointee = { one (named N.name) };

    ghost definitions = { defines N.name N.stands_for };

    ghost metadata_length = { λ _. 0 };

    fn pointer_metadata(_metadata: &()) -> usize {
        0
    }
}

impl<N: NamedRecursive> Portable for ArchivedRecursive<N> {
    ghost shape = { named N.name };

    ghost layout = { N.layout };

    type Check = BySchema;

    ghost is_one = { refl };

    ghost is_align = { N.is_align };

    ghost has_layout = { name_has_layout N.name N.stands_for N.layout N.laid_out.solved };

    ghost no_others = { name_reached N.name N.stands_for };

    ghost checks = { λ direct. by_schema direct };

    fn size() -> usize {
        N::size()
    }

    fn align() -> usize {
        N::align()
    }

    fn expr(_alloc: Global) -> Result<Expr, Error> {
        Ok(Expr::Named(N::name()))
    }

    fn define(alloc: Global, defs: &mut Defs) -> Result<(), Error> {
        define_name(N::name(), N::definition(alloc)?, defs)
    }
}
