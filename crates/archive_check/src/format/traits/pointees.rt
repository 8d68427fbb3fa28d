// What the pointers of an archive lead to.

ghost use Rattle.std.specs.Prelude.{◌≡◌, true, false, IsTrue, OnOk, IfOk, IfErr};
ghost use Rattle.archive_check.specs.Shape.{boxed};
ghost use Rattle.archive_check.specs.Layout.{pointer_size, has_length};
ghost use Rattle.archive_check.specs.Expressions.{pointee_of, table_of};
ghost use Rattle.archive_check.specs.Definitions.{NoOthers, Extended, ExplainsConflict};
ghost use Rattle.archive_check.specs.SelfCheck.Laws.{IsCheckOf};
ghost use Rattle.archive_check.specs.SelfCheck.Owners.{one_check, one_reaches};
ghost use Rattle.archive_check.specs.declared.format.error.Error.TheVariants.{OutOfMemory};

use super::{ArchivePointee, Portable};
use crate::format::error::Error;
use crate::format::expr::{Defs, Pointee};
use crate::self_check::{BoxCheck, SelfCheck};
use std::alloc::Global;

/// What a pointer of an archive leads to: a value, a slice or a text, with its expression and the check of a box that leads to it. Each `Portable`
/// type is one.
pub trait PortablePointee: ArchivePointee {
    /// The check of a box that leads to it. `BySchema` if its type doesn't validate itself.
    type BoxCheck: SelfCheck;

    /// Whether a pointer to it has a length beside its offset: not to one value.
    fn has_length() -> bool
        ensures { result ≡ has_length Self.pointee };

    /// What a pointer to it leads to, as an expression. Memory comes from `alloc`. Fails with
    /// `OutOfMemory` if it is refused.
    fn pointee_expr(alloc: Global) -> Result<Pointee, Error>
        ensures pointee { IfOk result (λ p. pointee_of p ≡ Self.pointee) }
        ensures refused { IfErr result (λ e. e ≡ OutOfMemory) };

    /// Adds the definitions of the names that it reaches, as `Portable::define` does, with the
    /// errors of that: `OutOfMemory` and `ShapeConflict`.
    fn define_pointee(alloc: Global, defs: &mut Defs) -> Result<(), Error>
        ensures added { OnOk result (Extended (table_of defs.old) Self.definitions
            (table_of defs.new)) }
        ensures refused { IfErr result (ExplainsConflict (table_of defs.old) Self.definitions) };

    ghost box_reaches: { NoOthers Self.definitions (boxed Self.pointee) };

    ghost box_checks: { IsTrue Self.BoxCheck.direct → IsCheckOf Self.definitions
        (boxed Self.pointee) (pointer_size Self.pointee) Self.BoxCheck.definitions
        Self.BoxCheck.shape Self.BoxCheck.span Self.BoxCheck.nameless };
}

/// One value.
impl<T: Portable> PortablePointee for T {
    type BoxCheck = BoxCheck<T>;

    ghost box_reaches = { one_reaches T.definitions T.shape T.no_others T.pointee T.is_one };

    ghost box_checks = { λ direct. one_check T.definitions T.shape T.layout.size T.Check.definitions
        T.Check.shape T.Check.span T.Check.nameless T.pointee T.is_one (T.checks direct) };

    fn has_length() -> bool {
        false
    }

    fn pointee_expr(alloc: Global) -> Result<Pointee, Error> {
        Ok(Pointee::One(T::expr(alloc)?))
    }

    fn define_pointee(alloc: Global, defs: &mut Defs) -> Result<(), Error> {
        T::define(alloc, defs)
    }
}
