// Whole archives.

ghost use Rattle.std.specs.Prelude.{◌≡◌, ◌⊎◌, ◌≤◌, length, OnOk, IfErr, IsTrue};
ghost use Rattle.archive_check.specs.Definitions.{listed};
ghost use Rattle.archive_check.specs.Defined.{WellFormed};
ghost use Rattle.archive_check.specs.Words.Faults.{IsOfCheck};
ghost use Rattle.archive_check.specs.context.FreshContexts.{HasLevels, KeepsLevels};
ghost use Rattle.archive_check.specs.context.Pushes.{FewPushed};
ghost use Rattle.archive_check.specs.context.Contexts.{AcceptsIn, RefusesIn, IsExactIn};

use super::values::check_one;
use crate::context::ArchiveContext;
use crate::format::error::Error;
use crate::format::traits::Portable;

/// Checks that `bytes` are an archive whose root, a `T` that validates itself, lies at `pos`; any
/// other `T` is rejected. It takes no memory. Exact in a fresh context. In any context at most one
/// region is entered, and one for each four bytes of its range; levels left before a success are
/// left after it.
///
/// Fails with the first fault, in the order of docs/FORMAT.md, with levels left always one of a
/// check.
#[inline(always)]
pub fn check_root<T: Portable, C: ArchiveContext>(
    bytes: &[u8],
    pos: usize,
    context: &mut C,
) -> Result<(), Error>
    requires { (C.state context.old).end ≤ length bytes.now }
    ensures accepted { IsTrue T.Check.direct
        → AcceptsIn T.Portable C.Context context bytes.now pos result }
    ensures meaning { IsTrue T.Check.direct → WellFormed (listed T.definitions) T.shape }
    ensures refused { IsTrue T.Check.direct
        → RefusesIn T.Portable C.Context context bytes.now pos result }
    ensures exact { IsTrue T.Check.direct
        → IsExactIn T.Portable C.Context context bytes.now pos result }
    ensures of_check { IsTrue T.Check.direct → IfErr result
        (λ e. HasLevels (C.state context.old).depth → IsOfCheck e) }
    ensures direct { OnOk result (IsTrue T.Check.direct) }
    ensures levels { OnOk result (KeepsLevels (C.state context.old) (C.state context.new)) }
    ensures few_subtrees { FewPushed (C.state context.old) (C.state context.new) }
{
    prove!(bytes.len() <= usize::MAX);
    let mut refusal = Error::OutOfMemory;
    match check_one::<T, C>(bytes, pos as i128, &mut refusal, context) {
        Some(()) => Ok(()),
        None => Err(refusal),
    }
}
