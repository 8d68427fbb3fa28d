// The names of archived types, and what they stand for.

ghost use Rattle.std.specs.Prelude.{◌≡◌, OnOk, IfErr};
ghost use Rattle.archive_check.specs.Words.AddedDefinitions.{AreAdded};
ghost use Rattle.archive_check.specs.Definitions.{ExplainsConflict, defines};
ghost use Rattle.archive_check.specs.Expressions.{shape_of, shapes_in, table_of, variants_in};
ghost use Rattle.archive_check.specs.Shape.{choice, parts};

use archive_check::format::error::Error;
use archive_check::format::expr::{Defs, Expr};

/// Adds the definition of a name. Fails with the error of `Defs::add`: of memory, or of a name that stands for something else already.
#[tactic(auto, using(archive_check::proofs::format::AddedDefinitions::adding))]
pub fn define_name(name: &'static str, definition: Expr, defs: &mut Defs) -> Result<(), Error>
    ensures added { OnOk result (AreAdded defs (defines name.now (shape_of definition))) }
    ensures refused { IfErr result (ExplainsConflict (table_of defs.old)
        (defines name.now (shape_of definition))) }
{
    defs.add(name, definition)?;
    Ok(())
}

// The expression of a record of parts with these expressions.
pub(super) fn record_of(list: Vec<Expr>) -> Expr
    ensures { shape_of result ≡ parts (shapes_in list.items) }
{
    Expr::Record(list)
}

/// An expression of a choice with this name and these variants, each by the expressions of its
/// parts: the definition of a recursive enum.
pub fn choice_of(name: &'static str, variants: Vec<Vec<Expr>>) -> Expr
    ensures { shape_of result ≡ choice name.now (variants_in variants.items) }
{
    Expr::Choice(name, variants)
}
