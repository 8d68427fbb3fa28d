//! Schemas of expressions that are given with their definitions, as those of a text, and what a
//! schema says of itself.

ghost use Rattle.std.specs.Prelude.{◌≡◌, None, false, IsTrue, IfOk, IfErr};
ghost use Rattle.archive_check.specs.Definitions.{listed};
ghost use Rattle.archive_check.specs.Expressions.{shape_of, entries_of};
ghost use Rattle.archive_check.specs.MissingNames.{missing as missing_in};
ghost use Rattle.archive_schema.specs.Given.{IsTaken, IsSchemaAmong, ExplainsNoMeaning, LiesAtEnd, AnswersWhole};
ghost use Rattle.archive_schema.specs.Schemas.{HasMeaning, root_of, definitions_in};

use crate::plan::Plan;
use crate::plan::names::{collect, in_order, missing};
use crate::plan::shallow::shallow_nodes;
use crate::shape::Schema;
use archive_check::context::HighValidator;
use archive_check::format::error::Error;
use archive_check::format::expr::{Def, Expr};
use std::alloc::Global;

// Those of the definitions that the root reaches, in order.
fn taken(alloc: Global, root: &Expr, definitions: Vec<Def>) -> Result<Vec<Def>, Error>
    ensures ok { IfOk result (λ ds. IsTaken (entries_of definitions.items) (shape_of root.now)
        (entries_of ds.items)) }
    ensures err { IfErr result (ExplainsNoMeaning (entries_of definitions.items)
        (shape_of root.now)) }
{
    let mut given = definitions;
    let mut found = match collect(alloc, root, &mut given) {
        Ok(found) => found,
        Err(error) => return Err(error),
    };
    match in_order(alloc, &mut found) {
        Ok(placed) => Ok(placed),
        Err(error) => Err(error),
    }
}

impl Schema {
    /// The schema of an expression, compiled with those of the definitions that it reaches. If a
    /// name has several, the first counts. Memory comes from `alloc`, also that which a check
    /// takes.
    ///
    /// Errors:
    /// - `OutOfMemory`: memory is refused.
    /// - `ShapeConflict`: a name that is reached has no definition.
    /// - `RecursiveLayout`: a name contains itself other than behind a pointer.
    pub fn new(alloc: Global, root: Expr, definitions: Vec<Def>) -> Result<Schema, Error>
        ensures made { IfOk result (λ s. IsSchemaAmong s (entries_of definitions.items)
            (shape_of root)) }
        ensures refused { IfErr result (ExplainsNoMeaning (entries_of definitions.items)
            (shape_of root)) }
    {
        let definitions = taken(alloc, &root, definitions)?;
        let (plan, node, names) = Plan::of(alloc, &definitions, &root)?;
        let shallow = shallow_nodes(alloc, &plan)?;
        Ok(Schema {
            root,
            definitions,
            plan,
            node,
            names,
            shallow,
        })
    }

    /// The root's expression.
    pub fn root(&self) -> &Expr
        ensures { shape_of result.now ≡ root_of self.now }
    {
        &self.root
    }

    /// The definitions of the names that the root reaches.
    pub fn definitions(&self) -> &[Def]
        ensures { entries_of result.now ≡ listed (definitions_in self.now) }
    {
        &self.definitions
    }

    /// Whether each name that `expr` holds, other than behind a pointer, is defined here, as
    /// `layout` requires.
    pub fn defines(&self, expr: &Expr) -> bool
        ensures held { IsTrue result → missing_in false (listed (definitions_in self.now))
            (shape_of expr.now) ≡ None }
        ensures others { missing_in false (listed (definitions_in self.now)) (shape_of expr.now)
            ≡ None → IsTrue result }
    {
        match missing(expr, &self.definitions, false) {
            None => true,
            Some(_) => false,
        }
    }

    /// The position of the root of an archive of `len` bytes: `len` less the root's size, or 0 if
    /// there are fewer bytes.
    pub fn root_position(&self, len: usize) -> usize
        ensures meaning { HasMeaning self.now }
        ensures position { LiesAtEnd self.now len result }
    {
        match self.layout(&self.root) {
            Ok(layout) => len.saturating_sub(layout.size),
            Err(_) => 0,
        }
    }

    /// Checks that `bytes` are an archive of the schema with its root at the end. Memory comes from
    /// `alloc`.
    ///
    /// Errors:
    /// - `OutOfMemory`: memory is refused.
    /// - the first fault of the bytes, in the order that docs/FORMAT.md gives.
    pub fn check_archive(&self, alloc: Global, bytes: &[u8]) -> Result<(), Error>
        ensures { AnswersWhole self.now bytes.now result }
    {
        let mut context = HighValidator::new(alloc, bytes);
        let root = self.root_position(bytes.len());
        self.check(bytes, root, &mut context)
    }
}
