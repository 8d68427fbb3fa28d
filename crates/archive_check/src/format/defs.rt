//! Definitions: what names in expressions stand for. rkyv 0.8.18 has none.

ghost use Rattle.std.specs.Prelude.{◌≡◌, ◌++◌, ◌∷◌, [], IfOk, OnErr, if◌then◌else◌};
ghost use Rattle.archive_check.specs.Shape.{definition};
ghost use Rattle.archive_check.specs.Expressions.{shape_of, entries_of, table_of};
ghost use Rattle.archive_check.specs.Words.AddAnswer.{IsFound, IsAddAnswer};
ghost use Rattle.archive_check.specs.Words.AddedDefinitions.{table_after};

use crate::format::error::Error;
use crate::format::expr::Expr;
use std::alloc::Global;

/// A name, with the expression that it stands for.
#[derive(Debug, Drop, PartialEq, Eq)]
pub struct Def {
    /// The name.
    pub name: &'static str,
    /// What it stands for.
    pub expr: Expr,
}

/// The definitions of names.
#[derive(Debug, Drop)]
pub struct Defs {
    items: Vec<Def>,
}

impl Defs {
    /// No definition. Memory comes from `alloc`, and none is taken yet.
    pub fn new(alloc: Global) -> Defs
        ensures { table_of result ≡ [] }
    {
        Defs {
            items: Vec::new(alloc),
        }
    }

    /// Defines `name`. Returns true where the name is new, and false where it has this very
    /// definition already. Fails with `ShapeConflict` if it has another one, and with `OutOfMemory`
    /// if it is new and memory is refused; a failed call changes nothing. Memory comes from the
    /// allocator that the definitions were made with.
    #[tactic(auto, using(crate::proofs::Names::Named::tables))]
    pub fn add(&mut self, name: &'static str, expr: Expr) -> Result<bool, Error>
        ensures answer { IsAddAnswer (definition (table_of self.old) name.now) (shape_of expr)
            result }
        ensures added { IfOk result (λ new. table_of self.new
            ≡ table_after (table_of self.old) name.now (shape_of expr) new) }
        ensures unchanged { OnErr result (table_of self.new ≡ table_of self.old) }
    {
        match find(&self.items, name) {
            Some(defined) => {
                if *defined == expr {
                    Ok(false)
                } else {
                    Err(Error::ShapeConflict)
                }
            }
            None => {
                self.items.push(Def { name, expr })?;
                Ok(true)
            }
        }
    }
}

impl Defs {
    /// The definitions, in the order in which they were added.
    pub fn into_items(self) -> Vec<Def>
        ensures { entries_of result.items ≡ table_of self }
    {
        self.items
    }
}

// The first definition of a name.
#[tactic(auto, using(crate::proofs::Names::Named::tables))]
fn find<'a>(items: &'a [Def], name: &str) -> Option<&'a Expr>
    ensures { IsFound result (definition (entries_of items.now) name.now) }
{
    for def in items {
        if def.name == name {
            return Some(&def.expr);
        }
    }
    None
}
