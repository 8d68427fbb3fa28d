//! Forms: what the bytes of an archive are read as, with the names of types, parts and variants as
//! far as they are known.

ghost use Rattle.std.specs.Prelude.{◌≡◌, IfOk, IfErr};
ghost use Rattle.archive_check.specs.Archives.{ExplainsNoSchema};
ghost use Rattle.archive_check.specs.Expressions.{shape_of, entries_of};
ghost use Rattle.archive_schema.specs.Given.{IsSchemaAmong, ExplainsNoMeaning};
ghost use Rattle.archive_check.specs.Shape.{definition};
ghost use Rattle.archive_check.specs.Words.AddAnswer.{IsFound};
ghost use Rattle.archive_inspect.specs.Points.{Under, MeantBy};
ghost use Rattle.archive_schema.specs.Schemas.{IsSchemaOf};

pub mod labels;
pub mod layouts;

use crate::form::labels::{Labels, TypeLabels};
use crate::form::layouts::Layout;
use archive_check::format::error::Error;
use archive_check::format::expr::{Def, Expr};
use archive_check::format::traits::Portable;
use archive_schema::shape::Schema;
use std::alloc::Global;

/// A schema, with names for people.
///
/// ```
/// let form = Form::of::<ArchivedVec<ArchivedU32>>(alloc)?;
/// let explanation = explain(alloc, &form, bytes.as_slice())?;
/// ```
#[derive(Drop)]
pub struct Form {
    schema: Schema,
    labels: Labels,
    types: Vec<TypeLabels>,
}

impl Form {
    /// The form of an expression, with definitions of its names. The first definition of each name
    /// counts. Parts and variants have numbers for names. Memory comes from `alloc`.
    ///
    /// Errors:
    /// - `OutOfMemory`: memory is refused.
    /// - `ShapeConflict`: a name that is reached has no definition.
    /// - `RecursiveLayout`: a name contains itself other than behind a pointer.
    pub fn new(alloc: Global, root: Expr, definitions: Vec<Def>) -> Result<Form, Error>
        ensures made { IfOk result (λ f. IsSchemaAmong f.schema (entries_of definitions.items)
            (shape_of root)) }
        ensures refused { IfErr result (ExplainsNoMeaning (entries_of definitions.items)
            (shape_of root)) }
    {
        let schema = Schema::new(alloc, root, definitions)?;
        Ok(Form::without_names(alloc, schema))
    }

    /// The form of a `T`. Parts and variants have numbers for names. Memory comes from `alloc`.
    ///
    /// Errors:
    /// - `OutOfMemory`: memory is refused.
    /// - `ShapeConflict`, `RecursiveLayout`: the definitions of `T` have no meaning.
    pub fn of<T: Portable>(alloc: Global) -> Result<Form, Error>
        ensures made { IfOk result (λ f. IsSchemaOf f.schema T.shape T.definitions) }
        ensures refused { IfErr result (λ e. ExplainsNoSchema T.shape T.definitions e) }
    {
        let schema = Schema::of::<T>(alloc)?;
        Ok(Form::without_names(alloc, schema))
    }

    // A form that has no names for people.
    fn without_names(alloc: Global, schema: Schema) -> Form
        ensures { result.schema ≡ schema }
    {
        Form {
            schema,
            labels: Labels::Unknown,
            types: Vec::new(alloc),
        }
    }

    /// The same form with the names of what the root has, and of the types that these name.
    pub fn with_labels(self, labels: Labels, types: Vec<TypeLabels>) -> Form
        ensures { result.schema ≡ self.schema }
    {
        let Form { schema, .. } = self;
        Form {
            schema,
            labels,
            types,
        }
    }

    /// The same form with the names of another one, if both have one schema.
    pub fn with_names_of(self, other: Form) -> Form
        ensures { result.schema ≡ self.schema }
    {
        if !self.has_schema_of(&other) {
            return self;
        }
        let Form { labels, types, .. } = other;
        self.with_labels(labels, types)
    }

    // Whether both have one root and the same definitions.
    fn has_schema_of(&self, other: &Form) -> bool {
        self.schema.root() == other.schema.root()
            && are_same(self.schema.definitions(), other.schema.definitions())
    }

    /// The schema.
    pub fn schema(&self) -> &Schema
        ensures { result.now ≡ self.now.schema }
    {
        &self.schema
    }

    /// The names of what the root has.
    pub fn labels(&self) -> &Labels {
        &self.labels
    }

    /// What a value of an expression takes.
    pub fn layout(&self, expr: &Expr) -> Layout {
        if !self.schema.defines(expr) {
            return Layout::ENDLESS;
        }
        match self.schema.layout(expr) {
            Ok(layout) => Layout::from_library(layout),
            Err(_) => Layout::ENDLESS,
        }
    }

    /// What a name stands for, and what that stands for if it is one, and so on.
    pub fn meant<'a>(&'a self, expr: &'a Expr) -> &'a Expr
        ensures { Under self.now.schema (λ s. MeantBy s (shape_of expr.now) (shape_of result.now)) }
    {
        let definitions = self.schema.definitions();
        let mut meant = expr;
        for _ in 0..definitions.len() {
            let Expr::Named(name) = meant else {
                break;
            };
            match definition_of(definitions, name) {
                Some(expr) => meant = expr,
                None => break,
            }
        }
        meant
    }

    /// The names that are meant, where those of a type are known by its name.
    pub fn known<'a>(&'a self, labels: Option<&'a Labels>) -> Option<&'a Labels> {
        let Some(Labels::Of(name)) = labels else {
            return labels;
        };
        for it in &self.types {
            if it.name == *name {
                return Some(&it.labels);
            }
        }
        None
    }
}

fn are_same<T: PartialEq>(one: &[T], other: &[T]) -> bool {
    one == other
}

// The expression that a name stands for.
#[tactic(auto, using(archive_check::proofs::Names::Named::tables))]
fn definition_of<'a>(definitions: &'a [Def], name: &str) -> Option<&'a Expr>
    ensures { IsFound result (definition (entries_of definitions.now) name.now) }
{
    for def in definitions {
        if def.name == name {
            return Some(&def.expr);
        }
    }
    None
}
