//! Schemas: an expression with the definitions of its names, compiled to a plan once, and the check of bytes against it.

ghost use Rattle.std.specs.Prelude.{◌≡◌, length};
ghost use Rattle.archive_check.specs.Definitions.{HasLayouts};
ghost use Rattle.archive_check.specs.Expressions.{shape_of, entries_of};
ghost use Rattle.archive_check.specs.MissingNames.{Arranged};
ghost use Rattle.archive_schema.specs.plan.Shallow.{AreShallow};
ghost use Rattle.archive_schema.specs.plan.PackedPlans.{ArePacked};
ghost use Rattle.archive_schema.specs.plan.Names.{HasAll};
ghost use Rattle.archive_schema.specs.plan.Planned.{IsPlan, HasNames};

use crate::check::Checker;
use crate::plan::Plan;
use crate::plan::growing::NamedNode;
use crate::plan::names::definitions_of;
use crate::plan::shallow::shallow_nodes;
use archive_check::context::{ArchiveContext, SharedContext};
pub use archive_check::format::error::Error;
pub use archive_check::format::expr::{
    Def, Defs, Expr, FlavorInfo, IntegerKind, Key, Kind, Pointee,
};
pub use archive_check::format::layout::Layout;
use archive_check::format::traits::Portable;
use std::alloc::Global;

mod given;
mod layouts;

/// An expression with its definitions, compiled once to check any number of buffers. `Access` keeps
/// one for types that need it.
///
/// ```
/// let schema = Schema::of::<ArchivedVec<ArchivedU32>>(alloc)?;
/// schema.check_archive(alloc, bytes.as_slice())?;
/// ```
#[derive(Drop)]
pub struct Schema {
    root: Expr,
    definitions: Vec<Def>,
    plan: Plan,
    node: usize,
    names: Vec<NamedNode>,
    shallow: Vec<bool>,
    ghost complete: { HasAll (entries_of definitions.items) (shape_of root) },
    ghost arranged: { ∥ Arranged (entries_of definitions.items) (entries_of definitions.items) ∥₁ },
    ghost laid_out: { HasLayouts (entries_of definitions.items) },
    ghost planned: { ∥ IsPlan definitions.items (shape_of root) plan node ∥₁ },
    ghost named: { ∥ HasNames definitions.items names.items plan ∥₁ },
    ghost sound: { AreShallow plan.nodes.items plan.parts.items plan.variants.items shallow.items },
    ghost marks: { length shallow.items ≡ length plan.nodes.items },
    ghost packed: { ArePacked plan.nodes.items plan.parts.items plan.variants.items },
}

impl Schema {
    ghost use Rattle.std.specs.Prelude.{◌≡◌, ◌≤◌, length, None, false, OnOk, IfOk, IfErr};
    ghost use Rattle.archive_check.specs.declared.format.error.Error.TheVariants.{LayoutTooLarge};
    ghost use Rattle.archive_schema.specs.ContextAnswers.{AnswersIn};
    ghost use Rattle.archive_check.specs.Words.Faults.{IsOfCheck};
    ghost use Rattle.archive_check.specs.context.FreshContexts.{HasLevels, KeepsLevels};
    ghost use Rattle.archive_check.specs.context.Pushes.{FewPushed};
    ghost use Rattle.archive_schema.specs.Schemas.{root_of, definitions_in, HasMeaning, IsSchemaOf, layout_of};
    ghost use Rattle.archive_check.specs.Definitions.{listed, HasLayout};
    ghost use Rattle.archive_check.specs.MissingNames.{missing};
    ghost use Rattle.archive_check.specs.Members.RegionLayout.{IsLargeRegion};
    ghost use Rattle.archive_check.specs.Shape.{one};
    ghost use Rattle.archive_check.specs.Archives.{ExplainsNoSchema};
    ghost use Rattle.archive_check.specs.Expressions.{shape_of};

    /// The schema of `T`: its expression and the definitions of all names that it reaches,
    /// compiled. Memory comes from `alloc`, also that which a check takes.
    ///
    /// Errors:
    /// - `OutOfMemory`: memory is refused.
    /// - `ShapeConflict`: exactly if a name that is reached has none or two definitions.
    /// - `RecursiveLayout`: else, exactly if a name contains itself other than behind a pointer.
    pub fn of<T: Portable>(alloc: Global) -> Result<Schema, Error>
        ensures made { IfOk result (λ s. IsSchemaOf s T.shape T.definitions) }
        ensures held { IfOk result (λ s. missing false (listed (definitions_in s)) T.shape ≡ None) }
        ensures refused { IfErr result (λ e. ExplainsNoSchema T.shape T.definitions e) }
    {
        let root = T::expr(alloc)?;
        let definitions = definitions_of::<T>(alloc, &root)?;
        let (plan, node, names) = Plan::of(alloc, &definitions, &root)?;
        let shallow = shallow_nodes(alloc, &plan)?;
        Ok(Schema {
            root,
            definitions,
            plan,
            node,
            names,
            shallow,
        })
    }

    /// The layout of an expression, in bytes. The caller must ensure that each name that `expr`
    /// holds, other than behind a pointer, is defined in the schema, as those of the type's own
    /// expression are. It takes no memory. Fails with `LayoutTooLarge` exactly if the size is above
    /// `usize::MAX`; an array of nothing has size 0, whatever its element.
    pub fn layout(&self, expr: &Expr) -> Result<Layout, Error>
        requires { missing false (listed (definitions_in self.now)) (shape_of expr.now) ≡ None }
        ensures meaning { HasMeaning self.now }
        ensures ok { IfOk result (λ l. HasLayout (definitions_in self.now) (shape_of expr.now)
            (layout_of l)) }
        ensures err { IfErr result (λ e. e ≡ LayoutTooLarge) }
        ensures large { IfErr result (λ e. IsLargeRegion (definitions_in self.now)
            (one (shape_of expr.now)) 0) }
    {
        let extent = layouts::extent_of(self, expr);
        match extent.end {
            None => Err(Error::LayoutTooLarge),
            Some(size) => Ok(Layout {
                size,
                align: extent.align,
            }),
        }
    }

    /// Checks that `bytes` hold a value of the schema at `pos`. The caller must ensure that the
    /// context's range ends in the buffer. Exact in a fresh context. In any context at most one
    /// region is entered, and one for each four bytes of its range; levels left before a success
    /// are left after it.
    ///
    /// Errors:
    /// - `OutOfMemory`: memory is refused.
    /// - the first fault, in the order of docs/FORMAT.md; with levels left always one of a check.
    pub fn check<C: ArchiveContext + SharedContext>(
        &self,
        bytes: &[u8],
        pos: usize,
        context: &mut C,
    ) -> Result<(), Error>
        requires { (C.state context.old).end ≤ length bytes.now }
        ensures meaning { HasMeaning self.now }
        ensures answer { AnswersIn (definitions_in self.now) (root_of self.now) C.Context context
            bytes.now pos result }
        ensures of_check { IfErr result (λ e. HasLevels (C.state context.old).depth → IsOfCheck e) }
        ensures levels { OnOk result (KeepsLevels (C.state context.old) (C.state context.new)) }
        ensures few_subtrees { FewPushed (C.state context.old) (C.state context.new) }
    {
        let checker = Checker {
            nodes: &self.plan.nodes,
            parts: &self.plan.parts,
            variants: &self.plan.variants,
            shared_types: &self.plan.shared_types,
            shallow: &self.shallow,
            bytes,
        };
        let alloc = *self.plan.nodes.allocator();
        checker.check(alloc, self.node, pos, context)
    }
}
