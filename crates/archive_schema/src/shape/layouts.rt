//! Layouts of expressions under a schema's definitions, without memory: names have the layouts of their nodes in the schema's plan.

ghost use Rattle.std.specs.Prelude.{◌≡◌, Some, None, false};
ghost use Rattle.archive_check.specs.Shape.{named};
ghost use Rattle.archive_check.specs.Layout.{pointer_size as pointer_takes};
ghost use Rattle.archive_check.specs.Expressions.{shape_of, pointee_of, shapes_in, variants_in, entries_of};
ghost use Rattle.archive_check.specs.MissingNames.{missing, parts_missing, variants_missing};
ghost use Rattle.archive_schema.specs.plan.Extents.{HasExtent, PartsHaveExtent, VariantsHaveExtent};

use crate::plan::PointeeKind;
use crate::plan::extents::{Extent, pointer_size};
use crate::plan::growing::find;
use crate::shape::Schema;
use archive_check::format::expr::{Expr, Pointee};
use archive_check::format::extents::times;

// What a name takes: what its node does.
fn extent_of_name(schema: &Schema, name: &str) -> Extent
    requires { missing false (entries_of schema.now.definitions.items) (named name.now) ≡ None }
    ensures { HasExtent schema.now (named name.now) result }
{
    let Some(node) = find(&schema.names, name) else {
        unreachable!();
    };
    let node = schema.plan.nodes[node];
    Extent {
        end: node.size,
        align: node.align,
    }
}

// What a pointer takes.
fn extent_of_pointer(pointee: &Pointee) -> Extent
    ensures end { result.end ≡ Some (pointer_takes (pointee_of pointee.now)) }
    ensures align { result.align ≡ 4 }
{
    let target = match pointee {
        Pointee::One(_) => PointeeKind::One,
        Pointee::Run(_) => PointeeKind::Run,
        Pointee::Text => PointeeKind::Text,
    };
    Extent {
        end: Some(pointer_size(target)),
        align: 4,
    }
}

/// What an expression takes: it ends at its size.
#[cycle(extent)]
#[tactic(auto, using(archive_check::proofs::format::Views::views))]
pub fn extent_of(schema: &Schema, expr: &Expr) -> Extent
    requires { missing false (entries_of schema.now.definitions.items) (shape_of expr.now) ≡ None }
    ensures { HasExtent schema.now (shape_of expr.now) result }
{
    match expr {
        Expr::Leaf(kind) => Extent {
            end: Some(kind.size()),
            align: kind.align(),
        },
        Expr::Record(parts) => extent_of_parts(schema, parts, 0).whole(),
        Expr::Choice(_, variants) => extent_of_variants(schema, variants).whole(),
        Expr::Array(count, x) => {
            let element = extent_of(schema, x);
            Extent {
                end: times(element.end, *count),
                align: element.align,
            }
        }
        Expr::Box(x) | Expr::Shared(_, x) | Expr::Weak(_, x) => extent_of_pointer(x),
        Expr::Vec(_) | Expr::Map(_, _) | Expr::Str => Extent {
            end: Some(8),
            align: 4,
        },
        Expr::Named(name) => extent_of_name(schema, name),
    }
}

// What parts take, from an offset on.
#[cycle(extent)]
#[tactic(auto, using(archive_check::proofs::format::Views::views))]
fn extent_of_parts(schema: &Schema, parts: &[Expr], start: usize) -> Extent
    requires { parts_missing false (entries_of schema.now.definitions.items) (shapes_in parts.now)
        ≡ None }
    ensures { PartsHaveExtent schema.now start (shapes_in parts.now) result }
{
    let mut extent = Extent::new(start);
    for i in 0..parts.len() {
        let part = extent_of(schema, &parts[i]);
        extent.add(part.end, part.align);
    }
    extent
}

// What variants take, each behind the tag.
#[cycle(extent)]
#[tactic(auto, using(archive_check::proofs::format::Views::views))]
fn extent_of_variants(schema: &Schema, variants: &[Vec<Expr>]) -> Extent
    requires { variants_missing false (entries_of schema.now.definitions.items)
        (variants_in variants.now) ≡ None }
    ensures { VariantsHaveExtent schema.now (variants_in variants.now) result }
{
    let mut extent = Extent::new(1);
    for i in 0..variants.len() {
        let variant = extent_of_parts(schema, &variants[i], 1);
        extent.join(variant.end, variant.align);
    }
    extent
}
