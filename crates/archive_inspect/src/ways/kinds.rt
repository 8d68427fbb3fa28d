//! What lies at a point, by kind.

ghost use Rattle.std.specs.Prelude.{◌≡◌, ℕ, Some, None, IsTrue, IfSome, IfNone};
ghost use Rattle.archive_check.specs.Expressions.{shape_of, shapes_in, variants_in, key_of, kind_of, flavor_of, pointee_of};
ghost use Rattle.archive_check.specs.Shape.{leaf, parts, choice, array, sorted_map, str, weak, variant_at};
ghost use Rattle.archive_inspect.specs.Points.{end_of_way};
ghost use Rattle.archive_inspect.specs.Ways.{a_value, a_payload};

use crate::ways::{Point, Thing};
use archive_check::format::expr::{Expr, FlavorInfo, Key, Kind, Pointee};

/// The expression of the value at a point.
pub fn expr_of<'a>(point: Point<'a>) -> Option<&'a Expr>
    ensures { IfSome result (λ x. end_of_way point.entry.thing ≡ a_value (shape_of x.now)) }
{
    match point.thing {
        Thing::Value(expr) => Some(expr),
        _ => None,
    }
}

/// The parts of the record there.
#[tactic(auto, using(archive_check::proofs::format::Views::views))]
pub fn record_of<'a>(point: Point<'a>) -> Option<&'a [Expr]>
    ensures { IfSome result (λ xs. end_of_way point.entry.thing ≡ a_value
        (parts (shapes_in xs.now))) }
{
    match point.thing {
        Thing::Value(Expr::Record(parts)) => Some(parts),
        _ => None,
    }
}

/// The parts behind the tag of a choice there.
pub fn payload_of<'a>(point: Point<'a>) -> Option<&'a [Expr]>
    ensures { IfSome result (λ xs. end_of_way point.entry.thing ≡ a_payload (shapes_in xs.now)) }
{
    match point.thing {
        Thing::Payload(parts) => Some(parts),
        _ => None,
    }
}

/// The name and the variants of the choice there.
#[tactic(auto, using(archive_check::proofs::format::Views::views))]
pub fn choice_of<'a>(point: Point<'a>) -> Option<(&'static str, &'a [Vec<Expr>])>
    ensures { IfSome result (λ c. end_of_way point.entry.thing ≡ a_value
        (choice c.0.now (variants_in c.1.now))) }
{
    let expr = expr_of(point)?;
    match expr {
        Expr::Choice(name, variants) => Some((*name, variants)),
        _ => None,
    }
}

/// The number of elements of the array there, and their expression.
pub fn array_of<'a>(point: Point<'a>) -> Option<(usize, &'a Expr)>
    ensures { IfSome result (λ a. end_of_way point.entry.thing ≡ a_value
        (array a.0 (shape_of a.1.now))) }
{
    match point.thing {
        Thing::Value(Expr::Array(count, element)) => Some((*count, element)),
        _ => None,
    }
}

/// The key and the value of the sorted map there.
pub fn map_of<'a>(point: Point<'a>) -> Option<(Key, &'a Expr)>
    ensures { IfSome result (λ m. end_of_way point.entry.thing ≡ a_value
        (sorted_map (key_of m.0) (shape_of m.1.now))) }
{
    match point.thing {
        Thing::Value(Expr::Map(key, value)) => Some((*key, value)),
        _ => None,
    }
}

/// Whether it is a string.
pub fn is_string(point: Point<'_>) -> bool
    ensures { IsTrue result → end_of_way point.entry.thing ≡ a_value str }
{
    matches!(point.thing, Thing::Value(Expr::Str) | Thing::Key(Key::Str))
}

/// The kind of the leaf there.
pub fn kind_at(point: Point<'_>) -> Option<Kind>
    ensures { IfSome result (λ kind. end_of_way point.entry.thing ≡ a_value (leaf (kind_of kind))) }
{
    match point.thing {
        Thing::Value(Expr::Leaf(kind)) => Some(*kind),
        Thing::Key(Key::Leaf(kind)) => Some(kind),
        _ => None,
    }
}

/// The flavor and the pointee of the weak pointer there.
pub fn weak_of<'a>(point: Point<'a>) -> Option<(FlavorInfo, &'a Pointee)>
    ensures { IfSome result (λ w. end_of_way point.entry.thing ≡ a_value
        (weak (flavor_of w.0) (pointee_of w.1.now))) }
{
    match point.thing {
        Thing::Value(Expr::Weak(flavor, pointee)) => Some((*flavor, pointee)),
        _ => None,
    }
}

/// The parts of the variant of this number.
#[tactic(auto, using(crate::proofs::Variants::numbered))]
pub fn variant_of(variants: &[Vec<Expr>], number: usize) -> Option<&[Expr]>
    ensures found { IfSome result (λ xs. variant_at (variants_in variants.now) number ≡ Some
        (shapes_in xs.now)) }
    ensures none { IfNone result (variant_at (variants_in variants.now) number ≡ None) }
{
    if number >= variants.len() {
        return None;
    }
    Some(&variants[number])
}
