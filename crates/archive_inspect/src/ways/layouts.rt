//! What lies where within what is read.

ghost use Rattle.std.specs.Prelude.{◌≡◌, ◌+◌, ◌<◌, IfSome};
ghost use Rattle.archive_check.specs.Definitions.{HasLayout};
ghost use Rattle.archive_check.specs.Expressions.{shape_of, shapes_in};
ghost use Rattle.archive_check.specs.Layout.{up};
ghost use Rattle.archive_inspect.specs.Points.{EndsNext, PartAmong, ElementAmong};
ghost use Rattle.archive_schema.specs.Schemas.{definitions_in, layout_of as taken};

use crate::form::Form;
use crate::ways::{Point, Thing};
use archive_check::format::expr::Expr;
use archive_check::format::extents::offset_of;
use archive_check::format::layout::Layout;

/// What a value takes, if its size fits a `usize`.
pub fn layout_of(form: &Form, expr: &Expr) -> Option<Layout>
    ensures { IfSome result (λ l. HasLayout (definitions_in form.now.schema) (shape_of expr.now)
        (taken l)) }
{
    let schema = form.schema();
    if !schema.defines(expr) {
        return None;
    }
    schema.layout(expr).ok()
}

/// The least multiple of an alignment that is at least a number.
pub fn rounded_up(number: usize, align: usize) -> Option<usize>
    ensures { IfSome result (λ n. n ≡ up number align) }
{
    if align == 0 {
        return None;
    }
    offset_of(Some(number), align)
}

// Where the next one of parts ends, behind the end of those before it.
fn end_of_next(form: &Form, part: &Expr, end: usize) -> Option<usize>
    ensures { IfSome result (EndsNext form.now.schema (shape_of part.now) end) }
{
    let layout = layout_of(form, part)?;
    rounded_up(end, layout.align)?.checked_add(layout.size)
}

/// The part of this number among parts that are laid out from an offset on, of what begins at a
/// position.
pub fn part_from<'a>(
    form: &Form,
    parts: &'a [Expr],
    at: usize,
    start: usize,
    number: usize,
) -> Option<Point<'a>>
    ensures { IfSome result (PartAmong form.now.schema at start (shapes_in parts.now) number) }
{
    if number >= parts.len() {
        return None;
    }
    let mut end = start;
    for i in 0..number {
        let next = end_of_next(form, &parts[i], end)?;
        end = next;
    }
    let part = &parts[number];
    let layout = layout_of(form, part)?;
    let offset = rounded_up(end, layout.align)?;
    let place = at.checked_add(offset)?;
    Some(Point {
        at: place,
        thing: Thing::Value(part),
    })
}

/// The element of this number among `count`, the first of which lies at a position.
pub fn element_from<'a>(
    form: &Form,
    element: &'a Expr,
    start: usize,
    count: usize,
    number: usize,
) -> Option<Point<'a>>
    ensures { IfSome result (ElementAmong form.now.schema (shape_of element.now) start count
        number) }
{
    if number >= count {
        return None;
    }
    let layout = layout_of(form, element)?;
    let offset = number.checked_mul(layout.size)?;
    let place = start.checked_add(offset)?;
    Some(Point {
        at: place,
        thing: Thing::Value(element),
    })
}
