//! One step of a way.

ghost use Rattle.std.specs.Prelude.{IfSome, List, ℕ};
ghost use Rattle.std.specs.Borrow.{Bor};
ghost use Rattle.archive_inspect.specs.Points.{StepsBetween, PointsFrom, pointer_told};
ghost use Rattle.archive_inspect.specs.declared.route.RouteStep.TheVariants as step_is;

use crate::form::Form;
use crate::route::RouteStep;
use crate::ways::entries::entry_from;
use crate::ways::kinds::{
    array_of, choice_of, expr_of, is_string, map_of, payload_of, record_of, variant_of,
};
use crate::ways::layouts::{element_from, part_from};
use crate::ways::pointing::{
    Pointing, leads_to_text, one_of, place_of, pointer_from, run_of, string_pointing,
};
use crate::ways::{Point, Thing};

// To a part of a record, or of what lies behind a tag.
fn to_part<'a>(form: &Form, bytes: &[u8], from: Point<'a>, number: usize) -> Option<Point<'a>>
    ensures { IfSome result (λ to. (shown : Bor (List ℕ)) → StepsBetween form.now.schema bytes.now
        (step_is.Part number shown) from.entry to) }
{
    if let Some(parts) = record_of(from) {
        return part_from(form, parts, from.at, 0, number);
    }
    let parts = payload_of(from)?;
    part_from(form, parts, from.at, 1, number)
}

// To the only part behind a tag.
fn to_only<'a>(form: &Form, bytes: &[u8], from: Point<'a>) -> Option<Point<'a>>
    ensures { IfSome result (StepsBetween form.now.schema bytes.now step_is.Only from.entry) }
{
    let parts = payload_of(from)?;
    if parts.len() == 1 {
        return part_from(form, parts, from.at, 1, 0);
    }
    None
}

// To what lies behind the tag of a choice, which is to be this one.
fn to_variant<'a>(form: &Form, bytes: &[u8], from: Point<'a>, tag: u8) -> Option<Point<'a>>
    ensures { IfSome result (λ to. (shown : Bor (List ℕ)) → StepsBetween form.now.schema bytes.now
        (step_is.Variant tag shown) from.entry to) }
{
    let choice = choice_of(from)?;
    if from.at >= bytes.len() {
        return None;
    }
    if bytes[from.at] != tag {
        return None;
    }
    let parts = variant_of(choice.1, tag as usize)?;
    Some(Point {
        at: from.at,
        thing: Thing::Payload(parts),
    })
}

// To an element of an array, or of those that a pointer leads to.
fn to_element<'a>(form: &Form, bytes: &[u8], from: Point<'a>, number: usize) -> Option<Point<'a>>
    ensures { IfSome result (StepsBetween form.now.schema bytes.now (step_is.Element number)
        from.entry) }
{
    if let Some(array) = array_of(from) {
        return element_from(form, array.1, from.at, array.0, number);
    }
    let expr = expr_of(from)?;
    let pointer = pointer_from(bytes, from.at, expr)?;
    let element = run_of(pointer)?;
    let start = place_of(pointer)?;
    element_from(form, element, start, pointer.length, number)
}

// To the key of an entry.
fn to_key<'a>(form: &Form, bytes: &[u8], from: Point<'a>, number: usize) -> Option<Point<'a>>
    ensures { IfSome result (StepsBetween form.now.schema bytes.now (step_is.Key number)
        from.entry) }
{
    let map = map_of(from)?;
    let places = entry_from(form, bytes, from.at, map.0, map.1, number)?;
    Some(Point {
        at: places.key,
        thing: Thing::Key(map.0),
    })
}

// To its value.
fn to_value<'a>(form: &Form, bytes: &[u8], from: Point<'a>, number: usize) -> Option<Point<'a>>
    ensures { IfSome result (StepsBetween form.now.schema bytes.now (step_is.Value number)
        from.entry) }
{
    let map = map_of(from)?;
    let places = entry_from(form, bytes, from.at, map.0, map.1, number)?;
    Some(Point {
        at: places.value,
        thing: Thing::Value(map.1),
    })
}

/// The pointer that lies at a point, if there is one.
pub fn pointing_at<'a>(bytes: &[u8], from: Point<'a>) -> Option<Pointing<'a>>
    ensures { IfSome result (λ p. PointsFrom bytes.now from.entry (pointer_told p)) }
{
    if let Some(expr) = expr_of(from) {
        return pointer_from(bytes, from.at, expr);
    }
    if is_string(from) {
        return string_pointing(bytes, from.at);
    }
    None
}

// To the only value that a pointer leads to.
fn to_target<'a>(form: &Form, bytes: &[u8], from: Point<'a>) -> Option<Point<'a>>
    ensures { IfSome result (StepsBetween form.now.schema bytes.now step_is.Target from.entry) }
{
    let pointer = pointing_at(bytes, from)?;
    let expr = one_of(pointer)?;
    let target = place_of(pointer)?;
    Some(Point {
        at: target,
        thing: Thing::Value(expr),
    })
}

// To the text that one leads to.
fn to_text<'a>(form: &Form, bytes: &[u8], from: Point<'a>) -> Option<Point<'a>>
    ensures { IfSome result (StepsBetween form.now.schema bytes.now step_is.Text from.entry) }
{
    let pointer = pointing_at(bytes, from)?;
    let place = place_of(pointer)?;
    if leads_to_text(pointer) {
        return Some(Point {
            at: place,
            thing: Thing::Text(pointer.length),
        });
    }
    None
}

/// Where a step leads from a point, if it is one by the rules of reading.
pub fn step_from<'a>(
    form: &Form,
    bytes: &[u8],
    from: Point<'a>,
    step: RouteStep,
) -> Option<Point<'a>>
    ensures { IfSome result (StepsBetween form.now.schema bytes.now step from.entry) }
{
    match step {
        RouteStep::Part(number, _) => to_part(form, bytes, from, number),
        RouteStep::Variant(tag, _) => to_variant(form, bytes, from, tag),
        RouteStep::Only => to_only(form, bytes, from),
        RouteStep::Element(number) => to_element(form, bytes, from, number),
        RouteStep::Key(number) => to_key(form, bytes, from, number),
        RouteStep::Value(number) => to_value(form, bytes, from, number),
        RouteStep::Target => to_target(form, bytes, from),
        RouteStep::Text => to_text(form, bytes, from),
    }
}
