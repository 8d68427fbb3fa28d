//! Ways gone once more, step by step by the rules of reading: so each way that is returned leads to
//! the fault.

ghost use Rattle.std.specs.Prelude.{◌≡◌, IfSome};
ghost use Rattle.archive_inspect.specs.Points.{MeansThere, LeadsOn, LeadsToPoint};

pub mod entries;
pub mod faults;
pub mod kinds;
pub mod layouts;
pub mod pointing;
pub mod regions;
pub mod steps;

use crate::form::Form;
use crate::route::RouteStep;
use crate::ways::steps::step_from;
use archive_check::format::expr::{Expr, Key};

/// What a way leads to.
#[derive(Clone, Copy)]
pub enum Thing<'a> {
    /// A value.
    Value(&'a Expr),
    /// The key of an entry of a sorted map.
    Key(Key),
    /// The parts behind the tag of a choice.
    Payload(&'a [Expr]),
    /// A text with its length in bytes.
    Text(usize),
}

/// Where a way leads.
#[derive(Clone, Copy)]
pub struct Point<'a> {
    /// The position.
    pub at: usize,
    /// What lies there.
    pub thing: Thing<'a>,
}

/// What the names at a point stand for, at the same position.
pub fn meant<'a>(form: &'a Form, point: Point<'a>) -> Point<'a>
    ensures same { result.at ≡ point.entry.at }
    ensures means { MeansThere form.now.schema point.entry.thing result.thing }
{
    match point.thing {
        Thing::Value(expr) => Point {
            at: point.at,
            thing: Thing::Value(form.meant(expr)),
        },
        _ => point,
    }
}

/// Where the steps lead from a point: none if one of them isn't by the rules of reading.
pub fn follow_from<'a>(
    form: &'a Form,
    bytes: &[u8],
    start: Point<'a>,
    steps: &[RouteStep],
) -> Option<Point<'a>>
    ensures { IfSome result (LeadsOn form.now.schema bytes.now start.entry steps.now) }
{
    let mut point = start;
    for step in steps {
        let next = step_from(form, bytes, point, *step)?;
        point = meant(form, next);
    }
    Some(point)
}

/// Where the steps lead from a root.
pub fn follow<'a>(
    form: &'a Form,
    bytes: &[u8],
    root: usize,
    steps: &[RouteStep],
) -> Option<Point<'a>>
    ensures { IfSome result (LeadsToPoint form.now.schema bytes.now root steps.now) }
{
    let start = Point {
        at: root,
        thing: Thing::Value(form.schema().root()),
    };
    follow_from(form, bytes, meant(form, start), steps)
}
