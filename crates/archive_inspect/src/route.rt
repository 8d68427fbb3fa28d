//! Ways from the root of an archive to a value in it.

use crate::form::labels::PartLabels;
use crate::walk::frames::{Frame, Held, OpenElements, OpenEntries, OpenParts};
use std::alloc::{AllocError, Global};
use std::fmt;

/// A step from a value to one within it.
#[derive(Clone, Copy)]
pub enum RouteStep {
    /// To a part of a record or a variant, by its number and its name, if it is known, or `""`.
    Part(usize, &'static str),
    /// To the parts of the variant, by its tag and its name, if it is known, or `""`.
    Variant(u8, &'static str),
    /// From there to the only part, which has no name: nothing is written of it.
    Only,
    /// To an element, by its number.
    Element(usize),
    /// To the key of an entry, by its number.
    Key(usize),
    /// To the value of one.
    Value(usize),
    /// To the one value that a pointer leads to.
    Target,
    /// To the text that a pointer leads to: nothing is written of it.
    Text,
}

/// As `.name`, `[17]` or `.*`.
impl fmt::Display for RouteStep {
    fn fmt<W: fmt::Write>(&self, f: &mut fmt::Formatter<W>) -> fmt::Result {
        match self {
            RouteStep::Part(number, "") => write!(f, ".{number}"),
            RouteStep::Part(_, name) => write!(f, ".{name}"),
            RouteStep::Variant(tag, "") => write!(f, ".#{tag}"),
            RouteStep::Variant(_, name) => write!(f, ".{name}"),
            RouteStep::Element(number) => write!(f, "[{number}]"),
            RouteStep::Key(number) => write!(f, ".key({number})"),
            RouteStep::Value(number) => write!(f, ".value({number})"),
            RouteStep::Target => f.write_str(".*"),
            RouteStep::Only | RouteStep::Text => Ok(()),
        }
    }
}

/// The steps from the root to a value.
#[derive(Drop)]
pub struct Route {
    /// How many of what is gone through are left out at the root's end.
    pub left_out: usize,
    /// The steps.
    pub steps: Vec<RouteStep>,
}

// How many steps are written at most: the last ones.
const WRITTEN: usize = 200;

// Whether nothing is written of any of the steps.
fn are_silent(steps: &[RouteStep]) -> bool {
    steps
        .iter()
        .all(|step| matches!(step, RouteStep::Only | RouteStep::Text))
}

/// As `.events[17].Text`; the root alone is `the root`. Of a long one the last steps are written.
impl fmt::Display for Route {
    fn fmt<W: fmt::Write>(&self, f: &mut fmt::Formatter<W>) -> fmt::Result {
        let skipped = self.steps.len().saturating_sub(WRITTEN);
        if self.left_out > 0 || skipped > 0 {
            f.write_str("..")?;
        } else if are_silent(&self.steps) {
            return f.write_str("the root");
        }
        for step in &self.steps[skipped..] {
            write!(f, "{step}")?;
        }
        Ok(())
    }
}

// Whether a part's name says nothing more than that of its variant: it is its only one, and has no
// name.
fn is_only(parts: &OpenParts<'_>) -> bool {
    parts.variant.is_some() && parts.exprs.len() == 1 && name_of(parts.labels, 0) == ""
}

// The name of a part.
fn name_of(labels: &[PartLabels], number: usize) -> &'static str {
    match labels.get(number) {
        Some(part) => part.name,
        None => "",
    }
}

// The step to the part that was begun last: none if that of the variant says it.
fn part_of(parts: &OpenParts<'_>) -> Option<RouteStep> {
    let number = parts.begun.checked_sub(1)?;
    if is_only(parts) {
        return None;
    }
    Some(RouteStep::Part(number, name_of(parts.labels, number)))
}

// The step to the element that was begun last.
fn element_of(elements: &OpenElements<'_>) -> Option<RouteStep> {
    Some(RouteStep::Element(elements.begun.checked_sub(1)?))
}

// The step to the key or the value that was begun last.
fn entry_of(entries: &OpenEntries<'_>) -> Option<RouteStep> {
    let number = entries.begun.checked_sub(1)?;
    if entries.in_value {
        Some(RouteStep::Value(number))
    } else {
        Some(RouteStep::Key(number))
    }
}

/// The step from a frame to what was begun in it last: none for a text, for the root, and for the
/// only part of a variant.
pub fn step_in(frame: &Frame<'_>) -> Option<RouteStep> {
    match frame {
        Frame::Parts(parts) => part_of(parts),
        Frame::Array(elements) => element_of(elements),
        Frame::Region(inside) => match &inside.held {
            Held::Elements(elements) => element_of(elements),
            Held::Entries(entries) => entry_of(entries),
            Held::One => Some(RouteStep::Target),
            Held::Root | Held::Text => None,
        },
    }
}

// The step to the variant whose parts a frame has, once one was begun.
fn variant_in(frame: &Frame<'_>) -> Option<RouteStep> {
    match frame {
        Frame::Parts(parts) if parts.begun > 0 => {
            let (tag, name) = parts.variant?;
            Some(RouteStep::Variant(tag, name))
        }
        _ => None,
    }
}

// The step of which nothing is written, from a frame to what was begun in it last.
fn silent_step_in(frame: &Frame<'_>) -> Option<RouteStep> {
    match frame {
        Frame::Parts(parts) if parts.begun > 0 && is_only(parts) => Some(RouteStep::Only),
        Frame::Region(inside) => match &inside.held {
            Held::Text => Some(RouteStep::Text),
            _ => None,
        },
        _ => None,
    }
}

/// The way to what was begun last within these frames, by at most `most` of the last ones.
pub fn route_of(alloc: Global, frames: &[Frame<'_>], most: usize) -> Result<Route, AllocError> {
    let mut steps = Vec::new(alloc);
    let left_out = frames.len().saturating_sub(most);
    for frame in frames.get(left_out..).unwrap_or(frames) {
        if let Some(step) = variant_in(frame) {
            steps.push(step)?;
        }
        if let Some(step) = step_in(frame).or(silent_step_in(frame)) {
            steps.push(step)?;
        }
    }
    Ok(Route { left_out, steps })
}
