// The way from the root to what is looked at.

use archive_inspect::route::RouteStep;

// A step.
#[derive(Clone, Copy, Debug, PartialEq)]
pub(crate) enum Step {
    // To a part of a record or a variant, by its number.
    Part(usize),
    // To the variant of a tag.
    Variant(u8),
    // To an element, a key or a value, by its number.
    Element(usize),
    Key(usize),
    Value(usize),
    // To the value or the text that a pointer leads to.
    Target,
    Text,
}

// Where something is looked at, and the way there.
#[derive(Drop, Debug, PartialEq)]
pub(crate) struct Place {
    pub(crate) position: i128,
    pub(crate) steps: Vec<Step>,
}

// Where a leaf or a text lies: one in a string is as long as that.
#[derive(Clone, Copy, Debug, PartialEq)]
pub(crate) struct Range {
    pub(crate) position: i128,
    pub(crate) size: i128,
}

// A step that is explained. The only part of a variant is its first.
pub(crate) fn step_of(step: RouteStep) -> Step {
    match step {
        RouteStep::Part(number, _) => Step::Part(number),
        RouteStep::Variant(tag, _) => Step::Variant(tag),
        RouteStep::Only => Step::Part(0),
        RouteStep::Element(number) => Step::Element(number),
        RouteStep::Key(number) => Step::Key(number),
        RouteStep::Value(number) => Step::Value(number),
        RouteStep::Target => Step::Target,
        RouteStep::Text => Step::Text,
    }
}
