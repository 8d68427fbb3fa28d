//! What a walk is within: records, variants, arrays and regions, from the root inwards.

use crate::form::Form;
use crate::form::labels::{Labels, PartLabels};
use crate::form::layouts::rounded_up;
use archive_check::format::expr::{Expr, Key};

/// A value that is to be looked at.
#[derive(Clone, Copy)]
pub struct Place<'a> {
    /// Its expression.
    pub expr: &'a Expr,
    /// The names of what it has.
    pub labels: Option<&'a Labels>,
    /// Where it lies.
    pub at: i128,
}

/// What a walk is within.
#[derive(Clone, Copy)]
pub enum Frame<'a> {
    /// A record or a variant.
    Parts(OpenParts<'a>),
    /// An array.
    Array(OpenElements<'a>),
    /// What a pointer leads to, or the root.
    Region(Inside<'a>),
}

/// The parts of a record or a variant.
#[derive(Clone, Copy)]
pub struct OpenParts<'a> {
    /// The parts.
    pub exprs: &'a [Expr],
    /// Their names.
    pub labels: &'a [PartLabels],
    /// The tag and the name of the variant.
    pub variant: Option<(u8, &'static str)>,
    /// How many were begun.
    pub begun: usize,
    /// Where the whole lies.
    pub at: i128,
    /// Where the last one that was begun ends, counted from there.
    pub end: i128,
}

/// The elements of an array or a region.
#[derive(Clone, Copy)]
pub struct OpenElements<'a> {
    /// The expression of each.
    pub expr: &'a Expr,
    /// The names of what each has.
    pub labels: Option<&'a Labels>,
    /// How many there are.
    pub count: usize,
    /// How many were begun.
    pub begun: usize,
    /// Where the first one lies.
    pub at: i128,
    /// The size of each.
    pub size: i128,
}

/// The entries of a sorted map.
#[derive(Clone, Copy)]
pub struct OpenEntries<'a> {
    /// The map's expression.
    pub expr: &'a Expr,
    /// What the keys are.
    pub key: Key,
    /// The expression of each value.
    pub value: &'a Expr,
    /// The names of what each value has.
    pub labels: Option<&'a Labels>,
    /// How many there are.
    pub count: usize,
    /// How many were begun.
    pub begun: usize,
    /// Whether the value of the last one of these was begun.
    pub in_value: bool,
    /// Where the first one lies.
    pub at: i128,
    /// The size of each.
    pub size: i128,
    /// Where the value begins in each.
    pub offset: i128,
}

// What is looked at next.
#[derive(Clone, Copy)]
pub(super) enum Begun<'a> {
    // A value.
    Value(Place<'a>),
    // A key, in the place of its map.
    Key(Place<'a>, Key),
    // The value of an entry, once its key is behind that of the entry before it: where both lie.
    Behind(Place<'a>, Key, i128, i128),
}

/// What lies in a region.
#[derive(Clone, Copy)]
pub enum Held<'a> {
    /// The root.
    Root,
    /// One value.
    One,
    /// Elements.
    Elements(OpenElements<'a>),
    /// Entries of a sorted map.
    Entries(OpenEntries<'a>),
    /// A text.
    Text,
}

/// A region that was entered.
#[derive(Clone, Copy)]
pub struct Inside<'a> {
    /// What lies in it.
    pub held: Held<'a>,
    /// The only value in it.
    pub only: Option<Place<'a>>,
    /// The position behind its last byte.
    pub end: i128,
    /// Where the range ends again, once it is left.
    pub stop: i128,
    /// The shared position that is finished then.
    pub shared: Option<i128>,
}

impl<'a> OpenParts<'a> {
    // The next part.
    fn advance(&mut self, form: &'a Form) -> Option<Place<'a>> {
        let expr = self.exprs.get(self.begun)?;
        let labels = match self.labels.get(self.begun) {
            Some(part) => Some(&part.labels),
            None => None,
        };
        let layout = form.layout(expr);
        let offset = rounded_up(self.end, layout.align);
        self.end = offset.saturating_add(layout.size);
        self.begun = self.begun.saturating_add(1);
        Some(Place {
            expr,
            labels,
            at: self.at.saturating_add(offset),
        })
    }
}

impl<'a> OpenElements<'a> {
    // The next element.
    fn advance(&mut self) -> Option<Place<'a>> {
        if self.begun >= self.count {
            return None;
        }
        let offset = self.size.saturating_mul(self.begun as i128);
        self.begun = self.begun.saturating_add(1);
        Some(Place {
            expr: self.expr,
            labels: self.labels,
            at: self.at.saturating_add(offset),
        })
    }
}

impl<'a> OpenEntries<'a> {
    // The position of a key.
    fn key_at(&self, number: usize) -> i128 {
        self.at
            .saturating_add(self.size.saturating_mul(number as i128))
    }

    // The next key or value.
    fn advance(&mut self) -> Option<Begun<'a>> {
        if self.begun == 0 || self.in_value {
            return self.advance_key();
        }
        let number = self.begun.saturating_sub(1);
        let at = self.key_at(number);
        let place = Place {
            expr: self.value,
            labels: self.labels,
            at: at.saturating_add(self.offset),
        };
        match number.checked_sub(1) {
            Some(before) => Some(Begun::Behind(place, self.key, self.key_at(before), at)),
            None => {
                self.in_value = true;
                Some(Begun::Value(place))
            }
        }
    }

    // The next key.
    fn advance_key(&mut self) -> Option<Begun<'a>> {
        if self.begun >= self.count {
            return None;
        }
        let at = self.key_at(self.begun);
        self.begun = self.begun.saturating_add(1);
        self.in_value = false;
        let place = Place {
            expr: self.expr,
            labels: None,
            at,
        };
        Some(Begun::Key(place, self.key))
    }
}

impl Held<'_> {
    // It begins again.
    pub(super) fn begin_again(&mut self) {
        match self {
            Held::Elements(elements) if elements.size > 0 => elements.begun = 0,
            Held::Entries(entries) => {
                entries.begun = 0;
                entries.in_value = false;
            }
            _ => {}
        }
    }

    // It ends after so many elements or entries.
    fn limit(&mut self, most: usize) {
        match self {
            Held::Elements(elements) => elements.count = elements.count.min(most),
            Held::Entries(entries) => entries.count = entries.count.min(most),
            Held::Root | Held::One | Held::Text => {}
        }
    }
}

// A value to be looked at, if there is one.
fn value(place: Option<Place<'_>>) -> Option<Begun<'_>> {
    Some(Begun::Value(place?))
}

impl<'a> Frame<'a> {
    // It begins again, if it is a region.
    pub(super) fn begin_again(&mut self) -> bool {
        match self {
            Frame::Region(inside) => {
                inside.held.begin_again();
                true
            }
            Frame::Parts(_) | Frame::Array(_) => false,
        }
    }

    // The only value of a region.
    pub(super) fn only(&self) -> Option<Place<'a>> {
        match self {
            Frame::Region(inside) => inside.only,
            Frame::Parts(_) | Frame::Array(_) => None,
        }
    }

    // It ends after so many parts, elements or entries.
    pub(super) fn limit(&mut self, most: usize) {
        match self {
            Frame::Parts(parts) => parts.exprs = parts.exprs.get(..most).unwrap_or(parts.exprs),
            Frame::Array(elements) => elements.count = elements.count.min(most),
            Frame::Region(inside) => inside.held.limit(most),
        }
    }

    // The next part, element, key or value.
    pub(super) fn advance(&mut self, form: &'a Form) -> Option<Begun<'a>> {
        match self {
            Frame::Parts(parts) => value(parts.advance(form)),
            Frame::Array(elements) => value(elements.advance()),
            Frame::Region(inside) => match &mut inside.held {
                Held::Elements(elements) => value(elements.advance()),
                Held::Entries(entries) => entries.advance(),
                Held::Root | Held::One | Held::Text => None,
            },
        }
    }
}
