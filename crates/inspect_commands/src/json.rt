//! The value of an archive as JSON.

use crate::tree::last_step;
use archive_check::format::expr::Expr;
use archive_inspect::form::Form;
use archive_inspect::route::RouteStep;
use archive_inspect::walk::faults::Stop;
use archive_inspect::walk::leaves::Leaf;
use archive_inspect::walk::{Count, Event, Visited, Walker, What};
use serde_json::{Map, Number, Value};
use std::alloc::{AllocError, Global};

// What a value is made of.
#[derive(Debug, Clone, Copy, PartialEq, Eq)]
enum Kind {
    // A record: an object where its parts have names, else an array.
    Record,
    // A variant of this name.
    Variant(&'static str),
    // The variants of an option.
    Nothing,
    Something,
    // Elements.
    List,
    // The entries of a sorted map: a key and its value in turn.
    Map,
    // What a pointer leads to.
    Target,
    // A text that a pointer leads to, which is on the pointer's level.
    Text,
}

// A value that was opened, and what it holds.
#[derive(Drop)]
struct Open {
    kind: Kind,
    // Its name among the parts of what holds it.
    name: &'static str,
    labels: Vec<&'static str>,
    values: Vec<Value>,
    left_out: usize,
}

// What is made, and how much of it.
#[derive(Drop)]
struct Builder {
    alloc: Global,
    depth: usize,
    elements: usize,
    open: Vec<Open>,
    root: Value,
}

// A text of its own.
fn text_of(alloc: Global, text: &str) -> Result<Value, AllocError> {
    Ok(Value::String(String::from_str(alloc, text)?))
}

// A number: a text of digits where JSON's numbers of 64 bits don't have it.
fn unsigned(alloc: Global, number: u128) -> Result<Value, AllocError> {
    match Number::from_u128(number) {
        Some(number) => Ok(Value::Number(number)),
        None => Ok(Value::String(format!(in alloc; "{number}")?)),
    }
}

// The same, with a sign.
fn signed(alloc: Global, number: i128) -> Result<Value, AllocError> {
    match Number::from_i128(number) {
        Some(number) => Ok(Value::Number(number)),
        None => Ok(Value::String(format!(in alloc; "{number}")?)),
    }
}

// The value of a leaf.
fn value_of(alloc: Global, leaf: Leaf) -> Result<Value, AllocError> {
    match leaf {
        Leaf::Unit => Ok(Value::Null),
        Leaf::Bool(value) => Ok(Value::Bool(value)),
        Leaf::Char(value) => Ok(Value::String(format!(in alloc; "{value}")?)),
        Leaf::Unsigned(number) => unsigned(alloc, number),
        Leaf::Signed(number) => signed(alloc, number),
    }
}

// An object of one member.
fn member(alloc: Global, name: &str, value: Value) -> Result<Value, AllocError> {
    let mut members = Map::new(alloc);
    let _ = members.insert(String::from_str(alloc, name)?, value)?;
    Ok(Value::Object(members))
}

// What a variant is made of.
fn kind_of(name: &'static str, found: Visited<'_>) -> Kind {
    let own = match found.labels {
        Some(labels) => labels.own(),
        None => "",
    };
    match (own, name) {
        ("Option", "None") => Kind::Nothing,
        ("Option", "Some") => Kind::Something,
        _ => Kind::Variant(name),
    }
}

// What an opened value is made of: none if it doesn't open.
fn opens(found: Visited<'_>) -> Option<Kind> {
    match found.what {
        What::Record(_) => Some(Kind::Record),
        What::Variant(_, name, _) => Some(kind_of(name, found)),
        What::Array(_) => Some(Kind::List),
        What::Pointer(region) => match region.count {
            Count::Elements(_) => match found.expr {
                Expr::Map(_, _) => Some(Kind::Map),
                _ => Some(Kind::List),
            },
            Count::Root | Count::One => Some(Kind::Target),
            Count::Text(_) => Some(Kind::Text),
        },
        What::Leaf(_) | What::Text(_) | What::Again(_) | What::Null => None,
    }
}

// How many parts, elements or entries a value has.
fn count_of(found: Visited<'_>) -> usize {
    match found.what {
        What::Record(count) | What::Variant(_, _, count) | What::Array(count) => count,
        What::Pointer(region) => match region.count {
            Count::Elements(count) => count,
            Count::Root | Count::One | Count::Text(_) => 1,
        },
        What::Leaf(_) | What::Text(_) | What::Again(_) | What::Null => 0,
    }
}

// Parts as an object, or as an array where they have no names.
fn parts_of(
    alloc: Global,
    labels: Vec<&'static str>,
    values: Vec<Value>,
) -> Result<Value, AllocError> {
    if labels.iter().all(|name| name.is_empty()) {
        return Ok(Value::Array(values));
    }
    let mut members = Map::new(alloc);
    for (name, value) in labels.into_iter().zip(values) {
        let _ = members.insert(String::from_str(alloc, name)?, value)?;
    }
    Ok(Value::Object(members))
}

// The only one of some values; else all of them.
fn only_of(mut values: Vec<Value>) -> Value {
    if values.len() == 1 {
        return values.pop().unwrap_or(Value::Null);
    }
    Value::Array(values)
}

// The value of a variant: its name, or an object of its name and what it holds.
fn variant_of(
    alloc: Global,
    name: &'static str,
    labels: Vec<&'static str>,
    values: Vec<Value>,
) -> Result<Value, AllocError> {
    if values.is_empty() {
        return text_of(alloc, name);
    }
    let held = if values.len() == 1 && labels.iter().all(|name| name.is_empty()) {
        only_of(values)
    } else {
        parts_of(alloc, labels, values)?
    };
    member(alloc, name, held)
}

// The text of a key.
fn key_of(alloc: Global, key: Value) -> Result<String, AllocError> {
    match key {
        Value::String(text) => Ok(text),
        key => key.to_string(alloc),
    }
}

// Keys and values in turn as an object, which tells how many entries are left out.
fn entries_of(alloc: Global, values: Vec<Value>, left_out: usize) -> Result<Value, AllocError> {
    let mut members = Map::new(alloc);
    let mut key = None;
    for value in values {
        key = match key {
            None => Some(value),
            Some(key) => {
                let _ = members.insert(key_of(alloc, key)?, value)?;
                None
            }
        };
    }
    if left_out > 0 {
        let more = Value::String(format!(in alloc; "{left_out} more")?);
        let _ = members.insert(String::from_str(alloc, "..")?, more)?;
    }
    Ok(Value::Object(members))
}

// The value of what was opened.
fn closed(alloc: Global, open: Open) -> Result<Value, AllocError> {
    let Open {
        kind,
        name: _,
        labels,
        mut values,
        left_out,
    } = open;
    if kind != Kind::List && kind != Kind::Map && left_out > 0 {
        return text_of(alloc, "..");
    }
    match kind {
        Kind::Record => parts_of(alloc, labels, values),
        Kind::Variant(name) => variant_of(alloc, name, labels, values),
        Kind::Nothing => Ok(Value::Null),
        Kind::Something | Kind::Target | Kind::Text => Ok(only_of(values)),
        Kind::Map => entries_of(alloc, values, left_out),
        Kind::List => {
            if left_out > 0 {
                values.push(Value::String(format!(in alloc; ".. {left_out} more")?))?;
            }
            Ok(Value::Array(values))
        }
    }
}

impl Builder {
    // A value is a part of what was opened last, under a name.
    fn attach(&mut self, name: &'static str, value: Value) -> Result<(), AllocError> {
        let Some(open) = self.open.last_mut() else {
            self.root = value;
            return Ok(());
        };
        open.labels.push(name)?;
        open.values.push(value)?;
        Ok(())
    }

    // How much of what a value holds is told.
    fn most_of(&self, kind: Kind) -> usize {
        match kind {
            Kind::Text => usize::MAX,
            _ if self.open.len() >= self.depth => 0,
            Kind::List | Kind::Map => self.elements,
            _ => usize::MAX,
        }
    }

    // What was found opens. How much of what it holds is told.
    fn open(
        &mut self,
        kind: Kind,
        found: Visited<'_>,
        name: &'static str,
    ) -> Result<usize, AllocError> {
        let alloc = self.alloc;
        let most = self.most_of(kind);
        self.open.push(Open {
            kind,
            name,
            labels: Vec::new(alloc),
            values: Vec::new(alloc),
            left_out: count_of(found).saturating_sub(most),
        })?;
        Ok(most)
    }

    // What was found is a part.
    fn found(&mut self, found: Visited<'_>, name: &'static str) -> Result<(), AllocError> {
        let alloc = self.alloc;
        let value = match found.what {
            What::Leaf(leaf) => value_of(alloc, leaf)?,
            What::Text(text) => text_of(alloc, text)?,
            What::Again(region) => {
                let position = signed(alloc, region.position)?;
                member(alloc, "shared", position)?
            }
            _ => Value::Null,
        };
        self.attach(name, value)
    }

    // What was opened last ends.
    fn end(&mut self) -> Result<(), AllocError> {
        let Some(open) = self.open.pop() else {
            return Ok(());
        };
        let name = open.name;
        let value = closed(self.alloc, open)?;
        self.attach(name, value)
    }
}

// The name of a part.
fn name_of(step: Option<RouteStep>) -> &'static str {
    match step {
        Some(RouteStep::Part(_, name)) => name,
        _ => "",
    }
}

/// The value as JSON: records by the names of their parts, variants as serde has them, `null` for
/// `None`, for units and for weak pointers to nothing; what a shared pointer leads to where it is
/// met first, and its position elsewhere. So many levels, and so many elements of each list. None
/// if the bytes are no archive of the form.
pub fn json_of(
    alloc: Global,
    form: &Form,
    bytes: &[u8],
    most: (usize, usize),
) -> Result<Option<Value>, AllocError> {
    let mut builder = Builder {
        alloc,
        depth: most.0,
        elements: most.1,
        open: Vec::new(alloc),
        root: Value::Null,
    };
    let mut walk = Walker::new(alloc, form, bytes);
    for _ in 0..u64::MAX {
        match walk.step() {
            Ok(Some(Event::Found(found))) => {
                let name = name_of(last_step(walk.holders(found)));
                match opens(found) {
                    Some(kind) => walk.limit(builder.open(kind, found, name)?),
                    None => builder.found(found, name)?,
                }
            }
            Ok(Some(Event::Ended)) => builder.end()?,
            Ok(None) => break,
            Err(Stop::OutOfMemory) => return Err(AllocError),
            Err(Stop::Fault(_)) => return Ok(None),
        }
    }
    Ok(Some(builder.root))
}
