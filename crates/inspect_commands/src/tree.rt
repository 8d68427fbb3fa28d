//! The value of an archive as an indented tree.

use archive_check::format::expr::Expr;
use archive_inspect::form::Form;
use archive_inspect::route::{RouteStep, step_in};
use archive_inspect::walk::faults::Stop;
use archive_inspect::walk::frames::Frame;
use archive_inspect::walk::{Count, Event, Region, Visited, Walker, What};
use std::alloc::Global;
use std::io;

// A value that was opened.
#[derive(Clone, Copy)]
struct Open {
    // Whether what it holds is printed.
    shown: bool,
    // How many of its elements are left out at its end.
    left_out: usize,
    // Whether it is a pointer to a text.
    is_text: bool,
    // How its line begins: a text that it leads to is printed there.
    line: Line,
}

// How a line begins: with a position, so many levels and a label.
#[derive(Clone, Copy)]
struct Line {
    position: i128,
    level: usize,
    step: Option<RouteStep>,
}

// What is printed, and how much of it.
#[derive(Drop)]
struct Tree<'a, W> {
    out: &'a mut W,
    depth: usize,
    elements: usize,
    open: Vec<Open>,
}

impl<W: io::Write + Drop> Tree<'_, W> {
    // The line of what was found.
    fn line(&self, found: Visited<'_>, step: Option<RouteStep>) -> Line {
        Line {
            position: found.position,
            level: self.open.len(),
            step,
        }
    }

    // Begins a line.
    fn begin(&mut self, line: Line) -> io::Result<()> {
        let position = line.position;
        write!(self.out, "{position:>8}  ")?;
        self.indent(line.level)?;
        match line.step {
            None | Some(RouteStep::Only) | Some(RouteStep::Text) => Ok(()),
            Some(RouteStep::Part(number, "")) => write!(self.out, "{number}: "),
            Some(RouteStep::Part(_, name)) => write!(self.out, "{name}: "),
            Some(RouteStep::Variant(_, name)) => write!(self.out, "{name}: "),
            Some(RouteStep::Element(number)) => write!(self.out, "[{number}]: "),
            Some(RouteStep::Key(number)) => write!(self.out, "key {number}: "),
            Some(RouteStep::Value(number)) => write!(self.out, "value {number}: "),
            Some(RouteStep::Target) => self.out.write_all(b"*: "),
        }
    }

    fn indent(&mut self, levels: usize) -> io::Result<()> {
        for _ in 0..levels {
            self.out.write_all(b"  ")?;
        }
        Ok(())
    }

    // What was found is printed, and opened, if it opens. How much of what it holds is printed.
    fn found(&mut self, found: Visited<'_>, step: Option<RouteStep>) -> io::Result<usize> {
        let line = self.line(found, step);
        match found.what {
            What::Text(text) if self.is_in_text() => self.text(found.position, text)?,
            What::Pointer(region) if is_text(region) => {}
            _ => {
                self.begin(line)?;
                self.value(found)?;
                self.end_line(found)?;
            }
        }
        self.open(found, line)
    }

    // Ends the line of a value, with a mark where what it holds is too deep to be printed.
    fn end_line(&mut self, found: Visited<'_>) -> io::Result<()> {
        if self.open.len() >= self.depth && holds_more(found) {
            self.out.write_all(b" ..")?;
        }
        writeln!(self.out)
    }

    // Whether a pointer to a text was opened last.
    fn is_in_text(&self) -> bool {
        match self.open.last() {
            Some(open) => open.is_text,
            None => false,
        }
    }

    // The text that a pointer leads to, in the pointer's line.
    fn text(&mut self, position: i128, text: &str) -> io::Result<()> {
        let Some(open) = self.open.last() else {
            return Ok(());
        };
        let line = open.line;
        self.begin(line)?;
        writeln!(self.out, "{text:?} at {position}")
    }

    // A value opens, if it does. How much of what it holds is printed.
    fn open(&mut self, found: Visited<'_>, line: Line) -> io::Result<usize> {
        let (most, count) = match found.what {
            What::Record(_) | What::Variant(_, _, _) => (usize::MAX, 0),
            What::Array(count) => (self.elements, count),
            What::Pointer(region) => match region.count {
                Count::Elements(count) => (self.elements, count),
                Count::Root | Count::One | Count::Text(_) => (usize::MAX, 0),
            },
            What::Leaf(_) | What::Text(_) | What::Again(_) | What::Null => return Ok(usize::MAX),
        };
        let is_text = is_to_text(found);
        let shown = is_text || self.open.len() < self.depth;
        self.open.push(Open {
            shown,
            left_out: count.saturating_sub(most),
            is_text,
            line,
        })?;
        if shown { Ok(most) } else { Ok(0) }
    }

    // What was opened last ends.
    fn end(&mut self) -> io::Result<()> {
        let Some(open) = self.open.pop() else {
            return Ok(());
        };
        if open.shown && open.left_out > 0 {
            let left_out = open.left_out;
            let level = self.open.len().saturating_add(1);
            self.out.write_all(b"          ")?;
            self.indent(level)?;
            writeln!(self.out, ".. {left_out} more")?;
        }
        Ok(())
    }

    // A value, without what it holds.
    fn value(&mut self, found: Visited<'_>) -> io::Result<()> {
        match found.what {
            What::Leaf(leaf) => write!(self.out, "{leaf}"),
            What::Text(text) => write!(self.out, "{text:?}"),
            What::Record(count) => self.record(found, count),
            What::Variant(tag, name, _) => self.variant(found, tag, name),
            What::Array(count) => write!(self.out, "array of {count}"),
            What::Pointer(region) => self.pointer(found, region),
            What::Again(region) => {
                let position = region.position;
                write!(self.out, "shared, at {position} as above")
            }
            What::Null => self.out.write_all(b"null"),
        }
    }

    fn record(&mut self, found: Visited<'_>, count: usize) -> io::Result<()> {
        match own_name(found) {
            "" => write!(self.out, "tuple of {count}"),
            name => self.out.write_all(name.as_bytes()),
        }
    }

    fn variant(&mut self, found: Visited<'_>, tag: u8, name: &str) -> io::Result<()> {
        match own_name(found) {
            "" | "Option" | "Result" => {}
            own => write!(self.out, "{own}::")?,
        }
        if name.is_empty() {
            write!(self.out, "variant {tag}")
        } else {
            self.out.write_all(name.as_bytes())
        }
    }

    fn pointer(&mut self, found: Visited<'_>, region: Region) -> io::Result<()> {
        let position = region.position;
        let owner = match found.expr {
            Expr::Shared(_, _) => "shared ",
            Expr::Weak(_, _) => "weak ",
            Expr::Box(_) => "box ",
            Expr::Map(_, _) => "map ",
            _ => "",
        };
        let of = if owner.is_empty() { "" } else { "of " };
        self.out.write_all(owner.as_bytes())?;
        match region.count {
            Count::Elements(1) => write!(self.out, "{of}1 element at {position}"),
            Count::Elements(count) => write!(self.out, "{of}{count} elements at {position}"),
            Count::Root | Count::One | Count::Text(_) => write!(self.out, "at {position}"),
        }
    }
}

// The name of a value's type: empty if none is known.
fn own_name(found: Visited<'_>) -> &'static str {
    match found.labels {
        Some(labels) => labels.own(),
        None => "",
    }
}

// Whether a value holds others.
fn holds_more(found: Visited<'_>) -> bool {
    match found.what {
        What::Record(count) | What::Variant(_, _, count) | What::Array(count) => count > 0,
        What::Pointer(region) => match region.count {
            Count::Elements(count) => count > 0,
            Count::Root | Count::One | Count::Text(_) => true,
        },
        What::Leaf(_) | What::Text(_) | What::Again(_) | What::Null => false,
    }
}

// Whether a text lies in a region.
fn is_text(region: Region) -> bool {
    match region.count {
        Count::Text(_) => true,
        Count::Root | Count::One | Count::Elements(_) => false,
    }
}

// Whether it is a pointer to a text.
fn is_to_text(found: Visited<'_>) -> bool {
    match found.what {
        What::Pointer(region) => is_text(region),
        _ => false,
    }
}

// The step to what was found last from what holds it.
pub(crate) fn last_step(holders: &[Frame<'_>]) -> Option<RouteStep> {
    step_in(holders.last()?)
}

/// Prints the value, a line for each part with its position, so many levels deep, and so many
/// elements of each list: the rest isn't looked at. Whether no fault was met: else the tree ends
/// there.
pub fn print_tree<W: io::Write + Drop>(
    alloc: Global,
    out: &mut W,
    form: &Form,
    bytes: &[u8],
    most: (usize, usize),
) -> io::Result<bool> {
    let mut tree = Tree {
        out,
        depth: most.0,
        elements: most.1,
        open: Vec::new(alloc),
    };
    let mut walk = Walker::new(alloc, form, bytes);
    for _ in 0..u64::MAX {
        match walk.step() {
            Ok(Some(Event::Found(found))) => {
                let step = last_step(walk.holders(found));
                let most = tree.found(found, step)?;
                walk.limit(most);
            }
            Ok(Some(Event::Ended)) => tree.end()?,
            Ok(None) => return Ok(true),
            Err(Stop::OutOfMemory) => return Err(io::Error::from(io::ErrorKind::OutOfMemory)),
            Err(Stop::Fault(_)) => return Ok(false),
        }
    }
    Ok(false)
}
