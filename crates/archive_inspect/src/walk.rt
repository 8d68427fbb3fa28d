//! The way over the bytes of an archive: value by value, in the order of the check
//! (docs/FORMAT.md), up to the first fault.

mod bytes;
mod entering;
pub mod faults;
pub mod frames;
mod keys;
pub mod leaves;
mod looking;
mod met;

use crate::form::Form;
use crate::form::labels::Labels;
use crate::walk::faults::Stop;
use crate::walk::frames::{Begun, Frame, Place};
use crate::walk::met::Met;
use archive_check::format::expr::Expr;
use std::alloc::Global;
use std::collections::BTreeMap;

/// What is met on the way.
#[derive(Clone, Copy)]
pub enum Event<'a> {
    /// A value, or the text that a pointer leads to. If it opens, what it holds follows, and then
    /// an `Ended`.
    Found(Visited<'a>),
    /// What was opened last has ended.
    Ended,
}

/// What is found at a position.
#[derive(Clone, Copy)]
pub struct Visited<'a> {
    /// Where it lies.
    pub position: i128,
    /// How many bytes of its own it has: of a record none, of a choice its tag, of a pointer those
    /// before what it leads to.
    pub size: i128,
    /// Its expression; of a text that of the pointer to it, and of a key that of its map.
    pub expr: &'a Expr,
    /// The names of what it has.
    pub labels: Option<&'a Labels>,
    /// What it is.
    pub what: What<'a>,
}

/// What a value is.
#[derive(Clone, Copy)]
pub enum What<'a> {
    /// A leaf.
    Leaf(leaves::Leaf),
    /// A text: of a string that has it in its eight bytes, or one that a pointer leads to.
    Text(&'a str),
    /// A record with its number of parts; it opens.
    Record(usize),
    /// A variant by its tag and its name, with its number of parts; it opens.
    Variant(u8, &'static str, usize),
    /// An array with its number of elements; it opens.
    Array(usize),
    /// A pointer to a region, which is entered now; it opens.
    Pointer(Region),
    /// A pointer to a region that was met before.
    Again(Region),
    /// A weak pointer to nothing.
    Null,
}

/// What a pointer leads to.
#[derive(Clone, Copy)]
pub struct Region {
    /// Where it lies.
    pub position: i128,
    /// The size of one element, or of the only value; of a text 1.
    pub size: i128,
    /// The alignment.
    pub align: i128,
    /// What lies in it.
    pub count: Count,
}

/// What lies in a region.
#[derive(Clone, Copy)]
pub enum Count {
    /// The root.
    Root,
    /// One value.
    One,
    /// So many elements.
    Elements(usize),
    /// A text with its length in bytes.
    Text(usize),
}

impl Region {
    /// How many bytes it has.
    pub fn bytes(self) -> i128 {
        match self.count {
            Count::Root | Count::One => self.size,
            Count::Elements(count) | Count::Text(count) => self.size.saturating_mul(count as i128),
        }
    }

    /// The position behind its last byte.
    pub fn end(self) -> i128 {
        self.position.saturating_add(self.bytes())
    }
}

// What is looked at next.
#[derive(Clone, Copy)]
enum Next<'a> {
    Nothing,
    Root,
    Value(Place<'a>),
    // The text that a pointer of this place leads to.
    Text(Place<'a>, Region),
}

/// A walk over the bytes of an archive whose root lies at their end.
#[derive(Drop)]
pub struct Walker<'a> {
    form: &'a Form,
    bytes: &'a [u8],
    frames: Vec<Frame<'a>>,
    // How many regions are among them.
    depth: usize,
    next: Next<'a>,
    // The range that regions may lie in.
    start: i128,
    stop: i128,
    met: BTreeMap<i128, Met<'a>>,
    // Whether elements of which all bytes are legal are passed at once.
    quick: bool,
    // Whether each region is gone through again, once all that it leads to has been.
    twice: bool,
    // Whether the innermost region is gone through again, so that its pointers aren't followed.
    again: bool,
}

impl<'a> Walker<'a> {
    /// A walk that hasn't begun. Memory comes from `alloc`; none is taken yet.
    pub fn new(alloc: Global, form: &'a Form, bytes: &'a [u8]) -> Walker<'a> {
        Walker {
            form,
            bytes,
            frames: Vec::new(alloc),
            depth: 0,
            next: Next::Root,
            start: 0,
            stop: bytes.len() as i128,
            met: BTreeMap::new(alloc),
            quick: false,
            twice: false,
            again: false,
        }
    }

    /// The same, which passes elements at once if all bytes are legal for them.
    pub fn quick(alloc: Global, form: &'a Form, bytes: &'a [u8]) -> Walker<'a> {
        let mut walk = Walker::new(alloc, form, bytes);
        walk.quick = true;
        walk
    }

    /// A walk for `next_part`.
    pub fn by_position(alloc: Global, form: &'a Form, bytes: &'a [u8]) -> Walker<'a> {
        let mut walk = Walker::new(alloc, form, bytes);
        walk.twice = true;
        walk
    }

    /// What is gone through now, from the root inwards.
    pub fn frames(&self) -> &[Frame<'a>] {
        &self.frames
    }

    /// How many regions that are, the root's among them.
    pub fn depth(&self) -> usize {
        self.depth
    }

    /// What holds what was found last, from the root inwards: without that itself, where it opens.
    pub fn holders(&self, found: Visited<'_>) -> &[Frame<'a>] {
        let opened = match found.what {
            What::Record(_) | What::Variant(_, _, _) | What::Array(_) => 1,
            What::Pointer(_) if !self.again => 1,
            _ => 0,
        };
        let frames = self.frames();
        let outer = frames.len().saturating_sub(opened);
        &frames[..outer]
    }

    /// What is met next: none at the end. Once it has stopped, further calls return nothing of use.
    pub fn step(&mut self) -> Result<Option<Event<'a>>, Stop> {
        match self.next {
            Next::Root => self.enter_root()?,
            Next::Text(place, region) => return self.look_at_text(place, region),
            Next::Nothing | Next::Value(_) => {}
        }
        let next = self.next;
        self.next = Next::Nothing;
        match next {
            Next::Value(place) => self.look_at(place),
            _ => self.go_on(),
        }
    }

    /// What has bytes of its own and lies next, in order of position: none at the end. A pointer
    /// doesn't open, since what it leads to comes before it.
    pub fn next_part(&mut self) -> Result<Option<Visited<'a>>, Stop> {
        for _ in 0..u64::MAX {
            let again = self.again;
            match self.step()? {
                Some(Event::Found(found)) if again && found.size > 0 => return Ok(Some(found)),
                Some(_) => {}
                None => break,
            }
        }
        Ok(None)
    }

    /// Of what was found last, and opened, at most so many parts, elements or entries are looked at.
    pub fn limit(&mut self, most: usize) {
        if most == 0 {
            self.next = Next::Nothing;
        }
        if let Some(frame) = self.frames.last_mut() {
            frame.limit(most);
        }
    }

    // The next part or element of what is innermost, or its end.
    fn go_on(&mut self) -> Result<Option<Event<'a>>, Stop> {
        let form = self.form;
        let Some(frame) = self.frames.last_mut() else {
            return Ok(None);
        };
        match frame.advance(form) {
            Some(Begun::Value(place)) => self.look_at(place),
            Some(Begun::Key(place, key)) => self.look_at_key(place, key),
            Some(Begun::Behind(place, key, before, at)) => {
                self.look_at_order(key, before, at)?;
                self.begin_value();
                self.look_at(place)
            }
            None => Ok(self.end()),
        }
    }

    // Begins the innermost region again, if that is what ends, and if it is to be gone through twice.
    fn begin_again(&mut self) -> bool {
        if !self.twice || self.again {
            return false;
        }
        let Some(frame) = self.frames.last_mut() else {
            return false;
        };
        if !frame.begin_again() {
            return false;
        }
        if let Some(place) = frame.only() {
            self.next = Next::Value(place);
        }
        self.again = true;
        true
    }

    // What is innermost has ended: a region is left, so that the range begins where it ends, and
    // ends where it did before.
    fn end(&mut self) -> Option<Event<'a>> {
        if self.begin_again() {
            return Some(Event::Ended);
        }
        if let Some(Frame::Region(inside)) = self.frames.pop() {
            self.again = false;
            self.depth = self.depth.saturating_sub(1);
            self.start = inside.end;
            self.stop = inside.stop;
            if let Some(position) = inside.shared {
                self.finish(position);
            }
            if self.frames.is_empty() {
                return None;
            }
        }
        Some(Event::Ended)
    }
}
