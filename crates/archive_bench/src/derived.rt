//! Sets of types that `tools/derive` archives.

ghost use Rattle.std.specs.Prelude.{◌≡◌, ◌≤◌};

use crate::run::{run, run_list};
use crate::sets::{hello, name};
use crate::values::{Elements, Values, alone, number};
use archive_core::error::Error;
use derived_plain::point::Point;
use derived_types::event::Event;
use derived_types::spot::{Drawing, Line, Spot};
use std::alloc::{AllocError, Global};

// The two texts of the point.
fn tags(alloc: Global) -> Result<Vec<String>, AllocError> {
    let mut tags = Vec::new(alloc);
    tags.push(String::from_str(alloc, "first")?)?;
    tags.push(String::from_str(alloc, "another text")?)?;
    Ok(tags)
}

/// Makes the values of this module.
pub struct Derived;

impl Values<Point> for Derived {
    fn values(alloc: Global, _size: usize) -> Result<Vec<Point>, Error> {
        let point = Point {
            x: 3,
            y: -4,
            name: hello(alloc)?,
            tags: tags(alloc)?,
        };
        alone(alloc, point)
    }

    fn told(value: &Point) -> usize {
        value.name.as_str().len().wrapping_add(value.tags.len())
    }
}

// The numbers of an event.
fn batch(alloc: Global, index: usize) -> Result<Vec<u32>, AllocError> {
    let mut numbers = Vec::new(alloc);
    for k in 0..8usize {
        numbers.push(number(index.wrapping_add(k)))?;
    }
    Ok(numbers)
}

// The event with this index: the variants in turns.
fn event(alloc: Global, index: usize) -> Result<Event, AllocError> {
    Ok(match index % 5 {
        0 => Event::Quit,
        1 => Event::Key('é'),
        2 => Event::Text(name(alloc, index)?),
        3 => Event::Move {
            x: (index & 0xffff) as i32,
            y: -7,
        },
        _ => Event::Batch(batch(alloc, index)?),
    })
}

impl Elements<Event> for Derived {
    fn next(alloc: Global, earlier: &[Event], _size: usize) -> Result<Event, Error> {
        Ok(event(alloc, earlier.len())?)
    }
}

// The place with this index.
fn spot(index: usize) -> Spot {
    Spot {
        right: (index & 0xffff) as u16,
        up: (index & 0x7fff) as i16,
    }
}

// The line with this index.
fn line(index: usize) -> Line {
    Line {
        from: spot(index),
        to: spot(index.wrapping_add(1)),
    }
}

// Three lines from this index on.
fn lines(alloc: Global, index: usize) -> Result<Vec<Line>, AllocError> {
    let mut lines = Vec::new(alloc);
    for k in 0..3usize {
        lines.push(line(index.wrapping_add(k)))?;
    }
    Ok(lines)
}

impl Elements<Drawing> for Derived {
    fn next(alloc: Global, earlier: &[Drawing], _size: usize) -> Result<Drawing, Error> {
        let index = earlier.len();
        let last = if index % 2 == 0 {
            Some(Box::new(alloc, line(index))?)
        } else {
            None
        };
        Ok(Drawing {
            first: line(index),
            lines: lines(alloc, index)?,
            last,
            event: event(alloc, index)?,
        })
    }
}

/// A struct: `run` of it.
pub fn own(
    alloc: Global,
    bytes: &[u8],
    step: usize,
    size: usize,
    count: usize,
    operation: u32,
) -> usize
    ensures none { count ≡ 0 → result ≡ 0 }
    ensures accepted { operation ≤ 1 → result ≤ count }
{
    run::<Point, Derived, ()>(alloc, bytes, step, size, count, operation)
}

/// `size` structs of structs.
pub fn frames(
    alloc: Global,
    bytes: &[u8],
    step: usize,
    size: usize,
    count: usize,
    operation: u32,
) -> usize
    ensures none { count ≡ 0 → result ≡ 0 }
    ensures accepted { operation ≤ 1 → result ≤ count }
{
    run_list::<Drawing, Derived, ()>(alloc, bytes, step, size, count, operation)
}

/// `size` enums.
pub fn events(
    alloc: Global,
    bytes: &[u8],
    step: usize,
    size: usize,
    count: usize,
    operation: u32,
) -> usize
    ensures none { count ≡ 0 → result ≡ 0 }
    ensures accepted { operation ≤ 1 → result ≤ count }
{
    run_list::<Event, Derived, ()>(alloc, bytes, step, size, count, operation)
}
