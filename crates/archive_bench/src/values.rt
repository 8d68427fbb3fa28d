//! What the sets are made of. bench/src/sets.rs makes the same values and their archives.

use crate::records::{Plain, Row};
use crate::sets::{Small, hello, integers, name};
use archive_core::error::Error;
use archive_core::rc::Shared;
use own_types::node::{Node, node_of};
use std::alloc::{AllocError, Global};
use std::collections::BTreeMap;
use std::marker::PhantomData;
use std::rc::Rc;

/// What makes a set's values.
pub trait Values<T> {
    /// What is written in turns: of most sets one value, of so many elements.
    fn values(alloc: Global, size: usize) -> Result<Vec<T>, Error>;

    /// A number that depends on the value, without a walk through it.
    fn told(value: &T) -> usize;
}

/// What makes the elements of a list.
pub trait Elements<T> {
    /// The one behind these, of so many.
    fn next(alloc: Global, earlier: &[T], size: usize) -> Result<T, Error>;
}

/// Makes values of the language's own types, and of the records of this crate.
pub struct Given;

/// Makes a list, or a map, of the elements that `E` makes.
pub struct Each<E> {
    of: PhantomData<E>,
}

/// A list of one value.
pub fn alone<T: Drop>(alloc: Global, value: T) -> Result<Vec<T>, Error> {
    let mut values = Vec::new(alloc);
    values.push(value)?;
    Ok(values)
}

/// A number of elements.
pub fn list_of<T: Drop, E: Elements<T>>(alloc: Global, size: usize) -> Result<Vec<T>, Error> {
    let mut elements: Vec<T> = Vec::new(alloc);
    for _ in 0..size {
        let element = E::next(alloc, elements.as_slice(), size)?;
        elements.push(element)?;
    }
    Ok(elements)
}

impl<T: Drop, E: Elements<T>> Values<Vec<T>> for Each<E> {
    fn values(alloc: Global, size: usize) -> Result<Vec<Vec<T>>, Error> {
        alone(alloc, list_of::<T, E>(alloc, size)?)
    }

    fn told(value: &Vec<T>) -> usize {
        value.len()
    }
}

impl<K: Ord + Drop, V: Drop, E: Elements<(K, V)>> Values<BTreeMap<K, V>> for Each<E> {
    fn values(alloc: Global, size: usize) -> Result<Vec<BTreeMap<K, V>>, Error> {
        let mut map = BTreeMap::new(alloc);
        let entries = list_of::<(K, V), E>(alloc, size)?;
        for (key, value) in entries {
            map.insert(key, value)?;
        }
        alone(alloc, map)
    }

    fn told(value: &BTreeMap<K, V>) -> usize {
        value.len()
    }
}

impl Values<u32> for Given {
    fn values(alloc: Global, size: usize) -> Result<Vec<u32>, Error> {
        list_of::<u32, Given>(alloc, size)
    }

    fn told(value: &u32) -> usize {
        *value as usize
    }
}

impl Values<String> for Given {
    fn values(alloc: Global, size: usize) -> Result<Vec<String>, Error> {
        alone(alloc, text(alloc, size)?)
    }

    fn told(value: &String) -> usize {
        value.as_str().len()
    }
}

// The text of so many bytes.
fn text(alloc: Global, size: usize) -> Result<String, AllocError> {
    if size == 11 {
        return hello(alloc);
    }
    let mut text = String::new(alloc);
    for index in 0..size {
        text.push(char::from(b'a' + (index % 26) as u8))?;
    }
    Ok(text)
}

impl Values<Small> for Given {
    fn values(alloc: Global, _size: usize) -> Result<Vec<Small>, Error> {
        let record = Small {
            number: 42,
            text: hello(alloc)?,
            list: Some(integers(alloc)?),
        };
        alone(alloc, record)
    }

    fn told(value: &Small) -> usize {
        let numbers = match &value.list {
            Some(numbers) => numbers.len(),
            None => 0,
        };
        value.text.as_str().len().wrapping_add(numbers)
    }
}

impl Values<Plain> for Given {
    fn values(alloc: Global, _size: usize) -> Result<Vec<Plain>, Error> {
        let record = Plain {
            number: 42,
            text: hello(alloc)?,
            list: integers(alloc)?,
        };
        alone(alloc, record)
    }

    fn told(value: &Plain) -> usize {
        value.text.as_str().len().wrapping_add(value.list.len())
    }
}

impl Values<Node> for Given {
    fn values(alloc: Global, size: usize) -> Result<Vec<Node>, Error> {
        alone(alloc, node_of(alloc, size)?)
    }

    fn told(value: &Node) -> usize {
        match value {
            Node::Nil => 0,
            Node::Cons(_) => 1,
        }
    }
}

/// The number with this index.
pub fn number(index: usize) -> u32 {
    ((index & 0xffff_ffff) as u32).wrapping_mul(2_654_435_761)
}

impl Elements<u32> for Given {
    fn next(_alloc: Global, earlier: &[u32], _size: usize) -> Result<u32, Error> {
        Ok(number(earlier.len()))
    }
}

impl Elements<bool> for Given {
    fn next(_alloc: Global, earlier: &[bool], _size: usize) -> Result<bool, Error> {
        Ok(number(earlier.len()) & 0x1_0000 != 0)
    }
}

impl Elements<char> for Given {
    fn next(_alloc: Global, earlier: &[char], _size: usize) -> Result<char, Error> {
        Ok(char::from_u32(number(earlier.len()) & 0x3fff).unwrap_or('a'))
    }
}

// A text of five bytes.
impl Elements<String> for Given {
    fn next(alloc: Global, earlier: &[String], _size: usize) -> Result<String, Error> {
        let index = earlier.len() % 100_000;
        Ok(format!(in alloc; "{index:05}")?)
    }
}

// The eight numbers of a row.
fn row_numbers(alloc: Global, index: usize) -> Result<Vec<u32>, AllocError> {
    let index = (index & 0xffff_ffff) as u32;
    let mut numbers = Vec::new(alloc);
    for k in 0..8u32 {
        numbers.push(index ^ (k * 77))?;
    }
    Ok(numbers)
}

impl Elements<Row> for Given {
    fn next(alloc: Global, earlier: &[Row], _size: usize) -> Result<Row, Error> {
        let index = earlier.len();
        Ok(Row {
            id: (index as u64).wrapping_mul(7919),
            name: name(alloc, index)?,
            values: row_numbers(alloc, index)?,
        })
    }
}

impl Elements<(bool, u32)> for Given {
    fn next(_alloc: Global, earlier: &[(bool, u32)], _size: usize) -> Result<(bool, u32), Error> {
        let number = number(earlier.len());
        Ok((number & 0x1_0000 != 0, number))
    }
}

impl Elements<(u32, u32)> for Given {
    fn next(_alloc: Global, earlier: &[(u32, u32)], _size: usize) -> Result<(u32, u32), Error> {
        let index = earlier.len();
        Ok((key(index), number(index)))
    }
}

/// The key of an entry of numbers.
pub fn key(index: usize) -> u32 {
    ((index & 0xffff_ffff) as u32).wrapping_mul(3)
}

impl Elements<(String, u32)> for Given {
    fn next(
        alloc: Global,
        earlier: &[(String, u32)],
        _size: usize,
    ) -> Result<(String, u32), Error> {
        let index = earlier.len();
        Ok((name(alloc, index)?, number(index)))
    }
}

// In turns to a hundredth as many strings as pointers, at least one.
impl Elements<Shared<String>> for Given {
    fn next(
        alloc: Global,
        earlier: &[Shared<String>],
        size: usize,
    ) -> Result<Shared<String>, Error> {
        let index = earlier.len();
        let strings = (size / 100).max(1);
        if let Some(first) = index.checked_sub(strings) {
            if let Some(pointer) = earlier.get(first) {
                return Ok(pointer.clone()?);
            }
        }
        let value = Rc::new(alloc, name(alloc, index)?)?;
        Ok(Shared {
            key: index as u64,
            value,
        })
    }
}
