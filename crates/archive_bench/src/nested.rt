//! Sets of recursive types that `tools/derive` archives.

ghost use Rattle.std.specs.Prelude.{◌≡◌, ◌≤◌};

use crate::run::run;
use crate::values::{Values, alone, number};
use archive_core::error::Error;
use recursive_types::list::List;
use recursive_types::tree::Tree;
use std::alloc::Global;

/// Makes the values of this module.
pub struct Nested;

// A list of so many numbers, the last one made first.
fn list(alloc: Global, size: usize) -> Result<List, Error> {
    let mut list = List::Nil;
    for index in 0..size {
        list = List::Cons(number(index), Box::new(alloc, list)?);
    }
    Ok(list)
}

impl Values<List> for Nested {
    fn values(alloc: Global, size: usize) -> Result<Vec<List>, Error> {
        alone(alloc, list(alloc, size)?)
    }

    fn told(value: &List) -> usize {
        match value {
            List::Nil => 0,
            List::Cons(..) => 1,
        }
    }
}

// So many trees of one node.
fn leaves(alloc: Global, size: usize) -> Result<Vec<Tree>, Error> {
    let mut trees = Vec::new(alloc);
    for index in 0..size {
        let children = Vec::new(alloc);
        trees.push(Tree {
            value: number(index),
            children,
        })?;
    }
    Ok(trees)
}

// Trees over these: each but the last has ten below.
fn tens(alloc: Global, below: Vec<Tree>) -> Result<Vec<Tree>, Error> {
    let mut trees = Vec::new(alloc);
    let mut children = Vec::new(alloc);
    for tree in below {
        children.push(tree)?;
        if children.len() == 10 {
            let value = number(trees.len());
            trees.push(Tree { value, children })?;
            children = Vec::new(alloc);
        }
    }
    Ok(trees)
}

impl Values<Tree> for Nested {
    fn values(alloc: Global, size: usize) -> Result<Vec<Tree>, Error> {
        let mut trees = leaves(alloc, size)?;
        for _ in 0..usize::BITS {
            if trees.len() > 1 {
                trees = tens(alloc, trees)?;
            }
        }
        Ok(trees)
    }

    fn told(value: &Tree) -> usize {
        value.children.len()
    }
}

/// A list of `size` numbers, each in the box of the one before it.
pub fn records(
    alloc: Global,
    bytes: &[u8],
    step: usize,
    size: usize,
    count: usize,
    operation: u32,
) -> usize
    ensures none { count ≡ 0 → result ≡ 0 }
    ensures accepted { operation ≤ 1 → result ≤ count }
{
    run::<List, Nested, ()>(alloc, bytes, step, size, count, operation)
}

/// A tree with `size` leaves, a power of ten, and ten children at each other node.
pub fn tree(
    alloc: Global,
    bytes: &[u8],
    step: usize,
    size: usize,
    count: usize,
    operation: u32,
) -> usize
    ensures none { count ≡ 0 → result ≡ 0 }
    ensures accepted { operation ≤ 1 → result ≤ count }
{
    run::<Tree, Nested, ()>(alloc, bytes, step, size, count, operation)
}
