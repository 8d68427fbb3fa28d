// Lists of any length, and trees of many levels and of many children, on a machine stack of 8 MiB: made, written, validated, read back and dropped.

use crate::assertions::{assert_bytes, assert_holds, assert_same, value_of};
use archive_core::api::{HighSerializer, access, to_bytes};
use archive_core::traits::{Portable, Serialize};
use recursive_types::list::{ArchivedList, List};
use recursive_types::tree::{ArchivedTree, Tree};
use std::alloc::{AllocError, Global};
use std::process::Abort;

fn written<T: Serialize<HighSerializer<Vec<u8>, Global>>>(
    rt: &impl Abort,
    alloc: Global,
    value: &T,
) -> Vec<u8> {
    to_bytes(alloc, value).expect(rt, "an archive")
}

fn is_archive<T: Portable>(alloc: Global, bytes: &[u8]) -> bool {
    access::<T>(alloc, bytes).is_ok()
}

// The list of this many numbers: how many are left.
fn list_of_length(alloc: Global, count: u32) -> Result<List, AllocError> {
    let mut list = List::Nil;
    for left in 0..count {
        list = List::Cons(left, Box::new(alloc, list)?);
    }
    Ok(list)
}

// How many numbers a list has.
fn length(list: &List) -> usize {
    let mut here = list;
    let mut count = 0_usize;
    while let List::Cons(_, rest) = here {
        here = &**rest;
        count = count.wrapping_add(1);
    }
    count
}

#[test]
fn million_boxes(rt: HostRuntime) {
    let list = list_of_length(rt.alloc(), 1_000_000).expect(&rt, "a list");
    let bytes = written(&rt, rt.alloc(), &list);
    assert_same(&rt, "bytes", bytes.len(), 12_000_012);
    let holds = is_archive::<ArchivedList>(rt.alloc(), bytes.as_slice());
    assert_holds(&rt, "is validated", holds);
    let back: List = value_of(&rt, rt.alloc(), bytes.as_slice());
    assert_same(&rt, "numbers", length(&back), 1_000_000);
}

// The tree of this many levels below its root, each with one child.
fn tree_of_depth(alloc: Global, levels: u32) -> Result<Tree, AllocError> {
    let mut tree = Tree {
        value: 0,
        children: Vec::new(alloc),
    };
    for value in 0..levels {
        tree = Tree {
            value,
            children: vec![in alloc; tree]?,
        };
    }
    Ok(tree)
}

// The node with so many children.
fn tree_of_width(alloc: Global, count: u32) -> Result<Tree, AllocError> {
    let mut children = Vec::new(alloc);
    for value in 0..count {
        let child = Tree {
            value,
            children: Vec::new(alloc),
        };
        children.push(child)?;
    }
    Ok(Tree { value: 0, children })
}

// A tree has an archive of this length, which is validated, read back and written again.
fn assert_goes_through(rt: &impl Abort, alloc: Global, tree: &Tree, length: usize) {
    let bytes = written(rt, alloc, tree);
    assert_same(rt, "bytes", bytes.len(), length);
    let holds = is_archive::<ArchivedTree>(alloc, bytes.as_slice());
    assert_holds(rt, "is validated", holds);
    let back: Tree = value_of(rt, alloc, bytes.as_slice());
    let again = written(rt, alloc, &back);
    assert_bytes(rt, "is written again", again.as_slice(), bytes.as_slice());
}

#[test]
fn two_thousand_levels(rt: HostRuntime) {
    let tree = tree_of_depth(rt.alloc(), 2_000).expect(&rt, "a tree");
    assert_goes_through(&rt, rt.alloc(), &tree, 24_012);
}

#[test]
fn many_children(rt: HostRuntime) {
    let tree = tree_of_width(rt.alloc(), 200_000).expect(&rt, "a tree");
    assert_goes_through(&rt, rt.alloc(), &tree, 2_400_012);
}
