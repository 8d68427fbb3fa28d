// Recursive values byte for byte, as docs/FORMAT.md has them: written, validated and read back.

use crate::assertions::{assert_read, assert_written};
use recursive_types::dir::{Dir, Entry};
use recursive_types::expr::Expr;
use recursive_types::list::List;
use recursive_types::search::Search;
use recursive_types::tree::Tree;
use std::alloc::{AllocError, Global};
use std::process::Abort;

// A list of these numbers.
pub(crate) fn list_of(alloc: Global, numbers: &[u32]) -> Result<List, AllocError> {
    let mut list = List::Nil;
    for number in numbers.iter().rev() {
        list = List::Cons(*number, Box::new(alloc, list)?);
    }
    Ok(list)
}

// The end of the list at 0, the last node at 12, and the first one at 24: a tag, the number four bytes behind it, and the offset of the box.
pub(crate) const TWO: &[u8] =
    b"\0\0\0\0\0\0\0\0\0\0\0\0\x01\0\0\0\x02\0\0\0\xec\xff\xff\xff\x01\0\0\0\x01\0\0\0\xec\xff\xff\xff";

#[test]
fn list_of_two(rt: HostRuntime) {
    let list = list_of(rt.alloc(), &[1, 2]).expect(&rt, "a list");
    assert_written(&rt, rt.alloc(), &list, TWO);
    assert_read(&rt, rt.alloc(), TWO, &list);
}

#[test]
fn empty_list(rt: HostRuntime) {
    assert_written(&rt, rt.alloc(), &List::Nil, b"\0\0\0\0\0\0\0\0\0\0\0\0");
}

fn leaf(alloc: Global, value: u32) -> Tree {
    Tree {
        value,
        children: Vec::new(alloc),
    }
}

fn three(alloc: Global) -> Result<Tree, AllocError> {
    let four = leaf(alloc, 4);
    let three = Tree {
        value: 3,
        children: vec![in alloc; four]?,
    };
    let two = leaf(alloc, 2);
    Ok(Tree {
        value: 1,
        children: vec![in alloc; two, three]?,
    })
}

// The tree below 3 at 0, with no child; those below 1 at 12 and 24; and 1 at 36. A vector is an offset and a length.
const TREE: &[u8] =
    b"\x04\0\0\0\xfc\xff\xff\xff\0\0\0\0\x02\0\0\0\xf0\xff\xff\xff\0\0\0\0\x03\0\0\0\xe4\xff\xff\xff\x01\0\0\0\x01\0\0\0\xe4\xff\xff\xff\x02\0\0\0";

#[test]
fn tree_of_four(rt: HostRuntime) {
    let tree = three(rt.alloc()).expect(&rt, "a tree");
    assert_written(&rt, rt.alloc(), &tree, TREE);
    assert_read(&rt, rt.alloc(), TREE, &tree);
}

fn sum(alloc: Global) -> Result<Expr, AllocError> {
    let name = String::from_str(alloc, "f")?;
    let call = Expr::Call(name, vec![in alloc; Expr::Num(-1)]?);
    Ok(Expr::Add(Box::new(alloc, Expr::Num(2))?, Box::new(alloc, call)?))
}

// The number 2 at 0, the number -1 at 24, the call at 48 with its name in place, and at 72 the sum, whose boxes lead back to 0 and to 48. A number of 64 bits
// begins eight bytes behind the tag.
const SUM: &[u8] =
    b"\0\0\0\0\0\0\0\0\x02\0\0\0\0\0\0\0\0\0\0\0\0\0\0\0\0\0\0\0\0\0\0\0\xff\xff\xff\xff\xff\xff\xff\xff\0\0\0\0\0\0\0\0\x02\0\0\0f\xff\xff\xff\xff\xff\xff\xff\xdc\xff\xff\xff\x01\0\0\0\0\0\0\0\x01\0\0\0\xb4\xff\xff\xff\xe0\xff\xff\xff\0\0\0\0\0\0\0\0\0\0\0\0";

#[test]
fn expression(rt: HostRuntime) {
    let sum = sum(rt.alloc()).expect(&rt, "an expression");
    assert_written(&rt, rt.alloc(), &sum, SUM);
    assert_read(&rt, rt.alloc(), SUM, &sum);
}

// A binary tree of one number.
fn only(value: u32) -> Search {
    Search {
        left: None,
        value,
        right: None,
    }
}

fn two_below(alloc: Global) -> Result<Search, AllocError> {
    Ok(Search {
        left: Some(Box::new(alloc, only(1))?),
        value: 2,
        right: Some(Box::new(alloc, only(3))?),
    })
}

// The number 1 at 0 with nothing below, 3 at 20, and 2 at 40. An option of a box is a tag, and four bytes behind it the offset of the box, or zeros.
const SEARCH: &[u8] =
    b"\0\0\0\0\0\0\0\0\x01\0\0\0\0\0\0\0\0\0\0\0\0\0\0\0\0\0\0\0\x03\0\0\0\0\0\0\0\0\0\0\0\x01\0\0\0\xd4\xff\xff\xff\x02\0\0\0\x01\0\0\0\xdc\xff\xff\xff";

#[test]
fn binary_tree(rt: HostRuntime) {
    let search = two_below(rt.alloc()).expect(&rt, "a tree");
    assert_written(&rt, rt.alloc(), &search, SEARCH);
    assert_read(&rt, rt.alloc(), SEARCH, &search);
}

fn folder(alloc: Global) -> Result<Dir, AllocError> {
    let inner = Dir {
        name: String::from_str(alloc, "e")?,
        entries: Vec::new(alloc),
    };
    let sub = Entry::Sub(Box::new(alloc, inner)?);
    Ok(Dir {
        name: String::from_str(alloc, "d")?,
        entries: vec![in alloc; Entry::File(7), sub]?,
    })
}

// The folder e at 0, with no entry and its name in place; the two entries of d at 16, a file of seven bytes and a box that leads back to 0; and d at 48.
const FOLDER: &[u8] =
    b"e\xff\xff\xff\xff\xff\xff\xff\xf8\xff\xff\xff\0\0\0\0\0\0\0\0\0\0\0\0\x07\0\0\0\0\0\0\0\x01\0\0\0\xdc\xff\xff\xff\0\0\0\0\0\0\0\0d\xff\xff\xff\xff\xff\xff\xff\xd8\xff\xff\xff\x02\0\0\0";

#[test]
fn folders(rt: HostRuntime) {
    let folder = folder(rt.alloc()).expect(&rt, "a folder");
    assert_written(&rt, rt.alloc(), &folder, FOLDER);
    assert_read(&rt, rt.alloc(), FOLDER, &folder);
}
