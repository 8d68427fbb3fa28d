//! A tree is written, viewed, edited in place and read back.

use crate::tree::{ArchivedTree, Tree, TreeSeal, TreeView};
use archive_core::api::{access, access_mut, from_bytes, to_bytes};
use archive_core::error::Error;
use archive_core::view::Ref;
use std::alloc::{AllocError, Global};
use std::test::Fail;

/// A tree with one child.
fn tree(alloc: Global) -> Result<Tree, AllocError> {
    let child = Tree {
        value: 2,
        children: Vec::new(alloc),
    };
    Ok(Tree {
        value: 1,
        children: vec![in alloc; child]?,
    })
}

/// The archive of a tree.
fn archived(alloc: Global, tree: &Tree) -> Result<Vec<u8>, Error> {
    to_bytes(alloc, tree)
}

/// Writes another number over that of a tree.
fn write_value(alloc: Global, bytes: &mut [u8], value: u32) -> Result<(), Error> {
    let tree = access_mut::<ArchivedTree>(alloc, bytes)?;
    tree.value_mut().write(value);
    Ok(())
}

/// The view of the tree in an archive.
fn viewed(alloc: Global, bytes: &[u8]) -> Result<Ref<'_, ArchivedTree>, Error> {
    access(alloc, bytes)
}

/// The sum of the numbers of a tree's children.
fn below(tree: Ref<'_, ArchivedTree>) -> u64 {
    let mut sum: u64 = 0;
    for child in tree.children().as_slice().iter() {
        sum = sum.saturating_add(u64::from(child.value().get()));
    }
    sum
}

/// The tree of an archive.
fn read(alloc: Global, bytes: &[u8]) -> Result<Tree, Error> {
    from_bytes(alloc, bytes, &mut ())
}

#[test]
fn a_tree_goes_there_and_back(rt: HostRuntime) -> Result<(), Fail> {
    let mut bytes = archived(rt.alloc(), &tree(rt.alloc())?)?;
    write_value(rt.alloc(), &mut bytes, 7)?;
    let view = viewed(rt.alloc(), &bytes)?;
    assert_eq!(rt; view.value().get(), 7);
    assert_eq!(rt; below(view), 2);
    let back = read(rt.alloc(), &bytes)?;
    assert_eq!(rt; back.value, 7);
    assert_eq!(rt; back.children.len(), 1);
    Ok(())
}
