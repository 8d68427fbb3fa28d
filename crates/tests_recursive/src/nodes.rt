// Lists of boxes in boxes: checked, viewed and read back. What is checked is generic in the node, so that a call at the type is made once.

ghost use Rattle.std.specs.Prelude.{◌<◌};

use crate::assertions::{assert_refused, assert_same, value_of, viewed};
use archive_core::api::{Access, HighValidator, access_with_context, root_position};
use archive_core::error::Error;
use archive_core::shape::Schema;
use archive_core::traits::{Choice, Portable};
use own_types::node::{ArchivedNode, Node, boxes};
use std::alloc::Global;
use std::process::Abort;

// One box: nothing at 0, and at 8 the box that points back at it.
const ONE: &[u8] = b"\0\0\0\0\0\0\0\0\x01\0\0\0\xf4\xff\xff\xff";

// How many boxes a node has that is read back, counted up to two.
fn boxes_of(rt: &impl Abort, alloc: Global, bytes: &[u8]) -> usize {
    let node: Node = value_of(rt, alloc, bytes);
    boxes(&node, 2)
}

#[test]
fn nodes_come_back(rt: HostRuntime) {
    let one = boxes_of(&rt, rt.alloc(), ONE);
    assert_same(&rt, "one", one, 1);
    let none = boxes_of(&rt, rt.alloc(), b"\0\0\0\0\0\0\0\0");
    assert_same(&rt, "none", none, 0);
}

// A box behind its own node is refused.
fn assert_behind_refused<T: Portable>(rt: &impl Abort, alloc: Global) {
    let refusal = Error::InvalidSubtreePointer {
        position: 8,
        size: 8,
        start: 0,
        end: 0,
    };
    let bytes = b"\x01\0\0\0\x04\0\0\0\x01\0\0\0\xf4\xff\xff\xff";
    assert_refused::<T>(rt, "a box behind its node", alloc, bytes, refusal);
}

// A node that is viewed holds a box.
fn assert_box<X: Choice>(rt: &impl Abort, alloc: Global, bytes: &[u8]) {
    let tag = viewed::<X>(rt, alloc, bytes).tag();
    assert_same(rt, "the tag", tag, 1);
}

// The archive of so many boxes, one in another, with its root at the end.
fn chain(rt: &impl Abort, alloc: Global, count: usize) -> Vec<u8> {
    let bytes = vec![in alloc; 0u8; 8];
    let mut bytes = bytes.expect(rt, "memory for the last node");
    for _ in 0..count {
        bytes
            .extend_from_slice(b"\x01\0\0\0\xf4\xff\xff\xff")
            .expect(rt, "memory for a box");
    }
    bytes
}

// How many regions a check of nodes enters, with a limit of depth: that of the type, one that is kept, and the schema's.
fn entered<T: Portable>(alloc: Global, bytes: &[u8], levels: usize) -> Result<usize, Error>
    requires { 0 < levels }
{
    let mut context = HighValidator::with_max_depth(alloc, bytes, Some(levels));
    let _ = access_with_context::<T, HighValidator<'_>>(alloc, bytes, &mut context)?;
    Ok(context.subtrees())
}

fn entered_kept<T: Portable>(alloc: Global, bytes: &[u8], levels: usize) -> Result<usize, Error>
    requires { 0 < levels }
{
    let kept: Access<T> = Access::new(alloc)?;
    let mut context = HighValidator::with_max_depth(alloc, bytes, Some(levels));
    kept.check_pos_with_context(bytes, root_position::<T>(bytes.len()), &mut context)?;
    Ok(context.subtrees())
}

fn entered_by_schema<T: Portable>(
    alloc: Global,
    bytes: &[u8],
    levels: usize,
) -> Result<usize, Error>
    requires { 0 < levels }
{
    let schema = Schema::of::<T>(alloc)?;
    let mut context = HighValidator::with_max_depth(alloc, bytes, Some(levels));
    schema.check(bytes, root_position::<T>(bytes.len()), &mut context)?;
    Ok(context.subtrees())
}

// With a limit of depth each check enters so many regions, or is refused for the limit.
fn assert_entered<T: Portable>(
    rt: &impl Abort,
    alloc: Global,
    bytes: &[u8],
    levels: usize,
    wanted: Result<usize, Error>,
)
    requires { 0 < levels }
{
    let own = entered::<T>(alloc, bytes, levels);
    assert_same(rt, "the type's check", own, wanted);
    let kept = entered_kept::<T>(alloc, bytes, levels);
    assert_same(rt, "a kept check", kept, wanted);
    let by_schema = entered_by_schema::<T>(alloc, bytes, levels);
    assert_same(rt, "the schema", by_schema, wanted);
}

// A node has a region more than boxes, and takes a level more than regions.
fn assert_depth<T: Portable>(rt: &impl Abort, alloc: Global) {
    let too_deep = Err(Error::ExceededMaximumSubtreeDepth);
    let short = chain(rt, alloc, 3);
    assert_entered::<T>(rt, alloc, &short, 1, too_deep);
    assert_entered::<T>(rt, alloc, &short, 4, too_deep);
    assert_entered::<T>(rt, alloc, &short, 5, Ok(4));
    let long = chain(rt, alloc, 100_000);
    assert_entered::<T>(rt, alloc, &long, 100_001, too_deep);
    assert_entered::<T>(rt, alloc, &long, 100_002, Ok(100_001));
}

// A long chain is checked with no limit.
fn assert_long_chain<X: Choice>(rt: &impl Abort, alloc: Global) {
    let bytes = chain(rt, alloc, 200_000);
    assert_box::<X>(rt, alloc, &bytes);
}

// Archives of nodes are viewed, refused, and checked to any depth.
fn assert_nodes<X: Choice>(rt: &impl Abort, alloc: Global) {
    assert_behind_refused::<X>(rt, alloc);
    assert_box::<X>(rt, alloc, ONE);
    assert_depth::<X>(rt, alloc);
    assert_long_chain::<X>(rt, alloc);
}

#[test]
fn archived_nodes_are_checked_and_viewed(rt: HostRuntime) {
    assert_nodes::<ArchivedNode>(&rt, rt.alloc());
}
