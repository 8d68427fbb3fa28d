// Damaged lists: validated by loops, and by their schema, which says the same of each.

use crate::assertions::{assert_changed, assert_same, changed, tag_of_none};
use crate::bytes::TWO;
use archive_core::api::{HighValidator, access};
use archive_core::core_impls::ArchivedTuple2;
use archive_core::error::Error;
use archive_core::primitive::ArchivedU32;
use archive_core::result::ArchivedResult;
use archive_core::self_check::SelfCheck;
use archive_core::shape::Schema;
use archive_core::traits::Portable;
use recursive_types::list::ArchivedList;
use std::alloc::Global;
use std::process::Abort;

fn refusal_by_schema(alloc: Global, schema: &Schema, bytes: &[u8]) -> Option<Error> {
    let mut context = HighValidator::new(alloc, bytes);
    schema.check(bytes, 24, &mut context).err()
}

fn refusal(alloc: Global, bytes: &[u8]) -> Option<Error> {
    access::<ArchivedList>(alloc, bytes).err()
}

fn assert_alike(rt: &impl Abort, alloc: Global, schema: &Schema, at: usize, byte: u8) {
    let bytes = changed(alloc, TWO, at, byte).expect(rt, "bytes");
    let found = refusal(alloc, bytes.as_slice());
    let wanted = refusal_by_schema(alloc, schema, bytes.as_slice());
    assert_same(rt, "both checks", found, wanted);
}

#[test]
fn each_byte_changed(rt: HostRuntime) {
    let schema = Schema::of::<ArchivedList>(rt.alloc()).expect(&rt, "a schema");
    for at in 0..TWO.len() {
        for byte in [0, 1, 2, 4, 12, 0xe8, 0xec, 0xf8, 0xff] {
            assert_alike(&rt, rt.alloc(), &schema, at, byte);
        }
    }
}

fn assert_damaged(rt: &impl Abort, alloc: Global, at: usize, byte: u8, refusal: Error) {
    assert_changed::<ArchivedList>(rt, alloc, TWO, at, byte, refusal);
}

// The region of a node at this position, where a list may lie before `end`.
fn outside(position: i128, end: usize) -> Error {
    Error::InvalidSubtreePointer {
        position,
        size: 12,
        start: 0,
        end,
    }
}

// A box that leads to its own node, behind it, and that of the inner node to this one; and a tag that no variant has.
#[test]
fn list_within_itself(rt: HostRuntime) {
    assert_damaged(&rt, rt.alloc(), 32, 0xf8, outside(24, 24));
    assert_damaged(&rt, rt.alloc(), 20, 0xf8, outside(12, 12));
}

#[test]
fn tag_of_no_variant(rt: HostRuntime) {
    assert_damaged(&rt, rt.alloc(), 12, 2, tag_of_none("ArchivedList", 2));
}

fn validates_itself<T: Portable>() -> bool {
    T::Check::is_direct()
}

// Two types with a name each may bring different definitions of one name.
#[test]
fn two_lists_go_by_their_schema(rt: HostRuntime) {
    type One = ArchivedTuple2<ArchivedU32, ArchivedList>;
    type Two = ArchivedTuple2<ArchivedList, ArchivedList>;
    type Either = ArchivedResult<ArchivedList, ArchivedList>;
    assert_same(&rt, "a list", validates_itself::<ArchivedList>(), true);
    assert_same(&rt, "and a number", validates_itself::<One>(), true);
    assert_same(&rt, "two lists", validates_itself::<Two>(), false);
    assert_same(&rt, "one of two", validates_itself::<Either>(), false);
}
