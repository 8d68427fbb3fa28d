// Bags, whose bags are in shared slices: written once for each key, validated, and read back once for each position.

use crate::assertions::{assert_holds, assert_refused, assert_same, assert_written, made, viewed};
use archive_core::api::{from_bytes, to_bytes};
use archive_core::error::Error;
use archive_core::pooling::{Pool, Unpool};
use archive_core::rc::SharedSlice;
use archive_core::view::Ref;
use recursive_kinds::bag::{ArchivedBag, Bag, BagView};
use std::alloc::{AllocError, Global};
use std::process::Abort;
use std::rc::RcSlice;

// A bag of these bags, under a key.
fn bag(key: u64, bags: Vec<Bag>) -> Result<Bag, AllocError> {
    let value = RcSlice::from_vec(bags)?;
    let inside = SharedSlice { key, value };
    Ok(Bag { top: None, inside })
}

// A bag of the same bags.
fn again(bag: &Bag) -> Result<Bag, AllocError> {
    let inside = bag.inside.clone()?;
    Ok(Bag { top: None, inside })
}

// An empty bag, and a bag with the same in it, in a bag; on top of them a bag like the second.
fn bags(alloc: Global) -> Result<Bag, AllocError> {
    let none = bag(5, Vec::new(alloc))?;
    let one = bag(6, vec![in alloc; again(&none)?]?)?;
    let top = Some(Box::new(alloc, again(&one)?)?);
    let all = bag(7, vec![in alloc; none, one]?)?;
    let inside = all.inside.clone()?;
    Ok(Bag { top, inside })
}

// No bags at 0, with a byte in their place; the bag in the second one at 4; the one on top at 20; the empty one at 36, the second at 52, and the whole at 68. A
// bag is an option, of a tag and an offset, and at 8 an offset and a length.
const BAGS: &[u8] =
    b"\0\0\0\0\0\0\0\0\0\0\0\0\xf4\xff\xff\xff\0\0\0\0\0\0\0\0\0\0\0\0\xe8\xff\xff\xff\x01\0\0\0\0\0\0\0\0\0\0\0\xd4\xff\xff\xff\0\0\0\0\0\0\0\0\0\0\0\0\xc8\xff\xff\xff\x01\0\0\0\x01\0\0\0\xcc\xff\xff\xff\xd8\xff\xff\xff\x02\0\0\0";

#[test]
fn each_slice_once(rt: HostRuntime) {
    let bags = bags(rt.alloc()).expect(&rt, "bags");
    assert_written(&rt, rt.alloc(), &bags, BAGS);
    let mut pool: Pool<SharedSlice<Bag>> = Pool::new(rt.alloc());
    let back: Result<Bag, Error> = from_bytes(rt.alloc(), BAGS, &mut pool);
    let back = made(&rt, "bags", back);
    assert_written(&rt, rt.alloc(), &back, BAGS);
    assert_same(&rt, "what is known", pool.is_known(0), true);
    assert_same(&rt, "what is known", pool.is_known(4), true);
    assert_same(&rt, "what is known", pool.is_known(36), true);
}

// Without a pool each pointer has bags of its own, under the position as their key.
#[test]
fn each_pointer_alone(rt: HostRuntime) {
    let back: Result<Bag, Error> = from_bytes(rt.alloc(), BAGS, &mut Unpool);
    let back = made(&rt, "bags", back);
    assert_written(&rt, rt.alloc(), &back, BAGS);
}

// The bag with this number in a bag.
fn in_bag<'a>(
    rt: &impl Abort,
    bag: Ref<'a, ArchivedBag>,
    index: usize,
) -> Option<Ref<'a, ArchivedBag>> {
    let found = bag.inside().get().get(index);
    assert_holds(rt, "there is a bag", found.is_some());
    found
}

#[test]
fn bags_as_they_lie(rt: HostRuntime) {
    let whole = viewed::<ArchivedBag>(&rt, rt.alloc(), BAGS);
    assert_same(&rt, "the bags", whole.inside().get().len(), 2);
    let top = whole.top().as_ref().expect(&rt, "a bag on top");
    assert_same(&rt, "where that lies", top.get().pos(), 20);
    let Some(second) = in_bag(&rt, whole, 1) else {
        return;
    };
    let Some(last) = in_bag(&rt, second, 0) else {
        return;
    };
    assert_same(&rt, "where the last one lies", last.pos(), 4);
    assert_same(&rt, "its bags", last.inside().get().len(), 0);
}

// A bag under the key of a bag in it.
fn bag_in_itself(alloc: Global) -> Result<Bag, AllocError> {
    let inner = bag(5, Vec::new(alloc))?;
    bag(5, vec![in alloc; inner]?)
}

#[test]
fn bag_within_itself(rt: HostRuntime) {
    let bag = bag_in_itself(rt.alloc()).expect(&rt, "a bag");
    let refused = to_bytes(rt.alloc(), &bag).err();
    assert_same(&rt, "a cycle", refused, Some(Error::CyclicSerialize));
}

// The bag at 0 is in itself.
const ROUND: &[u8] =
    b"\0\0\0\0\0\0\0\0\xf8\xff\xff\xff\x01\0\0\0\0\0\0\0\0\0\0\0\xe8\xff\xff\xff\x01\0\0\0";

#[test]
fn archive_of_a_cycle(rt: HostRuntime) {
    assert_refused::<ArchivedBag>(&rt, "a cycle", rt.alloc(), ROUND, Error::CyclicValidate);
}
