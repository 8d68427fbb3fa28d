// Graphs, whose knots are behind shared pointers: written once for each key, validated, and read back once for each position; and knots that lead to
// themselves.

use crate::assertions::{assert_holds, assert_refused, assert_same, assert_written, made, viewed};
use archive_core::api::{from_bytes, to_bytes};
use archive_core::error::Error;
use archive_core::pooling::{Pool, Unpool};
use archive_core::rc::{Shared, WeakShared};
use archive_core::view::Ref;
use recursive_kinds::graph::{ArchivedGraph, Graph};
use recursive_kinds::knot::Knot;
use recursive_kinds::road::{ArchivedRoad, Road, RoadView, ViewOfRoad};
use std::alloc::{AllocError, Global};
use std::process::Abort;
use std::rc::Rc;

fn knot(alloc: Global, id: u32, next: Vec<Shared<Knot>>) -> Result<Rc<Knot>, AllocError> {
    Ok(Rc::new(alloc, Knot { id, next })?)
}

// Knot 1 leads to knot 2, and the graph to both.
fn graph(alloc: Global) -> Result<Graph, AllocError> {
    let two = knot(alloc, 2, Vec::new(alloc))?;
    let again = Shared {
        key: 7,
        value: two.clone()?,
    };
    let one = Shared {
        key: 5,
        value: knot(alloc, 1, vec![in alloc; again]?)?,
    };
    let two = Shared { key: 7, value: two };
    Ok(Graph {
        name: String::from_str(alloc, "net")?,
        nodes: vec![in alloc; one, two]?,
    })
}

// Knot 2 at 0, which leads to none; the pointer to it at 12, and knot 1 at 16; the two pointers at 28, and the graph at 36. A knot is its number, and at 4 an
// offset and a length; a pointer is an offset.
const GRAPH: &[u8] =
    b"\x02\0\0\0\xfc\xff\xff\xff\0\0\0\0\xf4\xff\xff\xff\x01\0\0\0\xf8\xff\xff\xff\x01\0\0\0\xf4\xff\xff\xff\xe0\xff\xff\xffnet\xff\xff\xff\xff\xff\xf0\xff\xff\xff\x02\0\0\0";

#[test]
fn each_knot_once(rt: HostRuntime) {
    let graph = graph(rt.alloc()).expect(&rt, "a graph");
    assert_written(&rt, rt.alloc(), &graph, GRAPH);
    let mut pool: Pool<Shared<Knot>> = Pool::new(rt.alloc());
    let back: Result<Graph, Error> = from_bytes(rt.alloc(), GRAPH, &mut pool);
    let back = made(&rt, "a graph", back);
    assert_written(&rt, rt.alloc(), &back, GRAPH);
    assert_same(&rt, "what is known", pool.is_known(0), true);
    assert_same(&rt, "what is known", pool.is_known(16), true);
}

// Without a pool each pointer has a knot of its own, under the position as its key.
#[test]
fn each_pointer_alone(rt: HostRuntime) {
    let back: Result<Graph, Error> = from_bytes(rt.alloc(), GRAPH, &mut Unpool);
    let back = made(&rt, "a graph", back);
    assert_written(&rt, rt.alloc(), &back, GRAPH);
}

// A knot under the key of a knot that leads to it.
fn knot_within_itself(alloc: Global) -> Result<Graph, AllocError> {
    let inner = Shared {
        key: 5,
        value: knot(alloc, 2, Vec::new(alloc))?,
    };
    let outer = Shared {
        key: 5,
        value: knot(alloc, 1, vec![in alloc; inner]?)?,
    };
    Ok(Graph {
        name: String::new(alloc),
        nodes: vec![in alloc; outer]?,
    })
}

fn assert_cyclic(rt: &impl Abort, alloc: Global, graph: Result<Graph, AllocError>) {
    let graph = graph.expect(rt, "a graph");
    let refused = to_bytes(alloc, &graph).err();
    assert_same(rt, "a cycle", refused, Some(Error::CyclicSerialize));
}

#[test]
fn knot_that_leads_to_itself(rt: HostRuntime) {
    assert_cyclic(&rt, rt.alloc(), knot_within_itself(rt.alloc()));
}

// The pointer at 0 leads to the knot at 4, whose own pointer it is.
const CYCLE: &[u8] =
    b"\x04\0\0\0\x01\0\0\0\xf8\xff\xff\xff\x01\0\0\0\xf4\xff\xff\xffnet\xff\xff\xff\xff\xff\xf4\xff\xff\xff\x01\0\0\0";

#[test]
fn archive_of_a_cycle(rt: HostRuntime) {
    assert_refused::<ArchivedGraph>(&rt, "a cycle", rt.alloc(), CYCLE, Error::CyclicValidate);
}

fn shared(alloc: Global, key: u64, road: Road) -> Result<Shared<Road>, AllocError> {
    let value = Rc::new(alloc, road)?;
    Ok(Shared { key, value })
}

// A detour over a road, in place of the road under this key.
fn detour(alloc: Global, over: Shared<Road>, closed: u64) -> Result<Shared<Road>, AllocError> {
    let closed = Shared {
        key: closed,
        value: over.value.clone()?,
    };
    let closed = WeakShared {
        value: Some(closed),
    };
    shared(alloc, 5, Road::Detour(over, closed))
}

// Road 1 leads into a detour, which is road 9; that is closed, too.
fn road(alloc: Global) -> Result<Road, AllocError> {
    let last = shared(alloc, 7, Road::Way(9, None))?;
    let detour = detour(alloc, last, 7)?;
    Ok(Road::Way(1, Some(detour)))
}

// Road 9 at 0, the detour at 12, and road 1 at 24: a tag, behind it a length, and at 4 an option, which is a tag, and an offset four bytes behind it; of the
// detour offsets at 4 and 8.
const ROAD: &[u8] =
    b"\0\x09\0\0\0\0\0\0\0\0\0\0\x01\0\0\0\xf0\xff\xff\xff\xec\xff\xff\xff\0\x01\0\0\x01\0\0\0\xec\xff\xff\xff";

#[test]
fn roads(rt: HostRuntime) {
    let road = road(rt.alloc()).expect(&rt, "a road");
    assert_written(&rt, rt.alloc(), &road, ROAD);
    let mut pool: Pool<Shared<Road>> = Pool::new(rt.alloc());
    let back: Result<Road, Error> = from_bytes(rt.alloc(), ROAD, &mut pool);
    let back = made(&rt, "a road", back);
    assert_written(&rt, rt.alloc(), &back, ROAD);
    assert_same(&rt, "what is known", pool.is_known(0), true);
    assert_same(&rt, "what is known", pool.is_known(12), true);
}

// The road that a road leads into, if it does.
fn next_of<'a>(road: Ref<'a, ArchivedRoad>) -> Option<Ref<'a, ArchivedRoad>> {
    match road.variant() {
        ViewOfRoad::Way(_, next) => match next.as_ref() {
            Some(next) => Some(next.get()),
            None => None,
        },
        ViewOfRoad::Detour(next, _) => Some(next.get()),
    }
}

#[test]
fn roads_as_they_lie(rt: HostRuntime) {
    let road = viewed::<ArchivedRoad>(&rt, rt.alloc(), ROAD);
    let detour = next_of(road).expect(&rt, "a detour");
    let last = next_of(detour).expect(&rt, "the last road");
    assert_same(&rt, "where the last one lies", last.pos(), 0);
    assert_holds(&rt, "no more", next_of(last).is_none());
}

// A detour in place of itself.
fn road_closed_for_itself(alloc: Global) -> Result<Road, AllocError> {
    let last = shared(alloc, 7, Road::Way(9, None))?;
    let detour = detour(alloc, last, 5)?;
    Ok(Road::Way(1, Some(detour)))
}

#[test]
fn detour_in_place_of_itself(rt: HostRuntime) {
    let road = road_closed_for_itself(rt.alloc()).expect(&rt, "a road");
    let refused = to_bytes(rt.alloc(), &road).err();
    assert_same(&rt, "a cycle", refused, Some(Error::CyclicSerialize));
}

// The detour's weak pointer at 20 leads to the detour itself.
const ROUND: &[u8] =
    b"\0\x09\0\0\0\0\0\0\0\0\0\0\x01\0\0\0\xf0\xff\xff\xff\xf8\xff\xff\xff\0\x01\0\0\x01\0\0\0\xec\xff\xff\xff";

#[test]
fn road_into_itself(rt: HostRuntime) {
    assert_refused::<ArchivedRoad>(&rt, "a cycle", rt.alloc(), ROUND, Error::CyclicValidate);
}
