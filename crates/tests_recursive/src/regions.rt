// Values of own types are written as regions of their own.

use crate::assertions::assert_same;
use crate::readme::record;
use crate::records::RECORD;
use archive_core::api::serialize_using;
use archive_core::ser::Serializer;
use archive_core::traits::SerializeUnsized;
use own_types::metres::Metres;
use own_types::node::Node;
use std::alloc::Global;
use std::process::Abort;

// A value is written as these bytes, its region at a position in them.
fn assert_region<T: SerializeUnsized<Serializer<Vec<u8>, Global, ()>>>(
    rt: &impl Abort,
    alloc: Global,
    value: &T,
    position: usize,
    bytes: &[u8],
) {
    let mut serializer = Serializer::new(Vec::new(alloc), alloc, ());
    let region = serialize_using(value, &mut serializer).expect(rt, "a region");
    assert_same(rt, "the region", region, position);
    let written = serializer.into_writer();
    assert_same(rt, "the bytes", written.as_slice(), bytes);
}

#[test]
fn a_length_is_a_region(rt: HostRuntime) {
    let length = Metres { number: 7 };
    assert_region(&rt, rt.alloc(), &length, 0, b"\x07\0\0\0");
}

#[test]
fn a_node_is_a_region(rt: HostRuntime) {
    assert_region(&rt, rt.alloc(), &Node::Nil, 0, b"\0\0\0\0\0\0\0\0");
}

#[test]
fn a_record_is_a_region(rt: HostRuntime) {
    let record = record(rt.alloc()).expect(&rt, "memory for a record");
    assert_region(&rt, rt.alloc(), &record, 28, RECORD);
}
