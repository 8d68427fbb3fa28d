// Where roots lie.

use crate::assertions::{assert_bytes, assert_refusal, assert_same};
use archive_core::api::{access_pos, access_pos_mut, root_position};
use archive_core::error::Error;
use archive_core::primitive::ArchivedU32;
use std::alloc::Global;
use std::process::Abort;

const BYTES: &[u8] = b"\x00\x01\x02\x03\x04";

// No number lies at a position, for this reason.
fn assert_refused_at(rt: &impl Abort, alloc: Global, pos: usize, refusal: Error) {
    let found = access_pos::<ArchivedU32>(alloc, BYTES, pos);
    assert_refusal(rt, "no number", found, refusal);
}

#[test]
fn a_root_lies_where_it_is_said_to(rt: HostRuntime) {
    let outside = Error::InvalidSubtreePointer {
        position: 4,
        size: 4,
        start: 0,
        end: 5,
    };
    assert_refused_at(&rt, rt.alloc(), 4, outside);
    let unaligned = Error::UnalignedPointer {
        position: 1,
        align: 4,
    };
    assert_refused_at(&rt, rt.alloc(), 1, unaligned);
    let number = access_pos::<ArchivedU32>(rt.alloc(), BYTES, 0);
    let number = number.expect(&rt, "a number").get();
    assert_same(&rt, "the number at position 0", number, 0x03020100);
    for (len, root) in [(3, 0), (4, 0), (5, 1)] {
        assert_same(&rt, "the root", root_position::<ArchivedU32>(len), root);
    }
}

#[test]
fn a_number_is_written_over_where_it_lies(rt: HostRuntime) {
    let mut bytes = [7, 0, 0, 0, 1];
    access_pos_mut::<ArchivedU32>(rt.alloc(), &mut bytes, 0)
        .expect(&rt, "a number")
        .write(258);
    assert_bytes(&rt, "the bytes", &bytes, &[2, 1, 0, 0, 1]);
}
