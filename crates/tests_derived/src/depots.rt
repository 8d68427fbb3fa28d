// An enum with a variant of nine fields.

use crate::assertions::{assert_archived, assert_same, text, viewed};
use crate::judgements::{assert_faults, unknown_tag};
use archive_core::error::Error;
use archive_core::view::Ref;
use derived_plain::depot::{ArchivedDepot, Depot, DepotView, ViewOfDepot};
use std::alloc::Global;
use std::process::Abort;

// A text. At 12 the tag 1, a 6, 9, 8, 7, at 20 a W, -1, 2, a true, and the text 28 bytes back.
const SENT: &[u8; 36] =
    b"hello world\0\x01\x06\x09\x08\x07\0\0\0W\0\0\0\xff\x02\x01\0\x8b\0\0\0\xe4\xff\xff\xff";

// What the second archive is of.
fn sent(rt: &impl Abort, alloc: Global) -> Depot {
    Depot::Sent {
        number: 6,
        row: 9,
        shelf: 8,
        place: 7,
        letter: 'W',
        height: -1,
        width: 2,
        is_open: true,
        to: text(rt, alloc, "hello world"),
    }
}

#[test]
fn depots_are_written_and_read_back(rt: HostRuntime) {
    let alloc = rt.alloc();
    assert_archived(&rt, alloc, &Depot::Free, 24, &[0; 24]);
    assert_archived(&rt, alloc, &sent(&rt, alloc), 24, SENT);
}

// The number of the variant that a view shows, whose fields are those of the archives above.
fn variant_of(rt: &impl Abort, view: Ref<'_, ArchivedDepot>) -> u8 {
    match view.variant() {
        ViewOfDepot::Free => 0,
        ViewOfDepot::Sent {
            number,
            letter,
            height,
            is_open,
            to,
            ..
        } => {
            let found = (number.get(), letter.get(), height.get(), is_open.get());
            assert_same(rt, "what was sent", found, (6, 'W', -1, true));
            assert_same(rt, "to whom", to.as_str(), "hello world");
            1
        }
    }
}

#[test]
fn depots_are_viewed(rt: HostRuntime) {
    for (number, archive) in [(0, &[0; 24][..]), (1, SENT)] {
        let view = viewed::<ArchivedDepot>(&rt, rt.alloc(), archive);
        assert_same(&rt, "the variant", variant_of(&rt, view), number);
    }
}

#[test]
fn faults_of_depots_are_found(rt: HostRuntime) {
    let rows = [
        (0, 0xc0, Error::InvalidUtf8),
        (12, 2, unknown_tag("ArchivedDepot", 2)),
        (22, 0x11, Error::InvalidChar),
        (26, 2, Error::InvalidBool),
        (28, 0x88, Error::InvalidStringRepr),
    ];
    assert_faults::<ArchivedDepot>(&rt, rt.alloc(), SENT, &rows);
}
