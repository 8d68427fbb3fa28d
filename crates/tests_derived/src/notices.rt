// An enum whose variants go in blocks, and have functions of their own.

use crate::assertions::{assert_archived, assert_same, text, viewed};
use crate::judgements::{assert_faults, unknown_tag};
use archive_core::error::Error;
use archive_core::view::Ref;
use derived_plain::notice::{ArchivedNotice, Notice, NoticeView, ViewOfNotice};
use std::alloc::Global;
use std::process::Abort;

// The tag 8, a 9, at 4 the text "a.txt", at 12 four numbers.
const FILE: &[u8; 16] = b"\x08\x09\0\0a.txt\xff\xff\xff\x01\x02\x03\x04";

// A pair. At 12 the tag 12, at 16 one element 16 bytes back.
const RESULT: &[u8; 28] = b"no\xff\xff\xff\xff\xff\xff\x06\0\0\0\
    \x0c\0\0\0\xf0\xff\xff\xff\x01\0\0\0\0\0\0\0";

// The last tag, 16, and a 7.
const COUNTED: &[u8; 16] = b"\x10\x07\0\0\0\0\0\0\0\0\0\0\0\0\0\0";

// The last tag of a variant without fields.
const UNMUTED: &[u8; 16] = b"\x07\0\0\0\0\0\0\0\0\0\0\0\0\0\0\0";

// What the second archive is of.
fn result(rt: &impl Abort, alloc: Global) -> Notice {
    let mut options = Vec::new(alloc);
    options
        .push((text(rt, alloc, "no"), 6))
        .expect(rt, "memory for an option");
    Notice::Result(options)
}

#[test]
fn notices_are_written_and_read_back(rt: HostRuntime) {
    let alloc = rt.alloc();
    assert_archived(&rt, alloc, &Notice::Closed, 16, &[0; 16]);
    let file = Notice::File {
        member: 9,
        name: text(&rt, alloc, "a.txt"),
        digest: [1, 2, 3, 4],
    };
    assert_archived(&rt, alloc, &file, 16, FILE);
    assert_archived(&rt, alloc, &result(&rt, alloc), 16, RESULT);
    assert_archived(&rt, alloc, &Notice::Unmuted, 16, UNMUTED);
    assert_archived(&rt, alloc, &Notice::Counted(7), 16, COUNTED);
}

// The number of the variant that a view shows, whose fields are those of the archives above.
fn variant_of(rt: &impl Abort, view: Ref<'_, ArchivedNotice>) -> u8 {
    match view.variant() {
        ViewOfNotice::Unmuted => 7,
        ViewOfNotice::File { name, .. } => {
            assert_same(rt, "the file's name", name.as_str(), "a.txt");
            8
        }
        ViewOfNotice::Result(options) => {
            assert_same(rt, "how many options", options.len(), 1);
            12
        }
        ViewOfNotice::Counted(count) => {
            assert_same(rt, "the number", count.get(), 7);
            16
        }
        _ => 0,
    }
}

#[test]
fn notices_are_viewed(rt: HostRuntime) {
    let rows = [
        (0, &[0; 16][..]),
        (7, UNMUTED),
        (8, FILE),
        (12, RESULT),
        (16, COUNTED),
    ];
    for (number, archive) in rows {
        let view = viewed::<ArchivedNotice>(&rt, rt.alloc(), archive);
        assert_same(&rt, "the variant", variant_of(&rt, view), number);
    }
}

#[test]
fn faults_of_notices_are_found(rt: HostRuntime) {
    let rows = [
        (0, 0xc0, Error::InvalidUtf8),
        (12, 17, unknown_tag("ArchivedNotice", 17)),
    ];
    assert_faults::<ArchivedNotice>(&rt, rt.alloc(), RESULT, &rows);
}
