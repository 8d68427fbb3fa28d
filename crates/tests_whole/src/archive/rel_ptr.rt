// Views of relative pointers, which their schemas check.

use crate::assertions::{assert_same, viewed};
use archive_core::RelPtr;
use archive_core::primitive::ArchivedU32;
use archive_core::string::ArchivedStr;

#[test]
fn pointers_are_viewed(rt: HostRuntime) {
    let bytes = b"\xf0\xff\xff\xff\x0b\0\0\0";
    let view = viewed::<RelPtr<ArchivedStr>>(&rt, rt.alloc(), bytes);
    let found = (view.offset(), view.target(), view.is_invalid());
    assert_same(&rt, "to a text", found, (-16, -16, false));
    assert_same(&rt, "its length", view.metadata().to_native(), 11);
    let invalid = viewed::<RelPtr<ArchivedU32>>(&rt, rt.alloc(), b"\x01\0\0\0");
    let found = (invalid.is_invalid(), invalid.metadata());
    assert_same(&rt, "an invalid one", found, (true, ()));
}
