// A kept check returns views. It is made and called in functions of any type: of one type it has all that its schema has, and is written out at each step.

use crate::archive::HELLO_WORLD;
use crate::assertions::{assert_refusal, assert_same};
use archive_core::api::{Access, HighValidator};
use archive_core::core_impls::ArchivedTuple2;
use archive_core::error::Error;
use archive_core::primitive::ArchivedU32;
use archive_core::rc::{ArchivedRcWeak, RcFlavor};
use archive_core::string::ArchivedString;
use archive_core::traits::{Archive, Deserialize, Portable};
use std::alloc::Global;
use std::process::Abort;

// A kept check.
fn kept<T: Portable>(rt: &impl Abort, alloc: Global) -> Access<T> {
    Access::new(alloc).expect(rt, "a check")
}

// Where the roots are that a kept check returns: at the end, and at a position.
fn positions<T: Portable>(
    rt: &impl Abort,
    alloc: Global,
    bytes: &[u8],
    pos: usize,
) -> (usize, usize) {
    let check: Access<T> = kept(rt, alloc);
    let last = check.access(bytes).expect(rt, "an archive");
    let other = check.access_pos(bytes, pos).expect(rt, "an archive");
    let mut context = HighValidator::new(alloc, bytes);
    let checked = check.check_pos_with_context(bytes, pos, &mut context);
    checked.expect(rt, "an archive");
    (last.pos(), other.pos())
}

// What a kept check reads back.
fn read<T: Archive>(rt: &impl Abort, alloc: Global, bytes: &[u8]) -> Result<T, Error>
where
    T::Archived: Deserialize<T, ()>,
{
    let check: Access<T::Archived> = kept(rt, alloc);
    check.from_bytes(bytes, &mut ())
}

#[test]
fn a_kept_check_returns_views(rt: HostRuntime) {
    let found = positions::<ArchivedString>(&rt, rt.alloc(), HELLO_WORLD, 12);
    assert_same(&rt, "the positions", found, (12, 12));
    let back: Result<String, Error> = read(&rt, rt.alloc(), HELLO_WORLD);
    let back = back.expect(&rt, "a text");
    assert_same(&rt, "the text", back.as_str(), "hello world");
    let wrong = b"\xc0\x80\xff\xff\xff\xff\xff\xff";
    let refused: Result<String, Error> = read(&rt, rt.alloc(), wrong);
    assert_refusal(&rt, "no text", refused, Error::InvalidUtf8);
}

// A weak pointer, which its schema checks, and a number.
type Weak = ArchivedTuple2<ArchivedRcWeak<ArchivedU32, RcFlavor>, ArchivedU32>;

#[test]
fn a_kept_schema_returns_views(rt: HostRuntime) {
    let bytes = b"\x01\0\0\0\x01\0\0\0\x02\0\0\0";
    let found = positions::<Weak>(&rt, rt.alloc(), bytes, 0);
    assert_same(&rt, "the positions", found, (4, 0));
}
