// Results.

use crate::assertions::{assert_archived, assert_refused, assert_same, assert_written, viewed};
use archive_check::format::error::Error;
use archive_types::primitive::{ArchivedU16, ArchivedU32};
use archive_types::result::ArchivedResult;
use archive_types::view::Ref;
use std::alloc::Global;
use std::process::Abort;

type Numbers = ArchivedResult<u8, ArchivedU32>;

// The byte that is viewed, if there is one.
fn byte_of(view: Option<Ref<'_, u8>>) -> Option<u8> {
    match view {
        Some(view) => Some(view.get()),
        None => None,
    }
}

// The result that a view shows.
fn shown(view: Ref<'_, Numbers>) -> Result<u8, u32> {
    match view.as_ref() {
        Ok(number) => Ok(number.get()),
        Err(number) => Err(number.get()),
    }
}

// The result has this archive, which shows it, goes through its one value, if it is no error, and is read back.
fn assert_result(rt: &impl Abort, alloc: Global, value: Result<u8, u32>, archive: &[u8]) {
    assert_archived(rt, alloc, &value, archive);
    let view = viewed::<Numbers>(rt, archive);
    assert_same(rt, "the view", shown(view), value);
    let mut items = view.iter();
    let found = (byte_of(items.next()), byte_of(items.next()));
    assert_same(rt, "the items", found, (value.ok(), None));
}

#[test]
fn results_and_their_archives(rt: HostRuntime) {
    assert_result(&rt, rt.alloc(), Ok(7), b"\0\x07\0\0\0\0\0\0");
    assert_result(&rt, rt.alloc(), Err(9), b"\x01\0\0\0\x09\0\0\0");
}

// The text "hello world", as a value that is no error.
const OK_TEXT: &[u8] = b"hello world\0\0\0\0\0\x8b\0\0\0\xf0\xff\xff\xff";

// These bytes are the archive of a text or an error's number.
fn assert_outcome(rt: &impl Abort, alloc: Global, value: Result<String, u16>, archive: &[u8]) {
    assert_written(rt, alloc, &value, archive);
}

#[test]
fn a_result_owns_what_its_value_owns(rt: HostRuntime) {
    let text = String::from_str(rt.alloc(), "hello world").expect(&rt, "memory");
    assert_outcome(&rt, rt.alloc(), Ok(text), OK_TEXT);
    assert_outcome(&rt, rt.alloc(), Err(513), b"\x01\0\x01\x02\0\0\0\0\0\0\0\0");
}

#[test]
fn a_tag_above_1_names_no_variant(rt: HostRuntime) {
    let refusal = Error::InvalidDiscriminant {
        name: "ArchivedResult",
        value: 2,
    };
    type Unknown = ArchivedResult<u8, ArchivedU16>;
    assert_refused::<Unknown>(&rt, &[(b"\x02\0\0\0", refusal)]);
}
