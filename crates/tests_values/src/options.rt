// Options, and what stands for a type.

use crate::assertions::{
    assert_archived, assert_same, assert_written, number_of, value_of, viewed,
};
use archive_types::option::ArchivedOption;
use archive_types::primitive::ArchivedU32;
use std::alloc::Global;
use std::marker::PhantomData;
use std::process::Abort;

// The option has this archive, which shows it, goes through its one value, and is read back.
fn assert_option(rt: &impl Abort, alloc: Global, value: Option<u32>, archive: &[u8]) {
    assert_archived(rt, alloc, &value, archive);
    let view = viewed::<ArchivedOption<ArchivedU32>>(rt, archive);
    let mut items = view.iter();
    let shown = number_of(view.as_ref());
    let found = (shown, number_of(items.next()), number_of(items.next()));
    assert_same(rt, "the view", found, (value, value, None));
}

#[test]
fn options_and_their_archives(rt: HostRuntime) {
    assert_option(&rt, rt.alloc(), None, b"\0\0\0\0\0\0\0\0");
    assert_option(&rt, rt.alloc(), Some(42), b"\x01\0\0\0\x2a\0\0\0");
}

// An option of the text "hello world".
const SOME_TEXT: &[u8] = b"hello world\0\x01\0\0\0\x8b\0\0\0\xf0\xff\xff\xff";

// The option of the text or of none has this archive.
fn assert_text(rt: &impl Abort, alloc: Global, text: Option<String>, archive: &[u8]) {
    assert_archived(rt, alloc, &text, archive);
}

#[test]
fn a_value_that_owns_a_text_is_an_option(rt: HostRuntime) {
    let text = String::from_str(rt.alloc(), "hello world").expect(&rt, "memory");
    assert_text(&rt, rt.alloc(), Some(text), SOME_TEXT);
    assert_text(&rt, rt.alloc(), None, &[0; 12]);
}

#[test]
fn a_part_behind_a_tag_is_aligned(rt: HostRuntime) {
    let mut archive = [0; 48];
    archive[0] = 1;
    archive[16] = 1;
    archive[32] = 7;
    assert_written(&rt, rt.alloc(), &Some(Some(7u128)), &archive);
}

#[test]
fn what_stands_for_a_type_has_no_byte(rt: HostRuntime) {
    let nothing: PhantomData<u64> = PhantomData;
    assert_written(&rt, rt.alloc(), &nothing, b"");
    let _: PhantomData<u64> = value_of(&rt, rt.alloc(), b"");
}
