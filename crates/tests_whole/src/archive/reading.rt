// Checks, views and what is read back.

ghost use Rattle.std.specs.Prelude.{◌<◌, IfOk};
ghost use Rattle.tests_whole.specs.Wholes.{DenotesNumber};

use crate::archive::HELLO_WORLD;
use crate::assertions::{assert_refusal, assert_same, text, viewed};
use archive_core::api::{
    HighValidator, access, access_pos_with_context, access_with_context, check_pos_with_context,
    deserialize, deserialize_using, from_bytes,
};
use archive_core::error::Error;
use archive_core::primitive::ArchivedU32;
use archive_core::string::ArchivedString;
use archive_core::view::Ref;
use std::alloc::Global;
use std::process::Abort;

// Why the string isn't accepted with so many levels, if it isn't.
fn refusal_within(alloc: Global, levels: usize) -> Option<Error>
    requires { 0 < levels }
{
    let mut context = HighValidator::with_max_depth(alloc, HELLO_WORLD, Some(levels));
    check_pos_with_context::<ArchivedString, HighValidator<'_>>(
        alloc,
        HELLO_WORLD,
        12,
        &mut context,
    ).err()
}

// Where the string at the end is, with three levels.
fn root_within_three(alloc: Global) -> Option<usize> {
    let mut context = HighValidator::with_max_depth(alloc, HELLO_WORLD, Some(3));
    let view = access_with_context::<ArchivedString, HighValidator<'_>>(
        alloc,
        HELLO_WORLD,
        &mut context,
    );
    match view {
        Ok(view) => Some(view.pos()),
        Err(_) => None,
    }
}

// Where that at 12 is, with no limit.
fn root_within_any(alloc: Global) -> Option<usize> {
    let mut context = HighValidator::with_max_depth(alloc, HELLO_WORLD, None);
    let view = access_pos_with_context::<ArchivedString, HighValidator<'_>>(
        alloc,
        HELLO_WORLD,
        12,
        &mut context,
    );
    match view {
        Ok(view) => Some(view.pos()),
        Err(_) => None,
    }
}

#[test]
fn a_context_limits_the_depth(rt: HostRuntime) {
    let too_deep = Some(Error::ExceededMaximumSubtreeDepth);
    assert_same(&rt, "one level", refusal_within(rt.alloc(), 1), too_deep);
    assert_same(&rt, "two levels", refusal_within(rt.alloc(), 2), too_deep);
    assert_same(&rt, "three levels", refusal_within(rt.alloc(), 3), None);
    let roots = (root_within_three(rt.alloc()), root_within_any(rt.alloc()));
    assert_same(&rt, "three and any", roots, (Some(12), Some(12)));
}

#[test]
fn a_view_is_read_back(rt: HostRuntime) {
    let view = viewed::<ArchivedString>(&rt, rt.alloc(), b"12345678");
    let copied = view.clone().expect(&rt, "a copy");
    let again: Ref<'_, ArchivedString> = Ref::at(copied.part());
    let value: String = deserialize(rt.alloc(), again, &mut ()).expect(&rt, "a text");
    assert_same(&rt, "at first", value.as_str(), "12345678");
    let value: String = deserialize_using(rt.alloc(), view, &mut ()).expect(&rt, "a text");
    assert_same(&rt, "again", value.as_str(), "12345678");
}

#[test]
fn a_text_is_read_back_or_refused(rt: HostRuntime) {
    let value: String = from_bytes(rt.alloc(), HELLO_WORLD, &mut ()).expect(&rt, "a text");
    let hello = text(&rt, rt.alloc(), "hello world");
    assert_same(&rt, "the text", &value, &hello);
    let wrong = b"\xc0\x80\xff\xff\xff\xff\xff\xff";
    let refused: Result<String, Error> = from_bytes(rt.alloc(), wrong, &mut ());
    assert_refusal(&rt, "no text", refused, Error::InvalidUtf8);
}

// The number that an archive denotes, by the contracts of `access` and `get` alone.
fn read_root(alloc: Global, bytes: &[u8]) -> Result<u32, Error>
    ensures { IfOk result (DenotesNumber bytes.now) }
{
    let view = access::<ArchivedU32>(alloc, bytes)?;
    Ok(view.get())
}

#[test]
fn a_view_shows_what_is_denoted(rt: HostRuntime) {
    let number = read_root(rt.alloc(), b"\x2a\0\0\0").expect(&rt, "a number");
    assert_same(&rt, "the number", number, 42);
}
