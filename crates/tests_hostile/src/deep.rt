// Lists, trees and shared positions that collide, of types that are texts: hostile bytes, and chains with limits of depth around theirs.

ghost use Rattle.std.specs.Prelude.{◌<◌};

use crate::agreement::assert_hostile_form;
use crate::assertions::{BySchema, assert_answer, assert_same};
use crate::rows::{assert_form_rows, outside};
use archive_core::api::HighValidator;
use archive_core::error::Error;
use archive_core::shape::Schema;
use archive_inspect::form::Form;
use archive_inspect::text::parse;
use std::alloc::{AllocError, Global};
use std::process::Abort;

const LIST: &str = "enum List { Nil, Cons(u32, Box<List>) }";

const TREE: &str = "struct Tree { value: u32, children: Vec<Tree> }";

// The end of a list at 0, and at 12, 24 and 36 its nodes: a tag, the number four bytes behind it, and the offset of the box.
const THREE: &[u8] =
    b"\0\0\0\0\0\0\0\0\0\0\0\0\x01\0\0\0\x03\0\0\0\xec\xff\xff\xff\x01\0\0\0\x02\0\0\0\xec\xff\xff\xff\x01\0\0\0\x01\0\0\0\xec\xff\xff\xff";

// The tree below 3 at 0, with no child; those below 1 at 12 and 24; and 1 at 36. A vector is an offset and a length.
const FOUR: &[u8] =
    b"\x04\0\0\0\xfc\xff\xff\xff\0\0\0\0\x02\0\0\0\xf0\xff\xff\xff\0\0\0\0\x03\0\0\0\xe4\xff\xff\xff\x01\0\0\0\x01\0\0\0\xe4\xff\xff\xff\x02\0\0\0";

fn form_of(rt: &impl Abort, alloc: Global, text: &str) -> Form {
    parse(alloc, text).expect(rt, "a schema")
}

#[test]
fn hostile_lists(rt: HostRuntime) {
    let form = form_of(&rt, rt.alloc(), LIST);
    assert_hostile_form(&rt, rt.alloc(), &form, ("three numbers", THREE));
}

#[test]
fn hostile_trees(rt: HostRuntime) {
    let form = form_of(&rt, rt.alloc(), TREE);
    assert_hostile_form(&rt, rt.alloc(), &form, ("four trees", FOUR));
}

// Two ends at 0 and 12, and at 24 two lists of a number each: what both lead to rises, is one place, or falls.
#[test]
fn two_lists_lie_at_two_places(rt: HostRuntime) {
    let text = "enum List { Nil, Cons(u32, Box<List>) } (List, List)";
    let form = form_of(&rt, rt.alloc(), text);
    let rising =
        b"\0\0\0\0\0\0\0\0\0\0\0\0\0\0\0\0\0\0\0\0\0\0\0\0\x01\0\0\0\x01\0\0\0\xe0\xff\xff\xff\x01\0\0\0\x02\0\0\0\xe0\xff\xff\xff";
    let twice =
        b"\0\0\0\0\0\0\0\0\0\0\0\0\0\0\0\0\0\0\0\0\0\0\0\0\x01\0\0\0\x01\0\0\0\xe0\xff\xff\xff\x01\0\0\0\x02\0\0\0\xd4\xff\xff\xff";
    let falling =
        b"\0\0\0\0\0\0\0\0\0\0\0\0\0\0\0\0\0\0\0\0\0\0\0\0\x01\0\0\0\x01\0\0\0\xec\xff\xff\xff\x01\0\0\0\x02\0\0\0\xd4\xff\xff\xff";
    assert_form_rows(
        &rt,
        rt.alloc(),
        &form,
        &[
            (rising, None),
            (twice, outside(0, 12, 12, 24)),
            (falling, outside(0, 12, 24, 24)),
        ],
    );
}

// The list of so many numbers.
fn chain(rt: &impl Abort, alloc: Global, count: usize) -> Vec<u8> {
    let mut bytes = vec![in alloc; 0u8; 12].expect(rt, "memory for the end");
    for _ in 0..count {
        let node = b"\x01\0\0\0\x07\0\0\0\xec\xff\xff\xff";
        bytes
            .extend_from_slice(node)
            .expect(rt, "memory for a node");
    }
    bytes
}

// How many regions a check of a list enters, with a limit of depth.
fn regions(alloc: Global, schema: &Schema, bytes: &[u8], levels: usize) -> Result<usize, Error>
    requires { 0 < levels }
{
    let mut context = HighValidator::with_max_depth(alloc, bytes, Some(levels));
    schema.check(bytes, bytes.len().saturating_sub(12), &mut context)?;
    Ok(context.subtrees())
}

fn assert_regions(
    rt: &impl Abort,
    alloc: Global,
    bytes: &[u8],
    levels: usize,
    wanted: Result<usize, Error>,
)
    requires { 0 < levels }
{
    let form = form_of(rt, alloc, LIST);
    let found = regions(alloc, form.schema(), bytes, levels);
    assert_same(rt, "regions", found, wanted);
}

// A list has a region more than numbers, and takes a level more than regions.
#[test]
fn limits_of_depth_of_short_and_of_long_lists(rt: HostRuntime) {
    let alloc = rt.alloc();
    let too_deep = Err(Error::ExceededMaximumSubtreeDepth);
    let short = chain(&rt, alloc, 3);
    assert_regions(&rt, alloc, &short, 4, too_deep);
    assert_regions(&rt, alloc, &short, 5, Ok(4));
    let long = chain(&rt, alloc, 100_000);
    assert_regions(&rt, alloc, &long, 100_001, too_deep);
    assert_regions(&rt, alloc, &long, 100_002, Ok(100_001));
}

// A list of pointers in turns to so many texts of one byte, three to each; the last says that its
// text has so many. The texts are 610 bytes apart, and multiples of 610 share the slots in which a check remembers positions.
fn pointers(alloc: Global, texts: u8, last: u32) -> Result<Vec<u8>, AllocError> {
    let mut bytes = Vec::new(alloc);
    bytes.resize(10_372, 0)?;
    let mut at = 10_372u32;
    for turn in 0..3 {
        for text in 0..texts {
            let is_last = turn == 2 && text + 1 == texts;
            let offset = (610 * u32::from(text)).wrapping_sub(at);
            let length = if is_last { last } else { 1 };
            bytes.extend_from_slice(&offset.to_le_bytes())?;
            bytes.extend_from_slice(&length.to_le_bytes())?;
            at = at.wrapping_add(8);
        }
    }
    let offset = 10_372u32.wrapping_sub(at);
    bytes.extend_from_slice(&offset.to_le_bytes())?;
    bytes.extend_from_slice(&(3 * u32::from(texts)).to_le_bytes())?;
    Ok(bytes)
}

// What is said of such pointers, of which the last says this length.
fn assert_pointers(
    rt: &impl Abort,
    alloc: Global,
    form: &Form,
    texts: u8,
    last: u32,
    answer: Option<Error>,
) {
    let bytes = pointers(alloc, texts, last).expect(rt, "memory");
    assert_answer::<BySchema>(rt, "texts", alloc, form, &bytes, answer);
}

// Pointers to so many texts are accepted, and refused if the last of them says another length.
#[test]
fn shared_positions_that_collide_are_told_apart(rt: HostRuntime) {
    let form = form_of(&rt, rt.alloc(), "Vec<SharedStr>");
    for texts in [1, 2, 10, 17] {
        assert_pointers(&rt, rt.alloc(), &form, texts, 1, None);
        let mismatch = Some(Error::MetadataMismatch);
        assert_pointers(&rt, rt.alloc(), &form, texts, 2, mismatch);
    }
}
