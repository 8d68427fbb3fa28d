// Bytes made by hand, and what the schema of a text says of them: how many regions a check enters, or the first fault. And the layouts of types.

ghost use Rattle.std.specs.Prelude.{◌≢◌, Some};

use crate::assertions::{assert_same, form_of};
use crate::regions::{FLAGS, NODE, TREE_OF_PAIRS};
use archive_check::context::validator::HighValidator;
use archive_check::format::error::Error;
use archive_check::format::expr::{Defs, Expr};
use archive_check::format::layout::Layout;
use archive_schema::shape::Schema;
use std::alloc::Global;
use std::process::Abort;

// A schema, bytes, the position at which they are checked, and what is said of them.
pub(crate) type Row = (&'static str, &'static [u8], usize, &'static str);

// How many regions a check by a schema enters at a position, with a limit of depth.
fn entered(
    alloc: Global,
    schema: &Schema,
    bytes: &[u8],
    at: usize,
    levels: Option<usize>,
) -> Result<usize, Error>
    requires { levels ≢ Some 0 }
{
    let mut context = HighValidator::with_max_depth(alloc, bytes, levels);
    match schema.check(bytes, at, &mut context) {
        Ok(()) => Ok(context.subtrees()),
        Err(error) => Err(error),
    }
}

// That number, or the fault.
fn told(rt: &impl Abort, alloc: Global, answer: Result<usize, Error>) -> String {
    let told = match answer {
        Ok(regions) => format!(in alloc; "{regions}"),
        Err(error) => format!(in alloc; "{error}"),
    };
    told.expect(rt, "memory for a text")
}

fn assert_row(
    rt: &impl Abort,
    alloc: Global,
    text: &str,
    (bytes, at): (&[u8], usize),
    wanted: &str,
) {
    let form = form_of(rt, alloc, text);
    let answer = entered(alloc, form.schema(), bytes, at, None);
    let found = told(rt, alloc, answer);
    assert_same(rt, text, (bytes, found.as_str()), (bytes, wanted));
}

pub(crate) fn assert_rows(rt: &impl Abort, alloc: Global, rows: &[Row]) {
    for (text, bytes, at, wanted) in rows {
        assert_row(rt, alloc, text, (*bytes, *at), wanted);
    }
}

const LEAVES: [Row; 14] = [
    ("u32", b"\xff\xff\xff\xff", 0, "1"),
    (
        "u32",
        b"\xff\xff\xff\xff",
        4,
        "region of 4 bytes at position 4 lies outside 0..4",
    ),
    (
        "char",
        b"\xff\xff\xff\xff",
        0,
        "the number of a char is not a Unicode scalar value",
    ),
    ("bool", b"\x01", 0, "1"),
    ("bool", b"\x02", 0, "the byte of a bool is neither 0 nor 1"),
    ("String", b"hi\xff\xff\xff\xff\xff\xff", 0, "1"),
    (
        "String",
        b"h\xfe\xff\xff\xff\xff\xff\xff",
        0,
        "text is not valid UTF-8",
    ),
    ("BoxStr", b"hi\0\0\xfc\xff\xff\xff\x02\0\0\0", 4, "2"),
    (
        "BoxStr",
        b"h\xfe\0\0\xfc\xff\xff\xff\x02\0\0\0",
        4,
        "text is not valid UTF-8",
    ),
    ("Option<u32>", b"\0\xaa\xbb\xcc\x01\x02\x03\x04", 0, "1"),
    ("Option<u32>", b"\x01\xaa\xbb\xcc\x01\x02\x03\x04", 0, "1"),
    (
        "Option<u32>",
        b"\x02\xaa\xbb\xcc\x01\x02\x03\x04",
        0,
        "tag 2 names no variant of ArchivedOption",
    ),
    (
        "Option<u32>",
        b"\x02\0\0\0\x01\x02\x03\x04",
        0,
        "tag 2 names no variant of ArchivedOption",
    ),
    ("PhantomData<u64>", b"", 0, "1"),
];

#[test]
fn leaves_and_texts_are_looked_at(rt: HostRuntime) {
    assert_rows(&rt, rt.alloc(), &LEAVES);
}

// Lengths are counted without end, numbers may be any bytes, and each other part is looked at.
const PARTS: [Row; 29] = [
    ("Vec<u32>", b"\0\0\0\0\0\0\0\0", 0, "2"),
    (
        "Vec<u32>",
        b"\0\0\0\0\xff\xff\xff\xff",
        0,
        "region of 17179869180 bytes at position 0 lies outside 0..0",
    ),
    (
        "Vec<u32>",
        b"\0\0\0\x80\0\0\0\0",
        0,
        "region of 0 bytes at position -2147483648 lies outside 0..0",
    ),
    ("Vec<()>", b"\0\0\0\0\xff\xff\xff\xff", 0, "2"),
    (
        "Vec<[u64; 4294967296]>",
        b"\0\0\0\0\x01\0\0\0",
        0,
        "region of 34359738368 bytes at position 0 lies outside 0..0",
    ),
    (
        "Vec<[u64; 4294967296]>",
        b"\0\0\0\0\xff\xff\xff\xff",
        0,
        "a value takes more bytes than usize can count",
    ),
    (
        "[(u32, ()); 4]",
        b"\xff\xff\xff\xff\xff\xff\xff\xff\xf8\xff\xff\xff\x02\0\0\0",
        0,
        "1",
    ),
    (
        "Box<u32>",
        b"\xff\xff\xff\xff\xff\xff\xff\xff\xf8\xff\xff\xff\x02\0\0\0",
        8,
        "2",
    ),
    (
        "Vec<u32>",
        b"\xff\xff\xff\xff\xff\xff\xff\xff\xf8\xff\xff\xff\x02\0\0\0",
        8,
        "2",
    ),
    (
        "Vec<(u32, u32)>",
        b"\xff\xff\xff\xff\xff\xff\xff\xff\xf8\xff\xff\xff\x01\0\0\0",
        8,
        "2",
    ),
    (
        "Vec<(u32, u32)>",
        b"\xff\xff\xff\xff\xff\xff\xff\xff\xf8\xff\xff\xff\x02\0\0\0",
        8,
        "region of 16 bytes at position 0 lies outside 0..8",
    ),
    (
        "Vec<bool>",
        b"\x01\0\x02\0\xfc\xff\xff\xff\x02\0\0\0",
        4,
        "2",
    ),
    (
        "Vec<bool>",
        b"\x01\0\x02\0\xfc\xff\xff\xff\x03\0\0\0",
        4,
        "the byte of a bool is neither 0 nor 1",
    ),
    (
        "Vec<String>",
        b"hello world\0\x8b\0\0\0\xf4\xff\xff\xffhi\xff\xff\xff\xff\xff\xff\xf0\xff\xff\xff\x02\0\0\0",
        28,
        "3",
    ),
    (
        "Vec<String>",
        b"hello world\0\x8b\0\0\0\xf4\xff\xff\xffh\xfe\xff\xff\xff\xff\xff\xff\xf0\xff\xff\xff\x02\0\0\0",
        28,
        "text is not valid UTF-8",
    ),
    (
        "(bool, String, Vec<u32>)",
        b"\x01\0\0\0\x02\0\0\0\x01\0\0\0hi\xff\xff\xff\xff\xff\xff\xec\xff\xff\xff\x02\0\0\0",
        8,
        "2",
    ),
    (
        "(bool, String, Vec<u32>)",
        b"\x01\0\0\0\x02\0\0\0\x02\0\0\0hi\xff\xff\xff\xff\xff\xff\xec\xff\xff\xff\x02\0\0\0",
        8,
        "the byte of a bool is neither 0 nor 1",
    ),
    (
        "(bool, String, Vec<u32>)",
        b"\x01\0\0\0\x02\0\0\0\x01\0\0\0h\xfe\xff\xff\xff\xff\xff\xff\xec\xff\xff\xff\x02\0\0\0",
        8,
        "text is not valid UTF-8",
    ),
    (
        "(bool, String, Vec<u32>)",
        b"\x01\0\0\0\x02\0\0\0\x01\0\0\0hi\xff\xff\xff\xff\xff\xff\xec\xff\xff\xff\x03\0\0\0",
        8,
        "region of 12 bytes at position 0 lies outside 0..8",
    ),
    (
        "[String; 3]",
        b"a\xff\xff\xff\xff\xff\xff\xffb\xff\xff\xff\xff\xff\xff\xffc\xff\xff\xff\xff\xff\xff\xff",
        0,
        "1",
    ),
    (
        "[String; 3]",
        b"a\xff\xff\xff\xff\xff\xff\xffb\xff\xff\xff\xff\xff\xff\xff\xfe\xff\xff\xff\xff\xff\xff\xff",
        0,
        "text is not valid UTF-8",
    ),
    (
        "[String; 2]",
        b"hi\xff\xff\xff\xff\xff\xff\xff\xff\xff\xff\xff\xff\xff\xff",
        0,
        "1",
    ),
    (
        "Option<Vec<u32>>",
        b"\x01\0\0\0\x02\0\0\0\0\0\0\0\xf4\xff\xff\xff\x03\0\0\0",
        8,
        "1",
    ),
    (
        "Option<Vec<u32>>",
        b"\x01\0\0\0\x02\0\0\0\x01\0\0\0\xf4\xff\xff\xff\x02\0\0\0",
        8,
        "2",
    ),
    (
        "Option<Vec<u32>>",
        b"\x01\0\0\0\x02\0\0\0\x01\0\0\0\xf4\xff\xff\xff\x03\0\0\0",
        8,
        "region of 12 bytes at position 0 lies outside 0..8",
    ),
    (
        "Option<Vec<String>>",
        b"hi\xff\xff\xff\xff\xff\xff\x01\0\0\0\xf4\xff\xff\xff\x01\0\0\0",
        8,
        "2",
    ),
    (
        "Option<Vec<String>>",
        b"h\xfe\xff\xff\xff\xff\xff\xff\x01\0\0\0\xf4\xff\xff\xff\x01\0\0\0",
        8,
        "text is not valid UTF-8",
    ),
    (
        "(String, Vec<String>)",
        b"hi\xff\xff\xff\xff\xff\xffyo\xff\xff\xff\xff\xff\xff\xf0\xff\xff\xff\x01\0\0\0",
        8,
        "2",
    ),
    (
        "(String, Vec<String>)",
        b"h\xfe\xff\xff\xff\xff\xff\xffyo\xff\xff\xff\xff\xff\xff\xf0\xff\xff\xff\x01\0\0\0",
        8,
        "text is not valid UTF-8",
    ),
];

#[test]
fn each_part_is_looked_at(rt: HostRuntime) {
    assert_rows(&rt, rt.alloc(), &PARTS);
}

// An option of a box has two regions behind one another, and so takes three levels.
#[test]
fn a_limit_of_depth_counts_the_root(rt: HostRuntime) {
    let form = form_of(&rt, rt.alloc(), "Option<BoxSlice<u8>>");
    let bytes = b"Hello world\0\x01\0\0\0\xf0\xff\xff\xff\x0b\0\0\0";
    for levels in [1, 2, 3] {
        let answer = entered(rt.alloc(), form.schema(), bytes, 12, Some(levels));
        let wanted = if levels < 3 {
            Err(Error::ExceededMaximumSubtreeDepth)
        } else {
            Ok(2)
        };
        assert_same(&rt, "levels", (levels, answer), (levels, wanted));
    }
}

// 514 ones, with a two at a place.
fn ones(rt: &impl Abort, alloc: Global, place: usize) -> Vec<u8> {
    let mut bytes = vec![in alloc; 1u8; 514].expect(rt, "memory");
    if let Some(byte) = bytes.get_mut(place) {
        *byte = 2;
    }
    bytes
}

#[test]
fn one_of_many_bools_is_none(rt: HostRuntime) {
    for place in [0, 255, 256, 511, 512, 513] {
        let bytes = ones(&rt, rt.alloc(), place);
        let wanted = if place < 513 {
            "the byte of a bool is neither 0 nor 1"
        } else {
            "1"
        };
        assert_row(&rt, rt.alloc(), "[bool; 513]", (&bytes, 0), wanted);
    }
}

// A list of 200,000 nodes, the end first.
fn deep_list(rt: &impl Abort, alloc: Global) -> Vec<u8> {
    let mut bytes = Vec::new(alloc);
    bytes.extend_from_slice(&[0; 8]).expect(rt, "memory");
    for _ in 0..200_000 {
        let node = b"\x01\0\0\0\xf4\xff\xff\xff";
        bytes.extend_from_slice(node).expect(rt, "memory");
    }
    bytes
}

#[test]
fn deep_lists_take_no_stack(rt: HostRuntime) {
    let bytes = deep_list(&rt, rt.alloc());
    assert_row(&rt, rt.alloc(), NODE, (&bytes, 1_600_000), "200001");
}

// Types, and their sizes and alignments. 2 to the power of 61 numbers of eight bytes are more than a size can be.
const LAYOUTS: [(&str, &str); 32] = [
    ("Option<u32>", "8 4"),
    ("Option<BoxSlice<u8>>", "12 4"),
    ("Result<u8, u32>", "8 4"),
    ("(u8, u64, u8, String)", "32 8"),
    ("(u128, u8)", "32 16"),
    ("PhantomData<u8>", "0 1"),
    ("(bool, String, Vec<u32>)", "20 4"),
    ("(String, Vec<String>)", "16 4"),
    ("[(u32, ()); 3]", "12 4"),
    ("enum Node { End, More(Box<Node>) } Box<Node>", "4 4"),
    ("BoxSlice<u8>", "8 4"),
    ("BoxStr", "8 4"),
    ("Shared<u64>", "4 4"),
    ("SharedSlice<u64>", "8 4"),
    ("WeakShared<u64>", "4 4"),
    ("WeakShared<str>", "8 4"),
    ("Vec<u64>", "8 4"),
    ("BTreeMap<(), u64>", "8 4"),
    ("String", "8 4"),
    ("[u64; 4294967296]", "34359738368 8"),
    ("[u8; 18446744073709551615]", "18446744073709551615 1"),
    ("[[u64; 2305843009213693952]; 0]", "0 8"),
    ("[u64; 2305843009213693952]", TOO_LARGE),
    ("(u16, [u8; 18446744073709551615])", TOO_LARGE),
    (NODE, "8 4"),
    (FLAGS, "8 4"),
    (TREE_OF_PAIRS, "8 4"),
    ("struct Inner { inner: WeakShared<Inner> }", "4 4"),
    ("struct Long { value: u64, rest: Vec<Long> }", "16 8"),
    (
        "struct Long { value: u64, rest: Vec<Long> } (u8, Long)",
        "24 8",
    ),
    (
        "struct Long { value: u64, rest: Vec<Long> } [(u8, Long); 2]",
        "48 8",
    ),
    ("enum Node { End, More(Box<Node>) } [Node; 3]", "24 4"),
];

const TOO_LARGE: &str = "a value takes more bytes than usize can count";

// The size and the alignment of a schema's root, or why it has none.
fn layout_of(schema: &Schema) -> Option<Result<Layout, Error>> {
    let root = schema.root();
    if schema.defines(root) {
        Some(schema.layout(root))
    } else {
        None
    }
}

fn assert_layout(rt: &impl Abort, alloc: Global, text: &str, wanted: &str) {
    let form = form_of(rt, alloc, text);
    let found = match layout_of(form.schema()) {
        Some(Ok(Layout { size, align })) => format!(in alloc; "{size} {align}"),
        Some(Err(error)) => format!(in alloc; "{error}"),
        None => panic!(rt; "{text}: a name without a definition"),
    };
    let found = found.expect(rt, "memory for a text");
    assert_same(rt, text, found.as_str(), wanted);
}

#[test]
fn types_have_layouts(rt: HostRuntime) {
    for (text, wanted) in LAYOUTS {
        assert_layout(&rt, rt.alloc(), text, wanted);
    }
}

// Why there is no schema of a vector of a name, if there is none: the name is defined as an array of two of another one.
fn refusal_of(
    rt: &impl Abort,
    alloc: Global,
    name: &'static str,
    inner: &'static str,
) -> Option<Error> {
    let mut definitions = Defs::new(alloc);
    let inner = Box::new(alloc, Expr::Named(inner)).expect(rt, "memory");
    definitions
        .add(name, Expr::Array(2, inner))
        .expect(rt, "a definition");
    let root = Box::new(alloc, Expr::Named(name)).expect(rt, "memory");
    Schema::new(alloc, Expr::Vec(root), definitions.into_items()).err()
}

#[test]
fn a_name_is_defined_and_does_not_hold_itself(rt: HostRuntime) {
    let undefined = refusal_of(&rt, rt.alloc(), "Pair", "Unknown");
    assert_same(&rt, "undefined", undefined, Some(Error::ShapeConflict));
    let endless = refusal_of(&rt, rt.alloc(), "Itself", "Itself");
    assert_same(&rt, "endless", endless, Some(Error::RecursiveLayout));
}
