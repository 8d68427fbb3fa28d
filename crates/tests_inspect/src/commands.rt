// What the program prints.

use crate::assertions::{assert_same, form_of};
use crate::schemas::{
    ENTRIES, EVENTS, LIST, ONE_IN_A_LIST, RUNS, THREE_EVENTS, THREE_RUNS, TRACKS, TREE,
    TWO_ENTRIES, TWO_IN_A_MAP, TWO_TRACKS, TWO_TREES,
};
use inspect_commands::options::{Options, Shown};
use inspect_commands::report::report;
use std::alloc::Global;
use std::process::Abort;
use std::test::Fail;

// Options that leave out nothing.
fn options(shown: Shown) -> Options<'static> {
    Options {
        schema: "",
        file: "",
        hex: false,
        shown,
        depth: 100,
        elements: 100,
    }
}

// What is printed of an archive, with its status.
fn assert_printed(
    rt: &impl Abort,
    alloc: Global,
    given: &Options<'_>,
    archive: (&str, &[u8]),
    wanted: (u8, &str),
) -> Result<(), Fail> {
    let form = form_of(rt, alloc, archive.0);
    let mut out = Vec::new(alloc);
    let status = report(alloc, &mut out, given, &form, archive.1)?;
    let text = str::from_utf8(&out).unwrap_or("no text");
    assert_same(rt, archive.0, text, wanted.1);
    assert_same(rt, archive.0, status, wanted.0);
    Ok(())
}

#[test]
fn trees(rt: HostRuntime) -> Result<(), Fail> {
    let given = options(Shown::Tree);
    assert_printed(
        &rt,
        rt.alloc(),
        &given,
        (ENTRIES, TWO_ENTRIES),
        (
            0,
            "      64  2 elements at 16
      16    [0]: Entry
      16      seconds: 9
      24      event: Event::Move
      28        x: -2
      32        y: 7
      40    [1]: Entry
      40      seconds: 10
      48      event: Event::Text
      52        \"hello world\" at 0
",
        ),
    )?;
    assert_printed(
        &rt,
        rt.alloc(),
        &given,
        (TRACKS, TWO_TRACKS),
        (
            0,
            "      40  2 elements at 16
      16    [0]: Track
      16      line: shared at 0
       0        *: Line
       0          from: Spot
       0            right: 1
       2            up: -2
       4          to: Spot
       4            right: 3
       6            up: 4
      20      other: None
      28    [1]: Track
      28      line: shared, at 0 as above
      32      other: Some
      36        box at 8
       8          *: Line
       8            from: Spot
       8              right: 5
      10              up: 6
      12            to: Spot
      12              right: 7
      14              up: 8
",
        ),
    )
}

#[test]
fn trees_are_cut(rt: HostRuntime) -> Result<(), Fail> {
    let mut given = options(Shown::Tree);
    given.elements = 1;
    given.depth = 1;
    let wanted = "      56  3 elements at 20
      20    [0]: Event::Text ..
            .. 2 more
";
    assert_printed(&rt, rt.alloc(), &given, (EVENTS, THREE_EVENTS), (0, wanted))
}

#[test]
fn json(rt: HostRuntime) -> Result<(), Fail> {
    let given = options(Shown::Json);
    assert_printed(
        &rt,
        rt.alloc(),
        &given,
        (TREE, TWO_TREES),
        (
            0,
            "{
  \"children\": [
    {
      \"children\": [],
      \"value\": 5
    }
  ],
  \"value\": 6
}
",
        ),
    )?;
    assert_printed(
        &rt,
        rt.alloc(),
        &given,
        (LIST, ONE_IN_A_LIST),
        (
            0,
            "{
  \"Cons\": [
    7,
    \"Nil\"
  ]
}
",
        ),
    )?;
    let mut cut = given;
    cut.depth = 3;
    assert_printed(
        &rt,
        rt.alloc(),
        &cut,
        (ENTRIES, TWO_ENTRIES),
        (
            0,
            "[
  {
    \"event\": {
      \"Move\": {
        \"x\": -2,
        \"y\": 7
      }
    },
    \"seconds\": 9
  },
  {
    \"event\": {
      \"Text\": \"hello world\"
    },
    \"seconds\": 10
  }
]
",
        ),
    )
}

#[test]
fn maps(rt: HostRuntime) -> Result<(), Fail> {
    let given = options(Shown::Map);
    assert_printed(
        &rt,
        rt.alloc(),
        &given,
        (RUNS, THREE_RUNS),
        (
            0,
            "       0..2         5  .lines[0].from.right
       2..4         6  .lines[0].from.up
       4..6         7  .lines[0].to.right
       6..8         8  .lines[0].to.up
       8..11        \"h\u{e9}\"  .text
      11..12        unused
      12..14        1  .weak.*.from.right
      14..16        -2  .weak.*.from.up
      16..18        3  .weak.*.to.right
      18..20        4  .weak.*.to.up
      20..28        pointer to 1 element at 0  .lines
      28..36        pointer to 3 bytes at 8  .text
      36..40        pointer to 12  .weak
",
        ),
    )
}

#[test]
fn summaries(rt: HostRuntime) -> Result<(), Fail> {
    let given = options(Shown::Summary);
    assert_printed(
        &rt,
        rt.alloc(),
        &given,
        (TRACKS, TWO_TRACKS),
        (
            0,
            "bytes:    48
regions:  4, nested at most 3 deep
shared:   1, pointed to 1 more times
numbers:  16 bytes
tags:     2 bytes
texts:    0 bytes
pointers: 20 bytes
unused:   10 bytes
",
        ),
    )
}

// What is printed of bytes that are no three events.
fn assert_refused(rt: &impl Abort, alloc: Global, bytes: &[u8], wanted: &str) -> Result<(), Fail> {
    assert_printed(
        rt,
        alloc,
        &options(Shown::Tree),
        (EVENTS, bytes),
        (1, wanted),
    )
}

#[test]
fn refused_bytes(rt: HostRuntime) -> Result<(), Fail> {
    let mut bytes = THREE_EVENTS.to_vec(rt.alloc())?;
    if let Some(byte) = bytes.get_mut(32) {
        *byte = 9;
    }
    let wanted = "refused: 24 InvalidDiscriminant
at [1], byte 32: the tag is 9, and Event has 5 variants
      24  8b 00 00 00 e8 ff ff ff 09 00 00 00 e8 ff ff ff
                                  ^^
";
    assert_refused(&rt, rt.alloc(), &bytes, wanted)?;
    let wanted = "refused: 16 InvalidSubtreePointer
at the root, byte 0: the root's 8 bytes at 0 don't lie within 0..0
";
    assert_refused(&rt, rt.alloc(), b"", wanted)?;
    let wanted = "refused: 16 InvalidSubtreePointer
at the root, byte 4: 3 elements of 12 bytes at -32 don't lie within 0..4
       0  00 00 00 00 dc ff ff ff 03 00 00 00
                      ^^ ^^ ^^ ^^ ^^ ^^ ^^ ^^
";
    let end = THREE_EVENTS.get(52..).unwrap_or(&[]);
    assert_refused(&rt, rt.alloc(), end, wanted)
}

#[test]
fn maps_of_entries(rt: HostRuntime) -> Result<(), Fail> {
    let archive = ("BTreeMap<u32, u32>", TWO_IN_A_MAP);
    let wanted = "      16  map of 2 elements at 0
       0    key 0: 1
       4    value 0: 10
       8    key 1: 2
      12    value 1: 20
";
    assert_printed(&rt, rt.alloc(), &options(Shown::Tree), archive, (0, wanted))?;
    let wanted = "{
  \"1\": 10,
  \"2\": 20
}
";
    assert_printed(&rt, rt.alloc(), &options(Shown::Json), archive, (0, wanted))
}
