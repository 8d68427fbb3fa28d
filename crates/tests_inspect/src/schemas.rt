// Schemas as texts, and archives of them.

pub(crate) const EVENTS: &str =
    "enum Event { Quit, Key(char), Text(String), Move { x: i32, y: i32 }, Batch(Vec<u32>) } Vec<Event>";

pub(crate) const TRACKS: &str = "struct Track { line: Shared<Line>, other: Option<Box<Line>> }
struct Line { from: Spot, to: Spot }
struct Spot { right: u16, up: i16 }
Vec<Track>";

pub(crate) const RUNS: &str = "struct Spot { right: u16, up: i16 }
struct Line { from: Spot, to: Spot }
struct Runs { lines: SharedSlice<Line>, text: SharedStr, weak: WeakShared<Line> }";

pub(crate) const ENTRIES: &str =
    "enum Event { Quit, Key(char), Text(String), Move { x: i32, y: i32 }, Batch(Vec<u32>) }
struct Entry { seconds: u64, event: Event }
Vec<Entry>";

pub(crate) const TREE: &str = "struct Tree { value: u32, children: Vec<Tree> }";

pub(crate) const LIST: &str = "enum List { Nil, Cons(u32, Box<List>) }";

// A text and a zero, two numbers, and at 20 three events: the text, the numbers, and the char A. At
// 56 the vector that points back at them.
pub(crate) const THREE_EVENTS: &[u8] =
    b"hello world\0\x01\0\0\0\x02\0\0\0\x02\0\0\0\x8b\0\0\0\xe8\xff\xff\xff\x04\0\0\0\xe8\xff\xff\xff\x02\0\0\0\x01\0\0\0A\0\0\0\0\0\0\0\xdc\xff\xff\xff\x03\0\0\0";

// A text and zeros, and at 16 two entries: a step, and the text. At 64 the vector of both.
pub(crate) const TWO_ENTRIES: &[u8] =
    b"hello world\0\0\0\0\0\x09\0\0\0\0\0\0\0\x03\0\0\0\xfe\xff\xff\xff\x07\0\0\0\0\0\0\0\x0a\0\0\0\0\0\0\0\x02\0\0\0\x8b\0\0\0\xcc\xff\xff\xff\0\0\0\0\xd0\xff\xff\xff\x02\0\0\0";

// Two lines, and at 16 and at 28 two tracks with pointers to the first one, the second also with a
// box of the second line. At 40 the vector of both.
pub(crate) const TWO_TRACKS: &[u8] =
    b"\x01\0\xfe\xff\x03\0\x04\0\x05\0\x06\0\x07\0\x08\0\xf0\xff\xff\xff\0\0\0\0\0\0\0\0\xe4\xff\xff\xff\x01\0\0\0\xe4\xff\xff\xff\xe8\xff\xff\xff\x02\0\0\0";

// A line, a text and a zero, and a line; and at 20 a shared slice of the first one, the shared
// text, and a weak pointer to the second one.
pub(crate) const THREE_RUNS: &[u8] =
    b"\x05\0\x06\0\x07\0\x08\0h\xc3\xa9\0\x01\0\xfe\xff\x03\0\x04\0\xec\xff\xff\xff\x01\0\0\0\xec\xff\xff\xff\x03\0\0\0\xe8\xff\xff\xff";

// Two entries, 1 to 10 and 2 to 20, and at 16 the map of both.
pub(crate) const TWO_IN_A_MAP: &[u8] =
    b"\x01\0\0\0\x0a\0\0\0\x02\0\0\0\x14\0\0\0\xf0\xff\xff\xff\x02\0\0\0";

// A tree of 5, and at 12 one of 6 that has it as its child.
pub(crate) const TWO_TREES: &[u8] =
    b"\x05\0\0\0\xfc\xff\xff\xff\0\0\0\0\x06\0\0\0\xf0\xff\xff\xff\x01\0\0\0";

// An empty list, and at 12 a list of 7.
pub(crate) const ONE_IN_A_LIST: &[u8] =
    b"\0\0\0\0\0\0\0\0\0\0\0\0\x01\0\0\0\x07\0\0\0\xec\xff\xff\xff";
