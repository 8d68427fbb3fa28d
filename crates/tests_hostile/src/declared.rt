// Declarations from which tools/derive writes types: as texts they have the schemas of those types.

use crate::assertions::assert_same;
use archive_core::shape::Schema;
use archive_core::traits::Portable;
use archive_inspect::explain::{Explanation, explain, explain_by};
use archive_inspect::form::Form;
use archive_inspect::text::parse;
use derived_types::entry::ArchivedEntry;
use derived_types::event::ArchivedEvent;
use derived_types::kinds::{ArchivedNumbers, ArchivedOwners};
use derived_types::track::ArchivedEither;
use recursive_types::expr::ArchivedExpr;
use std::alloc::Global;
use std::process::Abort;
use std::test::Fail;

// The text has the root and the definitions of the type.
fn assert_declared<T: Portable>(rt: &impl Abort, alloc: Global, text: &str) {
    let written = parse(alloc, text).expect(rt, "a schema");
    let derived = Form::of::<T>(alloc).expect(rt, "a form");
    assert_same_schema(rt, written.schema(), derived.schema());
}

// Both schemas have one root and the same definitions.
fn assert_same_schema(rt: &impl Abort, one: &Schema, other: &Schema) {
    assert!(rt; one.root() == other.root());
    assert_equal(rt, one.definitions(), other.definitions());
}

fn assert_equal<T: PartialEq>(rt: &impl Abort, found: &[T], wanted: &[T]) {
    assert!(rt; found == wanted);
}

const EVENT: &str = "/// What happens.
#[derive(Debug, PartialEq, Drop)]
pub enum Event {
    /// The end.
    Quit,
    /// A key.
    Key(char),
    /// A text.
    Text(String),
    /// A step.
    Move {
        /// To the right.
        x: i32,
        /// Up.
        y: i32,
    },
    /// Numbers.
    Batch(Vec<u32>),
}";

#[test]
fn an_enum(rt: HostRuntime) {
    assert_declared::<ArchivedEvent>(&rt, rt.alloc(), EVENT);
}

// The line of an explanation: empty where there is none.
fn line_of(rt: &impl Abort, alloc: Global, explanation: Option<Explanation>) -> String {
    match explanation {
        Some(explanation) => format!(in alloc; "{explanation}").expect(rt, "memory for a line"),
        None => String::new(alloc),
    }
}

#[test]
fn a_type_is_explained(rt: HostRuntime) -> Result<(), Fail> {
    let alloc = rt.alloc();
    let explanation = explain::<ArchivedEvent>(alloc, b"\x09\0\0\0\0\0\0\0\0\0\0\0")?;
    let line = line_of(&rt, alloc, explanation);
    let wanted = "at the root, byte 0: the tag is 9, and ArchivedEvent has 5 variants";
    assert_same(&rt, "a tag", line.as_str(), wanted);
    assert!(&rt; explain::<ArchivedEvent>(alloc, &[0; 12])?.is_none());
    Ok(())
}

// The text that tools/derive would write of an entry.
const ENTRY: &str =
    "enum Event { Quit, Key(char), Text(String), Move { x: i32, y: i32 }, Batch(Vec<u32>) }
struct Entry { seconds: u64, event: Event }";

// An entry whose event is a text out of line that lies nowhere.
const LOST_TEXT: &[u8] = b"\x0a\0\0\0\0\0\0\0\x02\0\0\0\x8b\0\0\0\xcc\xff\xff\xff\0\0\0\0";

#[test]
fn a_type_names_its_fields_and_variants(rt: HostRuntime) -> Result<(), Fail> {
    let alloc = rt.alloc();
    assert_declared::<ArchivedEntry>(&rt, alloc, ENTRY);
    let rows = [
        (
            ENTRY,
            "at .event.Text, byte 12: a text of 11 bytes at -40 doesn't lie within 0..0",
        ),
        (
            "u8",
            "at .1.#2, byte 12: a text of 11 bytes at -40 doesn't lie within 0..0",
        ),
        (
            "struct {",
            "at .1.#2, byte 12: a text of 11 bytes at -40 doesn't lie within 0..0",
        ),
    ];
    for (text, wanted) in rows {
        let explanation = explain_by::<ArchivedEntry>(alloc, text, LOST_TEXT)?;
        let line = line_of(&rt, alloc, explanation);
        assert_same(&rt, text, line.as_str(), wanted);
    }
    Ok(())
}

#[test]
fn structs_of_every_kind(rt: HostRuntime) {
    let numbers =
        "struct Numbers { some: NonZero<u32>, size: usize, distance: isize, wide: i128, so: bool, nothing: () }";
    assert_declared::<ArchivedNumbers>(&rt, rt.alloc(), numbers);
    let owners =
        "struct Owners { outcome: Result<u8, String>, numbers: BoxSlice<u16>, text: BoxStr, both: (u8, String), of: PhantomData<u64> }";
    assert_declared::<ArchivedOwners>(&rt, rt.alloc(), owners);
}

const EITHER: &str = "pub struct Spot { pub right: u16, pub up: i16 }
pub struct Line { pub from: Spot, pub to: Spot }
pub enum Either { Alone(u8), Together { lines: SharedSlice<Line>, text: SharedStr, weak: WeakShared<Line> } }";

#[test]
fn an_enum_that_shares(rt: HostRuntime) {
    assert_declared::<ArchivedEither>(&rt, rt.alloc(), EITHER);
}

#[test]
fn a_recursive_enum(rt: HostRuntime) {
    let text = "pub enum Expr { Num(i64), Add(Box<Expr>, Box<Expr>), Call(String, Vec<Expr>) }";
    assert_declared::<ArchivedExpr>(&rt, rt.alloc(), text);
}
