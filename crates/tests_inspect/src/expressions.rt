// Expressions are compared as they are written, copied alike, and defined once.

use crate::assertions::{assert_same, form_of};
use archive_check::format::error::Error;
use archive_check::format::expr::{Defs, Expr, FlavorInfo, IntegerKind, Kind, Pointee};
use std::alloc::Global;
use std::fmt::Debug;
use std::process::Abort;

// Types of which no two are written alike.
const TYPES: [&str; 29] = [
    "()",
    "bool",
    "i32",
    "u32",
    "NonZero<i32>",
    "String",
    "struct A { inner: Vec<A> }",
    "struct B { inner: Vec<B> }",
    "PhantomData<u8>",
    "(i32,)",
    "(i32, String)",
    "(String, i32)",
    "enum A { X }",
    "enum B { X }",
    "enum A { X, Y }",
    "enum A { X(String) }",
    "[i32; 1]",
    "[i32; 2]",
    "[String; 2]",
    "Box<i32>",
    "BoxSlice<i32>",
    "BoxStr",
    "Vec<i32>",
    "BTreeMap<i32, i32>",
    "BTreeMap<u32, i32>",
    "BTreeMap<String, i32>",
    "BTreeMap<String, String>",
    "SharedStr",
    "WeakShared<str>",
];

// Whether two types have one expression.
fn are_alike(rt: &impl Abort, alloc: Global, one: &str, other: &str) -> bool {
    let one = form_of(rt, alloc, one);
    let other = form_of(rt, alloc, other);
    one.schema().root() == other.schema().root()
}

// A type has one expression with itself alone of these.
fn assert_compared(rt: &impl Abort, alloc: Global, one: &str, others: &[&str]) {
    for other in others {
        let alike = are_alike(rt, alloc, one, other);
        assert_same(rt, other, alike, one == *other);
    }
}

// The same of each of them.
fn assert_all_compared(rt: &impl Abort, alloc: Global, types: &[&str]) {
    for one in types {
        assert_compared(rt, alloc, one, types);
    }
}

#[test]
fn expressions_are_compared_as_written(rt: HostRuntime) {
    assert_all_compared(&rt, rt.alloc(), &TYPES);
}

// Shared pointers to a text, under flavors of which no two are alike.
const FLAVORS: [FlavorInfo; 3] = [
    FlavorInfo {
        name: "RcFlavor",
        cycles: false,
    },
    FlavorInfo {
        name: "RcFlavor",
        cycles: true,
    },
    FlavorInfo {
        name: "ArcFlavor",
        cycles: false,
    },
];

fn shared_text(rt: &impl Abort, alloc: Global, flavor: FlavorInfo) -> Expr {
    let text = Box::new(alloc, Pointee::Text).expect(rt, "memory for a box");
    Expr::Shared(flavor, text)
}

// Whether two values are equal. Both end here, so that the caller has no drop of them for the check.
fn are_equal<T: PartialEq + Drop>(one: T, other: T) -> bool {
    one == other
}

// Whether shared pointers under two flavors are equal.
fn are_shared_alike(rt: &impl Abort, alloc: Global, one: FlavorInfo, other: FlavorInfo) -> bool {
    are_equal(shared_text(rt, alloc, one), shared_text(rt, alloc, other))
}

// Shared pointers under a flavor are equal to those under it alone of these.
fn assert_flavor(rt: &impl Abort, alloc: Global, one: FlavorInfo, others: &[FlavorInfo]) {
    for other in others {
        let alike = are_shared_alike(rt, alloc, one, *other);
        assert_same(rt, one.name, alike, one == *other);
    }
}

#[test]
fn flavors_are_part_of_expressions(rt: HostRuntime) {
    for one in FLAVORS {
        assert_flavor(&rt, rt.alloc(), one, &FLAVORS);
    }
}

#[test]
fn an_offset_is_no_number(rt: HostRuntime) {
    let offset = Expr::Leaf(Kind::RawRel(IntegerKind::I32));
    let alike = are_equal(offset, Expr::Leaf(Kind::Number(IntegerKind::I32)));
    assert_same(&rt, "an offset and a number", alike, false);
}

// A record with a part of each form.
const EVERY_FORM: &str = "struct Node { inner: Vec<Node> }
(char, ((),), Option<i32>, [i32; 3], BoxStr, Vec<i32>, BTreeMap<String, i32>, String, Shared<i32>, WeakShared<[i32]>, Node)";

fn copied<T: Clone>(rt: &impl Abort, value: &T) -> T {
    value.clone().expect(rt, "memory for a copy")
}

// A copy of what a text writes, whose original is gone.
fn expression_of(rt: &impl Abort, alloc: Global, text: &str) -> Expr {
    let form = form_of(rt, alloc, text);
    copied(rt, form.schema().root())
}

fn assert_copied<T: Clone + PartialEq + Debug + Drop>(rt: &impl Abort, value: &T) {
    assert_same(rt, "a copy", &copied(rt, value), value);
}

// An expression is the one with every form.
fn assert_every_form(rt: &impl Abort, alloc: Global, expr: &Expr) {
    let form = form_of(rt, alloc, EVERY_FORM);
    assert_same(rt, "every form", expr, form.schema().root());
}

#[test]
fn copies_are_written_alike(rt: HostRuntime) {
    let copy = expression_of(&rt, rt.alloc(), EVERY_FORM);
    assert_every_form(&rt, rt.alloc(), &copy);
    assert_copied(&rt, &Pointee::Run(copy));
}

// Names that are defined in turn, as what, and whether the name had no definition; none where it had another one.
const DEFINED: [(&str, &str, Option<bool>); 7] = [
    ("A", EVERY_FORM, Some(true)),
    ("B", "String", Some(true)),
    ("A", EVERY_FORM, Some(false)),
    ("A", "String", None),
    ("A", EVERY_FORM, Some(false)),
    ("B", "struct A { inner: Vec<A> }", None),
    ("B", "String", Some(false)),
];

// Defines a name; it answers so.
fn assert_added(
    rt: &impl Abort,
    definitions: &mut Defs,
    name: &'static str,
    expr: Expr,
    answer: Option<bool>,
) {
    let found = definitions.add(name, expr);
    assert_same(rt, name, found, answer.ok_or(Error::ShapeConflict));
}

#[test]
fn a_name_is_defined_once(rt: HostRuntime) {
    let mut definitions = Defs::new(rt.alloc());
    for (name, text, answer) in DEFINED {
        let expr = expression_of(&rt, rt.alloc(), text);
        assert_added(&rt, &mut definitions, name, expr, answer);
    }
}
