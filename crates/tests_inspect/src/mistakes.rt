// Texts that are no schema, and what is told of them.

use crate::assertions::{assert_same, form_of};
use archive_inspect::text::parse;
use std::alloc::{AllocError, Global};
use std::test::Fail;

// What is told of a text: nothing of a schema.
fn told(alloc: Global, text: &str) -> Result<String, AllocError> {
    match parse(alloc, text) {
        Ok(_) => Ok(String::new(alloc)),
        Err(error) => format!(in alloc; "{error}"),
    }
}

// In each row a text, and what is told of it.
const ROWS: [(&str, &str); 28] = [
    ("", "line 1, column 1: expected a type"),
    ("u33", "line 1, column 1: unknown type `u33`"),
    ("Vec<u8", "line 1, column 7: expected `,` or `>`"),
    (
        "Vec<Vec<u8>>,",
        "line 1, column 13: expected the end of the text",
    ),
    (
        "(u8, u16",
        "line 1, column 9: expected `,` or the end of the list",
    ),
    ("[u8; x]", "line 1, column 6: expected a number of elements"),
    (
        "[u8; 99999999999999999999]",
        "line 1, column 6: the number is too large",
    ),
    (
        "[u8]",
        "line 1, column 1: `str` and slices must be behind a pointer, as in `Box<str>`",
    ),
    (
        "str",
        "line 1, column 1: `str` and slices must be behind a pointer, as in `Box<str>`",
    ),
    (
        "Option<str>",
        "line 1, column 1: `str` and slices must be behind a pointer, as in `Box<str>`",
    ),
    ("Option<u8 u8>", "line 1, column 11: expected `,` or `>`"),
    (
        "Result<u8>",
        "line 1, column 1: expected two arguments between `<` and `>`",
    ),
    ("f32", "line 1, column 1: unknown type `f32`"),
    ("&str", "line 1, column 1: unexpected character"),
    (
        "struct A<T> { a: T } u8",
        "line 1, column 9: generic types aren't supported: define one for each use",
    ),
    ("struct A { a u8 }", "line 1, column 14: expected `:`"),
    (
        "struct A { a: u8 b: u8 }",
        "line 1, column 18: expected `,` or `}`",
    ),
    (
        "struct A { a: u8, }\n\nstruct A;\nA",
        "line 3, column 8: a type of this name is defined above",
    ),
    (
        "struct A { a: B }\nA",
        "line 1, column 15: unknown type `B`",
    ),
    (
        "enum E {}",
        "line 1, column 6: an enum must have 1 to 256 variants",
    ),
    ("enum E { A B }", "line 1, column 12: expected `,` or `}`"),
    (
        "enum \u{e9} { A }",
        "line 1, column 6: unexpected character",
    ),
    (
        "struct A { b: B }\nstruct B { a: A }\nVec<A>",
        "line 1, column 8: the type contains itself without a `Box` or `Vec` between",
    ),
    (
        "// \u{e9}\u{e9}\n/* \u{e9} */ struct A { a: Optio<u8> }",
        "line 2, column 23: unknown type `Optio`",
    ),
    (
        "struct A {\n    a: u8,\n    b: u8,\n    pub a: u16,\n}",
        "line 4, column 9: a field of this name comes before",
    ),
    (
        "enum E { A, B { x: u8, x: u8 } }",
        "line 1, column 24: a field of this name comes before",
    ),
    (
        "enum E { A, B(u8), A }",
        "line 1, column 20: a variant of this name comes before",
    ),
    (
        "\u{feff}u8 u16",
        "line 1, column 4: expected the end of the text",
    ),
];

#[test]
fn mistakes_are_told_with_line_and_column(rt: HostRuntime) -> Result<(), Fail> {
    for (text, wanted) in ROWS {
        let found = told(rt.alloc(), text)?;
        assert_same(&rt, text, found.as_str(), wanted);
    }
    Ok(())
}

// A text so many times, between others.
fn repeated(
    alloc: Global,
    first: &str,
    text: &str,
    last: &str,
    count: usize,
) -> Result<String, AllocError> {
    let mut whole = String::from_str(alloc, first)?;
    for _ in 0..count {
        whole.push_str(text)?;
    }
    whole.push_str(last)?;
    Ok(whole)
}

#[test]
fn deep_and_large_types_are_told(rt: HostRuntime) -> Result<(), Fail> {
    let alloc = rt.alloc();
    let deep = repeated(alloc, "", "Vec<", "u8", 1000)?;
    let found = told(alloc, deep.as_str())?;
    let wanted = "line 1, column 401: types are nested more than 100 deep";
    assert_same(&rt, "a thousand vectors", found.as_str(), wanted);
    let many = repeated(alloc, "struct A(", "u8, ", ");", 2000)?;
    assert_same(
        &rt,
        "a long struct",
        told(alloc, many.as_str())?.as_str(),
        "",
    );
    Ok(())
}

#[test]
fn a_declaration_is_read_as_it_stands(rt: HostRuntime) {
    let text =
        "//! Events.\n\nuse crate::spot::Spot;\n\n/// What happens.\n#[derive(Debug, PartialEq, Drop)]\npub enum Event {\n    /// The end.\n    Quit,\n    Key(char),\n}\n\n// Below this line all is written by tools/derive: change what is above it, and run it again.\n\nimpl &!?\n";
    let form = form_of(&rt, rt.alloc(), text);
    let same = form_of(&rt, rt.alloc(), "enum Event { Quit, Key(char) }");
    assert!(&rt; form.schema().root() == same.schema().root());
    let marked = form_of(&rt, rt.alloc(), "\u{feff}enum Event { Quit, Key(char) }");
    assert!(&rt; marked.schema().root() == same.schema().root());
}
