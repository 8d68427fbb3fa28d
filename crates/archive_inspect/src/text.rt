//! Schema texts: types as Rust writes them, `struct Point { x: i32, y: i32 }  Vec<Point>`, the root
//! last.

mod building;
mod declarations;
mod known;
mod mistakes;
mod parser;
mod resolving;
mod tokens;

use crate::form::Form;
use declarations::declared_names;
use mistakes::Wrong;
pub use mistakes::{Mistake, SchemaError};
use parser::Parser;
use resolving::form_of;
use std::alloc::Global;
use tokens::tokens_of;

/// The form that a text writes: the definitions of structs and enums in any order, and then the
/// root; without one the last definition is the root. Attributes, comments, `pub` and lines of
/// `use` are skipped, and so are a byte order mark at the start and what `tools/derive` wrote.
/// Memory comes from `alloc`; the names of types, fields and variants are kept until the program
/// ends.
pub fn parse(alloc: Global, text: &str) -> Result<Form, SchemaError> {
    let text = text.strip_prefix('\u{feff}').unwrap_or(text);
    match read(alloc, text.as_bytes()) {
        Ok(form) => Ok(form),
        Err(wrong) => Err(wrong.located(text.as_bytes())),
    }
}

// The same, with a mistake told by its position.
fn read(alloc: Global, bytes: &[u8]) -> Result<Form, Wrong> {
    let tokens = tokens_of(alloc, bytes)?;
    let names = declared_names(alloc, bytes, &tokens)?;
    let mut parser = Parser::new(alloc, bytes, &tokens, &names);
    let declared = parser.declarations()?;
    let root = parser.root(&declared)?;
    form_of(alloc, declared, root)
}
