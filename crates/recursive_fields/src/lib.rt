//! Recursive types with fields of many kinds, also with tuples and maps that lead back to them, and types that hold recursive ones, as a user declares them, with what
//! tools/derive writes for them. The tests are in tests_recursive.
#![tactic(auto)]

pub mod folder;
pub mod json;
pub mod note;
pub mod page;
