//! Recursive types as a user declares them, with what tools/derive writes for them. The tests are in tests_recursive.
#![tactic(auto)]

pub mod dir;
pub mod expr;
pub mod list;
pub mod search;
pub mod stmt;
pub mod tree;
