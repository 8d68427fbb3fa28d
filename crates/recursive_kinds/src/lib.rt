//! Recursive types whose values lie in boxes of a vector, in boxed and shared slices, and behind shared pointers, as graphs, as a user declares them, with what
//! tools/derive writes for them. The tests are in tests_recursive.
#![tactic(auto)]

pub mod bag;
pub mod bush;
pub mod graph;
pub mod knot;
pub mod road;
pub mod rule;
