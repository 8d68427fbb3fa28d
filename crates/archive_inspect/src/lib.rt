//! See what is in an archive, and where it is broken: schemas in Rust's own way of writing types,
//! the way to the first fault, and what lies where.
#![tactic(auto)]

pub mod describe;
pub mod explain;
pub mod form;
pub mod route;
pub mod text;
pub mod walk;
mod ways;
