//! Schemas: what archived types look like, compiled once, and the check of bytes against that.
#![tactic(auto)]

mod check;
mod plan;
pub mod shape;
