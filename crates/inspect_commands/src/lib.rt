//! What the program `inspect` prints of an archive.
#![tactic(auto)]

pub mod json;
pub mod map;
pub mod options;
pub mod refused;
pub mod report;
pub mod summary;
pub mod tree;
