//! User-defined types: what the program and the benchmark archive.
#![tactic(auto)]

pub mod metres;
pub mod node;
pub mod test_record;
