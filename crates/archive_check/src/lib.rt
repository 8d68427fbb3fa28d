//! What archived values look like, and what a check of bytes keeps and requires.
#![tactic(auto)]

pub mod context;
pub mod format;
pub mod laws;
pub mod self_check;
pub mod slots;
