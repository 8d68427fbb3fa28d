//! Calls of the library, and derived types, that wrong bodies are tried on, in a crate of their own, since each crate with wrong bodies is proved once more.
#![tactic(auto)]

pub mod calls;
pub mod turns;
