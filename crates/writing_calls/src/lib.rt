//! Calls that write bytes, and one that writers ask, which wrong bodies are tried on, in a crate of its own, since each crate with wrong bodies is proved once
//! more.
#![tactic(auto)]

pub mod calls;
