//! Writers of archives, and the keys of what is shared in them.
#![tactic(auto)]

pub mod known;
mod repeats;
pub mod ser;
pub mod sharing;
