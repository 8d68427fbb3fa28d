//! What the program `arc` does: values that it writes as archives, and archives that it checks.
#![tactic(auto)]

pub mod all_values;
pub mod command;
pub mod formats;
pub mod shared;

pub use command::run;
