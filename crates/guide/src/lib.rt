//! The programs of docs/GUIDE.md, each a test. Their declarations are those of derived_types and
//! recursive_types, as if they were files of this crate.
#![tactic(auto)]

pub use derived_types::{entry, event, spot, track};
pub use recursive_types::tree;

#[cfg(test)]
mod contracts;
#[cfg(test)]
mod editing;
#[cfg(test)]
mod entries;
#[cfg(test)]
mod faults;
#[cfg(test)]
mod keeping;
#[cfg(test)]
mod prices;
#[cfg(test)]
mod sharing;
#[cfg(test)]
mod trees;
#[cfg(test)]
mod words;
