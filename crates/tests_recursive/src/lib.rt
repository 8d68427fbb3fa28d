//! Tests of recursive types and of those of own_types, through public calls, and of what the program `arc` prints.
#![tactic(auto)]

#[cfg(test)]
mod assertions;
#[cfg(test)]
mod bags;
#[cfg(test)]
mod bytes;
#[cfg(test)]
mod commands;
#[cfg(test)]
mod damaged;
#[cfg(test)]
mod graphs;
#[cfg(test)]
mod holders;
#[cfg(test)]
mod kinds;
#[cfg(test)]
mod lengths;
#[cfg(test)]
mod long;
#[cfg(test)]
mod maps;
#[cfg(test)]
mod nodes;
#[cfg(test)]
mod notes;
#[cfg(test)]
mod readme;
#[cfg(test)]
mod records;
#[cfg(test)]
mod regions;
#[cfg(test)]
mod statements;
#[cfg(test)]
mod sums;
