//! Tests of schemas, of `archive_inspect`, and of what the program `inspect` prints.
#![tactic(auto)]

#[cfg(test)]
mod assertions;
#[cfg(test)]
mod checks;
#[cfg(test)]
mod commands;
#[cfg(test)]
mod expressions;
#[cfg(test)]
mod mistakes;
#[cfg(test)]
mod places;
#[cfg(test)]
mod regions;
#[cfg(test)]
mod schemas;
#[cfg(test)]
mod ways;
