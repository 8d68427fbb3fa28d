//! Tests of the libraries that whole archives stand on, through their public calls.
#![tactic(auto)]

#[cfg(test)]
mod assertions;
#[cfg(test)]
mod check;
#[cfg(test)]
mod enums;
#[cfg(test)]
mod num;
#[cfg(test)]
mod write;
