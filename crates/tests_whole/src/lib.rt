//! Tests of whole archives, of edits in place, and of shared pointers, pools and contexts, through public calls.
#![tactic(auto)]

#[cfg(test)]
mod archive;
#[cfg(test)]
mod assertions;
#[cfg(test)]
mod seals;
#[cfg(test)]
mod threads;
