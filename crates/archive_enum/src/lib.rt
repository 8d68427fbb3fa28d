//! Options and results, as archives hold them: a byte that names the variant, and the variant's
//! value behind it. They behave as Rust's `Option` and `Result`, and contracts say so by the option
//! or result that each stands for. The names are those of rkyv 0.8.18.
#![tactic(auto)]

mod compare;
mod formats;
mod iter;
pub mod option;
pub mod result;
