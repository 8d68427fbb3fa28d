//! What the driver of the benchmark calls. `archive_bench_` and the name of a set checks, reads back or writes (`run`): a set's archives are checked or read
//! back, or its value is written, `count` times, on an argument that changes from round to round. With a `count` of 0 a call makes what the rounds need and
//! does nothing more. Exports whose names begin with `archive_bench_compare_`, `archive_bench_get_`, `archive_bench_view_` or `archive_bench_seal_` do
//! something else with a set. The driver finds those that are there, and shows a dash for the others. A call returns a number that depends on each result: a
//! write the sum of `probe` over its rounds, which the driver compares with archives made by hand.
#![tactic(auto)]

mod checks;
pub mod comparisons;
mod derived;
pub mod exports;
pub mod lookups;
mod nested;
mod reads;
mod records;
mod rounds;
mod run;
pub mod seals;
mod sets;
mod values;
pub mod views;
mod writes;
