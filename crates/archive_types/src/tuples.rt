//! Tuples of values, archived as `ArchivedTuple1` and so on: their parts one after another. As in
//! rkyv 0.8.18.

mod eight;
mod eleven;
mod five;
mod four;
mod nine;
mod parts;
mod reading;
mod seven;
mod six;
mod sources;
mod ten;
mod thirteen;
mod twelve;
mod unsized_sources;

pub use parts::{
    Part0, Part1, Part2, Part3, Part4, Part5, Part6, Part7, Part8, Part9, Part10, Part11, Part12,
};
