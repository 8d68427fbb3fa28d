// Sorted maps.

mod archives;
mod comparisons;
mod lengths;
mod resolved;
mod views;
mod written;
