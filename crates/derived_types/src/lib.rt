//! Types as a user declares them, with fields of every kind, and what tools/derive writes for them. The tests are in tests_derived and tests_kinds.
#![tactic(auto)]

pub mod entry;
pub mod event;
pub mod kinds;
pub mod pair;
pub mod spot;
pub mod stock;
pub mod track;
