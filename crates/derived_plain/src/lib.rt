//! Types that hold none of another crate's, of many and of deep fields among them, as a user declares them, with what tools/derive writes for them. The tests
//! are in tests_derived.
#![tactic(auto)]

pub mod crop;
pub mod depot;
pub mod notice;
pub mod outcome;
pub mod parcel;
pub mod point;
pub mod press;
pub mod ranked;
pub mod shipment;
