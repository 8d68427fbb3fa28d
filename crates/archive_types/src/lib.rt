//! What archives hold: how values are written, looked at where they lie, compared, and read back.
#![tactic(auto)]

pub mod array;
pub mod boxed;
pub mod choice;
pub mod compare;
mod fields;
pub mod map;
pub mod option;
mod owner_pointers;
pub mod parts;
mod phantom;
pub mod place;
pub mod primitive;
pub mod rc;
pub mod record;
pub mod rel_ptr;
pub mod result;
pub mod ser;
pub mod sharing;
pub mod slice;
pub mod string;
pub mod traits;
pub mod tuples;
mod variants;
pub mod vec;
pub mod view;
