// Records and variants with a name, written over zeros by the number of their fields.
// Written by tools/fields: change that, and run it again.

mod resolve_named_case;
mod resolve_named_record;

pub use resolve_named_case::{
    resolve_named_case_0, resolve_named_case_1, resolve_named_case_2, resolve_named_case_3,
    resolve_named_case_4, resolve_named_case_5, resolve_named_case_6, resolve_named_case_7,
};
pub use resolve_named_record::{
    resolve_named_record_0, resolve_named_record_1, resolve_named_record_2, resolve_named_record_3,
    resolve_named_record_4, resolve_named_record_5, resolve_named_record_6, resolve_named_record_7,
};
