//! What the impls of recursive types call, which `tools/derive` writes: such a type calls its own
//! functions for the values that it holds, and these for all else.

mod before;
mod chain;
mod expressions;
mod fields;
mod hollow;
mod inner;
mod maps;
mod naming;
mod part_of;
mod pooled;
mod sharing;
mod views;

pub use before::{before_box, before_vec};
pub use chain::{
    Chain, ChainBack, ChainCheck, ChainParts, ChainSource, ChainVariants, Head, ReadHead, Rest,
    WrittenHead, read_chain, serialize_chain,
};
pub use expressions::{
    array_expression, boxed_expression, define_choice, define_record, expression_of,
    first_expression, first_variant, map_expression, named_expression, no_expressions, no_variants,
    option_expression, record_expression, run_expression, shared_expression, shared_run_expression,
    vec_expression, weak_expression,
};
pub use fields::{
    resolve_named_case_0, resolve_named_case_1, resolve_named_case_2, resolve_named_case_3,
    resolve_named_case_4, resolve_named_case_5, resolve_named_case_6, resolve_named_case_7,
    resolve_named_record_0, resolve_named_record_1, resolve_named_record_2, resolve_named_record_3,
    resolve_named_record_4, resolve_named_record_5, resolve_named_record_6, resolve_named_record_7,
};
pub use hollow::{BoxAt, OptionAt, VecAt};
pub use inner::{handed_on, serialize_inner, serialize_inner_slice, serialize_part, serialize_run};
pub use maps::{MapAt, before_map, collect_map, serialize_inner_map};
pub use naming::{choice_of, define_name};
pub use part_of::{part_of_record, part_of_variant, read_part, tag_of_choice};
pub use pooled::{begin_reading, finish_reading, part_behind};
pub use sharing::{begin_shared, begin_shared_slice, finish_shared, finish_shared_slice};
pub use views::{seal_of_field, seal_of_payload, tag_of_view, view_of_field, view_of_payload};
