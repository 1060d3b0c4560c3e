//! What the rules look at in one argument.
#![tactic(auto)]

mod args;

pub use args::{
    counted, equals_with_many, has_flag, index_or_0, index_with_flag, index_without_value,
    index_zero, is_dashed, is_many, is_multiple, is_open, is_positional, is_version, last_mark,
    last_with_letter, last_with_long, position, positional_last, positional_without_index,
    range_unset, required_global, takes_none, too_many_values,
};
