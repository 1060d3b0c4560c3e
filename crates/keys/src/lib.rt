//! The keys of a form, worked out from its arguments, for sources that do not store them.
#![tactic(auto)]

mod walk;

pub use walk::{count_keys, key_at};
