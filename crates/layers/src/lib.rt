//! Layers: keyed forms that lie over a keyed form.
#![tactic(auto)]

mod flag;
mod standard_flags;

pub use standard_flags::{StandardFlags, pile_key_count};
