//! Finding an argument by one of its keys, in any keyed form.
#![tactic(auto)]

mod by_kind;
mod search;

pub use by_kind::{ByLetter, ByLong, ByPosition, KeyKind};
pub use search::find;
