//! The calls of a book: what each is given, what it answers, the marked form after it, and the law over a whole run of calls.
#![tactic(auto)]

mod call;
mod laws;
mod lent;
mod records;

pub use call::{Bounds, Call, Sought};
pub use laws::{exact_law, stable_law};
pub use records::{ArgRecord, Item, Record, SubcommandRecord};
