//! Scripts: calls on a book as people write them, one a line.
#![tactic(auto)]

mod fault;
mod fields;
mod line;
mod read;
mod spelling;
mod words;

pub use fault::{Fault, FaultKind};
pub use line::Line;
pub use read::read_line;
pub use spelling::{Spelled, read_name};
