//! The public calls on a form's breaches: all of them in a list, or the first.
#![tactic(auto)]

mod calls;
mod short;

pub use calls::{first, report, report_all};
pub use short::ListShort;
