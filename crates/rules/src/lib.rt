//! What a breach is: the rules, what each tells, the order of a report, and the theorems about them.
#![tactic(auto)]

mod breach;
mod laws;
mod meaning;
mod rule;

pub use breach::{Breach, Entry};
pub use laws::{moved_law, one_list, report_lists};
pub use meaning::empty_means_tidy;
pub use rule::Rule;
