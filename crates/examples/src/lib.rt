//! Examples that are proved, and examples that are run.
#![tactic(auto)]

mod all;
mod books;
mod forms;
mod layered;
mod small;
mod states;

pub use all::examples;
pub use books::book_examples;
pub use forms::form_examples;
pub use layered::report_under_flags;
pub use small::small_types;
pub use states::enter_then_find;
