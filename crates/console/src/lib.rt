//! What the desk says: each command as a function from its input to the text that it prints.
// What is said of a breach depends on the form and on the style, which a `Display` is not given: these functions write.
// Words for kinds, lists and rules stand here, in the layer that speaks, and are no `Display` of the types below.
#![tactic(auto)]

mod breaches;
mod ranges;
mod style;
mod text;
mod tour;
mod words;

pub use breaches::{say_breach, say_plain_breach, say_plain_report, say_report};
pub use ranges::{Tally, say_ranges};
pub use style::Style;
pub use text::Text;
pub use tour::say_tour;
pub use words::{kind_letter, kind_word, list_word};
