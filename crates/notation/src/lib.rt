//! How people write the small values: lines, ranges and numbers, as text.
#![tactic(auto)]

mod digits;
mod lines;
mod number;
mod range_text;
mod small;
mod words;

pub use digits::{digit_value, read_count, read_digits};
pub use lines::{Lines, split_line};
pub use number::read_number;
pub use range_text::read_range;
pub use small::{read_letter, read_u8, read_u16};
pub use words::{is_blank, next_word, without_comment};
