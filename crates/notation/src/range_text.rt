ghost use Rattle.std.specs.Prelude.{◌≡◌, ◌+◌, ◌≤◌, length, IfSome};
ghost use Rattle.form.specs.Bounds.{bounded};
ghost use Rattle.std.specs.Option.{option_map};
ghost use Rattle.notation.specs.RangeTexts.{range_written, dots, start_of, end_of, ranged};

use super::number::read_number;
use form::{RangeFault, ValueRange};
use std::ops::Bound;

/// The range that a text writes in Rust's notation, or why it is refused; none if the text is no range.
// An option around the result: no range at all is not one more fault of a range, and callers answer the two differently.
pub fn read_range(text: &[u8]) -> Option<Result<ValueRange, RangeFault>>
    ensures { option_map bounded result ≡ range_written text.now }
{
    let Some(at) = find_dots(text) else {
        return read_number(text).map(|n| Ok(ValueRange::from(n)));
    };
    let start = read_start(&text[..at])?;
    let end = read_end(&text[at + 2..])?;
    Some(make_range(start, end))
}

// the place of the first two dots in a row
fn find_dots(text: &[u8]) -> Option<usize>
    ensures value { result ≡ dots text.now }
    ensures within { IfSome result (λ i. i + 2 ≤ length text.now) }
{
    text.windows(2)
        .position(|pair| matches!(pair, [b'.', b'.']))
}

// the inner none is a start that is left out, the outer one a text that is no number
fn read_start(text: &[u8]) -> Option<Option<u64>>
    ensures { result ≡ start_of text.now }
{
    match text {
        [] => Some(None),
        number => read_number(number).map(Some),
    }
}

fn read_end(text: &[u8]) -> Option<Bound<u64>>
    ensures { result ≡ end_of text.now }
{
    match text {
        [] => Some(Bound::Unbounded),
        [b'=', last @ ..] => read_number(last).map(Bound::Included),
        end => read_number(end).map(Bound::Excluded),
    }
}

fn make_range(start: Option<u64>, end: Bound<u64>) -> Result<ValueRange, RangeFault>
    ensures { bounded result ≡ ranged start end }
{
    match (start, end) {
        (Some(a), Bound::Unbounded) => Ok(ValueRange::from(a..)),
        (Some(a), Bound::Excluded(b)) => ValueRange::try_from(a..b),
        (Some(a), Bound::Included(b)) => ValueRange::try_from(a..=b),
        (None, Bound::Unbounded) => Ok(ValueRange::from(..)),
        (None, Bound::Excluded(b)) => Ok(ValueRange::from(..b)),
        (None, Bound::Included(b)) => Ok(ValueRange::from(..=b)),
    }
}
