ghost use Rattle.std.specs.Prelude.{◌≡◌};
ghost use Rattle.form.specs.Bounds.{bounds};
ghost use Rattle.calls.specs.Called.{range_of};

use super::records::{Item, Record};
use form::ValueRange;

/// A range as it is given; where its least is above its most, it is refused when it is made.
#[derive(Clone, Copy)]
pub struct Bounds {
    pub least: u64,
    pub most: u64,
}

impl From<ValueRange> for Bounds {
    ghost from_gives = { λ range given. range_of given ≡ bounds range };

    fn from(range: ValueRange) -> Bounds {
        Bounds {
            least: range.min_values(),
            most: range.max_values(),
        }
    }
}

/// What find seeks: a position, the code of a letter, or a long name.
#[derive(Clone, Copy)]
pub enum Sought<N> {
    Position(u16),
    Letter(u32),
    Long(N),
}

/// A call on a book, with its arguments; the ranges of its records are still to be made.
#[derive(Clone, Copy)]
pub enum Call<N> {
    Enter(Record<N, Bounds>),
    Alter(u16, Record<N, Bounds>),
    /// an enter or alter whose range was refused when it was made
    Unmade,
    Strike(u16),
    Attach(u16, u8, Item<N>),
    Set(u16),
    Build,
    Reopen,
    /// with the room of the list
    Report(usize),
    First,
    Find(Sought<N>),
}
