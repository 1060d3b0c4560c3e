ghost use Rattle.std.specs.Prelude.{◌≡◌};
ghost use Rattle.replay.specs.declared.answer.Answer.TheVariants as answer;

use form::Refusal;
use rules::Breach;

/// What a call answers.
#[derive(Drop)]
pub enum Answer {
    /// the mark of the entry that was entered
    Mark(u16),
    Done,
    Refused(Refusal),
    /// refused with 109, and the number of breaches
    ListShort(usize),
    /// a report, with every breach
    Listed(Vec<Breach>),
    First(Option<Breach>),
    /// the place of the argument that was found
    Place(usize),
    /// the book is open and the call is one of a built book, or the other way round
    NotNow,
}

impl From<Refusal> for Answer {
    ghost from_gives = { λ e a. a ≡ answer.Refused e };

    fn from(refusal: Refusal) -> Answer {
        Answer::Refused(refusal)
    }
}
