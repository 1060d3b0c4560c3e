ghost use Rattle.std.specs.Prelude.{◌≡◌};
ghost use Rattle.calls.specs.Runs.{mark_or, done_or, open_answer, open_after};
ghost use Rattle.calls.specs.Called.{enter_call, alter_call, called};
ghost use Rattle.book.specs.Books.{open_marked};
ghost use Rattle.replay.specs.Said.{said_or, changed_answer};

use super::answer::Answer;
use super::ranged::make;
use book::OpenBook;
use calls::{Bounds, Call, Record};
use form::Refusal;

fn enter(book: &mut OpenBook, entry: Record<&[u8], Bounds>) -> Result<u16, Refusal>
    ensures answer { mark_or result ≡ open_answer (open_marked book.old) (enter_call entry.entry) }
    ensures after { open_marked book.new ≡ open_after (open_marked book.old) (enter_call entry.entry) }
{
    book.enter(make(entry)?)
}

fn alter(book: &mut OpenBook, mark: u16, entry: Record<&[u8], Bounds>) -> Result<(), Refusal>
    ensures answer { done_or result ≡ open_answer (open_marked book.old) (alter_call mark entry.entry) }
    ensures after { open_marked book.new ≡ open_after (open_marked book.old) (alter_call mark entry.entry) }
{
    book.alter(mark, make(entry)?)
}

/// What an open book answers to a call other than build.
pub(crate) fn change(book: &mut OpenBook, call: Call<&[u8]>) -> Result<Answer, Refusal>
    ensures answer { said_or result ≡ changed_answer (open_marked book.old) (called call.entry) }
    ensures after { open_marked book.new ≡ open_after (open_marked book.old) (called call.entry) }
{
    match call {
        Call::Enter(record) => return Ok(Answer::Mark(enter(book, record)?)),
        Call::Alter(mark, record) => alter(book, mark, record)?,
        Call::Unmade => return Err(Refusal::RangeOrder),
        Call::Strike(mark) => book.strike(mark)?,
        Call::Attach(mark, list, item) => book.attach(mark, list, item)?,
        Call::Set(settings) => book.set(settings),
        _ => return Ok(Answer::NotNow),
    }
    Ok(Answer::Done)
}
