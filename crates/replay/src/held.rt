ghost use Rattle.std.specs.Prelude.{◌≡◌, true, IfOk, OnErr};
ghost use Rattle.calls.specs.Marked.{form_of};
ghost use Rattle.calls.specs.Runs.{start, open_answer, built_answer, answer, after};
ghost use Rattle.book.specs.Books.{open_marked, built_marked};
ghost use Rattle.calls.specs.Called.{called};
ghost use Rattle.replay.specs.Said.{said, asks_report};
ghost use Rattle.replay.specs.Under.{under};
ghost use Rattle.replay.specs.Worlds.{open_world, built_world, world};

use super::answer::Answer;
use super::book_held::HeldBook;
use super::change::change;
use super::under::{Layers, ask_under};
use book::{BuiltBook, OpenBook};
use calls::Call;
use std::alloc::{AllocError, Global};

// an open book after a call
fn call_open(mut book: OpenBook, call: Call<&[u8]>) -> (HeldBook, Answer)
    ensures answer { said result.1 ≡ open_answer (open_marked book) (called call.entry) }
    ensures after { world result.0 ≡ after (open_world book) (called call.entry) }
{
    if let Call::Build = call {
        return (HeldBook::Built(book.build()), Answer::Done);
    }
    let answer = change(&mut book, call).unwrap_or_else(Answer::from);
    (HeldBook::Open(book), answer)
}

// a built book after a call
fn call_built(
    heap: Global,
    layers: Layers,
    book: BuiltBook,
    call: Call<&[u8]>,
) -> (HeldBook, Result<Answer, AllocError>)
    ensures answer { IfOk result.1 (λ a. said a ≡ built_answer (under layers (form_of (built_marked book))) (called call.entry)) }
    ensures after { world result.0 ≡ after (built_world book) (called call.entry) }
    ensures memory { OnErr result.1 (asks_report (called call.entry) ≡ true) }
{
    if let Call::Reopen = call {
        return (HeldBook::Open(book.reopen()), Ok(Answer::Done));
    }
    let answer = ask_under(heap, layers, &book, call);
    (HeldBook::Built(book), answer)
}

impl HeldBook {
    /// A new book, open and empty.
    pub fn new(heap: Global) -> Result<HeldBook, AllocError>
        ensures { IfOk result (λ b. world b ≡ start) }
    {
        Ok(HeldBook::Open(OpenBook::new(heap)?))
    }

    /// The book after a call, and the answer; report, first and find ask it under the layers.
    /// Only a report can fail for want of memory, and the book is then as it was.
    pub fn call(
        self,
        heap: Global,
        layers: Layers,
        call: Call<&[u8]>,
    ) -> (HeldBook, Result<Answer, AllocError>)
        ensures answer { IfOk result.1 (λ a. said a ≡ answer (under layers) (world self) (called call.entry)) }
        ensures after { world result.0 ≡ after (world self) (called call.entry) }
        ensures built { OnErr result.1 ((world self).built ≡ true) }
        ensures memory { OnErr result.1 (asks_report (called call.entry) ≡ true) }
    {
        match self {
            HeldBook::Open(book) => {
                let (held, answer) = call_open(book, call);
                (held, Ok(answer))
            }
            HeldBook::Built(book) => call_built(heap, layers, book, call),
        }
    }
}
