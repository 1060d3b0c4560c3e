ghost use Rattle.std.specs.Prelude.{◌≡◌, true, IfOk, OnErr};
ghost use Rattle.form.specs.Keys.{keys_of};
ghost use Rattle.rules.specs.Report.{breaches};
ghost use Rattle.calls.specs.Runs.{find_answer, listed_or};
ghost use Rattle.calls.specs.Called.{sought, called};
ghost use Rattle.replay.specs.Said.{said, placed_or, asked_answer, asks_report};

use super::answer::Answer;
use calls::{Call, Sought};
use find::{ByLetter, ByLong, ByPosition, find};
use form::{FormSource, Keyed, Refusal, letter};
use report::{first, report_all};
use std::alloc::{AllocError, Global};

// the place of the argument that has the key
fn seek<K: Keyed>(form: &K, key: Sought<&[u8]>) -> Result<usize, Refusal>
    ensures { placed_or result ≡ find_answer (sought key.entry) (keys_of (K.FormSource.form form.now)) }
{
    match key {
        Sought::Position(position) => find::<K, ByPosition>(form, position),
        Sought::Letter(code) => {
            // a letter that is no scalar value is no key's
            let letter = letter(code).map_err(|_| Refusal::NoSuchKey)?;
            find::<K, ByLetter>(form, letter)
        }
        Sought::Long(name) => find::<K, ByLong<'_>>(form, name),
    }
}

fn ask_report<F: FormSource>(heap: Global, form: &F, room: usize) -> Result<Answer, AllocError>
    ensures { IfOk result (λ a. said a ≡ listed_or room (breaches (F.FormSource.form form.now))) }
{
    let list = report_all(heap, form)?;
    let needed = list.len();
    if room < needed {
        return Ok(Answer::ListShort(needed));
    }
    Ok(Answer::Listed(list))
}

/// What a built book, or a form over it, answers to a call other than reopen; it fails only for want of memory for a report.
pub(crate) fn ask<K: Keyed>(heap: Global, form: &K, call: Call<&[u8]>) -> Result<Answer, AllocError>
    ensures answer { IfOk result (λ a. said a ≡ asked_answer (K.FormSource.form form.now) (called call.entry)) }
    ensures memory { OnErr result (asks_report (called call.entry) ≡ true) }
{
    match call {
        Call::Report(room) => ask_report(heap, form, room),
        Call::First => Ok(Answer::First(first(form))),
        Call::Find(key) => Ok(seek(form, key).map_or_else(Answer::from, Answer::Place)),
        _ => Ok(Answer::NotNow),
    }
}
