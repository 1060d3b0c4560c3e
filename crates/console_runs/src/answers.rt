use super::calls_of::calls_of;
use super::reader::CallLine;
use super::unsaid::Unsaid;
use console::{say_plain_breach, say_plain_report};
use replay::{Answer, Layers, replay_under};
use std::alloc::Global;
use std::fmt;
use std::fmt::Write;

/// An answer in plain notation.
pub(crate) fn say_answer<W: Write>(out: &mut W, answer: &Answer) -> fmt::Result {
    match answer {
        Answer::Mark(mark) => writeln!(out, "mark {mark}"),
        Answer::Done => writeln!(out, "ok"),
        Answer::Refused(refusal) => writeln!(out, "refused {}", refusal.number()),
        Answer::ListShort(needed) => writeln!(out, "refused 109 needs {needed}"),
        Answer::Listed(breaches) => say_plain_report(out, breaches.as_slice()),
        Answer::First(Some(breach)) => say_plain_breach(out, breach),
        Answer::First(None) => writeln!(out, "none"),
        Answer::Place(place) => writeln!(out, "place {place}"),
        Answer::NotNow => writeln!(out, "not now"),
    }
}

/// Runs the calls on a new book and says their answers in plain notation, one after another.
pub fn say_answers<W: Write>(
    heap: Global,
    out: &mut W,
    layers: Layers,
    lines: &[CallLine<'_>],
) -> Result<(), Unsaid> {
    let calls = calls_of(heap, lines)?;
    let answers = replay_under(heap, layers, calls.as_slice())?;
    for answer in answers.as_slice() {
        say_answer(out, answer)?;
    }
    Ok(())
}
