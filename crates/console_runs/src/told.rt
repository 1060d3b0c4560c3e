use super::changes::say_changes;
use super::reader::CallLine;
use super::unsaid::Unsaid;
use super::words::refusal_words;
use book::BuiltBook;
use console::{Style, Text, say_breach, say_report};
use form::{FormSource, Keyed};
use layers::StandardFlags;
use replay::{Answer, HeldBook, Layers};
use rules::Breach;
use std::alloc::Global;
use std::collections::BTreeSet;
use std::fmt;
use std::fmt::Write;

// an answer that needs no form to be told
fn say_short<W: Write>(out: &mut W, answer: &Answer) -> fmt::Result {
    match answer {
        Answer::Mark(mark) => writeln!(out, "  entered, with mark {mark}"),
        Answer::Done => writeln!(out, "  done"),
        Answer::Refused(refusal) => {
            let number = refusal.number();
            let reason = refusal_words(*refusal);
            writeln!(out, "  refused ({number}): {reason}; nothing was changed")
        }
        Answer::ListShort(needed) => writeln!(
            out,
            "  refused (109): the list is too short; it needs room for {needed}"
        ),
        Answer::Place(place) => writeln!(out, "  found: the argument at place {place}"),
        Answer::NotNow => writeln!(
            out,
            "  not now: an open book takes enter, alter, strike, attach, set and build, a built one report, first, find and reopen"
        ),
        Answer::First(None) => writeln!(out, "  no breach"),
        Answer::First(Some(_)) | Answer::Listed(_) => Ok(()),
    }
}

// an answer that tells breaches, in the words of the form that was asked
fn say_breaches<F: FormSource, W: Write>(out: &mut W, form: &F, answer: &Answer) -> fmt::Result {
    match answer {
        Answer::First(Some(breach)) => say_breach(out, form, breach),
        Answer::Listed(breaches) => {
            write!(out, "  ")?;
            say_report(out, form, breaches.as_slice(), Style::Words)
        }
        _ => Ok(()),
    }
}

// As where the book is asked, each number of layers is a type of its own, and a trait would be no plainer than the match.
fn say_under<W: Write>(
    out: &mut W,
    layers: Layers,
    book: &BuiltBook,
    answer: &Answer,
) -> fmt::Result {
    match layers {
        Layers::None => say_breaches(out, book, answer),
        Layers::One => say_breaches(out, &StandardFlags::new(book), answer),
        Layers::Two => say_breaches(out, &StandardFlags::new(StandardFlags::new(book)), answer),
        Layers::Three => {
            let two = StandardFlags::new(StandardFlags::new(book));
            say_breaches(out, &StandardFlags::new(two), answer)
        }
    }
}

/// Runs the calls on a new book, and says in words what each did.
pub fn say_run<W: Write>(
    heap: Global,
    out: &mut W,
    layers: Layers,
    lines: &[CallLine<'_>],
) -> Result<(), Unsaid> {
    let mut held = HeldBook::new(heap)?;
    let mut last: BTreeSet<String> = BTreeSet::new(heap);
    for line in lines {
        let (next, answer) = held.call(heap, layers, line.line.lent());
        held = next;
        let answer = answer?;
        let number = line.spot.number;
        writeln!(out, "line {number}: {}", Text::new(line.spot.text))?;
        say_short(out, &answer)?;
        if let HeldBook::Built(book) = &held {
            say_under(out, layers, book, &answer)?;
            if let Answer::Listed(breaches) = &answer {
                last = say_changes(heap, out, book, breaches.as_slice(), last)?;
            }
        }
    }
    Ok(())
}
