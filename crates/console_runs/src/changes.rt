use super::unsaid::Unsaid;
use book::BuiltBook;
use console::kind_word;
use rules::{Breach, Entry};
use std::alloc::{AllocError, Global};
use std::collections::BTreeSet;
use std::fmt;
use std::fmt::Write;

// an entry by its mark; the standard flags, which stand behind the entries of the book, have none
#[derive(Clone, Copy)]
struct Marked<'a> {
    book: &'a BuiltBook,
    entry: Option<Entry>,
}

impl fmt::Display for Marked<'_> {
    fn fmt<W: Write>(&self, f: &mut fmt::Formatter<W>) -> fmt::Result {
        let Some(entry) = self.entry else {
            return Ok(());
        };
        match self.book.mark(entry.kind, entry.place) {
            Some(mark) => write!(f, " {} of mark {mark}", kind_word(entry.kind)),
            None => write!(f, " standard flag at place {}", entry.place),
        }
    }
}

// a breach by the marks of its entries: this is what two reports are compared by
fn breach_text(heap: Global, book: &BuiltBook, breach: &Breach) -> Result<String, AllocError> {
    let rule = breach.rule.number();
    let first = Marked {
        book,
        entry: breach.first,
    };
    let second = Marked {
        book,
        entry: breach.second,
    };
    let list = breach.list.map_or(0, |list| list.number());
    let item = breach.item;
    let other = breach.other;
    format!(in heap; "rule {rule}:{first}{second}, list {list}, items {item} and {other}")
}

fn texts_of(
    heap: Global,
    book: &BuiltBook,
    breaches: &[Breach],
) -> Result<BTreeSet<String>, Unsaid> {
    // not `try_collect`: an entry of the set is made and put in with a `?` of each
    let mut texts = BTreeSet::new(heap);
    for breach in breaches {
        let _ = texts.insert(breach_text(heap, book, breach)?)?;
    }
    Ok(texts)
}

// what one report has and the other lacks
fn say_missing<W: Write>(
    out: &mut W,
    word: &str,
    some: &BTreeSet<String>,
    others: &BTreeSet<String>,
) -> Result<(), Unsaid> {
    for text in some.difference(others) {
        writeln!(out, "    {word}: {text}")?;
    }
    Ok(())
}

/// Says what came and what went since the last report, and hands back what this one has.
pub(crate) fn say_changes<W: Write>(
    heap: Global,
    out: &mut W,
    book: &BuiltBook,
    breaches: &[Breach],
    last: BTreeSet<String>,
) -> Result<BTreeSet<String>, Unsaid> {
    let now = texts_of(heap, book, breaches)?;
    if now == last {
        writeln!(out, "  nothing came or went since the last report")?;
        return Ok(now);
    }
    writeln!(out, "  since the last report:")?;
    say_missing(out, "came", &now, &last)?;
    say_missing(out, "went", &last, &now)?;
    Ok(now)
}
