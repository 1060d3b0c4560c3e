use super::style::Style;
use super::text::Text;
use super::words::{kind_letter, kind_word, list_word, sentence};
use form::{EntryKind, FormSource, ItemList, ItemSort};
use rules::{Breach, Entry, Rule};
use std::fmt;
use std::fmt::Write;

/// Says a report: plain, `breaches N` and a line a breach; else a sentence for each.
pub fn say_report<F: FormSource, W: Write>(
    out: &mut W,
    form: &F,
    breaches: &[Breach],
    style: Style,
) -> fmt::Result {
    match style {
        Style::Plain => say_plain_report(out, breaches),
        Style::Words => say_sentences(out, form, breaches),
    }
}

/// `breaches N`, and each breach as a line of its own.
pub fn say_plain_report<W: Write>(out: &mut W, breaches: &[Breach]) -> fmt::Result {
    writeln!(out, "breaches {}", breaches.len())?;
    for breach in breaches {
        say_plain_breach(out, breach)?;
    }
    Ok(())
}

fn say_sentences<F: FormSource, W: Write>(
    out: &mut W,
    form: &F,
    breaches: &[Breach],
) -> fmt::Result {
    match breaches.len() {
        0 => writeln!(out, "no breaches")?,
        1 => writeln!(out, "1 breach:")?,
        count => writeln!(out, "{count} breaches:")?,
    }
    for breach in breaches {
        say_breach(out, form, breach)?;
    }
    Ok(())
}

/// `RULE FIRST SECOND LIST ITEM ITEM`, entries as `a0`, `g1`, `s2` or `-`.
pub fn say_plain_breach<W: Write>(out: &mut W, breach: &Breach) -> fmt::Result {
    let rule = breach.rule.number();
    let first = Place(breach.first);
    let second = Place(breach.second);
    let list = breach.list.map_or(0, |list| list.number());
    let item = breach.item;
    let other = breach.other;
    writeln!(out, "{rule} {first} {second} {list} {item} {other}")
}

// an entry by its kind and place
#[derive(Clone, Copy)]
struct Place(Option<Entry>);

impl fmt::Display for Place {
    fn fmt<W: Write>(&self, f: &mut fmt::Formatter<W>) -> fmt::Result {
        match self.0 {
            Some(entry) => write!(f, "{}{}", kind_letter(entry.kind), entry.place),
            None => write!(f, "-"),
        }
    }
}

/// A breach in words: its rule, its entries by name, its list and item, and what is wrong.
pub fn say_breach<F: FormSource, W: Write>(out: &mut W, form: &F, breach: &Breach) -> fmt::Result {
    let rule = breach.rule.number();
    write!(out, "  rule {rule}: ")?;
    if let Some(e) = breach.first {
        say_entry(out, form, e)?;
        if let Some(l) = breach.list {
            say_item(out, form, l, e.place, breach.item)?;
        }
        write!(out, ": ")?;
    }
    write!(out, "{}", sentence(breach.rule))?;
    if let Some(e) = breach.second {
        write!(out, " (")?;
        say_entry(out, form, e)?;
        write!(out, ")")?;
    }
    say_numbers(out, breach)?;
    writeln!(out, "")
}

// the item numbers where they tell more than the words: a settings bit, or two flags
fn say_numbers<W: Write>(out: &mut W, breach: &Breach) -> fmt::Result {
    let item = breach.item;
    let other = breach.other;
    match breach.rule {
        Rule::SettingWithoutValue => write!(out, " (settings bit {item})"),
        Rule::SameLongFlag
        | Rule::SameLetterFlag
        | Rule::SubcommandNameTaken
        | Rule::SubcommandAliasTaken => write!(out, " (flag {item} and flag {other})"),
        _ => Ok(()),
    }
}

fn say_entry<F: FormSource, W: Write>(out: &mut W, form: &F, entry: Entry) -> fmt::Result {
    let kind = kind_word(entry.kind);
    match entry.kind {
        EntryKind::Argument => write!(out, "{kind} `{}`", Text::new(form.arg(entry.place).id)),
        EntryKind::Group => write!(out, "{kind} `{}`", Text::new(form.group(entry.place).id)),
        EntryKind::Subcommand => write!(
            out,
            "{kind} `{}`",
            Text::new(form.subcommand(entry.place).name)
        ),
    }
}

fn say_item<F: FormSource, W: Write>(
    out: &mut W,
    form: &F,
    list: ItemList,
    place: usize,
    item: usize,
) -> fmt::Result {
    let number = list.number();
    let word = list_word(list);
    write!(out, ", list {number} ({word}), item {item}")?;
    match list.sort() {
        ItemSort::Name => write!(out, " `{}`", Text::new(form.name(list, place, item))),
        ItemSort::Letter => write!(out, " `{}`", form.letter(list, place, item)),
    }
}
