use super::breaches::say_report;
use super::style::Style;
use form::{AppFlags, ArgAction, ArgFlags, ArgView, FormSource, Keyed, ValueRange};
use layers::StandardFlags;
use report::report;
use rules::Breach;
use std::fmt;
use std::fmt::Write;
use table::{ArgRow, GroupRow, SubcommandRow, TableForm};

/// How many breaches a list of the tour has room for. A list of fixed room needs no heap, as `report_all` would.
const ROOM: usize = 64;

/// Says the reports of some sample definitions, each alone and under the standard flags.
pub fn say_tour<W: Write>(out: &mut W, style: Style) -> fmt::Result {
    say_incident(out, style)?;
    say_mended(out, style)?;
    say_gap(out, style)?;
    say_taken_help(out, style)?;
    say_trailing(out, style)
}

// a flag without values
fn switch(id: &'static [u8], letter: char) -> ArgView<'static> {
    ArgView {
        long: Some(id),
        letter: Some(letter),
        action: ArgAction::SetTrue,
        range: Some(ValueRange::EMPTY),
        ..ArgView::new(id)
    }
}

fn commit() -> ArgRow<'static> {
    ArgRow {
        arg: switch(b"commit", 'c'),
        conflicts: &[b"unpaid"],
        ..ArgRow::new(b"commit")
    }
}

fn draft() -> ArgRow<'static> {
    ArgRow {
        arg: switch(b"draft", 'd'),
        ..ArgRow::new(b"draft")
    }
}

fn unpaid() -> GroupRow<'static> {
    GroupRow {
        members: &[b"draft"],
        ..GroupRow::new(b"unpaid")
    }
}

// a positional argument of one value
fn position(id: &'static [u8], index: u16, settings: u16) -> ArgRow<'static> {
    let view = ArgView {
        index: Some(index),
        settings: ArgFlags::from_bits(settings),
        range: Some(ValueRange::SINGLE),
        ..ArgView::new(id)
    };
    ArgRow {
        arg: view,
        ..ArgRow::new(id)
    }
}

// a conflict that names a subcommand only
fn say_incident<W: Write>(out: &mut W, style: Style) -> fmt::Result {
    let args = [commit()];
    let groups: [GroupRow<'static>; 0] = [];
    let subcommands: [SubcommandRow<'static>; 1] = [SubcommandRow::new(b"unpaid")];
    let form = TableForm::new(AppFlags::from_bits(0), &args, &groups, &subcommands);
    say_both(
        out,
        "commit conflicts with unpaid, which is only a subcommand",
        &form,
        style,
    )
}

// the same with a group of that name
fn say_mended<W: Write>(out: &mut W, style: Style) -> fmt::Result {
    let args = [commit(), draft()];
    let groups = [unpaid()];
    let subcommands: [SubcommandRow<'static>; 1] = [SubcommandRow::new(b"pay")];
    let form = TableForm::new(AppFlags::from_bits(0), &args, &groups, &subcommands);
    say_both(out, "commit conflicts with the group unpaid", &form, style)
}

// positions 1 and 3
fn say_gap<W: Write>(out: &mut W, style: Style) -> fmt::Result {
    let args = [position(b"from", 1, 0), position(b"to", 3, 0)];
    let form = TableForm::of_args(AppFlags::from_bits(0x40), &args);
    say_both(out, "positions 1 and 3, and a version", &form, style)
}

// a letter and a long name that the standard flags have too
fn say_taken_help<W: Write>(out: &mut W, style: Style) -> fmt::Result {
    let view = ArgView {
        long: Some(b"help"),
        letter: Some('h'),
        range: Some(ValueRange::SINGLE),
        ..ArgView::new(b"host")
    };
    let args = [ArgRow {
        arg: view,
        ..ArgRow::new(b"host")
    }];
    let form = TableForm::of_args(AppFlags::from_bits(0), &args);
    say_both(out, "host has -h and --help", &form, style)
}

// a trailing argument of one value, marked last
fn say_trailing<W: Write>(out: &mut W, style: Style) -> fmt::Result {
    let args = [position(b"files", 1, 0x300)];
    let form = TableForm::of_args(AppFlags::from_bits(0), &args);
    say_both(
        out,
        "files is trailing and last, with one value",
        &form,
        style,
    )
}

fn say_both<K: Keyed, W: Write>(out: &mut W, title: &str, form: &K, style: Style) -> fmt::Result {
    writeln!(out, "form: {title}")?;
    say_sample(out, form, style)?;
    let flagged = StandardFlags::new(form);
    writeln!(out, "with standard flags")?;
    say_sample(out, &flagged, style)
}

fn say_sample<F: FormSource, W: Write>(out: &mut W, form: &F, style: Style) -> fmt::Result {
    let mut list = [Breach::UNUSED; ROOM];
    match report(form, &mut list) {
        Ok(count) => match list.get(0..count) {
            Some(breaches) => say_report(out, form, breaches, style),
            None => Ok(()),
        },
        Err(short) => {
            let needed = short.needed;
            writeln!(out, "refused 109 needs {needed}")
        }
    }
}
