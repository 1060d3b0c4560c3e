use console::say_plain_report;
use form::{AppFlags, ArgAction, ArgFlags, ArgView, FormSource, ValueRange};
use report::report;
use rules::Breach;
use std::alloc::Global;
use std::test::Fail;
use table::{ArgRow, GroupRow, SubcommandRow, TableForm};

// settings of an argument
pub(crate) const REQUIRED: u16 = 1;

pub(crate) const GLOBAL: u16 = 2;

pub(crate) const EQUALS: u16 = 128;

pub(crate) const LAST: u16 = 256;

pub(crate) const TRAILING: u16 = 512;

pub(crate) const SOUND: &str = "breaches 0\n";

// the report of a form in plain notation
pub(crate) fn told<F: FormSource>(heap: Global, form: &F) -> Result<String, Fail> {
    let mut list = [Breach::UNUSED; 64];
    let count = report(form, &mut list).map_err(|_| Fail::new("more than 64 breaches"))?;
    let breaches = list
        .get(0..count)
        .ok_or("more breaches than the list holds")?;
    let mut out = String::new(heap);
    say_plain_report(&mut out, breaches)?;
    Ok(out)
}

// whether the text is the one that is expected
pub(crate) fn same_text(found: &str, expected: &str) -> Result<(), Fail> {
    if found == expected {
        Ok(())
    } else {
        Err(Fail::new(format_args!("found {found:?}, expected {expected:?}")))
    }
}

// whether the form of the tables has just these breaches
pub(crate) fn expect<'t>(
    heap: Global,
    settings: u16,
    args: &'t [ArgRow<'static>],
    groups: &'t [GroupRow<'static>],
    subcommands: &'t [SubcommandRow<'static>],
    expected: &str,
) -> Result<(), Fail> {
    let form = TableForm::new(AppFlags::from_bits(settings), args, groups, subcommands);
    let text = told(heap, &form)?;
    same_text(text.as_str(), expected)
}

// the same for a form of arguments alone
pub(crate) fn expect_args(
    heap: Global,
    settings: u16,
    args: &[ArgRow<'static>],
    expected: &str,
) -> Result<(), Fail> {
    let form = TableForm::of_args(AppFlags::from_bits(settings), args);
    let text = told(heap, &form)?;
    same_text(text.as_str(), expected)
}

// the same for one argument without items
pub(crate) fn expect_one(
    heap: Global,
    settings: u16,
    arg: ArgView<'static>,
    expected: &str,
) -> Result<(), Fail> {
    let args = [row(arg)];
    expect_args(heap, settings, &args, expected)
}

// an argument without items
pub(crate) fn row(arg: ArgView<'static>) -> ArgRow<'static> {
    ArgRow {
        arg,
        ..ArgRow::new(b"")
    }
}

// an argument of one value, with its id as its long name
pub(crate) fn option(id: &'static [u8]) -> ArgView<'static> {
    ArgView {
        long: Some(id),
        range: Some(ValueRange::SINGLE),
        ..ArgView::new(id)
    }
}

// an argument of one value with a letter
pub(crate) fn short(id: &'static [u8], letter: char) -> ArgView<'static> {
    ArgView {
        letter: Some(letter),
        range: Some(ValueRange::SINGLE),
        ..ArgView::new(id)
    }
}

// a positional argument of one value
pub(crate) fn place(id: &'static [u8], index: u16) -> ArgView<'static> {
    ArgView {
        index: Some(index),
        range: Some(ValueRange::SINGLE),
        ..ArgView::new(id)
    }
}

pub(crate) fn with_bits(arg: ArgView<'static>, bits: u16) -> ArgView<'static> {
    ArgView {
        settings: ArgFlags::from_bits(bits),
        ..arg
    }
}

pub(crate) fn with_action(arg: ArgView<'static>, action: ArgAction) -> ArgView<'static> {
    ArgView { action, ..arg }
}

// with the range from least through most; unset where there is none
pub(crate) fn ranged(arg: ArgView<'static>, least: u64, most: u64) -> ArgView<'static> {
    ArgView {
        range: ValueRange::try_from(least..=most).ok(),
        ..arg
    }
}
