use super::reader::FaultLine;
use console::Text;
use script::FaultKind;
use std::fmt;
use std::fmt::Write;

// Words for people stand in the crate that speaks, and not in a `Display` of `script`.
fn sentence(kind: FaultKind) -> &'static str {
    match kind {
        FaultKind::NoSuchCall =>
            "is no call: write set, enter, alter, attach, strike, build, report, first, find or reopen",
        FaultKind::NoSuchKind => "is no kind of entry: write argument, group or subcommand",
        FaultKind::NoSuchField =>
            "is no field: write id=, name=, long=, letter=, index=, settings=, action=, terminated or range=",
        FaultKind::FieldElsewhere => "there is a field that such a record does not have",
        FaultKind::FieldTwice => "gives a field a second time",
        FaultKind::FieldMissing =>
            "the record lacks its id (argument, group) or its name (subcommand)",
        FaultKind::WordMissing => "a word is missing at the end",
        FaultKind::WordTooMany => "is a word too many",
        FaultKind::NoNumber =>
            "is no number that fits here: marks, indices, settings and positions have 16 bits, lists 8, a report's room 64; write decimal digits, or 0x and hexadecimal ones",
        FaultKind::NoLetter => "is no letter: write U+ and one to eight hexadecimal digits",
        FaultKind::NoName => "is no name: behind a backslash comes x and two hexadecimal digits",
        FaultKind::NoAction =>
            "is no action: write set, append, set-true, set-false, count, help, help-short, help-long or version",
        FaultKind::NoRange => "is no range: write n, a..b, a..=b, a.., ..b, ..=b or ..",
        FaultKind::NoItem => "is no item: write name= or letter=",
        FaultKind::NoKey => "is no kind of key: write position, letter or long",
    }
}

fn say_fault<W: Write>(out: &mut W, faulty: &FaultLine<'_>) -> fmt::Result {
    let number = faulty.spot.number;
    let reason = sentence(faulty.fault.kind);
    write!(out, "line {number}: `{}`: ", Text::new(faulty.spot.text))?;
    match faulty.fault.word {
        [] => writeln!(out, "{reason}"),
        word => writeln!(out, "`{}` {reason}", Text::new(word)),
    }
}

/// Says of each line that is no call why it is none.
pub fn say_faults<W: Write>(out: &mut W, faults: &[FaultLine<'_>]) -> fmt::Result {
    for faulty in faults {
        say_fault(out, faulty)?;
    }
    Ok(())
}
