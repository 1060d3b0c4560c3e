use super::style::Style;
use super::text::Text;
use form::{RangeFault, Refusal, ValueRange};
use notation::{Lines, read_range};
use std::fmt;
use std::fmt::Write;

/// How many lines were read, and what became of them.
#[derive(Clone, Copy, Drop)]
pub struct Tally {
    pub lines: u64,
    pub taken: u64,
    pub refused: u64,
}

// what a line is: a range, a refusal of one, or neither
type Reading = Option<Result<ValueRange, RangeFault>>;

impl Tally {
    fn note(&mut self, reading: Reading) {
        self.lines = self.lines.saturating_add(1);
        match reading {
            Some(Ok(_)) => self.taken = self.taken.saturating_add(1),
            Some(Err(_)) => self.refused = self.refused.saturating_add(1),
            None => {}
        }
    }
}

impl fmt::Display for Tally {
    fn fmt<W: Write>(&self, f: &mut fmt::Formatter<W>) -> fmt::Result {
        let lines = self.lines;
        let taken = self.taken;
        let refused = self.refused;
        let neither = lines.saturating_sub(taken).saturating_sub(refused);
        write!(
            f,
            "{lines} lines read: {taken} taken, {refused} refused, {neither} no range"
        )
    }
}

/// Says of each line of the input what range it is, and answers how many were what.
/// Plain answers are `range LEAST MOST`, `refused 101` or `no range`.
pub fn say_ranges<W: Write>(out: &mut W, input: &[u8], style: Style) -> Result<Tally, fmt::Error> {
    let mut tally = Tally {
        lines: 0,
        taken: 0,
        refused: 0,
    };
    for line in Lines::new(input) {
        let line = line.trim_ascii();
        let reading = read_range(line);
        tally.note(reading);
        match style {
            Style::Plain => say_plain(out, reading)?,
            Style::Words => say_line(out, tally.lines, line, reading)?,
        }
    }
    if style == Style::Words {
        writeln!(out, "{tally}")?;
    }
    Ok(tally)
}

fn say_plain<W: Write>(out: &mut W, reading: Reading) -> fmt::Result {
    match reading {
        Some(Ok(range)) => {
            let least = range.min_values();
            let most = range.max_values();
            writeln!(out, "range {least} {most}")
        }
        Some(Err(fault)) => writeln!(out, "refused {}", Refusal::from(fault).number()),
        None => writeln!(out, "no range"),
    }
}

fn say_line<W: Write>(out: &mut W, line_number: u64, line: &[u8], reading: Reading) -> fmt::Result {
    write!(out, "line {line_number}: `{}`: ", Text::new(line))?;
    match reading {
        Some(Ok(range)) => say_range(out, range),
        Some(Err(fault)) => writeln!(
            out,
            "refused ({}): the least number of values would be above the most",
            Refusal::from(fault).number()
        ),
        None => writeln!(
            out,
            "no range; write n, a..b, a..=b, a.., ..b, ..=b or .. with decimal numbers below 2^64"
        ),
    }
}

fn say_range<W: Write>(out: &mut W, range: ValueRange) -> fmt::Result {
    let least = range.min_values();
    let most = range.max_values();
    let takes = if range.takes_values() {
        "takes values"
    } else {
        "takes no values"
    };
    let many = if range.is_multiple() {
        "many"
    } else {
        "not many"
    };
    if range.is_unbounded() {
        writeln!(out, "at least {least}, with no upper end; {takes}, {many}")
    } else {
        writeln!(out, "at least {least}, at most {most}; {takes}, {many}")
    }
}
