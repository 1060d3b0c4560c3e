use notation::Lines;
use script::{Fault, Line, read_line};
use std::alloc::{AllocError, Global};

/// A line of a script: its number from 1, and its text without blanks at its ends.
#[derive(Clone, Copy)]
pub struct Spot<'a> {
    pub number: usize,
    pub text: &'a [u8],
}

/// A line that is a call.
#[derive(Clone, Copy)]
pub struct CallLine<'a> {
    pub spot: Spot<'a>,
    pub line: Line,
}

/// A line that should be a call, and is none.
#[derive(Clone, Copy)]
pub struct FaultLine<'a> {
    pub spot: Spot<'a>,
    pub fault: Fault<'a>,
}

/// The lines of a script.
#[derive(Drop)]
pub struct ScriptText<'a> {
    pub lines: Vec<CallLine<'a>>,
    pub faults: Vec<FaultLine<'a>>,
}

/// Reads a script, one call a line; `#` begins a comment, and empty lines are passed over.
pub fn read_script(heap: Global, text: &[u8]) -> Result<ScriptText<'_>, AllocError> {
    let mut read = ScriptText {
        lines: Vec::new(heap),
        faults: Vec::new(heap),
    };
    // not `enumerate`: that its count of lines fits was tried, and the proof did not close
    let mut number = 0usize;
    for line in Lines::new(text) {
        number = number.saturating_add(1);
        let spot = Spot {
            number,
            text: line.trim_ascii(),
        };
        match read_line(line) {
            Ok(found) => {
                if let Some(line) = found {
                    read.lines.push(CallLine { spot, line })?;
                }
            }
            Err(fault) => read.faults.push(FaultLine { spot, fault })?,
        }
    }
    Ok(read)
}
