use super::fault::{Fault, FaultKind};
use super::spelling::{Spelled, read_name};
use super::words::read_action;
use form::{ArgAction, RangeFault, ValueRange};
use notation::{is_blank, read_letter, read_range, read_u16};

/// The fields of a record as a line gives them; what is left out is none.
#[derive(Clone, Copy, Default)]
pub struct Fields {
    pub id: Option<Spelled>,
    pub name: Option<Spelled>,
    pub long: Option<Spelled>,
    pub letter: Option<u32>,
    pub index: Option<u16>,
    pub settings: Option<u16>,
    pub action: Option<ArgAction>,
    pub terminated: bool,
    /// a range that is refused is still given
    pub range: Option<Result<ValueRange, RangeFault>>,
}

/// The name of a field, and its value; the value is none where the word has no `=`.
// A loop over the bytes with their index: a rule of the project names this form.
pub(crate) fn split_field(word: &[u8]) -> (&[u8], Option<&[u8]>) {
    for (i, b) in word.iter().enumerate() {
        if *b == b'=' {
            return (&word[..i], Some(&word[i + 1..]));
        }
    }
    (word, None)
}

// a field is given once
fn once<T: Copy>(field: &mut Option<T>, value: T) -> Result<(), FaultKind> {
    if field.is_some() {
        return Err(FaultKind::FieldTwice);
    }
    *field = Some(value);
    Ok(())
}

impl Fields {
    // one field more
    fn add(&mut self, word: &[u8]) -> Result<(), FaultKind> {
        let (field, value) = split_field(word);
        let Some(value) = value else {
            return self.add_flag(word);
        };
        match field {
            b"id" => once(&mut self.id, read_name(value).ok_or(FaultKind::NoName)?),
            b"name" => once(&mut self.name, read_name(value).ok_or(FaultKind::NoName)?),
            b"long" => once(&mut self.long, read_name(value).ok_or(FaultKind::NoName)?),
            b"letter" => once(
                &mut self.letter,
                read_letter(value).ok_or(FaultKind::NoLetter)?,
            ),
            b"index" => once(&mut self.index, read_u16(value).ok_or(FaultKind::NoNumber)?),
            b"settings" => once(
                &mut self.settings,
                read_u16(value).ok_or(FaultKind::NoNumber)?,
            ),
            b"action" => once(
                &mut self.action,
                read_action(value).ok_or(FaultKind::NoAction)?,
            ),
            b"range" => once(
                &mut self.range,
                read_range(value).ok_or(FaultKind::NoRange)?,
            ),
            _ => Err(FaultKind::NoSuchField),
        }
    }

    // the field that is a word by itself
    fn add_flag(&mut self, word: &[u8]) -> Result<(), FaultKind> {
        if word != b"terminated".as_slice() {
            return Err(FaultKind::NoSuchField);
        }
        if self.terminated {
            return Err(FaultKind::FieldTwice);
        }
        self.terminated = true;
        Ok(())
    }
}

/// Reads the fields that follow the kind of a record.
pub(crate) fn read_fields(line: &[u8]) -> Result<Fields, Fault<'_>> {
    let mut fields = Fields::default();
    for word in line.split(|b| is_blank(*b)).filter(|word| !word.is_empty()) {
        fields.add(word).map_err(|kind| kind.at(word))?;
    }
    Ok(fields)
}
