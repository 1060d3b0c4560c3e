use super::fault::{Fault, FaultKind};
use super::fields::{Fields, read_fields, split_field};
use super::line::{Given, Line};
use super::spelling::{Spelled, read_name};
use super::words::{expect_end, expect_word};
use calls::{ArgRecord, Bounds, Call, Item, Record, Sought, SubcommandRecord};
use form::ArgAction;
use notation::{next_word, read_count, read_letter, read_u8, read_u16, without_comment};

/// The call that a line is; none where the line is empty but for a comment.
pub fn read_line(line: &[u8]) -> Result<Option<Line>, Fault<'_>> {
    let (word, rest) = next_word(without_comment(line));
    if word.is_empty() {
        return Ok(None);
    }
    read_call(word, rest).map(Some)
}

fn read_call<'a>(word: &'a [u8], rest: &'a [u8]) -> Result<Line, Fault<'a>> {
    match word {
        b"enter" => Ok(read_record(rest)?.map_or(Call::Unmade, Call::Enter)),
        b"alter" => read_alter(rest),
        b"strike" => read_last(rest).map(Call::Strike),
        b"attach" => read_attach(rest),
        b"set" => read_last(rest).map(Call::Set),
        b"report" => read_report(rest),
        b"find" => read_find(rest),
        _ => read_bare(word, rest),
    }
}

// the calls that are one word
fn read_bare<'a>(word: &'a [u8], rest: &'a [u8]) -> Result<Line, Fault<'a>> {
    let line = match word {
        b"build" => Call::Build,
        b"reopen" => Call::Reopen,
        b"first" => Call::First,
        _ => return Err(FaultKind::NoSuchCall.at(word)),
    };
    expect_end(rest)?;
    Ok(line)
}

// a number of 16 bits, and what follows it
fn next_u16(rest: &[u8]) -> Result<(u16, &[u8]), Fault<'_>> {
    let (word, later) = expect_word(rest)?;
    let number = read_u16(word).ok_or(FaultKind::NoNumber.at(word))?;
    Ok((number, later))
}

// a number of 16 bits, with which the line ends
fn read_last(rest: &[u8]) -> Result<u16, Fault<'_>> {
    let (number, later) = next_u16(rest)?;
    expect_end(later)?;
    Ok(number)
}

fn read_alter(rest: &[u8]) -> Result<Line, Fault<'_>> {
    let (mark, later) = next_u16(rest)?;
    let record = read_record(later)?;
    Ok(record.map_or(Call::Unmade, |record| Call::Alter(mark, record)))
}

fn read_report(rest: &[u8]) -> Result<Line, Fault<'_>> {
    let (word, later) = expect_word(rest)?;
    let room = read_count(word).ok_or(FaultKind::NoNumber.at(word))?;
    expect_end(later)?;
    Ok(Call::Report(room as usize))
}

fn read_attach(rest: &[u8]) -> Result<Line, Fault<'_>> {
    let (mark, rest) = next_u16(rest)?;
    let (word, rest) = expect_word(rest)?;
    let list = read_u8(word).ok_or(FaultKind::NoNumber.at(word))?;
    let (word, rest) = expect_word(rest)?;
    let item = read_item(word).map_err(|kind| kind.at(word))?;
    expect_end(rest)?;
    Ok(Call::Attach(mark, list, item))
}

fn read_item(word: &[u8]) -> Result<Item<Spelled>, FaultKind> {
    let (field, value) = split_field(word);
    let value = value.ok_or(FaultKind::NoItem)?;
    match field {
        b"name" => read_name(value).map(Item::Name).ok_or(FaultKind::NoName),
        b"letter" => read_letter(value)
            .map(Item::Letter)
            .ok_or(FaultKind::NoLetter),
        _ => Err(FaultKind::NoItem),
    }
}

fn read_find(rest: &[u8]) -> Result<Line, Fault<'_>> {
    let (kind, rest) = expect_word(rest)?;
    let (word, later) = expect_word(rest)?;
    let sought = match kind {
        b"position" => read_u16(word)
            .map(Sought::Position)
            .ok_or(FaultKind::NoNumber),
        b"letter" => read_letter(word)
            .map(Sought::Letter)
            .ok_or(FaultKind::NoLetter),
        b"long" => read_name(word).map(Sought::Long).ok_or(FaultKind::NoName),
        _ => return Err(FaultKind::NoKey.at(kind)),
    };
    let sought = sought.map_err(|kind| kind.at(word))?;
    expect_end(later)?;
    Ok(Call::Find(sought))
}

fn read_record(rest: &[u8]) -> Result<Given, Fault<'_>> {
    let (kind, rest) = expect_word(rest)?;
    let record = match kind {
        b"argument" => argument_of(read_fields(rest)?),
        b"group" => group_of(read_fields(rest)?),
        b"subcommand" => subcommand_of(read_fields(rest)?),
        _ => return Err(FaultKind::NoSuchKind.at(kind)),
    };
    record.map_err(|kind| kind.at(b""))
}

fn argument_of(fields: Fields) -> Result<Given, FaultKind> {
    if fields.name.is_some() {
        return Err(FaultKind::FieldElsewhere);
    }
    let id = fields.id.ok_or(FaultKind::FieldMissing)?;
    let argument = fields.range.transpose().map(|range| ArgRecord {
        id,
        long: fields.long,
        letter: fields.letter,
        index: fields.index,
        settings: fields.settings.unwrap_or(0),
        action: fields.action.unwrap_or(ArgAction::Set),
        terminated: fields.terminated,
        range: range.map(Bounds::from),
    });
    Ok(argument.map(Record::Argument))
}

// the fields that only an argument has
fn has_argument_fields(fields: &Fields) -> bool {
    fields.index.is_some()
        || fields.settings.is_some()
        || fields.action.is_some()
        || fields.terminated
        || fields.range.is_some()
}

fn group_of(fields: Fields) -> Result<Given, FaultKind> {
    let more = fields.name.is_some() || fields.long.is_some() || fields.letter.is_some();
    if more || has_argument_fields(&fields) {
        return Err(FaultKind::FieldElsewhere);
    }
    let id = fields.id.ok_or(FaultKind::FieldMissing)?;
    Ok(Ok(Record::Group(id)))
}

fn subcommand_of(fields: Fields) -> Result<Given, FaultKind> {
    if fields.id.is_some() || has_argument_fields(&fields) {
        return Err(FaultKind::FieldElsewhere);
    }
    let name = fields.name.ok_or(FaultKind::FieldMissing)?;
    Ok(Ok(Record::Subcommand(SubcommandRecord {
        name,
        long: fields.long,
        letter: fields.letter,
    })))
}
