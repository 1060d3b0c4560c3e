use super::fault::{Fault, FaultKind};
use form::ArgAction;
use notation::next_word;

/// The next word of a line, and what follows it.
pub(crate) fn expect_word(rest: &[u8]) -> Result<(&[u8], &[u8]), Fault<'_>> {
    let (word, later) = next_word(rest);
    if word.is_empty() {
        return Err(FaultKind::WordMissing.at(word));
    }
    Ok((word, later))
}

/// Nothing more stands on the line.
pub(crate) fn expect_end(rest: &[u8]) -> Result<(), Fault<'_>> {
    let (word, _) = next_word(rest);
    if word.is_empty() {
        return Ok(());
    }
    Err(FaultKind::WordTooMany.at(word))
}

/// An action by its name.
pub(crate) fn read_action(word: &[u8]) -> Option<ArgAction> {
    Some(match word {
        b"set" => ArgAction::Set,
        b"append" => ArgAction::Append,
        b"set-true" => ArgAction::SetTrue,
        b"set-false" => ArgAction::SetFalse,
        b"count" => ArgAction::Count,
        b"help" => ArgAction::Help,
        b"help-short" => ArgAction::HelpShort,
        b"help-long" => ArgAction::HelpLong,
        b"version" => ArgAction::Version,
        _ => return None,
    })
}
