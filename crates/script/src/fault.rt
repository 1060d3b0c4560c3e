/// Why a line of a script is no call.
#[derive(Clone, Copy, PartialEq, Eq)]
pub enum FaultKind {
    /// the first word is no call
    NoSuchCall,
    /// after enter or alter comes argument, group or subcommand
    NoSuchKind,
    /// no field of any record
    NoSuchField,
    /// a field that such a record does not have
    FieldElsewhere,
    /// a field that was given before
    FieldTwice,
    /// the id of an argument or group, or the name of a subcommand, is missing
    FieldMissing,
    /// a word is missing at the end
    WordMissing,
    /// a word too many
    WordTooMany,
    /// no number, or one that does not fit
    NoNumber,
    /// no `U+` and one to eight hexadecimal digits
    NoLetter,
    /// a backslash that begins no `\xHH`
    NoName,
    /// no action
    NoAction,
    /// no range in Rust's notation
    NoRange,
    /// an item is `name=` or `letter=`
    NoItem,
    /// find seeks a position, a letter or a long name
    NoKey,
}

impl FaultKind {
    /// The fault at a word.
    pub(crate) fn at(self, word: &[u8]) -> Fault<'_> {
        Fault { kind: self, word }
    }
}

/// What is wrong with a line, and the word that is wrong; empty where none is.
#[derive(Clone, Copy)]
pub struct Fault<'a> {
    pub kind: FaultKind,
    pub word: &'a [u8],
}
