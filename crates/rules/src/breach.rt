use super::rule::Rule;
use form::{EntryKind, ItemList};

/// An entry of a form, told by its table and its place there, from 0.
#[derive(Clone, Copy, PartialEq, Eq)]
pub struct Entry {
    pub kind: EntryKind,
    pub place: usize,
}

/// What breaks a rule: the entries that it concerns, the list, and an item number for each entry.
/// What a rule does not use is none or 0.
#[derive(Clone, Copy, PartialEq, Eq)]
pub struct Breach {
    pub rule: Rule,
    pub first: Option<Entry>,
    pub second: Option<Entry>,
    pub list: Option<ItemList>,
    /// of the first entry: an item's place, a flag's number, or a settings bit
    pub item: usize,
    /// of the second entry
    pub other: usize,
}

impl Breach {
    /// What stands in a place of a list that no report has filled.
    pub const UNUSED: Breach = Breach {
        rule: Rule::FormCut,
        first: None,
        second: None,
        list: None,
        item: 0,
        other: 0,
    };
}
