ghost use Rattle.std.specs.Prelude.{◌≡◌};
ghost use Rattle.rules.specs.Told as told;

use form::{EntryKind, ItemList};
use rules::{Breach, Entry, Rule};

// Each kind of entry has its own constructor: one that takes the kind says no less at a call, and reads longer.

/// The argument at a place.
pub fn argument_at(place: usize) -> Entry
    ensures { result ≡ told.argument place }
{
    Entry {
        kind: EntryKind::Argument,
        place,
    }
}

/// The group at a place.
pub fn group_at(place: usize) -> Entry
    ensures { result ≡ told.group place }
{
    Entry {
        kind: EntryKind::Group,
        place,
    }
}

/// The subcommand at a place.
pub fn subcommand_at(place: usize) -> Entry
    ensures { result ≡ told.subcommand place }
{
    Entry {
        kind: EntryKind::Subcommand,
        place,
    }
}

/// A breach of the whole form.
pub fn of_form(rule: Rule) -> Breach
    ensures { result ≡ told.of_form rule }
{
    Breach {
        rule,
        first: None,
        second: None,
        list: None,
        item: 0,
        other: 0,
    }
}

/// A breach of one entry.
pub fn of_one(rule: Rule, entry: Entry) -> Breach
    ensures { result ≡ told.of_one rule entry }
{
    Breach {
        first: Some(entry),
        ..of_form(rule)
    }
}

/// A breach of one entry and one of its settings, told by its bit.
pub fn of_bit(rule: Rule, entry: Entry, bit: usize) -> Breach
    ensures { result ≡ told.of_bit rule entry bit }
{
    Breach {
        item: bit,
        ..of_one(rule, entry)
    }
}

/// A breach of an item of a list of an entry.
pub fn of_item(rule: Rule, entry: Entry, list: ItemList, item: usize) -> Breach
    ensures { result ≡ told.of_item rule entry list item }
{
    Breach {
        list: Some(list),
        item,
        ..of_one(rule, entry)
    }
}

/// A breach of two entries.
pub fn of_two(rule: Rule, first: Entry, second: Entry) -> Breach
    ensures { result ≡ told.of_two rule first second }
{
    Breach {
        second: Some(second),
        ..of_one(rule, first)
    }
}

/// A breach of two owners and a flag or name of each: 0 is the flag or name itself, an alias is 1 + its place.
pub fn of_flags(rule: Rule, first: Entry, item: usize, second: Entry, other: usize) -> Breach
    ensures { result ≡ told.of_flags rule first item second other }
{
    Breach {
        item,
        other,
        ..of_two(rule, first, second)
    }
}
