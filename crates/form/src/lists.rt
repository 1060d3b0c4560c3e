ghost use Rattle.std.specs.Prelude.{◌≡◌};
ghost use Rattle.form.specs.Lists.{list_number, list_numbered, list_owner, list_sort};
ghost use Rattle.form.specs.Refusals.{no_such_code};
ghost use Rattle.std.specs.Option.{ok_or};

use super::refusal::NoSuchCode;

/// The kinds of entry: a form has a table of each.
#[derive(Clone, Copy, PartialEq, Eq)]
pub enum EntryKind {
    Argument,
    Group,
    Subcommand,
}

/// What an item is.
#[derive(Clone, Copy, PartialEq, Eq)]
pub enum ItemSort {
    Name,
    Letter,
}

/// The fifteen lists of items: nine of an argument, three of a group, three of a subcommand.
#[derive(Clone, Copy, PartialEq, Eq)]
pub enum ItemList {
    /// arguments or groups that must come with it
    Requires = 1,
    /// one of these makes it required
    RIfs,
    /// all of these make it required
    RIfsAll,
    /// one of these lifts the requirement
    RUnless,
    /// all of these lift the requirement
    RUnlessAll,
    /// arguments or groups that may not come with it
    Conflicts,
    /// arguments or groups that it takes the place of
    Overrides,
    /// further long names of an argument
    LongAliases,
    /// further letters of an argument
    LetterAliases,
    /// arguments of a group
    Members,
    /// arguments or groups that must come with a group
    GroupRequires,
    /// arguments or groups that may not come with a group
    GroupConflicts,
    /// further names of a subcommand
    SubcommandAliases,
    /// further long flags of a subcommand
    LongFlagAliases,
    /// further letter flags of a subcommand
    LetterFlagAliases,
}

impl ItemList {
    /// The number of the list, 1 to 15.
    // by its name, and not `u8::from`, which would not say what the number is
    pub fn number(self) -> u8
        ensures { result ≡ list_number self }
    {
        self as u8
    }

    /// The kind of entry that has the list.
    pub fn owner(self) -> EntryKind
        ensures { result ≡ list_owner self }
    {
        match self {
            ItemList::Members | ItemList::GroupRequires | ItemList::GroupConflicts =>
                EntryKind::Group,
            ItemList::SubcommandAliases | ItemList::LongFlagAliases | ItemList::LetterFlagAliases =>
                { EntryKind::Subcommand }
            _ => EntryKind::Argument,
        }
    }

    /// What the list holds.
    pub fn sort(self) -> ItemSort
        ensures { result ≡ list_sort self }
    {
        match self {
            ItemList::LetterAliases | ItemList::LetterFlagAliases => ItemSort::Letter,
            _ => ItemSort::Name,
        }
    }
}

/// The list of a number, if there is one.
impl TryFrom<u8> for ItemList {
    type Error = NoSuchCode;

    ghost try_from_gives = { λ number r. r ≡ ok_or (list_numbered number) no_such_code };

    fn try_from(number: u8) -> Result<ItemList, NoSuchCode> {
        match number {
            1 => Ok(ItemList::Requires),
            2 => Ok(ItemList::RIfs),
            3 => Ok(ItemList::RIfsAll),
            4 => Ok(ItemList::RUnless),
            5 => Ok(ItemList::RUnlessAll),
            6 => Ok(ItemList::Conflicts),
            7 => Ok(ItemList::Overrides),
            8 => Ok(ItemList::LongAliases),
            9 => Ok(ItemList::LetterAliases),
            10 => Ok(ItemList::Members),
            11 => Ok(ItemList::GroupRequires),
            12 => Ok(ItemList::GroupConflicts),
            13 => Ok(ItemList::SubcommandAliases),
            14 => Ok(ItemList::LongFlagAliases),
            15 => Ok(ItemList::LetterFlagAliases),
            _ => Err(NoSuchCode),
        }
    }
}
