ghost use Rattle.std.specs.Prelude.{◌≡◌};
ghost use Rattle.table.specs.Entries.{arg_of, group_of, subcommand_of, only_arg, only_group, only_subcommand};

use form::{ArgView, GroupView, SubcommandView};

/// An argument in a table: its record and its nine lists.
#[derive(Clone, Copy)]
pub struct ArgRow<'a> {
    pub arg: ArgView<'a>,
    pub requirements: &'a [&'a [u8]],
    pub r_ifs: &'a [&'a [u8]],
    pub r_ifs_all: &'a [&'a [u8]],
    pub r_unless: &'a [&'a [u8]],
    pub r_unless_all: &'a [&'a [u8]],
    pub conflicts: &'a [&'a [u8]],
    pub overrides: &'a [&'a [u8]],
    pub long_aliases: &'a [&'a [u8]],
    pub letter_aliases: &'a [char],
}

impl<'a> ArgRow<'a> {
    /// An argument of that id, otherwise blank and without items.
    pub fn new(id: &'a [u8]) -> ArgRow<'a>
        ensures { arg_of result ≡ only_arg id.now }
    {
        ArgRow {
            arg: ArgView::new(id),
            requirements: &[],
            r_ifs: &[],
            r_ifs_all: &[],
            r_unless: &[],
            r_unless_all: &[],
            conflicts: &[],
            overrides: &[],
            long_aliases: &[],
            letter_aliases: &[],
        }
    }
}

/// A group in a table: its record and its three lists.
#[derive(Clone, Copy)]
pub struct GroupRow<'a> {
    pub group: GroupView<'a>,
    pub members: &'a [&'a [u8]],
    pub requirements: &'a [&'a [u8]],
    pub conflicts: &'a [&'a [u8]],
}

impl<'a> GroupRow<'a> {
    /// A group of that id, without items.
    pub fn new(id: &'a [u8]) -> GroupRow<'a>
        ensures { group_of result ≡ only_group id.now }
    {
        GroupRow {
            group: GroupView { id },
            members: &[],
            requirements: &[],
            conflicts: &[],
        }
    }
}

/// A subcommand in a table: its record and its three lists.
#[derive(Clone, Copy)]
pub struct SubcommandRow<'a> {
    pub subcommand: SubcommandView<'a>,
    pub aliases: &'a [&'a [u8]],
    pub long_aliases: &'a [&'a [u8]],
    pub letter_aliases: &'a [char],
}

impl<'a> SubcommandRow<'a> {
    /// A subcommand of that name, without flags and items.
    pub fn new(name: &'a [u8]) -> SubcommandRow<'a>
        ensures { subcommand_of result ≡ only_subcommand name.now }
    {
        SubcommandRow {
            subcommand: SubcommandView::new(name),
            aliases: &[],
            long_aliases: &[],
            letter_aliases: &[],
        }
    }
}
