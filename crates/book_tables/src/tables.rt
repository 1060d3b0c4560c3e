ghost use Rattle.std.specs.Prelude.{◌≡◌, ◌≤◌, true};
ghost use Rattle.book_tables.specs.Held.{marks};
ghost use Rattle.book_tables.specs.Marks.{climbing};

use super::held::{Held, ItemRow};
use super::table::Table;
use form::{AppFlags, ArgOf, Name, SubcommandOf};

/// The tables of a book.
#[derive(Drop)]
pub struct Tables {
    pub settings: AppFlags,
    pub args: Table<Held<ArgOf<Name>>, 64>,
    pub groups: Table<Held<Name>, 16>,
    pub subcommands: Table<Held<SubcommandOf<Name>>, 32>,
    pub rows: Table<ItemRow, 512>,
    /// the mark of the next entry; 60,001 once all are given
    pub next: u16,
    ghost last: { next ≤ 60001 },
    ghost args_order: { climbing 1 (marks args.list.items) next ≡ true },
    ghost groups_order: { climbing 1 (marks groups.list.items) next ≡ true },
    ghost subcommands_order: { climbing 1 (marks subcommands.list.items) next ≡ true },
}
