ghost use Rattle.std.specs.Prelude.{◌≡◌, ℕ, List, []};
ghost use Rattle.std.specs.List.{slice_get};
ghost use Rattle.std.specs.Option.{option_map, unwrap_or};
ghost use Rattle.form.specs.Model.{Name};
ghost use Rattle.form.specs.Lists.{arg_names};
ghost use Rattle.form.specs.Limits.{arg_items, group_items, subcommand_items, summed};
ghost use Rattle.form.specs.declared.lists.ItemList.{ItemList};
ghost use Rattle.table.specs.Entries.{bytes, arg_of, group_of, subcommand_of, arg_letters, group_names, subcommand_names, subcommand_letters};
ghost use Rattle.table.specs.Capped.{capped};

use super::rows::{ArgRow, GroupRow, SubcommandRow};
use form::ItemList;

// A row of a table, by the lists of its entry. Counts stop at the largest number, which is far beyond what a form can hold.
pub(crate) trait Listed<'a> {
    ghost names: { Self → ItemList → List Name };

    ghost letters: { Self → ItemList → List ℕ };

    ghost items: { Self → ℕ };

    // the names of the list; none where it is not the entry's or holds letters
    fn names(&self, list: ItemList) -> &'a [&'a [u8]]
        ensures { bytes result.now ≡ names self.now list };

    // the letters of the list; none where it is not the entry's or holds names
    fn letters(&self, list: ItemList) -> &'a [char]
        ensures { result.now ≡ letters self.now list };

    // the items of all lists
    fn item_count(&self) -> usize
        ensures { result ≡ capped (items self.now) };
}

impl<'a> Listed<'a> for ArgRow<'a> {
    ghost names = { λ r list. arg_names (arg_of r) list };

    ghost letters = { λ r list. arg_letters (arg_of r) list };

    ghost items = { λ r. arg_items (arg_of r) };

    fn names(&self, list: ItemList) -> &'a [&'a [u8]] {
        match list {
            ItemList::Requires => self.requirements,
            ItemList::RIfs => self.r_ifs,
            ItemList::RIfsAll => self.r_ifs_all,
            ItemList::RUnless => self.r_unless,
            ItemList::RUnlessAll => self.r_unless_all,
            ItemList::Conflicts => self.conflicts,
            ItemList::Overrides => self.overrides,
            ItemList::LongAliases => self.long_aliases,
            _ => &[],
        }
    }

    fn letters(&self, list: ItemList) -> &'a [char] {
        match list {
            ItemList::LetterAliases => self.letter_aliases,
            _ => &[],
        }
    }

    fn item_count(&self) -> usize {
        // a fold over the eight lists was tried, and the proof did not close
        self.requirements
            .len()
            .saturating_add(self.r_ifs.len())
            .saturating_add(self.r_ifs_all.len())
            .saturating_add(self.r_unless.len())
            .saturating_add(self.r_unless_all.len())
            .saturating_add(self.conflicts.len())
            .saturating_add(self.overrides.len())
            .saturating_add(self.long_aliases.len())
            .saturating_add(self.letter_aliases.len())
    }
}

impl<'a> Listed<'a> for GroupRow<'a> {
    ghost names = { λ r list. group_names (group_of r) list };

    ghost letters = { λ r list. [] };

    ghost items = { λ r. group_items (group_of r) };

    fn names(&self, list: ItemList) -> &'a [&'a [u8]] {
        match list {
            ItemList::Members => self.members,
            ItemList::GroupRequires => self.requirements,
            ItemList::GroupConflicts => self.conflicts,
            _ => &[],
        }
    }

    fn letters(&self, _list: ItemList) -> &'a [char] {
        &[]
    }

    fn item_count(&self) -> usize {
        self.members
            .len()
            .saturating_add(self.requirements.len())
            .saturating_add(self.conflicts.len())
    }
}

impl<'a> Listed<'a> for SubcommandRow<'a> {
    ghost names = { λ r list. subcommand_names (subcommand_of r) list };

    ghost letters = { λ r list. subcommand_letters (subcommand_of r) list };

    ghost items = { λ r. subcommand_items (subcommand_of r) };

    fn names(&self, list: ItemList) -> &'a [&'a [u8]] {
        match list {
            ItemList::SubcommandAliases => self.aliases,
            ItemList::LongFlagAliases => self.long_aliases,
            _ => &[],
        }
    }

    fn letters(&self, list: ItemList) -> &'a [char] {
        match list {
            ItemList::LetterFlagAliases => self.letter_aliases,
            _ => &[],
        }
    }

    fn item_count(&self) -> usize {
        self.aliases
            .len()
            .saturating_add(self.long_aliases.len())
            .saturating_add(self.letter_aliases.len())
    }
}

// the names of the list of the row at the place; none past the end of the table
pub(crate) fn names_in<'a, R: Listed<'a>>(
    rows: &[R],
    list: ItemList,
    place: usize,
) -> &'a [&'a [u8]]
    ensures { bytes result.now ≡ unwrap_or (option_map (λ r. R.Listed.names r list) (slice_get rows.now place)) [] }
{
    match rows.get(place) {
        Some(row) => row.names(list),
        None => &[],
    }
}

// the letters of the list of the row at the place; none past the end of the table
pub(crate) fn letters_in<'a, R: Listed<'a>>(rows: &[R], list: ItemList, place: usize) -> &'a [char]
    ensures { result.now ≡ unwrap_or (option_map (λ r. R.Listed.letters r list) (slice_get rows.now place)) [] }
{
    match rows.get(place) {
        Some(row) => row.letters(list),
        None => &[],
    }
}

// the items of all rows of a table
pub(crate) fn total_items<'a, R: Listed<'a>>(rows: &[R]) -> usize
    ensures { result ≡ capped (summed R.Listed.items rows.now) }
{
    // not a `fold`: a closure whose bound names a lifetime gets no proof
    let mut total: usize = 0;
    for row in rows {
        total = total.saturating_add(row.item_count());
    }
    total
}
