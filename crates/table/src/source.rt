ghost use Rattle.std.specs.Prelude.{◌≡◌};
ghost use Rattle.form.specs.Lists.{names_at, letters_at};
ghost use Rattle.table.specs.Entries.{bytes};
ghost use Rattle.table.specs.Meant.{form_meant};
ghost use Rattle.table.specs.Fitted.{within_fits};

use super::listed::{letters_in, names_in};
use super::table_form::TableForm;
use form::{
    AppFlags, ArgView, EntryKind, FormSource, GroupView, ItemList, Key, Keyed, SubcommandView,
};
use keys::{count_keys, key_at};

// The lists of the entry at a place, by the entry's kind; past the end of its table there is nothing.
impl<'a> TableForm<'_, 'a> {
    fn names(&self, list: ItemList, place: usize) -> &'a [&'a [u8]]
        ensures { bytes result.now ≡ names_at (form_meant self.now) list place }
    {
        match list.owner() {
            EntryKind::Argument => names_in(self.tables.args, list, place),
            EntryKind::Group => names_in(self.tables.groups, list, place),
            EntryKind::Subcommand => names_in(self.tables.subcommands, list, place),
        }
    }

    fn letters(&self, list: ItemList, place: usize) -> &'a [char]
        ensures { result.now ≡ letters_at (form_meant self.now) list place }
    {
        match list.owner() {
            EntryKind::Argument => letters_in(self.tables.args, list, place),
            EntryKind::Group => letters_in(self.tables.groups, list, place),
            EntryKind::Subcommand => letters_in(self.tables.subcommands, list, place),
        }
    }
}

impl FormSource for TableForm<'_, '_> {
    ghost form = { form_meant };

    ghost fits = { λ s. within_fits (form_meant s) s.fits };

    fn settings(&self) -> AppFlags {
        self.tables.settings
    }

    fn is_cut(&self) -> bool {
        false
    }

    fn arg_count(&self) -> usize {
        self.tables.args.len()
    }

    fn group_count(&self) -> usize {
        self.tables.groups.len()
    }

    fn subcommand_count(&self) -> usize {
        self.tables.subcommands.len()
    }

    fn arg(&self, place: usize) -> ArgView<'_> {
        self.tables
            .args
            .get(place)
            .map_or(ArgView::new(b""), |row| row.arg)
    }

    fn group(&self, place: usize) -> GroupView<'_> {
        self.tables
            .groups
            .get(place)
            .map_or(GroupView { id: b"" }, |row| row.group)
    }

    fn subcommand(&self, place: usize) -> SubcommandView<'_> {
        self.tables
            .subcommands
            .get(place)
            .map_or(SubcommandView::new(b""), |row| row.subcommand)
    }

    fn name_count(&self, list: ItemList, place: usize) -> usize {
        self.names(list, place).len()
    }

    fn name(&self, list: ItemList, place: usize, item: usize) -> &[u8] {
        let names = self.names(list, place);
        match names.get(item) {
            Some(name) => name,
            None => b"",
        }
    }

    fn letter_count(&self, list: ItemList, place: usize) -> usize {
        self.letters(list, place).len()
    }

    fn letter(&self, list: ItemList, place: usize, item: usize) -> char {
        let letters = self.letters(list, place);
        letters.get(item).copied().unwrap_or('\0')
    }
}

impl Keyed for TableForm<'_, '_> {
    fn key_count(&self) -> usize {
        count_keys(self)
    }

    fn key(&self, i: usize) -> Option<Key<&[u8]>> {
        key_at(self, i)
    }
}
