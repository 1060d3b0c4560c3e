ghost use Rattle.book.specs.Books.{built_form, built_fits};

use super::states::BuiltBook;
use form::{AppFlags, ArgView, FormSource, GroupView, ItemList, Key, Keyed, SubcommandView};

/// A built book shows its form; an open one does not.
#[tactic(auto, using(book_tables::proofs::Places::entry_at, book_tables::proofs::Places::past_entries, book_tables::specs::Fitted::entries_long), unfolding(book_tables::specs::Tables::tables_marked))]
impl FormSource for BuiltBook {
    ghost form = { built_form };

    ghost fits = { built_fits };

    fn settings(&self) -> AppFlags {
        self.tables.settings
    }

    fn is_cut(&self) -> bool {
        false
    }

    fn arg_count(&self) -> usize {
        self.tables.args.len()
    }

    fn group_count(&self) -> usize {
        self.tables.groups.len()
    }

    fn subcommand_count(&self) -> usize {
        self.tables.subcommands.len()
    }

    fn arg(&self, place: usize) -> ArgView<'_> {
        match self.tables.args.get(place) {
            Some(arg) => arg.of.view(),
            None => ArgView::new(b""),
        }
    }

    fn group(&self, place: usize) -> GroupView<'_> {
        match self.tables.groups.get(place) {
            Some(group) => GroupView {
                id: group.of.as_bytes(),
            },
            None => GroupView { id: b"" },
        }
    }

    fn subcommand(&self, place: usize) -> SubcommandView<'_> {
        match self.tables.subcommands.get(place) {
            Some(subcommand) => subcommand.of.view(),
            None => SubcommandView::new(b""),
        }
    }

    fn name_count(&self, list: ItemList, place: usize) -> usize {
        self.tables.name_count(list, place)
    }

    fn name(&self, list: ItemList, place: usize, item: usize) -> &[u8] {
        self.tables.name(list, place, item)
    }

    fn letter_count(&self, list: ItemList, place: usize) -> usize {
        self.tables.letter_count(list, place)
    }

    fn letter(&self, list: ItemList, place: usize, item: usize) -> char {
        self.tables.letter(list, place, item)
    }
}

/// Its keys are stored.
#[tactic(auto, using(crate::specs::Books::keys_counted))]
impl Keyed for BuiltBook {
    fn key_count(&self) -> usize {
        self.keys.len()
    }

    fn key(&self, i: usize) -> Option<Key<&[u8]>> {
        self.keys.get(i).map(|key| key.view())
    }
}
