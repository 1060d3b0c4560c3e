ghost use Rattle.std.specs.Prelude.{◌≡◌, [], length, slice_index, slice_index_or};
ghost use Rattle.std.specs.Option.{option_map};
ghost use Rattle.std.specs.List.{slice_get};
ghost use Rattle.form.specs.Lists.{names_at, letters_at};
ghost use Rattle.calls.specs.Marked.{form_of};
ghost use Rattle.book_tables.specs.Held.{item_held};
ghost use Rattle.book_tables.specs.Rows.{owner_at, items_at};
ghost use Rattle.book_tables.specs.Tables.{tables_marked};

use super::held::HeldItem;
use super::rows::{count_items, nth_item};
use super::tables::Tables;
use form::{ItemList, ItemSort};

// The lists of the entry at a place; past the end of its table there is nothing.
impl Tables {
    // the mark of the entry whose list stands at the place; none where the list holds items of the other sort
    fn owner_at(&self, sort: ItemSort, list: ItemList, place: usize) -> Option<u16>
        ensures { result ≡ owner_at (tables_marked self.now) sort list place }
    {
        if list.sort() == sort {
            self.mark_at(list.owner(), place)
        } else {
            None
        }
    }

    // how many items of the sort the list has
    fn item_count(&self, sort: ItemSort, list: ItemList, place: usize) -> usize
        ensures { result ≡ length (items_at (tables_marked self.now) sort list place) }
    {
        match self.owner_at(sort, list, place) {
            Some(mark) => count_items(self.rows.as_slice(), mark, list),
            None => 0,
        }
    }

    // an item of the list; none past its end
    fn item(&self, sort: ItemSort, list: ItemList, place: usize, item: usize) -> Option<&HeldItem>
        ensures { option_map (λ x. item_held x.now) result ≡ slice_get (items_at (tables_marked self.now) sort list place) item }
    {
        let mark = self.owner_at(sort, list, place)?;
        let row = nth_item(self.rows.as_slice(), mark, list, item)?;
        Some(&row.item)
    }

    pub fn name_count(&self, list: ItemList, place: usize) -> usize
        ensures { result ≡ length (names_at (form_of (tables_marked self.now)) list place) }
    {
        self.item_count(ItemSort::Name, list, place)
    }

    pub fn name(&self, list: ItemList, place: usize, item: usize) -> &[u8]
        ensures { result.now ≡ slice_index_or (names_at (form_of (tables_marked self.now)) list place) item [] }
    {
        match self.item(ItemSort::Name, list, place, item) {
            Some(item) => item.name(),
            None => b"",
        }
    }

    pub fn letter_count(&self, list: ItemList, place: usize) -> usize
        ensures { result ≡ length (letters_at (form_of (tables_marked self.now)) list place) }
    {
        self.item_count(ItemSort::Letter, list, place)
    }

    pub fn letter(&self, list: ItemList, place: usize, item: usize) -> char
        ensures { result ≡ slice_index (letters_at (form_of (tables_marked self.now)) list place) item }
    {
        match self.item(ItemSort::Letter, list, place, item) {
            Some(item) => item.letter(),
            None => '\0',
        }
    }
}
