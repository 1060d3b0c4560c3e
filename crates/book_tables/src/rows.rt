ghost use Rattle.std.specs.Prelude.{◌≡◌, length, filter};
ghost use Rattle.std.specs.Option.{option_map};
ghost use Rattle.std.specs.List.{slice_get};
ghost use Rattle.calls.specs.Calls.{same_sort, sort_of};
ghost use Rattle.calls.specs.Marked.{is_of};
ghost use Rattle.book_tables.specs.Held.{item_held, row_held};
ghost use Rattle.book_tables.specs.Rows.{named, lettered, row_adds};

use super::held::{HeldItem, ItemRow};
use form::{ItemList, ItemSort};

impl HeldItem {
    /// The bytes of a name; empty for a letter, as a source shows what is not there.
    pub(crate) fn name(&self) -> &[u8]
        ensures { result.now ≡ named (item_held self.now) }
    {
        match self {
            HeldItem::Name(name) => name.as_bytes(),
            HeldItem::Letter(_) => b"",
        }
    }

    /// The letter; U+0000 for a name, as a source shows what is not there.
    pub(crate) fn letter(&self) -> char
        ensures { result ≡ lettered (item_held self.now) }
    {
        match self {
            HeldItem::Name(_) => '\0',
            HeldItem::Letter(letter) => *letter,
        }
    }

    fn is_sort(&self, sort: ItemSort) -> bool
        ensures { result ≡ same_sort sort (sort_of (item_held self.now)) }
    {
        match self {
            HeldItem::Name(_) => sort == ItemSort::Name,
            HeldItem::Letter(_) => sort == ItemSort::Letter,
        }
    }
}

impl ItemRow {
    // whether the row is of the marked entry and the list
    fn is_of(&self, mark: u16, list: ItemList) -> bool
        ensures { result ≡ is_of mark list (row_held self.now) }
    {
        self.owner == mark && self.list == list
    }

    /// Whether the row adds its item to the list of the marked entry.
    pub fn adds_to(&self, mark: u16, list: ItemList) -> bool
        ensures { result ≡ row_adds mark list (row_held self.now) }
    {
        self.is_of(mark, list) && self.item.is_sort(list.sort())
    }
}

/// How many items the list of the marked entry has.
pub(crate) fn count_items(rows: &[ItemRow], mark: u16, list: ItemList) -> usize
    ensures { result ≡ length (filter (λ r. row_adds mark list (row_held r)) rows.now) }
{
    rows.iter().filter(|row| row.adds_to(mark, list)).count()
}

/// The row of an item of the list of the marked entry; none past its end.
pub(crate) fn nth_item(rows: &[ItemRow], mark: u16, list: ItemList, item: usize) -> Option<&ItemRow>
    ensures { option_map (λ x. x.now) result ≡ slice_get (filter (λ r. row_adds mark list (row_held r)) rows.now) item }
{
    rows.iter().filter(|row| row.adds_to(mark, list)).nth(item)
}
