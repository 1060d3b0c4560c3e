ghost use Rattle.std.specs.Prelude.{◌≡◌, Some};
ghost use Rattle.calls.specs.Calls.{takes, same_sort, sort_of, attach_answer, attached};
ghost use Rattle.calls.specs.Given.{item_given};
ghost use Rattle.book_tables.specs.Tables.{tables_marked};

use super::held::ItemRow;
use super::tables::Tables;
use super::taken::take_item;
use calls::Item;
use form::{ItemList, ItemSort, Refusal};

// whether the item is of the sort
fn is_sort(item: Item<&[u8]>, sort: ItemSort) -> bool
    ensures { result ≡ same_sort sort (sort_of (item_given item.entry)) }
{
    match item {
        Item::Name(_) => sort == ItemSort::Name,
        Item::Letter(_) => sort == ItemSort::Letter,
    }
}

impl Tables {
    // whether the list is one of the marked entry, and holds that sort of item
    fn takes_item(&self, mark: u16, list: ItemList, item: Item<&[u8]>) -> bool
        ensures { result ≡ takes (tables_marked self.now) mark (Some list) (item_given item.entry) }
    {
        self.is_marked_as(list.owner(), mark) && is_sort(item, list.sort())
    }

    /// Appends the item to the list of the marked entry.
    #[tactic(auto, unfolding(crate::specs::Tables::tables_marked))]
    pub fn attach(&mut self, mark: u16, list: u8, item: Item<&[u8]>) -> Result<(), Refusal>
        ensures answer { result ≡ attach_answer (tables_marked self.old) mark list (item_given item.entry) }
        ensures after { tables_marked self.new ≡ attached (tables_marked self.old) mark list (item_given item.entry) }
    {
        if !self.is_marked(mark) {
            return Err(Refusal::NoSuchMark);
        }
        let Ok(list) = ItemList::try_from(list) else {
            return Err(Refusal::WrongList);
        };
        if !self.takes_item(mark, list, item) {
            return Err(Refusal::WrongList);
        }
        let item = take_item(item)?;
        let row = ItemRow {
            owner: mark,
            list,
            item,
        };
        self.rows.push(row).map_err(|_| Refusal::RowsTaken)
    }
}
