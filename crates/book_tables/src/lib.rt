//! The tables of a book: marked entries and rows of items, with all the room that they will ever need, and the calls that change them.
#![tactic(auto)]

mod alter;
mod attach;
mod enter;
mod fault;
mod held;
mod lists_at;
mod made;
mod marked;
mod marking;
mod rows;
mod strike;
mod sweep;
mod table;
mod tables;
mod taken;

pub use fault::TableFault;
pub use held::{Held, HeldItem, ItemRow};
pub use table::Table;
pub use tables::Tables;

#[cfg(test)]
mod tests {
    use super::{Table, TableFault};
    use std::test::Fail;

    #[test]
    fn a_table_is_made_and_filled(rt: HostRuntime) -> Result<(), Fail> {
        let mut table: Table<u8, 2> = Table::new(rt.alloc())?;
        assert!(rt; table.len() == 0);
        assert!(rt; table.push(7).is_ok());
        assert!(rt; table.push(8).is_ok());
        assert!(rt; table.push(9) == Err(TableFault::Full));
        assert!(rt; table.as_slice() == [7, 8].as_slice());
        assert!(rt; table.get(1).copied() == Some(8));
        table.clear();
        assert!(rt; table.get(0).is_none());
        Ok(())
    }
}
