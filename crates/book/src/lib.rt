//! A book: a form that calls make and change. An open book takes the calls; a built one shows its form and its keys.
#![tactic(auto)]

mod key_pushes;
mod open;
mod source;
mod states;

pub use states::{BuiltBook, OpenBook};

#[cfg(test)]
mod tests {
    use super::OpenBook;
    use calls::Item;
    use form::{FormSource, Refusal};
    use std::test::Fail;

    #[test]
    fn marks_run_out_after_60_000(rt: HostRuntime) -> Result<(), Fail> {
        let mut book = OpenBook::new(rt.alloc())?;
        for given in 1..=60_000u16 {
            assert!(rt; book.enter_group(b"g") == Ok(given));
            assert!(rt; book.strike(given) == Ok(()));
        }
        assert!(rt; book.enter_group(b"g") == Err(Refusal::MarksSpent));
        assert!(rt; book.strike(60_000) == Err(Refusal::NoSuchMark));
        Ok(())
    }

    #[test]
    fn rows_run_out_after_512(rt: HostRuntime) -> Result<(), Fail> {
        let mut book = OpenBook::new(rt.alloc())?;
        assert!(rt; book.enter_group(b"g") == Ok(1));
        for _ in 0..512 {
            assert!(rt; book.attach(1, 10, Item::Name(b"x")) == Ok(()));
        }
        assert!(rt; book.attach(1, 10, Item::Name(b"x")) == Err(Refusal::RowsTaken));
        assert!(rt; book.strike(1) == Ok(()));
        assert!(rt; book.enter_group(b"h") == Ok(2));
        assert!(rt; book.attach(2, 10, Item::Name(b"x")) == Ok(()));
        Ok(())
    }

    #[test]
    fn a_table_of_16_groups_is_full_until_one_is_struck(rt: HostRuntime) -> Result<(), Fail> {
        let mut book = OpenBook::new(rt.alloc())?;
        for given in 1..=16u16 {
            assert!(rt; book.enter_group(b"g") == Ok(given));
        }
        assert!(rt; book.enter_group(b"g") == Err(Refusal::TableFull));
        assert!(rt; book.strike(3) == Ok(()));
        assert!(rt; book.enter_group(b"late") == Ok(17));
        let built = book.build();
        assert!(rt; built.group_count() == 16);
        assert!(rt; built.group(15).id == b"late".as_slice());
        Ok(())
    }
}
