use form::{ItemList, Name};

/// Something that a table holds under its mark.
#[derive(Clone, Copy)]
pub struct Held<T> {
    pub mark: u16,
    pub of: T,
}

/// An item, held in place. A type of its own beside `calls::Item`, whose letters are any 32 bits: as a parameter they would
/// stand in every call.
#[derive(Clone, Copy)]
pub enum HeldItem {
    Name(Name),
    Letter(char),
}

/// An item of the entry that bears the mark `owner`, under one of its lists.
#[derive(Clone, Copy)]
pub struct ItemRow {
    pub owner: u16,
    pub list: ItemList,
    pub item: HeldItem,
}
