ghost use Rattle.std.specs.Prelude.{◌≡◌, ◌<◌, ◌≤◌, [], ◌∷◌, ◌++◌, length, vec_len, vec_capacity, nat_le, Ok, Err, if◌then◌else◌, IfOk};
ghost use Rattle.std.specs.Option.{option_map};
ghost use Rattle.std.specs.List.{slice_get};
ghost use Rattle.book_tables.specs.declared.fault.TableFault.TheVariants.{Full};

use super::fault::TableFault;
use std::alloc::{AllocError, Global};

/// At most `N` things in a row, with room for all of them from the first on.
#[derive(Drop)]
pub struct Table<T, const N: usize> {
    pub(crate) list: Vec<T>,
    ghost few: { vec_len list ≤ N },
    ghost room: { N ≤ vec_capacity list },
}

impl<T, const N: usize> Table<T, N> {
    /// An empty table; the memory for a full one is reserved here.
    pub fn new(heap: Global) -> Result<Table<T, N>, AllocError>
        ensures { IfOk result (λ t. t.list.items ≡ []) }
    {
        let list = Vec::with_capacity(heap, N)?;
        Ok(Table { list })
    }

    /// All that stands there, in order.
    pub fn as_slice(&self) -> &[T]
        ensures { result.now ≡ self.now.list.items }
    {
        self.list.as_slice()
    }

    /// What stands at the place; none past the end.
    pub fn get(&self, place: usize) -> Option<&T>
        ensures { option_map (λ x. x.now) result ≡ slice_get self.now.list.items place }
    {
        self.as_slice().get(place)
    }

    pub fn len(&self) -> usize
        ensures { result ≡ length self.now.list.items }
    {
        self.list.len()
    }

    pub(crate) fn is_full(&self) -> bool
        ensures { result ≡ nat_le N (length self.now.list.items) }
    {
        self.len() >= N
    }

    // one more, behind the others, where there is room
    pub(crate) fn put(&mut self, item: T)
        requires { length self.old.list.items < N }
        ensures { self.new.list.items ≡ self.old.list.items ++ item ∷ [] }
    {
        self.list.push_reserved(item);
    }
}

impl<T: Drop, const N: usize> Table<T, N> {
    /// One more, behind the others.
    pub fn push(&mut self, item: T) -> Result<(), TableFault>
        ensures answer { result ≡ (if nat_le N (length self.old.list.items) then Err Full else Ok tt) }
        ensures items { self.new.list.items ≡ (if nat_le N (length self.old.list.items) then self.old.list.items else self.old.list.items ++ item ∷ []) }
    {
        if self.is_full() {
            return Err(TableFault::Full);
        }
        self.put(item);
        Ok(())
    }

    pub fn clear(&mut self)
        ensures { self.new.list.items ≡ [] }
    {
        self.list.clear();
    }
}
