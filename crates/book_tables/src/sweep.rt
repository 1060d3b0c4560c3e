ghost use Rattle.std.specs.Prelude.{◌≡◌, ℕ, not, filter, ◌==◌};

use super::held::{Held, ItemRow};
use super::table::Table;

/// What stands in a table for the entry of a mark: the entry itself, or an item of it.
pub(crate) trait Owned {
    ghost whose: { Self → ℕ };

    fn owner(&self) -> u16
        ensures { result ≡ whose self.now };
}

impl<T> Owned for Held<T> {
    ghost whose = { λ e. e.mark };

    fn owner(&self) -> u16 {
        self.mark
    }
}

impl Owned for ItemRow {
    ghost whose = { λ r. r.owner };

    fn owner(&self) -> u16 {
        self.owner
    }
}

impl<T: Owned + Drop, const N: usize> Table<T, N> {
    /// Takes out what stands for the entry of the mark; the rest closes up.
    pub(crate) fn sweep(&mut self, mark: u16)
        ensures { self.new.list.items ≡ filter (λ x. not (T.Owned.whose x == mark)) self.old.list.items }
    {
        self.list.retain(|item| item.owner() != mark);
    }
}
