ghost use Rattle.std.specs.Prelude.{◌≡◌, map, length, ◌==◌, nat_le};
ghost use Rattle.std.specs.List.{list_any, slice_get};
ghost use Rattle.book_tables.specs.Held.{marks};
ghost use Rattle.book_tables.specs.Steps.{mark_answer, entered_at, next_after, with_under};

use super::held::Held;
use super::table::Table;
use form::Refusal;

// Entries under their marks.
impl<T, const N: usize> Table<Held<T>, N> {
    /// Whether an entry bears the mark.
    pub(crate) fn bears(&self, mark: u16) -> bool
        ensures { result ≡ list_any (λ e. e.mark == mark) self.now.list.items }
    {
        self.as_slice().iter().any(|entry| entry.mark == mark)
    }

    /// The mark of the entry at the place; none past the end.
    pub(crate) fn mark_at(&self, place: usize) -> Option<u16>
        ensures { result ≡ slice_get (marks self.now.list.items) place }
    {
        self.get(place).map(|entry| entry.mark)
    }
}

impl<T: Copy, const N: usize> Table<Held<T>, N> {
    /// Adds an entry at the end, under the next mark.
    pub(crate) fn enter(&mut self, next: &mut u16, of: T) -> Result<u16, Refusal>
        ensures answer { result ≡ mark_answer (nat_le N (length self.old.list.items)) next.old }
        ensures items { self.new.list.items ≡ entered_at result next.old of self.old.list.items }
        ensures next { next.new ≡ next_after result next.old }
    {
        if self.is_full() {
            return Err(Refusal::TableFull);
        }
        let mark = *next;
        if mark > 60_000 {
            return Err(Refusal::MarksSpent);
        }
        self.put(Held { mark, of });
        *next = mark + 1;
        Ok(mark)
    }

    /// Puts another record under the mark, in the same place.
    pub(crate) fn replace(&mut self, mark: u16, of: T)
        ensures { self.new.list.items ≡ map (with_under mark of) self.old.list.items }
    {
        replace_in(self.list.as_mut_slice(), mark, of);
    }
}

// another record under the mark
fn replace_in<T: Copy>(entries: &mut [Held<T>], mark: u16, of: T)
    ensures { entries.new ≡ map (with_under mark of) entries.old }
{
    for entry in entries.iter_mut() {
        if entry.mark == mark {
            entry.of = of;
        }
    }
}
