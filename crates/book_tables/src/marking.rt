ghost use Rattle.std.specs.Prelude.{◌≡◌};
ghost use Rattle.calls.specs.Calls.{marked, marked_kind};
ghost use Rattle.book_tables.specs.Rows.{mark_at};
ghost use Rattle.book_tables.specs.Steps.{mark_sought};
ghost use Rattle.book_tables.specs.Tables.{tables_marked};

use super::tables::Tables;
use form::{EntryKind, Refusal};

#[tactic(auto, using(crate::proofs::Marks::bears_held, crate::specs::Fitted::marks_held), unfolding(crate::specs::Tables::tables_marked))]
impl Tables {
    /// Whether an entry of the kind bears the mark.
    pub(crate) fn is_marked_as(&self, kind: EntryKind, mark: u16) -> bool
        ensures { result ≡ marked_kind (tables_marked self.now) mark kind }
    {
        match kind {
            EntryKind::Argument => self.args.bears(mark),
            EntryKind::Group => self.groups.bears(mark),
            EntryKind::Subcommand => self.subcommands.bears(mark),
        }
    }

    /// Whether such an entry is there.
    pub(crate) fn seek(&self, kind: EntryKind, mark: u16) -> Result<(), Refusal>
        ensures { result ≡ mark_sought (tables_marked self.now) mark kind }
    {
        if self.is_marked_as(kind, mark) {
            Ok(())
        } else {
            Err(Refusal::NoSuchMark)
        }
    }

    /// Whether any entry bears the mark.
    pub(crate) fn is_marked(&self, mark: u16) -> bool
        ensures { result ≡ marked (tables_marked self.now) mark }
    {
        self.is_marked_as(EntryKind::Argument, mark)
            || self.is_marked_as(EntryKind::Group, mark)
            || self.is_marked_as(EntryKind::Subcommand, mark)
    }

    /// The mark of the entry at the place of the table of that kind; none past its end.
    pub fn mark_at(&self, kind: EntryKind, place: usize) -> Option<u16>
        ensures { result ≡ mark_at (tables_marked self.now) kind place }
    {
        match kind {
            EntryKind::Argument => self.args.mark_at(place),
            EntryKind::Group => self.groups.mark_at(place),
            EntryKind::Subcommand => self.subcommands.mark_at(place),
        }
    }
}
