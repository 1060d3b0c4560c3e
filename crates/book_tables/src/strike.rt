ghost use Rattle.std.specs.Prelude.{◌≡◌};
ghost use Rattle.calls.specs.Calls.{strike_answer, struck};
ghost use Rattle.book_tables.specs.Tables.{tables_marked};

use super::tables::Tables;
use form::Refusal;

impl Tables {
    /// Removes the entry that bears the mark, with its items.
    pub fn strike(&mut self, mark: u16) -> Result<(), Refusal>
        ensures answer { result ≡ strike_answer (tables_marked self.old) mark }
        ensures after { tables_marked self.new ≡ struck (tables_marked self.old) mark }
    {
        if !self.is_marked(mark) {
            return Err(Refusal::NoSuchMark);
        }
        self.args.sweep(mark);
        self.groups.sweep(mark);
        self.subcommands.sweep(mark);
        self.rows.sweep(mark);
        Ok(())
    }
}
