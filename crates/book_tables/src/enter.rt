ghost use Rattle.std.specs.Prelude.{◌≡◌};
ghost use Rattle.calls.specs.Calls.{argument, group, subcommand, enter_answer, entered};
ghost use Rattle.calls.specs.Given.{arg_given, subcommand_given};
ghost use Rattle.book_tables.specs.Tables.{tables_marked};

use super::tables::Tables;
use super::taken::{take_arg, take_name, take_subcommand};
use calls::{ArgRecord, SubcommandRecord};
use form::{Refusal, ValueRange};

// As with `alter_`: what the kinds share stands in `Table::enter`.
#[tactic(auto, using(crate::proofs::Steps::next_few, crate::proofs::Steps::climbing_on, crate::proofs::Steps::climbing_entered))]
impl Tables {
    /// Adds an argument at its table's end, and answers its mark.
    pub fn enter_arg(&mut self, details: ArgRecord<&[u8], ValueRange>) -> Result<u16, Refusal>
        ensures answer { result ≡ enter_answer (tables_marked self.old) (argument (arg_given details.entry)) }
        ensures after { tables_marked self.new ≡ entered (tables_marked self.old) (argument (arg_given details.entry)) }
    {
        let of = take_arg(details)?;
        self.args.enter(&mut self.next, of)
    }

    pub fn enter_group(&mut self, id: &[u8]) -> Result<u16, Refusal>
        ensures answer { result ≡ enter_answer (tables_marked self.old) (group id.now) }
        ensures after { tables_marked self.new ≡ entered (tables_marked self.old) (group id.now) }
    {
        let of = take_name(id)?;
        self.groups.enter(&mut self.next, of)
    }

    pub fn enter_subcommand(&mut self, details: SubcommandRecord<&[u8]>) -> Result<u16, Refusal>
        ensures answer { result ≡ enter_answer (tables_marked self.old) (subcommand (subcommand_given details.entry)) }
        ensures after { tables_marked self.new ≡ entered (tables_marked self.old) (subcommand (subcommand_given details.entry)) }
    {
        let of = take_subcommand(details)?;
        self.subcommands.enter(&mut self.next, of)
    }
}
