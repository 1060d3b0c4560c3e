ghost use Rattle.std.specs.Prelude.{◌≡◌};
ghost use Rattle.calls.specs.Calls.{argument, group, subcommand, alter_answer, altered};
ghost use Rattle.calls.specs.Given.{arg_given, subcommand_given};
ghost use Rattle.book_tables.specs.Tables.{tables_marked};

use super::tables::Tables;
use super::taken::{take_arg, take_name, take_subcommand};
use calls::{ArgRecord, SubcommandRecord};
use form::{EntryKind, Refusal, ValueRange};

// Each kind of entry has a record and a table of its own; one function over a trait of kinds would be no plainer than these lines.
#[tactic(auto, using(crate::proofs::Marks::marks_replaced))]
impl Tables {
    /// Replaces the record of the argument that bears the mark.
    pub fn alter_arg(
        &mut self,
        mark: u16,
        details: ArgRecord<&[u8], ValueRange>,
    ) -> Result<(), Refusal>
        ensures answer { result ≡ alter_answer (tables_marked self.old) mark (argument (arg_given details.entry)) }
        ensures after { tables_marked self.new ≡ altered (tables_marked self.old) mark (argument (arg_given details.entry)) }
    {
        self.seek(EntryKind::Argument, mark)?;
        let of = take_arg(details)?;
        self.args.replace(mark, of);
        Ok(())
    }

    pub fn alter_group(&mut self, mark: u16, id: &[u8]) -> Result<(), Refusal>
        ensures answer { result ≡ alter_answer (tables_marked self.old) mark (group id.now) }
        ensures after { tables_marked self.new ≡ altered (tables_marked self.old) mark (group id.now) }
    {
        self.seek(EntryKind::Group, mark)?;
        let of = take_name(id)?;
        self.groups.replace(mark, of);
        Ok(())
    }

    pub fn alter_subcommand(
        &mut self,
        mark: u16,
        details: SubcommandRecord<&[u8]>,
    ) -> Result<(), Refusal>
        ensures answer { result ≡ alter_answer (tables_marked self.old) mark (subcommand (subcommand_given details.entry)) }
        ensures after { tables_marked self.new ≡ altered (tables_marked self.old) mark (subcommand (subcommand_given details.entry)) }
    {
        self.seek(EntryKind::Subcommand, mark)?;
        let of = take_subcommand(details)?;
        self.subcommands.replace(mark, of);
        Ok(())
    }
}
