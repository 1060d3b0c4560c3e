ghost use Rattle.std.specs.Prelude.{◌≡◌, IfOk};
ghost use Rattle.calls.specs.Marked.{blank};
ghost use Rattle.calls.specs.Calls.{argument, group, subcommand, enter_answer, entered, alter_answer, altered, strike_answer, struck, attach_answer, attached, with_settings};
ghost use Rattle.calls.specs.Given.{arg_given, subcommand_given, given, item_given};
ghost use Rattle.book_tables.specs.Rows.{mark_at};
ghost use Rattle.book.specs.Books.{open_marked, built_marked};

use super::key_pushes::push_all;
use super::states::{BuiltBook, OpenBook};
use book_tables::{Table, Tables};
use calls::{ArgRecord, Item, Record, SubcommandRecord};
use form::{EntryKind, Refusal, ValueRange};
use std::alloc::{AllocError, Global};

// Each call is handed on to the tables: through this layer an edit of the tables is tried without the keys.
impl OpenBook {
    /// An empty book. It reserves all the memory that it will ever need: no later call fails for want of memory.
    pub fn new(heap: Global) -> Result<OpenBook, AllocError>
        ensures { IfOk result (λ b. open_marked b ≡ blank) }
    {
        let tables = Tables::new(heap)?;
        let keys = Table::new(heap)?;
        Ok(OpenBook { tables, keys })
    }

    /// Adds an entry at its table's end, and answers its mark.
    pub fn enter(&mut self, details: Record<&[u8], ValueRange>) -> Result<u16, Refusal>
        ensures answer { result ≡ enter_answer (open_marked self.old) (given details.entry) }
        ensures after { open_marked self.new ≡ entered (open_marked self.old) (given details.entry) }
    {
        match details {
            Record::Argument(details) => self.enter_arg(details),
            Record::Group(id) => self.enter_group(id),
            Record::Subcommand(details) => self.enter_subcommand(details),
        }
    }

    /// Adds an argument at its table's end, and answers its mark.
    pub fn enter_arg(&mut self, details: ArgRecord<&[u8], ValueRange>) -> Result<u16, Refusal>
        ensures answer { result ≡ enter_answer (open_marked self.old) (argument (arg_given details.entry)) }
        ensures after { open_marked self.new ≡ entered (open_marked self.old) (argument (arg_given details.entry)) }
    {
        self.tables.enter_arg(details)
    }

    /// Adds a group at its table's end, and answers its mark.
    pub fn enter_group(&mut self, id: &[u8]) -> Result<u16, Refusal>
        ensures answer { result ≡ enter_answer (open_marked self.old) (group id.now) }
        ensures after { open_marked self.new ≡ entered (open_marked self.old) (group id.now) }
    {
        self.tables.enter_group(id)
    }

    /// Adds a subcommand at its table's end, and answers its mark.
    pub fn enter_subcommand(&mut self, details: SubcommandRecord<&[u8]>) -> Result<u16, Refusal>
        ensures answer { result ≡ enter_answer (open_marked self.old) (subcommand (subcommand_given details.entry)) }
        ensures after { open_marked self.new ≡ entered (open_marked self.old) (subcommand (subcommand_given details.entry)) }
    {
        self.tables.enter_subcommand(details)
    }

    /// Replaces the record of the entry that bears the mark and is of that kind; it keeps mark, place and items.
    pub fn alter(&mut self, mark: u16, details: Record<&[u8], ValueRange>) -> Result<(), Refusal>
        ensures answer { result ≡ alter_answer (open_marked self.old) mark (given details.entry) }
        ensures after { open_marked self.new ≡ altered (open_marked self.old) mark (given details.entry) }
    {
        match details {
            Record::Argument(details) => self.alter_arg(mark, details),
            Record::Group(id) => self.alter_group(mark, id),
            Record::Subcommand(details) => self.alter_subcommand(mark, details),
        }
    }

    /// Replaces the record of the argument that bears the mark; it keeps mark, place and items.
    pub fn alter_arg(
        &mut self,
        mark: u16,
        details: ArgRecord<&[u8], ValueRange>,
    ) -> Result<(), Refusal>
        ensures answer { result ≡ alter_answer (open_marked self.old) mark (argument (arg_given details.entry)) }
        ensures after { open_marked self.new ≡ altered (open_marked self.old) mark (argument (arg_given details.entry)) }
    {
        self.tables.alter_arg(mark, details)
    }

    /// The same for a group.
    pub fn alter_group(&mut self, mark: u16, id: &[u8]) -> Result<(), Refusal>
        ensures answer { result ≡ alter_answer (open_marked self.old) mark (group id.now) }
        ensures after { open_marked self.new ≡ altered (open_marked self.old) mark (group id.now) }
    {
        self.tables.alter_group(mark, id)
    }

    /// The same for a subcommand.
    pub fn alter_subcommand(
        &mut self,
        mark: u16,
        details: SubcommandRecord<&[u8]>,
    ) -> Result<(), Refusal>
        ensures answer { result ≡ alter_answer (open_marked self.old) mark (subcommand (subcommand_given details.entry)) }
        ensures after { open_marked self.new ≡ altered (open_marked self.old) mark (subcommand (subcommand_given details.entry)) }
    {
        self.tables.alter_subcommand(mark, details)
    }

    /// Removes the entry that bears the mark, with its items; later places close up.
    pub fn strike(&mut self, mark: u16) -> Result<(), Refusal>
        ensures answer { result ≡ strike_answer (open_marked self.old) mark }
        ensures after { open_marked self.new ≡ struck (open_marked self.old) mark }
    {
        self.tables.strike(mark)
    }

    /// Appends the item to that list of the entry that bears the mark.
    pub fn attach(&mut self, mark: u16, list: u8, item: Item<&[u8]>) -> Result<(), Refusal>
        ensures answer { result ≡ attach_answer (open_marked self.old) mark list (item_given item.entry) }
        ensures after { open_marked self.new ≡ attached (open_marked self.old) mark list (item_given item.entry) }
    {
        self.tables.attach(mark, list, item)
    }

    /// Replaces all settings of the form.
    pub fn set(&mut self, settings: u16)
        ensures { open_marked self.new ≡ with_settings (open_marked self.old) settings }
    {
        self.tables.set(settings);
    }

    /// Open to built: the keys are worked out, and the form stays as it is.
    pub fn build(self) -> BuiltBook
        ensures { built_marked result ≡ open_marked self }
    {
        let OpenBook { tables, mut keys } = self;
        push_all(&mut keys, tables.args.as_slice(), tables.rows.as_slice());
        BuiltBook { tables, keys }
    }
}

impl BuiltBook {
    /// The mark of the entry at the place of the table of that kind; none past its end.
    pub fn mark(&self, kind: EntryKind, place: usize) -> Option<u16>
        ensures { result ≡ mark_at (built_marked self.now) kind place }
    {
        self.tables.mark_at(kind, place)
    }

    /// Built to open: the keys go, and the form stays as it is.
    pub fn reopen(self) -> OpenBook
        ensures { open_marked result ≡ built_marked self }
    {
        let BuiltBook { tables, mut keys } = self;
        keys.clear();
        OpenBook { tables, keys }
    }
}
