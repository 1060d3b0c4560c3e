ghost use Rattle.std.specs.Prelude.{◌≡◌, IfOk};
ghost use Rattle.calls.specs.Marked.{blank};
ghost use Rattle.calls.specs.Calls.{with_settings};
ghost use Rattle.book_tables.specs.Tables.{tables_marked};

use super::table::Table;
use super::tables::Tables;
use form::AppFlags;
use std::alloc::{AllocError, Global};

impl Tables {
    /// Empty tables; the memory for full ones is reserved here.
    #[tactic(auto, unfolding(crate::specs::Tables::tables_marked, crate::specs::Marks::climbing))]
    pub fn new(heap: Global) -> Result<Tables, AllocError>
        ensures { IfOk result (λ t. tables_marked t ≡ blank) }
    {
        Ok(Tables {
            settings: AppFlags::from_bits(0),
            args: Table::new(heap)?,
            groups: Table::new(heap)?,
            subcommands: Table::new(heap)?,
            rows: Table::new(heap)?,
            next: 1,
        })
    }

    /// Replaces all settings of the form.
    #[tactic(auto, unfolding(crate::specs::Tables::tables_marked))]
    pub fn set(&mut self, settings: u16)
        ensures { tables_marked self.new ≡ with_settings (tables_marked self.old) settings }
    {
        self.settings = AppFlags::from_bits(settings);
    }
}
