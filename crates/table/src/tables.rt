ghost use Rattle.std.specs.Prelude.{◌≡◌, true, [], if◌then◌else◌, Ok, Err};
ghost use Rattle.form.specs.Model.{empty_form};
ghost use Rattle.form.specs.declared.refusal.Refusal.TheVariants as refusal;
ghost use Rattle.table.specs.Tables.{form_of, within};
ghost use Rattle.table.specs.Meant.{form_meant, tables_meant, Made, Taken};

use super::listed::total_items;
use super::rows::{ArgRow, GroupRow, SubcommandRow};
use super::table_form::{TableForm, Tables};
use form::{AppFlags, MAX_ARGS, MAX_GROUPS, MAX_ITEMS, MAX_SUBCOMMANDS, Refusal};

impl<'t, 'a> Tables<'t, 'a> {
    fn of_args(settings: AppFlags, args: &'t [ArgRow<'a>]) -> Tables<'t, 'a>
        ensures { tables_meant result ≡ form_of settings.bits args.now [] [] }
    {
        Tables {
            settings,
            args,
            groups: &[],
            subcommands: &[],
        }
    }

    // whether they are within the limits of a form
    fn is_within(&self) -> bool
        ensures { result ≡ within (tables_meant self.now) }
    {
        if self.args.len() > MAX_ARGS
            || self.groups.len() > MAX_GROUPS
            || self.subcommands.len() > MAX_SUBCOMMANDS
        {
            return false;
        }
        let items = total_items(self.args)
            .saturating_add(total_items(self.groups))
            .saturating_add(total_items(self.subcommands));
        items <= MAX_ITEMS
    }

    // the form of the tables, or why they are refused
    fn taken(self) -> Result<TableForm<'t, 'a>, Refusal>
        ensures { Taken result (tables_meant self.entry) }
    {
        if !self.is_within() {
            return Err(Refusal::BeyondLimits);
        }
        Ok(TableForm {
            tables: self,
            refused: false,
        })
    }
}

impl<'t, 'a> TableForm<'t, 'a> {
    // what stands for tables that are refused
    fn refused() -> TableForm<'t, 'a>
        ensures { (form_meant result ≡ empty_form) × (result.refused ≡ true) }
    {
        let tables = Tables {
            settings: AppFlags::from_bits(0),
            args: &[],
            groups: &[],
            subcommands: &[],
        };
        TableForm {
            tables,
            refused: true,
        }
    }

    /// The form of the tables; refused with 116 where they are beyond the limits of a form.
    pub fn try_new(
        settings: AppFlags,
        args: &'t [ArgRow<'a>],
        groups: &'t [GroupRow<'a>],
        subcommands: &'t [SubcommandRow<'a>],
    ) -> Result<TableForm<'t, 'a>, Refusal>
        ensures { Taken result (form_of settings.bits args.now groups.now subcommands.now) }
    {
        Tables {
            settings,
            args,
            groups,
            subcommands,
        }
        .taken()
    }

    /// The form of the tables, or an empty one where they are beyond the limits.
    pub fn new(
        settings: AppFlags,
        args: &'t [ArgRow<'a>],
        groups: &'t [GroupRow<'a>],
        subcommands: &'t [SubcommandRow<'a>],
    ) -> TableForm<'t, 'a>
        ensures { Made result (form_of settings.bits args.now groups.now subcommands.now) }
    {
        TableForm::try_new(settings, args, groups, subcommands).unwrap_or(TableForm::refused())
    }

    /// The form of a table of arguments alone.
    pub fn of_args(settings: AppFlags, args: &'t [ArgRow<'a>]) -> TableForm<'t, 'a>
        ensures { Made result (form_of settings.bits args.now [] []) }
    {
        let tables = Tables::of_args(settings, args);
        tables.taken().unwrap_or(TableForm::refused())
    }

    /// Whether the tables were taken; they are refused where they are beyond the limits of a form.
    pub fn check(&self) -> Result<(), Refusal>
        ensures { result ≡ (if self.now.refused then Err refusal.BeyondLimits else Ok tt) }
    {
        if self.refused {
            Err(Refusal::BeyondLimits)
        } else {
            Ok(())
        }
    }
}
