ghost use Rattle.std.specs.Prelude.{◌≡◌, true};
ghost use Rattle.table.specs.Tables.{form_of, within};

use super::rows::{ArgRow, GroupRow, SubcommandRow};
use form::AppFlags;

// The tables of a definition and its settings.
#[derive(Clone, Copy)]
pub(crate) struct Tables<'t, 'a> {
    pub settings: AppFlags,
    pub args: &'t [ArgRow<'a>],
    pub groups: &'t [GroupRow<'a>],
    pub subcommands: &'t [SubcommandRow<'a>],
}

/// A keyed form over tables that the caller keeps: the rows live for `'t`, their names and lists for `'a`.
/// Tables beyond a form's limits are refused: the form is then empty, and `check` tells.
#[derive(Clone, Copy)]
pub struct TableForm<'t, 'a> {
    pub(crate) tables: Tables<'t, 'a>,
    // beside the form and not a `Result`: `new` gives a form for any tables, and `try_new` is the `Result`
    pub(crate) refused: bool,
    ghost fits: { within (form_of tables.settings.bits tables.args.now tables.groups.now tables.subcommands.now) ≡ true },
}
