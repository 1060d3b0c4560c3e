ghost use Rattle.std.specs.Prelude.{◌≡◌, length};
ghost use Rattle.form.specs.Model.{Form};
ghost use Rattle.rules.specs.Words.{owners};
ghost use Rattle.rules.specs.Rows as rows;
ghost use Rattle.survey.specs.FlagOwners.{owner_in, owner_numbered};

use form::FormSource;
use rules::Entry;
use sinks::{argument_at, subcommand_at};

/// Something that has flags, told by its place in its table.
#[derive(Clone, Copy)]
pub enum FlagOwner {
    Subcommand(usize),
    Argument(usize),
}

impl FlagOwner {
    /// The entry that the owner is.
    pub fn entry(self) -> Entry
        ensures { (f : Form) → result ≡ (owner_in f self).entry }
    {
        match self {
            FlagOwner::Subcommand(place) => subcommand_at(place),
            FlagOwner::Argument(place) => argument_at(place),
        }
    }
}

/// How many owners of flags the form has.
pub(crate) fn owner_count<F: FormSource>(form: &F) -> usize
    ensures { result ≡ length (owners (F.FormSource.form form.now)) }
{
    form.subcommand_count() + form.arg_count()
}

/// An owner by its number: the subcommands come first, then the arguments.
pub(crate) fn owner_at<F: FormSource>(form: &F, number: usize) -> FlagOwner
    ensures { owner_in (F.FormSource.form form.now) result ≡ owner_numbered (F.FormSource.form form.now) number }
{
    let subcommands = form.subcommand_count();
    if number < subcommands {
        FlagOwner::Subcommand(number)
    } else {
        FlagOwner::Argument(number - subcommands)
    }
}

/// The id of an owner: a subcommand's name, an argument's id.
fn owner_id<F: FormSource>(form: &F, owner: FlagOwner) -> &[u8]
    ensures { result.now ≡ (owner_in (F.FormSource.form form.now) owner).id }
{
    match owner {
        FlagOwner::Subcommand(place) => form.subcommand(place).name,
        FlagOwner::Argument(place) => form.arg(place).id,
    }
}

/// Whether the owners differ in kind or in id.
pub(crate) fn differ<F: FormSource>(form: &F, one: FlagOwner, other: FlagOwner) -> bool
    ensures { result ≡ rows.differ (owner_in (F.FormSource.form form.now) one) (owner_in (F.FormSource.form form.now) other) }
{
    match (one, other) {
        (FlagOwner::Subcommand(_), FlagOwner::Argument(_))
        | (FlagOwner::Argument(_), FlagOwner::Subcommand(_)) => true,
        _ => owner_id(form, one) != owner_id(form, other),
    }
}
