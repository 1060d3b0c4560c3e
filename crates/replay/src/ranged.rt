ghost use Rattle.std.specs.Prelude.{◌≡◌};
ghost use Rattle.std.specs.Option.{option_map};
ghost use Rattle.std.specs.Result.{result_map_both};
ghost use Rattle.form.specs.Bounds.{bounds};
ghost use Rattle.calls.specs.Given.{arg_given, given};
ghost use Rattle.replay.specs.Ranged.{range_made, arg_made, record_made};

use calls::{ArgRecord, Bounds, Record};
use form::{RangeFault, ValueRange};

// the range that is given, where there is one
fn make_range(given: Option<Bounds>) -> Result<Option<ValueRange>, RangeFault>
    ensures { result_map_both (option_map bounds) (λ e. e) result ≡ range_made given }
{
    given
        .map(|given| ValueRange::try_from(given.least..=given.most))
        .transpose()
}

// the argument's record with its range made
fn make_arg(arg: ArgRecord<&[u8], Bounds>) -> Result<ArgRecord<&[u8], ValueRange>, RangeFault>
    ensures { result_map_both arg_given (λ e. e) result ≡ arg_made arg.entry }
{
    Ok(ArgRecord {
        id: arg.id,
        long: arg.long,
        letter: arg.letter,
        index: arg.index,
        settings: arg.settings,
        action: arg.action,
        terminated: arg.terminated,
        range: make_range(arg.range)?,
    })
}

/// The record of a call with its range made.
pub(crate) fn make(entry: Record<&[u8], Bounds>) -> Result<Record<&[u8], ValueRange>, RangeFault>
    ensures { result_map_both given (λ e. e) result ≡ record_made entry.entry }
{
    Ok(match entry {
        Record::Argument(arg) => Record::Argument(make_arg(arg)?),
        Record::Group(id) => Record::Group(id),
        Record::Subcommand(subcommand) => Record::Subcommand(subcommand),
    })
}
