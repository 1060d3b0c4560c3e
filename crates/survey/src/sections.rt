ghost use Rattle.std.specs.Prelude.{◌≡◌};
ghost use Rattle.rules.specs.Report.{breaches};
ghost use Rattle.sinks.specs.Flow.{flow};

use super::arguments::survey_arguments;
use super::ends::survey_ends;
use super::flags::{survey_letter_flags, survey_long_flags};
use super::groups::survey_groups;
use super::last::{survey_required_last, survey_two_last};
use super::names::survey_subcommand_names;
use super::positions::survey_positions;
use super::subcommands::survey_dashed_flags;
use super::trailing::survey_trailing;
use super::version::survey_versions;
use super::whole::{survey_cut, survey_gaps, survey_multicall, survey_propagation};
use form::FormSource;
use sinks::Sink;
use std::ops::ControlFlow;

/// Offers every breach of the form to the sink, in the order of a report, until the sink is full.
pub fn survey<F: FormSource, S: Sink>(form: &F, sink: &mut S) -> ControlFlow<()>
    ensures took { S.Sink.after sink.old (breaches (F.FormSource.form form.now)) sink.new }
    ensures goes { result ≡ flow (S.Sink.full sink.new) }
{
    survey_propagation(form, sink)?;
    survey_versions(form, sink)?;
    survey_dashed_flags(form, sink)?;
    survey_arguments(form, sink)?;
    survey_groups(form, sink)?;
    survey_long_flags(form, sink)?;
    survey_letter_flags(form, sink)?;
    survey_subcommand_names(form, sink)?;
    survey_gaps(form, sink)?;
    survey_trailing(form, sink)?;
    survey_ends(form, sink)?;
    survey_positions(form, sink)?;
    survey_two_last(form, sink)?;
    survey_required_last(form, sink)?;
    survey_multicall(form, sink)?;
    survey_cut(form, sink)
}
