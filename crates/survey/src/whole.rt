ghost use Rattle.std.specs.Prelude.{◌≡◌};
ghost use Rattle.rules.specs.Report.{section_report};
ghost use Rattle.rules.specs.Rows as rows;
ghost use Rattle.rules.specs.declared.rule.Rule.TheVariants.{PropagateWithoutVersion, PositionsWithGaps, MulticallWithoutBinaryName, FormCut};
ghost use Rattle.sinks.specs.Flow.{flow};

use super::indices::count_positions;
use form::{AppSettings, FormSource};
use rules::Rule;
use sinks::{Sink, of_form, offer_if};
use std::ops::ControlFlow;

/// Offers the form, if it propagates a version that it does not have.
pub(crate) fn survey_propagation<F: FormSource, S: Sink>(form: &F, sink: &mut S) -> ControlFlow<()>
    ensures took { S.Sink.after sink.old (section_report (F.FormSource.form form.now) (rows.of_the_form PropagateWithoutVersion rows.propagate_without_version)) sink.new }
    ensures goes { result ≡ flow (S.Sink.full sink.new) }
{
    let settings = form.settings();
    let broken = settings.is_set(AppSettings::PropagateVersion)
        && !settings.is_set(AppSettings::HasVersion);
    offer_if(broken, of_form(Rule::PropagateWithoutVersion), sink)
}

/// Offers the form, if its positions do not run from 1 without a gap.
pub(crate) fn survey_gaps<F: FormSource, S: Sink>(form: &F, sink: &mut S) -> ControlFlow<()>
    ensures took { S.Sink.after sink.old (section_report (F.FormSource.form form.now) (rows.of_the_form PositionsWithGaps rows.positions_with_gaps)) sink.new }
    ensures goes { result ≡ flow (S.Sink.full sink.new) }
{
    let positions = count_positions(form);
    let broken = positions.highest as usize != positions.count;
    offer_if(broken, of_form(Rule::PositionsWithGaps), sink)
}

/// Offers the form, if it is multicall and has no binary name.
pub(crate) fn survey_multicall<F: FormSource, S: Sink>(form: &F, sink: &mut S) -> ControlFlow<()>
    ensures took { S.Sink.after sink.old (section_report (F.FormSource.form form.now) (rows.of_the_form MulticallWithoutBinaryName rows.multicall_without_name)) sink.new }
    ensures goes { result ≡ flow (S.Sink.full sink.new) }
{
    let settings = form.settings();
    let broken = settings.is_set(AppSettings::Multicall)
        && settings.is_set(AppSettings::NoBinaryName);
    offer_if(broken, of_form(Rule::MulticallWithoutBinaryName), sink)
}

/// Offers the form, if something was cut off it.
pub(crate) fn survey_cut<F: FormSource, S: Sink>(form: &F, sink: &mut S) -> ControlFlow<()>
    ensures took { S.Sink.after sink.old (section_report (F.FormSource.form form.now) (rows.of_the_form FormCut (λ f. f.cut))) sink.new }
    ensures goes { result ≡ flow (S.Sink.full sink.new) }
{
    offer_if(form.is_cut(), of_form(Rule::FormCut), sink)
}
