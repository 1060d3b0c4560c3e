ghost use Rattle.std.specs.Prelude.{◌≡◌};
ghost use Rattle.rules.specs.Report.{section_report};
ghost use Rattle.rules.specs.Rows as rows;
ghost use Rattle.looks.specs.Records.{seen};
ghost use Rattle.survey.specs.Settled.{settles};
ghost use Rattle.sinks.specs.Flow.{flow};

use super::indices::count_positions;
use form::{ArgSettings, ArgView, FormSource};
use rules::Rule;
use sinks::{Sink, argument_at, of_one, offer_if};
use std::ops::ControlFlow;

/// Whether its index is the position.
fn is_at(arg: &ArgView<'_>, position: usize) -> bool
    ensures { result ≡ rows.is_number position (seen arg.now).index }
{
    arg.index
        .is_some_and(|index| usize::from(index) == position)
}

/// The place of the first argument of the position.
pub(crate) fn first_at<F: FormSource>(form: &F, position: usize) -> Option<usize>
    ensures { result ≡ rows.first_at position 0 (F.FormSource.form form.now).args }
{
    (0..form.arg_count()).find(|place| is_at(&form.arg(*place), position))
}

/// Whether it settles its position: it is required, and not Last.
fn is_settled(arg: &ArgView<'_>) -> bool
    ensures { result ≡ settles (seen arg.now) }
{
    arg.settings.is_set(ArgSettings::Required) && !arg.settings.is_set(ArgSettings::Last)
}

/// Offers the optional arguments that stand below a settled position, from the highest position down to 1.
pub(crate) fn survey_positions<F: FormSource, S: Sink>(form: &F, sink: &mut S) -> ControlFlow<()>
    ensures took { S.Sink.after sink.old (section_report (F.FormSource.form form.now) rows.by_position) sink.new }
    ensures goes { result ≡ flow (S.Sink.full sink.new) }
{
    // from above, as what stands higher decides: a fold over pairs would be no plainer than the flag
    let mut settled_above = false;
    for position in (1..=count_positions(form).count).rev() {
        let Some(place) = first_at(form, position) else {
            continue;
        };
        let arg = form.arg(place);
        let optional = !arg.settings.is_set(ArgSettings::Required);
        let breach = of_one(Rule::OptionalBeforeRequired, argument_at(place));
        offer_if(optional && settled_above, breach, sink)?;
        settled_above |= is_settled(&arg);
    }
    sink.go_on()
}
