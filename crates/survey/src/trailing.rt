ghost use Rattle.std.specs.Prelude.{◌≡◌};
ghost use Rattle.rules.specs.Report.{section_report};
ghost use Rattle.rules.specs.Rows.{by_argument, trailing_rows};
ghost use Rattle.survey.specs.Trailing.{trailing_tests};
ghost use Rattle.sinks.specs.Flow.{flow};

use super::each::{ArgRules, survey_each};
use super::indices::count_positions;
use form::{ArgSettings, ArgView, FormSource};
use rules::Rule;
use sinks::{Sink, argument_at, offer_tests};
use std::ops::ControlFlow;

/// The rules on arguments that take all that trails.
#[derive(Clone, Copy)]
struct TrailingRules {
    /// the highest position
    highest: u16,
}

impl ArgRules for TrailingRules {
    ghost tests = { λ s a. trailing_tests s.highest a };

    fn offer<S: Sink>(&self, place: usize, arg: &ArgView<'_>, sink: &mut S) -> ControlFlow<()> {
        let trailing = arg.settings.is_set(ArgSettings::TrailingVarArg);
        let is_end = looks::index_or_0(arg) == self.highest;
        let tests = [
            (
                trailing && is_end && arg.settings.is_set(ArgSettings::Last),
                Rule::TrailingLast,
            ),
            (
                trailing && is_end && !looks::is_multiple(arg),
                Rule::TrailingNotMultiple,
            ),
            (trailing && !is_end, Rule::TrailingElsewhere),
        ];
        offer_tests(argument_at(place), &tests, sink)
    }
}

/// Offers each argument that takes all that trails and is last, takes but one value, or is not at the highest position.
pub(crate) fn survey_trailing<F: FormSource, S: Sink>(form: &F, sink: &mut S) -> ControlFlow<()>
    ensures took { S.Sink.after sink.old (section_report (F.FormSource.form form.now) (by_argument 41 trailing_rows)) sink.new }
    ensures goes { result ≡ flow (S.Sink.full sink.new) }
{
    let rules = TrailingRules {
        highest: count_positions(form).highest,
    };
    survey_each(form, &rules, sink)
}
