ghost use Rattle.std.specs.Prelude.{◌≡◌};
ghost use Rattle.rules.specs.Report.{section_report};
ghost use Rattle.rules.specs.Rows.{by_argument, arg_rows};
ghost use Rattle.sinks.specs.Flow.{flow};
ghost use Rattle.survey.specs.Parts.{rows_told, before_rows};

use super::arg_at::ArgAt;
use form::{FormSource, ItemList};
use sinks::Sink;
use std::ops::ControlFlow;

/// The lists of an argument whose items name arguments or groups.
const REFERENCES: [ItemList; 7] = [
    ItemList::Requires,
    ItemList::RIfs,
    ItemList::RIfsAll,
    ItemList::RUnless,
    ItemList::RUnlessAll,
    ItemList::Conflicts,
    ItemList::Overrides,
];

/// Offers what each argument breaks, and each item of its lists of references.
// A rule of the project names this form: nested loops, left by their label at the first breach that fills the sink.
pub(crate) fn survey_arguments<F: FormSource, S: Sink>(form: &F, sink: &mut S) -> ControlFlow<()>
    ensures took { S.Sink.after sink.old (section_report (F.FormSource.form form.now) (by_argument 4 arg_rows)) sink.new }
    ensures goes { result ≡ flow (S.Sink.full sink.new) }
{
    'walk: for place in 0..form.arg_count() {
        let arg = ArgAt::new(form, place);
        if arg.offer_before_items(sink).is_break() {
            break 'walk;
        }
        for list in REFERENCES {
            // over places: each breach tells its own
            for item in 0..form.name_count(list, place) {
                if arg.offer_item_rules(list, item, sink).is_break() {
                    break 'walk;
                }
            }
        }
        if arg.offer_after_rules(sink).is_break() {
            break 'walk;
        }
    }
    sink.go_on()
}

impl<F: FormSource> ArgAt<'_, F> {
    // offers what the argument breaks of the rules that come before those on items
    fn offer_before_items<S: Sink>(&self, sink: &mut S) -> ControlFlow<()>
        ensures took { S.Sink.after sink.old (rows_told (F.FormSource.form self.now.form.now) self.now.place before_rows) sink.new }
        ensures goes { result ≡ flow (S.Sink.full sink.new) }
    {
        self.offer_own_conflicts(sink)?;
        self.offer_value_rules(sink)?;
        self.offer_value_settings(sink)?;
        self.offer_name_rules(sink)?;
        self.offer_twins(sink)
    }
}
