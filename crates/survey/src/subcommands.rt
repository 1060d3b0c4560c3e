ghost use Rattle.std.specs.Prelude.{◌≡◌};
ghost use Rattle.rules.specs.Report.{section_report};
ghost use Rattle.rules.specs.Rows.{by_subcommand, dashed};
ghost use Rattle.rules.specs.declared.rule.Rule.TheVariants.{LongFlagDash};
ghost use Rattle.sinks.specs.Flow.{flow};

use form::FormSource;
use looks::is_dashed;
use rules::Rule;
use sinks::{Sink, of_one, offer_if, subcommand_at};
use std::ops::ControlFlow;

/// Offers each subcommand whose long flag begins with a hyphen.
pub(crate) fn survey_dashed_flags<F: FormSource, S: Sink>(form: &F, sink: &mut S) -> ControlFlow<()>
    ensures took { S.Sink.after sink.old (section_report (F.FormSource.form form.now) (by_subcommand LongFlagDash (λ s. dashed s.long))) sink.new }
    ensures goes { result ≡ flow (S.Sink.full sink.new) }
{
    // over places: each breach tells its own
    for place in 0..form.subcommand_count() {
        let broken = is_dashed(form.subcommand(place).long);
        offer_if(
            broken,
            of_one(Rule::LongFlagDash, subcommand_at(place)),
            sink,
        )?;
    }
    sink.go_on()
}
