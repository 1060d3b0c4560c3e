ghost use Rattle.std.specs.Prelude.{◌≡◌, not, ◌&&◌, [], ◌∷◌, length, nat_lt};
ghost use Rattle.form.specs.Settings.{arg_set, app_set};
ghost use Rattle.form.specs.declared.app_settings.AppSettings.TheVariants.{SubcommandsNegateReqs};
ghost use Rattle.form.specs.declared.arg_settings.ArgSettings.TheVariants.{Required};
ghost use Rattle.rules.specs.Report.{section_report};
ghost use Rattle.rules.specs.Rows.{by_argument, whole, later, two_last, positional_last, required_last};
ghost use Rattle.rules.specs.declared.rule.Rule.TheVariants.{TwoLast, RequiredLastWithSubcommands};
ghost use Rattle.sinks.specs.Flow.{flow};

use super::arg_at::ArgAt;
use super::each::{ArgRules, survey_each};
use super::rows::PositionalLast;
use form::{AppSettings, ArgSettings, ArgView, FormSource};
use rules::Rule;
use sinks::{Sink, argument_at, offer_tests};
use std::ops::ControlFlow;

/// Offers each two arguments that are positional and last.
pub(crate) fn survey_two_last<F: FormSource, S: Sink>(form: &F, sink: &mut S) -> ControlFlow<()>
    ensures took { S.Sink.after sink.old (section_report (F.FormSource.form form.now) (by_argument 48 (later TwoLast two_last ∷ []))) sink.new }
    ensures goes { result ≡ flow (S.Sink.full sink.new) }
{
    // over places: each breach tells its own
    for place in 0..form.arg_count() {
        ArgAt::new(form, place).offer_later(PositionalLast, Rule::TwoLast, sink)?;
    }
    sink.go_on()
}

/// The rule on a last argument that is required.
#[derive(Clone, Copy)]
struct RequiredLastRules {
    /// the form has subcommands, and they do not lift the requirement of an argument
    commanded: bool,
}

impl ArgRules for RequiredLastRules {
    ghost tests = { λ s a. ((positional_last a && arg_set a.settings Required) && s.commanded, RequiredLastWithSubcommands) ∷ [] };

    fn offer<S: Sink>(&self, place: usize, arg: &ArgView<'_>, sink: &mut S) -> ControlFlow<()> {
        let required = looks::positional_last(arg) && arg.settings.is_set(ArgSettings::Required);
        let tests = [(
            required && self.commanded,
            Rule::RequiredLastWithSubcommands,
        )];
        offer_tests(argument_at(place), &tests, sink)
    }
}

/// Offers each positional argument that is last and required, beside subcommands.
pub(crate) fn survey_required_last<F: FormSource, S: Sink>(
    form: &F,
    sink: &mut S,
) -> ControlFlow<()>
    ensures took { S.Sink.after sink.old (section_report (F.FormSource.form form.now) (by_argument 49 (whole RequiredLastWithSubcommands required_last ∷ []))) sink.new }
    ensures goes { result ≡ flow (S.Sink.full sink.new) }
{
    let rules = RequiredLastRules {
        commanded: is_commanded(form),
    };
    survey_each(form, &rules, sink)
}

// whether the form has subcommands, and they do not lift the requirement of an argument
fn is_commanded<F: FormSource>(form: &F) -> bool
    ensures { result ≡ (nat_lt 0 (length (F.FormSource.form form.now).subcommands) && not (app_set (F.FormSource.form form.now).settings SubcommandsNegateReqs)) }
{
    form.subcommand_count() > 0 && !form.settings().is_set(AppSettings::SubcommandsNegateReqs)
}
