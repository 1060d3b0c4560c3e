ghost use Rattle.std.specs.Prelude.{◌≡◌, ◌&&◌, [], ◌∷◌};
ghost use Rattle.rules.specs.Report.{section_report};
ghost use Rattle.rules.specs.Rows.{by_argument, whole, is_version, version_without_version};
ghost use Rattle.rules.specs.declared.rule.Rule.TheVariants.{VersionActionWithoutVersion};
ghost use Rattle.sinks.specs.Flow.{flow};

use super::each::{ArgRules, survey_each};
use form::{AppSettings, ArgView, FormSource};
use rules::Rule;
use sinks::{Sink, argument_at, offer_tests};
use std::ops::ControlFlow;

/// The rule on arguments that show a version.
#[derive(Clone, Copy)]
struct VersionRules {
    /// the form has no version
    unversioned: bool,
}

impl ArgRules for VersionRules {
    ghost tests = { λ s a. (is_version a && s.unversioned, VersionActionWithoutVersion) ∷ [] };

    fn offer<S: Sink>(&self, place: usize, arg: &ArgView<'_>, sink: &mut S) -> ControlFlow<()> {
        let tests = [(
            looks::is_version(arg) && self.unversioned,
            Rule::VersionActionWithoutVersion,
        )];
        offer_tests(argument_at(place), &tests, sink)
    }
}

/// Offers each argument that shows a version, if the form has none.
pub(crate) fn survey_versions<F: FormSource, S: Sink>(form: &F, sink: &mut S) -> ControlFlow<()>
    ensures took { S.Sink.after sink.old (section_report (F.FormSource.form form.now) (by_argument 2 (whole VersionActionWithoutVersion version_without_version ∷ []))) sink.new }
    ensures goes { result ≡ flow (S.Sink.full sink.new) }
{
    let rules = VersionRules {
        unversioned: !form.settings().is_set(AppSettings::HasVersion),
    };
    survey_each(form, &rules, sink)
}
