ghost use Rattle.std.specs.Prelude.{◌≡◌, Bool, List};
ghost use Rattle.form.specs.Model.{Arg};
ghost use Rattle.form.specs.Shown.{arg_record};
ghost use Rattle.rules.specs.Order.{blocks};
ghost use Rattle.rules.specs.Told.{argument};
ghost use Rattle.rules.specs.declared.rule.Rule.{Rule};
ghost use Rattle.sinks.specs.Flow.{flow};
ghost use Rattle.sinks.specs.Offers.{tests_told};
ghost use Rattle.looks.specs.Records.{bare, seen};

use form::{ArgView, FormSource};
use rules::Rule;
use sinks::Sink;
use std::ops::ControlFlow;

/// Rules that look at the record of an argument, and at what was found out of the form before.
pub trait ArgRules {
    // the tests of an argument, in order
    ghost tests: { Self → Arg → List (Bool × Rule) };

    fn offer<S: Sink>(&self, place: usize, arg: &ArgView<'_>, sink: &mut S) -> ControlFlow<()>
        ensures took { S.Sink.after sink.old (tests_told (argument place) (tests self.now (seen arg.now))) sink.new }
        ensures goes { result ≡ flow (S.Sink.full sink.new) };
}

/// Offers what each argument breaks of the rules.
pub(crate) fn survey_each<F: FormSource, R: ArgRules, S: Sink>(
    form: &F,
    rules: &R,
    sink: &mut S,
) -> ControlFlow<()>
    ensures took { S.Sink.after sink.old (blocks (λ p a. tests_told (argument p) (R.ArgRules.tests rules.now (bare (arg_record a)))) 0 (F.FormSource.form form.now).args) sink.new }
    ensures goes { result ≡ flow (S.Sink.full sink.new) }
{
    // over places: each breach tells its own
    for place in 0..form.arg_count() {
        rules.offer(place, &form.arg(place), sink)?;
    }
    sink.go_on()
}
