ghost use Rattle.std.specs.Prelude.{◌≡◌};
ghost use Rattle.form.specs.Keys.{listed};
ghost use Rattle.form.specs.Model.{Form};
ghost use Rattle.rules.specs.Rows as rows;
ghost use Rattle.survey.specs.Ends.{ends_report, ends_told, is_elsewhere, is_open_below, paired};
ghost use Rattle.looks.specs.Records.{seen};
ghost use Rattle.sinks.specs.Flow.{flow};

use super::indices::count_positions;
use super::positions::first_at;
use form::{ArgSettings, ArgView, FormSource};
use looks::{index_or_0, is_many, is_multiple, is_open, is_positional};
use rules::Rule;
use sinks::{Sink, argument_at, of_two, offer_if};
use std::ops::ControlFlow;

/// Whether it is positional and multiple, and not at the highest position.
fn is_elsewhere(arg: &ArgView<'_>, highest: u16) -> bool
    ensures { result ≡ is_elsewhere highest (seen arg.now) }
{
    is_positional(arg) && is_multiple(arg) && index_or_0(arg) != highest
}

/// Whether a multiple positional argument stands elsewhere than at the highest position.
fn multiple_elsewhere<F: FormSource>(form: &F) -> bool
    ensures { result ≡ rows.multiple_elsewhere (F.FormSource.form form.now) }
{
    let highest = count_positions(form).highest;
    (0..form.arg_count()).any(|place| is_elsewhere(&form.arg(place), highest))
}

/// Whether it is positional, open and not terminated, and below the position.
fn is_open_below(arg: &ArgView<'_>, position: u16) -> bool
    ensures { result ≡ is_open_below position (seen arg.now) }
{
    is_positional(arg) && index_or_0(arg) < position && !arg.terminated && is_open(arg)
}

/// Whether an open positional argument that nothing terminates stands below the position.
fn open_below<F: FormSource>(form: &F, position: u16) -> bool
    ensures { result ≡ rows.open_below (F.FormSource.form form.now) position }
{
    (0..form.arg_count()).any(|place| is_open_below(&form.arg(place), position))
}

/// Whether it is positional, and its number of values neither fixed nor ended by a terminator.
fn is_wide(arg: &ArgView<'_>) -> bool
    ensures { result ≡ rows.wide (seen arg.now) }
{
    is_positional(arg) && is_many(arg) && !arg.terminated && is_open(arg)
}

/// How many arguments are wide.
fn wide_count<F: FormSource>(form: &F) -> usize
    ensures { result ≡ rows.wide_count (F.FormSource.form form.now) }
{
    (0..form.arg_count())
        .filter(|place| is_wide(&form.arg(*place)))
        .count()
}

/// The places of the first arguments of the highest position and of the one before,
/// if there are both, and a multiple argument stands elsewhere than at the highest.
fn ends<F: FormSource>(form: &F) -> Option<(usize, usize)>
    ensures { listed result ≡ rows.ends (F.FormSource.form form.now) }
{
    let top = usize::from(count_positions(form).highest);
    if top == 0 || !multiple_elsewhere(form) {
        return None;
    }
    let last = first_at(form, top)?;
    let before = first_at(form, top - 1)?;
    Some((last, before))
}

/// The arguments at the two ends: the first of the highest position, and of the one before.
#[derive(Drop)]
struct TwoEnds<'a, F> {
    form: &'a F,
    last: ArgView<'a>,
    before: ArgView<'a>,
}

impl<F: FormSource> TwoEnds<'_, F> {
    /// Whether the last position is optional and follows one that nothing ends.
    fn open_before_optional(&self) -> bool
        ensures { (f : Form) → result ≡ rows.open_before_optional f (seen self.now.last) (seen self.now.before) }
    {
        let optional = !self.last.settings.is_set(ArgSettings::Required)
            && !self.last.settings.is_set(ArgSettings::Last);
        optional && !self.before.settings.is_set(ArgSettings::Last) && !self.before.terminated
    }

    /// Whether, before a last position that is not Last, a multiple argument stands lower than right before it.
    fn multiple_low(&self) -> bool
        ensures { result ≡ rows.multiple_low (F.FormSource.form self.now.form.now) (seen self.now.last) (seen self.now.before) }
    {
        !self.last.settings.is_set(ArgSettings::Last)
            && (!is_multiple(&self.before) || open_below(self.form, index_or_0(&self.before)))
    }

    /// Whether the two can both be wide: the last one is Last, and the one before it multiple.
    fn is_paired(&self) -> bool
        ensures { result ≡ paired (seen self.now.last) (seen self.now.before) }
    {
        let wide_last = is_wide(&self.last) && self.last.settings.is_set(ArgSettings::Last);
        wide_last && is_multiple(&self.before)
    }

    /// Whether there are two wide arguments or more, and not just two that can be paired.
    fn too_many_wide(&self) -> bool
        ensures { result ≡ rows.too_many_wide (F.FormSource.form self.now.form.now) (seen self.now.last) (seen self.now.before) }
    {
        let count = wide_count(self.form);
        1 < count && !(count == 2 && self.is_paired())
    }
}

/// Offers what the arguments at the two ends break.
fn offer_ends<F: FormSource, S: Sink>(
    form: &F,
    last: usize,
    before: usize,
    sink: &mut S,
) -> ControlFlow<()>
    ensures took { S.Sink.after sink.old (ends_told (F.FormSource.form form.now) last before) sink.new }
    ensures goes { result ≡ flow (S.Sink.full sink.new) }
{
    let ends = TwoEnds {
        form,
        last: form.arg(last),
        before: form.arg(before),
    };
    let first = argument_at(last);
    let second = argument_at(before);
    let open = ends.open_before_optional();
    offer_if(open, of_two(Rule::OpenBeforeOptional, first, second), sink)?;
    let low = ends.multiple_low();
    offer_if(low, of_two(Rule::MultipleElsewhere, first, second), sink)?;
    let many = ends.too_many_wide();
    offer_if(many, of_two(Rule::TooManyMultiple, first, second), sink)
}

/// Offers what the two highest positions break, where a multiple argument stands elsewhere than at the highest.
pub(crate) fn survey_ends<F: FormSource, S: Sink>(form: &F, sink: &mut S) -> ControlFlow<()>
    ensures took { S.Sink.after sink.old (ends_report (F.FormSource.form form.now)) sink.new }
    ensures goes { result ≡ flow (S.Sink.full sink.new) }
{
    match ends(form) {
        Some((last, before)) => offer_ends(form, last, before, sink),
        None => sink.go_on(),
    }
}
