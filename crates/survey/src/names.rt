ghost use Rattle.std.specs.Prelude.{◌≡◌, ◌<◌, length, refl};
ghost use Rattle.std.specs.Option.{option_map};
ghost use Rattle.std.specs.Str.{bytes_eq};
ghost use Rattle.rules.specs.Report.{called, section_report, taken_rule};
ghost use Rattle.rules.specs.Rows.{same_if, earlier, by_subcommand_name};
ghost use Rattle.rules.specs.Told.{subcommand, of_flags};
ghost use Rattle.survey.specs.Called.{subcommand_of, name_of, name_before, taken_told, name_told, names_told};
ghost use Rattle.sinks.specs.Flow.{flow};

use form::{FormSource, ItemList};
use rules::{Breach, Rule};
use sinks::{Row, Sink, of_flags, offer_same, subcommand_at};
use std::ops::ControlFlow;

/// How many names a subcommand has: its own and its aliases.
fn name_count<F: FormSource>(form: &F, place: usize) -> usize
    ensures { result ≡ length (called (subcommand_of (F.FormSource.form form.now) place)) }
{
    1 + form.name_count(ItemList::SubcommandAliases, place)
}

/// A name of a subcommand by its number: 0 is its own, an alias is 1 + its place. Past the last it is empty.
fn name_at<F: FormSource>(form: &F, place: usize, number: usize) -> &[u8]
    ensures { result.now ≡ name_of (F.FormSource.form form.now) place number }
{
    if number == 0 {
        form.subcommand(place).name
    } else {
        form.name(ItemList::SubcommandAliases, place, number - 1)
    }
}

/// Whether name `number` of subcommand `place` comes before name `item` of subcommand `later`.
fn is_earlier(place: usize, number: usize, later: usize, item: usize) -> bool
    ensures { result ≡ earlier place number later item }
{
    (place, number) < (later, item)
}

/// The rule that a name breaks by being taken.
fn rule_of_name(number: usize) -> Rule
    ensures { result ≡ taken_rule number }
{
    if number == 0 {
        Rule::SubcommandNameTaken
    } else {
        Rule::SubcommandAliasTaken
    }
}

/// The names of subcommand `place` that come before name `item` of subcommand `later`, as a row.
#[derive(Drop)]
struct EarlierNames<'a, F> {
    form: &'a F,
    place: usize,
    later: usize,
    item: usize,
}

impl<'a, F: FormSource> Row for EarlierNames<'a, F> {
    type Element = &'a [u8];

    ghost twin = { λ s x m. same_if bytes_eq (option_map (λ y. y.now) x) (name_before (F.FormSource.form s.form.now) s.place m s.later s.item) };

    ghost lone = { λ s m. refl };

    ghost tells = { λ s m. of_flags (taken_rule s.item) (subcommand s.later) s.item (subcommand s.place) m };

    fn at(&self, number: usize) -> Option<&'a [u8]> {
        if is_earlier(self.place, number, self.later, self.item) {
            Some(name_at(self.form, self.place, number))
        } else {
            None
        }
    }

    fn tell(&self, number: usize) -> Breach {
        of_flags(
            rule_of_name(self.item),
            subcommand_at(self.later),
            self.item,
            subcommand_at(self.place),
            number,
        )
    }
}

/// Offers the names of subcommand `place` that are the same as the later name `item` of subcommand `later`.
fn offer_taken<F: FormSource, S: Sink>(
    form: &F,
    later: usize,
    item: usize,
    place: usize,
    sink: &mut S,
) -> ControlFlow<()>
    ensures took { S.Sink.after sink.old (taken_told (F.FormSource.form form.now) later item place) sink.new }
    ensures goes { result ≡ flow (S.Sink.full sink.new) }
{
    let row = EarlierNames {
        form,
        place,
        later,
        item,
    };
    offer_same(
        Some(name_at(form, later, item)),
        &row,
        0,
        name_count(form, place),
        sink,
    )
}

/// Offers the earlier names that are the same as name `item` of subcommand `later`.
fn offer_name<F: FormSource, S: Sink>(
    form: &F,
    later: usize,
    item: usize,
    sink: &mut S,
) -> ControlFlow<()>
    requires { later < length (F.FormSource.form form.now).subcommands }
    ensures took { S.Sink.after sink.old (name_told (F.FormSource.form form.now) later item) sink.new }
    ensures goes { result ≡ flow (S.Sink.full sink.new) }
{
    // over places: each breach tells its own
    for place in 0..=later {
        offer_taken(form, later, item, place, sink)?;
    }
    sink.go_on()
}

/// Offers the earlier names that are the same as a name of subcommand `later`.
fn offer_names<F: FormSource, S: Sink>(form: &F, later: usize, sink: &mut S) -> ControlFlow<()>
    requires { later < length (F.FormSource.form form.now).subcommands }
    ensures took { S.Sink.after sink.old (names_told (F.FormSource.form form.now) later) sink.new }
    ensures goes { result ≡ flow (S.Sink.full sink.new) }
{
    // over places: each breach tells its own
    for item in 0..name_count(form, later) {
        offer_name(form, later, item, sink)?;
    }
    sink.go_on()
}

/// Offers the names of subcommands that an earlier name takes already.
pub(crate) fn survey_subcommand_names<F: FormSource, S: Sink>(
    form: &F,
    sink: &mut S,
) -> ControlFlow<()>
    ensures took { S.Sink.after sink.old (section_report (F.FormSource.form form.now) by_subcommand_name) sink.new }
    ensures goes { result ≡ flow (S.Sink.full sink.new) }
{
    // over places: each breach tells its own
    for later in 0..form.subcommand_count() {
        offer_names(form, later, sink)?;
    }
    sink.go_on()
}
