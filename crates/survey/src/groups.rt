ghost use Rattle.std.specs.Prelude.{◌≡◌, ◌<◌, Bool, List, length};
ghost use Rattle.std.specs.Fn.{FnReturnsAt};
ghost use Rattle.std.specs.Str.{bytes_eq};
ghost use Rattle.form.specs.Model.{Name};
ghost use Rattle.rules.specs.Order.{some};
ghost use Rattle.rules.specs.Report.{section_report, group_report};
ghost use Rattle.rules.specs.Rows as rows;
ghost use Rattle.rules.specs.declared.rule.Rule.TheVariants.{SameGroupId, GroupIdOfArgument};
ghost use Rattle.survey.specs.Groups.{group_of, group_told, missing_told};
ghost use Rattle.sinks.specs.Flow.{flow};

use super::known::{names_argument, names_entry};
use super::rows::{ArgTwins, GroupIds, Id};
use form::{FormSource, ItemList};
use rules::Rule;
use sinks::{Sink, group_at, of_item, offer_if, offer_same};
use std::ops::ControlFlow;

/// A list of names of a group, and the rule that one breaks that names nothing.
#[derive(Clone, Copy)]
struct Names {
    list: ItemList,
    rule: Rule,
}

const MEMBERS: Names = Names {
    list: ItemList::Members,
    rule: Rule::MissingMember,
};

const REQUIREMENTS: Names = Names {
    list: ItemList::GroupRequires,
    rule: Rule::MissingGroupRequirement,
};

const CONFLICTS: Names = Names {
    list: ItemList::GroupConflicts,
    rule: Rule::MissingGroupConflict,
};

/// Offers what each group breaks: its id is taken, or an item of its lists names nothing.
pub(crate) fn survey_groups<F: FormSource, S: Sink>(form: &F, sink: &mut S) -> ControlFlow<()>
    ensures took { S.Sink.after sink.old (section_report (F.FormSource.form form.now) (rows.by_group 31 rows.group_rows)) sink.new }
    ensures goes { result ≡ flow (S.Sink.full sink.new) }
{
    // over places: each breach tells its own
    for place in 0..form.group_count() {
        offer_group_rules(form, place, sink)?;
    }
    sink.go_on()
}

// offers what the group at the place breaks
fn offer_group_rules<F: FormSource, S: Sink>(
    form: &F,
    place: usize,
    sink: &mut S,
) -> ControlFlow<()>
    requires { place < length (F.FormSource.form form.now).groups }
    ensures took { S.Sink.after sink.old (group_told (F.FormSource.form form.now) place rows.group_rows) sink.new }
    ensures goes { result ≡ flow (S.Sink.full sink.new) }
{
    offer_same_groups(form, place, sink)?;
    offer_named_arguments(form, place, sink)?;
    let is_argument = |name: &[u8]| names_argument(form, name);
    let is_entry = |name: &[u8]| names_entry(form, name);
    offer_missing(form, place, MEMBERS, is_argument, sink)?;
    offer_missing(form, place, REQUIREMENTS, is_entry, sink)?;
    offer_missing(form, place, CONFLICTS, is_entry, sink)
}

// offers each later group that has the id of the group
fn offer_same_groups<F: FormSource, S: Sink>(
    form: &F,
    place: usize,
    sink: &mut S,
) -> ControlFlow<()>
    requires { place < length (F.FormSource.form form.now).groups }
    ensures took { S.Sink.after sink.old (group_report (F.FormSource.form form.now) place (group_of (F.FormSource.form form.now) place) (rows.later_group SameGroupId rows.same_group_id)) sink.new }
    ensures goes { result ≡ flow (S.Sink.full sink.new) }
{
    let row = GroupIds {
        form,
        rule: Rule::SameGroupId,
        first: group_at(place),
    };
    offer_same(
        Some(form.group(place).id),
        &row,
        place + 1,
        form.group_count(),
        sink,
    )
}

// offers each argument that has the id of the group
fn offer_named_arguments<F: FormSource, S: Sink>(
    form: &F,
    place: usize,
    sink: &mut S,
) -> ControlFlow<()>
    ensures took { S.Sink.after sink.old (group_report (F.FormSource.form form.now) place (group_of (F.FormSource.form form.now) place) (rows.with_argument GroupIdOfArgument rows.id_of_argument)) sink.new }
    ensures goes { result ≡ flow (S.Sink.full sink.new) }
{
    let row = ArgTwins {
        form,
        look: Id,
        rule: Rule::GroupIdOfArgument,
        first: group_at(place),
    };
    offer_same(Some(form.group(place).id), &row, 0, form.arg_count(), sink)
}

// offers each name of a list of the group that is not known
fn offer_missing<F: FormSource, K: Fn(&[u8]) -> bool, S: Sink>(
    form: &F,
    place: usize,
    names: Names,
    is_known: K,
    sink: &mut S,
) -> ControlFlow<()>
    requires { K.IsAlwaysCallable is_known }
    ensures took { (ids : List Name) → ((x : Name) (known : Bool) → FnReturnsAt K.Fn is_known x known → known ≡ some (bytes_eq x) ids) → S.Sink.after sink.old (missing_told (F.FormSource.form form.now) place names.list ids names.rule) sink.new }
    ensures goes { result ≡ flow (S.Sink.full sink.new) }
{
    // over places: each breach tells its own
    for item in 0..form.name_count(names.list, place) {
        let missing = !is_known(form.name(names.list, place, item));
        let breach = of_item(names.rule, group_at(place), names.list, item);
        offer_if(missing, breach, sink)?;
    }
    sink.go_on()
}
