ghost use Rattle.std.specs.Prelude.{◌≡◌, [], slice_index_or};
ghost use Rattle.form.specs.Lists.{names_at};
ghost use Rattle.form.specs.Model.{Name};
ghost use Rattle.rules.specs.Report.{arg_report};
ghost use Rattle.rules.specs.Rows as rows;
ghost use Rattle.rules.specs.declared.rule.Rule.TheVariants.{ConflictsWithItself};
ghost use Rattle.sinks.specs.Flow.{flow};
ghost use Rattle.survey.specs.Parts.{item_told};
ghost use Rattle.looks.specs.Records.{seen};

use super::arg_at::ArgAt;
use super::known::names_entry;
use form::{ArgSettings, ArgView, FormSource, ItemList};
use rules::Rule;
use sinks::{Sink, of_item, offer_if};
use std::ops::ControlFlow;

// whether the item of the list is the argument's own id, in its requirements.
fn requires_itself(arg: &ArgView<'_>, list: ItemList, name: &[u8]) -> bool
    ensures { result ≡ rows.requires_itself list (seen arg.now) name.now }
{
    list == ItemList::Requires && name == arg.id
}

// whether the argument is required in any case, and an item makes or lifts the requirement.
fn required_conditionally(arg: &ArgView<'_>, list: ItemList) -> bool
    ensures { (x : Name) → result ≡ rows.required_conditionally list (seen arg.now) x }
{
    arg.settings.is_set(ArgSettings::Required)
        && matches!(
            list,
            ItemList::RIfs | ItemList::RIfsAll | ItemList::RUnless | ItemList::RUnlessAll
        )
}

impl<F: FormSource> ArgAt<'_, F> {
    /// Offers each item of the argument's conflicts that is its own id.
    pub(crate) fn offer_own_conflicts<S: Sink>(&self, sink: &mut S) -> ControlFlow<()>
        ensures took { S.Sink.after sink.old (arg_report (F.FormSource.form self.now.form.now) self.now.place (rows.arg_of (F.FormSource.form self.now.form.now) self.now.place) (rows.own_conflict ConflictsWithItself rows.names_itself)) sink.new }
        ensures goes { result ≡ flow (S.Sink.full sink.new) }
    {
        let list = ItemList::Conflicts;
        // over places: each breach tells its own
        for item in 0..self.form.name_count(list, self.place) {
            let itself = self.form.name(list, self.place, item) == self.arg.id;
            let breach = of_item(Rule::ConflictsWithItself, self.entry(), list, item);
            offer_if(itself, breach, sink)?;
        }
        sink.go_on()
    }

    /// Offers what an item of a list of the argument breaks.
    pub(crate) fn offer_item_rules<S: Sink>(
        &self,
        list: ItemList,
        item: usize,
        sink: &mut S,
    ) -> ControlFlow<()>
        ensures took { S.Sink.after sink.old (item_told (F.FormSource.form self.now.form.now) self.now.place (rows.arg_of (F.FormSource.form self.now.form.now) self.now.place) list item (slice_index_or (names_at (F.FormSource.form self.now.form.now) list self.now.place) item [])) sink.new }
        ensures goes { result ≡ flow (S.Sink.full sink.new) }
    {
        let name = self.form.name(list, self.place, item);
        let itself = requires_itself(&self.arg, list, name);
        offer_if(
            itself,
            of_item(Rule::RequiresItself, self.entry(), list, item),
            sink,
        )?;
        let conditional = required_conditionally(&self.arg, list);
        offer_if(
            conditional,
            of_item(Rule::RequiredConditionally, self.entry(), list, item),
            sink,
        )?;
        let missing = !names_entry(self.form, name);
        offer_if(
            missing,
            of_item(Rule::MissingReference, self.entry(), list, item),
            sink,
        )
    }
}
