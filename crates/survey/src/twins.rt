ghost use Rattle.std.specs.Prelude.{◌≡◌};
ghost use Rattle.rules.specs.Report.{arg_report};
ghost use Rattle.rules.specs.Rows.{later, arg_of};
ghost use Rattle.sinks.specs.Flow.{flow};
ghost use Rattle.survey.specs.Parts.{rows_told, twin_rows};

use super::arg_at::ArgAt;
use super::rows::{ArgLook, ArgTwins, Id, Letter, LongName, Position};
use form::FormSource;
use rules::Rule;
use sinks::{Sink, offer_same};
use std::ops::ControlFlow;

impl<'a, F: FormSource> ArgAt<'a, F> {
    /// Offers each later argument that has the id, the long name, the letter or the position of the argument.
    pub(crate) fn offer_twins<S: Sink>(&self, sink: &mut S) -> ControlFlow<()>
        ensures took { S.Sink.after sink.old (rows_told (F.FormSource.form self.now.form.now) self.now.place twin_rows) sink.new }
        ensures goes { result ≡ flow (S.Sink.full sink.new) }
    {
        self.offer_later(Id, Rule::SameId, sink)?;
        self.offer_later(LongName, Rule::SameLongName, sink)?;
        self.offer_later(Letter, Rule::SameLetter, sink)?;
        self.offer_later(Position, Rule::SameIndex, sink)
    }

    /// Offers each later argument that has in common with it what is looked at.
    pub(crate) fn offer_later<L: ArgLook<'a>, S: Sink>(
        &self,
        look: L,
        rule: Rule,
        sink: &mut S,
    ) -> ControlFlow<()>
        ensures took { S.Sink.after sink.old (arg_report (F.FormSource.form self.now.form.now) self.now.place (arg_of (F.FormSource.form self.now.form.now) self.now.place) (later rule L.same)) sink.new }
        ensures goes { result ≡ flow (S.Sink.full sink.new) }
    {
        let sought = look.look(&self.arg);
        let row = ArgTwins {
            form: self.form,
            look,
            rule,
            first: self.entry(),
        };
        offer_same(sought, &row, self.place + 1, self.form.arg_count(), sink)
    }
}
