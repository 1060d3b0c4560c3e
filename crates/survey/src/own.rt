ghost use Rattle.std.specs.Prelude.{◌≡◌};
ghost use Rattle.sinks.specs.Flow.{flow};
ghost use Rattle.survey.specs.Parts.{rows_told, value_rows, name_rows, after_rows};

use super::arg_at::ArgAt;
use form::{AppSettings, FormSource};
use rules::Rule;
use sinks::{Sink, offer_tests};
use std::ops::ControlFlow;

impl<F: FormSource> ArgAt<'_, F> {
    /// Offers what the argument breaks of the rules on its index and values.
    pub(crate) fn offer_value_rules<S: Sink>(&self, sink: &mut S) -> ControlFlow<()>
        ensures took { S.Sink.after sink.old (rows_told (F.FormSource.form self.now.form.now) self.now.place value_rows) sink.new }
        ensures goes { result ≡ flow (S.Sink.full sink.new) }
    {
        let arg = &self.arg;
        let tests = [
            (looks::too_many_values(arg), Rule::TooManyValues),
            (looks::index_with_flag(arg), Rule::IndexWithFlag),
            (looks::index_zero(arg), Rule::IndexZero),
            (looks::index_without_value(arg), Rule::IndexWithoutValue),
            (
                looks::positional_without_index(arg),
                Rule::PositionalWithoutIndex,
            ),
            (looks::range_unset(arg), Rule::RangeUnset),
            (looks::equals_with_many(arg), Rule::EqualsWithMany),
        ];
        offer_tests(self.entry(), &tests, sink)
    }

    /// Offers what the argument breaks of the rules on multicall forms and on long names.
    pub(crate) fn offer_name_rules<S: Sink>(&self, sink: &mut S) -> ControlFlow<()>
        ensures took { S.Sink.after sink.old (rows_told (F.FormSource.form self.now.form.now) self.now.place name_rows) sink.new }
        ensures goes { result ≡ flow (S.Sink.full sink.new) }
    {
        let multicall = self.form.settings().is_set(AppSettings::Multicall);
        let tests = [
            (multicall, Rule::MulticallArgument),
            (looks::is_dashed(self.arg.long), Rule::LongNameDash),
        ];
        offer_tests(self.entry(), &tests, sink)
    }

    /// Offers what the argument breaks of the rules on last and required arguments.
    pub(crate) fn offer_after_rules<S: Sink>(&self, sink: &mut S) -> ControlFlow<()>
        ensures took { S.Sink.after sink.old (rows_told (F.FormSource.form self.now.form.now) self.now.place after_rows) sink.new }
        ensures goes { result ≡ flow (S.Sink.full sink.new) }
    {
        let arg = &self.arg;
        let tests = [
            (looks::last_with_long(arg), Rule::LastWithLong),
            (looks::last_with_letter(arg), Rule::LastWithLetter),
            (looks::required_global(arg), Rule::RequiredGlobal),
        ];
        offer_tests(self.entry(), &tests, sink)
    }
}
