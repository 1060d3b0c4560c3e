ghost use Rattle.std.specs.Prelude.{◌≡◌, ◌<◌, length, None, slice_index_or, refl};
ghost use Rattle.std.specs.Option.{option_map};
ghost use Rattle.rules.specs.Told.{of_flags};
ghost use Rattle.rules.specs.Words.{owners};
ghost use Rattle.rules.specs.Rows.{same_if, by_long_flag, by_letter_flag};
ghost use Rattle.rules.specs.Report.{flags_report, section_report};
ghost use Rattle.rules.specs.declared.rule.Rule.TheVariants.{SameLongFlag, SameLetterFlag};
ghost use Rattle.survey.specs.FlagOwners.{owner_in, flags_in, clash_told, flag_told, owner_told};
ghost use Rattle.sinks.specs.Flow.{flow};

use super::flag_kinds::{FlagKind, LetterFlags, LongFlags, flag, flag_count};
use super::flag_owners::{FlagOwner, differ, owner_at, owner_count};
use form::FormSource;
use rules::{Breach, Entry};
use sinks::{Row, Sink, of_flags, offer_same};
use std::ops::ControlFlow;

/// The flags of an owner, as a row; a twin of flag `item` of `first` breaks the rule of the kind.
#[derive(Drop)]
struct OwnerFlags<'a, K> {
    kind: &'a K,
    owner: FlagOwner,
    first: Entry,
    item: usize,
}

impl<K: FlagKind> Row for OwnerFlags<'_, K> {
    type Element = K::Flag;

    ghost twin = { λ s x m. same_if K.FlagKind.same (option_map K.FlagKind.plain x) (slice_index_or (flags_in K.FlagKind.own K.FlagKind.aliases (owner_in (K.FlagKind.form s.kind.now) s.owner)) m None) };

    ghost lone = { λ s m. refl };

    ghost tells = { λ s m. of_flags K.FlagKind.rule s.first s.item (owner_in (K.FlagKind.form s.kind.now) s.owner).entry m };

    fn at(&self, place: usize) -> Option<K::Flag> {
        flag(self.kind, self.owner, place)
    }

    fn tell(&self, place: usize) -> Breach {
        of_flags(
            self.kind.rule(),
            self.first,
            self.item,
            self.owner.entry(),
            place,
        )
    }
}

/// Offers the flags of `other` that are the same as flag `item` of `one`, if the two owners differ.
fn offer_clashes<K: FlagKind, S: Sink>(
    kind: &K,
    one: FlagOwner,
    item: usize,
    other: FlagOwner,
    sink: &mut S,
) -> ControlFlow<()>
    ensures took { S.Sink.after sink.old (clash_told K.FlagKind.same (flags_in K.FlagKind.own K.FlagKind.aliases) K.FlagKind.rule (owner_in (K.FlagKind.form kind.now) one) item (owner_in (K.FlagKind.form kind.now) other)) sink.new }
    ensures goes { result ≡ flow (S.Sink.full sink.new) }
{
    if !differ(kind.source(), one, other) {
        return sink.go_on();
    }
    let row = OwnerFlags {
        kind,
        owner: other,
        first: one.entry(),
        item,
    };
    offer_same(
        flag(kind, one, item),
        &row,
        0,
        flag_count(kind, other),
        sink,
    )
}

/// Offers the flags of later owners that are the same as flag `item` of owner `number`.
fn offer_flag<K: FlagKind, S: Sink>(
    kind: &K,
    number: usize,
    item: usize,
    sink: &mut S,
) -> ControlFlow<()>
    requires { number < length (owners (K.FlagKind.form kind.now)) }
    ensures took { S.Sink.after sink.old (flag_told K.FlagKind.same (flags_in K.FlagKind.own K.FlagKind.aliases) K.FlagKind.rule (K.FlagKind.form kind.now) number item) sink.new }
    ensures goes { result ≡ flow (S.Sink.full sink.new) }
{
    let form = kind.source();
    let one = owner_at(form, number);
    // over places: each breach tells its own
    for later in number + 1..owner_count(form) {
        offer_clashes(kind, one, item, owner_at(form, later), sink)?;
    }
    sink.go_on()
}

/// Offers the clashes of the flags of owner `number` with those of later owners.
fn offer_owner<K: FlagKind, S: Sink>(kind: &K, number: usize, sink: &mut S) -> ControlFlow<()>
    requires { number < length (owners (K.FlagKind.form kind.now)) }
    ensures took { S.Sink.after sink.old (owner_told K.FlagKind.same (flags_in K.FlagKind.own K.FlagKind.aliases) K.FlagKind.rule (K.FlagKind.form kind.now) number) sink.new }
    ensures goes { result ≡ flow (S.Sink.full sink.new) }
{
    let owner = owner_at(kind.source(), number);
    // over places: each breach tells its own
    for item in 0..flag_count(kind, owner) {
        offer_flag(kind, number, item, sink)?;
    }
    sink.go_on()
}

/// Offers the flags of a kind that two different owners have, flag by flag with those of each later owner.
fn survey_flags<K: FlagKind, S: Sink>(kind: &K, sink: &mut S) -> ControlFlow<()>
    ensures took { S.Sink.after sink.old (flags_report K.FlagKind.same (flags_in K.FlagKind.own K.FlagKind.aliases) K.FlagKind.rule (owners (K.FlagKind.form kind.now))) sink.new }
    ensures goes { result ≡ flow (S.Sink.full sink.new) }
{
    // over places: each breach tells its own
    for number in 0..owner_count(kind.source()) {
        offer_owner(kind, number, sink)?;
    }
    sink.go_on()
}

/// Offers the long flags that two different owners have.
pub(crate) fn survey_long_flags<F: FormSource, S: Sink>(form: &F, sink: &mut S) -> ControlFlow<()>
    ensures took { S.Sink.after sink.old (section_report (F.FormSource.form form.now) (by_long_flag SameLongFlag)) sink.new }
    ensures goes { result ≡ flow (S.Sink.full sink.new) }
{
    survey_flags(&LongFlags { form }, sink)
}

/// Offers the letter flags that two different owners have.
pub(crate) fn survey_letter_flags<F: FormSource, S: Sink>(form: &F, sink: &mut S) -> ControlFlow<()>
    ensures took { S.Sink.after sink.old (section_report (F.FormSource.form form.now) (by_letter_flag SameLetterFlag)) sink.new }
    ensures goes { result ≡ flow (S.Sink.full sink.new) }
{
    survey_flags(&LetterFlags { form }, sink)
}
