ghost use Rattle.std.specs.Prelude.{◌≡◌, Bool, true, false, Some, None, Option, nat_eq, slice_index_or, refl};
ghost use Rattle.std.specs.Option.{option_map};
ghost use Rattle.std.specs.Str.{bytes_eq};
ghost use Rattle.form.specs.Model.{Arg, blank_group};
ghost use Rattle.form.specs.Shown.{arg_record};
ghost use Rattle.rules.specs.Rows.{same_if, arg_of, same_id, same_long_name, same_letter, same_index, two_last, position};
ghost use Rattle.rules.specs.Told.{argument, group, of_two};
ghost use Rattle.looks.specs.Records.{bare, seen, last_mark};

use form::{ArgView, FormSource};
use rules::{Breach, Entry, Rule};
use sinks::{Row, argument_at, group_at, of_two};

/// What two arguments may have in common.
pub trait ArgLook<'a>: Copy {
    type Seen: Eq + Copy;

    // the argument has what was seen in another
    ghost met: { Option Self.Seen → Arg → Bool };

    // nothing is met in what is absent
    ghost lone: { (a : Arg) → met None a ≡ false };

    // two arguments have it in common
    ghost same: { Arg → Arg → Bool };

    // it is a matter of the records alone
    ghost bare: { (a b : Arg) → same (bare (arg_record a)) (bare (arg_record b)) ≡ same a b };

    fn look(&self, arg: &ArgView<'a>) -> Option<Self::Seen>
        ensures met { (x : Option Self.Seen) → same_if Self.Seen.PartialEq.eq x result ≡ met x (seen arg.now) }
        ensures same { (b : Arg) → met result b ≡ same (seen arg.now) b };
}

/// The id.
#[derive(Clone, Copy)]
pub struct Id;

impl<'a> ArgLook<'a> for Id {
    type Seen = &'a [u8];

    ghost met = { λ x a. same_if bytes_eq (option_map (λ y. y.now) x) (Some a.id) };

    ghost lone = { λ a. refl };

    ghost same = { same_id };

    ghost bare = { λ a b. refl };

    fn look(&self, arg: &ArgView<'a>) -> Option<&'a [u8]> {
        Some(arg.id)
    }
}

/// The long name.
#[derive(Clone, Copy)]
pub struct LongName;

impl<'a> ArgLook<'a> for LongName {
    type Seen = &'a [u8];

    ghost met = { λ x a. same_if bytes_eq (option_map (λ y. y.now) x) a.long };

    ghost lone = { λ a. refl };

    ghost same = { same_long_name };

    ghost bare = { λ a b. refl };

    fn look(&self, arg: &ArgView<'a>) -> Option<&'a [u8]> {
        arg.long
    }
}

/// The letter.
#[derive(Clone, Copy)]
pub struct Letter;

impl<'a> ArgLook<'a> for Letter {
    type Seen = char;

    ghost met = { λ x a. same_if nat_eq x a.letter };

    ghost lone = { λ a. refl };

    ghost same = { same_letter };

    ghost bare = { λ a b. refl };

    fn look(&self, arg: &ArgView<'a>) -> Option<char> {
        arg.letter
    }
}

/// The index, if it is given by position.
#[derive(Clone, Copy)]
pub struct Position;

impl<'a> ArgLook<'a> for Position {
    type Seen = u16;

    ghost met = { λ x a. same_if nat_eq x (position a) };

    ghost lone = { λ a. refl };

    ghost same = { same_index };

    ghost bare = { λ a b. refl };

    fn look(&self, arg: &ArgView<'a>) -> Option<u16> {
        looks::position(arg)
    }
}

/// That it is positional and Last: any two are the same in that.
#[derive(Clone, Copy)]
pub struct PositionalLast;

impl<'a> ArgLook<'a> for PositionalLast {
    type Seen = ();

    ghost met = { λ x a. same_if (λ _ _. true) x (last_mark a) };

    ghost lone = { λ a. refl };

    ghost same = { two_last };

    ghost bare = { λ a b. refl };

    fn look(&self, arg: &ArgView<'a>) -> Option<()> {
        looks::last_mark(arg)
    }
}

/// What is looked at in each argument; a twin breaks the rule, with `first`.
#[derive(Drop)]
pub struct ArgTwins<'a, F, L> {
    pub form: &'a F,
    pub look: L,
    pub rule: Rule,
    pub first: Entry,
}

impl<'a, F: FormSource, L: ArgLook<'a>> Row for ArgTwins<'a, F, L> {
    type Element = L::Seen;

    ghost twin = { λ s x j. L.met x (bare (arg_record (arg_of (F.FormSource.form s.form.now) j))) };

    ghost lone = { λ s j. L.lone (bare (arg_record (arg_of (F.FormSource.form s.form.now) j))) };

    ghost tells = { λ s j. of_two s.rule s.first (argument j) };

    fn at(&self, place: usize) -> Option<L::Seen> {
        self.look.look(&self.form.arg(place))
    }

    fn tell(&self, place: usize) -> Breach {
        of_two(self.rule, self.first, argument_at(place))
    }
}

/// The ids of the groups.
#[derive(Drop)]
pub struct GroupIds<'a, F> {
    pub form: &'a F,
    pub rule: Rule,
    pub first: Entry,
}

impl<'a, F: FormSource> Row for GroupIds<'a, F> {
    type Element = &'a [u8];

    ghost twin = { λ s x j. same_if bytes_eq (option_map (λ y. y.now) x) (Some (slice_index_or (F.FormSource.form s.form.now).groups j blank_group).id) };

    ghost lone = { λ s j. refl };

    ghost tells = { λ s j. of_two s.rule s.first (group j) };

    fn at(&self, place: usize) -> Option<&'a [u8]> {
        Some(self.form.group(place).id)
    }

    fn tell(&self, place: usize) -> Breach {
        of_two(self.rule, self.first, group_at(place))
    }
}
