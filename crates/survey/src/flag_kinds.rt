ghost use Rattle.std.specs.Prelude.{◌≡◌, ℕ, ◌≤◌, Bool, List, [], length, None, Option, nat_eq, slice_index_or};
ghost use Rattle.std.specs.Option.{option_map};
ghost use Rattle.std.specs.Str.{bytes_eq};
ghost use Rattle.form.specs.Model.{Name, Form};
ghost use Rattle.rules.specs.Words.{Owner};
ghost use Rattle.rules.specs.Rows.{same_if};
ghost use Rattle.rules.specs.declared.rule.Rule.{Rule};
ghost use Rattle.rules.specs.declared.rule.Rule.TheVariants.{SameLongFlag, SameLetterFlag};
ghost use Rattle.survey.specs.FlagOwners.{owner_in, flags_in, few_longs, few_letters};
ghost use Rattle.survey.specs.declared.flag_owners.FlagOwner.{FlagOwner};

use super::flag_owners::FlagOwner;
use form::{FormSource, ItemList};
use rules::Rule;

/// A kind of flag, over a form: each owner may have a flag of its own, and aliases.
pub trait FlagKind {
    type Flag: Eq + Copy;

    type Source: FormSource;

    // the rule that two owners of the same flag break
    ghost rule: { Rule };

    // the form that the source means
    ghost form: { Self → Form };

    // what a flag stands for in a form
    ghost Plain: { Type 0 };

    ghost plain: { Self.Flag → Plain };

    ghost same: { Plain → Plain → Bool };

    // what an owner has
    ghost own: { Owner → Option Plain };

    ghost aliases: { Owner → List Plain };

    // what stands past the last alias
    ghost blank: { Plain };

    ghost few: { (s : Self) (o : FlagOwner) → length (aliases (owner_in (form s) o)) ≤ 1024 };

    fn rule(&self) -> Rule
        ensures { result ≡ rule };

    fn source(&self) -> &Self::Source
        ensures { Self.Source.FormSource.form result.now ≡ form self.now };

    fn own_flag(&self, owner: FlagOwner) -> Option<Self::Flag>
        ensures value { option_map plain result ≡ own (owner_in (form self.now) owner) }
        ensures alike { (x y : Self.Flag) → Self.Flag.PartialEq.eq x y ≡ same (plain x) (plain y) };

    fn alias_count(&self, owner: FlagOwner) -> usize
        ensures { result ≡ length (aliases (owner_in (form self.now) owner)) };

    fn alias(&self, owner: FlagOwner, item: usize) -> Self::Flag
        ensures value { plain result ≡ slice_index_or (aliases (owner_in (form self.now) owner)) item blank }
        ensures alike { (x y : Self.Flag) → Self.Flag.PartialEq.eq x y ≡ same (plain x) (plain y) };
}

/// Long flags.
#[derive(Drop)]
pub struct LongFlags<'a, F> {
    pub form: &'a F,
}

impl<'a, F: FormSource> FlagKind for LongFlags<'a, F> {
    type Flag = &'a [u8];

    type Source = F;

    ghost rule = { SameLongFlag };

    ghost form = { λ s. F.FormSource.form s.form.now };

    ghost Plain = { Name };

    ghost plain = { λ x. x.now };

    ghost same = { bytes_eq };

    ghost own = { λ o. o.long };

    ghost aliases = { λ o. o.long_aliases };

    ghost blank = { [] };

    ghost few = { λ s o. few_longs (F.FormSource.form s.form.now) (F.FormSource.fits s.form.now) o };

    fn rule(&self) -> Rule {
        Rule::SameLongFlag
    }

    fn source(&self) -> &F {
        self.form
    }

    fn own_flag(&self, owner: FlagOwner) -> Option<&'a [u8]> {
        match owner {
            FlagOwner::Subcommand(place) => self.form.subcommand(place).long,
            FlagOwner::Argument(place) => self.form.arg(place).long,
        }
    }

    fn alias_count(&self, owner: FlagOwner) -> usize {
        match owner {
            FlagOwner::Subcommand(place) => self.form.name_count(ItemList::LongFlagAliases, place),
            FlagOwner::Argument(place) => self.form.name_count(ItemList::LongAliases, place),
        }
    }

    fn alias(&self, owner: FlagOwner, item: usize) -> &'a [u8] {
        match owner {
            FlagOwner::Subcommand(place) => self.form.name(ItemList::LongFlagAliases, place, item),
            FlagOwner::Argument(place) => self.form.name(ItemList::LongAliases, place, item),
        }
    }
}

/// Flags of one letter.
#[derive(Drop)]
pub struct LetterFlags<'a, F> {
    pub form: &'a F,
}

impl<'a, F: FormSource> FlagKind for LetterFlags<'a, F> {
    type Flag = char;

    type Source = F;

    ghost rule = { SameLetterFlag };

    ghost form = { λ s. F.FormSource.form s.form.now };

    ghost Plain = { ℕ };

    ghost plain = { λ x. x };

    ghost same = { nat_eq };

    ghost own = { λ o. o.letter };

    ghost aliases = { λ o. o.letter_aliases };

    ghost blank = { 0 };

    ghost few = { λ s o. few_letters (F.FormSource.form s.form.now) (F.FormSource.fits s.form.now) o };

    fn rule(&self) -> Rule {
        Rule::SameLetterFlag
    }

    fn source(&self) -> &F {
        self.form
    }

    fn own_flag(&self, owner: FlagOwner) -> Option<char> {
        match owner {
            FlagOwner::Subcommand(place) => self.form.subcommand(place).letter,
            FlagOwner::Argument(place) => self.form.arg(place).letter,
        }
    }

    fn alias_count(&self, owner: FlagOwner) -> usize {
        match owner {
            FlagOwner::Subcommand(place) => self
                .form
                .letter_count(ItemList::LetterFlagAliases, place),
            FlagOwner::Argument(place) => self.form.letter_count(ItemList::LetterAliases, place),
        }
    }

    fn alias(&self, owner: FlagOwner, item: usize) -> char {
        match owner {
            FlagOwner::Subcommand(place) => self
                .form
                .letter(ItemList::LetterFlagAliases, place, item),
            FlagOwner::Argument(place) => self.form.letter(ItemList::LetterAliases, place, item),
        }
    }
}

/// How many flags an owner has, its own counted even if it has none.
pub(crate) fn flag_count<K: FlagKind>(kind: &K, owner: FlagOwner) -> usize
    ensures { result ≡ length (flags_in K.FlagKind.own K.FlagKind.aliases (owner_in (K.FlagKind.form kind.now) owner)) }
{
    1 + kind.alias_count(owner)
}

/// A flag of an owner by its number: 0 is its own, an alias is 1 + its place.
pub(crate) fn flag<K: FlagKind>(kind: &K, owner: FlagOwner, number: usize) -> Option<K::Flag>
    ensures alike { (x : Option K.Flag) → same_if K.Flag.PartialEq.eq x result ≡ same_if K.FlagKind.same (option_map K.FlagKind.plain x) (option_map K.FlagKind.plain result) }
    ensures value { option_map K.FlagKind.plain result ≡ slice_index_or (flags_in K.FlagKind.own K.FlagKind.aliases (owner_in (K.FlagKind.form kind.now) owner)) number None }
{
    if number == 0 {
        kind.own_flag(owner)
    } else if number <= kind.alias_count(owner) {
        Some(kind.alias(owner, number - 1))
    } else {
        None
    }
}
