ghost use Rattle.std.specs.Prelude.{◌≡◌};
ghost use Rattle.console.specs.Words.{kind_letter, kind_name, list_name};

use form::{EntryKind, ItemList};
use rules::Rule;

/// What is wrong where the rule is broken.
pub(crate) fn sentence(rule: Rule) -> &'static str {
    match rule {
        Rule::PropagateWithoutVersion => "the version is to be propagated, but the form has none",
        Rule::VersionActionWithoutVersion => "it shows the version, but the form has none",
        Rule::LongFlagDash => "its long flag begins with a hyphen",
        Rule::ConflictsWithItself => "it conflicts with itself",
        Rule::TooManyValues => "it takes more values than its action allows",
        Rule::IndexWithFlag => "it has an index, and a letter or long name",
        Rule::IndexZero => "its index is 0; positions start at 1",
        Rule::IndexWithoutValue => "it has an index but takes no value",
        Rule::PositionalWithoutIndex => "it is positional but has no index",
        Rule::RangeUnset => "it has no range of values",
        Rule::EqualsWithMany => "it needs more than one value, and an equals sign",
        Rule::SettingWithoutValue => "it takes no value but has a setting about values",
        Rule::MulticallArgument => "a multicall form cannot have arguments",
        Rule::LongNameDash => "its long name begins with a hyphen",
        Rule::SameId => "a later argument has the same id",
        Rule::SameLongName => "a later argument has the same long name",
        Rule::SameLetter => "a later argument has the same letter",
        Rule::SameIndex => "a later positional argument has the same index",
        Rule::RequiresItself => "it requires itself",
        Rule::RequiredConditionally =>
            "it is required always, so it cannot be required under a condition",
        Rule::MissingReference | Rule::MissingGroupRequirement | Rule::MissingGroupConflict =>
            "no argument and no group has this id",
        Rule::LastWithLong => "it is marked last, but has a long name",
        Rule::LastWithLetter => "it is marked last, but has a letter",
        Rule::RequiredGlobal => "it is both required and global",
        Rule::SameGroupId => "a later group has the same id",
        Rule::GroupIdOfArgument => "an argument has the same id",
        Rule::MissingMember => "no argument has this id",
        Rule::SameLongFlag => "another owner has the same long flag",
        Rule::SameLetterFlag => "another owner has the same letter",
        Rule::SubcommandNameTaken => "its name is taken by an earlier name or alias",
        Rule::SubcommandAliasTaken => "its alias is taken by an earlier name or alias",
        Rule::PositionsWithGaps => "the highest position is not the number of positions",
        Rule::TrailingLast => "it is trailing, so it cannot be marked last too",
        Rule::TrailingNotMultiple => "it is trailing, so it must take multiple values",
        Rule::TrailingElsewhere => "it is trailing, but does not stand at the highest position",
        Rule::OpenBeforeOptional =>
            "it must be required or last, since one before it takes multiple values and has no terminator",
        Rule::MultipleElsewhere => "only the last two positions may take multiple values",
        Rule::TooManyMultiple =>
            "only one positional argument may take any number of values, unless the last is marked last",
        Rule::OptionalBeforeRequired => "it is not required, but a higher position is",
        Rule::TwoLast => "another positional argument is marked last too",
        Rule::RequiredLastWithSubcommands => "it is required and last, but there are subcommands",
        Rule::MulticallWithoutBinaryName => "a multicall form must have a binary name",
        Rule::FormCut => "arguments were cut off the form",
    }
}

/// How an entry's kind begins its place in print.
pub fn kind_letter(kind: EntryKind) -> char
    ensures { result ≡ kind_letter kind }
{
    match kind {
        EntryKind::Argument => 'a',
        EntryKind::Group => 'g',
        EntryKind::Subcommand => 's',
    }
}

/// What an entry of the kind is called.
pub fn kind_word(kind: EntryKind) -> &'static str
    ensures { result.now ≡ kind_name kind }
{
    match kind {
        EntryKind::Argument => "argument",
        EntryKind::Group => "group",
        EntryKind::Subcommand => "subcommand",
    }
}

/// What a list is called.
pub fn list_word(list: ItemList) -> &'static str
    ensures { result.now ≡ list_name list }
{
    match list {
        ItemList::Requires | ItemList::GroupRequires => "requires",
        ItemList::RIfs => "required if",
        ItemList::RIfsAll => "required if all",
        ItemList::RUnless => "required unless",
        ItemList::RUnlessAll => "required unless all",
        ItemList::Conflicts | ItemList::GroupConflicts => "conflicts",
        ItemList::Overrides => "overrides",
        ItemList::LongAliases | ItemList::SubcommandAliases => "aliases",
        ItemList::LetterAliases => "letter aliases",
        ItemList::Members => "members",
        ItemList::LongFlagAliases => "long flag aliases",
        ItemList::LetterFlagAliases => "letter flag aliases",
    }
}
