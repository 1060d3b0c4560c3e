ghost use Rattle.std.specs.Prelude.{◌≡◌, ◌==◌};
ghost use Rattle.std.specs.Option.{option_map};
ghost use Rattle.form.specs.Bounds.{bounds};
ghost use Rattle.form.specs.Shown.{shown};
ghost use Rattle.rules.specs.Rows as rows;
ghost use Rattle.rules.specs.Words as words;
ghost use Rattle.looks.specs.Records.{seen, last_mark};

use form::{ArgAction, ArgSettings, ArgView, ValueRange};

/// The range that counts: one value where none is set.
pub fn counted(arg: &ArgView<'_>) -> ValueRange
    ensures { bounds result ≡ words.counted (shown arg.now).range }
{
    arg.range.unwrap_or(ValueRange::SINGLE)
}

/// Whether it has a letter or a long name.
pub fn has_flag(arg: &ArgView<'_>) -> bool
    ensures { result ≡ rows.has_flag (seen arg.now) }
{
    arg.letter.is_some() || arg.long.is_some()
}

/// Whether it is given by position.
pub fn is_positional(arg: &ArgView<'_>) -> bool
    ensures { result ≡ rows.positional (seen arg.now) }
{
    !has_flag(arg)
}

/// Its index, if it is given by position.
pub fn position(arg: &ArgView<'_>) -> Option<u16>
    ensures { result ≡ rows.position (seen arg.now) }
{
    if is_positional(arg) { arg.index } else { None }
}

/// Its index, none reading as 0: the rules on positions take it so.
pub fn index_or_0(arg: &ArgView<'_>) -> u16
    ensures { result ≡ words.index_or_0 (shown arg.now).index }
{
    arg.index.unwrap_or(0)
}

/// Whether its number of values is not fixed.
pub fn is_open(arg: &ArgView<'_>) -> bool
    ensures { result ≡ rows.open_ended (seen arg.now) }
{
    !counted(arg).is_fixed()
}

/// Whether it takes more than one value at a time, or may.
pub fn is_many(arg: &ArgView<'_>) -> bool
    ensures { result ≡ rows.many (seen arg.now) }
{
    counted(arg).is_multiple()
}

/// Whether it takes more than one value, at a time or in turn.
pub fn is_multiple(arg: &ArgView<'_>) -> bool
    ensures { result ≡ rows.multiple (seen arg.now) }
{
    is_many(arg) || arg.action == ArgAction::Append
}

/// Whether it takes no values.
pub fn takes_none(arg: &ArgView<'_>) -> bool
    ensures { result ≡ (words.most (seen arg.now) == 0) }
{
    !counted(arg).takes_values()
}

pub fn is_version(arg: &ArgView<'_>) -> bool
    ensures { result ≡ rows.is_version (seen arg.now) }
{
    arg.action == ArgAction::Version
}

pub fn too_many_values(arg: &ArgView<'_>) -> bool
    ensures { result ≡ rows.too_many_values (seen arg.now) }
{
    arg.action.max_num_args().max_values() < counted(arg).max_values()
}

pub fn index_with_flag(arg: &ArgView<'_>) -> bool
    ensures { result ≡ rows.index_with_flag (seen arg.now) }
{
    arg.index.is_some() && has_flag(arg)
}

pub fn index_zero(arg: &ArgView<'_>) -> bool
    ensures { result ≡ rows.index_zero (seen arg.now) }
{
    arg.index == Some(0)
}

pub fn index_without_value(arg: &ArgView<'_>) -> bool
    ensures { result ≡ rows.index_without_value (seen arg.now) }
{
    arg.index.is_some() && takes_none(arg)
}

pub fn positional_without_index(arg: &ArgView<'_>) -> bool
    ensures { result ≡ rows.positional_without_index (seen arg.now) }
{
    is_positional(arg) && arg.index.is_none()
}

pub fn range_unset(arg: &ArgView<'_>) -> bool
    ensures { result ≡ rows.range_unset (seen arg.now) }
{
    arg.range.is_none()
}

pub fn equals_with_many(arg: &ArgView<'_>) -> bool
    ensures { result ≡ rows.equals_with_many (seen arg.now) }
{
    1 < counted(arg).min_values() && arg.settings.is_set(ArgSettings::RequireEquals)
}

/// Whether the name is there and begins with a hyphen.
pub fn is_dashed(name: Option<&[u8]>) -> bool
    ensures { result ≡ rows.dashed (option_map (λ x. x.now) name.entry) }
{
    name.is_some_and(|name| name.starts_with(b"-"))
}

pub fn last_with_long(arg: &ArgView<'_>) -> bool
    ensures { result ≡ rows.last_with_long (seen arg.now) }
{
    arg.settings.is_set(ArgSettings::Last) && arg.long.is_some()
}

pub fn last_with_letter(arg: &ArgView<'_>) -> bool
    ensures { result ≡ rows.last_with_letter (seen arg.now) }
{
    arg.settings.is_set(ArgSettings::Last) && arg.letter.is_some()
}

pub fn required_global(arg: &ArgView<'_>) -> bool
    ensures { result ≡ rows.required_global (seen arg.now) }
{
    arg.settings.is_set(ArgSettings::Required) && arg.settings.is_set(ArgSettings::Global)
}

/// Whether it is positional and Last.
pub fn positional_last(arg: &ArgView<'_>) -> bool
    ensures { result ≡ rows.positional_last (seen arg.now) }
{
    is_positional(arg) && arg.settings.is_set(ArgSettings::Last)
}

/// A mark, if it is positional and Last.
pub fn last_mark(arg: &ArgView<'_>) -> Option<()>
    ensures { result ≡ last_mark (seen arg.now) }
{
    positional_last(arg).then_some(())
}
