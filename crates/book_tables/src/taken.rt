ghost use Rattle.std.specs.Prelude.{◌≡◌};
ghost use Rattle.std.specs.Option.{option_map};
ghost use Rattle.form.specs.NameBytes.{name_bytes};
ghost use Rattle.calls.specs.Calls.{kept_index};
ghost use Rattle.calls.specs.Given.{arg_given, subcommand_given, item_given};
ghost use Rattle.book_tables.specs.Held.{arg_held, subcommand_held, item_held};
ghost use Rattle.book_tables.specs.Taken.{within_ok, name_taken, long_taken, letter_taken, item_taken, arg_taken, subcommand_taken};

use super::held::HeldItem;
use calls::{ArgRecord, Item, SubcommandRecord};
use form::{ArgFlags, ArgOf, Name, Refusal, SubcommandOf, ValueRange, letter};

/// A name of the bytes.
pub(crate) fn take_name(bytes: &[u8]) -> Result<Name, Refusal>
    ensures { within_ok name_bytes result ≡ name_taken bytes.now }
{
    Ok(Name::new(bytes)?)
}

// a name, where there are bytes
fn take_long(bytes: Option<&[u8]>) -> Result<Option<Name>, Refusal>
    ensures { within_ok (option_map name_bytes) result ≡ long_taken (option_map (λ x. x.now) bytes.entry) }
{
    bytes.map(take_name).transpose()
}

// a letter, where there is a code; by its name alone, a function of another crate gets no proof
fn take_letter(code: Option<u32>) -> Result<Option<char>, Refusal>
    ensures { result ≡ letter_taken code }
{
    Ok(code.map(|code| letter(code)).transpose()?)
}

// 65,535 is no index
fn take_index(index: Option<u16>) -> Option<u16>
    ensures { result ≡ kept_index index }
{
    index.filter(|index| *index != 65535)
}

/// The record that is kept of what is given of an argument.
pub(crate) fn take_arg(details: ArgRecord<&[u8], ValueRange>) -> Result<ArgOf<Name>, Refusal>
    ensures { within_ok arg_held result ≡ arg_taken (arg_given details.entry) }
{
    Ok(ArgOf {
        id: take_name(details.id)?,
        long: take_long(details.long)?,
        letter: take_letter(details.letter)?,
        index: take_index(details.index),
        settings: ArgFlags::from_bits(details.settings),
        action: details.action,
        terminated: details.terminated,
        range: details.range,
    })
}

/// The same of a subcommand.
pub(crate) fn take_subcommand(
    details: SubcommandRecord<&[u8]>,
) -> Result<SubcommandOf<Name>, Refusal>
    ensures { within_ok subcommand_held result ≡ subcommand_taken (subcommand_given details.entry) }
{
    Ok(SubcommandOf {
        name: take_name(details.name)?,
        long: take_long(details.long)?,
        letter: take_letter(details.letter)?,
    })
}

/// The same of an item.
pub(crate) fn take_item(item: Item<&[u8]>) -> Result<HeldItem, Refusal>
    ensures { within_ok item_held result ≡ item_taken (item_given item.entry) }
{
    Ok(match item {
        Item::Name(bytes) => HeldItem::Name(take_name(bytes)?),
        Item::Letter(code) => HeldItem::Letter(letter(code)?),
    })
}
