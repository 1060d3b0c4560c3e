ghost use Rattle.std.specs.Prelude.{◌≡◌};
ghost use Rattle.std.specs.Option.{option_map};
ghost use Rattle.form.specs.Shown.{shown, told_of, shown_subcommand, told_of_subcommand, key_name, key_told, shown_key, key_of};
ghost use Rattle.form.specs.Blank.{arg_named, subcommand_named};

use super::action::ArgAction;
use super::arg_settings::ArgFlags;
use super::range::ValueRange;
use std::convert::AsSlice;

/// An argument's record, with its names held as `N`.
#[derive(Clone, Copy)]
pub struct ArgOf<N> {
    pub id: N,
    pub long: Option<N>,
    pub letter: Option<char>,
    pub index: Option<u16>,
    pub settings: ArgFlags,
    pub action: ArgAction,
    pub terminated: bool,
    pub range: Option<ValueRange>,
}

/// An argument's record, as a source shows it: its names are parts of the source.
pub type ArgView<'a> = ArgOf<&'a [u8]>;

impl<'a> ArgView<'a> {
    /// An argument of that id, otherwise blank: action Set, and none, no or unset for the rest.
    pub fn new(id: &'a [u8]) -> ArgView<'a>
        ensures { shown result ≡ arg_named id.now }
    {
        ArgView {
            id,
            long: None,
            letter: None,
            index: None,
            settings: ArgFlags::from_bits(0),
            action: ArgAction::Set,
            terminated: false,
            range: None,
        }
    }
}

// `view` lends, as `as_ref` does: a `From` of a reference would be no plainer.
impl<N: AsSlice<u8>> ArgOf<N> {
    /// The record as a source shows it, with the names as parts of this one.
    pub fn view(&self) -> ArgView<'_>
        ensures { shown result ≡ told_of N.items self.now }
    {
        ArgOf {
            id: self.id.as_slice(),
            long: lent(&self.long),
            letter: self.letter,
            index: self.index,
            settings: self.settings,
            action: self.action,
            terminated: self.terminated,
            range: self.range,
        }
    }
}

/// The bytes of a name, where there is one.
pub fn lent<N: AsSlice<u8>>(name: &Option<N>) -> Option<&[u8]>
    ensures { option_map (λ x. x.now) result ≡ option_map N.items name.now }
{
    name.as_ref().map(|name| name.as_slice())
}

/// A group's record.
#[derive(Clone, Copy)]
pub struct GroupView<'a> {
    pub id: &'a [u8],
}

/// A subcommand's record, with its names held as `N`.
#[derive(Clone, Copy)]
pub struct SubcommandOf<N> {
    pub name: N,
    pub long: Option<N>,
    pub letter: Option<char>,
}

/// A subcommand's record, as a source shows it.
pub type SubcommandView<'a> = SubcommandOf<&'a [u8]>;

impl<'a> SubcommandView<'a> {
    /// A subcommand of that name, without flags.
    pub fn new(name: &'a [u8]) -> SubcommandView<'a>
        ensures { shown_subcommand result ≡ subcommand_named name.now }
    {
        SubcommandView {
            name,
            long: None,
            letter: None,
        }
    }
}

impl<N: AsSlice<u8>> SubcommandOf<N> {
    /// The record as a source shows it, with the names as parts of this one.
    pub fn view(&self) -> SubcommandView<'_>
        ensures { shown_subcommand result ≡ told_of_subcommand N.items self.now }
    {
        SubcommandOf {
            name: self.name.as_slice(),
            long: lent(&self.long),
            letter: self.letter,
        }
    }
}

/// What an argument is found by, with long names held as `N`.
#[derive(Clone, Copy)]
pub enum KeyType<N> {
    Position(u16),
    Short(char),
    Long(N),
}

/// A key, with the place of its argument.
#[derive(Clone, Copy)]
pub struct Key<N> {
    pub name: KeyType<N>,
    pub place: usize,
}

impl<N: AsSlice<u8>> KeyType<N> {
    /// What the argument is found by, with the long name as a part of this.
    pub fn view(&self) -> KeyType<&[u8]>
        ensures { key_name result ≡ key_told N.items self.now }
    {
        match self {
            KeyType::Position(index) => KeyType::Position(*index),
            KeyType::Short(letter) => KeyType::Short(*letter),
            KeyType::Long(name) => KeyType::Long(name.as_slice()),
        }
    }
}

impl<N: AsSlice<u8>> Key<N> {
    /// The key as a source shows it.
    pub fn view(&self) -> Key<&[u8]>
        ensures { shown_key result ≡ key_of N.items self.now }
    {
        Key {
            name: self.name.view(),
            place: self.place,
        }
    }
}
