ghost use Rattle.std.specs.Prelude.{◌≡◌, ℕ};
ghost use Rattle.calls.specs.Given.{arg_told, subcommand_given, subcommand_told, item_given, item_told};
ghost use Rattle.calls.specs.Called.{range_of, arg_called, called, called_by, enter_by, enter_call, alter_by, alter_call, sought, sought_by};

use super::call::{Bounds, Call, Sought};
use super::records::{ArgRecord, Item, Record, SubcommandRecord};
use form::lent;
use std::convert::AsSlice;

// Beside the views of `form`, whose records hold letters and settings that were checked.
impl<N: AsSlice<u8>> ArgRecord<N, Bounds> {
    fn lent(&self) -> ArgRecord<&[u8], Bounds>
        ensures record { arg_called result ≡ arg_told N.items range_of self.now }
        ensures range { result.range ≡ self.now.range }
    {
        ArgRecord {
            id: self.id.as_slice(),
            long: lent(&self.long),
            letter: self.letter,
            index: self.index,
            settings: self.settings,
            action: self.action,
            terminated: self.terminated,
            range: self.range,
        }
    }
}

impl<N: AsSlice<u8>> SubcommandRecord<N> {
    fn lent(&self) -> SubcommandRecord<&[u8]>
        ensures { subcommand_given result ≡ subcommand_told N.items self.now }
    {
        SubcommandRecord {
            name: self.name.as_slice(),
            long: lent(&self.long),
            letter: self.letter,
        }
    }
}

impl<N: AsSlice<u8>> Item<N> {
    fn lent(&self) -> Item<&[u8]>
        ensures { item_given result ≡ item_told N.items self.now }
    {
        match self {
            Item::Name(name) => Item::Name(name.as_slice()),
            Item::Letter(code) => Item::Letter(*code),
        }
    }
}

impl<N: AsSlice<u8>> Sought<N> {
    fn lent(&self) -> Sought<&[u8]>
        ensures { sought result ≡ sought_by N.items self.now }
    {
        match self {
            Sought::Position(position) => Sought::Position(*position),
            Sought::Letter(code) => Sought::Letter(*code),
            Sought::Long(name) => Sought::Long(name.as_slice()),
        }
    }
}

impl<N: AsSlice<u8>> Record<N, Bounds> {
    fn lent(&self) -> Record<&[u8], Bounds>
        ensures enter { enter_call result ≡ enter_by N.items self.now }
        ensures alter { (k : ℕ) → alter_call k result ≡ alter_by N.items k self.now }
    {
        match self {
            Record::Argument(arg) => Record::Argument(arg.lent()),
            Record::Group(id) => Record::Group(id.as_slice()),
            Record::Subcommand(subcommand) => Record::Subcommand(subcommand.lent()),
        }
    }
}

impl<N: AsSlice<u8>> Call<N> {
    /// The same call, with its names lent as slices of their bytes.
    pub fn lent(&self) -> Call<&[u8]>
        ensures { called result ≡ called_by N.items self.now }
    {
        match self {
            Call::Enter(record) => Call::Enter(record.lent()),
            Call::Alter(mark, record) => Call::Alter(*mark, record.lent()),
            Call::Unmade => Call::Unmade,
            Call::Strike(mark) => Call::Strike(*mark),
            Call::Attach(mark, list, item) => Call::Attach(*mark, *list, item.lent()),
            Call::Set(settings) => Call::Set(*settings),
            Call::Build => Call::Build,
            Call::Reopen => Call::Reopen,
            Call::Report(room) => Call::Report(*room),
            Call::First => Call::First,
            Call::Find(sought) => Call::Find(sought.lent()),
        }
    }
}
