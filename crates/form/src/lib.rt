//! The vocabulary of an order form: the small types that every other crate speaks in.
#![tactic(auto)]

mod action;
mod app_settings;
mod arg_settings;
mod by_ref;
mod flags;
mod limits;
mod lists;
mod name;
mod names;
mod range;
mod ranges;
mod refusal;
mod source;
mod views;

pub use action::ArgAction;
pub use app_settings::{AppFlags, AppSettings};
pub use arg_settings::{ArgFlags, ArgSettings};
pub use flags::{Flags, Setting};
pub use limits::{MAX_ARGS, MAX_GROUPS, MAX_ITEMS, MAX_SUBCOMMANDS};
pub use lists::{EntryKind, ItemList, ItemSort};
pub use name::{Bytes, Name};
pub use names::letter;
pub use range::ValueRange;
pub use refusal::{LetterFault, NameFault, NoSuchCode, RangeFault, Refusal};
pub use source::{FormSource, Keyed};
pub use views::{ArgOf, ArgView, GroupView, Key, KeyType, SubcommandOf, SubcommandView, lent};
