//! The survey of a form: one text that offers each breach, in the order of a report, to a sink.
// A form and a sink go together through all of it, as two parameters: a struct that holds the `&mut` sink
// would have to say in each contract that the sink stays the same one, and be no plainer.
// Loops go over places, as a form source is asked by them: each breach tells the place.
#![tactic(auto)]

mod arg_at;
mod arguments;
mod each;
mod ends;
mod flag_kinds;
mod flag_owners;
mod flags;
mod groups;
mod indices;
mod items;
mod known;
mod last;
mod names;
mod own;
mod positions;
mod rows;
mod sections;
mod subcommands;
mod trailing;
mod twins;
mod value_settings;
mod version;
mod whole;

pub use sections::survey;
pub use sinks::{Count, Fill, First, Row, Sink, offer_same};
