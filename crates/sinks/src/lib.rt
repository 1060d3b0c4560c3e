//! What breaches are offered to, how each is told, and the search for pairs.
#![tactic(auto)]

mod offers;
mod same;
mod sink;
mod told;

pub use offers::{offer_if, offer_tests};
pub use same::{Row, offer_same};
pub use sink::{Count, Fill, First, Sink};
pub use told::{
    argument_at, group_at, of_bit, of_flags, of_form, of_item, of_one, of_two, subcommand_at,
};
