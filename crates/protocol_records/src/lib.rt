//! The laws of the machine's records, over every run: what they tell, that each is added once, what logs that a crash left
//! recover to, and several runs on the same logs. Public functions with empty bodies, whose contracts are the laws. Their
//! proofs go on from those of protocol_laws and protocol_theorems; the rows of the parts do not stand on them, so they are checked
//! beside these.
#![tactic(auto)]

mod numbers;
mod overs;
mod records;
mod recovered;
mod runs;
mod told;

pub use numbers::{next_numbers_are_above_all, places_are_drawn};
pub use overs::acts_end_whole;
pub use records::{
    marks_are_durable, records_are_added_once, records_are_few, records_tell_what_is,
};
pub use recovered::recovered_transactions_are_in_order;
pub use runs::several_runs_stand;
pub use told::told_transactions_are_in_order;
