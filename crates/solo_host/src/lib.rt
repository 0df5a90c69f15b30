//! The host with one thread. It takes the events of a core one after the other, as a seed's schedule picks them, until none
//! is allowed; before a log's Sync it appends what waits there to the log's device, and before a reply it prints its line. What
//! it kept is a front of the schedule, whatever ends it.
#![tactic(auto)]

mod befores;
mod drives;
mod freshening;
mod fronts;
mod groups;
mod keeping;
mod nexts;
mod picks;
mod replies;
mod together;
mod tries;
mod turns;
mod waits;

pub use drives::{Driven, drive};
pub use run_effects::{Stop, write_all};
