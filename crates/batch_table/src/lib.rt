//! The desk of batches: how far each batch is on its way to be settled, how its PACTs ended, and which transactions
//! were replied to. Contracts see the machine's `Desk`.
//!
//! The machine's core asks it which batch is the next to commit or to be aborted, and tells it what happened. No call
//! walks the batches that are over: they are reached by number, by tid or by transaction.
#![tactic(auto)]

mod actors;
mod batches;
mod counts;
mod desk;
mod found;
mod laws;
mod left;
mod listing;
mod pacts;
mod replies;
mod spots;
mod stage;
mod table;

pub use desk::Desk;
pub use found::FoundPact;
pub use laws::{askings_are_conditions, planned_batch_may_join};
pub use stage::Stage;
