//! The allowed events, kept along a run: after each event those are looked at that it has made allowed, and those of the kept
//! ones that it may have refused. What is looked at hangs on what is live where the event was, and never on what is over. What a
//! Sync makes allowed is handed in, as it was foreseen ahead of the Sync. Who takes the first of them alone needs no more than a
//! list that leaves none of them out, for which no event is asked.
#![tactic(auto)]

mod asking;
mod firsts;
mod refused;
mod renewing;
mod revising;

pub use firsts::front;
pub use renewing::{advance, renew};
