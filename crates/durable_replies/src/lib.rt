//! Told only when durable: of a body of one thread that meets the contract of the top call. At each point of what it does, whatever a
//! crash leaves of the devices there recovers, and whoever is told by then that it committed is recovered. Public functions, whose
//! contracts are the laws.
#![tactic(auto)]

mod laws;

pub use laws::{plays_keep_promises, told_only_when_durable};
