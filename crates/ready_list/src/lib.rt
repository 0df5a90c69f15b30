//! The events that are allowed now, in the order in which a host takes them: by kind, then by the first number, then by the
//! second. They stand in a ring for each kind. A host puts in what has become allowed, takes out what no longer is, and asks how
//! many there are, which is the n-th, and which are of a kind: so it finds the next event without asking all there are. Only what
//! is allowed is held, never the past. Room is made before an event is executed, so that no change of the list can lack memory.
#![tactic(auto)]

mod kinds;
mod numbered;
mod places;
mod reach;
mod ready;
mod ring;
mod rings;

pub use reach::Reach;
pub use ready::ReadyList;
