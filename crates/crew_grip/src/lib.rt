//! What one worker holds of the parts that a crew shares: the parts whose turns it has, in a hand, and what stands beside each.
//! A part is taken by one try and given back as it is; an event is done on what is held, with what stands before it, and
//! recorded under the same turns. Nothing here waits, and nothing knows which events a worker looks for.
#![tactic(auto)]

mod acting;
mod grips;
mod holding;
mod outside;
mod results;

pub use grips::Grip;
pub use results::Acted;
