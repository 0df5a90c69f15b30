//! The schedule of a seed: which allowed event a host with one thread takes at each step.
#![tactic(auto)]

mod schedules;
mod words;

pub use schedules::schedules_are_followed;
pub use words::words_of_some_seeds;
