//! Tables of turns in use: counters as parts, changes of one or two of them as events, and workers that take turns, in
//! one thread and in several. The rows run them; what is proved here is that a table serves a caller at all.
#![tactic(auto)]

mod counters;
#[cfg(test)]
mod rows;
#[cfg(test)]
mod runs;
#[cfg(test)]
mod workers;

pub use counters::{Change, Counted, Counter};
