//! What `run` prints and traces on empty logs, where it ends with 0, is in order with its text: `audit` has no fault to tell of it.
//! Public functions, whose contracts are the laws.
#![tactic(auto)]

mod runs;

pub use runs::{runs_are_in_order, work_runs_are_in_order};
