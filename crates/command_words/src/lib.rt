//! The words of the command line: which lists of them are a form, what a form asks for, and which word of another list is the
//! first wrong one. Nothing here runs anything.
#![tactic(auto)]

mod commands;
mod laws;
mod limits;
mod numbers;
mod runs;
mod words;
mod workers;

pub use commands::Command;
pub use laws::one_command;
pub use limits::{FEWEST_ROUNDS, MOST_ROUNDS};
pub use snap_work::MOST_WORKERS;
pub use words::read_words;
pub use workers::workers_of;
