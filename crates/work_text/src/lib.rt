//! The work text: the settings, the program, the actors with their states, and the transactions that a
//! run is asked for, as text. `parse_work` reads it as a `snap_work::Work`. What a text stands for, and the
//! first fault of one that stands for nothing, are one relation, `specs/Reads.antt`, by the parts of a text
//! in their order.
#![tactic(auto)]

mod actors;
mod calls;
mod faults;
mod laws;
mod lines;
mod numbers;
mod parse;
mod program;
mod reading;
mod settings;
mod states;
mod texts;
mod transactions;
mod uses;

pub use laws::{
    a_work_is_short, fault_or_work, one_first_fault, one_reading, one_work, transactions_may_run,
};
pub use parse::parse_work;
