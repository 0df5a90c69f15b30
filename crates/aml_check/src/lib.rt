//! Checked programs, and what they mean. In a `Checked` each name is resolved: no name is unknown, no call has
//! a wrong number of arguments, no method falls through, and a method that promises only to read does no more
//! (`specs/Closed.antt`). `aml_resolver` makes one of a program's tree. What a transaction means stands in
//! `specs/Meaning.antt`, and which may be asked of a program in `specs/Transactions.antt`; the executors and the
//! top call cite both.
#![tactic(auto)]

mod limits;
mod places;
mod programs;

pub use limits::{MOST_CALLED_ACTORS, MOST_CALLS, MOST_OPEN_CALLS, MOST_STATEMENTS};
pub use programs::Checked;
