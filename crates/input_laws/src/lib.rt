//! The laws on the input of an audit: it has parts in one way, is the papers of one run at most, and is in order or has one first
//! fault; and what is printed in one that is in order is a serial run of its work. Public functions, whose contracts are the laws. So an
//! auditor that answers with the first fault, or that the input is in order, has one answer at each input.
#![tactic(auto)]

mod once;
mod serial;

pub use once::{an_input_in_order_has_no_fault, one_first_fault, one_run, parts_are_one};
pub use serial::inputs_tell_serial_runs;
