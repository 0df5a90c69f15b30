//! What a run prints behind its replies: the actors and the end where it is quiet, or its summary alone; who is unsure where a
//! log's device failed; and the trace of its events. Each is written whole, or a front of it.
#![tactic(auto)]

mod counts;
mod endings;
mod summed;
mod totals;
mod traces;
mod unsures;
mod writes;

pub use endings::{push_actor, write_ending};
pub use summed::write_summary;
pub use traces::write_trace;
pub use unsures::write_unsures;
pub use writes::WriteNo;
