//! Workers that run a text together. Each tries the events that it found, with the turns of their own parts alone, or a Run that
//! another found, or looks at the parts that are free. What was done, in the order of its numbers, is a run of the machine; the
//! journals got the groups of its Syncs, and the output the lines of its replies. A round neither waits nor holds a turn when it
//! returns; only the loop of a worker waits.
#![tactic(auto)]

mod crews;
mod ends;
mod looking;
mod rounds;
mod sharing;
mod threads;
mod workers;

pub use crews::{Hiring, run_crew};
pub use ends::{Ending, Fault, end_crew, fault_of};
pub use looking::Seen;
pub use rounds::Round;
pub use sharing::Crew;
pub use snap_work::MOST_WORKERS;
pub use workers::{Worker, work_together};
