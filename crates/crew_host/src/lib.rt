//! The host with several workers. They take the events of a core together, each where it finds some, until none is allowed; before
//! a log's Sync what waits there is appended to the log's device, and before a reply its line is printed. What they took is a run
//! of the machine, whatever ends them; why they ended is told by the logs, the output and the core that they left.
#![tactic(auto)]

mod drives;
mod happened;

pub use drives::{CrewEnd, drive_crew};
pub use gate_log::{FARTHEST_END, Log};
pub use run_effects::Stop;
pub use snap_hand::MOST_WORKERS;
