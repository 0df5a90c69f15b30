//! The work that a run is asked for: its settings, its program, the states that it begins with, and its
//! transactions, each within its limit (`specs/Kept.antt`); and the faults of a text that stands for none.
//! `work_text` reads one. Who runs or reports a work stands on this crate alone, and does not wait for the
//! reader.
#![tactic(auto)]

mod faults;
mod limits;
mod works;

pub use faults::{Limit, ProgramCause, WorkCause, WorkFault, WorkNo};
pub use limits::{
    LONGEST_WORK, MOST_ACTORS, MOST_ACTS, MOST_BATCHES, MOST_COORDINATORS, MOST_IN_A_BATCH,
    MOST_LOGS, MOST_TRANSACTIONS, MOST_WORKERS,
};
pub use works::Work;
