//! The records of the machine as they are written, behind those of earlier runs: what logs recover to that a crash left at
//! any moment of a run is the opening that the laws of the machine speak of. No code stands here; the laws of the machine
//! and of recovery are called to cite them, and the next run begins with that opening.
#![tactic(auto)]

mod laws;

pub use laws::{
    logs_recover_behind_each_run, logs_recover_from_greater_numbers, logs_recover_to_the_members,
    values_are_results,
};
