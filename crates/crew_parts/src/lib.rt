//! The parts of the machine as workers share them, each under its turn: a log with its journal on a device, the desk with the
//! output. `Share` is such a part, `Act` what a worker does to some of them, and the turns of `turn_table` are over both. The
//! laws say that whatever acts a crew records from a beginning are a run of the machine, of whose state the shares are all
//! parts; that the journals got the groups of its Syncs, and the output the lines of its replies.
#![tactic(auto)]

mod acts;
mod besides;
mod held;
mod laws;
mod pieces;
mod shares;

pub use acts::Act;
pub use besides::{Beside, Slot};
pub use laws::{
    acts_are_few, acts_are_runs, crashes_find_moments, devices_stand_at_moments,
    output_stands_at_moments, passes_have_room, passes_stand, runs_lead, steps_are_moments,
};
pub use run_effects::{appends_drive, runs_of};
pub use shares::Share;
