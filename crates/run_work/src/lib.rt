//! A run of a work on the machine: its logs are opened, a host takes the events of its core, with one thread or with several
//! workers, what comes behind the replies is printed, or the summary alone, and at the end the trace is written. What it leaves
//! on the logs, on the output and in the trace is told by the events that were taken, whatever ended it. The top call makes it
//! once its text is accepted.
#![tactic(auto)]

mod calls;
mod endings;
mod hosts;
mod printings;
mod replies;
mod runs;

pub use calls::Call;
pub use endings::status_of;
pub use printings::Told;
pub use run_printing::push_actor;
pub use runs::{HasRun, crew_summary, crew_work, run_work};
pub use snap_base::{ActorId, Bid, Memory, Place, State, Tid};
pub use snap_core::Event;
pub use solo_host::write_all;
