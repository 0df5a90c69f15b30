//! What stands outside the host: where bytes come from, where they go, the devices that hold the logs,
//! and the gate that a test may set before a slice. Each trait counts its faults, and a call fails only
//! where its count rose. The fakes in memory meet the traits, tell what they hold, and fail at the calls
//! that a test names.
#![tactic(auto)]

mod devices;
mod disks;
mod gates;
mod laws;
mod memory;
mod schedules;
mod sinks;
mod sources;

pub use devices::{DevOp, LogDev};
pub use gates::{FreeGate, Gate};
pub use laws::images_of_settled;
pub use memory::MemLog;
pub use schedules::Failed;
pub use sinks::{MemSink, NullSink, Sink};
pub use sources::{MemSource, Source};
