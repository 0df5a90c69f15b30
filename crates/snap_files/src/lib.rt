//! The outside as the system has it: the standard streams, files that output goes to, and files that hold
//! logs. Each object counts every error of the system, and tells no content.
#![tactic(auto)]

mod faults;
mod files;
mod logs;
mod sinks;
mod streams;

pub use logs::FileLog;
pub use sinks::FileSink;
pub use streams::{StdinSource, StdoutSink};
