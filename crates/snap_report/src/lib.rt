//! What is printed: a line for each reply, for each actor, for the end of a run, for its summary, for what logs recover to, and
//! for the status that a call ends with. What a line is stands in `specs/Lines.antt`, and the summary in `specs/Summaries.antt`.
#![tactic(auto)]

mod audit_faults;
mod lines;
mod statuses;
mod summaries;

pub use audit_faults::AuditFault;
pub use lines::{
    actor_line, compacted_line, end_line, following_line, kept_line, migrated_line, recovered_line,
    reply_line, shown,
};
pub use snap_recover::{LogCause, What};
pub use statuses::{Status, status_line};
pub use summaries::{Summary, summary_line};
