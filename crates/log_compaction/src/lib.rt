//! The command that writes a checkpoint in place of old records, and its writes: on the devices of the other side a checkpoint of what the
//! logs in use fold to, and then these are cleared. The order of the writes is the one that `log_compact` says of each moment what a crash
//! leaves.
#![tactic(auto)]

mod compaction;
mod groups;
mod laws;
mod limits;
mod ready;
mod refusals;
mod writes;

pub use compaction::compact;
pub use laws::compaction_fits;
pub use limits::{GREATEST_TO_COMPACT, ROOM_TO_COMPACT};
pub use refusals::CompactNo;
pub use writes::{CompactionNo, write_checkpoint};
