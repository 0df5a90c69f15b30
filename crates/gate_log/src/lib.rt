//! The journal of one device: a list of items that grows by whole groups. A group is written behind a closed
//! gate and made durable before the gate is opened, so a crash at any moment leaves the list from before an
//! append or the one with the whole group. A log is cleared by closing its first gate, so a crash leaves its list or none.
#![tactic(auto)]

mod appends;
mod blocks;
mod clears;
mod laws;
mod limits;
mod logs;
mod opens;
mod reads;
mod sizes;

pub use laws::{
    append_is_whole, beginning_is_safe, clear_is_safe, damage_is_no_log, logs_are_lists,
    one_damage, one_difference, one_list, one_reading, opening_is_safe, upgrade_is_safe,
};
pub use limits::{FARTHEST_END, LARGEST_GROUP, LONGEST_ITEM, NEW_LOG_SIZE};
pub use logs::{AppendNo, Log, LogItem};
pub use opens::OpenNo;
