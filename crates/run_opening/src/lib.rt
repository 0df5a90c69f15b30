//! What a run begins with: all four logs are opened, those in use are decoded and folded, and what they began with is compared
//! with the work text. Then the other side of a set with a checkpoint is cleared, or Genesis is written where no log in use has a
//! record yet. `open_run` does it on devices, for one to four logs, and `start_from` on lists of records; what is said of devices
//! is said by the records that they hold, before and after.
#![tactic(auto)]

mod comparisons;
mod laws;
mod limits;
mod opens;
mod preparing;
mod starts;

pub use comparisons::{GREATEST_TO_BEGIN, ROOM_TO_BEGIN};
pub use gate_log::{
    FARTHEST_END, Log, beginning_is_safe, clear_is_safe, logs_are_lists, one_list, opening_is_safe,
};
pub use laws::begins_again;
pub use limits::LARGEST_START;
pub use log_opening::{LogsNo, close};
pub use opens::{Begun, open_run};
pub use snap_recover::Opening;
pub use starts::{Start, start_from};
