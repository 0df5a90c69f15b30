//! Follows the logs in use while another program appends to them: they are read so many times, without a change of their devices, and a
//! follower makes a round over each reading. Which logs are in use is told by the first reading. A log is named by its device.
#![tactic(auto)]

mod following;
mod laws;
mod reading;
mod refusals;
mod rounds;

pub use following::{Followed, follow};
pub use laws::folded_are_followed;
pub use log_opening::{Folded, recover_kept};
pub use log_reading::read_is_opened;
