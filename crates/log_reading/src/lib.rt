//! Reads the log of a device without a change of it: the device gets a call for its length, and then calls that read. So a log can be read
//! while another program appends to it; where its bytes end within a group the device is asked for its length again.
#![tactic(auto)]

mod laws;
mod reading;

pub use gate_log::{LogItem, OpenNo};
pub use laws::read_is_opened;
pub use reading::read_items;
