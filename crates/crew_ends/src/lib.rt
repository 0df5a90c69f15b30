//! How a crew begins and ends: the parts of a new core become shares, with the logs' journals and the output beside them; and
//! the shares to which a crew has come become a core again, with the journals and the output. The law tells what a crew made of
//! the journals and the output, whatever the order of its events. Nothing here knows how shares come from one worker to another.
#![tactic(auto)]

mod beginnings;
mod ends;
mod laws;
mod laying;
mod rooms;
mod taking;

pub use beginnings::shares_of;
pub use ends::{Ended, core_of};
pub use laws::crews_drive;
pub use rooms::{Beginning, Room};
