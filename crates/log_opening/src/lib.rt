//! Opens all four logs of a call, finds which of them are in use, decodes what these hold, and hands all devices back in order. The
//! records in front of the logs tell which are in use: those of the set, or else so many from device 0 on. A run says how many there are;
//! it makes those in use that are of format 1 and have no item ones of format 2, and then decodes them. Nothing else is written but what
//! opening makes of an empty file. A log is named by its device.
#![tactic(auto)]

mod counted;
mod decoding;
mod finding;
mod laws;
mod openings;
mod recovery;
mod refusals;
mod upgrades;

pub use counted::open_and_decode;
pub use decoding::{fold_records, read_log, read_logs};
pub use laws::no_call_is_safe;
pub use log_compact::{Folded, Found};
pub use openings::{OpenLogs, close, no_logs, open_logs};
pub use recovery::{open_and_recover, recover_kept};
pub use refusals::{LogsNo, of_opening};
pub use upgrades::{count_old, upgrade_all};
