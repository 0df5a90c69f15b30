//! Makes logs of format 1 ones of format 2: `migrate` opens the logs and recovers what those in use hold, as whoever asks what they
//! recover to; then it upgrades those of these that are of format 1, from the first on. No record is lost at any moment of it.
#![tactic(auto)]

mod migrations;

pub use gate_log::{damage_is_no_log, one_difference, one_list};
pub use log_compact::{
    fronts_of_records, fronts_tell, one_fold, one_front, one_use, refused_are_not_folded,
};
pub use migrations::migrate;
pub use snap_recover::Kept;
