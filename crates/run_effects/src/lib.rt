//! What the events of a run give to the outside: the groups of records that each log gets, the lines that are printed, and how
//! these grow with one more event. What waits on a log may be appended to it at every moment of every run, since the records of
//! a run are few and short. A log's journal gets the groups of the log's Syncs, one append for each, and then perhaps a prefix
//! of one that met a fault. The definitions, the laws, the append and the reasons why a host ends are for every host, whoever
//! takes the events.
#![tactic(auto)]

mod appends;
mod drives;
mod groups;
mod recorded;
mod replies;
mod sizes;
mod stops;
mod writes;

pub use appends::append_pieces;
pub use drives::{appends_drive, runs_of};
pub use groups::{batches_are_counted, groups_grow};
pub use record_log::history_grows;
pub use recorded::groups_are_records;
pub use replies::{answers_grow, replies_grow};
pub use sizes::{groups_fit, logs_are_few, told_are_short, waiting_fits};
pub use stops::Stop;
pub use writes::write_all;
