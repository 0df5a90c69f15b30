//! A log whose items are records of transactions: what is found at opening is decoded, with the place of the
//! first byte that is no record's, and records are appended as one group.
#![tactic(auto)]

mod appends;
mod growth;
mod items;
mod laws;
mod limits;

pub use appends::append_records;
pub use gate_log::{AppendNo, Log};
pub use growth::{groups_are_whole, history_grows};
pub use items::{ItemsNo, records_of};
pub use laws::{
    few_may_be_appended, no_more_records, one_list_of_records, opened_holds, opening_keeps,
    records_are_held, refused_keeps, upgrade_keeps,
};
pub use limits::{FARTHEST_APPEND, MOST_RECORDS};
pub use txn_records::{records_are_short, states_fit};
