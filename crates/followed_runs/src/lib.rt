//! What a follower takes of the logs of runs while they grow. It reads them in rounds, log by log, at moments that never go
//! back; each round takes some of the commits that the round before read. Public functions with empty bodies, whose contracts
//! are the laws. Their proofs go on from those of protocol_records.
#![tactic(auto)]

mod laws;

pub use laws::{
    followers_are_in_order, followers_go_on_behind_runs, later_calls_know_more,
    later_calls_know_more_behind_runs, records_are_read_once, what_was_seen_is_shown,
    what_was_seen_is_shown_behind_runs,
};
