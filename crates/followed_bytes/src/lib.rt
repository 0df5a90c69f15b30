//! A follower of a run's logs, from the bytes that its devices show at each look while the run goes on to the states that it tells, as
//! the language means them. What a reader finds of a log is what was there before the run, and behind it the records that are
//! synced, or these with all that waited, where an append is under way. So what he finds at one look is a reading of the machine's
//! run, each log at a moment of its own. No code stands here: definitions and laws.
#![tactic(auto)]

mod laws;

pub use laws::{
    first_runs_are_alone, looks_at_series_tell_meant_states, looks_tell_meant_states,
    readings_are_findings, runs_behind_checkpoints_are_alone, runs_on_what_is_left_go_on,
    what_reading_finds_is_held,
};
