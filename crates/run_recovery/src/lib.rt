//! A run of a work: what it leaves on its logs, and that whatever a crash leaves there at any moment of it recovers to what the
//! laws of the machine speak of. No code stands here: definitions and laws, on which the top call stands.
#![tactic(auto)]

mod laws;

pub use laws::{
    beginnings_are_recovered, calls_between_runs_lose_nothing, compactions_stand_between_runs,
    crashed_runs_go_on, each_run_finds_logs_as_runs_leave_them, runs_are_as_meant,
    runs_are_recovered, runs_go_on_behind_each_other, runs_stand, runs_use_states_and_next_numbers,
    seeds_pick_runs, values_are_results_alone, what_is_left_is_recoverable,
};
