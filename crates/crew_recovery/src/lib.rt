//! A crash while workers run. At each step of a crew's table what a crash leaves of the four devices is what it leaves at a moment
//! of the crew's run, so it recovers; and each transaction that the output called committed by then is among those that are
//! recovered. No code stands here: definitions and laws.
#![tactic(auto)]

mod laws;

pub use laws::{
    crews_recover, crews_runs_are_on_their_logs, ended_runs_recover,
    told_transactions_are_recovered,
};
