//! What a follower takes of the logs of runs while they grow, over the records as they are written: the rounds of snap_follow are those
//! of followed_runs, none is refused, and what was found before a call is taken by it. That two rounds over the same lists, with nothing
//! missing, give the members and the states to which the lists recover is a law of snap_follow over any lists, and holds here as it
//! stands there. No code stands here.
#![tactic(auto)]

mod laws;

pub use laws::{
    followers_are_not_refused, followers_know_more_later, followers_show_what_was_found,
    followers_tell_serial_states,
};
