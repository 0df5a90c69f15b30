//! Worked runs of the protocol: texts with lists of events, and what comes out, computed by the check. Each
//! rule of the event table whose change no law would see is pinned by one of them.
#![tactic(auto)]

mod examples;

pub use examples::{
    acts_play, batches_play, cascades_play, crowd_plays, example_code_has_the_facts, paths_play,
    refusals_play, rules_play, seeds_play,
};
