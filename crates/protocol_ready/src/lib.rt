//! Which events an event may make allowed or refused, and the events that are allowed, kept in order along a run: after each
//! event only those that it touches are looked at again. No code stands here: public functions whose contracts are the laws,
//! over every state, event and run. `C` is the type of controls.
#![tactic(auto)]

mod laws;
mod order;
mod refusing;

pub use laws::{
    allowed_lies_there, enabled_is_found, enabled_is_kept, enabled_is_renewed, parts_tell_all,
    states_are_sound, unlooked_stay, untouched_stay,
};
pub use order::{events_stay_in_order, one_is_put, one_is_taken, ranks_are_in_order};
pub use refusing::{no_event_is_allowed_again, out_of_reach_stay, renewed_are_enabled};
