//! The theorems of the machine, over every run: the order of those that committed, numbers as the ends of sets, who waits
//! for whom, what a state is like where no event is allowed, that each run ends, and what its parts have to hold
//! meanwhile. Public functions with empty bodies, whose contracts are the laws. Their proofs go on from the invariants of
//! protocol_laws.
#![tactic(auto)]

mod actors;
mod books;
mod cases;
mod parts;
mod theorems;

pub use actors::{
    actors_lie_in_order, limits_hold, readers_see_the_state, sizes_hold, what_is_new_is_not_there,
};
pub use books::{books_are_asked_by_parts, books_are_of_parts, halves_go_on, halves_stay_fit};
pub use cases::{cases_of_order, schedules_are_in_order};
pub use parts::{batches_have_actors, boxes_are_few, controls_are_rests, places_are_few};
pub use theorems::{
    committed_transactions_are_in_order, conditions_are_as_agreed, every_run_ends,
    nobody_waits_in_a_circle, numbers_are_carried_through_all_pairs, numbers_are_the_ends_of_sets,
    rises_are_least, rows_are_as_agreed, runs_that_cannot_go_on_have_answered,
    who_has_ended_has_a_verdict,
};
