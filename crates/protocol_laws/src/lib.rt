//! The laws of the protocol, over every state, event and run: public functions with empty bodies, whose
//! contracts are the laws. Their proofs end in the invariants on which those of protocol_theorems, protocol_records and
//! protocol_verdicts go on. docs/proofs.md tells how they are proved and in which folder.
#![tactic(auto)]

mod cells;
mod committed;
mod laws;
mod offers;
mod one_way;
mod undo;

pub use cells::cells_are_of_parts;
pub use committed::committed_are_those_with_places;
pub use laws::{
    allowed_or_refused, batches_settle_in_order, bids_are_consecutive,
    cells_agree_with_the_cascades, controls_are_in_one_place, events_leave_other_parts,
    events_read_their_parts, footprints_are_small, frame, logs_stay, numbers_are_drawn_once,
    pairs_carry_before_numbers, sub_batches_name_the_one_before, tids_are_consecutive,
    transactions_are_in_one_place,
};
pub use offers::{
    allowed_candidates_are_enabled, allowed_events_are_candidates, numbers_are_in_range,
    quiet_where_no_candidate_is_allowed,
};
pub use one_way::{
    committed_grows_at_its_end, events_go_one_way, places_stay, runs_go_one_way,
    settled_never_falls,
};
pub use undo::undo_gives_the_state_before;
