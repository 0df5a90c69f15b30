//! The machine's parts at hand, for a work text. A `Hand` has some of the parts by their numbers; `apply` takes one event on
//! a hand that has the event's footprint, and is the only place where the rows of the event table are taken; `refusal` asks
//! what stands in the way. Contracts speak of every state of a run that the hand fits. Nothing here knows whether all parts
//! are at hand or only those that one worker holds, nor of devices or output.
#![tactic(auto)]

mod beginning;
mod events;
mod hand;
mod left;
mod on_actors;
mod on_logs;
mod on_replies;
mod on_ring;
mod on_undoing;
mod opening;
mod part_laws;
mod parts;
mod places;
mod running;
mod tables;
mod tellings;

pub use aml_slice::Control;
pub use core_events::{DESK, FIRST_LOG, first_cell};
pub use core_rows::{BookPart, CellPart, Desk, Post, Ring, StepNo, rows_may_be_taken, runs_go_on};
pub use events::{apply, refusal};
pub use hand::Hand;
pub use machine_text::works_are_texts;
pub use part_laws::{
    places_are_set, places_tell_the_hand, putting_fits, taken_is_put_back, taking_fits,
};
pub use parts::Part;
pub use snap_recover::{Opening, fresh};
pub use snap_work::{MOST_WORKERS, Work};
pub use tables::Tables;
