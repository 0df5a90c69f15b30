//! What an actor has: its state, images of what the state was when entries first ran, and two floors for who comes.
//!
//! A `Cell` is one actor's. Contracts see the machine's `Store`: the state, the images in the order in which they were
//! taken, and the floors, of ACTs that only read and of others. What is done to it goes by whose an image is, a batch's or
//! an ACT's; the schedule of the actor, which knows who stands where and who only reads, is another value. The core calls
//! it, at Run, Finish, Rollback and Trim: at a Run of an ACT that only reads it asks for no image.
#![tactic(auto)]

mod cell;
mod images;
mod laws;
mod meant;

pub use cell::Cell;
pub use images::MOST_IMAGES;
pub use laws::{
    nothing_behind_an_act_has_run, nothing_to_undo, parting_is_restoring_and_finishing,
    undoing_is_rollback, what_stays_is_ahead,
};
