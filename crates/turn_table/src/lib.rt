//! Parts that several workers share, each under a turn, and the one history of the events that they record.
//!
//! A worker takes the turns of the parts that an event touches, records the event and gives the turns back, each by
//! single steps that neither wait nor take memory. The events in the order of their numbers are one run over the parts.
//! Nothing here knows what a part or an event is: both come in by the trait `Piece`.
#![tactic(auto)]

mod closes;
mod held;
mod laws;
mod limits;
mod opens;
mod passes;
mod pieces;
mod rule;
mod steps;
mod turns;
mod views;

pub use held::{Held, Lease};
pub use laws::{
    histories_go_on, one_view_holds_it, put_and_rest, runs_join, taken_and_given,
    what_is_held_is_left,
};
pub use limits::{MOST_ENTRIES, MOST_PARTS, PASSES};
pub use passes::Pass;
pub use pieces::{Makes, Piece};
pub use steps::RoomNo;
pub use turns::Turns;
pub use views::View;
