//! What the workers of a crew try next, and what they tell each other: lists of events, a board, and looks. All of it is hints, of
//! which no contract speaks: whoever does an event asks first whether it is allowed.
#![tactic(auto)]

mod boards;
mod finds;
mod follows;
mod kinds;
mod leaders;
mod shelves;

pub use boards::Board;
pub use finds::Finds;
pub use follows::{
    AtHand, Mark, follow, list_coming, list_foreseen, list_live_answers, list_refused, waiting_keys,
};
pub use kinds::{is_slice, needs_hub, takes_long};
pub use leaders::{Leader, Next, Scope, Step};
