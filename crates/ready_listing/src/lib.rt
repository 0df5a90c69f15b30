//! Which events may be taken with the parts at hand. What the parts list is looked at, and what is allowed of it is offered, in
//! the order in which a host takes events. Nothing here changes a part.
#![tactic(auto)]

mod choosing;
mod of_acts;
mod of_batches;
mod of_cells;
mod of_others;
mod of_post;
mod offering;
mod pushing;

pub use of_acts::list_book;
pub use of_batches::{list_desk, list_going};
pub use of_cells::{actor_count, list_cells, list_place, list_waiting};
pub use of_others::{list_next, list_ring, list_unreplied, next_holder};
pub use of_post::{list_messages, list_post};
pub use offering::offers;
pub use pushing::{push_one, push_two};
pub use ready_list::ReadyList;
