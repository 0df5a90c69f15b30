//! The post of the machine: what is under way to actors, sub-batches and controls, in the order of posting.
//!
//! A sub-batch is found by its batch and its actor, and a control by its transaction. Any message may be taken next,
//! in time that does not grow with how many there are. The core posts, takes and drops; nothing here is delivered.
#![tactic(auto)]

mod head;
mod kept;
mod keys;
mod left;
mod listing;
mod numbered;
mod post;
mod posted;
mod tally;

pub use head::SubHead;
pub use post::Post;
