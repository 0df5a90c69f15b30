//! Which events an event may have made allowed: for each part the list of those, of what the part shows after the event, that read
//! something that it changed. The laws say that each list tells all that is new there, and `touched` lists them. A list depends on
//! what is live where the event was, and never on what is over. What a Sync may have made allowed is listed ahead of it, by
//! `foreseen`, since after it no part tells which records it has made durable.
#![tactic(auto)]

mod at_hand;
mod following;
mod foreseeing;
mod given_up;
mod in_answers;
mod in_book;
mod in_cells;
mod in_desk;
mod in_post;
mod in_ring;
mod laws;
mod looks;
mod touching;

pub use foreseeing::foreseen;
pub use laws::{
    answers_are_told, book_is_told, cells_are_told, desk_is_told, logs_are_told, post_is_told,
    ring_is_told,
};
pub use looks::{Look, Names, looks_of, names_of};
pub use touching::touched;
