//! The book of the machine: its ACTs and its cascades, held as orders, votes and cascades that do not know each other.
//!
//! A `BookPart` does to these what each event does to the book, and answers what the conditions of the events ask of the
//! book, what the records of a decision need, and what became of a transaction. Contracts see `Halves`; whatever is asked
//! is said of the book that they show. The core calls it at each event that reads or changes the book.
#![tactic(auto)]

mod askings;
mod commit;
mod laws;
mod left;
mod listing;
mod marks;
mod part;
mod results;
mod verdicts;

pub use commit::Commit;
pub use laws::{
    conditions_are_met_in_halves, halves_stay_of_their_book, next_tid_is_above_orders,
    unbegun_acts_wait_for_nothing,
};
pub use part::BookPart;
