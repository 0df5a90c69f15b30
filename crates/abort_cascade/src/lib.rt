//! The cascades of aborts: which batches a failing PACT took along, and what became of their transactions.
//!
//! A value is the list of cascades in the order in which they came, with room for a number of them that is made at
//! once. They ascend, so a batch is found by binary search. The core adds one at each abort, and asks for the
//! present epoch, for aborted batches and for the verdicts of their PACTs.
#![tactic(auto)]

mod cascade;
mod cascades;

pub use cascades::Cascades;
