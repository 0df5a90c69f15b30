//! The orders of the ACTs: which batches each one stands behind and ahead of, whom it stands behind on which actor, who
//! is given up for it, and who has its place in the serial order.
//!
//! A `Book` is the machine's book as orders: it knows no results, no votes and no commit numbers. The machine asks it at
//! each event that moves an ACT, and the answer of wait-die, `ask`, is computed here from the tids of its rivals alone.
#![tactic(auto)]

mod act;
mod acts;
mod answer;
mod book;
mod change;
mod fate;
mod listing;
mod mark;
mod pair;
mod placing;
mod register;
mod walk;

pub use act::Act;
pub use answer::{Answer, ask};
pub use book::Book;
pub use mark::Mark;
