//! The ring of coordinators: who has the token, what waits at each coordinator, the numbers that are
//! drawn next, and the last batch of each actor. Contracts see the machine's `Ring`; each call that
//! changes it is one of the machine's effects, and each asking is exact. The machine's core calls it.
#![tactic(auto)]

mod form_no;
mod lasts;
mod queue;
mod ring;
mod subs;

pub use form_no::FormNo;
pub use ring::Ring;
