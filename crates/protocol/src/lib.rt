//! The protocol as mathematics: what a state of the machine holds, the events, when each is allowed and
//! what it does. `specs/` is to be read in the order that docs/protocol.md gives. The laws are in
//! protocol_laws, worked runs in protocol_runs. The code here is what the machine's parts hand to one another, a batch that is
//! formed, and what they count to tell how many events may still come.
#![tactic(auto)]

mod formed;
mod left;

pub use formed::Formed;
pub use left::{Visits, unless};
