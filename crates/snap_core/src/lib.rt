//! The core: the machine of the protocol for a work text. It is its tables, which do not change, and a hand with all parts;
//! `step` is `apply` on that hand. What a core has come to is told by a list of events: some run of the text from its
//! opening leads to the state that the core shows, so every law over runs is a fact about it. Hosts step a core; nothing
//! here knows of devices or output.
#![tactic(auto)]

mod allowed;
mod answers;
mod cores;
mod left;
mod parting;
mod renewals;
mod settling;
mod verdicts;

pub use aml_slice::Control;
pub use core_events::Event;
pub use cores::Core;
pub use parting::one_core_of_parts;
pub use ready_list::ReadyList;
pub use ready_renewal::front;
pub use snap_hand::{Hand, Opening, Part, StepNo, Tables, Work, apply, fresh, works_are_texts};
