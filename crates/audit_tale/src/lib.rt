//! What the events of a run tell, as far as an auditor asks for it: of each ACT the ends of its two sets of batches in place
//! of the sets. Each event costs what is live where it happens. What events tell stands in `audit_words`.
#![tactic(auto)]

mod aborting;
mod arriving;
mod asking;
mod driving;
mod easing;
mod giving_up;
mod happening;
mod leaving;
mod numbering;
mod rising;
mod tail_group;
mod tale_no;
mod tales;
mod telling;
mod told;

pub use driving::told_by;
pub use tale_no::TaleNo;
pub use tales::{ActTale, BatchTale, MemberTale, Owner, Reason, Tale};
pub use told::{ActTies, ActorTale, BatchWay, Fall, Told, Waiter};
