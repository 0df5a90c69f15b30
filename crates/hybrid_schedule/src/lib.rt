//! The hybrid schedule of one actor: sub-batches and ACTs in the order in which they stand there. It says
//! whose turn it is, which ACTs one that comes can't stand beside, and which batch is complete. ACTs that only
//! read stand beside one another. Contracts see the machine's `HybridSchedule`, and beside it for how much more
//! there is room. The core asks it at every event of the actor, and nothing walks more than what stands there:
//! the entries, and the slots of the one sub-batch that is meant.
#![tactic(auto)]

mod arrivals;
mod askings;
mod changes;
mod entries;
mod laws;
mod left;
mod listing;
mod schedule;
mod slots;

pub use arrivals::ArriveNo;
pub use laws::{cut_is_at_first_aborted, gone_is_from_first_aborted};
pub use schedule::Schedule;
