//! A core of which each event gets just the parts of its footprint: they are taken out of the whole hand and put into one of their
//! own, where the event is asked for, offered and taken, and are put back. So tests that drive it beside a core show that an event
//! wants no part but those. Contracts keep that its parts show a state that some run has come to; what it answers is compared by
//! the tests. No host uses it.
#![tactic(auto)]

mod lists;
mod moving;
mod steps;

pub use lists::is_listed;
pub use steps::FootprintCore;
