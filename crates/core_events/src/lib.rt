//! The 27 kinds of events, which are the atomic steps of the machine, and the parts that each of them needs: its
//! footprint. `specs/` says which of the machine's events an `Event` is. The core takes events by these values,
//! and whoever holds parts for it asks here which ones.
#![tactic(auto)]

mod events;
mod footprints;
mod numbers;
mod table;

pub use events::Event;
pub use footprints::Footprint;
pub use numbers::{
    BOOK, DESK, FIRST_LOG, POST, RING, first_cell, part_of_cell, part_of_log, parts_have_numbers,
};
pub use table::footprint;
