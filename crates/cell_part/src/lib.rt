//! One actor as a part of the machine: its store, its schedule, and its boxes of controls and outcomes.
//!
//! A `CellPart` is one actor's. Contracts see the machine's `Cell`, and beside it for how much more there is room. Each
//! event that changes a cell is one call, or two where a slice runs in between; each condition of an event that reads a
//! cell is one asking. The core calls it, and makes room first: what changes a cell takes no memory.
#![tactic(auto)]

mod boxes;
mod cell_part;
mod kept;
mod laws;
mod leaving;
mod left;
mod listing;
mod outcome;
mod waiting;

pub use cell_part::CellPart;
pub use laws::{run_is_begin_slice_end, what_is_found_has_its_number, who_gives_way_is_not_placed};
