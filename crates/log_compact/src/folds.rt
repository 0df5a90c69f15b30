//! What the logs in use fold to.
use snap_base::{Sequence, State};
use snap_recover::Opening;

/// What the logs of a set fold to: what a run begins with, and what stands for the records that a checkpoint took the place of.
#[derive(Drop)]
pub struct Folded {
    /// The states, the next numbers, and what is committed since the checkpoint.
    pub opening: Opening,
    /// Genesis's states: those with which the first run began.
    pub first: Sequence<State>,
    /// The checkpoint's generation, at least 1; and 0 where there is none.
    pub generation: u64,
    /// How many batches are committed, with those before the checkpoint.
    pub batches: u64,
    /// How many undeclared transactions are committed, with those before the checkpoint.
    pub acts: u64,
}
