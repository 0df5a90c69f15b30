//! What a sub-batch under way says before it is taken.
use snap_base::Bid;

/// What a sub-batch under way says before it is taken.
#[derive(Clone, Copy)]
pub struct SubHead {
    /// The epoch of its batch.
    pub epoch: u64,
    /// The batch before it on its actor in this epoch, or 0.
    pub prev: Bid,
    /// How many tids it has.
    pub tids: usize,
}
