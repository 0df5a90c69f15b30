//! Why a sub-batch is not placed.
use snap_base::Bid;

/// Why a sub-batch is not placed. The first that holds, in this order, is answered.
#[derive(Clone, Copy, Debug, PartialEq, Eq)]
pub enum ArriveNo {
    /// It comes of another epoch than `own`, that of the schedule.
    Epoch { own: u64 },
    /// The batch before it is not `have`, the last one that was placed in this epoch, or 0.
    Before { have: Bid },
    /// There was no memory.
    Memory,
}
