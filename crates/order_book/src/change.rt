//! What may become of one ACT.
use snap_base::{ActorId, Bid, TxNo, Verdict};

/// What becomes of one ACT and takes no memory.
#[derive(Clone, Copy)]
pub(crate) enum Change {
    /// This batch stands behind it.
    Lower(Bid),
    /// It is given up at an event on this actor, if its numbers cross.
    Cross(ActorId),
    /// It stands behind this batch.
    Raise(Bid),
    /// It is given up, if it is undecided.
    Doom(Verdict),
    /// It gets its place in the serial order, if it is undecided.
    Place,
    /// It leaves this actor.
    Leave(ActorId),
    /// It is given up where it stands behind a batch from this one on, which this transaction's failure aborts.
    TakeAlong(Bid, TxNo),
}
