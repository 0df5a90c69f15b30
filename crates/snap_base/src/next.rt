//! Where a slice leaves its transaction.

use crate::{ActorId, TxResult};

/// Where a slice of a transaction leaves it. `C` is a control, what is left of the transaction.
#[derive(Drop)]
pub enum Next<C> {
    /// The transaction goes to another actor, by a call or by a return, with the control that is to run there.
    Go(ActorId, C),
    /// The transaction has ended: with its value, or with the code of its failure.
    Ended(TxResult),
}
