//! What a run begins with, and what is kept of the earlier ones.
ghost use Rattle.std.specs.Prelude.{◌≡◌, [], IfOk};

use snap_base::{Bid, Memory, Sequence, State, Tid};
use std::alloc::Global;

/// What is committed.
#[derive(Drop)]
pub enum Kept {
    /// A batch and its transactions, ascending, with their values in this order. Where its commit does not tell them, as in
    /// format 1, there are none.
    Batch {
        bid: Bid,
        tids: Sequence<Tid>,
        values: Sequence<i64>,
    },
    /// An undeclared transaction, the batch behind which it comes, the number of its commit, and its value, where its commit
    /// tells it.
    Act {
        tid: Tid,
        m: Bid,
        c: u64,
        value: Option<i64>,
    },
}

/// What a run begins with.
pub struct Opening {
    /// The state of each actor, in the order of their numbers.
    pub states: Sequence<State>,
    /// What earlier runs committed, in the order of the places; undeclared transactions with one `m` and one `c`
    /// by their tids.
    pub committed: Sequence<Kept>,
    /// The next transaction's identifier, at least 1.
    pub next_tid: Tid,
    /// The next batch's number, at least 1.
    pub next_bid: Bid,
    /// The next commit number, at least 1.
    pub next_c: u64,
}

// Written out, so that a crate above calls it and does not repeat it.
impl Drop for Opening {
    fn drop(self) {
        let Opening {
            states: _states,
            committed: _committed,
            next_tid: _next_tid,
            next_bid: _next_bid,
            next_c: _next_c,
        } = self;
    }
}

/// What the first run on empty logs begins with: these states, nothing committed, and all numbers from 1 on.
pub fn fresh(alloc: Global, states: &[State]) -> Result<Opening, Memory>
    ensures { IfOk result (λ o. o ≡ record { states = states.now; committed = []; next_tid = record { 0 = 1 }; next_bid = record { 0 = 1 }; next_c = 1 }) }
{
    Ok(Opening {
        states: Sequence::from_vec(Vec::from_slice(alloc, states)?),
        committed: Sequence::new(alloc),
        next_tid: Tid(1),
        next_bid: Bid(1),
        next_c: 1,
    })
}
