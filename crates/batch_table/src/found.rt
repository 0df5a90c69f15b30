//! What the desk tells of the PACT of a transaction.
use crate::Stage;
use snap_base::{Bid, Tid, TxResult};
use std::marker::Model;

/// A transaction's PACT at the desk. Contracts see `Found`.
#[derive(Drop)]
pub struct FoundPact {
    /// The number of its batch.
    pub bid: Bid,
    pub tid: Tid,
    /// How far its batch is; that it is aborted does not show here.
    pub stage: Stage,
    /// How it ended, if that was noted.
    pub result: Option<TxResult>,
}

impl Model for FoundPact {
    ghost use Rattle.batch_table.specs.Found.{Found};

    ghost Value = { Found };

    ghost use Rattle.batch_table.specs.Stages.{stage_meant};

    ghost view = { λ p. record { bid = p.bid.0; tid = p.tid.0; stage = stage_meant p.stage; result = p.result } };
}
