//! A batch that is formed, as the ring hands it to the desk and the post.

use snap_base::{Bid, SubBatch, Tid, TxNo};
use std::marker::Model;

/// A batch that is formed: its number, its PACTs with the tids that they drew, ascending, and what each of its actors
/// is told, by actor. Contracts see the machine's `Formed`.
#[derive(Drop)]
pub struct Formed {
    pub bid: Bid,
    pub txs: Vec<(Tid, TxNo)>,
    pub subs: Vec<SubBatch>,
}

impl Model for Formed {
    ghost use Rattle.std.specs.Prelude.{map};
    ghost use Rattle.protocol.specs.OnRing as protocol;
    ghost use Rattle.protocol.specs.Meant.{batch_pact, sub_batch, subs_actor};

    ghost Value = { protocol.Formed };

    ghost view = { λ f. record { bid = f.bid.0; actors = map subs_actor f.subs.items; pacts = map batch_pact f.txs.items; subs = map sub_batch f.subs.items } };
}
