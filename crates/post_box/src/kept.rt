//! What the post keeps of a message beside its key.
ghost use Rattle.std.specs.Prelude.{◌≡◌, length};

use crate::head::SubHead;
use crate::keys::SubKey;
use snap_base::{ActorId, Bid, Sequence, SubBatch, Tid, Who};

/// A sub-batch without its key.
#[derive(Drop)]
pub struct SubRest {
    pub epoch: u64,
    pub prev: Bid,
    pub tids: Sequence<Tid>,
}

impl SubRest {
    /// What it says before it is taken.
    pub(crate) fn head(&self) -> SubHead
        ensures { result ≡ record { epoch = self.now.epoch; prev = self.now.prev; tids = length self.now.tids } }
    {
        SubHead {
            epoch: self.epoch,
            prev: self.prev,
            tids: self.tids.len(),
        }
    }
}

/// A control under way: whose it is, the actor that it goes to, and the control itself.
#[derive(Drop)]
pub struct Control<C> {
    pub who: Who,
    pub to: ActorId,
    pub control: C,
}

/// The key of a sub-batch, and the rest of it.
pub(crate) fn parted(s: SubBatch) -> (SubKey, SubRest)
    ensures key { (result.0.bid ≡ s.bid) × (result.0.actor ≡ s.actor) }
    ensures rest { (result.1.epoch ≡ s.epoch) × (result.1.prev ≡ s.prev) × (result.1.tids ≡ s.tids) }
{
    let SubBatch {
        bid,
        epoch,
        prev,
        actor,
        tids,
    } = s;
    (SubKey { bid, actor }, SubRest { epoch, prev, tids })
}

/// The sub-batch again.
pub(crate) fn whole(key: SubKey, rest: SubRest) -> SubBatch
    ensures { result ≡ record { bid = key.bid; epoch = rest.epoch; prev = rest.prev; actor = key.actor; tids = rest.tids } }
{
    let SubRest { epoch, prev, tids } = rest;
    SubBatch {
        bid: key.bid,
        epoch,
        prev,
        actor: key.actor,
        tids,
    }
}
