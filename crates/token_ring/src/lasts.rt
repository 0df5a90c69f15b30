//! The last batch of each actor.
ghost use Rattle.std.specs.Prelude.{◌≡◌, length, map, replicate, IfOk};
ghost use Rattle.protocol.specs.OnRing.{with_lasts};
ghost use Rattle.protocol.specs.Meant.{subs_actor};

use snap_base::SubBatch;

/// The actors of the sub-batches have batch `bid` as their last one.
pub(crate) fn mark(lasts: &mut [u64], subs: &[SubBatch], bid: u64)
    ensures { lasts.new ≡ with_lasts bid (map subs_actor subs.now) lasts.old }
{
    for sub in subs {
        let at = sub.actor.0 as usize;
        if at < lasts.len() {
            lasts[at] = bid;
        }
    }
}

/// No actor has a last batch.
pub(crate) fn forget(lasts: &mut [u64])
    ensures { lasts.new ≡ replicate (length lasts.old) 0 }
{
    lasts.fill(0);
}
