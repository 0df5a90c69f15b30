//! The sub-batches of a batch: what each of its actors is told.
ghost use Rattle.std.specs.Prelude.{◌≡◌, ◌+◌, ◌<◌, ◌≤◌, [], length, map, is_ok, slice_index_or, OnOk, IfOk};
ghost use Rattle.protocol.specs.Fixed.{no_tx, declared};
ghost use Rattle.protocol.specs.Meant.{batch_pact, sub_batch, subs_actor, tid_number};
ghost use Rattle.token_ring.specs.Told.{ends_with, leading, sub_of_first_pact, with_tid, told_among, told_to, told_all, ActorsAscend};

use snap_base::{ActorId, Bid, Memory, Sequence, SubBatch, Tid, Tx, TxNo};
use std::alloc::Global;

/// What the sub-batches of one batch have in common.
#[derive(Drop)]
pub(crate) struct Heading<'a> {
    pub bid: Bid,
    pub epoch: u64,
    /// For each actor the last batch before this one, or 0.
    pub lasts: &'a [u64],
}

/// What each actor is told of the PACTs of a batch, by actor, ascending. A transaction that does not exist
/// declares nothing, and an actor that does not exist is told nothing.
pub(crate) fn sub_batches(
    alloc: Global,
    heading: &Heading,
    pacts: &[(Tid, TxNo)],
    txs: &[Tx],
) -> Result<Vec<SubBatch>, Memory>
    ensures { IfOk result (λ v. map sub_batch v.items ≡ told_all heading.now.bid.0 heading.now.epoch heading.now.lasts.now txs.now (map batch_pact pacts.now) []) }
{
    let mut subs = Vec::new(alloc);
    for pact in pacts {
        tell_pact(alloc, &mut subs, heading, pact, txs)?;
    }
    Ok(subs)
}

/// The actors that a PACT declares are told of it.
fn tell_pact(
    alloc: Global,
    subs: &mut Vec<SubBatch>,
    heading: &Heading,
    pact: &(Tid, TxNo),
    txs: &[Tx],
) -> Result<(), Memory>
    requires { ActorsAscend 0 (map sub_batch subs.old.items) }
    ensures told { OnOk result (map sub_batch subs.new.items ≡ told_to heading.now.bid.0 heading.now.epoch heading.now.lasts.now pact.now.0.0 (declared (slice_index_or txs.now pact.now.1.0 no_tx)) (map sub_batch subs.old.items)) }
    ensures ascend { OnOk result (ActorsAscend 0 (map sub_batch subs.new.items)) }
{
    match txs.get(pact.1.0 as usize) {
        None => Ok(()),
        Some(tx) => tell_uses(alloc, subs, heading, pact.0, tx.uses.as_slice()),
    }
}

/// The actors that `uses` names are told of a PACT.
fn tell_uses(
    alloc: Global,
    subs: &mut Vec<SubBatch>,
    heading: &Heading,
    tid: Tid,
    uses: &[(ActorId, u8)],
) -> Result<(), Memory>
    requires { ActorsAscend 0 (map sub_batch subs.old.items) }
    ensures told { OnOk result (map sub_batch subs.new.items ≡ told_to heading.now.bid.0 heading.now.epoch heading.now.lasts.now tid.0 (map (λ u. u.0.0) uses.now) (map sub_batch subs.old.items)) }
    ensures ascend { OnOk result (ActorsAscend 0 (map sub_batch subs.new.items)) }
{
    for used in uses {
        let actor = used.0;
        if (actor.0 as usize) < heading.lasts.len() {
            tell(alloc, subs, heading, actor, tid)?;
        }
    }
    Ok(())
}

/// An actor is told of a PACT, once. A batch has at most 256 actors, so an insertion moves few.
fn tell(
    alloc: Global,
    subs: &mut Vec<SubBatch>,
    heading: &Heading,
    actor: ActorId,
    tid: Tid,
) -> Result<(), Memory>
    requires exists { actor.0 < length heading.now.lasts.now }
    requires ascend { ActorsAscend 0 (map sub_batch subs.old.items) }
    ensures told { OnOk result (map sub_batch subs.new.items ≡ told_among tid.0 (sub_of_first_pact heading.now.bid.0 heading.now.epoch heading.now.lasts.now actor.0 tid.0) (map sub_batch subs.old.items)) }
    ensures ascend { OnOk result (ActorsAscend 0 (map sub_batch subs.new.items)) }
{
    let at = place_of(subs.as_slice(), actor);
    if at < subs.len() && subs[at].actor == actor {
        let sub = &mut subs[at];
        return add_tid(sub, tid);
    }
    let sub = begin(alloc, heading, actor, tid)?;
    subs.insert(at, sub)?;
    Ok(())
}

/// How many of the sub-batches are for actors below this one.
fn place_of(subs: &[SubBatch], actor: ActorId) -> usize
    requires { ActorsAscend 0 (map sub_batch subs.now) }
    ensures leading { result ≡ leading actor.0 (map subs_actor subs.now) }
    ensures bound { result ≤ length subs.now }
{
    subs.partition_point(|sub| sub.actor.0 < actor.0)
}

/// The sub-batch of an actor with its first PACT.
fn begin(alloc: Global, heading: &Heading, actor: ActorId, tid: Tid) -> Result<SubBatch, Memory>
    requires { actor.0 < length heading.now.lasts.now }
    ensures { IfOk result (λ s. sub_batch s ≡ sub_of_first_pact heading.now.bid.0 heading.now.epoch heading.now.lasts.now actor.0 tid.0) }
{
    let mut tids = Sequence::new(alloc);
    tids.push(tid)?;
    Ok(SubBatch {
        bid: heading.bid,
        epoch: heading.epoch,
        prev: Bid(heading.lasts[actor.0 as usize]),
        actor,
        tids,
    })
}

/// One more PACT, unless it is the one that was added last.
fn add_tid(sub: &mut SubBatch, tid: Tid) -> Result<(), Memory>
    ensures { OnOk result (sub_batch sub.new ≡ with_tid tid.0 (sub_batch sub.old)) }
{
    if ends_with(sub.tids.as_slice(), tid) {
        return Ok(());
    }
    sub.tids.push(tid)
}

/// Whether this is the last one.
fn ends_with(tids: &[Tid], tid: Tid) -> bool
    ensures { result ≡ ends_with tid.0 (map tid_number tids.now) }
{
    match tids.last() {
        None => false,
        Some(last) => *last == tid,
    }
}
