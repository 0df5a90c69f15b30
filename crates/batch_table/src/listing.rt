//! What is asked of the desk when all events that batches may have are looked for.
ghost use Rattle.std.specs.Prelude.{◌≡◌, ◌==◌, ◌&&◌, ◌≤◌, ℕ, not, map, take, filter, length, option_map, slice_get, [], IfOk};
ghost use Rattle.protocol.specs.Meant.{actor_number};
ghost use Rattle.protocol.specs.Words as words;
ghost use Rattle.batch_table.specs.Askings as askings;
ghost use Rattle.batch_table.specs.Listed.{actors_in, going_batches, is_going_batch, is_number, pact_tx, txs_at, unreplied_below};
ghost use Rattle.batch_table.specs.Sound.{IsFrontCount, standings_of};

use crate::batches::BatchEntry;
use crate::desk::Desk;
use crate::table;
use snap_base::{ActorId, Bid, Memory, Tid, TxNo};
use std::alloc::Global;

impl Desk {
    /// The batches of which some event may still be allowed: those neither aborted, nor settled and trimmed on all their
    /// actors, in the order of their numbers. It walks the batches from the oldest of them on, and no older one.
    pub fn going(&self, alloc: Global) -> Result<Vec<Bid>, Memory>
        ensures { IfOk result (λ bids. map (λ k. k.0) bids.items ≡ going_batches self.now) }
    {
        let batches = self.batches.as_slice();
        let first = first_going(batches, self.front, self.live);
        going_from(alloc, batches, first)
    }

    /// The actors that the batch declares, ascending; none where there is no such batch.
    pub fn actors_of(&self, alloc: Global, bid: Bid) -> Result<Vec<ActorId>, Memory>
        ensures { IfOk result (λ actors. map actor_number actors.items ≡ actors_in (words.batch_of bid.0 self.now.batches)) }
    {
        match self.batch(bid) {
            Some(batch) => batch.actors(alloc),
            None => Ok(Vec::new(alloc)),
        }
    }

    /// The transactions of the batch's PACTs; none where there is no such batch.
    pub fn txs_of(&self, alloc: Global, bid: Bid) -> Result<Vec<TxNo>, Memory>
        ensures { IfOk result (λ txs. map (λ n. n.0) txs.items ≡ txs_at (words.batch_of bid.0 self.now.batches)) }
    {
        match self.batch(bid) {
            Some(batch) => batch.txs(alloc),
            None => Ok(Vec::new(alloc)),
        }
    }

    /// The transaction of the PACT with this tid; `None` exactly where no batch has it.
    pub fn tx_of(&self, tid: Tid) -> Option<TxNo>
        ensures { option_map (λ n. n.0) result ≡ pact_tx tid.0 self.now.batches }
    {
        table::tx_of(self.batches.as_slice(), tid)
    }

    /// The batch that is the next to commit or to be aborted: it is open, and each smaller one is settled or aborted.
    pub fn next(&self) -> Option<Bid>
        ensures { (k : ℕ) → askings.is_next_open k self.now.batches ≡ is_number k result }
    {
        open_at(self.batches.as_slice(), self.front)
    }

    /// Of the transactions below this number, such as those submitted so far, those that were not replied to, ascending. It
    /// walks the transactions from the first one listed on, and none before it.
    pub fn unreplied(&self, alloc: Global, upto: TxNo) -> Result<Vec<TxNo>, Memory>
        ensures { IfOk result (λ txs. map (λ n. n.0) txs.items ≡ unreplied_below upto.0 self.now.replied) }
    {
        self.replied.awaited(alloc, upto)
    }
}

/// A place before which no batch is going, where so many are live, and so many are over as the front says: that of the
/// oldest live one, or the front, whichever is less.
fn first_going(batches: &[BatchEntry], front: usize, live: u32) -> usize
    requires counted { live ≡ words.count words.is_live_batch batches.now }
    requires parted { IsFrontCount front (standings_of batches.now) }
    ensures within { result ≤ length batches.now }
    ensures over { filter is_going_batch (take result batches.now) ≡ [] }
{
    let mut first = batches.len();
    let mut found: u32 = 0;
    while front < first || found < live {
        first -= 1;
        if batches[first].is_live() {
            found += 1;
        }
    }
    first
}

/// Those that are going, where none before this place is.
fn going_from(alloc: Global, batches: &[BatchEntry], first: usize) -> Result<Vec<Bid>, Memory>
    requires within { first ≤ length batches.now }
    requires over { filter is_going_batch (take first batches.now) ≡ [] }
    ensures { IfOk result (λ bids. map (λ k. k.0) bids.items ≡ map (λ b. b.bid) (filter is_going_batch batches.now)) }
{
    let mut bids = Vec::new(alloc);
    for i in first..batches.len() {
        if batches[i].is_going() {
            bids.push(batches[i].bid())?;
        }
    }
    Ok(bids)
}

/// The batch at this place, where it is open.
fn open_at(batches: &[BatchEntry], place: usize) -> Option<Bid>
    ensures { (k : ℕ) → words.holds (λ b. words.is_open b && (b.bid == k)) (slice_get batches.now place) ≡ is_number k result }
{
    match batches.get(place) {
        Some(batch) if batch.is_open() => Some(batch.bid()),
        _ => None,
    }
}
