//! The desk: all batches that were formed, and which transactions were replied to.
ghost use Rattle.std.specs.Prelude.{◌≡◌, ◌+◌, ◌<◌, ◌^◌, ◌++◌, ◌∷◌, [], List, false, map, length, replicate, is_some, option_copied, IsTrue, OnOk, OnErr, IfOk};
ghost use Rattle.protocol.specs.Parts.{Cascade};
ghost use Rattle.protocol.specs.Words as words;
ghost use Rattle.protocol.specs.OnDesk as desk;
ghost use Rattle.protocol.specs.Verdicts.{verdict_of_pact};
ghost use Rattle.batch_table.specs.Askings as askings;
ghost use Rattle.batch_table.specs.Found.{pact_with_tx, verdict_found};
ghost use Rattle.batch_table.specs.Joining.{MayJoin};

use crate::batches::BatchEntry;
use crate::replies::Replies;
use crate::spots::{Spot, write_spots};
use crate::{FoundPact, Stage, table};
use protocol::Formed;
use snap_base::{ActorId, Bid, Memory, Sequence, Tid, TxNo, TxResult};
use std::alloc::Global;
use std::marker::Model;

/// The batches that were formed, how far each is, and who was replied to. A batch is live until it is trimmed on all
/// its actors or aborted, and it stays at the desk after that.
pub struct Desk {
    /// The number before that of the first batch.
    base: u64,
    pub(crate) batches: Vec<BatchEntry>,
    settled: u64,
    pub(crate) replied: Replies,
    /// For each transaction of the text where its PACT is, if it has one; who looks there has to compare.
    spots: Vec<Spot>,
    /// How many batches are live.
    pub(crate) live: u32,
    /// How many batches are settled or aborted: those from the first one on.
    pub(crate) front: usize,
}

// Written out, so that a crate above calls it and does not repeat it.
impl Drop for Desk {
    fn drop(self) {
        let Desk {
            base: _base,
            batches: _batches,
            settled: _settled,
            replied: _replied,
            spots: _spots,
            live: _live,
            front: _front,
        } = self;
    }
}

impl Model for Desk {
    ghost use Rattle.protocol.specs.Parts as parts;

    ghost Value = { parts.Desk };

    ghost use Rattle.batch_table.specs.Sound.{IsSoundDesk};

    ghost view = { λ d. record { batches = d.batches.items; settled = d.settled; replied = d.replied } };

    ghost invariant = { λ d. IsSoundDesk d.base d.batches.items d.settled d.replied d.spots.items d.live d.front };
}

impl Desk {
    /// A desk with no batch, for a text of this many transactions, none of which was replied to; `base` is the greatest batch
    /// that was settled before. `Memory` where the lists of transactions cannot be allocated.
    pub fn new(alloc: Global, txs: u32, base: Bid) -> Result<Desk, Memory>
        ensures { IfOk result (λ d. d ≡ record { batches = []; settled = base.0; replied = replicate txs false }) }
    {
        let replied = Replies::new(alloc, txs)?;
        let spots = vec![in alloc; Spot { batch: 0, place: 0 }; txs as usize]?;
        Ok(Desk {
            base: base.0,
            batches: Vec::new(alloc),
            settled: base.0,
            replied,
            spots,
            live: 0,
            front: 0,
        })
    }

    /// A batch that is formed joins, with the next number. Its tids are one after another, and above all others at
    /// the desk; its transactions are of the text, and have no other PACT. For want of memory the desk stays as it was.
    pub fn add(&mut self, alloc: Global, f: &Formed) -> Result<(), Memory>
        requires { MayJoin f.now.bid f.now.pacts self.old }
        ensures ok { OnOk result (self.new ≡ desk.batch_formed f.now self.old) }
        ensures err { OnErr result (self.new ≡ self.old) }
    {
        let batch = BatchEntry::new(alloc, f)?;
        self.join(batch)
    }

    /// A batch that is open, none of whose PACTs ended, joins. For want of memory the desk stays as it was.
    fn join(&mut self, batch: BatchEntry) -> Result<(), Memory>
        requires may { MayJoin batch.bid batch.pacts self.old }
        requires fresh { IsTrue (words.is_open batch) }
        ensures ok { OnOk result (self.new ≡ record self.old { batches = self.old.batches ++ batch ∷ [] }) }
        ensures err { OnErr result (self.new ≡ self.old) }
    {
        let live = u32::from(batch.is_live());
        write_spots(self.spots.as_mut_slice(), self.batches.len(), batch.pacts());
        self.batches.push(batch)?;
        self.live += live;
        Ok(())
    }

    /// Notes how a PACT ended; nothing, if its batch is aborted, or no batch has it.
    pub fn note_end(&mut self, tid: Tid, r: TxResult)
        ensures { self.new ≡ record self.old { batches = map (desk.with_results tid.0 r) self.old.batches } }
    {
        table::note_end(self.batches.as_mut_slice(), tid, r);
    }

    /// How a PACT ended: `None` exactly where nothing was noted, or no batch has it.
    pub fn result(&self, tid: Tid) -> Option<TxResult>
        ensures { result ≡ words.pact_result tid.0 self.now.batches }
    {
        table::result_of(self.batches.as_slice(), tid)
    }

    pub(crate) fn batch(&self, bid: Bid) -> Option<&BatchEntry>
        ensures { option_copied result ≡ words.batch_of bid.0 self.now.batches }
    {
        table::batch_of(self.batches.as_slice(), self.base, bid)
    }

    /// Whether the batch is open, and the actor is one of its own, not noted.
    pub fn is_noting(&self, bid: Bid, actor: ActorId) -> bool
        ensures { result ≡ askings.awaits_note bid.0 actor.0 self.now.batches }
    {
        match self.batch(bid) {
            Some(batch) => batch.awaits_note(actor),
            None => false,
        }
    }

    /// Batch `bid`, which is open and not noted on the actor, is complete there, durably: it is noted.
    pub fn note_complete(&mut self, bid: Bid, actor: ActorId)
        requires { IsTrue (askings.awaits_note bid.0 actor.0 self.old.batches) }
        ensures { self.new ≡ desk.batch_noted bid.0 actor.0 self.old }
    {
        table::note(self.batches.as_mut_slice(), self.base, bid, actor);
    }

    /// Whether the batch is open, and each smaller one is settled or aborted.
    pub fn is_next(&self, bid: Bid) -> bool
        ensures { result ≡ askings.is_next_open bid.0 self.now.batches }
    {
        table::is_next(self.batches.as_slice(), self.base, self.front, bid)
    }

    /// Whether all PACTs of the batch ended with a value.
    pub fn all_ended_well(&self, bid: Bid) -> bool
        ensures { result ≡ askings.has_ended_well bid.0 self.now.batches }
    {
        match self.batch(bid) {
            Some(batch) => batch.has_ended_well(),
            None => false,
        }
    }

    /// The values of the PACTs of the batch, by their tids, 0 for one that has none; none where there is no such batch.
    pub fn values(&self, alloc: Global, bid: Bid) -> Result<Sequence<i64>, Memory>
        ensures { IfOk result (λ values. values ≡ words.values_of (words.batch_of bid.0 self.now.batches)) }
    {
        match self.batch(bid) {
            Some(batch) => batch.values(alloc),
            None => Ok(Sequence::new(alloc)),
        }
    }

    /// Whether the batch is noted on all its actors.
    pub fn all_noted(&self, bid: Bid) -> bool
        ensures { result ≡ askings.is_noted_everywhere bid.0 self.now.batches }
    {
        match self.batch(bid) {
            Some(batch) => batch.is_noted(),
            None => false,
        }
    }

    /// Whether the batch is the next one, all its PACTs ended with a value, and it is noted on all its actors.
    pub fn may_commit(&self, bid: Bid) -> bool
        ensures { result ≡ askings.may_commit bid.0 self.now.batches }
    {
        self.is_next(bid) && self.all_ended_well(bid) && self.all_noted(bid)
    }

    /// Batch `bid`, which is the next one, begins to commit.
    pub fn commit(&mut self, bid: Bid)
        requires { IsTrue (askings.may_commit bid.0 self.old.batches) }
        ensures { self.new ≡ desk.batch_committing bid.0 self.old }
    {
        table::set_stage(
            self.batches.as_mut_slice(),
            self.base,
            bid,
            Stage::Committing,
        );
    }

    /// Whether the batch commits, and is not settled.
    pub fn is_settling(&self, bid: Bid) -> bool
        ensures { result ≡ askings.awaits_settling bid.0 self.now.batches }
    {
        match self.batch(bid) {
            Some(batch) => batch.awaits_settling(),
            None => false,
        }
    }

    /// Batch `bid`, which commits, is settled.
    pub fn settle(&mut self, bid: Bid)
        requires { IsTrue (askings.awaits_settling bid.0 self.old.batches) }
        ensures { self.new ≡ desk.batch_settled bid.0 self.old }
    {
        table::set_stage(self.batches.as_mut_slice(), self.base, bid, Stage::Settled);
        self.settled = bid.0;
        self.front += 1;
    }

    /// The greatest batch that is settled, at first the base.
    pub fn settled(&self) -> Bid
        ensures { result.0 ≡ self.now.settled }
    {
        Bid(self.settled)
    }

    /// The first PACT of the batch that failed, if all before it ended with a value: its transaction and its code. Else `None`.
    pub fn first_failed(&self, bid: Bid) -> Option<(TxNo, u16)>
        ensures failed { result ≡ askings.failed_in bid.0 self.now.batches }
        ensures some { is_some result ≡ askings.has_failed_pact bid.0 self.now.batches }
    {
        match self.batch(bid) {
            Some(batch) => batch.first_failed(),
            None => None,
        }
    }

    /// Batch `bid`, which is the next one, and all later ones are aborted.
    pub fn abort_from(&mut self, bid: Bid)
        requires next { IsTrue (askings.is_next_open bid.0 self.old.batches) }
        requires failed { IsTrue (askings.has_failed_pact bid.0 self.old.batches) }
        ensures { self.new ≡ desk.batches_aborted bid.0 self.old }
    {
        self.live -= table::abort_from(self.batches.as_mut_slice(), self.front);
        self.front = self.batches.len();
    }

    /// Whether the batch is settled, and the actor is one of its own, not trimmed.
    pub fn is_trimming(&self, bid: Bid, actor: ActorId) -> bool
        ensures { result ≡ askings.awaits_trim bid.0 actor.0 self.now.batches }
    {
        match self.batch(bid) {
            Some(batch) => batch.awaits_trim(actor),
            None => false,
        }
    }

    /// Batch `bid`, which is settled, has left the actor: it is trimmed there.
    pub fn trim(&mut self, bid: Bid, actor: ActorId)
        requires { IsTrue (askings.awaits_trim bid.0 actor.0 self.old.batches) }
        ensures { self.new ≡ desk.batch_trimmed bid.0 actor.0 self.old }
    {
        if !table::trim(self.batches.as_mut_slice(), self.base, bid, actor) {
            self.live -= 1;
        }
    }

    /// How many batches are live.
    pub fn live(&self) -> u32
        ensures { result ≡ words.count words.is_live_batch self.now.batches }
    {
        self.live
    }

    /// The PACT that this transaction has, if it has one: what became of the transaction follows from it and from the
    /// cascades.
    pub fn pact_with_tx(&self, tx: TxNo) -> Option<FoundPact>
        ensures found { result ≡ pact_with_tx tx.0 self.now.batches }
        ensures verdict { (cascades : List Cascade) → verdict_of_pact cascades tx.0 self.now.batches ≡ verdict_found cascades tx.0 result }
    {
        match self.spots.get(tx.0 as usize) {
            Some(spot) => table::found_at(self.batches.as_slice(), *spot, tx),
            None => None,
        }
    }

    /// Whether the transaction is one of the text, and was not replied to.
    pub fn is_waiting_for_reply(&self, tx: TxNo) -> bool
        ensures { result ≡ askings.awaits_reply tx.0 self.now }
    {
        self.replied.is_awaited(tx)
    }

    /// The transaction was replied to.
    pub fn mark_replied(&mut self, tx: TxNo)
        requires { IsTrue (askings.awaits_reply tx.0 self.old) }
        ensures { self.new ≡ desk.replied_to tx.0 self.old }
    {
        self.replied.mark(tx);
    }
}
