//! The ring: the coordinators, the token, and the numbers that are drawn next.
ghost use Rattle.std.specs.Prelude.{◌≡◌, ◌+◌, ◌-◌, ◌%◌, ◌<◌, ◌≤◌, ◌^◌, ◌↔◌, min, true, false, not, ◌&&◌, ◌||◌, length, IfOk, OnOk, OnErr};
ghost use Rattle.std.specs.Option.{OnSome, IfNone};
ghost use Rattle.std.specs.Result.{IsErrAnd};
ghost use Rattle.protocol.specs.Words.{is_empty};
ghost use Rattle.protocol.specs.Conditions.{queue, is_idle_at, is_idle};
ghost use Rattle.protocol.specs.Left.{busy_from, total, way};
ghost use Rattle.protocol.specs.OnRing.{passed, admitted, cut};
ghost use Rattle.token_ring.specs.Asked.{fresh_ring, act_admitted_next, first_waiting, MayPass, IsSubmitted, IsNextBatch, IsPlanned, IsFormed};

use crate::FormNo;
use crate::lasts::{forget, mark};
use crate::queue::{Queue, all_empty, empty_queues, is_busy_from, join_at, waiting_in};
use crate::subs::{Heading, sub_batches};
use protocol::{Formed, unless};
use snap_base::{Bid, Kind, Memory, Tid, Tx, TxNo};
use std::alloc::Global;
use std::marker::Model;

/// The coordinators in a ring, one of which has the token: what waits at each, the numbers that are
/// drawn next, and for each actor the last batch of the present epoch. Contracts see the machine's `Ring`.
pub struct Ring {
    holder: u8,
    next_tx: u32,
    next_tid: u64,
    next_bid: u64,
    epoch: u64,
    lasts: Vec<u64>,
    pacts: Vec<Queue>,
    acts: Vec<Queue>,
}

// Written out, so that a crate above calls it and does not repeat it.
impl Drop for Ring {
    fn drop(self) {
        let Ring {
            holder: _holder,
            next_tx: _next_tx,
            next_tid: _next_tid,
            next_bid: _next_bid,
            epoch: _epoch,
            lasts: _lasts,
            pacts: _pacts,
            acts: _acts,
        } = self;
    }
}

impl Model for Ring {
    ghost use Rattle.std.specs.Prelude.{◌≡◌, ◌<◌, length};
    ghost use Rattle.protocol.specs.Parts as parts;

    ghost Value = { parts.Ring };

    ghost view = { λ r. record { holder = r.holder; next_tx = r.next_tx; next_tid = r.next_tid; next_bid = r.next_bid; epoch = r.epoch; lasts = r.lasts.items; pacts = r.pacts.items; acts = r.acts.items } };

    ghost invariant = { λ r. (r.holder < length r.pacts.items) × (length r.pacts.items < 256) × (length r.acts.items ≡ length r.pacts.items) };
}

impl Ring {
    /// The ring that a run begins with: coordinator 0 has the token, nothing waits, no actor has a last batch, and the next
    /// numbers are drawn from `next_tid` and `next_bid` on. `coordinators` is at least 1. `Memory` where the queues or the list
    /// of the actors' last batches cannot be allocated.
    pub fn new(
        alloc: Global,
        coordinators: u8,
        actors: u16,
        next_tid: Tid,
        next_bid: Bid,
    ) -> Result<Ring, Memory>
        requires { 1 ≤ coordinators }
        ensures { IfOk result (λ r. r ≡ fresh_ring coordinators actors next_tid.0 next_bid.0) }
    {
        let lasts = vec![in alloc; 0; actors as usize]?;
        let pacts = empty_queues(alloc, coordinators)?;
        let acts = empty_queues(alloc, coordinators)?;
        Ok(Ring {
            holder: 0,
            next_tx: 0,
            next_tid: next_tid.0,
            next_bid: next_bid.0,
            epoch: 0,
            lasts,
            pacts,
            acts,
        })
    }

    /// The coordinator that has the token.
    pub fn holder(&self) -> u8
        ensures value { result ≡ self.now.holder }
        ensures below { result < length self.now.pacts }
    {
        self.holder
    }

    /// How many coordinators there are, at least 1.
    pub fn coordinators(&self) -> u8
        ensures pacts { result ≡ length self.now.pacts }
        ensures acts { result ≡ length self.now.acts }
        ensures some { 1 ≤ result }
    {
        self.pacts.len() as u8
    }

    /// The transaction that is submitted next.
    pub fn next_tx(&self) -> TxNo
        ensures { result.0 ≡ self.now.next_tx }
    {
        TxNo(self.next_tx)
    }

    /// The tid that is drawn next.
    pub fn next_tid(&self) -> Tid
        ensures { result.0 ≡ self.now.next_tid }
    {
        Tid(self.next_tid)
    }

    /// The number of the batch that is formed next.
    pub fn next_bid(&self) -> Bid
        ensures { result.0 ≡ self.now.next_bid }
    {
        Bid(self.next_bid)
    }

    /// How many cascades there were.
    pub fn epoch(&self) -> u64
        ensures { result ≡ self.now.epoch }
    {
        self.epoch
    }

    /// Whether a PACT waits at the holder.
    pub fn has_pact(&self) -> bool
        ensures { result ≡ not (is_empty (queue self.now.pacts self.now.holder)) }
    {
        !self.pacts[self.holder as usize].is_empty()
    }

    /// Whether an ACT waits at the holder.
    pub fn has_act(&self) -> bool
        ensures { result ≡ not (is_empty (queue self.now.acts self.now.holder)) }
    {
        !self.acts[self.holder as usize].is_empty()
    }

    /// The first PACT that waits at the holder; `None` exactly where none does.
    pub fn first_pact(&self) -> Option<TxNo>
        ensures { result ≡ first_waiting (queue self.now.pacts self.now.holder) }
    {
        self.pacts[self.holder as usize].first()
    }

    /// The first ACT that waits at the holder; `None` exactly where none does.
    pub fn first_act(&self) -> Option<TxNo>
        ensures { result ≡ first_waiting (queue self.now.acts self.now.holder) }
    {
        self.acts[self.holder as usize].first()
    }

    /// Whether nothing waits at the holder.
    pub fn is_holder_idle(&self) -> bool
        ensures { result ≡ is_idle_at self.now.holder self.now }
    {
        !self.has_pact() && !self.has_act()
    }

    /// Whether nothing waits at any coordinator.
    pub fn is_idle(&self) -> bool
        ensures { result ≡ is_idle self.now }
    {
        all_empty(self.pacts.as_slice()) && all_empty(self.acts.as_slice())
    }

    /// Whether the token may go on: nothing waits at the holder, and something waits elsewhere.
    pub fn may_pass(&self) -> bool
        ensures { result ≡ (is_idle_at self.now.holder self.now && not (is_idle self.now)) }
    {
        self.is_holder_idle() && !self.is_idle()
    }

    /// How many transactions wait at coordinators, and `u64::MAX` where more do.
    pub fn waiting(&self) -> u64
        ensures { result ≡ min (total length self.now.pacts + total length self.now.acts) (2 ^ 64 - 1) }
    {
        waiting_in(self.pacts.as_slice()).saturating_add(waiting_in(self.acts.as_slice()))
    }

    /// How far the token is from a coordinator where something waits, at most, on a ring of so many: it goes on to the last
    /// one, and once around where nothing waits on that way.
    pub fn way(&self, coordinators: u8) -> u64
        ensures { result ≡ way coordinators self.now }
    {
        let count = u64::from(coordinators);
        let on = count
            .saturating_sub(1)
            .saturating_sub(u64::from(self.holder));
        unless(self.is_idle(), on + unless(self.is_busy_ahead(), count))
    }

    /// Whether something waits at the holder or at a coordinator behind it.
    fn is_busy_ahead(&self) -> bool
        ensures { result ≡ (busy_from self.now.holder self.now.pacts || busy_from self.now.holder self.now.acts) }
    {
        let holder = self.holder as usize;
        is_busy_from(self.pacts.as_slice(), holder) || is_busy_from(self.acts.as_slice(), holder)
    }

    /// The next transaction of the text joins the queue of its kind at its coordinator. For want of
    /// memory the ring stays as it was.
    pub fn submit(&mut self, tx: TxNo, kind: Kind) -> Result<(), Memory>
        requires { self.old.next_tx + 1 < 2 ^ 32 }
        ensures ok { OnOk result (IsSubmitted kind tx.0 self.old self.new) }
        ensures err { OnErr result (self.new ≡ self.old) }
    {
        let at = tx.0 as usize % self.pacts.len();
        match kind {
            Kind::Pact => join_at(&mut self.pacts, at, tx)?,
            Kind::Act => join_at(&mut self.acts, at, tx)?,
        }
        self.next_tx += 1;
        Ok(())
    }

    /// The token goes on to the next coordinator.
    pub fn pass(&mut self)
        requires { MayPass self.old }
        ensures { self.new ≡ passed ((self.old.holder + 1) % length self.old.pacts) self.old }
    {
        let next = (self.holder as usize + 1) % self.pacts.len();
        self.holder = next as u8;
    }

    /// The batch that is formed next: the first PACTs that wait at the holder, at most `most`. Nothing
    /// changes. `Empty` exactly where no PACT waits there; `Memory` where the plan cannot be allocated.
    pub fn plan(&self, alloc: Global, txs: &[Tx], most: u16) -> Result<Formed, FormNo>
        requires { self.now.next_tid + most < 2 ^ 64 }
        ensures ok { IfOk result (IsNextBatch txs.now most self.now) }
        ensures empty { IsErrAnd result (λ e. e ≡ FormNo.Empty) ↔ (is_empty (queue self.now.pacts self.now.holder) ≡ true) }
    {
        let queue = &self.pacts[self.holder as usize];
        if queue.is_empty() {
            return Err(FormNo::Empty);
        }
        let pacts = queue.numbered(alloc, most, self.next_tid)?;
        let heading = Heading {
            bid: Bid(self.next_bid),
            epoch: self.epoch,
            lasts: self.lasts.as_slice(),
        };
        let subs = sub_batches(alloc, &heading, pacts.as_slice(), txs)?;
        Ok(Formed {
            bid: Bid(self.next_bid),
            txs: pacts,
            subs,
        })
    }

    /// The batch that is planned leaves the queue, and its numbers are drawn.
    pub fn form(&mut self, f: &Formed)
        requires planned { IsPlanned f.now self.old }
        requires tids { self.old.next_tid + length f.now.pacts < 2 ^ 64 }
        requires bids { self.old.next_bid + 1 < 2 ^ 64 }
        ensures { IsFormed f.now self.old self.new }
    {
        let count = f.txs.len();
        mark(&mut self.lasts, f.subs.as_slice(), f.bid.0);
        let queue = &mut self.pacts[self.holder as usize];
        queue.leave(count);
        self.next_tid += count as u64;
        self.next_bid += 1;
    }

    /// The ACT that is admitted next, with the tid that it draws. `None` exactly where no ACT waits at
    /// the holder.
    pub fn next_act(&self) -> Option<(Tid, TxNo)>
        ensures { result ≡ act_admitted_next self.now }
    {
        match self.acts[self.holder as usize].first() {
            None => None,
            Some(tx) => Some((Tid(self.next_tid), tx)),
        }
    }

    /// The ACT of `next_act` leaves its queue and draws its tid. `None`, and nothing changes, exactly
    /// where no ACT waits at the holder.
    pub fn admit(&mut self) -> Option<(Tid, TxNo)>
        requires { self.old.next_tid + 1 < 2 ^ 64 }
        ensures value { result ≡ act_admitted_next self.old }
        ensures some { OnSome result (self.new ≡ admitted self.old) }
        ensures none { IfNone result (self.new ≡ self.old) }
    {
        let next = self.next_act()?;
        let queue = &mut self.acts[self.holder as usize];
        queue.leave(1);
        self.next_tid += 1;
        Some(next)
    }

    /// A cascade: the epoch rises, and no actor has a last batch.
    pub fn cut(&mut self)
        requires { self.old.epoch + 1 < 2 ^ 64 }
        ensures { self.new ≡ cut self.old }
    {
        forget(&mut self.lasts);
        self.epoch += 1;
    }
}
