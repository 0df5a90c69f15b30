//! One entry of a schedule: a sub-batch or an ACT.
ghost use Rattle.std.specs.Prelude.{◌≡◌, ℕ, ◌-◌, ◌^◌, nat_lt, min, max, Bool, false, ◌∷◌, ◌++◌, [], not, map, OnOk};
ghost use Rattle.std.specs.Option.{option_map};
ghost use Rattle.protocol.specs.Left.{entry_left};
ghost use Rattle.protocol.specs.Parts.{BatchEntry, ActEntry};
ghost use Rattle.protocol.specs.Words.{is_batch_entry, is_act_entry, is_entry_of, who_of, is_reader_entry, is_complete_batch, is_turn_of, is_undone, is_all_done, batches_on, greatest};
ghost use Rattle.protocol.specs.OnCell.{done_in, complete_in};
ghost use Rattle.protocol.specs.Meant.{tid_number, who_meant};
ghost use Rattle.hybrid_schedule.specs.Schedules.{is_any_act};
ghost use Rattle.hybrid_schedule.specs.Cuts.{is_batch_from};
ghost use Rattle.hybrid_schedule.specs.Listed.{done_bid, incomplete_of, rival_of, undone_if, undone_of};

use crate::slots::Slots;
use protocol::unless;
use snap_base::{Bid, Memory, Tid, Who};
use std::alloc::Global;
use std::marker::Model;

/// What stands on a schedule: a sub-batch, with a slot for each of its PACTs, or an ACT, which has none.
/// Contracts see the machine's `Entry`.
#[derive(Drop)]
pub struct Entry {
    owner: Who,
    slots: Slots,
    complete: bool,
    /// Whether it is of an ACT that only reads.
    reader: bool,
}

impl Model for Entry {
    ghost use Rattle.protocol.specs.Parts as protocol;
    ghost use Rattle.hybrid_schedule.specs.Placing.{entry_placed};

    ghost Value = { protocol.Entry };

    ghost view = { λ e. entry_placed e.owner e.slots e.complete e.reader };
}

impl Entry {
    /// A batch that is not complete.
    pub fn batch(bid: Bid, slots: Slots) -> Self
        ensures { result ≡ BatchEntry (record { bid = bid.0; slots = slots; complete = false }) }
    {
        Entry {
            owner: Who::Batch(bid),
            slots,
            complete: false,
            reader: false,
        }
    }

    /// An ACT, which only reads or not.
    pub fn act(alloc: Global, t: Tid, reader: bool) -> Self
        ensures { result ≡ ActEntry (record { tid = t.0; reader = reader }) }
    {
        Entry {
            owner: Who::Act(t),
            slots: Slots::none(alloc),
            complete: false,
            reader,
        }
    }

    /// The batch or the ACT that the entry is of.
    pub fn owner(&self) -> Who
        ensures { who_meant result ≡ who_of self.now }
    {
        self.owner
    }

    /// Whether the entry is the sub-batch of batch `k`. An ACT's entry is of no batch.
    pub fn is_batch(&self, k: Bid) -> bool
        ensures { result ≡ is_batch_entry k.0 self.now }
    {
        match self.owner {
            Who::Batch(bid) => bid.0 == k.0,
            Who::Act(_) => false,
        }
    }

    /// Whether it is a batch from this one on.
    pub fn is_from(&self, k: Bid) -> bool
        ensures { result ≡ is_batch_from k.0 self.now }
    {
        match self.owner {
            Who::Batch(bid) => k.0 <= bid.0,
            Who::Act(_) => false,
        }
    }

    /// The greater of a number and the batch's.
    pub fn batch_or(&self, number: u64) -> u64
        ensures { result ≡ max number (greatest (batches_on (self.now ∷ []))) }
    {
        match self.owner {
            Who::Batch(bid) => number.max(bid.0),
            Who::Act(_) => number,
        }
    }

    /// Whether it is this ACT's.
    pub fn is_act_of(&self, t: Tid) -> bool
        ensures { result ≡ is_act_entry t.0 self.now }
    {
        match self.owner {
            Who::Batch(_) => false,
            Who::Act(tid) => tid.0 == t.0,
        }
    }

    /// Whether it is an ACT's.
    pub fn is_act(&self) -> bool
        ensures { result ≡ is_any_act self.now }
    {
        match self.owner {
            Who::Batch(_) => false,
            Who::Act(_) => true,
        }
    }

    /// Whether it is of an ACT that only reads.
    pub fn is_reader(&self) -> bool
        ensures { result ≡ is_reader_entry self.now }
    {
        match self.owner {
            Who::Batch(_) => false,
            Who::Act(_) => self.reader,
        }
    }

    /// Whether the transaction runs by it.
    pub fn is_entry_of(&self, t: Tid) -> bool
        ensures { result ≡ is_entry_of t.0 self.now }
    {
        match self.owner {
            Who::Batch(_) => self.slots.name(t),
            Who::Act(tid) => tid.0 == t.0,
        }
    }

    /// Whether it is of a batch that is complete here. An ACT's entry is never complete.
    pub fn is_complete(&self) -> bool
        ensures { result ≡ is_complete_batch self.now }
    {
        match self.owner {
            Who::Batch(_) => self.complete,
            Who::Act(_) => false,
        }
    }

    /// Whether none of its PACTs has to run before this transaction.
    pub fn is_turn_of(&self, t: Tid) -> bool
        ensures { result ≡ is_turn_of t.0 self.now }
    {
        match self.owner {
            Who::Batch(_) => self.slots.let_run(t),
            Who::Act(_) => true,
        }
    }

    /// Whether it names the PACT, which is not done.
    pub fn is_undone(&self, t: Tid) -> bool
        ensures { result ≡ is_undone t.0 self.now }
    {
        match self.owner {
            Who::Batch(_) => self.slots.have_undone(t),
            Who::Act(_) => false,
        }
    }

    /// Whether it is of a batch, all of whose PACTs are done here.
    pub fn is_all_done(&self) -> bool
        ensures { result ≡ is_all_done self.now }
    {
        match self.owner {
            Who::Batch(_) => self.slots.are_done(),
            Who::Act(_) => false,
        }
    }

    /// How many events it may still bring, and `u64::MAX` where more.
    pub fn left(&self) -> u64
        ensures { result ≡ min (entry_left self.now) (2 ^ 64 - 1) }
    {
        match self.owner {
            Who::Batch(_) => unless(self.complete, 2).saturating_add(self.slots.left()),
            Who::Act(_) => 0,
        }
    }

    /// The PACT is done, where the entry names it.
    pub fn mark_done(&mut self, t: Tid)
        ensures { self.new ≡ done_in t.0 self.old }
    {
        self.slots.mark_done(t);
    }

    /// It is complete, where it is this batch.
    pub fn mark_complete(&mut self, k: Bid)
        ensures { self.new ≡ complete_in k.0 self.old }
    {
        if self.is_batch(k) {
            self.complete = true;
        }
    }

    /// Adds the batch, where it is one that is not complete.
    pub fn list_incomplete(&self, bids: &mut Vec<Bid>) -> Result<(), Memory>
        ensures { OnOk result (map (λ k. k.0) bids.new.items ≡ map (λ k. k.0) bids.old.items ++ incomplete_of self.now) }
    {
        match self.owner {
            Who::Batch(bid) => {
                if !self.complete {
                    bids.push(bid)?;
                }
                Ok(())
            }
            Who::Act(_) => Ok(()),
        }
    }

    /// Adds the PACTs that are not done.
    pub fn list_undone(&self, tids: &mut Vec<Tid>) -> Result<(), Memory>
        ensures { OnOk result (map tid_number tids.new.items ≡ map tid_number tids.old.items ++ undone_of self.now) }
    {
        match self.owner {
            Who::Batch(_) => self.slots.list_undone(tids),
            Who::Act(_) => Ok(()),
        }
    }

    /// Adds those of batch `k` that are not done.
    pub fn list_undone_by(&self, k: Bid, tids: &mut Vec<Tid>) -> Result<(), Memory>
        ensures { OnOk result (map tid_number tids.new.items ≡ map tid_number tids.old.items ++ undone_if (is_batch_entry k.0 self.now) self.now) }
    {
        if self.is_batch(k) {
            self.list_undone(tids)?;
        }
        Ok(())
    }

    /// The batch that it is of, where all its PACTs are done.
    pub fn done_batch(&self) -> Option<Bid>
        ensures { option_map (λ k. k.0) result ≡ done_bid self.now }
    {
        match self.owner {
            Who::Batch(bid) => {
                if self.slots.are_done() {
                    Some(bid)
                } else {
                    None
                }
            }
            Who::Act(_) => None,
        }
    }

    /// Adds the ACT, where one that comes, which only reads or not, can't stand beside it.
    pub fn list_rival(&self, reader: bool, tids: &mut Vec<Tid>) -> Result<(), Memory>
        ensures { OnOk result (map tid_number tids.new.items ≡ map tid_number tids.old.items ++ rival_of reader self.now) }
    {
        match self.owner {
            Who::Batch(_) => Ok(()),
            Who::Act(tid) => {
                if !(reader && self.reader) {
                    tids.push(tid)?;
                }
                Ok(())
            }
        }
    }
}
