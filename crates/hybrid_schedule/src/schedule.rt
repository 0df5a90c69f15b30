//! An actor's schedule, and each call on it.
ghost use Rattle.std.specs.Prelude.{◌≡◌, ℕ, ◌+◌, ◌≤◌, ◌<◌, nat_lt, Bool, Some, None, length, MatchResult, IfOk, OnOk, OnErr, IfErr, IsOk};
ghost use Rattle.protocol.specs.Words.{has_act, has_entry, has_undone, is_clear, who_on};
ghost use Rattle.protocol.specs.OnCell.{reads_on};
ghost use Rattle.protocol.specs.CellParts.{with_batch, with_act, with_done, with_complete, without_act, without_batch};
ghost use Rattle.protocol.specs.Meant.{sub_batch, who_meant};
ghost use Rattle.hybrid_schedule.specs.Room.{KeepsRoom};
ghost use Rattle.hybrid_schedule.specs.Schedules.{empty_since, has_turn, can_run, is_incomplete, is_next_here, is_done_here, can_complete, is_behind_no_act};
ghost use Rattle.hybrid_schedule.specs.Cuts.{cut_from, is_cut_off};
ghost use Rattle.hybrid_schedule.specs.Arrivals.{refusal, MatchRefusal};

use crate::arrivals::ArriveNo;
use crate::entries::Entry;
use crate::slots::{Slot, Slots};
use crate::{askings, changes};
use snap_base::{Bid, Memory, SubBatch, Tid, Who};
use std::alloc::Global;
use std::marker::Model;

/// For how many entries a new schedule has room.
const FIRST_ENTRIES: usize = 4;

/// An actor's schedule: sub-batches and ACTs in the order in which they stand, and how far its batches are.
/// Contracts see the machine's `HybridSchedule`, and for how much more there is room.
#[derive(Drop)]
pub struct Schedule {
    pub(crate) entries: Vec<Entry>,
    /// Empty: memory for the slots of the next sub-batch.
    ready: Vec<Slot>,
    epoch: u64,
    last: Bid,
    last_trimmed: Bid,
    tail: Bid,
}

impl Model for Schedule {
    ghost use Rattle.std.specs.Prelude.{◌≡◌, ◌-◌, [], vec_len, vec_capacity};
    ghost use Rattle.hybrid_schedule.specs.Room.{RoomedSchedule};

    ghost Value = { RoomedSchedule };

    ghost view = { λ s. record {
      schedule = record { entries = s.entries.items; epoch = s.epoch; last = s.last.0; last_trimmed = s.last_trimmed.0; tail = s.tail.0 };
      spare_entries = vec_capacity s.entries - vec_len s.entries;
      spare_tids = vec_capacity s.ready;
    } };

    ghost invariant = { λ s. s.ready.items ≡ [] };
}

impl Schedule {
    /// A schedule with nothing on it, as it is after batch `base` and before any later one. `Memory` where room for its first
    /// entries cannot be allocated.
    pub fn new(alloc: Global, base: Bid) -> Result<Self, Memory>
        ensures { IfOk result (λ s. s.schedule ≡ empty_since base.0) }
    {
        let entries = Vec::with_capacity(alloc, FIRST_ENTRIES)?;
        Ok(Schedule {
            entries,
            ready: Vec::new(alloc),
            epoch: 0,
            last: base,
            last_trimmed: base,
            tail: Bid(0),
        })
    }

    /// Makes room for one more entry with so many tids, and changes nothing else. After `Memory` it may have made
    /// some of it.
    pub fn room(&mut self, alloc: Global, tids: usize) -> Result<(), Memory>
        ensures ok { OnOk result ((1 ≤ self.new.spare_entries) × (tids ≤ self.new.spare_tids)) }
        ensures unchanged { self.new.schedule ≡ self.old.schedule }
        ensures no_less { KeepsRoom self.old self.new }
    {
        self.entries.reserve(1)?;
        if self.ready.capacity() < tids {
            self.ready = Vec::with_capacity(alloc, tids)?;
        }
        Ok(())
    }

    /// Places a sub-batch at the end. A sub-batch that is refused, or for which there is no memory, is handed back with the
    /// reason, and the schedule is as before.
    pub fn arrive(&mut self, alloc: Global, s: SubBatch) -> Result<(), (SubBatch, ArriveNo)>
        ensures ok { OnOk result (self.new.schedule ≡ with_batch s.bid.0 (Some (sub_batch s)) self.old.schedule) }

        // It is refused exactly where it must be, for that reason; else there was no memory.
        ensures accepted { OnOk result (refusal s self.old.schedule ≡ None) }
        ensures refused { IfErr result (λ no. MatchRefusal (refusal s self.old.schedule) no.1) }
        ensures handed_back { IfErr result (λ no. no.0 ≡ s) }
        ensures err { OnErr result (self.new ≡ self.old) }

        // Where room was made before, there is memory.
        ensures has_room { 1 ≤ self.old.spare_entries → length s.tids ≤ self.old.spare_tids
            → refusal s self.old.schedule ≡ None → IsOk result }

        // It takes the room of one entry, and that for tids, but where there was too little.
        ensures entries { self.old.spare_entries ≤ self.new.spare_entries + 1 }
        ensures tids { self.old.spare_tids < length s.tids → self.old.spare_tids ≤ self.new.spare_tids }
    {
        if s.epoch != self.epoch {
            return Err((s, ArriveNo::Epoch { own: self.epoch }));
        }
        if s.prev.0 != self.tail.0 {
            return Err((s, ArriveNo::Before { have: self.tail }));
        }
        match changes::take_room(&mut self.entries, &mut self.ready, alloc, s.tids.len()) {
            Ok(memory) => {
                let slots = Slots::of(s.tids.as_slice(), memory);
                changes::push_in_room(&mut self.entries, Entry::batch(s.bid, slots));
                self.last = s.bid;
                self.tail = s.bid;
                Ok(())
            }
            Err(_) => Err((s, ArriveNo::Memory)),
        }
    }

    /// Places an ACT at the end, which only reads or not. It takes the room of one entry. `Memory`, which comes only where
    /// there is no room, leaves the schedule as it was.
    pub fn place_act(&mut self, alloc: Global, t: Tid, reader: bool) -> Result<(), Memory>
        ensures ok { OnOk result (self.new.schedule ≡ with_act (record { tid = t.0; reader = reader }) None self.old.schedule) }
        ensures err { OnErr result (self.new ≡ self.old) }
        ensures has_room { 1 ≤ self.old.spare_entries → IsOk result }
        ensures entries { self.old.spare_entries ≤ self.new.spare_entries + 1 }
        ensures tids { self.old.spare_tids ≤ self.new.spare_tids }
    {
        self.entries.reserve(1)?;
        changes::push_in_room(&mut self.entries, Entry::act(alloc, t, reader));
        Ok(())
    }

    /// The greatest batch that was placed and not rolled back, or the one that it began with.
    pub fn last(&self) -> Bid
        ensures { result.0 ≡ self.now.schedule.last }
    {
        self.last
    }

    /// The last batch that was placed in this epoch, or 0.
    pub fn last_in_epoch(&self) -> Bid
        ensures { result.0 ≡ self.now.schedule.tail }
    {
        self.tail
    }

    /// How many cascades it has seen.
    pub fn epoch(&self) -> u64
        ensures { result ≡ self.now.schedule.epoch }
    {
        self.epoch
    }

    /// Whether it has seen fewer cascades than `epoch`.
    pub fn is_behind(&self, epoch: u64) -> bool
        ensures { result ≡ nat_lt self.now.schedule.epoch epoch }
    {
        self.epoch < epoch
    }

    /// Whether the ACT stands here.
    pub fn has_act(&self, t: Tid) -> bool
        ensures { result ≡ has_act t.0 self.now.schedule.entries }
    {
        askings::has_act(&self.entries, t)
    }

    /// Whether the transaction runs here: it is an ACT, or a PACT of a sub-batch.
    pub fn has_entry(&self, t: Tid) -> bool
        ensures { result ≡ has_entry t.0 self.now.schedule.entries }
    {
        askings::has_entry(&self.entries, t)
    }

    /// Whether a sub-batch names the PACT, which is not done there.
    pub fn has_undone(&self, t: Tid) -> bool
        ensures { result ≡ has_undone t.0 self.now.schedule.entries }
    {
        askings::has_undone(&self.entries, t)
    }

    /// Whose the transaction is: of the batch whose sub-batch names it, else an ACT.
    pub fn who_on(&self, t: Tid) -> Who
        ensures { who_meant result ≡ who_on t.0 self.now.schedule.entries }
    {
        askings::who_on(&self.entries, t)
    }

    /// Whether the transaction has its place, and nothing ahead of it is in its way: all there is complete, or of ACTs
    /// that only read, where it is of one itself.
    pub fn is_clear(&self, t: Tid) -> bool
        ensures { result ≡ is_clear t.0 self.now.schedule.entries }
    {
        askings::is_clear(&self.entries, t)
    }

    /// Whether the transaction's place is that of an ACT which only reads.
    pub fn is_reader(&self, t: Tid) -> bool
        ensures { result ≡ reads_on t.0 self.now.schedule.entries }
    {
        askings::is_reader(&self.entries, t)
    }

    /// Whether the transaction has its place, and in its sub-batch all smaller tids are done.
    pub fn has_turn(&self, t: Tid) -> bool
        ensures { result ≡ has_turn t.0 self.now.schedule.entries }
    {
        askings::has_turn(&self.entries, t)
    }

    /// Whether the transaction may run: its place is clear, and it is its turn.
    pub fn may_run(&self, t: Tid) -> bool
        ensures { result ≡ can_run t.0 self.now.schedule.entries }
    {
        askings::is_clear(&self.entries, t) && askings::has_turn(&self.entries, t)
    }

    /// PACT `t` is done here. Where no sub-batch names it, nothing changes.
    pub fn mark_done(&mut self, t: Tid)
        ensures done { self.new.schedule ≡ with_done t.0 self.old.schedule }
        ensures room { KeepsRoom self.old self.new }
    {
        changes::mark_done(&mut self.entries, t);
    }

    /// Whether the batch stands here and is not complete.
    pub fn is_incomplete(&self, bid: Bid) -> bool
        ensures { result ≡ is_incomplete bid.0 self.now.schedule.entries }
    {
        askings::is_incomplete(&self.entries, bid)
    }

    /// Whether all that stands ahead of the batch is complete.
    pub fn is_next(&self, bid: Bid) -> bool
        ensures { result ≡ is_next_here bid.0 self.now.schedule.entries }
    {
        askings::is_next(&self.entries, bid)
    }

    /// Whether the batch stands here, and all its PACTs are done.
    pub fn is_done(&self, bid: Bid) -> bool
        ensures { result ≡ is_done_here bid.0 self.now.schedule.entries }
    {
        askings::is_done(&self.entries, bid)
    }

    /// Whether the batch may complete: it has not, all ahead of it has, and its PACTs are done.
    pub fn may_complete(&self, bid: Bid) -> bool
        ensures { result ≡ can_complete bid.0 self.now.schedule.entries }
    {
        askings::is_incomplete(&self.entries, bid)
            && askings::is_next(&self.entries, bid)
            && askings::is_done(&self.entries, bid)
    }

    /// Batch `bid` is complete here. Where it does not stand here, nothing changes.
    pub fn complete(&mut self, bid: Bid)
        ensures complete { self.new.schedule ≡ with_complete bid.0 self.old.schedule }
        ensures room { KeepsRoom self.old self.new }
    {
        changes::mark_complete(&mut self.entries, bid);
    }

    /// ACT `t` leaves. Where it does not stand here, nothing changes.
    pub fn remove_act(&mut self, t: Tid)
        ensures gone { self.new.schedule ≡ without_act t.0 self.old.schedule }
        ensures room { KeepsRoom self.old self.new }
    {
        changes::remove_act(&mut self.entries, t);
    }

    /// Whether no ACT stands ahead of the sub-batch.
    pub fn clear_ahead(&self, bid: Bid) -> bool
        ensures { result ≡ is_behind_no_act bid.0 self.now.schedule.entries }
    {
        askings::is_behind_no_act(&self.entries, bid)
    }

    /// Whether a cut at this batch takes the entry by which the transaction runs.
    pub fn is_cut_off(&self, t: Tid, bid: Bid) -> bool
        ensures { result ≡ is_cut_off t.0 bid.0 self.now.schedule.entries }
    {
        askings::is_cut_off(&self.entries, t, bid)
    }

    /// A rollback: the schedule is cut at its first batch that is not below this one, with all ACTs behind it, and
    /// is of this epoch from now on.
    #[tactic(auto, using(crate::proofs::Cutting::staying_is_front))]
    pub fn drop_aborted(&mut self, bid: Bid, epoch: u64)
        ensures cut { self.new.schedule ≡ cut_from bid.0 epoch self.old.schedule }
        ensures room { KeepsRoom self.old self.new }
    {
        let staying = askings::count_below(&self.entries, bid);
        self.entries.truncate(staying);
        self.epoch = epoch;
        self.last = Bid(askings::greatest_batch(&self.entries, self.last_trimmed.0));
        self.tail = Bid(0);
    }

    /// Batch `bid`, which is settled, leaves, and counts as the last one that did if it is greater.
    pub fn trim(&mut self, bid: Bid)
        ensures gone { self.new.schedule ≡ without_batch bid.0 self.old.schedule }
        ensures room { KeepsRoom self.old self.new }
    {
        changes::remove_batch(&mut self.entries, bid);
        self.last_trimmed = Bid(self.last_trimmed.0.max(bid.0));
    }
}
