//! One actor as one part: store, schedule and boxes, and each event that changes them.
ghost use Rattle.std.specs.Prelude.{◌≡◌, ℕ, ◌+◌, ◌<◌, ◌≤◌, nat_lt, max, true, false, not, is_some, filter, find, map, length, List, Some, None, OnOk, IfOk};
ghost use Rattle.std.specs.List.{list_all};
ghost use Rattle.std.specs.Option.{option_map, option_and_then};
ghost use Rattle.actor_cell.specs.Cut.{IsCutFrom};
ghost use Rattle.hybrid_schedule.specs.Schedules.{has_turn, is_incomplete, is_next_here, is_done_here};
ghost use Rattle.protocol.specs.Meant.{sub_batch, tid_number, who_meant, next_meant};
ghost use Rattle.protocol.specs.OnBook.{met, tids_on};
ghost use Rattle.protocol.specs.OnCell.{act_left, act_placed, batch_completed, batch_left, batch_placed, control_came, is_undone_act, outcome_taken, pact_closed, reads_on, rolled_back, staying};
ghost use Rattle.protocol.specs.Parts.{Act, Cascade, ControlMessage};
ghost use Rattle.protocol.specs.Runs.{new_cell};
ghost use Rattle.protocol.specs.Words.{acts_on, floor_for, has_act, has_entry, has_undone, holds, image_of, is_clear, is_empty, is_ended, is_going, is_sealed, outcome_of, waiting_of, who_on};
ghost use Rattle.cell_part.specs.Contents.{outcome_next, outcome_result, waiting_control};
ghost use Rattle.cell_part.specs.Cutting.{cut_back};
ghost use Rattle.cell_part.specs.Room.{KeepsRoom, KeepsRoomBut};
ghost use Rattle.cell_part.specs.Running.{begun, ended};

use crate::boxes::Boxes;
use crate::leaving::{leave_boxes, leave_store};
use actor_cell::{Cell, MOST_IMAGES, undoing_is_rollback};
use hybrid_schedule::{Schedule, cut_is_at_first_aborted, gone_is_from_first_aborted};
use snap_base::{Bid, Memory, Next, State, SubBatch, Tid, TxResult, Who};
use std::alloc::Global;
use std::marker::Model;

/// One actor: its store, its schedule and its boxes. Contracts see the machine's `Cell`, and for how much more there is
/// room. Nothing but `new` and `room` takes memory.
#[derive(Drop)]
pub struct CellPart<C> {
    store: Cell,
    pub(crate) schedule: Schedule,
    pub(crate) boxes: Boxes<C>,
}

impl<C> Model for CellPart<C> {
    ghost use Rattle.protocol.specs.CellParts.{cell_of};
    ghost use Rattle.cell_part.specs.Room.{Roomed};

    ghost Value = { Roomed C };

    ghost view = { λ p. record {
      cell = cell_of p.store p.schedule.schedule p.boxes.boxes;
      spare_entries = p.schedule.spare_entries;
      spare_tids = p.schedule.spare_tids;
      spare_controls = p.boxes.spare_controls;
      spare_outcomes = p.boxes.spare_outcomes;
    } };
}

impl<C: Drop> CellPart<C> {
    ghost use Rattle.std.specs.Borrow.{sem, Lends};
    ghost use Rattle.snap_base.specs.contracts.transactions.State.{the_row as state_row};
    ghost use Rattle.cell_part.specs.contracts.cell_part.CellPart.{the_row};
    ghost use Rattle.cell_part.specs.Lending.{cell_with_state};

    /// An actor with this state, where nothing has run since batch `base`. `Memory` where what it begins with cannot be
    /// allocated.
    pub fn new(alloc: Global, state: State, base: Bid) -> Result<CellPart<C>, Memory>
        ensures { IfOk result (λ p. p.cell ≡ new_cell base.0 state) }
    {
        let store = Cell::new(alloc, state, base)?;
        let schedule = Schedule::new(alloc, base)?;
        Ok(CellPart {
            store,
            schedule,
            boxes: Boxes::new(alloc),
        })
    }

    /// Makes room for one more entry with so many tids, and for one more control with the outcome that it leaves. The
    /// cell stays as it is, and there is never less room than before. After `Memory` a part of the room may be there.
    pub fn room(&mut self, alloc: Global, tids: usize) -> Result<(), Memory>
        ensures entries { OnOk result (1 ≤ self.new.spare_entries) }
        ensures tids { OnOk result (tids ≤ self.new.spare_tids) }
        ensures controls { OnOk result (1 ≤ self.new.spare_controls) }
        ensures unchanged { self.new.cell ≡ self.old.cell }
        ensures no_less { KeepsRoom self.old self.new }
    {
        self.schedule.room(alloc, tids)?;
        self.boxes.room()
    }

    /// Arrive: a sub-batch is placed at the end of the schedule. It is of the cell's epoch, the batch before it is the
    /// last one that was placed in this epoch, and there is room for it. The room for tids goes with it.
    pub fn arrive(&mut self, alloc: Global, s: SubBatch)
        requires epoch { s.epoch ≡ self.old.cell.epoch }
        requires before { s.prev.0 ≡ self.old.cell.tail }
        requires entry { 1 ≤ self.old.spare_entries }
        requires tids { length s.tids ≤ self.old.spare_tids }
        ensures placed { self.new.cell ≡ batch_placed s.bid.0 (Some (sub_batch s)) self.old.cell }
        ensures entries { self.old.spare_entries ≤ self.new.spare_entries + 1 }
        ensures controls { self.old.spare_controls ≤ self.new.spare_controls }
        ensures outcomes { self.old.spare_outcomes ≤ self.new.spare_outcomes }
    {
        let _placed = self.schedule.arrive(alloc, s);
    }

    /// Ask, where no older rival is in the way: the ACT, which only reads or not, is placed at the end of the schedule, and
    /// its control arrives. There is room for both.
    pub fn ask(&mut self, alloc: Global, t: Tid, reader: bool, control: C)
        requires entry { 1 ≤ self.old.spare_entries }
        requires control { 1 ≤ self.old.spare_controls }
        ensures placed { (m : ControlMessage C) → m.tid ≡ t.0 → m.control ≡ control → self.new.cell ≡ act_placed (record { tid = t.0; reader = reader }) None (Some m) self.old.cell }
        ensures room { KeepsRoomBut 1 1 self.old self.new }
    {
        let _placed = self.schedule.place_act(alloc, t, reader);
        self.boxes.put_control(t, control);
    }

    /// Take: the control of a transaction that has its entry arrives. There is room for it.
    pub fn take(&mut self, t: Tid, control: C)
        requires { 1 ≤ self.old.spare_controls }
        ensures came { (m : ControlMessage C) → m.tid ≡ t.0 → m.control ≡ control → self.new.cell ≡ control_came (Some m) self.old.cell }
        ensures room { KeepsRoomBut 0 1 self.old self.new }
    {
        self.boxes.put_control(t, control);
    }

    /// Run, before the slice: the control of a transaction that waits is taken out, and where its entry has no image yet,
    /// one of the state is taken. For an ACT that only reads none is taken. `end` has room for the outcome.
    pub fn begin(&mut self, t: Tid) -> C
        requires waits { is_some (waiting_of t.0 self.old.cell.inbox) ≡ true }
        requires images { reads_on t.0 self.old.cell.entries ≡ false → is_some (image_of (who_on t.0 self.old.cell.entries) self.old.cell.images) ≡ false → length self.old.cell.images < MOST_IMAGES }
        ensures control { Some result ≡ option_map waiting_control (waiting_of t.0 self.old.cell.inbox) }
        ensures begun { self.new.cell ≡ begun t.0 self.old.cell }
        ensures room { 1 ≤ self.new.spare_outcomes }
        ensures no_less { KeepsRoom self.old self.new }
    {
        let reads = self.schedule.is_reader(t);
        if !reads {
            let who = self.schedule.who_on(t);
            self.store.start_entry(who);
        }
        self.boxes.take_control(t).unwrap()
    }

    /// Run: the actor's state, to be changed by the slice.
    pub fn state_mut(&mut self) -> &mut State
        ensures* writes_back { sem 𝓛 (Lends (the_row C.row) state_row self.entry result (cell_with_state self.entry.now)) }
        ensures value { result.now ≡ self.old.cell.state }
    {
        self.store.state_mut()
    }

    /// Run, behind the slice: what it ended with is kept until it is taken on, and where the PACT is through on the actor
    /// its slot is done.
    pub fn end(&mut self, t: Tid, next: Next<C>, through: bool)
        requires { 1 ≤ self.old.spare_outcomes }
        ensures ended { self.new.cell ≡ ended t.0 (next_meant next) through self.old.cell }
        ensures room { KeepsRoomBut 0 1 self.old self.new }
    {
        if through {
            self.schedule.mark_done(t);
        }
        self.boxes.put_outcome(t, next);
    }

    /// Send and End: what the transaction's slice ended with is taken out. `None` exactly where there is nothing, and
    /// nothing changes then.
    pub fn take_outcome(&mut self, t: Tid) -> Option<Next<C>>
        ensures value { option_map next_meant result ≡ option_map outcome_next (outcome_of t.0 self.old.cell.outbox) }
        ensures taken { self.new.cell ≡ outcome_taken t.0 self.old.cell }
        ensures no_less { KeepsRoom self.old self.new }
    {
        self.boxes.take_outcome(t)
    }

    /// Close: PACT `t`, which has its result, is done on the actor.
    pub fn close(&mut self, t: Tid)
        ensures closed { self.new.cell ≡ pact_closed t.0 self.old.cell }
        ensures no_less { KeepsRoom self.old self.new }
    {
        self.schedule.mark_done(t);
    }

    /// Complete: batch `bid` is complete on the actor.
    pub fn complete(&mut self, bid: Bid)
        ensures completed { self.new.cell ≡ batch_completed bid.0 self.old.cell }
        ensures no_less { KeepsRoom self.old self.new }
    {
        self.schedule.complete(bid);
    }

    /// Rollback to this epoch: what the batches from `first` on did is undone, and they go with all behind the first of
    /// them. It is the machine's wherever of the batches on the schedule those from `first` on are the aborted ones, images
    /// are of entries, and nothing has run behind an ACT that stays.
    pub fn rollback(&mut self, first: Bid, epoch: u64)
        ensures cut { self.new.cell ≡ cut_back first.0 epoch self.old.cell }
        ensures back { (cascades : List Cascade) → epoch ≡ length cascades
            → IsCutFrom first.0 (is_empty (acts_on (staying cascades self.old.cell.entries))) cascades self.old.cell.entries self.old.cell.images
            → self.new.cell ≡ rolled_back cascades self.old.cell }
        ensures no_less { KeepsRoom self.old self.new }
    {
        gone_is_from_first_aborted();
        cut_is_at_first_aborted();
        undoing_is_rollback();
        self.boxes.drop_cut(&self.schedule, first);
        self.schedule.drop_aborted(first, epoch);
        // No batch from `first` on stands any more, so all that stands is ahead of it.
        let acts = self.schedule.clear_ahead(first);
        self.store.undo_from(first, acts);
    }

    /// Finish: an ACT leaves, which only reads or not. What it did here is undone where it is doomed or failed, and where it
    /// is sealed, the batch `m` before it raises the floor of its kind.
    pub fn finish(&mut self, t: Tid, undone: bool, sealed: bool, m: Bid, reader: bool)
        ensures left { (x : Act) → is_undone_act (Some x) ≡ undone → is_sealed x.status ≡ sealed → x.m ≡ m.0 → x.reader ≡ reader
            → self.new.cell ≡ act_left t.0 (Some x) self.old.cell }
        ensures no_less { KeepsRoom self.old self.new }
    {
        leave_boxes(&mut self.boxes, &self.schedule, t);
        self.schedule.remove_act(t);
        leave_store(&mut self.store, t, undone, sealed, m, reader);
    }

    /// Trim: batch `bid`, which is settled, leaves the actor, with its image.
    pub fn trim(&mut self, bid: Bid)
        ensures left { self.new.cell ≡ batch_left bid.0 self.old.cell }
        ensures no_less { KeepsRoom self.old self.new }
    {
        self.store.trim(bid);
        self.schedule.trim(bid);
    }

    /// The actor's state.
    pub fn state(&self) -> State
        ensures { result ≡ self.now.cell.state }
    {
        self.store.state()
    }

    /// How many cascades the actor has seen.
    pub fn epoch(&self) -> u64
        ensures { result ≡ self.now.cell.epoch }
    {
        self.schedule.epoch()
    }

    /// The last batch that was placed in this epoch, or 0.
    pub fn last_in_epoch(&self) -> Bid
        ensures { result.0 ≡ self.now.cell.tail }
    {
        self.schedule.last_in_epoch()
    }

    /// The greatest batch that was placed and not rolled back, or the one that the actor began with.
    pub fn last(&self) -> Bid
        ensures { result.0 ≡ self.now.cell.last }
    {
        self.schedule.last()
    }

    /// The floor that counts for an ACT which only reads, or for another: the greatest batch that stands before an ACT which
    /// left for good. For who only reads, those do not count that only read too.
    pub fn floor(&self, reader: bool) -> Bid
        ensures { result.0 ≡ floor_for reader self.now.cell.floors }
    {
        self.store.floor(reader)
    }

    /// Whether the actor has seen fewer cascades than `epoch`.
    pub fn is_behind(&self, epoch: u64) -> bool
        ensures { result ≡ nat_lt self.now.cell.epoch epoch }
    {
        self.schedule.is_behind(epoch)
    }

    /// The ACTs behind the last sub-batch that an ACT which only reads, or another, can't stand beside, in order. An ACT
    /// that asks meets them.
    pub fn rivals(&self, alloc: Global, reader: bool) -> Result<Vec<Tid>, Memory>
        ensures { (t : ℕ) → IfOk result (λ tids. map tid_number tids.items ≡ map (λ x. x.tid) (met (record { tid = t; reader = reader }) self.now.cell.entries)) }
    {
        self.schedule.rivals(alloc, reader)
    }

    /// All ACTs on the schedule, in order.
    pub fn acts(&self, alloc: Global) -> Result<Vec<Tid>, Memory>
        ensures { IfOk result (λ acts. map tid_number acts.items ≡ tids_on self.now.cell.entries) }
    {
        self.schedule.acts(alloc)
    }

    /// Whether the ACT stands here.
    pub fn has_act(&self, t: Tid) -> bool
        ensures { result ≡ has_act t.0 self.now.cell.entries }
    {
        self.schedule.has_act(t)
    }

    /// Whether the transaction has an entry here: it is an ACT that stands here, or a PACT of a sub-batch.
    pub fn has_entry(&self, t: Tid) -> bool
        ensures { result ≡ has_entry t.0 self.now.cell.entries }
    {
        self.schedule.has_entry(t)
    }

    /// Whose the transaction is: of the batch whose sub-batch names it, else an ACT.
    pub fn who_on(&self, t: Tid) -> Who
        ensures { who_meant result ≡ who_on t.0 self.now.cell.entries }
    {
        self.schedule.who_on(t)
    }

    /// Whether a control of the transaction waits.
    pub fn has_waiting(&self, t: Tid) -> bool
        ensures { result ≡ is_some (waiting_of t.0 self.now.cell.inbox) }
    {
        self.boxes.has_waiting(t)
    }

    /// Whether the transaction has its place, and nothing ahead of it is in its way: no batch that is not complete, and no
    /// ACT but where both only read.
    pub fn is_clear(&self, t: Tid) -> bool
        ensures { result ≡ is_clear t.0 self.now.cell.entries }
    {
        self.schedule.is_clear(t)
    }

    /// Whether the transaction has its place, and in its sub-batch all smaller tids are done.
    pub fn has_turn(&self, t: Tid) -> bool
        ensures { result ≡ has_turn t.0 self.now.cell.entries }
    {
        self.schedule.has_turn(t)
    }

    /// Whether the transaction's slice ended on the way to another actor.
    pub fn has_going(&self, t: Tid) -> bool
        ensures { result ≡ holds (λ x. is_going x.next) (outcome_of t.0 self.now.cell.outbox) }
    {
        self.boxes.has_going(t)
    }

    /// Whether the transaction's slice ended it.
    pub fn has_ended(&self, t: Tid) -> bool
        ensures { result ≡ holds (λ x. is_ended x.next) (outcome_of t.0 self.now.cell.outbox) }
    {
        self.boxes.has_ended(t)
    }

    /// The result that the transaction's slice ended it with. `None` exactly where no slice ended it.
    pub fn ended_with(&self, t: Tid) -> Option<TxResult>
        ensures { result ≡ option_and_then outcome_result (outcome_of t.0 self.now.cell.outbox) }
    {
        self.boxes.ended_with(t)
    }

    /// Whether a sub-batch names the PACT, which is not done there.
    pub fn has_undone(&self, t: Tid) -> bool
        ensures { result ≡ has_undone t.0 self.now.cell.entries }
    {
        self.schedule.has_undone(t)
    }

    /// Whether the batch stands here and is not complete.
    pub fn is_incomplete(&self, bid: Bid) -> bool
        ensures { result ≡ is_incomplete bid.0 self.now.cell.entries }
    {
        self.schedule.is_incomplete(bid)
    }

    /// Whether all that stands ahead of the batch is complete.
    pub fn is_next(&self, bid: Bid) -> bool
        ensures { result ≡ is_next_here bid.0 self.now.cell.entries }
    {
        self.schedule.is_next(bid)
    }

    /// Whether the batch stands here, and all its PACTs are done.
    pub fn is_done(&self, bid: Bid) -> bool
        ensures { result ≡ is_done_here bid.0 self.now.cell.entries }
    {
        self.schedule.is_done(bid)
    }
}
