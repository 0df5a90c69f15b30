//! The slots of a sub-batch: its PACTs, and which of them are done.
ghost use Rattle.std.specs.Prelude.{◌≡◌, ℕ, ◌-◌, ◌≤◌, ◌==◌, ◌^◌, min, Bool, true, false, not, [], ◌++◌, filter, map, length, vec_capacity, OnOk};
ghost use Rattle.std.specs.List.{list_any, list_all};
ghost use Rattle.protocol.specs.Left.{slot_left, total};
ghost use Rattle.protocol.specs.OnCell.{not_done, done_if};
ghost use Rattle.protocol.specs.Meant.{tid_number};
ghost use Rattle.hybrid_schedule.specs.Listed.{undone_in};
ghost use Rattle.hybrid_schedule.specs.Slots.{is_slot_of, lets_run, is_undone_of, is_within};

use crate::changes::push_in_room;
use protocol::unless;
use snap_base::{Memory, Tid};
use std::alloc::Global;
use std::marker::Model;

/// A PACT of a sub-batch, and whether it is done on this actor. Contracts see the machine's `Slot`.
#[derive(Drop)]
pub struct Slot {
    tid: Tid,
    done: bool,
}

impl Model for Slot {
    ghost use Rattle.protocol.specs.Parts as protocol;

    ghost Value = { protocol.Slot };

    ghost view = { λ s. record { tid = s.tid.0; done = s.done } };
}

impl Slot {
    /// The slot of a PACT that is not done.
    pub fn new(tid: Tid) -> Self
        ensures { result ≡ not_done tid.0 }
    {
        Slot { tid, done: false }
    }

    /// Whether it is the slot of PACT `t`.
    pub fn is_of(&self, t: Tid) -> bool
        ensures { result ≡ is_slot_of t.0 self.now }
    {
        self.tid.0 == t.0
    }

    /// The PACT that it is of.
    pub fn tid(&self) -> Tid
        ensures { result.0 ≡ self.now.tid }
    {
        self.tid
    }

    /// Whether its PACT is done.
    pub fn is_done(&self) -> bool
        ensures { result ≡ self.now.done }
    {
        self.done
    }

    /// How many events it may still bring: one, unless it is done.
    pub fn left(&self) -> u64
        ensures { result ≡ slot_left self.now }
    {
        unless(self.done, 1)
    }

    /// Whether PACT `t` need not wait for it: it is done, or not of a smaller tid.
    pub fn lets_run(&self, t: Tid) -> bool
        ensures { result ≡ lets_run t.0 self.now }
    {
        t.0 <= self.tid.0 || self.done
    }

    /// Whether it is the slot of PACT `t`, which is not done.
    pub fn is_undone_of(&self, t: Tid) -> bool
        ensures { result ≡ is_undone_of t.0 self.now }
    {
        self.tid.0 == t.0 && !self.done
    }

    /// PACT `t` is done, if the slot is its own.
    pub fn mark_done(&mut self, t: Tid)
        ensures { self.new ≡ done_if t.0 self.old }
    {
        if self.tid.0 == t.0 {
            self.done = true;
        }
    }
}

/// The slots of a sub-batch. Contracts see them as a list. Between which tids they lie is kept beside them, so
/// that a sub-batch which does not name a transaction is mostly passed over at once.
#[derive(Drop)]
pub struct Slots {
    items: Vec<Slot>,
    least: u64,
    greatest: u64,
}

impl Model for Slots {
    ghost use Rattle.std.specs.Prelude.{◌≡◌, true, List};
    ghost use Rattle.protocol.specs.Parts as protocol;
    ghost use Rattle.hybrid_schedule.specs.Listed.{undone_in};
    ghost use Rattle.hybrid_schedule.specs.Slots.{are_within};

    ghost Value = { List protocol.Slot };

    ghost view = { λ s. s.items.items };

    ghost invariant = { λ s. are_within s.least s.greatest s.items.items ≡ true };
}

impl Slots {
    /// None, which takes no memory.
    pub fn none(alloc: Global) -> Self
        ensures { result ≡ [] }
    {
        Slots {
            items: Vec::new(alloc),
            least: 0,
            greatest: 0,
        }
    }

    /// One for each PACT of `tids`, none of them done, in memory that is there for them.
    pub fn of(tids: &[Tid], memory: Vec<Slot>) -> Self
        requires empty { memory.items ≡ [] }
        requires fits { length tids.now ≤ vec_capacity memory }
        ensures { result ≡ map not_done (map tid_number tids.now) }
    {
        let mut items = memory;
        let mut least = u64::MAX;
        let mut greatest: u64 = 0;
        for t in tids {
            push_in_room(&mut items, Slot::new(*t));
            least = least.min(t.0);
            greatest = greatest.max(t.0);
        }
        Slots {
            items,
            least,
            greatest,
        }
    }

    /// Whether one of them is the PACT's.
    pub fn name(&self, t: Tid) -> bool
        ensures { result ≡ list_any (is_slot_of t.0) self.now }
    {
        self.may_name(t) && is_any_of(self.items.as_slice(), t)
    }

    /// Whether the PACT has one that is not done.
    #[tactic(auto, using(crate::proofs::Bounds::none_undone))]
    pub fn have_undone(&self, t: Tid) -> bool
        ensures { result ≡ list_any (is_undone_of t.0) self.now }
    {
        self.may_name(t) && is_any_undone(self.items.as_slice(), t)
    }

    /// Whether all those with smaller tids are done.
    pub fn let_run(&self, t: Tid) -> bool
        ensures { result ≡ list_all (lets_run t.0) self.now }
    {
        all_let_run(self.items.as_slice(), t)
    }

    /// Whether all of them are done.
    pub fn are_done(&self) -> bool
        ensures { result ≡ list_all (λ s. s.done) self.now }
    {
        are_all_done(self.items.as_slice())
    }

    /// How many events they may still bring, and `u64::MAX` where more.
    pub fn left(&self) -> u64
        ensures { result ≡ min (total slot_left self.now) (2 ^ 64 - 1) }
    {
        left_of(self.items.as_slice())
    }

    /// Adds the PACTs that are not done.
    pub fn list_undone(&self, tids: &mut Vec<Tid>) -> Result<(), Memory>
        ensures { OnOk result (map tid_number tids.new.items ≡ map tid_number tids.old.items ++ undone_in self.now) }
    {
        add_undone(self.items.as_slice(), tids)
    }

    /// The PACT is done.
    #[tactic(auto, using(crate::proofs::Bounds::none_marked, crate::proofs::Bounds::within_when_marked))]
    pub fn mark_done(&mut self, t: Tid)
        ensures { self.new ≡ map (done_if t.0) self.old }
    {
        if self.may_name(t) {
            mark_all(&mut self.items, t);
        }
    }

    /// False only where none is the PACT's.
    #[tactic(auto, using(crate::proofs::Bounds::none_beyond))]
    fn may_name(&self, t: Tid) -> bool
        ensures { result ≡ false → list_any (is_slot_of t.0) self.now ≡ false }
    {
        self.least <= t.0 && t.0 <= self.greatest
    }
}

fn is_any_of(slots: &[Slot], t: Tid) -> bool
    ensures { result ≡ list_any (is_slot_of t.0) slots.now }
{
    slots.iter().any(|s| s.is_of(t))
}

fn is_any_undone(slots: &[Slot], t: Tid) -> bool
    ensures { result ≡ list_any (is_undone_of t.0) slots.now }
{
    slots.iter().any(|s| s.is_undone_of(t))
}

fn all_let_run(slots: &[Slot], t: Tid) -> bool
    ensures { result ≡ list_all (lets_run t.0) slots.now }
{
    slots.iter().all(|s| s.lets_run(t))
}

fn are_all_done(slots: &[Slot]) -> bool
    ensures { result ≡ list_all (λ s. s.done) slots.now }
{
    slots.iter().all(|s| s.is_done())
}

fn left_of(slots: &[Slot]) -> u64
    ensures { result ≡ min (total slot_left slots.now) (2 ^ 64 - 1) }
{
    let mut left: u64 = 0;
    for slot in slots {
        left = left.saturating_add(slot.left());
    }
    left
}

fn mark_all(slots: &mut Vec<Slot>, t: Tid)
    ensures { slots.new.items ≡ map (done_if t.0) slots.old.items }
{
    mark_each(slots.as_mut_slice(), t);
}

fn mark_each(slots: &mut [Slot], t: Tid)
    ensures { slots.new ≡ map (done_if t.0) slots.old }
{
    for s in slots.iter_mut() {
        s.mark_done(t);
    }
}

fn add_undone(slots: &[Slot], tids: &mut Vec<Tid>) -> Result<(), Memory>
    ensures { OnOk result (map tid_number tids.new.items ≡ map tid_number tids.old.items ++ undone_in slots.now) }
{
    for slot in slots {
        if !slot.is_done() {
            tids.push(slot.tid())?;
        }
    }
    Ok(())
}
