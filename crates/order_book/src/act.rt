//! One ACT as the book keeps it.
ghost use Rattle.std.specs.Prelude.{◌≡◌, ◌==◌, ◌≤◌, not, max, find, List, [], ◌∷◌, ◌++◌, map, if◌then◌else◌, Some, OnOk, OnErr};
ghost use Rattle.std.specs.List.{list_all};
ghost use Rattle.std.specs.Option.{option_map};
ghost use Rattle.protocol.specs.Words.{is_doomed, is_live_status, is_ordered, is_sealed, is_live_act, joined_of, holds, least_of};
ghost use Rattle.protocol.specs.OnBook.{mark_if, has_left, new_act, joins, doomed_by, marked};
ghost use Rattle.protocol.specs.Spread.{reaches};
ghost use Rattle.order_book.specs.Asked.{doom_in, place_in};
ghost use Rattle.order_book.specs.Fates.{bid_number, status_of_fate};
ghost use Rattle.order_book.specs.Kept.{is_leaving, seen, without_after, IsUnder};
ghost use Rattle.order_book.specs.Changes.{changed_by, lowered_to};
ghost use Rattle.order_book.specs.Walking.{is_walked};

use crate::change::Change;
use crate::fate::Fate;
use crate::mark::Mark;
use crate::pair::{Pair, is_behind};
use snap_base::{ActorId, Bid, Memory, Tid, TxNo, Verdict};
use std::alloc::Global;
use std::marker::Model;

/// An ACT, as the book keeps it. Contracts see the machine's ACT, and under how many cascades its after number was set.
#[derive(Drop)]
pub struct Act {
    tid: Tid,
    tx: TxNo,
    /// It only reads.
    reader: bool,
    before: Bid,
    after: Option<Bid>,
    under: u64,
    marks: Vec<Mark>,
    fate: Fate,
}

impl Model for Act {
    ghost use Rattle.std.specs.Prelude.{None};
    ghost use Rattle.std.specs.Option.{option_map};
    ghost use Rattle.order_book.specs.Fates.{bid_number, status_of_fate};
    ghost use Rattle.order_book.specs.Kept.{Kept};

    ghost Value = { Kept };

    ghost view = { λ a. record { act = record { tid = a.tid.0; tx = a.tx.0; reader = a.reader; m = a.before.0; n = option_map bid_number a.after; places = a.marks.items; result = None; status = status_of_fate a.fate }; under = a.under } };
}

impl Act {
    /// An ACT that begins, on no actor yet.
    pub(crate) fn new(alloc: Global, tid: Tid, tx: TxNo, reader: bool, base: Bid) -> Self
        ensures { result ≡ record { act = new_act tid.0 tx.0 reader base.0; under = 0 } }
    {
        Act {
            tid,
            tx,
            reader,
            before: base,
            after: None,
            under: 0,
            marks: Vec::new(alloc),
            fate: Fate::Undecided,
        }
    }

    /// It joins an actor, behind a batch. For want of memory it is as before.
    pub(crate) fn join(&mut self, actor: ActorId, behind: Bid) -> Result<(), Memory>
        ensures ok { OnOk result (self.new ≡ record self.old { act = joins actor.0 behind.0 self.old.act }) }
        ensures err { OnErr result (self.new ≡ self.old) }
    {
        self.marks.push(Mark::new(actor))?;
        self.before = Bid(self.before.0.max(behind.0));
        Ok(())
    }

    /// What becomes of it after so many cascades.
    pub(crate) fn change(&mut self, change: Change, epoch: u64)
        requires { IsUnder epoch self.old }
        ensures now { seen epoch self.new ≡ changed_by change (seen epoch self.old) }
        ensures under { IsUnder epoch self.new }
    {
        match change {
            Change::Lower(bid) => self.lower(bid, epoch),
            Change::Cross(actor) => {
                let after = self.after(epoch);
                self.fate = self.fate.crossed(self.before, after, actor);
            }
            Change::Raise(bid) => self.before = Bid(self.before.0.max(bid.0)),
            Change::Doom(why) => self.fate = self.fate.given_up(why),
            Change::Place => self.fate = self.fate.placed(),
            Change::Leave(actor) => leave_marks(&mut self.marks, actor),
            Change::TakeAlong(bid, by) => {
                self.fate = self.fate.taken_along(self.before, bid, by);
            }
        }
    }

    fn lower(&mut self, bid: Bid, epoch: u64)
        ensures now { seen epoch self.new ≡ lowered_to bid.0 (seen epoch self.old) }
        ensures under { self.new.under ≡ epoch }
    {
        let least = match self.after(epoch) {
            Some(after) if after.0 <= bid.0 => after,
            _ => bid,
        };
        self.after = Some(least);
        self.under = epoch;
    }

    /// It has no after number, whatever the number of cascades.
    pub(crate) fn cut(&mut self)
        ensures { self.new ≡ without_after self.old }
    {
        self.after = None;
        self.under = 0;
    }

    /// The tid of the ACT.
    pub fn tid(&self) -> Tid
        ensures { result.0 ≡ self.now.act.tid }
    {
        self.tid
    }

    pub(crate) fn tx(&self) -> TxNo
        ensures { result.0 ≡ self.now.act.tx }
    {
        self.tx
    }

    pub(crate) fn is_reader(&self) -> bool
        ensures { result ≡ self.now.act.reader }
    {
        self.reader
    }

    pub(crate) fn before(&self) -> Bid
        ensures { result.0 ≡ self.now.act.m }
    {
        self.before
    }

    /// Its after number, after so many cascades.
    pub(crate) fn after(&self, epoch: u64) -> Option<Bid>
        ensures { option_map bid_number result ≡ (seen epoch self.now).n }
    {
        if self.under == epoch {
            self.after
        } else {
            None
        }
    }

    /// The actors that it joined, in that order.
    pub fn marks(&self) -> &[Mark]
        ensures { result.now ≡ self.now.act.places }
    {
        self.marks.as_slice()
    }

    /// The batches that stand before it, up to this one, where it has its place.
    pub(crate) fn place(&self) -> Option<Bid>
        ensures { option_map bid_number result ≡ place_in self.now.act }
    {
        if self.fate.is_placed() {
            Some(self.before)
        } else {
            None
        }
    }

    pub(crate) fn doom(&self) -> Option<Verdict>
        ensures { result ≡ doom_in self.now.act.status }
    {
        match self.fate {
            Fate::GivenUp(why) => Some(why),
            _ => None,
        }
    }

    /// Whether it is neither given up nor has its place.
    pub fn is_undecided(&self) -> bool
        ensures { result ≡ is_live_status self.now.act.status }
    {
        self.fate.is_undecided()
    }

    pub(crate) fn is_given_up(&self) -> bool
        ensures { result ≡ is_doomed self.now.act.status }
    {
        self.fate.is_given_up()
    }

    /// Whether it has its place in the serial order, which shows as sealed.
    pub fn is_placed(&self) -> bool
        ensures ordered { result ≡ is_ordered self.now.act.status }
        ensures sealed { result ≡ is_sealed self.now.act.status }
    {
        self.fate.is_placed()
    }

    /// Whether it has still to leave an actor, or has neither joined one nor been given up.
    pub(crate) fn is_live(&self) -> bool
        ensures { result ≡ is_live_act self.now.act }
    {
        if self.marks.is_empty() {
            !self.fate.is_given_up()
        } else {
            !all_finished(self.marks.as_slice())
        }
    }

    /// Whether it is given up and has an actor still to leave.
    pub(crate) fn is_leaving(&self) -> bool
        ensures { result ≡ is_leaving self.now.act }
    {
        self.fate.is_given_up() && self.is_live()
    }

    /// Whether its numbers cross, after so many cascades.
    pub(crate) fn reaches(&self, epoch: u64) -> bool
        ensures { result ≡ reaches (seen epoch self.now).m (seen epoch self.now).n }
    {
        match self.after(epoch) {
            Some(after) => after.0 <= self.before.0,
            None => false,
        }
    }

    /// Whether it has joined the actor and not left it.
    pub(crate) fn stands_on(&self, actor: ActorId) -> bool
        ensures { result ≡ holds (λ p. not p.finished) (joined_of actor.0 self.now.act) }
    {
        stands_among(self.marks.as_slice(), actor)
    }

    /// Whether an event may change it though it does not name it, where `pairs` are the pairs that are left.
    pub(crate) fn is_walked(&self, pairs: &[Pair]) -> bool
        ensures { result ≡ is_walked pairs.now self.now.act }
    {
        self.fate.is_undecided() || self.fate.is_given_up() && is_behind(pairs, self.tid)
    }
}

fn stands_among(marks: &[Mark], actor: ActorId) -> bool
    ensures { result ≡ holds (λ p. not p.finished) (find (λ p. p.actor == actor.0) marks.now) }
{
    for mark in marks {
        if mark.actor().0 == actor.0 {
            return !mark.is_finished();
        }
    }
    false
}

fn all_finished(marks: &[Mark]) -> bool
    ensures { result ≡ list_all (λ p. p.finished) marks.now }
{
    for mark in marks {
        if !mark.is_finished() {
            return false;
        }
    }
    true
}

fn leave_marks(marks: &mut Vec<Mark>, actor: ActorId)
    ensures { marks.new.items ≡ map (λ p. mark_if (p.actor == actor.0) has_left p) marks.old.items }
{
    for mark in marks.iter_mut() {
        mark.leave(actor);
    }
}
