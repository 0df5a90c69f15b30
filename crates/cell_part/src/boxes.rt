//! The boxes of an actor: controls that wait, and outcomes of slices.
ghost use Rattle.std.specs.Prelude.{◌≡◌, ◌≤◌, not, is_some, true, filter, [], ◌∷◌, ◌++◌, OnOk, IfOk};
ghost use Rattle.std.specs.Option.{option_map, option_and_then};
ghost use Rattle.hybrid_schedule.specs.Cuts.{is_cut_off};
ghost use Rattle.protocol.specs.Meant.{next_meant};
ghost use Rattle.protocol.specs.CellParts.{taken_from};
ghost use Rattle.protocol.specs.Words.{holds, is_going, is_ended, waiting_of, without_waiting, outcome_of, without_outcome};
ghost use Rattle.cell_part.specs.Contents.{waiting_control, outcome_next, outcome_result};
ghost use Rattle.cell_part.specs.Room.{KeepsBoxes, UsesBoxes};

use crate::kept::{drop_each, first_of, take_first};
use crate::outcome::Outcome;
use crate::waiting::Waiting;
use hybrid_schedule::Schedule;
use snap_base::{Bid, Memory, Next, Tid, TxResult};
use std::alloc::Global;
use std::marker::Model;

/// Controls that have arrived at an actor, and what slices there ended with, in the order in which they came. Contracts
/// see the machine's `Boxes`, and for how much more there is room. Nothing but `new` and `room` takes memory: a control
/// comes only where there is room for it, and for the outcome that it leaves.
#[derive(Drop)]
pub(crate) struct Boxes<C> {
    pub(crate) inbox: Vec<Waiting<C>>,
    pub(crate) outbox: Vec<Outcome<C>>,
}

impl<C> Model for Boxes<C> {
    ghost use Rattle.std.specs.Prelude.{◌+◌, ◌-◌, ◌≤◌, min, vec_len, vec_capacity};
    ghost use Rattle.cell_part.specs.Room.{RoomedBoxes};

    ghost Value = { RoomedBoxes C };

    ghost view = { λ b. record {
      boxes = record { inbox = b.inbox.items; outbox = b.outbox.items };
      spare_controls = min (vec_capacity b.inbox - vec_len b.inbox) (vec_capacity b.outbox - (vec_len b.inbox + vec_len b.outbox));
      spare_outcomes = vec_capacity b.outbox - (vec_len b.inbox + vec_len b.outbox);
    } };

    ghost invariant = { λ b. vec_len b.inbox + vec_len b.outbox ≤ vec_capacity b.outbox };
}

impl<C: Drop> Boxes<C> {
    /// Empty boxes.
    pub(crate) fn new(alloc: Global) -> Boxes<C>
        ensures { result.boxes ≡ record { inbox = []; outbox = [] } }
    {
        Boxes {
            inbox: Vec::new(alloc),
            outbox: Vec::new(alloc),
        }
    }

    /// Makes room for one more control, and for the outcome that it leaves. What is there stays.
    pub(crate) fn room(&mut self) -> Result<(), Memory>
        ensures ok { OnOk result (1 ≤ self.new.spare_controls) }
        ensures unchanged { self.new.boxes ≡ self.old.boxes }
        ensures no_less { KeepsBoxes self.old self.new }
    {
        let outcomes = self.inbox.len() + 1;
        self.inbox.reserve(1)?;
        self.outbox.reserve(outcomes)?;
        Ok(())
    }

    /// A control arrives.
    pub(crate) fn put_control(&mut self, t: Tid, control: C)
        requires { 1 ≤ self.old.spare_controls }
        ensures came { self.new.boxes ≡ record self.old.boxes { inbox = self.old.boxes.inbox ++ record { tid = t.0; control = control } ∷ [] } }
        ensures room { UsesBoxes self.old self.new }
    {
        self.inbox.push_reserved(Waiting { tid: t, control });
    }

    /// Takes the control of a transaction out, which leaves room for its outcome. `None` exactly where none waits.
    pub(crate) fn take_control(&mut self, t: Tid) -> Option<C>
        ensures value { result ≡ option_map waiting_control (waiting_of t.0 self.old.boxes.inbox) }
        ensures taken { self.new.boxes ≡ record self.old.boxes { inbox = without_waiting t.0 self.old.boxes.inbox } }
        ensures room { is_some result ≡ true → 1 ≤ self.new.spare_outcomes }
        ensures no_less { KeepsBoxes self.old self.new }
    {
        match take_first(&mut self.inbox, t) {
            Some(Waiting { tid: _, control }) => Some(control),
            None => None,
        }
    }

    /// What a slice ended with is kept.
    pub(crate) fn put_outcome(&mut self, t: Tid, next: Next<C>)
        requires { 1 ≤ self.old.spare_outcomes }
        ensures kept { self.new.boxes ≡ record self.old.boxes { outbox = self.old.boxes.outbox ++ record { tid = t.0; next = next_meant next } ∷ [] } }
        ensures room { UsesBoxes self.old self.new }
    {
        self.outbox.push_reserved(Outcome { tid: t, next });
    }

    /// Takes out what the transaction's slice ended with. `None` exactly where there is nothing.
    pub(crate) fn take_outcome(&mut self, t: Tid) -> Option<Next<C>>
        ensures value { option_map next_meant result ≡ option_map outcome_next (outcome_of t.0 self.old.boxes.outbox) }
        ensures taken { self.new.boxes ≡ taken_from t.0 self.old.boxes }
        ensures no_less { KeepsBoxes self.old self.new }
    {
        match take_first(&mut self.outbox, t) {
            Some(Outcome { tid: _, next }) => Some(next),
            None => None,
        }
    }

    /// What is of this transaction goes.
    pub(crate) fn drop_of(&mut self, t: Tid)
        ensures gone { self.new.boxes ≡ record { inbox = without_waiting t.0 self.old.boxes.inbox; outbox = without_outcome t.0 self.old.boxes.outbox } }
        ensures no_less { KeepsBoxes self.old self.new }
    {
        drop_each(&mut self.inbox, t);
        drop_each(&mut self.outbox, t);
    }

    /// What is of transactions whose entries a cut of the schedule at this batch takes, goes.
    pub(crate) fn drop_cut(&mut self, schedule: &Schedule, bid: Bid)
        ensures gone { self.new.boxes ≡ record {
          inbox = filter (λ x. not (is_cut_off x.tid bid.0 schedule.now.schedule.entries)) self.old.boxes.inbox;
          outbox = filter (λ x. not (is_cut_off x.tid bid.0 schedule.now.schedule.entries)) self.old.boxes.outbox;
        } }
        ensures no_less { KeepsBoxes self.old self.new }
    {
        self.inbox.retain(|w| !schedule.is_cut_off(w.tid, bid));
        self.outbox.retain(|o| !schedule.is_cut_off(o.tid, bid));
    }

    pub(crate) fn has_waiting(&self, t: Tid) -> bool
        ensures { result ≡ is_some (waiting_of t.0 self.now.boxes.inbox) }
    {
        match first_of(&self.inbox, t) {
            Some(_) => true,
            None => false,
        }
    }

    pub(crate) fn has_going(&self, t: Tid) -> bool
        ensures { result ≡ holds (λ x. is_going x.next) (outcome_of t.0 self.now.boxes.outbox) }
    {
        match first_of(&self.outbox, t) {
            Some(outcome) => outcome.is_going(),
            None => false,
        }
    }

    pub(crate) fn has_ended(&self, t: Tid) -> bool
        ensures { result ≡ holds (λ x. is_ended x.next) (outcome_of t.0 self.now.boxes.outbox) }
    {
        match first_of(&self.outbox, t) {
            Some(outcome) => outcome.is_ended(),
            None => false,
        }
    }

    pub(crate) fn ended_with(&self, t: Tid) -> Option<TxResult>
        ensures { result ≡ option_and_then outcome_result (outcome_of t.0 self.now.boxes.outbox) }
    {
        match first_of(&self.outbox, t) {
            Some(outcome) => outcome.result(),
            None => None,
        }
    }
}
