//! The votes on one ACT that ended.
ghost use Rattle.std.specs.Prelude.{◌≡◌, ℕ, ◌==◌, not, ◌&&◌, false, None, Some, map, IsTrue, IfOk};
ghost use Rattle.protocol.specs.BookParts.{not_voted};
ghost use Rattle.protocol.specs.Parts.{Live};
ghost use Rattle.protocol.specs.OnBook.{marked, decided_as, sealed};
ghost use Rattle.protocol.specs.Words.{holds, joined_of, is_value, is_decided, is_sealed};
ghost use Rattle.protocol.specs.Effects.{ascending};
ghost use Rattle.act_commit.specs.Changes.{marking_of, change_of, MayChange};
ghost use Rattle.act_commit.specs.Words.{actor_numbers, sealing_of, is_undecided, is_ready};

use crate::seats::{Mark, Seat, are_vouched, note_on, seat_on, seats_on};
use crate::sorted::actors_of;
use crate::stages::Stage;
use snap_base::{ActorId, Memory, Tid, TxResult};
use std::alloc::Global;
use std::marker::Model;

/// What is noted of an ACT that ended.
#[derive(Clone, Copy)]
pub(crate) enum Change {
    Marked(Mark, ActorId),
    /// It is decided, as this number of the commits.
    Decided(u64),
    Sealed,
}

/// The votes on an ACT that ended.
#[derive(Drop)]
pub(crate) struct Vote {
    tid: Tid,
    result: TxResult,
    /// The actors that it joined, in the order in which it did.
    seats: Vec<Seat>,
    stage: Stage,
}

impl Model for Vote {
    ghost use Rattle.std.specs.Prelude.{false, Some, None};
    ghost use Rattle.protocol.specs.Parts.{Act};
    ghost use Rattle.act_commit.specs.Stages.{status_of_stage, IsReadyIfDecided};

    ghost Value = { Act };

    ghost view = { λ v. record { tid = v.tid.0; tx = 0; reader = false; m = 0; n = None; places = v.seats.items; result = Some v.result; status = status_of_stage v.stage } };

    ghost invariant = { λ v. IsReadyIfDecided (status_of_stage v.stage) v.result v.seats.items };
}

impl Vote {
    /// The votes on an ACT that ended with this outcome, having joined the actors in this order: nothing is prepared, vouched
    /// or decided.
    pub fn new(
        alloc: Global,
        tid: Tid,
        outcome: TxResult,
        actors: &[ActorId],
    ) -> Result<Vote, Memory>
        ensures { IfOk result (λ v. v ≡ record { tid = tid.0; tx = 0; reader = false; m = 0; n = None; places = map not_voted (actor_numbers actors.now); result = Some outcome; status = Live }) }
    {
        Ok(Vote {
            tid,
            result: outcome,
            seats: seats_on(alloc, actors)?,
            stage: Stage::Open,
        })
    }

    /// The tid of the ACT.
    pub fn tid(&self) -> u64
        ensures { result ≡ self.now.tid }
    {
        self.tid.0
    }

    /// Notes what came about of the ACT.
    pub fn change(&mut self, change: Change)
        requires { MayChange change (Some self.old) }
        ensures { self.new ≡ change_of change self.old }
    {
        match change {
            Change::Marked(mark, actor) => self.mark(mark, actor),
            Change::Decided(number) => self.decide(number),
            Change::Sealed => self.seal(),
        }
    }

    fn mark(&mut self, mark: Mark, actor: ActorId)
        ensures { self.new ≡ marked actor.0 (marking_of mark) self.old }
    {
        note_on(self.seats.as_mut_slice(), mark, actor);
    }

    fn decide(&mut self, number: u64)
        requires { IsTrue (is_ready self.old) }
        ensures { self.new ≡ decided_as number self.old }
    {
        self.stage = self.stage.decided(number, has_value(self.result));
    }

    fn seal(&mut self)
        ensures { self.new ≡ sealed self.old }
    {
        self.stage = self.stage.sealed();
    }

    /// How the ACT ended.
    pub fn result(&self) -> TxResult
        ensures { self.now.result ≡ Some result }
    {
        self.result
    }

    /// Whether the ACT joined the actor and is prepared there.
    pub fn is_prepared(&self, actor: ActorId) -> bool
        ensures { result ≡ holds (λ p. p.prepared) (joined_of actor.0 self.now) }
    {
        match seat_on(self.seats.as_slice(), actor) {
            Some(seat) => seat.is_prepared(),
            None => false,
        }
    }

    /// Whether the ACT joined the actor and is vouched there.
    pub fn is_vouched(&self, actor: ActorId) -> bool
        ensures { result ≡ holds (λ p. p.vouched) (joined_of actor.0 self.now) }
    {
        match seat_on(self.seats.as_slice(), actor) {
            Some(seat) => seat.is_vouched(),
            None => false,
        }
    }

    /// Whether the ACT joined the actor and is not prepared there.
    pub fn is_unprepared(&self, actor: ActorId) -> bool
        ensures { result ≡ holds (λ p. not p.prepared) (joined_of actor.0 self.now) }
    {
        match seat_on(self.seats.as_slice(), actor) {
            Some(seat) => seat.is_unprepared(),
            None => false,
        }
    }

    /// Whether the ACT joined the actor and is prepared there, but not vouched.
    pub fn is_unvouched(&self, actor: ActorId) -> bool
        ensures { result ≡ holds (λ p. p.prepared && not p.vouched) (joined_of actor.0 self.now) }
    {
        match seat_on(self.seats.as_slice(), actor) {
            Some(seat) => seat.is_unvouched(),
            None => false,
        }
    }

    /// Whether it is neither decided nor sealed.
    pub fn is_undecided(&self) -> bool
        ensures { result ≡ is_undecided self.now }
    {
        self.stage.is_open()
    }

    /// Whether it failed, or is vouched on all its actors.
    pub fn is_ready(&self) -> bool
        ensures { result ≡ is_ready self.now }
    {
        match self.result {
            TxResult::Value(_) => are_vouched(self.seats.as_slice()),
            TxResult::Fail(_) => true,
        }
    }

    /// Whether the ACT is decided and not sealed.
    pub fn is_decided(&self) -> bool
        ensures decided { result ≡ is_decided self.now.status }
        ensures ready { IsTrue result → IsTrue (is_ready self.now) }
    {
        self.stage.is_decided()
    }

    /// Whether the ACT is sealed.
    pub fn is_sealed(&self) -> bool
        ensures sealed { result ≡ is_sealed self.now.status }
        ensures ready { IsTrue result → IsTrue (is_ready self.now) }
    {
        self.stage.is_sealed()
    }

    /// The number of its commit and how it ended, where it is sealed.
    pub fn sealing(&self) -> Option<(u64, TxResult)>
        ensures { result ≡ sealing_of self.now.status self.now.result }
    {
        match self.stage {
            Stage::Sealed(number) => Some((number, self.result)),
            Stage::Open | Stage::Decided(_) => None,
        }
    }

    /// The actors that the ACT joined, ascending.
    pub fn actors(&self, alloc: Global) -> Result<Vec<ActorId>, Memory>
        ensures { IfOk result (λ actors. actor_numbers actors.items ≡ ascending (map (λ p. p.actor) self.now.places)) }
    {
        actors_of(alloc, self.seats.as_slice())
    }
}

fn has_value(outcome: TxResult) -> bool
    ensures { result ≡ is_value (Some outcome) }
{
    match outcome {
        TxResult::Value(_) => true,
        TxResult::Fail(_) => false,
    }
}
