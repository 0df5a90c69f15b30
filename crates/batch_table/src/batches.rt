//! One batch at the desk.
ghost use Rattle.std.specs.Prelude.{◌≡◌, ◌-◌, ◌^◌, min, not, ◌&&◌, true, Some, map, option_map, IfOk, slice_get};
ghost use Rattle.std.specs.List.{list_all};
ghost use Rattle.protocol.specs.Left.{batch_left};
ghost use Rattle.protocol.specs.Words as words;
ghost use Rattle.protocol.specs.OnDesk as desk;
ghost use Rattle.protocol.specs.Meant.{actor_number, batch_pact, subs_actor};
ghost use Rattle.batch_table.specs.Askings.{failure_shown};
ghost use Rattle.batch_table.specs.Found.{found_at, found_if};
ghost use Rattle.batch_table.specs.Joining as joining;
ghost use Rattle.batch_table.specs.Listed.{is_going_batch, tx_named};
ghost use Rattle.batch_table.specs.Stages.{stage_meant};

use crate::actors::{self, ActorEntry};
use crate::pacts::{self, PactEntry};
use crate::{FoundPact, Stage};
use protocol::{Formed, unless};
use snap_base::{ActorId, Bid, Memory, Sequence, SubBatch, Tid, TxNo, TxResult};
use std::alloc::Global;
use std::marker::Model;

/// A batch at the desk.
#[derive(Drop)]
pub(crate) struct BatchEntry {
    bid: Bid,
    actors: Vec<ActorEntry>,
    pacts: Vec<PactEntry>,
    stage: Stage,
    aborted: bool,
}

impl Model for BatchEntry {
    ghost use Rattle.protocol.specs.Parts.{Batch};

    ghost Value = { Batch };

    ghost use Rattle.batch_table.specs.Stages.{stage_meant};

    ghost view = { λ b. record { bid = b.bid.0; places = b.actors.items; pacts = b.pacts.items; stage = stage_meant b.stage; aborted = b.aborted } };
}

impl BatchEntry {
    /// A batch as it is formed.
    pub fn new(alloc: Global, f: &Formed) -> Result<Self, Memory>
        ensures { IfOk result (λ b. b ≡ desk.new_batch f.now.bid f.now.actors f.now.pacts) }
    {
        let pacts = new_pacts(alloc, f.txs.as_slice())?;
        let actors = new_actors(alloc, f.subs.as_slice())?;
        Ok(BatchEntry {
            bid: f.bid,
            actors,
            pacts,
            stage: Stage::Formed,
            aborted: false,
        })
    }

    /// Its PACTs, in the order of their tids.
    pub fn pacts(&self) -> &[PactEntry]
        ensures { result.now ≡ self.now.pacts }
    {
        self.pacts.as_slice()
    }

    /// The least tid of its PACTs; 0 where it has none.
    pub fn first_tid(&self) -> u64
        ensures { result ≡ joining.first_or_zero (joining.pact_tids self.now.pacts) }
    {
        pacts::first_tid(self.pacts.as_slice())
    }

    /// Whether it has not begun to commit, and is not aborted.
    pub fn is_open(&self) -> bool
        ensures { result ≡ words.is_open self.now }
    {
        self.stage.is_formed() && !self.aborted
    }

    /// Whether it is settled.
    pub fn is_settled(&self) -> bool
        ensures { result ≡ words.is_settled self.now.stage }
    {
        self.stage.is_settled()
    }

    /// Whether it is neither aborted nor trimmed on all its actors.
    pub fn is_live(&self) -> bool
        ensures { result ≡ words.is_live_batch self.now }
    {
        !self.aborted && !actors::are_all_trimmed(self.actors.as_slice())
    }

    /// Whether it is neither aborted, nor settled and trimmed on all its actors.
    pub fn is_going(&self) -> bool
        ensures { result ≡ is_going_batch self.now }
    {
        !(self.aborted
            || self.stage.is_settled() && actors::are_all_trimmed(self.actors.as_slice()))
    }

    /// Its number.
    pub fn bid(&self) -> Bid
        ensures { result.0 ≡ self.now.bid }
    {
        self.bid
    }

    /// The actors that it declares.
    pub fn actors(&self, alloc: Global) -> Result<Vec<ActorId>, Memory>
        ensures { IfOk result (λ actors. map actor_number actors.items ≡ map (λ p. p.actor) self.now.places) }
    {
        actors::ids(alloc, self.actors.as_slice())
    }

    /// The transactions of its PACTs.
    pub fn txs(&self, alloc: Global) -> Result<Vec<TxNo>, Memory>
        ensures { IfOk result (λ txs. map (λ n. n.0) txs.items ≡ map (λ p. p.tx) self.now.pacts) }
    {
        pacts::txs(alloc, self.pacts.as_slice())
    }

    /// Whether all its PACTs ended with a value.
    pub fn has_ended_well(&self) -> bool
        ensures { result ≡ list_all (λ p. words.is_value p.result) self.now.pacts }
    {
        pacts::have_values(self.pacts.as_slice())
    }

    /// The values of its PACTs, in order.
    pub fn values(&self, alloc: Global) -> Result<Sequence<i64>, Memory>
        ensures { IfOk result (λ values. values ≡ words.values_of (Some self.now)) }
    {
        pacts::values(alloc, self.pacts.as_slice())
    }

    /// Whether it is noted on all its actors.
    pub fn is_noted(&self) -> bool
        ensures { result ≡ list_all (λ p. p.noted) self.now.places }
    {
        actors::are_all_noted(self.actors.as_slice())
    }

    /// Whether it is open, and the actor is one of its own, not noted.
    pub fn awaits_note(&self, actor: ActorId) -> bool
        ensures { result ≡ (words.is_open self.now && words.holds (λ p. not p.noted) (words.declared_of actor.0 self.now)) }
    {
        self.is_open() && actors::lacks_note(self.actors.as_slice(), actor)
    }

    /// Whether its commit record is written, and it is neither settled nor aborted.
    pub fn awaits_settling(&self) -> bool
        ensures { result ≡ (words.is_committing self.now.stage && not self.now.aborted) }
    {
        self.stage.is_committing() && !self.aborted
    }

    /// Whether it is settled and not aborted, and the actor is one of its own, not trimmed.
    pub fn awaits_trim(&self, actor: ActorId) -> bool
        ensures { result ≡ (words.is_settled self.now.stage && (not self.now.aborted && words.holds (λ p. not p.trimmed) (words.declared_of actor.0 self.now))) }
    {
        self.stage.is_settled()
            && !self.aborted
            && actors::lacks_trim(self.actors.as_slice(), actor)
    }

    /// Its first PACT that failed, if all before it ended with a value: the transaction and the code.
    pub fn first_failed(&self) -> Option<(TxNo, u16)>
        ensures { result ≡ option_map failure_shown (words.first_failed self.now.pacts) }
    {
        pacts::first_failed(self.pacts.as_slice())
    }

    /// How its PACT with this tid ended; `None` where nothing was noted, or the batch has no such PACT.
    pub fn result_of(&self, tid: Tid) -> Option<TxResult>
        requires { joining.AreConsecutive (joining.pact_tids self.now.pacts) }
        ensures { result ≡ words.result_among tid.0 self.now.pacts }
    {
        pacts::result_of(self.pacts.as_slice(), tid)
    }

    /// The transaction of its PACT with this tid; `None` where the batch has no such PACT.
    pub fn tx_of(&self, tid: Tid) -> Option<TxNo>
        requires { joining.AreConsecutive (joining.pact_tids self.now.pacts) }
        ensures { option_map (λ n. n.0) result ≡ tx_named tid.0 self.now.pacts }
    {
        pacts::tx_of(self.pacts.as_slice(), tid)
    }

    /// What is found where this PACT of the batch is.
    fn found(&self, pact: &PactEntry) -> FoundPact
        ensures { result ≡ found_at self.now pact.now }
    {
        FoundPact {
            bid: self.bid,
            tid: pact.tid(),
            stage: self.stage,
            result: pact.result(),
        }
    }

    /// What is found at this place of the batch, if its transaction is the one.
    pub fn found_if(&self, place: usize, tx: TxNo) -> Option<FoundPact>
        ensures { result ≡ found_if tx.0 self.now (slice_get self.now.pacts place) }
    {
        match self.pacts.get(place) {
            Some(pact) => {
                if pact.tx().0 == tx.0 {
                    Some(self.found(pact))
                } else {
                    None
                }
            }
            None => None,
        }
    }

    /// How many events it may still bring, and `u64::MAX` where more.
    pub fn left(&self) -> u64
        ensures { result ≡ min (batch_left self.now) (2 ^ 64 - 1) }
    {
        unless(self.aborted, self.stage.left()).saturating_add(actors::left_on(
            self.actors.as_slice(),
        ))
    }

    /// Marks the actor as noted.
    pub fn note(&mut self, actor: ActorId)
        ensures { self.new ≡ desk.marked actor.0 desk.is_noted self.old }
    {
        actors::note(self.actors.as_mut_slice(), actor);
    }

    /// Marks the actor as trimmed.
    pub fn trim(&mut self, actor: ActorId)
        ensures { self.new ≡ desk.marked actor.0 desk.is_trimmed self.old }
    {
        actors::trim(self.actors.as_mut_slice(), actor);
    }

    /// From now on the batch is at this stage. Its marks and results stay.
    pub fn set_stage(&mut self, stage: Stage)
        ensures { self.new ≡ desk.with_stage (stage_meant stage) self.old }
    {
        self.stage = stage;
    }

    /// It is aborted. Its stage, marks and results stay.
    pub fn abort(&mut self)
        ensures { self.new ≡ record self.old { aborted = true } }
    {
        self.aborted = true;
    }

    /// Notes how the PACT with this tid ended, if it is one of the batch, and the batch is not aborted.
    pub fn note_end(&mut self, tid: Tid, r: TxResult)
        requires { joining.AreConsecutive (joining.pact_tids self.old.pacts) }
        ensures { self.new ≡ desk.with_results tid.0 r self.old }
    {
        if !self.aborted {
            pacts::note_end(self.pacts.as_mut_slice(), tid, r);
        }
    }
}

/// PACTs that have not ended, with the tids and transactions of `txs`.
fn new_pacts(alloc: Global, txs: &[(Tid, TxNo)]) -> Result<Vec<PactEntry>, Memory>
    ensures { IfOk result (λ v. v.items ≡ map batch_pact txs.now) }
{
    let mut pacts = Vec::with_capacity(alloc, txs.len())?;
    for pair in txs {
        pacts.push(PactEntry::new(pair.0, pair.1))?;
    }
    Ok(pacts)
}

/// The actors that are told of the batch, with no mark.
fn new_actors(alloc: Global, subs: &[SubBatch]) -> Result<Vec<ActorEntry>, Memory>
    ensures { IfOk result (λ v. v.items ≡ map desk.new_declared (map subs_actor subs.now)) }
{
    let mut actors = Vec::with_capacity(alloc, subs.len())?;
    for sub in subs {
        actors.push(ActorEntry::new(sub.actor))?;
    }
    Ok(actors)
}
