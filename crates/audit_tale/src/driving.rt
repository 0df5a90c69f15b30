//! The events of a run, one by one: whether they meet the first clause, and all that they tell.
ghost use Rattle.std.specs.Prelude.{◌≡◌, ◌+◌, ◌<◌, ◌≤◌, ◌^◌, Bool, false, length, map, IfOk, OnOk, MatchBool, MatchResult};
ghost use Rattle.snap_base.specs.declared.transactions.Tx as base;
ghost use Rattle.core_events.specs.Meant.{event_meant};
ghost use Rattle.protocol.specs.Conditions.{AllTrue};
ghost use Rattle.protocol.specs.Fixed.{Text};
ghost use Rattle.audit_words.specs.Audited.{ring_conditions};
ghost use Rattle.audit_words.specs.Happenings.{happened};
ghost use Rattle.audit_words.specs.Seen.{Seen};
ghost use Rattle.audit_tale.specs.Fitting.{FitsTale};
ghost use Rattle.audit_tale.specs.Settings.{AreMarks, AreOfText, IsSetting, is_coordinators, meant};
ghost use Rattle.audit_tale.specs.Stands.{IsSound, KnowsAll};
ghost use Rattle.audit_tale.specs.Tellings.{IsTaleNo, IsTold};

use crate::aborting::abort;
use crate::arriving::arrive;
use crate::asking::ask;
use crate::happening::{admit, commit, decide, form, pass, settle, submit};
use crate::leaving::{finish, rollback, run, trim};
use crate::tale_no::TaleNo;
use crate::told::Told;
use core_events::Event;
use snap_base::{Memory, Tx};
use std::alloc::Global;

/// What an event that is none of the coordinators' adds to all that is kept. After `Memory` nothing is said of what is kept.
fn tell(alloc: Global, told: &mut Told, event: Event) -> Result<(), Memory>
    requires others { is_coordinators event ≡ false }
    requires epochs { told.old.tale.ring.epoch + 1 < 2 ^ 64 }
    requires settled { told.old.tale.settled + 1 < 2 ^ 64 }
    requires numbers { told.old.tale.next_c + 1 < 2 ^ 64 }
    ensures { OnOk result ((only_reads : base.Tx → Bool) (w : Text) (s : Seen) → IsSound s → FitsTale w s → KnowsAll w told.old s → KnowsAll w told.new (happened only_reads w (event_meant event) s)) }
{
    match event {
        Event::Arrive(k, a) => arrive(told, k, a),
        Event::Ask(t, a) => ask(alloc, told, t, a),
        Event::Run(t, a) => run(told, t, a),
        Event::Commit(k) => commit(told, k),
        Event::Settle(k) => {
            settle(told, k);
            Ok(())
        }
        Event::AbortBatch(k) => {
            abort(told, k);
            Ok(())
        }
        Event::Rollback(a) => {
            rollback(told, a);
            Ok(())
        }
        Event::Decide(t) => decide(told, t),
        Event::Finish(t, a) => finish(told, t, a),
        Event::Trim(k, a) => {
            trim(told, k, a);
            Ok(())
        }
        _ => Ok(()),
    }
}

/// What an event adds to all that is kept; false where it does not meet the first clause. `reads` tells of each transaction
/// whether its method only reads. After `Memory` nothing is said of what is kept.
fn happen(
    alloc: Global,
    told: &mut Told,
    batch: u16,
    txs: &[Tx],
    reads: &[bool],
    event: Event,
) -> Result<bool, Memory>
    requires txs { length txs.now < 2 ^ 32 }
    requires tids { told.old.tale.ring.next_tid + 65536 < 2 ^ 64 }
    requires bids { told.old.tale.ring.next_bid + 1 < 2 ^ 64 }
    requires epochs { told.old.tale.ring.epoch + 1 < 2 ^ 64 }
    requires settled { told.old.tale.settled + 1 < 2 ^ 64 }
    requires numbers { told.old.tale.next_c + 1 < 2 ^ 64 }
    ensures { IfOk result (λ yes. (only_reads : base.Tx → Bool) (w : Text) (s : Seen) → IsSetting (length told.old.tale.ring.pacts) batch (length told.old.actors.items) txs.now w → reads.now ≡ map only_reads txs.now → AreOfText w s.ring → IsSound s → FitsTale w s → KnowsAll w told.old s → MatchBool yes (AllTrue (ring_conditions w (event_meant event) s.ring) × KnowsAll w told.new (happened only_reads w (event_meant event) s)) (¬ AllTrue (ring_conditions w (event_meant event) s.ring))) }
{
    match event {
        Event::Submit(n) => submit(told, txs, n),
        Event::Pass(c) => Ok(pass(told, c)),
        Event::Form(k) => form(alloc, told, txs, batch, k),
        Event::Admit(t) => admit(alloc, told, reads, t),
        _ => {
            tell(alloc, told, event)?;
            Ok(true)
        }
    }
}

/// What the events of a run from empty logs tell: by so many coordinators, of batches of at most `batch` PACTs, on so many
/// actors, of the transactions `txs`, of each of which `reads` tells whether its method only reads. `Event` exactly where one
/// does not meet the first clause, with the number of the first of these, from 0 on; `Memory` where what is kept cannot be
/// allocated. `coordinators` is at least 1.
pub fn told_by(
    alloc: Global,
    coordinators: u8,
    batch: u16,
    actors: u16,
    txs: &[Tx],
    reads: &[bool],
    events: &[Event],
) -> Result<Told, TaleNo>
    requires coordinators { 1 ≤ coordinators }
    requires txs { length txs.now < 2 ^ 32 }
    requires reads { AreMarks reads.now txs.now }
    requires events { length events.now < 2 ^ 40 }
    ensures { MatchResult result (λ told. (only_reads : base.Tx → Bool) (w : Text) → IsSetting coordinators batch actors txs.now w → reads.now ≡ map only_reads txs.now → IsTold only_reads w (meant events.now) told) (λ why. (w : Text) → IsSetting coordinators batch actors txs.now w → IsTaleNo w (meant events.now) why) }
{
    let mut told = Told::new(alloc, coordinators, actors)?;
    for (i, event) in events.iter().enumerate() {
        if !happen(alloc, &mut told, batch, txs, reads, *event)? {
            return Err(TaleNo::Event(i as u64));
        }
    }
    Ok(told)
}
