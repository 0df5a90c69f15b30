//! An event on what is held.
ghost use Rattle.std.specs.List.{AllByRecursion};
ghost use Rattle.std.specs.Prelude.{◌≡◌, ◌<◌, ◌++◌, ◌∷◌, [], ℕ, None, IfOk, OnOk, OnErr, true, false, vec_len, vec_capacity};
ghost use Rattle.core_events.specs.Meant.{event_meant};
ghost use Rattle.crew_grip.specs.Acted.{AreReady, AreSound, HasActed, IsJust, IsReadyAt, IsRecorded, IsEventRefused, IsStepped};
ghost use Rattle.crew_grip.specs.Grips.{GripState, IsAtWork, IsCrew, IsGripOf, IsHeldNow};
ghost use Rattle.crew_parts.specs.Acts.{meant};
ghost use Rattle.crew_parts.specs.declared.acts.Act.{Act};
ghost use Rattle.ready_listing.specs.Offers.{AreOffers};
ghost use Rattle.protocol.specs.Events as machine;
ghost use Rattle.protocol.specs.Words.{is_among};
ghost use Rattle.snap_hand.specs.Steps.{IsRefusalOn, IsStep, MayBeAsked, may_want};
ghost use Rattle.snap_hand.specs.Tables.{AreTables, fixed_of, text_of};
ghost use Rattle.turn_table.specs.Places.{at};
ghost use Rattle.turn_table.specs.Words.{IsOf, knows, splits_of, tables_of};
ghost use Rattle.turn_table.specs.declared.limits.TheConstants.{MOST_ENTRIES};

use crate::Grip;
use crate::results::{Acted, NotDone};
use aml_slice::Control;
use core_events::{Event, Footprint, footprint};
use crew_parts::{Act, Share, passes_have_room, passes_stand};
use protocol_laws::allowed_or_refused;
use ready_listing::ReadyList;
use snap_base::Memory;
use snap_hand::{Hand, StepNo, Tables, apply, places_are_set, refusal, taking_fits};
use snap_outside::{Gate, LogDev, Sink};
use std::alloc::Global;
use turn_table::{Makes, Pass, RoomNo, Turns};

impl<D: LogDev + Drop, O: Sink + Drop> Makes<Share<D, O>, Act> for Grip<D, O> {
    ghost use Rattle.crew_grip.specs.Acted.{made_in};

    ghost made = { made_in };
}

impl<D: LogDev + Drop, O: Sink + Drop> Grip<D, O> {
    /// The events that may be taken with what is held, in the order in which a host takes them. `Memory` where the list got none.
    pub fn offers(&self, alloc: Global, turns: &Turns<Share<D, O>>) -> Result<ReadyList, Memory>
        requires crew { IsCrew turns.now }
        requires held { IsHeldNow turns.now self.now }
        ensures { IfOk result (λ l. AreOffers (fixed_of (tables_of turns.now)) self.now.hand l.events) }
    {
        ready_listing::offers(alloc, turns.tables(), &self.hand)
    }

    /// Whether all parts of a footprint are held, and can go on.
    fn is_ready(&self, footprint: &Footprint, logs: u8) -> bool
        ensures only { result ≡ true → AllByRecursion (λ i. IsReadyAt logs self.now i) footprint.now }
        ensures all { AllByRecursion (λ i. IsReadyAt logs self.now i) footprint.now → result ≡ true }
    {
        for i in 0..footprint.len() {
            if !self.is_ready_at(footprint.part(i), logs) {
                return false;
            }
        }
        true
    }

    fn is_ready_at(&self, part: usize, logs: u8) -> bool
        ensures only { result ≡ true → IsReadyAt logs self.now part }
        ensures all { IsReadyAt logs self.now part → result ≡ true }
    {
        match self.besides.get(part) {
            Some(Some(beside)) => beside.is_sound(part, logs),
            Some(None) => false,
            None => false,
        }
    }

    /// Whether the event is allowed with what is held: its parts are there, and can go on.
    pub fn may_do(&self, turns: &Turns<Share<D, O>>, e: Event) -> bool
        requires crew { IsCrew turns.now }
        requires held { IsHeldNow turns.now self.now }
        ensures only { result ≡ true → IsRefusalOn (fixed_of (tables_of turns.now)) (event_meant e) self.now.hand 0 }
        ensures all { AreReady (text_of (tables_of turns.now)).logs (event_meant e) self.now → IsRefusalOn (fixed_of (tables_of turns.now)) (event_meant e) self.now.hand 0 → result ≡ true }
    {
        let tables = turns.tables();
        let parts = footprint(e, tables.work.logs);
        if !self.is_ready(&parts, tables.work.logs) {
            return false;
        }
        places_are_set();
        refusal(tables, &self.hand, e) == 0
    }

    /// Makes room for one act more. Only memory may be wanting: no pass is ever full, since runs are short.
    pub fn room(
        &self,
        turns: &Turns<Share<D, O>>,
        pass: &mut Pass<Share<D, O>>,
    ) -> Result<(), Memory>
        requires crew { IsCrew turns.now }
        requires work { IsAtWork turns.now pass.old.seat self.now }
        ensures ok { OnOk result (vec_len pass.new.entries < vec_capacity pass.new.entries) }
        ensures few { vec_len pass.new.entries < MOST_ENTRIES }
        ensures same { (pass.new.seat ≡ pass.old.seat) × (pass.new.entries.items ≡ pass.old.entries.items) }
    {
        self.leaves_room(turns, pass);
        match turns.room(pass) {
            Ok(()) => Ok(()),
            Err(RoomNo::Full { entries: _ }) => unreachable!(),
            Err(RoomNo::Memory) => Err(Memory),
        }
    }

    /// What the pass has recorded leaves room for more. Called to cite it.
    fn leaves_room(&self, turns: &Turns<Share<D, O>>, pass: &Pass<Share<D, O>>)
        requires crew { IsCrew turns.now }
        requires work { IsAtWork turns.now pass.now.seat self.now }
        ensures { vec_len pass.now.entries < MOST_ENTRIES }
    {
        let _ = pass;
        passes_have_room(turns.tables());
    }

    /// Does the event, where it is allowed on the parts of its footprint, and records it. No other part is held. A Run passes
    /// the gate first. `Done` and `Broken` tell the number under which the act stands in the history; with all others nothing is
    /// recorded, and the parts are as they were. `Unready` and `NotNow` come only where that is so.
    pub fn act<G: Gate>(
        &mut self,
        alloc: Global,
        turns: &Turns<Share<D, O>>,
        pass: &mut Pass<Share<D, O>>,
        gate: &G,
        e: Event,
    ) -> Acted
        requires crew { IsCrew turns.now }
        requires work { IsAtWork turns.now pass.old.seat self.old }
        requires room { (vec_len pass.old.entries < vec_capacity pass.old.entries) × (vec_len pass.old.entries < MOST_ENTRIES) }
        requires others { (i : ℕ) → is_among i (machine.footprint (text_of (tables_of turns.now)).logs (event_meant e)) ≡ false → at (knows pass.old.seat).held i ≡ None }
        ensures work { IsAtWork turns.now pass.new.seat self.new }
        ensures others { (i : ℕ) → is_among i (machine.footprint (text_of (tables_of turns.now)).logs (event_meant e)) ≡ false → at (knows pass.new.seat).held i ≡ None }
        ensures entries { IsRecorded e pass.old.entries.items pass.new.entries.items result }
        ensures unready { result ≡ Acted.Unready → AreReady (text_of (tables_of turns.now)).logs (event_meant e) self.old → ⊥ }
        ensures not_now { result ≡ Acted.NotNow → IsEventRefused (fixed_of (tables_of turns.now)) (event_meant e) self.old.hand }
        ensures splits { splits_of pass.new.seat ≡ splits_of pass.old.seat }
    {
        let tables = turns.tables();
        let parts = footprint(e, tables.work.logs);
        if !self.is_ready(&parts, tables.work.logs) {
            return Acted::Unready;
        }
        places_are_set();
        if refusal(tables, &self.hand, e) != 0 {
            return Acted::NotNow;
        }
        self.act_allowed(alloc, turns, pass, gate, e)
    }

    /// Does the event, which is allowed, and whose parts are held and can go on, and records it. A Run passes the gate first.
    fn act_allowed<G: Gate>(
        &mut self,
        alloc: Global,
        turns: &Turns<Share<D, O>>,
        pass: &mut Pass<Share<D, O>>,
        gate: &G,
        e: Event,
    ) -> Acted
        requires crew { IsCrew turns.now }
        requires work { IsAtWork turns.now pass.old.seat self.old }
        requires room { (vec_len pass.old.entries < vec_capacity pass.old.entries) × (vec_len pass.old.entries < MOST_ENTRIES) }
        requires just { IsJust (machine.footprint (text_of (tables_of turns.now)).logs (event_meant e)) (knows pass.old.seat).held }
        requires sound { AreSound (text_of (tables_of turns.now)).logs self.old }
        requires allowed { IsRefusalOn (fixed_of (tables_of turns.now)) (event_meant e) self.old.hand 0 }
        ensures work { IsAtWork turns.now pass.new.seat self.new }
        ensures others { (i : ℕ) → is_among i (machine.footprint (text_of (tables_of turns.now)).logs (event_meant e)) ≡ false → at (knows pass.new.seat).held i ≡ None }
        ensures entries { IsRecorded e pass.old.entries.items pass.new.entries.items result }
        ensures tried { (result ≡ Acted.Unready → ⊥) × (result ≡ Acted.NotNow → ⊥) }
        ensures splits { splits_of pass.new.seat ≡ splits_of pass.old.seat }
    {
        allowed_or_refused::<Control>();
        places_are_set();
        match self.go_out(alloc, turns, e) {
            Ok(()) => {
                let Ok(()) = self.step(alloc, turns, gate, e) else {
                    return Acted::Memory;
                };
                let act = Act {
                    event: e,
                    done: true,
                };
                let done = self.record(turns, pass, act);
                Acted::Done { number: done }
            }
            Err(NotDone::Fault) => {
                let act = Act {
                    event: e,
                    done: false,
                };
                let broken = self.record(turns, pass, act);
                Acted::Broken { number: broken }
            }
            Err(NotDone::Memory) => Acted::Memory,
        }
    }

    /// Takes the event, which is allowed, on the hand. A Run passes the gate first. `Memory` comes only of the events that add
    /// something, and changes nothing.
    fn step<G: Gate>(
        &mut self,
        alloc: Global,
        turns: &Turns<Share<D, O>>,
        gate: &G,
        e: Event,
    ) -> Result<(), Memory>
        requires crew { IsCrew turns.now }
        requires asked { MayBeAsked (fixed_of (tables_of turns.now)) (event_meant e) self.old.hand }
        requires allowed { IsRefusalOn (fixed_of (tables_of turns.now)) (event_meant e) self.old.hand 0 }
        ensures taken { OnOk result (IsStepped (fixed_of (tables_of turns.now)) (event_meant e) self.old self.new) }
        ensures not { OnErr result ((self.new ≡ self.old) × (may_want (event_meant e) ≡ true)) }
    {
        match take_on(alloc, turns.tables(), gate, e, &mut self.hand) {
            Ok(()) => Ok(()),
            Err(_) => Err(Memory),
        }
    }

    /// Records an act that has made what is held now.
    fn record(&self, turns: &Turns<Share<D, O>>, pass: &mut Pass<Share<D, O>>, act: Act) -> u64
        requires crew { IsCrew turns.now }
        requires own { IsOf turns.now pass.old.seat }
        requires room { (vec_len pass.old.entries < vec_capacity pass.old.entries) × (vec_len pass.old.entries < MOST_ENTRIES) }
        requires acted { (old : GripState) × (IsGripOf (fixed_of (tables_of turns.now)) (knows pass.old.seat).held old × (IsJust (machine.footprint (text_of (tables_of turns.now)).logs (meant act)) (knows pass.old.seat).held × HasActed (fixed_of (tables_of turns.now)) act.done (meant act) old self.now)) }
        ensures work { IsAtWork turns.now pass.new.seat self.now }
        ensures others { (i : ℕ) → is_among i (machine.footprint (text_of (tables_of turns.now)).logs (meant act)) ≡ false → at (knows pass.new.seat).held i ≡ None }
        ensures entry { pass.new.entries.items ≡ pass.old.entries.items ++ (result, act) ∷ [] }
        ensures splits { splits_of pass.new.seat ≡ splits_of pass.old.seat }
    {
        taking_fits();
        places_are_set();
        passes_stand(turns.tables());
        turns.record(pass, act, self)
    }
}

/// Takes the event, which is allowed, on a hand: the hand's parts, as the cell of a Run, are then as the event leaves them. A Run
/// passes the gate first.
fn take_on<G: Gate>(
    alloc: Global,
    tables: &Tables,
    gate: &G,
    e: Event,
    hand: &mut Hand,
) -> Result<(), StepNo>
    requires tables { AreTables tables.now }
    requires asked { MayBeAsked (fixed_of tables.now) (event_meant e) hand.old }
    requires allowed { IsRefusalOn (fixed_of tables.now) (event_meant e) hand.old 0 }
    ensures { IsStep (fixed_of tables.now) (event_meant e) hand.old hand.new result }
{
    pass_gate(gate, e);
    apply(alloc, tables, e, hand)
}

/// A Run passes the gate.
fn pass_gate<G: Gate>(gate: &G, e: Event) {
    if let Event::Run(_, actor) = e {
        gate.enter(actor);
    }
}
