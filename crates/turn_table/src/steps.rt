//! The calls of a worker. None waits or takes memory but `room`.
ghost use Rattle.std.specs.Prelude.{◌≡◌, ℕ, ◌+◌, ◌*◌, ◌<◌, ◌≤◌, [], ◌∷◌, ◌++◌, ◌↔◌, Some, None, IfSome, IfNone, OnOk, vec_len, vec_capacity, length};
ghost use Rattle.turn_table.specs.Places.{at, AllBefore};
ghost use Rattle.turn_table.specs.Runs.{Fits, May};
ghost use Rattle.turn_table.specs.Views.{HasGained, gained, lost, refused, noted, cut, fresh};
ghost use Rattle.turn_table.specs.Words.{tables_of, opening_of, IsOf, knows, part_of, value_of};
ghost use Rattle.turn_table.specs.declared.limits.TheConstants.{MOST_ENTRIES};

use crate::held::Held;
use crate::limits::MOST_ENTRIES;
use crate::passes::Pass;
use crate::pieces::{Makes, Piece};
use crate::rule::{GiveBack, LayDown, PickUp, Record, Shares, Take, Told};
use crate::turns::Turns;
use crate::views::View;
use atomic_table::Seat;
use std::marker::Brand;

/// Why there is no room for one more event. Nothing has changed.
#[derive(Clone, Copy, Debug, PartialEq, Eq)]
pub enum RoomNo {
    /// The pass has as many events as a pass may record.
    Full { entries: u64 },
    /// There was no memory.
    Memory,
}

impl<P: Piece> Turns<P> {
    /// The fixed data that events are read with.
    pub fn tables(&self) -> &P::Tables
        ensures { result.now ≡ tables_of self.now }
    {
        &self.tables
    }

    /// How many parts there are.
    pub fn part_count(&self) -> usize
        ensures { result ≡ self.now.parts }
    {
        self.parts
    }

    /// Cuts a new pass off this one, which may be split once less then. The new one holds nothing, has no entry and cannot be split.
    pub fn split(&self, pass: &mut Pass<P>) -> Pass<P>
        requires own { IsOf self.now pass.old.seat }
        requires left { 0 < (knows pass.old.seat).splits }
        ensures own { IsOf self.now pass.new.seat × IsOf self.now result.seat }
        ensures view { knows pass.new.seat ≡ cut (knows pass.old.seat) }
        ensures new { knows result.seat ≡ fresh 1 0 }
        ensures entries { pass.new.entries ≡ pass.old.entries }
    {
        let seat = self.table.shared.split_seat::<Shares>(&mut pass.seat);
        Pass {
            seat,
            entries: Vec::new(self.alloc),
        }
    }

    /// One try to get the turn of this part, with the part's value. `None` says that the turn was held at the step of this call;
    /// the pass then holds what it held before.
    pub fn take(&self, pass: &mut Pass<P>, part: usize) -> Option<Held<P>>
        requires own { IsOf self.now pass.old.seat }
        requires part { part < self.now.parts }
        ensures own { IsOf self.now pass.new.seat }
        ensures some { IfSome result (λ h. (part_of h ≡ part) × HasGained (knows pass.old.seat) part (value_of h) (knows pass.new.seat)) }
        ensures value { IfSome result (λ h. at (knows pass.new.seat).held part ≡ Some (value_of h)) }
        ensures fits { IfSome result (λ h. Fits (P.footprint (tables_of self.now)) (P.happens (tables_of self.now)) (opening_of self.now) (knows pass.new.seat).held pass.new.entries.items) }
        ensures none { IfNone result (knows pass.new.seat ≡ refused (knows pass.old.seat)) }
        ensures entries { pass.new.entries ≡ pass.old.entries }
    {
        let value = self.take_told::<Brand>(&mut pass.seat, part)?;
        Some(Held { part, value })
    }

    fn take_told<W: Told<P, P::Event>>(
        &self,
        seat: &mut Seat<Option<P>, View<P, P::Event>>,
        part: usize,
    ) -> Option<P>
        requires own { IsOf self.now seat.old }
        requires part { part < self.now.parts }
        requires rest { (seat.old.me.1 ≡ []) × ((knows seat.old).hand ≡ 0) × (0 < (knows seat.old).weight) }
        requires told { (w : View P P.Event) → Fits (P.footprint (tables_of self.now)) (P.happens (tables_of self.now)) (opening_of self.now) w.held w.entries → W.facts w }
        ensures own { seat.new.table_id ≡ seat.old.table_id }
        ensures some { IfSome result (λ p. (n : ℕ) × (seat.new.me ≡ (gained (knows seat.old) part p n, [])) × W.facts (gained (knows seat.old) part p n)) }
        ensures value { IfSome result (λ p. at (knows seat.new).held part ≡ Some p) }
        ensures none { IfNone result (seat.new.me ≡ (refused (knows seat.old), [])) }
    {
        let shared = &self.table.shared;
        let found = shared.compare_exchange::<Take<W>>(seat, part + 1, 0, 1);
        if found != 0 {
            return None;
        }
        let value = shared.exchange(seat, part, None);
        shared.load::<LayDown>(seat, part + 1);
        value
    }

    /// Makes room for one more event of this pass, and leaves all else as it is. `Full` comes only where the pass has recorded
    /// `MOST_ENTRIES` events, and `Memory` where there is no memory.
    pub fn room(&self, pass: &mut Pass<P>) -> Result<(), RoomNo>
        ensures ok { OnOk result ((vec_len pass.new.entries < vec_capacity pass.new.entries) × (vec_len pass.new.entries < MOST_ENTRIES)) }
        ensures full { (n : ℕ) → (result ≡ Err (RoomNo.Full n)) ↔ ((n ≡ vec_len pass.old.entries) × (n ≡ MOST_ENTRIES)) }
        ensures same { (pass.new.seat ≡ pass.old.seat) × (pass.new.entries.items ≡ pass.old.entries.items) }
    {
        let entries = pass.entries.len() as u64;
        if entries >= MOST_ENTRIES {
            return Err(RoomNo::Full { entries });
        }
        if pass.entries.reserve(1).is_err() {
            return Err(RoomNo::Memory);
        }
        Ok(())
    }

    /// Records an event whose parts this pass holds, with the values that it made of them. Gives its number among the events of
    /// all passes, from 0 on.
    pub fn record<M: Makes<P, P::Event>>(
        &self,
        pass: &mut Pass<P>,
        event: P::Event,
        values: &M,
    ) -> u64
        requires own { IsOf self.now pass.old.seat }
        requires room { (vec_len pass.old.entries < vec_capacity pass.old.entries) × (vec_len pass.old.entries < MOST_ENTRIES) }
        requires held { May (P.footprint (tables_of self.now)) (P.happens (tables_of self.now)) (at (knows pass.old.seat).held) event (M.made values.now event) }
        ensures own { IsOf self.now pass.new.seat }
        ensures entry { pass.new.entries.items ≡ pass.old.entries.items ++ (result, event) ∷ [] }
        ensures later { AllBefore result pass.old.entries.items }
        ensures view { knows pass.new.seat ≡ noted (P.footprint (tables_of self.now)) (knows pass.old.seat) result event (M.made values.now event) }
        ensures fits { Fits (P.footprint (tables_of self.now)) (P.happens (tables_of self.now)) (opening_of self.now) (knows pass.new.seat).held pass.new.entries.items }
    {
        let number = self.record_told::<Brand, M>(&mut pass.seat, &event, values);
        pass.entries.push_reserved((number, event));
        number
    }

    fn record_told<W: Told<P, P::Event>, M: Makes<P, P::Event>>(
        &self,
        seat: &mut Seat<Option<P>, View<P, P::Event>>,
        event: &P::Event,
        values: &M,
    ) -> u64
        requires own { IsOf self.now seat.old }
        requires rest { seat.old.me.1 ≡ [] }
        requires room { length (knows seat.old).entries < (knows seat.old).weight * MOST_ENTRIES }
        requires held { May (P.footprint (tables_of self.now)) (P.happens (tables_of self.now)) (at (knows seat.old).held) event.now (M.made values.now event.now) }
        requires after { (n : ℕ) → W.after (knows seat.old) n ≡ noted (P.footprint (tables_of self.now)) (knows seat.old) n event.now (M.made values.now event.now) }
        requires told { (w : View P P.Event) → Fits (P.footprint (tables_of self.now)) (P.happens (tables_of self.now)) (opening_of self.now) w.held w.entries → W.facts w }
        ensures own { seat.new.table_id ≡ seat.old.table_id }
        ensures view { seat.new.me ≡ (noted (P.footprint (tables_of self.now)) (knows seat.old) result event.now (M.made values.now event.now), []) }
        ensures later { AllBefore result (knows seat.old).entries }
        ensures facts { W.facts (noted (P.footprint (tables_of self.now)) (knows seat.old) result event.now (M.made values.now event.now)) }
    {
        let _ = event;
        let _ = values;
        self.table.shared.fetch_add::<Record<W>>(seat, 0, 1)
    }

    /// Gives a turn back, with the value that the events of this pass made of the part. The pass holds it no more.
    pub fn give(&self, pass: &mut Pass<P>, held: Held<P>)
        requires own { IsOf self.now pass.old.seat }
        requires part { part_of held < self.now.parts }
        requires held { at (knows pass.old.seat).held (part_of held) ≡ Some (value_of held) }
        ensures own { IsOf self.now pass.new.seat }
        ensures view { knows pass.new.seat ≡ lost (knows pass.old.seat) (part_of held) }
        ensures entries { pass.new.entries ≡ pass.old.entries }
    {
        let Held { part, value } = held;
        self.give_part(pass, part, value);
    }

    /// Gives the turn of the part with this number back, with the value that the events of this pass made of the part. The pass
    /// holds it no more.
    pub fn give_part(&self, pass: &mut Pass<P>, part: usize, value: P)
        requires own { IsOf self.now pass.old.seat }
        requires part { part < self.now.parts }
        requires held { at (knows pass.old.seat).held part ≡ Some value }
        ensures own { IsOf self.now pass.new.seat }
        ensures view { knows pass.new.seat ≡ lost (knows pass.old.seat) part }
        ensures entries { pass.new.entries ≡ pass.old.entries }
    {
        self.give_back(&mut pass.seat, part, value);
    }

    fn give_back(&self, seat: &mut Seat<Option<P>, View<P, P::Event>>, part: usize, value: P)
        requires own { IsOf self.now seat.old }
        requires part { part < self.now.parts }
        requires rest { (seat.old.me.1 ≡ []) × ((knows seat.old).hand ≡ 0) }
        requires held { at (knows seat.old).held part ≡ Some value }
        ensures own { seat.new.table_id ≡ seat.old.table_id }
        ensures view { seat.new.me ≡ (lost (knows seat.old) part, []) }
    {
        let shared = &self.table.shared;
        shared.load::<PickUp>(seat, part + 1);
        let _none = shared.exchange(seat, part, Some(value));
        shared.store::<GiveBack>(seat, part + 1, 0);
    }
}
