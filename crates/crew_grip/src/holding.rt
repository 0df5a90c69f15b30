//! Parts are taken and given back, each under its turn.
ghost use Rattle.std.specs.List.{AllByRecursion};
ghost use Rattle.std.specs.Prelude.{◌≡◌, ◌≢◌, ◌<◌, ℕ, None, IsSome, true, false};
ghost use Rattle.crew_grip.specs.Grips.{IsAtWork, IsCrew};
ghost use Rattle.protocol.specs.Words.{is_among};
ghost use Rattle.turn_table.specs.Places.{at};
ghost use Rattle.turn_table.specs.Views.{refused};
ghost use Rattle.turn_table.specs.Words.{HoldsNothing, knows, splits_of};

use crate::Grip;
use core_events::Footprint;
use crew_parts::{Share, passes_stand};
use snap_hand::{places_are_set, putting_fits, taking_fits};
use snap_outside::{LogDev, Sink};
use turn_table::{Pass, Turns};

impl<D: LogDev + Drop, O: Sink + Drop> Grip<D, O> {
    /// One try to take this part, where it is not held yet. Whether it is held now: not, where another pass held its turn at the try.
    pub fn take(
        &mut self,
        turns: &Turns<Share<D, O>>,
        pass: &mut Pass<Share<D, O>>,
        part: usize,
    ) -> bool
        requires crew { IsCrew turns.now }
        requires part { part < turns.now.parts }
        requires work { IsAtWork turns.now pass.old.seat self.old }
        ensures work { IsAtWork turns.now pass.new.seat self.new }
        ensures held { result ≡ true → IsSome (at (knows pass.new.seat).held part) }
        ensures refused { result ≡ false → knows pass.new.seat ≡ refused (knows pass.old.seat) }
        ensures others { (i : ℕ) → i ≢ part → at (knows pass.new.seat).held i ≡ at (knows pass.old.seat).held i }
        ensures rest { (pass.new.entries ≡ pass.old.entries) × (splits_of pass.new.seat ≡ splits_of pass.old.seat) }
    {
        if self.holds(part) {
            return true;
        }
        let Some(held) = turns.take(pass, part) else {
            return false;
        };
        passes_stand(turns.tables());
        putting_fits();
        places_are_set();
        let (_lease, share) = held.open();
        self.put_share(part, share);
        true
    }

    /// Takes the parts of a footprint that are not held yet, one after the other, by one try each, up to the first that another pass
    /// holds. Whether all of them are held now. What was taken stays held.
    pub fn take_parts(
        &mut self,
        turns: &Turns<Share<D, O>>,
        pass: &mut Pass<Share<D, O>>,
        footprint: &Footprint,
    ) -> bool
        requires crew { IsCrew turns.now }
        requires work { IsAtWork turns.now pass.old.seat self.old }
        ensures work { IsAtWork turns.now pass.new.seat self.new }
        ensures held { result ≡ true → AllByRecursion (λ i. IsSome (at (knows pass.new.seat).held i)) footprint.now }
        ensures others { (i : ℕ) → is_among i footprint.now ≡ false → at (knows pass.new.seat).held i ≡ at (knows pass.old.seat).held i }
        ensures rest { (pass.new.entries ≡ pass.old.entries) × (splits_of pass.new.seat ≡ splits_of pass.old.seat) }
    {
        for i in 0..footprint.len() {
            let part = footprint.part(i);
            if part >= turns.part_count() || !self.take(turns, pass, part) {
                return false;
            }
        }
        true
    }

    /// Gives this part back, where it is held; else nothing changes.
    pub fn give(&mut self, turns: &Turns<Share<D, O>>, pass: &mut Pass<Share<D, O>>, part: usize)
        requires crew { IsCrew turns.now }
        requires work { IsAtWork turns.now pass.old.seat self.old }
        ensures work { IsAtWork turns.now pass.new.seat self.new }
        ensures given { at (knows pass.new.seat).held part ≡ None }
        ensures others { (i : ℕ) → at (knows pass.old.seat).held i ≡ None → at (knows pass.new.seat).held i ≡ None }
        ensures rest { (pass.new.entries ≡ pass.old.entries) × (splits_of pass.new.seat ≡ splits_of pass.old.seat) }
    {
        if !self.holds(part) {
            return;
        }
        taking_fits();
        places_are_set();
        let share = self.take_share(part);
        turns.give_part(pass, part, share);
    }

    /// Gives back all that is held.
    pub fn give_all(&mut self, turns: &Turns<Share<D, O>>, pass: &mut Pass<Share<D, O>>)
        requires crew { IsCrew turns.now }
        requires work { IsAtWork turns.now pass.old.seat self.old }
        ensures work { IsAtWork turns.now pass.new.seat self.new }
        ensures idle { HoldsNothing pass.new.seat }
        ensures rest { (pass.new.entries ≡ pass.old.entries) × (splits_of pass.new.seat ≡ splits_of pass.old.seat) }
    {
        for part in 0..turns.part_count() {
            self.give(turns, pass, part);
        }
    }

    /// Gives back the parts of a footprint, where they are held.
    pub fn give_parts(
        &mut self,
        turns: &Turns<Share<D, O>>,
        pass: &mut Pass<Share<D, O>>,
        footprint: &Footprint,
    )
        requires crew { IsCrew turns.now }
        requires work { IsAtWork turns.now pass.old.seat self.old }
        ensures work { IsAtWork turns.now pass.new.seat self.new }
        ensures given { (i : ℕ) → is_among i footprint.now ≡ true → at (knows pass.new.seat).held i ≡ None }
        ensures others { (i : ℕ) → at (knows pass.old.seat).held i ≡ None → at (knows pass.new.seat).held i ≡ None }
        ensures rest { (pass.new.entries ≡ pass.old.entries) × (splits_of pass.new.seat ≡ splits_of pass.old.seat) }
    {
        for i in 0..footprint.len() {
            self.give(turns, pass, footprint.part(i));
        }
    }

    /// Gives back what is held, all of which is in one footprint, but for the parts of another one.
    pub fn keep_parts(
        &mut self,
        turns: &Turns<Share<D, O>>,
        pass: &mut Pass<Share<D, O>>,
        held: &Footprint,
        footprint: &Footprint,
    )
        requires crew { IsCrew turns.now }
        requires work { IsAtWork turns.now pass.old.seat self.old }
        requires within { (i : ℕ) → is_among i held.now ≡ false → at (knows pass.old.seat).held i ≡ None }
        ensures work { IsAtWork turns.now pass.new.seat self.new }
        ensures kept { (i : ℕ) → is_among i footprint.now ≡ false → at (knows pass.new.seat).held i ≡ None }
        ensures others { (i : ℕ) → at (knows pass.old.seat).held i ≡ None → at (knows pass.new.seat).held i ≡ None }
        ensures rest { (pass.new.entries ≡ pass.old.entries) × (splits_of pass.new.seat ≡ splits_of pass.old.seat) }
    {
        for i in 0..held.len() {
            self.give_unless(turns, pass, held.part(i), footprint);
        }
    }

    /// Gives this part back, where it is held and is none of a footprint.
    fn give_unless(
        &mut self,
        turns: &Turns<Share<D, O>>,
        pass: &mut Pass<Share<D, O>>,
        part: usize,
        footprint: &Footprint,
    )
        requires crew { IsCrew turns.now }
        requires work { IsAtWork turns.now pass.old.seat self.old }
        ensures work { IsAtWork turns.now pass.new.seat self.new }
        ensures given { is_among part footprint.now ≡ false → at (knows pass.new.seat).held part ≡ None }
        ensures others { (i : ℕ) → at (knows pass.old.seat).held i ≡ None → at (knows pass.new.seat).held i ≡ None }
        ensures rest { (pass.new.entries ≡ pass.old.entries) × (splits_of pass.new.seat ≡ splits_of pass.old.seat) }
    {
        if footprint.has(part) {
            return;
        }
        self.give(turns, pass, part);
    }
}
