//! The value that is what a worker holds, and how a part is laid into it and taken out.
ghost use Rattle.std.specs.Prelude.{◌≡◌, ◌+◌, ◌<◌, None, Some, Option, List, IfOk, is_some, length, replicate, slice_set};
ghost use Rattle.crew_grip.specs.Grips.{IsGripOf, part_count, share_at};
ghost use Rattle.crew_parts.specs.Shares.{ShareState};
ghost use Rattle.snap_hand.specs.Shown.{Belongs, part_at, with_part, without};
ghost use Rattle.snap_hand.specs.Tables.{AreTables, fixed_of};
ghost use Rattle.turn_table.specs.Places.{IsIdle, at};

use core_events::first_cell;
use crew_parts::{Beside, Share};
use snap_base::Memory;
use snap_hand::{Hand, Tables};
use snap_outside::{LogDev, Sink};
use std::alloc::Global;
use std::marker::Model;

/// What a worker holds of the shared parts: those whose turns it has, in a hand, and by the same numbers what stands beside
/// each. Contracts see for each whether it is there and what it shows.
#[derive(Drop)]
pub struct Grip<D: LogDev, O: Sink> {
    pub(crate) hand: Hand,
    pub(crate) besides: Vec<Option<Beside<D, O>>>,
}

impl<D: LogDev, O: Sink> Model for Grip<D, O> {
    ghost use Rattle.crew_grip.specs.Grips.{GripState};

    ghost Value = { GripState };

    ghost view = { λ g. record { hand = g.hand; besides = g.besides.items } };
}

/// How many parts the text has.
fn parts_of(tables: &Tables) -> usize
    requires { AreTables tables.now }
    ensures { result ≡ part_count (fixed_of tables.now) }
{
    first_cell(tables.work.logs) + tables.opening.states.len()
}

/// So many places, with nothing in them.
fn empty_places<T: Drop>(alloc: Global, count: usize) -> Result<Vec<Option<T>>, Memory>
    ensures { IfOk result (λ v. v.items ≡ replicate count None) }
{
    let mut places = Vec::with_capacity(alloc, count)?;
    for _made in 0..count {
        places.push(None)?;
    }
    Ok(places)
}

impl<D: LogDev + Drop, O: Sink + Drop> Grip<D, O> {
    /// A grip with places for all parts of a text, that holds none. `Memory` where there is none for the places.
    pub fn new(alloc: Global, tables: &Tables) -> Result<Self, Memory>
        requires { AreTables tables.now }
        ensures { IfOk result (λ g. (held : List (Option ShareState)) → IsIdle held → IsGripOf (fixed_of tables.now) held g) }
    {
        let besides = empty_places(alloc, parts_of(tables))?;
        let hand = Hand::new(alloc, tables)?;
        Ok(Grip { hand, besides })
    }

    /// The parts that are held.
    pub fn hand(&self) -> &Hand
        ensures { result.now ≡ self.now.hand }
    {
        &self.hand
    }

    /// Whether the part of this number is held. False where the text has no such part.
    pub fn holds(&self, part: usize) -> bool
        ensures { result ≡ is_some (at self.now.besides part) }
    {
        match self.besides.get(part) {
            Some(beside) => beside.is_some(),
            None => false,
        }
    }

    /// Lays down what stands beside a part.
    pub(crate) fn lay(&mut self, part: usize, beside: Beside<D, O>)
        requires { part < length self.old.besides }
        ensures { self.new ≡ record self.old { besides = slice_set self.old.besides part (Some beside) } }
    {
        self.besides[part] = Some(beside);
    }

    /// Takes up what stands beside a part.
    pub(crate) fn take_up(&mut self, part: usize) -> Option<Beside<D, O>>
        requires { part < length self.old.besides }
        ensures taken { result ≡ at self.old.besides part }
        ensures left { self.new ≡ record self.old { besides = slice_set self.old.besides part None } }
    {
        self.besides[part].take()
    }

    /// Puts a part in its place, which is empty, with what stands beside it.
    pub(crate) fn put_share(&mut self, part: usize, share: Share<D, O>)
        requires kind { Belongs self.old.hand part share.part }
        requires free { part_at self.old.hand part ≡ None }
        requires within { part < length self.old.besides }
        ensures { self.new ≡ record self.old { hand = with_part part share.part self.old.hand; besides = slice_set self.old.besides part (Some share.beside) } }
    {
        let (one, beside) = share.open();
        self.hand.put(part, one);
        self.lay(part, beside);
    }

    /// Takes out a part, which is there, with what stands beside it.
    pub(crate) fn take_share(&mut self, part: usize) -> Share<D, O>
        requires there { (x : ShareState) × (share_at self.old part ≡ Some x) }
        requires within { part < length self.old.besides }
        ensures taken { share_at self.old part ≡ Some result }
        ensures left { self.new ≡ record self.old { hand = without part self.old.hand; besides = slice_set self.old.besides part None } }
    {
        let Some(one) = self.hand.take(part) else {
            unreachable!()
        };
        let Some(beside) = self.take_up(part) else {
            unreachable!()
        };
        Share::new(one, beside)
    }
}
