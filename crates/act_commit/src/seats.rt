//! An actor that an ACT joined, with what is noted there.
ghost use Rattle.std.specs.Prelude.{◌≡◌, not, ◌&&◌, ◌==◌, map, find, option_copied, IfOk};
ghost use Rattle.std.specs.List.{list_all};
ghost use Rattle.protocol.specs.BookParts.{not_voted};
ghost use Rattle.protocol.specs.OnBook.{mark_if};
ghost use Rattle.act_commit.specs.Changes.{marking_of};
ghost use Rattle.act_commit.specs.Words.{actor_numbers};

use snap_base::{ActorId, Memory};
use std::alloc::Global;
use std::marker::Model;

/// What is noted of an ACT on one of its actors.
#[derive(Clone, Copy)]
pub(crate) enum Mark {
    /// Its state's record is added.
    Prepared,
    /// That record is durable.
    Vouched,
}

/// An actor that an ACT joined, with what is noted there.
#[derive(Drop)]
pub(crate) struct Seat {
    actor: ActorId,
    prepared: bool,
    vouched: bool,
}

impl Model for Seat {
    ghost use Rattle.std.specs.Prelude.{false};
    ghost use Rattle.protocol.specs.Parts.{Joined};

    ghost Value = { Joined };

    ghost view = { λ s. record { actor = s.actor.0; prepared = s.prepared; vouched = s.vouched; finished = false } };
}

impl Seat {
    fn new(actor: ActorId) -> Seat
        ensures { result ≡ not_voted actor.0 }
    {
        Seat {
            actor,
            prepared: false,
            vouched: false,
        }
    }

    /// The actor that the ACT joined.
    pub fn actor(&self) -> ActorId
        ensures { result.0 ≡ self.now.actor }
    {
        self.actor
    }

    fn is_of(&self, actor: ActorId) -> bool
        ensures { result ≡ (self.now.actor == actor.0) }
    {
        self.actor == actor
    }

    /// Whether the record of the ACT's state on the actor was added to a log.
    pub fn is_prepared(&self) -> bool
        ensures { result ≡ self.now.prepared }
    {
        self.prepared
    }

    /// Whether that record is known to be durable.
    pub fn is_vouched(&self) -> bool
        ensures { result ≡ self.now.vouched }
    {
        self.vouched
    }

    /// Whether the record of the ACT's state on the actor was not added.
    pub fn is_unprepared(&self) -> bool
        ensures { result ≡ not self.now.prepared }
    {
        !self.prepared
    }

    /// Whether it is prepared and not vouched.
    pub fn is_unvouched(&self) -> bool
        ensures { result ≡ (self.now.prepared && not self.now.vouched) }
    {
        self.prepared && !self.vouched
    }

    /// Notes it, if this is the actor.
    fn note(&mut self, mark: Mark, actor: ActorId)
        ensures { self.new ≡ mark_if (self.old.actor == actor.0) (marking_of mark) self.old }
    {
        if self.actor == actor {
            match mark {
                Mark::Prepared => self.prepared = true,
                Mark::Vouched => self.vouched = true,
            }
        }
    }
}

/// Seats on the actors, with nothing noted.
pub(crate) fn seats_on(alloc: Global, actors: &[ActorId]) -> Result<Vec<Seat>, Memory>
    ensures { IfOk result (λ seats. seats.items ≡ map not_voted (actor_numbers actors.now)) }
{
    let mut seats = Vec::with_capacity(alloc, actors.len())?;
    for actor in actors {
        seats.push(Seat::new(*actor))?;
    }
    Ok(seats)
}

/// Notes it on the actor.
pub(crate) fn note_on(seats: &mut [Seat], mark: Mark, actor: ActorId)
    ensures { seats.new ≡ map (λ p. mark_if (p.actor == actor.0) (marking_of mark) p) seats.old }
{
    for seat in seats.iter_mut() {
        seat.note(mark, actor);
    }
}

/// The seat on an actor.
pub(crate) fn seat_on(seats: &[Seat], actor: ActorId) -> Option<&Seat>
    ensures { option_copied result ≡ find (λ p. p.actor == actor.0) seats.now }
{
    for seat in seats {
        if seat.is_of(actor) {
            return Some(seat);
        }
    }
    None
}

pub(crate) fn are_vouched(seats: &[Seat]) -> bool
    ensures { result ≡ list_all (λ p. p.vouched) seats.now }
{
    for seat in seats {
        if !seat.is_vouched() {
            return false;
        }
    }
    true
}
