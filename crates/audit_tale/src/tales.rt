//! What is kept of the events so far: of a batch, of an ACT, of who has its place.
ghost use Rattle.std.specs.Prelude.{◌≡◌, ◌≤◌, length, IfOk};
ghost use Rattle.protocol.specs.Fixed.{Text};
ghost use Rattle.audit_words.specs.Seen.{nothing_seen};
ghost use Rattle.audit_tale.specs.Knows.{Knows};
ghost use Rattle.audit_tale.specs.Settings.{IsOpening};

use protocol::Formed;
use snap_base::{ActorId, Bid, Memory, Place, Tid, TxNo, Who};
use std::alloc::Global;
use token_ring::Ring;

/// A batch: what it was formed of, whether it has a Commit event, and whether it has a Settle event.
#[derive(Drop)]
pub struct BatchTale {
    pub formed: Formed,
    pub committed: bool,
    pub settled: bool,
}

/// Why an ACT is given up.
#[derive(Clone, Copy)]
pub enum Reason {
    /// On this actor an older ACT was in its way.
    Older(ActorId, Tid),
    /// At an event on this actor the greatest batch before it was not below the least behind it.
    Crossed(Bid, Bid, ActorId),
    /// The cascade of this batch took it along.
    Taken(Bid),
}

/// An ACT: its transaction, and whether that only reads; the greatest batch before it, and while it is live the least behind
/// it; why it was given up first; whether it has a Decide event.
#[derive(Clone, Copy)]
pub struct ActTale {
    pub tid: Tid,
    pub tx: TxNo,
    pub reader: bool,
    pub before: Bid,
    pub behind: Option<Bid>,
    pub given_up: Option<Reason>,
    pub decided: bool,
}

/// Who drew a tid: a PACT of this batch, or the ACT at this place, from 0 on.
#[derive(Clone, Copy)]
pub enum Owner {
    Pact(Bid),
    Act(usize),
}

/// A transaction that has its place.
#[derive(Clone, Copy)]
pub struct MemberTale {
    pub who: Who,
    pub tid: Tid,
    pub tx: TxNo,
    pub place: Place,
    pub reader: bool,
}

/// What the events so far tell. Batches stand by their numbers, from 1 on, ACTs in the order in which they began, owners by
/// tid, from 1 on, and members in the order in which they got their places.
#[derive(Drop)]
pub struct Tale {
    pub ring: Ring,
    pub batches: Vec<BatchTale>,
    pub acts: Vec<ActTale>,
    pub owners: Vec<Owner>,
    pub members: Vec<MemberTale>,
    /// How many batches settled.
    pub settled: u64,
    /// The number that the next Decide draws.
    pub next_c: u64,
}

impl Tale {
    /// Before the first event of a run on empty logs, of so many coordinators and actors. `coordinators` is at least 1.
    /// `Memory` where the ring cannot be allocated.
    pub(crate) fn new(alloc: Global, coordinators: u8, actors: u16) -> Result<Tale, Memory>
        requires { 1 ≤ coordinators }
        ensures { IfOk result (λ t. (w : Text) → IsOpening coordinators actors w → Knows w t (nothing_seen w)) }
    {
        Ok(Tale {
            ring: Ring::new(alloc, coordinators, actors, Tid(1), Bid(1))?,
            batches: Vec::new(alloc),
            acts: Vec::new(alloc),
            owners: Vec::new(alloc),
            members: Vec::new(alloc),
            settled: 0,
            next_c: 1,
        })
    }
}
