//! What is kept of the events so far: of each actor, of the way of each batch, of who gains from whom.
ghost use Rattle.std.specs.Prelude.{◌≡◌, ◌≤◌, length, IfOk};
ghost use Rattle.std.specs.List.{AllByRecursion};
ghost use Rattle.protocol.specs.Fixed.{Text};
ghost use Rattle.audit_words.specs.Seen.{nothing_seen};
ghost use Rattle.audit_tale.specs.Settings.{IsOpening};
ghost use Rattle.audit_tale.specs.Stands.{IsUntouched, KnowsAll};

use crate::tales::Tale;
use snap_base::{ActorId, Bid, Memory, Tid, Who};
use std::alloc::Global;

/// An actor: who stands there and who was ever placed there, in that order, and whose Run events were there.
#[derive(Drop)]
pub struct ActorTale {
    pub entries: Vec<Who>,
    pub placed: Vec<Who>,
    pub ran: Vec<Tid>,
    /// The batches that were placed there and not rolled back.
    pub kept: Vec<Bid>,
    /// The greatest of these; 0 of none.
    pub last: Bid,
    /// The greatest batch before any ACT that left the actor sealed; 0 of none.
    pub floor: Bid,
    /// The greatest batch before any such ACT that doesn't only read; 0 of none.
    pub write_floor: Bid,
}

/// A cascade: the last batch that was formed when it began, and the number that the next Decide would have drawn.
#[derive(Clone, Copy)]
pub struct Fall {
    pub upto: Bid,
    pub at: u64,
}

/// A batch: the actors on which it was placed, whether a cascade took it along, and the cascade that began with it.
#[derive(Drop)]
pub struct BatchWay {
    pub came: Vec<ActorId>,
    pub is_cut: bool,
    pub fall: Option<Fall>,
}

/// An ACT that stands behind another one on an actor, and gains what that one gains.
#[derive(Clone, Copy)]
pub struct Waiter {
    pub tid: Tid,
    pub actor: ActorId,
}

/// An ACT: who gains what it gains, and the actors that it left sealed.
#[derive(Drop)]
pub struct ActTies {
    pub waiters: Vec<Waiter>,
    pub left: Vec<ActorId>,
}

/// What the events so far tell. The ways of batches stand by their numbers, from 1 on, the ties of ACTs in the order in which
/// these began.
#[derive(Drop)]
pub struct Told {
    pub tale: Tale,
    pub actors: Vec<ActorTale>,
    pub ways: Vec<BatchWay>,
    pub ties: Vec<ActTies>,
    /// The batches that no cascade took along, ascending.
    pub uncut: Vec<Bid>,
    /// Where ACTs are kept, ascending: each live one is among them.
    pub going: Vec<usize>,
}

impl Told {
    /// Before the first event of a run on empty logs, of so many coordinators and actors. `coordinators` is at least 1.
    /// `Memory` where the ring or the list of actors cannot be allocated.
    pub(crate) fn new(alloc: Global, coordinators: u8, actors: u16) -> Result<Told, Memory>
        requires { 1 ≤ coordinators }
        ensures { IfOk result (λ t. (w : Text) → IsOpening coordinators actors w → KnowsAll w t (nothing_seen w)) }
    {
        Ok(Told {
            tale: Tale::new(alloc, coordinators, actors)?,
            actors: untouched(alloc, actors)?,
            ways: Vec::new(alloc),
            ties: Vec::new(alloc),
            uncut: Vec::new(alloc),
            going: Vec::new(alloc),
        })
    }
}

/// So many actors on which nobody was placed.
fn untouched(alloc: Global, count: u16) -> Result<Vec<ActorTale>, Memory>
    ensures { IfOk result (λ v. (length v.items ≡ count) × AllByRecursion IsUntouched v.items) }
{
    let mut actors = Vec::new(alloc);
    for _made in 0..count {
        actors.push(empty_actor(alloc))?;
    }
    Ok(actors)
}

/// An actor on which nobody was placed. It takes no memory.
fn empty_actor(alloc: Global) -> ActorTale
    ensures { IsUntouched result }
{
    ActorTale {
        entries: Vec::new(alloc),
        placed: Vec::new(alloc),
        ran: Vec::new(alloc),
        kept: Vec::new(alloc),
        last: Bid(0),
        floor: Bid(0),
        write_floor: Bid(0),
    }
}
