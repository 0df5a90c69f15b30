//! The actors that a batch declares, and the marks of the batch on them.
ghost use Rattle.std.specs.Prelude.{◌≡◌, ◌==◌, ◌+◌, ◌-◌, ◌^◌, min, not, map, find, option_copied, IfOk};
ghost use Rattle.std.specs.List.{list_all};
ghost use Rattle.protocol.specs.Meant.{actor_number};
ghost use Rattle.protocol.specs.Left.{declared_left, total};
ghost use Rattle.protocol.specs.Words.{holds};
ghost use Rattle.protocol.specs.OnDesk as desk;

use protocol::unless;
use snap_base::{ActorId, Memory};
use std::alloc::Global;
use std::marker::Model;

/// An actor that a batch declares, with the batch's marks on it.
#[derive(Drop)]
pub(crate) struct ActorEntry {
    actor: ActorId,
    noted: bool,
    trimmed: bool,
}

impl Model for ActorEntry {
    ghost use Rattle.protocol.specs.Parts.{Declared};

    ghost Value = { Declared };

    ghost view = { λ p. record { actor = p.actor.0; noted = p.noted; trimmed = p.trimmed } };
}

impl ActorEntry {
    /// The actor with no mark.
    pub fn new(actor: ActorId) -> Self
        ensures { result ≡ desk.new_declared actor.0 }
    {
        ActorEntry {
            actor,
            noted: false,
            trimmed: false,
        }
    }

    fn actor(&self) -> ActorId
        ensures { result.0 ≡ self.now.actor }
    {
        self.actor
    }

    fn is_of(&self, actor: ActorId) -> bool
        ensures { result ≡ (self.now.actor == actor.0) }
    {
        self.actor.0 == actor.0
    }

    fn is_noted(&self) -> bool
        ensures { result ≡ self.now.noted }
    {
        self.noted
    }

    fn is_trimmed(&self) -> bool
        ensures { result ≡ self.now.trimmed }
    {
        self.trimmed
    }

    /// How many events it may still bring: each mark that it lacks is one.
    fn left(&self) -> u64
        ensures { result ≡ declared_left self.now }
    {
        unless(self.noted, 1) + unless(self.trimmed, 1)
    }

    /// Sets the mark that the batch is complete there, if this is the actor.
    fn note_if(&mut self, actor: ActorId)
        ensures { self.new ≡ desk.mark_if (self.old.actor == actor.0) desk.is_noted self.old }
    {
        if self.actor.0 == actor.0 {
            self.noted = true;
        }
    }

    /// Sets the mark that the batch has left, if this is the actor.
    fn trim_if(&mut self, actor: ActorId)
        ensures { self.new ≡ desk.mark_if (self.old.actor == actor.0) desk.is_trimmed self.old }
    {
        if self.actor.0 == actor.0 {
            self.trimmed = true;
        }
    }
}

/// Marks the actor as noted.
pub(crate) fn note(actors: &mut [ActorEntry], actor: ActorId)
    ensures { actors.new ≡ map (λ p. desk.mark_if (p.actor == actor.0) desk.is_noted p) actors.old }
{
    for entry in actors.iter_mut() {
        entry.note_if(actor);
    }
}

/// Marks the actor as trimmed.
pub(crate) fn trim(actors: &mut [ActorEntry], actor: ActorId)
    ensures { actors.new ≡ map (λ p. desk.mark_if (p.actor == actor.0) desk.is_trimmed p) actors.old }
{
    for entry in actors.iter_mut() {
        entry.trim_if(actor);
    }
}

pub(crate) fn are_all_noted(actors: &[ActorEntry]) -> bool
    ensures { result ≡ list_all (λ p. p.noted) actors.now }
{
    actors.iter().all(|entry| entry.is_noted())
}

pub(crate) fn are_all_trimmed(actors: &[ActorEntry]) -> bool
    ensures { result ≡ list_all (λ p. p.trimmed) actors.now }
{
    actors.iter().all(|entry| entry.is_trimmed())
}

/// How many events they may still bring, and `u64::MAX` where more.
pub(crate) fn left_on(actors: &[ActorEntry]) -> u64
    ensures { result ≡ min (total declared_left actors.now) (2 ^ 64 - 1) }
{
    let mut left: u64 = 0;
    for entry in actors {
        left = left.saturating_add(entry.left());
    }
    left
}

fn entry_of(actors: &[ActorEntry], actor: ActorId) -> Option<&ActorEntry>
    ensures { option_copied result ≡ find (λ p. p.actor == actor.0) actors.now }
{
    actors.iter().find(|entry| entry.is_of(actor))
}

/// Whether the actor is there, and not noted.
pub(crate) fn lacks_note(actors: &[ActorEntry], actor: ActorId) -> bool
    ensures { result ≡ holds (λ p. not p.noted) (find (λ p. p.actor == actor.0) actors.now) }
{
    match entry_of(actors, actor) {
        Some(entry) => !entry.is_noted(),
        None => false,
    }
}

/// Whether the actor is there, and not trimmed.
pub(crate) fn lacks_trim(actors: &[ActorEntry], actor: ActorId) -> bool
    ensures { result ≡ holds (λ p. not p.trimmed) (find (λ p. p.actor == actor.0) actors.now) }
{
    match entry_of(actors, actor) {
        Some(entry) => !entry.is_trimmed(),
        None => false,
    }
}

/// The actors, in order.
pub(crate) fn ids(alloc: Global, actors: &[ActorEntry]) -> Result<Vec<ActorId>, Memory>
    ensures { IfOk result (λ ids. map actor_number ids.items ≡ map (λ p. p.actor) actors.now) }
{
    let mut ids = Vec::with_capacity(alloc, actors.len())?;
    for entry in actors {
        ids.push(entry.actor())?;
    }
    Ok(ids)
}
