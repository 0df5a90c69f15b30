//! What is left of a transaction, and what may be asked of it.

use crate::running::Running;
use aml_check::MOST_CALLS;
use snap_base::{ActorId, Tid};
use std::marker::Model;

/// What is left of a transaction, with all the memory that it will need. Contracts see it as the rest of
/// its transaction: the calls that are open and what of its limits is left.
pub struct Control {
    running: Box<Running>,
}

// Written out, so that a crate above calls it and does not repeat it.
impl Drop for Control {
    fn drop(self) {
        let Control { running: _running } = self;
    }
}

impl Model for Control {
    ghost use Rattle.aml_slice.specs.Controls.{Rest};

    ghost Value = { Rest };

    ghost use Rattle.aml_slice.specs.Views.{rest_of, HasRooms};

    ghost view = { λ c. rest_of c.running.value };

    ghost invariant = { λ c. HasRooms c.running.value };
}

impl Control {
    ghost use Rattle.std.specs.Prelude.{◌≡◌, ◌≤◌, ◌↔◌, IsTrue, Contains};
    ghost use Rattle.aml_slice.specs.Controls.{RestsOn, moves_left};
    ghost use Rattle.aml_slice.specs.Views.{rest_of, HasRooms};

    pub(crate) fn of(running: Box<Running>) -> Self
        requires { HasRooms running.value }
        ensures { result ≡ rest_of running.value }
    {
        Control { running }
    }

    pub(crate) fn into_running(self) -> Box<Running>
        ensures rest { rest_of result.value ≡ self }
        ensures rooms { HasRooms result.value }
    {
        let Control { running } = self;
        running
    }

    /// The actor on which the transaction stands.
    pub fn at(&self) -> ActorId
        ensures { result.0 ≡ self.now.top.actor }
    {
        ActorId(self.running.top.actor)
    }

    /// The identifier that the transaction was started with.
    pub fn tid(&self) -> Tid
        ensures { result ≡ self.now.tid }
    {
        self.running.tid
    }

    /// Whether a frame stands on the actor, or declared calls of it are left.
    pub fn rests_on(&self, actor: ActorId) -> bool
        ensures { IsTrue result ↔ RestsOn self.now actor.0 }
    {
        self.running.stands_on(actor.0) || self.running.allowance.has_left(actor.0)
    }

    /// Whether a frame has stood on the actor so far.
    pub fn has_visited(&self, actor: ActorId) -> bool
        ensures { IsTrue result ↔ Contains self.now.actors actor.0 }
    {
        self.running.allowance.has_called(actor.0)
    }

    /// Twice the calls that are left, and the frames that wait: 126 at first, and less after each slice.
    pub fn moves_left(&self) -> u32
        ensures { result ≡ moves_left self.now }
    {
        2 * (MOST_CALLS - self.running.allowance.calls) as u32 + self.running.waiting.len() as u32
    }
}
