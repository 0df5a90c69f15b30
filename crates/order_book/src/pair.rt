//! Pairs: an ACT behind another one on an actor.
ghost use Rattle.std.specs.Prelude.{◌≡◌, ◌==◌, ◌&&◌};
ghost use Rattle.order_book.specs.Walking.{is_behind};

use snap_base::{ActorId, Tid};
use std::marker::Model;

/// An ACT that stands behind another one on an actor. Contracts see the machine's `Pair`.
#[derive(Drop)]
pub(crate) struct Pair {
    behind: Tid,
    ahead: Tid,
    actor: ActorId,
}

impl Model for Pair {
    ghost use Rattle.protocol.specs.Parts as machine;

    ghost Value = { machine.Pair };

    ghost view = { λ p. record { behind = p.behind.0; ahead = p.ahead.0; actor = p.actor.0 } };
}

impl Pair {
    pub(crate) fn new(behind: Tid, ahead: Tid, actor: ActorId) -> Self
        ensures { result ≡ record { behind = behind.0; ahead = ahead.0; actor = actor.0 } }
    {
        Pair {
            behind,
            ahead,
            actor,
        }
    }

    pub(crate) fn behind(&self) -> Tid
        ensures { result.0 ≡ self.now.behind }
    {
        self.behind
    }

    pub(crate) fn ahead(&self) -> Tid
        ensures { result.0 ≡ self.now.ahead }
    {
        self.ahead
    }

    /// Whether it ends when ACT `t` leaves the actor.
    pub(crate) fn is_ended(&self, t: Tid, actor: ActorId) -> bool
        ensures { result ≡ ((self.now.ahead == t.0) && (self.now.actor == actor.0)) }
    {
        self.ahead.0 == t.0 && self.actor.0 == actor.0
    }
}

/// Whether the ACT stands behind another one in some pair.
pub(crate) fn is_behind(pairs: &[Pair], t: Tid) -> bool
    ensures { result ≡ is_behind pairs.now t.0 }
{
    for pair in pairs {
        if pair.behind().0 == t.0 {
            return true;
        }
    }
    false
}
