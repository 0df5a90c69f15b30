//! An actor that an ACT joined.
ghost use Rattle.std.specs.Prelude.{◌≡◌, ◌==◌, false};
ghost use Rattle.protocol.specs.BookParts.{not_voted};
ghost use Rattle.protocol.specs.OnBook.{mark_if, has_left};

use snap_base::ActorId;
use std::marker::Model;

/// An actor that an ACT has joined, and whether it has left it again. Contracts see the machine's `Joined`, with
/// nothing prepared and nothing vouched.
#[derive(Drop)]
pub struct Mark {
    actor: ActorId,
    finished: bool,
}

impl Model for Mark {
    ghost use Rattle.std.specs.Prelude.{false};
    ghost use Rattle.protocol.specs.Parts.{Joined};

    ghost Value = { Joined };

    ghost view = { λ m. record { actor = m.actor.0; prepared = false; vouched = false; finished = m.finished } };
}

impl Mark {
    pub(crate) fn new(actor: ActorId) -> Self
        ensures { result ≡ not_voted actor.0 }
    {
        Mark {
            actor,
            finished: false,
        }
    }

    /// The actor that the ACT joined.
    pub fn actor(&self) -> ActorId
        ensures { result.0 ≡ self.now.actor }
    {
        self.actor
    }

    /// Whether the ACT has left the actor. Of what is prepared and vouched there the votes know.
    pub fn is_finished(&self) -> bool
        ensures finished { result ≡ self.now.finished }
        ensures unprepared { self.now.prepared ≡ false }
        ensures unvouched { self.now.vouched ≡ false }
    {
        self.finished
    }

    /// The ACT leaves an actor: it is marked, if it is this one.
    pub(crate) fn leave(&mut self, actor: ActorId)
        ensures { self.new ≡ mark_if (self.old.actor == actor.0) has_left self.old }
    {
        if self.actor.0 == actor.0 {
            self.finished = true;
        }
    }
}
