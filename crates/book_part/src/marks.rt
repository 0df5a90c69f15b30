//! The actors that an ACT has joined.
ghost use Rattle.std.specs.Prelude.{◌≡◌, ◌==◌, find, is_some, length, IfOk};
ghost use Rattle.protocol_laws.specs.OneWay.{actors_of};
ghost use Rattle.act_commit.specs.Words.{actor_numbers};

use order_book::Mark;
use snap_base::{ActorId, Memory};
use std::alloc::Global;

pub(crate) fn has_joined(marks: &[Mark], a: ActorId) -> bool
    ensures { result ≡ is_some (find (λ p. p.actor == a.0) marks.now) }
{
    for mark in marks {
        if mark.actor().0 == a.0 {
            return true;
        }
    }
    false
}

/// In the order in which it joined them.
pub(crate) fn joined_actors(alloc: Global, marks: &[Mark]) -> Result<Vec<ActorId>, Memory>
    ensures { IfOk result (λ actors. actor_numbers actors.items ≡ actors_of marks.now) }
{
    let mut actors = Vec::with_capacity(alloc, marks.len())?;
    for mark in marks {
        actors.push(mark.actor())?;
    }
    Ok(actors)
}
