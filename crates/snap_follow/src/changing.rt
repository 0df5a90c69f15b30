//! Who changes an actor: the committed ones whose record tells another state of it than the one of a committed one before it, or the first
//! one.
ghost use Rattle.std.specs.Prelude.{◌↔◌, IsTrue, IfOk, OnOk};
ghost use Rattle.snap_follow.specs.Passes.{HoldsOwn, IsHeld, IsInSet};

use crate::commits::{Commits, has};
use crate::comparing::is_same_state;
use snap_base::{Memory, State};
use std::collections::BTreeMap;
use txn_records::Key;

/// Whether the one with this commit changes the actor to this state: it is committed, and another state is held of the actor, which
/// began with that of `first`. From here on this one is held.
pub(crate) fn changes(
    states: &mut BTreeMap<u16, State>,
    first: &[State],
    there: &Commits,
    key: Key,
    actor: u16,
    state: &State,
) -> Result<bool, Memory>
    ensures changed { IfOk result (λ changed. IsTrue changed ↔ (IsInSet there.now key × ¬ IsHeld first.now states.old actor state.now)) }
    ensures states { OnOk result (HoldsOwn first.now there.now key actor state.now states.old states.new) }
{
    let is_there = has(there, key);
    if !is_there {
        return Ok(false);
    }
    let is_same = is_held(states, first, actor, state);
    if is_same {
        return Ok(false);
    }
    states.insert(actor, *state)?;
    Ok(true)
}

/// Whether this state is held of the actor.
fn is_held(states: &BTreeMap<u16, State>, first: &[State], actor: u16, state: &State) -> bool
    ensures { IsTrue result ↔ IsHeld first.now states.now actor state.now }
{
    if let Some(held) = states.get(&actor) {
        return is_same_state(held, state);
    }
    match first.get(actor as usize) {
        Some(begun) => is_same_state(begun, state),
        None => false,
    }
}
