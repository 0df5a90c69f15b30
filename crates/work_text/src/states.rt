//! The states of the actors.

ghost use Rattle.std.specs.Prelude.{◌≡◌, ℕ, ◌<◌, ◌≤◌, [], length, slice_set, IfOk, IsTrue};
ghost use Rattle.work_text.specs.Lines.{words, said};
ghost use Rattle.work_text.specs.Readings.{Is};
ghost use Rattle.work_text.specs.Actors.{state_with, states_in};
ghost use Rattle.work_text.specs.Reads.{first_is_actor};
ghost use Rattle.work_text.specs.Endings as spec;
ghost use Rattle.work_text.specs.Cursors.{ahead, IsShort};

use crate::actors::actor;
use crate::lines::next_said;
use crate::numbers::words_of;
use crate::texts::Cursor;
use snap_base::{FIELDS, State};
use snap_work::WorkNo;
use std::alloc::{AllocError, Global};

// As many states of zeros.
fn zero_states(alloc: Global, actors: u16) -> Result<Vec<State>, AllocError>
    ensures { IfOk result (λ v. v.items ≡ states_in [] 0 actors) }
{
    let mut states = Vec::new(alloc);
    while states.len() < actors as usize {
        states.push(State([0; FIELDS]))?;
    }
    Ok(states)
}

// The fields that are given, and 0 in the others.
fn state_of(values: &[i64]) -> State
    requires { length values.now ≤ FIELDS }
    ensures { result ≡ state_with values.now }
{
    let mut fields = [0; FIELDS];
    fields[..values.len()].copy_from_slice(values);
    State(fields)
}

// Gives an actor its state.
fn put_state(states: &mut Vec<State>, actor: u16, values: &[i64])
    requires within { actor < length states.old.items }
    requires few { length values.now ≤ FIELDS }
    ensures { states.new.items ≡ slice_set states.old.items actor (state_with values.now) }
{
    states[actor as usize] = state_of(values);
}

// Whether a line names an actor: its first word is `actor`.
fn is_actor(alloc: Global, line: &[u8]) -> Result<bool, AllocError>
    ensures { IfOk result (λ b. b ≡ first_is_actor (words line.now)) }
{
    let words = words_of(alloc, line)?;
    if words.is_empty() {
        return Ok(false);
    }
    Ok(words[0] == b"actor".as_slice())
}

/// The states of so many actors, by the first lines, which name some of them, and what lies behind these.
pub(crate) fn states<'a>(
    alloc: Global,
    actors: u16,
    cursor: Cursor<'a>,
) -> Result<(Vec<State>, Cursor<'a>), WorkNo>
    requires { IsShort cursor }
    ensures reads { Is (λ x. (x.0.items, said (ahead x.1))) result (spec.states actors (said (ahead cursor.entry))) }
    ensures short { IfOk result (λ x. IsShort x.1) }
{
    let mut states = zero_states(alloc, actors)?;
    let mut last = None;
    let mut at = cursor;
    while let Ok((line, behind)) = next_said(at) {
        if !is_actor(alloc, line.bytes)? {
            return Ok((states, at));
        }
        let (number, values) = actor(alloc, actors, last, line)?;
        put_state(&mut states, number, &values);
        last = Some(number);
        at = behind;
    }
    Ok((states, at))
}
