//! What a transaction may still call.

ghost use Rattle.std.specs.Prelude.{◌≡◌, ◌<◌, ◌==◌, ◌≤◌, ◌+◌, ◌∷◌, ◌++◌, ℕ, [], List, Some, vec_capacity, IfOk, IsTrue, ◌↔◌, option_map, Contains};
ghost use Rattle.std.specs.List.{list_any};
ghost use Rattle.snap_base.specs.declared.transactions.State.{State};
ghost use Rattle.aml_slice.specs.Controls.{IsCallLeft, HasLeft, most_waiting};
ghost use Rattle.aml_slice.specs.Views.{IsEnough};
ghost use Rattle.aml_check.specs.Meaning.{actor_of, one_call, with_actor, declared, admitted};

use aml_check::{MOST_CALLED_ACTORS, MOST_CALLS, MOST_OPEN_CALLS};
use aml_values::{Code, NO_ACTOR, TOO_MANY_ACTORS, TOO_MANY_CALLS, UNDECLARED, one_less};
use snap_base::ActorId;

/// The calls of a transaction so far, and those that it may still make.
#[derive(Drop)]
pub(crate) struct Allowance {
    /// The calls, the root's among them, at most `MOST_CALLS`.
    pub(crate) calls: u8,
    /// The actors that were called, in the order of their first calls, at most `MOST_CALLED_ACTORS`.
    pub(crate) actors: Vec<u16>,
    /// Of a PACT the calls that it declared and has left.
    pub(crate) left: Option<Vec<(ActorId, u8)>>,
}

/// The actor that a value is the number of, of so many.
pub(crate) fn actor_of(actors: u16, target: i64) -> Result<u16, Code>
    ensures actor { result ≡ actor_of actors target }
    ensures within { IfOk result (λ a. a < actors) }
{
    if target < 0 || target >= actors as i64 {
        return Err(NO_ACTOR);
    }
    Ok(target as u16)
}

fn is_called(actors: &[u16], actor: u16) -> bool
    ensures { result ≡ list_any (λ b. b == actor) actors.now }
{
    actors.iter().any(|other| *other == actor)
}

/// Whether a call of the actor is left.
fn is_left(uses: &[(ActorId, u8)], actor: u16) -> bool
    ensures { IsTrue result ↔ IsCallLeft uses.now actor }
{
    for one in uses {
        if one.0.0 == actor && one.1 > 0 {
            return true;
        }
    }
    false
}

/// The frames that so many calls may open at a time: as many as may wait, or these calls, where they are fewer.
fn frames_of_calls(uses: &[(ActorId, u8)]) -> usize
    ensures enough { IsEnough 0 result (Some uses.now) }
    ensures few { result ≤ most_waiting }
{
    let mut calls = 0;
    for one in uses {
        calls += one.1 as usize;
        if calls >= MOST_OPEN_CALLS - 1 {
            return MOST_OPEN_CALLS - 1;
        }
    }
    calls
}

impl Allowance {
    ghost use Rattle.aml_slice.specs.Views.{Moves, progress_with};

    fn one_call(&mut self) -> Result<(), Code>
        requires { self.old.calls ≤ MOST_CALLS }
        ensures moves { (n : ℕ) (w : List State) → Moves (one_call (progress_with self.old n w)) (progress_with self.new n w) result }
        ensures few { self.new.calls ≤ MOST_CALLS }
        ensures room { vec_capacity self.new.actors ≡ vec_capacity self.old.actors }
    {
        if self.calls < MOST_CALLS {
            self.calls += 1;
            Ok(())
        } else {
            Err(TOO_MANY_CALLS)
        }
    }

    fn with_actor(&mut self, actor: u16) -> Result<(), Code>
        requires { MOST_CALLED_ACTORS ≤ vec_capacity self.old.actors }
        ensures moves { (n : ℕ) (w : List State) → Moves (with_actor actor (progress_with self.old n w)) (progress_with self.new n w) result }
        ensures same { self.new.calls ≡ self.old.calls }
        ensures room { vec_capacity self.new.actors ≡ vec_capacity self.old.actors }
    {
        if is_called(&self.actors, actor) {
            return Ok(());
        }
        if self.actors.len() < MOST_CALLED_ACTORS {
            self.actors.push_reserved(actor);
            Ok(())
        } else {
            Err(TOO_MANY_ACTORS)
        }
    }

    fn declared(&mut self, actor: u16) -> Result<(), Code>
        ensures moves { (n : ℕ) (w : List State) → Moves (declared actor (progress_with self.old n w)) (progress_with self.new n w) result }
        ensures same { self.new.calls ≡ self.old.calls }
        ensures room { vec_capacity self.new.actors ≡ vec_capacity self.old.actors }
    {
        match &mut self.left {
            None => Ok(()),
            Some(uses) => {
                if one_less(uses, actor as usize) {
                    Ok(())
                } else {
                    Err(UNDECLARED)
                }
            }
        }
    }

    /// Takes one of the calls, one of the actors, and of a PACT one call that it declared; a refusal
    /// tells the code of the first that is not there.
    pub(crate) fn admit(&mut self, actor: u16) -> Result<(), Code>
        requires room { MOST_CALLED_ACTORS ≤ vec_capacity self.old.actors }
        requires few { self.old.calls ≤ MOST_CALLS }
        ensures moves { (n : ℕ) (w : List State) → Moves (admitted actor (progress_with self.old n w)) (progress_with self.new n w) result }
        ensures few { self.new.calls ≤ MOST_CALLS }
        ensures room { vec_capacity self.new.actors ≡ vec_capacity self.old.actors }
    {
        self.one_call()?;
        self.with_actor(actor)?;
        self.declared(actor)?;
        Ok(())
    }

    /// Whether a call of the actor is left of those that were declared.
    pub(crate) fn has_left(&self, actor: u16) -> bool
        ensures { IsTrue result ↔ HasLeft (option_map (λ us. us.items) self.now.left) actor }
    {
        match &self.left {
            None => false,
            Some(uses) => is_left(uses, actor),
        }
    }

    /// Whether the actor was called.
    pub(crate) fn has_called(&self, actor: u16) -> bool
        ensures { IsTrue result ↔ Contains self.now.actors.items actor }
    {
        is_called(&self.actors, actor)
    }

    /// The frames beside the one that runs that there may be at a time, where none waits: of a PACT no more than the calls
    /// that it has left of those that it declared.
    pub(crate) fn frames_to_come(&self) -> usize
        ensures enough { IsEnough 0 result (option_map (λ us. us.items) self.now.left) }
        ensures few { result ≤ most_waiting }
    {
        match &self.left {
            None => MOST_OPEN_CALLS - 1,
            Some(uses) => frames_of_calls(uses),
        }
    }
}
