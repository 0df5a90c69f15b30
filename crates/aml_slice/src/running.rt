//! What is left of a transaction, and the moves from frame to frame.

ghost use Rattle.std.specs.Prelude.{◌≡◌, ◌+◌, ◌-◌, ◌<◌, ◌≤◌, ◌∷◌, [], length, MatchOption, MatchResult, IfOk, IsTrue, ◌↔◌, option_map, vec_capacity};
ghost use Rattle.aml_check.specs.Checked.{methods_of};
ghost use Rattle.aml_check.specs.Names.{method_at};
ghost use Rattle.aml_resume.specs.Places.{IsPlace};

use crate::allowances::{Allowance, actor_of};
use crate::frames::Frame;
use crate::saved::SavedFrames;
use aml_check::{Checked, MOST_OPEN_CALLS, MOST_STATEMENTS};
use aml_resume::{Exit, resume};
use aml_tree::{MOST_LEVELS, MOST_NAMES};
use aml_values::{Code, TOO_DEEP};
use snap_base::{State, Tid};
use std::mem;

/// What is left of a transaction.
#[derive(Drop)]
pub(crate) struct Running {
    pub(crate) tid: Tid,
    /// The frame that runs.
    pub(crate) top: Frame,
    /// The frames that wait for a value. With those that wait there is room for as many as calls may be open, or of a PACT
    /// for as many as calls are left of those that it declared, where these are fewer.
    pub(crate) waiting: SavedFrames,
    /// The values that a call passes on.
    pub(crate) arguments: Vec<i64>,
    /// The statements that were begun, at most `MOST_STATEMENTS`.
    pub(crate) statements: u16,
    pub(crate) allowance: Allowance,
}

impl Running {
    ghost use Rattle.aml_resume.specs.Pausing.{method_pause, pause_of};
    ghost use Rattle.aml_slice.specs.Controls.{StandsOn, most_waiting};
    ghost use Rattle.aml_slice.specs.Views.{rest_of, Enters, HasPlace, HasRooms, IsEnough, NewFrame, NextFrame, RefusesCall};

    /// Runs the frame on its actor's state up to its next call, or to its end.
    pub(crate) fn run(&mut self, program: &Checked, state: &mut State) -> Result<Exit, Code>
        requires method { self.old.top.method < length (methods_of program.now) }
        requires place { IsPlace (methods_of program.now) (length self.old.top.activation.variables.items) (method_at (methods_of program.now) self.old.top.method).body (rest_of self.old).top.standing.path self.old.top.activation.next }
        requires count { self.old.statements ≤ MOST_STATEMENTS }
        requires rooms { HasRooms self.old }
        ensures runs { pause_of result (rest_of self.new).top.standing self.new.arguments.items state.new (rest_of self.new).statements ≡ method_pause (rest_of self.old).top.actor (method_at (methods_of program.now) (rest_of self.old).top.method).body (rest_of self.old).top.standing state.old (rest_of self.old).statements }
        ensures others { rest_of self.new ≡ record (rest_of self.old) { top = record (rest_of self.old).top { standing = (rest_of self.new).top.standing }; statements = (rest_of self.new).statements } }
        ensures rooms { HasRooms self.new }
    {
        let top = &mut self.top;
        resume(
            program,
            top.method,
            top.actor as usize,
            &mut top.activation,
            &mut self.arguments,
            state,
            &mut self.statements,
        )
    }

    /// Calls a method on the actor that a value is the number of, of so many actors, with the arguments
    /// that are passed. A call that is refused is told by its code, and no frame is opened for it.
    pub(crate) fn call(&mut self, actors: u16, target: i64, method: u16) -> Result<u16, Code>
        requires rooms { HasRooms self.old }
        requires small { (length self.old.top.activation.variables.items ≤ MOST_NAMES) × (length self.old.top.activation.path.items ≤ MOST_LEVELS) }
        ensures called { MatchResult result (λ a. Enters actors (rest_of self.old) (rest_of self.new) target method self.old.arguments.items a) (λ code. RefusesCall actors (rest_of self.old) target code) }
        ensures rooms { IfOk result (λ _. HasRooms self.new) }
    {
        let actor = actor_of(actors, target)?;
        if self.waiting.len() + 1 >= MOST_OPEN_CALLS {
            return Err(TOO_DEEP);
        }
        self.allowance.admit(actor)?;
        self.enter(actor, method);
        Ok(actor)
    }

    /// The frame that runs has ended with a value, which the innermost of those that wait takes. The
    /// actor of that one, or `None` where none waits.
    pub(crate) fn give(&mut self, value: i64) -> Option<u16>
        requires rooms { HasRooms self.old }
        requires places { HasPlace (rest_of self.old).waiting }
        ensures given { MatchOption result ((rest_of self.old).waiting ≡ []) (λ a. NextFrame (rest_of self.old) (rest_of self.new) value a) }
        ensures rooms { MatchOption result (0 ≤ 0) (λ _. HasRooms self.new) }
    {
        self.waiting.restore(&mut self.top)?;
        self.top.activation.variables.push_reserved(value);
        Some(self.top.actor)
    }

    /// The frame that runs waits, and one for a method on an actor runs with the arguments that are passed.
    pub(crate) fn enter(&mut self, actor: u16, method: u16)
        requires rooms { HasRooms self.old }
        requires few { length self.old.waiting.frames.items < most_waiting }
        requires spare { length self.old.waiting.frames.items < vec_capacity self.old.waiting.frames }
        requires enough { IsEnough (length self.old.waiting.frames.items + 1) (vec_capacity self.old.waiting.frames - length self.old.waiting.frames.items - 1) (option_map (λ us. us.items) self.old.allowance.left) }
        requires small { (length self.old.top.activation.variables.items ≤ MOST_NAMES) × (length self.old.top.activation.path.items ≤ MOST_LEVELS) }
        ensures entered { NewFrame (rest_of self.old) (rest_of self.new) actor method self.old.arguments.items }
        ensures rooms { HasRooms self.new }
    {
        self.waiting.save(&mut self.top);
        self.top.actor = actor;
        self.top.method = method;
        self.top.activation.next = 0;
        mem::swap(&mut self.top.activation.variables, &mut self.arguments);
    }

    /// Whether a frame stands on the actor.
    pub(crate) fn stands_on(&self, actor: u16) -> bool
        ensures { IsTrue result ↔ StandsOn ((rest_of self.now).top ∷ (rest_of self.now).waiting) actor }
    {
        self.top.actor == actor || self.waiting.stands_on(actor)
    }
}
