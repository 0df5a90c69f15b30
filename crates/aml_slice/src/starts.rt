//! A control at the beginning of its transaction.

ghost use Rattle.std.specs.Prelude.{◌≡◌, ◌≤◌, ◌<◌, ◌+◌, ◌∷◌, ◌++◌, ℕ, [], List, Ok, length, IfOk, option_map, vec_capacity};
ghost use Rattle.aml_check.specs.Checked.{methods_of};
ghost use Rattle.aml_check.specs.Meaning.{admitted, beginning, declaration};
ghost use Rattle.aml_check.specs.Transactions.{IsTransaction};
ghost use Rattle.aml_resume.specs.Rooms.{HasRoom};
ghost use Rattle.aml_tree.specs.Tree.{CheckedMethod};
ghost use Rattle.snap_base.specs.declared.transactions.State.{State};
ghost use Rattle.aml_slice.specs.Controls.{fresh, progress_in};
ghost use Rattle.aml_slice.specs.Slicing.{started};
ghost use Rattle.aml_slice.specs.Views.{HasRooms, progress_with, rest_of};

use crate::allowances::Allowance;
use crate::controls::Control;
use crate::frames::Frame;
use crate::running::Running;
use crate::saved::SavedFrames;
use aml_check::{Checked, MOST_CALLED_ACTORS, MOST_CALLS};
use aml_resume::Activation;
use aml_tree::{MOST_LEVELS, MOST_NAMES};
use snap_base::{ActorId, Kind, Memory, Sequence, Tid, Tx};
use std::alloc::Global;

/// Room for one frame.
fn room(alloc: Global) -> Result<Activation, Memory>
    ensures { IfOk result (λ a. HasRoom a × (a.variables.items ≡ []) × (a.path.items ≡ []) × (a.next ≡ 0)) }
{
    Ok(Activation {
        variables: Vec::with_capacity(alloc, MOST_NAMES)?,
        path: Vec::with_capacity(alloc, MOST_LEVELS)?,
        next: 0,
    })
}

/// A method at its beginning, with its arguments.
fn at_beginning(alloc: Global, arguments: &[i64]) -> Result<Activation, Memory>
    requires { length arguments.now ≤ MOST_NAMES }
    ensures room { IfOk result (λ a. HasRoom a) }
    ensures first { IfOk result (λ a. (a.variables.items ≡ arguments.now) × (a.path.items ≡ []) × (a.next ≡ 0)) }
{
    let mut activation = room(alloc)?;
    for argument in arguments {
        activation.variables.push_reserved(*argument);
    }
    Ok(activation)
}

/// What a transaction may call before its root is called.
fn allowance(alloc: Global, kind: Kind, uses: &Sequence<(ActorId, u8)>) -> Result<Allowance, Memory>
    ensures none { IfOk result (λ a. (a.calls ≡ 0) × (a.actors.items ≡ []) × (MOST_CALLED_ACTORS ≤ vec_capacity a.actors)) }
    ensures left { IfOk result (λ a. option_map (λ us. us.items) a.left ≡ declaration kind uses.now) }
{
    let left = match kind {
        Kind::Pact => Some(Vec::from_slice(alloc, uses.as_slice())?),
        Kind::Act => None,
    };
    Ok(Allowance {
        calls: 0,
        actors: Vec::with_capacity(alloc, MOST_CALLED_ACTORS)?,
        left,
    })
}

/// What a transaction may call once its root is called. That call is never refused.
fn with_root(alloc: Global, tx: &Tx) -> Result<Allowance, Memory>
    requires { (p : List CheckedMethod) × (actors : ℕ) × IsTransaction p actors tx.now }
    ensures admitted { IfOk result (λ a. (w : List State) → admitted tx.now.actor.0 (beginning w tx.now) ≡ Ok (progress_with a 0 w)) }
    ensures room { IfOk result (λ a. (MOST_CALLED_ACTORS ≤ vec_capacity a.actors) × (a.calls ≤ MOST_CALLS)) }
{
    let mut allowance = allowance(alloc, tx.kind, &tx.uses)?;
    match allowance.admit(tx.actor.0) {
        Ok(()) => Ok(allowance),
        Err(_code) => unreachable!(),
    }
}

/// A transaction's root at its beginning.
fn root(alloc: Global, tid: Tid, tx: &Tx) -> Result<Box<Running>, Memory>
    requires transaction { (p : List CheckedMethod) × (actors : ℕ) × IsTransaction p actors tx.now }
    requires few { length tx.now.args ≤ MOST_NAMES }
    ensures admitted { IfOk result (λ r. (w : List State) → admitted tx.now.actor.0 (beginning w tx.now) ≡ Ok (progress_in (rest_of r.value) w)) }
    ensures frames { IfOk result (λ r. ((rest_of r.value).top ≡ fresh tx.now.actor.0 tx.now.method tx.now.args) × ((rest_of r.value).waiting ≡ []) × (r.value.tid ≡ tid)) }
    ensures rooms { IfOk result (λ r. HasRooms r.value) }
{
    let top = Frame {
        actor: tx.actor.0,
        method: tx.method,
        activation: at_beginning(alloc, tx.args.as_slice())?,
    };
    let allowance = with_root(alloc, tx)?;
    let frames = allowance.frames_to_come();
    let running = Running {
        tid,
        top,
        waiting: SavedFrames::with_room(alloc, frames)?,
        arguments: Vec::with_capacity(alloc, MOST_NAMES)?,
        statements: 0,
        allowance,
    };
    Ok(Box::new(alloc, running)?)
}

impl Control {
    /// A transaction at its beginning, with all the memory that it will need.
    pub fn start(alloc: Global, program: &Checked, tid: Tid, tx: &Tx) -> Result<Control, Memory>
        requires { (actors : ℕ) × IsTransaction (methods_of program.now) actors tx.now }
        ensures exactly { IfOk result (λ c. c ≡ started tid tx.now) }
    {
        has_parameters(program, tx);
        Ok(Control::of(root(alloc, tid, tx)?))
    }
}

/// What a checked program says of a method that it has: its parameters are few.
fn has_parameters(program: &Checked, _tx: &Tx)
    requires { (actors : ℕ) × IsTransaction (methods_of program.now) actors _tx.now }
    ensures { length _tx.now.args ≤ MOST_NAMES }
{
    program.methods();
}
