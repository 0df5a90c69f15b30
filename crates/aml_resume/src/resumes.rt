//! A method, run on from where it stands.

ghost use Rattle.std.specs.Prelude.{◌≡◌, ◌≤◌, ◌<◌, ◌^◌, ◌+◌, [], length, min, reverse, vec_capacity};
ghost use Rattle.aml_flat.specs.Flat.{AllLie, LiesAt};
ghost use Rattle.aml_check.specs.Checked.{methods_of};
ghost use Rattle.aml_check.specs.Names.{method_at};
ghost use Rattle.aml_resume.specs.Machine.{Enters, Leads, opened_of};
ghost use Rattle.aml_resume.specs.Places.{IsPlace};
ghost use Rattle.aml_resume.specs.Pausing.{Pause, method_pause, pause_of};
ghost use Rattle.aml_resume.specs.Rooms.{HasRoom, standing_of};

use crate::operations::{fetched, run};
use crate::{Activation, Exit, Spot};
use aml_check::{Checked, MOST_STATEMENTS};
use aml_flat::{BlockPlace, FlatProgram, Operation};
use aml_tree::{MOST_LEVELS, MOST_PARAMETERS};
use snap_base::State;

/// Runs a method on an actor up to its next call, or to its end. At a call, `arguments` holds the
/// values that are passed. A failure, told by its code, leaves the state as the statements made it
/// so far, and the variables and the place as they happen to be.
pub fn resume(
    program: &Checked,
    method: u16,
    own: usize,
    activation: &mut Activation,
    arguments: &mut Vec<i64>,
    state: &mut State,
    statements: &mut u16,
) -> Result<Exit, u16>
    requires method { method < length (methods_of program.now) }
    requires small { own < 2 ^ 63 }
    requires count { statements.old ≤ MOST_STATEMENTS }
    requires place { IsPlace (methods_of program.now) (length activation.old.variables.items) (method_at (methods_of program.now) method).body (reverse activation.old.path.items) activation.old.next }
    requires room { HasRoom activation.old }
    requires arguments { MOST_PARAMETERS ≤ vec_capacity arguments.old }
    ensures exactly { pause_of result (standing_of activation.new) arguments.new.items state.new statements.new ≡ method_pause own (method_at (methods_of program.now) method).body (standing_of activation.old) state.old statements.old }
    ensures room { HasRoom activation.new }
    ensures arguments { vec_capacity arguments.new ≡ vec_capacity arguments.old }
    ensures count { (statements.old ≤ statements.new) × (statements.new ≤ MOST_STATEMENTS) }
{
    let flat = program.flat();
    let operations = flat.operations.as_slice();
    let body = body_of(program, flat, method);
    let mut positions = [0; MOST_LEVELS];
    activation.path.reverse();
    let from = enter(
        program,
        operations,
        own,
        body,
        activation.path.as_slice(),
        activation.next,
        activation.variables.as_slice(),
        state,
        statements,
        &mut positions,
    );
    let exit = run(
        program,
        operations,
        own,
        from,
        activation,
        state,
        statements,
        arguments,
        &mut positions,
    )?;
    activation.path.reverse();
    Ok(exit)
}

/// Where the body of a method lies.
fn body_of(_program: &Checked, flat: &FlatProgram, method: u16) -> BlockPlace
    requires lies { AllLie flat.now.operations.items flat.now.bodies.items (methods_of _program.now) }
    requires method { method < length (methods_of _program.now) }
    ensures { LiesAt flat.now.operations.items result (method_at (methods_of _program.now) method).body }
{
    let bodies = flat.bodies.as_slice();
    bodies[method as usize]
}

/// The position at which a method goes on, with a path from the outermost block, from the block in which it begins; and the
/// positions of what goes on behind the blocks that are open.
fn enter(
    _program: &Checked,
    operations: &[Operation],
    _own: usize,
    body: BlockPlace,
    path: &[Spot],
    next: usize,
    _variables: &[i64],
    _state: &State,
    _statements: &u16,
    positions: &mut [usize; MOST_LEVELS],
) -> usize
    requires enters { (whole : Pause) × Enters (methods_of _program.now) operations.now _own path.now [] next positions.old body _variables.now _state.now _statements.now whole }
    ensures { (whole : Pause) → Enters (methods_of _program.now) operations.now _own path.now [] next positions.old body _variables.now _state.now _statements.now whole → Leads (methods_of _program.now) operations.now _own (reverse path.now) positions.new result _variables.now _state.now _statements.now whole }
{
    let mut block = body;
    for (depth, spot) in path.iter().enumerate() {
        let from = position_at(operations, block.first, spot.at);
        match opened(fetched(operations, from), from, spot.other) {
            Some((inner, behind)) => {
                positions[depth] = behind;
                block = inner;
            }
            None => unreachable!(),
        }
    }
    let at = at_most(next, block.count);
    position_at(operations, block.first, at)
}

/// The position so many operations behind another.
fn position_at(_operations: &[Operation], first: usize, by: usize) -> usize
    requires { first + by < length _operations.now }
    ensures { result ≡ first + by }
{
    first + by
}

fn at_most(next: usize, count: usize) -> usize
    ensures { result ≡ min next count }
{
    if next < count { next } else { count }
}

/// The inner block of an operation that has one, and the position of what goes on behind it.
fn opened(operation: &Operation, from: usize, other: bool) -> Option<(BlockPlace, usize)>
    requires { from < usize.MAX }
    ensures { result ≡ opened_of other from operation.now }
{
    match operation {
        Operation::If { first, .. } => Some((*first, from + 1)),
        Operation::IfElse {
            first,
            other: otherwise,
            ..
        } => {
            if other {
                Some((*otherwise, from + 1))
            } else {
                Some((*first, from + 1))
            }
        }
        Operation::While { body, .. } => Some((*body, from)),
        Operation::End
        | Operation::Let { .. }
        | Operation::Call { .. }
        | Operation::Set { .. }
        | Operation::SetField { .. }
        | Operation::Fail { .. }
        | Operation::Return { .. } => None,
    }
}
