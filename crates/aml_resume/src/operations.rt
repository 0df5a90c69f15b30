//! Flat code, run up to the next call.

ghost use Rattle.std.specs.Prelude.{◌≡◌, ◌<◌, ◌^◌, Some, length, slice_get, vec_capacity};
ghost use Rattle.aml_check.specs.Checked.{methods_of};
ghost use Rattle.aml_check.specs.Closed.{IsClosedProgram};
ghost use Rattle.aml_resume.specs.Pausing.{Pause, pause_of};
ghost use Rattle.aml_resume.specs.Machine.{CanRun, HasRun, IfGoes, IsReadyToRun, Stands, StaysReady, left_to_do};

use crate::statements::{
    ask, choice, either, fail, give, leave, let_value, repeat, set, set_field,
};
use crate::ways::Way;
use crate::{Activation, Exit};
use aml_check::Checked;
use aml_flat::Operation;
use aml_tree::MOST_LEVELS;
use aml_values::Code;
use snap_base::State;

/// The operation at a position.
#[inline(always)]
pub(crate) fn fetched(operations: &[Operation], from: usize) -> &Operation
    requires { from < length operations.now }
    ensures here { slice_get operations.now from ≡ Some result.now }
    ensures fits { from < usize.MAX }
{
    &operations[from]
}

/// Runs the operation at a position.
#[inline(always)]
fn step(
    program: &Checked,
    operations: &[Operation],
    own: usize,
    from: usize,
    activation: &mut Activation,
    state: &mut State,
    statements: &mut u16,
    arguments: &mut Vec<i64>,
    positions: &mut [usize; MOST_LEVELS],
) -> Result<Way, Code>
    requires ready { IsReadyToRun activation.old (vec_capacity arguments.old) statements.old }
    requires small { own < 2 ^ 63 }
    requires closed { IsClosedProgram (methods_of program.now) }
    requires stands { CanRun (methods_of program.now) operations.now own activation.old positions.old from state.old statements.old }
    ensures runs { HasRun (methods_of program.now) operations.now own from activation.old positions.old state.old statements.old activation.new arguments.new.items positions.new state.new statements.new result }
    ensures nearer { IfGoes result (left_to_do statements.new (length activation.new.path.items) < left_to_do statements.old (length activation.old.path.items)) }
    ensures keeps { StaysReady (vec_capacity arguments.old) statements.old activation.new (vec_capacity arguments.new) statements.new }
{
    match fetched(operations, from) {
        Operation::End => leave(
            program, operations, own, from, activation, state, statements, arguments, positions,
        ),
        Operation::Let { value } => let_value(
            program, operations, own, from, activation, state, statements, arguments, positions,
            value,
        ),
        Operation::Call {
            at,
            target,
            method,
            arguments: es,
        } => ask(
            program, operations, own, from, activation, state, statements, arguments, positions,
            *at, target, *method, es,
        ),
        Operation::Set { variable, value } => set(
            program, operations, own, from, activation, state, statements, arguments, positions,
            *variable, value,
        ),
        Operation::SetField { field, value } => set_field(
            program, operations, own, from, activation, state, statements, arguments, positions,
            *field, value,
        ),
        Operation::If {
            at,
            condition,
            first,
        } => choice(
            program, operations, own, from, activation, state, statements, arguments, positions,
            *at, condition, *first,
        ),
        Operation::IfElse {
            at,
            condition,
            first,
            other,
        } => either(
            program, operations, own, from, activation, state, statements, arguments, positions,
            *at, condition, *first, *other,
        ),
        Operation::While {
            at,
            condition,
            body,
        } => repeat(
            program, operations, own, from, activation, state, statements, arguments, positions,
            *at, condition, *body,
        ),
        Operation::Fail { code } => fail(
            program, operations, own, from, activation, state, statements, arguments, positions,
            *code,
        ),
        Operation::Return { value } => give(
            program, operations, own, from, activation, state, statements, arguments, positions,
            value,
        ),
    }
}

/// Runs operations from a position on, up to a call or to the end of the method.
pub(crate) fn run(
    program: &Checked,
    operations: &[Operation],
    own: usize,
    from: usize,
    activation: &mut Activation,
    state: &mut State,
    statements: &mut u16,
    arguments: &mut Vec<i64>,
    positions: &mut [usize; MOST_LEVELS],
) -> Result<Exit, Code>
    requires ready { IsReadyToRun activation.old (vec_capacity arguments.old) statements.old }
    requires small { own < 2 ^ 63 }
    requires closed { IsClosedProgram (methods_of program.now) }
    requires stands { CanRun (methods_of program.now) operations.now own activation.old positions.old from state.old statements.old }
    ensures runs { (whole : Pause) → Stands (methods_of program.now) operations.now own activation.old positions.old from state.old statements.old whole → whole ≡ pause_of result (record { path = activation.new.path.items; next = activation.new.next; variables = activation.new.variables.items }) arguments.new.items state.new statements.new }
    ensures keeps { StaysReady (vec_capacity arguments.old) statements.old activation.new (vec_capacity arguments.new) statements.new }
{
    let mut at = from;
    'steps: loop {
        match step(
            program, operations, own, at, activation, state, statements, arguments, positions,
        )? {
            Way::Goes(next) => at = next,
            Way::Gives(value) => return Ok(Exit::Gives(value)),
            Way::Asks { target, method } => return Ok(Exit::Asks { target, method }),
        }
    }
}
