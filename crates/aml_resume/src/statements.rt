//! Operations of flat code, one by one.

ghost use Rattle.std.specs.Prelude.{◌≡◌, ◌+◌, ◌<◌, ◌≤◌, ◌^◌, ◌∷◌, ◌++◌, [], Some, length, if◌then◌else◌, min, reverse, slice_get, slice_index_or, slice_set, vec_capacity, IfOk, MatchOption, OnErr, Err};
ghost use Rattle.aml_flat.specs.Flat.{flat_tree};
ghost use Rattle.aml_check.specs.Checked.{methods_of};
ghost use Rattle.aml_check.specs.Closed.{IsClosedExpression, IsClosedProgram};
ghost use Rattle.aml_check.specs.Meaning.{too_many_statements, with_field};
ghost use Rattle.aml_resume.specs.Pausing.{counted_value, spot};
ghost use Rattle.aml_resume.specs.Machine.{CanRun, HasRun, IfGoes, IsMeant, IsReadyToRun, StaysReady, left_to_do};

use crate::arguments::pass;
use crate::ways::Way;
use crate::{Activation, Spot};
use aml_check::{Checked, MOST_STATEMENTS};
use aml_flat::{BlockPlace, FlatExpression, Operation};
use aml_tree::MOST_LEVELS;
use aml_values::{Code, TOO_MANY_STATEMENTS, holds, value};
use snap_base::{FIELDS, State};

// In each function `own` is the actor on which the method runs, `state` is its state, and `statements` counts the
// statements that were begun in the transaction. `positions` are those of what goes on behind each block that is open,
// the outermost first; so is the path while operations run. Only a call writes `arguments`. What has `_` before its name
// is there for the contract alone.

/// Counts a statement before it runs.
#[inline(always)]
fn begin(statements: &mut u16) -> Result<(), Code>
    requires { statements.old ≤ MOST_STATEMENTS }
    ensures one { IfOk result (λ _. (statements.old < MOST_STATEMENTS) × (statements.new ≡ statements.old + 1)) }
    ensures full { OnErr result ((statements.old ≡ MOST_STATEMENTS) × (statements.new ≡ statements.old) × (result ≡ Err too_many_statements)) }
    ensures counts { statements.new ≡ min (statements.old + 1) MOST_STATEMENTS }
{
    if *statements < MOST_STATEMENTS {
        *statements += 1;
        Ok(())
    } else {
        Err(TOO_MANY_STATEMENTS)
    }
}

/// Counts a statement, and computes the expression that it begins with.
#[inline(always)]
pub(crate) fn counted(
    own: usize,
    variables: &[i64],
    state: &State,
    statements: &mut u16,
    e: &FlatExpression,
) -> Result<i64, Code>
    requires small { own < 2 ^ 63 }
    requires count { statements.old ≤ MOST_STATEMENTS }
    requires closed { IsClosedExpression (length variables.now) (flat_tree e.now) }
    ensures meant { IsMeant (λ v. (v, statements.new)) (counted_value own variables.now state.now statements.old (flat_tree e.now)) result }
    ensures risen { (statements.old ≤ statements.new) × (statements.new ≤ MOST_STATEMENTS) }
    ensures counts { statements.new ≡ min (statements.old + 1) MOST_STATEMENTS }
    ensures one { IfOk result (λ _. statements.old < statements.new) }
{
    begin(statements)?;
    value(own, variables, state, e)
}

/// One more value, where there is room.
#[inline(always)]
pub(crate) fn put_value(values: &mut Vec<i64>, value: i64)
    requires { length values.old.items < vec_capacity values.old }
    ensures items { values.new.items ≡ values.old.items ++ value ∷ [] }
    ensures room { vec_capacity values.new ≡ vec_capacity values.old }
{
    values.push_reserved(value);
}

/// A value in the place of a variable's.
#[inline(always)]
fn put_variable(variables: &mut Vec<i64>, place: u8, value: i64)
    requires { place < length variables.old.items }
    ensures items { variables.new.items ≡ slice_set variables.old.items place value }
    ensures room { vec_capacity variables.new ≡ vec_capacity variables.old }
{
    variables[place as usize] = value;
}

/// A value in the place of a field's.
#[inline(always)]
fn put_field(state: &mut State, field: u8, value: i64)
    requires { field < FIELDS }
    ensures { state.new ≡ with_field state.old field value }
{
    state.0[field as usize] = value;
}

/// One more open block inside those that are, where there is room.
#[inline(always)]
fn put_spot(path: &mut Vec<Spot>, spot: Spot)
    requires { length path.old.items < vec_capacity path.old }
    ensures innermost { reverse path.new.items ≡ spot ∷ reverse path.old.items }
    ensures longer { length path.new.items ≡ length path.old.items + 1 }
    ensures room { vec_capacity path.new ≡ vec_capacity path.old }
{
    path.push_reserved(spot);
}

/// The statement at a place whose inner block is entered, with these variables in view.
#[inline(always)]
fn spot_here(variables: &Vec<i64>, at: usize, other: bool) -> Spot
    ensures { result ≡ spot at other variables.now.items }
{
    Spot {
        at,
        other,
        keep: variables.len(),
    }
}

/// Enters an inner block; what goes on behind it lies at a position.
#[inline(always)]
fn enter_block(
    path: &mut Vec<Spot>,
    positions: &mut [usize; MOST_LEVELS],
    behind: usize,
    spot: Spot,
)
    requires levels { length path.old.items < MOST_LEVELS }
    requires room { length path.old.items < vec_capacity path.old }
    ensures path { reverse path.new.items ≡ spot ∷ reverse path.old.items }
    ensures longer { length path.new.items ≡ length path.old.items + 1 }
    ensures room { vec_capacity path.new ≡ vec_capacity path.old }
    ensures positions { positions.new ≡ slice_set positions.old (length path.old.items) behind }
{
    positions[path.len()] = behind;
    put_spot(path, spot);
}

/// Where the chosen one of two blocks begins.
#[inline(always)]
fn chosen(holds: bool, first: BlockPlace, other: BlockPlace) -> usize
    ensures { result ≡ (if holds then first.first else other.first) }
{
    if holds { first.first } else { other.first }
}

/// A new variable takes the value of an expression.
#[inline(always)]
pub(crate) fn let_value(
    _program: &Checked,
    _operations: &[Operation],
    own: usize,
    from: usize,
    activation: &mut Activation,
    state: &State,
    statements: &mut u16,
    _arguments: &Vec<i64>,
    _positions: &[usize; MOST_LEVELS],
    e: &FlatExpression,
) -> Result<Way, Code>
    requires ready { IsReadyToRun activation.old (vec_capacity _arguments.now) statements.old }
    requires small { own < 2 ^ 63 }
    requires at { from < usize.MAX }
    requires stands { CanRun (methods_of _program.now) _operations.now own activation.old _positions.now from state.now statements.old }
    requires here { slice_get _operations.now from ≡ Some (Operation.Let e.now) }
    ensures runs { HasRun (methods_of _program.now) _operations.now own from activation.old _positions.now state.now statements.old activation.new _arguments.now.items _positions.now state.now statements.new result }
    ensures nearer { IfGoes result (left_to_do statements.new (length activation.new.path.items) < left_to_do statements.old (length activation.old.path.items)) }
    ensures keeps { StaysReady (vec_capacity _arguments.now) statements.old activation.new (vec_capacity _arguments.now) statements.new }
{
    let next = counted(own, activation.variables.as_slice(), state, statements, e)?;
    put_value(&mut activation.variables, next);
    Ok(Way::Goes(from + 1))
}

/// A variable takes the value of an expression.
#[inline(always)]
pub(crate) fn set(
    _program: &Checked,
    _operations: &[Operation],
    own: usize,
    from: usize,
    activation: &mut Activation,
    state: &State,
    statements: &mut u16,
    _arguments: &Vec<i64>,
    _positions: &[usize; MOST_LEVELS],
    place: u8,
    e: &FlatExpression,
) -> Result<Way, Code>
    requires ready { IsReadyToRun activation.old (vec_capacity _arguments.now) statements.old }
    requires small { own < 2 ^ 63 }
    requires at { from < usize.MAX }
    requires stands { CanRun (methods_of _program.now) _operations.now own activation.old _positions.now from state.now statements.old }
    requires here { slice_get _operations.now from ≡ Some (Operation.Set place e.now) }
    ensures runs { HasRun (methods_of _program.now) _operations.now own from activation.old _positions.now state.now statements.old activation.new _arguments.now.items _positions.now state.now statements.new result }
    ensures nearer { IfGoes result (left_to_do statements.new (length activation.new.path.items) < left_to_do statements.old (length activation.old.path.items)) }
    ensures keeps { StaysReady (vec_capacity _arguments.now) statements.old activation.new (vec_capacity _arguments.now) statements.new }
{
    let next = counted(own, activation.variables.as_slice(), state, statements, e)?;
    put_variable(&mut activation.variables, place, next);
    Ok(Way::Goes(from + 1))
}

/// A field takes the value of an expression.
#[inline(always)]
pub(crate) fn set_field(
    _program: &Checked,
    _operations: &[Operation],
    own: usize,
    from: usize,
    activation: &mut Activation,
    state: &mut State,
    statements: &mut u16,
    _arguments: &Vec<i64>,
    _positions: &[usize; MOST_LEVELS],
    field: u8,
    e: &FlatExpression,
) -> Result<Way, Code>
    requires ready { IsReadyToRun activation.old (vec_capacity _arguments.now) statements.old }
    requires small { own < 2 ^ 63 }
    requires at { from < usize.MAX }
    requires stands { CanRun (methods_of _program.now) _operations.now own activation.old _positions.now from state.old statements.old }
    requires here { slice_get _operations.now from ≡ Some (Operation.SetField field e.now) }
    ensures runs { HasRun (methods_of _program.now) _operations.now own from activation.old _positions.now state.old statements.old activation.new _arguments.now.items _positions.now state.new statements.new result }
    ensures nearer { IfGoes result (left_to_do statements.new (length activation.new.path.items) < left_to_do statements.old (length activation.old.path.items)) }
    ensures keeps { StaysReady (vec_capacity _arguments.now) statements.old activation.new (vec_capacity _arguments.now) statements.new }
{
    let next = counted(own, activation.variables.as_slice(), state, statements, e)?;
    put_field(state, field, next);
    Ok(Way::Goes(from + 1))
}

/// The method ends with the value of an expression.
#[inline(always)]
pub(crate) fn give(
    _program: &Checked,
    _operations: &[Operation],
    own: usize,
    from: usize,
    activation: &mut Activation,
    state: &State,
    statements: &mut u16,
    _arguments: &Vec<i64>,
    _positions: &[usize; MOST_LEVELS],
    e: &FlatExpression,
) -> Result<Way, Code>
    requires ready { IsReadyToRun activation.old (vec_capacity _arguments.now) statements.old }
    requires small { own < 2 ^ 63 }
    requires at { from < usize.MAX }
    requires stands { CanRun (methods_of _program.now) _operations.now own activation.old _positions.now from state.now statements.old }
    requires here { slice_get _operations.now from ≡ Some (Operation.Return e.now) }
    ensures runs { HasRun (methods_of _program.now) _operations.now own from activation.old _positions.now state.now statements.old activation.new _arguments.now.items _positions.now state.now statements.new result }
    ensures nearer { IfGoes result (left_to_do statements.new (length activation.new.path.items) < left_to_do statements.old (length activation.old.path.items)) }
    ensures keeps { StaysReady (vec_capacity _arguments.now) statements.old activation.new (vec_capacity _arguments.now) statements.new }
{
    let next = counted(own, activation.variables.as_slice(), state, statements, e)?;
    Ok(Way::Gives(next))
}

/// The transaction fails with a code.
#[inline(always)]
pub(crate) fn fail(
    _program: &Checked,
    _operations: &[Operation],
    own: usize,
    from: usize,
    activation: &mut Activation,
    state: &State,
    statements: &mut u16,
    _arguments: &Vec<i64>,
    _positions: &[usize; MOST_LEVELS],
    code: u16,
) -> Result<Way, Code>
    requires ready { IsReadyToRun activation.old (vec_capacity _arguments.now) statements.old }
    requires small { own < 2 ^ 63 }
    requires at { from < usize.MAX }
    requires stands { CanRun (methods_of _program.now) _operations.now own activation.old _positions.now from state.now statements.old }
    requires here { slice_get _operations.now from ≡ Some (Operation.Fail code) }
    ensures runs { HasRun (methods_of _program.now) _operations.now own from activation.old _positions.now state.now statements.old activation.new _arguments.now.items _positions.now state.now statements.new result }
    ensures nearer { IfGoes result (left_to_do statements.new (length activation.new.path.items) < left_to_do statements.old (length activation.old.path.items)) }
    ensures keeps { StaysReady (vec_capacity _arguments.now) statements.old activation.new (vec_capacity _arguments.now) statements.new }
{
    begin(statements)?;
    Err(code)
}

/// A block is entered where a condition holds.
#[inline(always)]
pub(crate) fn choice(
    _program: &Checked,
    _operations: &[Operation],
    own: usize,
    from: usize,
    activation: &mut Activation,
    state: &State,
    statements: &mut u16,
    _arguments: &Vec<i64>,
    positions: &mut [usize; MOST_LEVELS],
    at: usize,
    e: &FlatExpression,
    first: BlockPlace,
) -> Result<Way, Code>
    requires ready { IsReadyToRun activation.old (vec_capacity _arguments.now) statements.old }
    requires small { own < 2 ^ 63 }
    requires at { from < usize.MAX }
    requires stands { CanRun (methods_of _program.now) _operations.now own activation.old positions.old from state.now statements.old }
    requires here { slice_get _operations.now from ≡ Some (Operation.If at e.now first) }
    ensures runs { HasRun (methods_of _program.now) _operations.now own from activation.old positions.old state.now statements.old activation.new _arguments.now.items positions.new state.now statements.new result }
    ensures nearer { IfGoes result (left_to_do statements.new (length activation.new.path.items) < left_to_do statements.old (length activation.old.path.items)) }
    ensures keeps { StaysReady (vec_capacity _arguments.now) statements.old activation.new (vec_capacity _arguments.now) statements.new }
{
    let next = counted(own, activation.variables.as_slice(), state, statements, e)?;
    if holds(next) {
        let spot = spot_here(&activation.variables, at, false);
        enter_block(&mut activation.path, positions, from + 1, spot);
        Ok(Way::Goes(first.first))
    } else {
        Ok(Way::Goes(from + 1))
    }
}

/// One of two blocks is entered.
#[inline(always)]
pub(crate) fn either(
    _program: &Checked,
    _operations: &[Operation],
    own: usize,
    from: usize,
    activation: &mut Activation,
    state: &State,
    statements: &mut u16,
    _arguments: &Vec<i64>,
    positions: &mut [usize; MOST_LEVELS],
    at: usize,
    e: &FlatExpression,
    first: BlockPlace,
    other: BlockPlace,
) -> Result<Way, Code>
    requires ready { IsReadyToRun activation.old (vec_capacity _arguments.now) statements.old }
    requires small { own < 2 ^ 63 }
    requires at { from < usize.MAX }
    requires stands { CanRun (methods_of _program.now) _operations.now own activation.old positions.old from state.now statements.old }
    requires here { slice_get _operations.now from ≡ Some (Operation.IfElse at e.now first other) }
    ensures runs { HasRun (methods_of _program.now) _operations.now own from activation.old positions.old state.now statements.old activation.new _arguments.now.items positions.new state.now statements.new result }
    ensures nearer { IfGoes result (left_to_do statements.new (length activation.new.path.items) < left_to_do statements.old (length activation.old.path.items)) }
    ensures keeps { StaysReady (vec_capacity _arguments.now) statements.old activation.new (vec_capacity _arguments.now) statements.new }
{
    let next = counted(own, activation.variables.as_slice(), state, statements, e)?;
    let yes = holds(next);
    let spot = spot_here(&activation.variables, at, !yes);
    enter_block(&mut activation.path, positions, from + 1, spot);
    Ok(Way::Goes(chosen(yes, first, other)))
}

/// A block is entered as long as a condition holds: behind it the condition is asked again.
#[inline(always)]
pub(crate) fn repeat(
    _program: &Checked,
    _operations: &[Operation],
    own: usize,
    from: usize,
    activation: &mut Activation,
    state: &State,
    statements: &mut u16,
    _arguments: &Vec<i64>,
    positions: &mut [usize; MOST_LEVELS],
    at: usize,
    e: &FlatExpression,
    body: BlockPlace,
) -> Result<Way, Code>
    requires ready { IsReadyToRun activation.old (vec_capacity _arguments.now) statements.old }
    requires small { own < 2 ^ 63 }
    requires at { from < usize.MAX }
    requires stands { CanRun (methods_of _program.now) _operations.now own activation.old positions.old from state.now statements.old }
    requires here { slice_get _operations.now from ≡ Some (Operation.While at e.now body) }
    ensures runs { HasRun (methods_of _program.now) _operations.now own from activation.old positions.old state.now statements.old activation.new _arguments.now.items positions.new state.now statements.new result }
    ensures nearer { IfGoes result (left_to_do statements.new (length activation.new.path.items) < left_to_do statements.old (length activation.old.path.items)) }
    ensures keeps { StaysReady (vec_capacity _arguments.now) statements.old activation.new (vec_capacity _arguments.now) statements.new }
{
    let next = counted(own, activation.variables.as_slice(), state, statements, e)?;
    if holds(next) {
        let spot = spot_here(&activation.variables, at, false);
        enter_block(&mut activation.path, positions, from, spot);
        Ok(Way::Goes(body.first))
    } else {
        Ok(Way::Goes(from + 1))
    }
}

/// Computes a call's target and then what it passes, and stands behind the call's statement, which is at a place of its block.
#[inline(always)]
pub(crate) fn ask(
    _program: &Checked,
    _operations: &[Operation],
    own: usize,
    from: usize,
    activation: &mut Activation,
    state: &State,
    statements: &mut u16,
    arguments: &mut Vec<i64>,
    _positions: &[usize; MOST_LEVELS],
    at: usize,
    e: &FlatExpression,
    method: u16,
    es: &Vec<FlatExpression>,
) -> Result<Way, Code>
    requires ready { IsReadyToRun activation.old (vec_capacity arguments.old) statements.old }
    requires small { own < 2 ^ 63 }
    requires at { from < usize.MAX }
    requires closed { IsClosedProgram (methods_of _program.now) }
    requires stands { CanRun (methods_of _program.now) _operations.now own activation.old _positions.now from state.now statements.old }
    requires here { slice_get _operations.now from ≡ Some (Operation.Call at e.now method es.now) }
    ensures runs { HasRun (methods_of _program.now) _operations.now own from activation.old _positions.now state.now statements.old activation.new arguments.new.items _positions.now state.now statements.new result }
    ensures goes { IfGoes result ⊥ }
    ensures keeps { StaysReady (vec_capacity arguments.old) statements.old activation.new (vec_capacity arguments.new) statements.new }
{
    let actor = counted(own, activation.variables.as_slice(), state, statements, e)?;
    pass(
        own,
        activation.variables.as_slice(),
        state,
        es.as_slice(),
        arguments,
    )?;
    activation.next = at + 1;
    Ok(Way::Asks {
        target: actor,
        method,
    })
}

/// Behind the last statement of a block: an inner block is left, whose variables are gone, or the method ends with 0.
#[inline(always)]
pub(crate) fn leave(
    _program: &Checked,
    _operations: &[Operation],
    own: usize,
    from: usize,
    activation: &mut Activation,
    _state: &State,
    _statements: &u16,
    _arguments: &Vec<i64>,
    positions: &[usize; MOST_LEVELS],
) -> Result<Way, Code>
    requires ready { IsReadyToRun activation.old (vec_capacity _arguments.now) _statements.now }
    requires stands { CanRun (methods_of _program.now) _operations.now own activation.old positions.now from _state.now _statements.now }
    requires here { slice_get _operations.now from ≡ Some Operation.End }
    ensures runs { HasRun (methods_of _program.now) _operations.now own from activation.old positions.now _state.now _statements.now activation.new _arguments.now.items positions.now _state.now _statements.now result }
    ensures nearer { IfGoes result (left_to_do _statements.now (length activation.new.path.items) < left_to_do _statements.now (length activation.old.path.items)) }
    ensures keeps { StaysReady (vec_capacity _arguments.now) _statements.now activation.new (vec_capacity _arguments.now) _statements.now }
{
    match take_spot(&mut activation.path) {
        None => Ok(Way::Gives(0)),
        Some(spot) => {
            activation.variables.truncate(spot.keep);
            let to = position_behind(positions, &activation.path);
            Ok(Way::Goes(to))
        }
    }
}

/// The position of what goes on behind a block that was left.
#[inline(always)]
fn position_behind(positions: &[usize; MOST_LEVELS], path: &Vec<Spot>) -> usize
    requires { length path.now.items < MOST_LEVELS }
    ensures { result ≡ slice_index_or positions.now (length path.now.items) 0 }
{
    positions[path.len()]
}

/// The innermost open block.
#[inline(always)]
fn take_spot(path: &mut Vec<Spot>) -> Option<Spot>
    ensures innermost { MatchOption result ((path.old.items ≡ []) × (path.new.items ≡ [])) (λ q. (reverse path.old.items ≡ q ∷ reverse path.new.items) × (length path.old.items ≡ length path.new.items + 1)) }
    ensures room { vec_capacity path.new ≡ vec_capacity path.old }
{
    path.pop()
}
