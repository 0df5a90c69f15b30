//! What flat expressions give.

ghost use Rattle.std.specs.Prelude.{◌≡◌, ◌<◌, ◌^◌, [], length, Ok};
ghost use Rattle.aml_tree.specs.Tree.{Binary};
ghost use Rattle.aml_flat.specs.Flat.{flat_tree, operand_tree, row_tree};
ghost use Rattle.aml_check.specs.Closed.{IsClosedExpression};
ghost use Rattle.aml_check.specs.Meaning.{value_of};
ghost use Rattle.aml_values.specs.Rows.{AreClosed};

use crate::codes::Code;
use crate::rows::along;
use crate::values::joined;
use aml_flat::{FlatExpression, Operand, Part};
use aml_tree::Operator;
use snap_base::State;

// In each function `variables` are the values of the method's variables, and `state` is the state of
// the actor `own` on which it runs.

/// What an operand gives.
#[inline(always)]
pub(crate) fn operand(own: usize, variables: &[i64], state: &State, o: Operand) -> i64
    requires small { own < 2 ^ 63 }
    requires closed { IsClosedExpression (length variables.now) (operand_tree o) }
    ensures { Ok result ≡ value_of own variables.now state.now (operand_tree o) }
{
    match o {
        Operand::Number(number) => number as i64,
        Operand::Variable(place) => variables[place as usize],
        Operand::Field { field, line: _ } => state.0[field as usize],
        Operand::Own => own as i64,
    }
}

/// What an operator makes of two operands. Neither of them fails, so both may be read.
#[inline(always)]
fn two(
    own: usize,
    variables: &[i64],
    state: &State,
    operator: Operator,
    left: Operand,
    right: Operand,
) -> Result<i64, Code>
    requires small { own < 2 ^ 63 }
    requires left { IsClosedExpression (length variables.now) (operand_tree left) }
    requires right { IsClosedExpression (length variables.now) (operand_tree right) }
    ensures { result ≡ value_of own variables.now state.now (Binary operator (operand_tree left) (operand_tree right)) }
{
    let first = operand(own, variables, state, left);
    let second = operand(own, variables, state, right);
    joined(operator, first, second)
}

/// What an operand and the parts that follow it give.
fn row(
    own: usize,
    variables: &[i64],
    state: &State,
    first: Operand,
    parts: &[Part],
) -> Result<i64, Code>
    requires small { own < 2 ^ 63 }
    requires closed { IsClosedExpression (length variables.now) (row_tree (operand_tree first) [] parts.now) }
    ensures { result ≡ value_of own variables.now state.now (row_tree (operand_tree first) [] parts.now) }
{
    closed_parts(variables, first, parts);
    let mut so_far = operand(own, variables, state, first);
    let mut at = 0;
    while at < parts.len() {
        let (value, behind) = along(own, variables, state, so_far, parts, at)?;
        so_far = value;
        at = behind;
    }
    Ok(so_far)
}

/// The operands of a closed row are closed.
fn closed_parts(_variables: &[i64], _first: Operand, _parts: &[Part])
    requires { IsClosedExpression (length _variables.now) (row_tree (operand_tree _first) [] _parts.now) }
    ensures first { IsClosedExpression (length _variables.now) (operand_tree _first) }
    ensures parts { AreClosed (length _variables.now) _parts.now }
{}

/// What an expression gives, or the code of a failure: a result outside signed 64 bits, or a divisor 0. Operands are read in
/// place; it is inlined where a statement runs.
#[inline(always)]
pub fn value(own: usize, variables: &[i64], state: &State, e: &FlatExpression) -> Result<i64, Code>
    requires small { own < 2 ^ 63 }
    requires closed { IsClosedExpression (length variables.now) (flat_tree e.now) }
    ensures { result ≡ value_of own variables.now state.now (flat_tree e.now) }
{
    match e {
        FlatExpression::One(o) => Ok(operand(own, variables, state, *o)),
        FlatExpression::Two(operator, left, right) => {
            two(own, variables, state, *operator, *left, *right)
        }
        FlatExpression::Row { first, parts } => row(own, variables, state, *first, parts),
    }
}
