//! The values that a call passes.

ghost use Rattle.std.specs.Prelude.{◌≡◌, ◌≤◌, ◌<◌, ◌^◌, length, map, vec_capacity, IfOk};
ghost use Rattle.std.specs.List.{AllByRecursion};
ghost use Rattle.aml_flat.specs.Flat.{flat_tree};
ghost use Rattle.aml_check.specs.Closed.{IsClosedExpression};
ghost use Rattle.aml_check.specs.Meaning.{values_of};
ghost use Rattle.aml_resume.specs.Machine.{IsMeant};

use crate::statements::put_value;
use aml_flat::FlatExpression;
use aml_values::{Code, value};
use snap_base::State;

/// Puts the values of expressions, from the left, in place of others.
pub(crate) fn pass(
    own: usize,
    variables: &[i64],
    state: &State,
    es: &[FlatExpression],
    arguments: &mut Vec<i64>,
) -> Result<(), Code>
    requires small { own < 2 ^ 63 }
    requires closed { AllByRecursion (IsClosedExpression (length variables.now)) (map flat_tree es.now) }
    requires room { length es.now ≤ vec_capacity arguments.old }
    ensures same { IfOk result (λ _. length arguments.new.items ≡ length es.now) }
    ensures meant { IsMeant (λ _. arguments.new.items) (values_of own variables.now state.now (map flat_tree es.now)) result }
    ensures room { vec_capacity arguments.new ≡ vec_capacity arguments.old }
{
    arguments.clear();
    for e in es {
        let next = value(own, variables, state, e)?;
        put_value(arguments, next);
    }
    Ok(())
}
