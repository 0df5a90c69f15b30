//! What the parts of a row make of a value.

ghost use Rattle.std.specs.Prelude.{◌≡◌, ◌≤◌, ◌<◌, ◌^◌, ◌∷◌, drop, length, IfOk, IfErr};
ghost use Rattle.aml_flat.specs.Flat.{operand_tree};
ghost use Rattle.aml_check.specs.Closed.{IsClosedExpression};
ghost use Rattle.aml_values.specs.Rows.{AreClosed, Becomes, EndsAs, Fails, behind};

use crate::codes::Code;
use crate::flat::operand;
use crate::values::{decided, joined, negative};
use aml_flat::{Operand, Part};
use aml_tree::Operator;
use snap_base::State;

// In each function `variables` are the values of the method's variables, and `state` is the state of
// the actor `own` on which it runs.

/// The position behind the right side in which a part stands: behind its `Close`, or else behind all parts.
fn position_behind(parts: &[Part], from: usize) -> usize
    requires { from ≤ length parts.now }
    ensures later { from ≤ result }
    ensures within { result ≤ length parts.now }
    ensures behind { drop result parts.now ≡ behind 0 (drop from parts.now) }
{
    let mut depth: usize = 0;
    for at in from..parts.len() {
        match parts[at] {
            Part::Open(_, _) => depth += 1,
            Part::Close => {
                if depth == 0 {
                    return at + 1;
                }
                depth -= 1;
            }
            Part::Join(_, _) | Part::Negate | Part::Group => {}
        }
    }
    parts.len()
}

/// What the parts from a position on make of a value, up to the end of the right side in which they stand, or of the row; and
/// the position behind that.
#[cycle(rows)]
pub(crate) fn along(
    own: usize,
    variables: &[i64],
    state: &State,
    first: i64,
    parts: &[Part],
    from: usize,
) -> Result<(i64, usize), Code>
    requires small { own < 2 ^ 63 }
    requires closed { AreClosed (length variables.now) parts.now }
    requires within { from ≤ length parts.now }
    ensures later { IfOk result (λ r. (from ≤ r.1) × (r.1 ≤ length parts.now) × (from < length parts.now → from < r.1)) }
    ensures ends { IfOk result (λ r. EndsAs own variables.now state.now first (drop from parts.now) r.0 (drop r.1 parts.now)) }
    ensures fails { IfErr result (λ code. Fails own variables.now state.now first (drop from parts.now) code) }
{
    let mut so_far = first;
    let mut at = from;
    while at < parts.len() {
        match parts[at] {
            Part::Join(operator, right) => {
                so_far = joined(operator, so_far, operand(own, variables, state, right))?;
                at += 1;
            }
            Part::Open(operator, start) => {
                let (value, behind) = opened(
                    own,
                    variables,
                    state,
                    so_far,
                    operator,
                    start,
                    parts,
                    at + 1,
                )?;
                so_far = value;
                at = behind;
            }
            Part::Close => return Ok((so_far, at + 1)),
            Part::Negate => {
                so_far = negative(so_far)?;
                at += 1;
            }
            Part::Group => at += 1,
        }
    }
    Ok((so_far, at))
}

/// What an operator makes of a left side and of the right side that begins with an operand and goes on at a position; and the
/// position behind that. Where the left side decides, the right side is passed over.
#[cycle(rows)]
fn opened(
    own: usize,
    variables: &[i64],
    state: &State,
    left: i64,
    operator: Operator,
    start: Operand,
    parts: &[Part],
    from: usize,
) -> Result<(i64, usize), Code>
    requires small { own < 2 ^ 63 }
    requires start { IsClosedExpression (length variables.now) (operand_tree start) }
    requires closed { AreClosed (length variables.now) parts.now }
    requires within { from ≤ length parts.now }
    ensures later { IfOk result (λ r. (from ≤ r.1) × (r.1 ≤ length parts.now)) }
    ensures ends { IfOk result (λ r. Becomes own variables.now state.now left (Part.Open operator start ∷ drop from parts.now) r.0 (drop r.1 parts.now)) }
    ensures fails { IfErr result (λ code. Fails own variables.now state.now left (Part.Open operator start ∷ drop from parts.now) code) }
{
    match decided(operator, left) {
        Some(truth) => Ok((truth, position_behind(parts, from))),
        None => {
            let first = operand(own, variables, state, start);
            let (right, behind) = along(own, variables, state, first, parts, from)?;
            Ok((joined(operator, left, right)?, behind))
        }
    }
}
