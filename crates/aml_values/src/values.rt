//! What operators make of values.

ghost use Rattle.std.specs.Prelude.{◌≡◌, ◌-ℤ◌, pos};
ghost use Rattle.aml_check.specs.Meaning.{decided, divided, in_range, is_nonzero, joined, truth};

use crate::codes::{Code, OVERFLOW, ZERO_DIVISOR};
use aml_tree::Operator;

/// What is not 0 holds.
pub fn holds(value: i64) -> bool
    ensures { result ≡ is_nonzero value }
{
    value != 0
}

/// 1 or 0.
fn truth(holds: bool) -> i64
    ensures { result ≡ truth holds }
{
    if holds { 1 } else { 0 }
}

fn quotient(left: i64, right: i64) -> Result<i64, Code>
    ensures { result ≡ divided left right }
{
    if right == 0 {
        return Err(ZERO_DIVISOR);
    }
    left.checked_div(right).ok_or(OVERFLOW)
}

fn remainder(left: i64, right: i64) -> Result<i64, Code>
    ensures { result ≡ joined Operator.Remainder left right }
{
    if right == 0 {
        return Err(ZERO_DIVISOR);
    }
    left.checked_rem(right).ok_or(OVERFLOW)
}

/// What an operator makes of both sides, or the code of the failure.
#[inline(always)]
pub(crate) fn joined(operator: Operator, left: i64, right: i64) -> Result<i64, Code>
    ensures { result ≡ joined operator left right }
{
    match operator {
        Operator::Or => Ok(truth(holds(left) || holds(right))),
        Operator::And => Ok(truth(holds(left) && holds(right))),
        Operator::Equal => Ok(truth(left == right)),
        Operator::NotEqual => Ok(truth(left != right)),
        Operator::Less => Ok(truth(left < right)),
        Operator::LessOrEqual => Ok(truth(left <= right)),
        Operator::Greater => Ok(truth(left > right)),
        Operator::GreaterOrEqual => Ok(truth(left >= right)),
        Operator::Plus => left.checked_add(right).ok_or(OVERFLOW),
        Operator::Minus => left.checked_sub(right).ok_or(OVERFLOW),
        Operator::Times => left.checked_mul(right).ok_or(OVERFLOW),
        Operator::Over => quotient(left, right),
        Operator::Remainder => remainder(left, right),
    }
}

/// The truth that the left side decides alone.
#[inline(always)]
pub(crate) fn decided(operator: Operator, left: i64) -> Option<i64>
    ensures { result ≡ decided operator left }
{
    match operator {
        Operator::Or if holds(left) => Some(1),
        Operator::And if !holds(left) => Some(0),
        _ => None,
    }
}

/// The negative of a value, or the code of the failure where it is out of range.
pub(crate) fn negative(value: i64) -> Result<i64, Code>
    ensures { result ≡ in_range (pos 0 -ℤ value) }
{
    value.checked_neg().ok_or(OVERFLOW)
}
