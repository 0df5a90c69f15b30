//! Expressions with places for names.

ghost use Rattle.std.specs.Prelude.{◌≤◌, length, map};
ghost use Rattle.std.specs.List.{flat_map};
ghost use Rattle.aml_tree.specs.Tree.{expression_tree, link_trees};
ghost use Rattle.aml_resolver.specs.Faults.{faults};
ghost use Rattle.aml_resolver.specs.Names.{checked_expression};
ghost use Rattle.aml_resolver.specs.Resolving.{Resolves, links_faults, checked_links};

use crate::CheckNo;
use crate::names::variable;
use aml_tokens::{Name, Word};
use aml_tree::{Expression, Link, MOST_NAMES, makers};
use std::alloc::Global;

/// Resolves the variables of an expression, where these names are visible.
#[cycle(expressions)]
pub(crate) fn expression(
    alloc: Global,
    names: &[Name],
    e: &Expression<Word>,
) -> Result<Expression<u8>, CheckNo>
    requires { length names.now ≤ MOST_NAMES }
    ensures { Resolves expression_tree (faults names.now (expression_tree e.now)) (checked_expression names.now (expression_tree e.now)) result }
{
    match e {
        Expression::Number(number) => Ok(Expression::Number(*number)),
        Expression::Variable(word) => Ok(Expression::Variable(variable(names, word)?)),
        Expression::Field { field, line } => Ok(makers::field(*field, *line)),
        Expression::Own => Ok(Expression::Own),
        Expression::Group(inner) => {
            let group = expression(alloc, names, inner)?;
            Ok(makers::group(alloc, group)?)
        }
        Expression::Negative(inner) => {
            let negative = expression(alloc, names, inner)?;
            Ok(makers::negative(alloc, negative)?)
        }
        Expression::Chain { first, rest } => {
            let head = expression(alloc, names, first)?;
            let joined = links(alloc, names, rest)?;
            Ok(makers::chain(alloc, head, joined)?)
        }
    }
}

/// Resolves the further operands of a chain, each behind its operator.
#[cycle(expressions)]
fn links(
    alloc: Global,
    names: &[Name],
    rest: &[Link<Expression<Word>>],
) -> Result<Vec<Link<Expression<u8>>>, CheckNo>
    requires { length names.now ≤ MOST_NAMES }
    ensures { Resolves (λ ls. link_trees ls.items) (links_faults names.now (link_trees rest.now)) (checked_links names.now (link_trees rest.now)) result }
{
    let mut joined = Vec::new(alloc);
    for link in rest {
        let operand = expression(alloc, names, &link.operand)?;
        makers::put_link(&mut joined, link.operator, operand)?;
    }
    Ok(joined)
}

/// The arguments of a call.
pub(crate) fn arguments(
    alloc: Global,
    names: &[Name],
    values: &[Expression<Word>],
) -> Result<Vec<Expression<u8>>, CheckNo>
    requires { length names.now ≤ MOST_NAMES }
    ensures { Resolves (λ es. map expression_tree es.items) (flat_map (faults names.now) (map expression_tree values.now)) (map (checked_expression names.now) (map expression_tree values.now)) result }
{
    let mut given = Vec::new(alloc);
    for value in values {
        let resolved = expression(alloc, names, value)?;
        makers::put_argument(&mut given, resolved)?;
    }
    Ok(given)
}
