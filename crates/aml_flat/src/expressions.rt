//! Expressions made flat.

ghost use Rattle.std.specs.Prelude.{◌≡◌, ◌∷◌, ◌++◌, [], map, IfOk, IfSome};
ghost use Rattle.aml_tree.specs.declared.trees.Link.{Link};
ghost use Rattle.aml_tree.specs.Tree.{expression_tree, link_trees};
ghost use Rattle.aml_flat.specs.Flat.{MakesChain, MakesWhole, flat_tree, leftmost, operand_tree};

use crate::operations::{FlatExpression, Operand, Part};
use aml_tree::{Expression, Link, Operator};
use snap_base::Memory;
use std::alloc::Global;

/// An expression that is read in place.
fn operand(e: &Expression<u8>) -> Option<Operand>
    ensures { IfSome result (λ o. operand_tree o ≡ expression_tree e.now) }
{
    match e {
        Expression::Number(number) => Some(Operand::Number(*number)),
        Expression::Variable(place) => Some(Operand::Variable(*place)),
        Expression::Field { field, line } => Some(Operand::Field {
            field: *field,
            line: *line,
        }),
        Expression::Own => Some(Operand::Own),
        Expression::Group(_) | Expression::Negative(_) | Expression::Chain { .. } => None,
    }
}

/// An operator with its two operands, both of which are read in place.
fn two(e: &Expression<u8>) -> Option<FlatExpression>
    ensures { IfSome result (λ f. flat_tree f ≡ expression_tree e.now) }
{
    match e {
        Expression::Chain { first, rest } => {
            let [link] = rest.as_slice() else {
                return None;
            };
            let left = operand(first)?;
            let right = operand(&link.operand)?;
            Some(FlatExpression::Two(link.operator, left, right))
        }
        Expression::Number(_)
        | Expression::Variable(_)
        | Expression::Field { .. }
        | Expression::Own
        | Expression::Group(_)
        | Expression::Negative(_) => None,
    }
}

/// The operand with which an expression begins.
fn first_operand(e: &Expression<u8>) -> Operand
    ensures { operand_tree result ≡ leftmost (expression_tree e.now) }
{
    match e {
        Expression::Number(number) => Operand::Number(*number),
        Expression::Variable(place) => Operand::Variable(*place),
        Expression::Field { field, line } => Operand::Field {
            field: *field,
            line: *line,
        },
        Expression::Own => Operand::Own,
        Expression::Group(inner) | Expression::Negative(inner) => first_operand(inner),
        Expression::Chain { first, rest: _ } => first_operand(first),
    }
}

/// Puts what an expression does behind its first operand. Want of memory leaves some parts of it.
#[cycle(parts)]
fn put_parts(e: &Expression<u8>, parts: &mut Vec<Part>) -> Result<(), Memory>
    ensures { IfOk result (λ _. MakesWhole parts.old.items parts.new.items (expression_tree e.now)) }
{
    match e {
        Expression::Number(_)
        | Expression::Variable(_)
        | Expression::Field { .. }
        | Expression::Own => Ok(()),
        Expression::Group(inner) => {
            put_parts(inner, parts)?;
            put_part(parts, Part::Group)
        }
        Expression::Negative(inner) => {
            put_parts(inner, parts)?;
            put_part(parts, Part::Negate)
        }
        Expression::Chain { first, rest } => {
            put_parts(first, parts)?;
            put_links(rest, parts)
        }
    }
}

/// Puts what operators do with the operands behind them. Want of memory leaves some parts of it.
#[cycle(parts)]
fn put_links(rest: &[Link<Expression<u8>>], parts: &mut Vec<Part>) -> Result<(), Memory>
    ensures { IfOk result (λ _. MakesChain parts.old.items parts.new.items (link_trees rest.now)) }
{
    for link in rest {
        put_link(link.operator, &link.operand, parts)?;
    }
    Ok(())
}

/// Puts what an operator does with the operand behind it. Want of memory leaves some parts of it.
#[cycle(parts)]
fn put_link(operator: Operator, e: &Expression<u8>, parts: &mut Vec<Part>) -> Result<(), Memory>
    ensures { IfOk result (λ _. MakesChain parts.old.items parts.new.items (record { operator = operator; operand = expression_tree e.now } ∷ [])) }
{
    match operand(e) {
        Some(one) => put_part(parts, Part::Join(operator, one)),
        None => {
            put_part(parts, Part::Open(operator, first_operand(e)))?;
            put_parts(e, parts)?;
            put_part(parts, Part::Close)
        }
    }
}

fn put_part(parts: &mut Vec<Part>, part: Part) -> Result<(), Memory>
    ensures { IfOk result (λ _. parts.new.items ≡ parts.old.items ++ part ∷ []) }
{
    parts.push(part)?;
    Ok(())
}

/// An expression made flat. Want of memory gives it up.
pub(crate) fn flat(alloc: Global, e: &Expression<u8>) -> Result<FlatExpression, Memory>
    ensures { IfOk result (λ f. flat_tree f ≡ expression_tree e.now) }
{
    if let Some(one) = operand(e) {
        return Ok(FlatExpression::One(one));
    }
    if let Some(both) = two(e) {
        return Ok(both);
    }
    let mut parts = Vec::new(alloc);
    put_parts(e, &mut parts)?;
    Ok(FlatExpression::Row {
        first: first_operand(e),
        parts,
    })
}

/// Expressions made flat.
pub(crate) fn flat_row(alloc: Global, es: &[Expression<u8>]) -> Result<Vec<FlatExpression>, Memory>
    ensures { IfOk result (λ row. map flat_tree row.items ≡ map expression_tree es.now) }
{
    let mut row = Vec::new(alloc);
    for e in es {
        put(&mut row, flat(alloc, e)?)?;
    }
    Ok(row)
}

fn put(row: &mut Vec<FlatExpression>, one: FlatExpression) -> Result<(), Memory>
    ensures { IfOk result (λ _. map flat_tree row.new.items ≡ map flat_tree row.old.items ++ flat_tree one ∷ []) }
{
    row.push(one)?;
    Ok(())
}
