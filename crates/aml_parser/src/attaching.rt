//! Operators as they come: each takes the operands before it that bind more tightly.

ghost use Rattle.std.specs.Prelude.{◌≡◌, ℕ, List, ◌++◌, IfOk, ◌∷◌, []};
ghost use Rattle.aml_tokens.specs.declared.tokens.Word.{Word};
ghost use Rattle.aml_tree.specs.Tree.{Expr, Binary, expression_tree, link_trees, chain_tree};
ghost use Rattle.aml_parser.specs.Items.{attached};

use crate::looks::level;
use aml_tokens::Word;
use aml_tree::{Expression, Link, Operator, makers};
use snap_base::Memory;
use std::alloc::Global;

/// An expression with an operator and its operand behind it.
#[cycle(attaching)]
pub(crate) fn attach(
    alloc: Global,
    expression: Expression<Word>,
    operator: Operator,
    operand: Expression<Word>,
) -> Result<Expression<Word>, Memory>
    ensures { IfOk result (λ e. expression_tree e ≡ attached (expression_tree expression) operator (expression_tree operand)) }
{
    match expression {
        Expression::Chain { first, rest } => attach_chain(alloc, first, rest, operator, operand),
        Expression::Number(number) => {
            joined(alloc, Expression::Number(number), operator, operand)
        }
        Expression::Variable(variable) => {
            joined(alloc, Expression::Variable(variable), operator, operand)
        }
        Expression::Field { field, line } => {
            joined(alloc, Expression::Field { field, line }, operator, operand)
        }
        Expression::Own => joined(alloc, Expression::Own, operator, operand),
        Expression::Group(inner) => joined(alloc, Expression::Group(inner), operator, operand),
        Expression::Negative(inner) => {
            joined(alloc, Expression::Negative(inner), operator, operand)
        }
    }
}

fn joined(
    alloc: Global,
    first: Expression<Word>,
    operator: Operator,
    operand: Expression<Word>,
) -> Result<Expression<Word>, Memory>
    ensures { IfOk result (λ e. expression_tree e ≡ Binary operator (expression_tree first) (expression_tree operand)) }
{
    let mut rest = Vec::new(alloc);
    makers::put_link(&mut rest, operator, operand)?;
    makers::chain(alloc, first, rest)
}

/// A chain with an operator and its operand behind it.
#[cycle(attaching)]
fn attach_chain(
    alloc: Global,
    first: Box<Expression<Word>>,
    rest: Vec<Link<Expression<Word>>>,
    operator: Operator,
    operand: Expression<Word>,
) -> Result<Expression<Word>, Memory>
    ensures { IfOk result (λ e. expression_tree e ≡ attached (chain_tree (expression_tree first.value) (link_trees rest.items)) operator (expression_tree operand)) }
{
    let mut rest = rest;
    match rest.pop() {
        Some(last) => attach_last(alloc, first, rest, last, operator, operand),
        None => attach(alloc, Box::into_inner(first), operator, operand),
    }
}

/// A chain whose last link is apart, with an operator and its operand behind it.
#[cycle(attaching)]
fn attach_last(
    alloc: Global,
    first: Box<Expression<Word>>,
    rest: Vec<Link<Expression<Word>>>,
    last: Link<Expression<Word>>,
    operator: Operator,
    operand: Expression<Word>,
) -> Result<Expression<Word>, Memory>
    ensures { IfOk result (λ e. expression_tree e ≡ attached (Binary last.operator (chain_tree (expression_tree first.value) (link_trees rest.items)) (expression_tree last.operand)) operator (expression_tree operand)) }
{
    if level(operator) < level(last.operator) {
        let inner = attach(alloc, last.operand, operator, operand)?;
        return with_link(first, rest, last.operator, inner);
    }
    let mut rest = rest;
    makers::put_link(&mut rest, last.operator, last.operand)?;
    with_link(first, rest, operator, operand)
}

/// A chain with one more link.
fn with_link(
    first: Box<Expression<Word>>,
    rest: Vec<Link<Expression<Word>>>,
    operator: Operator,
    operand: Expression<Word>,
) -> Result<Expression<Word>, Memory>
    ensures { IfOk result (λ e. expression_tree e ≡ Binary operator (chain_tree (expression_tree first.value) (link_trees rest.items)) (expression_tree operand)) }
{
    let mut rest = rest;
    makers::put_link(&mut rest, operator, operand)?;
    Ok(chained(first, rest))
}

fn chained(first: Box<Expression<Word>>, rest: Vec<Link<Expression<Word>>>) -> Expression<Word>
    ensures { expression_tree result ≡ chain_tree (expression_tree first.value) (link_trees rest.items) }
{
    Expression::Chain { first, rest }
}
