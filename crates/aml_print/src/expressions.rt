//! Expressions.

ghost use Rattle.std.specs.Prelude.{◌≡◌, OnOk, map};
ghost use Rattle.aml_tree.specs.Tree.{expression_tree, link_trees};
ghost use Rattle.aml_tree.specs.Grammar.{sign, spelling, listed};
ghost use Rattle.aml_print.specs.Printing.{after, links_spelling};

use crate::tokens::{write_comma, write_field, write_number, write_symbol, write_word};
use aml_tokens::{Symbol, Word, Writer};
use aml_tree::{Expression, Link, Operator};
use snap_base::Memory;
use std::alloc::Global;

#[cycle(writing_expressions)]
pub(crate) fn write_expression(
    alloc: Global,
    writer: &mut Writer,
    expression: &Expression<Word>,
) -> Result<(), Memory>
    ensures { OnOk result (writer.new ≡ after writer.old (spelling (expression_tree expression.now))) }
{
    match expression {
        Expression::Number(number) => write_number(alloc, writer, *number),
        Expression::Variable(word) => write_word(writer, word),
        Expression::Field { field, line } => write_field(writer, *field, *line),
        Expression::Own => write_symbol(writer, Symbol::Own),
        Expression::Group(inner) => {
            write_symbol(writer, Symbol::Open)?;
            write_expression(alloc, writer, inner)?;
            write_symbol(writer, Symbol::Close)?;
            Ok(())
        }
        Expression::Negative(inner) => {
            write_symbol(writer, Symbol::Minus)?;
            write_expression(alloc, writer, inner)?;
            Ok(())
        }
        Expression::Chain { first, rest } => {
            write_expression(alloc, writer, first)?;
            write_links(alloc, writer, rest.as_slice())?;
            Ok(())
        }
    }
}

/// Writes further operands, each behind its operator.
#[cycle(writing_expressions)]
fn write_links(
    alloc: Global,
    writer: &mut Writer,
    rest: &[Link<Expression<Word>>],
) -> Result<(), Memory>
    ensures { OnOk result (writer.new ≡ after writer.old (links_spelling (link_trees rest.now))) }
{
    for link in rest {
        write_symbol(writer, sign(link.operator))?;
        write_expression(alloc, writer, &link.operand)?;
    }
    Ok(())
}

/// The sign or keyword of an operator.
fn sign(operator: Operator) -> Symbol
    ensures { result ≡ sign operator }
{
    match operator {
        Operator::Or => Symbol::Or,
        Operator::And => Symbol::And,
        Operator::Equal => Symbol::Equal,
        Operator::NotEqual => Symbol::NotEqual,
        Operator::Less => Symbol::Less,
        Operator::LessOrEqual => Symbol::LessOrEqual,
        Operator::Greater => Symbol::Greater,
        Operator::GreaterOrEqual => Symbol::GreaterOrEqual,
        Operator::Plus => Symbol::Plus,
        Operator::Minus => Symbol::Minus,
        Operator::Times => Symbol::Times,
        Operator::Over => Symbol::Over,
        Operator::Remainder => Symbol::Remainder,
    }
}

pub(crate) fn write_arguments(
    alloc: Global,
    writer: &mut Writer,
    arguments: &[Expression<Word>],
) -> Result<(), Memory>
    ensures { OnOk result (writer.new ≡ after writer.old (listed (map spelling (map expression_tree arguments.now)))) }
{
    for (at, argument) in arguments.iter().enumerate() {
        write_comma(writer, at)?;
        write_expression(alloc, writer, argument)?;
    }
    Ok(())
}
