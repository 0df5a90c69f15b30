//! Blocks, and the statements in them.

ghost use Rattle.std.specs.Prelude.{◌≡◌, OnOk};
ghost use Rattle.aml_tree.specs.Tree.{statement_tree, block_tree};
ghost use Rattle.aml_tree.specs.Grammar.{block_spelling};
ghost use Rattle.aml_print.specs.Printing.{after, WritesTokens};

use crate::statements::{
    write_call, write_fail, write_head, write_let, write_return, write_set, write_set_field,
};
use crate::tokens::{write_close_brace, write_symbol};
use aml_tokens::{Symbol, Word, Writer};
use aml_tree::{Block, Statement};
use snap_base::Memory;
use std::alloc::Global;

/// WritesTokens the statements of a block and its closing brace.
#[cycle(writing_blocks)]
pub(crate) fn write_block(
    alloc: Global,
    writer: &mut Writer,
    block: &Block<Statement<Word, Word>>,
) -> Result<(), Memory>
    ensures { OnOk result (writer.new ≡ after writer.old (block_spelling (block_tree block.now))) }
{
    for statement in block.statements.as_slice() {
        write_statement(alloc, writer, statement)?;
    }
    write_close_brace(writer, block.last_line)?;
    Ok(())
}

#[cycle(writing_blocks)]
fn write_statement(
    alloc: Global,
    writer: &mut Writer,
    statement: &Statement<Word, Word>,
) -> Result<(), Memory>
    ensures { OnOk result (WritesTokens writer.old writer.new (statement_tree statement.now)) }
{
    match statement {
        Statement::Let {
            line,
            variable,
            value,
        } => write_let(alloc, writer, *line, variable, value),
        Statement::Call {
            line,
            variable,
            target,
            method,
            arguments,
        } => write_call(
            alloc,
            writer,
            *line,
            variable,
            target,
            method,
            arguments.as_slice(),
        ),
        Statement::Set { variable, value } => write_set(alloc, writer, variable, value),
        Statement::SetField { line, field, value } => {
            write_set_field(alloc, writer, *line, *field, value)
        }
        Statement::If { condition, first } => {
            write_head(alloc, writer, Symbol::If, condition)?;
            write_block(alloc, writer, first)?;
            Ok(())
        }
        Statement::IfElse {
            condition,
            first,
            other,
        } => {
            write_head(alloc, writer, Symbol::If, condition)?;
            write_block(alloc, writer, first)?;
            write_symbol(writer, Symbol::Else)?;
            write_symbol(writer, Symbol::OpenBrace)?;
            write_block(alloc, writer, other)?;
            Ok(())
        }
        Statement::While { condition, body } => {
            write_head(alloc, writer, Symbol::While, condition)?;
            write_block(alloc, writer, body)?;
            Ok(())
        }
        Statement::Fail { code } => write_fail(alloc, writer, *code),
        Statement::Return { value } => write_return(alloc, writer, value),
    }
}
