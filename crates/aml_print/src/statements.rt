//! Statements without blocks in them, and what stands before a block.

ghost use Rattle.std.specs.Prelude.{◌≡◌, ◌++◌, ◌∷◌, [], OnOk, map};
ghost use Rattle.aml_tokens.specs.declared.tokens.Symbol.TheVariants as symbol;
ghost use Rattle.aml_tokens.specs.Token.{Sign};
ghost use Rattle.aml_tree.specs.Tree.{Let, Call, Set, SetField, Fail, Return, expression_tree};
ghost use Rattle.aml_tree.specs.Grammar.{spelling};
ghost use Rattle.aml_print.specs.Printing.{after, WritesTokens};

use crate::expressions::{write_arguments, write_expression};
use crate::tokens::{write_field, write_let_word, write_number, write_symbol, write_word};
use aml_tokens::{Symbol, Word, Writer};
use aml_tree::Expression;
use snap_base::Memory;
use std::alloc::Global;

pub(crate) fn write_let(
    alloc: Global,
    writer: &mut Writer,
    line: u32,
    variable: &Word,
    value: &Expression<Word>,
) -> Result<(), Memory>
    ensures { OnOk result (WritesTokens writer.old writer.new (Let line variable.now (expression_tree value.now))) }
{
    write_let_word(writer, line)?;
    write_word(writer, variable)?;
    write_symbol(writer, Symbol::Assign)?;
    write_value(alloc, writer, value)?;
    Ok(())
}

pub(crate) fn write_call(
    alloc: Global,
    writer: &mut Writer,
    line: u32,
    variable: &Word,
    target: &Expression<Word>,
    method: &Word,
    arguments: &[Expression<Word>],
) -> Result<(), Memory>
    ensures { OnOk result (WritesTokens writer.old writer.new (Call line variable.now (expression_tree target.now) method.now (map expression_tree arguments.now))) }
{
    write_let_word(writer, line)?;
    write_word(writer, variable)?;
    write_symbol(writer, Symbol::Assign)?;
    write_symbol(writer, Symbol::Call)?;
    write_expression(alloc, writer, target)?;
    write_word(writer, method)?;
    write_symbol(writer, Symbol::Open)?;
    write_arguments(alloc, writer, arguments)?;
    write_symbol(writer, Symbol::Close)?;
    write_symbol(writer, Symbol::Semicolon)?;
    Ok(())
}

pub(crate) fn write_set(
    alloc: Global,
    writer: &mut Writer,
    variable: &Word,
    value: &Expression<Word>,
) -> Result<(), Memory>
    ensures { OnOk result (WritesTokens writer.old writer.new (Set variable.now (expression_tree value.now))) }
{
    write_word(writer, variable)?;
    write_symbol(writer, Symbol::Assign)?;
    write_value(alloc, writer, value)?;
    Ok(())
}

pub(crate) fn write_set_field(
    alloc: Global,
    writer: &mut Writer,
    line: u32,
    field: u8,
    value: &Expression<Word>,
) -> Result<(), Memory>
    ensures { OnOk result (WritesTokens writer.old writer.new (SetField line field (expression_tree value.now))) }
{
    write_field(writer, field, line)?;
    write_symbol(writer, Symbol::Assign)?;
    write_value(alloc, writer, value)?;
    Ok(())
}

pub(crate) fn write_fail(alloc: Global, writer: &mut Writer, code: u16) -> Result<(), Memory>
    ensures { OnOk result (WritesTokens writer.old writer.new (Fail code)) }
{
    write_symbol(writer, Symbol::Fail)?;
    write_number(alloc, writer, u64::from(code))?;
    write_symbol(writer, Symbol::Semicolon)?;
    Ok(())
}

pub(crate) fn write_return(
    alloc: Global,
    writer: &mut Writer,
    value: &Expression<Word>,
) -> Result<(), Memory>
    ensures { OnOk result (WritesTokens writer.old writer.new (Return (expression_tree value.now))) }
{
    write_symbol(writer, Symbol::Return)?;
    write_value(alloc, writer, value)?;
    Ok(())
}

/// WritesTokens a value and the semicolon behind it.
fn write_value(alloc: Global, writer: &mut Writer, value: &Expression<Word>) -> Result<(), Memory>
    ensures { OnOk result (writer.new ≡ after writer.old (spelling (expression_tree value.now) ++ Sign symbol.Semicolon ∷ [])) }
{
    write_expression(alloc, writer, value)?;
    write_symbol(writer, Symbol::Semicolon)?;
    Ok(())
}

/// WritesTokens a keyword, a condition and the brace that opens a block.
pub(crate) fn write_head(
    alloc: Global,
    writer: &mut Writer,
    keyword: Symbol,
    condition: &Expression<Word>,
) -> Result<(), Memory>
    ensures { OnOk result (writer.new ≡ after writer.old (Sign keyword ∷ (spelling (expression_tree condition.now) ++ Sign symbol.OpenBrace ∷ []))) }
{
    write_symbol(writer, keyword)?;
    write_expression(alloc, writer, condition)?;
    write_symbol(writer, Symbol::OpenBrace)?;
    Ok(())
}
