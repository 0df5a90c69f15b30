//! Single tokens.

ghost use Rattle.std.specs.Prelude.{◌≡◌, ◌∷◌, [], OnOk};
ghost use Rattle.aml_tokens.specs.Token.{Name, Number, Field, Sign, Let, CloseBrace};
ghost use Rattle.aml_tree.specs.Grammar.{read_spelling};
ghost use Rattle.aml_print.specs.Printing.{after, comma_before};

use aml_tokens::{Symbol, Word, Writer};
use snap_base::Memory;
use std::alloc::Global;

#[tactic(auto, unfolding(crate::specs::Printing::after))]
pub(crate) fn write_symbol(writer: &mut Writer, symbol: Symbol) -> Result<(), Memory>
    ensures { OnOk result (writer.new ≡ after writer.old (Sign symbol ∷ [])) }
{
    writer.symbol(symbol)?;
    Ok(())
}

#[tactic(auto, unfolding(crate::specs::Printing::after))]
pub(crate) fn write_word(writer: &mut Writer, word: &Word) -> Result<(), Memory>
    ensures { OnOk result (writer.new ≡ after writer.old (Name word.now ∷ [])) }
{
    writer.name(word.name.as_slice())?;
    Ok(())
}

#[tactic(auto, unfolding(crate::specs::Printing::after))]
pub(crate) fn write_number(alloc: Global, writer: &mut Writer, number: u64) -> Result<(), Memory>
    ensures { OnOk result (writer.new ≡ after writer.old (Number number ∷ [])) }
{
    writer.number(alloc, number)?;
    Ok(())
}

/// Writes a field, whatever its line was.
#[tactic(auto, unfolding(crate::specs::Printing::after))]
pub(crate) fn write_field(writer: &mut Writer, field: u8, _line: u32) -> Result<(), Memory>
    ensures { OnOk result (writer.new ≡ after writer.old (Field field _line ∷ [])) }
{
    writer.field(field)?;
    Ok(())
}

/// Writes `let`, whatever its line was.
#[tactic(auto, unfolding(crate::specs::Printing::after))]
pub(crate) fn write_let_word(writer: &mut Writer, _line: u32) -> Result<(), Memory>
    ensures { OnOk result (writer.new ≡ after writer.old (Let _line ∷ [])) }
{
    writer.let_word()?;
    Ok(())
}

/// Writes the brace that closes a block, whatever its line was.
#[tactic(auto, unfolding(crate::specs::Printing::after))]
pub(crate) fn write_close_brace(writer: &mut Writer, _line: u32) -> Result<(), Memory>
    ensures { OnOk result (writer.new ≡ after writer.old (CloseBrace _line ∷ [])) }
{
    writer.close_brace()?;
    Ok(())
}

/// Writes `read` where a method has that word.
#[tactic(auto, unfolding(crate::specs::Printing::after))]
pub(crate) fn write_read(writer: &mut Writer, is_read: bool) -> Result<(), Memory>
    ensures { OnOk result (writer.new ≡ after writer.old (read_spelling is_read)) }
{
    if is_read {
        writer.symbol(Symbol::Read)?;
    }
    Ok(())
}

/// Writes the comma before an element with so many before it.
#[tactic(auto, unfolding(crate::specs::Printing::after))]
pub(crate) fn write_comma(writer: &mut Writer, before: usize) -> Result<(), Memory>
    ensures { OnOk result (writer.new ≡ after writer.old (comma_before before)) }
{
    if before > 0 {
        writer.symbol(Symbol::Comma)?;
    }
    Ok(())
}
