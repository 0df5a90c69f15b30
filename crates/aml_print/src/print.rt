//! A program, its methods and their parameters as a text.

ghost use Rattle.std.specs.Prelude.{◌≡◌, ℕ, ◌≤◌, List, IfOk, OnOk, length, map, string_bytes};
ghost use Rattle.std.specs.Str.{IsUtf8};
ghost use Rattle.aml_tokens.specs.Writing.{nothing_written, with_tokens};
ghost use Rattle.aml_tree.specs.Tree.{method_tree, program_tree};
ghost use Rattle.aml_tree.specs.Grammar.{listed, name_spelling, method_spelling, program_spelling};
ghost use Rattle.aml_tree.specs.Programs.{IsProgram, IsProgramText, IsTextOfProgram};
ghost use Rattle.aml_print.specs.Printing.{after};

use crate::blocks::write_block;
use crate::tokens::{write_comma, write_read, write_symbol, write_word};
use aml_tokens::{LONGEST_PROGRAM, Symbol, Word, Writer, tokens_are_read, written_is_read};
use aml_tree::{Method, Program};
use snap_base::Memory;
use std::alloc::Global;

/// A text of a program, in one line, with a blank only where two tokens need one. What is printed of a
/// tree that is no program's is left open.
pub fn print_program(alloc: Global, program: &Program<Word, Word>) -> Result<String, Memory>
    // The text is the tree's spelling, written in one line.
    ensures written { IfOk result (λ text. IsProgram (program_tree program.now) → string_bytes text ≡ (with_tokens nothing_written (program_spelling (program_tree program.now))).text) }
    // Where it is not too long, it spells the same tree, but for the lines.
    ensures read { IfOk result (λ text. IsProgram (program_tree program.now) → length (string_bytes text) ≤ LONGEST_PROGRAM → IsTextOfProgram (string_bytes text) (program_tree program.now)) }
    // So it does where any text spells the program.
    ensures again { IfOk result (λ text. (source : List ℕ) → IsProgramText source (program_tree program.now) → IsTextOfProgram (string_bytes text) (program_tree program.now)) }
{
    tokens_are_read();
    written_is_read();
    let mut writer = Writer::new(alloc);
    write_methods(alloc, &mut writer, program.methods.as_slice())?;
    Ok(text_of(alloc, writer.into_text()))
}

/// The text that bytes are, and the empty one where they are none.
fn text_of(alloc: Global, bytes: Vec<u8>) -> String
    ensures { IsUtf8 bytes.items → string_bytes result ≡ bytes.items }
{
    match String::from_utf8(bytes) {
        Ok(text) => text,
        Err(_) => String::new(alloc),
    }
}

fn write_methods(
    alloc: Global,
    writer: &mut Writer,
    methods: &[Method<Word, Word>],
) -> Result<(), Memory>
    ensures { OnOk result (writer.new ≡ after writer.old (program_spelling (map method_tree methods.now))) }
{
    for method in methods {
        write_method(alloc, writer, method)?;
    }
    Ok(())
}

fn write_method(
    alloc: Global,
    writer: &mut Writer,
    method: &Method<Word, Word>,
) -> Result<(), Memory>
    ensures { OnOk result (writer.new ≡ after writer.old (method_spelling (method_tree method.now))) }
{
    write_read(writer, method.is_read)?;
    write_symbol(writer, Symbol::Method)?;
    write_word(writer, &method.name)?;
    write_symbol(writer, Symbol::Open)?;
    write_parameters(writer, method.parameters.as_slice())?;
    write_symbol(writer, Symbol::Close)?;
    write_symbol(writer, Symbol::OpenBrace)?;
    write_block(alloc, writer, &method.body)?;
    Ok(())
}

fn write_parameters(writer: &mut Writer, words: &[Word]) -> Result<(), Memory>
    ensures { OnOk result (writer.new ≡ after writer.old (listed (map name_spelling words.now))) }
{
    for (at, word) in words.iter().enumerate() {
        write_comma(writer, at)?;
        write_word(writer, word)?;
    }
    Ok(())
}
