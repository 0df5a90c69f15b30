//! A text as a program, or its first fault.

ghost use Rattle.std.specs.Prelude.{◌≡◌, Ok, Err, map, IfOk, IsErrOf, slice_get};
ghost use Rattle.aml_tokens.specs.Lexing.{tokens, places, stop, line_at, column_at};
ghost use Rattle.aml_tree.specs.Tree.{method_tree, program_tree};
ghost use Rattle.aml_parser.specs.Faults.{IsFirstTextFault};
ghost use Rattle.aml_tree.specs.Programs.{IsProgramText};
ghost use Rattle.aml_parser.specs.Reading.{program};

use crate::methods::methods;
use crate::readers::ReadNo;
use crate::{TextFault, TextNo};
use aml_tokens::{TextCause, Word, lex, position};
use aml_tree::{Method, Program};
use snap_base::Sequence;
use std::alloc::Global;

/// The program that a text spells, or the text's first fault, with the line and the column where it stands.
pub fn parse_program(alloc: Global, text: &str) -> Result<Program<Word, Word>, TextNo>
    // What is read is the program that the text spells.
    ensures found { IfOk result (λ p. IsProgramText text.now (program_tree p)) }
    // A fault is the first one of the text.
    ensures fault { (fault : TextFault) → IsErrOf result (TextNo.Fault fault) → IsFirstTextFault text.now fault }
{
    parse_program_bytes(alloc, text.as_bytes())
}

/// The program that the bytes of a text spell, or the text's first fault, with the line and the column where it stands.
pub fn parse_program_bytes(alloc: Global, text: &[u8]) -> Result<Program<Word, Word>, TextNo>
    ensures found { IfOk result (λ p. IsProgramText text.now (program_tree p)) }
    ensures fault { (fault : TextFault) → IsErrOf result (TextNo.Fault fault) → IsFirstTextFault text.now fault }
{
    let Ok(lexed) = lex(alloc, text) else {
        return Err(TextNo::Memory);
    };
    match methods(alloc, &lexed.tokens) {
        Ok(read) => whole(text, lexed.stop, read),
        Err(ReadNo::At { place, cause }) => Err(TextNo::Fault(fault_at(
            text,
            &lexed.places,
            lexed.stop,
            place,
            cause,
        ))),
        Err(ReadNo::Memory) => Err(TextNo::Memory),
    }
}

/// The program whose tokens were read, where no piece behind them is none.
fn whole(
    text: &[u8],
    piece: Option<(usize, TextCause)>,
    methods: Vec<Method<Word, Word>>,
) -> Result<Program<Word, Word>, TextNo>
    requires piece { piece ≡ stop text.now }
    requires read { program (tokens text.now) ≡ Ok (map method_tree methods.items) }
    ensures found { IfOk result (λ p. IsProgramText text.now (program_tree p)) }
    ensures fault { (fault : TextFault) → IsErrOf result (TextNo.Fault fault) → IsFirstTextFault text.now fault }
{
    match piece {
        Some((at, cause)) => Err(TextNo::Fault(fault_of(text, at, cause))),
        None => Ok(Program {
            methods: Sequence::from_vec(methods),
        }),
    }
}

/// The fault where reading the tokens stops: at a token, or else behind the last one.
fn fault_at(
    text: &[u8],
    starts: &[usize],
    piece: Option<(usize, TextCause)>,
    place: usize,
    cause: TextCause,
) -> TextFault
    requires starts { starts.now ≡ places text.now }
    requires piece { piece ≡ stop text.now }
    requires stops { program (tokens text.now) ≡ Err (place, cause) }
    ensures { IsFirstTextFault text.now result }
{
    if let Some(at) = start_of(starts, place) {
        return fault_of(text, at, cause);
    }
    match piece {
        Some((at, cause)) => fault_of(text, at, cause),
        None => fault_of(text, text.len(), cause),
    }
}

/// Where the token begins with a number, if there is one.
fn start_of(starts: &[usize], place: usize) -> Option<usize>
    ensures { result ≡ slice_get starts.now place }
{
    starts.get(place).copied()
}

fn fault_of(text: &[u8], at: usize, cause: TextCause) -> TextFault
    ensures { result ≡ record { line = line_at text.now at; column = column_at text.now at; cause = cause } }
{
    let (line, column) = position(text, at);
    TextFault {
        line,
        column,
        cause,
    }
}
