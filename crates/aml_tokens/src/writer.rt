//! A text in one line that tokens are written to.

ghost use Rattle.std.specs.Prelude.{◌≡◌, ◌≤◌, [], ◌∷◌, ◌++◌, OnOk, length, drop, slice_index, if◌then◌else◌};
ghost use Rattle.aml_tokens.specs.Lexing.{joins};

use crate::bytes::joins;
use crate::spellings::{field_bytes, symbol_bytes};
use crate::tokens::Symbol;
use snap_base::Memory;
use std::alloc::Global;
use std::marker::Model;

/// A text that tokens are written to, all in one line, with a blank only where two of them would make
/// one piece. It is no longer than any other text of these tokens.
#[derive(Drop)]
pub struct Writer {
    text: Vec<u8>,
    /// Where the piece begins that was written last.
    last: usize,
}

impl Model for Writer {
    ghost use Rattle.std.specs.Prelude.{◌≤◌, drop, length};
    ghost use Rattle.aml_tokens.specs.Writing.{Written};

    ghost Value = { Written };

    ghost view = { λ w. record { text = w.text.items; last = drop w.last w.text.items } };

    ghost invariant = { λ w. w.last ≤ length w.text.items };
}

impl Writer {
    ghost use Rattle.std.specs.Prelude.{◌≡◌, OnOk, slice_index_or, [], codes};
    ghost use Rattle.std.specs.Fmt.{decimal};
    ghost use Rattle.aml_tokens.specs.Bytes.{symbol_bytes};
    ghost use Rattle.aml_tokens.specs.Lexing.{field_words};
    ghost use Rattle.aml_tokens.specs.Writing.{nothing_written, with_piece};

    /// The empty text, which takes no memory.
    pub fn new(alloc: Global) -> Self
        ensures { result ≡ nothing_written }
    {
        Writer {
            text: Vec::new(alloc),
            last: 0,
        }
    }

    /// What was written.
    pub fn into_text(self) -> Vec<u8>
        ensures { result.items ≡ self.text }
    {
        let Writer { text, last: _ } = self;
        text
    }

    /// Writes the bytes of a name. Want of memory leaves an unknown text.
    pub fn name(&mut self, name: &[u8]) -> Result<(), Memory>
        ensures { OnOk result (self.new ≡ with_piece self.old name.now) }
    {
        self.piece(name)
    }

    /// Writes a number in decimal. Want of memory leaves an unknown text.
    pub fn number(&mut self, alloc: Global, number: u64) -> Result<(), Memory>
        ensures { OnOk result (self.new ≡ with_piece self.old (decimal number)) }
    {
        let digits = format!(in alloc; "{number}")?;
        self.piece(digits.as_bytes())
    }

    /// Writes a field, 0 to 15. Want of memory leaves an unknown text.
    pub fn field(&mut self, field: u8) -> Result<(), Memory>
        ensures { OnOk result (self.new ≡ with_piece self.old (slice_index_or field_words field [])) }
    {
        self.piece(field_bytes(field))
    }

    /// Writes a keyword or a sign. Want of memory leaves an unknown text.
    pub fn symbol(&mut self, symbol: Symbol) -> Result<(), Memory>
        ensures { OnOk result (self.new ≡ with_piece self.old (symbol_bytes symbol)) }
    {
        self.piece(symbol_bytes(symbol))
    }

    /// Writes the word `let`. Want of memory leaves an unknown text.
    pub fn let_word(&mut self) -> Result<(), Memory>
        ensures { OnOk result (self.new ≡ with_piece self.old (codes "let")) }
    {
        self.piece(b"let")
    }

    /// Writes the brace that closes a block. Want of memory leaves an unknown text.
    pub fn close_brace(&mut self) -> Result<(), Memory>
        ensures { OnOk result (self.new ≡ with_piece self.old (codes "}")) }
    {
        self.piece(b"}")
    }

    fn piece(&mut self, piece: &[u8]) -> Result<(), Memory>
        ensures { OnOk result (self.new ≡ with_piece self.old piece.now) }
    {
        part(&mut self.text, self.last, first_byte(piece))?;
        let begun = self.text.len();
        self.text.extend_from_slice(piece)?;
        self.last = begun;
        Ok(())
    }
}

/// The first byte, or 0 where there is none.
fn first_byte(piece: &[u8]) -> u8
    ensures { result ≡ slice_index piece.now 0 }
{
    match piece.first() {
        Some(byte) => *byte,
        None => 0,
    }
}

/// Writes a blank where a byte would go on with the last piece.
fn part(text: &mut Vec<u8>, last: usize, byte: u8) -> Result<(), Memory>
    requires { last ≤ length text.old.items }
    ensures kept { length text.old.items ≤ length text.new.items }
    ensures blank { OnOk result (text.new.items ≡ text.old.items ++ (if joins (drop last text.old.items) byte then 32 ∷ [] else [])) }
{
    if joins(&text[last..], byte) {
        text.push(b' ')?;
    }
    Ok(())
}
