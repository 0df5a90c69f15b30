//! The tokens of a text, their places, and where the first piece stands that is no token.

ghost use Rattle.std.specs.Prelude.{◌≡◌, ℕ, ◌+◌, IfOk, length};
ghost use Rattle.aml_tokens.specs.Token.{tokens_of};
ghost use Rattle.aml_tokens.specs.Lexing.{Piece, within, token_in, tokens, places, stop};
ghost use Rattle.aml_tokens.specs.Reading.{as_token};

use crate::LONGEST_PROGRAM;
use crate::pieces::{next_piece, piece_end};
use crate::places::{line_feeds, told};
use crate::tokens::{TextCause, Token};
use crate::words::token_in;
use snap_base::Memory;
use std::alloc::Global;

/// The tokens of a text up to the first piece that is none.
#[derive(Drop)]
pub struct Lexed<'a> {
    pub tokens: Vec<Token<'a>>,
    /// The place of each token's first byte, from 0 on.
    pub places: Vec<usize>,
    /// The place of the first piece that is no token, or that lies beyond the first `LONGEST_PROGRAM` bytes, and
    /// what is wrong with it.
    pub stop: Option<(usize, TextCause)>,
}

/// Cuts a text into tokens.
pub fn lex(alloc: Global, text: &[u8]) -> Result<Lexed<'_>, Memory>
    ensures tokens { IfOk result (λ l. tokens_of l.tokens.items ≡ tokens text.now) }
    ensures places { IfOk result (λ l. l.places.items ≡ places text.now) }
    ensures stop { IfOk result (λ l. l.stop ≡ stop text.now) }
{
    let mut tokens = Vec::new(alloc);
    let mut places = Vec::new(alloc);
    let mut lines = 0;
    let mut counted = 0;
    let mut at = next_piece(text, 0);
    while at < text.len() {
        lines += line_feeds(&text[counted..at]);
        counted = at;
        let end = piece_end(text, at);
        match token_before(&text[at..end], end, told(1 + lines)) {
            Ok(token) => {
                tokens.push(token)?;
                places.push(at)?;
            }
            Err(cause) => {
                return Ok(Lexed {
                    tokens,
                    places,
                    stop: Some((at, cause)),
                });
            }
        }
        at = next_piece(text, end);
    }
    Ok(Lexed {
        tokens,
        places,
        stop: None,
    })
}

/// The token that a piece is which ends before a place.
fn token_before(bytes: &[u8], end: usize, line: u32) -> Result<Token<'_>, TextCause>
    ensures { (at : ℕ) → at + length bytes.now ≡ end → as_token result ≡ within (record { at = at; bytes = bytes.now }) (token_in line bytes.now) }
{
    let token = token_in(bytes, line)?;
    if end <= LONGEST_PROGRAM {
        Ok(token)
    } else {
        Err(TextCause::TooMany)
    }
}
