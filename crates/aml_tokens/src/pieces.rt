//! Where a piece of a text begins and where it ends, past blanks and comments.

ghost use Rattle.std.specs.Prelude.{◌≡◌, ◌≢◌, ◌<◌, ◌≤◌, false, ◌∷◌, length, slice_index};
ghost use Rattle.std.specs.List.{between};
ghost use Rattle.aml_tokens.specs.Bytes.{is_blank};
ghost use Rattle.aml_tokens.specs.Lexing.{Piece};
ghost use Rattle.aml_tokens.specs.Reading.{pieces_at};

use crate::bytes::{is_blank, joins};

/// The place of the first byte from a place on that is neither a blank nor in a comment; the text's
/// length where there is none.
pub fn next_piece(text: &[u8], from: usize) -> usize
    requires { from ≤ length text.now }
    ensures within { (from ≤ result) × (result ≤ length text.now) }
    ensures same { pieces_at text.now result ≡ pieces_at text.now from }
    ensures no_blank { result < length text.now → is_blank (slice_index text.now result) ≡ false }
    ensures no_comment { result < length text.now → slice_index text.now result ≢ 35 }
{
    let mut in_comment = false;
    for at in from..text.len() {
        let byte = text[at];
        in_comment = (in_comment || byte == b'#') && byte != b'\n';
        if !in_comment && !is_blank(byte) {
            return at;
        }
    }
    text.len()
}

/// The place behind the piece that begins at a place.
pub fn piece_end(text: &[u8], start: usize) -> usize
    requires within { start < length text.now }
    requires no_blank { is_blank (slice_index text.now start) ≡ false }
    requires no_comment { slice_index text.now start ≢ 35 }
    ensures end { (start < result) × (result ≤ length text.now) }
    ensures piece { pieces_at text.now start ≡ record { at = start; bytes = between start result text.now } ∷ pieces_at text.now result }
{
    for end in start + 1..text.len() {
        if !joins(&text[start..end], text[end]) {
            return end;
        }
    }
    text.len()
}
