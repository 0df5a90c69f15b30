//! Which bytes make words, blanks and comparisons, and which byte goes on with the piece before it.

ghost use Rattle.std.specs.Prelude.{◌≡◌};
ghost use Rattle.aml_tokens.specs.Bytes.{is_letter, is_digit, is_word_byte, is_blank, begins_comparison};
ghost use Rattle.aml_tokens.specs.Lexing.{joins};

/// A letter or `_`.
pub fn is_letter(byte: u8) -> bool
    ensures { result ≡ is_letter byte }
{
    byte.is_ascii_alphabetic() || byte == b'_'
}

/// One of `0` to `9`.
pub fn is_digit(byte: u8) -> bool
    ensures { result ≡ is_digit byte }
{
    byte.is_ascii_digit()
}

/// A letter, `_` or a digit.
fn is_word_byte(byte: u8) -> bool
    ensures { result ≡ is_word_byte byte }
{
    is_letter(byte) || is_digit(byte)
}

/// A blank, a tab or a line's end.
pub fn is_blank(byte: u8) -> bool
    ensures { result ≡ is_blank byte }
{
    matches!(byte, b' ' | b'\t' | b'\n')
}

fn begins_comparison(byte: u8) -> bool
    ensures { result ≡ begins_comparison byte }
{
    matches!(byte, b'=' | b'!' | b'<' | b'>')
}

/// Whether a byte goes on with the piece before it.
pub fn joins(front: &[u8], byte: u8) -> bool
    ensures { result ≡ joins front.now byte }
{
    match front {
        [] => false,
        [first] => {
            (is_word_byte(*first) && is_word_byte(byte))
                || (begins_comparison(*first) && byte == b'=')
        }
        [first, ..] => is_word_byte(*first) && is_word_byte(byte),
    }
}
