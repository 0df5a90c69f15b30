//! How keywords, signs and fields are written.

ghost use Rattle.std.specs.Prelude.{◌≡◌, [], slice_index_or};
ghost use Rattle.aml_tokens.specs.Bytes.{symbol_bytes};
ghost use Rattle.aml_tokens.specs.Lexing.{field_words};

use crate::tokens::Symbol;

/// How a keyword or a sign is written.
pub fn symbol_bytes(symbol: Symbol) -> &'static [u8]
    ensures { result.now ≡ symbol_bytes symbol }
{
    match symbol {
        Symbol::Method => b"method",
        Symbol::Read => b"read",
        Symbol::If => b"if",
        Symbol::Else => b"else",
        Symbol::While => b"while",
        Symbol::Call => b"call",
        Symbol::Fail => b"fail",
        Symbol::Return => b"return",
        Symbol::Own => b"self",
        Symbol::And => b"and",
        Symbol::Or => b"or",
        Symbol::Open => b"(",
        Symbol::Close => b")",
        Symbol::OpenBrace => b"{",
        Symbol::Comma => b",",
        Symbol::Semicolon => b";",
        Symbol::Assign => b"=",
        Symbol::Equal => b"==",
        Symbol::NotEqual => b"!=",
        Symbol::Less => b"<",
        Symbol::LessOrEqual => b"<=",
        Symbol::Greater => b">",
        Symbol::GreaterOrEqual => b">=",
        Symbol::Plus => b"+",
        Symbol::Minus => b"-",
        Symbol::Times => b"*",
        Symbol::Over => b"/",
        Symbol::Remainder => b"%",
    }
}

/// How a field, 0 to 15, is written, and nothing for another number.
pub fn field_bytes(field: u8) -> &'static [u8]
    ensures { result.now ≡ slice_index_or field_words field [] }
{
    match field {
        0 => b"f0",
        1 => b"f1",
        2 => b"f2",
        3 => b"f3",
        4 => b"f4",
        5 => b"f5",
        6 => b"f6",
        7 => b"f7",
        8 => b"f8",
        9 => b"f9",
        10 => b"f10",
        11 => b"f11",
        12 => b"f12",
        13 => b"f13",
        14 => b"f14",
        15 => b"f15",
        _ => b"",
    }
}
