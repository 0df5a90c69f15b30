//! The token that a piece of bytes is.

ghost use Rattle.std.specs.Prelude.{◌≡◌, ℕ, ◌<◌, ◌≤◌, ◌^◌, min, true, length};
ghost use Rattle.std.specs.List.{list_all};
ghost use Rattle.std.specs.Str.Parse.{digits_value};
ghost use Rattle.aml_tokens.specs.Bytes.{is_digit, keywords, signs};
ghost use Rattle.aml_tokens.specs.Lexing.{symbol_of, field_of, field_words, is_plain, number_token, word_token, sign_token, token_in};
ghost use Rattle.aml_tokens.specs.Reading.{as_token};

use crate::LONGEST_NAME;
use crate::bytes::{is_digit, is_letter};
use crate::spellings::{field_bytes, symbol_bytes};
use crate::tokens::{Symbol, TextCause, Token};

const KEYWORDS: [Symbol; 11] = [
    Symbol::Method,
    Symbol::Read,
    Symbol::If,
    Symbol::Else,
    Symbol::While,
    Symbol::Call,
    Symbol::Fail,
    Symbol::Return,
    Symbol::Own,
    Symbol::And,
    Symbol::Or,
];

const SIGNS: [Symbol; 17] = [
    Symbol::Open,
    Symbol::Close,
    Symbol::OpenBrace,
    Symbol::Comma,
    Symbol::Semicolon,
    Symbol::Assign,
    Symbol::Equal,
    Symbol::NotEqual,
    Symbol::Less,
    Symbol::LessOrEqual,
    Symbol::Greater,
    Symbol::GreaterOrEqual,
    Symbol::Plus,
    Symbol::Minus,
    Symbol::Times,
    Symbol::Over,
    Symbol::Remainder,
];

/// The first number that is too large for a text.
const NUMBER_LIMIT: u64 = 1 << 63;

/// The token that a piece of bytes in a line is, or what is wrong with it.
pub fn token_in(bytes: &[u8], line: u32) -> Result<Token<'_>, TextCause>
    ensures { as_token result ≡ token_in line bytes.now }
{
    match bytes {
        [] => Err(TextCause::BadByte),
        [first, ..] if is_digit(*first) => number(bytes),
        [first, ..] if is_letter(*first) => word(bytes, line),
        _ => sign(bytes, line),
    }
}

fn number(bytes: &[u8]) -> Result<Token<'_>, TextCause>
    ensures { as_token result ≡ number_token bytes.now }
{
    if !is_plain(bytes) {
        return Err(TextCause::BadToken);
    }
    let n = value(bytes);
    if n < NUMBER_LIMIT {
        Ok(Token::Number(n))
    } else {
        Err(TextCause::NumberRange)
    }
}

/// Whether there are only digits, of which the first is no zero unless it stands alone.
fn is_plain(bytes: &[u8]) -> bool
    ensures { result ≡ is_plain bytes.now }
{
    match bytes {
        [] => false,
        [digit] => is_digit(*digit),
        [first, ..] => are_digits(bytes) && *first != b'0',
    }
}

fn are_digits(bytes: &[u8]) -> bool
    ensures { result ≡ list_all is_digit bytes.now }
{
    bytes.iter().all(|byte| is_digit(*byte))
}

/// The number that digits write, or 2^63 where it is no less.
fn value(digits: &[u8]) -> u64
    requires { list_all is_digit digits.now ≡ true }
    ensures { result ≡ min (digits_value 10 digits.now) (2 ^ 63) }
{
    let mut n: u64 = 0;
    for digit in digits {
        n = n
            .saturating_mul(10)
            .saturating_add(u64::from(*digit - b'0'))
            .min(NUMBER_LIMIT);
    }
    n
}

fn word(bytes: &[u8], line: u32) -> Result<Token<'_>, TextCause>
    ensures { as_token result ≡ word_token line bytes.now }
{
    if bytes == b"let".as_slice() {
        return Ok(Token::Let { line });
    }
    if let Some(symbol) = symbol_in(&KEYWORDS, bytes) {
        return Ok(Token::Symbol(symbol));
    }
    if let Some(field) = field_in(bytes) {
        return Ok(Token::Field { field, line });
    }
    if bytes.len() <= LONGEST_NAME {
        Ok(Token::Name { name: bytes, line })
    } else {
        Err(TextCause::BadToken)
    }
}

fn sign(bytes: &[u8], line: u32) -> Result<Token<'_>, TextCause>
    ensures { as_token result ≡ sign_token line bytes.now }
{
    if bytes == b"}".as_slice() {
        return Ok(Token::CloseBrace { line });
    }
    if let Some(symbol) = symbol_in(&SIGNS, bytes) {
        return Ok(Token::Symbol(symbol));
    }
    if bytes == b"!".as_slice() {
        Err(TextCause::BadToken)
    } else {
        Err(TextCause::BadByte)
    }
}

/// The first of the symbols that is written so.
fn symbol_in(symbols: &[Symbol], bytes: &[u8]) -> Option<Symbol>
    ensures { result ≡ symbol_of symbols.now bytes.now }
{
    for symbol in symbols {
        if bytes == symbol_bytes(*symbol) {
            return Some(*symbol);
        }
    }
    None
}

/// The field that is written so.
fn field_in(bytes: &[u8]) -> Option<u8>
    ensures { result ≡ field_of 0 field_words bytes.now }
{
    for field in 0..16 {
        if bytes == field_bytes(field) {
            return Some(field);
        }
    }
    None
}
