//! What stands at a place among the tokens.

ghost use Rattle.std.specs.Prelude.{◌≡◌, true, ◌<◌, length, IfOk, IsSome, option_map, slice_get};
ghost use Rattle.aml_tokens.specs.Token.{token_of, tokens_of};
ghost use Rattle.aml_tree.specs.Grammar.{level};
ghost use Rattle.aml_parser.specs.Items.{allowed, compares, is_call, is_close, is_comma, is_else, is_method, is_minus, is_read, is_sign, operator_of};
ghost use Rattle.aml_parser.specs.Reading.{if_allowed, operator_there, sign_there, there};

use crate::readers::{ReadNo, Sign};
use aml_tokens::{Symbol, TextCause, Token, Word};
use aml_tree::Operator;
use snap_base::{Memory, Sequence};
use std::alloc::Global;

/// The token at a place.
pub(crate) fn token_at<'a>(tokens: &[Token<'a>], at: usize) -> Option<Token<'a>>
    ensures token { option_map token_of result ≡ slice_get (tokens_of tokens.now) at }
    ensures within { IsSome result → at < length tokens.now }
{
    tokens.get(at).copied()
}

/// The fault of a token with which nothing goes on.
pub(crate) fn unexpected(at: usize) -> ReadNo
    ensures { result ≡ ReadNo.At at TextCause.Unexpected }
{
    ReadNo::At {
        place: at,
        cause: TextCause::Unexpected,
    }
}

pub(crate) fn too_deep(at: usize) -> ReadNo
    ensures { result ≡ ReadNo.At at TextCause.TooDeep }
{
    ReadNo::At {
        place: at,
        cause: TextCause::TooDeep,
    }
}

pub(crate) fn too_many(at: usize) -> ReadNo
    ensures { result ≡ ReadNo.At at TextCause.TooMany }
{
    ReadNo::At {
        place: at,
        cause: TextCause::TooMany,
    }
}

pub(crate) fn out_of_range(at: usize) -> ReadNo
    ensures { result ≡ ReadNo.At at TextCause.NumberRange }
{
    ReadNo::At {
        place: at,
        cause: TextCause::NumberRange,
    }
}

pub(crate) fn word(alloc: Global, name: &[u8], line: u32) -> Result<Word, Memory>
    ensures { IfOk result (λ w. w ≡ record { name = name.now; line = line }) }
{
    Ok(Word {
        name: Sequence::from_vec(Vec::from_slice(alloc, name)?),
        line,
    })
}

fn is_sign(sign: Sign, symbol: Symbol) -> bool
    ensures { result ≡ is_sign sign symbol }
{
    match sign {
        Sign::Open => symbol == Symbol::Open,
        Sign::Close => symbol == Symbol::Close,
        Sign::OpenBrace => symbol == Symbol::OpenBrace,
        Sign::Semicolon => symbol == Symbol::Semicolon,
        Sign::Assign => symbol == Symbol::Assign,
        Sign::Method => symbol == Symbol::Method,
    }
}

pub(crate) fn is_sign_at(tokens: &[Token<'_>], sign: Sign, at: usize) -> bool
    ensures sign { result ≡ sign_there sign (slice_get (tokens_of tokens.now) at) }
    ensures within { result ≡ true → at < length tokens.now }
{
    match token_at(tokens, at) {
        Some(Token::Symbol(symbol)) => is_sign(sign, symbol),
        _ => false,
    }
}

pub(crate) fn is_minus_at(tokens: &[Token<'_>], at: usize) -> bool
    ensures sign { result ≡ there is_minus (slice_get (tokens_of tokens.now) at) }
    ensures within { result ≡ true → at < length tokens.now }
{
    matches!(token_at(tokens, at), Some(Token::Symbol(Symbol::Minus)))
}

pub(crate) fn is_close_at(tokens: &[Token<'_>], at: usize) -> bool
    ensures sign { result ≡ there is_close (slice_get (tokens_of tokens.now) at) }
    ensures within { result ≡ true → at < length tokens.now }
{
    matches!(token_at(tokens, at), Some(Token::Symbol(Symbol::Close)))
}

pub(crate) fn is_comma_at(tokens: &[Token<'_>], at: usize) -> bool
    ensures sign { result ≡ there is_comma (slice_get (tokens_of tokens.now) at) }
    ensures within { result ≡ true → at < length tokens.now }
{
    matches!(token_at(tokens, at), Some(Token::Symbol(Symbol::Comma)))
}

pub(crate) fn is_call_at(tokens: &[Token<'_>], at: usize) -> bool
    ensures sign { result ≡ there is_call (slice_get (tokens_of tokens.now) at) }
    ensures within { result ≡ true → at < length tokens.now }
{
    matches!(token_at(tokens, at), Some(Token::Symbol(Symbol::Call)))
}

pub(crate) fn is_else_at(tokens: &[Token<'_>], at: usize) -> bool
    ensures sign { result ≡ there is_else (slice_get (tokens_of tokens.now) at) }
    ensures within { result ≡ true → at < length tokens.now }
{
    matches!(token_at(tokens, at), Some(Token::Symbol(Symbol::Else)))
}

pub(crate) fn is_method_at(tokens: &[Token<'_>], at: usize) -> bool
    ensures sign { result ≡ there is_method (slice_get (tokens_of tokens.now) at) }
    ensures within { result ≡ true → at < length tokens.now }
{
    matches!(token_at(tokens, at), Some(Token::Symbol(Symbol::Method)))
}

pub(crate) fn is_read_at(tokens: &[Token<'_>], at: usize) -> bool
    ensures sign { result ≡ there is_read (slice_get (tokens_of tokens.now) at) }
    ensures within { result ≡ true → at < length tokens.now }
{
    matches!(token_at(tokens, at), Some(Token::Symbol(Symbol::Read)))
}

// ---- operators

fn operator_of(symbol: Symbol) -> Option<Operator>
    ensures { result ≡ operator_of symbol }
{
    match symbol {
        Symbol::Or => Some(Operator::Or),
        Symbol::And => Some(Operator::And),
        Symbol::Equal => Some(Operator::Equal),
        Symbol::NotEqual => Some(Operator::NotEqual),
        Symbol::Less => Some(Operator::Less),
        Symbol::LessOrEqual => Some(Operator::LessOrEqual),
        Symbol::Greater => Some(Operator::Greater),
        Symbol::GreaterOrEqual => Some(Operator::GreaterOrEqual),
        Symbol::Plus => Some(Operator::Plus),
        Symbol::Minus => Some(Operator::Minus),
        Symbol::Times => Some(Operator::Times),
        Symbol::Over => Some(Operator::Over),
        Symbol::Remainder => Some(Operator::Remainder),
        _ => None,
    }
}

/// How loosely an operator binds: 1 products, 2 sums, 3 comparisons, 4 conjunctions, 5 disjunctions.
pub(crate) fn level(operator: Operator) -> usize
    ensures { result ≡ level operator }
{
    match operator {
        Operator::Or => 5,
        Operator::And => 4,
        Operator::Equal
        | Operator::NotEqual
        | Operator::Less
        | Operator::LessOrEqual
        | Operator::Greater
        | Operator::GreaterOrEqual => 3,
        Operator::Plus | Operator::Minus => 2,
        Operator::Times | Operator::Over | Operator::Remainder => 1,
    }
}

/// Whether a conjunct has a comparison behind the operator, where it had one before it or not.
pub(crate) fn compares(compared: bool, operator: Operator) -> bool
    ensures { result ≡ compares compared operator }
{
    let k = level(operator);
    if k == 3 {
        true
    } else if k > 3 {
        false
    } else {
        compared
    }
}

fn is_allowed(compared: bool, operator: Operator) -> bool
    ensures { result ≡ allowed compared operator }
{
    if compared { level(operator) != 3 } else { true }
}

fn if_allowed(compared: bool, operator: Option<Operator>) -> Option<Operator>
    ensures { result ≡ if_allowed compared operator }
{
    match operator {
        Some(operator) if is_allowed(compared, operator) => Some(operator),
        _ => None,
    }
}

/// The operator at a place that may stand there, where the conjunct has a comparison before it or not.
pub(crate) fn operator_at(tokens: &[Token<'_>], compared: bool, at: usize) -> Option<Operator>
    ensures operator { result ≡ operator_there compared (slice_get (tokens_of tokens.now) at) }
    ensures within { IsSome result → at < length tokens.now }
{
    match token_at(tokens, at) {
        Some(Token::Symbol(symbol)) => if_allowed(compared, operator_of(symbol)),
        _ => None,
    }
}
