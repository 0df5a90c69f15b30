//! Signs and names that a rule asks for.

ghost use Rattle.std.specs.Prelude.{◌≡◌, ℕ, ◌+◌, ◌<◌, length, IfOk, IsSome, slice_get};
ghost use Rattle.aml_tokens.specs.Token.{tokens_of};
ghost use Rattle.aml_parser.specs.Items as item;
ghost use Rattle.aml_parser.specs.Reading.{ReadsItem, ReadsFrom, ReadsName, brace_there, number_there};

use crate::looks::{is_sign_at, out_of_range, token_at, too_deep, too_many, unexpected, word};
use crate::readers::{ReadNo, Sign};
use aml_tokens::{Token, Word};
use aml_tree::{GREATEST_CODE, MOST_LEVELS, MOST_NAMES, MOST_PARAMETERS};
use std::alloc::Global;

/// The place behind a sign.
pub(crate) fn skip(tokens: &[Token<'_>], sign: Sign, at: usize) -> Result<usize, ReadNo>
    ensures reads { ReadsItem (tokens_of tokens.now) (item.Fixed sign) (λ _. tt) (λ x. x) at result }
    ensures onward { IfOk result (λ x. at < x) }
{
    if !is_sign_at(tokens, sign, at) {
        return Err(unexpected(at));
    }
    Ok(at + 1)
}

/// The place behind a sign that opens a level, where so many are open.
pub(crate) fn open(
    tokens: &[Token<'_>],
    depth: usize,
    sign: Sign,
    at: usize,
) -> Result<usize, ReadNo>
    ensures reads { ReadsItem (tokens_of tokens.now) (item.Opening depth sign) (λ _. tt) (λ x. x) at result }
    ensures onward { IfOk result (λ x. at < x) }
    ensures deeper { IfOk result (λ _. depth < MOST_LEVELS) }
{
    if !is_sign_at(tokens, sign, at) {
        return Err(unexpected(at));
    }
    if depth >= MOST_LEVELS {
        return Err(too_deep(at));
    }
    Ok(at + 1)
}

/// A name.
pub(crate) fn name_at(
    alloc: Global,
    tokens: &[Token<'_>],
    at: usize,
) -> Result<(Word, usize), ReadNo>
    ensures reads { ReadsName (tokens_of tokens.now) at result }
    ensures onward { IfOk result (λ x. at < x.1) }
{
    match token_at(tokens, at) {
        Some(Token::Name { name, line }) => Ok((word(alloc, name, line)?, at + 1)),
        _ => Err(unexpected(at)),
    }
}

/// A name of a method that is called.
pub(crate) fn called_at(
    alloc: Global,
    tokens: &[Token<'_>],
    at: usize,
) -> Result<(Word, usize), ReadNo>
    ensures reads { ReadsItem (tokens_of tokens.now) item.Called (λ x. x.0) (λ x. x.1) at result }
    ensures onward { IfOk result (λ x. at < x.1) }
{
    let (name, end) = name_at(alloc, tokens, at)?;
    Ok((name, end))
}

/// A name of a new variable, behind so many names of the method.
pub(crate) fn new_at(
    alloc: Global,
    tokens: &[Token<'_>],
    names: usize,
    at: usize,
) -> Result<(Word, usize), ReadNo>
    ensures reads { ReadsFrom (tokens_of tokens.now) item.New (λ x. x.0) (λ _. names + 1) (λ x. x.1) names at result }
    ensures onward { IfOk result (λ x. at < x.1) }
    ensures few { IfOk result (λ _. names < MOST_NAMES) }
{
    let (name, end) = name_at(alloc, tokens, at)?;
    if names >= MOST_NAMES {
        return Err(too_many(at));
    }
    Ok((name, end))
}

/// A name of a parameter, behind so many.
pub(crate) fn parameter_at(
    alloc: Global,
    tokens: &[Token<'_>],
    names: usize,
    at: usize,
) -> Result<(Word, usize), ReadNo>
    ensures reads { ReadsFrom (tokens_of tokens.now) item.Parameter (λ x. x.0) (λ _. names + 1) (λ x. x.1) names at result }
    ensures onward { IfOk result (λ x. at < x.1) }
    ensures few { IfOk result (λ _. names < MOST_PARAMETERS) }
{
    let (name, end) = name_at(alloc, tokens, at)?;
    if names >= MOST_PARAMETERS {
        return Err(too_many(at));
    }
    Ok((name, end))
}

/// The line of a closing brace, if one stands there.
pub(crate) fn brace_at(tokens: &[Token<'_>], at: usize) -> Option<u32>
    ensures line { result ≡ brace_there (slice_get (tokens_of tokens.now) at) }
    ensures within { IsSome result → at < length tokens.now }
{
    match token_at(tokens, at) {
        Some(Token::CloseBrace { line }) => Some(line),
        _ => None,
    }
}

fn number_at(tokens: &[Token<'_>], at: usize) -> Option<u64>
    ensures number { result ≡ number_there (slice_get (tokens_of tokens.now) at) }
    ensures within { IsSome result → at < length tokens.now }
{
    match token_at(tokens, at) {
        Some(Token::Number(number)) => Some(number),
        _ => None,
    }
}

/// The code behind `fail`, 1 to 999.
pub(crate) fn code_at(tokens: &[Token<'_>], at: usize) -> Result<(u16, usize), ReadNo>
    ensures reads { ReadsItem (tokens_of tokens.now) item.Failing (λ x. x.0) (λ x. x.1) at result }
    ensures onward { IfOk result (λ x. at < x.1) }
{
    let Some(number) = number_at(tokens, at) else {
        return Err(unexpected(at));
    };
    if number < 1 {
        return Err(out_of_range(at));
    }
    if number > GREATEST_CODE {
        return Err(out_of_range(at));
    }
    Ok((number as u16, at + 1))
}
