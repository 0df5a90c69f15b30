//! Tokens into expressions.

ghost use Rattle.std.specs.Prelude.{◌≡◌, true, ℕ, ◌+◌, ◌<◌, ◌≤◌, length, map, Some, IfOk, slice_get};
ghost use Rattle.aml_tokens.specs.Token.{tokens_of};
ghost use Rattle.aml_tokens.specs.Token as spec_token;
ghost use Rattle.aml_tree.specs.Tree.{expression_tree};
ghost use Rattle.aml_parser.specs.Items as item;
ghost use Rattle.aml_parser.specs.Reading.{ReadsItem, ReadsChain, may_close};

use crate::attaching::attach;
use crate::looks::{
    compares, is_close_at, is_comma_at, is_minus_at, is_sign_at, operator_at, token_at, too_deep,
    unexpected, word,
};
use crate::readers::{ReadNo, Sign};
use aml_tokens::{Symbol, Token, Word};
use aml_tree::{Expression, MOST_LEVELS, makers};
use std::alloc::Global;

/// An operand without a sign, where so many levels are open.
#[cycle(expressions)]
pub(crate) fn primary(
    alloc: Global,
    tokens: &[Token<'_>],
    depth: usize,
    at: usize,
) -> Result<(Expression<Word>, usize), ReadNo>
    requires { depth ≤ MOST_LEVELS }
    ensures reads { ReadsItem (tokens_of tokens.now) (item.Target depth) (λ x. expression_tree x.0) (λ x. x.1) at result }
    ensures onward { IfOk result (λ x. at < x.1) }
{
    match token_at(tokens, at) {
        Some(Token::Number(number)) => Ok((makers::number(number), at + 1)),
        Some(Token::Name { name, line }) => {
            Ok((makers::variable(word(alloc, name, line)?), at + 1))
        }
        Some(Token::Field { field, line }) => Ok((makers::field(field, line), at + 1)),
        Some(Token::Symbol(symbol)) => primary_by(alloc, tokens, depth, at, symbol),
        Some(Token::Let { line: _ }) => Err(unexpected(at)),
        Some(Token::CloseBrace { line: _ }) => Err(unexpected(at)),
        None => Err(unexpected(at)),
    }
}

/// An operand that begins with a sign or a keyword, which stands at the place.
#[cycle(expressions)]
fn primary_by(
    alloc: Global,
    tokens: &[Token<'_>],
    depth: usize,
    at: usize,
    symbol: Symbol,
) -> Result<(Expression<Word>, usize), ReadNo>
    requires deep { depth ≤ MOST_LEVELS }
    requires within { at < length tokens.now }
    requires there { slice_get (tokens_of tokens.now) at ≡ Some (spec_token.Sign symbol) }
    ensures reads { ReadsItem (tokens_of tokens.now) (item.Target depth) (λ x. expression_tree x.0) (λ x. x.1) at result }
    ensures onward { IfOk result (λ x. at < x.1) }
{
    match symbol {
        Symbol::Own => Ok((makers::own(), at + 1)),
        Symbol::Open => group_at(alloc, tokens, depth, at),
        _ => Err(unexpected(at)),
    }
}

/// An expression in parentheses; the opening one stands at the place.
#[cycle(expressions)]
fn group_at(
    alloc: Global,
    tokens: &[Token<'_>],
    depth: usize,
    at: usize,
) -> Result<(Expression<Word>, usize), ReadNo>
    requires deep { depth ≤ MOST_LEVELS }
    requires within { at < length tokens.now }
    requires there { slice_get (tokens_of tokens.now) at ≡ Some (spec_token.Sign Symbol.Open) }
    ensures reads { ReadsItem (tokens_of tokens.now) (item.Target depth) (λ x. expression_tree x.0) (λ x. x.1) at result }
    ensures onward { IfOk result (λ x. at < x.1) }
{
    if depth >= MOST_LEVELS {
        return Err(too_deep(at));
    }
    let (inner, end) = expression(alloc, tokens, depth + 1, Sign::Close, at + 1)?;
    Ok((makers::group(alloc, inner)?, end))
}

/// An operand with or without signs.
#[cycle(expressions)]
fn operand(
    alloc: Global,
    tokens: &[Token<'_>],
    depth: usize,
    at: usize,
) -> Result<(Expression<Word>, usize), ReadNo>
    requires { depth ≤ MOST_LEVELS }
    ensures reads { ReadsItem (tokens_of tokens.now) (item.Operand depth) (λ x. expression_tree x.0) (λ x. x.1) at result }
    ensures onward { IfOk result (λ x. at < x.1) }
{
    if !is_minus_at(tokens, at) {
        return primary(alloc, tokens, depth, at);
    }
    if depth >= MOST_LEVELS {
        return Err(too_deep(at));
    }
    let (inner, end) = operand(alloc, tokens, depth + 1, at + 1)?;
    Ok((makers::negative(alloc, inner)?, end))
}

/// Operands and the operators between them, up to the first token that is no operator which may stand
/// there.
#[cycle(expressions)]
pub(crate) fn chain(
    alloc: Global,
    tokens: &[Token<'_>],
    depth: usize,
    at: usize,
) -> Result<(Expression<Word>, usize), ReadNo>
    requires { depth ≤ MOST_LEVELS }
    ensures reads { ReadsChain (tokens_of tokens.now) depth (λ x. expression_tree x.0) (λ x. x.1) at result }
    ensures onward { IfOk result (λ x. at < x.1) }
{
    let (first, behind) = operand(alloc, tokens, depth, at)?;
    let mut expression = first;
    let mut compared = false;
    let mut end = behind;
    while let Some(operator) = operator_at(tokens, compared, end) {
        let (right, behind) = operand(alloc, tokens, depth, end + 1)?;
        expression = attach(alloc, expression, operator, right)?;
        compared = compares(compared, operator);
        end = behind;
    }
    Ok((expression, end))
}

/// Whether the level may be opened that the sign opens at an expression's end, if it does.
fn may_close(depth: usize, sign: Sign) -> bool
    ensures { result ≡ may_close depth sign }
{
    match sign {
        Sign::OpenBrace => depth < MOST_LEVELS,
        _ => true,
    }
}

/// An expression and the sign that ends it.
#[cycle(expressions)]
pub(crate) fn expression(
    alloc: Global,
    tokens: &[Token<'_>],
    depth: usize,
    sign: Sign,
    at: usize,
) -> Result<(Expression<Word>, usize), ReadNo>
    requires { depth ≤ MOST_LEVELS }
    ensures reads { ReadsItem (tokens_of tokens.now) (item.Expression depth (item.To sign)) (λ x. (expression_tree x.0, tt)) (λ x. x.1) at result }
    ensures onward { IfOk result (λ x. at < x.1) }
    ensures deeper { IfOk result (λ _. may_close depth sign ≡ true) }
{
    let (value, end) = chain(alloc, tokens, depth, at)?;
    if !is_sign_at(tokens, sign, end) {
        return Err(unexpected(end));
    }
    if !may_close(depth, sign) {
        return Err(too_deep(end));
    }
    Ok((value, end + 1))
}

/// The arguments of a call behind the opening parenthesis, and the closing one.
pub(crate) fn arguments(
    alloc: Global,
    tokens: &[Token<'_>],
    depth: usize,
    at: usize,
) -> Result<(Vec<Expression<Word>>, usize), ReadNo>
    requires { depth ≤ MOST_LEVELS }
    ensures reads { ReadsItem (tokens_of tokens.now) (item.Argued depth) (λ x. map expression_tree x.0.items) (λ x. x.1) at result }
    ensures onward { IfOk result (λ x. at < x.1) }
{
    let mut arguments = Vec::new(alloc);
    if is_close_at(tokens, at) {
        return Ok((arguments, at + 1));
    }
    let mut end = at;
    loop {
        let (value, behind) = chain(alloc, tokens, depth, end)?;
        makers::put_argument(&mut arguments, value)?;
        if is_close_at(tokens, behind) {
            return Ok((arguments, behind + 1));
        }
        if !is_comma_at(tokens, behind) {
            return Err(unexpected(behind));
        }
        end = behind + 1;
    }
}
