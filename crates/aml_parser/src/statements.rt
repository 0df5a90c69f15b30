//! Tokens into statements and blocks.

ghost use Rattle.std.specs.Prelude.{◌≡◌, true, ℕ, ◌+◌, ◌<◌, ◌≤◌, length, Some, None, IfOk, slice_get};
ghost use Rattle.aml_tokens.specs.Token.{tokens_of};
ghost use Rattle.aml_tokens.specs.Token as spec_token;
ghost use Rattle.aml_tree.specs.Tree.{block_tree, statement_tree};
ghost use Rattle.aml_parser.specs.Items as item;
ghost use Rattle.aml_parser.specs.Items.{is_call};
ghost use Rattle.aml_parser.specs.Reading.{ReadsFrom, ReadsLet, ReadsPart, brace_there, there};

use crate::expressions::{arguments, expression, primary};
use crate::looks::{is_call_at, is_else_at, token_at, unexpected, word};
use crate::readers::{ReadNo, Sign};
use crate::signs::{brace_at, called_at, code_at, new_at, open, skip};
use aml_tokens::{Symbol, Token, Word};
use aml_tree::{Block, MOST_LEVELS, Statement, makers};
use std::alloc::Global;

/// A variable that takes a value; its name, which is given, stands at the place.
fn set_at(
    alloc: Global,
    tokens: &[Token<'_>],
    depth: usize,
    names: usize,
    at: usize,
    variable: Word,
) -> Result<(Statement<Word, Word>, usize, usize), ReadNo>
    requires deep { depth ≤ MOST_LEVELS }
    requires within { at < length tokens.now }
    requires there { slice_get (tokens_of tokens.now) at ≡ Some (spec_token.Name variable) }
    ensures reads { ReadsPart (tokens_of tokens.now) depth (λ x. statement_tree x.0) (λ x. x.1) (λ x. x.2) names at result }
    ensures onward { IfOk result (λ x. at < x.2) }
{
    let start = skip(tokens, Sign::Assign, at + 1)?;
    let (value, end) = expression(alloc, tokens, depth, Sign::Semicolon, start)?;
    Ok((makers::set_statement(variable, value), names, end))
}

/// A field that takes a value; it stands at the place.
fn set_field_at(
    alloc: Global,
    tokens: &[Token<'_>],
    depth: usize,
    names: usize,
    at: usize,
    field: u8,
    line: u32,
) -> Result<(Statement<Word, Word>, usize, usize), ReadNo>
    requires deep { depth ≤ MOST_LEVELS }
    requires within { at < length tokens.now }
    requires there { slice_get (tokens_of tokens.now) at ≡ Some (spec_token.Field field line) }
    ensures reads { ReadsPart (tokens_of tokens.now) depth (λ x. statement_tree x.0) (λ x. x.1) (λ x. x.2) names at result }
    ensures onward { IfOk result (λ x. at < x.2) }
{
    let start = skip(tokens, Sign::Assign, at + 1)?;
    let (value, end) = expression(alloc, tokens, depth, Sign::Semicolon, start)?;
    Ok((makers::field_statement(line, field, value), names, end))
}

/// The end of the method with a value; `return` stands at the place.
fn return_at(
    alloc: Global,
    tokens: &[Token<'_>],
    depth: usize,
    names: usize,
    at: usize,
) -> Result<(Statement<Word, Word>, usize, usize), ReadNo>
    requires deep { depth ≤ MOST_LEVELS }
    requires within { at < length tokens.now }
    requires there { slice_get (tokens_of tokens.now) at ≡ Some (spec_token.Sign Symbol.Return) }
    ensures reads { ReadsPart (tokens_of tokens.now) depth (λ x. statement_tree x.0) (λ x. x.1) (λ x. x.2) names at result }
    ensures onward { IfOk result (λ x. at < x.2) }
{
    let (value, end) = expression(alloc, tokens, depth, Sign::Semicolon, at + 1)?;
    Ok((makers::return_statement(value), names, end))
}

/// A failure with a code; `fail` stands at the place.
fn fail_at(
    tokens: &[Token<'_>],
    depth: usize,
    names: usize,
    at: usize,
) -> Result<(Statement<Word, Word>, usize, usize), ReadNo>
    requires within { at < length tokens.now }
    requires there { slice_get (tokens_of tokens.now) at ≡ Some (spec_token.Sign Symbol.Fail) }
    ensures reads { ReadsPart (tokens_of tokens.now) depth (λ x. statement_tree x.0) (λ x. x.1) (λ x. x.2) names at result }
    ensures onward { IfOk result (λ x. at < x.2) }
{
    let (code, start) = code_at(tokens, at + 1)?;
    let end = skip(tokens, Sign::Semicolon, start)?;
    Ok((makers::fail_statement(code), names, end))
}

/// A call whose answer a new variable takes, in a statement that begins in a line; `call` stands at the place.
fn call_at(
    alloc: Global,
    tokens: &[Token<'_>],
    depth: usize,
    at: usize,
    line: u32,
    variable: Word,
) -> Result<(Statement<Word, Word>, usize), ReadNo>
    requires deep { depth ≤ MOST_LEVELS }
    requires within { at < length tokens.now }
    requires there { there is_call (slice_get (tokens_of tokens.now) at) ≡ true }
    ensures reads { ReadsLet (tokens_of tokens.now) depth line variable (λ x. statement_tree x.0) (λ x. x.1) at result }
    ensures onward { IfOk result (λ x. at < x.1) }
{
    let (target, named) = primary(alloc, tokens, depth, at + 1)?;
    let (method, opening) = called_at(alloc, tokens, named)?;
    let start = open(tokens, depth, Sign::Open, opening)?;
    let (values, closed) = arguments(alloc, tokens, depth + 1, start)?;
    let end = skip(tokens, Sign::Semicolon, closed)?;
    Ok((
        makers::call_statement(line, variable, target, method, values),
        end,
    ))
}

/// A new variable that takes a value; `let` stands at the place.
fn let_at(
    alloc: Global,
    tokens: &[Token<'_>],
    depth: usize,
    names: usize,
    at: usize,
    line: u32,
) -> Result<(Statement<Word, Word>, usize, usize), ReadNo>
    requires deep { depth ≤ MOST_LEVELS }
    requires within { at < length tokens.now }
    requires there { slice_get (tokens_of tokens.now) at ≡ Some (spec_token.Let line) }
    ensures reads { ReadsPart (tokens_of tokens.now) depth (λ x. statement_tree x.0) (λ x. x.1) (λ x. x.2) names at result }
    ensures onward { IfOk result (λ x. at < x.2) }
{
    let (variable, behind) = new_at(alloc, tokens, names, at + 1)?;
    let start = skip(tokens, Sign::Assign, behind)?;
    if is_call_at(tokens, start) {
        let (statement, end) = call_at(alloc, tokens, depth, start, line, variable)?;
        return Ok((statement, names + 1, end));
    }
    let (value, end) = expression(alloc, tokens, depth, Sign::Semicolon, start)?;
    Ok((makers::let_statement(line, variable, value), names + 1, end))
}

/// A loop; `while` stands at the place.
#[cycle(statements)]
fn while_at(
    alloc: Global,
    tokens: &[Token<'_>],
    depth: usize,
    names: usize,
    at: usize,
) -> Result<(Statement<Word, Word>, usize, usize), ReadNo>
    requires deep { depth ≤ MOST_LEVELS }
    requires within { at < length tokens.now }
    requires there { slice_get (tokens_of tokens.now) at ≡ Some (spec_token.Sign Symbol.While) }
    ensures reads { ReadsPart (tokens_of tokens.now) depth (λ x. statement_tree x.0) (λ x. x.1) (λ x. x.2) names at result }
    ensures onward { IfOk result (λ x. at < x.2) }
{
    let (condition, start) = expression(alloc, tokens, depth, Sign::OpenBrace, at + 1)?;
    let (body, after, end) = block(alloc, tokens, depth + 1, names, start)?;
    Ok((makers::while_statement(condition, body), after, end))
}

/// A condition and its blocks; `if` stands at the place.
#[cycle(statements)]
fn if_at(
    alloc: Global,
    tokens: &[Token<'_>],
    depth: usize,
    names: usize,
    at: usize,
) -> Result<(Statement<Word, Word>, usize, usize), ReadNo>
    requires deep { depth ≤ MOST_LEVELS }
    requires within { at < length tokens.now }
    requires there { slice_get (tokens_of tokens.now) at ≡ Some (spec_token.Sign Symbol.If) }
    ensures reads { ReadsPart (tokens_of tokens.now) depth (λ x. statement_tree x.0) (λ x. x.1) (λ x. x.2) names at result }
    ensures onward { IfOk result (λ x. at < x.2) }
{
    let (condition, start) = expression(alloc, tokens, depth, Sign::OpenBrace, at + 1)?;
    let (first, middle, behind) = block(alloc, tokens, depth + 1, names, start)?;
    if !is_else_at(tokens, behind) {
        return Ok((makers::if_statement(condition, first), middle, behind));
    }
    let opened = open(tokens, depth, Sign::OpenBrace, behind + 1)?;
    let (other, after, end) = block(alloc, tokens, depth + 1, middle, opened)?;
    Ok((
        makers::if_else_statement(condition, first, other),
        after,
        end,
    ))
}

/// A statement by the keyword that it begins with.
#[cycle(statements)]
fn by_keyword(
    alloc: Global,
    tokens: &[Token<'_>],
    depth: usize,
    names: usize,
    at: usize,
    symbol: Symbol,
) -> Result<(Statement<Word, Word>, usize, usize), ReadNo>
    requires deep { depth ≤ MOST_LEVELS }
    requires within { at < length tokens.now }
    requires there { slice_get (tokens_of tokens.now) at ≡ Some (spec_token.Sign symbol) }
    ensures reads { ReadsPart (tokens_of tokens.now) depth (λ x. statement_tree x.0) (λ x. x.1) (λ x. x.2) names at result }
    ensures onward { IfOk result (λ x. at < x.2) }
{
    match symbol {
        Symbol::If => if_at(alloc, tokens, depth, names, at),
        Symbol::While => while_at(alloc, tokens, depth, names, at),
        Symbol::Fail => fail_at(tokens, depth, names, at),
        Symbol::Return => return_at(alloc, tokens, depth, names, at),
        _ => Err(unexpected(at)),
    }
}

/// A statement, where no closing brace stands.
#[cycle(statements)]
fn statement(
    alloc: Global,
    tokens: &[Token<'_>],
    depth: usize,
    names: usize,
    at: usize,
) -> Result<(Statement<Word, Word>, usize, usize), ReadNo>
    requires deep { depth ≤ MOST_LEVELS }
    requires open { brace_there (slice_get (tokens_of tokens.now) at) ≡ None }
    ensures reads { ReadsPart (tokens_of tokens.now) depth (λ x. statement_tree x.0) (λ x. x.1) (λ x. x.2) names at result }
    ensures onward { IfOk result (λ x. at < x.2) }
    ensures within { IfOk result (λ _. at < length tokens.now) }
{
    match token_at(tokens, at) {
        Some(Token::Name { name, line }) => {
            set_at(alloc, tokens, depth, names, at, word(alloc, name, line)?)
        }
        Some(Token::Field { field, line }) => {
            set_field_at(alloc, tokens, depth, names, at, field, line)
        }
        Some(Token::Let { line }) => let_at(alloc, tokens, depth, names, at, line),
        Some(Token::Symbol(symbol)) => by_keyword(alloc, tokens, depth, names, at, symbol),
        Some(Token::Number(_)) => Err(unexpected(at)),
        Some(Token::CloseBrace { line: _ }) => Err(unexpected(at)),
        None => Err(unexpected(at)),
    }
}

/// The statements of a block behind its opening brace, and the closing one, where so many levels are
/// open in the block and so many names are declared before it; how many are declared behind it.
#[cycle(statements)]
pub(crate) fn block(
    alloc: Global,
    tokens: &[Token<'_>],
    depth: usize,
    names: usize,
    at: usize,
) -> Result<(Block<Statement<Word, Word>>, usize, usize), ReadNo>
    requires deep { depth ≤ MOST_LEVELS }
    ensures reads { ReadsFrom (tokens_of tokens.now) (item.Block depth) (λ x. block_tree x.0) (λ x. x.1) (λ x. x.2) names at result }
    ensures onward { IfOk result (λ x. at < x.2) }
{
    let mut statements = Vec::new(alloc);
    let mut declared = names;
    let mut end = at;
    loop {
        if let Some(line) = brace_at(tokens, end) {
            let block = Block {
                statements,
                last_line: line,
            };
            return Ok((block, declared, end + 1));
        }
        let (statement, after, behind) = statement(alloc, tokens, depth, declared, end)?;
        makers::put_statement(&mut statements, statement)?;
        declared = after;
        end = behind;
    }
}
