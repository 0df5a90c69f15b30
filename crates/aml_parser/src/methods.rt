//! Tokens into parameters, methods and programs.

ghost use Rattle.std.specs.Prelude.{◌≡◌, true, false, ℕ, ◌+◌, ◌<◌, ◌≤◌, ◌∷◌, ◌++◌, [], length, map, Ok, Err, IfOk, slice_get};
ghost use Rattle.aml_tokens.specs.Token.{tokens_of};
ghost use Rattle.aml_tree.specs.Tree.{method_tree};
ghost use Rattle.aml_parser.specs.Items as item;
ghost use Rattle.aml_parser.specs.Reading.{ReadsFrom, ReadsHead, ReadsMethod, ReadsOrStops, program};

use crate::looks::{is_close_at, is_comma_at, is_method_at, is_read_at, too_many, unexpected};
use crate::readers::{ReadNo, Sign};
use crate::signs::{called_at, open, parameter_at, skip};
use crate::statements::block;
use aml_tokens::{Token, Word};
use aml_tree::{MOST_METHODS, Method};
use snap_base::{Memory, Sequence};
use std::alloc::Global;

/// The parameters of a method behind the opening parenthesis, and the closing one; how many they are.
fn parameters(
    alloc: Global,
    tokens: &[Token<'_>],
    at: usize,
) -> Result<(Vec<Word>, usize, usize), ReadNo>
    ensures reads { ReadsFrom (tokens_of tokens.now) item.Parameters (λ x. x.0.items) (λ x. x.1) (λ x. x.2) 0 at result }
    ensures onward { IfOk result (λ x. at < x.2) }
{
    let mut parameters = Vec::new(alloc);
    if is_close_at(tokens, at) {
        return Ok((parameters, 0, at + 1));
    }
    let mut count = 0;
    let mut end = at;
    loop {
        let (name, behind) = parameter_at(alloc, tokens, count, end)?;
        put_parameter(&mut parameters, name)?;
        count += 1;
        if is_close_at(tokens, behind) {
            return Ok((parameters, count, behind + 1));
        }
        if !is_comma_at(tokens, behind) {
            return Err(unexpected(behind));
        }
        end = behind + 1;
    }
}

/// The words with which a method begins behind so many others: whether `read` is among them, and the place
/// behind them.
fn head(tokens: &[Token<'_>], before: usize, at: usize) -> Result<(bool, usize), ReadNo>
    requires { 0 < before → at < length tokens.now }
    ensures reads { ReadsHead (tokens_of tokens.now) before (λ x. x.0) (λ x. x.1) at result }
    ensures onward { IfOk result (λ x. at < x.1) }
    ensures within { IfOk result (λ _. at < length tokens.now) }
{
    if is_method_at(tokens, at) {
        if before >= MOST_METHODS {
            return Err(too_many(at));
        }
        return Ok((false, at + 1));
    }
    if !is_read_at(tokens, at) {
        return Err(unexpected(at));
    }
    if before >= MOST_METHODS {
        return Err(too_many(at));
    }
    let start = skip(tokens, Sign::Method, at + 1)?;
    Ok((true, start))
}

/// A method behind the words with which it begins.
fn method(
    alloc: Global,
    tokens: &[Token<'_>],
    is_read: bool,
    at: usize,
) -> Result<(Method<Word, Word>, usize), ReadNo>
    ensures reads { ReadsMethod (tokens_of tokens.now) is_read (λ x. method_tree x.0) (λ x. x.1) at result }
    ensures onward { IfOk result (λ x. at < x.1) }
{
    let (name, opening) = called_at(alloc, tokens, at)?;
    let start = open(tokens, 0, Sign::Open, opening)?;
    let (words, count, closed) = parameters(alloc, tokens, start)?;
    let first = open(tokens, 0, Sign::OpenBrace, closed)?;
    let (body, _, end) = block(alloc, tokens, 1, count, first)?;
    let method = Method {
        is_read,
        name,
        parameters: Sequence::from_vec(words),
        body,
    };
    Ok((method, end))
}

/// Whether a program may end at a place, where so many methods stand before it.
fn may_end(tokens: &[Token<'_>], before: usize, at: usize) -> bool
    ensures yes { result ≡ true → (0 < before) × (length tokens.now ≤ at) }
    ensures no { result ≡ false → 0 < before → at < length tokens.now }
{
    before > 0 && at >= tokens.len()
}

/// The methods of a program, which are all its tokens.
pub(crate) fn methods(
    alloc: Global,
    tokens: &[Token<'_>],
) -> Result<Vec<Method<Word, Word>>, ReadNo>
    ensures reads { ReadsOrStops (λ x. program (tokens_of tokens.now) ≡ Ok (map method_tree x.items)) (λ fault. program (tokens_of tokens.now) ≡ Err fault) result }
{
    let mut methods = Vec::new(alloc);
    let mut end = 0;
    loop {
        let before = methods.len();
        if may_end(tokens, before, end) {
            return Ok(methods);
        }
        let (is_read, start) = head(tokens, before, end)?;
        let (method, behind) = method(alloc, tokens, is_read, start)?;
        put_method(&mut methods, method)?;
        end = behind;
    }
}

fn put_parameter(parameters: &mut Vec<Word>, name: Word) -> Result<(), Memory>
    ensures { IfOk result (λ _. parameters.new.items ≡ parameters.old.items ++ name ∷ []) }
{
    parameters.push(name)?;
    Ok(())
}

fn put_method(
    methods: &mut Vec<Method<Word, Word>>,
    method: Method<Word, Word>,
) -> Result<(), Memory>
    ensures { IfOk result (λ _. map method_tree methods.new.items ≡ map method_tree methods.old.items ++ method_tree method ∷ []) }
{
    methods.push(method)?;
    Ok(())
}
