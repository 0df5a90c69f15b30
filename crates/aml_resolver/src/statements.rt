//! Statements without blocks in them, with places for names.

ghost use Rattle.std.specs.Prelude.{◌≡◌, ◌+◌, ◌≤◌, ◌<◌, ◌++◌, ◌∷◌, ◌&&◌, [], Bool, length, map, IfOk};
ghost use Rattle.aml_tree.specs.Tree.{Let, Call, Set, SetField, Return, expression_tree, method_tree};
ghost use Rattle.aml_resolver.specs.Faults.{is_writer, promise_faults};
ghost use Rattle.aml_resolver.specs.Resolving.{Passes, StepsTo};

use crate::calls::{called, is_writer};
use crate::expressions::{arguments, expression};
use crate::names::{new_name, variable};
use crate::{CheckCause, CheckFault, CheckNo};
use aml_tokens::{Name, Word};
use aml_tree::{Expression, MOST_METHODS, MOST_NAMES, Method, Statement, makers};
use snap_base::{Memory, Sequence};
use std::alloc::Global;

// In each function `methods` are the program's, `is_read` says whether the method promises only to read, and
// `names` are the visible variables.

/// One more visible variable.
pub(crate) fn put_name(alloc: Global, names: &mut Vec<Name>, word: &Word) -> Result<(), Memory>
    ensures { IfOk result (λ _. names.new.items ≡ names.old.items ++ word.now.name ∷ []) }
{
    let name = Vec::from_slice(alloc, word.name.as_slice())?;
    names.push(Sequence::from_vec(name))?;
    Ok(())
}

/// That a statement which begins in a line breaks no promise.
fn promised(breaks: bool, line: u32) -> Result<(), CheckNo>
    ensures { Passes (promise_faults breaks line) result }
{
    if breaks {
        Err(CheckNo::Fault(CheckFault {
            line,
            cause: CheckCause::ReadWrites,
        }))
    } else {
        Ok(())
    }
}

/// That a call in such a statement breaks none.
fn promised_call(
    methods: &[Method<Word, Word>],
    is_read: bool,
    line: u32,
    method: &Word,
) -> Result<(), CheckNo>
    ensures { Passes (promise_faults (is_read && is_writer (map method_tree methods.now) method.now) line) result }
{
    let breaks = is_read && is_writer(methods, method);
    promised(breaks, line)
}

pub(crate) fn let_statement(
    alloc: Global,
    methods: &[Method<Word, Word>],
    names: &mut Vec<Name>,
    line: u32,
    word: &Word,
    value: &Expression<Word>,
) -> Result<Statement<u8, u16>, CheckNo>
    requires { length names.old.items < MOST_NAMES }
    ensures { (is_read : Bool) → StepsTo (map method_tree methods.now) is_read names.old.items names.new.items (Let line word.now (expression_tree value.now)) result }
{
    new_name(names.as_slice(), word)?;
    let resolved = expression(alloc, names.as_slice(), value)?;
    let place = names.len() as u8;
    put_name(alloc, names, word)?;
    Ok(makers::let_statement(line, place, resolved))
}

pub(crate) fn call_statement(
    alloc: Global,
    methods: &[Method<Word, Word>],
    is_read: bool,
    names: &mut Vec<Name>,
    line: u32,
    word: &Word,
    target: &Expression<Word>,
    method: &Word,
    values: &[Expression<Word>],
) -> Result<Statement<u8, u16>, CheckNo>
    requires room { length names.old.items < MOST_NAMES }
    requires few { length methods.now ≤ MOST_METHODS }
    ensures { StepsTo (map method_tree methods.now) is_read names.old.items names.new.items (Call line word.now (expression_tree target.now) method.now (map expression_tree values.now)) result }
{
    promised_call(methods, is_read, line, method)?;
    new_name(names.as_slice(), word)?;
    let actor = expression(alloc, names.as_slice(), target)?;
    let callee = called(methods, method, values.len())?;
    let given = arguments(alloc, names.as_slice(), values)?;
    let place = names.len() as u8;
    put_name(alloc, names, word)?;
    Ok(makers::call_statement(line, place, actor, callee, given))
}

pub(crate) fn set_statement(
    alloc: Global,
    methods: &[Method<Word, Word>],
    names: &[Name],
    word: &Word,
    value: &Expression<Word>,
) -> Result<Statement<u8, u16>, CheckNo>
    requires { length names.now ≤ MOST_NAMES }
    ensures { (is_read : Bool) → StepsTo (map method_tree methods.now) is_read names.now names.now (Set word.now (expression_tree value.now)) result }
{
    let place = variable(names, word)?;
    let resolved = expression(alloc, names, value)?;
    Ok(makers::set_statement(place, resolved))
}

pub(crate) fn field_statement(
    alloc: Global,
    methods: &[Method<Word, Word>],
    is_read: bool,
    names: &[Name],
    line: u32,
    field: u8,
    value: &Expression<Word>,
) -> Result<Statement<u8, u16>, CheckNo>
    requires { length names.now ≤ MOST_NAMES }
    ensures { StepsTo (map method_tree methods.now) is_read names.now names.now (SetField line field (expression_tree value.now)) result }
{
    promised(is_read, line)?;
    let resolved = expression(alloc, names, value)?;
    Ok(makers::field_statement(line, field, resolved))
}

pub(crate) fn return_statement(
    alloc: Global,
    methods: &[Method<Word, Word>],
    names: &[Name],
    value: &Expression<Word>,
) -> Result<Statement<u8, u16>, CheckNo>
    requires { length names.now ≤ MOST_NAMES }
    ensures { (is_read : Bool) → StepsTo (map method_tree methods.now) is_read names.now names.now (Return (expression_tree value.now)) result }
{
    let resolved = expression(alloc, names, value)?;
    Ok(makers::return_statement(resolved))
}
