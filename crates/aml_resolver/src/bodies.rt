//! Blocks with places for names.

ghost use Rattle.std.specs.Prelude.{◌≡◌, ◌+◌, ◌≤◌, ◌<◌, length, drop, map, slice_index_or, IfOk};
ghost use Rattle.aml_tree.specs.Limits.{lets};
ghost use Rattle.aml_tree.specs.Tree.{End, statement_tree, statements_tree, block_tree, method_tree};
ghost use Rattle.aml_resolver.specs.Faults.{block_faults};
ghost use Rattle.aml_check.specs.Names.{method_names};
ghost use Rattle.aml_resolver.specs.Names.{checked_block};
ghost use Rattle.aml_resolver.specs.Resolving.{Resolves, StepsTo};

use crate::CheckNo;
use crate::expressions::expression;
use crate::statements::{
    call_statement, field_statement, let_statement, return_statement, set_statement,
};
use aml_tokens::{Name, Word};
use aml_tree::{Block, MOST_METHODS, MOST_NAMES, Method, Statement, makers};
use std::alloc::Global;

// In each function `methods` are the program's, `is_read` says whether the method promises only to read, and
// `names` are the visible variables.

/// Resolves a block. Behind it those variables are visible that were visible before it.
#[cycle(bodies)]
pub(crate) fn block(
    alloc: Global,
    methods: &[Method<Word, Word>],
    is_read: bool,
    names: &mut Vec<Name>,
    code: &Block<Statement<Word, Word>>,
) -> Result<Block<Statement<u8, u16>>, CheckNo>
    requires room { length names.old.items + lets (block_tree code.now) ≤ MOST_NAMES }
    requires few { length methods.now ≤ MOST_METHODS }
    ensures resolved { Resolves block_tree (block_faults (map method_tree methods.now) is_read names.old.items (block_tree code.now)) (checked_block (method_names (map method_tree methods.now)) names.old.items (block_tree code.now)) result }
    ensures names { IfOk result (λ _. names.new.items ≡ names.old.items) }
{
    let visible = names.len();
    let mut resolved = Vec::new(alloc);
    for (at, each) in code.statements.iter().enumerate() {
        has_room(names.as_slice(), code.statements.as_slice(), at, each);
        let next = statement(alloc, methods, is_read, names, each)?;
        makers::put_statement(&mut resolved, next)?;
    }
    names.truncate(visible);
    Ok(Block {
        statements: resolved,
        last_line: code.last_line,
    })
}

/// Where a block's names fit from a statement on, those of the statement do.
fn has_room(
    _names: &[Name],
    _statements: &[Statement<Word, Word>],
    _at: usize,
    _one: &Statement<Word, Word>,
)
    requires within { _at < length _statements.now }
    requires here { _one.now ≡ slice_index_or _statements.now _at _one.now }
    requires room { length _names.now + lets (statements_tree (drop _at _statements.now) (End 0)) ≤ MOST_NAMES }
    ensures { length _names.now + lets (statement_tree _one.now (End 0)) ≤ MOST_NAMES }
{}

/// Resolves a statement.
#[cycle(bodies)]
fn statement(
    alloc: Global,
    methods: &[Method<Word, Word>],
    is_read: bool,
    names: &mut Vec<Name>,
    one: &Statement<Word, Word>,
) -> Result<Statement<u8, u16>, CheckNo>
    requires room { length names.old.items + lets (statement_tree one.now (End 0)) ≤ MOST_NAMES }
    requires few { length methods.now ≤ MOST_METHODS }
    ensures { StepsTo (map method_tree methods.now) is_read names.old.items names.new.items (statement_tree one.now) result }
{
    match one {
        Statement::Let {
            line,
            variable,
            value,
        } => let_statement(alloc, methods, names, *line, variable, value),
        Statement::Call {
            line,
            variable,
            target,
            method,
            arguments,
        } => call_statement(
            alloc, methods, is_read, names, *line, variable, target, method, arguments,
        ),
        Statement::Set { variable, value } => {
            set_statement(alloc, methods, names.as_slice(), variable, value)
        }
        Statement::SetField { line, field, value } => field_statement(
            alloc,
            methods,
            is_read,
            names.as_slice(),
            *line,
            *field,
            value,
        ),
        Statement::If { condition, first } => {
            let holds = expression(alloc, names.as_slice(), condition)?;
            let then = block(alloc, methods, is_read, names, first)?;
            Ok(makers::if_statement(holds, then))
        }
        Statement::IfElse {
            condition,
            first,
            other,
        } => {
            let holds = expression(alloc, names.as_slice(), condition)?;
            let then = block(alloc, methods, is_read, names, first)?;
            let otherwise = block(alloc, methods, is_read, names, other)?;
            Ok(makers::if_else_statement(holds, then, otherwise))
        }
        Statement::While { condition, body } => {
            let holds = expression(alloc, names.as_slice(), condition)?;
            let turn = block(alloc, methods, is_read, names, body)?;
            Ok(makers::while_statement(holds, turn))
        }
        Statement::Fail { code } => Ok(makers::fail_statement(*code)),
        Statement::Return { value } => return_statement(alloc, methods, names.as_slice(), value),
    }
}
