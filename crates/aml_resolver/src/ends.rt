//! Whether a method's block ends in a value or a failure.

ghost use Rattle.std.specs.Prelude.{◌≡◌, ℕ};
ghost use Rattle.aml_tree.specs.Tree.{End, block_tree, statement_tree};
ghost use Rattle.aml_check.specs.Closed.{ends};
ghost use Rattle.aml_resolver.specs.Faults.{end_faults};
ghost use Rattle.aml_resolver.specs.Resolving.{Passes};

use crate::{CheckCause, CheckFault, CheckNo};
use aml_tokens::Word;
use aml_tree::{Block, Statement};

/// Whether the last statement is a return, a fail, or a choice of two blocks that end so.
#[cycle(ends)]
fn ends(code: &Block<Statement<Word, Word>>) -> bool
    ensures { result ≡ ends (block_tree code.now) }
{
    let count = code.statements.len();
    if count == 0 {
        false
    } else {
        ends_with(&code.statements[count - 1])
    }
}

/// Whether a block ends whose last statement this is.
#[cycle(ends)]
fn ends_with(last: &Statement<Word, Word>) -> bool
    ensures { (line : ℕ) → result ≡ ends (statement_tree last.now (End line)) }
{
    match last {
        Statement::Return { value: _ } => true,
        Statement::Fail { code: _ } => true,
        Statement::IfElse {
            condition: _,
            first,
            other,
        } => ends(first) && ends(other),
        Statement::Let {
            line: _,
            variable: _,
            value: _,
        } => false,
        Statement::Call {
            line: _,
            variable: _,
            target: _,
            method: _,
            arguments: _,
        } => false,
        Statement::Set {
            variable: _,
            value: _,
        } => false,
        Statement::SetField {
            line: _,
            field: _,
            value: _,
        } => false,
        Statement::If {
            condition: _,
            first: _,
        } => false,
        Statement::While {
            condition: _,
            body: _,
        } => false,
    }
}

/// That a method ends before its last brace.
pub(crate) fn ended(code: &Block<Statement<Word, Word>>) -> Result<(), CheckNo>
    ensures { Passes (end_faults (block_tree code.now)) result }
{
    if ends(code) {
        Ok(())
    } else {
        Err(CheckNo::Fault(CheckFault {
            line: code.last_line,
            cause: CheckCause::NoReturn,
        }))
    }
}
