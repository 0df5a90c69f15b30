//! Programs made flat.

ghost use Rattle.std.specs.Prelude.{◌≡◌, ◌∷◌, ◌++◌, [], take, length, map, slice_index_or, IfOk};
ghost use Rattle.aml_tree.specs.Tree.{block_tree, method_tree, program_tree, statement_tree};
ghost use Rattle.aml_flat.specs.Flat.{AllLie, Extends, LiesAt, SaysStatement, SayStatements};

use crate::expressions::{flat, flat_row};
use crate::operations::{BlockPlace, FlatProgram, Operation};
use aml_tree::{Block, Method, Program, Statement};
use snap_base::Memory;
use std::alloc::Global;

// In each function `operations` are those that were made so far. Want of memory leaves some more of them.

/// Puts the operations of a block behind those of its inner blocks, and tells where it lies.
#[cycle(blocks)]
fn block(
    alloc: Global,
    code: &Block<Statement<u8, u16>>,
    operations: &mut Vec<Operation>,
) -> Result<BlockPlace, Memory>
    ensures more { IfOk result (λ _. Extends operations.old.items operations.new.items) }
    ensures lies { IfOk result (λ q. LiesAt operations.new.items q (block_tree code.now)) }
{
    let mut row = Vec::new(alloc);
    for (at, one) in code.statements.iter().enumerate() {
        let operation = statement(alloc, at, one, operations)?;
        put(&mut row, operation)?;
    }
    let count = statement_count(code);
    let first = place(row, operations)?;
    Ok(BlockPlace { first, count })
}

fn put(row: &mut Vec<Operation>, operation: Operation) -> Result<(), Memory>
    ensures { IfOk result (λ _. row.new.items ≡ row.old.items ++ operation ∷ []) }
{
    row.push(operation)?;
    Ok(())
}

/// How many statements a block has.
fn statement_count(code: &Block<Statement<u8, u16>>) -> usize
    ensures { result ≡ length code.now.statements.items }
{
    code.statements.len()
}

/// Puts the operations of a block's statements, and its end, behind others.
fn place(mut row: Vec<Operation>, operations: &mut Vec<Operation>) -> Result<usize, Memory>
    ensures start { IfOk result (λ start. start ≡ length operations.old.items) }
    ensures placed { IfOk result (λ _. operations.new.items ≡ operations.old.items ++ (row.items ++ Operation.End ∷ [])) }
{
    row.push(Operation::End)?;
    let start = operations.len();
    operations.append(&mut row)?;
    Ok(start)
}

/// The operation of a statement, which is at a place of its block, once its inner blocks lie behind others.
#[cycle(blocks)]
fn statement(
    alloc: Global,
    at: usize,
    one: &Statement<u8, u16>,
    operations: &mut Vec<Operation>,
) -> Result<Operation, Memory>
    ensures more { IfOk result (λ _. Extends operations.old.items operations.new.items) }
    ensures says { IfOk result (λ o. SaysStatement operations.new.items at o (statement_tree one.now)) }
{
    match one {
        Statement::Let {
            line: _,
            variable: _,
            value,
        } => Ok(Operation::Let {
            value: flat(alloc, value)?,
        }),
        Statement::Call {
            line: _,
            variable: _,
            target,
            method,
            arguments,
        } => Ok(Operation::Call {
            at,
            target: flat(alloc, target)?,
            method: *method,
            arguments: flat_row(alloc, arguments)?,
        }),
        Statement::Set { variable, value } => Ok(Operation::Set {
            variable: *variable,
            value: flat(alloc, value)?,
        }),
        Statement::SetField {
            line: _,
            field,
            value,
        } => Ok(Operation::SetField {
            field: *field,
            value: flat(alloc, value)?,
        }),
        Statement::If { condition, first } => Ok(Operation::If {
            at,
            condition: flat(alloc, condition)?,
            first: block(alloc, first, operations)?,
        }),
        Statement::IfElse {
            condition,
            first,
            other,
        } => Ok(Operation::IfElse {
            at,
            condition: flat(alloc, condition)?,
            first: block(alloc, first, operations)?,
            other: block(alloc, other, operations)?,
        }),
        Statement::While { condition, body } => Ok(Operation::While {
            at,
            condition: flat(alloc, condition)?,
            body: block(alloc, body, operations)?,
        }),
        Statement::Fail { code } => Ok(Operation::Fail { code: *code }),
        Statement::Return { value } => Ok(Operation::Return {
            value: flat(alloc, value)?,
        }),
    }
}

/// A program as flat code, which is no longer than the program but for an end of each block. Want of memory gives it up.
pub fn flatten(alloc: Global, program: &Program<u8, u16>) -> Result<FlatProgram, Memory>
    ensures { IfOk result (λ f. AllLie f.operations.items f.bodies.items (program_tree program.now)) }
{
    let mut operations = Vec::new(alloc);
    let mut bodies = Vec::new(alloc);
    for method in program.methods.as_slice() {
        let body = block(alloc, &method.body, &mut operations)?;
        put_body(&mut bodies, body)?;
    }
    Ok(FlatProgram { operations, bodies })
}

fn put_body(bodies: &mut Vec<BlockPlace>, body: BlockPlace) -> Result<(), Memory>
    ensures { IfOk result (λ _. bodies.new.items ≡ bodies.old.items ++ body ∷ []) }
{
    bodies.push(body)?;
    Ok(())
}
