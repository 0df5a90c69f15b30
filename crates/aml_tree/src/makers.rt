//! Trees put together: each function says which tree its result is. `V` stands for a variable and `M` for
//! a method that is called.

ghost use Rattle.std.specs.Prelude.{◌≡◌, ◌∷◌, ◌++◌, [], map, IfOk};
ghost use Rattle.aml_tree.specs.Tree.{Code, Let, Call, Set, SetField, Return, Fail, While, If, IfElse, Group, Negative, Number, Variable, Field, Own, expression_tree, link_trees, chain_tree, statement_tree, statements_tree, block_tree};

use crate::{Block, Expression, Link, Operator, Statement};
use snap_base::Memory;
use std::alloc::Global;

/// A number from 0 to 2^63 - 1.
pub fn number<V: Drop>(n: u64) -> Expression<V>
    ensures { expression_tree result ≡ Number n }
{
    Expression::Number(n)
}

/// A variable.
pub fn variable<V: Drop>(variable: V) -> Expression<V>
    ensures { expression_tree result ≡ Variable variable }
{
    Expression::Variable(variable)
}

/// A field, 0 to 15, in a line.
pub fn field<V: Drop>(field: u8, line: u32) -> Expression<V>
    ensures { expression_tree result ≡ Field field line }
{
    Expression::Field { field, line }
}

/// The number of the actor on which the method runs, `self`.
pub fn own<V: Drop>() -> Expression<V>
    ensures { expression_tree result ≡ Own }
{
    Expression::Own
}

/// An expression in parentheses. Want of memory gives up the expression.
pub fn group<V: Drop>(alloc: Global, inner: Expression<V>) -> Result<Expression<V>, Memory>
    ensures { IfOk result (λ e. expression_tree e ≡ Group (expression_tree inner)) }
{
    Ok(Expression::Group(Box::new(alloc, inner)?))
}

/// The negative of an expression. Want of memory gives up the expression.
pub fn negative<V: Drop>(alloc: Global, inner: Expression<V>) -> Result<Expression<V>, Memory>
    ensures { IfOk result (λ e. expression_tree e ≡ Negative (expression_tree inner)) }
{
    Ok(Expression::Negative(Box::new(alloc, inner)?))
}

/// An operand and further ones that operators join to it from the left. Want of memory gives them up.
pub fn chain<V: Drop>(
    alloc: Global,
    first: Expression<V>,
    rest: Vec<Link<Expression<V>>>,
) -> Result<Expression<V>, Memory>
    ensures { IfOk result (λ e. expression_tree e ≡ chain_tree (expression_tree first) (link_trees rest.items)) }
{
    Ok(Expression::Chain {
        first: Box::new(alloc, first)?,
        rest,
    })
}

/// Puts an operator and the operand behind it at the end of a chain. Want of memory gives up the operand and leaves unknown
/// links.
pub fn put_link<V: Drop>(
    rest: &mut Vec<Link<Expression<V>>>,
    operator: Operator,
    operand: Expression<V>,
) -> Result<(), Memory>
    ensures { IfOk result (λ _. link_trees rest.new.items ≡ link_trees rest.old.items ++ record { operator = operator; operand = expression_tree operand } ∷ []) }
{
    rest.push(Link { operator, operand })?;
    Ok(())
}

/// Puts a value at the end of the arguments of a call. Want of memory gives up the value and leaves unknown arguments.
pub fn put_argument<V: Drop>(
    arguments: &mut Vec<Expression<V>>,
    value: Expression<V>,
) -> Result<(), Memory>
    ensures { IfOk result (λ _. map expression_tree arguments.new.items ≡ map expression_tree arguments.old.items ++ expression_tree value ∷ []) }
{
    arguments.push(value)?;
    Ok(())
}

/// `let`: a new variable takes the value. The statement begins in the line, which counts from 1 on.
pub fn let_statement<V: Drop, M: Drop>(
    line: u32,
    variable: V,
    value: Expression<V>,
) -> Statement<V, M>
    ensures { (rest : Code V M) → statement_tree result rest ≡ Let line variable (expression_tree value) rest }
{
    Statement::Let {
        line,
        variable,
        value,
    }
}

/// A new variable takes what a method gives that is called on an actor. The statement begins in the line, which counts from 1
/// on.
pub fn call_statement<V: Drop, M: Drop>(
    line: u32,
    variable: V,
    target: Expression<V>,
    method: M,
    arguments: Vec<Expression<V>>,
) -> Statement<V, M>
    ensures { (rest : Code V M) → statement_tree result rest ≡ Call line variable (expression_tree target) method (map expression_tree arguments.items) rest }
{
    Statement::Call {
        line,
        variable,
        target,
        method,
        arguments,
    }
}

/// A variable that there is takes the value.
pub fn set_statement<V: Drop, M: Drop>(variable: V, value: Expression<V>) -> Statement<V, M>
    ensures { (rest : Code V M) → statement_tree result rest ≡ Set variable (expression_tree value) rest }
{
    Statement::Set { variable, value }
}

/// The actor's field, 0 to 15, takes the value. The statement begins in the line, which counts from 1 on.
pub fn field_statement<V: Drop, M: Drop>(
    line: u32,
    field: u8,
    value: Expression<V>,
) -> Statement<V, M>
    ensures { (rest : Code V M) → statement_tree result rest ≡ SetField line field (expression_tree value) rest }
{
    Statement::SetField { line, field, value }
}

/// The block where the condition holds.
pub fn if_statement<V: Drop, M: Drop>(
    condition: Expression<V>,
    first: Block<Statement<V, M>>,
) -> Statement<V, M>
    ensures { (rest : Code V M) → statement_tree result rest ≡ If (expression_tree condition) (block_tree first) rest }
{
    Statement::If { condition, first }
}

/// The first block where the condition holds, and else the other.
pub fn if_else_statement<V: Drop, M: Drop>(
    condition: Expression<V>,
    first: Block<Statement<V, M>>,
    other: Block<Statement<V, M>>,
) -> Statement<V, M>
    ensures { (rest : Code V M) → statement_tree result rest ≡ IfElse (expression_tree condition) (block_tree first) (block_tree other) rest }
{
    Statement::IfElse {
        condition,
        first,
        other,
    }
}

/// The block as long as the condition holds.
pub fn while_statement<V: Drop, M: Drop>(
    condition: Expression<V>,
    body: Block<Statement<V, M>>,
) -> Statement<V, M>
    ensures { (rest : Code V M) → statement_tree result rest ≡ While (expression_tree condition) (block_tree body) rest }
{
    Statement::While { condition, body }
}

/// The transaction fails with the code, 1 to 999.
pub fn fail_statement<V: Drop, M: Drop>(code: u16) -> Statement<V, M>
    ensures { (rest : Code V M) → statement_tree result rest ≡ Fail code rest }
{
    Statement::Fail { code }
}

/// The method ends with the value.
pub fn return_statement<V: Drop, M: Drop>(value: Expression<V>) -> Statement<V, M>
    ensures { (rest : Code V M) → statement_tree result rest ≡ Return (expression_tree value) rest }
{
    Statement::Return { value }
}

/// Puts a statement at the end of a block. Want of memory gives up the statement and leaves an unknown block.
pub fn put_statement<V: Drop, M: Drop>(
    block: &mut Vec<Statement<V, M>>,
    statement: Statement<V, M>,
) -> Result<(), Memory>
    ensures { IfOk result (λ _. (rest : Code V M) → statements_tree block.new.items rest ≡ statements_tree block.old.items (statement_tree statement rest)) }
{
    block.push(statement)?;
    Ok(())
}
