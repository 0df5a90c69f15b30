//! The types of flat code.

use aml_tree::Operator;

/// An operand that is read in place.
#[derive(Clone, Copy)]
pub enum Operand {
    /// A number from 0 to 2^63 - 1.
    Number(u64),
    /// The place of a variable.
    Variable(u8),
    /// A field of the actor, 0 to 15, and the line in which it stands.
    Field { field: u8, line: u32 },
    /// The number of the actor on which the method runs.
    Own,
}

/// What an expression does next with the value that it has so far.
#[derive(Clone, Copy)]
pub enum Part {
    /// The operator joins the operand to the value.
    Join(Operator, Operand),
    /// The value is the left side of the operator. The right side begins with the operand, and ends with its `Close`.
    Open(Operator, Operand),
    /// The right side that was opened last is whole.
    Close,
    /// The value is made negative.
    Negate,
    /// The value stood in parentheses.
    Group,
}

/// An expression: an operand, two that an operator joins, or else an operand and the parts that follow it, in the order in which
/// they are done.
#[derive(Drop)]
pub enum FlatExpression {
    One(Operand),
    Two(Operator, Operand, Operand),
    Row { first: Operand, parts: Vec<Part> },
}

/// Where a block lies: the position of its first operation, and how many statements it has.
#[derive(Clone, Copy)]
pub struct BlockPlace {
    pub first: usize,
    pub count: usize,
}

/// What a statement does. `at` is its place in its block, from 0 on.
#[derive(Drop)]
pub enum Operation {
    /// The end of a block.
    End,
    /// A new variable takes the value.
    Let {
        value: FlatExpression,
    },
    /// A new variable takes what a method gives that is called on an actor.
    Call {
        at: usize,
        target: FlatExpression,
        method: u16,
        arguments: Vec<FlatExpression>,
    },
    /// A variable that there is takes the value.
    Set {
        variable: u8,
        value: FlatExpression,
    },
    /// The actor's field takes the value.
    SetField {
        field: u8,
        value: FlatExpression,
    },
    /// The block where the condition holds.
    If {
        at: usize,
        condition: FlatExpression,
        first: BlockPlace,
    },
    /// The first block where the condition holds, and else the other.
    IfElse {
        at: usize,
        condition: FlatExpression,
        first: BlockPlace,
        other: BlockPlace,
    },
    /// The block as long as the condition holds.
    While {
        at: usize,
        condition: FlatExpression,
        body: BlockPlace,
    },
    /// The transaction fails with the code, 1 to 999.
    Fail {
        code: u16,
    },
    /// The method ends with the value.
    Return {
        value: FlatExpression,
    },
}

/// The operations of a program, and where the body of each method lies.
#[derive(Drop)]
pub struct FlatProgram {
    pub operations: Vec<Operation>,
    pub bodies: Vec<BlockPlace>,
}
