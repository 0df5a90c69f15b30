//! The types of a tree: programs, methods, blocks, statements and expressions.

use aml_tokens::Word;
use snap_base::Sequence;

/// A program: its methods in the order of the text. `V` stands for a variable and `M` for a method that
/// is called.
#[derive(Drop)]
pub struct Program<V, M> {
    pub methods: Sequence<Method<V, M>>,
}

/// A method: whether it promises only to read, a name, its parameters, and what it does.
#[derive(Drop)]
pub struct Method<V, M> {
    /// Whether the word `read` stands before `method`. A checked program keeps the promise: such a method
    /// assigns no field and calls only methods that promise only to read.
    pub is_read: bool,
    pub name: Word,
    pub parameters: Sequence<V>,
    pub body: Block<Statement<V, M>>,
}

/// Statements between braces.
#[derive(Drop)]
pub struct Block<S> {
    pub statements: Vec<S>,
    /// The line of the closing brace, from 1 on.
    pub last_line: u32,
}

/// A statement, over what stands for a variable and for a method. Where it has a line, it begins there, from
/// 1 on.
#[derive(Drop)]
pub enum Statement<V, M> {
    /// A new variable takes the value.
    Let {
        line: u32,
        variable: V,
        value: Expression<V>,
    },
    /// A new variable takes what a method gives that is called on an actor.
    Call {
        line: u32,
        variable: V,
        target: Expression<V>,
        method: M,
        arguments: Vec<Expression<V>>,
    },
    /// A variable that there is takes the value.
    Set {
        variable: V,
        value: Expression<V>,
    },
    /// The actor's field `f0` to `f15` takes the value.
    SetField {
        line: u32,
        field: u8,
        value: Expression<V>,
    },
    /// The block where the condition holds.
    If {
        condition: Expression<V>,
        first: Block<Statement<V, M>>,
    },
    /// The first block where the condition holds, and else the other.
    IfElse {
        condition: Expression<V>,
        first: Block<Statement<V, M>>,
        other: Block<Statement<V, M>>,
    },
    /// The block as long as the condition holds.
    While {
        condition: Expression<V>,
        body: Block<Statement<V, M>>,
    },
    /// The transaction fails with the code, 1 to 999.
    Fail {
        code: u16,
    },
    /// The method ends with the value.
    Return {
        value: Expression<V>,
    },
}

/// An expression, over what stands for a variable. Where it has a line, it stands there, from 1 on.
#[derive(Drop)]
pub enum Expression<V> {
    /// A number from 0 to 2^63 - 1.
    Number(u64),
    Variable(V),
    /// A field of the actor, 0 to 15.
    Field {
        field: u8,
        line: u32,
    },
    /// The number of the actor on which the method runs.
    Own,
    /// An expression in parentheses.
    Group(Box<Expression<V>>),
    /// The negative of an operand.
    Negative(Box<Expression<V>>),
    /// An operand, and further ones that operators join to it from the left.
    Chain {
        first: Box<Expression<V>>,
        rest: Vec<Link<Expression<V>>>,
    },
}

/// An operator and the operand behind it.
#[derive(Drop)]
pub struct Link<E> {
    pub operator: Operator,
    pub operand: E,
}

/// An operator, from the loosest to the tightest.
#[derive(Clone, Copy, Debug, PartialEq, Eq, Hash)]
pub enum Operator {
    Or,
    And,
    Equal,
    NotEqual,
    Less,
    LessOrEqual,
    Greater,
    GreaterOrEqual,
    Plus,
    Minus,
    Times,
    /// Division.
    Over,
    Remainder,
}
