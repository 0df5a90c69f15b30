//! Tokens, the names and words that trees keep of them, and what may be wrong with a text.

use snap_base::Sequence;

/// A name of a method or a variable, as its bytes: a letter or `_`, then letters, digits and `_`.
pub type Name = Sequence<u8>;

/// A name where it stands.
#[derive(Drop)]
pub struct Word {
    pub name: Name,
    /// The line, from 1 on.
    pub line: u32,
}

/// What is wrong with a text.
#[derive(Clone, Copy, Debug, PartialEq, Eq, Hash)]
pub enum TextCause {
    /// A byte that has no use outside comments.
    BadByte,
    /// A number with a leading zero or with a letter or `_` right behind it, a name of more than 32
    /// bytes, or `!` without `=`.
    BadToken,
    /// No program goes on with this token, or none ends here.
    Unexpected,
    /// A number above 2^63 - 1, or a code behind `fail` that is not 1 to 999.
    NumberRange,
    /// The 33rd level of blocks, parentheses and signs opens.
    TooDeep,
    /// The 65th method, a 9th parameter, a 33rd name of a method, or a token that does not lie within
    /// the first 65,536 bytes.
    TooMany,
}

/// The keywords and the signs, but for `let` and the closing brace.
#[derive(Clone, Copy, Debug, PartialEq, Eq, Hash)]
pub enum Symbol {
    Method,
    Read,
    If,
    Else,
    While,
    Call,
    Fail,
    Return,
    /// `self`
    Own,
    And,
    Or,
    /// `(`
    Open,
    /// `)`
    Close,
    /// `{`
    OpenBrace,
    Comma,
    Semicolon,
    /// `=`
    Assign,
    Equal,
    NotEqual,
    Less,
    LessOrEqual,
    Greater,
    GreaterOrEqual,
    Plus,
    Minus,
    Times,
    Over,
    Remainder,
}

/// A token. Where a tree keeps a token's line, the token has it, from 1 on.
#[derive(Clone, Copy)]
pub enum Token<'a> {
    Name { name: &'a [u8], line: u32 },
    /// 0 to 2^63 - 1.
    Number(u64),
    /// 0 to 15.
    Field { field: u8, line: u32 },
    Symbol(Symbol),
    Let { line: u32 },
    CloseBrace { line: u32 },
}
