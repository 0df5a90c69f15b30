//! The tokens of the method language: what its words, numbers and signs are, where each stands in a
//! text, and the first piece of a text that is no token. `aml_parser` reads programs of them.
//!
//! How bytes make tokens is `specs/Lexing.antt`. Reading never fails but for want of memory: a piece
//! that is no token is told with its place and what is wrong with it.
#![tactic(auto)]

mod bytes;
mod laws;
mod lexer;
mod limits;
mod pieces;
mod places;
mod spellings;
mod tokens;
mod words;
mod writer;

pub use laws::{tokens_are_read, written_is_read};
pub use lexer::{Lexed, lex};
pub use limits::{LONGEST_NAME, LONGEST_PROGRAM};
pub use places::position;
pub use spellings::{field_bytes, symbol_bytes};
pub use tokens::{Name, Symbol, TextCause, Token, Word};
pub use writer::Writer;
