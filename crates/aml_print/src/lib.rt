//! Programs as texts: the printer of the trees that `aml_parser` reads. A text that it prints spells the
//! same program again, but for the lines; it is one line, with a blank only where two tokens need one.
#![tactic(auto)]

mod blocks;
mod expressions;
mod print;
mod statements;
mod tokens;

pub use print::print_program;
