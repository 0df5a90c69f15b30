//! Flat code: what a checked program does, one operation for a statement, with jumps in place of inner blocks, and one row of
//! parts in place of an expression's tree. `flatten` makes it of a program's tree, and `specs/Flat.antt` says what of a tree
//! operations say. `aml_check` keeps it beside the tree, and `aml_resume` runs it.
#![tactic(auto)]

mod expressions;
mod operations;
mod programs;

pub use operations::{BlockPlace, FlatExpression, FlatProgram, Operand, Operation, Part};
pub use programs::flatten;
