//! The method language as a tree: what a program is, how it is spelled, and its limits. `aml_parser` makes
//! such a tree of a text, and `aml_print` writes it as a text again.
//!
//! A tree keeps what the text says, with the lines of names, fields, of the word `let` and of closing braces,
//! and every group in parentheses, so each tree has one spelling. It is generic over what stands for a variable and for a
//! called method: words of the text, or, once `aml_resolver` has resolved them, places.
//!
//! Which texts are programs is `specs/Programs.antt`, by `specs/Grammar.antt` (trees, and how they are spelled
//! in tokens) and `specs/Limits.antt`.
#![tactic(auto)]

mod limits;
pub mod makers;
mod trees;

pub use limits::{GREATEST_CODE, MOST_LEVELS, MOST_METHODS, MOST_NAMES, MOST_PARAMETERS};
pub use trees::{Block, Expression, Link, Method, Operator, Program, Statement};
