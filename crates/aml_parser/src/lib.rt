//! The reader of the method language: a program's text as the tree that it spells, or the text's first
//! fault, with the line and the column where it stands.
//!
//! Its callers are those that have a text: the reader of work texts, and tests. What stands on programs alone
//! stands on `aml_tree`, which has the trees, the grammar and the limits. The first fault of a text that is no
//! program is `specs/Faults.antt`.
#![tactic(auto)]

mod attaching;
mod expressions;
mod faults;
mod laws;
mod looks;
mod methods;
mod parse;
mod readers;
mod signs;
mod statements;

pub use faults::{TextFault, TextNo};
pub use laws::{faults_stand_in_the_text, faulty, lines_stand_in_the_text, one_fault, one_program};
pub use parse::{parse_program, parse_program_bytes};
