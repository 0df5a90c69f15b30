//! The resolver of names. `check` makes a `Checked` of a program's tree, or tells the first fault of its names
//! and of how its methods end. The faults, in the order of the text, are `specs/Faults.antt`; what names
//! become is `specs/Names.antt`.
#![tactic(auto)]

mod bodies;
mod calls;
mod checks;
mod ends;
mod expressions;
mod faults;
mod laws;
mod methods;
mod names;
mod statements;

pub use checks::check;
pub use faults::{CheckCause, CheckFault, CheckNo};
pub use laws::{checked_programs_are_closed, faults_stand_in_the_program};
