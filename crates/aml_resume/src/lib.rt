//! A method run on one actor, from where it stands up to its next call. A method's place is a path of
//! statements and no reference, so it can lie beside other values until the call has given its value.
//! Its flat code is run, with the path as a stack: no tree is walked, and no memory is taken. How a
//! method is left, its pause, is a function of where it stands and of the actor's state
//! (`specs/Pausing.antt`); what a pause means, whatever calls give and whatever the states of other
//! actors are, is a law (`specs/Resuming.antt`). A method that only reads leaves the state
//! (`specs/Reading.antt`).
#![tactic(auto)]

mod activations;
mod arguments;
mod exits;
mod laws;
mod operations;
mod places;
mod resumes;
mod statements;
mod ways;

pub use activations::Activation;
pub use exits::Exit;
pub use laws::{counts_rise, pauses_as_meant, pauses_where_allowed, reading_leaves};
pub use places::Spot;
pub use resumes::resume;
