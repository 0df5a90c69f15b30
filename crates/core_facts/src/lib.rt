//! What the rows of the event table ask of the machine's parts is so on every run: numbers fit, what is new is not there
//! yet, a rollback cuts where the code looks for the cut, and each record has a spelling. No value stands here: one law
//! tells it, `rows_may_be_taken`, over the machine's state and in the words of the parts' own contracts. The core calls
//! it to cite it, at each row that calls a part.
#![tactic(auto)]

mod rows;

pub use rows::rows_may_be_taken;
