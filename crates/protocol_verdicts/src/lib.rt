//! The laws of verdicts, over every run: who was told what, exactly where an event gave it, and what that tells of serial
//! runs. Public functions with empty bodies, whose contracts are the laws. Their proofs go on from those of protocol_laws
//! and protocol_theorems, and the rows of the parts do not stand on them, so they are checked beside these.
#![tactic(auto)]

mod verdicts;

pub use verdicts::{verdicts_have_evidence, verdicts_tell_of_serial_runs};
