//! The words that every crate above speaks: who a transaction is, where it stands in the serial
//! order, what it asks for, and what became of it. All of it is plain data: a value of these types
//! is never in a wrong state, and each layer says for itself what it asks of one. What a transaction alone gives, and a list
//! of them one after the other, is said here too, so that the language and the machine can be said to mean the same. `proofs/`
//! has facts on lists, options and Booleans that many crates use.
#![tactic(auto)]

mod ids;
mod memory;
mod next;
mod sequences;
mod transactions;
mod verdicts;

pub use ids::{ActorId, Bid, Tid, TxNo};
pub use memory::Memory;
pub use next::Next;
pub use sequences::Sequence;
pub use transactions::{FIELDS, Kind, State, SubBatch, Tx, TxResult, Who};
pub use verdicts::{Place, Verdict};
