//! The records of transactions that a journal keeps: each is one item of bytes, big-endian, with nothing
//! behind its last field. Every record has one spelling, and what is no record is told by the first byte at
//! which none goes on.
#![tactic(auto)]

mod decoding;
mod encoding;
mod keys;
mod laws;
mod limits;
mod numbers;
mod reading;
mod records;

pub use decoding::{DecodeNo, decode};
pub use encoding::encode;
pub use keys::{Key, key_of};
pub use laws::{one_record, records_are_short, states_fit, values_fit};
pub use limits::{LONGEST_RECORD, MOST_ACT_ACTORS, MOST_LISTED, MOST_LOGS};
pub use records::Record;
