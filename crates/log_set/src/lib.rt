//! One log as a part of the machine: the records that were added to it, as they are written, and which of them are durable.
//!
//! A `Pending` is the list side of a log: the keys of all records in the order in which they were added, how many of them are
//! synced, and the bytes of those that are not. A `LogPart` is that list in the machine's words: each contract tells what the
//! call means for every log of the machine that the value shows. Records are spelled into an `Item` before the event that
//! writes them, so that adding one lacks no memory, and each condition of the event table that reads a log is one asking. The
//! core adds a record at each event that writes one, and asks what is durable. A host appends the bytes that `group` gives to
//! the device, syncs it, and then says so.
#![tactic(auto)]

mod askings;
mod item;
mod laws;
mod part;
mod pending;
mod places;

pub use item::Item;
pub use laws::{records_are_told_once, records_have_the_keys_of_their_kinds};
pub use part::LogPart;
pub use pending::Pending;
